// The carrier frequency offset (CFO) register of frequency.rs: a value as a signed offset, the Hz of one step, a
// reading's frequency, and rounding to whole Hz.
#![tactic(auto)]

ghost use Rattle.std.specs.Prelude.{◌≡◌};
ghost use Rattle.limits.specs.Answer.{said};
ghost use Rattle.cfo.specs.Cfo.{signed, interpolation, mantissa, step_hz, reading_hz, round_hz};

use limits::Refusal;

// The receiver's crystal.
const XTAL_HZ: f64 = 32_000_000.0;

// The register has 12 bits; from the sign bit on its values are negative.
const REGISTER: u16 = 4096;

const SIGN: u16 = 2048;

const STEPS: f64 = 4096.0;

// Measured on hardware (LSM100A, RX_BW 234 kHz): one frame read 50 171 Hz from one receiver frequency and 3 784 Hz from
// another 50 171 Hz higher, so the register gives 0.925 of the offset; frames 2 and 3 came out 11.1-11.4 kHz apart instead
// of 12 kHz (0.926-0.946).
pub const CFO_SCALE: f64 = 0.93;

// A raw 12-bit register value as a signed offset (cfo_signed).
pub fn cfo_signed(v: u16) -> i32
    ensures { result ≡ signed v }
{
    let w = v % REGISTER;
    if w < SIGN {
        return w as i32;
    }
    -((REGISTER - w) as i32)
}

// The divisor that a BWSELR mantissa stands for.
fn mant(code: u8) -> u32
    ensures { result ≡ mantissa code }
{
    match code {
        0 => 4,
        1 => 8,
        2 => 10,
        _ => 12,
    }
}

// How often the register's filter runs for each sample, by the oversampling.
fn interp(osr: f64) -> f64
    ensures { result ≡ interpolation osr }
{
    whole::pick(osr < 4.0, 4.0, whole::pick(osr < 8.0, 2.0, 1.0))
}

// Hz per CFO step, as in SUBGRF_GetCFO (STM32CubeWL): the RX_BW code has the BWSELR layout (cfo_step_hz). Refusal 9 for
// the bit rate 0.
pub fn cfo_step_hz(bw_code: u8, bit_rate: u32) -> Result<f64, Refusal>
    ensures { said result ≡ step_hz bw_code bit_rate }
{
    if bit_rate == 0 {
        return Err(Refusal::BadNumber);
    }
    let m = mant(bw_code / 8 % 4);
    let cf_fs = XTAL_HZ / ((m as f64) * ((1u32 << (bw_code % 8 + 1)) as f64));
    let osr = floats::floor64(cf_fs / (bit_rate as f64));
    Ok(cf_fs * interp(osr) / STEPS)
}

// The frequency that the register value v stands for at the receiver frequency lo (the hz of a Reading).
pub fn reading_hz(lo: u32, v: u16, step: f64) -> f64
    ensures { result ≡ reading_hz lo v step }
{
    (lo as f64) + (cfo_signed(v) as f64) * step / CFO_SCALE
}

// Math.round of the TypeScript host, as a u32: halves go up (round_hz).
pub fn round_hz(x: f64) -> u32
    ensures { result ≡ round_hz x }
{
    floats::to_u32_saturating(floats::round_half_up(x))
}
