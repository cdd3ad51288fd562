// The frame's CRC-16 and convolutional codes (frame.rs crc16, convolve, deconvolve). Bits are bytes 0 or 1.
#![tactic(auto)]

ghost use Rattle.std.specs.Prelude.{◌≡◌, true, ◌++◌, map, ◌<◌, ◌≤◌, length, drop};
ghost use Rattle.coding.specs.Bits.{odd, bit_of, plus, digits, are_bits};
ghost use Rattle.coding.specs.Crc.{crc_of};
ghost use Rattle.coding.specs.Register.{run};
ghost use Rattle.coding.specs.Convolution.{tap, state_of, numbered, state_after, convolved, deconvolved};
ghost use Rattle.limits.specs.Answer.{said, cause_of};
ghost use Rattle.coding.specs.Answers.{coding_cause, coding_answer, convolve_out, deconvolve_out};

use limits::Refusal;

// The CRC's divisor after x^16: x^12, x^5 and 1.
const X12: u16 = 4096;

const X5: u16 = 32;

// A message is sent at most three times, as ranks 0, 1 and 2.
pub const HIGHEST_RANK: u8 = 2;

// The register after the eight bits of a byte, the highest first. They meet the register's high byte; four of the sum's bits come round twice.
pub fn crc_byte(c: u16, b: u8) -> u16
    ensures { result ≡ run c (digits 8 b) }
{
    let x = ((c / 256) as u8) ^ b;
    let y = u16::from(x ^ (x / 16));
    let low = (c % 256) * 256;
    low ^ (((y % 16) * X12) ^ (y * X5) ^ y)
}

// The CRC of bytes (frame.rs crc16).
pub fn crc16(data: &[u8]) -> u16
    ensures { result ≡ crc_of «data».now }
{
    let mut c: u16 = 0;
    for b in data {
        c = crc_byte(c, *b);
    }
    65535 - c
}

// Whether no bit byte is over 1. No early exit, so that it runs many bytes at a time.
pub fn are_bits(bits: &[u8]) -> bool
    ensures { result ≡ are_bits bits.now }
{
    let mut ok = true;
    for b in bits {
        ok &= *b <= 1;
    }
    ok
}

// A bit with what the state adds to it: input to product and product to input. `p` is the last input, `q` the one before it.
pub fn coded_bit(b: u8, rank: u8, p: u8, q: u8) -> u8
    requires { (b < 2) × (p < 2) × (q < 2) }
    ensures { result ≡ bit_of (plus (odd b) (tap rank (state_of p q))) }
{
    if rank == 1 {
        return (b + (p + q)) % 2;
    }
    if rank == 2 {
        return (b + q) % 2;
    }
    b
}

// The first cause that applies.
fn check(bits: &[u8], rank: u8, room: usize) -> Result<(), Refusal>
    ensures { cause_of result ≡ coding_cause bits.now rank room }
{
    if room < bits.len() {
        return Err(Refusal::Short);
    }
    if limits::MOST_BITS < bits.len() {
        return Err(Refusal::Long);
    }
    if HIGHEST_RANK < rank || !are_bits(bits) {
        return Err(Refusal::BadNumber);
    }
    Ok(())
}

// The two inputs of a state, which is frame.rs's number: the last one counts 2, the one before it 1.
fn inputs_of(state: u8) -> (u8, u8)
    requires { state < 4 }
    ensures { (numbered state ≡ state_of result.0 result.1) × (result.0 < 2) × (result.1 < 2) }
{
    (state / 2, state % 2)
}

// The bits' product, from a state on, into the first places of `out`; the state after them.
pub fn convolve_from(bits: &[u8], rank: u8, state: u8, out: &mut [u8]) -> u8
    requires { (are_bits bits.now ≡ true) × (length bits.now ≤ length out.old) × (state < 4) }
    ensures { (out.new ≡ map bit_of (convolved rank (numbered state) (map odd bits.now)) ++ drop (length bits.now) out.old)
        × (numbered result ≡ state_after (numbered state) (map odd bits.now))
        × (result < 4) }
{
    let (mut p, mut q) = inputs_of(state);
    for (i, b) in bits.iter().enumerate() {
        // read once, before `out` is written, so that several are worked out at a time
        let x = *b;
        out[i] = coded_bit(x, rank, p, q);
        q = p;
        p = x;
    }
    2 * p + q
}

// The inputs of which the bits are the product, from a state on, into the first places of `out`; the state after them.
pub fn deconvolve_from(bits: &[u8], rank: u8, state: u8, out: &mut [u8]) -> u8
    requires { (are_bits bits.now ≡ true) × (length bits.now ≤ length out.old) × (state < 4) }
    ensures { (out.new ≡ map bit_of (deconvolved rank (numbered state) (map odd bits.now)) ++ drop (length bits.now) out.old)
        × (numbered result ≡ state_after (numbered state) (deconvolved rank (numbered state) (map odd bits.now)))
        × (result < 4) }
{
    let (mut p, mut q) = inputs_of(state);
    for (i, b) in bits.iter().enumerate() {
        let a = coded_bit(*b, rank, p, q);
        out[i] = a;
        q = p;
        p = a;
    }
    2 * p + q
}

// The bits as a repetition sends them (frame.rs convolve).
pub fn convolve(bits: &[u8], rank: u8, out: &mut [u8]) -> Result<usize, Refusal>
    ensures { (said result ≡ coding_answer bits.now rank out.old)
        × (out.new ≡ convolve_out bits.now rank out.old) }
{
    check(bits, rank, out.len())?;
    convolve_from(bits, rank, 0, out);
    Ok(bits.len())
}

// The bits that a repetition sent (frame.rs deconvolve).
pub fn deconvolve(bits: &[u8], rank: u8, out: &mut [u8]) -> Result<usize, Refusal>
    ensures { (said result ≡ coding_answer bits.now rank out.old)
        × (out.new ≡ deconvolve_out bits.now rank out.old) }
{
    check(bits, rank, out.len())?;
    deconvolve_from(bits, rank, 0, out);
    Ok(bits.len())
}
