// Functions that the host's benchmark calls by C's convention, beside the Rust's: thin, so that the time is the callee's.
#![tactic(auto)]

ghost use Rattle.std.specs.Prelude.{◌≡◌, length};
ghost use Rattle.std.specs.Float.{binary32, binary64};
ghost use Rattle.bursts.specs.Bursts.{default_options, burst_answer};
ghost use Rattle.bursts.specs.Levels.{floor_answer};
ghost use Rattle.dips.specs.Dips.{dip_answer, dips_after};
ghost use Rattle.limits.specs.Answer.{answer, number, leaves, Free};
ghost use Rattle.clock.specs.Bits.{outcome, handed, bits_answer};
ghost use Rattle.bench.specs.Select.{selfsame, selected};
ghost use Rattle.demod.specs.Capture.{floor_of, captured, capture_answer, in_front};
ghost use Rattle.bench.specs.Demod.{level_of, end_of, count_of, bit_count_of};
ghost use Rattle.writer.specs.Uplink.{uplink_bits, bit_count};
ghost use Rattle.writer.specs.Answers.{write_cause, put_all};
ghost use Rattle.bench.specs.Writer.{sent_of, plain_fields};

use bursts::BurstOptions;
use frame::header::UplinkFields;

// Whether no element is a NaN. No early exit, so that it runs several elements at a time.
fn all_numbers<T: Copy + PartialEq>(xs: &[T]) -> bool
    ensures { result ≡ selfsame T.eq xs.now }
{
    let mut ok = true;
    for x in xs {
        ok &= *x == *x;
    }
    ok
}

// order::select, or 0 where it has no answer.
#[unsafe(no_mangle)]
pub extern "C" fn bench_select32(xs: &[f32], k: usize) -> f32
    ensures { result ≡ selected binary32 xs.now k }
{
    if xs.len() <= k {
        return 0.0;
    }
    if all_numbers(xs) {
        return order::select::<f32>(xs, k);
    }
    0.0
}

// order::select, or 0 where it has no answer.
#[unsafe(no_mangle)]
pub extern "C" fn bench_select64(xs: &[f64], k: usize) -> f64
    ensures { result ≡ selected binary64 xs.now k }
{
    if xs.len() <= k {
        return 0.0;
    }
    if all_numbers(xs) {
        return order::select::<f64>(xs, k);
    }
    0.0
}

// bursts::noise_floor, or 0 where it refuses.
#[unsafe(no_mangle)]
pub extern "C" fn bench_noise_floor(dbm: &[f32], scratch: &mut [f32]) -> f32
    ensures { (result ≡ level_of (floor_answer dbm.now (length scratch.old))) × (scratch.new ≡ scratch.old) }
{
    match bursts::noise_floor(dbm, scratch) {
        Err(_) => 0.0,
        Ok(x) => x,
    }
}

// Where the first burst of bursts::find_bursts from an index on ends, or 0 where there is none.
#[unsafe(no_mangle)]
pub extern "C" fn bench_next_burst(dbm: &[f32], rate: u32, floor: f32, from: usize) -> usize
    ensures { result ≡ end_of (burst_answer dbm.now rate default_options floor from) }
{
    match bursts::find_bursts(dbm, rate, BurstOptions::new(), floor, from) {
        Err(_) => 0,
        Ok(None) => 0,
        Ok(Some(b)) => b.end,
    }
}

// How many dips dips::find_dips hands over.
#[unsafe(no_mangle)]
pub extern "C" fn bench_find_dips(seg: &[f32], rate: u32, level: f64, dips: &mut [f64]) -> usize
    ensures { (result ≡ count_of (dip_answer seg.now rate level (length dips.old)))
        × (dips.new ≡ dips_after seg.now rate level dips.old) }
{
    match dips::find_dips(seg, rate, level, dips) {
        Err(_) => 0,
        Ok(n) => n,
    }
}

// How many bits there are by clock::burst_bits.
#[unsafe(no_mangle)]
pub extern "C" fn bench_burst_bits(
    seg: &[f32],
    rate: u32,
    bits: &mut [u8],
    scratch32: &mut [f32],
    scratch64: &mut [f64],
) -> usize
    ensures { (result ≡ bit_count_of (bits_answer seg.now rate (length bits.old) (length scratch32.old) (length scratch64.old)))
        × (bits.new ≡ leaves (number (bits_answer seg.now rate (length bits.old) (length scratch32.old) (length scratch64.old))) (handed (outcome seg.now rate) bits.old) bits.old)
        × Free (number (bits_answer seg.now rate (length bits.old) (length scratch32.old) (length scratch64.old))) scratch32.old scratch32.new
        × Free (number (bits_answer seg.now rate (length bits.old) (length scratch32.old) (length scratch64.old))) scratch64.old scratch64.new }
{
    match clock::burst_bits(seg, rate, bits, scratch32, scratch64) {
        Err(_) => 0,
        Ok(None) => 0,
        Ok(Some(b)) => b.count,
    }
}

// How many records demod::decode_capture writes, over the noise floor.
#[unsafe(no_mangle)]
pub extern "C" fn bench_capture(
    dbm: &[f32],
    rate: u32,
    t0: f64,
    events: &mut [u8],
    scratch32: &mut [f32],
    scratch64: &mut [f64],
) -> usize
    ensures { (result ≡ count_of (capture_answer dbm.now rate t0 None (length events.old) (length scratch32.old) (length scratch64.old)))
        × (events.new ≡ leaves (number (capture_answer dbm.now rate t0 None (length events.old) (length scratch32.old) (length scratch64.old))) (in_front (captured dbm.now rate t0 (floor_of None dbm.now)) events.old) events.old)
        × Free (number (capture_answer dbm.now rate t0 None (length events.old) (length scratch32.old) (length scratch64.old))) scratch32.old scratch32.new
        × Free (number (capture_answer dbm.now rate t0 None (length events.old) (length scratch32.old) (length scratch64.old))) scratch64.old scratch64.new }
{
    match demod::decode_capture(dbm, rate, t0, None, events, scratch32, scratch64) {
        Err(_) => 0,
        Ok(n) => n,
    }
}

// How many bits a repetition by writer::write_uplink has, or 0 where it refuses.
#[unsafe(no_mangle)]
pub extern "C" fn bench_write_uplink(
    device: u32,
    counter: u16,
    payload: &[u8],
    auth: &[u8],
    out: &mut [u8],
) -> usize
    ensures { (result ≡ sent_of (answer (write_cause (plain_fields device counter) payload.now auth.now (length out.old)) (bit_count (plain_fields device counter) payload.now)))
        × (out.new ≡ leaves (write_cause (plain_fields device counter) payload.now auth.now (length out.old)) (put_all (uplink_bits (plain_fields device counter) payload.now auth.now) out.old) out.old) }
{
    let fields = UplinkFields {
        device_id: device,
        counter: counter,
        bit: None,
        downlink: false,
    };
    match writer::write_uplink(fields, payload, auth, out) {
        Err(_) => 0,
        Ok(n) => n,
    }
}
