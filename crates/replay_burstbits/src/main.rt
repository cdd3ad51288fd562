// The bits of a burst's samples, one case a line (docs/REPLAY.md, `burstbits`).
#![tactic(auto)]

use clock::BurstBits;
use replay::Unanswered;

fn print_bits(rt: &impl Print, b: BurstBits, bits: &[u8]) {
    replay::print_number(rt, b.count);
    replay::print(rt, b" ");
    replay::print_number(rt, b.points);
    replay::print(rt, b" ");
    replay::print_number(rt, b.clock_error_ppm);
    replay::print(rt, b" ");
    replay::print_f64(rt, b.period);
    replay::print(rt, b" ");
    replay::print_f32(rt, b.level);
    replay::print(rt, b" ");
    replay::print_digits(rt, &bits[..b.count.min(bits.len())]);
    replay::print_end(rt);
}

fn case(rt: &(impl Input + Print), head: &[u8; 4]) -> Result<(), Unanswered> {
    let mut seg = [0.0f32; 48001];
    let mut bits = [0u8; 1024];
    let mut scratch32 = [0.0f32; 48000];
    let mut scratch64 = [0.0f64; limits::SCRATCH64];
    let seg = replay::read_list(rt, &mut seg)?;
    let rate = endian::get::<u32>(head, 0);
    match clock::burst_bits(seg, rate, &mut bits, &mut scratch32, &mut scratch64)? {
        None => replay::print_none(rt),
        Some(b) => print_bits(rt, b, &bits),
    }
    Ok(())
}

fn main(rt: HostRuntime) {
    replay::run(&rt, |head: [u8; 4]| case(&rt, &head));
}
