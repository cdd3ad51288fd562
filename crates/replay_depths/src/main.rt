// Dips with their depths, and the median depth of a burst's bits, one case a line (docs/REPLAY.md, `depths`).
#![tactic(auto)]

use replay::Unanswered;

// The longest scratch that is lent.
const MOST_SCRATCH: usize = 6001;

fn print_dips(rt: &impl Print, dips: &[f64], depths: &[f64]) {
    replay::print(rt, b"D ");
    replay::print_number(rt, dips.len());
    for (dip, depth) in dips.iter().zip(depths) {
        replay::print(rt, b" ");
        replay::print_f64(rt, *dip);
        replay::print(rt, b" ");
        replay::print_f64(rt, *depth);
    }
    replay::print_end(rt);
}

fn dips_row(rt: &(impl Input + Print)) -> Result<(), Unanswered> {
    let mut head = [0u8; 12];
    replay::read_part(rt, &mut head)?;
    let mut seg = [0.0f32; 48001];
    let mut dips = [0.0f64; limits::SCRATCH64];
    let seg = replay::read_list(rt, &mut seg)?;
    let rate = endian::get::<u32>(&head, 0);
    let level = endian::get::<f64>(&head, 4);
    let n = dips::find_dips(seg, rate, level, &mut dips)?.min(dips::DEPTHS);
    let (places, depths) = dips.split_at(dips::DEPTHS);
    print_dips(rt, &places[..n], depths);
    Ok(())
}

fn print_bits(rt: &impl Print, points: usize, depth: f64) {
    replay::print(rt, b"B ");
    replay::print_number(rt, points);
    replay::print(rt, b" ");
    replay::print_f64(rt, depth);
    replay::print_end(rt);
}

fn bits_row(rt: &(impl Input + Print)) -> Result<(), Unanswered> {
    let mut head = [0u8; 6];
    replay::read_part(rt, &mut head)?;
    let mut seg = [0.0f32; 48001];
    let mut bits = [0u8; 1024];
    let mut scratch32 = [0.0f32; 48000];
    let mut scratch64 = [0.0f64; 6001];
    let seg = replay::read_list(rt, &mut seg)?;
    let rate = endian::get::<u32>(&head, 0);
    let room = usize::from(endian::get::<u16>(&head, 4)).min(MOST_SCRATCH);
    match clock::burst_bits(seg, rate, &mut bits, &mut scratch32, &mut scratch64[..room])? {
        None => replay::print_none(rt),
        Some(b) => print_bits(rt, b.points, b.depth),
    }
    Ok(())
}

// The case of a row; whether there may be another case.
fn row(rt: &(impl Input + Print), n: u8) -> Result<(), Unanswered> {
    match n {
        0 => dips_row(rt),
        1 => bits_row(rt),
        _ => Err(Unanswered::Short),
    }
}

fn main(rt: HostRuntime) {
    replay::run(&rt, |head: [u8; 1]| row(&rt, head[0]));
}
