// The dips of samples, one case a line (docs/REPLAY.md, `dips`).
#![tactic(auto)]

use replay::Unanswered;

fn print_dips(rt: &impl Print, dips: &[f64]) {
    replay::print(rt, b"D ");
    replay::print_number(rt, dips.len());
    for dip in dips {
        replay::print(rt, b" ");
        replay::print_f64(rt, *dip);
    }
    replay::print_end(rt);
}

fn case(rt: &(impl Input + Print), head: &[u8; 12]) -> Result<(), Unanswered> {
    let mut seg = [0.0f32; 48001];
    let mut dips = [0.0f64; limits::SCRATCH64];
    let seg = replay::read_list(rt, &mut seg)?;
    let rate = endian::get::<u32>(head, 0);
    let level = endian::get::<f64>(head, 4);
    let n = dips::find_dips(seg, rate, level, &mut dips)?;
    print_dips(rt, &dips[..n.min(dips::DEPTHS)]);
    Ok(())
}

fn main(rt: HostRuntime) {
    replay::run(&rt, |head: [u8; 12]| case(&rt, &head));
}
