// The frames of a capture as records, one case after another (docs/REPLAY.md, `capture`).
#![tactic(auto)]

use replay::Unanswered;

// The floor given, none where it is to be measured.
fn floor_of(head: &[u8; 17]) -> Option<f32> {
    if head[12] == 1 {
        return None;
    }
    Some(endian::get::<f32>(head, 13))
}

fn case(rt: &(impl Input + Print), head: &[u8; 17]) -> Result<(), Unanswered> {
    let mut dbm = [0.0f32; 48001];
    let mut events = [0u8; 30720];
    let mut scratch32 = [0.0f32; 48000];
    let mut scratch64 = [0.0f64; limits::SCRATCH64];
    let dbm = replay::read_list(rt, &mut dbm)?;
    let rate = endian::get::<u32>(head, 0);
    let t0 = endian::get::<f64>(head, 4);
    let floor = floor_of(head);
    let count = demod::decode_capture(
        dbm,
        rate,
        t0,
        floor,
        &mut events,
        &mut scratch32,
        &mut scratch64,
    )?;
    replay::print(rt, b"C ");
    replay::print_number(rt, count);
    replay::print_end(rt);
    replay_records::print_records(rt, &mut events, count);
    Ok(())
}

fn main(rt: HostRuntime) {
    replay::run(&rt, |head: [u8; 17]| case(&rt, &head));
}
