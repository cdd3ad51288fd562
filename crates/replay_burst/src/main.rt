// The frame of a burst, one case a line (docs/REPLAY.md, `burst`).
#![tactic(auto)]

use bursts::Burst;
use demod::DecodedFrame;
use record::Reception;
use replay::Unanswered;

// The record is the C function's, with the clock error and the depth set.
fn print_frame(rt: &impl Print, d: DecodedFrame) {
    let mut out = [0u8; 120];
    let found = d.frame;
    let clock = Reception {
        clock_error_ppm: d.clock_error_ppm,
        rssi: 0.0,
        time: 0.0,
        end: 0.0,
        start: 0,
        depth: d.depth,
    };
    record::put_frame(found, clock, &mut out, 0);
    replay_records::print_record(rt, &mut out);
    replay::print(rt, b" ");
    replay::print_f64(rt, d.time);
    replay::print(rt, b" ");
    replay::print_f64(rt, d.end);
    replay::print(rt, b" ");
    replay::print_f32(rt, d.rssi);
    replay::print_end(rt);
}

fn burst_of(head: &[u8; 36]) -> Burst {
    Burst {
        start: endian::get::<u64>(head, 12) as usize,
        end: endian::get::<u64>(head, 20) as usize,
        peak_dbm: endian::get::<f32>(head, 28),
        floor_dbm: endian::get::<f32>(head, 32),
    }
}

fn case(rt: &(impl Input + Print), head: &[u8; 36]) -> Result<(), Unanswered> {
    let mut dbm = [0.0f32; 48001];
    let mut scratch32 = [0.0f32; 48000];
    let mut scratch64 = [0.0f64; limits::SCRATCH64];
    let dbm = replay::read_list(rt, &mut dbm)?;
    let rate = endian::get::<u32>(head, 0);
    let t0 = endian::get::<f64>(head, 4);
    let burst = burst_of(head);
    match demod::decode_burst(dbm, rate, burst, t0, &mut scratch32, &mut scratch64)? {
        None => replay::print_none(rt),
        Some(decoded) => print_frame(rt, decoded),
    }
    Ok(())
}

fn main(rt: HostRuntime) {
    replay::run(&rt, |head: [u8; 36]| case(&rt, &head));
}
