// The noise floor and the bursts of samples, one case after another (docs/REPLAY.md, `bursts`).
#![tactic(auto)]

use bursts::{Burst, BurstOptions};
use limits::Refusal;
use replay::Unanswered;

// What a case hands to `find_bursts` besides its samples.
#[derive(Clone, Copy)]
struct Asked {
    rate: u32,
    options: BurstOptions,
    floor: f32,
}

// A burst found, or none.
fn next(dbm: &[f32], asked: Asked, from: usize) -> Result<Option<Burst>, Refusal> {
    bursts::find_bursts(dbm, asked.rate, asked.options, asked.floor, from)
}

fn print_burst(rt: &impl Print, b: Burst) {
    replay::print_number(rt, b.start);
    replay::print(rt, b" ");
    replay::print_number(rt, b.end);
    replay::print(rt, b" ");
    replay::print_f32(rt, b.peak_dbm);
    replay::print(rt, b" ");
    replay::print_f32(rt, b.floor_dbm);
    replay::print_end(rt);
}

// Goes through the bursts, which are no more than the samples, and says how many there are.
fn walk<F: Fn(Burst)>(dbm: &[f32], asked: Asked, each: F) -> Result<usize, Refusal>
    requires { F.IsAlwaysCallable each }
{
    let mut from: usize = 0;
    for n in 0..dbm.len() {
        let Some(b) = next(dbm, asked, from)? else {
            return Ok(n);
        };
        each(b);
        from = b.end;
    }
    Ok(dbm.len())
}

// The floor given, or where it is to be measured the noise floor.
fn floor_of(head: &[u8; 33], noise: f32) -> f32 {
    if head[28] == 1 {
        return noise;
    }
    endian::get::<f32>(head, 29)
}

fn asked_of(head: &[u8; 33], noise: f32) -> Asked {
    Asked {
        rate: endian::get::<u32>(head, 0),
        options: BurstOptions {
            above_db: endian::get::<f64>(head, 4),
            min_ms: endian::get::<f64>(head, 12),
            gap_ms: endian::get::<f64>(head, 20),
        },
        floor: floor_of(head, noise),
    }
}

fn case(rt: &(impl Input + Print), head: &[u8; 33]) -> Result<(), Unanswered> {
    let mut dbm = [0.0f32; 48001];
    let mut scratch = [0.0f32; 48001];
    let dbm = replay::read_list(rt, &mut dbm)?;
    let noise = bursts::noise_floor(dbm, &mut scratch)?;
    let asked = asked_of(head, noise);
    // asked once also where there are no samples, so that a refusal shows
    next(dbm, asked, 0)?;
    let count = walk(dbm, asked, |_| {})?;
    replay::print(rt, b"B ");
    replay::print_number(rt, count);
    replay::print(rt, b" ");
    replay::print_f32(rt, noise);
    replay::print_end(rt);
    walk(dbm, asked, |b| print_burst(rt, b))?;
    Ok(())
}

fn main(rt: HostRuntime) {
    replay::run(&rt, |head: [u8; 33]| case(&rt, &head));
}
