// The dips of a burst, a line each.
ghost use Rattle.std.specs.Prelude.{◌≤◌, length};

use crate::tally::Near;
use crate::words::{print_count, print_db, print_parts};
use clock::Clock;
use explaining::Verdict;

fn print_dip(rt: &impl Print, at: f64, depth: f64) {
    replay::print(rt, b"  dip at ");
    print_parts(rt, at);
    replay::print(rt, b" s: ");
    print_db(rt, depth);
    replay::print(rt, b" dB deep (");
    print_db(rt, explaining::depth_margin(depth));
    replay::print(rt, b" over 6)");
}

fn print_accepted(rt: &impl Print, bit: usize, off: f64) {
    replay::print(rt, b", bit ");
    replay::print_number(rt, bit);
    replay::print(rt, b", ");
    print_parts(rt, off);
    replay::print(rt, b" of a bit off the grid (");
    print_parts(rt, explaining::grid_margin(off));
    replay::print(rt, b" left of 0.35)\n");
}

fn print_off_grid(rt: &impl Print, off: f64) {
    replay::print(rt, b", skipped: ");
    print_parts(rt, off);
    replay::print(rt, b" of a bit off the grid, over 0.35\n");
}

fn print_behind(rt: &impl Print, off: f64) {
    replay::print(rt, b", skipped: ");
    print_parts(rt, off);
    replay::print(
        rt,
        b" of a bit off the grid, but its bit is not past that of the dip before\n",
    );
}

// The number of a clock's last bit, its first being 1: the place of the dip in the bits.
fn bit_of(c: Clock) -> usize {
    dips::back(c.last, c.first).wrapping_add(1)
}

// The clock while it goes through the dips, and the smallest margins of those that it accepted.
#[derive(Clone, Copy)]
struct Walk {
    clock: Clock,
    near: Near,
}

impl Walk {
    // One dip; none follows, and false is the answer, where a bit index is lost.
    fn step(&mut self, rt: &impl Print, at: f64, d: f64, depth: f64) -> bool {
        if limits::SCRATCH64 <= self.clock.count {
            return false;
        }
        print_dip(rt, at, depth);
        match explaining::judge(self.clock, d) {
            Verdict::Lost => {
                replay::print(rt, b", and it has no bit: no bits are read\n");
                return false;
            }
            Verdict::OffGrid(off) => print_off_grid(rt, off),
            Verdict::Behind(off) => print_behind(rt, off),
            Verdict::Accepted(next, off) => {
                print_accepted(rt, bit_of(next), off);
                self.clock = next;
                self.near = self.near.with(depth, off);
            }
        }
        true
    }
}

// The dips of a segment that starts at a time, in seconds: their places in samples, and their depths.
#[derive(Clone, Copy)]
struct Dips<'a> {
    places: &'a [f64],
    depths: &'a [f64],
    rate: u32,
    from: f64,
}

impl<'a> Dips<'a> {
    fn time_of(&self, place: f64) -> f64 {
        self.from + place / f64::from(self.rate)
    }

    // All of them, as the clock takes them.
    fn go_through(&self, rt: &impl Print, start: Clock) -> Near {
        let mut walk = Walk {
            clock: start,
            near: Near::far(),
        };
        for (place, depth) in self.places.iter().zip(self.depths) {
            if !walk.step(rt, self.time_of(*place), *place, *depth) {
                break;
            }
        }
        walk.near
    }

    // Those that are too few for a clock.
    fn print_loose(&self, rt: &impl Print) {
        for (place, depth) in self.places.iter().zip(self.depths) {
            print_dip(rt, self.time_of(*place), *depth);
            replay::print_end(rt);
        }
    }
}

// The fewest dips that make a clock.
const ENOUGH_DIPS: usize = 8;

// The first n dips of the scratch.
fn print_found(
    rt: &impl Print,
    scratch: &[f64; limits::SCRATCH64],
    n: usize,
    rate: u32,
    from: f64,
) -> Near
    requires { n ≤ 3000 }
{
    let dips = Dips {
        places: &scratch[..n],
        depths: &scratch[dips::DEPTHS..],
        rate,
        from,
    };
    replay::print(rt, b"  ");
    print_count(rt, n as u64, b" dips found");
    if n < ENOUGH_DIPS {
        replay::print(rt, b", it takes 8 for a clock\n");
        dips.print_loose(rt);
        return Near::far();
    }
    replay::print_end(rt);
    let nominal = clock::nominal_of(rate);
    let start = Clock::new(nominal, clock::anchor_of(dips.places, nominal));
    dips.go_through(rt, start)
}

// The dips of a segment that starts at a time, as the clock takes them; the smallest margins of those that are accepted.
pub fn explain_dips(
    rt: &impl Print,
    seg: &[f32],
    rate: u32,
    from: f64,
    scratch: &mut [f64; limits::SCRATCH64],
) -> Near {
    if seg.is_empty() || limits::MOST_SAMPLES < seg.len() || !limits::all_dbm(seg) {
        return Near::far();
    }
    let level = std::num::f32_to_f64_with_nan(clock::level_of(seg));
    match dips::find_dips(seg, rate, level, scratch) {
        Ok(n) if n <= dips::DEPTHS => print_found(rt, scratch, n, rate, from),
        _ => Near::far(),
    }
}
