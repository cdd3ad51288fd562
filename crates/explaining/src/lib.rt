// Why a burst was read or not, and how near each number was: what `explain` prints is worked out here, on the definitions that the receiver is proved against.
#![tactic(auto)]

ghost use Rattle.std.specs.Prelude.{◌≡◌, ◌^◌, ◌<◌, ◌≤◌};
ghost use Rattle.limits.specs.Limits.{scratch64};
ghost use Rattle.explaining.specs.Margins.{faint_options, any_options, margin_of, depth_margin, grid_margin, quiet_margin, lesser, scaled};
ghost use Rattle.explaining.specs.Verdicts.{off_by, is_far, skipped_by, judged};
ghost use Rattle.explaining.specs.Taken.{took_at};
ghost use Rattle.receiver_starts.specs.Starts.{distances};
ghost use Rattle.ledger.specs.Causes.{most_starts};

use bursts::{Burst, BurstOptions};
use clock::{Clock, Step};
use receiver_scan::MIN_MS;
use receiver_starts::Starts;

// What is under the threshold, but not under this many decibels over the floor, is shown as well.
const FAINT_DB: f64 = 12.0;

// The client's numbers besides 15 dB: a dip's least depth, how far from the grid it may be, how long a message waits.
pub const DIP_DB: f64 = 6.0;

pub const OFF_GRID: f64 = 0.35;

pub const QUIET_S: f64 = 10.0;

// ---- bursts

// A scan's options without a shortest burst: also those that are too short.
pub fn any_options() -> BurstOptions
    ensures { result ≡ any_options }
{
    BurstOptions {
        above_db: BurstOptions::ABOVE_DB,
        min_ms: 0.0,
        gap_ms: BurstOptions::GAP_MS,
    }
}

// The same over a lower threshold: also those that are too quiet.
pub fn faint_options() -> BurstOptions
    ensures { result ≡ faint_options }
{
    BurstOptions {
        above_db: FAINT_DB,
        min_ms: MIN_MS,
        gap_ms: BurstOptions::GAP_MS,
    }
}

// What a burst's peak lies over the threshold, in decibels; below 0 where it lies under it.
pub fn margin(burst: Burst) -> f64
    ensures { result ≡ margin_of burst }
{
    std::num::f32_to_f64_with_nan(burst.peak_dbm)
        - (std::num::f32_to_f64_with_nan(burst.floor_dbm) + BurstOptions::ABOVE_DB)
}

// Whether a call took the burst that starts at place i of the samples held before it, and at place j of those held after it: its start is remembered now, and none
// near it was before.
pub fn took(rate: u32, old: Starts, i: usize, new: Starts, j: usize) -> bool
    requires { (old.count ≤ most_starts) × (new.count ≤ most_starts) × (i < 2 ^ 31) × (j < 2 ^ 31) }
    ensures { result ≡ took_at rate (distances old) i (distances new) j }
{
    let first = old.at;
    let known = receiver_starts::near(rate, &first, old.count, receiver_starts::distance(i));
    let then = new.at;
    let kept = receiver_starts::near(1, &then, new.count, receiver_starts::distance(j));
    kept & !known
}

// ---- dips

// What the clock makes of a dip: it has no bit index, it is further from the grid than it may be, its bit is not past the last one's, or it is accepted, and the
// clock goes on from there. With it how far it is from its grid line, in bits.
#[derive(Clone, Copy)]
pub enum Verdict {
    Lost,
    OffGrid(f64),
    Behind(f64),
    Accepted(Clock, f64),
}

fn off_by(c: Clock, d: f64, k: f64) -> f64
    ensures { result ≡ off_by c d k }
{
    (d - (c.phase + k * c.period)) / c.period
}

fn is_far(c: Clock, d: f64, k: f64) -> bool
    ensures { result ≡ is_far c d k }
{
    floats::abs64(d - (c.phase + k * c.period)) > OFF_GRID * c.period
}

fn skipped_by(far: bool, off: f64) -> Verdict
    ensures { result ≡ skipped_by far off }
{
    if far {
        return Verdict::OffGrid(off);
    }
    Verdict::Behind(off)
}

// Why a dip is accepted or skipped; what it says of the clock is what the clock does (law `same_step`).
pub fn judge(c: Clock, d: f64) -> Verdict
    requires { c.count < scratch64 }
    ensures { result ≡ judged c d }
{
    let k = c.index_at(d);
    let off = off_by(c, d, k);
    let far = is_far(c, d, k);
    match c.track(d) {
        Step::Lost => Verdict::Lost,
        Step::Skipped => skipped_by(far, off),
        Step::Joined(next) => Verdict::Accepted(next, off),
    }
}

// What a dip's depth is over 6 dB.
pub fn depth_margin(depth: f64) -> f64
    ensures { result ≡ depth_margin depth }
{
    depth - DIP_DB
}

// What a dip's distance from the grid, in bits, is under 0.35.
pub fn grid_margin(off: f64) -> f64
    ensures { result ≡ grid_margin off }
{
    OFF_GRID - floats::abs64(off)
}

// ---- messages

// What a message that waits at a time has left of 10 s.
pub fn quiet_margin(now: f64, last: f64) -> f64
    ensures { result ≡ quiet_margin now last }
{
    QUIET_S - (now - last)
}

// ---- numbers

// The smaller of two margins.
pub fn lesser(a: f64, b: f64) -> f64
    ensures { result ≡ lesser a b }
{
    whole::pick(b < a, b, a)
}

// How many units of 1 / scale a number is, its sign left out, rounded to the nearest: its decimals.
pub fn scaled(x: f64, scale: usize) -> u64
    requires { scale ≤ 1000000 }
    ensures { result ≡ scaled x scale }
{
    floats::to_usize_saturating(floats::round_half_up(
        floats::abs64(x) * floats::count_as_f64(scale),
    )) as u64
}
