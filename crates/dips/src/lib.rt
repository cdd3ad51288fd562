// The dips of a burst's envelope, at the phase reversals (demod.rs `find_dips`).
#![tactic(auto)]

ghost use Rattle.std.specs.Prelude.{◌≡◌, ◌+◌, ◌-◌, ◌*◌, ◌/◌, ◌<◌, ◌≤◌, true, not, ◌||◌, length, slice_index_or, IfOk};
ghost use Rattle.std.proofs.Math.Seq.{slice};
ghost use Rattle.std.specs.Float.{nan};
ghost use Rattle.std.specs.Float.Ieee.{lt, le};
ghost use Rattle.floats.specs.Fold.{max_from};
ghost use Rattle.limits.specs.Limits.{lowest_rate, highest_rate, buffer_s, most_samples, scratch64};
ghost use Rattle.limits.specs.Samples.{all_dbm};
ghost use Rattle.rates.specs.Rates.{win_of, half_of};
ghost use Rattle.dips.specs.Numbers.{lowest_side, widest_side, widest_half, most_dips};
ghost use Rattle.limits.specs.Answer.{said, cause_of};
ghost use Rattle.dips.specs.Dips.{sides, against, neighbours, is_dip, centre, depth_of, found_in, Stored, dip_cause, dip_answer, dips_after};
ghost use Rattle.dips.specs.Tested.{tested};

use limits::Refusal;
use limits::rated::Samples;

// A dip lies strictly more than DIP_DB under the lower side, and the higher side at most DIM_DB under the level.
const DIP_DB: f64 = 6.0;

const DIM_DB: f64 = 25.0;

// No side has a lower level.
const LOWEST_SIDE: f32 = -200.0;

// Bits in a second.
pub const BIT_RATE: u32 = 100;

// A side is 1.5 bits, three halves of one, and a dip the lowest sample within 0.4 bits, two fifths.
const SIDE_HALVES: u32 = 3;

const SIDE_UNIT: u32 = 2 * BIT_RATE;

const HALF_FIFTHS: u32 = 2;

const HALF_UNIT: u32 = 5 * BIT_RATE;

// The place of the first depth in the slice lent for dips.
pub const DEPTHS: usize = 3000;

// i - n, and 0 below.
pub fn back(i: usize, n: usize) -> usize
    ensures { result ≡ i - n }
{
    i.saturating_sub(n)
}

// The samples that are looked at on a side of a dip, and those that its half window reaches to.
#[derive(Clone, Copy)]
struct Windows {
    side: usize,
    half: usize,
    ghost narrow_side: { side ≤ widest_side },
    ghost narrow_half: { half ≤ widest_half },
    ghost some: { 0 < half },
}

// round(rate * parts / unit), as a whole number.
fn rounded(rate: u32, parts: u32, unit: u32) -> usize
    requires { (rate ≤ highest_rate) × (parts ≤ 3) × (0 < unit) × (unit ≤ 500) }
    ensures { result ≡ (parts * rate + unit / 2) / unit }
{
    ((parts * rate + unit / 2) / unit) as usize
}

impl Windows {
    fn new(rate: u32) -> Self
        requires { (lowest_rate ≤ rate) × (rate ≤ highest_rate) }
        ensures { (result.side ≡ win_of rate) × (result.half ≡ half_of rate) × (buffer_s * rate ≤ most_dips * (result.half + 1) + 2) }
    {
        Self {
            side: rounded(rate, SIDE_HALVES, SIDE_UNIT),
            half: rounded(rate, HALF_FIFTHS, HALF_UNIT),
        }
    }
}

// A sample of a burst with one on each side.
#[derive(Clone, Copy)]
struct Inner<'a> {
    seg: &'a [f32],
    at: usize,
    ghost before: { 0 < at },
    ghost after: { at + 1 < length seg.now },
    ghost short: { length seg.now ≤ most_samples },
}

impl<'a> Inner<'a> {
    // A side level of a sample that passed its neighbours: the highest sample from an index to another, that one not in.
    fn side_level(self, half: usize, from: usize, to: usize) -> f32
        requires { (neighbours half self.seg.now self.at ≡ true) × (from ≤ to) × (to ≤ length self.seg.now) }
        ensures { result ≡ max_from lowest_side (slice from to self.entry.seg.now) }
    {
        floats::highest32(LOWEST_SIDE, &self.seg[from..to])
    }

    // Dips are measured against the local envelope on each side (max over 1.5 bits). A real dip has a high level on both sides; this rejects the
    // rising and falling edges of the frame, and copes with the transmit power ramping during the first part of a frame.
    // The depth is what the sample lies under the lower side (02, request 05).
    fn sides_high(self, windows: Windows, level: f64) -> Option<f64>
        requires { neighbours windows.half self.seg.now self.at ≡ true }
        ensures { result ≡ tested (sides level windows.side self.entry.seg.now self.entry.at) (depth_of windows.side self.entry.seg.now self.entry.at) }
    {
        let i = self.at;
        let side = windows.side;
        let v = std::num::f32_to_f64_with_nan(self.seg[i]);
        let l = self.side_level(windows.half, back(i, side), i);
        let left = std::num::f32_to_f64_with_nan(l);
        let r = self.side_level(windows.half, i + 1, (i + 1 + side).min(self.seg.len()));
        let right = std::num::f32_to_f64_with_nan(r);
        let lower = whole::pick(right < left, right, left);
        let higher = whole::pick(left < right, right, left);
        let shallow = v >= lower - DIP_DB;
        let dim = higher < level - DIM_DB;
        if shallow | dim {
            return None;
        }
        Some(lower - v)
    }

    // Whether the samples beside it don't speak against a minimum there: most samples drop out here.
    fn beside_higher(self) -> bool
        ensures { result ≡ not (le (slice_index_or self.entry.seg.now (self.entry.at - 1) nan) (slice_index_or self.entry.seg.now self.entry.at nan) || lt (slice_index_or self.entry.seg.now (self.entry.at + 1) nan) (slice_index_or self.entry.seg.now self.entry.at nan)) }
    {
        let i = self.at;
        let v = self.seg[i];
        let left = self.seg[i - 1] <= v;
        let right = self.seg[i + 1] < v;
        !(left | right)
    }

    // The lowest of those within the half window, and of equal ones the earliest.
    fn neighbours_higher(self, half: usize) -> bool
        requires { half ≤ widest_half }
        ensures { result ≡ neighbours half self.entry.seg.now self.entry.at }
    {
        let seg = self.seg;
        let i = self.at;
        let v = seg[i];
        let end = (i + half + 1).min(seg.len());
        for k in back(i, half)..end {
            if speaks_against(v, i, k, seg[k]) {
                return false;
            }
        }
        true
    }

    // The depth of a dip, of another sample none. The side levels cost most, so they come last.
    fn depth(self, windows: Windows, level: f64) -> Option<f64>
        ensures { result ≡ tested (is_dip level windows.side windows.half self.entry.seg.now self.entry.at) (depth_of windows.side self.entry.seg.now self.entry.at) }
    {
        if self.beside_higher() {
            if self.neighbours_higher(windows.half) {
                return self.sides_high(windows, level);
            }
        }
        None
    }

    // The dip's place, refined to sub-sample.
    fn centre(self) -> f64
        ensures { result ≡ centre self.entry.seg.now self.entry.at }
    {
        let i = self.at;
        let a = std::num::f32_to_f64_with_nan(self.seg[i - 1]);
        let v = std::num::f32_to_f64_with_nan(self.seg[i]);
        let c = std::num::f32_to_f64_with_nan(self.seg[i + 1]);
        let denom = a - 2.0 * v + c;
        floats::count_as_f64(i) + whole::pick(denom != 0.0, 0.5 * (a - c) / denom, 0.0)
    }
}

// Whether a sample x at index k speaks against a minimum v at i.
fn speaks_against(v: f32, i: usize, k: usize, x: f32) -> bool
    ensures { result ≡ against v i k x }
{
    let lower = x < v;
    let same = x == v;
    let earlier = k < i;
    lower | (same & earlier)
}

// The dips of samples into a slice, their depths from place 3,000 on; a dip leaves no room for another in its half window.
pub fn dips_into(samples: Samples, level: f64, dips: &mut [f64]) -> usize
    requires { scratch64 ≤ length dips.old }
    ensures { Stored (found_in samples.entry.dbm.now samples.entry.rate level) dips.old result dips.new × (result ≤ most_dips) }
{
    let seg = samples.dbm;
    let windows = Windows::new(samples.rate);
    let mut n: usize = 0;
    let mut i: usize = 1;
    while i + 1 < seg.len() {
        let sample = Inner { seg, at: i };
        match sample.depth(windows, level) {
            None => {
                i += 1;
            }
            Some(depth) => {
                dips[n] = sample.centre();
                dips[DEPTHS + n] = depth;
                n += 1;
                i += windows.half + 1;
            }
        }
    }
    n
}

// The samples, or the first cause that applies to `find_dips`.
#[tactic(auto, using(limits::proofs::Causes::sample_refused, limits::proofs::Causes::samples_pass), unfolding(limits::specs::Answer::cause_of, crate::specs::Dips::dip_cause))]
fn check<'a>(seg: &'a [f32], rate: u32, level: f64, room: usize) -> Result<Samples<'a>, Refusal>
    ensures cause { cause_of result ≡ dip_cause seg.now rate level room }
    ensures ok { IfOk result (λ s. (s.dbm.now ≡ seg.now) × (s.rate ≡ rate) × (scratch64 ≤ room)) }
{
    limits::check_rate(rate)?;
    if room < limits::SCRATCH64 {
        return Err(Refusal::Short);
    }
    let samples = Samples::new(seg, rate)?;
    if level.is_nan() {
        return Err(Refusal::BadNumber);
    }
    Ok(samples)
}

// The dips of a burst into the slice lent for them (demod.rs `find_dips`), their depths from place 3,000 on.
pub fn find_dips(seg: &[f32], rate: u32, level: f64, dips: &mut [f64]) -> Result<usize, Refusal>
    ensures { (said result ≡ dip_answer seg.now rate level (length dips.old))
        × (dips.new ≡ dips_after seg.now rate level dips.old) }
{
    let samples = check(seg, rate, level, dips.len())?;
    Ok(dips_into(samples, level, dips))
}
