// The noise floor, and the bursts that stand over it (demod.rs `noise_floor`, `find_bursts`).
#![tactic(auto)]

ghost use Rattle.std.specs.Prelude.{◌≡◌, ◌<◌, ◌≤◌, true, length, position};
ghost use Rattle.floats.specs.Fold.{max_from};
ghost use Rattle.limits.specs.Limits.{most_samples};
ghost use Rattle.limits.specs.Samples.{all_dbm};
ghost use Rattle.limits.specs.Answer.{said, cause_of};
ghost use Rattle.bursts.specs.Numbers.{lowest_peak};
ghost use Rattle.bursts.specs.Levels.{noise_floor, floor_cause, floor_answer};
ghost use Rattle.bursts.specs.Bursts.{default_options, loud, cluster, long_enough, gap_samples, burst_of, first_from, inside, options_ok, burst_cause, burst_answer};
ghost use Rattle.bursts.specs.Found.{bursts_from, LastLoud};

use limits::Refusal;
use limits::rated::Samples;

// The noise floor of no samples.
pub const SILENCE: f32 = -120.0;

// The noise floor is the value at a fifth of the sorted samples: floor(len * 0.2) is the whole part of len / 5.
const FLOOR_PART: usize = 5;

// No burst has a lower peak.
const LOWEST_PEAK: f32 = -200.0;

const MS_PER_S: f64 = 1000.0;

// Options lie from 0 to these.
const MOST_DB: f64 = 100.0;

const MOST_MS: f64 = 10_000.0;

// Sample indices of one burst and its levels in dBm.
#[derive(Clone, Copy)]
pub struct Burst {
    pub start: usize,
    pub end: usize,
    pub peak_dbm: f32,
    pub floor_dbm: f32,
}

#[derive(Clone, Copy)]
pub struct BurstOptions {
    pub above_db: f64,
    pub min_ms: f64,
    pub gap_ms: f64,
}

// Frames last over a second and sit well above the noise; the dips inside a frame are short gaps.
impl BurstOptions {
    pub const ABOVE_DB: f64 = 15.0;

    pub const MIN_MS: f64 = 1_000.0;

    pub const GAP_MS: f64 = 40.0;

    // The defaults, which captures are read with.
    pub fn new() -> Self
        ensures { result ≡ default_options }
    {
        Self {
            above_db: Self::ABOVE_DB,
            min_ms: Self::MIN_MS,
            gap_ms: Self::GAP_MS,
        }
    }

    // The quiet samples that a cluster bridges.
    fn gap_samples(self, rate: u32) -> usize
        ensures { result ≡ gap_samples self rate }
    {
        floats::to_usize_saturating(floats::round_half_up(self.gap_ms / MS_PER_S * (rate as f64)))
    }

    // Whether a cluster is as long as a burst must be.
    fn is_long(self, rate: u32, first: usize, last: usize) -> bool
        requires { (first ≤ last) × (last ≤ most_samples) }
        ensures { result ≡ long_enough self rate (cluster first last) }
    {
        floats::count_as_f64(last - first) / (rate as f64) >= self.min_ms / MS_PER_S
    }
}

// The noise floor of valid samples.
pub fn measured_floor(dbm: &[f32]) -> f32
    requires { (length dbm.now ≤ most_samples) × (all_dbm dbm.now ≡ true) }
    ensures { result ≡ noise_floor dbm.now }
{
    if dbm.len() == 0 {
        return SILENCE;
    }
    order::select(dbm, dbm.len() / FLOOR_PART)
}

// The first cause that applies to `noise_floor`.
#[tactic(auto, unfolding(limits::specs::Answer::cause_of, crate::specs::Levels::floor_cause))]
fn check_floor(dbm: &[f32], room: usize) -> Result<(), Refusal>
    ensures { cause_of result ≡ floor_cause dbm.now room }
{
    if room < dbm.len() {
        return Err(Refusal::Short);
    }
    if limits::MOST_SAMPLES < dbm.len() {
        return Err(Refusal::Long);
    }
    if !limits::all_dbm(dbm) {
        return Err(Refusal::BadSample);
    }
    Ok(())
}

// The value at 0.2 of the sorted samples, and SILENCE of none (demod.rs `noise_floor`).
#[tactic(auto, using(limits::proofs::AnswerLaws::said_accepted, crate::proofs::LevelLaws::floor_accepted), unfolding(limits::specs::Answer::cause_of, crate::specs::Levels::floor_answer))]
pub fn noise_floor(dbm: &[f32], scratch: &mut [f32]) -> Result<f32, Refusal>
    ensures { (said result ≡ floor_answer dbm.now (length scratch.old)) × (scratch.new ≡ scratch.old) }
{
    check_floor(dbm, scratch.len())?;
    Ok(measured_floor(dbm))
}

// f64::from(x) > threshold
fn is_loud(x: f32, threshold: f64) -> bool
    ensures { result ≡ loud threshold x }
{
    std::num::f32_to_f64_with_nan(x) > threshold
}

// The first loud sample.
fn first_loud(dbm: &[f32], threshold: f64) -> Option<usize>
    ensures { result ≡ position (loud threshold) dbm.now }
{
    dbm.iter().position(|x| is_loud(*x, threshold))
}

// The last loud sample of the cluster whose first one is given.
fn last_loud(dbm: &[f32], threshold: f64, gap: usize, first: usize) -> usize
    requires { first < length dbm.now }
    ensures { LastLoud threshold gap dbm.now first result }
{
    let mut last = first;
    for i in first + 1..dbm.len() {
        if is_loud(dbm[i], threshold) {
            last = i;
        } else if gap < i - last {
            return last;
        }
    }
    last
}

// The largest sample, and LOWEST_PEAK where there is none louder.
fn peak(dbm: &[f32]) -> f32
    ensures { result ≡ max_from lowest_peak dbm.now }
{
    floats::highest32(LOWEST_PEAK, dbm)
}

fn within(top: f64, x: f64) -> bool
    ensures { result ≡ inside top x }
{
    let low = x >= 0.0;
    let high = x <= top;
    low & high
}

// Whether cause 9 does not apply.
fn options_ok(options: BurstOptions, floor: f32) -> bool
    ensures { result ≡ options_ok options floor }
{
    let above = within(MOST_DB, options.above_db);
    let min = within(MOST_MS, options.min_ms);
    let gap = within(MOST_MS, options.gap_ms);
    let level = limits::is_dbm(floor);
    above & (min & (gap & level))
}

fn burst_of(dbm: &[f32], first: usize, last: usize, floor: f32) -> Burst
    requires { (first ≤ last) × (last < length dbm.now) }
    ensures { result ≡ burst_of dbm.now floor (cluster first last) }
{
    let end = last + 1;
    Burst {
        start: first,
        end,
        peak_dbm: peak(&dbm[first..end]),
        floor_dbm: floor,
    }
}

// The first of the bursts found from `at` on that starts at or after `from`. From a burst's end on, the search finds the rest of the list (law
// `found-next`), so that whoever takes them all reads each sample once.
pub fn search_bursts(
    dbm: &[f32],
    rate: u32,
    options: BurstOptions,
    floor: f32,
    at: usize,
    from: usize,
) -> Option<Burst>
    requires { (length dbm.now ≤ most_samples) × (at ≤ length dbm.now) }
    ensures { result ≡ first_from from (bursts_from dbm.now rate options floor at) }
{
    let threshold = std::num::f32_to_f64_with_nan(floor) + options.above_db;
    let gap = options.gap_samples(rate);
    let mut i = at;
    while i < dbm.len() {
        let first = i + first_loud(&dbm[i..], threshold)?;
        let last = last_loud(dbm, threshold, gap, first);
        if from <= first {
            if options.is_long(rate, first, last) {
                return Some(burst_of(dbm, first, last, floor));
            }
        }
        i = last + 1;
    }
    None
}

// The first cause that applies to `find_bursts`.
#[tactic(auto, using(limits::proofs::Causes::sample_refused, limits::proofs::Causes::samples_pass), unfolding(limits::specs::Answer::cause_of, crate::specs::Bursts::burst_cause))]
fn check_bursts(dbm: &[f32], rate: u32, options: BurstOptions, floor: f32) -> Result<(), Refusal>
    ensures { cause_of result ≡ burst_cause dbm.now rate options floor }
{
    Samples::new(dbm, rate)?;
    if !options_ok(options, floor) {
        return Err(Refusal::BadNumber);
    }
    Ok(())
}

// The first burst of the whole list that starts at or after `from`, or none (demod.rs `find_bursts`, one by one).
#[tactic(auto, using(limits::proofs::AnswerLaws::said_accepted, crate::proofs::SearchLaws::from_start), unfolding(limits::specs::Answer::cause_of, crate::specs::Bursts::burst_answer))]
pub fn find_bursts(
    dbm: &[f32],
    rate: u32,
    options: BurstOptions,
    floor: f32,
    from: usize,
) -> Result<Option<Burst>, Refusal>
    ensures { said result ≡ burst_answer dbm.now rate options floor from }
{
    check_bursts(dbm, rate, options, floor)?;
    Ok(search_bursts(dbm, rate, options, floor, 0, from))
}
