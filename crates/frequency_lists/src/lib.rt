// The tracker's lent lists: readings, and tunings. Tests of what is held, the last tuning, and appending.
#![tactic(auto)]

ghost use Rattle.std.specs.Prelude.{◌≡◌, cond, ◌+◌, ◌<◌, ◌≤◌, true, not, ◌&&◌, length, is_nan, IfSome};
ghost use Rattle.std.specs.Option.{is_some};
ghost use Rattle.std.proofs.lemmas.List.Edits.{sets};
ghost use Rattle.limits.specs.Limits.{longest_stream, most_readings};
ghost use Rattle.frequency_lists.specs.Lists.{read_up_to, tuned_up_to, all_numbers, ReachesAll, last_or, readings_from, fits_readings, fits_tunings, ats, tuneds, freqs};
ghost use Rattle.frequency_lists.specs.Marks.{put};

use frequency_signal::{Pace, Stream};

// One CFO value per 8 RSSI samples.
const CFO_EVERY: u64 = 8;

// The readings of a block. A loop over a number of readings that is known is laid out without a test between them.
const BLOCK: usize = 16;

// A frequency that was read (Hz): at which sample, against which receiver frequency.
#[derive(Clone, Copy)]
pub struct Reading {
    pub at: u64,
    pub lo: u32,
    pub hz: f64,
}

// The sample, and the receiver frequency, of a status line that changed it.
#[derive(Clone, Copy)]
pub struct Tuning {
    pub at: u64,
    pub freq: u32,
}

// `spread` of a block, or of what is left of the list.
fn spread_part(readings: &[Reading], low: u64) -> u64
    ensures { ReachesAll low result (ats readings.now) }
{
    let mut bits = 0u64;
    for x in readings {
        bits |= std::num::wrapping_sub_u64(x.at, low);
    }
    bits
}

// The bits of the differences of the indices to low: two operations an index, so that it is the quickest look at all of them.
// One that is before low leaves a large difference.
pub fn spread(readings: &[Reading], low: u64) -> u64
    ensures { ReachesAll low result (ats readings.now) }
{
    let mut bits = 0u64;
    let blocks = readings.len() / BLOCK;
    for k in 0..blocks {
        bits |= spread_part(&readings[BLOCK * k..BLOCK * k + BLOCK], low);
    }
    bits | spread_part(&readings[BLOCK * blocks..], low)
}

// Whether the indices are at most limit, one by one.
fn each_within(readings: &[Reading], limit: u64) -> bool
    ensures { result ≡ read_up_to limit readings.now }
{
    readings.iter().all(|x| x.at <= limit)
}

// The same. Readings come in the order of their indices and are of the last minute, so that the
// differences to the first mostly settle it.
pub fn within(readings: &[Reading], limit: u64) -> bool
    ensures { result ≡ read_up_to limit readings.now }
{
    if readings.is_empty() {
        return true;
    }
    let low = readings[0].at;
    if low <= limit && spread(readings, low) <= limit - low {
        return true;
    }
    each_within(readings, limit)
}

// Whether the tunings' indices are at most limit.
pub fn tuned_within(tunings: &[Tuning], limit: u64) -> bool
    ensures { result ≡ tuned_up_to limit tunings.now }
{
    tunings.iter().all(|u| u.at <= limit)
}

fn is_number(x: f64) -> bool
    ensures { result ≡ not (is_nan x) }
{
    x == x
}

// Whether none of the frequencies is a NaN.
pub fn no_nan(readings: &[Reading]) -> bool
    ensures { result ≡ all_numbers readings.now }
{
    readings.iter().all(|x| is_number(x.hz))
}

// `spread` and `no_nan` of a block, or of what is left of the list. No early exit, so that two frequencies are tested by one
// comparison.
fn look_part(readings: &[Reading], low: u64) -> (u64, bool)
    ensures { ReachesAll low result.0 (ats readings.now) × (result.1 ≡ all_numbers readings.now) }
{
    let mut bits = 0u64;
    let mut ok = true;
    for x in readings {
        let here = is_number(x.hz);
        bits |= std::num::wrapping_sub_u64(x.at, low);
        ok &= here;
    }
    (bits, ok)
}

// `spread` and `no_nan` in one pass, since most of a pass is to read the list: nothing where a frequency is a NaN.
pub fn spread_of_numbers(readings: &[Reading], low: u64) -> Option<u64>
    ensures numbers { is_some result ≡ all_numbers readings.now }
    ensures bits { IfSome result (λ r. ReachesAll low r (ats readings.now)) }
{
    let mut bits = 0u64;
    let blocks = readings.len() / BLOCK;
    for k in 0..blocks {
        let (more, ok) = look_part(&readings[BLOCK * k..BLOCK * k + BLOCK], low);
        if !ok {
            return None;
        }
        bits |= more;
    }
    let (more, ok) = look_part(&readings[BLOCK * blocks..], low);
    ok.then_some(bits | more)
}

// `within` and `no_nan` in one pass.
pub fn numbers_within(readings: &[Reading], limit: u64) -> bool
    ensures { result ≡ (read_up_to limit readings.now && all_numbers readings.now) }
{
    if readings.is_empty() {
        return true;
    }
    let low = readings[0].at;
    let Some(bits) = spread_of_numbers(readings, low) else {
        return false;
    };
    if low <= limit && bits <= limit - low {
        return true;
    }
    each_within(readings, limit)
}

// The receiver frequency: the last tuning's, or the base frequency (freq).
pub fn last_freq(base: u32, tunings: &[Tuning]) -> u32
    ensures { result ≡ last_or base (freqs tunings.now) }
{
    let Some(u) = tunings.last() else {
        return base;
    };
    u.freq
}

// The index of the last tuning, or 0 (tuned_at of cfo).
pub fn last_tuned(tunings: &[Tuning]) -> u64
    ensures { result ≡ last_or 0 (tuneds tunings.now) }
{
    let Some(u) = tunings.last() else {
        return 0;
    };
    u.at
}

// One behind the others, at the place w, if it is due; how many there are then.
pub fn put<T: Copy>(due: bool, w: usize, x: T, l: &mut [T]) -> usize
    requires { due ≡ true → w < length l.old }
    ensures next { result ≡ cond due (w + 1) w }
    ensures list { l.new ≡ put due l.old w x }
{
    if due {
        l[w] = x;
        return w + 1;
    }
    w
}

// The readings of a line's values behind the first count, and how many there are then: the loop of `cfo`. A value is not
// taken while the register is still catching up with a retune, if there was one (more than one tuning).
pub fn read_values(
    start: Stream,
    step: f64,
    more: bool,
    tuned_at: u64,
    f: u32,
    count: usize,
    raw: &[u16],
    readings: &mut [Reading],
) -> usize
    requires { (tuned_at ≤ longest_stream) × (length raw.now ≤ most_readings) × (count + length raw.now ≤ length readings.old) }
    ensures next { result ≡ count + length (readings_from start.rate step more tuned_at f start.n raw.now) }
    ensures list { readings.new ≡ sets readings.old count (readings_from start.rate step more tuned_at f start.n raw.now) }
{
    let pace = Pace { rate: start.rate };
    let mut w = count;
    for (k, v) in raw.iter().enumerate() {
        let at = start.n + CFO_EVERY * (k as u64);
        let x = Reading {
            at,
            lo: f,
            hz: cfo::reading_hz(f, *v, step),
        };
        let settling = pace.is_settling(tuned_at, at);
        w = put(!(settling & more), w, x, readings);
    }
    w
}

// Whether end places are there for readings.
pub fn fits_readings(end: usize, readings: &[Reading]) -> bool
    ensures { result ≡ fits_readings end readings.now }
{
    end <= readings.len()
}

// Whether end places are there for tunings.
pub fn fits_tunings(end: usize, tunings: &[Tuning]) -> bool
    ensures { result ≡ fits_tunings end tunings.now }
{
    end <= tunings.len()
}
