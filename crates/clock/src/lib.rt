// The bit clock, recovered from the dips of a burst, and the bits between them (demod.rs `burst_bits`).
#![tactic(auto)]

ghost use Rattle.std.specs.Prelude.{◌≡◌, ◌-◌, ◌*◌, ◌/◌, ◌<◌, ◌≤◌, true, false, ◌∷◌, ◌++◌, length, take, drop, slice_index_or, IfOk, MatchOption};
ghost use Rattle.std.specs.Float.{nan, binary64};
ghost use Rattle.std.specs.Float.Ieee.{lt, to_unsigned};
ghost use Rattle.order.specs.Order.{kth, Numbers};
ghost use Rattle.limits.specs.Limits.{lowest_rate, highest_rate, buffer_s, most_samples, most_bits, scratch64};
ghost use Rattle.limits.specs.Samples.{all_dbm};
ghost use Rattle.rates.specs.Numbers.{level_quantile};
ghost use Rattle.rates.specs.Rates.{nominal_of};
ghost use Rattle.bursts.specs.Levels.{quantile};
ghost use Rattle.dips.specs.Numbers.{depths_at};
ghost use Rattle.clock.specs.Numbers.{farthest_bit};
ghost use Rattle.clock.specs.Clock.{angle, anchor, size_of, lost};
ghost use Rattle.clock.specs.Running.{place, index_at, skips, det, refit, summed, step, start_clock, clocked};
ghost use Rattle.clock.specs.Tracked.{Tracked};
ghost use Rattle.clock.specs.Walk.{heads, walked, places, Ready};
ghost use Rattle.clock.specs.Bits.{last_high, end_index, ppm_of, outcome, handed, values_of, bits_cause, bits_answer};
ghost use Rattle.limits.specs.Answer.{said, cause_of, number, leaves, Free};

use limits::Refusal;
use limits::rated::Samples;
use std::f64::consts::PI;

// The level of a burst is the value at nine tenths of its sorted samples: floor(len * 0.9) is the whole part of 9 * len / 10.
const LEVEL_TENTHS: usize = 9;

// The fewest dips, and the fewest points of the grid, that make a clock.
const ENOUGH_DIPS: usize = 8;

const ENOUGH_POINTS: usize = 8;

// The first dips, that anchor the grid.
const ANCHORS: usize = 12;

// The points from which on the grid is fitted anew.
const REFITS: usize = 4;

// A dip further than this from its place, in bits, is skipped.
const OFF_GRID: f64 = 0.35;

// The bit index farthest from 0: 2^31.
const FARTHEST_BIT: usize = 2_147_483_648;

// The signal ends with the last sample that is at most END_DB under the level.
const END_DB: f64 = 15.0;

const MILLION: f64 = 1_000_000.0;

// The bit clock: period and phase, the sums of the points that it is fitted to, their number, and the places of the first and the last.
// A place is a bit index + 2^31.
#[derive(Clone, Copy)]
pub struct Clock {
    pub period: f64,
    pub phase: f64,
    pub sk: f64,
    pub sd: f64,
    pub skk: f64,
    pub skd: f64,
    pub count: usize,
    pub first: usize,
    pub last: usize,
}

// What a dip does to the clock.
#[derive(Clone, Copy)]
pub enum Step {
    Lost,
    Skipped,
    Joined(Clock),
}

// Samples for each bit.
pub fn nominal_of(rate: u32) -> f64
    ensures { result ≡ nominal_of rate }
{
    (rate as f64) / (dips::BIT_RATE as f64)
}

fn angle_of(nominal: f64, d0: f64, d: f64) -> f64
    ensures { result ≡ angle nominal d0 d }
{
    2.0 * PI * (d - d0) / nominal
}

// The grid, anchored on the mean phase of the first dips (circular mean modulo one bit).
pub fn anchor_of(dips: &[f64], nominal: f64) -> f64
    requires { 0 < length dips.now }
    ensures { result ≡ anchor nominal (slice_index_or dips.now 0 nan) dips.now }
{
    let d0 = dips[0];
    let end = dips.len().min(ANCHORS);
    let mut s = 0.0;
    let mut c = 0.0;
    for d in &dips[..end] {
        let a = angle_of(nominal, d0, *d);
        s += floats::sin64(a);
        c += floats::cos64(a);
    }
    d0 + floats::atan2_64(s, c) / (2.0 * PI) * nominal
}

fn size_of(k: f64) -> usize
    ensures { result ≡ size_of k }
{
    floats::to_usize_saturating(floats::abs64(k))
}

// A bit index: a number, and not beyond 2^31 either way.
#[derive(Clone, Copy)]
struct BitIndex {
    k: f64,
    ghost kept: { lost k ≡ false },
}

impl BitIndex {
    fn new(k: f64) -> Option<Self>
        ensures { MatchOption result (lost k ≡ true) (λ i. i.k ≡ k) }
    {
        let none = k.is_nan();
        let beyond = size_of(k) > FARTHEST_BIT;
        if none | beyond {
            return None;
        }
        Some(Self { k })
    }

    // k + 2^31
    fn place(self) -> usize
        ensures { (result ≡ place self.k) × (result ≤ 2 * farthest_bit) }
    {
        let size = size_of(self.k);
        if self.k < 0.0 {
            FARTHEST_BIT - size
        } else {
            FARTHEST_BIT + size
        }
    }
}

impl Clock {
    // Before the first dip.
    pub fn new(nominal: f64, phase: f64) -> Self
        ensures { (result ≡ start_clock nominal phase) × (result.count ≡ 0) }
    {
        Self {
            period: nominal,
            phase,
            sk: 0.0,
            sd: 0.0,
            skk: 0.0,
            skd: 0.0,
            count: 0,
            first: 0,
            last: 0,
        }
    }

    pub fn index_at(self, d: f64) -> f64
        ensures { result ≡ index_at self d }
    {
        floats::round_half_up((d - self.phase) / self.period)
    }

    // Whether a dip is too far from its place, or not after the last point.
    fn skips(self, d: f64, index: BitIndex) -> bool
        ensures { result ≡ skips self d index.k }
    {
        let predicted = self.phase + index.k * self.period;
        let off = floats::abs64(d - predicted) > OFF_GRID * self.period;
        let some = 0 < self.count;
        let behind = index.place() <= self.last;
        off | (some & behind)
    }

    fn det(self) -> f64
        requires { self.count ≤ scratch64 }
        ensures { result ≡ det self }
    {
        floats::count_as_f64(self.count) * self.skk - self.sk * self.sk
    }

    // Period and phase by least squares.
    fn refit(self) -> Self
        requires { self.count ≤ scratch64 }
        ensures { result ≡ refit self }
    {
        if self.count < REFITS {
            return self;
        }
        let d = self.det();
        if d > 0.0 {
            let n = floats::count_as_f64(self.count);
            let period = (n * self.skd - self.sk * self.sd) / d;
            return Self {
                period,
                phase: (self.sd - period * self.sk) / n,
                ..self
            };
        }
        self
    }

    // A point more.
    fn summed(self, d: f64, index: BitIndex) -> Self
        requires { self.count < scratch64 }
        ensures { result ≡ summed self d index.k }
    {
        let k = index.k;
        let p = index.place();
        Self {
            sk: self.sk + k,
            sd: self.sd + d,
            skk: self.skk + k * k,
            skd: self.skd + k * d,
            count: self.count + 1,
            first: whole::pick(self.count == 0, p, self.first),
            last: p,
            ..self
        }
    }

    // Tracking dip by dip keeps a 1 % clock error from slipping a whole bit over a frame.
    pub fn track(self, d: f64) -> Step
        requires { self.count < scratch64 }
        ensures { result ≡ step self d }
    {
        let Some(index) = BitIndex::new(self.index_at(d)) else {
            return Step::Lost;
        };
        if self.skips(d, index) {
            return Step::Skipped;
        }
        Step::Joined(self.summed(d, index).refit())
    }
}

// What is answered beside the bits.
#[derive(Clone, Copy)]
pub struct BurstBits {
    // Of all bits; the first 1,024 are handed over.
    pub count: usize,
    // In samples.
    pub period: f64,
    pub clock_error_ppm: i32,
    pub level: f32,
    pub points: usize,
    // The median of the points' dips.
    pub depth: f64,
}

// A place as a float and back: exact.
fn place_back(x: f64) -> usize
    ensures { result ≡ to_unsigned 64 x }
{
    floats::to_usize_saturating(x)
}

// The clock after all dips, none where a bit index is lost; the places of the points overwrite the dips from the front, and their depths those of all dips.
fn fit_clock(dips: &mut [f64], depths: &mut [f64], start: Clock) -> Option<Clock>
    requires { (length depths.old ≡ length dips.old) × (length dips.old ≤ depths_at) × (start.count ≡ 0) }
    ensures { Tracked start dips.old depths.old result dips.new depths.new }
{
    let mut clock = start;
    for i in 0..dips.len() {
        match clock.track(dips[i]) {
            Step::Lost => {
                return None;
            }
            Step::Skipped => {
                continue;
            }
            Step::Joined(next) => {
                let at = clock.count;
                dips[at] = floats::count_as_f64(next.last);
                depths[at] = depths[i];
                clock = next;
            }
        }
    }
    Some(clock)
}

// Whether place k has a point, the one at p.
fn on_point(points: &[f64], p: usize, k: usize) -> bool
    ensures { result ≡ heads k (drop p (places points.now)) }
{
    if p < points.len() {
        return k == place_back(points[p]);
    }
    false
}

// A 1, and the bits from the first point on.
fn write_bits(points: &[f64], first: usize, bits: &mut [u8])
    requires { (0 < length bits.old) × (length bits.old ≤ most_bits) × (first ≤ 2 * farthest_bit) }
    ensures { bits.new ≡ 1 ∷ walked (places points.now) first (length bits.old - 1) }
{
    bits[0] = 1;
    let mut p: usize = 0;
    for j in 1..bits.len() {
        if on_point(points, p, first + (j - 1)) {
            bits[j] = 0;
            p += 1;
        } else {
            bits[j] = 1;
        }
    }
}

// The last sample that is not under the limit, 0 where there is none.
fn last_high(seg: &[f32], limit: f64) -> usize
    ensures { (result ≡ last_high limit seg.now (length seg.now - 1)) × (result ≤ length seg.now) }
{
    for i in (1..seg.len()).rev() {
        if !under(seg[i], limit) {
            return i;
        }
    }
    0
}

fn under(x: f32, limit: f64) -> bool
    ensures { result ≡ lt x limit }
{
    std::num::f32_to_f64_with_nan(x) < limit
}

// The bit index of the signal's end.
fn end_index(samples: Samples, level: f32, c: Clock) -> f64
    ensures { result ≡ end_index level samples.entry.dbm.now c.period c.phase }
{
    let high = last_high(samples.dbm, std::num::f32_to_f64_with_nan(level) - END_DB);
    floats::floor64((floats::count_as_f64(high) - c.phase) / c.period)
}

fn ppm_of(period: f64, nominal: f64) -> i32
    ensures { result ≡ ppm_of period nominal }
{
    floats::to_i32_saturating(floats::round_half_up((period / nominal - 1.0) * MILLION))
}

// The value at 0.9 of the sorted samples.
pub fn level_of(seg: &[f32]) -> f32
    requires { (0 < length seg.now) × (length seg.now ≤ most_samples) × (all_dbm seg.now ≡ true) }
    ensures { result ≡ quantile level_quantile seg.now }
{
    order::select(seg, LEVEL_TENTHS * seg.len() / 10)
}

// The bits up to where the signal ends: those after the last dip are 1s (no reversal). With them the median of the points' depths, index n / 2
// of their order (02, request 05).
fn clocked_bits(
    samples: Samples,
    level: f32,
    c: Clock,
    points: &[f64],
    depths: &[f64],
    bits: &mut [u8],
) -> Option<BurstBits>
    requires { (c.count ≡ length depths.now) × (most_bits ≤ length bits.old) × Ready c (places points.now) × Numbers depths.now }
    ensures { (result ≡ values_of (clocked samples.entry.dbm.now samples.entry.rate level (places points.now) depths.now (Some c)))
        × (bits.new ≡ handed (clocked samples.entry.dbm.now samples.entry.rate level (places points.now) depths.now (Some c)) bits.old) }
{
    if c.count < ENOUGH_POINTS {
        return None;
    }
    let index = BitIndex::new(end_index(samples, level, c))?;
    let first = c.first;
    let end = c.last.max(index.place());
    let count = end - first + 2;
    let len = count.min(limits::MOST_BITS);
    write_bits(points, first, &mut bits[..len]);
    Some(BurstBits {
        count,
        period: c.period,
        clock_error_ppm: ppm_of(c.period, nominal_of(samples.rate)),
        level,
        points: c.count,
        depth: order::select(depths, c.count / 2),
    })
}

// The bits of a burst.
pub fn bits_of(samples: Samples, bits: &mut [u8], scratch: &mut [f64]) -> Option<BurstBits>
    requires { (most_bits ≤ length bits.old) × (scratch64 ≤ length scratch.old) }
    ensures { (result ≡ values_of (outcome samples.entry.dbm.now samples.entry.rate))
        × (bits.new ≡ handed (outcome samples.entry.dbm.now samples.entry.rate) bits.old) }
{
    let seg = samples.dbm;
    if seg.len() == 0 {
        return None;
    }
    let level = level_of(seg);
    let n = dips::dips_into(samples, std::num::f32_to_f64_with_nan(level), scratch);
    if n < ENOUGH_DIPS {
        return None;
    }
    let nominal = nominal_of(samples.rate);
    let (front, back) = scratch.split_at_mut(dips::DEPTHS);
    let (points, _) = front.split_at_mut(n);
    let (depths, _) = back.split_at_mut(n);
    let start = Clock::new(nominal, anchor_of(points, nominal));
    let c = fit_clock(points, depths, start)?;
    clocked_bits(
        samples,
        level,
        c,
        &points[..c.count],
        &depths[..c.count],
        bits,
    )
}

// The samples, or the first cause that applies to `burst_bits`, with room for so many bits, f32 and f64.
#[tactic(auto, using(limits::proofs::Causes::sample_refused, limits::proofs::Causes::samples_pass), unfolding(limits::specs::Answer::cause_of, crate::specs::Bits::bits_cause))]
fn check<'a>(
    seg: &'a [f32],
    rate: u32,
    bits: usize,
    s32: usize,
    s64: usize,
) -> Result<Samples<'a>, Refusal>
    ensures cause { cause_of result ≡ bits_cause seg.now rate bits s32 s64 }
    ensures ok { IfOk result (λ s. (s.dbm.now ≡ seg.now) × (s.rate ≡ rate) × (most_bits ≤ bits) × (scratch64 ≤ s64)) }
{
    limits::check_rate(rate)?;
    let narrow = s32 < limits::BUFFER_S * (rate as usize);
    if bits < limits::MOST_BITS || narrow || s64 < limits::SCRATCH64 {
        return Err(Refusal::Short);
    }
    Samples::new(seg, rate)
}

// Finds the dips of one burst, recovers the bit clock from their positions and hands over the data bits (demod.rs `burst_bits`).
pub fn burst_bits(
    seg: &[f32],
    rate: u32,
    bits: &mut [u8],
    scratch32: &mut [f32],
    scratch64: &mut [f64],
) -> Result<Option<BurstBits>, Refusal>
    ensures { (said result ≡ bits_answer seg.now rate (length bits.old) (length scratch32.old) (length scratch64.old))
        × (bits.new ≡ leaves (number (said result)) (handed (outcome seg.now rate) bits.old) bits.old)
        × Free (number (said result)) scratch32.old scratch32.new × Free (number (said result)) scratch64.old scratch64.new }
{
    let samples = check(seg, rate, bits.len(), scratch32.len(), scratch64.len())?;
    Ok(bits_of(samples, bits, scratch64))
}
