// A frame's frequency from its readings: medians over lent scratch, frame 1 itself, and the midpoint of frames 2 and 3.
#![tactic(auto)]

ghost use Rattle.std.specs.Prelude.{◌≡◌, true, ◌&&◌, map, ℕ, ◌≤◌, ◌<◌, length, eqb, Some, None};
ghost use Rattle.std.specs.List.{last_or};
ghost use Rattle.limits.specs.Limits.{longest_stream};
ghost use Rattle.frequency_signal.specs.Seconds.{late};
ghost use Rattle.frequency_signal.specs.Order.{Index};
ghost use Rattle.frequency_lists.specs.Lists.{Small, no_nan, ats, hzs};
ghost use Rattle.frequency_lists.specs.Marks.{retained};
ghost use Rattle.frequency_measure.specs.Measured.{median, sample_of, first_of, past_of, inside, near, spaced, frame_frequency, direct, middle};
ghost use Rattle.frequency_measure.specs.Gathered.{Front, Free, in_frame, of_frame, los};

use frequency_lists::Reading;
use frequency_signal::Pace;
use record::FrameSpan;

// The frequency of a frame, and a retune, need this many readings.
pub const FEWEST: usize = 5;

// The scale is known to about 1 %, and only from readings up to 50 kHz: a message read further than this from the receiver
// frequency gets no frequency rather than one that may miss the device's window (+/- 1 kHz is the aim).
const MAX_OFFSET_HZ: f64 = 10_000.0;

// Frames 2 and 3 are sent at frame 1 +/- this (RC3_DELTA_F_MF_HZ).
const DELTA_HZ: f64 = 6000.0;

// A plausible spacing (12 kHz) guards against a frame from another device.
const SPACING_LOW: f64 = 1.5;

const SPACING_HIGH: f64 = 2.5;

// CFO readings are trusted this long into a frame.
const SETTLE_S: f64 = 0.3;

// A frame's frequency and the receiver frequency it was measured against.
#[derive(Clone, Copy)]
pub struct FrameFrequency {
    pub hz: f64,
    pub lo: u32,
}

// The samples of a frame whose readings are trusted: from `first` up to `past`.
#[derive(Clone, Copy)]
struct Trusted {
    first: u64,
    past: u64,
}

// The frequencies of the readings that are at least GAP_S into the frame, in front of the scratch (hz of next_tuning).
pub fn gather_late(pace: Pace, from: Option<u64>, readings: &[Reading], out: &mut [f64]) -> usize
    requires { Index longest_stream from × Small (ats readings.now) × (length readings.now ≤ length out.old) }
    ensures { Front (hzs (retained (map (late pace.rate from) (ats readings.now)) readings.now)) out.old result out.new }
{
    let mut w = 0usize;
    for x in readings {
        w = frequency_lists::put(pace.is_late(from, x.at), w, x.hz, out);
    }
    w
}

// The median: index length / 2 of their order (median).
pub fn median_of(xs: &[f64]) -> f64
    requires { (0 < length xs.now) × (no_nan xs.now ≡ true) }
    ensures { result ≡ median xs.now }
{
    order::select(xs, xs.len() / 2)
}

// (x + 0.5).floor() as an index.
fn sample_of(x: f64) -> u64
    ensures { result ≡ sample_of x }
{
    floats::to_usize_saturating(floats::round_half_up(x)) as u64
}

impl Trusted {
    // From SETTLE_S into the frame to its end.
    fn of(rate: u32, f: FrameSpan) -> Self
        ensures first { result.first ≡ first_of rate f.time }
        ensures past { result.past ≡ past_of rate f.end }
    {
        Trusted {
            first: sample_of((f.time + SETTLE_S) * (rate as f64)),
            past: sample_of(f.end * (rate as f64)),
        }
    }

    fn has(self, at: u64) -> bool
        ensures { result ≡ inside self.first self.past at }
    {
        let a = self.first <= at;
        let b = at < self.past;
        a & b
    }

    // Whether a reading is one of the frame, against the receiver frequency `lo`.
    fn has_against(self, lo: u32, x: Reading) -> bool
        ensures { result ≡ (inside self.first self.past x.at && eqb x.lo lo) }
    {
        let same = x.lo == lo;
        self.has(x.at) & same
    }
}

// The receiver frequency of a frame's last reading, or none where it has no reading.
fn last_lo(frame: Trusted, readings: &[Reading]) -> Option<u32>
    ensures { result ≡ last_or None (los (in_frame frame.first frame.past readings.now)) }
{
    let mut last = None;
    for x in readings {
        last = whole::pick(frame.has(x.at), Some(x.lo), last);
    }
    last
}

// The frequencies of a frame's readings against one receiver frequency, in front of the scratch.
fn gather_frame(frame: Trusted, lo: u32, readings: &[Reading], out: &mut [f64]) -> usize
    requires { length readings.now ≤ length out.old }
    ensures { Front (hzs (of_frame frame.first frame.past lo readings.now)) out.old result out.new }
{
    let mut w = 0usize;
    for x in readings {
        w = frequency_lists::put(frame.has_against(lo, *x), w, x.hz, out);
    }
    w
}

// A frame's frequency against the last receiver frequency used during it, of five readings or more (frame_frequency).
pub fn frame_of(
    rate: u32,
    f: FrameSpan,
    readings: &[Reading],
    out: &mut [f64],
) -> Option<FrameFrequency>
    requires { Free readings.now out.old }
    ensures { (result ≡ frame_frequency rate readings.now f.time f.end) × (length out.new ≡ length out.old) }
{
    let frame = Trusted::of(rate, f);
    let lo = last_lo(frame, readings)?;
    let m = gather_frame(frame, lo, readings, out);
    if m < FEWEST {
        return None;
    }
    Some(FrameFrequency {
        hz: median_of(&out[..m]),
        lo,
    })
}

// Whether a frequency was measured close to the receiver frequency.
fn is_near(h: f64, lo: u32) -> bool
    ensures { result ≡ near h lo }
{
    floats::abs64(h - (lo as f64)) <= MAX_OFFSET_HZ
}

// Whether frame 2 is above frame 3 by a plausible spacing.
fn is_spaced(h: f64, g: f64) -> bool
    ensures { result ≡ spaced h g }
{
    let low = h - g > SPACING_LOW * DELTA_HZ;
    let high = h - g < SPACING_HIGH * DELTA_HZ;
    low & high
}

// Frame 1 itself, unless it was measured too far from the receiver frequency.
pub fn direct_hz(m: Option<FrameFrequency>) -> Option<u32>
    ensures { result ≡ direct m }
{
    let f = m?;
    is_near(f.hz, f.lo).then_some(cfo::round_hz(f.hz))
}

// The midpoint of two frequencies, if they are plausible, else the other.
fn midpoint(f: FrameFrequency, g: FrameFrequency, other: Option<u32>) -> Option<u32>
    ensures { result ≡ middle (Some f) (Some g) other }
{
    let mid = (f.hz + g.hz) / 2.0;
    let same = f.lo == g.lo;
    let ok = same & (is_spaced(f.hz, g.hz) & is_near(mid, f.lo));
    whole::pick(ok, Some(cfo::round_hz(mid)), other)
}

// The midpoint of frames 2 and 3 when the device sent them at frame 1 +/- 6 kHz and they were measured with the same
// receiver frequency, else the other.
pub fn middle_hz(
    f2: Option<FrameFrequency>,
    f3: Option<FrameFrequency>,
    other: Option<u32>,
) -> Option<u32>
    ensures { result ≡ middle f2 f3 other }
{
    match (f2, f3) {
        (Some(f), Some(g)) => midpoint(f, g, other),
        _ => other,
    }
}
