// The parts of the tracker's calls that need no lists of readings: requests and steps of `next_tuning`, new tunings, and the
// range of a step handed in.
#![tactic(auto)]

ghost use Rattle.std.specs.Prelude.{◌≡◌, cond, not, true, ◌&&◌, ◌∷◌, [], ◌+◌, ◌≤◌, length, eqb};
ghost use Rattle.frequency_lists.specs.Lists.{last_or, freqs, fits_tunings};
ghost use Rattle.frequency_measure.specs.Gathered.{Free};
ghost use Rattle.frequency_measure.specs.Measured.{of_rank};
ghost use Rattle.frequency_tuning.specs.Steps.{Steady, answered, waits, unless, target, asked, retunes};
ghost use Rattle.frequency_tuning.specs.Ranges.{step_ok};

use frequency_lists::{Reading, Tuning};
use frequency_measure::FrameFrequency;
use frequency_signal::{Signal, Stream};
use record::FrameSpan;

// The Hz of a CFO step lie between 0 and this.
const HIGHEST_STEP: f64 = 10_000.0;

// Where `next_tuning` goes: nowhere, back to the base frequency, or to the settled frame 1 reading.
#[derive(Clone, Copy)]
pub enum Step {
    Stay,
    Base,
    Settled(u32),
}

// Whether a register step lies in 01's range; a NaN does not.
pub fn step_ok(x: f64) -> bool
    ensures { result ≡ step_ok x }
{
    let low = x > 0.0;
    let high = x <= HIGHEST_STEP;
    low & high
}

// Whether a frequency is a new tuning (freq != self.freq() || self.tuning.is_empty()).
pub fn is_due(base: u32, hz: u32, tunings: &[Tuning]) -> bool
    ensures { result ≡ cond (eqb (length tunings.now) 0) true (not (eqb hz (last_or base (freqs tunings.now)))) }
{
    if tunings.is_empty() {
        return true;
    }
    hz != frequency_lists::last_freq(base, tunings)
}

// Whether a tuning is due and none is free.
pub fn no_room(due: bool, count: usize, tunings: &[Tuning]) -> bool
    requires { count ≤ length tunings.now }
    ensures { result ≡ due && not (fits_tunings (count + 1) tunings.now) }
{
    let room = frequency_lists::fits_tunings(count + 1, tunings);
    due & !room
}

// The request is answered if the receiver is tuned to it.
pub fn answer(requested: Option<u32>, hz: u32) -> Option<u32>
    ensures { result ≡ answered requested hz }
{
    let f = requested?;
    unless_at(f, hz)
}

// Whether a frame is heard whose frequency is not known yet.
pub fn is_waiting(rate: u32, s: Signal) -> bool
    requires { Steady rate s }
    ensures { result ≡ waits rate s }
{
    let stream = Stream { rate, n: s.n };
    let a = !s.retuned;
    let b = !stream.is_gap(s.last_signal);
    let c = !stream.is_young(s.frame_from);
    a & (b & c)
}

// f, unless the receiver is there already.
pub fn unless_at(f: u32, now_hz: u32) -> Option<u32>
    ensures { result ≡ unless f now_hz }
{
    (f != now_hz).then_some(f)
}

// What a step tunes to.
pub fn target_of(base: u32, now_hz: u32, step: Step) -> Option<u32>
    ensures { result ≡ target base now_hz step }
{
    match step {
        Step::Stay => None,
        Step::Base => unless_at(base, now_hz),
        Step::Settled(f) => unless_at(f, now_hz),
    }
}

// A request is remembered.
pub fn remember(tune: Option<u32>, old: Option<u32>) -> Option<u32>
    ensures { result ≡ asked tune old }
{
    tune.or(old)
}

// Whether the receiver is retuned for this message, after a step.
pub fn retuned_by(step: Step, old: bool) -> bool
    ensures { result ≡ retunes step old }
{
    match step {
        Step::Stay | Step::Base => old,
        Step::Settled(_) => true,
    }
}

// The frequency of the first span of a rank.
pub fn of_rank(
    rate: u32,
    rank: u8,
    spans: &[FrameSpan],
    readings: &[Reading],
    out: &mut [f64],
) -> Option<FrameFrequency>
    requires { Free readings.now out.old }
    ensures { (result ≡ of_rank rate readings.now spans.now rank) × (length out.new ≡ length out.old) }
{
    for s in spans {
        if s.rank == rank {
            return frequency_measure::frame_of(rate, *s, readings, out);
        }
    }
    None
}
