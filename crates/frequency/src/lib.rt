// The frequency tracker: frequency.rs, with its lists lent.
#![tactic(auto)]

ghost use Rattle.std.specs.Prelude.{◌≡◌, true, ◌+◌, ◌≤◌, length, take, IfSome};
ghost use Rattle.frequency_signal.specs.Seconds.{oldest_of};
ghost use Rattle.frequency_lists.specs.Lists.{ats, freqs, last_or};
ghost use Rattle.frequency_retain.specs.Retain.{Leads, Looked};
ghost use Rattle.frequency_tuning.specs.Steps.{settled_by};
ghost use Rattle.frequency.specs.Lent.{lists};
ghost use Rattle.frequency.specs.Order.{ahead, tunings_in_order, readings_in_order, in_order, floats_ok, numbers_ok, due_of, cause_new, cause_freq, cause_tuned, cause_samples, cause_cfo, cause_next, cause_frame, Sound};
ghost use Rattle.limits.specs.Answer.{said, cause_of};
ghost use Rattle.frequency.specs.Calls.{SamplesEnd, CfoEnd, TunedEnd, NextEnd, FrameEnd, Frame1End, freq_answer, tune_of, fresh, cause_of_new, tracker_of};
ghost use Rattle.frequency.specs.Waiting.{Settling, settled_of, step_by};

use frequency_lists::{Reading, Tuning};
use frequency_measure::FrameFrequency;
use frequency_signal::{Pace, Signal, Stream};
use frequency_tuning::Step;
use limits::Refusal;

// How far past the stream's end a line's last reading may stand.
const AHEAD: u64 = 32760;

// The tracker; its lists of readings and tunings are lent, of which the counts are held.
#[derive(Clone, Copy)]
pub struct FrequencyTracker {
    pub rate: u32,
    pub base_freq: u32,
    pub step_hz: f64,
    pub line_start: u64,
    pub readings: usize,
    pub tunings: usize,
    pub requested: Option<u32>,
    pub signal: Signal,
}

// Why `new` refuses, and the tracker that it refuses.
#[derive(Clone, Copy)]
pub struct RefusedTracker {
    pub refusal: Refusal,
    pub tracker: FrequencyTracker,
}

impl From<RefusedTracker> for Refusal {
    ghost from_gives = { λ r n. n ≡ r.refusal };

    fn from(refused: RefusedTracker) -> Refusal {
        refused.refusal
    }
}

fn floats_ok(t: &FrequencyTracker) -> bool
    ensures { result ≡ floats_ok t.now }
{
    let step = frequency_tuning::step_ok(t.step_hz);
    step & frequency_signal::floor_ok(t.signal.floor)
}

// settled: whether a look has settled that the readings held are in order and numbers.
fn numbers_ok(t: &FrequencyTracker, settled: bool, readings: &[Reading]) -> bool
    requires { (t.now.readings ≤ length readings.now) × (settled ≡ true → Sound t.now readings.now) }
    ensures { result ≡ numbers_ok t.now readings.now }
{
    let floats = floats_ok(t);
    if settled {
        return floats;
    }
    floats & frequency_lists::no_nan(&readings[..t.readings])
}

fn tunings_in_order(t: &FrequencyTracker, tunings: &[Tuning]) -> bool
    ensures { result ≡ tunings_in_order t.now tunings.now }
{
    if !frequency_signal::signal_ok(t.line_start, t.signal) {
        return false;
    }
    if !frequency_lists::fits_tunings(t.tunings, tunings) {
        return false;
    }
    frequency_lists::tuned_within(&tunings[..t.tunings], t.signal.n)
}

fn readings_in_order(t: &FrequencyTracker, settled: bool, readings: &[Reading]) -> bool
    requires { settled ≡ true → Sound t.now readings.now }
    ensures { result ≡ readings_in_order t.now readings.now }
{
    if !frequency_signal::signal_ok(t.line_start, t.signal) {
        return false;
    }
    if !frequency_lists::fits_readings(t.readings, readings) {
        return false;
    }
    if settled {
        return true;
    }
    frequency_lists::within(&readings[..t.readings], t.signal.n + AHEAD)
}

fn in_order(t: &FrequencyTracker, settled: bool, readings: &[Reading], tunings: &[Tuning]) -> bool
    requires { settled ≡ true → Sound t.now readings.now }
    ensures { result ≡ in_order t.now (lists readings.now tunings.now) }
{
    let a = tunings_in_order(t, tunings);
    let b = readings_in_order(t, settled, readings);
    a & b
}

// The receiver frequency.
fn freq_of(t: &FrequencyTracker, tunings: &[Tuning]) -> u32
    requires { t.now.tunings ≤ length tunings.now }
    ensures { result ≡ last_or t.now.base_freq (freqs (take t.now.tunings tunings.now)) }
{
    frequency_lists::last_freq(t.base_freq, &tunings[..t.tunings])
}

// Whether a frequency is a new tuning.
fn is_due(t: &FrequencyTracker, hz: u32, tunings: &[Tuning]) -> bool
    requires { t.now.tunings ≤ length tunings.now }
    ensures { result ≡ due_of t.now tunings.now hz }
{
    frequency_tuning::is_due(t.base_freq, hz, &tunings[..t.tunings])
}

// A look at the readings before a line of `more` samples: one pass for their order and for what the line makes go.
pub fn first_look(t: &FrequencyTracker, more: usize, readings: &[Reading]) -> Option<usize>
    ensures { IfSome result (λ lead. (t.now.readings ≤ length readings.now)
        × Looked (oldest_of t.now.rate (t.now.signal.n + more)) (t.now.signal.n + ahead) lead (take t.now.readings readings.now)) }
{
    let n = t.signal.n;
    if n > limits::LONGEST_STREAM || more > limits::MOST_SAMPLES || readings.len() < t.readings {
        return None;
    }
    let low = frequency_signal::oldest(t.rate, n + (more as u64));
    frequency_retain::look_at(low, n + AHEAD, &readings[..t.readings])
}

// The same pass settles that the readings held are in order and numbers too, or it settles nothing.
fn sound_look(t: &FrequencyTracker, more: usize, readings: &[Reading]) -> Option<usize>
    ensures { IfSome result (λ lead. Sound t.now readings.now
        × Leads (oldest_of t.now.rate (t.now.signal.n + more)) lead (ats (take t.now.readings readings.now))) }
{
    if t.signal.n > limits::LONGEST_STREAM
        || more > limits::MOST_SAMPLES
        || readings.len() < t.readings
    {
        return None;
    }
    let low = frequency_signal::oldest(t.rate, t.signal.n + (more as u64));
    frequency_retain::look_at_numbers(low, t.signal.n + AHEAD, &readings[..t.readings])
}

// One pass over the readings held, whose order and whose frequencies 01 asks of a call: where it settles nothing, the causes ask
// for each by itself.
fn is_sound(t: &FrequencyTracker, readings: &[Reading]) -> bool
    ensures { result ≡ true → Sound t.now readings.now }
{
    if t.signal.n > limits::LONGEST_STREAM || readings.len() < t.readings {
        return false;
    }
    frequency_lists::numbers_within(&readings[..t.readings], t.signal.n + AHEAD)
}

// The first cause that applies to `freq`.
fn check_freq(t: &FrequencyTracker, tunings: &[Tuning]) -> Result<(), Refusal>
    ensures { cause_of result ≡ cause_freq t.now tunings.now }
{
    if !limits::rate_ok(t.rate) {
        return Err(Refusal::BadRate);
    }
    if !tunings_in_order(t, tunings) {
        return Err(Refusal::BadState);
    }
    if !floats_ok(t) {
        return Err(Refusal::BadNumber);
    }
    Ok(())
}

// The same of `tuned`.
fn check_tuned(t: &FrequencyTracker, hz: u32, tunings: &[Tuning]) -> Result<(), Refusal>
    ensures { cause_of result ≡ cause_tuned t.now tunings.now hz }
{
    if !limits::rate_ok(t.rate) {
        return Err(Refusal::BadRate);
    }
    if !tunings_in_order(t, tunings) {
        return Err(Refusal::BadState);
    }
    let due = is_due(t, hz, tunings);
    if frequency_tuning::no_room(due, t.tunings, tunings) {
        return Err(Refusal::Full);
    }
    if !floats_ok(t) {
        return Err(Refusal::BadNumber);
    }
    Ok(())
}

// The same of `samples`.
fn check_samples(
    t: &FrequencyTracker,
    settled: bool,
    dbm: &[f32],
    readings: &[Reading],
    tunings: &[Tuning],
) -> Result<(), Refusal>
    requires { settled ≡ true → Sound t.now readings.now }
    ensures { cause_of result ≡ cause_samples t.now (lists readings.now tunings.now) dbm.now }
{
    if !limits::rate_ok(t.rate) {
        return Err(Refusal::BadRate);
    }
    if dbm.len() > limits::BUFFER_S * (t.rate as usize) {
        return Err(Refusal::Long);
    }
    if !limits::all_dbm(dbm) {
        return Err(Refusal::BadSample);
    }
    if !in_order(t, settled, readings, tunings) {
        return Err(Refusal::BadState);
    }
    if t.signal.n + (dbm.len() as u64) > limits::LONGEST_STREAM {
        return Err(Refusal::Stream);
    }
    if !numbers_ok(t, settled, readings) {
        return Err(Refusal::BadNumber);
    }
    Ok(())
}

// The same of `cfo`.
fn check_cfo(
    t: &FrequencyTracker,
    raw: &[u16],
    readings: &[Reading],
    tunings: &[Tuning],
) -> Result<(), Refusal>
    ensures { cause_of result ≡ cause_cfo t.now (lists readings.now tunings.now) raw.now }
{
    if !limits::rate_ok(t.rate) {
        return Err(Refusal::BadRate);
    }
    if raw.len() > limits::MOST_READINGS {
        return Err(Refusal::Long);
    }
    let settled = is_sound(t, readings);
    if !in_order(t, settled, readings, tunings) {
        return Err(Refusal::BadState);
    }
    if !frequency_lists::fits_readings(t.readings + raw.len(), readings) {
        return Err(Refusal::Full);
    }
    if !numbers_ok(t, settled, readings) {
        return Err(Refusal::BadNumber);
    }
    Ok(())
}

// The same of `next_tuning`.
fn check_next(
    t: &FrequencyTracker,
    readings: &[Reading],
    tunings: &[Tuning],
    room: usize,
) -> Result<(), Refusal>
    ensures { cause_of result ≡ cause_next t.now (lists readings.now tunings.now) room }
{
    if !limits::rate_ok(t.rate) {
        return Err(Refusal::BadRate);
    }
    if room < t.readings {
        return Err(Refusal::Short);
    }
    let settled = is_sound(t, readings);
    if !in_order(t, settled, readings, tunings) {
        return Err(Refusal::BadState);
    }
    if !numbers_ok(t, settled, readings) {
        return Err(Refusal::BadNumber);
    }
    Ok(())
}

// The same of `frame_frequency` and `frame1`; ok: whether their spans are fine.
fn check_frame(
    t: &FrequencyTracker,
    readings: &[Reading],
    room: usize,
    ok: bool,
) -> Result<(), Refusal>
    ensures { cause_of result ≡ cause_frame t.now readings.now room ok }
{
    if !limits::rate_ok(t.rate) {
        return Err(Refusal::BadRate);
    }
    if room < t.readings {
        return Err(Refusal::Short);
    }
    let settled = is_sound(t, readings);
    if !readings_in_order(t, settled, readings) {
        return Err(Refusal::BadState);
    }
    let numbers = numbers_ok(t, settled, readings);
    if !(numbers & ok) {
        return Err(Refusal::BadNumber);
    }
    Ok(())
}

// The step to the settled readings: five of them, or nowhere.
fn settled_step(t: &FrequencyTracker, held: &[Reading], out: &mut [f64]) -> Step
    requires { Settling t.now held.now out.old }
    ensures { result ≡ settled_by (settled_of t.now held.now) }
{
    let pace = Pace { rate: t.rate };
    let m = frequency_measure::gather_late(pace, t.signal.frame_from, held, out);
    if m < frequency_measure::FEWEST {
        return Step::Stay;
    }
    Step::Settled(cfo::round_hz(frequency_measure::median_of(&out[..m])))
}

// Where `next_tuning` goes, of the readings held.
fn step_of(t: &FrequencyTracker, held: &[Reading], out: &mut [f64]) -> Step
    requires { Settling t.now held.now out.old }
    ensures { result ≡ step_by t.now held.now }
{
    let None = t.requested else {
        return Step::Stay;
    };
    let stream = Stream {
        rate: t.rate,
        n: t.signal.n,
    };
    if stream.is_quiet(t.signal.last_signal) {
        return Step::Base;
    }
    if frequency_tuning::is_waiting(t.rate, t.signal) {
        return settled_step(t, held, out);
    }
    Step::Stay
}

// ---- what an accepted call does: the public calls ask after their causes, and frequency_grown knows that there are none in what is held

// What an accepted `samples` does, after a look at the readings.
pub fn hear_line(
    t: &mut FrequencyTracker,
    look: Option<usize>,
    dbm: &[f32],
    readings: &mut [Reading],
    tunings: &mut [Tuning],
)
    requires { (cause_samples t.old (lists readings.old tunings.old) dbm.now ≡ 0)
        × IfSome look (λ lead. Leads (oldest_of t.old.rate (t.old.signal.n + length dbm.now)) lead (ats (take t.old.readings readings.old))) }
    ensures { SamplesEnd t.old dbm.now (lists readings.old tunings.old) 0 t.new (lists readings.new tunings.new) }
{
    t.line_start = t.signal.n;
    t.signal = frequency_signal::hear_all(t.rate, t.signal, dbm);
    let stream = Stream {
        rate: t.rate,
        n: t.signal.n,
    };
    let held = &mut readings[..t.readings];
    t.readings = frequency_retain::retain_looked(look, stream, held);
    t.tunings = frequency_retain::retain_tunings(stream, &mut tunings[..t.tunings]);
}

// What an accepted `cfo` does.
pub fn read_line(
    t: &mut FrequencyTracker,
    raw: &[u16],
    readings: &mut [Reading],
    tunings: &[Tuning],
)
    requires { cause_cfo t.old (lists readings.old tunings.now) raw.now ≡ 0 }
    ensures { CfoEnd t.old raw.now (lists readings.old tunings.now) 0 t.new (lists readings.new tunings.now) }
{
    let more = 1 < t.tunings;
    let f = freq_of(t, tunings);
    let last = frequency_lists::last_tuned(&tunings[..t.tunings]);
    let start = Stream {
        rate: t.rate,
        n: t.line_start,
    };
    let count = frequency_lists::read_values(
        start, t.step_hz, more, last, f, t.readings, raw, readings,
    );
    t.readings = count;
}

// What an accepted `next_tuning` does, and where to tune.
pub fn choose_tuning(
    t: &mut FrequencyTracker,
    readings: &[Reading],
    tunings: &[Tuning],
    out: &mut [f64],
) -> Option<u32>
    requires { cause_next t.old (lists readings.now tunings.now) (length out.old) ≡ 0 }
    ensures { NextEnd t.old (lists readings.now tunings.now) out.old 0 t.new result out.new }
{
    let step = step_of(t, &readings[..t.readings], out);
    let now_hz = freq_of(t, tunings);
    let tune = frequency_tuning::target_of(t.base_freq, now_hz, step);
    t.signal.retuned = frequency_tuning::retuned_by(step, t.signal.retuned);
    t.requested = frequency_tuning::remember(tune, t.requested);
    tune
}

impl FrequencyTracker {
    // A tracker that has heard nothing, of any rate and step: its calls refuse those that are out of range.
    pub fn fresh(rate: u32, base_freq: u32, step_hz: f64) -> Self
        ensures { result ≡ fresh rate base_freq step_hz }
    {
        FrequencyTracker {
            rate,
            base_freq,
            step_hz,
            line_start: 0,
            readings: 0,
            tunings: 0,
            requested: None,
            signal: Signal {
                n: 0,
                floor: None,
                frame_from: None,
                last_signal: None,
                retuned: false,
            },
        }
    }

    // The same where rate and step are in range; refusals 1 (rate) and 9 (step), which hand it back.
    pub fn new(rate: u32, base_freq: u32, step_hz: f64) -> Result<Self, RefusedTracker>
        ensures number { cause_of_new result ≡ cause_new rate step_hz }
        ensures value { tracker_of result ≡ fresh rate base_freq step_hz }
    {
        let tracker = Self::fresh(rate, base_freq, step_hz);
        if !limits::rate_ok(rate) {
            let refusal = Refusal::BadRate;
            return Err(RefusedTracker { refusal, tracker });
        }
        if !frequency_tuning::step_ok(step_hz) {
            let refusal = Refusal::BadNumber;
            return Err(RefusedTracker { refusal, tracker });
        }
        Ok(tracker)
    }

    // The frequency that the receiver is tuned to; refusals 1, 5, 9.
    pub fn freq(&self, tunings: &[Tuning]) -> Result<u32, Refusal>
        ensures { said result ≡ freq_answer self.now tunings.now }
    {
        check_freq(self, tunings)?;
        Ok(freq_of(self, tunings))
    }

    // The streamer's status line reports the frequency that it is tuned to; refusals 1, 5, 8, 9.
    pub fn tuned(&mut self, hz: u32, tunings: &mut [Tuning]) -> Result<(), Refusal>
        ensures { TunedEnd self.old hz tunings.old (cause_of result) self.new tunings.new }
    {
        check_tuned(self, hz, tunings)?;
        let due = is_due(self, hz, tunings);
        self.requested = frequency_tuning::answer(self.requested, hz);
        let tuning = Tuning {
            at: self.signal.n,
            freq: hz,
        };
        self.tunings = frequency_lists::put(due, self.tunings, tuning, tunings);
        Ok(())
    }

    // One line of RSSI samples (dBm); refusals 1, 3, 4, 5, 7, 9.
    pub fn samples(
        &mut self,
        dbm: &[f32],
        readings: &mut [Reading],
        tunings: &mut [Tuning],
    ) -> Result<(), Refusal>
        ensures { SamplesEnd self.old dbm.now (lists readings.old tunings.old)
            (cause_of result) self.new (lists readings.new tunings.new) }
    {
        let look = sound_look(self, dbm.len(), readings);
        check_samples(self, look.is_some(), dbm, readings, tunings)?;
        hear_line(self, look, dbm, readings, tunings);
        Ok(())
    }

    // The raw 12-bit register values of the last line of samples, one for each 8; refusals 1, 3, 5, 8, 9.
    pub fn cfo(
        &mut self,
        raw: &[u16],
        readings: &mut [Reading],
        tunings: &[Tuning],
    ) -> Result<(), Refusal>
        ensures { CfoEnd self.old raw.now (lists readings.old tunings.now)
            (cause_of result) self.new (lists readings.new tunings.now) }
    {
        check_cfo(self, raw, readings, tunings)?;
        read_line(self, raw, readings, tunings);
        Ok(())
    }

    // Where to tune now: to the coarse frame 1 reading once it has settled, and back to the base frequency after a message;
    // refusals 1, 2, 5, 9.
    pub fn next_tuning(
        &mut self,
        readings: &[Reading],
        tunings: &[Tuning],
        out: &mut [f64],
    ) -> Result<Option<u32>, Refusal>
        ensures { NextEnd self.old (lists readings.now tunings.now) out.old
            (cause_of result) self.new (tune_of result) out.new }
    {
        check_next(self, readings, tunings, out.len())?;
        Ok(choose_tuning(self, readings, tunings, out))
    }

    // The frequency of one frame against the last receiver frequency used during it (the closest one after a retune);
    // refusals 1, 2, 5, 9.
    pub fn frame_frequency(
        &self,
        f: record::FrameSpan,
        readings: &[Reading],
        out: &mut [f64],
    ) -> Result<Option<FrameFrequency>, Refusal>
        ensures { FrameEnd self.now f readings.now out.old result out.new }
    {
        check_frame(self, readings, out.len(), record::spans::span_ok(f))?;
        Ok(frequency_measure::frame_of(self.rate, f, &readings[..self.readings], out))
    }

    // Frame 1 of a message: the midpoint of frames 2 and 3 when the device sent them at frame 1 +/- 6 kHz and they were
    // measured with the same receiver frequency, otherwise frame 1 itself. None unless it was measured close to the receiver
    // frequency. Refusals 1, 2, 5, 9.
    pub fn frame1(
        &self,
        spans: [record::FrameSpan; 3],
        downlink: bool,
        readings: &[Reading],
        out: &mut [f64],
    ) -> Result<Option<u32>, Refusal>
        ensures { Frame1End self.now spans downlink readings.now out.old result out.new }
    {
        let ok = record::spans::spans_ok(spans[0], spans[1], spans[2]);
        check_frame(self, readings, out.len(), ok)?;
        let held = &readings[..self.readings];
        let f1 = frequency_tuning::of_rank(self.rate, 0, &spans, held, out);
        let one = frequency_measure::direct_hz(f1);
        if !downlink {
            return Ok(one);
        }
        let f2 = frequency_tuning::of_rank(self.rate, 1, &spans, held, out);
        let f3 = frequency_tuning::of_rank(self.rate, 2, &spans, held, out);
        Ok(frequency_measure::middle_hz(f2, f3, one))
    }
}
