// Calls on a tracker that is known to be in order, as one that grew from a fresh one is: only what is handed in is tested, and the
// answers are those of the public calls.
#![tactic(auto)]

ghost use Rattle.std.specs.Prelude.{◌≡◌, true, ◌+◌, ◌^◌, ◌≤◌, ◌<◌, length, take, IfSome};
ghost use Rattle.limits.specs.Limits.{longest_stream};
ghost use Rattle.limits.specs.Answer.{cause_of};
ghost use Rattle.frequency_signal.specs.Seconds.{oldest_of};
ghost use Rattle.frequency_lists.specs.Lists.{ats};
ghost use Rattle.frequency_retain.specs.Retain.{Leads};
ghost use Rattle.frequency.specs.Lent.{lists};
ghost use Rattle.frequency.specs.Calls.{SamplesEnd, CfoEnd, NextEnd, tune_of};
ghost use Rattle.frequency_grown.specs.Known.{Known, line_cause, values_cause};
ghost use Rattle.frequency_grown.specs.Rising.{rises};

use frequency::FrequencyTracker;
use frequency_lists::{Reading, Tuning};
use limits::Refusal;

// The first cause, 3, 4 or 7, that applies to a line of samples.
fn check_line(rate: u32, n: u64, dbm: &[f32]) -> Result<(), Refusal>
    requires { n ≤ longest_stream }
    ensures { cause_of result ≡ line_cause rate n dbm.now }
{
    if dbm.len() > limits::BUFFER_S * (rate as usize) {
        return Err(Refusal::Long);
    }
    if !limits::all_dbm(dbm) {
        return Err(Refusal::BadSample);
    }
    if n + (dbm.len() as u64) > limits::LONGEST_STREAM {
        return Err(Refusal::Stream);
    }
    Ok(())
}

// The same, 3 or 8, of register values behind `held` readings.
fn check_values(held: usize, raw: &[u16], readings: &[Reading]) -> Result<(), Refusal>
    requires { held ≤ length readings.now }
    ensures { cause_of result ≡ values_cause held raw.now readings.now }
{
    if raw.len() > limits::MOST_READINGS {
        return Err(Refusal::Long);
    }
    if !frequency_lists::fits_readings(held + raw.len(), readings) {
        return Err(Refusal::Full);
    }
    Ok(())
}

// `samples` after a look at the readings.
fn hear(
    t: &mut FrequencyTracker,
    look: Option<usize>,
    dbm: &[f32],
    readings: &mut [Reading],
    tunings: &mut [Tuning],
) -> Result<(), Refusal>
    requires { Known t.old (lists readings.old tunings.old)
        × IfSome look (λ lead. Leads (oldest_of t.old.rate (t.old.signal.n + length dbm.now)) lead (ats (take t.old.readings readings.old))) }
    ensures { SamplesEnd t.old dbm.now (lists readings.old tunings.old)
        (cause_of result) t.new (lists readings.new tunings.new) }
{
    check_line(t.rate, t.signal.n, dbm)?;
    frequency::hear_line(t, look, dbm, readings, tunings);
    Ok(())
}

// A look at readings that rise: those that a line of `more` samples makes go stand in front, and no other is looked at.
fn rising_look(t: &FrequencyTracker, more: usize, readings: &[Reading]) -> usize
    requires { (t.now.signal.n ≤ longest_stream) × (more < 2 ^ 63) × (t.now.readings ≤ length readings.now)
        × (rises (ats (take t.now.readings readings.now)) ≡ true) }
    ensures { Leads (oldest_of t.now.rate (t.now.signal.n + more)) result (ats (take t.now.readings readings.now)) }
{
    let low = frequency_signal::oldest(t.rate, t.signal.n + (more as u64));
    frequency_retain::leading(low, &readings[..t.readings])
}

// `FrequencyTracker::samples`, with one look at the readings, for those that go; refusals 3, 4, 7.
pub fn samples(
    t: &mut FrequencyTracker,
    dbm: &[f32],
    readings: &mut [Reading],
    tunings: &mut [Tuning],
) -> Result<(), Refusal>
    requires { Known t.old (lists readings.old tunings.old) }
    ensures { SamplesEnd t.old dbm.now (lists readings.old tunings.old)
        (cause_of result) t.new (lists readings.new tunings.new) }
{
    let look = frequency::first_look(t, dbm.len(), readings);
    hear(t, look, dbm, readings, tunings)
}

// The same where the readings rise, as they do where a line has one register value: only those that go are looked at.
pub fn samples_rising(
    t: &mut FrequencyTracker,
    dbm: &[f32],
    readings: &mut [Reading],
    tunings: &mut [Tuning],
) -> Result<(), Refusal>
    requires { Known t.old (lists readings.old tunings.old) × (rises (ats (take t.old.readings readings.old)) ≡ true) }
    ensures { SamplesEnd t.old dbm.now (lists readings.old tunings.old)
        (cause_of result) t.new (lists readings.new tunings.new) }
{
    let lead = rising_look(t, dbm.len(), readings);
    hear(t, Some(lead), dbm, readings, tunings)
}

// `FrequencyTracker::cfo`, without a look at what is held; refusals 3, 8.
pub fn cfo(
    t: &mut FrequencyTracker,
    raw: &[u16],
    readings: &mut [Reading],
    tunings: &[Tuning],
) -> Result<(), Refusal>
    requires { Known t.old (lists readings.old tunings.now) }
    ensures { CfoEnd t.old raw.now (lists readings.old tunings.now)
        (cause_of result) t.new (lists readings.new tunings.now) }
{
    check_values(t.readings, raw, readings)?;
    frequency::read_line(t, raw, readings, tunings);
    Ok(())
}

// `FrequencyTracker::next_tuning`, with a look at the readings only where a frame's frequency is asked for; refusal 2.
pub fn next_tuning(
    t: &mut FrequencyTracker,
    readings: &[Reading],
    tunings: &[Tuning],
    out: &mut [f64],
) -> Result<Option<u32>, Refusal>
    requires { Known t.old (lists readings.now tunings.now) }
    ensures { NextEnd t.old (lists readings.now tunings.now) out.old
        (cause_of result) t.new (tune_of result) out.new }
{
    if out.len() < t.readings {
        return Err(Refusal::Short);
    }
    Ok(frequency::choose_tuning(t, readings, tunings, out))
}
