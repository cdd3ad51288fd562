// What `host/bench` measures of the tracker: the records of `listen` after two bytes, which say whether all calls of `listen`
// are made for each of them, or `samples` and `cfo` alone; and whether by the public calls, or by those of a tracker that is known to be in order.
#![tactic(auto)]

ghost use Rattle.std.specs.Prelude.{◌≡◌, List, ℕ, Float, length, IfOk};
ghost use Rattle.limits.specs.Answer.{cause_of};
ghost use Rattle.frequency.specs.Lent.{Lists, lists};
ghost use Rattle.frequency.specs.Calls.{SamplesEnd, CfoEnd, NextEnd, tune_of};
ghost use Rattle.frequency_grown.specs.Rising.{Single};

use frequency::FrequencyTracker;
use frequency_lists::{Reading, Tuning};
use limits::Refusal;
use replay::Unanswered;

const RATE: u32 = 1000;

const STEP_HZ: f64 = 122.0703125;

// Bytes of a record.
const RECORD: usize = 16;

// Between two records: whether all calls are made, whether by what is known of the tracker, whether there was a record, and the tracker.
#[derive(Clone, Copy)]
struct State {
    all: bool,
    known: bool,
    started: bool,
    tracker: FrequencyTracker,
}

fn print_tune(rt: &impl Print, f: Option<u32>) {
    if let Some(hz) = f {
        replay::print(rt, b"T ");
        replay::print_number(rt, u64::from(hz));
        replay::print_end(rt);
    }
}

// A record's samples in dBm.
fn levels(record: &[u8]) -> [f32; 8] {
    let mut dbm = [0.0f32; 8];
    for (x, raw) in dbm.iter_mut().zip(record) {
        *x = -(*raw as f32) / 2.0;
    }
    dbm
}

// The tracker of the first record's frequency, where there was no record before.
fn begin(s: &mut State, freq: u32)
    ensures { (l : Lists) → Single s.old.tracker l → Single s.new.tracker l }
{
    if s.started {
        return;
    }
    s.started = true;
    if let Ok(first) = FrequencyTracker::new(RATE, freq, STEP_HZ) {
        s.tracker = first;
    }
}

// A line of samples, by one of the two ways.
fn sampled(
    t: &mut FrequencyTracker,
    known: bool,
    dbm: &[f32],
    readings: &mut [Reading],
    tunings: &mut [Tuning],
) -> Result<(), Refusal>
    requires { Single t.old (lists readings.old tunings.old) }
    ensures { SamplesEnd t.old dbm.now (lists readings.old tunings.old) (cause_of result) t.new (lists readings.new tunings.new) }
{
    if known {
        return frequency_grown::samples_rising(t, dbm, readings, tunings);
    }
    t.samples(dbm, readings, tunings)
}

// A register value, by one of the two ways.
fn read(
    t: &mut FrequencyTracker,
    known: bool,
    raw: &[u16],
    readings: &mut [Reading],
    tunings: &[Tuning],
) -> Result<(), Refusal>
    requires { Single t.old (lists readings.old tunings.now) }
    ensures { CfoEnd t.old raw.now (lists readings.old tunings.now) (cause_of result) t.new (lists readings.new tunings.now) }
{
    if known {
        return frequency_grown::cfo(t, raw, readings, tunings);
    }
    t.cfo(raw, readings, tunings)
}

// Where to tune, by one of the two ways.
fn chosen(
    t: &mut FrequencyTracker,
    known: bool,
    readings: &[Reading],
    tunings: &[Tuning],
    scratch: &mut [f64],
) -> Result<Option<u32>, Refusal>
    requires { Single t.old (lists readings.now tunings.now) }
    ensures { NextEnd t.old (lists readings.now tunings.now) scratch.old (cause_of result) t.new (tune_of result) scratch.new }
{
    if known {
        return frequency_grown::next_tuning(t, readings, tunings, scratch);
    }
    t.next_tuning(readings, tunings, scratch)
}

// The record's samples and its register value.
fn heard(
    t: &mut FrequencyTracker,
    known: bool,
    record: &[u8],
    readings: &mut [Reading; 8000],
    tunings: &mut [Tuning; 64],
) -> Result<(), Refusal>
    requires { (length record.now ≡ 16) × Single t.old (lists readings.old tunings.old) }
    ensures { Single t.new (lists readings.new tunings.new) }
{
    let value = [endian::get::<u16>(record, 8)];
    let dbm = levels(record);
    sampled(t, known, &dbm, readings, tunings)?;
    read(t, known, &value, readings, tunings)
}

// The calls of one record.
fn record_calls(
    rt: &impl Print,
    s: &mut State,
    record: &[u8],
    readings: &mut [Reading; 8000],
    tunings: &mut [Tuning; 64],
    scratch: &mut [f64; 8000],
) -> Result<(), Refusal>
    requires { (length record.now ≡ 16) × Single s.old.tracker (lists readings.old tunings.old) }
    ensures { Single s.new.tracker (lists readings.new tunings.new) }
{
    let freq = endian::get::<u32>(record, 10);
    begin(s, freq);
    if s.all {
        s.tracker.tuned(freq, tunings)?;
    }
    heard(&mut s.tracker, s.known, record, readings, tunings)?;
    if s.all {
        let tune = chosen(&mut s.tracker, s.known, readings, tunings, scratch)?;
        print_tune(rt, tune);
    }
    Ok(())
}

// The last line: samples, readings and tunings.
fn print_last(rt: &impl Print, t: &FrequencyTracker) {
    replay::print(rt, b"E ");
    replay::print_number(rt, t.signal.n);
    replay::print(rt, b" ");
    replay::print_number(rt, t.readings as u64);
    replay::print(rt, b" ");
    replay::print_number(rt, t.tunings as u64);
    replay::print_end(rt);
}

// The whole records of a block; nothing after a refusal.
fn hear(
    rt: &impl Print,
    s: &mut State,
    block: &[u8],
    readings: &mut [Reading; 8000],
    tunings: &mut [Tuning; 64],
    scratch: &mut [f64; 8000],
) -> Result<(), Refusal>
    requires { Single s.old.tracker (lists readings.old tunings.old) }
    ensures { Single s.new.tracker (lists readings.new tunings.new) }
{
    for record in block.chunks_exact(RECORD) {
        record_calls(rt, s, record, readings, tunings, scratch)?;
    }
    Ok(())
}

// The whole input.
fn hear_all(
    rt: &(impl Input + Print),
    s: &mut State,
    readings: &mut [Reading; 8000],
    tunings: &mut [Tuning; 64],
    scratch: &mut [f64; 8000],
) -> Result<(), Refusal>
    requires { Single s.old.tracker (lists readings.old tunings.old) }
{
    for _ in 0..replay::MOST_CASES {
        let mut block = [0u8; 4096];
        let n = reading::read_full(rt, &mut block);
        hear(rt, s, &block[..n], readings, tunings, scratch)?;
        if n < 4096 {
            print_last(rt, &s.tracker);
            break;
        }
    }
    Ok(())
}

fn start(rt: &impl Input, tracker: FrequencyTracker) -> Result<State, Unanswered>
    ensures { IfOk result (λ s. s.tracker ≡ tracker) }
{
    let mut first = [0u8; 2];
    replay::read_part(rt, &mut first)?;
    Ok(State {
        all: first[0] != 0,
        known: first[1] != 0,
        started: false,
        tracker,
    })
}

fn main(rt: HostRuntime) {
    let no_reading = Reading {
        at: 0,
        lo: 0,
        hz: 0.0,
    };
    let no_tuning = Tuning { at: 0, freq: 0 };
    let mut readings = [no_reading; 8000];
    let mut tunings = [no_tuning; 64];
    let mut scratch = [0.0f64; 8000];
    let Ok(tracker) = FrequencyTracker::new(RATE, 0, STEP_HZ) else {
        return;
    };
    let Ok(mut s) = start(&rt, tracker) else {
        return;
    };
    if let Err(refusal) = hear_all(&rt, &mut s, &mut readings, &mut tunings, &mut scratch) {
        replay::print_refusal(&rt, refusal);
    }
}
