// The frequency tracker, one call a line (docs/REPLAY.md, `tracker`).
#![tactic(auto)]

mod given; // a tracker that is handed in
mod lines; // what is printed

use crate::given::{Lengths, read_tracker};
use crate::lines::{
    print_frame_frequency, print_frame1, print_freq, print_lists, print_next, print_readings,
    print_samples, print_tuned,
};
use frequency::FrequencyTracker;
use frequency_lists::{Reading, Tuning};
use limits::Refusal;
use replay::Unanswered;
use replay_records::spans::read_spans;

// The program's places for readings and for tunings.
const READINGS: usize = 8000;

const TUNINGS: usize = 64;

// The call that hands in a tracker.
const GIVEN: u8 = 7;

// The call that prints every place of the lists.
const LOOK: u8 = 8;

// Between two calls: how much of each list is lent, and the tracker, or why there is none.
#[derive(Clone, Copy)]
struct State {
    lengths: Lengths,
    tracker: Result<FrequencyTracker, Refusal>,
}

// ---- each call reads what is handed in, asks the tracker, and prints

fn tuned(
    rt: &(impl Input + Print),
    s: &mut State,
    tunings: &mut [Tuning],
) -> Result<(), Unanswered> {
    let mut part = [0u8; 4];
    replay::read_part(rt, &mut part)?;
    let mut t = s.tracker?;
    t.tuned(endian::get::<u32>(&part, 0), tunings)?;
    s.tracker = Ok(t);
    let hz = t.freq(tunings).unwrap_or(0);
    print_tuned(rt, hz, t.tunings);
    Ok(())
}

fn samples(
    rt: &(impl Input + Print),
    s: &mut State,
    readings: &mut [Reading],
    tunings: &mut [Tuning],
) -> Result<(), Unanswered> {
    let mut dbm = [0.0f32; 48001];
    let dbm = replay::read_list(rt, &mut dbm)?;
    let mut t = s.tracker?;
    t.samples(dbm, readings, tunings)?;
    s.tracker = Ok(t);
    print_samples(rt, t);
    Ok(())
}

fn cfo(
    rt: &(impl Input + Print),
    s: &mut State,
    readings: &mut [Reading],
    tunings: &[Tuning],
) -> Result<(), Unanswered> {
    let mut raw = [0u16; 4097];
    let raw = replay::read_list(rt, &mut raw)?;
    let mut t = s.tracker?;
    t.cfo(raw, readings, tunings)?;
    s.tracker = Ok(t);
    print_readings(rt, t.readings, readings);
    Ok(())
}

fn next_tuning(
    rt: &impl Print,
    s: &mut State,
    readings: &[Reading],
    tunings: &[Tuning],
    scratch: &mut [f64],
) -> Result<(), Unanswered> {
    let mut t = s.tracker?;
    let tune = t.next_tuning(readings, tunings, scratch)?;
    s.tracker = Ok(t);
    print_next(rt, tune, t.signal.retuned);
    Ok(())
}

fn frame_frequency(
    rt: &(impl Input + Print),
    s: State,
    readings: &[Reading],
    scratch: &mut [f64],
) -> Result<(), Unanswered> {
    let span = replay::read_span(rt)?;
    let t = s.tracker?;
    let found = t.frame_frequency(span, readings, scratch)?;
    print_frame_frequency(rt, found);
    Ok(())
}

fn frame1(
    rt: &(impl Input + Print),
    s: State,
    readings: &[Reading],
    scratch: &mut [f64],
) -> Result<(), Unanswered> {
    let mut part = [0u8; 2];
    replay::read_part(rt, &mut part)?;
    let spans = read_spans(rt, part[1])?;
    let t = s.tracker?;
    let f = t.frame1(spans, part[0] != 0, readings, scratch)?;
    print_frame1(rt, f);
    Ok(())
}

fn freq(rt: &impl Print, s: State, tunings: &[Tuning]) -> Result<(), Unanswered> {
    let t = s.tracker?;
    print_freq(rt, t.freq(tunings)?);
    Ok(())
}

// Every place of the lists as they were handed in.
fn look(
    rt: &impl Print,
    s: State,
    readings: &[Reading; 8000],
    tunings: &[Tuning; 64],
) -> Result<(), Unanswered> {
    let t = s.tracker?;
    print_lists(rt, t.requested, s.lengths, readings, tunings);
    Ok(())
}

fn call(
    rt: &(impl Input + Print),
    s: &mut State,
    number: u8,
    readings: &mut [Reading],
    tunings: &mut [Tuning],
    scratch: &mut [f64],
) -> Result<(), Unanswered> {
    match number {
        0 => tuned(rt, s, tunings),
        1 => samples(rt, s, readings, tunings),
        2 => cfo(rt, s, readings, tunings),
        3 => next_tuning(rt, s, readings, tunings, scratch),
        4 => frame_frequency(rt, *s, readings, scratch),
        5 => frame1(rt, *s, readings, scratch),
        6 => freq(rt, *s, tunings),
        _ => Err(Unanswered::Short),
    }
}

// A call with as much of the lists as is lent.
fn lend(
    rt: &(impl Input + Print),
    s: &mut State,
    number: u8,
    readings: &mut [Reading; 8000],
    tunings: &mut [Tuning; 64],
) -> Result<(), Unanswered> {
    if number == LOOK {
        return look(rt, *s, readings, tunings);
    }
    let lent = s.lengths.readings().min(READINGS);
    let tuned = s.lengths.tunings().min(TUNINGS);
    let mut scratch = [0.0f64; 8000];
    let room = s.lengths.scratch.min(READINGS);
    call(
        rt,
        s,
        number,
        &mut readings[..lent],
        &mut tunings[..tuned],
        &mut scratch[..room],
    )
}

// A tracker that is handed in takes the place of the program's; the next call judges it.
fn take_over(
    rt: &(impl Input + Print),
    s: &mut State,
    readings: &mut [Reading; 8000],
    tunings: &mut [Tuning; 64],
) -> Result<(), Unanswered> {
    let g = read_tracker(rt, readings, tunings)?;
    s.lengths = g.lengths;
    s.tracker = Ok(g.tracker);
    Ok(())
}

fn turn(
    rt: &(impl Input + Print),
    s: &mut State,
    number: u8,
    readings: &mut [Reading; 8000],
    tunings: &mut [Tuning; 64],
) -> Result<(), Unanswered> {
    if number == GIVEN {
        take_over(rt, s, readings, tunings)
    } else {
        lend(rt, s, number, readings, tunings)
    }
}

fn start(rt: &impl Input) -> Result<State, Unanswered> {
    let mut head = [0u8; 16];
    replay::read_part(rt, &mut head)?;
    let rate = endian::get::<u32>(&head, 0);
    let base = endian::get::<u32>(&head, 4);
    Ok(State {
        lengths: Lengths {
            at: READINGS,
            lo: READINGS,
            hz: READINGS,
            tuned: TUNINGS,
            freq: TUNINGS,
            scratch: READINGS,
        },
        tracker: FrequencyTracker::new(rate, base, endian::get::<f64>(&head, 8)).map_err(
            Refusal::from,
        ),
    })
}

fn main(rt: HostRuntime) {
    let no_reading = Reading {
        at: 0,
        lo: 0,
        hz: 0.0,
    };
    let no_tuning = Tuning { at: 0, freq: 0 };
    let mut readings = [no_reading; 8000];
    let mut tunings = [no_tuning; 64];
    let Ok(mut s) = start(&rt) else {
        return;
    };
    replay::run(&rt, |number: [u8; 1]| {
        turn(&rt, &mut s, number[0], &mut readings, &mut tunings)
    });
}
