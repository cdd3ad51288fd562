// The receiver, call by call, with its state after each; with shifts behind a call's arguments or without (docs/REPLAY.md, `events` and `shifts`).
#![tactic(auto)]

mod block; // the shifts behind a call's arguments
mod given; // a state that is handed in
mod lines; // what is printed

use crate::block::read_block;
use crate::given::read_state;
use crate::lines::print_answer;
use limits::Refusal;
use receiver::{Lent, SigfoxReceiver};
use replay::Unanswered;

// Between two calls: whether shifts stand behind their arguments, how many there were, and the receiver.
#[derive(Clone, Copy)]
struct State {
    shifted: bool,
    index: u64,
    receiver: SigfoxReceiver,
}

// The lines of a call.
fn after(
    rt: &impl Print,
    s: &mut State,
    name: &[u8],
    answer: Result<usize, Refusal>,
    events: &mut [u8],
) -> Result<(), Unanswered> {
    let index = s.index;
    s.index = index.wrapping_add(1);
    print_answer(rt, index, name, answer?, &s.receiver, events);
    Ok(())
}

fn push(rt: &(impl Input + Print), s: &mut State, lent: &mut Lent) -> Result<(), Unanswered> {
    let mut dbm = [0.0f32; 48001];
    let mut closed = [0u32; 64];
    let dbm = replay::read_list(rt, &mut dbm)?;
    let given = read_block(rt, s.shifted, &mut closed)?;
    let answer = s.receiver.push(dbm, &given, lent);
    after(rt, s, b"push", answer, lent.events)
}

fn push_raw(rt: &(impl Input + Print), s: &mut State, lent: &mut Lent) -> Result<(), Unanswered> {
    let mut raw = [0u8; 48001];
    let mut closed = [0u32; 64];
    let raw = replay::read_bytes(rt, &mut raw)?;
    let given = read_block(rt, s.shifted, &mut closed)?;
    let answer = s.receiver.push_raw(raw, &given, lent);
    after(rt, s, b"push_raw", answer, lent.events)
}

fn flush(rt: &(impl Input + Print), s: &mut State, lent: &mut Lent) -> Result<(), Unanswered> {
    let mut closed = [0u32; 64];
    let given = read_block(rt, s.shifted, &mut closed)?;
    let answer = s.receiver.flush(&given, lent);
    after(rt, s, b"flush", answer, lent.events)
}

// A state that is handed in takes the place of the receiver's; the next call judges it.
fn take_over(
    rt: &(impl Input + Print),
    s: &mut State,
    samples: &mut [f32],
) -> Result<(), Unanswered> {
    let receiver = read_state(rt, s.receiver.rate, samples)?;
    s.receiver = receiver;
    Ok(())
}

fn call(
    rt: &(impl Input + Print),
    s: &mut State,
    number: u8,
    lent: &mut Lent,
) -> Result<(), Unanswered> {
    match number {
        0 => push(rt, s, lent),
        1 => push_raw(rt, s, lent),
        2 => flush(rt, s, lent),
        3 => take_over(rt, s, lent.samples),
        _ => Err(Unanswered::Short),
    }
}

// The program `events`, or `shifts`: the rate of the input, and call by call.
pub fn run(rt: &(impl Input + Print), shifted: bool) {
    let mut samples = [0.0f32; 48001];
    let mut events = [0u8; 30720];
    let mut scratch32 = [0.0f32; 48000];
    let mut scratch64 = [0.0f64; limits::SCRATCH64];
    let mut lent = Lent {
        samples: &mut samples,
        events: &mut events,
        scratch32: &mut scratch32,
        scratch64: &mut scratch64,
    };
    let mut head = [0u8; 4];
    if replay::read_part(rt, &mut head).is_err() {
        return;
    }
    let receiver = SigfoxReceiver::new(endian::get(&head, 0));
    let mut s = State {
        shifted,
        index: 0,
        receiver,
    };
    replay::run(rt, |number: [u8; 1]| {
        call(rt, &mut s, number[0], &mut lent)
    });
}
