// What the program `listen` does (01, frequency.rs): the tracker and the receiver side by side on one stream of 16-byte records from standard input, a line for each retune and each message.
#![tactic(auto)]

mod ending; // the input's end
mod handing; // what goes to standard output
mod records; // the whole records of the buffer
mod stepping; // one record

ghost use Rattle.std.specs.Prelude.{◌≡◌, List, ℕ, ◌+◌, ◌≤◌, ◌<◌, length, take, IfOk};
ghost use Rattle.frequency.specs.Lent.{lists};
ghost use Rattle.listening.specs.declared.Stop.TheVariants.{Refused, Broken};
ghost use Rattle.listening.specs.Hand.{out_places, new_listener, Room, Near};
ghost use Rattle.listening.specs.Reads.{Stage, Staged, Further, HeardAll, Ran};

use crate::handing::hand_over;
use crate::records::RECORD;
use crate::stepping::{RATE, STEP_HZ};
use frequency::FrequencyTracker;
use frequency_lists::{Reading, Tuning};
use limits::Refusal;
use listening_receiver::Buffers;
use receiver::SigfoxReceiver;
use std::io;

// A proved loop has to end, and nothing says that the input does. A read brings a byte at least, and a stream of over 2^41 bytes is refused. 2^42 − 1 reads bring under 2^53 samples, 2,048 each at the most: binary64 holds their count.
const MOST_READS: u64 = 0x3ff_ffff_ffff;

// Bytes of the input's buffer, a whole number of records.
const BUFFER: usize = 4096;

// Whether a frequency that isn't 0 has come, the samples passed over before it, what was counted, and the tracker.
#[derive(Clone, Copy)]
pub struct Listener {
    pub started: bool,
    pub passed: u64,
    pub samples: u64,
    pub frames: u64,
    pub messages: u64,
    pub tracker: FrequencyTracker,
}

// After a record, or the tracker's side of it: where its text ends, and whether a call was refused.
#[derive(Clone, Copy)]
pub struct Brought {
    pub end: usize,
    pub went: Result<(), Refusal>,
}

// Why it ends before its input does: a call was refused; or standard input could not be read, or standard output took no more.
#[derive(Clone, Copy)]
pub enum Stop {
    Refused(Refusal),
    Broken,
}

impl From<Refusal> for Stop {
    ghost from_gives = { λ r s. s ≡ Refused r };

    fn from(refusal: Refusal) -> Stop {
        Stop::Refused(refusal)
    }
}

impl From<io::Error> for Stop {
    ghost from_gives = { λ _ s. s ≡ Broken };

    fn from(_error: io::Error) -> Stop {
        Stop::Broken
    }
}

// Nothing was read.
fn fresh() -> Listener
    ensures { result ≡ new_listener }
{
    let tracker = FrequencyTracker::new(RATE, 0, STEP_HZ).unwrap();
    Listener {
        started: false,
        passed: 0,
        samples: 0,
        frames: 0,
        messages: 0,
        tracker,
    }
}

// What a read brings behind the first bytes of the buffer. Where it fails, a line on standard error.
fn fetch(rt: &(impl Input + Eprint), input: &mut [u8], from: usize) -> io::Result<usize>
    requires { from < length input.old }
    ensures result_in_bounds { IfOk result (λ n. from + n ≤ length input.new) }
    ensures input_unchanged { take from input.new ≡ take from input.old }
{
    let fetched = reading::fetch(&mut rt.reader(), input, from);
    if fetched.is_err() {
        let _ = rt.eprintln("listen: standard input can't be read");
    }
    fetched
}

// One read, and every record that is whole with it: how many bytes it brought.
fn turn(
    rt: &(impl Input + Print + Eprint),
    filled: usize,
    l: &mut Listener,
    receiver: &mut SigfoxReceiver,
    input: &mut [u8],
    readings: &mut [Reading; 8000],
    tunings: &mut [Tuning; 64],
    b: &mut Buffers,
    out: &mut [u8],
) -> Result<usize, Stop>
    requires staged { Staged input.old filled l.old receiver.old (lists readings.old tunings.old) b.old.samples }
    requires room { (length input.old ≡ 4096) × (Room 65536 l.old) × (out_places ≤ length out.old) }
    ensures by_index { (read : List ℕ) → Stage read input.old filled l.old receiver.old (lists readings.old tunings.old) b.old.samples
        → Further read input.new filled result l.new receiver.new (lists readings.new tunings.new) b.new.samples }
    ensures near { Near 65536 l.old l.new }
{
    let n = fetch(rt, input, filled)?;
    let first = RECORD * (filled / RECORD);
    let last = RECORD * ((filled + n) / RECORD);
    records::hear(
        rt,
        l,
        receiver,
        &input[first..last],
        readings,
        tunings,
        b,
        out,
    )?;
    Ok(n)
}

// The end of the input: the last calls and lines.
fn conclude(
    rt: &impl Print,
    filled: usize,
    l: Listener,
    receiver: SigfoxReceiver,
    readings: &[Reading; 8000],
    tunings: &[Tuning; 64],
    input: &[u8],
    b: &mut Buffers,
    out: &mut [u8],
)
    requires staged { Staged input.now filled l receiver (lists readings.now tunings.now) b.old.samples }
    requires room { (Room 65536 l) × (out_places ≤ length out.old) }
    ensures { HeardAll }
{
    let leftover = filled % RECORD;
    let end = ending::finish(l, receiver, leftover, readings, b, out);
    let _ = hand_over(rt, &out[..end]);
}

// The whole stream.
pub fn run(rt: &(impl Input + Print + Eprint)) -> Result<(), Stop>
    ensures { Ran result }
{
    let mut input = [0u8; 4096];
    let no_reading = Reading {
        at: 0,
        lo: 0,
        hz: 0.0,
    };
    let no_tuning = Tuning { at: 0, freq: 0 };
    let mut readings = [no_reading; 8000];
    let mut tunings = [no_tuning; 64];
    let mut b = Buffers {
        samples: [0.0; 12000],
        events: [0; 30720],
        scratch32: [0.0; 12000],
        scratch64: [0.0; 8000],
    };
    let mut out = [0u8; 33024];
    let mut listener = fresh();
    let mut receiver = SigfoxReceiver::new(RATE);
    let mut filled = 0;
    for _ in 0..MOST_READS {
        let n = turn(
            rt,
            filled,
            &mut listener,
            &mut receiver,
            &mut input,
            &mut readings,
            &mut tunings,
            &mut b,
            &mut out,
        )?;
        filled = (filled + n) % BUFFER;
        if n == 0 {
            break;
        }
    }
    conclude(
        rt, filled, listener, receiver, &readings, &tunings, &input, &mut b, &mut out,
    );
    Ok(())
}
