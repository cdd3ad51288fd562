// The event records of a stream, 120 bytes each, on standard output as they come, each message with the mark of the shifts that the arguments give (README.md).
// The stream is that of `listen`; of its records only the samples are read.
#![tactic(auto)]

mod arguments; // shifts

use limits::Refusal;
use receiver::{Lent, SigfoxReceiver};
use shifts::Given;

// Samples per second.
const RATE: u32 = 1000;

// Bytes of a record of the stream, of those in front that are samples, and of the input's buffer, a whole number of records.
const RECORD: usize = 16;

const RAW: usize = 8;

const BUFFER: usize = 4096;

// The most event records of a call.
const MOST_EVENTS: usize = 256;

// A proved loop has to end, and nothing says that the input does. A read brings a byte at least, and a stream of over 2^41 bytes is refused.
const MOST_READS: u64 = 0x400_0000_0000;

// Why no more is read: a call refused, standard input can't be read, or standard output takes no more.
#[derive(Clone, Copy)]
enum Stop {
    Refused(Refusal),
    Unread,
    Unwritten,
}

impl From<Refusal> for Stop {
    fn from(refusal: Refusal) -> Stop {
        Stop::Refused(refusal)
    }
}

// Its line on standard error.
fn print_stop(rt: &impl Eprint, stop: Stop) {
    match stop {
        Stop::Refused(refusal) => {
            let n = u8::from(refusal);
            let _ = eprintln!(rt; "events: refused with {n}");
        }
        Stop::Unread => {
            let _ = rt.eprintln("events: standard input can't be read");
        }
        Stop::Unwritten => {}
    }
}

fn print_usage(rt: &impl Eprint) {
    let _ = rt.eprintln("events: the arguments are a start second, windows A-B and closed dates");
}

// A call's records.
fn write_events(rt: &impl Print, count: usize, events: &[u8]) -> Result<(), Stop> {
    if MOST_EVENTS < count {
        return Err(Stop::Unwritten);
    }
    let end = limits::RECORD * count;
    if events.len() < end || rt.write_all(&events[..end]).is_err() {
        return Err(Stop::Unwritten);
    }
    Ok(())
}

// The samples of records.
fn hear(
    rt: &impl Print,
    receiver: &mut SigfoxReceiver,
    records: &[u8],
    given: &Given,
    lent: &mut Lent,
) -> Result<(), Stop> {
    for record in records.chunks_exact(RECORD) {
        let (raw, _) = record.split_at(RAW);
        let count = receiver.push_raw(raw, given, lent)?;
        write_events(rt, count, lent.events)?;
    }
    Ok(())
}

// Every record of standard input; how many bytes of the last one there were.
fn hear_all(
    rt: &(impl Input + Print),
    receiver: &mut SigfoxReceiver,
    given: &Given,
    lent: &mut Lent,
) -> Result<usize, Stop> {
    let mut input = [0u8; BUFFER];
    let mut filled: usize = 0;
    for _ in 0..MOST_READS {
        let Ok(n) = reading::fetch(&mut rt.reader(), &mut input, filled) else {
            return Err(Stop::Unread);
        };
        if n == 0 {
            break;
        }
        let end = filled + n;
        let from = filled - filled % RECORD;
        hear(rt, receiver, &input[from..end], given, lent)?;
        filled = end % BUFFER;
    }
    Ok(filled % RECORD)
}

// A line on standard error where the stream ends inside a record.
fn print_leftover(rt: &impl Eprint, n: usize) {
    if n == 0 {
        return;
    }
    let _ = eprintln!(rt; "events: bytes left over: {n}");
}

// The whole stream, and after its end the last call.
fn run(rt: &(impl Input + Print + Eprint), given: &Given) -> Result<(), Stop> {
    let mut samples = [0.0f32; 12000];
    let mut events = [0u8; 30720];
    let mut scratch32 = [0.0f32; 12000];
    let mut scratch64 = [0.0f64; limits::SCRATCH64];
    let mut lent = Lent {
        samples: &mut samples,
        events: &mut events,
        scratch32: &mut scratch32,
        scratch64: &mut scratch64,
    };
    let mut receiver = SigfoxReceiver::new(RATE);
    let left = hear_all(rt, &mut receiver, given, &mut lent)?;
    match receiver.flush(given, &mut lent) {
        Ok(count) => {
            let _ = write_events(rt, count, lent.events);
        }
        Err(refusal) => print_stop(rt, Stop::Refused(refusal)),
    }
    print_leftover(rt, left);
    Ok(())
}

fn main(rt: HostRuntime) {
    let mut closed = [0u32; 1000];
    let Some(given) = arguments::read_given(&rt, &mut closed) else {
        print_usage(&rt);
        return;
    };
    if let Err(stop) = run(&rt, &given) {
        print_stop(&rt, stop);
    }
}
