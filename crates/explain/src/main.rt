// Why each burst of a recording was read or not, and how near each number was (README.md). The recording goes through the receiver as `listen` has it, eight samples a
// call; what a scan took and what it left is explained from the samples that it looked at.
#![tactic(auto)]

ghost use Rattle.std.specs.Prelude.{◌<◌, ◌≤◌};

mod arguments; // rate and form
mod blocks; // a burst
mod dips_of; // its dips
mod frame_of; // its bits
mod messages; // messages
mod scans; // which bursts
mod tally; // counts and margins
mod words; // numbers

use arguments::Form;
use limits::Refusal;
use messages::Closing;
use receiver::SigfoxReceiver;
use scans::{Look, Scratch};
use shifts::{Given, Shifts};
use tally::Tally;

// The rate of `listen`'s records.
const RECORDS_RATE: u32 = 1000;

// A proved loop has to end, and nothing says that the input does. A read brings a byte at least, and a stream of over 2^41 bytes is refused.
const MOST_READS: u64 = 0x400_0000_0000;

// Why no more is read: a call refused, or standard input can't be read.
#[derive(Clone, Copy)]
enum Stop {
    Refused(Refusal),
    Unread,
}

impl From<Refusal> for Stop {
    fn from(refusal: Refusal) -> Stop {
        Stop::Refused(refusal)
    }
}

// Between two calls: the receiver, and what was counted.
#[derive(Drop)]
struct Course {
    receiver: SigfoxReceiver,
    tally: Tally,
}

fn complain(rt: &impl Eprint, text: &str) {
    let _ = rt.eprint(text);
}

fn print_usage(rt: &impl Eprint) {
    complain(
        rt,
        "usage: explain RATE FORM < RECORDING\nRATE: samples a second, 200 to 4000; FORM: raw (bytes, -2 x dBm), f32 (binary32 dBm, little-endian) or records (those of listen, RATE 1000)\n",
    );
}

// The words of a cause that a recording can have (docs/CONTRACTS.md).
fn print_cause(rt: &impl Eprint, refusal: Refusal) {
    match refusal {
        Refusal::BadSample => complain(rt, ": a sample is no number from -200 to 100 dBm\n"),
        Refusal::Stream => complain(rt, ": the recording is longer than 2^40 samples\n"),
        _ => complain(rt, "\n"),
    }
}

fn print_stop(rt: &impl Eprint, stop: Stop) {
    match stop {
        Stop::Refused(refusal) => {
            let n = u8::from(refusal);
            let _ = eprint!(rt; "explain: refused with {n}");
            print_cause(rt, refusal);
        }
        Stop::Unread => complain(rt, "explain: standard input can't be read\n"),
    }
}

impl Form {
    // Samples of a call: eight, as `listen` has it; four at an odd rate, so that no call meets the end of the held 12 s in its middle.
    fn samples_of_call(self, rate: u32) -> usize
        ensures { result ≤ 8 }
    {
        match self {
            Form::Records => 8,
            Form::Raw | Form::Floats => {
                if rate % 2 == 0 {
                    return 8;
                }
                4
            }
        }
    }

    // Bytes of a call's samples.
    fn bytes_of_call(self, call: usize) -> usize
        requires { call ≤ 8 }
        ensures { result ≤ 32 }
    {
        match self {
            Form::Raw => call,
            Form::Floats => 4 * call,
            Form::Records => 16,
        }
    }

    // The bytes of a sample, or of a record.
    fn unit(self) -> usize
        ensures { 0 < result }
    {
        match self {
            Form::Raw => 1,
            Form::Floats => 4,
            Form::Records => 16,
        }
    }

    // Whether a recording of this form can have the rate.
    fn fits(self, rate: u32) -> bool {
        match self {
            Form::Raw | Form::Floats => true,
            Form::Records => rate == RECORDS_RATE,
        }
    }

    // The samples of a block, in front of the list: those that are whole, or that stand in front of a whole record.
    fn samples_in<'a>(self, block: &[u8], dbm: &'a mut [f32; 8]) -> &'a [f32] {
        let n = match self {
            Form::Floats => put_floats(block, dbm),
            Form::Raw => put_raw(block, dbm),
            Form::Records if block.len() < 16 => 0,
            Form::Records => put_raw(block, dbm),
        };
        &dbm[..n]
    }
}

// How many samples there are; they go to the front of the list.
fn put_floats(block: &[u8], dbm: &mut [f32; 8]) -> usize
    ensures { result ≤ 8 }
{
    for (x, bytes) in dbm.iter_mut().zip(block.chunks_exact(4)) {
        *x = endian::get(bytes, 0);
    }
    (block.len() / 4).min(8)
}

// The same of bytes.
fn put_raw(block: &[u8], dbm: &mut [f32; 8]) -> usize
    ensures { result ≤ 8 }
{
    for (x, raw) in dbm.iter_mut().zip(block) {
        *x = receiver_samples::dbm_of(*raw);
    }
    block.len().min(8)
}

// A line on standard error where the recording ends inside a sample or a record.
fn print_leftover(rt: &impl Eprint, left: usize) {
    if left == 0 {
        return;
    }
    let _ = eprintln!(rt; "explain: bytes left over: {left}");
}

// 0.3 s in samples, rounded: so long ago a burst ended that is taken.
fn tail(rate: u32) -> usize {
    ((3 * (rate as u64) + 5) / 10) as usize
}

// The buffers that the receiver is lent.
#[derive(Drop)]
struct Lent {
    samples: [f32; 48000],
    events: [u8; 30720],
    scratch: Scratch,
}

impl Course {
    // What the scan of a call did that came after `before`.
    fn explain(&mut self, rt: &impl Print, before: &SigfoxReceiver, wait: usize, lent: &mut Lent) {
        let after = self.receiver;
        let end = after.held.min(lent.samples.len());
        let mut look = Look {
            before,
            after: &after,
            held: &lent.samples[..end],
            wait,
            tally: self.tally,
        };
        look.explain(rt, &mut lent.scratch);
        self.tally = look.tally;
    }

    // Those among the records of a call.
    fn print_messages(
        &self,
        rt: &impl Print,
        before: &SigfoxReceiver,
        events: &[u8; 30720],
        count: usize,
        ended: bool,
    ) {
        let closing = Closing {
            waiting: &before.waiting,
            time: scans::time_of(&self.receiver),
            ended,
        };
        closing.print_messages(rt, &events[..limits::RECORD * count.min(256)]);
    }

    // A call, and what it did.
    fn hear(&mut self, rt: &impl Print, dbm: &[f32], lent: &mut Lent) -> Result<(), Refusal> {
        let before = self.receiver;
        let given = Given {
            shifts: Shifts::none(),
            closed: &[0u32; 0],
        };
        let mut memory = receiver::Lent {
            samples: &mut lent.samples,
            events: &mut lent.events,
            scratch32: &mut lent.scratch.f32s,
            scratch64: &mut lent.scratch.f64s,
        };
        let count = self.receiver.push(dbm, &given, &mut memory)?;
        if self.receiver.unscanned == 0 {
            self.explain(rt, &before, tail(before.rate), lent);
        }
        self.print_messages(rt, &before, &lent.events, count, false);
        Ok(())
    }

    // The last call, and what it did.
    fn finish(&mut self, rt: &impl Print, lent: &mut Lent) -> Result<(), Refusal> {
        let before = self.receiver;
        let given = Given {
            shifts: Shifts::none(),
            closed: &[0u32; 0],
        };
        let mut memory = receiver::Lent {
            samples: &mut lent.samples,
            events: &mut lent.events,
            scratch32: &mut lent.scratch.f32s,
            scratch64: &mut lent.scratch.f64s,
        };
        let count = self.receiver.flush(&given, &mut memory)?;
        self.explain(rt, &before, 0, lent);
        self.print_messages(rt, &before, &lent.events, count, true);
        self.tally.print(rt);
        Ok(())
    }

    // The whole recording, call by call; the last one may be short.
    fn hear_all(
        &mut self,
        rt: &(impl Input + Print + Eprint),
        form: Form,
        lent: &mut Lent,
    ) -> Result<(), Stop> {
        let call = form.samples_of_call(self.receiver.rate);
        let size = form.bytes_of_call(call);
        for _ in 0..MOST_READS {
            let mut block = [0u8; 32];
            let mut dbm = [0.0f32; 8];
            let Ok(n) = reading::fill(&mut rt.reader(), &mut block[..size]) else {
                return Err(Stop::Unread);
            };
            print_leftover(rt, n % form.unit());
            let heard = form.samples_in(&block[..n], &mut dbm);
            if heard.is_empty() {
                break;
            }
            self.hear(rt, heard, lent)?;
            if heard.len() < call {
                break;
            }
        }
        Ok(())
    }
}

fn run(rt: &(impl Input + Print + Eprint), rate: u32, form: Form) {
    let mut lent = Lent {
        samples: [0.0; 48000],
        events: [0; 30720],
        scratch: Scratch {
            f32s: [0.0; 48000],
            f64s: [0.0; limits::SCRATCH64],
        },
    };
    let mut course = Course {
        receiver: SigfoxReceiver::new(rate),
        tally: Tally::new(),
    };
    if let Err(stop) = course.hear_all(rt, form, &mut lent) {
        print_stop(rt, stop);
    }
    if let Err(refusal) = course.finish(rt, &mut lent) {
        print_stop(rt, Stop::Refused(refusal));
    }
}

fn main(rt: HostRuntime) {
    match (arguments::given_rate(&rt), arguments::given_form(&rt)) {
        (Some(rate), Some(form)) if limits::rate_ok(rate) && form.fits(rate) => {
            run(&rt, rate, form);
        }
        _ => print_usage(&rt),
    }
}
