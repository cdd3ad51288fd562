// What `host/bench` measures of the receiver: raw samples in pushes of one size, each by the short way where it only adds, then a flush; it prints how many records there were.
#![tactic(auto)]

ghost use Rattle.std.specs.Prelude.{◌≡◌, ◌<◌, true, length};
ghost use Rattle.ledger.specs.Ledger.{push_raw};
ghost use Rattle.shifts.specs.Shifts.{schedule};
ghost use Rattle.receiver.specs.Calls.{memory};
ghost use Rattle.receiver.specs.Running.{OnlyAdds};
ghost use Rattle.receiver_grown.specs.InOrder.{InOrder};
ghost use Rattle.receiver_grown.specs.Grown.{Grown};

use limits::Refusal;
use receiver::{Lent, SigfoxReceiver};
use shifts::Given;

// Between two pushes: the receiver, how many records it wrote, and the refusal of the last call.
#[derive(Clone, Copy)]
struct State {
    receiver: SigfoxReceiver,
    records: u64,
    refused: Option<Refusal>,
}

// A call's records, or its refusal.
fn note(s: &mut State, answer: Result<usize, Refusal>)
    ensures { s.new.receiver ≡ s.old.receiver }
{
    match answer {
        Ok(count) => {
            s.records = s.records.wrapping_add(count as u64);
            s.refused = None;
        }
        Err(refusal) => {
            s.refused = Some(refusal);
        }
    }
}

fn flush(s: &mut State, lent: &mut Lent) {
    let given = Given::none();
    let answer = s.receiver.flush(&given, lent);
    note(s, answer);
}

// Whether a push only adds its samples: by what the calls before it promise where that is proved, else after a test of all that is held.
fn adds(receiver: &SigfoxReceiver, proved: bool, raw: &[u8], given: &Given, lent: &Lent) -> bool
    requires { InOrder receiver.now lent.now.samples.now }
    ensures { result ≡ true → OnlyAdds receiver.now (push_raw raw.now) (schedule given.now) (length raw.now) (memory lent.now) }
{
    if proved {
        return receiver_grown::adds_raw(receiver, raw, given, lent.view());
    }
    receiver.adds_raw(raw, given, lent.view())
}

// One push.
fn push(s: &mut State, proved: bool, raw: &[u8], lent: &mut Lent)
    requires { Grown s.old.receiver lent.old.samples.now }
    ensures { Grown s.new.receiver lent.new.samples.now }
{
    let given = Given::none();
    if adds(&s.receiver, proved, raw, &given, lent) {
        s.receiver.add_raw(raw, &given, lent);
        s.refused = None;
        return;
    }
    let answer = s.receiver.push_raw(raw, &given, lent);
    note(s, answer);
}

fn push_chunk(s: &mut State, proved: bool, raw: &[u8], step: usize, lent: &mut Lent)
    requires { (0 < step) × Grown s.old.receiver lent.old.samples.now }
    ensures { Grown s.new.receiver lent.new.samples.now }
{
    for part in raw.chunks(step) {
        push(s, proved, part, lent);
    }
}

// How many records there were, and the number of the refusal that ended the pushes, 0 for none.
fn print_totals(rt: &impl Print, records: u64, refused: Option<Refusal>) {
    replay::print_number(rt, records);
    replay::print(rt, b" ");
    replay::print_number(rt, refused.map_or(0, |r| u64::from(u8::from(r))));
    replay::print_end(rt);
}

fn main(rt: HostRuntime) {
    let mut samples = [0.0f32; 48000];
    let mut events = [0u8; 30720];
    let mut scratch32 = [0.0f32; 48000];
    let mut scratch64 = [0.0f64; limits::SCRATCH64];
    let mut lent = Lent {
        samples: &mut samples,
        events: &mut events,
        scratch32: &mut scratch32,
        scratch64: &mut scratch64,
    };
    let mut head = [0u8; 12];
    let whole = replay::read_part(&rt, &mut head).is_ok();
    let receiver = SigfoxReceiver::new(endian::get::<u32>(&head, 0));
    let step = endian::get::<u32>(&head, 4) as usize;
    let proved = 0 < endian::get::<u32>(&head, 8);
    let mut s = State {
        receiver,
        records: 0,
        refused: None,
    };
    if whole && 0 < step {
        for _ in 0..replay::MOST_CASES {
            let mut raw = [0u8; 48000];
            let n = reading::read_full(&rt, &mut raw);
            push_chunk(&mut s, proved, &raw[..n], step, &mut lent);
            if n < 48000 {
                break;
            }
        }
    }
    flush(&mut s, &mut lent);
    print_totals(&rt, s.records, s.refused);
}
