// The receiver's side of one record of `listen`, and of the input's end.
#![tactic(auto)]

ghost use Rattle.std.specs.Prelude.{◌≡◌, List, ℕ, ◌+◌, ◌*◌, ◌^◌, ◌≤◌, ◌<◌, length};
ghost use Rattle.limits.specs.Answer.{cause_of};
ghost use Rattle.limits.specs.Limits.{record_size};
ghost use Rattle.ledger.specs.Ledger.{push_raw, flush};
ghost use Rattle.ledger.specs.Records as records;
ghost use Rattle.listening_lines.specs.Text.{widest};
ghost use Rattle.listening_records.specs.Emission.{Emission, asked, Tells, Grown};
ghost use Rattle.listening_receiver.specs.Hearing.{most, heard_by};
ghost use Rattle.listening_receiver.specs.Standing.{Standing, Hears, count_of};

use limits::Refusal;
use listening_records::{Told, Tracked};
use receiver::{Lent, SigfoxReceiver};
use shifts::{Given, Shifts};

// What is lent to the receiver: its samples, a call's events, and scratch.
#[derive(Drop)]
pub struct Buffers {
    pub samples: [f32; 12000],
    pub events: [u8; 30720],
    pub scratch32: [f32; 12000],
    pub scratch64: [f64; 8000],
}

// A call's answer: its refusal, or its records told.
fn tell_answer(
    t: &mut Told,
    answer: Result<usize, Refusal>,
    q: Tracked,
    events: &[u8],
    scratch: &mut [f64],
    out: &mut [u8],
) -> Result<(), Refusal>
    requires { (count_of answer ≤ most) × (record_size * count_of answer ≤ length events.now) × (t.old.end + widest * most ≤ length out.old) × (t.old.frames + most < 2 ^ 64) × (t.old.messages + most < 2 ^ 64) }
    ensures by_index { (old : List ℕ) (start : ℕ) (p : Emission) → Tells p old start 0 t.old out.old
        → Tells (heard_by (cause_of answer) (asked q.entry (length scratch.old)) p (records.records_in (count_of answer) events.now)) old start (cause_of result) t.new out.new }
    ensures grown { Grown most t.old t.new out.old out.new }
{
    let count = answer?;
    listening_records::tell_all(t, q, count, events, scratch, out)
}

// `push_raw`, and its records: what `frame1` is asked of goes with them (02, request 04: whether a frequency has come, the samples passed over).
pub fn hear(
    t: &mut Told,
    receiver: &mut SigfoxReceiver,
    q: Tracked,
    raw: &[u8],
    b: &mut Buffers,
    out: &mut [u8],
) -> Result<(), Refusal>
    requires standing { Standing receiver.old b.old.samples }
    requires most_in_bounds { (t.old.end + widest * most ≤ length out.old) × (t.old.frames + most < 2 ^ 64) × (t.old.messages + most < 2 ^ 64) }
    ensures { Hears (asked q.entry 8000)
        receiver.old (push_raw raw.now)
        (record { samples = b.old.samples; events = b.old.events; scratch32 = b.old.scratch32; scratch64 = b.old.scratch64 })
        t.old out.old (record { refused = cause_of result; told = t.new; receiver = receiver.new }) b.new.samples b.new.events out.new }
{
    let given = Given {
        shifts: Shifts::none(),
        closed: &[0u32; 0],
    };
    let mut lent = Lent {
        samples: &mut b.samples,
        events: &mut b.events,
        scratch32: &mut b.scratch32,
        scratch64: &mut b.scratch64,
    };
    let answer = receiver.push_raw(raw, &given, &mut lent);
    tell_answer(t, answer, q, &b.events, &mut b.scratch64, out)
}

// `flush`, and its records, likewise.
pub fn close(
    t: &mut Told,
    receiver: &mut SigfoxReceiver,
    q: Tracked,
    b: &mut Buffers,
    out: &mut [u8],
) -> Result<(), Refusal>
    requires standing { Standing receiver.old b.old.samples }
    requires most_in_bounds { (t.old.end + widest * most ≤ length out.old) × (t.old.frames + most < 2 ^ 64) × (t.old.messages + most < 2 ^ 64) }
    ensures { Hears (asked q.entry 8000)
        receiver.old flush
        (record { samples = b.old.samples; events = b.old.events; scratch32 = b.old.scratch32; scratch64 = b.old.scratch64 })
        t.old out.old (record { refused = cause_of result; told = t.new; receiver = receiver.new }) b.new.samples b.new.events out.new }
{
    let given = Given {
        shifts: Shifts::none(),
        closed: &[0u32; 0],
    };
    let mut lent = Lent {
        samples: &mut b.samples,
        events: &mut b.events,
        scratch32: &mut b.scratch32,
        scratch64: &mut b.scratch64,
    };
    let answer = receiver.flush(&given, &mut lent);
    tell_answer(t, answer, q, &b.events, &mut b.scratch64, out)
}
