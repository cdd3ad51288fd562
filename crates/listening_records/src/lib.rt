// What a call's records make `listen` print and count (01, frequency.rs): a frame is counted, a message counted and printed.
#![tactic(auto)]

mod tracked; // what `frame1` is asked of

ghost use Rattle.std.specs.Prelude.{◌≡◌, ℕ, ◌+◌, ◌*◌, ◌^◌, ◌≤◌, ◌<◌, List, length};
ghost use Rattle.limits.specs.Limits.{record_size};
ghost use Rattle.limits.specs.Answer.{said, cause_of};
ghost use Rattle.listening_lines.specs.Text.{widest};
ghost use Rattle.listening_records.specs.Emission.{Emission, asked, shifted, spans_in, earlier, downlink_in, answer_for, with_line, emitted, emitted_all, Tells, Within, Grown};
ghost use Rattle.ledger.specs.Records.{records_in};

pub use crate::tracked::Tracked;
use limits::Refusal;
use record::FrameSpan;
use record::read::EventRecord;

// Samples per second.
const RATE: f64 = 1_000.0;

// What was counted, and where the text ends.
#[derive(Clone, Copy)]
pub struct Told {
    pub frames: u64,
    pub messages: u64,
    pub end: usize,
}

// A span in seconds of the tracker.
fn span_of(span: FrameSpan, by: f64) -> FrameSpan
    ensures { result ≡ shifted by span }
{
    FrameSpan {
        rank: span.rank,
        time: span.time - by,
        end: span.end - by,
    }
}

// A message's spans, for `frame1`.
fn spans_of(event: EventRecord, by: f64) -> [FrameSpan; 3]
    ensures { result ≡ spans_in by event.entry.bytes.now }
{
    let spans = event.spans();
    let first = span_of(spans[0], by);
    let second = span_of(spans[1], by);
    let third = span_of(spans[2], by);
    [first, second, third]
}

// The samples passed over, in seconds.
fn earlier(passed: u64) -> f64
    requires { passed ≤ 2 ^ 53 }
    ensures { result ≡ earlier passed }
{
    floats::count_as_f64(passed as usize) / RATE
}

// Whether the message asks for a downlink: byte 2 includes the value 1.
fn downlink_of(event: EventRecord) -> bool
    ensures { result ≡ downlink_in event.entry.bytes.now }
{
    event.flags() % 2 == 1
}

// What `frame1` answers for a message; nothing while no frequency has come.
fn answer_for(q: Tracked, event: EventRecord, scratch: &mut [f64]) -> Result<Option<u32>, Refusal>
    ensures { said result ≡ answer_for (asked q.entry (length scratch.old)) event.entry.bytes.now }
{
    if !q.started {
        return Ok(None);
    }
    let spans = spans_of(event, earlier(q.passed));
    q.tracker
        .frame1(spans, downlink_of(event), q.readings, scratch)
}

// A message's line behind the text.
fn tell_line(t: &mut Told, event: EventRecord, answer: Option<u32>, out: &mut [u8])
    requires { (t.old.end + widest ≤ length out.old) × (t.old.messages + 1 < 2 ^ 64) }
    ensures by_index { (old : List ℕ) (start : ℕ) (p : Emission) → Tells p old start 0 t.old out.old
        → Tells (with_line event.entry.bytes.now answer p) old start 0 t.new out.new }
    ensures within { Within t.old t.new out.old out.new }
{
    let line = listening_lines::message_line(event, answer);
    t.end = line.add_to(out, t.end);
    t.messages += 1;
}

// One record.
fn tell(
    t: &mut Told,
    q: Tracked,
    event: EventRecord,
    scratch: &mut [f64],
    out: &mut [u8],
) -> Result<(), Refusal>
    requires { (t.old.end + widest ≤ length out.old) × (t.old.frames + 1 < 2 ^ 64) × (t.old.messages + 1 < 2 ^ 64) }
    ensures by_index { (old : List ℕ) (start : ℕ) (p : Emission) → Tells p old start 0 t.old out.old
        → Tells (emitted (asked q.entry (length scratch.old)) p event.entry.bytes.now) old start (cause_of result) t.new out.new }
    ensures within { Within t.old t.new out.old out.new }
{
    if event.kind() == record::FRAME {
        t.frames += 1;
        return Ok(());
    }
    let answer = answer_for(q, event, scratch)?;
    tell_line(t, event, answer, out);
    Ok(())
}

// A call's records, in order; nothing after a refusal.
pub fn tell_all(
    t: &mut Told,
    q: Tracked,
    count: usize,
    events: &[u8],
    scratch: &mut [f64],
    out: &mut [u8],
) -> Result<(), Refusal>
    requires { (record_size * count ≤ length events.now) × (t.old.end + widest * count ≤ length out.old) × (t.old.frames + count < 2 ^ 64) × (t.old.messages + count < 2 ^ 64) }
    ensures by_index { (old : List ℕ) (start : ℕ) (p : Emission) → Tells p old start 0 t.old out.old
        → Tells (emitted_all (asked q.entry (length scratch.old)) p (records_in count events.now)) old start (cause_of result) t.new out.new }
    ensures grown { Grown count t.old t.new out.old out.new }
{
    for i in 0..count {
        let from = limits::RECORD * i;
        let to = from + limits::RECORD;
        tell(t, q, EventRecord::new(&events[from..to]), scratch, out)?;
    }
    Ok(())
}
