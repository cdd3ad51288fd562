// One open message: how receiver.rs merges frames into it (`merge`), when it is complete, and what is written of it (`expire`).
#![tactic(auto)]

ghost use Rattle.std.specs.Prelude.{◌≡◌, cond, not, ◌&&◌, ◌||◌, eqb, leb, Some};
ghost use Rattle.std.specs.Float.Ieee.{is_nan};
ghost use Rattle.ledger.specs.Frames.{Frame};
ghost use Rattle.ledger.specs.Merge.{no_span, span_of, has, place, meet, three_ranks, end_after, louder, open_entry, merge, expires, later, lower, lowest_later, end_before, estimate, finished};
ghost use Rattle.ledger.specs.Causes.{spans_fit, in_front, entry_fits, span_nan, end_nan, entry_nan};
ghost use Rattle.limits.specs.Answer.{said};
ghost use Rattle.receiver_message.specs.Messages.{frame_of, estimate_answer};

use frame::UplinkFrame;
use ledger::Pending;
use limits::Refusal;
use record::{FrameSpan, NO_RANK, Reception, SigfoxMessage};

// Repetitions start about 4 s apart and a frame is only decoded about 2 s after it starts, so wait this long after the latest repetition.
const QUIET_S: f64 = 10.0;

// From the end of one repetition to the start of the next.
pub const FRAME_GAP_S: f64 = 2.43;

// The longest payload and authentication code, in bytes.
const MOST_PAYLOAD: u8 = 12;

const MOST_AUTH: u8 = 5;

// ---- spans

// Whether the rank is there.
pub fn has(spans: [FrameSpan; 3], rank: u8) -> bool
    ensures { result ≡ has rank spans }
{
    let first = spans[0].rank == rank;
    let second = spans[1].rank == rank;
    let third = spans[2].rank == rank;
    first | (second | third)
}

// The span in the first place that holds none.
fn place(spans: [FrameSpan; 3], span: FrameSpan) -> [FrameSpan; 3]
    ensures { (f : Frame) → span ≡ span_of f → result ≡ place f spans }
{
    let mut s = spans;
    if s[0].rank == NO_RANK {
        s[0] = span;
        return s;
    }
    if s[1].rank == NO_RANK {
        s[1] = span;
        return s;
    }
    if s[2].rank == NO_RANK {
        s[2] = span;
        return s;
    }
    s
}

// The span joins where its rank is not there yet.
fn meet(spans: [FrameSpan; 3], span: FrameSpan) -> [FrameSpan; 3]
    ensures { (f : Frame) → span ≡ span_of f → result ≡ meet spans f }
{
    if has(spans, span.rank) {
        return spans;
    }
    place(spans, span)
}

// Whether all three ranks are there.
fn three_ranks(spans: [FrameSpan; 3]) -> bool
    ensures { result ≡ three_ranks spans }
{
    let zero = has(spans, 0);
    let one = has(spans, 1);
    let two = has(spans, 2);
    zero & (one & two)
}

// ---- `merge`

fn louder(a: f32, b: f32) -> f32
    ensures { result ≡ louder a b }
{
    if a < b { b } else { a }
}

// The end of the first frame, once a frame of this rank and end is there too.
fn end_after(known: Option<f64>, rank: u8, end: f64) -> Option<f64>
    ensures { result ≡ cond (eqb rank 0) (Some end) known }
{
    if rank == 0 {
        return Some(end);
    }
    known
}

fn span_of(f: UplinkFrame, r: Reception) -> FrameSpan
    ensures { result ≡ span_of (frame_of f r) }
{
    FrameSpan {
        rank: f.rank,
        time: r.time,
        end: r.end,
    }
}

// The message that a frame opens.
pub fn opened(f: UplinkFrame, r: Reception) -> Pending
    ensures { result ≡ open_entry (frame_of f r) }
{
    let payload = f.payload;
    let auth = f.auth;
    let bit = f.bit;
    let none = FrameSpan {
        rank: NO_RANK,
        time: 0.0,
        end: 0.0,
    };
    let first = span_of(f, r);
    let known = end_after(None, f.rank, r.end);
    let message = SigfoxMessage {
        device_id: f.device_id,
        counter: f.counter,
        payload,
        payload_len: f.payload_len,
        bit,
        downlink: f.downlink,
        control: f.control,
        auth,
        auth_len: f.auth_len,
        time: r.time,
        first_frame_end: known,
        rssi: r.rssi,
        spans: [first, none, none],
        clock_error_ppm: r.clock_error_ppm,
        start: r.start,
        depth: r.depth,
    };
    Pending {
        message,
        last: r.time,
    }
}

// The message with one more frame: `last` is that frame's time, were it before that of a frame that had joined.
pub fn merged(p: Pending, f: UplinkFrame, r: Reception) -> Pending
    ensures { result ≡ merge p (frame_of f r) }
{
    let mut q = p;
    q.message.spans = meet(q.message.spans, span_of(f, r));
    q.message.first_frame_end = end_after(q.message.first_frame_end, f.rank, r.end);
    q.message.rssi = louder(q.message.rssi, r.rssi);
    q.last = r.time;
    q
}

// ---- `expire`

// Whether a message is complete at a time.
pub fn expires(p: Pending, now: f64) -> bool
    ensures { result ≡ expires now p }
{
    let m = p.message;
    let spans = m.spans;
    let complete = three_ranks(spans);
    let quiet = now - p.last > QUIET_S;
    complete | quiet
}

// The span of rank 1 or 2 that is the lower, s before the other where both have it.
fn lower(s: FrameSpan, rest: Option<FrameSpan>) -> Option<FrameSpan>
    ensures { result ≡ cond (later s) (Some (lower s rest)) rest }
{
    if s.rank == 0 || s.rank == NO_RANK {
        return rest;
    }
    if let Some(t) = rest {
        if t.rank < s.rank {
            return rest;
        }
    }
    Some(s)
}

// `f.end - f.rank as f64 * (f.end - f.time + FRAME_GAP_S)`
fn end_before(s: FrameSpan) -> f64
    ensures { result ≡ end_before s }
{
    s.end - (s.rank as f64) * (s.end - s.time + FRAME_GAP_S)
}

// When frame 1 was lost, its end from a later repetition: all three last as long and are FRAME_GAP_S apart.
pub fn estimate(spans: [FrameSpan; 3]) -> Option<f64>
    ensures { result ≡ estimate spans }
{
    let third = lower(spans[2], None);
    let second = lower(spans[1], third);
    let s = lower(spans[0], second)?;
    Some(end_before(s))
}

// The message as it is written: with the known end, or else the estimate.
pub fn finished(p: Pending) -> SigfoxMessage
    ensures { result ≡ finished p }
{
    let mut m = p.message;
    m.first_frame_end = m.first_frame_end.or(estimate(m.spans));
    m
}

// ---- what 01 asks of the messages of a given state

// Whether a place holds no span, or one of rank 0 to 2 that no later place has.
fn span_fits(rank: u8, again: bool) -> bool
    ensures { result ≡ eqb rank no_span || (leb rank 2 && not again) }
{
    let empty = rank == NO_RANK;
    let small = rank <= coding::HIGHEST_RANK;
    empty | (small & !again)
}

// Whether the spans have different ranks 0 to 2.
fn spans_fit(spans: [FrameSpan; 3]) -> bool
    ensures { result ≡ spans_fit spans }
{
    let a = spans[0].rank;
    let b = spans[1].rank;
    let c = spans[2].rank;
    let second = b == a;
    let third = c == a;
    let last = c == b;
    span_fits(a, second | third) & (span_fits(b, last) & span_fits(c, false))
}

// Whether no span comes after a place that holds none.
fn in_front(spans: [FrameSpan; 3]) -> bool
    ensures { result ≡ in_front spans }
{
    let first = spans[0].rank == NO_RANK;
    let second = spans[1].rank == NO_RANK;
    let third = spans[2].rank == NO_RANK;
    (second | !first) & (third | !second)
}

// Whether a message is in order: 1 to 3 spans of different ranks, in front, payload and authentication code not too long.
pub fn fits(p: Pending) -> bool
    ensures { result ≡ entry_fits p }
{
    let m = p.message;
    let spans = m.spans;
    let payload = m.payload_len <= MOST_PAYLOAD;
    let auth = m.auth_len <= MOST_AUTH;
    (has(spans, 0) | (has(spans, 1) | has(spans, 2)))
        & (spans_fit(spans) & (in_front(spans) & (payload & auth)))
}

// Whether a span is there and has a NaN.
fn span_nan(s: FrameSpan) -> bool
    ensures { result ≡ not (eqb s.rank no_span) && (is_nan s.time || is_nan s.end) }
{
    let empty = s.rank == NO_RANK;
    !empty & (s.time.is_nan() | s.end.is_nan())
}

fn end_nan(known: Option<f64>) -> bool
    ensures { result ≡ end_nan known }
{
    match known {
        Some(t) => t.is_nan(),
        None => false,
    }
}

fn spans_nan(spans: [FrameSpan; 3]) -> bool
    ensures { result ≡ span_nan spans }
{
    let first = span_nan(spans[0]);
    let second = span_nan(spans[1]);
    let third = span_nan(spans[2]);
    first | (second | third)
}

// Whether a number that the message uses is a NaN.
pub fn has_nan(p: Pending) -> bool
    ensures { result ≡ entry_nan p }
{
    let m = p.message;
    let spans = m.spans;
    let known = m.first_frame_end;
    p.last.is_nan() | (m.time.is_nan() | (m.rssi.is_nan() | (end_nan(known) | spans_nan(spans))))
}

// ---- `estimate_first_frame_end`

// The end of frame 1 from a later repetition (receiver.rs `estimate_first_frame_end`); a place of rank 255 holds no span.
pub fn estimate_first_frame_end(spans: [FrameSpan; 3]) -> Result<Option<f64>, Refusal>
    ensures { said result ≡ estimate_answer spans }
{
    if record::spans::spans_ok(spans[0], spans[1], spans[2]) {
        return Ok(estimate(spans));
    }
    Err(Refusal::BadNumber)
}
