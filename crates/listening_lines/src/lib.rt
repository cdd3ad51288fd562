// The lines of `listen` as text (01, frequency.rs).
#![tactic(auto)]

mod line; // a line as it is built

ghost use Rattle.std.specs.Prelude.{◌≡◌, ◌+◌, ◌≤◌, ◌++◌, length};
ghost use Rattle.limits.specs.Refusals.{number_of};
ghost use Rattle.listening_lines.specs.Text.{widest};
ghost use Rattle.listening_lines.specs.Lines.{tune_line, payload_text, hz_text, sender_text, message_line, refusal_line, end_line};

pub use crate::line::{Line, WIDEST};
use limits::Refusal;
use record::read::EventRecord;

// `T hz`; no line where the receiver is not to be tuned anew.
pub fn tune_line(to: Option<u32>) -> Line
    ensures { result ≡ tune_line to }
{
    match to {
        None => Line::new(),
        Some(hz) => {
            let mut line = Line::head(b'T');
            line.put_field(u64::from(hz), b'\n');
            line
        }
    }
}

// `M device counter ranks `
fn sender(event: EventRecord) -> Line
    ensures text { result ≡ sender_text event.entry.bytes.now }
    ensures upper_bound { length result ≤ 64 }
{
    let mut line = Line::head(b'M');
    line.put_hex(u64::from(event.device()), 8);
    line.put_byte(b' ');
    line.put_field(u64::from(event.counter()), b' ');
    line.put_field(u64::from(event.rank()), b' ');
    line
}

// The payload in hexadecimal digits, or `-`.
fn put_payload(line: &mut Line, event: EventRecord)
    requires { length line.old + 48 ≤ widest }
    ensures text { line.new ≡ line.old ++ payload_text event.entry.bytes.now }
    ensures upper_bound { length line.new ≤ length line.old + 24 }
{
    let n = event.payload_len();
    if n == 0 {
        line.put_byte(b'-');
        return;
    }
    let end = 16 + usize::from(n.min(12));
    for b in &event.bytes[16..end] {
        line.put_hex(u64::from(*b), 2);
    }
}

// The answer of `frame1`, or `-`.
fn put_hz(line: &mut Line, answer: Option<u32>)
    requires { length line.old + 20 ≤ widest }
    ensures text { line.new ≡ line.old ++ hz_text answer }
    ensures upper_bound { length line.new ≤ length line.old + 20 }
{
    match answer {
        None => line.put_byte(b'-'),
        Some(hz) => line.put_number(u64::from(hz)),
    }
}

// `M device counter ranks payload hz`
pub fn message_line(event: EventRecord, answer: Option<u32>) -> Line
    ensures { result ≡ message_line event.entry.bytes.now answer }
{
    let mut line = sender(event);
    put_payload(&mut line, event);
    line.put_byte(b' ');
    put_hz(&mut line, answer);
    line.put_byte(b'\n');
    line
}

// `R number`, of any number.
pub fn number_line(n: u8) -> Line
    ensures { result ≡ refusal_line n }
{
    let mut line = Line::head(b'R');
    line.put_field(u64::from(n), b'\n');
    line
}

// The same of a refusal's number.
pub fn refusal_line(refusal: Refusal) -> Line
    ensures { result ≡ refusal_line (number_of refusal) }
{
    number_line(u8::from(refusal))
}

// `E samples frames messages leftover-bytes`
pub fn end_line(samples: u64, frames: u64, messages: u64, leftover: usize) -> Line
    ensures { result ≡ end_line samples frames messages leftover }
{
    let mut line = Line::head(b'E');
    line.put_field(samples, b' ');
    line.put_field(frames, b' ');
    line.put_field(messages, b' ');
    line.put_field(leftover as u64, b'\n');
    line
}
