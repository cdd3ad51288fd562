// The messages on air across an instant.
ghost use Rattle.std.specs.Prelude.{◌≡◌, ◌+◌, ◌*◌, ◌≤◌, ◌<◌, length};
ghost use Rattle.std.proofs.lemmas.List.Edits.{sets};
ghost use Rattle.event_list.specs.Events.{wholes, list_ok, most_records};
ghost use Rattle.grip.specs.OnAir.{span_on, is_on_air, air_numbers};
ghost use Rattle.grip.specs.Marks.{Unmarked, number_if, marked_of};

use crate::marks;
use record::FrameSpan;
use record::read::EventRecord;

// Whether a span is there, begins at or before x and ends after it.
fn span_on(x: f64, span: FrameSpan) -> bool
    ensures { result ≡ span_on x span }
{
    let there = span.is_there();
    let begun = span.time <= x;
    let open = x < span.end;
    there & (begun & open)
}

fn is_on_air(x: f64, r: EventRecord) -> bool
    ensures { result ≡ is_on_air x r.entry.bytes.now }
{
    let message = event_list::is_message(r);
    let spans = r.spans();
    let first = span_on(x, spans[0]);
    let second = span_on(x, spans[1]);
    let third = span_on(x, spans[2]);
    message & (first | (second | third))
}

// One pass over the records: each is tested, and marked where it is a message on air. Whether refusal 12 does not apply.
pub fn mark_all(records: &[u8], x: f64, marks: &mut [u8]) -> bool
    requires { (wholes records.now ≤ 8 * length marks.old) × Unmarked marks.old }
    ensures { (result ≡ list_ok records.now) × (marked_of (wholes records.now) marks.new ≡ air_numbers x records.now) }
{
    let mut ok = records.len() % limits::RECORD == 0;
    for (i, r) in records.chunks_exact(limits::RECORD).enumerate() {
        let event = EventRecord::new(r);
        ok &= event_list::record_ok(event);
        marks::mark(marks, i, is_on_air(x, event));
    }
    ok
}

// Record number i is noted behind the first n where it is marked.
fn note(numbers: &mut [u32], n: usize, i: u32, marked: bool) -> usize
    requires { n < length numbers.old }
    ensures { (result ≡ n + length (number_if marked i)) × (numbers.new ≡ sets numbers.old n (number_if marked i)) }
{
    if marked {
        numbers[n] = i;
        return n + 1;
    }
    n
}

// The numbers of the marked ones of the first `count` records; how many.
pub fn note_all(marks: &[u8], count: usize, numbers: &mut [u32]) -> usize
    requires { (count ≤ 8 * length marks.now) × (count ≤ length numbers.old) × (count ≤ most_records) }
    ensures { (result ≡ length (marked_of count marks.now)) × (numbers.new ≡ sets numbers.old 0 (marked_of count marks.now)) }
{
    let mut n: usize = 0;
    for i in 0..count {
        let marked = marks::is_marked(marks, i);
        n = note(numbers, n, i as u32, marked);
    }
    n
}
