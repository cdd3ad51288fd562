// The message that goes with a grip, and the messages on air across an instant, over a list of event records (02, request 11).
#![tactic(auto)]

mod looking; // one more record for a grip
mod marks; // a bit for each record
mod spans; // the spans across an instant

ghost use Rattle.std.specs.Prelude.{◌≡◌, true, ◌&&◌, ◌+◌, ◌≤◌, length, None};
ghost use Rattle.std.proofs.lemmas.List.Edits.{sets};
ghost use Rattle.limits.specs.Answer.{said, said_by, answer, number, leaves};
ghost use Rattle.event_list.specs.Events.{wholes, most_records, list_ok};
ghost use Rattle.grip.specs.Times.{distance_ok};
ghost use Rattle.grip.specs.Nearest.{found_or_none, grip_cause, Call};
ghost use Rattle.grip.specs.OnAir.{air_numbers, air_cause};
ghost use Rattle.grip.specs.Reading.{read_part, found_of};

use limits::Refusal;
use record::read::EventRecord;

// Bytes of marks for as many records as a call reads at most.
const MARKS: usize = 125_000;

// A message that goes with a grip: its record's number, from 0, frames counted, its distance and its time.
#[derive(Clone, Copy)]
pub struct Match {
    pub number: usize,
    pub distance: f64,
    pub time: f64,
}

// What was read: how many records, whether refusal 12 does not apply to them, and the nearest message among them, if one qualifies.
#[derive(Clone, Copy)]
pub struct Best {
    pub count: usize,
    pub ok: bool,
    pub nearest: Option<Match>,
}

fn distance_ok(x: f64) -> bool
    ensures { result ≡ distance_ok x }
{
    let positive = 0.0 <= x;
    x.is_finite() & positive
}

// Nothing is read.
pub fn no_records() -> Best
    ensures { (result.count ≡ 0) × (result.ok ≡ true) × (result.nearest ≡ None) }
{
    Best {
        count: 0,
        ok: true,
        nearest: None,
    }
}

// More records are read, in one pass, those behind a bad one too.
pub fn read_records(b: Best, records: &[u8], grip: f64, within: f64) -> Best
    requires { b.count + wholes records.now ≤ most_records }
    ensures { (result ≡ read_part grip within b records.now) × (result.count ≡ b.count + wholes records.now)
        × (result.ok ≡ b.ok && list_ok records.now) }
{
    let whole = records.len() % limits::RECORD == 0;
    let mut best = Best {
        ok: b.ok & whole,
        ..b
    };
    for r in records.chunks_exact(limits::RECORD) {
        best = looking::looked_at(best, EventRecord::new(r), grip, within);
    }
    best
}

// The record number of the nearest message of what was read, or none, or refusal 12 or 14.
pub fn found(b: Best, grip: f64, within: f64) -> Result<Option<usize>, Refusal>
    ensures { said_by found_or_none result ≡ answer (grip_cause b.ok grip within) (found_of b) }
{
    if !b.ok {
        return Err(Refusal::BadRecords);
    }
    let times = grip.is_finite() & distance_ok(within);
    if !times {
        return Err(Refusal::BadTime);
    }
    match b.nearest {
        Some(nearest) => Ok(Some(nearest.number)),
        None => Ok(None),
    }
}

// The record number, from 0, frames counted, of the message whose time is nearest to the grip's, not over `within` seconds away, or none, or a refusal.
pub fn nearest_message(records: &[u8], grip: f64, within: f64) -> Result<Option<usize>, Refusal>
    ensures { Call records.now grip within result }
{
    if limits::MOST_RECORD_BYTES < records.len() {
        return Err(Refusal::Long);
    }
    let best = read_records(no_records(), records, grip, within);
    found(best, grip, within)
}

// How many record numbers stand in the lent list, those of the messages on air at x, rising; or a refusal, which changes nothing.
pub fn on_air(records: &[u8], x: f64, numbers: &mut [u32]) -> Result<usize, Refusal>
    ensures { (said result ≡ answer (air_cause records.now x (length numbers.old)) (length (air_numbers x records.now)))
        × (numbers.new ≡ leaves (number (said result)) (sets numbers.old 0 (air_numbers x records.now)) numbers.old) }
{
    if numbers.len() < records.len() / limits::RECORD {
        return Err(Refusal::Short);
    }
    if limits::MOST_RECORD_BYTES < records.len() {
        return Err(Refusal::Long);
    }
    let mut marks = [0u8; MARKS];
    if !spans::mark_all(records, x, &mut marks) {
        return Err(Refusal::BadRecords);
    }
    if !x.is_finite() {
        return Err(Refusal::BadTime);
    }
    let count = records.len() / limits::RECORD;
    Ok(spans::note_all(&marks, count, numbers))
}
