// The days of a month, and the messages on each.
ghost use Rattle.std.specs.Prelude.{◌≡◌, ◌≤◌};
ghost use Rattle.event_list.specs.Events.{most_records};
ghost use Rattle.subscription.specs.Charges.{latest_start};
ghost use Rattle.subscription.specs.Counting.{day_in, inside, stepped, Few};

use crate::DAYS;
use record::read::EventRecord;

const DAY_S: usize = 86_400;

// The day of a time, from 0, where it lies in the month. Whole seconds are divided: a quotient of floats would be rounded.
fn day_of(start: usize, time: f64) -> Option<usize>
    requires { start ≤ latest_start }
    ensures { result ≡ day_in start time }
{
    let first = floats::count_as_f64(start);
    let end = floats::count_as_f64(start + DAY_S * DAYS);
    let begun = first <= time;
    let open = time < end;
    let within = begun & open;
    if !within {
        return None;
    }
    Some((floats::to_usize_saturating(time) - start) / DAY_S)
}

// A message in the month is counted on its day. Whether the record is no message outside the month.
pub fn counted(r: EventRecord, start: usize, counts: &mut [u32]) -> bool
    requires { (start ≤ latest_start) × Few counts.old most_records }
    ensures { (result ≡ inside start r.entry.bytes.now) × (counts.new ≡ stepped start counts.old r.entry.bytes.now) }
{
    if !event_list::is_message(r) {
        return true;
    }
    let Some(day) = day_of(start, r.time()) else {
        return false;
    };
    let c = counts[day];
    counts[day] = c + 1;
    true
}
