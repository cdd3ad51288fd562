// What `samples` forgets: readings and tunings of more than 60 s ago, taken out of the lists in place.
#![tactic(auto)]

ghost use Rattle.std.specs.Prelude.{◌≡◌, IfSome, cond, true, false, map, ℕ, ◌+◌, ◌-◌, ◌≤◌, ◌<◌, ◌^◌, length, get_or, eqb, leb};
ghost use Rattle.frequency_signal.specs.Seconds.{kept, oldest_of};
ghost use Rattle.frequency_lists.specs.Lists.{Small, all_numbers, ats, tuneds};
ghost use Rattle.frequency_retain.specs.Retain.{moved, stays, Leads, Looked, Compacted};

use frequency_lists::{Reading, Tuning};
use frequency_signal::Stream;

// No two indices in order are so far apart.
const FAR: u64 = 0x8000_0000_0000_0000;

// readings.retain, one by one.
fn compact_readings(stream: Stream, readings: &mut [Reading]) -> usize
    requires { Small (ats readings.old) }
    ensures { Compacted (map (kept stream.rate stream.n) (ats readings.old)) readings.old result readings.new }
{
    let mut w = 0usize;
    for i in 0..readings.len() {
        let x = readings[i];
        w = frequency_lists::put(stream.is_kept(x.at), w, x, readings);
    }
    w
}

// The first `lead` readings go; how many stay. A line of 8 samples mostly lets one go, and a copy by a number that is known is
// a block move.
fn forget(lead: usize, readings: &mut [Reading]) -> usize
    requires { lead ≤ length readings.old }
    ensures count { result ≡ length readings.old - lead }
    ensures list { readings.new ≡ moved lead (length readings.old - lead) readings.old }
{
    let count = readings.len() - lead;
    if lead == 0 {
        return count;
    }
    if lead == 1 {
        readings.copy_within(1.., 0);
        return count;
    }
    readings.copy_within(lead.., 0);
    count
}

// How many before oldest stand in front of the first that isn't.
pub fn leading(oldest: u64, readings: &[Reading]) -> usize
    ensures { (result ≤ length readings.now) × ((i : ℕ) → i < result → leb oldest (get_or (ats readings.now) i 0) ≡ false)
        × (result < length readings.now → leb oldest (get_or (ats readings.now) result 0) ≡ true) }
{
    for (i, x) in readings.iter().enumerate() {
        if oldest <= x.at {
            return i;
        }
    }
    readings.len()
}

// A look at the readings: how many in front are before low, where all others lie between low and limit; else nothing is settled.
pub fn look_at(low: u64, limit: u64, readings: &[Reading]) -> Option<usize>
    ensures { IfSome result (λ lead. Looked low limit lead readings.now) }
{
    if limit < low {
        return None;
    }
    let lead = leading(low, readings);
    (frequency_lists::spread(&readings[lead..], low) <= limit - low).then_some(lead)
}

// The same of readings none of whose frequencies is a NaN, in the same pass; nothing is settled of others.
pub fn look_at_numbers(low: u64, limit: u64, readings: &[Reading]) -> Option<usize>
    ensures { IfSome result (λ lead. Looked low limit lead readings.now × (all_numbers readings.now ≡ true)) }
{
    if limit < low {
        return None;
    }
    let lead = leading(low, readings);
    if !frequency_lists::no_nan(&readings[..lead]) {
        return None;
    }
    let Some(bits) = frequency_lists::spread_of_numbers(&readings[lead..], low) else {
        return None;
    };
    (bits <= limit - low).then_some(lead)
}

// The readings of the last 60 s stay (readings.retain). Readings come in the order of their indices, so that those that go
// mostly stand in front; any other list is compacted one by one.
fn retain_readings(stream: Stream, readings: &mut [Reading]) -> usize
    requires { Small (ats readings.old) }
    ensures { Compacted (map (kept stream.rate stream.n) (ats readings.old)) readings.old result readings.new }
{
    let oldest = frequency_signal::oldest(stream.rate, stream.n);
    let lead = leading(oldest, readings);
    if FAR <= frequency_lists::spread(&readings[lead..], oldest) {
        return compact_readings(stream, readings);
    }
    forget(lead, readings)
}

// The same after a look that may have settled which go.
pub fn retain_looked(look: Option<usize>, stream: Stream, readings: &mut [Reading]) -> usize
    requires { Small (ats readings.old) × IfSome look (λ lead. Leads (oldest_of stream.rate stream.n) lead (ats readings.old)) }
    ensures { Compacted (map (kept stream.rate stream.n) (ats readings.old)) readings.old result readings.new }
{
    let Some(lead) = look else {
        return retain_readings(stream, readings);
    };
    forget(lead, readings)
}

// A tuning stays while it is the last one or the next one is still kept.
fn tuning_stays(stream: Stream, i: usize, tunings: &[Tuning]) -> bool
    requires { (i < length tunings.now) × (i + 1 < length tunings.now → get_or (tuneds tunings.now) (i + 1) 0 ≤ 2 ^ 41) }
    ensures { result ≡ cond (eqb (i + 1) (length tunings.now)) true (kept stream.rate stream.n (get_or (tuneds tunings.now) (i + 1) 0)) }
{
    if i + 1 == tunings.len() {
        return true;
    }
    stream.is_kept(tunings[i + 1].at)
}

// tuning.retain: the next tuning is looked up in the list as it was.
pub fn retain_tunings(stream: Stream, tunings: &mut [Tuning]) -> usize
    requires { Small (tuneds tunings.old) }
    ensures { Compacted (stays stream.rate stream.n (tuneds tunings.old)) tunings.old result tunings.new }
{
    let mut w = 0usize;
    for i in 0..tunings.len() {
        let keep = tuning_stays(stream, i, tunings);
        w = frequency_lists::put(keep, w, tunings[i], tunings);
    }
    w
}
