// The nearest message of the records read so far.
ghost use Rattle.std.specs.Prelude.{◌≡◌, ◌<◌};
ghost use Rattle.event_list.specs.Events.{most_records};
ghost use Rattle.grip.specs.Reading.{is_nearer, looked};

use crate::{Best, Match};
use record::read::EventRecord;

// Whether a message goes before the nearest one so far.
fn is_nearer(nearest: Option<Match>, distance: f64, time: f64) -> bool
    ensures { result ≡ is_nearer nearest distance time }
{
    let Some(so_far) = nearest else {
        return true;
    };
    let nearer = distance < so_far.distance;
    let equal = distance == so_far.distance;
    let earlier = time < so_far.time;
    nearer | (equal & earlier)
}

// One more record is looked at.
pub fn looked_at(b: Best, r: EventRecord, grip: f64, within: f64) -> Best
    requires { b.count < most_records }
    ensures { result ≡ looked grip within b r.entry.bytes.now }
{
    let right = event_list::record_ok(r);
    let time = r.time();
    let distance = floats::abs64(time - grip);
    let near = distance <= within;
    let qualifies = event_list::is_message(r) & (time.is_finite() & near);
    let mut nearest = b.nearest;
    if qualifies & is_nearer(b.nearest, distance, time) {
        nearest = Some(Match {
            number: b.count,
            distance,
            time,
        });
    }
    Best {
        count: b.count + 1,
        ok: b.ok & right,
        nearest,
    }
}
