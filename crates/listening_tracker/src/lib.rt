// The tracker's side of one record of `listen` (01, frequency.rs), by a tracker that is known to be in order.
#![tactic(auto)]

ghost use Rattle.std.specs.Prelude.{◌≡◌};
ghost use Rattle.frequency.specs.Lent.{lists};
ghost use Rattle.frequency_grown.specs.Rising.{Single};
ghost use Rattle.listening_tracker.specs.Turn.{reading_places, turn, samples_turn, cfo_turn, Turned};

use frequency::FrequencyTracker;
use frequency_lists::{Reading, Tuning};
use limits::Refusal;

// `cfo`, then `next_tuning`.
fn read(
    t: &mut FrequencyTracker,
    cfo: u16,
    readings: &mut [Reading; 8000],
    tunings: &[Tuning; 64],
    scratch: &mut [f64; 8000],
) -> Result<Option<u32>, Refusal>
    requires { Single t.old (lists readings.old tunings.now) }
    ensures turned { Turned (cfo_turn reading_places cfo t.old (lists readings.old tunings.now))
        result t.new (lists readings.new tunings.now) }
    ensures single { Single t.new (lists readings.new tunings.now) }
{
    let register = [cfo];
    frequency_grown::cfo(t, &register, readings, tunings)?;
    frequency_grown::next_tuning(t, readings, tunings, scratch)
}

// `samples`, and what follows.
fn hear(
    t: &mut FrequencyTracker,
    dbm: &[f32],
    cfo: u16,
    readings: &mut [Reading; 8000],
    tunings: &mut [Tuning; 64],
    scratch: &mut [f64; 8000],
) -> Result<Option<u32>, Refusal>
    requires { Single t.old (lists readings.old tunings.old) }
    ensures turned { Turned (samples_turn reading_places dbm.now cfo t.old (lists readings.old tunings.old))
        result t.new (lists readings.new tunings.new) }
    ensures single { Single t.new (lists readings.new tunings.new) }
{
    frequency_grown::samples_rising(t, dbm, readings, tunings)?;
    read(t, cfo, readings, tunings, scratch)
}

// The tracker's calls for one record: `tuned`, `samples`, `cfo`, `next_tuning`; nothing after a refusal. `tuned` isn't called with 0 (02, request 04).
pub fn track(
    t: &mut FrequencyTracker,
    now_hz: u32,
    dbm: &[f32],
    cfo: u16,
    readings: &mut [Reading; 8000],
    tunings: &mut [Tuning; 64],
    scratch: &mut [f64; 8000],
) -> Result<Option<u32>, Refusal>
    requires { Single t.old (lists readings.old tunings.old) }
    ensures turned { Turned (turn reading_places now_hz dbm.now cfo t.old (lists readings.old tunings.old))
        result t.new (lists readings.new tunings.new) }
    ensures single { Single t.new (lists readings.new tunings.new) }
{
    if now_hz != 0 {
        t.tuned(now_hz, tunings)?;
    }
    hear(t, dbm, cfo, readings, tunings, scratch)
}
