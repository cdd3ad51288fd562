// A list of event records, as 02's requests 09, 11 and 13 take it: the messages among its records, and the test of a record for refusal 12.
#![tactic(auto)]

ghost use Rattle.std.specs.Prelude.{◌≡◌};
ghost use Rattle.event_list.specs.Events.{is_message, record_ok};

use record::read::EventRecord;

// The ranks of a message are a sum of 1, 2, 4.
const MOST_RANKS: u8 = 7;

// Whether a record is a message: frames are skipped.
pub fn is_message(r: EventRecord) -> bool
    ensures { result ≡ is_message r.entry.bytes.now }
{
    r.kind() == record::MESSAGE
}

// Whether a record is a frame, or a message with an RSSI in -200 to 100 and ranks 1 to 7. No branch: few records are refused.
pub fn record_ok(r: EventRecord) -> bool
    ensures { result ≡ record_ok r.entry.bytes.now }
{
    let kind = r.kind();
    let mask = r.rank();
    let level = limits::is_dbm(r.rssi());
    let frame = kind == record::FRAME;
    let message = kind == record::MESSAGE;
    let low = 1 <= mask;
    let high = mask <= MOST_RANKS;
    frame | (message & (level & (low & high)))
}
