// A scan (receiver.rs `scan`): the bursts of the held samples that are taken, their records and messages, and which starts are forgotten.
#![tactic(auto)]

ghost use Rattle.std.specs.Prelude.{◌≡◌, cond, ◌+◌, ◌*◌, ◌^◌, ◌≤◌, ◌<◌, length};
ghost use Rattle.std.proofs.lemmas.List.Edits.{sets};
ghost use Rattle.limits.specs.Limits.{longest_stream, record_size};
ghost use Rattle.ledger.specs.Scanning.{scan_options, held_bursts};
ghost use Rattle.ledger.specs.Frames.{frame_at};
ghost use Rattle.ledger.specs.Ledger.{by_entry, seconds, join};
ghost use Rattle.ledger.specs.Causes.{most_starts};
ghost use Rattle.ledger.specs.Room.{open_places, event_places, take_one_if, take_each_if, scan_if};
ghost use Rattle.ledger.specs.Demodulation.{demod_of};
ghost use Rattle.ledger.specs.Records.{frame_bytes};
ghost use Rattle.receiver_starts.specs.Starts.{distances};
ghost use Rattle.receiver_waiting.specs.Waiting.{waiting_of};
ghost use Rattle.receiver_scan.specs.Midway.{Room, Within, Does, has_room, takes_at, taken};

use bursts::{Burst, BurstOptions};
use demod::DecodedFrame;
use ledger::Pending;
use limits::rated::Samples;
use receiver_starts::Starts;
use receiver_waiting::Waiting;

// The records that the event buffer holds.
const EVENT_PLACES: usize = 256;

// A scan's own shortest burst: the bounds on starts, messages and records rest on it.
pub const MIN_MS: f64 = 300.0;

// What a scan looks at: held samples, the absolute index of the first, and how long before the newest a burst is to have ended, in samples.
#[derive(Clone, Copy)]
pub struct Held<'a> {
    pub samples: Samples<'a>,
    pub base: u64,
    pub wait: usize,
    pub ghost stream: { base + length samples.dbm.now ≤ longest_stream },
    pub ghost waits: { wait ≤ samples.rate },
}

// What a scan leaves, besides the event buffer; `count` is the records of the call so far.
#[derive(Clone, Copy)]
pub struct Scanned {
    pub starts: Starts,
    pub waiting: Waiting,
    pub count: usize,
}

// How a scan looks for bursts.
pub fn scan_options() -> BurstOptions
    ensures { result ≡ scan_options }
{
    BurstOptions {
        above_db: BurstOptions::ABOVE_DB,
        min_ms: MIN_MS,
        gap_ms: BurstOptions::GAP_MS,
    }
}

// A number of samples in seconds.
pub fn seconds(rate: u32, n: u64) -> f64
    requires { n ≤ longest_stream }
    ensures { result ≡ seconds rate n }
{
    floats::count_as_f64(n as usize) / (rate as f64)
}

// Whether one more start, open message and record fit. The arrays' lengths are their types'.
fn has_room(s: &Scanned) -> bool
    ensures fits { result ≡ has_room s.now.starts.count s.now.waiting.count s.now.count }
    ensures places { (length s.now.starts.at ≡ most_starts) × (length s.now.waiting.messages ≡ open_places) }
{
    let starts: &[i32] = &s.starts.at;
    let messages: &[Pending] = &s.waiting.messages;
    let start = s.starts.count < starts.len();
    let message = s.waiting.count < messages.len();
    let record = s.count < EVENT_PLACES;
    start & (message & record)
}

// Only bursts that have ended; ones touching the start of the buffer were decoded earlier, and so were those near a remembered start.
fn takes(rate: u32, wait: usize, starts: &Starts, held: usize, burst: Burst) -> bool
    requires { (starts.now.count ≤ most_starts) × (burst.start < 2 ^ 31) × (burst.end + wait ≤ longest_stream) }
    ensures { result ≡ takes_at rate wait (distances starts.now) held burst }
{
    if burst.start == 0 {
        return false;
    }
    if held < burst.end + wait {
        return false;
    }
    let x = receiver_starts::distance(burst.start);
    !receiver_starts::near(rate, &starts.at, starts.count, x)
}

// A frame has a record behind the others of the call, and joins the open messages where its CRC is right.
fn hear(d: DecodedFrame, start: u64, waiting: &mut Waiting, events: &mut [u8], count: usize)
    requires { (waiting.old.count < open_places) × (record_size * (count + 1) ≤ length events.old) }
    ensures { (waiting_of waiting.new ≡ cond d.frame.crc_ok (join by_entry (frame_at start d) (waiting_of waiting.old)) (waiting_of waiting.old)) × (waiting.new.count ≤ open_places)
        × (events.new ≡ sets events.old (record_size * count) (frame_bytes (frame_at start d))) }
{
    let f = d.frame;
    let r = d.reception(start);
    let right = f.crc_ok;
    record::put_frame(f, r, events, limits::RECORD * count);
    if right {
        receiver_waiting::join(waiting, f, r);
    }
}

// A burst that is taken: its start is remembered, decoded or not.
fn take_burst(held: Held, burst: Burst, s: &mut Scanned, events: &mut [u8], scratch: &mut [f64])
    requires { Room events.old scratch.old × (burst.start ≤ length held.samples.dbm.now) × (burst.end ≤ length held.samples.dbm.now)
        × (s.old.starts.count < most_starts) × (s.old.waiting.count < open_places) × (s.old.count < event_places) }
    ensures { Does (taken held.entry.samples.rate burst) held.entry.samples.dbm.now held.entry.base s.old events.old s.new events.new }
{
    let start = held.base + (burst.start as u64);
    receiver_starts::remember(&mut s.starts, receiver_starts::distance(burst.start));
    let t0 = seconds(held.samples.rate, held.base);
    if let Some(d) = demod::decode_within(held.samples, burst, t0, scratch) {
        hear(d, start, &mut s.waiting, events, s.count);
        s.count += 1;
    }
}

// A burst is taken where it is to be and there is room.
fn take_one(held: Held, burst: Burst, s: &mut Scanned, events: &mut [u8], scratch: &mut [f64])
    requires { Room events.old scratch.old × (burst.start ≤ length held.samples.dbm.now) × (burst.end ≤ length held.samples.dbm.now) × Within s.old }
    ensures { Does (λ l. take_one_if held.entry.samples.rate (demod_of held.entry.samples.rate) held.entry.wait l burst) held.entry.samples.dbm.now held.entry.base s.old events.old s.new events.new }
{
    if !has_room(s) {
        return;
    }
    if takes(
        held.samples.rate,
        held.wait,
        &s.starts,
        held.samples.dbm.len(),
        burst,
    ) {
        take_burst(held, burst, s, events, scratch);
    }
}

// The bursts of the held samples, one by one.
fn take_each(held: Held, s: &mut Scanned, events: &mut [u8], scratch: &mut [f64])
    requires { Room events.old scratch.old × Within s.old }
    ensures { Does (λ l. take_each_if held.entry.samples.rate (demod_of held.entry.samples.rate) held.entry.wait l (held_bursts held.entry.samples.rate held.entry.samples.dbm.now)) held.entry.samples.dbm.now held.entry.base s.old events.old s.new events.new }
{
    let dbm = held.samples.dbm;
    let options = scan_options();
    let floor = bursts::measured_floor(dbm);
    let mut at: usize = 0;
    while at < dbm.len() {
        let Some(b) = bursts::search_bursts(dbm, held.samples.rate, options, floor, at, 0) else {
            return;
        };
        take_one(held, b, s, events, scratch);
        at = b.end;
    }
}

// A scan of the held samples: bursts that ended less than `wait` samples before the newest are left.
pub fn scan(held: Held, s: &mut Scanned, events: &mut [u8], scratch: &mut [f64])
    requires { Room events.old scratch.old × Within s.old }
    ensures { Does (scan_if held.entry.samples.rate (demod_of held.entry.samples.rate) held.entry.wait) held.entry.samples.dbm.now held.entry.base s.old events.old s.new events.new }
{
    take_each(held, s, events, scratch);
    receiver_starts::forget(&mut s.starts, held.samples.rate);
}
