// The open messages (receiver.rs `pending`), in the order in which they were opened: a frame joins one or opens one, and some are kept when a call ends.
#![tactic(auto)]

ghost use Rattle.std.specs.Prelude.{◌≡◌, true, cond, ◌||◌, ◌+◌, ◌≤◌, ◌<◌, length, take};
ghost use Rattle.ledger.specs.Merge.{expires};
ghost use Rattle.ledger.specs.Ledger.{by_entry, join, others};
ghost use Rattle.ledger.specs.Causes.{most_waiting, any_nan};
ghost use Rattle.ledger.specs.Room.{open_places};
ghost use Rattle.receiver_message.specs.Messages.{frame_of};
ghost use Rattle.receiver_waiting.specs.Waiting.{waiting_of, key_number, key_is, find_key, blank, leaves, any_expires, none, over, number_in, distinct, Seen, waiting_ok, Checked};

use frame::UplinkFrame;
use ledger::Pending;
use record::{FrameSpan, Reception, SigfoxMessage};

// A state in order has no more (02: over 40 is not in order). A receiver grown from a fresh one has at most 34.
const MOST_WAITING: usize = 40;

// Places for open messages: a push of a state that is given with 40 can hear 78 frames, and one place is free before each burst.
pub const OPEN_PLACES: usize = 119;

// One more than the largest counter of the field.
const COUNTERS: u64 = 65_536;

// The first `count` places.
#[derive(Clone, Copy)]
pub struct Waiting {
    pub messages: [Pending; OPEN_PLACES],
    pub count: usize,
}

// What one look at every message finds.
#[derive(Clone, Copy)]
struct Looked {
    keys: [u64; MOST_WAITING],
    fit: bool,
    nan: bool,
    expires: bool,
}

// Whether the messages are in order, whether one has a NaN, and whether a push writes one.
#[derive(Clone, Copy)]
pub struct Condition {
    pub ok: bool,
    pub nan: bool,
    pub expires: bool,
}

// ---- joining

fn is_of(p: &Pending, device_id: u32, counter: u16) -> bool
    ensures { result ≡ key_is device_id counter p.now }
{
    let device = p.message.device_id == device_id;
    let same = p.message.counter == counter;
    device & same
}

// The place of the first message of a device with a counter; the count where there is none.
fn find(w: &Waiting, device_id: u32, counter: u16) -> usize
    requires { w.now.count ≤ open_places }
    ensures { result ≡ find_key device_id counter (waiting_of w.now) }
{
    let n = w.count;
    for (i, p) in w.messages[..n].iter().enumerate() {
        if is_of(p, device_id, counter) {
            return i;
        }
    }
    n
}

// A frame joins the message of its device and counter, or opens one; the places behind them stay as they are.
pub fn join(w: &mut Waiting, f: UplinkFrame, r: Reception)
    requires { w.old.count < open_places }
    ensures { w.new ≡ over w.old (join by_entry (frame_of f r) (waiting_of w.old)) }
{
    let n = w.count;
    let k = find(w, f.device_id, f.counter);
    if k < n {
        let p = receiver_message::merged(w.messages[k], f, r);
        w.messages[k] = p;
        return;
    }
    w.messages[n] = receiver_message::opened(f, r);
    w.count = n + 1;
}

// ---- the end of a call

// Which messages are written: at a flush all, at a push those that are complete at its time.
#[derive(Clone, Copy)]
pub enum Leaving {
    All,
    CompleteAt(f64),
}

// Whether a message is one of them.
pub fn leaves(p: Pending, leaving: Leaving) -> bool
    ensures { result ≡ leaves leaving p }
{
    match leaving {
        Leaving::All => true,
        Leaving::CompleteAt(now) => receiver_message::expires(p, now),
    }
}

// A place that holds no message.
fn blank() -> Pending
    ensures { result ≡ blank }
{
    let none = FrameSpan {
        rank: 0,
        time: 0.0,
        end: 0.0,
    };
    let message = SigfoxMessage {
        device_id: 0,
        counter: 0,
        payload: [0u8; 12],
        payload_len: 0,
        bit: None,
        downlink: false,
        control: false,
        auth: [0u8; 5],
        auth_len: 0,
        time: 0.0,
        first_frame_end: None,
        rssi: 0.0,
        spans: [none, none, none],
        clock_error_ppm: 0,
        start: 0,
        depth: 0,
    };
    Pending { message, last: 0.0 }
}

// No message.
pub fn none() -> Waiting
    ensures { result ≡ none }
{
    let p = blank();
    Waiting {
        messages: [p; OPEN_PLACES],
        count: 0,
    }
}

// Whether a push writes one of the messages.
pub fn any_expires(messages: &[Pending], now: f64) -> bool
    ensures { result ≡ any_expires now messages.now }
{
    for p in messages {
        if receiver_message::expires(*p, now) {
            return true;
        }
    }
    false
}

// The messages that are not written, in order, in the first places of another array, whose other places stay as they are.
pub fn keep(old: &mut Waiting, w: &Waiting, leaving: Leaving)
    requires { w.now.count ≤ open_places }
    ensures { old.new ≡ over old.old (others (leaves leaving) (waiting_of w.now)) }
{
    let n = w.count;
    let mut k: usize = 0;
    for p in &w.messages[..n] {
        if leaves(*p, leaving) {
            continue;
        }
        old.messages[k] = *p;
        k += 1;
    }
    old.count = k;
}

// ---- what 01 asks of the messages of a given state

// Device and counter as one number.
fn key_of(p: Pending) -> u64
    ensures { (result ≡ key_number p) × (p.message.counter < 65536) }
{
    let m = p.message;
    (m.device_id as u64) * COUNTERS + (m.counter as u64)
}

// One look at each of the messages.
fn look(messages: &[Pending], now: f64) -> Looked
    requires { length messages.now ≤ most_waiting }
    ensures { Seen messages.now now result }
{
    let mut keys = [0u64; MOST_WAITING];
    let mut fit = true;
    let mut nans = false;
    let mut any = false;
    for (i, p) in messages.iter().enumerate() {
        keys[i] = key_of(*p);
        fit &= receiver_message::fits(*p);
        nans |= receiver_message::has_nan(*p);
        any |= receiver_message::expires(*p, now);
    }
    Looked {
        keys,
        fit,
        nan: nans,
        expires: any,
    }
}

// Whether no two keys are equal.
fn all_distinct(keys: &[u64]) -> bool
    ensures { result ≡ distinct keys.now }
{
    for (i, key) in keys.iter().enumerate() {
        if keys[i + 1..].contains(key) {
            return false;
        }
    }
    true
}

// Whether the messages are in order, whether one has a NaN, and whether a push at a time writes one.
pub fn check(w: &Waiting, now: f64) -> Condition
    ensures { Checked w.now now result }
{
    let n = w.count;
    if n == 0 {
        return Condition {
            ok: true,
            nan: false,
            expires: false,
        };
    }
    if MOST_WAITING < n {
        return Condition {
            ok: false,
            nan: false,
            expires: false,
        };
    }
    let l = look(&w.messages[..n], now);
    Condition {
        ok: all_distinct(&l.keys[..n]) & l.fit,
        nan: l.nan,
        expires: l.expires,
    }
}
