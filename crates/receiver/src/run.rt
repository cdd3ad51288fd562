// An accepted call: its samples come in by fillings, with drops and scans, and at its end the messages that leave are written.
ghost use Rattle.std.specs.Prelude.{◌≡◌, true, List, ℕ, ◌+◌, ◌*◌, ◌≤◌, ◌<◌, length, Ok};
ghost use Rattle.limits.specs.Limits.{highest_rate};
ghost use Rattle.ledger.specs.Ledger.{Ledger, Call, by_entry, capacity, push, flush, seconds, tail};
ghost use Rattle.ledger.specs.Room.{scan_if};
ghost use Rattle.ledger.specs.Demodulation.{demod_of};
ghost use Rattle.receiver_scan.specs.Midway.{Lent, Within, Does};
ghost use Rattle.shifts.specs.Shifts.{schedule, mark_by};
ghost use Rattle.receiver.specs.Calls.{received};
ghost use Rattle.receiver.specs.Running.{Passes, Under, Closable, EndsBy, Ended, Answers, Addable, Adds, Added};

use crate::SigfoxReceiver;
use limits::rated::Samples;
use receiver_scan::{Held, Scanned};
use receiver_waiting::Leaving;
use shifts::Given;

// 0.3 s in samples, rounded: so long ago a burst ended that is taken (TAIL_S).
fn tail(rate: u32) -> usize
    requires { rate ≤ highest_rate }
    ensures { result ≡ tail rate }
{
    ((3 * rate + 5) / 10) as usize
}

// A scan that leaves bursts which ended less than 0.3 s before the newest sample.
fn scan_tail(
    held: &[f32],
    rate: u32,
    base: u64,
    t: &mut Scanned,
    events: &mut [u8],
    scratch: &mut [f64],
)
    requires { Lent rate base (tail rate) held.now events.old scratch.old × Within t.old }
    ensures { Does (scan_if rate (demod_of rate) (tail rate)) held.now base t.old events.old t.new events.new }
{
    let samples = Samples { dbm: held, rate };
    let wait = tail(rate);
    let held = Held {
        samples,
        base,
        wait,
    };
    receiver_scan::scan(held, t, events, scratch);
}

// The end of a call on the state s: the messages that leave are written, the others kept (`expire`).
fn finish(
    s: &mut SigfoxReceiver,
    held: usize,
    base: u64,
    unscanned: usize,
    t: &Scanned,
    leaving: Leaving,
    given: &Given,
    events: &mut [u8],
) -> usize
    requires { Closable (mark_by (schedule given.now)) t.now leaving events.old }
    ensures { (c : Call) (l : Ledger by_entry) (old : List ℕ) → EndsBy c leaving (seconds s.old.rate (base + held)) → Under l old held base unscanned t.now events.old → Ended s.old c (mark_by (schedule given.now)) l old (received (Ok result) s.new) events.new }
{
    let written = receiver_closing::write_messages(&t.waiting, leaving, given, events, t.count);
    receiver_waiting::keep(&mut s.waiting, &t.waiting, leaving);
    receiver_starts::over(&mut s.starts, &t.starts);
    s.held = held;
    s.base = base;
    s.unscanned = unscanned;
    written
}

// Whether there is room for n samples, some, without a drop, and no scan is due after them.
pub fn fits(rate: u32, held: usize, unscanned: usize, n: usize) -> bool
    requires { (rate ≤ highest_rate) × (held ≤ capacity rate) × (n ≤ capacity rate) × (2 * unscanned < rate) }
    ensures { result ≡ true → (1 ≤ n) × (held + n ≤ capacity rate) × (2 * (unscanned + n) < rate) }
{
    if n == 0 {
        return false;
    }
    if receiver_samples::capacity(rate) < held + n {
        return false;
    }
    2 * (unscanned + n) < (rate as usize)
}

// Whether a push of n samples only adds them: there is room without a drop, no scan is due, and no message leaves.
fn only_adds(s: &SigfoxReceiver, n: usize) -> bool
    requires { Addable s.now n }
    ensures { result ≡ true → Adds s.now n }
{
    if !fits(s.rate, s.held, s.unscanned, n) {
        return false;
    }
    let held = s.held + n;
    let time = receiver_scan::seconds(s.rate, s.base + (held as u64));
    let count = s.waiting.count;
    !receiver_waiting::any_expires(&s.waiting.messages[..count], time)
}

// An accepted push that only adds its samples.
pub fn add(s: &mut SigfoxReceiver, dbm: &[f32], samples: &mut [f32])
    requires { Adds s.old (length dbm.now) × (s.old.rate ≤ highest_rate) × (capacity s.old.rate ≤ length samples.old) }
    ensures { Added s.old dbm.now samples.old (received (Ok 0) s.new) samples.new }
{
    let n = receiver_samples::fill(samples, s.rate, s.held, dbm, 0);
    s.held += n;
    s.unscanned += n;
}

// What a call begins with: the starts, the open messages and no record.
fn begin(s: &SigfoxReceiver) -> Scanned
    ensures { result ≡ record { starts = s.now.starts; waiting = s.now.waiting; count = 0 } }
{
    let starts = s.starts;
    let waiting = s.waiting;
    Scanned {
        starts,
        waiting,
        count: 0,
    }
}

// An accepted push, at a time as many samples as there is room for (`while off < dbm.len()`); a scan runs where half a second or more is not looked at.
fn by_fillings(
    s: &mut SigfoxReceiver,
    dbm: &[f32],
    given: &Given,
    samples: &mut [f32],
    events: &mut [u8],
    scratch: &mut [f64],
) -> usize
    requires { Passes s.old (push dbm.now) samples.old events.old scratch.old }
    ensures { Answers s.old (push dbm.now) (mark_by (schedule given.now)) samples.old events.old (received (Ok result) s.new) samples.new events.new }
{
    let rate = s.rate;
    let mut held = s.held;
    let mut base = s.base;
    let mut unscanned = s.unscanned;
    let mut t = begin(s);
    let mut from: usize = 0;
    while from < dbm.len() {
        let left = receiver_samples::halve(samples, rate, held);
        let dropped = (held - left) as u64;
        base += dropped;
        receiver_starts::shift(&mut t.starts, dropped);
        let n = receiver_samples::fill(samples, rate, left, dbm, from);
        held = left + n;
        unscanned += n;
        from += n;
        if (rate as usize) <= 2 * unscanned {
            scan_tail(&samples[..held], rate, base, &mut t, events, scratch);
            unscanned = 0;
        }
    }
    let leaving = Leaving::CompleteAt(receiver_scan::seconds(rate, base + (held as u64)));
    finish(s, held, base, unscanned, &t, leaving, given, events)
}

// An accepted push.
pub fn hear(
    s: &mut SigfoxReceiver,
    dbm: &[f32],
    given: &Given,
    samples: &mut [f32],
    events: &mut [u8],
    scratch: &mut [f64],
) -> usize
    requires { Passes s.old (push dbm.now) samples.old events.old scratch.old }
    ensures { Answers s.old (push dbm.now) (mark_by (schedule given.now)) samples.old events.old (received (Ok result) s.new) samples.new events.new }
{
    if only_adds(s, dbm.len()) {
        add(s, dbm, samples);
        return 0;
    }
    by_fillings(s, dbm, given, samples, events, scratch)
}

// An accepted flush: a scan that waits for nothing and leaves the count of samples not looked at, then every message is written.
pub fn hear_all(
    s: &mut SigfoxReceiver,
    samples: &[f32],
    given: &Given,
    events: &mut [u8],
    scratch: &mut [f64],
) -> usize
    requires { Passes s.old flush samples.now events.old scratch.old }
    ensures { Answers s.old flush (mark_by (schedule given.now)) samples.now events.old (received (Ok result) s.new) samples.now events.new }
{
    let held = s.held;
    let base = s.base;
    let unscanned = s.unscanned;
    let mut t = begin(s);
    let looked_at = Samples {
        dbm: &samples[..held],
        rate: s.rate,
    };
    let all = Held {
        samples: looked_at,
        base,
        wait: 0,
    };
    receiver_scan::scan(all, &mut t, events, scratch);
    finish(s, held, base, unscanned, &t, Leaving::All, given, events)
}
