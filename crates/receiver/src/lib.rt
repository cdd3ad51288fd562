// The receiver's state (receiver.rs `SigfoxReceiver`), and the causes for which a call is refused, by number.
#![tactic(auto)]

ghost use Rattle.std.specs.Prelude.{◌≡◌, true, cond, ◌+◌, ◌^◌, ◌≤◌, ◌<◌, length, ltb, Ok};
ghost use Rattle.limits.specs.Limits.{longest_stream, stream};
ghost use Rattle.limits.specs.Answer.{cause_of};
ghost use Rattle.ledger.specs.Ledger.{capacity, push, push_raw, flush};
ghost use Rattle.ledger.specs.Causes.{most_starts, too_short, cause};
ghost use Rattle.ledger.specs.Room.{open_places};
ghost use Rattle.shifts.specs.Shifts.{schedule};
ghost use Rattle.receiver.specs.State.{new_state, ledger_of, counts_of, numbers_ok, samples_ok, given_cause, messages_cause, state_cause};
ghost use Rattle.receiver.specs.Calls.{Answered, Same, Memory, memory, received};
ghost use Rattle.receiver.specs.Running.{Quiet, OnlyAdds, lent_of, viewed, Views};

pub mod run; // an accepted call

use ledger::Pending;
use limits::Refusal;
use receiver_starts::Starts;
use receiver_waiting::Waiting;
use shifts::Given;

// Rate, samples held in the lent buffer, absolute index of its first, samples not looked at yet, remembered starts, open messages.
#[derive(Clone, Copy)]
pub struct SigfoxReceiver {
    pub rate: u32,
    pub held: usize,
    pub base: u64,
    pub unscanned: usize,
    pub starts: Starts,
    pub waiting: Waiting,
}

// What is lent to a call: samples of the stream (the receiver's buffer), events, and scratch.
#[derive(Drop)]
pub struct Lent<'a, 'b, 'c, 'd> {
    pub samples: &'a mut [f32],
    pub events: &'b mut [u8],
    pub scratch32: &'c mut [f32],
    pub scratch64: &'d mut [f64],
}

// What the checks of a call look at: the samples, and how many places the rest of what is lent has. They take it by shared reference, and need no more.
#[derive(Clone, Copy)]
pub struct View<'a> {
    pub samples: &'a [f32],
    pub events: usize,
    pub scratch32: usize,
    pub scratch64: usize,
}

// Lengths of what is lent.
#[derive(Clone, Copy)]
pub struct Lengths {
    pub samples: usize,
    pub events: usize,
    pub scratch32: usize,
    pub scratch64: usize,
}

impl Lent<'_, '_, '_, '_> {
    pub fn view(&self) -> View<'_>
        ensures { Views result (memory self.now) }
    {
        View {
            samples: self.samples,
            events: self.events.len(),
            scratch32: self.scratch32.len(),
            scratch64: self.scratch64.len(),
        }
    }
}

impl View<'_> {
    pub fn lengths(self) -> Lengths
        ensures { lent_of result ≡ viewed self.entry }
    {
        Lengths {
            samples: self.samples.len(),
            events: self.events,
            scratch32: self.scratch32,
            scratch64: self.scratch64,
        }
    }
}

impl SigfoxReceiver {
    // A fresh receiver of any rate.
    pub fn new(rate: u32) -> Self
        ensures { result ≡ new_state rate }
    {
        let starts = receiver_starts::none();
        let waiting = receiver_waiting::none();
        Self {
            rate,
            held: 0,
            base: 0,
            unscanned: 0,
            starts,
            waiting,
        }
    }

    // Samples in dBm; what is complete is written to the events, and how many records that is answered (receiver.rs `push`).
    pub fn push(&mut self, dbm: &[f32], given: &Given, lent: &mut Lent) -> Result<usize, Refusal>
        ensures same { Same lent.old lent.new }
        ensures answered { Answered self.old (push dbm.now) (schedule given.now) (memory lent.old) (memory lent.new) (received result self.new) }
    {
        lengths_known(self);
        check_push(self, dbm, lent.view())?;
        given.check()?;
        let samples = &mut *lent.samples;
        let events = &mut *lent.events;
        let scratch64 = &mut *lent.scratch64;
        Ok(run::hear(self, dbm, given, samples, events, scratch64))
    }

    // Raw samples, -2 times dBm each (receiver.rs `push_raw`).
    pub fn push_raw(&mut self, raw: &[u8], given: &Given, lent: &mut Lent) -> Result<usize, Refusal>
        ensures same { Same lent.old lent.new }
        ensures answered { Answered self.old (push_raw raw.now) (schedule given.now) (memory lent.old) (memory lent.new) (received result self.new) }
    {
        lengths_known(self);
        check_push_raw(self, raw, lent.view())?;
        given.check()?;
        let samples = &mut *lent.samples;
        let events = &mut *lent.events;
        let scratch32 = &mut *lent.scratch32;
        let scratch64 = &mut *lent.scratch64;
        receiver_samples::dbm_of_all(raw, scratch32);
        let dbm: &[f32] = scratch32;
        let dbm = &dbm[..raw.len()];
        Ok(run::hear(self, dbm, given, samples, events, scratch64))
    }

    // Whether a push of these raw samples is accepted and only adds them to those held: then `add_raw` does it.
    pub fn adds_raw(&self, raw: &[u8], given: &Given, lent: View) -> bool
        ensures { result ≡ true → (m : Memory) → Views lent.entry m → OnlyAdds self.now (push_raw raw.now) (schedule given.now) (length raw.now) m }
    {
        let n = raw.len();
        if !quiet(self, lent, n) {
            return false;
        }
        if given.check().is_err() {
            return false;
        }
        let held = self.held + n;
        let time = receiver_scan::seconds(self.rate, self.base + (held as u64));
        let c = receiver_waiting::check(&self.waiting, time);
        c.ok & (!c.nan & !c.expires)
    }

    // `push_raw` where `adds_raw` says so.
    pub fn add_raw(&mut self, raw: &[u8], given: &Given, lent: &mut Lent)
        requires { OnlyAdds self.old (push_raw raw.now) (schedule given.now) (length raw.now) (memory lent.old) }
        ensures same { Same lent.old lent.new }
        ensures answered { Answered self.old (push_raw raw.now) (schedule given.now) (memory lent.old) (memory lent.new) (received (Ok 0) self.new) }
    {
        lengths_known(self);
        let samples = &mut *lent.samples;
        let scratch32 = &mut *lent.scratch32;
        receiver_samples::dbm_of_all(raw, scratch32);
        let dbm: &[f32] = scratch32;
        run::add(self, &dbm[..raw.len()], samples);
    }

    // What has been heard so far is decoded and every open message written (receiver.rs `flush`).
    pub fn flush(&mut self, given: &Given, lent: &mut Lent) -> Result<usize, Refusal>
        ensures same { Same lent.old lent.new }
        ensures answered { Answered self.old flush (schedule given.now) (memory lent.old) (memory lent.new) (received result self.new) }
    {
        lengths_known(self);
        check_flush(self, lent.view())?;
        given.check()?;
        let samples = &mut *lent.samples;
        let events = &mut *lent.events;
        let scratch64 = &mut *lent.scratch64;
        Ok(run::hear_all(self, samples, given, events, scratch64))
    }
}

// The arrays' lengths are their types', which no reader of a count behind a reference knows.
fn lengths_known(s: &SigfoxReceiver)
    ensures { (length s.now.starts.at ≡ most_starts) × (length s.now.waiting.messages ≡ open_places) }
{
    let _starts: &[i32] = &s.starts.at;
    let _messages: &[Pending] = &s.waiting.messages;
}

// Whether a lent slice is short.
pub fn too_short(rate: u32, lent: Lengths) -> bool
    ensures { result ≡ too_short rate (lent_of lent) }
{
    let capacity = receiver_samples::capacity(rate);
    let samples = lent.samples < capacity;
    let events = lent.events < limits::EVENTS;
    let scratch32 = lent.scratch32 < capacity;
    let scratch64 = lent.scratch64 < limits::SCRATCH64;
    samples | (events | (scratch32 | scratch64))
}

// Whether the numbers of a state are in order.
fn numbers_ok(s: &SigfoxReceiver) -> bool
    ensures { result ≡ numbers_ok s.now.rate s.now.held s.now.base s.now.unscanned }
{
    if receiver_samples::capacity(s.rate) < s.held {
        return false;
    }
    let stream = s.base <= limits::LONGEST_STREAM - (s.held as u64);
    let scanned = (s.unscanned as u64) < ((s.rate as u64) + 1) / 2;
    stream & scanned
}

// Whether the numbers, the samples and the starts of a state are in order.
fn samples_in_order(s: &SigfoxReceiver, samples: &[f32]) -> bool
    requires { capacity s.now.rate ≤ length samples.now }
    ensures { result ≡ samples_ok s.now.rate s.now.held s.now.base s.now.unscanned s.now.starts samples.now }
{
    if !numbers_ok(s) {
        return false;
    }
    let valid = limits::all_dbm(&samples[..s.held]);
    let apart = receiver_starts::in_order(&s.starts, s.rate, s.base, s.held);
    valid & apart
}

// ---- causes

// Causes 1 to 3 of a call that hands in n samples.
pub fn check_given(rate: u32, lent: Lengths, n: usize) -> Result<(), Refusal>
    ensures { cause_of result ≡ given_cause rate (lent_of lent) n }
{
    if !limits::rate_ok(rate) {
        return Err(Refusal::BadRate);
    }
    if too_short(rate, lent) {
        return Err(Refusal::Short);
    }
    if receiver_samples::capacity(rate) < n {
        return Err(Refusal::Long);
    }
    Ok(())
}

// Cause 5 or 9 of the messages.
fn check_messages(w: &Waiting) -> Result<(), Refusal>
    ensures { cause_of result ≡ messages_cause w.now }
{
    let c = receiver_waiting::check(w, 0.0);
    if !c.ok {
        return Err(Refusal::BadState); // over 40 too
    }
    if c.nan {
        return Err(Refusal::BadNumber); // before 11
    }
    Ok(())
}

// Cause 7 of a push of n samples.
pub fn check_stream(base: u64, held: usize, n: usize) -> Result<(), Refusal>
    requires { base + held + n < 2 ^ 64 }
    ensures { cause_of result ≡ cond (ltb longest_stream (base + held + n)) stream 0 }
{
    if limits::LONGEST_STREAM < base + (held as u64) + (n as u64) {
        return Err(Refusal::Stream);
    }
    Ok(())
}

// Causes 5 to 9 of a push of n samples.
fn check_state(s: &SigfoxReceiver, samples: &[f32], n: usize) -> Result<(), Refusal>
    requires { (capacity s.now.rate ≤ length samples.now) × (n ≤ capacity s.now.rate) }
    ensures { cause_of result ≡ state_cause s.now samples.now n }
{
    if !samples_in_order(s, samples) {
        return Err(Refusal::BadState);
    }
    let c = receiver_waiting::check(&s.waiting, 0.0);
    if !c.ok {
        return Err(Refusal::BadState); // over 40 waiting too
    }
    check_stream(s.base, s.held, n)?;
    let nan = c.nan;
    if nan {
        return Err(Refusal::BadNumber); // 11 comes after it
    }
    Ok(())
}

// Whether no cause but the messages' applies to a push of n samples, there is room for them without a drop, and no scan is due.
fn quiet(s: &SigfoxReceiver, lent: View, n: usize) -> bool
    ensures { result ≡ true → Quiet s.now.rate s.now.held s.now.base s.now.unscanned s.now.starts lent.entry.samples.now (viewed lent.entry) n }
{
    if check_given(s.rate, lent.lengths(), n).is_err() {
        return false;
    }
    if !samples_in_order(s, lent.samples) {
        return false;
    }
    if check_stream(s.base, s.held, n).is_err() {
        return false;
    }
    run::fits(s.rate, s.held, s.unscanned, n)
}

// The cause of a push, the first by number.
pub fn check_push(s: &SigfoxReceiver, dbm: &[f32], lent: View) -> Result<(), Refusal>
    ensures { cause_of result ≡ cause s.now.rate (viewed lent.entry) (counts_of s.now) (ledger_of s.now lent.entry.samples.now) (push dbm.now) }
{
    check_given(s.rate, lent.lengths(), dbm.len())?;
    if !limits::all_dbm(dbm) {
        return Err(Refusal::BadSample);
    }
    check_state(s, lent.samples, dbm.len())
}

// The cause of a push of raw bytes: all of them are valid samples.
pub fn check_push_raw(s: &SigfoxReceiver, raw: &[u8], lent: View) -> Result<(), Refusal>
    ensures { cause_of result ≡ cause s.now.rate (viewed lent.entry) (counts_of s.now) (ledger_of s.now lent.entry.samples.now) (push_raw raw.now) }
{
    check_given(s.rate, lent.lengths(), raw.len())?;
    check_state(s, lent.samples, raw.len())
}

// The cause of a flush.
pub fn check_flush(s: &SigfoxReceiver, lent: View) -> Result<(), Refusal>
    ensures { cause_of result ≡ cause s.now.rate (viewed lent.entry) (counts_of s.now) (ledger_of s.now lent.entry.samples.now) flush }
{
    check_given(s.rate, lent.lengths(), 0)?;
    if !samples_in_order(s, lent.samples) {
        return Err(Refusal::BadState);
    }
    check_messages(&s.waiting)
}
