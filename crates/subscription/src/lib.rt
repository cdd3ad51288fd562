// Subscription charges (02, request 13): what a plan takes for a month of messages, in cents, over a list of event records.
#![tactic(auto)]

mod prices; // a plan, and what it takes
mod days; // the days of a month

ghost use Rattle.std.specs.Prelude.{◌≡◌, true, ◌&&◌, ◌+◌, ◌≤◌, get_or, nat_abs};
ghost use Rattle.limits.specs.Answer.{said, answer};
ghost use Rattle.event_list.specs.Events.{wholes, most_records, events_of, messages_of, list_ok};
ghost use Rattle.subscription.specs.Charges.{latest_start, all_in_month, plan_ok, start_ok, cents_of, on_day, month_cause, charge_cause};
ghost use Rattle.subscription.specs.Counting.{second_of, tallied, Few};

use crate::prices::Accepted;
use limits::Refusal;
use record::read::EventRecord;

// The most steps of a plan.
pub const MOST_STEPS: usize = 8;

// The days of a month.
pub const DAYS: usize = 31;

// The latest start of a month, in seconds.
const LATEST_START: i64 = 10_000_000_000;

// A step of extra messages: those up to an upper count, at a price in thousandths of a cent.
#[derive(Clone, Copy)]
pub struct Step {
    pub upper: u32,
    pub price: u32,
}

// A fee in cents, an allowance of messages a day, and how many steps there are, with the first eight. The last step's upper count is not read.
#[derive(Clone, Copy)]
pub struct Plan {
    pub fee: u32,
    pub allowance: u32,
    pub count: usize,
    pub steps: [Step; 8],
}

// What was read: how many records, whether refusal 12 does not apply to them, and whether every message lies in the month.
#[derive(Clone, Copy)]
pub struct Tally {
    pub records: usize,
    pub ok: bool,
    pub within: bool,
}

// Whether a month may start there.
fn start_ok(z: i64) -> bool
    ensures { result ≡ start_ok z }
{
    0 <= z && z <= LATEST_START
}

// The second at which the days begin; 0 where the month's start is refused, so that the records are tested still.
pub fn second_of(z: i64) -> usize
    ensures { (result ≡ second_of z) × (result ≤ latest_start) }
{
    if start_ok(z) {
        return z as usize;
    }
    0
}

// Nothing is read.
pub fn no_records() -> Tally
    ensures { (result.«records» ≡ 0) × (result.ok ≡ true) × (result.within ≡ true) }
{
    Tally {
        records: 0,
        ok: true,
        within: true,
    }
}

// More records are read, in one pass, those behind a bad one too: each is tested, and a message in the month is counted on its day.
pub fn read_records(t: Tally, records: &[u8], start: usize, counts: &mut [u32]) -> Tally
    requires { (t.«records» + wholes records.now ≤ most_records) × (start ≤ latest_start) × Few counts.old t.«records» }
    ensures { (result.«records» ≡ t.«records» + wholes records.now) × (result.ok ≡ t.ok && list_ok records.now)
        × (result.within ≡ t.within && all_in_month start (messages_of (events_of records.now)))
        × (counts.new ≡ tallied start counts.old (events_of records.now)) × Few counts.new result.«records» }
{
    let whole = records.len() % limits::RECORD == 0;
    let mut ok = t.ok & whole;
    let mut within = t.within;
    for r in records.chunks_exact(limits::RECORD) {
        let event = EventRecord::new(r);
        let right = event_list::record_ok(event);
        let inside = days::counted(event, start, counts);
        ok &= right;
        within &= inside;
    }
    let records = t.records + records.len() / limits::RECORD;
    Tally {
        records,
        ok,
        within,
    }
}

// The cents of what was read, or refusal 12, 15 or 16.
pub fn total(t: Tally, counts: &[u32], plan: Plan, month_start: i64) -> Result<u64, Refusal>
    requires { Few counts.now most_records }
    ensures { said result ≡ answer (month_cause t.ok (plan_ok plan && start_ok month_start) t.within) (cents_of plan (λ k. get_or counts.now k 0)) }
{
    if !t.ok {
        return Err(Refusal::BadRecords);
    }
    if !prices::plan_ok(plan) || !start_ok(month_start) {
        return Err(Refusal::BadPlan);
    }
    if !t.within {
        return Err(Refusal::OutsideMonth);
    }
    Ok(Accepted { plan }.cents(counts))
}

// The cents that a plan takes for the messages of a list in the month that starts at a second of the stream, or a refusal.
pub fn charges(records: &[u8], plan: Plan, month_start: i64) -> Result<u64, Refusal>
    ensures { said result ≡ answer (charge_cause records.now plan month_start) (cents_of plan (on_day (nat_abs month_start) (messages_of (events_of records.now)))) }
{
    if limits::MOST_RECORD_BYTES < records.len() {
        return Err(Refusal::Long);
    }
    let mut counts = [0u32; DAYS];
    let t = read_records(no_records(), records, second_of(month_start), &mut counts);
    total(t, &counts, plan, month_start)
}
