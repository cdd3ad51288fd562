// A plan: whether it is one, and what it takes for a day and for a month.
ghost use Rattle.std.specs.Prelude.{◌≡◌, true, suc, ◌-◌, ◌*◌, ◌≤◌, ◌<◌, leb, ltb, get_or};
ghost use Rattle.subscription.specs.Charges.{days, most_steps, dearest, upper_of, price_of, all_to, day_cost, plan_ok, cost_of, cents_of};
ghost use Rattle.event_list.specs.Events.{most_records};
ghost use Rattle.subscription.specs.Counting.{Few, reached};

use crate::{DAYS, MOST_STEPS, Plan, Step};

// Cents of a fee, thousandths of a cent of a price.
const DEAREST: u32 = 1_000_000;

// Thousandths of a cent.
const CENT: u64 = 1000;

// Whether no price of the first n steps is too high.
fn cheap(plan: Plan, n: usize) -> bool
    requires { n ≤ most_steps }
    ensures { result ≡ all_to (λ j. leb (price_of plan j) dearest) n }
{
    let mut ok = true;
    for j in 0..n {
        ok &= plan.steps[j].price <= DEAREST;
    }
    ok
}

// Whether the first n upper counts lie below the next one each.
fn rising(plan: Plan, n: usize) -> bool
    requires { n < most_steps }
    ensures { result ≡ all_to (λ j. ltb (upper_of plan j) (upper_of plan (suc j))) n }
{
    let mut ok = true;
    for j in 0..n {
        ok &= plan.steps[j].upper < plan.steps[j + 1].upper;
    }
    ok
}

pub fn plan_ok(plan: Plan) -> bool
    ensures { result ≡ plan_ok plan }
{
    let steps = plan.count;
    if steps < 1 || MOST_STEPS < steps {
        return false;
    }
    // all upper counts but the last are read
    let neighbours = steps.saturating_sub(2);
    let rises = rising(plan, neighbours);
    let low = cheap(plan, steps);
    let fee = plan.fee <= DEAREST;
    fee & (low & rises)
}

// How many of x extra messages the steps up to step j take.
fn reach(plan: Plan, x: u32, j: usize) -> u32
    requires { j < most_steps }
    ensures { result ≡ reached plan x (suc j) }
{
    if j + 1 == plan.count {
        return x;
    }
    x.min(plan.steps[j].upper)
}

// What n extra messages of a step take.
fn step_cost(n: u32, step: Step) -> u64
    ensures { result ≡ n * step.price }
{
    u64::from(n) * u64::from(step.price)
}

// A plan that is one.
#[derive(Clone, Copy)]
pub struct Accepted {
    pub plan: Plan,
    pub ghost ok: { plan_ok plan ≡ true },
}

impl Accepted {
    // Thousandths of a cent for a day with n messages: each step takes those between the upper count before it and its own.
    fn day_cost(self, n: u32) -> u64
        requires { n ≤ most_records }
        ensures { (result ≡ day_cost self.plan n) × (result ≤ most_records * dearest) }
    {
        let plan = self.plan;
        let extra = n.saturating_sub(plan.allowance);
        let mut passed: u32 = 0;
        let mut sum: u64 = 0;
        for j in 0..plan.count {
            let end = reach(plan, extra, j);
            sum += step_cost(end - passed, plan.steps[j]);
            passed = end;
        }
        sum
    }

    // Thousandths of a cent for the days with these messages.
    fn month_cost(self, counts: &[u32]) -> u64
        requires { Few counts.now most_records }
        ensures { (result ≡ cost_of self.plan (λ k. get_or counts.now k 0)) × (result ≤ days * (most_records * dearest)) }
    {
        let mut sum: u64 = 0;
        for n in counts {
            sum += self.day_cost(*n);
        }
        sum
    }

    // The fee, and the days' extras rounded up to a cent once.
    pub fn cents(self, counts: &[u32]) -> u64
        requires { Few counts.now most_records }
        ensures { result ≡ cents_of self.plan (λ k. get_or counts.now k 0) }
    {
        let thousandths = self.month_cost(counts);
        u64::from(self.plan.fee) + (thousandths + (CENT - 1)) / CENT
    }
}
