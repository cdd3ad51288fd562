// Charges by C's convention, for the host's benchmark.
#![tactic(auto)]

ghost use Rattle.std.specs.Prelude.{◌≡◌, nat_abs};
ghost use Rattle.limits.specs.Answer.{answer};
ghost use Rattle.event_list.specs.Events.{events_of, messages_of};
ghost use Rattle.subscription.specs.Charges.{cents_of, on_day, charge_cause};
ghost use Rattle.bench_charges.specs.Cents.{bench_plan, cents_in};

use subscription::{Plan, Step};

// The cents that subscription::charges answers for a plan of three steps, 0 where it refuses.
#[unsafe(no_mangle)]
pub extern "C" fn bench_charges(records: &[u8], month_start: i64) -> u64
    ensures { result ≡ cents_in (answer (charge_cause records.now bench_plan month_start) (cents_of bench_plan (on_day (nat_abs month_start) (messages_of (events_of records.now))))) }
{
    let mut steps = [Step { upper: 0, price: 0 }; 8];
    steps[0] = Step {
        upper: 10000,
        price: 700,
    };
    steps[1] = Step {
        upper: 20000,
        price: 400,
    };
    steps[2] = Step {
        upper: 0,
        price: 250,
    };
    let plan = Plan {
        fee: 500,
        allowance: 1000,
        count: 3,
        steps,
    };
    subscription::charges(records, plan, month_start).unwrap_or(0)
}
