// Charges of a plan for a month, a line a case (docs/REPLAY.md, `charges`).
#![tactic(auto)]

ghost use Rattle.std.specs.Prelude.{◌≤◌};

use replay::Unanswered;
use subscription::{Plan, Step};

// Bytes of a step: its upper count and its price.
const STEP_BYTES: usize = 8;

// The plan of a case: of over eight steps the first eight, as the call refuses their number.
fn plan_of(head: &[u8; 9], count: usize, bytes: &[u8; 2040]) -> Plan {
    let mut steps = [Step { upper: 0, price: 0 }; 8];
    for j in 0..subscription::MOST_STEPS {
        steps[j] = Step {
            upper: endian::get::<u32>(bytes, STEP_BYTES * j),
            price: endian::get::<u32>(bytes, STEP_BYTES * j + 4),
        };
    }
    Plan {
        fee: endian::get::<u32>(head, 0),
        allowance: endian::get::<u32>(head, 4),
        count,
        steps,
    }
}

// The month's start and the records.
fn charge_case(rt: &(impl Input + Print), plan: Plan) -> Result<(), Unanswered> {
    let mut month = [0u8; 8];
    replay::read_part(rt, &mut month)?;
    let mut records = [0u8; 120000];
    let records = replay::read_bytes(rt, &mut records)?;
    let start = replay::signed64(endian::get::<u64>(&month, 0));
    let cents = subscription::charges(records, plan, start)?;
    replay::print(rt, b"P ");
    replay::print_number(rt, cents);
    replay::print_end(rt);
    Ok(())
}

fn case(rt: &(impl Input + Print), head: &[u8; 9]) -> Result<(), Unanswered> {
    let mut steps = [0u8; 2040];
    let count = usize::from(head[8]);
    replay::read_n_bytes(rt, STEP_BYTES * count, &mut steps)?;
    charge_case(rt, plan_of(head, count, &steps))
}

fn main(rt: HostRuntime) {
    replay::run(&rt, |head: [u8; 9]| case(&rt, &head));
}
