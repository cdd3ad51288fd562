// What a plan takes for the month of the event records on standard input; plan and month stand in the arguments (README.md).
#![tactic(auto)]

mod words; // a number in an argument

use limits::Refusal;
use std::rt::Env;
use subscription::{MOST_STEPS, Plan, Step};

// Arguments before those of the steps: the program's name, fee, allowance and month's start.
const FIRST_STEP: usize = 4;

// A step's arguments: its upper count and its price.
const STEP_WORDS: usize = 2;

// A 32-bit number in an argument.
fn count_of(text: &[u8]) -> Option<u32> {
    if !words::is_decimal(text) {
        return None;
    }
    u32::try_from(words::number(text)).ok()
}

// A month's start in an argument.
fn start_of(text: &[u8]) -> Option<i64> {
    let (digits, is_negative) = match text.strip_prefix(b"-") {
        Some(rest) => (rest, true),
        None => (text, false),
    };
    if !words::is_decimal(digits) {
        return None;
    }
    let n = words::number(digits) as i64;
    Some(if is_negative { -n } else { n })
}

// What argument i says, or that it is wrong.
fn argument<T, F: Fn(&[u8]) -> Option<T>>(rt: &impl Env, i: usize, parse: F) -> Result<T, usize>
    requires { F.IsAlwaysCallable parse }
{
    let mut text = [0u8; 32];
    let n = command_line::arg(rt, i, &mut text);
    parse(&text[..n]).ok_or(i)
}

// The steps of the arguments, eight of them at most, or which argument is wrong. The upper count of the last one is not read.
fn read_steps(rt: &impl Env, count: usize, steps: &mut [Step; 8]) -> Result<(), usize> {
    for j in 0..count.min(MOST_STEPS) {
        let at = FIRST_STEP + STEP_WORDS * j;
        if j + 1 < count {
            steps[j].upper = argument(rt, at, count_of)?;
        }
        steps[j].price = argument(rt, at + 1, count_of)?;
    }
    Ok(())
}

// The plan and the month's start of the arguments, or which argument is wrong.
fn read_arguments(rt: &impl Env, count: usize) -> Result<(Plan, i64), usize> {
    let fee = argument(rt, 1, count_of)?;
    let allowance = argument(rt, 2, count_of)?;
    let month_start = argument(rt, 3, start_of)?;
    let mut steps = [Step { upper: 0, price: 0 }; 8];
    read_steps(rt, count, &mut steps)?;
    let plan = Plan {
        fee,
        allowance,
        count,
        steps,
    };
    Ok((plan, month_start))
}

fn complain(rt: &impl Eprint, text: &str) {
    let _ = rt.eprint(text);
}

fn print_usage(rt: &impl Eprint) {
    complain(
        rt,
        "usage: charges FEE ALLOWANCE MONTH-START [UPPER-COUNT PRICE].. < EVENT-RECORDS\n",
    );
}

// Nothing of standard input is read where an argument is wrong.
fn print_wrong(rt: &impl Eprint, i: usize) {
    let _ = eprintln!(rt; "charges: argument {i} is no whole number that it can be");
    print_usage(rt);
}

fn print_charge(rt: &impl Print, charge: Result<u64, Refusal>) {
    match charge {
        Ok(cents) => {
            replay::print_number(rt, cents);
            replay::print_end(rt);
        }
        Err(refusal) => {
            replay::print_refusal(rt, refusal);
        }
    }
}

// The list is read in parts of 512 records, so that it need not stand in memory.
fn charge_input(rt: &(impl Input + Print + Eprint), plan: Plan, month_start: i64) {
    let start = subscription::second_of(month_start);
    let mut part = [0u8; 61440];
    let mut counts = [0u32; 31];
    let mut t = subscription::no_records();
    let mut bytes: usize = 0;
    while bytes <= limits::MOST_RECORD_BYTES {
        let fetched = reading::fill(&mut rt.reader(), &mut part);
        let Ok(n) = fetched else {
            complain(rt, "charges: standard input can't be read\n");
            return;
        };
        if n == 0 {
            print_charge(rt, subscription::total(t, &counts, plan, month_start));
            return;
        }
        bytes += n;
        if limits::MOST_RECORD_BYTES < bytes {
            replay::print_refusal(rt, Refusal::Long);
            return;
        }
        t = subscription::read_records(t, &part[..n], start, &mut counts);
    }
}

fn main(rt: HostRuntime) {
    let count = command_line::arg_count(&rt);
    if count < FIRST_STEP || count % STEP_WORDS != 0 {
        print_usage(&rt);
        return;
    }
    match read_arguments(&rt, (count - FIRST_STEP) / STEP_WORDS) {
        Ok((plan, month_start)) => charge_input(&rt, plan, month_start),
        Err(i) => print_wrong(&rt, i),
    }
}
