// Nearest messages of grips, and messages on air in a lent list: a line for the answer, and one for what was kept of the list (docs/REPLAY.md, `grip`).
#![tactic(auto)]

use replay::Unanswered;

// The longest list that is lent.
const MOST_PLACES: usize = 1000;

fn nearest(rt: &(impl Input + Print)) -> Result<(), Unanswered> {
    let mut head = [0u8; 16];
    replay::read_part(rt, &mut head)?;
    let mut records = [0u8; 120000];
    let records = replay::read_bytes(rt, &mut records)?;
    let time = endian::get::<f64>(&head, 0);
    let within = endian::get::<f64>(&head, 8);
    match grip::nearest_message(records, time, within)? {
        None => replay::print_none(rt),
        Some(n) => {
            replay::print(rt, b"N ");
            replay::print_number(rt, n);
            replay::print_end(rt);
        }
    }
    Ok(())
}

// Numbers in a line, `none` where there are none.
fn print_numbers(rt: &impl Print, numbers: &[u32]) {
    if numbers.is_empty() {
        replay::print_none(rt);
        return;
    }
    replay::print(rt, b"A");
    for number in numbers {
        replay::print(rt, b" ");
        replay::print_number(rt, *number);
    }
    replay::print_end(rt);
}

// The call on a list.
fn hear_into(rt: &impl Print, records: &[u8], instant: f64, numbers: &mut [u32], fill: u32) {
    match grip::on_air(records, instant, numbers) {
        Err(refusal) => {
            replay::print_refusal(rt, refusal);
            replay::print_kept(rt, numbers, fill);
        }
        Ok(n) => {
            let (heard, rest) = numbers.split_at(n.min(numbers.len()));
            print_numbers(rt, heard);
            replay::print_kept(rt, rest, fill);
        }
    }
}

fn on_air(rt: &(impl Input + Print)) -> Result<(), Unanswered> {
    let mut head = [0u8; 14];
    replay::read_part(rt, &mut head)?;
    let mut records = [0u8; 120000];
    let records = replay::read_bytes(rt, &mut records)?;
    let instant = endian::get::<f64>(&head, 0);
    let fill = endian::get::<u32>(&head, 10);
    let mut numbers = [fill; 1000];
    let places = usize::from(endian::get::<u16>(&head, 8)).min(MOST_PLACES);
    hear_into(rt, records, instant, &mut numbers[..places], fill);
    Ok(())
}

fn case(rt: &(impl Input + Print), kind: u8) -> Result<(), Unanswered> {
    match kind {
        0 => nearest(rt),
        1 => on_air(rt),
        _ => Err(Unanswered::Short),
    }
}

fn main(rt: HostRuntime) {
    replay::run(&rt, |kind: [u8; 1]| case(&rt, kind[0]));
}
