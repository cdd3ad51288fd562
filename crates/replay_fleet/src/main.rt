// Fleet reports into a lent list, a line for the answer, one a row, and one for what was kept (docs/REPLAY.md, `fleet`).
#![tactic(auto)]

use fleet_sheet::NUMBERS;
use replay::Unanswered;

// The longest list that is lent.
const MOST_PLACES: usize = 2400;

fn print_row(rt: &impl Print, row: &[i64]) {
    for (j, x) in row.iter().enumerate() {
        if 0 < j {
            replay::print(rt, b" ");
        }
        replay::print_number(rt, *x);
    }
    replay::print_end(rt);
}

// The call on a list.
fn report_into(rt: &impl Print, records: &[u8], rows: &mut [i64], fill: i64) {
    match fleet_sheet::fleet_report(records, rows) {
        Err(refusal) => {
            replay::print_refusal(rt, refusal);
            replay::print_kept(rt, rows, fill);
        }
        Ok(n) => {
            replay::print(rt, b"F ");
            replay::print_number(rt, n);
            replay::print_end(rt);
            let (sheet, rest) = rows.split_at(NUMBERS * n.min(rows.len() / NUMBERS));
            for row in sheet.chunks_exact(NUMBERS) {
                print_row(rt, row);
            }
            replay::print_kept(rt, rest, fill);
        }
    }
}

fn case(rt: &(impl Input + Print), head: &[u8; 10]) -> Result<(), Unanswered> {
    let mut records = [0u8; 120000];
    let records = replay::read_bytes(rt, &mut records)?;
    let fill = replay::signed64(endian::get::<u64>(head, 2));
    let mut rows = [fill; 2400];
    let places = usize::from(endian::get::<u16>(head, 0)).min(MOST_PLACES);
    let (lent, _) = rows.split_at_mut(places);
    report_into(rt, records, lent, fill);
    Ok(())
}

fn main(rt: HostRuntime) {
    replay::run(&rt, |head: [u8; 10]| case(&rt, &head));
}
