// The fleet report of the event records on standard input, a line a device (README.md).
#![tactic(auto)]

ghost use Rattle.fleet_sheet.specs.Tallies.{Tallied};

use fleet_sheet::table::DeviceRow;
use fleet_sheet::{NUMBERS, Tally};
use limits::Refusal;

// 8 hexadecimal digits; a device's number is not below 0.
fn print_device(rt: &impl Print, z: i64) {
    if let Ok(device) = u64::try_from(z) {
        replay::print_hex(rt, device, 8);
    }
}

// A row: the device in 8 hexadecimal digits, then its eight numbers.
fn print_row(rt: &impl Print, row: &[i64]) {
    let Some((device, numbers)) = row.split_first() else {
        return;
    };
    print_device(rt, *device);
    for x in numbers {
        replay::print(rt, b" ");
        replay::print_number(rt, *x);
    }
    replay::print_end(rt);
}

// The lines of the report of what was read, or that of its refusal.
fn finish(rt: &impl Print, t: Tally, table: &[DeviceRow; 256])
    requires { Tallied t table.now }
{
    let mut rows = [0i64; 2304];
    match fleet_sheet::report(t, table, &mut rows) {
        Ok(n) => {
            for row in rows.chunks_exact(NUMBERS).take(n) {
                print_row(rt, row);
            }
        }
        Err(refusal) => {
            replay::print_refusal(rt, refusal);
        }
    }
}

fn print_failure(rt: &impl Eprint) {
    let _ = rt.eprintln("fleet: standard input can't be read");
}

// The list is read in parts of 512 records, so that it need not stand in memory.
fn main(rt: HostRuntime) {
    let mut part = [0u8; 61440];
    let mut table = fleet_sheet::no_rows();
    let mut hints = [0u8; 4096];
    let mut t = fleet_sheet::no_records();
    let mut bytes: usize = 0;
    while bytes <= limits::MOST_RECORD_BYTES {
        let fetched = reading::fill(&mut rt.reader(), &mut part);
        let Ok(n) = fetched else {
            print_failure(&rt);
            return;
        };
        if n == 0 {
            finish(&rt, t, &table);
            return;
        }
        bytes += n;
        if limits::MOST_RECORD_BYTES < bytes {
            replay::print_refusal(&rt, Refusal::Long);
            return;
        }
        t = fleet_sheet::read_records(t, &part[..n], &mut table, &mut hints);
    }
}
