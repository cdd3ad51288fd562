// The fleet report (02, request 09): for each device that has a message nine numbers, over a list of event records.
#![tactic(auto)]

pub mod rows; // a device's row
pub mod table; // the rows of the devices met so far

ghost use Rattle.std.specs.Prelude.{◌≡◌, ◌+◌, ◌*◌, ◌≤◌, true, ◌&&◌, [], length, replicate};
ghost use Rattle.std.proofs.lemmas.List.Edits.{sets};
ghost use Rattle.limits.specs.Answer.{said, answer, number, leaves};
ghost use Rattle.event_list.specs.Events.{wholes, most_records, list_ok};
ghost use Rattle.fleet_sheet.specs.Fleet.{devices_of};
ghost use Rattle.fleet_sheet.specs.Report.{nine, sheet, sheet_places, fleet_messages, fleet_cause};
ghost use Rattle.fleet_sheet.specs.Table.{no_entry, rows_most, devices_in, rows_in, nines};
ghost use Rattle.fleet_sheet.specs.declared.Tally.{Tally};
ghost use Rattle.fleet_sheet.specs.Tallies.{Held, Tallied, Adds, Reported};

use crate::rows::Row;
use crate::table::{DeviceRow, taken};
use limits::Refusal;
use record::read::EventRecord;

// The most devices of a report.
pub const MOST_DEVICES: usize = 256;

// Numbers of a device in the result list, and its places.
pub const NUMBERS: usize = 9;

pub const SHEET: usize = 2304;

// What was read: how many records, whether refusal 12 does not apply to them, and how many devices have a row, one more than the table holds where there are more.
#[derive(Clone, Copy)]
pub struct Tally {
    pub records: usize,
    pub ok: bool,
    pub devices: usize,
}

// Nothing is read.
pub fn no_records() -> Tally
    ensures { (result.«records» ≡ 0) × (result.ok ≡ true) × (result.devices ≡ 0) }
{
    Tally {
        records: 0,
        ok: true,
        devices: 0,
    }
}

// A table without rows.
pub fn no_rows() -> [DeviceRow; 256]
    ensures { (result ≡ replicate rows_most no_entry) × ((t : Tally) → t.devices ≡ 0 → Held t result []) }
{
    let row = Row {
        messages: 0,
        one: 0,
        two: 0,
        three: 0,
        lowest: 0,
        highest: 0,
        halves: 0,
    };
    [DeviceRow { device: 0, row }; 256]
}

// More records are read into the rows, in one pass; every record is tested, also where there are too many devices.
pub fn read_records(
    t: Tally,
    records: &[u8],
    table: &mut [DeviceRow; 256],
    hints: &mut [u8; 4096],
) -> Tally
    requires { (t.«records» + wholes records.now ≤ most_records) × Tallied t table.old }
    ensures { (result.«records» ≡ t.«records» + wholes records.now) × (result.ok ≡ t.ok && list_ok records.now)
        × Adds records.now t table.old result table.new }
{
    let whole = records.len() % limits::RECORD == 0;
    let mut ok = t.ok & whole;
    let mut n = t.devices;
    for r in records.chunks_exact(limits::RECORD) {
        let event = EventRecord::new(r);
        ok &= event_list::record_ok(event);
        if n <= MOST_DEVICES {
            n = taken(table, hints, n, event);
        }
    }
    Tally {
        records: t.records + records.len() / limits::RECORD,
        ok,
        devices: n,
    }
}

// The nine numbers of a device.
fn put_nine(rows: &mut [i64], at: usize, device: u32, row: Row)
    requires { at + 9 ≤ length rows.old }
    ensures { rows.new ≡ sets rows.old at (nine device row) }
{
    rows[at] = device as i64;
    rows[at + 1] = row.messages;
    rows[at + 2] = row.one;
    rows[at + 3] = row.two;
    rows[at + 4] = row.three;
    rows[at + 5] = row.lowest;
    rows[at + 6] = row.highest;
    rows[at + 7] = row.halves;
    rows[at + 8] = row.messages;
}

// The rows of a table.
fn put_sheet(table: &[DeviceRow], rows: &mut [i64])
    requires { 9 * length table.now ≤ length rows.old }
    ensures { rows.new ≡ sets rows.old 0 (nines (length table.now) (devices_in table.now) (rows_in table.now)) }
{
    for (p, entry) in table.iter().enumerate() {
        put_nine(rows, NUMBERS * p, entry.device, entry.row);
    }
}

// How many rows of nine numbers are written: the report of what was read, or refusal 12 or 13, which changes nothing.
pub fn report(t: Tally, table: &[DeviceRow; 256], rows: &mut [i64]) -> Result<usize, Refusal>
    requires { (sheet_places ≤ length rows.old) × Tallied t table.now }
    ensures { Reported t table.now result rows.old rows.new }
{
    if !t.ok {
        return Err(Refusal::BadRecords);
    }
    let n = t.devices;
    if MOST_DEVICES < n {
        return Err(Refusal::ManyDevices);
    }
    put_sheet(&table[..n], rows);
    Ok(n)
}

// How many rows of nine numbers are written: the report of a list of event records, or a refusal, which changes nothing.
pub fn fleet_report(records: &[u8], rows: &mut [i64]) -> Result<usize, Refusal>
    ensures { (said result ≡ answer (fleet_cause records.now (length rows.old)) (length (devices_of (fleet_messages records.now))))
        × (rows.new ≡ leaves (number (said result)) (sets rows.old 0 (sheet (fleet_messages records.now))) rows.old) }
{
    if rows.len() < SHEET {
        return Err(Refusal::Short);
    }
    if limits::MOST_RECORD_BYTES < records.len() {
        return Err(Refusal::Long);
    }
    let mut table = no_rows();
    let mut hints = [0u8; 4096];
    let t = read_records(no_records(), records, &mut table, &mut hints);
    report(t, &table, rows)
}
