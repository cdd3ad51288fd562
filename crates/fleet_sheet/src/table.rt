// The rows of the devices met so far, in rising device number.
ghost use Rattle.std.specs.Prelude.{◌≡◌, ℕ, ◌<◌, ◌≤◌, length, take};
ghost use Rattle.fleet_sheet.specs.Table.{Small, row_at, place_of, Rising, is_there, devices_in, rows_in, taken_count, taken_ids, taken_rows, rows_most};

use crate::MOST_DEVICES;
use crate::rows::{self, Row};
use record::read::EventRecord;

// A device and its row.
#[derive(Clone, Copy)]
pub struct DeviceRow {
    pub device: u32,
    pub row: Row,
}

// Places of hints: a device's is by the last 12 bits of its number.
const HINTS: usize = 4096;

// How many of the devices are below d; they rise.
fn find(table: &[DeviceRow], d: u32) -> usize
    requires { Rising (devices_in table.now) }
    ensures { (result ≡ place_of d (devices_in table.now)) × (result ≤ length table.now) }
{
    table.partition_point(|entry| entry.device < d)
}

// Whether d stands at place p.
fn is_there(table: &[DeviceRow], p: usize, d: u32) -> bool
    ensures { result ≡ is_there d p (length table.now) (devices_in table.now) }
{
    p < table.len() && table[p].device == d
}

// Where d stands, or belongs: where its hint says, or by search, and then that is its hint. A hint may say anything.
fn place(table: &[DeviceRow], hints: &mut [u8; 4096], d: u32) -> usize
    requires { Rising (devices_in table.now) }
    ensures { (result ≡ place_of d (devices_in table.now)) × (result ≤ length table.now) }
{
    let at = (d as usize) % HINTS;
    let hint = usize::from(hints[at]);
    if is_there(table, hint, d) {
        return hint;
    }
    let p = find(table, d);
    hints[at] = (p % MOST_DEVICES) as u8;
    p
}

// A record is taken into the first n rows: a message joins its device's row or opens one. The answer is their number then, or one more than the table holds.
pub fn taken(
    table: &mut [DeviceRow; 256],
    hints: &mut [u8; 4096],
    n: usize,
    r: EventRecord,
) -> usize
    requires { (n ≤ rows_most) × Rising (take n (devices_in table.old)) × ((p : ℕ) → p < n → Small (row_at (rows_in table.old) p)) }
    ensures { (result ≡ taken_count r.entry.bytes.now n (devices_in table.old))
        × (devices_in table.new ≡ taken_ids r.entry.bytes.now n (devices_in table.old))
        × (rows_in table.new ≡ taken_rows r.entry.bytes.now n (devices_in table.old) (rows_in table.old)) }
{
    if !event_list::is_message(r) {
        return n;
    }
    let device = r.device();
    let p = place(&table[..n], hints, device);
    let m = rows::single(r);
    if is_there(&table[..n], p, device) {
        table[p].row = rows::merge(table[p].row, m);
        return n;
    }
    if MOST_DEVICES <= n {
        return MOST_DEVICES + 1;
    }
    table.copy_within(p..n, p + 1);
    table[p] = DeviceRow { device, row: m };
    n + 1
}
