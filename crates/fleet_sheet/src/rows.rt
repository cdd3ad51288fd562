// A row of the report while the list is read: what is said of one device's messages.
ghost use Rattle.std.specs.Prelude.{◌≡◌, ◌+◌, ◌/◌, ◌%◌, ◌^◌, ◌<◌, ◌+ℤ◌};
ghost use Rattle.std.specs.Int.Signed.{mag};
ghost use Rattle.fleet_sheet.specs.Fleet.{half_decibels};
ghost use Rattle.fleet_sheet.specs.Table.{single, merge, Small};

use record::read::EventRecord;

#[derive(Clone, Copy)]
pub struct Row {
    pub messages: i64,
    pub one: i64,
    pub two: i64,
    pub three: i64,
    pub lowest: i64,
    pub highest: i64,
    pub halves: i64,
}

// RSSI in half decibels, rounded down.
fn half_decibels(x: f32) -> i32
    ensures { result ≡ half_decibels x }
{
    floats::to_i32_saturating(floats::floor64(std::num::f32_to_f64_with_nan(x) * 2.0))
}

// How many repetitions a mask of 1, 2, 4 names.
fn ranks(mask: u8) -> u8
    ensures { result ≡ mask % 2 + mask / 2 % 2 + mask / 4 % 2 }
{
    mask % 2 + mask / 2 % 2 + mask / 4 % 2
}

fn sum(a: i64, b: i64) -> i64
    requires { (mag a < 2 ^ 62) × (mag b < 2 ^ 62) }
    ensures { result ≡ a +ℤ b }
{
    a + b
}

// The row of a single message.
pub fn single(r: EventRecord) -> Row
    ensures { result ≡ single r.entry.bytes.now }
{
    let n = ranks(r.rank());
    let ppm = i64::from(r.ppm());
    let halves = i64::from(half_decibels(r.rssi()));
    Row {
        messages: 1,
        one: i64::from(n == 1),
        two: i64::from(n == 2),
        three: i64::from(n == 3),
        lowest: ppm,
        highest: ppm,
        halves,
    }
}

// Two rows of one device.
pub fn merge(a: Row, b: Row) -> Row
    requires { Small a × Small b }
    ensures { result ≡ merge a b }
{
    Row {
        messages: sum(a.messages, b.messages),
        one: sum(a.one, b.one),
        two: sum(a.two, b.two),
        three: sum(a.three, b.three),
        lowest: a.lowest.min(b.lowest),
        highest: a.highest.max(b.highest),
        halves: sum(a.halves, b.halves),
    }
}
