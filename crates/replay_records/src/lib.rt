// Records as they are compared and printed: a zero's sign aside. docs/REPLAY.md has the formats.
#![tactic(auto)]

pub mod spans; // frames' spans in the input
pub mod uplinks; // an uplink's fields in the input

ghost use Rattle.std.specs.Prelude.{◌≡◌, ℕ, ◌+◌, ◌*◌, ◌≤◌, length};
ghost use Rattle.std.proofs.Common.{rules, refl};
ghost use Rattle.limits.specs.Limits.{record_size};
ghost use Rattle.record.specs.Same.{unsigned_at, without_signs};

use endian::LittleEndian;

// A number that is its own pattern.
trait Whole: LittleEndian {
    ghost some: { 1 ≤ Self.LittleEndian.SIZE };

    ghost same: { (n : ℕ) → Self.LittleEndian.pattern (Self.LittleEndian.of_pattern n) ≡ n };
}

impl Whole for u32 {
    ghost some = { Prim.search rules };

    ghost same = { λ n. refl };
}

impl Whole for u64 {
    ghost some = { Prim.search rules };

    ghost same = { λ n. refl };
}

// The sign is taken from a zero in the bytes at a place.
fn unsign<T: Whole>(record: &mut [u8], at: usize)
    requires { at + T.SIZE ≤ length «record».old }
    ensures { «record».new ≡ unsigned_at T.SIZE at «record».old }
{
    let minus = 1 << (8 * T::SIZE - 1);
    let n = endian::get::<T>(record, at);
    let unsigned = if n.bits() == minus { T::of_bits(0) } else { n };
    endian::put(record, at, unsigned);
}

// A record with no zero's sign.
pub fn without_signs(record: &mut [u8])
    requires { record_size ≤ length «record».old }
    ensures { «record».new ≡ without_signs «record».old }
{
    unsign::<u32>(record, 40);
    unsign::<u64>(record, 48);
    unsign::<u64>(record, 56);
    unsign::<u64>(record, 64);
    unsign::<u64>(record, 72);
    unsign::<u64>(record, 80);
    unsign::<u64>(record, 88);
    unsign::<u64>(record, 96);
    unsign::<u64>(record, 104);
}

// A record's hexadecimal digits; its zeros lose their sign.
pub fn print_record(rt: &impl Print, record: &mut [u8])
    requires { record_size ≤ length «record».old }
    ensures { «record».new ≡ without_signs «record».old }
{
    without_signs(record);
    replay::print_bytes(rt, &record[..limits::RECORD]);
}

// The line of one of the records in a buffer.
fn print_line(rt: &impl Print, events: &mut [u8], i: usize)
    requires { record_size * i + record_size ≤ length events.old }
{
    let from = limits::RECORD * i;
    let to = from + limits::RECORD;
    print_record(rt, &mut events[from..to]);
    replay::print_end(rt);
}

// A line a record, as many as `count` says, of those that the buffer can hold.
pub fn print_records(rt: &impl Print, events: &mut [u8], count: usize) {
    let most = events.len() / limits::RECORD;
    for i in 0..count.min(most) {
        print_line(rt, events, i);
    }
}
