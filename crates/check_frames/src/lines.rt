// A decoded frame's line.
ghost use Rattle.std.specs.Prelude.{◌+◌, ◌≤◌};

use frame::{Repair, UplinkFrame};

// More bits than a vector has, and the digits that hold them.
const MOST_BITS: usize = 256;

const MOST_DIGITS: usize = 64;

// The value of a hexadecimal digit, 0 to 9 or a to f.
fn value_of(digit: u8) -> u8 {
    if digit < 97 {
        return digit % 16;
    }
    9 + digit % 16
}

// A digit's bits, the highest first.
fn put_digit(bits: &mut [u8; 256], at: usize, v: u8)
    requires { at + 4 ≤ 256 }
{
    bits[at] = v / 8 % 2;
    bits[at + 1] = v / 4 % 2;
    bits[at + 2] = v / 2 % 2;
    bits[at + 3] = v % 2;
}

// The bits of hexadecimal digits, with zeros behind them.
fn bits_of(digits: &[u8]) -> [u8; 256] {
    let mut bits = [0u8; 256];
    let n = digits.len().min(MOST_DIGITS);
    for (i, digit) in digits[..n].iter().enumerate() {
        put_digit(&mut bits, 4 * i, value_of(*digit));
    }
    bits
}

// What the decoder makes of the first `n` bits of hexadecimal digits.
fn decoded_of(digits: &[u8], n: usize) -> Option<UplinkFrame> {
    if MOST_BITS < n {
        return None;
    }
    let bits = bits_of(digits);
    match frame::decode_uplink_bits(&bits[..n]) {
        Ok(decoded) => decoded,
        Err(_) => None,
    }
}

fn print_flag(rt: &impl Print, b: bool) {
    replay::print_number(rt, u8::from(b));
}

fn print_part(rt: &impl Print, bytes: &[u8], n: u8) {
    replay::print(rt, b" ");
    replay::print_number(rt, n as u64);
    replay::print(rt, b":");
    replay::print_bytes(rt, &bytes[..usize::from(n).min(bytes.len())]);
}

fn print_bit(rt: &impl Print, bit: Option<bool>) {
    let Some(b) = bit else {
        replay::print(rt, b" -");
        return;
    };
    replay::print(rt, b" ");
    print_flag(rt, b);
}

fn print_place(rt: &impl Print, repair: u64, at: usize) {
    replay::print(rt, b" ");
    replay::print_number(rt, repair);
    replay::print(rt, b" ");
    replay::print_number(rt, at as u64);
}

// A repair as a record has it: its number and its place.
fn print_repair(rt: &impl Print, how: Option<Repair>) {
    match how {
        None => print_place(rt, 0, 0),
        Some(Repair::Inserted(b, at)) => print_place(rt, if b { 2 } else { 1 }, at),
        Some(Repair::Deleted(at)) => print_place(rt, 3, at),
        Some(Repair::Flipped(at)) => print_place(rt, 4, at),
    }
}

// The line of the frame in the first `n` bits of hexadecimal digits: `frame rank device counter payload auth bit flags repair place`. None where there is no frame.
pub fn frame_line(rt: &impl Print, digits: &[u8], n: usize) {
    let Some(f) = decoded_of(digits, n) else {
        return;
    };
    replay::print(rt, b"frame ");
    replay::print_number(rt, f.rank as u64);
    replay::print(rt, b" ");
    replay::print_hex(rt, f.device_id as u64, 8);
    replay::print(rt, b" ");
    replay::print_hex(rt, f.counter as u64, 3);
    print_part(rt, &f.payload, f.payload_len);
    print_part(rt, &f.auth, f.auth_len);
    print_bit(rt, f.bit);
    replay::print(rt, b" ");
    print_flag(rt, f.downlink);
    print_flag(rt, f.control);
    print_flag(rt, f.crc_ok);
    print_repair(rt, f.repaired);
    replay::print(rt, b"\n");
}
