// What a line of text means: device, counter, payload or single bit, downlink flag and authentication.
ghost use Rattle.std.specs.Prelude.{◌≡◌, ◌+◌, ◌*◌, ◌%◌, ◌≤◌, ◌<◌, ◌&&◌, eqb, length, take};
ghost use Rattle.std.proofs.lemmas.List.Edits.{sets};
ghost use Rattle.uplink.specs.Line.{word, rest, spaces, digit_of, are_digits, number_from, bytes_in, is_counter, are_bytes, is_none, is_bit, bit_in, is_payload, payload_in, fields_of, meaning, meant};

use frame::header::UplinkFields;

const SPACE: u8 = 32;

// What no digit is worth.
const NO_DIGIT: u8 = 16;

const HIGHEST_DEVICE: u64 = 0xffff_ffff;

// A counter that is more is handed over as this, and refused.
const MOST_COUNTER: u64 = 0xffff;

// What the line of a frame says.
#[derive(Clone, Copy)]
pub struct Parsed {
    pub fields: UplinkFields,
    // Bytes at the front of the two slices.
    pub payload_len: usize,
    pub auth_len: usize,
}

// The value of a hexadecimal digit.
fn digit_of(c: u8) -> u8
    ensures { (result ≡ digit_of c) × (result ≤ 16) }
{
    if (48 <= c) & (c < 58) {
        return c - 48;
    }
    if (97 <= c) & (c < 103) {
        return c - 87;
    }
    if (65 <= c) & (c < 71) {
        return c - 55;
    }
    NO_DIGIT
}

// The word that a line begins with, and what stands behind its space.
fn cut(line: &[u8]) -> (&[u8], &[u8])
    ensures { (result.0.now ≡ word line.now) × (result.1.now ≡ rest line.now) }
{
    for (i, c) in line.iter().enumerate() {
        if *c == SPACE {
            return (&line[..i], &line[i + 1..]);
        }
    }
    (line, &[])
}

fn count_spaces(line: &[u8]) -> usize
    ensures { result ≡ spaces line.now }
{
    line.iter().filter(|c| **c == SPACE).count()
}

// Whether each character of a word is a digit of a base.
fn all_digits(w: &[u8], base: u8) -> bool
    ensures { result ≡ are_digits base w.now }
{
    w.iter().all(|c| digit_of(*c) < base)
}

// The number that a word's digits make.
fn number(w: &[u8], base: u64, most: u64) -> u64
    requires { (base ≤ 16) × (most < 0x100000000) }
    ensures { (result ≡ number_from base most 0 w.now) × (result ≤ most) }
{
    let mut n: u64 = 0;
    for c in w {
        let x = n * base + u64::from(digit_of(*c));
        n = x.min(most);
    }
    n
}

// The byte of two digits.
fn byte_of(a: u8, b: u8) -> u8
    ensures { result ≡ (digit_of a * 16 + digit_of b) % 256 }
{
    let high = digit_of(a) as u16;
    let low = digit_of(b) as u16;
    ((high * 16 + low) % 256) as u8
}

// The bytes that a word's digits make, at the front of `out`; how many.
fn put_bytes(w: &[u8], out: &mut [u8]) -> usize
    requires { length w.now ≤ 2 * length out.old }
    ensures { (out.new ≡ sets out.old 0 (bytes_in w.now)) × (result ≡ length (bytes_in w.now)) }
{
    let n = w.len() / 2;
    for i in 0..n {
        out[i] = byte_of(w[2 * i], w[2 * i + 1]);
    }
    n
}

// Whether a word is a number of so many digits of a base.
fn has_digits(w: &[u8], count: usize, base: u8) -> bool
    ensures { result ≡ (eqb (length w.now) count && are_digits base w.now) }
{
    let right = w.len() == count;
    let digits = all_digits(w, base);
    right & digits
}

fn is_counter(w: &[u8]) -> bool
    ensures { result ≡ is_counter w.now }
{
    let some = !w.is_empty();
    let decimal = all_digits(w, 10);
    some & decimal
}

fn are_bytes(w: &[u8]) -> bool
    ensures { result ≡ are_bytes w.now }
{
    let some = !w.is_empty();
    let whole = w.len() % 2 == 0;
    let hex = all_digits(w, 16);
    some & (whole & hex)
}

// `-`: no payload.
fn is_none(w: &[u8]) -> bool
    ensures { result ≡ is_none w.now }
{
    if w.len() != 1 {
        return false;
    }
    w[0] == 45
}

// `bit0` or `bit1`.
fn is_bit(w: &[u8]) -> bool
    ensures { result ≡ is_bit w.now }
{
    if w.len() != 4 {
        return false;
    }
    let b = w[0] == 98;
    let i = w[1] == 105;
    let t = w[2] == 116;
    let value = digit_of(w[3]) < 2;
    b & (i & (t & value))
}

// The single bit that a payload's word says, if it does.
fn bit_in(w: &[u8]) -> Option<bool>
    ensures { result ≡ bit_in w.now }
{
    is_bit(w).then(|| digit_of(w[3]) == 1)
}

fn is_payload(w: &[u8]) -> bool
    ensures { result ≡ is_payload w.now }
{
    let bit = is_bit(w);
    let none = is_none(w);
    let bytes = are_bytes(w);
    bit | (none | bytes)
}

// The bytes of a payload's word at the front of `out`; how many.
fn put_payload(w: &[u8], out: &mut [u8]) -> usize
    requires { length w.now ≤ 2 * length out.old }
    ensures { take result out.new ≡ payload_in w.now }
{
    if is_bit(w) {
        return 0;
    }
    if is_none(w) {
        return 0;
    }
    put_bytes(w, out)
}

fn fields_of(device: &[u8], counter: &[u8], payload: &[u8], downlink: &[u8]) -> UplinkFields
    ensures { result ≡ fields_of device.now counter.now payload.now downlink.now }
{
    UplinkFields {
        device_id: number(device, 16, HIGHEST_DEVICE) as u32,
        counter: number(counter, 10, MOST_COUNTER) as u16,
        bit: bit_in(payload),
        downlink: number(downlink, 2, 1) == 1,
    }
}

// What a line says, if it is a frame's; payload and authentication stand at the front of the slices.
pub fn parse(line: &[u8], payload: &mut [u8], auth: &mut [u8]) -> Option<Parsed>
    requires { (length line.now ≤ 2 * length payload.old) × (length line.now ≤ 2 * length auth.old) }
    ensures { meant result payload.new auth.new ≡ meaning line.now }
{
    let (d, behind) = cut(line);
    let (c, behind) = cut(behind);
    let (p, behind) = cut(behind);
    let (w, behind) = cut(behind);
    let (a, _) = cut(behind);
    if count_spaces(line) != 4 {
        return None;
    }
    let first = has_digits(d, 8, 16) & is_counter(c);
    let ok = first & (is_payload(p) & (has_digits(w, 1, 2) & are_bytes(a)));
    if !ok {
        return None;
    }
    Some(Parsed {
        payload_len: put_payload(p, payload),
        auth_len: put_bytes(a, auth),
        fields: fields_of(d, c, p, w),
    })
}
