// What the replay programs read their cases with and print their lines with. docs/REPLAY.md has the formats.
#![tactic(auto)]

ghost use Rattle.std.specs.Prelude.{◌≡◌, ◌+◌, ◌*◌, ◌≤◌, ◌<◌, length, IfOk};
ghost use Rattle.std.proofs.lemmas.List.Edits.{sets};
ghost use Rattle.std.specs.Float.{binary32, binary64};
ghost use Rattle.endian.specs.Bytes.{signed_of};
ghost use Rattle.replay.specs.Text.{plain_bits, hex_digit, hex_text};
ghost use Rattle.replay.specs.Numbers.{numbers_from};

use endian::LittleEndian;
use limits::Refusal;
use record::FrameSpan;
use std::fmt::Display;
use std::num::{f32_to_bits_with_nan, f64_to_bits_with_nan};

// A proved loop has to end, and nothing says that the input does: the most cases of a run.
pub const MOST_CASES: u64 = 0x1_0000_0000_0000;

// Numbers that are read together: 4096 bytes at most.
const NUMBERS: usize = 512;

// Bits, or bytes, that are printed together.
const PART: usize = 1024;

// Why a case has no answer: the input ended inside it, or a call refused.
#[derive(Clone, Copy)]
pub enum Unanswered {
    Short,
    Refused(Refusal),
}

impl From<Refusal> for Unanswered {
    fn from(refusal: Refusal) -> Unanswered {
        Unanswered::Refused(refusal)
    }
}

// The line of a case without an answer; false where no case can follow.
fn goes_on(rt: &impl Print, answer: Result<(), Unanswered>) -> bool {
    match answer {
        Ok(()) => true,
        Err(Unanswered::Refused(refusal)) => {
            print_refusal(rt, refusal);
            true
        }
        Err(Unanswered::Short) => {
            print(rt, b"short\n");
            false
        }
    }
}

// What stands in front of a case.
pub trait Head: Copy {
    // The next one of standard input, none where it has ended.
    fn read(rt: &impl Input) -> Result<Option<Self>, Unanswered>;
}

impl<const N: usize> Head for [u8; N] {
    fn read(rt: &impl Input) -> Result<Option<[u8; N]>, Unanswered> {
        let mut head = [0u8; N];
        let n = reading::read_full(rt, &mut head);
        if n == 0 {
            return Ok(None);
        }
        if n < N {
            return Err(Unanswered::Short);
        }
        Ok(Some(head))
    }
}

// A program's cases, each by what stands in front of it, until standard input ends.
pub fn run<H: Head, F: FnMut(H) -> Result<(), Unanswered>>(rt: &(impl Input + Print), mut case: F)
    requires { F.IsAlwaysCallable case }
{
    for _ in 0..MOST_CASES {
        let answer = match H::read(rt) {
            Ok(None) => return,
            Ok(Some(head)) => case(head),
            Err(short) => Err(short),
        };
        if !goes_on(rt, answer) {
            return;
        }
    }
}

// The next bytes of standard input, inside a case.
pub fn read_part(rt: &impl Input, bytes: &mut [u8]) -> Result<(), Unanswered> {
    if reading::read_full(rt, bytes) == bytes.len() {
        Ok(())
    } else {
        Err(Unanswered::Short)
    }
}

// The numbers at the start of some bytes, as many as `out` has places.
fn store<T: LittleEndian>(bytes: &[u8], out: &mut [T])
    requires { T.SIZE * length out.old ≤ length bytes.now }
    ensures { out.new ≡ sets out.old 0 (numbers_from T.SIZE T.of_pattern (length out.old) 0 bytes.now) }
{
    for (i, x) in out.iter_mut().enumerate() {
        *x = endian::get(bytes, T::SIZE * i);
    }
}

// The next numbers of standard input, as many as `out` has places.
fn read_chunk<T: LittleEndian>(rt: &impl Input, out: &mut [T]) -> Result<(), Unanswered>
    requires { length out.old ≤ NUMBERS }
{
    let mut bytes = [0u8; 4096];
    let size = T::SIZE * out.len();
    read_part(rt, &mut bytes[..size])?;
    store(&bytes, out);
    Ok(())
}

// The next n numbers of standard input, those for which `out` has a place.
pub fn read_n<'a, T: LittleEndian>(
    rt: &impl Input,
    n: usize,
    out: &'a mut [T],
) -> Result<&'a [T], Unanswered>
    requires { n < 0x100000000 }
    ensures { IfOk result (λ s. length s.now ≤ length out.old) }
{
    let kept = n.min(out.len());
    for part in out[..kept].chunks_mut(NUMBERS) {
        read_chunk(rt, part)?;
    }
    skip(rt, T::SIZE * (n - kept))?;
    Ok(&out[..kept])
}

// The same of bytes.
pub fn read_n_bytes<'a>(
    rt: &impl Input,
    n: usize,
    out: &'a mut [u8],
) -> Result<&'a [u8], Unanswered>
    ensures { IfOk result (λ s. length s.now ≤ length out.old) }
{
    let kept = n.min(out.len());
    read_part(rt, &mut out[..kept])?;
    skip(rt, n - kept)?;
    Ok(&out[..kept])
}

// A count in standard input.
fn read_count(rt: &impl Input) -> Result<u32, Unanswered> {
    let mut count = [0u8; 4];
    read_part(rt, &mut count)?;
    Ok(endian::get(&count, 0))
}

// A count, and that many numbers, in standard input, those for which `out` has a place.
pub fn read_list<'a, T: LittleEndian>(
    rt: &impl Input,
    out: &'a mut [T],
) -> Result<&'a [T], Unanswered>
    ensures { IfOk result (λ s. length s.now ≤ length out.old) }
{
    let n = read_count(rt)? as usize;
    read_n(rt, n, out)
}

// The same of bytes.
pub fn read_bytes<'a>(rt: &impl Input, out: &'a mut [u8]) -> Result<&'a [u8], Unanswered>
    ensures { IfOk result (λ s. length s.now ≤ length out.old) }
{
    let n = read_count(rt)? as usize;
    read_n_bytes(rt, n, out)
}

// A signed number from its two's complement.
pub fn signed64(n: u64) -> i64
    ensures { result ≡ signed_of 64 n }
{
    n.cast_signed()
}

// A rank, a time and an end in standard input.
pub fn read_span(rt: &impl Input) -> Result<FrameSpan, Unanswered> {
    let mut part = [0u8; 17];
    read_part(rt, &mut part)?;
    Ok(FrameSpan {
        rank: part[0],
        time: endian::get(&part, 1),
        end: endian::get(&part, 9),
    })
}

// Reads over the next n bytes.
fn skip(rt: &impl Input, n: usize) -> Result<(), Unanswered> {
    for at in (0..n).step_by(4096) {
        let mut bytes = [0u8; 4096];
        let size = (n - at).min(4096);
        read_part(rt, &mut bytes[..size])?;
    }
    Ok(())
}

// A float's pattern for printing: either zero as +0.
pub fn plain32(x: f32) -> u32
    ensures { result ≡ plain_bits binary32 x }
{
    if x == 0.0 {
        return 0;
    }
    f32_to_bits_with_nan(x)
}

// The same of binary64.
pub fn plain64(x: f64) -> u64
    ensures { result ≡ plain_bits binary64 x }
{
    if x == 0.0 {
        return 0;
    }
    f64_to_bits_with_nan(x)
}

fn hex_digit(d: u8) -> u8
    requires { d < 16 }
    ensures { result ≡ hex_digit d }
{
    if d < 10 { 48 + d } else { 87 + d }
}

// Two hexadecimal digits a byte, into the front of `out`.
pub fn hex_text(bytes: &[u8], out: &mut [u8])
    requires { 2 * length bytes.now ≤ length out.old }
    ensures { out.new ≡ sets out.old 0 (hex_text bytes.now) }
{
    for (i, b) in bytes.iter().enumerate() {
        out[2 * i] = hex_digit(*b / 16);
        out[2 * i + 1] = hex_digit(*b % 16);
    }
}

// Text as it is.
pub fn print(rt: &impl Print, text: &[u8]) {
    let _ = rt.write_all(text);
}

// A number in decimal.
pub fn print_number(rt: &impl Print, n: impl Display + Drop) {
    let _ = rt.print(n);
}

// A number in so many hexadecimal digits.
pub fn print_hex(rt: &impl Print, n: u64, width: usize) {
    let _ = print!(rt; "{n:0width$x}");
}

// A float as the digits of its pattern.
pub fn print_f32(rt: &impl Print, x: f32) {
    print_hex(rt, u64::from(plain32(x)), 8);
}

// The same of binary64.
pub fn print_f64(rt: &impl Print, x: f64) {
    print_hex(rt, plain64(x), 16);
}

fn print_few_digits(rt: &impl Print, bits: &[u8])
    requires { length bits.now ≤ PART }
{
    let mut text = [0u8; PART];
    for (digit, bit) in text.iter_mut().zip(bits) {
        *digit = b'0' + *bit % 2;
    }
    print(rt, &text[..bits.len()]);
}

// Bits as digits 0 and 1.
pub fn print_digits(rt: &impl Print, bits: &[u8]) {
    for part in bits.chunks(PART) {
        print_few_digits(rt, part);
    }
}

fn print_few_bytes(rt: &impl Print, bytes: &[u8])
    requires { length bytes.now ≤ PART }
{
    let mut text = [0u8; 2 * PART];
    hex_text(bytes, &mut text);
    print(rt, &text[..2 * bytes.len()]);
}

// Bytes as hexadecimal digits.
pub fn print_bytes(rt: &impl Print, bytes: &[u8]) {
    for part in bytes.chunks(PART) {
        print_few_bytes(rt, part);
    }
}

// The same, `-` where there are none.
pub fn print_slice(rt: &impl Print, bytes: &[u8]) {
    if bytes.is_empty() {
        print(rt, b"-");
    }
    print_bytes(rt, bytes);
}

// The line that says how many places behind an answer hold the fill that stood there before the call.
pub fn print_kept<T: PartialEq + Copy>(rt: &impl Print, places: &[T], fill: T) {
    let kept = places.iter().filter(|x| **x == fill).count();
    print(rt, b"K ");
    print_number(rt, kept);
    print_end(rt);
}

// The end of a line.
pub fn print_end(rt: &impl Print) {
    print(rt, b"\n");
}

// The line of a refused call.
pub fn print_refusal(rt: &impl Print, refusal: Refusal) {
    print_refusal_number(rt, u8::from(refusal));
}

// The same of an answer to C, which is the refusal's number.
pub fn print_refusal_number(rt: &impl Print, n: u8) {
    let _ = println!(rt; "R {n}");
}

// The line where there is no answer.
pub fn print_none(rt: &impl Print) {
    print(rt, b"none\n");
}
