// The parts of a record, one function for each run of its bytes (01's table).
ghost use Rattle.std.specs.Prelude.{◌≡◌, ◌++◌, ◌+◌, ◌≤◌, ◌<◌, length};
ghost use Rattle.std.proofs.lemmas.List.Edits.{sets};
ghost use Rattle.endian.specs.Bytes.{bytes_of};
ghost use Rattle.record.specs.Record.{spare, up_to, head_bytes, mark_bytes, identity_bytes, level_bytes, rank_bytes, time_bytes, span_bytes};

use crate::FrameSpan;
use endian::LittleEndian;
use frame::bytes::{copy_into, put_byte};

// Bytes 0 to 7.
#[derive(Clone, Copy)]
pub struct Head {
    pub kind: u8,
    pub rank: u8,
    pub flags: u8,
    pub payload_len: u8,
    pub auth_len: u8,
    pub repair: u8,
    pub place: usize,
}

// Bytes 33 to 35: what 02 adds to a record.
#[derive(Clone, Copy)]
pub struct Marks {
    pub depth: u8,
    pub shift: u8,
}

// Bytes 8 to 43, besides the lengths of payload and authentication, which the head has.
#[derive(Clone, Copy)]
pub struct Content {
    pub device: u32,
    pub counter: u16,
    pub payload: [u8; 12],
    pub auth: [u8; 5],
    pub marks: Marks,
    pub ppm: i32,
    pub rssi: f32,
}

// Bytes that mean nothing are 0.
pub fn put_spare(out: &mut [u8], at: usize, n: usize)
    requires { at + n ≤ length out.old }
    ensures { out.new ≡ sets out.old at (spare n) }
{
    out[at..at + n].fill(0);
}

// An array of which `len` bytes count, and 0 in its other places.
pub fn put_up_to(out: &mut [u8], at: usize, len: usize, bytes: &[u8])
    requires { at + length bytes.now ≤ length out.old }
    ensures { out.new ≡ sets out.old at (up_to len bytes.now) }
{
    if bytes.len() <= len {
        copy_into(bytes, out, at);
        return;
    }
    copy_into(&bytes[..len], out, at);
    put_spare(out, at + len, bytes.len() - len);
}

// Bytes 0 to 7.
pub fn put_head(out: &mut [u8], at: usize, h: Head)
    requires { at + 8 ≤ length out.old }
    ensures { out.new ≡ sets out.old at (head_bytes h) }
{
    put_byte(out, at, h.kind);
    put_byte(out, at + 1, h.rank);
    put_byte(out, at + 2, h.flags);
    put_byte(out, at + 3, h.payload_len);
    put_byte(out, at + 4, h.auth_len);
    put_byte(out, at + 5, h.repair);
    endian::put(out, at + 6, (h.place % 65536) as u16);
}

pub fn put_marks(out: &mut [u8], at: usize, k: Marks)
    requires { at + 3 ≤ length out.old }
    ensures { out.new ≡ sets out.old at (mark_bytes k) }
{
    put_byte(out, at, k.depth);
    put_byte(out, at + 1, k.shift);
    put_byte(out, at + 2, 0);
}

// Bytes 8 to 35.
pub fn put_identity(out: &mut [u8], at: usize, h: Head, x: Content)
    requires { at + 28 ≤ length out.old }
    ensures { out.new ≡ sets out.old at (identity_bytes x.device x.counter h.payload_len x.payload h.auth_len x.auth x.marks) }
{
    endian::put(out, at, x.device);
    endian::put(out, at + 4, x.counter);
    put_spare(out, at + 6, 2);
    put_up_to(out, at + 8, h.payload_len as usize, &x.payload);
    put_up_to(out, at + 20, h.auth_len as usize, &x.auth);
    put_marks(out, at + 25, x.marks);
}

// Two numbers, one behind the other: bytes 36 to 43, and a start and an end.
pub fn put_two<A: LittleEndian, B: LittleEndian>(out: &mut [u8], at: usize, a: A, b: B)
    requires { at + A.SIZE + B.SIZE ≤ length out.old }
    ensures { out.new ≡ sets out.old at (bytes_of A.SIZE (A.pattern a) ++ bytes_of B.SIZE (B.pattern b)) }
{
    endian::put(out, at, a);
    endian::put(out, at + A::SIZE, b);
}

// Bytes 44 to 47: the ranks of the spans.
pub fn put_ranks(out: &mut [u8], at: usize, a: u8, b: u8, c: u8)
    requires { at + 4 ≤ length out.old }
    ensures { out.new ≡ sets out.old at (rank_bytes a b c) }
{
    put_byte(out, at, a);
    put_byte(out, at + 1, b);
    put_byte(out, at + 2, c);
    put_byte(out, at + 3, 0);
}

// A span in its 16 bytes, 0 where there is none.
pub fn put_span(out: &mut [u8], at: usize, s: FrameSpan)
    requires { at + 16 ≤ length out.old }
    ensures { out.new ≡ sets out.old at (span_bytes s) }
{
    if !s.is_there() {
        put_spare(out, at, 16);
        return;
    }
    put_two(out, at, s.time, s.end);
}

// Bytes 64 to 111.
pub fn put_spans(out: &mut [u8], at: usize, a: FrameSpan, b: FrameSpan, c: FrameSpan)
    requires { at + 48 ≤ length out.old }
    ensures { out.new ≡ sets out.old at (span_bytes a ++ (span_bytes b ++ span_bytes c)) }
{
    put_span(out, at, a);
    put_span(out, at + 16, b);
    put_span(out, at + 32, c);
}

// Bytes 0 to 43.
pub fn put_front(out: &mut [u8], at: usize, h: Head, x: Content)
    requires { at + 44 ≤ length out.old }
    ensures { out.new
        ≡ sets out.old at (head_bytes h
        ++ (identity_bytes x.device x.counter h.payload_len x.payload h.auth_len x.auth x.marks ++ level_bytes x.ppm x.rssi)) }
{
    put_head(out, at, h);
    put_identity(out, at + 8, h, x);
    put_two(out, at + 36, x.ppm, x.rssi);
}

// Bytes 44 to 63.
pub fn put_middle(out: &mut [u8], at: usize, a: u8, b: u8, c: u8, time: f64, end: f64)
    requires { at + 20 ≤ length out.old }
    ensures { out.new ≡ sets out.old at (rank_bytes a b c ++ time_bytes time end) }
{
    put_ranks(out, at, a, b, c);
    put_two(out, at + 4, time, end);
}
