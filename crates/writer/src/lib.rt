// Uplinks as a device sends them (02, request 01; frame.rs encode_uplink): the bits of a message's three repetitions. Bits are bytes 0 or 1.
#![tactic(auto)]

ghost use Rattle.std.specs.Prelude.{◌≡◌, true, map, ◌+◌, ◌*◌, ◌≤◌, ◌<◌, length};
ghost use Rattle.std.proofs.lemmas.List.Edits.{sets};
ghost use Rattle.coding.specs.Bits.{odd, bit_of, digits, value, bytes_bits, are_bits};
ghost use Rattle.frame.specs.Kinds.{sync_size, sync_bits, plain};
ghost use Rattle.frame.specs.Sizes.{header_size, most_payload, most_bytes};
ghost use Rattle.frame.specs.Fields.{padded};
ghost use Rattle.frame.specs.Header.{li_of};
ghost use Rattle.limits.specs.Answer.{answer, said, number, leaves};
ghost use Rattle.writer.specs.Uplink.{lead_size, frame_bytes, repeated, uplink_bits, bit_count};
ghost use Rattle.writer.specs.Answers.{places, all_places, bit_and_payload, write_cause, put_rank, put_all};

use frame::bytes::{copy_into, put_byte};
use frame::header::{UplinkFields, write_header};
use frame::kinds::{FRAME_TYPES, SYNC};
use frame::sizes::{HEADER, Layout, MOST_PAYLOAD};
use limits::Refusal;

// Places of a repetition in the lent slice, and of all three: the longest has 20 + 16 + 176 bits.
pub const PLACES: usize = 212;

pub const ALL_PLACES: usize = 636;

// The message counter has 12 bits.
const HIGHEST_COUNTER: u16 = 4095;

// The preamble: alternating bits from true.
const LEAD: usize = 20;

const LEAD_BITS: u32 = 0xaaaaa;

// The lowest binary digits of x, one for each place, the highest first (frame.rs push_bits).
fn put_digits(out: &mut [u8], x: u32)
    requires { length out.old ≤ 32 }
    ensures { out.new ≡ map bit_of (digits (length out.old) x) }
{
    let n = out.len();
    for (i, bit) in out.iter_mut().enumerate() {
        *bit = ((x >> (n - 1 - i)) % 2) as u8;
    }
}

// The bits of bytes from the front of `out` on.
fn put_bits(bytes: &[u8], out: &mut [u8])
    requires { 8 * length bytes.now ≤ length out.old }
    ensures { out.new ≡ sets out.old 0 (map bit_of (bytes_bits bytes.now)) }
{
    for (i, b) in bytes.iter().enumerate() {
        put_digits(&mut out[8 * i..8 * i + 8], u32::from(*b));
    }
}

// The 16 bits that announce a data frame, as a number.
fn type_of(rank: u8, layout: Layout) -> u32
    requires { rank ≤ 2 }
    ensures { result ≡ value (sync_bits (plain rank layout.class)) }
{
    let i = 6 * (rank as usize) + (layout.class as usize) + 1;
    FRAME_TYPES[i] as u32
}

// The repetition of a rank, from the bits of its body, at its places.
fn put_repetition(rank: u8, layout: Layout, body: &[u8], out: &mut [u8])
    requires { (rank ≤ 2) × (are_bits body.now ≡ true) × (lead_size + sync_size + length body.now ≤ places) × (all_places ≤ length out.old) }
    ensures { out.new ≡ put_rank (repeated layout.class (map odd body.now)) rank out.old }
{
    let at = PLACES * (rank as usize);
    put_digits(&mut out[at..at + LEAD], LEAD_BITS);
    put_digits(&mut out[at + LEAD..at + LEAD + SYNC], type_of(rank, layout));
    coding::convolve_from(body, rank, 0, &mut out[at + LEAD + SYNC..]);
}

// All three repetitions.
fn put_all(layout: Layout, body: &[u8], out: &mut [u8])
    requires { (are_bits body.now ≡ true) × (lead_size + sync_size + length body.now ≤ places) × (all_places ≤ length out.old) }
    ensures { out.new ≡ put_all (repeated layout.class (map odd body.now)) out.old }
{
    put_repetition(0, layout, body, out);
    put_repetition(1, layout, body, out);
    put_repetition(2, layout, body, out);
}

// The bytes of a frame, zeros after them: header with payload, authentication, CRC.
fn frame_bytes(fields: UplinkFields, layout: Layout, payload: &[u8], auth: &[u8]) -> [u8; 22]
    requires { (layout.li ≡ li_of fields.bit (length payload.now)) × (length payload.now ≤ most_payload)
        × (header_size + length payload.now + length auth.now + 2 ≤ most_bytes) }
    ensures { result ≡ padded most_bytes (frame_bytes fields payload.now auth.now) }
{
    let mut bytes = [0u8; 22];
    write_header(fields, layout, payload, &mut bytes);
    copy_into(auth, &mut bytes, HEADER + payload.len());
    let end = HEADER + payload.len() + auth.len();
    let crc = coding::crc16(&bytes[..end]);
    put_byte(&mut bytes, end, (crc / 256) as u8);
    put_byte(&mut bytes, end + 1, (crc % 256) as u8);
    bytes
}

fn bit_and_payload(bit: Option<bool>, n: usize) -> bool
    ensures { result ≡ bit_and_payload bit n }
{
    bit.is_some() && n != 0
}

// The three repetitions of an uplink into a lent slice, each at its rank's places; how many bits each has.
pub fn write_uplink(
    fields: UplinkFields,
    payload: &[u8],
    auth: &[u8],
    out: &mut [u8],
) -> Result<usize, Refusal>
    ensures { (said result ≡ answer (write_cause fields payload.now auth.now (length out.old)) (bit_count fields payload.now))
        × (out.new ≡ leaves (number (said result)) (put_all (uplink_bits fields payload.now auth.now) out.old) out.old) }
{
    if out.len() < ALL_PLACES {
        return Err(Refusal::Short);
    }
    if MOST_PAYLOAD < payload.len() {
        return Err(Refusal::BadUplink);
    }
    let bit = fields.bit;
    if bit_and_payload(bit, payload.len()) {
        return Err(Refusal::BadUplink);
    }
    if HIGHEST_COUNTER < fields.counter {
        return Err(Refusal::BadUplink);
    }
    let layout = Layout::new(bit, payload.len());
    let called = usize::from(layout.auth_size());
    if auth.len() != called {
        return Err(Refusal::BadUplink);
    }
    let bytes = frame_bytes(fields, layout, payload, auth);
    let size = HEADER + payload.len() + auth.len() + 2;
    let mut body = [0u8; 176];
    put_bits(&bytes[..size], &mut body);
    let n = 8 * size;
    put_all(layout, &body[..n], out);
    Ok(LEAD + SYNC + n)
}
