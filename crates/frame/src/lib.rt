// Sigfox uplink frames (frame.rs): the frame type is searched, the body parsed as it is and after single-bit repairs. Bits are bytes 0 or 1.
#![tactic(auto)]

ghost use Rattle.std.specs.Prelude.{◌≡◌, true, map, ◌+◌, ◌≤◌, length, IfSome};
ghost use Rattle.coding.specs.Bits.{odd, are_bits};
ghost use Rattle.limits.specs.Limits.{most_bits};
ghost use Rattle.limits.specs.Answer.{said};
ghost use Rattle.frame.specs.Kinds.{sync_size};
ghost use Rattle.frame.specs.Decode.{decode_uplink, uplink_answer};
ghost use Rattle.frame.specs.Types.{type_in};

use bodies::Body;
use kinds::{FrameKind, SYNC, find_kind, word};
use limits::Refusal;

pub mod control; // decode_control
pub mod header; // uplink_header
pub mod kinds; // frame types
pub mod sizes; // class and LI of a message
pub mod bytes; // bytes put into a slice
pub mod plain; // plain bytes and their fields
pub mod bodies; // bits after a frame type
pub mod splices; // repairs, as the code makes and tries them

// A single bit error in a frame's body, undone at a bit index after the frame type.
#[derive(Clone, Copy)]
pub enum Repair {
    Inserted(bool, usize),
    Deleted(usize),
    Flipped(usize),
}

#[derive(Clone, Copy)]
pub struct UplinkFrame {
    // 0, 1, 2: first, second, third transmission.
    pub rank: u8,
    pub device_id: u32,
    // Message counter (12 bits).
    pub counter: u16,
    // Places past the length are 0, here and in `auth`.
    pub payload: [u8; 12],
    pub payload_len: u8,
    pub bit: Option<bool>,
    // BF: the device waits for a downlink.
    pub downlink: bool,
    // A control frame (see `decode_control`), not application data.
    pub control: bool,
    pub auth: [u8; 5],
    pub auth_len: u8,
    pub crc_ok: bool,
    // The bit-slip correction that made the CRC pass, if any.
    pub repaired: Option<Repair>,
}

// Frame types are searched from this bit on, and up to the last start: the first preamble bits are not observable, and the leading edge can add a bit.
const FIRST_START: usize = 8;

const LAST_START: usize = 22;

// A frame type, and the bit where it starts.
#[derive(Clone, Copy)]
pub struct TypeFound {
    pub start: usize,
    pub kind: FrameKind,
}

// The frame type of bits, none where there is none: the first that stands at a start from 8 to 22. What is decoded is decoded from there (law `decoded_there`).
pub fn find_type(bits: &[u8]) -> Option<TypeFound>
    requires { (are_bits bits.now ≡ true) × (length bits.now ≤ most_bits) }
    ensures { (result ≡ type_in (map odd bits.now)) × IfSome result (λ t. (t.start + sync_size ≤ length bits.now) × (t.kind.class ≤ 4)) }
{
    for start in FIRST_START..LAST_START + 1 {
        if bits.len() < start + SYNC {
            return None;
        }
        if let Some(kind) = find_kind(word(bits, start)) {
            return Some(TypeFound { start, kind });
        }
    }
    None
}

// Decodes bits that are known to be bits.
pub fn decode_bits(bits: &[u8]) -> Option<UplinkFrame>
    requires { (are_bits bits.now ≡ true) × (length bits.now ≤ most_bits) }
    ensures { result ≡ decode_uplink (map odd bits.now) }
{
    let found = find_type(bits)?;
    Body::new(&bits[found.start + SYNC..], found.kind).decode()
}

// Decodes data bits that start somewhere in the preamble (frame.rs decode_uplink_bits).
pub fn decode_uplink_bits(bits: &[u8]) -> Result<Option<UplinkFrame>, Refusal>
    ensures { said result ≡ uplink_answer bits.now }
{
    if limits::MOST_BITS < bits.len() {
        return Err(Refusal::Long);
    }
    if !coding::are_bits(bits) {
        return Err(Refusal::BadNumber);
    }
    Ok(decode_bits(bits))
}
