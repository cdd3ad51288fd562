// A frame's body: the bits after its type (frame.rs parse_body, decode_uplink_bits).
ghost use Rattle.std.specs.Prelude.{◌≡◌, true, false, map, None, Some, ◌+◌, ◌*◌, ◌<◌, ◌≤◌, length, drop};
ghost use Rattle.coding.specs.Bits.{odd, are_bits};
ghost use Rattle.limits.specs.Limits.{most_bits};
ghost use Rattle.frame.specs.Sizes.{body_bytes, most_bytes};
ghost use Rattle.frame.specs.Fields.{crc_right, frame_from};
ghost use Rattle.frame.specs.Repairs.{repairs, first_of};
ghost use Rattle.frame.specs.Decode.{parse_body, passes, mends, first_repair, decode_body};
ghost use Rattle.frame.specs.Plain.{NextByte, Passed};
ghost use Rattle.frame.specs.Splices.{placed};

use crate::kinds::FrameKind;
use crate::plain::{Plaintext, Prefix};
use crate::sizes::Layout;
use crate::{Repair, UplinkFrame};

// Bits to which cause 9 does not apply, and what their frame type says of them.
#[derive(Clone, Copy)]
pub struct Body<'a> {
    pub bits: &'a [u8],
    pub kind: FrameKind,
    // Bytes of a frame of this kind.
    pub size: usize,
    pub ghost valid: { are_bits bits.now ≡ true },
    pub ghost few: { length bits.now ≤ most_bits },
    pub ghost class: { kind.class ≤ 4 },
    pub ghost whole: { size ≡ body_bytes kind.class },
    pub ghost some: { 2 ≤ size },
    pub ghost most: { size ≤ most_bytes },
}

// The frame of a kind that plain bytes hold.
#[inline(always)]
pub fn frame_from(plain: Plaintext, kind: FrameKind, how: Option<Repair>) -> UplinkFrame
    requires { (kind.class ≤ 4) × (plain.crc_ok ≡ crc_right (body_bytes kind.class) plain.bytes) }
    ensures { result ≡ frame_from kind how plain.bytes }
{
    let layout = Layout {
        class: kind.class,
        li: plain.li(),
    };
    UplinkFrame {
        rank: kind.rank,
        device_id: plain.device(),
        counter: plain.counter(),
        payload: plain.payload(layout),
        payload_len: layout.payload_size(),
        bit: layout.bit(),
        downlink: plain.bytes[0] / 32 % 2 == 1,
        control: kind.control,
        auth: plain.auth(layout),
        auth_len: layout.auth_size(),
        crc_ok: plain.crc_ok,
        repaired: how,
    }
}

impl<'a> Body<'a> {
    pub fn new(bits: &'a [u8], kind: FrameKind) -> Body<'a>
        requires { (are_bits bits.now ≡ true) × (length bits.now ≤ most_bits) × (kind.class ≤ 4) }
        ensures { (result.bits.now ≡ bits.now) × (result.kind ≡ kind) }
    {
        let layout = Layout {
            class: kind.class,
            li: 0,
        };
        Body {
            bits,
            kind,
            size: layout.body_bytes(),
        }
    }

    // Eight bits, the convolution undone. The inputs before them end the byte before, `last`.
    #[inline(always)]
    pub fn byte(self, from: usize, last: u8) -> u8
        requires { from + 8 ≤ length self.bits.now }
        ensures { NextByte self.entry.kind.rank (drop from (map odd self.entry.bits.now)) last result }
    {
        self.unchanged().straight_byte(from, last)
    }

    // Its frame when it is repaired; none where it has too few bits.
    fn parse(self, how: Option<Repair>) -> Option<UplinkFrame>
        requires { placed how (length self.bits.now) ≡ true }
        ensures { result ≡ parse_body self.entry.kind how (map odd self.entry.bits.now) }
    {
        let spliced = self.repaired(how);
        if spliced.len() < 8 * self.size {
            return None;
        }
        Some(frame_from(spliced.plain_bytes(), self.kind, how))
    }

    // The bytes before a place, for the repairs there: a byte more where it is whole, up to the CRC.
    fn front_at(self, front: Prefix, i: usize) -> Prefix
        requires { Passed self.kind.rank (map odd self.bits.now) front
            × (i ≤ length self.bits.now) × (8 * front.bytes ≤ i) × (front.bytes + 2 ≤ self.size) }
        ensures { Passed self.entry.kind.rank (map odd self.entry.bits.now) result × (8 * result.bytes ≤ i) × (result.bytes + 2 ≤ self.entry.size) }
    {
        if i < 8 * front.bytes + 8 {
            return front;
        }
        if self.size < front.bytes + 3 {
            return front;
        }
        self.unchanged().further(front)
    }

    // The first repair at a place that gives a frame with a right CRC; `front` has bytes from before it.
    fn repair_at(self, i: usize, front: Prefix) -> Option<Repair>
        requires { Passed self.kind.rank (map odd self.bits.now) front
            × (i < length self.bits.now) × (8 * front.bytes ≤ i) × (front.bytes + 2 ≤ self.size) }
        ensures { result ≡ first_of (mends self.entry.kind (map odd self.entry.bits.now)) (repairs 1 i) }
    {
        let tries = [
            Repair::Inserted(true, i),
            Repair::Inserted(false, i),
            Repair::Deleted(i),
            Repair::Flipped(i),
        ];
        for how in tries {
            if self.with(how).is_right(front) {
                return Some(how);
            }
        }
        None
    }

    // The first repair that gives a frame with a right CRC. A repair past the frame's bits changes nothing.
    fn first_repair(self) -> Option<Repair>
        requires { passes self.kind (map odd self.bits.now) None ≡ false }
        ensures { result ≡ first_repair self.entry.kind (map odd self.entry.bits.now) }
    {
        let end = self.bits.len().min(8 * self.size);
        let mut front = Prefix {
            bytes: 0,
            crc: 0,
            last: 0,
        };
        for i in 0..end {
            front = self.front_at(front, i);
            if let Some(how) = self.repair_at(i, front) {
                return Some(how);
            }
        }
        None
    }

    // Its frame: as it is, else by the first repair that passes, else as it is with a wrong CRC.
    pub fn decode(self) -> Option<UplinkFrame>
        ensures { result ≡ decode_body self.entry.kind (map odd self.entry.bits.now) }
    {
        if let Some(f) = self.parse(None) {
            if f.crc_ok {
                return Some(f);
            }
        }
        self.parse(self.first_repair())
    }
}
