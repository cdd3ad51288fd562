// Repairs as the code tries them: a view of a body in which some bits at one place are replaced (frame.rs repairs), and its plain bytes.
ghost use Rattle.std.specs.Prelude.{◌≡◌, true, false, map, Some, ◌+◌, ◌*◌, ◌<◌, ◌≤◌, length, drop, get_or};
ghost use Rattle.coding.specs.Bits.{odd, bit_of, are_bits, to_bytes};
ghost use Rattle.coding.specs.Convolution.{fresh, deconvolved};
ghost use Rattle.frame.specs.Sizes.{most_bytes};
ghost use Rattle.frame.specs.Fields.{padded, crc_right};
ghost use Rattle.frame.specs.Repairs.{repaired};
ghost use Rattle.frame.specs.Plain.{NextByte, Passed, right_bits};
ghost use Rattle.frame.specs.Splices.{placed, place, keeping, spliced};

use crate::Repair;
use crate::bodies::Body;
use crate::plain::{Plaintext, Prefix};

// `skip` bits at `at` are replaced by `put` bits `bit`.
#[derive(Clone, Copy)]
pub struct Splice {
    pub at: usize,
    pub put: usize,
    pub bit: u8,
    pub skip: usize,
}

// What a repair of some bits replaces, and by what.
#[inline(always)]
pub fn splice_of(bits: &[u8], how: Repair) -> Splice
    requires { (are_bits bits.now ≡ true) × (placed (Some how) (length bits.now) ≡ true) }
    ensures { (result.bit < 2) × (result.put ≤ 1) × (result.skip ≤ 1) × (result.at + result.skip ≤ length bits.now) × (result.at ≡ place how)
        × (spliced result (map odd bits.now) ≡ repaired (Some how) (map odd bits.now)) }
{
    match how {
        Repair::Inserted(b, at) => Splice {
            at,
            put: 1,
            bit: u8::from(b),
            skip: 0,
        },
        Repair::Deleted(at) => Splice {
            at,
            put: 0,
            bit: 0,
            skip: 1,
        },
        Repair::Flipped(at) => Splice {
            at,
            put: 1,
            bit: 1 - bits[at],
            skip: 1,
        },
    }
}

// Bits with a splice in them, of any rank and any size of a frame. What reads them is inlined: else each call copies this, and decoding takes a quarter more.
#[derive(Clone, Copy)]
pub struct Spliced<'a> {
    pub bits: &'a [u8],
    pub rank: u8,
    // Bytes of the frame that is read in them.
    pub size: usize,
    pub splice: Splice,
    pub ghost valid: { are_bits bits.now ≡ true },
    pub ghost some: { 2 ≤ size },
    pub ghost most: { size ≤ most_bytes },
    pub ghost bit: { splice.bit < 2 },
    pub ghost put: { splice.put ≤ 1 },
    pub ghost skip: { splice.skip ≤ 1 },
    pub ghost inside: { splice.at + splice.skip ≤ length bits.now },
}

impl<'a> Body<'a> {
    ghost use Rattle.frame.specs.Bodies.{IsOf};

    #[inline(always)]
    fn spliced(self, splice: Splice) -> Spliced<'a>
        requires { (splice.bit < 2) × (splice.put ≤ 1) × (splice.skip ≤ 1) × (splice.at + splice.skip ≤ length self.bits.now) }
        ensures { IsOf result self.entry × (result.splice ≡ splice) }
    {
        Spliced {
            bits: self.bits,
            rank: self.kind.rank,
            size: self.size,
            splice,
        }
    }

    // With the splice that changes nothing.
    pub fn unchanged(self) -> Spliced<'a>
        ensures { IsOf result self.entry × (result.splice ≡ keeping) }
    {
        self.spliced(Splice {
            at: 0,
            put: 0,
            bit: 0,
            skip: 0,
        })
    }

    // With what a repair replaces, and by what.
    pub fn with(self, how: Repair) -> Spliced<'a>
        requires { placed (Some how) (length self.bits.now) ≡ true }
        ensures { IsOf result self.entry × (result.splice.at ≡ place how)
            × (spliced result.splice (map odd self.entry.bits.now) ≡ repaired (Some how) (map odd self.entry.bits.now)) }
    {
        self.spliced(splice_of(self.bits, how))
    }

    pub fn repaired(self, how: Option<Repair>) -> Spliced<'a>
        requires { placed how (length self.bits.now) ≡ true }
        ensures { IsOf result self.entry × (spliced result.splice (map odd self.entry.bits.now) ≡ repaired how (map odd self.entry.bits.now)) }
    {
        match how {
            None => self.unchanged(),
            Some(repair) => self.with(repair),
        }
    }
}

impl<'a> Spliced<'a> {
    ghost use Rattle.frame.specs.Bodies.{bits_of};

    #[inline(always)]
    pub fn len(self) -> usize
        ensures { result ≡ length (bits_of self.entry) }
    {
        self.bits.len() + self.splice.put - self.splice.skip
    }

    #[inline(always)]
    pub fn bit(self, j: usize) -> u8
        requires { j < length (bits_of self) }
        ensures { result ≡ bit_of (get_or (bits_of self.entry) j false) }
    {
        let s = self.splice;
        if j < s.at {
            return self.bits[j];
        }
        if j < s.at + s.put {
            return s.bit;
        }
        self.bits[j - s.put + s.skip]
    }

    // Eight bits, the convolution undone. The inputs before them end the byte before, `last`.
    fn spliced_byte(self, from: usize, last: u8) -> u8
        requires { (from + 8 ≤ length (bits_of self)) × (from < 1024) }
        ensures { NextByte self.entry.rank (drop from (bits_of self.entry)) last result }
    {
        let mut v: u8 = 0;
        let mut a = last % 2;
        let mut b = last / 2 % 2;
        for j in 0..8 {
            let x = coding::coded_bit(self.bit(from + j), self.rank, a, b);
            v = (v % 128) * 2 + x;
            b = a;
            a = x;
        }
        v
    }

    // Eight of the bits as they stand without the splice.
    #[inline(always)]
    pub fn straight_byte(self, from: usize, last: u8) -> u8
        requires { from + 8 ≤ length self.bits.now }
        ensures { NextByte self.entry.rank (drop from (map odd self.entry.bits.now)) last result }
    {
        let mut v: u8 = 0;
        let mut a = last % 2;
        let mut b = last / 2 % 2;
        for bit in &self.bits[from..from + 8] {
            let x = coding::coded_bit(*bit, self.rank, a, b);
            v = (v % 128) * 2 + x;
            b = a;
            a = x;
        }
        v
    }

    // Past the splice they are those, and nothing is asked of each.
    #[inline(always)]
    fn byte(self, from: usize, last: u8) -> u8
        requires { (from + 8 ≤ length (bits_of self)) × (from < 1024) }
        ensures { NextByte self.entry.rank (drop from (bits_of self.entry)) last result }
    {
        let s = self.splice;
        if s.at + s.put <= from {
            return self.straight_byte(from - s.put + s.skip, last);
        }
        self.spliced_byte(from, last)
    }

    // The plain bytes, the last two their CRC.
    #[inline(always)]
    pub fn plain_bytes(self) -> Plaintext
        requires { 8 * self.size ≤ length (bits_of self) }
        ensures { (result.bytes ≡ padded most_bytes (to_bytes self.entry.size (deconvolved self.entry.rank fresh (bits_of self.entry))))
            × (result.crc_ok ≡ crc_right self.entry.size result.bytes) }
    {
        let end = self.size - 2;
        let mut bytes = [0u8; 22];
        let mut crc: u16 = 0;
        let mut last: u8 = 0;
        for i in 0..end {
            last = self.byte(8 * i, last);
            bytes[i] = last;
            crc = coding::crc_byte(crc, last);
        }
        let high = self.byte(8 * end, last);
        let low = self.byte(8 * end + 8, high);
        bytes[end] = high;
        bytes[end + 1] = low;
        Plaintext {
            bytes,
            crc_ok: 65535 - crc == u16::from(high) * 256 + u16::from(low),
        }
    }

    // A byte more of the front.
    #[inline(always)]
    pub fn further(self, front: Prefix) -> Prefix
        requires { Passed self.rank (bits_of self) front
            × (8 * front.bytes + 8 ≤ length (bits_of self)) × (front.bytes < most_bytes) }
        ensures { Passed self.entry.rank (bits_of self.entry) result × (result.bytes ≡ front.bytes + 1) }
    {
        let next = self.byte(8 * front.bytes, front.last);
        Prefix {
            bytes: front.bytes + 1,
            crc: coding::crc_byte(front.crc, next),
            last: next,
        }
    }

    // Whether it parses as a frame with a right CRC; `front` has bytes from before the splice.
    #[inline(always)]
    pub fn is_right(self, front: Prefix) -> bool
        requires { Passed self.rank (map odd self.bits.now) front
            × (8 * front.bytes ≤ self.splice.at) × (front.bytes + 2 ≤ self.size) }
        ensures { result ≡ right_bits self.entry.rank self.entry.size (bits_of self.entry) }
    {
        if self.len() < 8 * self.size {
            return false;
        }
        let end = self.size - 2;
        let mut f = front;
        for _ in front.bytes..end {
            f = self.further(f);
        }
        let high = self.byte(8 * end, f.last);
        let low = self.byte(8 * end + 8, high);
        65535 - f.crc == u16::from(high) * 256 + u16::from(low)
    }
}
