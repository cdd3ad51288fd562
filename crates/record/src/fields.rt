// The numbers that a record's bytes hold: flags, mask, repair (01's table).
ghost use Rattle.std.specs.Prelude.{◌≡◌, cond, ◌+◌, ◌≤◌, ◌<◌};
ghost use Rattle.record.specs.Record.{flag, bit_flags, known_flag, frame_flags, message_flags, rank_bit, mask_of, repair_number, repair_place, end_of};

use crate::SigfoxMessage;
use frame::{Repair, UplinkFrame};

fn flag_if(w: u8, b: bool) -> u8
    ensures { (result ≡ flag w b) × (result ≤ w) }
{
    if b { w } else { 0 }
}

fn bit_flags(bit: Option<bool>) -> u8
    ensures { (result ≡ bit_flags bit) × (result ≤ 24) }
{
    match bit {
        None => 0,
        Some(b) => if b { 24 } else { 8 },
    }
}

fn known_flag(e: Option<f64>) -> u8
    ensures { (result ≡ known_flag e) × (result ≤ 32) }
{
    flag_if(32, e.is_some())
}

// Byte 2 of a frame.
pub fn frame_flags(f: UplinkFrame) -> u8
    ensures { result ≡ frame_flags f }
{
    flag_if(1, f.downlink) + flag_if(2, f.control) + flag_if(4, f.crc_ok) + bit_flags(f.bit)
}

// Byte 2 of a message, whose CRC is right.
pub fn message_flags(m: SigfoxMessage) -> u8
    ensures { result ≡ message_flags m }
{
    flag_if(1, m.downlink)
        + flag_if(2, m.control)
        + 4
        + bit_flags(m.bit)
        + known_flag(m.first_frame_end)
}

fn rank_bit(rank: u8) -> u8
    ensures { (result ≡ rank_bit rank) × (result ≤ 4) }
{
    if rank == 0 {
        return 1;
    }
    if rank == 1 {
        return 2;
    }
    if rank == 2 { 4 } else { 0 }
}

// Byte 1 of a message: 1, 2 and 4 for the ranks of its spans.
pub fn mask_of(m: SigfoxMessage) -> u8
    ensures { result ≡ mask_of m }
{
    rank_bit(m.spans[0].rank) + rank_bit(m.spans[1].rank) + rank_bit(m.spans[2].rank)
}

// Byte 5: how a frame was repaired.
pub fn repair_number(how: Option<Repair>) -> u8
    ensures { result ≡ repair_number how }
{
    match how {
        None => 0,
        Some(Repair::Inserted(b, _)) => if b { 2 } else { 1 },
        Some(Repair::Deleted(_)) => 3,
        Some(Repair::Flipped(_)) => 4,
    }
}

// Bytes 6 and 7: at which bit.
pub fn repair_place(how: Option<Repair>) -> usize
    ensures { result ≡ repair_place how }
{
    match how {
        None => 0,
        Some(Repair::Inserted(_, i)) => i,
        Some(Repair::Deleted(i)) => i,
        Some(Repair::Flipped(i)) => i,
    }
}

// Bytes 56 to 63 of a message: the end of its first frame, 0 where it is not known.
pub fn end_of(e: Option<f64>) -> f64
    ensures { result ≡ end_of e }
{
    e.unwrap_or(0.0)
}
