// The 120-byte event record of 01's table: what makes one of a frame or of a message, what reads its fields, and the C function that decodes bits into one.
#![tactic(auto)]

ghost use Rattle.std.specs.Prelude.{◌≡◌, not, eqb, ◌+◌, ◌≤◌, length};
ghost use Rattle.std.proofs.lemmas.List.Edits.{sets};
ghost use Rattle.limits.specs.Limits.{record_size};
ghost use Rattle.record.specs.Record.{no_rank, frame_head, message_head, frame_record, message_record};
ghost use Rattle.record.specs.Decoding.{decode_number, decode_record};

mod fields; // numbers of a record's bytes
mod parts; // runs of a record's bytes
pub mod read; // readers
pub mod spans; // spans that are handed in

use fields::{end_of, frame_flags, mask_of, message_flags, repair_number, repair_place};
use frame::UplinkFrame;
use limits::Refusal;
use parts::{Content, Head, Marks, put_front, put_middle, put_spans, put_spare};

// Byte 0 of a record.
pub const FRAME: u8 = 1;

pub const MESSAGE: u8 = 2;

// No span in a place.
pub const NO_RANK: u8 = 255;

// What a receiver adds to a frame.
#[derive(Clone, Copy)]
pub struct Reception {
    pub clock_error_ppm: i32,
    pub rssi: f32,
    pub time: f64,
    pub end: f64,
    // Absolute sample.
    pub start: u64,
    // Of the dips, in half decibels.
    pub depth: u8,
}

// When a frame of a message was on air; rank 255: no span in this place.
#[derive(Clone, Copy)]
pub struct FrameSpan {
    pub rank: u8,
    pub time: f64,
    pub end: f64,
}

impl FrameSpan {
    // Whether this place holds a span.
    pub fn is_there(self) -> bool
        ensures { result ≡ not (eqb self.rank no_rank) }
    {
        self.rank != NO_RANK
    }
}

#[derive(Clone, Copy)]
pub struct SigfoxMessage {
    pub device_id: u32,
    pub counter: u16,
    pub payload: [u8; 12],
    pub payload_len: u8,
    pub bit: Option<bool>,
    pub downlink: bool,
    pub control: bool,
    pub auth: [u8; 5],
    pub auth_len: u8,
    pub time: f64,
    pub first_frame_end: Option<f64>,
    pub rssi: f32,
    pub spans: [FrameSpan; 3],
    pub clock_error_ppm: i32,
    pub start: u64,
    // Of its first frame's dips, in half decibels.
    pub depth: u8,
}

fn frame_head(f: UplinkFrame) -> Head
    ensures { result ≡ frame_head f }
{
    let how = f.repaired;
    Head {
        kind: FRAME,
        rank: f.rank,
        flags: frame_flags(f),
        payload_len: f.payload_len,
        auth_len: f.auth_len,
        repair: repair_number(how),
        place: repair_place(how),
    }
}

// A frame's record, at a place of `out`.
pub fn put_frame(f: UplinkFrame, r: Reception, out: &mut [u8], at: usize)
    requires { at + record_size ≤ length out.old }
    ensures { out.new ≡ sets out.old at (frame_record f r) }
{
    let payload = f.payload;
    let auth = f.auth;
    let content = Content {
        device: f.device_id,
        counter: f.counter,
        payload,
        auth,
        marks: Marks {
            depth: r.depth,
            shift: 0,
        },
        ppm: r.clock_error_ppm,
        rssi: r.rssi,
    };
    put_front(out, at, frame_head(f), content);
    put_middle(out, at + 44, NO_RANK, NO_RANK, NO_RANK, r.time, r.end);
    put_spare(out, at + 64, 48);
    endian::put(out, at + 112, r.start);
}

fn message_head(m: SigfoxMessage) -> Head
    ensures { result ≡ message_head m }
{
    Head {
        kind: MESSAGE,
        rank: mask_of(m),
        flags: message_flags(m),
        payload_len: m.payload_len,
        auth_len: m.auth_len,
        repair: 0,
        place: 0,
    }
}

// A message's record with its mark, at a place of `out`.
pub fn put_message(m: SigfoxMessage, mark: u8, out: &mut [u8], at: usize)
    requires { at + record_size ≤ length out.old }
    ensures { out.new ≡ sets out.old at (message_record mark m) }
{
    let [a, b, c] = m.spans;
    let payload = m.payload;
    let auth = m.auth;
    let content = Content {
        device: m.device_id,
        counter: m.counter,
        payload,
        auth,
        marks: Marks {
            depth: m.depth,
            shift: mark,
        },
        ppm: m.clock_error_ppm,
        rssi: m.rssi,
    };
    put_front(out, at, message_head(m), content);
    put_middle(
        out,
        at + 44,
        a.rank,
        b.rank,
        c.rank,
        m.time,
        end_of(m.first_frame_end),
    );
    put_spans(out, at + 64, a, b, c);
    endian::put(out, at + 112, m.start);
}

// What the C function answers where the bits hold no frame.
const NO_FRAME: u8 = 255;

// Decodes bits, a byte 0 or 1 each, into one record: 0 and the record, 255 and nothing written for no frame, or a refusal.
pub fn sigfox_decode_bits(bits: &[u8], record: &mut [u8]) -> u8
    ensures { (result ≡ decode_number bits.now «record».old) × («record».new ≡ decode_record bits.now «record».old) }
{
    if record.len() < limits::RECORD {
        return u8::from(Refusal::Short);
    }
    let found = match frame::decode_uplink_bits(bits) {
        Err(refusal) => {
            return u8::from(refusal);
        }
        Ok(found) => found,
    };
    let Some(f) = found else {
        return NO_FRAME;
    };
    let heard = Reception {
        clock_error_ppm: 0,
        rssi: 0.0,
        time: 0.0,
        end: 0.0,
        start: 0,
        depth: 0,
    };
    put_frame(f, heard, record, 0);
    0
}
