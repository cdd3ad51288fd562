// The fields of an event record, read from its bytes (01's table).
ghost use Rattle.std.specs.Prelude.{◌≡◌, ◌+◌, ◌≤◌, ◌<◌, length};
ghost use Rattle.limits.specs.Limits.{record_size};
ghost use Rattle.endian.specs.Bytes.{number_at};
ghost use Rattle.frame.specs.Fields.{byte_at};
ghost use Rattle.record.specs.Readers.{kind_of, rank_of, flags_of, payload_len_of, auth_len_of, repair_of, place_of, device_of, counter_of, depth_of, mark_of, ppm_of, rssi_of, time_of, end_of, start_of, span_at, spans_of};

use crate::FrameSpan;
use endian::LittleEndian;

// The bytes of an event record; those past the 120th mean nothing.
#[derive(Clone, Copy)]
pub struct EventRecord<'a> {
    pub bytes: &'a [u8],
    pub ghost whole: { record_size ≤ length bytes.now },
}

impl<'a> EventRecord<'a> {
    pub fn new(bytes: &'a [u8]) -> Self
        requires { record_size ≤ length bytes.now }
        ensures { result.bytes.now ≡ bytes.now }
    {
        EventRecord { bytes }
    }

    fn byte(self, at: usize) -> u8
        requires { at < record_size }
        ensures { result ≡ byte_at self.entry.bytes.now at }
    {
        self.bytes[at]
    }

    fn number<T: LittleEndian>(self, at: usize) -> T
        requires { at + T.SIZE ≤ record_size }
        ensures { result ≡ T.of_pattern (number_at T.SIZE self.entry.bytes.now at) }
    {
        endian::get(self.bytes, at)
    }

    // A frame or a message.
    pub fn kind(self) -> u8
        ensures { result ≡ kind_of self.entry.bytes.now }
    {
        self.byte(0)
    }

    // The rank of a frame, the mask of a message.
    pub fn rank(self) -> u8
        ensures { result ≡ rank_of self.entry.bytes.now }
    {
        self.byte(1)
    }

    pub fn flags(self) -> u8
        ensures { result ≡ flags_of self.entry.bytes.now }
    {
        self.byte(2)
    }

    pub fn payload_len(self) -> u8
        ensures { result ≡ payload_len_of self.entry.bytes.now }
    {
        self.byte(3)
    }

    pub fn auth_len(self) -> u8
        ensures { result ≡ auth_len_of self.entry.bytes.now }
    {
        self.byte(4)
    }

    // How a frame was repaired.
    pub fn repair(self) -> u8
        ensures { result ≡ repair_of self.entry.bytes.now }
    {
        self.byte(5)
    }

    // At which bit.
    pub fn place(self) -> u16
        ensures { result ≡ place_of self.entry.bytes.now }
    {
        self.number(6)
    }

    pub fn device(self) -> u32
        ensures { result ≡ device_of self.entry.bytes.now }
    {
        self.number(8)
    }

    pub fn counter(self) -> u16
        ensures { result ≡ counter_of self.entry.bytes.now }
    {
        self.number(12)
    }

    // Half decibels of the dips' depth; 0 where there were none.
    pub fn depth(self) -> u8
        ensures { result ≡ depth_of self.entry.bytes.now }
    {
        self.byte(33)
    }

    // The mark of a message: 1 inside its shifts, 2 outside, 0 where no start second was given.
    pub fn mark(self) -> u8
        ensures { result ≡ mark_of self.entry.bytes.now }
    {
        self.byte(34)
    }

    // The clock error.
    pub fn ppm(self) -> i32
        ensures { result ≡ ppm_of self.entry.bytes.now }
    {
        self.number(36)
    }

    // In dBm.
    pub fn rssi(self) -> f32
        ensures { result ≡ rssi_of self.entry.bytes.now }
    {
        self.number(40)
    }

    // In seconds of the stream.
    pub fn time(self) -> f64
        ensures { result ≡ time_of self.entry.bytes.now }
    {
        self.number(48)
    }

    // The end of a frame, the first-frame end of a message.
    pub fn end(self) -> f64
        ensures { result ≡ end_of self.entry.bytes.now }
    {
        self.number(56)
    }

    // The first sample of a frame.
    pub fn start(self) -> u64
        ensures { result ≡ start_of self.entry.bytes.now }
    {
        self.number(112)
    }

    // A message's spans.
    pub fn spans(self) -> [FrameSpan; 3]
        ensures { result ≡ spans_of self.entry.bytes.now }
    {
        [self.span(0), self.span(1), self.span(2)]
    }

    fn span(self, i: usize) -> FrameSpan
        requires { i < 3 }
        ensures { result ≡ span_at self.entry.bytes.now i }
    {
        FrameSpan {
            rank: self.byte(44 + i),
            time: self.number(64 + 16 * i),
            end: self.number(72 + 16 * i),
        }
    }
}
