// The whole records of the input's buffer.
ghost use Rattle.std.specs.Prelude.{◌≡◌, List, ◌++◌, ℕ, ◌+◌, ◌*◌, ◌/◌, ◌≤◌, length, take};
ghost use Rattle.frequency.specs.Lent.{lists};
ghost use Rattle.listening.specs.Program.{record_bytes};
ghost use Rattle.listening.specs.Hand.{out_places, Room, Near, Reached, Come, GoesOn};

use crate::handing::hand_over;
use crate::stepping::record_step;
use crate::{Listener, Stop};
use frequency_lists::{Reading, Tuning};
use listening_receiver::Buffers;
use receiver::SigfoxReceiver;

// Bytes of a record.
pub const RECORD: usize = 16;

// The whole records of a part of the buffer: the text of each is handed over at once; nothing after a refusal, or where a text could not be written.
pub fn hear(
    rt: &impl Print,
    l: &mut Listener,
    receiver: &mut SigfoxReceiver,
    records: &[u8],
    readings: &mut [Reading; 8000],
    tunings: &mut [Tuning; 64],
    b: &mut Buffers,
    out: &mut [u8],
) -> Result<(), Stop>
    requires come { Come l.old receiver.old (lists readings.old tunings.old) b.old.samples }
    requires room { (length «records».now ≤ 4096) × (Room 65536 l.old) × (out_places ≤ length out.old) }
    ensures by_index { (read : List ℕ) (n : ℕ) → length read ≡ record_bytes * n
        → Reached read n l.old receiver.old (lists readings.old tunings.old) b.old.samples
        → GoesOn (read ++ take (16 * (length «records».now / 16)) «records».now) (n + length «records».now / 16) result l.new receiver.new
        (lists readings.new tunings.new) b.new.samples }
    ensures near { Near 65536 l.old l.new }
{
    for bytes in records.chunks_exact(RECORD) {
        let r = record_step(l, receiver, bytes, readings, tunings, b, out);
        let written = hand_over(rt, &out[..r.end]);
        r.went?;
        written?;
    }
    Ok(())
}
