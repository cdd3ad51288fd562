// The end of a call (receiver.rs `expire`): the records of the messages that leave, behind those of the call's frames.
#![tactic(auto)]

ghost use Rattle.std.specs.Prelude.{◌≡◌, true, cond, ◌+◌, ◌*◌, ◌≤◌, length};
ghost use Rattle.std.proofs.lemmas.List.Edits.{sets};
ghost use Rattle.limits.specs.Limits.{record_size};
ghost use Rattle.record.specs.Record.{message_record};
ghost use Rattle.demod.specs.Capture.{joined};
ghost use Rattle.ledger.specs.Merge.{finished};
ghost use Rattle.ledger.specs.Records.{Sized};
ghost use Rattle.ledger.specs.Room.{open_places};
ghost use Rattle.shifts.specs.Shifts.{schedule, mark_by};
ghost use Rattle.receiver_waiting.specs.Waiting.{waiting_of, leaves};
ghost use Rattle.receiver_closing.specs.Written.{written, put_if};

use ledger::Pending;
use receiver_waiting::{Leaving, Waiting};
use shifts::Given;

// The record of a message that leaves, with its mark, after `count` others; how many there are then.
fn write_message(
    p: Pending,
    leaving: Leaving,
    given: &Given,
    events: &mut [u8],
    count: usize,
) -> usize
    requires { leaves leaving p ≡ true → record_size * (count + 1) ≤ length events.old }
    ensures { (result ≡ cond (leaves leaving p) (count + 1) count)
        × (events.new ≡ put_if (leaves leaving p) (message_record (mark_by (schedule given.now) (finished p).time) (finished p)) (record_size * count) events.old)
        × (length (message_record (mark_by (schedule given.now) (finished p).time) (finished p)) ≡ record_size) }
{
    if receiver_waiting::leaves(p, leaving) {
        let m = receiver_message::finished(p);
        let mark = given.mark(m.time);
        record::put_message(m, mark, events, limits::RECORD * count);
        return count + 1;
    }
    count
}

// The records of the messages that leave, all or those that are complete at a time, after `count` others; how many there are then.
pub fn write_messages(
    w: &Waiting,
    leaving: Leaving,
    given: &Given,
    events: &mut [u8],
    count: usize,
) -> usize
    requires { (w.now.count ≤ open_places) × (record_size * (count + length (written (mark_by (schedule given.now)) leaving (waiting_of w.now))) ≤ length events.old) }
    ensures { (result ≡ count + length (written (mark_by (schedule given.now)) leaving (waiting_of w.now)))
        × (events.new ≡ sets events.old (record_size * count) (joined (written (mark_by (schedule given.now)) leaving (waiting_of w.now))))
        × Sized (written (mark_by (schedule given.now)) leaving (waiting_of w.now)) }
{
    let n = w.count;
    let mut k = count;
    for p in &w.messages[..n] {
        k = write_message(*p, leaving, given, events, k);
    }
    k
}
