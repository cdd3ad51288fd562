// The end of `listen`'s input.
ghost use Rattle.std.specs.Prelude.{◌≡◌, List, ◌++◌, ℕ, ◌≤◌, length};
ghost use Rattle.limits.specs.Answer.{cause_of};
ghost use Rattle.ledger.specs.Ledger.{by_frames, Ledger};
ghost use Rattle.frequency_lists.specs.declared.Tuning.{Tuning};
ghost use Rattle.frequency.specs.Lent.{lists};
ghost use Rattle.listening_lines.specs.Text.{Added};
ghost use Rattle.listening_lines.specs.Lines.{end_line};
ghost use Rattle.listening_receiver.specs.Hearing.{most};
ghost use Rattle.listening_receiver.specs.Standing.{StandsFor, Standing};
ghost use Rattle.listening.specs.Program.{ending, refusal_text, unless_refused};
ghost use Rattle.listening.specs.Hand.{out_places, state_of, Room};

use crate::Listener;
use frequency_lists::Reading;
use limits::Refusal;
use listening_lines::Line;
use listening_receiver::Buffers;
use listening_records::{Told, Tracked};
use receiver::SigfoxReceiver;

// The last line, or that of a refusal.
fn last_line(
    went: Result<(), Refusal>,
    samples: u64,
    frames: u64,
    messages: u64,
    leftover: usize,
) -> Line
    ensures { result ≡ refusal_text (cause_of went) ++ unless_refused (cause_of went) (end_line samples frames messages leftover) }
{
    match went {
        Ok(()) => listening_lines::end_line(samples, frames, messages, leftover),
        Err(refusal) => listening_lines::refusal_line(refusal),
    }
}

// `flush` and its messages, then the last line: the text stands at the start of `out` then.
pub fn finish(
    l: Listener,
    receiver: SigfoxReceiver,
    leftover: usize,
    readings: &[Reading; 8000],
    b: &mut Buffers,
    out: &mut [u8],
) -> usize
    requires standing { Standing receiver b.old.samples }
    requires room { (Room most l) × (out_places ≤ length out.old) }
    ensures added { (g : Ledger by_frames) (tunings : List Tuning) → StandsFor receiver b.old.samples g
        → Added out.old 0 (ending (state_of l (lists readings.now tunings) g) leftover) result out.new }
    ensures upper_bound { result ≤ out_places }
{
    let mut told = Told {
        frames: l.frames,
        messages: l.messages,
        end: 0,
    };
    let mut last = receiver;
    let q = Tracked {
        started: l.started,
        passed: l.passed,
        tracker: l.tracker,
        readings,
    };
    let went = listening_receiver::close(&mut told, &mut last, q, b, out);
    let line = last_line(went, l.samples, told.frames, told.messages, leftover);
    line.add_to(out, told.end)
}
