// Pushes on a receiver that grew from a fresh one: what it holds is in order, so that a caller that knows this has it tested no more.
#![tactic(auto)]

ghost use Rattle.std.specs.Prelude.{◌≡◌, true, length};
ghost use Rattle.ledger.specs.Ledger.{push_raw};
ghost use Rattle.shifts.specs.Shifts.{schedule};
ghost use Rattle.receiver.specs.Calls.{Memory};
ghost use Rattle.receiver.specs.Running.{OnlyAdds, Views};
ghost use Rattle.receiver_grown.specs.InOrder.{InOrder};

use receiver::{SigfoxReceiver, View};
use shifts::Given;

// Whether a push of these raw samples is accepted and only adds them to those held: `SigfoxReceiver::adds_raw` without a look at what is held.
pub fn adds_raw(s: &SigfoxReceiver, raw: &[u8], given: &Given, lent: View) -> bool
    requires { InOrder s.now lent.samples.now }
    ensures { result ≡ true → (m : Memory) → Views lent.entry m → OnlyAdds s.now (push_raw raw.now) (schedule given.now) (length raw.now) m }
{
    let n = raw.len();
    if receiver::check_given(s.rate, lent.lengths(), n).is_err() {
        return false;
    }
    if receiver::check_stream(s.base, s.held, n).is_err() {
        return false;
    }
    if !receiver::run::fits(s.rate, s.held, s.unscanned, n) {
        return false;
    }
    if given.check().is_err() {
        return false;
    }
    let held = s.held + n;
    let time = receiver_scan::seconds(s.rate, s.base + (held as u64));
    let c = receiver_waiting::check(&s.waiting, time);
    !c.nan & !c.expires
}
