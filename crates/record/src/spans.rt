// Spans that are handed in to a call (01, cause 9: a rank over 2, a time not within ±10^9, a NaN).
ghost use Rattle.std.specs.Prelude.{◌≡◌, ◌∷◌, []};
ghost use Rattle.record.specs.Spans.{span_ok, place_ok, spans_ok};

use crate::FrameSpan;

// Whether cause 9 does not apply to a span.
pub fn span_ok(s: FrameSpan) -> bool
    ensures { result ≡ span_ok s }
{
    let rank = s.rank <= coding::HIGHEST_RANK;
    let time = limits::time_ok(s.time);
    rank & (time & limits::time_ok(s.end))
}

// The same of a place, which may hold no span.
pub fn place_ok(s: FrameSpan) -> bool
    ensures { result ≡ place_ok s }
{
    !s.is_there() | span_ok(s)
}

// The same of a message's three places.
pub fn spans_ok(a: FrameSpan, b: FrameSpan, c: FrameSpan) -> bool
    ensures { result ≡ spans_ok (a ∷ b ∷ c ∷ []) }
{
    let first = place_ok(a);
    let second = place_ok(b);
    first & (second & place_ok(c))
}
