// Frames' spans in the input.
use record::{FrameSpan, NO_RANK};
use replay::Unanswered;

// As many spans as a message has, three at most; in the other places none.
pub fn read_spans(rt: &impl Input, count: u8) -> Result<[FrameSpan; 3], Unanswered> {
    let none = FrameSpan {
        rank: NO_RANK,
        time: 0.0,
        end: 0.0,
    };
    let mut spans = [none; 3];
    for span in spans.iter_mut().take(usize::from(count)) {
        *span = replay::read_span(rt)?;
    }
    Ok(spans)
}
