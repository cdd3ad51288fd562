// A state that is handed in: base, unscanned count, held samples, starts, and of each message that waits its record and the time of the frame that joined last.
use ledger::Pending;
use receiver::SigfoxReceiver;
use receiver_starts::{MOST_STARTS, Starts};
use receiver_waiting::Waiting;
use record::read::EventRecord;
use record::{FrameSpan, NO_RANK, SigfoxMessage};
use replay::Unanswered;

// n samples after the first held one, or the farthest i32.
fn after(n: u64) -> i32 {
    (n.min(0x7fff_ffff) as u32).cast_signed()
}

// n samples before it, or the farthest i32.
fn before(n: u64) -> i32 {
    let k = n.min(0x8000_0000) as u32;
    if k == 0 {
        return 0;
    }
    (u32::MAX - k + 1).cast_signed()
}

// A start in two's complement less the base, or the nearest i32 to it.
fn distance(start: u64, base: u64) -> i32 {
    if start < 0x8000_0000_0000_0000 {
        if base <= start {
            return after(start - base);
        }
        return before(base - start);
    }
    before((u64::MAX - start).min(0xffff_ffff) + base.min(0xffff_ffff) + 1)
}

// A count, and that many starts; those past the last place are read over.
fn read_starts(rt: &impl Input, starts: Starts, base: u64) -> Result<Starts, Unanswered> {
    let mut count = [0u8; 1];
    replay::read_part(rt, &mut count)?;
    let mut t = starts;
    t.count = usize::from(count[0]);
    for i in 0..t.count {
        let mut part = [0u8; 8];
        replay::read_part(rt, &mut part)?;
        if i < MOST_STARTS {
            t.at[i] = distance(endian::get(&part, 0), base);
        }
    }
    Ok(t)
}

fn bit_of(flags: u8) -> Option<bool> {
    if flags / 8 % 2 == 0 {
        return None;
    }
    Some(flags / 16 % 2 == 1)
}

fn end_of(flags: u8, end: f64) -> Option<f64> {
    if flags / 32 % 2 == 0 {
        return None;
    }
    Some(end)
}

// The spans of a record, in front of the places that hold none.
fn spans_of(r: EventRecord) -> [FrameSpan; 3] {
    let none = FrameSpan {
        rank: NO_RANK,
        time: 0.0,
        end: 0.0,
    };
    let mut spans = [none; 3];
    let mut n: usize = 0;
    for span in r.spans() {
        if span.rank != NO_RANK {
            spans[n] = span;
            n += 1;
        }
    }
    spans
}

// The message of a record. What payload and auth hold past their lengths is handed in as it stands.
fn message_of(r: &[u8; 120]) -> SigfoxMessage {
    let event = EventRecord::new(r);
    let flags = event.flags();
    let payload = [
        r[16], r[17], r[18], r[19], r[20], r[21], r[22], r[23], r[24], r[25], r[26], r[27],
    ];
    let bit = bit_of(flags);
    let auth = [r[28], r[29], r[30], r[31], r[32]];
    let first_frame_end = end_of(flags, event.end());
    let spans = spans_of(event);
    SigfoxMessage {
        device_id: event.device(),
        counter: event.counter(),
        payload,
        payload_len: event.payload_len(),
        bit,
        downlink: flags % 2 == 1,
        control: flags / 2 % 2 == 1,
        auth,
        auth_len: event.auth_len(),
        time: event.time(),
        first_frame_end,
        rssi: event.rssi(),
        spans,
        clock_error_ppm: event.ppm(),
        start: event.start(),
        depth: event.depth(),
    }
}

// A count, and for each message its record and the time of the frame that joined last; those past the last place are read over.
fn read_waiting(rt: &impl Input, waiting: Waiting) -> Result<Waiting, Unanswered> {
    let mut count = [0u8; 1];
    replay::read_part(rt, &mut count)?;
    let mut t = waiting;
    t.count = usize::from(count[0]);
    for i in 0..t.count {
        let mut r = [0u8; 120];
        let mut part = [0u8; 8];
        replay::read_part(rt, &mut r)?;
        replay::read_part(rt, &mut part)?;
        if i < receiver_waiting::OPEN_PLACES {
            let message = message_of(&r);
            t.messages[i] = Pending {
                message,
                last: endian::get(&part, 0),
            };
        }
    }
    Ok(t)
}

// The state of the input, for a rate; its samples go into the buffer.
pub fn read_state(
    rt: &impl Input,
    rate: u32,
    samples: &mut [f32],
) -> Result<SigfoxReceiver, Unanswered> {
    let mut head = [0u8; 12];
    replay::read_part(rt, &mut head)?;
    let mut receiver = SigfoxReceiver::new(rate);
    receiver.base = endian::get(&head, 0);
    receiver.unscanned = endian::get::<u32>(&head, 8) as usize;
    receiver.held = replay::read_list(rt, samples)?.len();
    receiver.starts = read_starts(rt, receiver.starts, receiver.base)?;
    receiver.waiting = read_waiting(rt, receiver.waiting)?;
    Ok(receiver)
}
