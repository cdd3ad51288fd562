// The lines of a call.
use ledger::Pending;
use receiver::SigfoxReceiver;
use receiver_starts::Starts;
use receiver_waiting::Waiting;

// The sample at a distance from the base; one that no state has after an accepted call is printed as 0 or as the largest number.
fn sample(base: u64, d: i32) -> u64 {
    let n = u64::from(d.cast_unsigned());
    if n < 0x8000_0000 {
        return if base <= u64::MAX - n {
            base + n
        } else {
            u64::MAX
        };
    }
    let k = 0x1_0000_0000 - n;
    if k <= base { base - k } else { 0 }
}

fn print_starts(rt: &impl Print, s: &Starts, base: u64) {
    for d in s.at.iter().take(s.count) {
        replay::print(rt, b" ");
        replay::print_number(rt, sample(base, *d));
    }
}

// Device, counter and the time of the frame that joined last.
fn print_message(rt: &impl Print, p: Pending) {
    let m = p.message;
    replay::print(rt, b" ");
    replay::print_hex(rt, m.device_id as u64, 8);
    replay::print(rt, b":");
    replay::print_number(rt, m.counter as u64);
    replay::print(rt, b":");
    replay::print_f64(rt, p.last);
}

fn print_waiting(rt: &impl Print, w: &Waiting) {
    for p in w.messages.iter().take(w.count) {
        print_message(rt, *p);
    }
}

fn print_field(rt: &impl Print, n: u64) {
    replay::print(rt, b" ");
    replay::print_number(rt, n);
}

fn print_state(rt: &impl Print, r: &SigfoxReceiver) {
    replay::print(rt, b"S");
    print_field(rt, r.held as u64);
    print_field(rt, r.base);
    print_field(rt, r.unscanned as u64);
    print_field(rt, r.starts.count as u64);
    print_starts(rt, &r.starts, r.base);
    print_field(rt, r.waiting.count as u64);
    print_waiting(rt, &r.waiting);
    replay::print_end(rt);
}

// The call, its records, and the state.
pub fn print_answer(
    rt: &impl Print,
    index: u64,
    name: &[u8],
    count: usize,
    r: &SigfoxReceiver,
    events: &mut [u8],
) {
    replay::print(rt, b"C");
    print_field(rt, index);
    replay::print(rt, b" ");
    replay::print(rt, name);
    print_field(rt, count as u64);
    replay::print_end(rt);
    replay_records::print_records(rt, events, count);
    print_state(rt, r);
}
