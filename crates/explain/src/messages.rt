// The messages that a call wrote: their ranks, when they closed and why.
use crate::words::print_parts;
use ledger::Pending;
use receiver_waiting::{OPEN_PLACES, Waiting};
use record::read::EventRecord;

// No message waited.
const NEVER: f64 = -1.0;

// A mask of three ranks.
const ALL_RANKS: u8 = 7;

// When a frame last joined the message of a device and counter that waits, none where none waits.
pub fn last_of(waiting: &Waiting, device: u32, counter: u16) -> Option<f64> {
    let held = &waiting.messages[..waiting.count.min(OPEN_PLACES)];
    let is_of = |p: &&Pending| p.message.device_id == device && p.message.counter == counter;
    held.iter().find(is_of).map(|p| p.last)
}

fn print_ranks(rt: &impl Print, mask: u8) {
    if mask % 2 == 1 {
        replay::print(rt, b" 0");
    }
    if mask / 2 % 2 == 1 {
        replay::print(rt, b" 1");
    }
    if mask / 4 % 2 == 1 {
        replay::print(rt, b" 2");
    }
}

// A call that closes messages: those that waited before it, when it was, and whether it is the last one.
#[derive(Clone, Copy)]
pub struct Closing<'a> {
    pub waiting: &'a Waiting,
    pub time: f64,
    pub ended: bool,
}

impl<'a> Closing<'a> {
    // Why a message closed, of which a frame had last joined at a time.
    fn print_reason(&self, rt: &impl Print, mask: u8, last: Option<f64>) {
        if mask == ALL_RANKS {
            replay::print(rt, b"three ranks\n");
            return;
        }
        if self.ended {
            replay::print(rt, b"the recording ended");
            if let Some(last) = last {
                replay::print(rt, b", after a silence of ");
                print_parts(rt, self.time - last);
                replay::print(rt, b" s of 10");
            }
            replay::print_end(rt);
            return;
        }
        replay::print(rt, b"a silence of ");
        print_parts(rt, self.time - last.unwrap_or(NEVER));
        replay::print(rt, b" s, over 10\n");
    }

    // A message's record.
    fn print_message(&self, rt: &impl Print, r: EventRecord) {
        let device = r.device();
        let counter = r.counter();
        let mask = r.rank();
        replay::print(rt, b"message of device ");
        replay::print_hex(rt, u64::from(device), 8);
        replay::print(rt, b", counter ");
        replay::print_number(rt, counter);
        replay::print(rt, b", first heard at ");
        print_parts(rt, r.time());
        replay::print(rt, b" s, ranks");
        print_ranks(rt, mask);
        replay::print(rt, b"; closed at ");
        print_parts(rt, self.time);
        replay::print(rt, b" s: ");
        self.print_reason(rt, mask, last_of(self.waiting, device, counter));
    }

    // Those among its records.
    pub fn print_messages(&self, rt: &impl Print, events: &[u8]) {
        for r in events.chunks_exact(limits::RECORD) {
            let r = EventRecord::new(r);
            if r.kind() == record::MESSAGE {
                self.print_message(rt, r);
            }
        }
    }
}
