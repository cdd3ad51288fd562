// A scan of the held samples: which bursts the receiver took in it, and which it left.
ghost use Rattle.std.specs.Prelude.{◌^◌, ◌<◌};

use crate::tally::{Ending, Tally};
use crate::words::print_parts;
use bursts::Burst;
use receiver::SigfoxReceiver;

// No list of samples has more bursts.
const MOST_BURSTS: usize = 48_000;

// A burst that is shorter than this, in parts of a second, is counted and not shown.
const SPIKE_PART: u32 = 20;

// Places of starts are below this.
const MOST_PLACE: u64 = 0x8000_0000;

// What the calls of a scan are lent.
#[derive(Drop)]
pub struct Scratch {
    pub f32s: [f32; 48000],
    pub f64s: [f64; limits::SCRATCH64],
}

// A call that scanned: the receiver before it and after it, the samples that it looked at, how long ago a burst must have ended, and what was counted.
#[derive(Clone, Copy)]
pub struct Look<'a> {
    pub before: &'a SigfoxReceiver,
    pub after: &'a SigfoxReceiver,
    pub held: &'a [f32],
    pub wait: usize,
    pub tally: Tally,
}

// A number of samples in seconds.
pub fn seconds(rate: u32, n: u64) -> f64 {
    if limits::LONGEST_STREAM < n {
        return 0.0;
    }
    floats::count_as_f64(n as usize) / f64::from(rate)
}

// The time of a receiver's newest sample.
pub fn time_of(r: &SigfoxReceiver) -> f64 {
    seconds(r.rate, r.base.wrapping_add(r.held as u64))
}

// The place of an absolute sample, the first one held being `base`.
fn place_of(base: u64, start: u64) -> usize
    ensures { result < 2 ^ 31 }
{
    if start < base || MOST_PLACE <= start - base {
        return 0;
    }
    (start - base) as usize
}

impl<'a> Look<'a> {
    pub fn rate(&self) -> u32 {
        self.after.rate
    }

    // The absolute sample at a place.
    pub fn at(&self, place: usize) -> u64 {
        self.after.base.wrapping_add(place as u64)
    }

    // Its second.
    pub fn second_at(&self, place: usize) -> f64 {
        seconds(self.rate(), self.at(place))
    }

    // How many seconds lie between two places.
    pub fn seconds_between(&self, from: usize, to: usize) -> f64 {
        seconds(self.rate(), dips::back(to, from) as u64)
    }

    // Whether the receiver took a burst in this call.
    fn took(&self, b: Burst) -> bool {
        let before = self.before.starts;
        let after = self.after.starts;
        if receiver_starts::MOST_STARTS < before.count
            || receiver_starts::MOST_STARTS < after.count
        {
            return false;
        }
        let start = self.at(b.start);
        explaining::took(
            self.rate(),
            before,
            place_of(self.before.base, start),
            after,
            place_of(self.after.base, start),
        )
    }

    // Whether a burst is one of those that a scan looks at.
    fn is_long(&self, b: Burst) -> bool {
        let options = receiver_scan::scan_options();
        match bursts::find_bursts(self.held, self.rate(), options, b.floor_dbm, b.start) {
            Err(_) | Ok(None) => false,
            Ok(Some(c)) => c.start == b.start,
        }
    }

    fn is_spike(&self, b: Burst) -> bool {
        dips::back(b.end, b.start) < ((self.rate() / SPIKE_PART) as usize)
    }

    // Whether a burst ended long enough ago.
    fn has_ended(&self, b: Burst) -> bool {
        self.wait <= dips::back(self.held.len(), b.end)
    }

    // Where another burst follows a short one within 0.3 s: the gap between them, which was not bridged.
    fn print_gap(&self, rt: &impl Print, b: Burst) {
        let options = explaining::any_options();
        let found = bursts::find_bursts(self.held, self.rate(), options, b.floor_dbm, b.end);
        let Ok(Some(c)) = found else {
            return;
        };
        let gap = self.seconds_between(b.end, c.start);
        if gap < 0.3 {
            replay::print(rt, b"  the next loud sample comes ");
            print_parts(rt, gap);
            replay::print(rt, b" s later: a gap over 0.04 s is not bridged\n");
        }
    }

    // A burst over the threshold that was not taken, and was not explained before.
    fn left(&mut self, rt: &impl Print, b: Burst) {
        self.tally.done = self.at(b.end);
        if self.is_long(b) {
            if b.start == 0 {
                self.explain_left(rt, b, Ending::Cut);
            }
            return;
        }
        if self.is_spike(b) {
            self.tally.add_spike();
            return;
        }
        self.explain_left(rt, b, Ending::Short);
        self.print_gap(rt, b);
    }

    // A burst over the threshold.
    fn loud(&mut self, rt: &impl Print, b: Burst, scratch: &mut Scratch) {
        if self.took(b) {
            self.tally.done = self.at(b.end);
            self.explain_taken(rt, b, scratch);
        } else if self.tally.done <= self.at(b.start) && self.has_ended(b) {
            self.left(rt, b);
        }
    }

    // All bursts over the threshold, however short.
    fn all_loud(&mut self, rt: &impl Print, floor: f32, scratch: &mut Scratch) {
        let options = explaining::any_options();
        let mut from: usize = 0;
        for _ in 0..MOST_BURSTS {
            let found = bursts::find_bursts(self.held, self.rate(), options, floor, from);
            let Ok(Some(b)) = found else {
                return;
            };
            self.loud(rt, b, scratch);
            from = b.end;
        }
    }

    // A burst over the lower threshold: one that no sample of lies over the receiver's, and that was not explained before.
    fn faint(&mut self, rt: &impl Print, b: Burst) {
        let is_faint = !(explaining::margin(b) > 0.0);
        if is_faint && self.tally.faint_done <= self.at(b.start) && self.has_ended(b) {
            self.tally.faint_done = self.at(b.end);
            self.explain_left(rt, b, Ending::Faint);
        }
    }

    // All bursts over the lower threshold.
    fn all_faint(&mut self, rt: &impl Print, floor: f32) {
        let options = explaining::faint_options();
        let mut from: usize = 0;
        for _ in 0..MOST_BURSTS {
            let found = bursts::find_bursts(self.held, self.rate(), options, floor, from);
            let Ok(Some(b)) = found else {
                return;
            };
            self.faint(rt, b);
            from = b.end;
        }
    }

    // What a scan of the held samples did, and what it left.
    pub fn explain(&mut self, rt: &impl Print, scratch: &mut Scratch) {
        if let Ok(floor) = bursts::noise_floor(self.held, &mut scratch.f32s) {
            self.all_faint(rt, floor);
            self.all_loud(rt, floor, scratch);
        }
    }
}
