// A tracker that is handed in: every field, the lists with lengths of their own, and the length of the scratch.
use frequency::FrequencyTracker;
use frequency_lists::{Reading, Tuning};
use frequency_signal::Signal;
use replay::{Unanswered, read_list};

// The length of each list that is handed in, and of the scratch.
#[derive(Clone, Copy)]
pub struct Lengths {
    pub at: usize,
    pub lo: usize,
    pub hz: usize,
    pub tuned: usize,
    pub freq: usize,
    pub scratch: usize,
}

impl Lengths {
    // As many readings as each of their lists has: the places that are lent.
    pub fn readings(self) -> usize {
        self.at.min(self.lo).min(self.hz)
    }

    pub fn tunings(self) -> usize {
        self.tuned.min(self.freq)
    }
}

// A tracker with its lists' lengths.
#[derive(Clone, Copy)]
pub struct Given {
    pub tracker: FrequencyTracker,
    pub lengths: Lengths,
}

// x, where the byte in front of it says that it is known.
fn known<T: Copy>(flag: u8, x: T) -> Option<T> {
    (flag != 0).then_some(x)
}

// A field of each place, from the front on; how many numbers there are.
fn fill<P, T: Copy, F: Fn(&mut P, T)>(places: &mut [P], numbers: &[T], set: F) -> usize
    requires { F.IsAlwaysCallable set }
{
    for (p, n) in places.iter_mut().zip(numbers) {
        set(p, *n);
    }
    numbers.len()
}

fn signal_of(head: &[u8; 85]) -> Signal {
    Signal {
        n: endian::get::<u64>(head, 45),
        floor: known(head[53], endian::get::<f64>(head, 54)),
        frame_from: known(head[62], endian::get::<u64>(head, 63)),
        last_signal: known(head[71], endian::get::<u64>(head, 72)),
        retuned: head[80] != 0,
    }
}

fn tracker_of(head: &[u8; 85]) -> FrequencyTracker {
    FrequencyTracker {
        rate: endian::get::<u32>(head, 0),
        base_freq: endian::get::<u32>(head, 4),
        step_hz: endian::get::<f64>(head, 8),
        line_start: endian::get::<u64>(head, 16),
        readings: endian::get::<u64>(head, 24) as usize,
        tunings: endian::get::<u64>(head, 32) as usize,
        requested: known(head[40], endian::get::<u32>(head, 41)),
        signal: signal_of(head),
    }
}

// The lists of the input, each of its own length: their numbers go into the readings' and tunings' fields.
fn read_lists(
    rt: &impl Input,
    readings: &mut [Reading; 8000],
    tunings: &mut [Tuning; 64],
    scratch: usize,
) -> Result<Lengths, Unanswered> {
    let mut ats = [0u64; 8000];
    let at = fill(readings, read_list(rt, &mut ats)?, |x, n| x.at = n);
    let mut los = [0u32; 8000];
    let lo = fill(readings, read_list(rt, &mut los)?, |x, n| x.lo = n);
    let mut hzs = [0.0f64; 8000];
    let hz = fill(readings, read_list(rt, &mut hzs)?, |x, n| x.hz = n);
    let mut tuneds = [0u64; 64];
    let tuned = fill(tunings, read_list(rt, &mut tuneds)?, |u, n| u.at = n);
    let mut freqs = [0u32; 64];
    let freq = fill(tunings, read_list(rt, &mut freqs)?, |u, n| u.freq = n);
    Ok(Lengths {
        at,
        lo,
        hz,
        tuned,
        freq,
        scratch,
    })
}

// The tracker of the input: the fields, the scratch's length, and the lists, which go into those of the program.
pub fn read_tracker(
    rt: &impl Input,
    readings: &mut [Reading; 8000],
    tunings: &mut [Tuning; 64],
) -> Result<Given, Unanswered> {
    let mut head = [0u8; 85];
    replay::read_part(rt, &mut head)?;
    Ok(Given {
        tracker: tracker_of(&head),
        lengths: read_lists(
            rt,
            readings,
            tunings,
            endian::get::<u32>(&head, 81) as usize,
        )?,
    })
}
