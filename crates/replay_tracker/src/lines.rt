// The lines of the tracker's answers.
use crate::given::Lengths;
use frequency::FrequencyTracker;
use frequency_lists::{Reading, Tuning};
use frequency_measure::FrameFrequency;

// A value, or this text.
fn print_index(rt: &impl Print, index: Option<u64>, none: &[u8]) {
    match index {
        None => {
            replay::print(rt, none);
        }
        Some(i) => {
            replay::print_number(rt, i);
        }
    }
}

fn print_frequency(rt: &impl Print, f: Option<u32>) {
    match f {
        None => {
            replay::print(rt, b"-");
        }
        Some(hz) => {
            replay::print_number(rt, u64::from(hz));
        }
    }
}

fn print_floor(rt: &impl Print, floor: Option<f64>) {
    match floor {
        None => {
            replay::print(rt, b"-");
        }
        Some(x) => {
            replay::print_f64(rt, x);
        }
    }
}

// The line of `tuned`: the frequency, and how many tunings are held.
pub fn print_tuned(rt: &impl Print, hz: u32, tunings: usize) {
    replay::print(rt, b"tuned ");
    replay::print_number(rt, u64::from(hz));
    replay::print(rt, b" ");
    replay::print_number(rt, tunings as u64);
    replay::print_end(rt);
}

// The line of `freq`.
pub fn print_freq(rt: &impl Print, hz: u32) {
    replay::print(rt, b"since_freq ");
    replay::print_number(rt, u64::from(hz));
    replay::print_end(rt);
}

// The line of `samples`: what the tracker holds.
pub fn print_samples(rt: &impl Print, t: FrequencyTracker) {
    replay::print(rt, b"samples ");
    replay::print_number(rt, t.signal.n);
    replay::print(rt, b" ");
    replay::print_number(rt, t.line_start);
    replay::print(rt, b" ");
    replay::print_number(rt, t.readings as u64);
    replay::print(rt, b" ");
    replay::print_number(rt, t.tunings as u64);
    replay::print(rt, b" ");
    print_floor(rt, t.signal.floor);
    replay::print(rt, b" ");
    print_index(rt, t.signal.frame_from, b"-1");
    replay::print(rt, b" ");
    print_index(rt, t.signal.last_signal, b"-");
    replay::print_end(rt);
}

// The number of readings, and the last of them.
pub fn print_readings(rt: &impl Print, n: usize, readings: &[Reading]) {
    replay::print(rt, b"cfo ");
    replay::print_number(rt, n as u64);
    if n > 0 && n <= readings.len() {
        let x = readings[n - 1];
        replay::print(rt, b" ");
        replay::print_number(rt, x.at);
        replay::print(rt, b" ");
        replay::print_number(rt, u64::from(x.lo));
        replay::print(rt, b" ");
        replay::print_f64(rt, x.hz);
    }
    replay::print_end(rt);
}

// How many numbers there are, and each of them.
fn print_list<T: Copy, F: Fn(T)>(rt: &impl Print, xs: &[T], print_one: F)
    requires { F.IsAlwaysCallable print_one }
{
    replay::print(rt, b" ");
    replay::print_number(rt, xs.len() as u64);
    for x in xs {
        replay::print(rt, b" ");
        print_one(*x);
    }
}

// Every place of the five lists, and what is asked for.
pub fn print_lists(
    rt: &impl Print,
    requested: Option<u32>,
    lengths: Lengths,
    readings: &[Reading; 8000],
    tunings: &[Tuning; 64],
) {
    replay::print(rt, b"lists ");
    print_frequency(rt, requested);
    let at = lengths.at.min(readings.len());
    let lo = lengths.lo.min(readings.len());
    let hz = lengths.hz.min(readings.len());
    let tuned = lengths.tuned.min(tunings.len());
    let freq = lengths.freq.min(tunings.len());
    print_list(rt, &readings[..at], |x| replay::print_number(rt, x.at));
    print_list(
        rt,
        &readings[..lo],
        |x| replay::print_number(rt, u64::from(x.lo)),
    );
    print_list(rt, &readings[..hz], |x| replay::print_f64(rt, x.hz));
    print_list(rt, &tunings[..tuned], |u| replay::print_number(rt, u.at));
    print_list(
        rt,
        &tunings[..freq],
        |u| replay::print_number(rt, u64::from(u.freq)),
    );
    replay::print_end(rt);
}

// The line of `next_tuning`.
pub fn print_next(rt: &impl Print, tune: Option<u32>, retuned: bool) {
    replay::print(rt, b"next ");
    print_frequency(rt, tune);
    replay::print(rt, if retuned { b" 1" } else { b" 0" });
    replay::print_end(rt);
}

// The line of `frame_frequency`.
pub fn print_frame_frequency(rt: &impl Print, found: Option<FrameFrequency>) {
    replay::print(rt, b"ff ");
    match found {
        None => {
            replay::print(rt, b"-");
        }
        Some(f) => {
            replay::print_f64(rt, f.hz);
            replay::print(rt, b" ");
            replay::print_number(rt, u64::from(f.lo));
        }
    }
    replay::print_end(rt);
}

// The line of `frame1`.
pub fn print_frame1(rt: &impl Print, f: Option<u32>) {
    replay::print(rt, b"frame1 ");
    print_frequency(rt, f);
    replay::print_end(rt);
}
