// What the tracker hears in its samples: the noise floor, the last signal, the frame's start; and the comparisons of sample
// indices with seconds.
#![tactic(auto)]

ghost use Rattle.std.specs.Prelude.{◌≡◌, ◌+◌, ◌^◌, ◌<◌, ◌≤◌, ◌&&◌, length};
ghost use Rattle.limits.specs.Limits.{longest_stream};
ghost use Rattle.limits.specs.Samples.{is_dbm};
ghost use Rattle.frequency_signal.specs.Seconds.{Rate, gap, quiet, young, late, settling, kept, oldest_of};
ghost use Rattle.frequency_signal.specs.Heard.{hear, heard};
ghost use Rattle.frequency_signal.specs.Order.{Index, index_ok, floor_ok, signal_ok};

// A sample this far above the noise floor counts as signal.
const ABOVE_DB: f64 = 15.0;

// CFO readings are trusted this many tenths of a second into a frame and after a retune.
const SETTLE_TENTHS: u64 = 3;

// A longer gap than this many tenths of a second ends a frame (the DBPSK dips are shorter).
const GAP_TENTHS: u64 = 1;

const TENTHS: u64 = 10;

// A longer gap than this many seconds ends a message: back to the base frequency.
const QUIET_S: u64 = 10;

// Readings are kept for this many seconds.
const KEEP_S: u64 = 60;

// What the samples so far say: the noise floor in dBm, and the indices of two samples; no frame start stands for the Rust's -1.
#[derive(Clone, Copy)]
pub struct Signal {
    pub n: u64,
    pub floor: Option<f64>,
    pub frame_from: Option<u64>,
    pub last_signal: Option<u64>,
    pub retuned: bool,
}

// A stream's rate, which is right.
#[derive(Clone, Copy)]
pub struct Pace {
    pub rate: u32,
    pub ghost right: { Rate rate },
}

impl Pace {
    // Whether a reading is at least GAP_S into the frame.
    pub fn is_late(self, from: Option<u64>, at: u64) -> bool
        requires { Index longest_stream from × (at ≤ 2 ^ 41) }
        ensures { result ≡ late self.rate from at }
    {
        match from {
            None => GAP_TENTHS * (self.rate as u64) <= TENTHS * at + TENTHS,
            Some(s) => TENTHS * s + GAP_TENTHS * (self.rate as u64) <= TENTHS * at,
        }
    }

    // Whether a value is read less than SETTLE_S after a retune: the register is still catching up.
    pub fn is_settling(self, tuned_at: u64, at: u64) -> bool
        requires { (tuned_at ≤ longest_stream) × (at ≤ 2 ^ 41) }
        ensures { result ≡ settling self.rate tuned_at at }
    {
        TENTHS * at < TENTHS * tuned_at + SETTLE_TENTHS * (self.rate as u64)
    }
}

// A stream's rate, which is right, and how many samples it has, which are not too many.
#[derive(Clone, Copy)]
pub struct Stream {
    pub rate: u32,
    pub n: u64,
    pub ghost right: { Rate rate },
    pub ghost short: { n ≤ longest_stream },
}

impl Stream {
    // Whether the last signal is more than GAP_S ago.
    pub fn is_gap(self, last: Option<u64>) -> bool
        requires { Index self.n last }
        ensures { result ≡ gap self.rate self.n last }
    {
        match last {
            None => true,
            Some(s) => TENTHS * (self.n - s) > GAP_TENTHS * (self.rate as u64),
        }
    }

    // Whether the last signal is more than QUIET_S ago.
    pub fn is_quiet(self, last: Option<u64>) -> bool
        requires { Index self.n last }
        ensures { result ≡ quiet self.rate self.n last }
    {
        match last {
            None => true,
            Some(s) => self.n - s > QUIET_S * (self.rate as u64),
        }
    }

    // Whether the frame started less than SETTLE_S ago.
    pub fn is_young(self, from: Option<u64>) -> bool
        requires { Index self.n from }
        ensures { result ≡ young self.rate self.n from }
    {
        match from {
            None => TENTHS * (self.n + 1) < SETTLE_TENTHS * (self.rate as u64),
            Some(s) => TENTHS * (self.n - s) < SETTLE_TENTHS * (self.rate as u64),
        }
    }

    // Whether what was at a sample is of the last KEEP_S.
    pub fn is_kept(self, at: u64) -> bool
        requires { at ≤ 2 ^ 41 }
        ensures { result ≡ kept self.rate self.n at }
    {
        self.n <= at + KEEP_S * (self.rate as u64)
    }
}

// The oldest index of the last KEEP_S; it asks nothing of the rate, since a look comes before the causes.
pub fn oldest(rate: u32, n: u64) -> u64
    ensures { result ≡ oldest_of rate n }
{
    let keep = KEEP_S * (rate as u64);
    if n < keep {
        return 0;
    }
    n - keep
}

// One sample of `samples`: one over the floor by more than ABOVE_DB is signal, any other moves the floor.
fn hear_one(rate: u32, s: Signal, x: f32) -> Signal
    requires { Rate rate × (s.n < longest_stream) × Index s.n s.last_signal }
    ensures { result ≡ hear rate s x }
{
    let v = std::num::f32_to_f64_with_nan(x);
    let f = s.floor.unwrap_or(v);
    let n = s.n;
    if v > f + ABOVE_DB {
        let stream = Stream { rate, n };
        return Signal {
            n: n + 1,
            floor: Some(f),
            frame_from: whole::pick(stream.is_gap(s.last_signal), Some(n), s.frame_from),
            last_signal: Some(n),
            retuned: whole::pick(stream.is_quiet(s.last_signal), false, s.retuned),
        };
    }
    Signal {
        n: n + 1,
        floor: Some(f + (v - f) / (rate as f64)),
        ..s
    }
}

// A line of samples: the loop of `samples`.
pub fn hear_all(rate: u32, s: Signal, dbm: &[f32]) -> Signal
    requires { Rate rate × (s.n + length dbm.now ≤ longest_stream) × Index s.n s.last_signal }
    ensures { result ≡ heard rate s dbm.now }
{
    let mut t = s;
    for x in dbm {
        t = hear_one(rate, t, *x);
    }
    t
}

fn index_ok(n: u64, s: Option<u64>) -> bool
    ensures { result ≡ index_ok n s }
{
    match s {
        None => true,
        Some(i) => i <= n,
    }
}

fn dbm_ok(x: f64) -> bool
    ensures { result ≡ is_dbm x }
{
    let low = x >= std::num::f32_to_f64_with_nan(limits::LOWEST_DBM);
    let high = x <= std::num::f32_to_f64_with_nan(limits::HIGHEST_DBM);
    low & high
}

// Whether a floor lies in 01's range, if it is known.
pub fn floor_ok(f: Option<f64>) -> bool
    ensures { result ≡ floor_ok f }
{
    match f {
        None => true,
        Some(x) => dbm_ok(x),
    }
}

// Whether the counts and indices are in order; line: where the last line of samples starts.
pub fn signal_ok(line: u64, s: Signal) -> bool
    ensures { result ≡ signal_ok line s }
{
    let n = s.n;
    let a = n <= limits::LONGEST_STREAM;
    let b = line <= n;
    a & (b & (index_ok(n, s.last_signal) & index_ok(n, s.frame_from)))
}
