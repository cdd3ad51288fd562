// The numbers of 01's table of causes, and those that 02 adds: refusals, ranges and sizes, each under one name, and the tests of rates, samples and times that the modules share.
#![tactic(auto)]

ghost use Rattle.std.specs.Prelude.{◌≡◌, ◌&&◌, cond, not};
ghost use Rattle.limits.specs.Limits.{bad_rate};
ghost use Rattle.limits.specs.Answer.{cause_of};
ghost use Rattle.limits.specs.Refusals.{number_of};
ghost use Rattle.limits.specs.Samples.{rate_ok, is_dbm, time_ok, all_dbm};

pub mod rated; // samples with their rate

// Why a call is refused: the causes of 01's table and those that 02 adds, each with its number.
#[derive(Clone, Copy, Debug, PartialEq, Eq, PartialOrd, Ord)]
pub enum Refusal {
    BadRate = 1,
    // A lent slice is short.
    Short = 2,
    // Too much is handed in.
    Long = 3,
    BadSample = 4,
    // The state is not in order.
    BadState = 5,
    // The stream would be too long.
    Stream = 7,
    // The tracker's lists have no place left.
    Full = 8,
    BadNumber = 9,
    // An uplink that no frame carries (02, request 01).
    BadUplink = 10,
    // A start second, windows or closed dates as they must not be (02, request 03).
    BadShifts = 11,
    // Bytes that are no whole event records, each a frame or a message as it must be (02, request 09).
    BadRecords = 12,
    // A 257th device (02, request 09).
    ManyDevices = 13,
    // A time or distance that is no finite number, or a negative distance (02, request 11).
    BadTime = 14,
    // A plan or a month's start as it must not be (02, request 13).
    BadPlan = 15,
    // A message outside the month (02, request 13).
    OutsideMonth = 16,
}

impl From<Refusal> for u8 {
    ghost from_gives = { λ r n. n ≡ number_of r };

    fn from(refusal: Refusal) -> u8 {
        refusal as u8
    }
}

// Samples per second.
pub const LOWEST_RATE: u32 = 200;

pub const HIGHEST_RATE: u32 = 4000;

// The sample buffer holds this many seconds, and no call takes more.
pub const BUFFER_S: usize = 12;

// The most samples of a call without a rate: those of the highest one.
pub const MOST_SAMPLES: usize = 48_000;

pub const MOST_READINGS: usize = 4096;

pub const MOST_BITS: usize = 1024;

// The most bytes of event records handed in: a million records (02, request 09).
pub const MOST_RECORD_BYTES: usize = 120_000_000;

// Bytes of an event record, and of an event buffer.
pub const RECORD: usize = 120;

pub const EVENTS: usize = 30_720;

// f64 places of scratch (02, request 05).
pub const SCRATCH64: usize = 6000;

// The longest stream, in samples: 2^40.
pub const LONGEST_STREAM: u64 = 1_099_511_627_776;

pub const LOWEST_DBM: f32 = -200.0;

pub const HIGHEST_DBM: f32 = 100.0;

// Times handed in lie within this of 0, in seconds.
pub const FARTHEST_S: f64 = 1_000_000_000.0;

// Whether cause 1 does not apply.
pub fn rate_ok(rate: u32) -> bool
    ensures { result ≡ rate_ok rate }
{
    let low = LOWEST_RATE <= rate;
    let high = rate <= HIGHEST_RATE;
    low & high
}

// The first cause of calls with a rate.
#[tactic(auto, unfolding(crate::specs::Answer::cause_of))]
pub fn check_rate(rate: u32) -> Result<(), Refusal>
    ensures { cause_of result ≡ cond (not (rate_ok rate)) bad_rate 0 }
{
    if !rate_ok(rate) {
        return Err(Refusal::BadRate);
    }
    Ok(())
}

// Whether a sample, or a floor, lies in 01's range; a NaN doesn't.
pub fn is_dbm(x: f32) -> bool
    ensures { result ≡ is_dbm x }
{
    let low = x >= LOWEST_DBM;
    let high = x <= HIGHEST_DBM;
    low & high
}

// Whether a time handed in lies within 01's range; a NaN doesn't.
pub fn time_ok(x: f64) -> bool
    ensures { result ≡ time_ok x }
{
    let early = x >= -FARTHEST_S;
    let late = x <= FARTHEST_S;
    early & late
}

// Whether two samples lie in 01's range: the lower is not below it, and the higher not above.
fn two_dbm(a: f32, b: f32) -> bool
    ensures { result ≡ is_dbm a && is_dbm b }
{
    let (lower, higher) = if a < b { (a, b) } else { (b, a) };
    let low = lower >= LOWEST_DBM;
    let high = higher <= HIGHEST_DBM;
    low & high
}

// Whether cause 4 does not apply. The first half beside the second and no early exit, so that it runs several samples at a time.
pub fn all_dbm(dbm: &[f32]) -> bool
    ensures { result ≡ all_dbm dbm.now }
{
    let half = dbm.len() / 2;
    let mut ok = true;
    for i in 0..half {
        ok &= two_dbm(dbm[i], dbm[i + half]);
    }
    if 2 * half == dbm.len() {
        return ok;
    }
    let last = is_dbm(dbm[2 * half]);
    ok & last
}
