// Bursts to frames (demod.rs `decode_burst`, `decode_capture`).
#![tactic(auto)]

ghost use Rattle.std.specs.Prelude.{◌≡◌, true, ◌++◌, ◌≤◌, ◌+◌, ◌*◌, length, drop, IfOk};
ghost use Rattle.std.proofs.lemmas.List.Edits.{sets};
ghost use Rattle.limits.specs.Limits.{lowest_rate, highest_rate, buffer_s, scratch64, most_samples, longest_stream, record_size, events_size};
ghost use Rattle.limits.specs.Samples.{all_dbm};
ghost use Rattle.limits.specs.Answer.{said, cause_of, number, leaves, Free};
ghost use Rattle.rates.specs.Rates.{pad_of};
ghost use Rattle.record.specs.Record.{frame_record};
ghost use Rattle.bursts.specs.Levels.{noise_floor};
ghost use Rattle.clock.specs.Bits.{outcome};
ghost use Rattle.demod.specs.Decode.{widest_pad, from_of, to_of, segment_of, time_at, depth_byte, decode_burst, burst_ok, decode_cause, decode_answer};
ghost use Rattle.demod.specs.Capture.{floor_of, floor_ok, reception_of, record_if, captured, joined, capture_cause, capture_answer, in_front};

use bursts::Burst;
use frame::UplinkFrame;
use limits::Refusal;
use limits::rated::Samples;
use record::Reception;

#[derive(Clone, Copy)]
pub struct DecodedFrame {
    pub frame: UplinkFrame,
    // Start and end of the burst, in seconds.
    pub time: f64,
    pub end: f64,
    pub rssi: f32,
    pub clock_error_ppm: i32,
    // Of the dips, in half decibels.
    pub depth: u8,
}

// The most half decibels that a byte holds.
const MOST_DEPTH: usize = 255;

// A depth in half decibels, rounded down.
fn depth_byte(depth: f64) -> u8
    ensures { result ≡ depth_byte depth }
{
    floats::to_usize_saturating(floats::floor64(depth * 2.0)).min(MOST_DEPTH) as u8
}

impl DecodedFrame {
    // What its record has besides the frame: the burst starts at a sample.
    pub fn reception(self, start: u64) -> Reception
        ensures { result ≡ reception_of self start }
    {
        Reception {
            clock_error_ppm: self.clock_error_ppm,
            rssi: self.rssi,
            time: self.time,
            end: self.end,
            start,
            depth: self.depth,
        }
    }
}

// A burst's segment reaches 0.02 s past it on both sides: a fiftieth of a second.
const PAD_PART: u32 = 50;

// round(rate * 0.02), as a whole number.
pub fn margin(rate: u32) -> usize
    requires { (lowest_rate ≤ rate) × (rate ≤ highest_rate) }
    ensures { (result ≡ pad_of rate) × (result ≤ widest_pad) }
{
    ((rate + PAD_PART / 2) / PAD_PART) as usize
}

// t0 + i / rate
fn time_at(t0: f64, rate: u32, i: usize) -> f64
    requires { i ≤ longest_stream }
    ensures { result ≡ time_at t0 rate i }
{
    t0 + floats::count_as_f64(i) / (rate as f64)
}

// The samples of a burst that are looked at: from one place on to another.
#[derive(Clone, Copy)]
pub struct Segment {
    pub from: usize,
    pub to: usize,
}

// Those of a burst with its margins, clamped to the samples.
pub fn looked_at(dbm: &[f32], rate: u32, burst: Burst) -> Segment
    requires { (lowest_rate ≤ rate) × (rate ≤ highest_rate) × (burst.end ≤ longest_stream) }
    ensures { (result.from ≡ from_of dbm.now rate burst) × (result.to ≡ to_of dbm.now rate burst) × (result.from ≤ result.to) × (result.to ≤ length dbm.now) }
{
    let pad = margin(rate);
    let from = dips::back(burst.start, pad).min(dbm.len());
    let to = from.max((burst.end + pad).min(dbm.len()));
    Segment { from, to }
}

// Those samples.
fn burst_samples(samples: Samples, burst: Burst) -> Samples
    requires { burst.end ≤ longest_stream }
    ensures { (result.dbm.now ≡ segment_of samples.entry.dbm.now samples.entry.rate burst) × (result.rate ≡ samples.entry.rate) }
{
    let seen = looked_at(samples.dbm, samples.rate, burst);
    Samples {
        dbm: &samples.dbm[seen.from..seen.to],
        rate: samples.rate,
    }
}

// The frame in a burst. Decoding reads no bit past the 215th, so the first 1,024 serve.
pub fn decode_within(
    samples: Samples,
    burst: Burst,
    t0: f64,
    scratch: &mut [f64],
) -> Option<DecodedFrame>
    requires { (burst.start ≤ longest_stream) × (burst.end ≤ longest_stream) × (scratch64 ≤ length scratch.old) }
    ensures { result ≡ decode_burst samples.entry.dbm.now samples.entry.rate burst t0 }
{
    let mut bits = [0u8; 1024];
    let b = clock::bits_of(burst_samples(samples, burst), &mut bits, scratch)?;
    let len = b.count.min(limits::MOST_BITS);
    let frame = frame::decode_bits(&bits[..len])?;
    Some(DecodedFrame {
        frame,
        time: time_at(t0, samples.rate, burst.start),
        end: time_at(t0, samples.rate, burst.end),
        rssi: burst.peak_dbm,
        clock_error_ppm: b.clock_error_ppm,
        depth: depth_byte(b.depth),
    })
}

// Whether cause 9 does not apply.
fn burst_ok(burst: Burst, t0: f64) -> bool
    ensures { result ≡ burst_ok burst t0 }
{
    let start = (burst.start as u64) <= limits::LONGEST_STREAM;
    let end = (burst.end as u64) <= limits::LONGEST_STREAM;
    let time = limits::time_ok(t0);
    let floor = limits::is_dbm(burst.floor_dbm);
    let peak = burst.peak_dbm.is_nan();
    start & (end & (time & (floor & !peak)))
}

// The samples, or the first cause that applies to `decode_burst`, with room for so many f32 and f64.
#[tactic(auto, using(limits::proofs::Causes::sample_refused, limits::proofs::Causes::samples_pass, crate::proofs::BurstAnswers::bound), unfolding(limits::specs::Answer::cause_of, crate::specs::Decode::decode_cause))]
fn check_burst<'a>(
    dbm: &'a [f32],
    rate: u32,
    burst: Burst,
    t0: f64,
    s32: usize,
    s64: usize,
) -> Result<Samples<'a>, Refusal>
    ensures cause { cause_of result ≡ decode_cause dbm.now rate burst t0 s32 s64 }
    ensures ok { IfOk result (λ s. (s.dbm.now ≡ dbm.now) × (s.rate ≡ rate) × (burst.start ≤ longest_stream) × (burst.end ≤ longest_stream) × (scratch64 ≤ s64)) }
{
    limits::check_rate(rate)?;
    if s32 < limits::BUFFER_S * (rate as usize) || s64 < limits::SCRATCH64 {
        return Err(Refusal::Short);
    }
    let samples = Samples::new(dbm, rate)?;
    if !burst_ok(burst, t0) {
        return Err(Refusal::BadNumber);
    }
    Ok(samples)
}

// The frame in a burst that is given (demod.rs `decode_burst`).
pub fn decode_burst(
    dbm: &[f32],
    rate: u32,
    burst: Burst,
    t0: f64,
    scratch32: &mut [f32],
    scratch64: &mut [f64],
) -> Result<Option<DecodedFrame>, Refusal>
    ensures { (said result ≡ decode_answer dbm.now rate burst t0 (length scratch32.old) (length scratch64.old))
        × Free (decode_cause dbm.now rate burst t0 (length scratch32.old) (length scratch64.old)) scratch32.old scratch32.new
        × Free (decode_cause dbm.now rate burst t0 (length scratch32.old) (length scratch64.old)) scratch64.old scratch64.new }
{
    let samples = check_burst(dbm, rate, burst, t0, scratch32.len(), scratch64.len())?;
    Ok(decode_within(samples, burst, t0, scratch64))
}

// The record of a burst that has a frame, in front of what is left of the events; how many records that is.
fn put_decoded(d: Option<DecodedFrame>, start: usize, events: &mut [u8]) -> usize
    requires { record_size ≤ length events.old }
    ensures { (result ≡ length (record_if d start)) × (events.new ≡ sets events.old 0 (joined (record_if d start))) }
{
    match d {
        None => 0,
        Some(d) => {
            record::put_frame(d.frame, d.reception(start as u64), events, 0);
            1
        }
    }
}

// The records of all bursts over a floor.
fn capture(samples: Samples, t0: f64, floor: f32, events: &mut [u8], scratch: &mut [f64]) -> usize
    requires { (scratch64 ≤ length scratch.old) × (events_size ≤ length events.old) }
    ensures { (result ≡ length (captured samples.entry.dbm.now samples.entry.rate t0 floor))
        × (events.new ≡ joined (captured samples.entry.dbm.now samples.entry.rate t0 floor) ++ drop (record_size * result) events.old) }
{
    let dbm = samples.dbm;
    let options = bursts::BurstOptions::new();
    let mut at: usize = 0;
    let mut n: usize = 0;
    while at < dbm.len() {
        match bursts::search_bursts(dbm, samples.rate, options, floor, at, 0) {
            None => {
                return n;
            }
            Some(b) => {
                let d = decode_within(samples, b, t0, scratch);
                n += put_decoded(d, b.start, &mut events[limits::RECORD * n..]);
                at = b.end;
            }
        }
    }
    n
}

// The floor that is given, or the noise floor.
fn floor_of(floor: Option<f32>, dbm: &[f32]) -> f32
    requires { (length dbm.now ≤ most_samples) × (all_dbm dbm.now ≡ true) }
    ensures { result ≡ floor_of floor dbm.now }
{
    match floor {
        None => bursts::measured_floor(dbm),
        Some(x) => x,
    }
}

// Whether cause 9 does not apply.
fn floor_ok(floor: Option<f32>) -> bool
    ensures { result ≡ floor_ok floor }
{
    match floor {
        None => true,
        Some(x) => limits::is_dbm(x),
    }
}

// The samples, or the first cause that applies to `decode_capture`, with room for so many bytes of events, f32 and f64.
#[tactic(auto, using(limits::proofs::Causes::sample_refused, limits::proofs::Causes::samples_pass), unfolding(limits::specs::Answer::cause_of, crate::specs::Capture::capture_cause))]
fn check_capture<'a>(
    dbm: &'a [f32],
    rate: u32,
    t0: f64,
    floor: Option<f32>,
    room: usize,
    s32: usize,
    s64: usize,
) -> Result<Samples<'a>, Refusal>
    ensures cause { cause_of result ≡ capture_cause dbm.now rate t0 floor room s32 s64 }
    ensures ok { IfOk result (λ s. (s.dbm.now ≡ dbm.now) × (s.rate ≡ rate) × (events_size ≤ room) × (scratch64 ≤ s64)) }
{
    limits::check_rate(rate)?;
    let narrow = s32 < limits::BUFFER_S * (rate as usize);
    if room < limits::EVENTS || narrow || s64 < limits::SCRATCH64 {
        return Err(Refusal::Short);
    }
    let samples = Samples::new(dbm, rate)?;
    if !limits::time_ok(t0) || !floor_ok(floor) {
        return Err(Refusal::BadNumber);
    }
    Ok(samples)
}

// The frames of a block of samples, as event records (demod.rs `decode_capture`). `t0` is the time of the first sample in seconds.
pub fn decode_capture(
    dbm: &[f32],
    rate: u32,
    t0: f64,
    floor: Option<f32>,
    events: &mut [u8],
    scratch32: &mut [f32],
    scratch64: &mut [f64],
) -> Result<usize, Refusal>
    ensures { (said result ≡ capture_answer dbm.now rate t0 floor (length events.old) (length scratch32.old) (length scratch64.old))
        × (events.new ≡ leaves (number (said result)) (in_front (captured dbm.now rate t0 (floor_of floor dbm.now)) events.old) events.old)
        × Free (number (said result)) scratch32.old scratch32.new × Free (number (said result)) scratch64.old scratch64.new }
{
    let samples = check_capture(
        dbm,
        rate,
        t0,
        floor,
        events.len(),
        scratch32.len(),
        scratch64.len(),
    )?;
    Ok(capture(samples, t0, floor_of(floor, dbm), events, scratch64))
}
