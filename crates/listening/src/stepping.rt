// One record of `listen`: the tracker's calls, the receiver's, and the lines that they bring.
ghost use Rattle.std.specs.Prelude.{◌≡◌, List, ◌++◌, ℕ, ◌+◌, ◌^◌, ◌≤◌, ◌<◌, length};
ghost use Rattle.limits.specs.Answer.{cause_of};
ghost use Rattle.ledger.specs.Ledger.{by_frames, Ledger, push_raw};
ghost use Rattle.frequency_lists.specs.declared.Tuning.{Tuning};
ghost use Rattle.frequency.specs.Lent.{Lists, lists};
ghost use Rattle.frequency_grown.specs.Rising.{Single};
ghost use Rattle.listening_lines.specs.Text.{widest, Added};
ghost use Rattle.listening_tracker.specs.Turn.{reading_places, turn};
ghost use Rattle.listening_receiver.specs.Hearing.{most};
ghost use Rattle.listening_receiver.specs.Standing.{StandsFor, Standing};
ghost use Rattle.listening.specs.Program as program;
ghost use Rattle.listening.specs.Program.{raw_of, received, turned, refusal_text};
ghost use Rattle.listening.specs.Hand.{out_places, begun_as, passed_as, state_of, Goes, Room, Receives, Follows, Leads, Steps, followed, stepped};

use crate::{Brought, Listener};
use frequency::FrequencyTracker;
use frequency_lists::{Reading, Tuning};
use limits::Refusal;
use listening_lines::Line;
use listening_receiver::Buffers;
use listening_records::{Told, Tracked};
use receiver::SigfoxReceiver;

// Samples per second.
pub const RATE: u32 = 1000;

// Hz of one step of the frequency offset register.
pub const STEP_HZ: f64 = 122.0703125;

// Samples of a record.
const SAMPLES: u64 = 8;

// The base frequency is that of the first record that isn't 0 (02, request 04).
fn begin(l: &mut Listener, now_hz: u32)
    ensures value { l.new ≡ begun_as l.old now_hz }
    ensures single { (m : Lists) → Single l.old.tracker m → Single l.new.tracker m }
{
    if l.started {
        return;
    }
    l.tracker = FrequencyTracker::new(RATE, now_hz, STEP_HZ).unwrap();
}

// A record before that feeds the receiver, and not the tracker.
fn pass(l: &mut Listener)
    requires { Room most l.old }
    ensures { l.new ≡ passed_as l.old }
{
    l.passed += SAMPLES;
    l.samples += SAMPLES;
}

// `R number`, where there was a refusal.
fn refused_line(went: Result<(), Refusal>) -> Line
    ensures { result ≡ refusal_text (cause_of went) }
{
    match went {
        Ok(()) => Line::new(),
        Err(refusal) => listening_lines::refusal_line(refusal),
    }
}

// `push_raw` and its M lines behind a text, then the line of a refusal.
fn receive(
    l: &mut Listener,
    receiver: &mut SigfoxReceiver,
    end: usize,
    raw: &[u8],
    readings: &[Reading; 8000],
    b: &mut Buffers,
    out: &mut [u8],
) -> Brought
    requires standing { Standing receiver.old b.old.samples }
    requires end_le_widest { (end ≤ widest) × (out_places ≤ length out.old) × (l.old.passed ≤ 2 ^ 53) × (l.old.frames + most < 2 ^ 64) × (l.old.messages + most < 2 ^ 64) }
    ensures goes { (g : Ledger by_frames) (tunings : List Tuning) (old text : List ℕ) → StandsFor receiver.old b.old.samples g → Added old 0 text end out.old
        → Goes (received (state_of l.old (lists readings.now tunings) g) text (push_raw raw.now))
        old (stepped result l.new receiver.new) (lists readings.now tunings) b.new.samples out.new }
    ensures receives { Receives l.old (stepped result l.new receiver.new) out.old out.new }
{
    let mut told = Told {
        frames: l.frames,
        messages: l.messages,
        end,
    };
    let q = Tracked {
        started: l.started,
        passed: l.passed,
        tracker: l.tracker,
        readings,
    };
    let went = listening_receiver::hear(&mut told, receiver, q, raw, b, out);
    l.frames = told.frames;
    l.messages = told.messages;
    let line = refused_line(went);
    let last = line.add_to(out, told.end);
    Brought { end: last, went }
}

// The tracker's calls of a record, its fields read: the T line, or that of a refusal, at the start of `out`.
fn track(
    l: &mut Listener,
    now_hz: u32,
    cfo: u16,
    dbm: &[f32],
    readings: &mut [Reading; 8000],
    tunings: &mut [Tuning; 64],
    scratch: &mut [f64; 8000],
    out: &mut [u8],
) -> Brought
    requires { (Single l.old.tracker (lists readings.old tunings.old)) × (Room most l.old) × (out_places ≤ length out.old) }
    ensures by_index { (raw : List ℕ) → Follows
        (λ (g : Ledger by_frames). turned (state_of l.old (lists readings.old tunings.old) g) raw
        (turn reading_places now_hz dbm.now cfo l.old.tracker (lists readings.old tunings.old)))
        raw (followed result l.new) (lists readings.new tunings.new) out.old out.new }
    ensures leads { Leads l.old (followed result l.new) (lists readings.new tunings.new) out.old out.new }
{
    l.started = true;
    match listening_tracker::track(&mut l.tracker, now_hz, dbm, cfo, readings, tunings, scratch) {
        Err(refusal) => {
            let end = listening_lines::refusal_line(refusal).add_to(out, 0);
            Brought {
                end,
                went: Err(refusal),
            }
        }
        Ok(tune) => {
            l.samples += SAMPLES;
            let end = listening_lines::tune_line(tune).add_to(out, 0);
            Brought { end, went: Ok(()) }
        }
    }
}

// The tracker's side of a record of 16 bytes: one before the first frequency is passed over.
fn follow(
    l: &mut Listener,
    bytes: &[u8],
    readings: &mut [Reading; 8000],
    tunings: &mut [Tuning; 64],
    scratch: &mut [f64; 8000],
    out: &mut [u8],
) -> Brought
    requires { (Single l.old.tracker (lists readings.old tunings.old)) × (Room most l.old) × (out_places ≤ length out.old) × (length bytes.now ≡ 16) }
    ensures follows { Follows
        (λ (g : Ledger by_frames). program.step (state_of l.old (lists readings.old tunings.old) g) bytes.now)
        (raw_of bytes.now) (followed result l.new) (lists readings.new tunings.new) out.old out.new }
    ensures leads { Leads l.old (followed result l.new) (lists readings.new tunings.new) out.old out.new }
{
    let now_hz = endian::get::<u32>(bytes, 10);
    let waits = !l.started & (now_hz == 0);
    if waits {
        pass(l);
        return Brought {
            end: 0,
            went: Ok(()),
        };
    }
    let cfo = endian::get::<u16>(bytes, 8);
    let mut dbm = [0.0f32; 8];
    receiver_samples::dbm_of_all(&bytes[..8], &mut dbm);
    begin(l, now_hz);
    track(l, now_hz, cfo, &dbm, readings, tunings, scratch, out)
}

// A record of 16 bytes: the text that it brings stands at the start of `out` then.
pub fn record_step(
    l: &mut Listener,
    receiver: &mut SigfoxReceiver,
    bytes: &[u8],
    readings: &mut [Reading; 8000],
    tunings: &mut [Tuning; 64],
    b: &mut Buffers,
    out: &mut [u8],
) -> Brought
    requires standing { Standing receiver.old b.old.samples }
    requires single { (Single l.old.tracker (lists readings.old tunings.old)) × (Room most l.old) × (out_places ≤ length out.old) × (length bytes.now ≡ 16) }
    ensures goes { (g : Ledger by_frames) → StandsFor receiver.old b.old.samples g
        → Goes (program.step (state_of l.old (lists readings.old tunings.old) g) bytes.now)
        out.old (stepped result l.new receiver.new) (lists readings.new tunings.new) b.new.samples out.new }
    ensures steps { Steps l.old (stepped result l.new receiver.new) (lists readings.new tunings.new) out.old out.new }
{
    let f = follow(l, bytes, readings, tunings, &mut b.scratch64, out);
    match f.went {
        Ok(()) => receive(l, receiver, f.end, &bytes[..8], readings, b, out),
        Err(_) => f,
    }
}
