// The block of a burst.
ghost use Rattle.std.specs.Prelude.{◌≤◌, length};

use crate::dips_of::explain_dips;
use crate::frame_of::{print_frame, print_type};
use crate::messages::last_of;
use crate::scans::{Look, Scratch, time_of};
use crate::tally::{Ending, Near};
use crate::words::{print_db, print_dbm, print_parts};
use bursts::Burst;
use clock::BurstBits;
use demod::DecodedFrame;
use frame::{TypeFound, UplinkFrame};
use limits::Refusal;

fn print_over(rt: &impl Print, margin: f64) {
    if margin > 0.0 {
        print_db(rt, margin);
        replay::print(rt, b" dB over it\n");
        return;
    }
    print_db(rt, 0.0 - margin);
    replay::print(rt, b" dB under it\n");
}

fn print_levels(rt: &impl Print, b: Burst) {
    replay::print(rt, b"  peak ");
    print_dbm(rt, b.peak_dbm);
    replay::print(rt, b" dBm, floor ");
    print_dbm(rt, b.floor_dbm);
    replay::print(rt, b" dBm, threshold ");
    print_db(
        rt,
        std::num::f32_to_f64_with_nan(b.floor_dbm) + bursts::BurstOptions::ABOVE_DB,
    );
    replay::print(rt, b" dBm: ");
    print_over(rt, explaining::margin(b));
}

fn print_ending(rt: &impl Print, how: Ending) {
    match how {
        Ending::Faint => {
            replay::print(rt, b"under the threshold\n");
        }
        Ending::Short => {
            replay::print(rt, b"too short, 0.3 s is the least\n");
        }
        Ending::Cut => {
            replay::print(
                rt,
                b"not looked at, it began before the samples that are held\n",
            );
        }
        Ending::Clockless => {
            replay::print(rt, b"no clock\n");
        }
        Ending::Typeless => {
            replay::print(rt, b"no frame type\n");
        }
        Ending::Few => {
            replay::print(rt, b"too few bits for its type\n");
        }
        Ending::Wrong => {
            replay::print(rt, b"wrong CRC\n");
        }
        Ending::Read => {
            replay::print(rt, b"read\n");
        }
    }
}

fn type_of(bits: &[u8]) -> Option<TypeFound> {
    if limits::MOST_BITS < bits.len() || !coding::are_bits(bits) {
        return None;
    }
    frame::find_type(bits)
}

fn ending_of(
    bits: Option<BurstBits>,
    kind: Option<TypeFound>,
    found: Option<DecodedFrame>,
) -> Ending {
    if bits.is_none() {
        return Ending::Clockless;
    }
    if kind.is_none() {
        return Ending::Typeless;
    }
    match found {
        None => Ending::Few,
        Some(d) if d.frame.crc_ok => Ending::Read,
        Some(_) => Ending::Wrong,
    }
}

fn print_clock(rt: &impl Print, bits: Result<Option<BurstBits>, Refusal>) {
    match bits {
        Err(_) => {}
        Ok(None) => {
            replay::print(rt, b"  no bits: it takes 8 dips on the grid\n");
        }
        Ok(Some(b)) => {
            replay::print(rt, b"  clock error ");
            replay::print_number(rt, b.clock_error_ppm);
            replay::print(rt, b" ppm, ");
            replay::print_number(rt, b.points);
            replay::print(rt, b" dips on the grid, ");
            replay::print_number(rt, b.count);
            replay::print(rt, b" bits\n");
        }
    }
}

fn print_bits(rt: &impl Print, bits: &[u8]) {
    if !bits.is_empty() {
        replay::print(rt, b"  ");
        replay::print_digits(rt, bits);
        replay::print_end(rt);
    }
}

impl<'a> Look<'a> {
    // The first lines of a block: when, how long, how it ended, and the levels. It is counted.
    fn print_head(&mut self, rt: &impl Print, b: Burst, how: Ending) {
        self.tally.add(how);
        replay::print(rt, b"burst ");
        replay::print_number(rt, self.tally.bursts);
        replay::print(rt, b" at ");
        print_parts(rt, self.second_at(b.start));
        replay::print(rt, b" s, ");
        print_parts(rt, self.seconds_between(b.start, b.end));
        replay::print(rt, b" s long: ");
        print_ending(rt, how);
        print_levels(rt, b);
    }

    // A burst that was not taken.
    pub fn explain_left(&mut self, rt: &impl Print, b: Burst, how: Ending) {
        self.print_head(rt, b, how);
    }

    // What a frame with a right CRC does: it joins the message of its device and counter, or opens one.
    fn join(&mut self, rt: &impl Print, f: UplinkFrame) {
        let Some(last) = last_of(&self.before.waiting, f.device_id, f.counter) else {
            replay::print(rt, b"  it opens a message\n");
            return;
        };
        let time = time_of(self.before);
        let margin = explaining::quiet_margin(time, last);
        replay::print(rt, b"  it joins the message, which had waited ");
        print_parts(rt, time - last);
        replay::print(rt, b" s (");
        print_parts(rt, margin);
        replay::print(rt, b" left of 10)\n");
        self.tally.add_join(margin);
    }

    // The rest of a block behind its dips.
    fn explain_frame(
        &mut self,
        rt: &impl Print,
        b: Burst,
        near: Near,
        decoded: Option<DecodedFrame>,
        how: Ending,
    ) {
        match (how, decoded) {
            (Ending::Read, Some(d)) => {
                print_frame(rt, d.frame);
                self.tally.add_margins(explaining::margin(b), near);
                self.join(rt, d.frame);
            }
            (Ending::Wrong, Some(d)) => print_frame(rt, d.frame),
            _ => {}
        }
    }

    // A burst whose samples are looked at from one place on to another, as the receiver did when it took it.
    fn explain_segment(
        &mut self,
        rt: &impl Print,
        b: Burst,
        from: usize,
        to: usize,
        decoded: Option<DecodedFrame>,
        scratch: &mut Scratch,
    )
        requires { (from ≤ to) × (to ≤ length self.old.held.now) }
    {
        let seg = &self.held[from..to];
        let mut bits = [0u8; 1024];
        let found = clock::burst_bits(
            seg,
            self.rate(),
            &mut bits,
            &mut scratch.f32s,
            &mut scratch.f64s,
        );
        let known = found.unwrap_or(None);
        let n = known.map_or(0, |b| b.count).min(bits.len());
        let kind = type_of(&bits[..n]);
        let how = ending_of(known, kind, decoded);
        self.print_head(rt, b, how);
        let near = explain_dips(
            rt,
            seg,
            self.rate(),
            self.second_at(from),
            &mut scratch.f64s,
        );
        print_clock(rt, found);
        print_bits(rt, &bits[..n]);
        if known.is_some() {
            print_type(rt, kind);
        }
        self.explain_frame(rt, b, near, decoded, how);
    }

    // A burst that the receiver took.
    pub fn explain_taken(&mut self, rt: &impl Print, b: Burst, scratch: &mut Scratch) {
        let rate = self.rate();
        let held = self.held;
        if !limits::rate_ok(rate) || held.len() < b.end || limits::MOST_SAMPLES < held.len() {
            return;
        }
        let decoded = demod::decode_burst(
            held,
            rate,
            b,
            self.second_at(0),
            &mut scratch.f32s,
            &mut scratch.f64s,
        );
        let seen = demod::looked_at(held, rate, b);
        self.explain_segment(rt, b, seen.from, seen.to, decoded.unwrap_or(None), scratch);
    }
}
