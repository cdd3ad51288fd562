// Test frames as bits: a line of standard input is an uplink, and its three repetitions go out as digits, a line each (README.md).
#![tactic(auto)]

mod line; // what a line means

ghost use Rattle.std.specs.Prelude.{◌≤◌, length};

use limits::Refusal;
use line::Parsed;
use std::io;

// The longest line.
const MOST_LINE: usize = 512;

// Each repetition in its line.
fn print_written(rt: &impl Print, written: Result<usize, Refusal>, out: &[u8]) {
    match written {
        Err(refusal) => {
            replay::print_refusal(rt, refusal);
        }
        Ok(count) => {
            for repetition in out.chunks_exact(writer::PLACES) {
                if let Some(bits) = repetition.get(..count) {
                    replay::print_digits(rt, bits);
                    replay::print_end(rt);
                }
            }
        }
    }
}

// The lines of a frame.
fn print_frame(rt: &impl Print, f: Parsed, payload: &[u8], auth: &[u8]) {
    let n = f.payload_len;
    let m = f.auth_len;
    let mut out = [0u8; 636];
    if n <= payload.len() && m <= auth.len() {
        let written = writer::write_uplink(f.fields, &payload[..n], &auth[..m], &mut out);
        print_written(rt, written, &out);
    }
}

// The line of one that is no frame: its number.
fn print_unknown(rt: &impl Print, number: u64) {
    replay::print(rt, b"? ");
    replay::print_number(rt, number);
    replay::print_end(rt);
}

fn print_line(rt: &impl Print, line: &[u8], number: u64)
    requires { length line.now ≤ 512 }
{
    let mut payload = [0u8; 256];
    let mut auth = [0u8; 256];
    match line::parse(line, &mut payload, &mut auth) {
        Some(f) => {
            print_frame(rt, f, &payload, &auth);
        }
        None => {
            print_unknown(rt, number);
        }
    }
}

// Every line of standard input and what it prints.
fn print_lines(rt: &(impl Input + Print)) -> io::Result<()> {
    for number in 1..replay::MOST_CASES {
        let mut line = [0u8; 512];
        let Some(n) = reading::next_line(rt, &mut line)? else {
            break;
        };
        if n <= MOST_LINE {
            print_line(rt, &line[..n], number);
        } else {
            print_unknown(rt, number);
        }
    }
    Ok(())
}

fn main(rt: HostRuntime) {
    if print_lines(&rt).is_err() {
        let _ = rt.eprintln("uplink: standard input can't be read");
    }
}
