// A repetition's code undone by the byte, one line a case (docs/REPLAY.md, `bytes`).
#![tactic(auto)]

use bytewise::ConvState;
use replay::Unanswered;

// frame.rs's number of a state: the last bit counts 2, the one before it 1.
fn state_of(n: u8) -> ConvState {
    ConvState {
        last: n / 2 % 2 == 1,
        second: n % 2 == 1,
    }
}

fn print_state(rt: &impl Print, s: ConvState) {
    replay::print_number(rt, 2 * u64::from(s.last) + u64::from(s.second));
}

// Bits as digits, `-` where there are none.
fn print_rest(rt: &impl Print, bits: &[u8]) {
    if bits.is_empty() {
        replay::print(rt, b"-");
    }
    replay::print_digits(rt, bits);
}

// A byte more than a call takes is kept, so that the call refuses and not the program.
fn case(rt: &(impl Input + Print), head: &[u8; 2]) -> Result<(), Unanswered> {
    let mut bytes = [0u8; 129];
    let bytes = replay::read_bytes(rt, &mut bytes)?;
    let mut count = [0u8; 1];
    replay::read_part(rt, &mut count)?;
    let mut rest = [0u8; 255];
    let rest = replay::read_n_bytes(rt, usize::from(count[0]), &mut rest)?;
    let mut out = [0u8; 129];
    let mut out_rest = [0u8; 255];
    let s = bytewise::deconvolve_bytes(
        bytes,
        rest,
        head[0],
        state_of(head[1]),
        &mut out,
        &mut out_rest,
    )?;
    replay::print(rt, b"Y ");
    replay::print_slice(rt, &out[..bytes.len()]);
    replay::print(rt, b" ");
    print_rest(rt, &out_rest[..rest.len()]);
    replay::print(rt, b" ");
    print_state(rt, s);
    replay::print_end(rt);
    Ok(())
}

fn main(rt: HostRuntime) {
    replay::run(&rt, |head: [u8; 2]| case(&rt, &head));
}
