// The C function, bits in and a record out, one case a line (docs/REPLAY.md, `bits`).
#![tactic(auto)]

use replay::Unanswered;

// The C function's answer where the bits hold no frame.
const NO_FRAME: u8 = 255;

fn print_answer(rt: &impl Print, answer: u8, out: &mut [u8; 120]) {
    if answer == NO_FRAME {
        replay::print(rt, b"255\n");
        return;
    }
    if answer != 0 {
        replay::print_refusal_number(rt, answer);
        return;
    }
    replay::print(rt, b"0 ");
    replay_records::print_record(rt, out);
    replay::print_end(rt);
}

fn case(rt: &(impl Input + Print), head: &[u8; 2]) -> Result<(), Unanswered> {
    let mut bits = [0u8; 1025];
    let mut out = [0u8; 120];
    let bits = replay::read_n_bytes(rt, endian::get::<u16>(head, 0) as usize, &mut bits)?;
    let answer = record::sigfox_decode_bits(bits, &mut out);
    print_answer(rt, answer, &mut out);
    Ok(())
}

fn main(rt: HostRuntime) {
    replay::run(&rt, |head: [u8; 2]| case(&rt, &head));
}
