// A repetition's code undone eight bits at a time, by the tables of `conv_tables` (02, request 06; frame.rs deconvolve).
// Whole bytes hold eight bits each, the first of them highest; a remainder is bits, bytes 0 or 1.
#![tactic(auto)]

ghost use Rattle.std.specs.Prelude.{◌≡◌, true, ◌++◌, ◌≤◌, ◌<◌, length, drop};
ghost use Rattle.limits.specs.Answer.{said_by, cause_of};
ghost use Rattle.coding.specs.Convolution.{numbered};
ghost use Rattle.conv_tables.specs.Tables.{decoded_byte, next_state, decoded_table, next_table};
ghost use Rattle.bytewise.specs.Steps.{by_bytes, state_bytes};
ghost use Rattle.bytewise.specs.Answers.{state_is, bytes_cause, bytes_answer, bytes_out, rest_out};

use coding::HIGHEST_RANK;
use conv_tables::{RANK_PLACES, STATE_PLACES};
use limits::{MOST_BITS, Refusal};

// The code's state: the last decoded bit and the one before it. Both are false where a repetition starts.
#[derive(Clone, Copy)]
pub struct ConvState {
    pub last: bool,
    pub second: bool,
}

// A decoded byte, and the state after it as frame.rs's number: the last bit counts 2, the one before it 1.
#[derive(Clone, Copy)]
struct Step {
    byte: u8,
    state: u8,
}

fn number_of(s: ConvState) -> u8
    ensures { (numbered result ≡ state_is s) × (result < 4) }
{
    2 * u8::from(s.last) + u8::from(s.second)
}

fn state_of(n: u8) -> ConvState
    ensures { state_is result ≡ numbered n }
{
    ConvState {
        last: n / 2 % 2 == 1,
        second: n % 2 == 1,
    }
}

// A byte more: by the tables, and at rank 0, which has no code, as it is.
fn undone_byte(decoded: &[u8; 2048], next: &[u8; 2048], rank: u8, state: u8, b: u8) -> Step
    requires { (decoded.now ≡ decoded_table) × (next.now ≡ next_table) × (rank ≤ 2) × (state < 4) }
    ensures { (result.byte ≡ decoded_byte rank state b) × (result.state ≡ next_state rank state b) × (result.state < 4) }
{
    if rank == 0 {
        return Step {
            byte: b,
            state: 2 * (b % 2) + b / 2 % 2,
        };
    }
    let k = RANK_PLACES * (rank as usize - 1) + STATE_PLACES * (state as usize) + (b as usize);
    Step {
        byte: decoded[k],
        state: next[k],
    }
}

// All bytes, into the first places of `out`; the state after them. The tables are copied once.
fn undo_into(bytes: &[u8], rank: u8, state: u8, out: &mut [u8]) -> u8
    requires { (rank ≤ 2) × (state < 4) × (length bytes.now ≤ length out.old) }
    ensures { (out.new ≡ by_bytes rank state bytes.now ++ drop (length bytes.now) out.old)
        × (result ≡ state_bytes rank state bytes.now)
        × (result < 4) }
{
    let decoded = conv_tables::decoded();
    let next = conv_tables::next();
    let mut s = state;
    for (i, b) in bytes.iter().enumerate() {
        let step = undone_byte(&decoded, &next, rank, s, *b);
        out[i] = step.byte;
        s = step.state;
    }
    s
}

// The first cause that applies.
fn check(bytes: &[u8], rest: &[u8], rank: u8, room: usize, rest_room: usize) -> Result<(), Refusal>
    ensures { cause_of result ≡ bytes_cause bytes.now rest.now rank room rest_room }
{
    if room < bytes.len() || rest_room < rest.len() {
        return Err(Refusal::Short);
    }
    if MOST_BITS / 8 < bytes.len() || MOST_BITS - 8 * bytes.len() < rest.len() {
        return Err(Refusal::Long);
    }
    if HIGHEST_RANK < rank || !coding::are_bits(rest) {
        return Err(Refusal::BadNumber);
    }
    Ok(())
}

// The bits that a repetition sent, from any state: whole bytes by the tables into `out`, then a remainder bit by bit into `out_rest`.
pub fn deconvolve_bytes(
    bytes: &[u8],
    rest: &[u8],
    rank: u8,
    start: ConvState,
    out: &mut [u8],
    out_rest: &mut [u8],
) -> Result<ConvState, Refusal>
    ensures { (said_by state_is result ≡ bytes_answer bytes.now rest.now rank start out.old out_rest.old)
        × (out.new ≡ bytes_out bytes.now rest.now rank start out.old out_rest.old)
        × (out_rest.new ≡ rest_out bytes.now rest.now rank start out.old out_rest.old) }
{
    check(bytes, rest, rank, out.len(), out_rest.len())?;
    let s = undo_into(bytes, rank, number_of(start), out);
    let end = coding::deconvolve_from(rest, rank, s, out_rest);
    Ok(state_of(end))
}
