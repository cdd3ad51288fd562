// Uplinks written into a lent slice, two lines a case (docs/REPLAY.md, `writer`).
#![tactic(auto)]

ghost use Rattle.std.specs.Prelude.{◌≤◌, length};

use frame::header::UplinkFields;
use limits::Refusal;
use replay::Unanswered;

// The longest slice that is lent.
const MOST_ROOM: usize = 700;

// The count of each repetition, by rank.
fn print_written(rt: &impl Print, written: Result<usize, Refusal>) {
    match written {
        Err(refusal) => {
            replay::print_refusal(rt, refusal);
        }
        Ok(n) => {
            replay::print(rt, b"W ");
            replay::print_number(rt, n);
            replay::print(rt, b" ");
            replay::print_number(rt, n);
            replay::print(rt, b" ");
            replay::print_number(rt, n);
            replay::print_end(rt);
        }
    }
}

// The call, on the first places of a slice.
fn write_into(
    rt: &impl Print,
    fields: UplinkFields,
    payload: &[u8],
    auth: &[u8],
    out: &mut [u8],
    room: usize,
)
    requires { room ≤ length out.old }
{
    let written = writer::write_uplink(fields, payload, auth, &mut out[..room]);
    print_written(rt, written);
    replay::print_slice(rt, &out[..room]);
    replay::print_end(rt);
}

fn case(rt: &(impl Input + Print), head: &[u8; 8]) -> Result<(), Unanswered> {
    let mut payload = [0u8; 13];
    let payload = replay::read_bytes(rt, &mut payload)?;
    let mut auth = [0u8; 6];
    let auth = replay::read_bytes(rt, &mut auth)?;
    let mut lent = [0u8; 3];
    replay::read_part(rt, &mut lent)?;
    let mut out = [lent[2]; 700];
    let room = usize::from(endian::get::<u16>(&lent, 0)).min(MOST_ROOM);
    write_into(
        rt,
        replay_records::uplinks::fields_of(head),
        payload,
        auth,
        &mut out,
        room,
    );
    Ok(())
}

fn main(rt: HostRuntime) {
    replay::run(&rt, |head: [u8; 8]| case(&rt, &head));
}
