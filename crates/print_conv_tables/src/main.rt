// Prints crates/conv_tables/src/table.rt: the constants by which a repetition's code is undone eight bits at a time (02, request 06).
// Its `stdout` is that file's text, and .ci/run compares the two.
#![tactic(auto)]

// The eight inputs of which a byte's bits are the product, as a byte, and the state after them, bit by bit (frame.rs deconvolve).
#[derive(Clone, Copy)]
struct Step {
    byte: u8,
    state: u8,
}

fn decode(rank: u8, state: u8, b: u8) -> Step {
    let mut v: u8 = 0;
    let mut p = state / 2 % 2;
    let mut q = state % 2;
    for i in 0..8u32 {
        let x = coding::coded_bit((b >> (7 - i)) % 2, rank, p, q);
        v = (v % 128) * 2 + x;
        q = p;
        p = x;
    }
    Step {
        byte: v,
        state: 2 * p + q,
    }
}

// The entries of a rank and a state, one for each byte. The first says of what it is.
fn print_row<F: Fn(Step) -> u8>(rt: &impl Print, name: &str, rank: u8, state: u8, entry: &F)
    requires { F.IsAlwaysCallable entry.now }
{
    for b in 0..=255u8 {
        let n = entry(decode(rank, state, b));
        let _ = print!(rt; "    {n},");
        if b == 0 {
            let _ = print!(rt; " // {name}, rank {rank}, state {state}");
        }
        let _ = print!(rt; "\n");
    }
}

// Those of a rank, by state.
fn print_rank<F: Fn(Step) -> u8>(rt: &impl Print, name: &str, rank: u8, entry: &F)
    requires { F.IsAlwaysCallable entry.now }
{
    for state in 0..4u8 {
        print_row(rt, name, rank, state, entry);
    }
}

fn print_table<F: Fn(Step) -> u8>(rt: &impl Print, name: &str, entry: F)
    requires { F.IsAlwaysCallable entry }
{
    print_rank(rt, name, 1, &entry);
    print_rank(rt, name, 2, &entry);
    let _ = print!(rt; "];\n");
}

fn main(rt: HostRuntime) {
    let _ = print!(&rt;
        "// Made by the program `print_conv_tables`: the decoded byte and the state after it, by rank (1, 2), state and byte.\n"
    );
    let _ = print!(&rt; "pub const DECODED: [u8; 2048] = [\n");
    print_table(&rt, "decoded", |s| s.byte);
    let _ = print!(&rt; "\npub const NEXT: [u8; 2048] = [\n");
    print_table(&rt, "next", |s| s.state);
}
