// The tables by which a repetition's code is undone eight bits at a time (02, request 06). src/table.rt is what the program `print_conv_tables` prints.
#![tactic(auto)]

ghost use Rattle.std.specs.Prelude.{◌≡◌};
ghost use Rattle.conv_tables.specs.Tables.{decoded_table, next_table};

use table::{DECODED, NEXT};

mod table; // the constants

// The places of a state, 256 bytes, and of a rank, four states.
pub const STATE_PLACES: usize = 256;

pub const RANK_PLACES: usize = 1024;

// The decoded bytes. A read of a constant copies all of it, so a caller takes it once and lends it.
pub fn decoded() -> [u8; 2048]
    ensures { result ≡ decoded_table }
{
    DECODED
}

// The states after them.
pub fn next() -> [u8; 2048]
    ensures { result ≡ next_table }
{
    NEXT
}
