// Standard input and files as they come; an error is told from the end.
#![tactic(auto)]

ghost use Rattle.std.specs.Prelude.{◌≡◌, ◌+◌, ◌≤◌, ◌<◌, length, take, IfOk};

use std::io;
use std::io::Read;

// A proved loop has to end, and nothing says that a line does: the most bytes of one.
const MOST_LINE: usize = 0x1_0000_0000;

// What is there of a reader, behind the first bytes of the buffer, without waiting for more; no byte where it has ended.
pub fn fetch<R: Read>(file: &mut R, input: &mut [u8], from: usize) -> io::Result<usize>
    requires { from < length input.old }
    ensures result_in_bounds { IfOk result (λ n. from + n ≤ length input.new) }
    ensures input_unchanged { take from input.new ≡ take from input.old }
{
    file.read(&mut input[from..])
}

// The next bytes of a reader, as many as the buffer has places, fewer where it ends or a read fails: how many, and how the last read went.
fn read_on<R: Read>(file: &mut R, input: &mut [u8]) -> (usize, io::Result<()>)
    ensures { result.0 ≤ length input.new }
{
    let mut n: usize = 0;
    while n < input.len() {
        match fetch(file, input, n) {
            Ok(0) => return (n, Ok(())),
            Ok(k) => n += k,
            Err(e) => return (n, Err(e)),
        }
    }
    (n, Ok(()))
}

// The next bytes of a reader, as many as the buffer has places; fewer where it ends.
pub fn fill<R: Read>(file: &mut R, input: &mut [u8]) -> io::Result<usize>
    ensures { IfOk result (λ n. n ≤ length input.new) }
{
    let (n, last) = read_on(file, input);
    last?;
    Ok(n)
}

// The bytes of standard input that are read up to its end or an error, as many as the buffer has places; how many there were.
pub fn read_full(rt: &impl Input, bytes: &mut [u8]) -> usize
    ensures { result ≤ length bytes.new }
{
    read_on(&mut rt.reader(), bytes).0
}

// How many bytes the next line of standard input has, without its end; those that have a place are kept. Its last line may have no end.
pub fn next_line(rt: &impl Input, line: &mut [u8]) -> io::Result<Option<usize>>
    ensures { length line.new ≡ length line.old }
{
    let mut file = rt.reader();
    let mut one = [0u8; 1];
    for n in 0..MOST_LINE {
        if file.read(&mut one)? == 0 {
            return Ok(if n == 0 { None } else { Some(n) });
        }
        if one[0] == b'\n' {
            return Ok(Some(n));
        }
        if n < line.len() {
            line[n] = one[0];
        }
    }
    Ok(Some(MOST_LINE))
}
