// What the arguments say of shifts: a start second, then windows A-B and closed dates in any sequence (README.md).
ghost use Rattle.std.specs.Prelude.{IfSome, ◌≤◌, length};

use shifts::{Given, Shifts, Window};
use std::rt::Env;

// The most arguments, the program's name among them.
const MOST: usize = 1000;

// An argument: two numbers with a '-' between them, or one number.
#[derive(Clone, Copy)]
enum Word {
    Minutes(u16, u16),
    Number(u32),
}

// The decimal number that a text is; a larger one is taken for the largest of its type.
fn number(text: &[u8]) -> Option<u32> {
    if text.is_empty() {
        return None;
    }
    let mut n: u32 = 0;
    for c in text {
        if !c.is_ascii_digit() {
            return None;
        }
        n = n.saturating_mul(10).saturating_add(u32::from(*c - b'0'));
    }
    Some(n)
}

fn minute(text: &[u8]) -> Option<u16> {
    Some(u16::try_from(number(text)?).unwrap_or(u16::MAX))
}

fn word_of(text: &[u8]) -> Option<Word> {
    match text.iter().position(|c| *c == b'-') {
        None => Some(Word::Number(number(text)?)),
        Some(at) => Some(Word::Minutes(minute(&text[..at])?, minute(&text[at + 1..])?)),
    }
}

// Argument i, where it is one of the two; one that is longer than any number is neither.
fn word_at(rt: &impl Env, i: usize) -> Option<Word> {
    let mut text = [0u8; 64];
    let n = command_line::arg(rt, i, &mut text);
    word_of(&text[..n])
}

// The start second, where the argument is one.
fn start_at(rt: &impl Env, i: usize) -> Option<u32> {
    match word_at(rt, i)? {
        Word::Number(start) => Some(start),
        Word::Minutes(_, _) => None,
    }
}

// One window more; past the last place it is counted alone, and the call refuses.
fn add_window(shifts: &mut Shifts, window: Window) {
    let n = shifts.count;
    if n < shifts::MOST_WINDOWS {
        shifts.windows[n] = window;
    }
    shifts.count = n.wrapping_add(1);
}

// What the arguments give, no shifts where there is none; the closed dates for which the list has a place. None where they say something else.
pub fn read_given<'a>(rt: &impl Env, closed: &'a mut [u32]) -> Option<Given<'a>>
    ensures { IfSome result (λ g. length g.closed.now ≤ length closed.old) }
{
    let count = command_line::arg_count(rt);
    let mut shifts = Shifts::none();
    if MOST < count {
        return None;
    }
    if 1 < count {
        shifts.start = Some(start_at(rt, 1)?);
    }
    let mut dates: usize = 0;
    for i in 2..count {
        match word_at(rt, i)? {
            Word::Minutes(start, end) => add_window(&mut shifts, Window { start, end }),
            Word::Number(date) => {
                if dates < closed.len() {
                    closed[dates] = date;
                    dates += 1;
                }
            }
        }
    }
    Some(Given {
        shifts,
        closed: &closed[..dates],
    })
}
