// The block behind a call's arguments: start second, windows and closed dates.
ghost use Rattle.std.specs.Prelude.{IfOk, ◌≤◌, length};

use replay::Unanswered;
use shifts::{Given, Shifts, Window};

// The windows that a call takes: those past the last place are read over.
fn read_windows(rt: &impl Input, n: usize) -> Result<[Window; 32], Unanswered> {
    let none = Window { start: 0, end: 0 };
    let mut windows = [none; 32];
    for i in 0..n {
        let mut part = [0u8; 4];
        replay::read_part(rt, &mut part)?;
        if i < shifts::MOST_WINDOWS {
            windows[i] = Window {
                start: endian::get(&part, 0),
                end: endian::get(&part, 2),
            };
        }
    }
    Ok(windows)
}

// A count, and that many closed dates; those for which the list has no place are read over.
fn read_dates<'a>(rt: &impl Input, closed: &'a mut [u32]) -> Result<&'a [u32], Unanswered>
    ensures { IfOk result (λ s. length s.now ≤ length closed.old) }
{
    let mut count = [0u8; 2];
    replay::read_part(rt, &mut count)?;
    replay::read_n(rt, endian::get::<u16>(&count, 0) as usize, closed)
}

fn read_behind<'a>(rt: &impl Input, closed: &'a mut [u32]) -> Result<Given<'a>, Unanswered>
    ensures { IfOk result (λ g. length g.closed.now ≤ length closed.old) }
{
    let mut head = [0u8; 6];
    replay::read_part(rt, &mut head)?;
    let start = if head[0] == 0 {
        None
    } else {
        Some(endian::get(&head, 1))
    };
    let count = usize::from(head[5]);
    let windows = read_windows(rt, count)?;
    Ok(Given {
        shifts: Shifts {
            start,
            windows,
            count,
        },
        closed: read_dates(rt, closed)?,
    })
}

// What stands behind the arguments; no shifts where nothing does.
pub fn read_block<'a>(
    rt: &impl Input,
    behind: bool,
    closed: &'a mut [u32],
) -> Result<Given<'a>, Unanswered>
    ensures { IfOk result (λ g. length g.closed.now ≤ length closed.old) }
{
    if behind {
        return read_behind(rt, closed);
    }
    Ok(Given {
        shifts: Shifts::none(),
        closed: &closed[..0],
    })
}
