// Shift windows (02, request 03): what a call is given of the working week, when it is refused, and the mark of a message by its time.
#![tactic(auto)]

ghost use Rattle.std.specs.Prelude.{◌≡◌, true, ◌≤◌};
ghost use Rattle.limits.specs.Answer.{cause_of};
ghost use Rattle.shifts.specs.Shifts.{no_shifts, start_ok, window_ok, windows_ok, rising, shifts_ok, windows_of, in_range, farthest, second, among, holds, any_holds, mark_at, schedule, no_schedule, schedule_cause, mark_by};

use limits::Refusal;

pub const MOST_WINDOWS: usize = 32;

// A week in minutes and in seconds, and a day in seconds.
const WEEK_MIN: u16 = 10_080;

const WEEK_S: u32 = 604_800;

const DAY_S: u64 = 86_400;

// A message at a later time, in seconds, is outside every window.
const FARTHEST_S: f64 = 10_000_000_000.0;

// Marks of event byte 34.
pub const UNMARKED: u8 = 0;

pub const INSIDE: u8 = 1;

pub const OUTSIDE: u8 = 2;

// Minutes of the week: the start belongs to the window, the end doesn't; equal ends mean the whole week.
#[derive(Clone, Copy)]
pub struct Window {
    pub start: u16,
    pub end: u16,
}

// The first `count` windows. Closed dates stand beside it, as a lent slice of day numbers.
#[derive(Clone, Copy)]
pub struct Shifts {
    pub start: Option<u32>,
    pub windows: [Window; 32],
    pub count: usize,
}

impl Shifts {
    // No start second, no window.
    pub fn none() -> Self
        ensures { result ≡ no_shifts }
    {
        let w = Window { start: 0, end: 0 };
        Self {
            start: None,
            windows: [w; 32],
            count: 0,
        }
    }
}

// What a call is given of the working week: start second and windows, and the closed dates, as day numbers.
#[derive(Clone, Copy)]
pub struct Given<'a> {
    pub shifts: Shifts,
    pub closed: &'a [u32],
}

impl Given<'_> {
    // No shifts, no closed date.
    pub fn none() -> Self
        ensures { schedule result ≡ no_schedule }
    {
        Self {
            shifts: Shifts::none(),
            closed: &[0u32; 0],
        }
    }

    // Whether refusal 11 does not apply.
    pub fn is_ok(&self) -> bool
        ensures { result ≡ shifts_ok self.now.shifts self.now.closed.now }
    {
        let s = self.shifts;
        if !start_ok(s.start) {
            return false;
        }
        let n = s.count;
        if MOST_WINDOWS < n {
            return false;
        }
        let windows = s.windows;
        if !windows_ok(&windows[..n]) {
            return false;
        }
        rise(self.closed)
    }

    // Refusal 11.
    pub fn check(&self) -> Result<(), Refusal>
        ensures { cause_of result ≡ schedule_cause (schedule self.now) }
    {
        if self.is_ok() {
            return Ok(());
        }
        Err(Refusal::BadShifts)
    }

    // The mark at t seconds of a stream that began at a second of the week.
    fn mark_at(&self, start: u32, t: u64) -> u8
        requires { t ≤ farthest }
        ensures { result ≡ mark_at start self.now.shifts self.now.closed.now t }
    {
        let first = start as u64;
        let day = (first % DAY_S + t) / DAY_S;
        if is_among(self.closed, day) {
            return OUTSIDE;
        }
        let minute = (first + t) % (WEEK_S as u64) / 60;
        if any_holds(self.shifts, minute) {
            return INSIDE;
        }
        OUTSIDE
    }

    // The mark of a message with this time: inside, outside, or 0 where no start second was given.
    pub fn mark(&self, time: f64) -> u8
        ensures { result ≡ mark_by (schedule self.now) time }
    {
        let s = self.shifts;
        let Some(first) = s.start else {
            return UNMARKED;
        };
        if !in_range(time) {
            return OUTSIDE;
        }
        let t = whole_second(time);
        self.mark_at(first, t)
    }
}

// ---- refusal 11

fn start_ok(start: Option<u32>) -> bool
    ensures { result ≡ start_ok start }
{
    match start {
        Some(s) => s < WEEK_S,
        None => true,
    }
}

fn window_ok(w: Window) -> bool
    ensures { result ≡ window_ok w }
{
    let start = w.start < WEEK_MIN;
    let end = w.end < WEEK_MIN;
    start & end
}

fn windows_ok(windows: &[Window]) -> bool
    ensures { result ≡ windows_ok windows.now }
{
    windows.iter().all(|w| window_ok(*w))
}

// Whether each date is above the one before it.
fn rise(dates: &[u32]) -> bool
    ensures { result ≡ rising dates.now }
{
    dates.is_sorted_by(|a, b| a < b)
}

// ---- the mark

// Whether a time lies from 0 to 10^10 s; a NaN doesn't.
fn in_range(time: f64) -> bool
    ensures { result ≡ in_range time }
{
    let early = time >= 0.0;
    let late = time <= FARTHEST_S;
    early & late
}

// A time in range, rounded down to a second.
fn whole_second(time: f64) -> u64
    requires { in_range time ≡ true }
    ensures { (result ≡ second time) × (result ≤ farthest) }
{
    floats::to_usize_saturating(time) as u64
}

// Whether the minute of the week lies in the window.
fn holds(w: Window, minute: u64) -> bool
    ensures { result ≡ holds minute w }
{
    let begun = (w.start as u64) <= minute;
    let open = minute < (w.end as u64);
    if w.start == w.end {
        return true;
    }
    if w.start < w.end {
        return begun & open;
    }
    begun | open
}

// Whether one of the windows that the count names holds the minute; of a count over 32, all there are.
fn any_holds(s: Shifts, minute: u64) -> bool
    ensures { result ≡ any_holds minute (windows_of s) }
{
    let windows = s.windows;
    windows.iter().take(s.count).any(|w| holds(*w, minute))
}

fn is_among(dates: &[u32], day: u64) -> bool
    ensures { result ≡ among day dates.now }
{
    dates.iter().any(|d| day == u64::from(*d))
}
