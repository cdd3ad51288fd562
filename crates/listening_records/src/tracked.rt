// What `frame1` is asked of.
ghost use Rattle.std.specs.Prelude.{◌≤◌, ◌^◌};

use frequency::FrequencyTracker;
use frequency_lists::Reading;

// Whether a frequency has come, the samples passed over before the tracker's first record, and the tracker with its readings.
#[derive(Clone, Copy)]
pub struct Tracked<'a> {
    pub started: bool,
    pub passed: u64,
    pub tracker: FrequencyTracker,
    pub readings: &'a [Reading],
    pub ghost few: { passed ≤ 2 ^ 53 },
}
