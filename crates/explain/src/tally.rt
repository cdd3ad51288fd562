// What was counted, and the smallest margins of what was read.
use crate::words::{print_count, print_db, print_parts};

// How a burst ended.
#[derive(Clone, Copy)]
pub enum Ending {
    Faint,
    Short,
    Cut,
    Clockless,
    Typeless,
    Few,
    Wrong,
    Read,
}

// How near a burst's dips came to 6 dB and to 0.35 of a bit.
#[derive(Clone, Copy)]
pub struct Near {
    pub dip: f64,
    pub grid: f64,
}

#[derive(Clone, Copy)]
pub struct Tally {
    pub bursts: u64,
    pub faint: u64,
    pub short: u64,
    pub spikes: u64,
    pub cut: u64,
    pub clockless: u64,
    pub typeless: u64,
    pub few: u64,
    pub wrong: u64,
    pub read: u64,
    pub joins: u64,
    pub above: f64,
    pub dip: f64,
    pub grid: f64,
    pub quiet: f64,
    // Up to here, as absolute samples, bursts over the threshold and those under it have been explained.
    pub done: u64,
    pub faint_done: u64,
}

// More than any margin.
const FAR: f64 = 1_000_000.0;

impl Near {
    // Of no dips.
    pub fn far() -> Near {
        Near {
            dip: FAR,
            grid: FAR,
        }
    }

    // With one dip more.
    pub fn with(self, depth: f64, off: f64) -> Near {
        Near {
            dip: explaining::lesser(self.dip, explaining::depth_margin(depth)),
            grid: explaining::lesser(self.grid, explaining::grid_margin(off)),
        }
    }
}

fn count(n: &mut u64) {
    *n = n.wrapping_add(1);
}

impl Tally {
    pub fn new() -> Tally {
        Tally {
            bursts: 0,
            faint: 0,
            short: 0,
            spikes: 0,
            cut: 0,
            clockless: 0,
            typeless: 0,
            few: 0,
            wrong: 0,
            read: 0,
            joins: 0,
            above: FAR,
            dip: FAR,
            grid: FAR,
            quiet: FAR,
            done: 0,
            faint_done: 0,
        }
    }

    // A burst that ended so.
    pub fn add(&mut self, how: Ending) {
        count(&mut self.bursts);
        match how {
            Ending::Faint => count(&mut self.faint),
            Ending::Short => count(&mut self.short),
            Ending::Cut => count(&mut self.cut),
            Ending::Clockless => count(&mut self.clockless),
            Ending::Typeless => count(&mut self.typeless),
            Ending::Few => count(&mut self.few),
            Ending::Wrong => count(&mut self.wrong),
            Ending::Read => count(&mut self.read),
        }
    }

    // A cluster of loud samples that is too short to be shown.
    pub fn add_spike(&mut self) {
        count(&mut self.spikes);
    }

    // The margins of a burst that was read.
    pub fn add_margins(&mut self, above: f64, near: Near) {
        self.above = explaining::lesser(self.above, above);
        self.dip = explaining::lesser(self.dip, near.dip);
        self.grid = explaining::lesser(self.grid, near.grid);
    }

    // The margin of a frame that joined a message.
    pub fn add_join(&mut self, quiet: f64) {
        count(&mut self.joins);
        self.quiet = explaining::lesser(self.quiet, quiet);
    }

    fn print_endings(&self, rt: &impl Print) {
        print_count(rt, self.bursts, b" bursts: ");
        print_count(rt, self.faint, b" under the threshold, ");
        print_count(rt, self.short, b" too short (and ");
        print_count(rt, self.spikes, b" under 0.05 s), ");
        print_count(rt, self.cut, b" cut off, ");
        print_count(rt, self.clockless, b" without clock, ");
        print_count(rt, self.typeless, b" without type, ");
        print_count(rt, self.few, b" with too few bits, ");
        print_count(rt, self.wrong, b" with a wrong CRC, ");
        print_count(rt, self.read, b" read");
    }

    fn print_quiet(&self, rt: &impl Print) {
        if self.joins == 0 {
            replay::print(rt, b"no repetition for 10 s\n");
            return;
        }
        print_parts(rt, self.quiet);
        replay::print(rt, b" s of 10 s\n");
    }

    // The last line.
    pub fn print(&self, rt: &impl Print) {
        self.print_endings(rt);
        if self.read == 0 {
            replay::print_end(rt);
            return;
        }
        replay::print(rt, b"; smallest margins of those read: ");
        print_db(rt, self.above);
        replay::print(rt, b" dB over the 15 dB, ");
        print_db(rt, self.dip);
        replay::print(rt, b" dB over the 6 dB, ");
        print_parts(rt, self.grid);
        replay::print(rt, b" of a bit under the 0.35, ");
        self.print_quiet(rt);
    }
}
