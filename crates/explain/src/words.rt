// Numbers in decimal.
ghost use Rattle.std.specs.Prelude.{◌≤◌, ◌<◌};

// A number in units of 1 / scale, so many decimals.
fn print_decimals(rt: &impl Print, x: f64, scale: usize, decimals: usize)
    requires { (0 < scale) × (scale ≤ 1000000) }
{
    let n = explaining::scaled(x, scale);
    if x < 0.0 && 0 < n {
        replay::print(rt, b"-");
    }
    let whole = n / scale as u64;
    let part = n % scale as u64;
    let _ = print!(rt; "{whole}.{part:0decimals$}");
}

// Decibels, with two decimals.
pub fn print_db(rt: &impl Print, x: f64) {
    print_decimals(rt, x, 100, 2);
}

// Seconds, and parts of a bit, with three.
pub fn print_parts(rt: &impl Print, x: f64) {
    print_decimals(rt, x, 1000, 3);
}

// A number of something, with its text behind it.
pub fn print_count(rt: &impl Print, n: u64, text: &[u8]) {
    replay::print_number(rt, n);
    replay::print(rt, text);
}

// A level of a sample.
pub fn print_dbm(rt: &impl Print, x: f32) {
    print_db(rt, std::num::f32_to_f64_with_nan(x));
}
