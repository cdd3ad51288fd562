// Floats: floor, rounding, Rust's casts, magnitude and maximum, and 01's sine, cosine and arctangent.
#![tactic(auto)]

ghost use Rattle.std.specs.Prelude.{◌≡◌, ℕ, ◌+◌, ◌-◌, ◌*◌, ◌^◌, ◌<◌, ◌≤◌, false, not, T, pos, if◌then◌else◌, is_nan};
ghost use Rattle.std.specs.Float.{binary64};
ghost use Rattle.std.specs.Float.Ieee.{round, lt, of_int, to_unsigned, to_signed};
ghost use Rattle.floats.specs.Number.{num};
ghost use Rattle.floats.specs.Floor.{floor, round_half_up};
ghost use Rattle.floats.specs.Fold.{max_of, max_from};
ghost use Rattle.floats.specs.Trig.{terms, atan_terms, reduce, series, cosine, sine, atan_from, atan, magnitude, arctangent};

use std::f64::consts::PI;
use std::num::{saturating_f64_to_i32, saturating_f64_to_u32, saturating_f64_to_usize};
use whole::pick;

// ---- floor and rounding

// f64::floor
pub fn floor64(x: f64) -> f64
    ensures { result ≡ floor x }
{
    x.floor()
}

// floor(x + 0.5): halves go up (demod.rs round).
pub fn round_half_up(x: f64) -> f64
    ensures { result ≡ round_half_up x }
{
    floor64(x + 0.5)
}

// ---- Rust's `as`: toward zero, to the nearest end of the range, and 0 for a NaN

// x as usize
pub fn to_usize_saturating(x: f64) -> usize
    ensures { result ≡ to_unsigned 64 x }
{
    saturating_f64_to_usize(x)
}

// x as u32
pub fn to_u32_saturating(x: f64) -> u32
    ensures { result ≡ to_unsigned 32 x }
{
    saturating_f64_to_u32(x)
}

// x as i32
pub fn to_i32_saturating(x: f64) -> i32
    ensures { result ≡ to_signed 31 x }
{
    saturating_f64_to_i32(x)
}

// ---- to f64, exactly

// A count as a float.
pub fn count_as_f64(n: usize) -> f64
    requires { n ≤ 2 ^ 53 }
    ensures { result ≡ of_int binary64 (pos n) }
{
    n as f64
}

// ---- maximum and magnitude

// f32::max of numbers that are no NaN.
pub fn max32(a: f32, b: f32) -> f32
    ensures { result ≡ max_of a b }
{
    if a < b { b } else { a }
}

// The highest of a number and those of a list, none of which is a NaN.
pub fn highest32(from: f32, xs: &[f32]) -> f32
    ensures { result ≡ max_from from xs.now }
{
    let mut m = from;
    for x in xs {
        m = max32(m, *x);
    }
    m
}

// f64::abs
pub fn abs64(x: f64) -> f64
    ensures { result ≡ magnitude x }
{
    x.abs()
}

// ---- 01's stand-ins for sine, cosine and arctangent: the same rounded operations in the same order

// The n that the series of cosine and sine starts from, down to 1.
const TERMS: u32 = 11;
// One more than the n that the arctangent's series starts from, down to 0.
const ATAN_TERMS: u32 = 16;
// Above this quotient the arctangent is taken from PI/4, where the series ends sooner.
const STEEP: f64 = 0.4;

// r = a - k * T, k = floor(a / T + 0.5)
fn reduced(a: f64) -> f64
    ensures { result ≡ reduce a }
{
    let t = 2.0 * PI;
    a - floor64(a / t + 0.5) * t
}

// p of the series of the cosine (o = 0) or of the sine (o = 1), whose n-th divisor is given, of q = r * r.
fn series_of<F: Fn(u32) -> u32>(divisor: F, q: f64) -> f64
    requires { (n : ℕ) → 1 ≤ n → n ≤ terms → F.pre divisor n }
    ensures { (o : ℕ) → ((n d : ℕ) → 1 ≤ n → F.post divisor n d → d ≡ (2 * n - 1 + o) * (2 * n + o)) → result ≡ series o terms q (num 1) }
{
    let mut p = 1.0;
    for n in (1..TERMS + 1).rev() {
        p = 1.0 - (p * q) / (divisor(n) as f64);
    }
    p
}

// f64::cos of the Rust, by its stand-in.
pub fn cos64(a: f64) -> f64
    ensures { result ≡ cosine a }
{
    let r = reduced(a);
    series_of(|n| (2 * n - 1) * (2 * n), r * r)
}

// f64::sin of the Rust, by its stand-in.
pub fn sin64(a: f64) -> f64
    ensures { result ≡ sine a }
{
    let r = reduced(a);
    r * series_of(|n| 2 * n * (2 * n + 1), r * r)
}

// p of the arctangent.
fn atan_series(u: f64) -> f64
    ensures { result ≡ atan_from atan_terms u (num 0) }
{
    let mut p = 0.0;
    for n in (0..ATAN_TERMS).rev() {
        p = 1.0 / ((2 * n + 1) as f64) - (u * u) * p;
    }
    p
}

// A of the arctangent, of t = smaller / larger.
fn atan64(t: f64) -> f64
    ensures { result ≡ atan t }
{
    let steep = t > STEEP;
    let u = pick(steep, (t - 1.0) / (t + 1.0), t);
    pick(steep, PI / 4.0, 0.0) + u * atan_series(u)
}

// f64::atan2 of the Rust, by its stand-in.
pub fn atan2_64(s: f64, c: f64) -> f64
    ensures { result ≡ arctangent s c }
{
    if s == 0.0 {
        if c == 0.0 {
            return 0.0;
        }
    }
    let a = abs64(s);
    let b = abs64(c);
    let x = atan64(pick(a > b, b / a, a / b));
    let y = pick(a > b, PI / 2.0 - x, x);
    let z = pick(c < 0.0, PI - y, y);
    pick(s < 0.0, -z, z)
}
