// The remembered starts (receiver.rs `seen`), as distances from the first held sample: which burst is one that was taken before, what is forgotten, how a drop moves them, and what 01 asks of them in a given state.
#![tactic(auto)]

ghost use Rattle.std.specs.Prelude.{◌≡◌, true, ◌&&◌, [], ◌∷◌, ◌++◌, ◌+◌, ◌-◌, ◌*◌, ◌^◌, ◌≤◌, ◌<◌, length, take, pos, neg_ℤ, ◌+ℤ◌, ◌-ℤ◌};
ghost use Rattle.std.proofs.Math.IntN.{sub_ℕ};
ghost use Rattle.std.specs.Int.Signed.{le_z};
ghost use Rattle.limits.specs.Limits.{longest_stream};
ghost use Rattle.ledger.specs.Ledger.{close};
ghost use Rattle.ledger.specs.Causes.{most_starts, oldest_s};
ghost use Rattle.receiver_starts.specs.Starts.{distances, none, over, near_one, lately, moved, all_below, all_from, all_apart, starts_ok};

// Places for remembered starts; a state in order has no more.
pub const MOST_STARTS: usize = 96;

// A state in order has no start older than this before its base, in seconds.
const OLDEST_S: u64 = 7;

// 2^31: what is asked of a distance is asked of the distance + 2^31, which has no sign.
const MIDDLE: u64 = 0x8000_0000;

// Distances from the first held sample to the starts of bursts taken: the first `count` places.
#[derive(Clone, Copy)]
pub struct Starts {
    pub at: [i32; MOST_STARTS],
    pub count: usize,
}

// d + 2^31.
fn biased(d: i32) -> u64
    ensures { pos result ≡ d +ℤ pos (2 ^ 31) }
{
    (i64::from(d) + MIDDLE as i64) as u64
}

// n − 2^31.
fn unbiased(n: u64) -> i32
    requires { n < 2 ^ 32 }
    ensures { result ≡ sub_ℕ n (2 ^ 31) }
{
    (n as i64 - MIDDLE as i64) as i32
}

// The distance of the sample at a buffer index.
pub fn distance(index: usize) -> i32
    requires { index < 2 ^ 31 }
    ensures { result ≡ pos index }
{
    index as i32
}

// Whether two starts are under 0.3 s apart: 0.3 × rate samples are not rounded, so a distance is under them where it is under the next whole number.
fn same_burst(rate: u32, a: u64, b: u64) -> bool
    ensures { result ≡ close rate a b }
{
    let limit = (3 * (rate as u64) + 9) / 10;
    a.abs_diff(b) < limit
}

// Whether the distance x is under 0.3 s from one of the first n.
pub fn near(rate: u32, starts: &[i32], n: usize, x: i32) -> bool
    requires { n ≤ length starts.now }
    ensures { result ≡ near_one rate (take n starts.now) x }
{
    let at = biased(x);
    for d in &starts[..n] {
        if same_burst(rate, biased(*d), at) {
            return true;
        }
    }
    false
}

// One start more; the places behind it stay as they are.
pub fn remember(s: &mut Starts, x: i32)
    requires { s.old.count < most_starts }
    ensures { s.new ≡ over s.old (distances s.old ++ (x ∷ [])) }
{
    let n = s.count;
    s.at[n] = x;
    s.count = n + 1;
}

// The start x behind those of s, where it is not below −back.
fn keep(s: &mut Starts, x: i32, back: u32)
    requires { s.old.count < most_starts }
    ensures { s.new ≡ over s.old (distances s.old ++ lately back (x ∷ [])) }
{
    if MIDDLE <= biased(x) + (back as u64) {
        remember(s, x);
    }
}

// The starts below −back are forgotten, the others stay in order (`retain`); the places behind them stay as they are.
pub fn forget(s: &mut Starts, back: u32)
    requires { s.old.count ≤ most_starts }
    ensures { s.new ≡ over s.old (lately back (distances s.old)) }
{
    let old = s.at;
    let n = s.count;
    s.count = 0;
    for x in &old[..n] {
        keep(s, *x, back);
    }
}

// A distance after the first held sample moved on by `by`.
fn less(d: i32, by: u64) -> i32
    requires { (by ≤ 2 ^ 30) × (le_z (neg_ℤ (pos (2 ^ 30))) d ≡ true) }
    ensures { result ≡ d -ℤ pos by }
{
    unbiased(biased(d) - by)
}

// The starts after the first held sample moved on by `by`.
pub fn shift(s: &mut Starts, by: u64)
    requires { (s.old.count ≤ most_starts) × (by ≤ 2 ^ 30) × (all_from (2 ^ 30) (distances s.old) ≡ true) }
    ensures { s.new ≡ over s.old (moved by (distances s.old)) }
{
    let n = s.count;
    for x in s.at[..n].iter_mut() {
        *x = less(*x, by);
    }
}

// No start.
pub fn none() -> Starts
    ensures { result ≡ none }
{
    Starts {
        at: [0i32; MOST_STARTS],
        count: 0,
    }
}

// The starts of s in the first places of another array, whose other places stay as they are.
pub fn over(old: &mut Starts, s: &Starts)
    requires { s.now.count ≤ most_starts }
    ensures { old.new ≡ over old.old (distances s.now) }
{
    let n = s.count;
    old.at[..n].copy_from_slice(&s.at[..n]);
    old.count = n;
}

// Whether the starts are all below the end of the held samples.
fn all_below(starts: &[i32], held: u64) -> bool
    requires { held ≤ longest_stream }
    ensures { result ≡ all_below held starts.now }
{
    let end = MIDDLE + held;
    for d in starts {
        if end <= biased(*d) {
            return false;
        }
    }
    true
}

// Whether none of the starts is below −back.
fn all_from(starts: &[i32], back: u64) -> bool
    ensures { result ≡ all_from back starts.now }
{
    let oldest = MIDDLE.saturating_sub(back);
    for d in starts {
        if biased(*d) < oldest {
            return false;
        }
    }
    true
}

// Whether the starts are pairwise at least 0.3 s apart.
fn apart(rate: u32, starts: &[i32]) -> bool
    ensures { result ≡ all_apart rate [] starts.now }
{
    for (i, d) in starts.iter().enumerate() {
        if near(rate, starts, i, *d) {
            return false;
        }
    }
    true
}

// What 01 and 02 ask of the starts of a state in order.
pub fn in_order(s: &Starts, rate: u32, base: u64, held: usize) -> bool
    requires { held ≤ longest_stream }
    ensures { result ≡ starts_ok rate base held s.now }
{
    let n = s.count;
    if MOST_STARTS < n {
        return false;
    }
    let at = &s.at[..n];
    let low = all_below(at, held as u64);
    let recent = all_from(at, OLDEST_S * (rate as u64));
    let real = all_from(at, base);
    let separate = apart(rate, at);
    low & (recent & (real & separate))
}
