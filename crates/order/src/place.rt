// Floats and their places in the total order of their format.
#![tactic(auto)]

ghost use Rattle.std.specs.Prelude.{◌≡◌, ℕ, ◌+◌, ◌-◌, ◌%◌, ◌^◌, ◌<◌, ◌≤◌, Bool, T, List, length, nat_lt, slice_index_or};
ghost use Rattle.std.specs.Float.{binary32, binary64};
ghost use Rattle.std.proofs.Common.{rules};
ghost use Rattle.order.specs.Order.{key, kth, Numbers, held};
ghost use Rattle.order.specs.Sorted.{sorted};
ghost use Rattle.order.specs.Search.{Each};

// A place: a whole number of `width` bits.
pub trait Place: Copy {
    ghost width: { ℕ };

    ghost number: { Self → ℕ };

    fn of(n: u64) -> Self
        requires { n < 2 ^ width }
        ensures { number result ≡ n };

    fn value(self) -> u64
        ensures { (result ≡ number self) × (result < 2 ^ width) };

    // The last of all places.
    fn last() -> u64
        ensures { result ≡ 2 ^ width - 1 };

    // How far it lies above lo, modulo 2 ^ width.
    fn above(self, lo: Self) -> Self
        ensures { ((number result + number lo) % 2 ^ width ≡ number self) × (number result < 2 ^ width) };

    fn is_below(self, other: Self) -> bool
        ensures { result ≡ nat_lt (number self) (number other) };

    ghost wide: { width ≤ 64 };
}

impl Place for u32 {
    ghost width = { 32 };

    ghost number = { λ n. n };

    ghost wide = { Prim.search rules };

    fn of(n: u64) -> u32 {
        n as u32
    }

    fn value(self) -> u64 {
        u64::from(self)
    }

    fn last() -> u64 {
        u64::from(u32::MAX)
    }

    fn above(self, lo: u32) -> u32 {
        self.wrapping_sub(lo)
    }

    fn is_below(self, other: u32) -> bool {
        self < other
    }
}

impl Place for u64 {
    ghost width = { 64 };

    ghost number = { λ n. n };

    ghost wide = { Prim.search rules };

    fn of(n: u64) -> u64 {
        n
    }

    fn value(self) -> u64 {
        self
    }

    fn last() -> u64 {
        u64::MAX
    }

    fn above(self, lo: u64) -> u64 {
        self.wrapping_sub(lo)
    }

    fn is_below(self, other: u64) -> bool {
        self < other
    }
}

// A float, which has a place if it is no NaN.
pub trait Ranked: Copy {
    ghost key: { Self → ℕ };

    ghost kth: { List Self → ℕ → Self };

    ghost Numbers: { List Self → Type 0 };
    // whether it has a place
    ghost held: { Self → Bool };

    type At: Place;

    // Shorter lists are searched by ranks.
    const SHORT: usize;

    fn place(self) -> Self::At
        requires { T (held self) }
        ensures { Self.At.number result ≡ key self };

    // The number that has a place.
    fn at(place: Self::At) -> Self
        requires { (x : Self) × T (held x) × (key x ≡ Self.At.number place) }
        ensures { (x : Self) → T (held x) → key x ≡ Self.At.number place → result ≡ x };

    // A list of them, each of which has a place.
    fn placed(items: &[Self]) -> Placed<'_, Self>
        requires { Numbers items.now }
        ensures same { result.items.now ≡ items.now }
        ensures kth_is { (k : ℕ) (d : Self) → k < length items.now → kth items.now k ≡ slice_index_or (sorted key items.now) k d };
}

// Numbers that all have a place.
#[derive(Drop)]
pub struct Placed<'a, N: Ranked> {
    pub items: &'a [N],
    pub ghost held: { Each (λ x. T (N.held x) × (N.key x < 2 ^ N.At.width)) items.now },
}

// The place of +0; the numbers with the sign set come before it.
const ZERO32: u32 = 0x8000_0000;

const ZERO64: u64 = 0x8000_0000_0000_0000;

impl Ranked for f32 {
    ghost key = { key binary32 };

    ghost kth = { kth binary32 };

    ghost Numbers = { Numbers };

    ghost held = { held binary32 };

    type At = u32;

    const SHORT: usize = 0;

    fn place(self) -> u32 {
        let b = self.to_bits();
        if b < ZERO32 { ZERO32 + b } else { u32::MAX - b }
    }

    fn at(place: u32) -> f32 {
        if place < ZERO32 {
            f32::from_bits(u32::MAX - place)
        } else {
            f32::from_bits(place - ZERO32)
        }
    }

    fn placed(items: &[f32]) -> Placed<'_, f32> {
        Placed { items }
    }
}

// Shorter lists of f64 take half of the time or less by ranks.
impl Ranked for f64 {
    ghost key = { key binary64 };

    ghost kth = { kth binary64 };

    ghost Numbers = { Numbers };

    ghost held = { held binary64 };

    type At = u64;

    const SHORT: usize = 64;

    fn place(self) -> u64 {
        let b = self.to_bits();
        if b < ZERO64 { ZERO64 + b } else { u64::MAX - b }
    }

    fn at(place: u64) -> f64 {
        if place < ZERO64 {
            f64::from_bits(u64::MAX - place)
        } else {
            f64::from_bits(place - ZERO64)
        }
    }

    fn placed(items: &[f64]) -> Placed<'_, f64> {
        Placed { items }
    }
}
