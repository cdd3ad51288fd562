// Little-endian bytes of numbers: put into a lent slice at a place, and read from one.
#![tactic(auto)]

ghost use Rattle.std.specs.Prelude.{◌≡◌, ℕ, ◌+◌, ◌^◌, ◌<◌, ◌≤◌, length};
ghost use Rattle.std.proofs.lemmas.List.Edits.{sets};
ghost use Rattle.std.specs.Float.{binary32, binary64};
ghost use Rattle.std.specs.Float.Ieee.{of_bits};
ghost use Rattle.std.proofs.Common.{rules};
ghost use Rattle.endian.specs.Bytes.{bytes_of, number_at, bits_of, signed_bits, signed_of};

use std::num::{
    f32_from_bits_with_nan, f32_to_bits_with_nan, f64_from_bits_with_nan, f64_to_bits_with_nan,
};

// A number written in SIZE bytes. Its pattern is the whole number that those bytes make.
pub trait LittleEndian: Copy {
    ghost SIZE: { ℕ };

    ghost pattern: { Self → ℕ };

    ghost of_pattern: { ℕ → Self };

    const SIZE: usize;

    fn bits(self) -> u64
        ensures { result ≡ pattern self };

    fn of_bits(n: u64) -> Self
        requires { n < 256 ^ SIZE }
        ensures { result ≡ of_pattern n };

    ghost fits: { SIZE ≤ 8 };
}

impl LittleEndian for u16 {
    ghost SIZE = { 2 };

    ghost pattern = { λ n. n };

    ghost of_pattern = { λ n. n };

    ghost fits = { Prim.search rules };

    const SIZE: usize = 2;

    fn bits(self) -> u64 {
        u64::from(self)
    }

    fn of_bits(n: u64) -> u16 {
        n as u16
    }
}

impl LittleEndian for u32 {
    ghost SIZE = { 4 };

    ghost pattern = { λ n. n };

    ghost of_pattern = { λ n. n };

    ghost fits = { Prim.search rules };

    const SIZE: usize = 4;

    fn bits(self) -> u64 {
        u64::from(self)
    }

    fn of_bits(n: u64) -> u32 {
        n as u32
    }
}

impl LittleEndian for u64 {
    ghost SIZE = { 8 };

    ghost pattern = { λ n. n };

    ghost of_pattern = { λ n. n };

    ghost fits = { Prim.search rules };

    const SIZE: usize = 8;

    fn bits(self) -> u64 {
        self
    }

    fn of_bits(n: u64) -> u64 {
        n
    }
}

// Two's complement.
impl LittleEndian for i32 {
    ghost SIZE = { 4 };

    ghost pattern = { signed_bits 32 };

    ghost of_pattern = { signed_of 32 };

    ghost fits = { Prim.search rules };

    const SIZE: usize = 4;

    fn bits(self) -> u64 {
        u64::from(self.cast_unsigned())
    }

    fn of_bits(n: u64) -> i32 {
        (n as u32).cast_signed()
    }
}

// A NaN is written as f32::NAN of the Rust.
impl LittleEndian for f32 {
    ghost SIZE = { 4 };

    ghost pattern = { bits_of binary32 };

    ghost of_pattern = { of_bits binary32 };

    ghost fits = { Prim.search rules };

    const SIZE: usize = 4;

    fn bits(self) -> u64 {
        u64::from(f32_to_bits_with_nan(self))
    }

    fn of_bits(n: u64) -> f32 {
        f32_from_bits_with_nan(n as u32)
    }
}

// A NaN is written as f64::NAN of the Rust.
impl LittleEndian for f64 {
    ghost SIZE = { 8 };

    ghost pattern = { bits_of binary64 };

    ghost of_pattern = { of_bits binary64 };

    ghost fits = { Prim.search rules };

    const SIZE: usize = 8;

    fn bits(self) -> u64 {
        f64_to_bits_with_nan(self)
    }

    fn of_bits(n: u64) -> f64 {
        f64_from_bits_with_nan(n)
    }
}

// A number's bytes at a place, the lowest first: Rust's to_le_bytes.
pub fn put<T: LittleEndian>(out: &mut [u8], at: usize, x: T)
    requires { at + T.SIZE ≤ length out.old }
    ensures { out.new ≡ sets out.old at (bytes_of T.SIZE (T.pattern x)) }
{
    let bytes = x.bits().to_le_bytes();
    out[at..at + T::SIZE].copy_from_slice(&bytes[..T::SIZE]);
}

// The number whose k bytes stand at a place. Byte by byte it becomes one load; copied into an array of 8 it is a store, and a wider load that waits for it.
fn number(s: &[u8], at: usize, k: usize) -> u64
    requires { (at + k ≤ length s.now) × (k ≤ 8) }
    ensures { result ≡ number_at k s.now at }
{
    let mut n: u64 = 0;
    for i in (0..k).rev() {
        n = n * 256 + u64::from(s[at + i]);
    }
    n
}

// The number whose bytes stand at a place, the lowest first: Rust's from_le_bytes.
pub fn get<T: LittleEndian>(s: &[u8], at: usize) -> T
    requires { at + T.SIZE ≤ length s.now }
    ensures { result ≡ T.of_pattern (number_at T.SIZE s.now at) }
{
    T::of_bits(number(s, at, T::SIZE))
}
