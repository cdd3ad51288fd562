// A number in an argument.
ghost use Rattle.std.specs.Prelude.{◌≡◌, ◌+◌, ◌-◌, ◌*◌, ◌≤◌, min};
ghost use Rattle.charges.specs.Words.{is_digit, is_decimal, most_number, number_from};

const MOST_NUMBER: u64 = 1_000_000_000_000_000_000;

fn is_digit(c: u8) -> bool
    ensures { result ≡ is_digit c }
{
    48 <= c && c <= 57
}

// Whether there is a digit, and nothing else.
pub fn is_decimal(text: &[u8]) -> bool
    ensures { result ≡ is_decimal text.now }
{
    let mut ok = !text.is_empty();
    for c in text {
        ok &= is_digit(*c);
    }
    ok
}

// A digit is put behind a number.
fn then(n: u64, c: u8) -> u64
    requires { n ≤ most_number }
    ensures { (result ≡ min (10 * n + (c - 48)) most_number) × (result ≤ most_number) }
{
    (10 * n + u64::from(c.saturating_sub(48))).min(MOST_NUMBER)
}

// The number that digits make.
pub fn number(text: &[u8]) -> u64
    ensures { (result ≡ number_from 0 text.now) × (result ≤ most_number) }
{
    let mut n: u64 = 0;
    for c in text {
        n = then(n, *c);
    }
    n
}
