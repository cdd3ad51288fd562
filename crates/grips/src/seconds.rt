// A number of seconds in text: digits with at most one point among them, and a minus in front of a negative one.
ghost use Rattle.std.specs.Prelude.{◌≤◌};

// Ten times this is 10^15: numbers up to that are floats exactly, and so is what they are divided by.
const ROOM: usize = 100_000_000_000_000;

// Whole numbers of at most 10^15: digits and what they are divided by, rounded once.
fn quotient(digits: usize, scale: usize) -> f64
    requires { (digits ≤ 1000000000000000) × (scale ≤ 1000000000000000) }
{
    floats::count_as_f64(digits) / floats::count_as_f64(scale)
}

// Ten times more behind the point.
fn scaled(scale: usize, point: bool) -> usize
    requires { scale ≤ 100000000000000 }
    ensures { result ≤ 1000000000000000 }
{
    if point {
        return scale * 10;
    }
    scale
}

// The number of a text without a minus.
fn number(text: &[u8]) -> Option<f64> {
    let mut digits: usize = 0;
    let mut scale: usize = 1;
    let mut some = false;
    let mut point = false;
    for c in text {
        if *c == b'.' {
            if point {
                return None;
            }
            point = true;
        } else {
            if !c.is_ascii_digit() || digits >= ROOM || scale > ROOM {
                return None;
            }
            digits = digits * 10 + usize::from(*c - b'0');
            scale = scaled(scale, point);
            some = true;
        }
    }
    if !some {
        return None;
    }
    Some(quotient(digits, scale))
}

// The number that a text is.
pub fn parse(text: &[u8]) -> Option<f64> {
    match text.strip_prefix(b"-") {
        Some(rest) => Some(-number(rest)?),
        None => number(text),
    }
}
