// A line as it is built.
ghost use Rattle.std.specs.Prelude.{◌≡◌, ℕ, ◌+◌, ◌≤◌, ◌<◌, ◌^◌, List, [], ◌∷◌, ◌++◌, length, take};
ghost use Rattle.listening_lines.specs.Text.{Added, decimal, hex, widest};

use std::marker::Model;

// The room of a line: no line is longer.
pub const WIDEST: usize = 128;

// Its bytes so far, at the front of its room.
#[derive(Drop)]
pub struct Line {
    bytes: [u8; WIDEST],
    len: usize,
}

// A contract sees the text.
impl Model for Line {
    ghost Value = { List ℕ };

    ghost view = { λ l. take l.len l.bytes };

    ghost invariant = { λ l. l.len ≤ widest };
}

impl Line {
    pub fn new() -> Self
        ensures { result ≡ [] }
    {
        Line {
            bytes: [0; WIDEST],
            len: 0,
        }
    }

    // A line's letter and the space behind it.
    pub fn head(letter: u8) -> Self
        ensures { result ≡ letter ∷ 32 ∷ [] }
    {
        let mut line = Line::new();
        line.put_byte(letter);
        line.put_byte(b' ');
        line
    }

    pub fn put_byte(&mut self, b: u8)
        requires { length self.old < widest }
        ensures { self.new ≡ self.old ++ (b ∷ []) }
    {
        self.bytes[self.len] = b;
        self.len += 1;
    }

    fn put(&mut self, text: &[u8])
        requires { length self.old + length text.now ≤ widest }
        ensures { self.new ≡ self.old ++ text.now }
    {
        let end = self.len + text.len();
        self.bytes[self.len..end].copy_from_slice(text);
        self.len = end;
    }

    // The number in decimal digits.
    pub fn put_number(&mut self, n: u64)
        requires { length self.old + 20 ≤ widest }
        ensures text { self.new ≡ self.old ++ decimal n }
        ensures upper_bound { length self.new ≤ length self.old + 20 }
    {
        let mut digits = [0u8; 20];
        let k = io::decimal(n, &mut digits);
        self.put(&digits[..k]);
    }

    // The number in that many hexadecimal digits.
    pub fn put_hex(&mut self, n: u64, width: usize)
        requires { (length self.old + 16 ≤ widest) × (n < 16 ^ width) × (1 ≤ width) × (width ≤ 16) }
        ensures text { self.new ≡ self.old ++ hex width n }
        ensures count { length self.new ≡ length self.old + width }
    {
        let mut digits = [0u8; 16];
        let k = io::hex(n, width, &mut digits);
        self.put(&digits[..k]);
    }

    // A number in decimal digits, and the byte behind it.
    pub fn put_field(&mut self, n: u64, end: u8)
        requires { length self.old + 21 ≤ widest }
        ensures text { self.new ≡ self.old ++ (decimal n ++ (end ∷ [])) }
        ensures upper_bound { length self.new ≤ length self.old + 21 }
    {
        self.put_number(n);
        self.put_byte(end);
    }

    // The line at a place of a lent buffer; answers the place behind it.
    pub fn add_to(&self, out: &mut [u8], at: usize) -> usize
        requires { at + widest ≤ length out.old }
        ensures added { Added out.old at self.now result out.new }
        ensures upper_bound { result ≤ at + widest }
    {
        let end = at + self.len;
        out[at..end].copy_from_slice(&self.bytes[..self.len]);
        end
    }
}
