// Marks of records, a bit each: eight to a byte, the lowest bit first.
ghost use Rattle.std.specs.Prelude.{◌≡◌, cond, ◌*◌, ◌<◌, length};
ghost use Rattle.grip.specs.Marks.{mark_at, with_mark};

// Record number i is marked where `on` says so.
pub fn mark(marks: &mut [u8], i: usize, on: bool)
    requires { i < 8 * length marks.old }
    ensures { marks.new ≡ cond on (with_mark marks.old i) marks.old }
{
    if on {
        marks[i / 8] = marks[i / 8] | (1u8 << (i % 8));
    }
}

pub fn is_marked(marks: &[u8], i: usize) -> bool
    requires { i < 8 * length marks.now }
    ensures { result ≡ mark_at marks.now i }
{
    (marks[i / 8] >> (i % 8)) % 2 == 1
}
