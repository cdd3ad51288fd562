// What goes to standard output.
ghost use Rattle.std.specs.Prelude.{◌≡◌, length, IsOk};
ghost use Rattle.listening.specs.Hand.{Part};

use std::io;

// Hands a next part of a text that the definition gives to `write`, all of it. Where it is empty nothing is written, and nothing can fail.
pub fn hand_over(rt: &impl Print, text: &[u8]) -> io::Result<()>
    requires part { Part text.now }
    ensures { length text.now ≡ 0 → IsOk result }
{
    if text.is_empty() {
        return Ok(());
    }
    rt.write_all(text)
}
