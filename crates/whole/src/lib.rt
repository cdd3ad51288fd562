// One of two values by a test.
#![tactic(auto)]

ghost use Rattle.std.specs.Prelude.{◌≡◌, cond};

// a where t holds, else b: a choice without a branch, whose callers are proved by computing.
pub fn pick<T: Copy>(t: bool, a: T, b: T) -> T
    ensures { result ≡ cond t a b }
{
    if t { a } else { b }
}
