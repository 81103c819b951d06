//! A step through a stream loses no record and makes none up.

ghost use Rattle.std.specs.Prelude.{Bool, List, drop, take, ℕ, ◌++◌, ◌≡◌};
ghost use Rattle.framing.specs.Framing.{remaining, step_of, telling};

/// Whatever comes after the bytes at hand, what was left before a step is what the step tells, and then what is left after it: so a record, however long, is answered once.
pub fn told_once()
    ensures { (over skipping : Bool) (l more : List ℕ) → remaining over skipping (l ++ more)
        ≡ telling (step_of skipping l).event (take (step_of skipping l).length l)
        (remaining over (step_of skipping l).skipping (drop (step_of skipping l).next l
        ++ more)) }
{}
