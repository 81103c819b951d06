//! Words put over a stretch.

ghost use Rattle.std.specs.Prelude.{◌≡◌, ◌+◌, ◌≤◌, length};
ghost use Rattle.std.proofs.Math.Seq.{paste};

/// Puts the words from `at` on, where there is room for them; the others stay.
pub fn put(out: &mut [u32], at: usize, words: &[u32])
    requires { at + length words.now ≤ length out.old }
    ensures { out.new ≡ paste out.old at words.now (length words.now) }
{
    out[at..at + words.len()].copy_from_slice(words);
}
