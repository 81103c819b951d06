// Words as bytes, four of each, the lowest first: put and read.

ghost use Rattle.std.specs.Prelude.{◌≡◌, ◌+◌, ◌*◌, ◌≤◌, length};
ghost use Rattle.std.proofs.Math.Seq.{paste};
ghost use Rattle.storing.specs.Bytes.{bytes_of, word_in, words_in};

/// Word `index` of bytes.
#[tactic(auto, unfolding(crate::specs::Bytes::word_in))]
pub fn word_at(bytes: &[u8], index: usize) -> u32
    requires { 4 * index + 4 ≤ length bytes.now }
    ensures { result ≡ word_in bytes.now index }
{
    let at = 4 * index;
    u32::from_le_bytes([bytes[at], bytes[at + 1], bytes[at + 2], bytes[at + 3]])
}

/// Puts bytes from `at` on; the others stay.
pub fn put(out: &mut [u8], at: usize, bytes: &[u8])
    requires { at + length bytes.now ≤ length out.old }
    ensures { out.new ≡ paste out.old at bytes.now (length bytes.now) }
{
    out[at..at + bytes.len()].copy_from_slice(bytes);
}

/// Puts words as bytes, from where word `at` stands on; the other bytes stay.
#[tactic(auto, using(crate::proofs::ByteLaws::put_more))]
pub fn put_words(out: &mut [u8], at: usize, words: &[u32])
    requires { 4 * (at + length words.now) ≤ length out.old }
    ensures { out.new ≡ paste out.old (4 * at) (bytes_of words.now) (4 * length words.now) }
{
    for index in 0..words.len() {
        put(out, 4 * (at + index), &words[index].to_le_bytes());
    }
}

/// Reads as many words as there is room for, from word `at` of bytes on.
#[tactic(auto, using(crate::proofs::ByteLaws::words_none, crate::proofs::ByteLaws::read_more))]
pub fn fill(out: &mut [u32], bytes: &[u8], at: usize)
    requires { 4 * (at + length out.old) ≤ length bytes.now }
    ensures { out.new ≡ words_in bytes.now at (length out.old) }
{
    for index in 0..out.len() {
        out[index] = word_at(bytes, at + index);
    }
}

/// Reads `count` words, from word `at` of bytes on, into the first words of `out`; the others stay.
pub fn read_words(out: &mut [u32], count: usize, bytes: &[u8], at: usize)
    requires room { count ≤ length out.old }
    requires bytes { 4 * (at + count) ≤ length bytes.now }
    ensures { out.new ≡ paste out.old 0 (words_in bytes.now at count) count }
{
    fill(&mut out[..count], bytes, at);
}
