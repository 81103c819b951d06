//! The head of a list: how many members there are, and what they open with.

ghost use Rattle.std.specs.Prelude.{◌≡◌, ◌+◌, ◌*◌};
ghost use Rattle.replaying.specs.declared.heads.TheConstants as heads;

/// The first word of a list: "FLC1", its bytes as they stand in a file.
pub const MARK: u32 = 0x3143_4c46;

/// The mark by its letters, the lowest byte first.
pub fn mark()
    ensures { heads.MARK ≡ 70 + 76 * 256 + 67 * 65536 + 49 * 16777216 }
{}

/// What all members open with. Their own numbers are 0, 1 and so on.
#[derive(Drop)]
pub struct Head {
    pub members: u32,
    pub rights: u32,
    pub sheet: [u32; 40],
}
