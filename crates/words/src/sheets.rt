// A sheet as words: read.

ghost use Rattle.std.specs.Prelude.{◌≡◌, ◌+◌, ◌*◌, ◌<◌, ◌≤◌, length, nat_le};
ghost use Rattle.base.specs.Folds.{all_to, tab};
ghost use Rattle.words.specs.Lengths.{sheet_length};
ghost use Rattle.words.specs.Words.{word};
ghost use Rattle.words.specs.Given.{Given};
ghost use Rattle.words.specs.Sheets.{sheet_reads, setting_in, sheet_in};

use crate::bodies::lengths::SHEET;
use terms::sheet::{Rights, Setting, Sheet};

// Is the first word of each of the twenty settings 0 or 1?
#[tactic(auto, unfolding(base::specs::Folds::all_to))]
fn has_flags(words: &[u32]) -> bool
    requires { sheet_length ≤ length words.now }
    ensures { result ≡ all_to (λ k. nat_le (word words.now (k * 2)) 1) 20 }
{
    (0..20usize).all(|k| words[k * 2] <= 1)
}

// Setting `index` of the words: blank, or written with the value.
#[tactic(auto, unfolding(crate::specs::Sheets::setting_in))]
fn setting_in(words: &[u32], index: usize) -> Setting
    requires { (sheet_length ≤ length words.now) × (index < 20) }
    ensures { result ≡ setting_in words.now index }
{
    if words[index * 2] == 0 {
        Setting::Blank
    } else {
        Setting::Written(words[index * 2 + 1])
    }
}

// The sixteen weights of the words.
fn weights_in(words: &[u32]) -> [Setting; 16]
    requires { sheet_length ≤ length words.now }
    ensures { result ≡ tab (λ i. setting_in words.now (3 + i)) 16 }
{
    std::array::from_fn(|i| setting_in(words, 3 + i))
}

/// A sheet, forty words, with the rights beside it: two words for each setting, 0 for blank or 1 for written, then its value. `None` where there are fewer, or a first word is another.
#[tactic(auto, unfolding(crate::specs::Sheets::sheet_reads, crate::specs::Sheets::sheet_in))]
pub fn sheet(words: &[u32], rights: Rights) -> Option<Sheet>
    ensures { Given (sheet_reads words.now) (sheet_in words.now rights) result }
{
    if words.len() < SHEET || !has_flags(words) {
        return None;
    }
    Some(Sheet {
        lookback: setting_in(words, 0),
        ceiling: setting_in(words, 1),
        allowance: setting_in(words, 2),
        weights: weights_in(words),
        margin: setting_in(words, 19),
        rights,
    })
}
