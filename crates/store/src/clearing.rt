// What is cleared in the table: the endorsed mark of a place, and the part that a state uses (docs/RULES.md, "A member's state").

ghost use Rattle.std.specs.Prelude.{◌≡◌};
ghost use Rattle.store.specs.Table.{Within, Row};
ghost use Rattle.store.specs.Writes.{clear_endorsed, clear_used};

use crate::places::{ROW_ENDORSED, row_start, used_length};
use terms::{Member, Round};

/// Clears the endorsed mark of a place: it may be endorsed again.
#[tactic(auto, unfolding(crate::specs::Writes::clear_endorsed, crate::specs::Table::endorsed_set))]
pub fn clear_endorsed(table: &mut [u32], author: Member, round: Round)
    requires { Within table.old author.0 round }
    ensures { table.new ≡ clear_endorsed table.old author.0 round }
{
    let word = row_start(round) + ROW_ENDORSED;
    table[word] = base::remove(table[word], author.0);
}

/// Clears what a state of this ceiling uses, the rows 0 to `ceiling`. What lies behind stays.
#[tactic(auto, unfolding(crate::specs::Writes::clear_used))]
pub fn clear_used(table: &mut [u32], ceiling: Round)
    requires { Row table.old ceiling }
    ensures { table.new ≡ clear_used table.old ceiling }
{
    table[..used_length(ceiling)].fill(0);
}
