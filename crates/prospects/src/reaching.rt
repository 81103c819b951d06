//! What a history has that is in no block yet, by round; nothing is written to the table (docs/RULES.md, "Preview").

ghost use Rattle.std.specs.Prelude.{◌≡◌, if◌then◌else◌, not, ◌&&◌, ◌==◌};
ghost use Rattle.base.specs.Sets.{contains, insert};
ghost use Rattle.store.specs.Table.{Within, Row, mark_at};
ghost use Rattle.prospects.specs.Reaching.{NewOf, WalkReady, WentDown};

use blocks::histories;
use terms::{Member, Round};

/// What walks down histories reach, a set of authors for each round.
#[derive(Debug, Drop)]
pub(crate) struct Reached {
    /// What all walks so far have reached in the rounds that they went through. What lies below where one ended was reached by earlier walks, or is in blocks.
    pub seen: [u32; 1025],
    /// What the last walk found new, in the rounds that it went through.
    pub fresh: [u32; 1025],
}

// The set `found`, and `author`, where it is in `here` and not in `old` and its certificate of `round` is in no block.
fn with_new(table: &[u32], here: u32, old: u32, author: Member, round: Round, found: u32) -> u32
    requires { Within table.now author.0 round }
    ensures { result
        ≡ (if contains here author.0
        && (not (contains old author.0) && mark_at table.now author.0 round == 0)
        then insert found author.0 else found) }
{
    if base::contains(here, author.0)
        && !base::contains(old, author.0)
        && store::record::mark(table, author, round) == 0
    {
        base::insert(found, author.0)
    } else {
        found
    }
}

// Those of the set `here` that are not in `old` and whose certificates of `round` are in no block.
fn new_of(table: &[u32], here: u32, old: u32, round: Round) -> u32
    requires { Row table.now round }
    ensures { NewOf table.now here old round result }
{
    (0..16).fold(0, |u, a| with_new(table, here, old, Member(a), round, u))
}

/// Walks down the history of the set `authors` of round top, and gives the round where it ended, 0 for the bottom.
///
/// A walk ends where it reaches nothing that earlier ones did not; and, where `WHOLE`, where it finds nothing new: the histories of what is in blocks are in blocks then.
pub(crate) fn go_down<const WHOLE: bool>(
    table: &[u32],
    reached: &mut Reached,
    authors: u32,
    top: Round,
) -> Round
    requires { WalkReady WHOLE table.now reached.old.seen reached.old.fresh authors top }
    ensures { WentDown WHOLE table.now reached.old.seen authors top result reached.new.seen
        reached.new.fresh }
{
    let mut r = top.0;
    let mut here = authors;
    while 0 < r {
        let old = reached.seen[r as usize];
        if !WHOLE && base::is_subset(here, old) {
            return Round(r);
        }
        let new = new_of(table, here, old, Round(r));
        if WHOLE && new == 0 {
            return Round(r);
        }
        let next = histories::step_down(table, here, Round(r));
        reached.fresh[r as usize] = new;
        reached.seen[r as usize] = base::union(old, here);
        here = next;
        r -= 1;
    }
    Round(0)
}
