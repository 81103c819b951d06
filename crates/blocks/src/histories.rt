//! Histories, and the anchors that a commit takes, on the lent table (docs/RULES.md, "Commit").

pub mod anchors;

ghost use Rattle.std.specs.Prelude.{◌≡◌, ◌<◌};
ghost use Rattle.store.specs.Table.{Within, Row};
ghost use Rattle.blocks.specs.History.{named_by, named, below};

use terms::{Member, Round};

// The set `named`, and whom the certificate of `author` and `round` names, where `author` is in `authors`.
#[tactic(auto, unfolding(crate::specs::History::named_by))]
fn named_by(table: &[u32], authors: u32, author: Member, round: Round, named: u32) -> u32
    requires { Within table.now author.0 round }
    ensures { result ≡ named_by table.now authors round author.0 named }
{
    if base::contains(authors, author.0) {
        base::union(named, store::record::previous(table, author, round))
    } else {
        named
    }
}

// Whom the certificates of `authors` in `round` name.
#[tactic(auto, using(base::proofs::FoldLaws::fold_more, base::proofs::Ranges::fold_none), unfolding(crate::specs::History::named))]
fn named_in(table: &[u32], authors: u32, round: Round) -> u32
    requires { Row table.now round }
    ensures { result ≡ named table.now authors round }
{
    let mut found = 0;
    for a in 0..16 {
        found = named_by(table, authors, Member(a), round, found);
    }
    found
}

/// What `authors` of `round`, from 1 on, reach one round below: those whom their certificates name, and whose own are held there.
#[tactic(auto, using(crate::proofs::HistoryLaws::below_none), unfolding(crate::specs::History::below))]
pub fn step_down(table: &[u32], authors: u32, round: Round) -> u32
    requires { (0 < round) × Row table.now round }
    ensures { result ≡ below table.now authors round }
{
    if authors == 0 {
        return 0;
    }
    base::intersection(
        named_in(table, authors, round),
        store::held_set(table, Round(round.0 - 1)),
    )
}
