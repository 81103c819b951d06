//! A walk over the blocks of a chain, oldest first: the committee that they leave, and where the order of each block starts.
//!
//! The rows of a block start with the leader of its round, whose committee is that of lookback rounds before: so the start of each block is told before the blocks from there on are applied (specs/Starts).

ghost use Rattle.std.specs.Prelude.{◌≡◌, ◌+◌, ◌*◌, ◌<◌};
ghost use Rattle.committee.specs.Totals.{TotalBounded};
ghost use Rattle.chain_committees.specs.ChainInTable.{AfterFirst};
ghost use Rattle.chain_committees.specs.Links.{AllLinked};
ghost use Rattle.chain_committees.specs.Starts.{Started, StartsAhead};

use crate::chain::Chain;
use crate::changes::{block, links};
use committee::committees::Committee;
use committee::leader;
use terms::sheet::Weight;
use terms::{Member, Round};

/// How far a walk over the blocks of a chain is.
#[derive(Debug, Clone, Copy)]
pub struct Walk<'a> {
    /// The chain whose blocks they are.
    pub chain: Chain<'a>,
    /// The first place of each block, 16 r + m for the certificate of member m and round r.
    pub head: [u16; 512],
    /// Of each place, the next one of the same block.
    pub next: &'a [u16],
    /// How many blocks are applied to the committee.
    pub applied: u32,
    /// Of how many blocks the starts are written: of those that are applied, and of some after them.
    pub begun: u32,
    /// The number of the leader of each block's round, 16 for none.
    pub starts: [u8; 512],
    /// The committee that the applied blocks leave.
    pub weights: [Weight; 16],
    ghost linked: { AllLinked chain.table.now chain.settings.now.ceiling head next.now },
    ghost after: { AfterFirst chain.settings.now chain.table.now chain.blocks applied weights },
    ghost bounded: { TotalBounded weights },
    ghost started: { Started chain.settings.now chain.table.now chain.blocks applied begun starts },
}

// Writes the starts of the blocks up to lookback rounds after the one that comes after the first `applied`, where those of the first `begun` are written; gives of how many they are written then.
#[tactic(auto, using(committee::proofs::LeaderLaws::leader_le))]
fn fill_starts(
    chain: Chain,
    applied: u32,
    begun: u32,
    weights: &[Weight; 16],
    starts: &mut [u8; 512],
) -> u32
    requires more { applied < chain.blocks }
    requires after { let c = chain in
        AfterFirst c.settings.now c.table.now c.blocks applied weights.now }
    requires started { let c = chain in
        Started c.settings.now c.table.now c.blocks applied begun starts.old }
    ensures { let c = chain.entry in
        StartsAhead c.settings.now c.table.now c.blocks applied result starts.new }
{
    let at = store::block_round(chain.table, applied + 1);
    let last = at.0 as u64 + chain.settings.lookback as u64;
    for i in begun..chain.blocks {
        let round = store::block_round(chain.table, i + 1);
        if last < round.0 as u64 {
            return i;
        }
        starts[i as usize] = leader::leader(weights, round).0 as u8;
    }
    chain.blocks
}

impl<'a> Walk<'a> {
    ghost use Rattle.std.specs.Prelude.{◌≡◌, ◌+◌, ◌-◌, ◌*◌, ◌<◌, ◌≤◌, ℕ, get_or, length};
    ghost use Rattle.committee.specs.Committees.{committee_of, bonded_from};
    ghost use Rattle.chain_committees.specs.BlockChanges.{start_at};
    ghost use Rattle.chain_committees.specs.Told.{blocks_in};
    ghost use Rattle.chain_committees.specs.Walks.{passed};

    /// The start of a walk: no block is applied. `next` has a word for each place of the rounds from 0 up to the ceiling, and is written.
    #[tactic(auto, using(crate::proofs::ChainLaws::last_none))]
    pub fn new(chain: Chain<'a>, next: &'a mut [u16]) -> Walk<'a>
        requires { chain.settings.now.ceiling * 16 + 16 ≤ length next.old }
        ensures chain { result.chain ≡ chain.entry }
        ensures start { passed result ≡ 0 }
    {
        let head = links::linked(chain.table, next, chain.settings.ceiling);
        Walk {
            chain,
            head,
            next,
            applied: 0,
            begun: 0,
            starts: [16; 512],
            weights: chain.settings.weights,
        }
    }

    // Applies the next block and writes the starts up to lookback rounds after it. There has to be such a block.
    #[tactic(auto, using(crate::proofs::StartLaws::next_bounds))]
    fn step(&mut self)
        requires { self.old.applied < self.old.chain.blocks }
        ensures chain { self.new.chain ≡ self.old.chain }
        ensures applied { self.new.applied ≡ self.old.applied + 1 }
    {
        let k = self.applied;
        self.begun = fill_starts(self.chain, k, self.begun, &self.weights, &mut self.starts);
        let start = Member(self.starts[k as usize] as u32);
        block::apply_block(
            self.chain.table,
            &self.head,
            self.next,
            k + 1,
            start,
            self.chain.settings.ceiling,
            &mut self.weights,
        );
        self.applied = k + 1;
    }

    // Applies the blocks whose rounds are below `round`, which is 1 at least. None of a later round may be applied.
    #[tactic(auto, using(crate::proofs::ChainLaws::last_more, crate::proofs::ChainInTableLaws::bonded_reached))]
    fn apply_below(&mut self, round: Round)
        requires from { 1 ≤ round }
        requires passed { passed self.old ≤ round - 1 }
        ensures chain { self.new.chain ≡ self.old.chain }
        ensures passed { passed self.new ≤ round - 1 }
        ensures bonded { let c = self.new.chain in
            self.new.weights ≡ bonded_from c.settings.now (blocks_in c) round }
    {
        while self.applied < self.chain.blocks
            && store::block_round(self.chain.table, self.applied + 1).0 < round.0
        {
            self.step();
        }
    }

    /// Goes on to the committee of `round`: blocks count whose rounds lie more than lookback rounds before it. None of a later round may be applied.
    #[tactic(auto, using(crate::proofs::ChainInTableLaws::committee_reached))]
    pub fn reach(&mut self, round: Round)
        requires { passed self.old ≤ round - self.old.chain.settings.now.lookback - 1 }
        ensures chain { self.new.chain ≡ self.old.chain }
        ensures passed { passed self.new ≤ round - self.new.chain.settings.now.lookback - 1 }
        ensures committee { let c = self.new.chain in
            self.new.weights ≡ committee_of c.settings.now (blocks_in c) round }
        ensures bounded { TotalBounded self.new.weights }
    {
        let lookback = self.chain.settings.lookback;
        if lookback < round.0 {
            self.apply_below(Round(round.0 - lookback));
        }
    }

    /// The committee that the applied blocks leave, with the margin of the settings.
    pub fn committee(&self) -> Committee
        ensures weights { result.weights ≡ self.now.weights }
        ensures margin { result.margin ≡ self.now.chain.settings.now.margin }
    {
        Committee {
            weights: self.weights,
            margin: self.chain.settings.margin,
        }
    }

    /// Goes on until the starts of the first `blocks` blocks are written.
    pub fn begin(&mut self, blocks: u32)
        requires { blocks ≤ self.old.chain.blocks }
        ensures chain { self.new.chain ≡ self.old.chain }
        ensures begun { blocks ≤ self.new.begun }
    {
        while self.begun < blocks {
            self.step();
        }
    }

    /// The number of the leader of the round of the block after the first `before`, 16 for none, where it is written.
    #[tactic(auto, using(crate::proofs::StartLaws::start_le))]
    pub fn start(&self, before: u32) -> Member
        requires { before < self.now.begun }
        ensures start { let c = self.now.chain in
            result.0 ≡ start_at c.settings.now c.table.now before }
        ensures to { result.0 ≤ 16 }
    {
        Member(self.starts[before as usize] as u32)
    }
}

/// What is made of a walk over a chain that is at its start, with words for a ceiling up to 64, or for any.
#[macro_export]
macro_rules! over_blocks {
    ($chain:expr, $walk:ident => $made:expr) => {
        if $crate::changes::links::are_few($chain.settings.ceiling) {
            let mut next = [0; $crate::changes::links::FEW];
            let mut $walk = $crate::walk::Walk::new($chain, &mut next);
            $made
        } else {
            let mut next = [0; $crate::changes::links::MANY];
            let mut $walk = $crate::walk::Walk::new($chain, &mut next);
            $made
        }
    };
}
