// Proposals and certificates as words: read, and put.

ghost use Rattle.std.specs.Prelude.{◌≡◌, ◌≤◌, length};
ghost use Rattle.std.proofs.Math.Seq.{paste};
ghost use Rattle.words.specs.Lengths.{held_length};
ghost use Rattle.words.specs.Proposals.{proposal_reads, proposal_in, certificate_reads, certificate_in, held_words};
ghost use Rattle.words.specs.Given.{Given};

use crate::bodies;
use crate::bodies::lengths::{CERTIFICATE, PROPOSAL};
use crate::places::{PROPOSAL_AUTHOR, PROPOSAL_BODY, PROPOSAL_ROUND};
use terms::{Certificate, Member, Proposal, Round};

/// A proposal, sixteen words: author, round, body. `None` where there are fewer, or the body means none; author and round are any numbers.
#[tactic(auto, unfolding(crate::specs::Proposals::proposal_reads, crate::specs::Proposals::proposal_in))]
pub fn proposal(words: &[u32]) -> Option<Proposal>
    ensures { Given (proposal_reads words.now) (proposal_in words.now) result }
{
    if words.len() < PROPOSAL {
        return None;
    }
    let body = bodies::body_at(words, PROPOSAL_BODY)?;
    Some(Proposal {
        author: Member(words[PROPOSAL_AUTHOR]),
        round: Round(words[PROPOSAL_ROUND]),
        body,
    })
}

/// A certificate, seventeen words: a proposal and its endorsers. `None` where there are fewer, the endorsers are beyond sixteen bits, or the proposal means none.
#[tactic(auto, unfolding(crate::specs::Proposals::certificate_reads, crate::specs::Proposals::certificate_in))]
pub fn certificate(words: &[u32]) -> Option<Certificate>
    ensures { Given (certificate_reads words.now) (certificate_in words.now) result }
{
    if words.len() < CERTIFICATE || 65536 <= words[PROPOSAL] {
        return None;
    }
    let proposal = proposal(words)?;
    Some(Certificate {
        proposal,
        endorsers: words[PROPOSAL] as u16,
    })
}

/// Puts a held certificate, eighteen words: those of the certificate, then the number of its block.
#[tactic(auto, using(crate::proofs::PutLaws::held_put))]
pub fn put_held(out: &mut [u32], proposal: Proposal, endorsers: u16, block: u32)
    requires { held_length ≤ length out.old }
    ensures { out.new ≡ paste out.old 0 (held_words proposal endorsers block) held_length }
{
    bodies::stretch::put(out, PROPOSAL_AUTHOR, &[proposal.author.0, proposal.round.0]);
    bodies::put_body(out, PROPOSAL_BODY, proposal.body);
    bodies::stretch::put(out, PROPOSAL, &[endorsers as u32, block]);
}
