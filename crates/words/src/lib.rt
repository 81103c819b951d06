//! What a host's words mean, read and put.
//!
//! Proposals, certificates, sheets, states and what a read gives, as words: reading gives the value or says that there is none, and what is put reads back (specs/Bodies, specs/Proposals, specs/Sheets, specs/States, specs/Effects). docs/TABLES.md has their layout.
#![tactic(auto)]

pub mod bodies;
pub mod places;
pub mod proposals;
pub mod sheets;
pub mod states;

ghost use Rattle.std.specs.Prelude.{◌≡◌, ◌+◌, ◌≤◌, length};
ghost use Rattle.std.proofs.Math.Seq.{paste};
ghost use Rattle.words.specs.Lengths.{effect_length};
ghost use Rattle.words.specs.Words.{sixteen, weight_words, Narrow};
ghost use Rattle.words.specs.Effects.{effect_words};

use crate::places::{EFFECT_AFTER, EFFECT_BEFORE, EFFECT_LARGEST};
use committee::effects::Effect;
use terms::sheet::Weight;

/// Puts sixteen weights from `at` on, a word each: each must fit 32 bits.
pub fn put_weights(out: &mut [u32], at: usize, weights: [Weight; 16])
    requires { (at + 16 ≤ length out.old) × Narrow weights }
    ensures { out.new ≡ paste out.old at (weight_words weights) 16 }
{
    let words: [u32; 16] = std::array::from_fn(|i| weights[i].0 as u32);
    bodies::stretch::put(out, at, &words);
}

// Puts sixteen shares from `at` on.
#[tactic(auto, using(crate::proofs::PasteLaws::sixteen_all, std::proofs::lemmas::Grind::common_steps))]
fn put_shares(out: &mut [u32], at: usize, shares: [u32; 16])
    requires { at + 16 ≤ length out.old }
    ensures { out.new ≡ paste out.old at (sixteen shares) 16 }
{
    out[at..at + 16].copy_from_slice(&shares);
}

/// Puts a bond's effect, thirty-three words: sixteen shares before, sixteen after, the largest difference.
#[tactic(auto, using(crate::proofs::PutLaws::effect_put))]
pub fn put_effect(out: &mut [u32], effect: Effect)
    requires { effect_length ≤ length out.old }
    ensures { out.new ≡ paste out.old 0 (effect_words effect) effect_length }
{
    put_shares(out, EFFECT_BEFORE, effect.before);
    put_shares(out, EFFECT_AFTER, effect.after);
    bodies::stretch::put(out, EFFECT_LARGEST, &[effect.largest]);
}
