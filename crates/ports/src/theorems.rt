//! What the registers of a serial port do, and that a port's lines are those of the listing.

ghost use Rattle.std.specs.Prelude.{List, true, ℕ, ◌≡◌};
ghost use Rattle.agreement.specs.Rules.{Chain};
ghost use Rattle.committee.specs.Edges.{agree};
ghost use Rattle.listing.specs.Listing.{chain_lines};
ghost use Rattle.ports.specs.Cursors.{text};
ghost use Rattle.ports.specs.Edges.{cases};
ghost use Rattle.ports.specs.Places.{lines_of};
ghost use Rattle.ports.specs.Registers.{Ignored, Shown, Written};
ghost use Rattle.ports.specs.Uart.{Port, after_read, after_write, registers_of};
ghost use Rattle.terms.specs.Proposals.{Content};
ghost use Rattle.terms.specs.declared.sheet.Settings.{Settings};

/// Each offset shows its register, a write sets one of them or none, no write takes a byte, and no read changes a register.
#[tactic(auto, unfolding(crate::specs::Uart::values_at, crate::specs::Uart::after_read, crate::specs::Uart::after_write))]
pub fn registers_hold()
    ensures shown { (l : List ℕ) (p : Port) → Shown l p }
    ensures written { (p : Port) (b : ℕ) → Written p b }
    ensures ignored { (p : Port) (b : ℕ) → Ignored p b }
    ensures by_writes { (p : Port) (o b : ℕ) → (after_write p o b).read ≡ p.read }
    ensures by_reads { (l : List ℕ) (p : Port) (o : ℕ)
        → registers_of (after_read l p o) ≡ registers_of p }
{}

/// The lines of a chain, each with the place of its certificate, have the bytes of the listing and no closing ok.
#[tactic(auto, using(crate::proofs::PlaceLaws::text_lines))]
pub fn lines_are_the_listing()
    ensures { (S : Settings) (c : Chain Content) → text (lines_of S c) ≡ chain_lines S c }
{}

/// The registers by numbers, as one table: what a port shows, what a read takes, what a write leaves, and a reset; both numbers of each row are equal.
#[tactic(auto, using(crate::proofs::EdgeCases::edges))]
pub fn edges()
    ensures { agree cases ≡ true }
{}
