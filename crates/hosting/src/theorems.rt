//! What holds over words: of refused calls and of accepted ones, of what is passed on, of bonds' effects, of serial ports, of opening, and of guests' rights.

ghost use Rattle.std.specs.Prelude.{Bool, List, [], false, true, ℕ, ◌<◌, ◌≡◌, ◌≢◌, ◌≤◌};
ghost use Rattle.committee.specs.BondEffects.{most_moved};
ghost use Rattle.engine.specs.Calls.{Call, aside, certificate, opens, port, share};
ghost use Rattle.hosting.specs.Bounds.{effect_result, moved_in};
ghost use Rattle.hosting.specs.Calls.{Result, refused, result_of};
ghost use Rattle.hosting.specs.Guested.{NoOpening, RefusedAlike, as_guest, rights_in};
ghost use Rattle.hosting.specs.Handed.{Handed};
ghost use Rattle.hosting.specs.Held.{PassesOn};
ghost use Rattle.reads.specs.Bounds.{total_at};
ghost use Rattle.serial.specs.Calls.{Access, access, offset_of, reset};
ghost use Rattle.state.specs.WellFormed.{well_formed};
ghost use Rattle.terms.specs.Rights.{may};
ghost use Rattle.terms.specs.Sheets.{filled};
ghost use Rattle.terms.specs.declared.Member.{Member};
ghost use Rattle.terms.specs.declared.Round.{Round};
ghost use Rattle.terms.specs.declared.rights.Right.{Right};
ghost use Rattle.terms.specs.declared.sheet.Rights.{Rights};
ghost use Rattle.words.specs.Sheets.{sheet_in, sheet_reads};
ghost use Rattle.words.specs.States.{state_in};
ghost use Rattle.words.specs.Words.{word};
ghost use Rattle.words.specs.declared.places.TheConstants.{EFFECT_LARGEST};

/// A refused call gives no value and changes no word of state, table and out.
pub fn refused_same()
    ensures { (w t o : List ℕ) (b : Bool) (c : Call) → (result_of w t o b c).refusal ≢ 0
        → result_of w t o b c ≡ refused w t o (result_of w t o b c).refusal }
{}

/// The words that an accepted call leaves are a well-formed state, with its table: the next call does not answer 1.
pub fn accepted_formed()
    ensures { (w t o : List ℕ) (b : Bool) (c : Call) → Handed b c → (result_of w t o b c).refusal
        ≡ 0 → well_formed (state_in (result_of w t o b c).state) (result_of w t o b c).table
        ≡ true }
{}

/// What an accepted read of a certificate writes can be handed to accept, and is the held certificate with the endorsers that it keeps.
pub fn passes_on()
    ensures { (w t o : List ℕ) (m : Member) (r : Round)
        → (result_of w t o true (aside (certificate m r))).refusal ≡ 0
        → PassesOn t m.0 r (result_of w t o true (aside (certificate m r))).out }
{}

/// The largest difference that an accepted read of a bond's effect writes is within the bound.
#[tactic(auto, using(crate::proofs::BoundLaws::bounded_over_words))]
pub fn bounded_over_words()
    ensures { (w t o : List ℕ) (m : Member) (r : Round) (a : ℕ)
        → (effect_result w t o m r a).refusal ≡ 0
        → word (effect_result w t o m r a).out EFFECT_LARGEST ≤ most_moved (total_at (state_in w) t
        r) a }
{}

/// No share in the words moves further than the largest difference says, and one moves as far.
#[tactic(auto, using(crate::proofs::BoundLaws::none_moves_further_over_words, crate::proofs::BoundLaws::one_moves_as_far_over_words))]
pub fn largest_over_words()
    ensures bound { (w t o : List ℕ) (m : Member) (r : Round) (a : ℕ)
        → (effect_result w t o m r a).refusal ≡ 0 → (i : ℕ) → i < 16
        → moved_in (effect_result w t o m r a).out i
        ≤ word (effect_result w t o m r a).out EFFECT_LARGEST }
    ensures reached { (w t o : List ℕ) (m : Member) (r : Round) (a : ℕ)
        → (effect_result w t o m r a).refusal ≡ 0
        → (i : ℕ) × (i < 16)
        × (moved_in (effect_result w t o m r a).out i
        ≡ word (effect_result w t o m r a).out EFFECT_LARGEST) }
{}

/// Where the share of member i can be read too, it is word i.
#[tactic(auto, using(crate::proofs::BoundLaws::shares_over_words))]
pub fn shares_over_words()
    ensures { (w t o : List ℕ) (m i : Member) (r : Round) (a : ℕ)
        → (effect_result w t o m r a).refusal ≡ 0
        → (result_of w t [] true (aside (share i r))).refusal ≡ 0
        → word (effect_result w t o m r a).out i.0
        ≡ (result_of w t [] true (aside (share i r))).value }
{}

/// Whatever words are lent, read or not: an access or a reset of a port above 7 is refused with 26, and an access at an offset above 7 with 31.
#[tactic(auto, using(crate::proofs::PortLaws::access_above, crate::proofs::PortLaws::offset_above, crate::proofs::PortLaws::reset_above))]
pub fn refused_first()
    ensures above { (w t o : List ℕ) (b : Bool) (g : ℕ) (a : Access) → 7 < g
        → (result_of w t o b (port (access g a))).refusal ≡ 26 }
    ensures offset { (w t o : List ℕ) (b : Bool) (g : ℕ) (a : Access) → g ≤ 7 → 7 < offset_of a
        → (result_of w t o b (port (access g a))).refusal ≡ 31 }
    ensures resetting { (w t o : List ℕ) (b : Bool) (g : ℕ) → 7 < g
        → (result_of w t o b (port (reset g))).refusal ≡ 26 }
{}

/// Two sheets of words that can be read and have equal filled settings open alike, with equal rights: the same answer, state, table and out stretch.
#[tactic(auto, using(crate::proofs::OpenLaws::equal_settings_open))]
pub fn equal_settings_open()
    ensures { (w t o : List ℕ) (own : Member) (u v : List ℕ) (R : Rights) → sheet_reads u ≡ true
        → sheet_reads v ≡ true → filled (sheet_in u R) ≡ filled (sheet_in v R)
        → result_of w t o (sheet_reads u) (opens own (sheet_in u R))
        ≡ result_of w t o (sheet_reads v) (opens own (sheet_in v R)) }
{}

/// A caller with the right gets what the host's own call comes to.
#[tactic(auto, using(crate::proofs::GuestedLaws::allowed_over_words))]
pub fn allowed_over_words()
    ensures { (w t o : List ℕ) (c : ℕ) (r : Right) → may (rights_in w) r c ≡ true → (x : Result)
        → as_guest w t o c r x ≡ x }
{}

/// Noninterference: of two states with the same rights a caller that lacks one learns nothing and changes nothing, whatever their other words, tables and lent lists are, and whatever is handed in.
#[tactic(auto, using(crate::proofs::GuestedLaws::noninterference_over_words))]
pub fn noninterference_over_words()
    ensures { (w t o v u p : List ℕ) → rights_in w ≡ rights_in v → (c : ℕ) (r : Right)
        → may (rights_in w) r c ≡ false → (x y : Result) → RefusedAlike w t o v u p c r x y }
{}

/// No call but open changes the word of rights, accepted or refused, on a state that is well formed or not.
#[tactic(auto, using(crate::proofs::GuestedLaws::rights_word_stays))]
pub fn rights_word_stays()
    ensures { (w t o : List ℕ) (b : Bool) (k : Call) → Handed b k → NoOpening k
        → rights_in (result_of w t o b k).state ≡ rights_in w }
{}
