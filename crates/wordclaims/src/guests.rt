//! What guests may rely on, over the words that hosts keep: draws are fair, rights stay, who lacks a right sees nothing, and what a port has given is a listing's prefix.

ghost use Rattle.std.specs.Prelude.{List, ℕ, ◌<◌, ◌≡◌, ◌≢◌};
ghost use Rattle.serial.specs.Calls.{PortCall, port_of};
ghost use Rattle.fairness.specs.Fairness.{FairIn};
ghost use Rattle.receiving.specs.Received.{Served, port_on};
ghost use Rattle.hosting.specs.Guested.{rights_in};
ghost use Rattle.hosting.specs.GuestForms.{GuestForm};
ghost use Rattle.hosting.specs.HostCalls.{HostCall, port};
ghost use Rattle.batching.specs.declared.rows.CertificateRecord.{CertificateRecord};
ghost use Rattle.library.specs.Calls.{GuestTyped, HostTyped, LibraryCall, batch_by_guest, batch_by_host, by_guest, by_host};
ghost use Rattle.library.specs.Lists.{AllTyped, Opening, Words, after_call, after_list, after_opening, engine_of};
ghost use Rattle.wordclaims.specs.Claims.{NoOpen, NoOpens, left_after};
ghost use Rattle.wordclaims.specs.Guests.{AllBarred, SeesNothing, bytes_answered, moments_left};

/// Draws are fair over every list of calls of hosts and guests, batches among them: between two transactions drawn from one guest every other guest that was waiting all that time has one drawn.
pub fn draws_are_fair()
    ensures { (x : Opening) (l : List LibraryCall) → AllTyped l
        → FairIn (moments_left (after_opening x) l) }
{}

/// The word of rights is what the accepted open was handed, and stays as long as no open is accepted.
#[tactic(auto, using(crate::proofs::RightsLaws::rights_opened_over_words, crate::proofs::RightsLaws::rights_kept_over_words))]
pub fn rights_stay()
    ensures opened { (x : Opening) → rights_in (after_opening x).state ≡ record { 0 = x.rights } }
    ensures kept { (x : Opening) (l m : List LibraryCall) → AllTyped l → AllTyped m
        → NoOpens (left_after x l) m → rights_in (after_list (left_after x l) m).state
        ≡ rights_in (left_after x l).state }
{}

/// Noninterference: on any two words with the same rights, whatever else they are, a caller that lacks the rights that its calls need, its batches among them, is answered each with the same number and no value, and changes no word.
pub fn noninterference()
    ensures { (x y : Words) → rights_in x.state ≡ rights_in y.state → (c : ℕ) (l : List LibraryCall)
        → AllBarred x c l → SeesNothing x y l }
{}

/// What the library has answered from a guest's port since its last reset is a prefix of the listing that the words tell, however commits and accesses alternate and whoever signed.
pub fn reads_a_prefix()
    ensures { (x : Opening) (l : List LibraryCall) → AllTyped l → (g : ℕ) → g < 8
        → Served (engine_of (left_after x l)) g (bytes_answered (after_opening x) g l) }
{}

/// What a caller asks, by any form or by a batch, leaves every other guest's port.
pub fn leaves_other_ports()
    ensures form { (x : Opening) (l : List LibraryCall) → AllTyped l → (c : ℕ) (f : GuestForm)
        → GuestTyped f → (h : ℕ) → h < 8 → h ≢ c
        → port_on
        (engine_of
        (after_call (left_after x l)
        (by_guest c f))) h ≡ port_on (engine_of (left_after x l)) h }
    ensures batch { (x : Opening) (l : List LibraryCall) → AllTyped l
        → (c : ℕ) (row : List CertificateRecord) (answers : List ℕ) → (h : ℕ) → h < 8
        → port_on (engine_of (after_call (left_after x l) (batch_by_guest c row answers))) h
        ≡ port_on (engine_of (left_after x l)) h }
{}

/// No call of the host's but an accepted open and what is asked of that port changes a port, and no batch does.
pub fn leaves_ports()
    ensures call { (x : Opening) (l : List LibraryCall) → AllTyped l → (c : HostCall) → HostTyped c
        → NoOpen (left_after x l) (by_host c) → (h : ℕ) → h < 8
        → ((a : PortCall) → c ≡ port a → port_of a ≢ h)
        → port_on
        (engine_of
        (after_call (left_after x l)
        (by_host c))) h ≡ port_on (engine_of (left_after x l)) h }
    ensures batch { (x : Opening) (l : List LibraryCall) → AllTyped l
        → (row : List CertificateRecord) (answers : List ℕ) → (h : ℕ) → h < 8
        → port_on (engine_of (after_call (left_after x l) (batch_by_host row answers))) h
        ≡ port_on (engine_of (left_after x l)) h }
{}
