//! The library over words: its calls, and their engines.
//!
//! Theorems, no code. Lists of the library's calls, from an accepted open on, give the engines that their requests lead to, and chains never fork over the words that hosts keep.
#![tactic(auto)]

ghost use Rattle.std.specs.Prelude.{List};
ghost use Rattle.engine.specs.Reached.{Reached};
ghost use Rattle.nonforking.specs.Statement.{Run};
ghost use Rattle.submissions.specs.Requests.{after_requests};
ghost use Rattle.library.specs.Calls.{LibraryCall, request_in};
ghost use Rattle.library.specs.Lists as lists;
ghost use Rattle.library.specs.Lists.{Opening, Answered, Gives, engine_of, after_list, after_opening, engine_opened, requests_in};
ghost use Rattle.library.specs.Hosts.{Hosts, Entry, AllTyped, members, calls_in, Agreed};

/// The words that a list of the library's calls leaves, from words opened by an accepted open, can be read, and give the engine that the requests lead to which the words are read as.
pub fn words_give_engines()
    ensures { (x : Opening) (l : List LibraryCall)
        → lists.AllTyped l → Gives (after_list (after_opening x) l) (after_requests
        (engine_opened x) (requests_in l)) }
{}

/// So it is an engine that calls from an opening lead to: what is claimed of every such engine is so of all words that the library leaves.
#[tactic(auto, using(crate::proofs::ReachLaws::words_reach))]
pub fn words_reach()
    ensures { (x : Opening) (l : List LibraryCall)
        → lists.AllTyped l → Reached (engine_of (after_list (after_opening x) l)) }
{}

/// And each later call is answered as that engine answers: with its number, its value and every word that is lent for it, the answers of a batch among them. A call whose words cannot be read is refused, and changes no word.
pub fn answers_as_engines()
    ensures { (x : Opening) (l : List LibraryCall) → lists.AllTyped l → (c : LibraryCall)
        → Answered (after_list (after_opening x) l) c (request_in c) }
{}

/// Whatever lists of calls hosts and guests make, batches among them, with whatever words: if the calls that they count as are a run, of the chains that two correct members' words tell one is a prefix of the other, and committees that both know are alike.
#[tactic(auto, using(crate::proofs::HostLaws::chains_never_fork_over_words))]
pub fn chains_never_fork_over_words()
    ensures { (X : Hosts) (l : List Entry) → AllTyped l
        → Run (members X) (calls_in X l) → Agreed X l }
{}
