//! Several members' engines in one program.
//!
//! Whatever list of calls is made on them, if it is a run, their chains never fork and their committees are alike: the contract of `run`. docs/RULES.md, "What is claimed of runs".
#![tactic(auto)]

ghost use Rattle.std.specs.Prelude.{◌≡◌, ◌<◌, ℕ, [], length, All};
ghost use Rattle.engine.specs.Engine as engine;
ghost use Rattle.engine.specs.Engine.{after};
ghost use Rattle.nonforking.specs.Statement.{Members, engine_after, Run, engine_behaviour};
ghost use Rattle.runs.specs.Calls.{told};
ghost use Rattle.runs.specs.Runs.{engine_of, Stand, after_run, newest, NeverFork, SameCommittees};

use state::State;
use terms::sheet::Sheet;
use terms::{Body, Certificate, Member, Proposal, Round, Transaction};

/// What a member is asked. What reads, previews and lists give is not looked at.
#[derive(Clone, Copy)]
pub enum Call {
    Advance,
    Open(Member, Sheet),
    Propose(Body),
    Endorse(Proposal),
    Certify(u16),
    Accept(Certificate),
    Commit,
    Enqueue(u32, Transaction),
    Draw(u16),
    PortRead(u32, u32),
    PortWrite(u32, u32, u8),
    PortReset(u32),
    Committee(Round),
    Share(Member, Round),
    Effect(Member, Round, u32),
    Held(Member, Round),
    Block(u32),
    Preview,
    Critical,
    Blocks(u32, u32),
}

/// One call of one member.
#[derive(Clone, Copy)]
pub struct Entry {
    pub who: usize,
    pub call: Call,
}

/// What a member's host keeps between calls.
#[derive(Drop)]
pub struct Engine {
    pub state: State,
    pub table: Vec<u32>,
}

/// Makes a call.
pub fn make(engine: &mut Engine, call: Call)
    ensures { engine_of engine.new ≡ after (engine_of engine.old) (told call) }
{
    match call {
        Call::Open(own, sheet) => {
            let _ = open::open(&mut engine.state, &mut engine.table, own, sheet);
        }
        Call::Propose(b) => {
            let _ = propose::propose(&mut engine.state, &engine.table, b);
        }
        Call::Endorse(p) => {
            let _ = endorse::endorse(&engine.state, &mut engine.table, p);
        }
        Call::Certify(d) => {
            let _ = certify::certify(&engine.state, &mut engine.table, d);
        }
        Call::Accept(c) => {
            let _ = accept::accept(&engine.state, &mut engine.table, c);
        }
        Call::Advance => {
            let _ = advance::advance(&mut engine.state, &engine.table);
        }
        Call::Commit => {
            let _ = commit::commit(&mut engine.state, &mut engine.table);
        }
        Call::Enqueue(g, x) => {
            let _ = enqueue::enqueue(&engine.state, &mut engine.table, g, x);
        }
        Call::Draw(v) => {
            let _ = draw::draw(&mut engine.state, &mut engine.table, v);
        }
        Call::PortRead(g, o) => {
            let _ = serial::read(&engine.state, &mut engine.table, g, o);
        }
        Call::PortWrite(g, o, b) => {
            let _ = serial::write(&engine.state, &mut engine.table, g, o, b);
        }
        Call::PortReset(g) => {
            let _ = serial::reset(&engine.state, &mut engine.table, g);
        }
        Call::Committee(r) => {
            let _ = reads::standing::committee(&engine.state, &engine.table, r);
        }
        Call::Share(m, r) => {
            let _ = reads::standing::share(&engine.state, &engine.table, m, r);
        }
        Call::Effect(m, r, a) => {
            let _ = reads::bonding::effect(&engine.state, &engine.table, m, r, a);
        }
        Call::Held(m, r) => {
            let _ = reads::certificate(&engine.state, &engine.table, m, r);
        }
        Call::Block(k) => {
            let _ = reads::block(&engine.state, &engine.table, k);
        }
        Call::Preview => {
            let _ = preview::preview(&engine.state, &engine.table, &mut [0; 192]);
        }
        Call::Critical => {
            let _ = critical::critical(&engine.state, &mut engine.table, &mut [0; 64]);
        }
        Call::Blocks(m, n) => {
            let _ = spans::blocks(&engine.state, &engine.table, m, n, &mut [0; 576]);
        }
    }
}

/// Makes the calls of a list, one after another, each on its member's engine.
/// Where the engines stand as their members opened them, and the list is a run: of two correct members' chains one is a prefix of the other, and in the committee of every round that both know every member has the same weight.
pub fn run(engines: &mut [Engine], entries: &[Entry])
    requires { All (λ e. e.who < length engines.old) entries.now }
    ensures run { (at : ℕ → engine.Engine) → Stand engines.old at
        → Stand engines.new (after_run at entries.now) }
    ensures chains { (X : Members engine_behaviour) → Stand engines.old (engine_after X [])
        → Run X (newest entries.now []) → NeverFork X engines.new }
    ensures committees { (X : Members engine_behaviour) → Stand engines.old (engine_after X [])
        → Run X (newest entries.now []) → SameCommittees X engines.new }
{
    for entry in entries {
        make(&mut engines[entry.who], entry.call);
    }
}
