//! Members, rounds, transactions, proposals, the sheet.
//!
//! What is handed in, and when it is in range: transactions (specs/Transactions), proposals and certificates, and when two are the same (specs/Proposals), the settings with their defaults and ranges (specs/Sheets, specs/Ranges), and the rights of callers (specs/Rights). docs/RULES.md, "Terms" and "The sheet".
//! Each test answers what its definition says of every value, in range or not.
#![tactic(auto)]

pub mod letters;
pub mod rights;
pub mod sheet;
pub mod theorems;

ghost use Rattle.std.specs.Prelude.{◌≡◌, ◌<◌, ◌≤◌};
ghost use Rattle.base.specs.Folds.{all_to};
ghost use Rattle.terms.specs.Transactions.{kind_of, number_of, amount_of, read_transaction, amount_in_range, bond_in_range, in_range};
ghost use Rattle.terms.specs.Bodies.{push};
ghost use Rattle.terms.specs.Proposals.{bare_body, slot_of, transactions_of, bad_transactions, bad_previous_set};

use std::marker::Model;

/// A member by its number: 0 to 15 where it is in range.
#[derive(Debug, Clone, Copy, PartialEq, Eq)]
pub struct Member(pub u32);

/// A round by its number: 1 to 1,024 where it is in range.
#[derive(Debug, Clone, Copy, PartialEq, Eq)]
pub struct Round(pub u32);

impl Model for Round {
    ghost use Rattle.std.specs.Prelude.{ℕ};

    ghost Value = { ℕ };

    ghost view = { λ r. r.0 };

    ghost inverse = { λ n. record { 0 = n } };
}

/// What a proposal may ask for. Two are equal where kind, member and amount or number are.
#[derive(Debug, Clone, Copy, PartialEq, Eq)]
pub enum Transaction {
    /// A member bonds an amount, 1 to 1,000 where it is in range.
    Bond(Member, u32),
    /// A member unbonds.
    Unbond(Member),
    /// An entry, which is any number.
    Entry(u32),
}

/// What a proposal has beside author and round.
#[derive(Debug, Clone, Copy)]
pub struct Body {
    /// The previous set: authors of certificates one round earlier, a bit each.
    pub previous: u16,
    /// How many transactions there are. A count above four is over every allowance.
    pub count: u32,
    /// The first `count` of these are the transactions, in order; the others mean nothing.
    pub slots: [Transaction; 4],
}

/// What an author proposes for a round.
#[derive(Debug, Clone, Copy)]
pub struct Proposal {
    pub author: Member,
    pub round: Round,
    pub body: Body,
}

/// A proposal with its endorsers, a bit each. Author and endorsers are the signers.
#[derive(Debug, Clone, Copy)]
pub struct Certificate {
    pub proposal: Proposal,
    pub endorsers: u16,
}

/// The body with a previous set and no transactions.
pub fn bare_body(previous: u16) -> Body
    ensures { result ≡ bare_body previous }
{
    Body {
        previous,
        count: 0,
        slots: [Transaction::Bond(Member(0), 0); 4],
    }
}

/// A body with one transaction more, behind the others. A fifth one is counted and not kept.
#[tactic(auto, unfolding(crate::specs::Bodies::push))]
pub fn pushed(body: Body, transaction: Transaction) -> Body
    requires { body.count < 4294967295 }
    ensures { result ≡ push body transaction }
{
    let mut next = body;
    if body.count < 4 {
        next.slots[body.count as usize] = transaction;
    }
    next.count = body.count + 1;
    next
}

/// A transaction's kind as a number: 0 bond, 1 unbond, 2 entry.
#[tactic(auto, unfolding(crate::specs::Transactions::kind_of))]
pub fn kind(transaction: Transaction) -> u32
    ensures { result ≡ kind_of transaction }
{
    match transaction {
        Transaction::Bond(..) => 0,
        Transaction::Unbond(_) => 1,
        Transaction::Entry(_) => 2,
    }
}

/// The member of a bond or unbond, or the number of an entry.
#[tactic(auto, unfolding(crate::specs::Transactions::number_of))]
pub fn number(transaction: Transaction) -> u32
    ensures { result ≡ number_of transaction }
{
    match transaction {
        Transaction::Bond(member, _) => member.0,
        Transaction::Unbond(member) => member.0,
        Transaction::Entry(number) => number,
    }
}

/// The amount of a bond, 0 of another.
#[tactic(auto, unfolding(crate::specs::Transactions::amount_of))]
pub fn amount(transaction: Transaction) -> u32
    ensures { result ≡ amount_of transaction }
{
    match transaction {
        Transaction::Bond(_, amount) => amount,
        Transaction::Unbond(_) | Transaction::Entry(_) => 0,
    }
}

/// The transaction that three numbers tell. An unknown kind is read as an entry; only a bond has an amount.
#[tactic(auto, unfolding(crate::specs::Transactions::read_transaction))]
pub fn read_transaction(kind: u32, number: u32, amount: u32) -> Transaction
    ensures { result ≡ read_transaction kind number amount }
{
    match kind {
        0 => Transaction::Bond(Member(number), amount),
        1 => Transaction::Unbond(Member(number)),
        _ => Transaction::Entry(number),
    }
}

/// Is a bond's amount in range: 1 to 1,000?
#[tactic(auto, unfolding(crate::specs::Transactions::amount_in_range))]
pub fn amount_in_range(amount: u32) -> bool
    ensures { result ≡ amount_in_range amount }
{
    1 <= amount && amount <= 1000
}

/// Are a bond's member and amount in range: 0 to 15, and 1 to 1,000?
#[tactic(auto, unfolding(crate::specs::Transactions::bond_in_range))]
pub fn bond_in_range(member: Member, amount: u32) -> bool
    ensures { result ≡ bond_in_range member.0 amount }
{
    member.0 < 16 && amount_in_range(amount)
}

/// Is the transaction in range: its member 0 to 15, the amount of a bond 1 to 1,000? An entry always is.
#[tactic(auto, unfolding(crate::specs::Transactions::in_range))]
pub fn in_range(transaction: Transaction) -> bool
    ensures { result ≡ in_range transaction }
{
    match transaction {
        Transaction::Bond(member, amount) => bond_in_range(member, amount),
        Transaction::Unbond(member) => member.0 < 16,
        Transaction::Entry(_) => true,
    }
}

// Are the first `count` transactions of a body in range?
#[tactic(auto, unfolding(base::specs::Folds::all_to, crate::specs::Proposals::slot_of))]
fn slots_in_range(body: Body, count: u32) -> bool
    requires { count ≤ 4 }
    ensures { result ≡ all_to (λ k. in_range (slot_of body k)) count }
{
    (0..count).all(|k| in_range(body.slots[k as usize]))
}

/// Check 6: is a transaction out of range, or are there more than the allowance, 0 to 4?
#[tactic(auto, using(crate::proofs::ProposalLaws::bad_transactions_tab, crate::proofs::ProposalLaws::transactions_tab))]
pub fn has_bad_transactions(allowance: u32, body: Body) -> bool
    requires { allowance ≤ 4 }
    ensures { result ≡ bad_transactions allowance (transactions_of body) }
{
    allowance < body.count || !slots_in_range(body, body.count)
}

/// Check 7: is the previous set of a proposal of `round` empty above round 1, or not empty in it?
#[tactic(auto, unfolding(crate::specs::Proposals::bad_previous_set))]
pub fn is_bad_previous_set(round: Round, set: u32) -> bool
    ensures { result ≡ bad_previous_set round set }
{
    (round.0 == 1) != base::is_empty(set)
}
