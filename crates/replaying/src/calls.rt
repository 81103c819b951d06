//! A run's calls as values, each with all that is handed in, and what a member's host keeps between them.

use batching::rows::CertificateRecord;

/// A call that a host makes.
#[derive(Drop)]
pub enum HostCall {
    Propose([u32; 14]),
    Draw(u32),
    Enqueue(u32, [u32; 3]),
    Endorse([u32; 16]),
    Certify(u32),
    Accept([u32; 17]),
    Batch(Vec<CertificateRecord>),
    Advance,
    Commit,
    PortReset(u32),
}

/// A call that a guest makes.
#[derive(Drop)]
pub enum GuestCall {
    Propose([u32; 14]),
    Draw(u32),
    Enqueue([u32; 3]),
    Endorse([u32; 16]),
    Certify(u32),
    Accept([u32; 17]),
    Batch(Vec<CertificateRecord>),
    Advance,
    Commit,
    PortRead(u32),
    PortWrite(u32, u8),
}

/// A call of the library: the host's own, or that of a guest by its number.
#[derive(Drop)]
pub enum Call {
    Host(HostCall),
    Guest(u32, GuestCall),
}

/// One call on one member's words.
#[derive(Drop)]
pub struct Entry {
    pub who: usize,
    pub call: Call,
}

/// What a member's host keeps between calls: its words, and the committees beside them.
#[derive(Drop)]
pub struct Keeper {
    pub state: Vec<u32>,
    pub table: Vec<u32>,
    pub kept: Vec<u64>,
}
