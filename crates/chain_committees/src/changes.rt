// What the blocks of the table do to a committee: the certificates of each block, found by one pass, and what they change.

pub mod block;
pub mod links;
