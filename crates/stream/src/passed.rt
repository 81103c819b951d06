// What a pass came to.

use std::io;

/// What a pass came to.
#[derive(Debug, Clone, Copy)]
pub(crate) enum Passed {
    /// It goes on.
    On,
    /// No more bytes come: at the end of the input.
    Over,
    /// No more bytes come, since a read failed, for this reason.
    Cut(io::Error),
    /// A write failed, for this reason.
    Lost(io::Error),
}
