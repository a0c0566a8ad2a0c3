//! What a device answers.

use error_scrub::LineRead;

/// The answer to one command.
#[derive(Clone, Copy, Debug, PartialEq, Eq)]
pub struct Reply {
    /// What the reading found; `Some` exactly for RD.
    pub line: Option<LineRead>,
    /// Whether ALERT is raised after the command.
    pub alert: bool,
}
