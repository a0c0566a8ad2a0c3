//! What a reading of a line found.

/// The state of a line that was read: `Lost` where a codeword is lost, else `Fixed` where one was fixed, else `Clean`.
#[derive(Clone, Copy, Debug, PartialEq, Eq)]
pub enum ReadState {
    Clean,
    Fixed,
    Lost,
}
