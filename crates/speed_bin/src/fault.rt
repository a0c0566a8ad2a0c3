//! Why a header is refused.
use thiserror::Error;

/// Why a header is refused. The first fault in this order whose condition holds is answered.
#[derive(Debug, Drop, Error, Clone, Copy, PartialEq, Eq)]
pub enum HeaderFault {
    /// The text is no TOML document.
    #[error("not TOML")]
    NotToml,
    /// A key is not one of a header, or a required one is missing.
    #[error("wrong key")]
    Key,
    /// A value has another kind.
    #[error("wrong kind")]
    Kind,
    /// A value is outside its range.
    #[error("out of range")]
    Range,
    /// `bin` names no bin.
    #[error("unknown bin")]
    NoBin,
    /// The check with this number fails, and none with a smaller one.
    #[error("check {0} fails")]
    Check(u8),
    /// There is not enough memory to read the text.
    #[error("out of memory")]
    OutOfMemory,
}
