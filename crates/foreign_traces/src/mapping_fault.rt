//! Why the notation of an address mapping is refused.
use std::fmt;

/// Why the notation of an address mapping is refused.
#[derive(Clone, Copy, Debug, PartialEq, Eq)]
pub enum MappingFault {
    /// It has other than six fields of two letters.
    Length,
    /// This field, from 1, is none of `ch`, `ra`, `bg`, `ba`, `ro` and `co`.
    Unknown(u8),
    /// A level stands there twice, so that another is missing.
    Twice,
}

impl fmt::Display for MappingFault {
    fn fmt<W: fmt::Write>(&self, f: &mut fmt::Formatter<W>) -> fmt::Result {
        match self {
            MappingFault::Length => f.write_str(
                "the mapping: expected six fields of two letters, as in rochrababgco, or RoBaRaCoCh or ChRaBaRoCo",
            ),
            MappingFault::Unknown(field) => write!(
                f,
                "the mapping, field {field}: expected ch, ra, bg, ba, ro or co"
            ),
            MappingFault::Twice => {
                f.write_str("the mapping: expected each of ch, ra, bg, ba, ro and co once")
            }
        }
    }
}
