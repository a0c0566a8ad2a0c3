//! What a port's line says behind its digit and its space.
ghost use Rattle.std.specs.Prelude.{◌≡◌, ◌<◌, length};

use arrayvec::ArrayVec;
use std::marker::Model;

/// At most 511 bytes. Contracts see their list.
#[derive(Drop)]
pub(crate) struct Rest {
    bytes: ArrayVec<u8, 512>,
}

impl Model for Rest {
    ghost use Rattle.std.specs.Prelude.{ℕ, List, ◌<◌, length};

    ghost Value = { List ℕ };

    ghost view = { λ r. r.bytes.items };

    ghost invariant = { λ r. length r.bytes.items < 512 };
}

impl Rest {
    /// These bytes.
    pub(crate) fn new(bytes: &[u8]) -> Rest
        requires { length bytes.now < 512 }
        ensures { result ≡ bytes.now }
    {
        let mut kept = ArrayVec::new();
        let _ = kept.try_extend_from_slice(bytes);
        Rest { bytes: kept }
    }

    /// The bytes.
    pub(crate) fn bytes(&self) -> &[u8]
        ensures bytes { result.now ≡ self.now }
        ensures short { length result.now < 512 }
    {
        &self.bytes
    }
}
