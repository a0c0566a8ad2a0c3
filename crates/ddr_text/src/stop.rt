//! What stops a run before it has written all.
ghost use Rattle.std.specs.Prelude.{◌≡◌};
ghost use Rattle.ddr_text.specs.Stop.{status_of};

use ddr_io::Status;

/// A fault of the source, a fault of the sink, or want of memory.
#[derive(Clone, Copy, Debug, PartialEq, Eq)]
pub enum Stop {
    ReadFault,
    WriteFault,
    OutOfMemory,
}

impl Stop {
    /// The status of a run that stops so.
    pub fn status(self) -> Status
        ensures { result ≡ status_of self }
    {
        match self {
            Stop::ReadFault => Status::ReadFault,
            Stop::WriteFault => Status::WriteFault,
            Stop::OutOfMemory => Status::OutOfMemory,
        }
    }
}
