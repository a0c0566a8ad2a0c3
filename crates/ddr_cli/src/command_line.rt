//! The words of the command line, as the system gives them.
ghost use Rattle.std.specs.Prelude.{◌≡◌, ◌≢◌, drop, IfOk, IfErr};
ghost use Rattle.std.specs.IoError.{error_kind};
ghost use Rattle.std.specs.Vec.Iter.{into_iter_items};

use ddr_io::Status;
use std::alloc::Global;
use std::env::Args;
use std::io;
use std::io::ErrorKind;

/// The words of a command line: all but the first, which is the program's name.
pub fn words_of(alloc: Global, line: Args) -> io::Result<Vec<String>>
    ensures words { IfOk result (λ words. words.items ≡ drop 1 (into_iter_items line)) }
    ensures memory { IfErr result (λ error. error_kind error ≡ ErrorKind.OutOfMemory) }
{
    let mut words = Vec::new(alloc);
    let mut rest = line;
    let _name = rest.next();
    'each: for word in rest {
        words.push(word)?;
    }
    Ok(words)
}

/// The status where the command line could not be read: memory was wanting, or a word of it is no text.
pub fn unread_line(error: &io::Error) -> Status
    ensures memory { error_kind error.now ≡ ErrorKind.OutOfMemory → result ≡ Status.OutOfMemory }
    ensures other { error_kind error.now ≢ ErrorKind.OutOfMemory → result ≡ Status.Usage }
{
    match error.kind() {
        ErrorKind::OutOfMemory => Status::OutOfMemory,
        _ => Status::Usage,
    }
}
