//! Whole runs on streams that fail or not: each status, and the number that the process ends with.
use crate::{exit_code, run_on_streams, unread_line, words_of};
use ddr_io::Status;
use std::alloc::Global;
use std::io;
use std::io::{ErrorKind, Read, Write};
use std::process::ExitCode;
use std::test::Fail;

// Gives its bytes and then the end, or an error in place of the end.
#[derive(Drop)]
struct Input {
    bytes: &'static [u8],
    fails: bool,
}

impl Read for Input {
    fn read(&mut self, buf: &mut [u8]) -> io::Result<usize> {
        if self.bytes.is_empty() && self.fails {
            return Err(ErrorKind::Other.into());
        }
        self.bytes.read(buf)
    }
}

// Takes all or fails, in a write or only at the flush.
#[derive(Drop)]
struct Output {
    write_fails: bool,
    flush_fails: bool,
}

impl Write for Output {
    fn write(&mut self, buf: &[u8]) -> io::Result<usize> {
        if self.write_fails {
            return Err(ErrorKind::Other.into());
        }
        Ok(buf.len())
    }

    fn flush(&mut self) -> io::Result<()> {
        if self.flush_fails {
            return Err(ErrorKind::Other.into());
        }
        Ok(())
    }
}

const WELL: (bool, bool, bool) = (false, false, false);

const NO_READ: (bool, bool, bool) = (true, false, false);

const NO_WRITE: (bool, bool, bool) = (false, true, false);

const NO_FLUSH: (bool, bool, bool) = (false, false, true);

const JOB: &[u8] =
    b"format = 1\nbin = \"tiny\"\nrows = 16\nath = 5\neth = 3\nraaimt = 8\nraammt = 16\nrefresh = \"all\"\necs_every = 0\n---\nR 0\n";

// The register writes are missing.
const REPORT: &[u8] =
    b"format = 1\nbin = \"tiny\"\nrows = 16\nath = 5\neth = 3\nraaimt = 8\nraammt = 16\nrefresh = \"all\"\necs_every = 0\n---\nE 1\n";

// A command line: the program's name, and then these words.
fn line_of(alloc: Global, words: &[&str]) -> Result<Vec<String>, Fail> {
    let mut line = Vec::new(alloc);
    line.push(String::from_str(alloc, "ddr")?)?;
    for word in words {
        line.push(String::from_str(alloc, word)?)?;
    }
    Ok(line)
}

// Runs the program with these words behind its name; the three flags are of the reads, the writes and the flush.
fn status_of(
    alloc: Global,
    words: &[&str],
    bytes: &'static [u8],
    fails: (bool, bool, bool),
) -> Result<Status, Fail> {
    let words = words_of(alloc, line_of(alloc, words)?.into_iter())?;
    let mut input = Input {
        bytes,
        fails: fails.0,
    };
    let mut output = Output {
        write_fails: fails.1,
        flush_fails: fails.2,
    };
    Ok(run_on_streams(alloc, &words, &mut input, &mut output))
}

#[test]
fn each_answer_has_its_run(rt: HostRuntime) -> Result<(), Fail> {
    let rows: [(&[&str], &[u8], (bool, bool, bool), Status); 8] = [
        (&["replay"], JOB, WELL, Status::Ok),
        (&["show"], JOB, WELL, Status::Refused),
        (&["audit"], REPORT, WELL, Status::Broken),
        (&["replay"], b"", WELL, Status::Refused),
        (&["gen", "run", "1", "1"], b"", NO_READ, Status::Ok),
        (&[], JOB, WELL, Status::Usage),
        (&["ddr", "replay"], JOB, WELL, Status::Usage),
        (&["Replay"], JOB, (true, true, true), Status::Usage),
    ];
    for (words, bytes, fails, want) in rows {
        assert_eq!(rt; status_of(rt.alloc(), words, bytes, fails)?, want);
    }
    Ok(())
}

#[test]
fn each_fault_has_its_run(rt: HostRuntime) -> Result<(), Fail> {
    let rows: [(&[&str], &[u8], (bool, bool, bool), Status); 7] = [
        (&["replay"], JOB, NO_READ, Status::ReadFault),
        (&["upgrade"], REPORT, NO_READ, Status::ReadFault),
        (&["replay"], JOB, NO_WRITE, Status::WriteFault),
        (&["gen", "1", "1"], b"", NO_WRITE, Status::WriteFault),
        (&["replay"], JOB, NO_FLUSH, Status::WriteFault),
        (&["audit"], REPORT, NO_FLUSH, Status::WriteFault),
        // The output is handed on before the read that fails.
        (&["replay"], JOB, (true, false, true), Status::WriteFault),
    ];
    for (words, bytes, fails, want) in rows {
        assert_eq!(rt; status_of(rt.alloc(), words, bytes, fails)?, want);
    }
    Ok(())
}

#[test]
fn each_status_has_its_number(rt: HostRuntime) -> Result<(), Fail> {
    let rows = [
        (Status::Ok, 0),
        (Status::Refused, 1),
        (Status::Usage, 2),
        (Status::ReadFault, 3),
        (Status::WriteFault, 4),
        (Status::OutOfMemory, 5),
        (Status::Broken, 6),
    ];
    for (status, number) in rows {
        assert_eq!(rt; exit_code(status), ExitCode::from(number));
        assert_eq!(rt; number, status as u8);
    }
    Ok(())
}

#[test]
fn a_command_line_that_is_not_read(rt: HostRuntime) -> Result<(), Fail> {
    assert_eq!(rt;
        unread_line(&ErrorKind::OutOfMemory.into()),
        Status::OutOfMemory
    );
    assert_eq!(rt; unread_line(&ErrorKind::InvalidData.into()), Status::Usage);
    Ok(())
}
