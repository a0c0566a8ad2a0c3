//! Worked rows: whole jobs for two ranks, and their reports. In a text `*` stands for 126 zeros, so `11*` is a line of 64 bytes.
use crate::run_pair;
use ddr_io::{PlainSink, PlainSource, RealSink, RealSource, Status};
use std::alloc::Global;
use std::io;
use std::io::{Read, Write};
use std::test::Fail;

const TINY: &str =
    "format = 1\nbin = \"tiny\"\nrows = 16\nath = 5\neth = 3\nraaimt = 8\nraammt = 16\nrefresh = \"all\"\necs_every = 0\n---\n";

// The register writes with which each report begins.
const WRITES: &str =
    "0 C 0 0805 000f\n0 C 4 0825 0000\n0 C 8 0845 0005\n0 C 12 0865 0003\n0 C 16 0885 0000\n0 C 20 08a5 0008\n0 C 24 08c5 0010\n0 C 28 08e5 0000\n1 C 30 0805 000f\n1 C 34 0825 0000\n1 C 38 0845 0005\n1 C 42 0865 0003\n1 C 46 0885 0000\n1 C 50 08a5 0008\n1 C 54 08c5 0010\n1 C 58 08e5 0000\n";

// The names of the S lines.
const NAMES: [&str; 14] = [
    "act", "rd", "wr", "pre", "refab", "refsb", "rfmab", "rfmsb", "ecs", "alert", "peak", "found",
    "lost", "worst",
];

// A job: its trace, and its report behind the register writes: the lines of the run, the numbers of the S lines of each rank,
// the clock of both E lines, and what stands behind them.
struct Row {
    trace: &'static str,
    lines: &'static str,
    zero: [u64; 14],
    one: [u64; 14],
    end: u64,
    behind: &'static str,
}

const NONE: [u64; 14] = [0; 14];

// Eight reads of eight rows of rank 1, behind some clocks.
const EIGHT_READS: &str =
    "0 I 1860\n1 R 0\n1 R 2048\n1 R 4096\n1 R 6144\n1 R 8192\n1 R 10240\n1 R 12288\n1 R 14336\n";

const ROWS: [Row; 10] = [
    // The second read waits for the data of the other rank.
    Row {
        trace: "0 W 0 11*\n1 R 0\n0 R 0\n",
        lines: "0 C 60 0000 0000\n0 C 63 002d 0c00\n0 C 80 001b\n1 C 81 0000 0000\n1 C 84 003d 0400\n1 D 2 0 00* ok\n1 C 87 001b\n0 C 88 0000 0000\n0 C 94 003d 0400\n0 D 3 0 11* ok\n0 C 97 001b\n",
        zero: [2, 1, 1, 2, 0, 0, 0, 0, 0, 0, 2, 0, 0, 0],
        one: [1, 1, 0, 1, 0, 0, 0, 0, 0, 0, 1, 0, 0, 0],
        end: 98,
        behind: "",
    },
    // The alert of rank 0 is answered before rank 1 is read.
    Row {
        trace: "0 R 0\n0 R 0\n0 R 0\n0 R 0\n0 R 0\n1 R 0\n",
        lines: "0 C 60 0000 0000\n0 C 63 003d 0400\n0 D 1 0 00* ok\n0 C 66 001b\n0 C 70 0000 0000\n0 C 73 003d 0400\n0 D 2 0 00* ok\n0 C 76 001b\n0 C 80 0000 0000\n0 C 83 003d 0400\n0 D 3 0 00* ok\n0 C 86 001b\n0 C 90 0000 0000\n0 C 93 003d 0400\n0 D 4 0 00* ok\n0 C 96 001b\n0 C 100 0000 0000\n0 C 103 003d 0400\n0 D 5 0 00* ok\n0 C 106 001b\n0 C 110 0013\n1 C 111 0000 0000\n1 C 114 003d 0400\n1 D 6 0 00* ok\n1 C 117 001b\n",
        zero: [5, 5, 0, 5, 0, 0, 1, 0, 0, 1, 5, 0, 0, 0],
        one: [1, 1, 0, 1, 0, 0, 0, 0, 0, 0, 1, 0, 0, 0],
        end: 118,
        behind: "",
    },
    // An empty trace, and a rank that there is not.
    Row {
        trace: "",
        lines: "",
        zero: NONE,
        one: NONE,
        end: 59,
        behind: "",
    },
    Row {
        trace: "2 R 0\n",
        lines: "",
        zero: NONE,
        one: NONE,
        end: 59,
        behind: "X 1 2\n",
    },
    // The eighth read of one bank has rank 1 manage it, and then both ranks are due; rank 0 only behind its read, since it was
    // served before.
    Row {
        trace: "@0 R 0\n",
        lines: "%1 C 1999 0413\n1 C 2015 0213\n0 C 2016 0000 0000\n0 C 2019 003d 0400\n0 D 10 0 00* ok\n0 C 2022 001b\n0 C 2026 0213\n",
        zero: [1, 1, 0, 1, 1, 0, 0, 0, 0, 0, 1, 0, 0, 0],
        one: [8, 8, 0, 8, 1, 0, 0, 1, 0, 0, 1, 0, 0, 0],
        end: 2027,
        behind: "",
    },
    // A line between them has a service of its own.
    Row {
        trace: "@0 F 0 0 0\n0 R 0\n",
        lines: "%1 C 1999 0413\n1 C 2015 0213\n0 F 28 0 0 0\n0 C 2016 0213\n0 C 2036 0000 0000\n0 C 2039 003d 0400\n0 D 11 0 00* fixed\n0 C 2042 001b\n",
        zero: [1, 1, 0, 1, 1, 0, 0, 0, 0, 0, 1, 0, 0, 0],
        one: [8, 8, 0, 8, 1, 0, 0, 1, 0, 0, 1, 0, 0, 0],
        end: 2043,
        behind: "",
    },
    // The clocks of an I line pass behind the service of the line before.
    Row {
        trace: "0 R 0\n0 R 0\n0 R 0\n0 R 0\n0 R 0\n1 I 5\n",
        lines: "0 C 60 0000 0000\n0 C 63 003d 0400\n0 D 1 0 00* ok\n0 C 66 001b\n0 C 70 0000 0000\n0 C 73 003d 0400\n0 D 2 0 00* ok\n0 C 76 001b\n0 C 80 0000 0000\n0 C 83 003d 0400\n0 D 3 0 00* ok\n0 C 86 001b\n0 C 90 0000 0000\n0 C 93 003d 0400\n0 D 4 0 00* ok\n0 C 96 001b\n0 C 100 0000 0000\n0 C 103 003d 0400\n0 D 5 0 00* ok\n0 C 106 001b\n0 C 110 0013\n",
        zero: [5, 5, 0, 5, 0, 0, 1, 0, 0, 1, 5, 0, 0, 0],
        one: NONE,
        end: 116,
        behind: "",
    },
    // Both ranks are due at one clock, again and again.
    Row {
        trace: "1 I 3000\n",
        lines: "0 C 2000 0213\n1 C 2001 0213\n0 C 3000 0213\n1 C 3001 0213\n",
        zero: [0, 0, 0, 0, 2, 0, 0, 0, 0, 0, 0, 0, 0, 0],
        one: [0, 0, 0, 0, 2, 0, 0, 0, 0, 0, 0, 0, 0, 0],
        end: 3059,
        behind: "",
    },
    // A turned bit is one of its rank alone.
    Row {
        trace: "1 W 0 11*\n1 F 0 0 0\n0 R 0\n1 R 0\n",
        lines: "1 C 62 0000 0000\n1 C 65 002d 0c00\n1 C 82 001b\n1 F 82 0 0 0\n0 C 83 0000 0000\n0 C 86 003d 0400\n0 D 3 0 00* ok\n0 C 89 001b\n1 C 90 0000 0000\n1 C 96 003d 0400\n1 D 4 0 11* fixed\n1 C 99 001b\n",
        zero: [1, 1, 0, 1, 0, 0, 0, 0, 0, 0, 1, 0, 0, 0],
        one: [2, 1, 1, 2, 0, 0, 0, 0, 0, 0, 2, 0, 0, 0],
        end: 100,
        behind: "",
    },
    // A write waits for the data of the other rank's read.
    Row {
        trace: "0 R 0\n1 W 0 11*\n",
        lines: "0 C 60 0000 0000\n0 C 63 003d 0400\n0 D 1 0 00* ok\n0 C 66 001b\n1 C 67 0000 0000\n1 C 75 002d 0c00\n1 C 92 001b\n",
        zero: [1, 1, 0, 1, 0, 0, 0, 0, 0, 0, 1, 0, 0, 0],
        one: [1, 0, 1, 1, 0, 0, 0, 0, 0, 0, 1, 0, 0, 0],
        end: 93,
        behind: "",
    },
];

// What the eight reads show.
const EIGHT_LINES: &str =
    "1 C 1919 0000 0000\n1 C 1922 003d 0400\n1 D 2 0 00* ok\n1 C 1925 001b\n1 C 1929 0004 0000\n1 C 1932 003d 0400\n1 D 3 2048 00* ok\n1 C 1935 001b\n1 C 1939 0008 0000\n1 C 1942 003d 0400\n1 D 4 4096 00* ok\n1 C 1945 001b\n1 C 1949 000c 0000\n1 C 1952 003d 0400\n1 D 5 6144 00* ok\n1 C 1955 001b\n1 C 1959 0010 0000\n1 C 1962 003d 0400\n1 D 6 8192 00* ok\n1 C 1965 001b\n1 C 1969 0014 0000\n1 C 1972 003d 0400\n1 D 7 10240 00* ok\n1 C 1975 001b\n1 C 1979 0018 0000\n1 C 1982 003d 0400\n1 D 8 12288 00* ok\n1 C 1985 001b\n1 C 1989 001c 0000\n1 C 1992 003d 0400\n1 D 9 14336 00* ok\n1 C 1995 001b\n";

// The text with each `*` written out, each `@` as the eight reads, and each `%` as what they show.
fn written_out(alloc: Global, text: &str) -> Result<Vec<u8>, Fail> {
    let zeros = [b'0'; 126];
    let mut bytes = Vec::new(alloc);
    for byte in text.as_bytes() {
        if *byte == b'*' {
            bytes.extend_from_slice(&zeros)?;
        } else if *byte == b'@' {
            bytes.extend_from_slice(EIGHT_READS.as_bytes())?;
        } else if *byte == b'%' {
            bytes.extend_from_slice(&written_out_zeros(alloc, EIGHT_LINES)?)?;
        } else {
            bytes.push(*byte)?;
        }
    }
    Ok(bytes)
}

// The text with each `*` written out.
fn written_out_zeros(alloc: Global, text: &str) -> Result<Vec<u8>, Fail> {
    let zeros = [b'0'; 126];
    let mut bytes = Vec::new(alloc);
    for byte in text.as_bytes() {
        if *byte == b'*' {
            bytes.extend_from_slice(&zeros)?;
        } else {
            bytes.push(*byte)?;
        }
    }
    Ok(bytes)
}

// A job of this trace.
fn job_of(alloc: Global, trace: &str) -> Result<Vec<u8>, Fail> {
    let text = format!(in alloc; "{TINY}{trace}")?;
    written_out(alloc, &text)
}

// The S lines and the E line of the rank with this digit.
fn end_of(alloc: Global, digit: &str, stats: &[u64; 14], clock: u64) -> Result<String, Fail> {
    let mut text = String::new(alloc);
    for (name, number) in NAMES.iter().zip(stats) {
        let line = format!(in alloc; "{digit} S {name} {number}\n")?;
        text.push_str(&line)?;
    }
    let last = format!(in alloc; "{digit} E {clock}\n")?;
    text.push_str(&last)?;
    Ok(text)
}

// The report of a row.
fn report_of(alloc: Global, row: &Row) -> Result<Vec<u8>, Fail> {
    let Row {
        lines,
        zero,
        one,
        end,
        behind,
        ..
    } = row;
    let first = end_of(alloc, "0", zero, *end)?;
    let second = end_of(alloc, "1", one, *end)?;
    let text = format!(in alloc; "{TINY}{WRITES}{lines}{first}{second}{behind}")?;
    written_out(alloc, &text)
}

#[test]
fn jobs_are_served(rt: HostRuntime) -> Result<(), Fail> {
    let alloc = rt.alloc();
    for row in &ROWS {
        let mut source = PlainSource::new(job_of(alloc, row.trace)?);
        let mut sink = PlainSink::new(alloc);
        let status = if row.behind.is_empty() {
            Status::Ok
        } else {
            Status::Refused
        };
        assert_eq!(rt; run_pair(alloc, &mut source, &mut sink), status);
        let want = report_of(alloc, row)?;
        assert_eq!(rt; sink.bytes(), want.as_slice());
    }
    Ok(())
}

// What stands behind the first job above, and the line that ends its report.
const FOURTH_LINES: [(&str, &str); 11] = [
    ("0 W 0 1*\n", "X 4 6\n"),
    ("1 Q\n", "X 4 2\n"),
    ("R 0\n", "X 4 2\n"),
    ("0R 0\n", "X 4 2\n"),
    ("0\n", "X 4 2\n"),
    ("0 \n", "X 4 1\n"),
    ("1 R 32768\n", "X 4 5\n"),
    ("0 I 4294967297\n", "X 4 5\n"),
    ("\n", "X 4 1\n"),
    ("0 R 0", "X 4 8\n"),
    ("1 R  0\n", "X 4 3\n"),
];

#[test]
fn a_fourth_line_is_refused(rt: HostRuntime) -> Result<(), Fail> {
    let alloc = rt.alloc();
    let first = &ROWS[0];
    let Row {
        trace,
        lines,
        zero,
        one,
        end,
        ..
    } = first;
    for (fourth, behind) in FOURTH_LINES {
        let longer = format!(in alloc; "{trace}{fourth}")?;
        let mut source = PlainSource::new(job_of(alloc, &longer)?);
        let mut sink = PlainSink::new(alloc);
        assert_eq!(rt; run_pair(alloc, &mut source, &mut sink), Status::Refused);
        let zero_ends = end_of(alloc, "0", zero, *end)?;
        let one_ends = end_of(alloc, "1", one, *end)?;
        let text = format!(in alloc; "{TINY}{WRITES}{lines}{zero_ends}{one_ends}{behind}")?;
        let want = written_out(alloc, &text)?;
        assert_eq!(rt; sink.bytes(), want.as_slice());
    }
    Ok(())
}

// ---- Openings

// A header with the shortest refresh interval that gives two ranks time, and with one clock less.
const IN_TIME: &[u8] =
    b"format = 1\nbin = \"4800-prac\"\nrows = 256\nath = 64\neth = 32\nraaimt = 32\nraammt = 64\nrefresh = \"all\"\necs_every = 8\n[timing]\nnREFI = 8688\n---\n";

const TOO_SHORT: &[u8] =
    b"format = 1\nbin = \"4800-prac\"\nrows = 256\nath = 64\neth = 32\nraaimt = 32\nraammt = 64\nrefresh = \"all\"\necs_every = 8\n[timing]\nnREFI = 8687\n---\n";

// The opening of this job, which is refused.
fn refusal(alloc: Global, job: &[u8]) -> Result<(Status, PlainSink), Fail> {
    let mut source = PlainSource::new(job.to_vec(alloc)?);
    let mut sink = PlainSink::new(alloc);
    let status = run_pair(alloc, &mut source, &mut sink);
    Ok((status, sink))
}

#[test]
fn openings_without_time_are_refused(rt: HostRuntime) -> Result<(), Fail> {
    let alloc = rt.alloc();
    let (status, sink) = refusal(alloc, TOO_SHORT)?;
    assert_eq!(rt; status, Status::Refused);
    assert_eq!(rt; sink.bytes(), b"X 0 30\n".as_slice());
    let (status, sink) = refusal(alloc, IN_TIME)?;
    assert_eq!(rt; status, Status::Ok);
    assert!(rt; sink.bytes().starts_with(IN_TIME));
    let (status, sink) = refusal(alloc, b"format = 3\n---\n")?;
    assert_eq!(rt; status, Status::Refused);
    assert!(rt; sink.bytes().starts_with(b"X 0 "));
    Ok(())
}

// ---- Faults

// Gives at most 32 bytes a read. A read fails after so many reads, and where no bytes are left.
#[derive(Drop)]
struct Failing<'a> {
    bytes: &'a [u8],
    reads: usize,
}

impl Read for Failing<'_> {
    fn read(&mut self, buf: &mut [u8]) -> io::Result<usize> {
        if self.reads == 0 || self.bytes.is_empty() {
            return Err(io::ErrorKind::Other.into());
        }
        self.reads -= 1;
        let count = self.bytes.len().min(buf.len()).min(32);
        buf[..count].copy_from_slice(&self.bytes[..count]);
        self.bytes = &self.bytes[count..];
        Ok(count)
    }
}

// Takes each piece, and fails after so many writes.
#[derive(Drop)]
struct Full {
    bytes: Vec<u8>,
    writes: usize,
}

impl Write for Full {
    fn write(&mut self, buf: &[u8]) -> io::Result<usize> {
        if self.writes == 0 {
            return Err(io::ErrorKind::Other.into());
        }
        self.writes -= 1;
        self.bytes.write(buf)
    }

    fn flush(&mut self) -> io::Result<()> {
        Ok(())
    }
}

#[test]
fn a_read_of_the_header_fails(rt: HostRuntime) -> Result<(), Fail> {
    let alloc = rt.alloc();
    let job = job_of(alloc, "0 W 0 11*\n1 R 0\n")?;
    let mut source = RealSource::new(Failing {
        bytes: &job,
        reads: 2,
    });
    let mut sink = PlainSink::new(alloc);
    assert_eq!(rt; run_pair(alloc, &mut source, &mut sink), Status::ReadFault);
    assert_eq!(rt; sink.bytes(), b"".as_slice());
    Ok(())
}

#[test]
fn a_write_behind_the_header_fails(rt: HostRuntime) -> Result<(), Fail> {
    let alloc = rt.alloc();
    let mut full = Full {
        bytes: Vec::new(alloc),
        writes: 1,
    };
    let mut source = PlainSource::new(job_of(alloc, "0 W 0 11*\n1 R 0\n")?);
    let mut sink = RealSink::new(&mut full);
    assert_eq!(rt; run_pair(alloc, &mut source, &mut sink), Status::WriteFault);
    assert_eq!(rt; full.bytes.as_slice(), TINY.as_bytes());
    Ok(())
}

// The lines of a trace so far are carried out where the next read fails.
#[test]
fn the_last_read_fails(rt: HostRuntime) -> Result<(), Fail> {
    let alloc = rt.alloc();
    let mut trace = String::new(alloc);
    for line in 0..200 {
        let text = format!(in alloc; "1 R {line}\n")?;
        trace.push_str(&text)?;
    }
    let job = job_of(alloc, &trace)?;
    let mut source = RealSource::new(Failing {
        bytes: &job,
        reads: 1000,
    });
    let mut sink = PlainSink::new(alloc);
    assert_eq!(rt; run_pair(alloc, &mut source, &mut sink), Status::ReadFault);
    let begun = format!(in alloc; "{TINY}{WRITES}1 C 62 ")?;
    assert!(rt; sink.bytes().starts_with(begun.as_bytes()));
    assert!(rt; sink.bytes().ends_with(b"\n"));
    Ok(())
}
