//! Worked rows: whole jobs, and their reports. In a text `*` stands for 126 zeros, so `11*` is a line of 64 bytes, and `@` for
//! the first line of the second row.
use crate::replay;
use ddr_io::{PlainSink, PlainSource, RealSink, RealSource, Status};
use std::alloc::Global;
use std::io;
use std::io::{Read, Write};
use std::test::Fail;

// Headers, and the register writes with which each report begins.
const TINY: &str =
    "format = 1\nbin = \"tiny\"\nrows = 16\nath = 5\neth = 3\nraaimt = 8\nraammt = 16\nrefresh = \"all\"\necs_every = 0\n";

const TINY_WRITES: &str =
    "C 0 0805 000f\nC 4 0825 0000\nC 8 0845 0005\nC 12 0865 0003\nC 16 0885 0000\nC 20 08a5 0008\nC 24 08c5 0010\nC 28 08e5 0000\n";

const SCRUBBED: &str =
    "format = 1\nbin = \"tiny\"\nrows = 16\nath = 5\neth = 3\nraaimt = 8\nraammt = 16\nrefresh = \"all\"\necs_every = 1\n";

const SCRUBBED_WRITES: &str =
    "C 0 0805 000f\nC 4 0825 0000\nC 8 0845 0005\nC 12 0865 0003\nC 16 0885 0000\nC 20 08a5 0008\nC 24 08c5 0010\nC 28 08e5 0001\n";

const TWO_ROWS: &str =
    "format = 1\nbin = \"tiny\"\nrows = 2\nath = 5\neth = 5\nraaimt = 16\nraammt = 32\nrefresh = \"all\"\necs_every = 0\n";

const TWO_ROWS_WRITES: &str =
    "C 0 0805 0001\nC 4 0825 0000\nC 8 0845 0005\nC 12 0865 0005\nC 16 0885 0000\nC 20 08a5 0010\nC 24 08c5 0020\nC 28 08e5 0000\n";

const MANAGED: &str =
    "format = 1\nbin = \"tiny\"\nrows = 16\nath = 100\neth = 50\nraaimt = 8\nraammt = 16\nrefresh = \"all\"\necs_every = 0\n";

const MANAGED_WRITES: &str =
    "C 0 0805 000f\nC 4 0825 0000\nC 8 0845 0064\nC 12 0865 0032\nC 16 0885 0000\nC 20 08a5 0008\nC 24 08c5 0010\nC 28 08e5 0000\n";

const SAME_BANK: &str =
    "format = 1\nbin = \"tiny\"\nrows = 16\nath = 5\neth = 3\nraaimt = 8\nraammt = 16\nrefresh = \"same\"\necs_every = 0\n";

const SAME_BANK_WRITES: &str =
    "C 0 0805 000f\nC 4 0825 0000\nC 8 0845 0005\nC 12 0865 0003\nC 16 0885 0040\nC 20 08a5 0008\nC 24 08c5 0010\nC 28 08e5 0000\n";

const PRAC: &str =
    "format = 1\nbin = \"4800-prac\"\nrows = 65536\nath = 64\neth = 32\nraaimt = 32\nraammt = 64\nrefresh = \"all\"\necs_every = 8\n";

const PRAC_WRITES: &str =
    "C 0 0805 00ff\nC 34 0825 00ff\nC 68 0845 0040\nC 102 0865 0020\nC 136 0885 0000\nC 170 08a5 0020\nC 204 08c5 0040\nC 238 08e5 0008\n";

const UNSCRUBBED: &str =
    "format = 1\nbin = \"4800-prac\"\nrows = 65536\nath = 64\neth = 32\nraaimt = 32\nraammt = 64\nrefresh = \"all\"\necs_every = 0\n";

const UNSCRUBBED_WRITES: &str =
    "C 0 0805 00ff\nC 34 0825 00ff\nC 68 0845 0040\nC 102 0865 0020\nC 136 0885 0000\nC 170 08a5 0020\nC 204 08c5 0040\nC 238 08e5 0000\n";

// The names of the S lines.
const NAMES: [&str; 14] = [
    "act", "rd", "wr", "pre", "refab", "refsb", "rfmab", "rfmsb", "ecs", "alert", "peak", "found",
    "lost", "worst",
];

// A job that is served to its end: its header and trace, and its report as the register writes, the lines of the run, the
// numbers of the S lines, and the clock of the E line.
struct Row {
    header: &'static str,
    trace: &'static str,
    writes: &'static str,
    lines: &'static str,
    stats: [u64; 14],
    end: u64,
}

const ROWS: [Row; 12] = [
    // A line is written and read.
    Row {
        header: TINY,
        trace: "W 0 11*\nR 0\n",
        writes: TINY_WRITES,
        lines: "C 32 0000 0000\nC 35 002d 0c00\nC 51 003d 0400\nD 2 0 11* ok\nC 54 000b\n",
        stats: [1, 1, 1, 1, 0, 0, 0, 0, 0, 0, 1, 0, 0, 0],
        end: 55,
    },
    // An empty trace.
    Row {
        header: TINY,
        trace: "",
        writes: TINY_WRITES,
        lines: "",
        stats: [0, 0, 0, 0, 0, 0, 0, 0, 0, 0, 0, 0, 0, 0],
        end: 29,
    },
    // Requests change places.
    Row {
        header: TINY,
        trace: "W 0 11*\nR @\nW 0 22*\nR 0\n",
        writes: TINY_WRITES,
        lines: "C 32 0000 0000\nC 35 002d 0c00\nC 47 002d 0c00\nC 63 003d 0400\nC 66 001b\nC 70 0004 0000\nC 73 003d 0400\nD 2 @ 00* ok\nD 4 0 22* ok\nC 76 000b\n",
        stats: [2, 2, 2, 2, 0, 0, 0, 0, 0, 0, 1, 0, 0, 0],
        end: 77,
    },
    // One turned bit in each codeword.
    Row {
        header: TINY,
        trace: "W 0 11*\nF 0 0 0\nF 0 1 63\nF 0 2 127\nF 0 3 135\nR 0\n",
        writes: TINY_WRITES,
        lines: "C 32 0000 0000\nC 35 002d 0c00\nF 35 0 0 0\nF 35 0 1 63\nF 35 0 2 127\nF 35 0 3 135\nC 51 003d 0400\nD 6 0 11* fixed\nC 54 000b\n",
        stats: [1, 1, 1, 1, 0, 0, 0, 0, 0, 0, 1, 0, 0, 0],
        end: 55,
    },
    // A turned bit is scrubbed before the next one.
    Row {
        header: SCRUBBED,
        trace: "W 0 00*\nF 0 0 2\nI 2500\nF 0 0 4\nR 0\n",
        writes: SCRUBBED_WRITES,
        lines: "C 32 0000 0000\nC 35 002d 0c00\nF 35 0 0 2\nC 2000 000b\nC 2004 0213\nC 2024 018f\nF 2024 0 0 4\nC 2536 0000 0000\nC 2539 003d 0400\nD 5 0 00* fixed\nC 2542 000b\n",
        stats: [2, 1, 1, 2, 1, 0, 0, 0, 1, 0, 2, 1, 0, 1],
        end: 2543,
    },
    // Two turned bits without a scrub: a wrong word.
    Row {
        header: TINY,
        trace: "W 0 00*\nF 0 0 2\nI 2500\nF 0 0 4\nR 0\n",
        writes: TINY_WRITES,
        lines: "C 32 0000 0000\nC 35 002d 0c00\nF 35 0 0 2\nC 2000 000b\nC 2004 0213\nF 2004 0 0 4\nC 2536 0000 0000\nC 2539 003d 0400\nD 5 0 07* fixed\nC 2542 000b\n",
        stats: [2, 1, 1, 2, 1, 0, 0, 0, 0, 0, 2, 0, 0, 0],
        end: 2543,
    },
    // Two turned bits that are found.
    Row {
        header: TINY,
        trace: "W 0 00*\nF 0 0 15\nI 2500\nF 0 0 127\nR 0\n",
        writes: TINY_WRITES,
        lines: "C 32 0000 0000\nC 35 002d 0c00\nF 35 0 0 15\nC 2000 000b\nC 2004 0213\nF 2004 0 0 127\nC 2536 0000 0000\nC 2539 003d 0400\nD 5 0 00* lost\nC 2542 000b\n",
        stats: [2, 1, 1, 2, 1, 0, 0, 0, 0, 0, 2, 0, 0, 0],
        end: 2543,
    },
    // Clocks pass.
    Row {
        header: UNSCRUBBED,
        trace: "I 50000\n",
        writes: UNSCRUBBED_WRITES,
        lines: "C 18750 0213\nC 28125 0213\nC 37500 0213\nC 46875 0213\n",
        stats: [0, 0, 0, 0, 4, 0, 0, 0, 0, 0, 0, 0, 0, 0],
        end: 50_239,
    },
    // The other bin, and all rows.
    Row {
        header: PRAC,
        trace: "W 0 11*\nR 0\n",
        writes: PRAC_WRITES,
        lines: "C 272 0000 0000\nC 311 002d 0c00\nC 381 003d 0400\nD 2 0 11* ok\nC 393 000b\n",
        stats: [1, 1, 1, 1, 0, 0, 0, 0, 0, 0, 1, 0, 0, 0],
        end: 394,
    },
    // The alert.
    Row {
        header: TWO_ROWS,
        trace: "R 0\nI 0\nR @\nI 0\nR 0\nI 0\nR @\nI 0\nR 0\nI 0\nR @\nI 0\nR 0\nI 0\nR @\nI 0\nR 0\nI 0\nR @\nI 0\nR 0\n",
        writes: TWO_ROWS_WRITES,
        lines: "C 32 0000 0000\nC 35 003d 0400\nD 1 0 00* ok\nC 38 001b\nC 42 0004 0000\nC 45 003d 0400\nD 3 @ 00* ok\nC 48 001b\nC 52 0000 0000\nC 55 003d 0400\nD 5 0 00* ok\nC 58 001b\nC 62 0004 0000\nC 65 003d 0400\nD 7 @ 00* ok\nC 68 001b\nC 72 0000 0000\nC 75 003d 0400\nD 9 0 00* ok\nC 78 001b\nC 82 0004 0000\nC 85 003d 0400\nD 11 @ 00* ok\nC 88 001b\nC 92 0000 0000\nC 95 003d 0400\nD 13 0 00* ok\nC 98 001b\nC 102 0004 0000\nC 105 003d 0400\nD 15 @ 00* ok\nC 108 001b\nC 112 0000 0000\nC 115 003d 0400\nD 17 0 00* ok\nC 118 001b\nC 122 0004 0000\nC 125 003d 0400\nD 19 @ 00* ok\nC 128 000b\nC 132 0013\nC 156 0000 0000\nC 159 003d 0400\nD 21 0 00* ok\nC 162 000b\nC 166 0013\n",
        stats: [11, 11, 0, 11, 0, 0, 2, 0, 0, 2, 5, 0, 0, 0],
        end: 167,
    },
    // Management of one bank address.
    Row {
        header: MANAGED,
        trace: "R 0\nI 0\nR @\nI 0\nR 0\nI 0\nR @\nI 0\nR 0\nI 0\nR @\nI 0\nR 0\nI 0\nR @\nI 0\nR 0\n",
        writes: MANAGED_WRITES,
        lines: "C 32 0000 0000\nC 35 003d 0400\nD 1 0 00* ok\nC 38 001b\nC 42 0004 0000\nC 45 003d 0400\nD 3 @ 00* ok\nC 48 001b\nC 52 0000 0000\nC 55 003d 0400\nD 5 0 00* ok\nC 58 001b\nC 62 0004 0000\nC 65 003d 0400\nD 7 @ 00* ok\nC 68 001b\nC 72 0000 0000\nC 75 003d 0400\nD 9 0 00* ok\nC 78 001b\nC 82 0004 0000\nC 85 003d 0400\nD 11 @ 00* ok\nC 88 001b\nC 92 0000 0000\nC 95 003d 0400\nD 13 0 00* ok\nC 98 001b\nC 102 0004 0000\nC 105 003d 0400\nD 15 @ 00* ok\nC 108 040b\nC 112 0413\nC 128 0000 0000\nC 131 003d 0400\nD 17 0 00* ok\nC 134 000b\n",
        stats: [9, 9, 0, 9, 0, 0, 0, 1, 0, 0, 5, 0, 0, 0],
        end: 135,
    },
    // Refresh of one bank address after the other.
    Row {
        header: SAME_BANK,
        trace: "I 2500\n",
        writes: SAME_BANK_WRITES,
        lines: "C 2000 0613\nC 2001 0653\nC 2002 0693\nC 2003 06d3\n",
        stats: [0, 0, 0, 0, 0, 4, 0, 0, 0, 0, 0, 0, 0, 0],
        end: 2529,
    },
];

// How the separator is spelled, and the first line of the second row: 256 times the groups.
struct Shape {
    separator: &'static str,
    second_row: &'static str,
}

const EIGHT_GROUPS: Shape = Shape {
    separator: "---",
    second_row: "2048",
};

const FOUR_GROUPS: Shape = Shape {
    separator: "--- 2 4 4",
    second_row: "1024",
};

// The text with each `*` and each `@` written out.
fn written_out(alloc: Global, shape: &Shape, text: &str) -> Result<Vec<u8>, Fail> {
    let zeros = [b'0'; 126];
    let mut bytes = Vec::new(alloc);
    for byte in text.as_bytes() {
        if *byte == b'*' {
            bytes.extend_from_slice(&zeros)?;
        } else if *byte == b'@' {
            bytes.extend_from_slice(shape.second_row.as_bytes())?;
        } else {
            bytes.push(*byte)?;
        }
    }
    Ok(bytes)
}

// A job of this header and trace.
fn job_of(alloc: Global, shape: &Shape, header: &str, trace: &str) -> Result<Vec<u8>, Fail> {
    let separator = shape.separator;
    let text = format!(in alloc; "{header}{separator}\n{trace}")?;
    written_out(alloc, shape, &text)
}

// The report of a row, with this text behind its E line.
fn report_of(alloc: Global, shape: &Shape, row: &Row, behind: &str) -> Result<Vec<u8>, Fail> {
    let separator = shape.separator;
    let Row {
        header,
        writes,
        lines,
        stats,
        end,
        ..
    } = row;
    let mut text = format!(in alloc; "{header}{separator}\n{writes}{lines}")?;
    for (name, number) in NAMES.iter().zip(stats) {
        let line = format!(in alloc; "S {name} {number}\n")?;
        text.push_str(&line)?;
    }
    let last = format!(in alloc; "E {end}\n{behind}")?;
    text.push_str(&last)?;
    written_out(alloc, shape, &text)
}

#[test]
fn jobs_are_served(rt: HostRuntime) -> Result<(), Fail> {
    let alloc = rt.alloc();
    for row in &ROWS {
        let mut source = PlainSource::new(job_of(alloc, &EIGHT_GROUPS, row.header, row.trace)?);
        let mut sink = PlainSink::new(alloc);
        assert_eq!(rt; replay(alloc, &mut source, &mut sink), Status::Ok);
        let want = report_of(alloc, &EIGHT_GROUPS, row, "")?;
        assert_eq!(rt; sink.bytes(), want.as_slice());
    }
    Ok(())
}

// A read of line 4, which lies in another bank where there are 4 groups.
const LINE_FOUR: Row = Row {
    header: TINY,
    trace: "R 4\n",
    writes: TINY_WRITES,
    lines: "C 32 0040 0000\nC 35 007d 0400\nD 1 4 00* ok\nC 38 000b\n",
    stats: [1, 1, 0, 1, 0, 0, 0, 0, 0, 0, 1, 0, 0, 0],
    end: 39,
};

// Jobs of group 0 go alike in both shapes: the alert, the management of one bank address, with its precharge, and the
// refreshes of one address after the other.
#[test]
fn jobs_of_four_groups_are_served(rt: HostRuntime) -> Result<(), Fail> {
    let alloc = rt.alloc();
    for row in [
        &LINE_FOUR, &ROWS[0], &ROWS[2], &ROWS[9], &ROWS[10], &ROWS[11],
    ] {
        let mut source = PlainSource::new(job_of(alloc, &FOUR_GROUPS, row.header, row.trace)?);
        let mut sink = PlainSink::new(alloc);
        assert_eq!(rt; replay(alloc, &mut source, &mut sink), Status::Ok);
        let want = report_of(alloc, &FOUR_GROUPS, row, "")?;
        assert_eq!(rt; sink.bytes(), want.as_slice());
    }
    Ok(())
}

// What stands behind the first job above, and the line that ends its report.
const THIRD_LINES: [(&str, &str); 6] = [
    ("W 0 1*\n", "X 3 6\n"),
    ("Q\n", "X 3 2\n"),
    ("R 32768\n", "X 3 5\n"),
    ("I 4294967297\n", "X 3 5\n"),
    ("\n", "X 3 1\n"),
    ("R 0", "X 3 8\n"),
];

#[test]
fn a_third_line_is_refused(rt: HostRuntime) -> Result<(), Fail> {
    let alloc = rt.alloc();
    let first = &ROWS[0];
    for (third, last) in THIRD_LINES {
        let trace = format!(in alloc; "W 0 11*\nR 0\n{third}")?;
        let mut source = PlainSource::new(job_of(alloc, &EIGHT_GROUPS, TINY, &trace)?);
        let mut sink = PlainSink::new(alloc);
        assert_eq!(rt; replay(alloc, &mut source, &mut sink), Status::Refused);
        let want = report_of(alloc, &EIGHT_GROUPS, first, last)?;
        assert_eq!(rt; sink.bytes(), want.as_slice());
    }
    Ok(())
}

// ---- Faults

// Gives at most 32 bytes a read. A read fails after so many reads, and where no bytes are left.
#[derive(Drop)]
struct Failing<'a> {
    bytes: &'a [u8],
    reads: usize,
}

impl Read for Failing<'_> {
    fn read(&mut self, buf: &mut [u8]) -> io::Result<usize> {
        if self.reads == 0 || self.bytes.is_empty() {
            return Err(io::ErrorKind::Other.into());
        }
        self.reads -= 1;
        let count = self.bytes.len().min(buf.len()).min(32);
        buf[..count].copy_from_slice(&self.bytes[..count]);
        self.bytes = &self.bytes[count..];
        Ok(count)
    }
}

// Takes each piece, and fails after so many writes.
#[derive(Drop)]
struct Full {
    bytes: Vec<u8>,
    writes: usize,
}

impl Write for Full {
    fn write(&mut self, buf: &[u8]) -> io::Result<usize> {
        if self.writes == 0 {
            return Err(io::ErrorKind::Other.into());
        }
        self.writes -= 1;
        self.bytes.write(buf)
    }

    fn flush(&mut self) -> io::Result<()> {
        Ok(())
    }
}

#[test]
fn a_read_of_the_header_fails(rt: HostRuntime) -> Result<(), Fail> {
    let alloc = rt.alloc();
    let job = job_of(alloc, &EIGHT_GROUPS, TINY, "W 0 11*\nR 0\n")?;
    let mut source = RealSource::new(Failing {
        bytes: &job,
        reads: 2,
    });
    let mut sink = PlainSink::new(alloc);
    assert_eq!(rt; replay(alloc, &mut source, &mut sink), Status::ReadFault);
    assert_eq!(rt; sink.bytes(), b"".as_slice());
    Ok(())
}

#[test]
fn a_write_behind_the_header_fails(rt: HostRuntime) -> Result<(), Fail> {
    let alloc = rt.alloc();
    let mut full = Full {
        bytes: Vec::new(alloc),
        writes: 1,
    };
    let mut source = PlainSource::new(job_of(alloc, &EIGHT_GROUPS, TINY, "W 0 11*\nR 0\n")?);
    let mut sink = RealSink::new(&mut full);
    assert_eq!(rt; replay(alloc, &mut source, &mut sink), Status::WriteFault);
    let want = job_of(alloc, &EIGHT_GROUPS, TINY, "")?;
    assert_eq!(rt; full.bytes.as_slice(), want.as_slice());
    Ok(())
}

// The first commands of a report are written before the last line of its trace is read.
#[test]
fn the_last_read_fails(rt: HostRuntime) -> Result<(), Fail> {
    let alloc = rt.alloc();
    let mut trace = String::new(alloc);
    for line in 0..200 {
        let text = format!(in alloc; "R {line}\n")?;
        trace.push_str(&text)?;
    }
    let job = job_of(alloc, &EIGHT_GROUPS, TINY, &trace)?;
    let mut source = RealSource::new(Failing {
        bytes: &job,
        reads: 1000,
    });
    let mut sink = PlainSink::new(alloc);
    assert_eq!(rt; replay(alloc, &mut source, &mut sink), Status::ReadFault);
    let begun = format!(in alloc; "{TINY}---\n{TINY_WRITES}C 32 ")?;
    assert!(rt; sink.bytes().starts_with(begun.as_bytes()));
    assert!(rt; sink.bytes().ends_with(b"\n"));
    Ok(())
}
