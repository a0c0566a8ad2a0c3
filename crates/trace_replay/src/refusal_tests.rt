//! Openings and trace lines that are refused, each with the reason that `docs/FORMATS.md` names.
use crate::replay;
use crate::trace_lines::{Next, Tally, next_line};
use command_words::Geometry;
use ddr_io::{LineReader, PlainSink, PlainSource, Status};
use std::alloc::Global;
use std::test::Fail;

const HEADER: &str =
    "format = 1\nbin = \"tiny\"\nrows = 16\nath = 5\neth = 3\nraaimt = 8\nraammt = 16\nrefresh = \"all\"\necs_every = 0\n";

// What stands after the lines of the header and before the separator, and the reason.
const MORE: [(&str, u8); 33] = [
    ("[", 11),
    ("rows = ", 11),
    ("rows = 17", 11),
    ("x = 1e", 11),
    ("[timing", 11),
    ("other = 1", 12),
    ("Rows = 1", 12),
    ("[timing]\nnRCX = 4", 12),
    ("[timing]\nncl = 6", 12),
    ("[other]", 12),
    ("[timing]\nnRCX = 'x'", 12),
    ("timing = 1", 13),
    ("timing = 'tiny'", 13),
    ("[timing]\nnRCD = 'x'", 13),
    ("[timing]\nnRCD = 3.5", 13),
    ("[timing]\nnRCD = true", 13),
    ("[timing]\nnRCD = 0", 14),
    ("[timing]\nnRCD = 65536", 14),
    ("[timing]\nnRCD = -3", 14),
    ("[timing]\nnRCD = 9223372036854775807", 14),
    ("[timing]\nnRP = 11", 21),
    ("[timing]\nnRC = 3", 21),
    ("[timing]\nnABO = 34", 22),
    ("[timing]\nnABO = 65535", 22),
    ("[timing]\nnREFI = 642", 25),
    ("[timing]\nnREFI = 1", 25),
    (
        "[timing]\nnRP = 40\nnRC = 40\nnRFCsb = 100\nnECS = 100\nnREFI = 1380",
        26,
    ),
    (
        "[timing]\nnRP = 40\nnRC = 40\nnRFCsb = 100\nnECS = 100\nnREFI = 1399",
        26,
    ),
    ("[timing]\nnCL = 7", 27),
    ("[timing]\nnCWL = 5", 27),
    ("[timing]\nnCCD_L = 7", 28),
    ("[timing]\nnCCD_S = 7", 28),
    ("[timing]\nnCCD_L_WR = 7", 28),
];

// Whole jobs, and the reason.
const OPENINGS: [(&str, u8); 27] = [
    ("---\n", 12),
    (
        "format = 1\nbin = \"tiny\"\nrows = 16\neth = 3\nraaimt = 8\nraammt = 16\nrefresh = \"all\"\necs_every = 0\n---\n",
        12,
    ),
    (
        "bin = \"tiny\"\nrows = 16\nath = 5\neth = 3\nraaimt = 8\nraammt = 16\nrefresh = \"all\"\necs_every = 0\n---\n",
        12,
    ),
    (
        "format = 1\nbin = \"tiny\"\nrows = 16\nath = \"5\"\neth = 3\nraaimt = 8\nraammt = 16\nrefresh = \"all\"\necs_every = 0\n---\n",
        13,
    ),
    (
        "format = 1\nbin = 1\nrows = 16\nath = 5\neth = 3\nraaimt = 8\nraammt = 16\nrefresh = \"all\"\necs_every = 0\n---\n",
        13,
    ),
    (
        "format = 1\nbin = \"tiny\"\nrows = 16\nath = 5\neth = 3\nraaimt = 8\nraammt = 16\nrefresh = 1\necs_every = 0\n---\n",
        13,
    ),
    (
        "format = 1\nbin = \"tiny\"\nrows = 0\nath = 5\neth = 3\nraaimt = 8\nraammt = 16\nrefresh = \"all\"\necs_every = 0\n---\n",
        14,
    ),
    (
        "format = 1\nbin = \"tiny\"\nrows = 65537\nath = 5\neth = 3\nraaimt = 8\nraammt = 16\nrefresh = \"all\"\necs_every = 0\n---\n",
        14,
    ),
    (
        "format = 2\nbin = \"tiny\"\nrows = 16\nath = 5\neth = 3\nraaimt = 8\nraammt = 16\nrefresh = \"all\"\necs_every = 0\n---\n",
        14,
    ),
    (
        "format = 1\nbin = \"tiny\"\nrows = 16\nath = 5\neth = 3\nraaimt = 8\nraammt = 16\nrefresh = \"some\"\necs_every = 0\n---\n",
        14,
    ),
    (
        "format = 1\nbin = \"tiny\"\nrows = 16\nath = 5\neth = 3\nraaimt = 256\nraammt = 16\nrefresh = \"all\"\necs_every = 0\n---\n",
        14,
    ),
    (
        "format = 1\nbin = \"fast\"\nrows = 16\nath = 5\neth = 3\nraaimt = 8\nraammt = 16\nrefresh = \"all\"\necs_every = 0\n---\n",
        15,
    ),
    (
        "format = 1\nbin = \"\"\nrows = 16\nath = 5\neth = 3\nraaimt = 8\nraammt = 16\nrefresh = \"all\"\necs_every = 0\n---\n",
        15,
    ),
    (
        "format = 1\nbin = \"Tiny\"\nrows = 16\nath = 4\neth = 3\nraaimt = 8\nraammt = 16\nrefresh = \"all\"\necs_every = 0\n---\n",
        15,
    ),
    ("", 16),
    (
        "format = 1\nbin = \"tiny\"\nrows = 16\nath = 5\neth = 3\nraaimt = 8\nraammt = 16\nrefresh = \"all\"\necs_every = 0\n",
        16,
    ),
    (
        "format = 1\nbin = \"tiny\"\nrows = 16\nath = 5\neth = 3\nraaimt = 8\nraammt = 16\nrefresh = \"all\"\necs_every = 0\n---",
        16,
    ),
    (
        "format = 1\nbin = \"tiny\"\nrows = 16\nath = 5\neth = 3\nraaimt = 8\nraammt = 16\nrefresh = \"all\"\necs_every = 0\n--",
        16,
    ),
    (
        "format = 1\nbin = \"tiny\"\nrows = 16\nath = 5\neth = 3\nraaimt = 8\nraammt = 16\nrefresh = \"all\"\necs_every = 0\n----\n",
        16,
    ),
    (
        "format = 1\nbin = \"tiny\"\nrows = 16\nath = 5\neth = 3\nraaimt = 8\nraammt = 16\nrefresh = \"all\"\necs_every = 0\n ---\n",
        16,
    ),
    (
        "format = 1\nbin = \"tiny\"\nrows = 16\nath = 5\neth = 3\nraaimt = 8\nraammt = 16\nrefresh = \"all\"\necs_every = 0\n---\r\n",
        16,
    ),
    ("ath = \nath = 4", 16),
    (
        "format = 1\nbin = \"tiny\"\nrows = 16\nath = 4\neth = 3\nraaimt = 8\nraammt = 16\nrefresh = \"all\"\necs_every = 0\n---\n",
        23,
    ),
    (
        "format = 1\nbin = \"tiny\"\nrows = 16\nath = 5\neth = 6\nraaimt = 8\nraammt = 16\nrefresh = \"all\"\necs_every = 0\n---\n",
        23,
    ),
    (
        "format = 1\nbin = \"tiny\"\nrows = 16\nath = 5\neth = 3\nraaimt = 7\nraammt = 16\nrefresh = \"all\"\necs_every = 0\n---\n",
        24,
    ),
    (
        "format = 1\nbin = \"tiny\"\nrows = 16\nath = 5\neth = 3\nraaimt = 17\nraammt = 16\nrefresh = \"all\"\necs_every = 0\n---\n",
        24,
    ),
    ("ath = \n---\n", 11),
];

// Lines in place of the separator, behind a header that is accepted, and the reason. What begins as a separator of version 2 and
// is none has a reason of its own.
const SEPARATORS: [(&str, u8); 14] = [
    ("--- 2 1 8", 29),
    ("--- 2 6 8", 29),
    ("--- 2 4 6", 29),
    ("--- 2 4 16", 29),
    ("--- 1 4 8", 29),
    ("--- 2 04 8", 29),
    ("--- 2 +4 8", 29),
    ("--- 2 4", 29),
    ("--- 2 4 8 8", 29),
    ("--- 2 4 8 ", 29),
    ("---  2 4 8", 29),
    ("--- ", 29),
    ("--- 2 4 18446744073709551616", 29),
    ("---2 4 8\n---", 11),
];

#[test]
fn separators_are_refused(rt: HostRuntime) -> Result<(), Fail> {
    let alloc = rt.alloc();
    for (line, reason) in SEPARATORS {
        let job = format!(in alloc; "{HEADER}{line}\nR 0\n")?;
        let want = format!(in alloc; "X 0 {reason}\n")?;
        let report = report_of(alloc, job.as_bytes())?;
        assert_eq!(rt; report.as_slice(), want.as_bytes());
    }
    Ok(())
}

// Traces, and the line that ends the report.
const TRACES: [(&str, &str); 37] = [
    ("\n", "X 1 1\n"),
    ("R 0\n\n", "X 2 1\n"),
    ("Q\n", "X 1 2\n"),
    ("r 0\n", "X 1 2\n"),
    (" R 0\n", "X 1 2\n"),
    (" \n", "X 1 2\n"),
    ("RR 0\n", "X 1 2\n"),
    ("R 0\nX 0 12\n", "X 2 2\n"),
    ("R\n", "X 1 3\n"),
    ("R 0 \n", "X 1 3\n"),
    ("R  0\n", "X 1 3\n"),
    ("W 0\n", "X 1 3\n"),
    ("F 0 0\n", "X 1 3\n"),
    ("I 0 0\n", "X 1 3\n"),
    ("R \n", "X 1 4\n"),
    ("R x\n", "X 1 4\n"),
    ("R 00\n", "X 1 4\n"),
    ("R +1\n", "X 1 4\n"),
    ("I 18446744073709551616\n", "X 1 4\n"),
    ("W x 11\n", "X 1 4\n"),
    ("R 32768\n", "X 1 5\n"),
    ("W 32768 11\n", "X 1 5\n"),
    ("I 4294967297\n", "X 1 5\n"),
    ("F 0 4 0\n", "X 1 5\n"),
    ("F 0 0 136\n", "X 1 5\n"),
    ("W 0 \n", "X 1 6\n"),
    ("W 0 11\n", "X 1 6\n"),
    (
        "W 0 1100000000000000000000000000000000000000000000000000000000000000000000000000000000000000000000000000000000000000000000000000000\n",
        "X 1 6\n",
    ),
    (
        "W 0 1100000000000000000000000000000000000000000000000000000000000000000000000000000000000000000000000000000000000000000000000000000g\n",
        "X 1 6\n",
    ),
    (
        "W 0 110000000000000000000000000000000000000000000000000000000000000000000000000000000000000000000000000000000000000000000000000000000\n",
        "X 1 6\n",
    ),
    (
        "R 0 0 0 0 0 0 0 0 0 0 0 0 0 0 0 0 0 0 0 0 0 0 0 0 0 0 0 0 0 0 0 0 0 0 0 0 0 0 0 0 0 0 0 0 0 0 0 0 0 0 0 0 0 0 0 0 0 0 0 0 0 0 0 0 0 0 0 0 0 0 0 0 0 0 0 0 0 0 0 0 0 0 0 0 0 0 0 0 0 0 0 0 0 0 0 0 0 0 0 0 0 0 0 0 0 0 0 0 0 0 0 0 0 0 0 0 0 0 0 0 0 0 0 0 0 0 0 0 0 0 0 0 0 0 0 0 0 0 0 0 0 0 0 0 0 0 0 0 0 0 0 0 0 0 0 0 0 0 0 0 0 0 0 0 0 0 0 0 0 0 0 0 0 0 0 0 0 0 0 0 0 0 0 0 0 0 0 0 0 0 0 0 0 0 0 0 0 0 0 0 0 0 0 0 0 0 0 0 0 0 0 0 0 0 0 0 0 0 0 0 0 0 0 0 0 0 0 0 0 0 0 0 0 0 0 0 0 0 0 0 0 0 0 0 0 0 0 0 0 0 0 0 0 0 0 0\n",
        "X 1 7\n",
    ),
    (
        "R 0\nxxxxxxxxxxxxxxxxxxxxxxxxxxxxxxxxxxxxxxxxxxxxxxxxxxxxxxxxxxxxxxxxxxxxxxxxxxxxxxxxxxxxxxxxxxxxxxxxxxxxxxxxxxxxxxxxxxxxxxxxxxxxxxxxxxxxxxxxxxxxxxxxxxxxxxxxxxxxxxxxxxxxxxxxxxxxxxxxxxxxxxxxxxxxxxxxxxxxxxxxxxxxxxxxxxxxxxxxxxxxxxxxxxxxxxxxxxxxxxxxxxxxxxxxxxxxxxxxxxxxxxxxxxxxxxxxxxxxxxxxxxxxxxxxxxxxxxxxxxxxxxxxxxxxxxxxxxxxxxxxxxxxxxxxxxxxxxxxxxxxxxxxxxxxxxxxxxxxxxxxxxxxxxxxxxxxxxxxxxxxxxxxxxxxxxxxxxxxxxxxxxxxxxxxxxxxxxxxxxxxxxxxxxxxxxxxxxxxxxxxxxxxxxxxxxxxxxxxxxxxxxxxxxxxxxxxxxxxxxxxxxxxxxxxxxxxxxxxxxxxxxxxxxxxxxxx",
        "X 2 7\n",
    ),
    ("I 1\nI 4294967296\n", "X 2 10\n"),
    ("I 7\nR 0\nI 4294967290\nR 0\n", "X 3 10\n"),
    ("R 0", "X 1 8\n"),
    ("R 0\nQ", "X 2 8\n"),
    (
        "xxxxxxxxxxxxxxxxxxxxxxxxxxxxxxxxxxxxxxxxxxxxxxxxxxxxxxxxxxxxxxxxxxxxxxxxxxxxxxxxxxxxxxxxxxxxxxxxxxxxxxxxxxxxxxxxxxxxxxxxxxxxxxxxxxxxxxxxxxxxxxxxxxxxxxxxxxxxxxxxxxxxxxxxxxxxxxxxxxxxxxxxxxxxxxxxxxxxxxxxxxxxxxxxxxxxxxxxxxxxxxxxxxxxxxxxxxxxxxxxxxxxxxxxxxxxxxxxxxxxxxxxxxxxxxxxxxxxxxxxxxxxxxxxxxxxxxxxxxxxxxxxxxxxxxxxxxxxxxxxxxxxxxxxxxxxxxxxxxxxxxxxxxxxxxxxxxxxxxxxxxxxxxxxxxxxxxxxxxxxxxxxxxxxxxxxxxxxxxxxxxxxxxxxxxxxxxxxxxxxxxxxxxxxxxxxxxxxxxxxxxxxxxxxxxxxxxxxxxxxxxxxxxxxxxxxxxxxxxxxxxxxxxxxxxxxxxxxxxxxxxxxxxxxxxx",
        "X 1 8\n",
    ),
];

// The report of a job that is refused.
fn report_of(alloc: Global, job: &[u8]) -> Result<Vec<u8>, Fail> {
    let mut source = PlainSource::new(job.to_vec(alloc)?);
    let mut sink = PlainSink::new(alloc);
    match replay(alloc, &mut source, &mut sink) {
        Status::Refused => Ok(sink.into_bytes()),
        _ => Ok(Vec::new(alloc)),
    }
}

#[test]
fn headers_are_refused(rt: HostRuntime) -> Result<(), Fail> {
    let alloc = rt.alloc();
    for (more, reason) in MORE {
        let job = format!(in alloc; "{HEADER}{more}\n---\nR 0\n")?;
        let want = format!(in alloc; "X 0 {reason}\n")?;
        let report = report_of(alloc, job.as_bytes())?;
        assert_eq!(rt; report.as_slice(), want.as_bytes());
    }
    Ok(())
}

#[test]
fn openings_are_refused(rt: HostRuntime) -> Result<(), Fail> {
    let alloc = rt.alloc();
    for (job, reason) in OPENINGS {
        let want = format!(in alloc; "X 0 {reason}\n")?;
        let report = report_of(alloc, job.as_bytes())?;
        assert_eq!(rt; report.as_slice(), want.as_bytes());
    }
    Ok(())
}

#[test]
fn trace_lines_are_refused(rt: HostRuntime) -> Result<(), Fail> {
    let alloc = rt.alloc();
    for (trace, want) in TRACES {
        let job = format!(in alloc; "{HEADER}---\n{trace}")?;
        let report = report_of(alloc, job.as_bytes())?;
        assert!(rt; report.as_slice().ends_with(want.as_bytes()));
    }
    Ok(())
}

// A job whose header has so many comments of 200 bytes more and one of `last`, and this line behind it.
fn long_job(alloc: Global, comments: usize, last: usize, line: &[u8]) -> Result<Vec<u8>, Fail> {
    let comment = [b'#'; 199];
    let mut job = HEADER.as_bytes().to_vec(alloc)?;
    for _ in 0..comments {
        job.extend_from_slice(&comment)?;
        job.push(b'\n')?;
    }
    for _ in 1..last {
        job.push(b'#')?;
    }
    job.push(b'\n')?;
    job.extend_from_slice(line)?;
    job.extend_from_slice(b"\nR 0")?;
    Ok(job)
}

#[test]
fn headers_have_a_limit(rt: HostRuntime) -> Result<(), Fail> {
    let alloc = rt.alloc();
    let rows: [(usize, usize, &[u8], &[u8]); 4] = [
        (327, 33, b"---", b"X 1 8\n"),
        (327, 33, b"#", b"X 0 17\n"),
        (327, 34, b"---", b"X 0 17\n"),
        (326, 197, b"", b"X 0 16\n"),
    ];
    for (comments, last, line, want) in rows {
        let job = long_job(alloc, comments, last, line)?;
        let report = report_of(alloc, &job)?;
        assert!(rt; report.as_slice().ends_with(want));
    }
    let long = [b'#'; 512];
    let job = long_job(alloc, 0, 1, &long)?;
    let report = report_of(alloc, &job)?;
    assert_eq!(rt; report.as_slice(), b"X 0 17\n".as_slice());
    let job = long_job(alloc, 0, 1, b"# \xff\n---")?;
    let report = report_of(alloc, &job)?;
    assert_eq!(rt; report.as_slice(), b"X 0 11\n".as_slice());
    let job = long_job(alloc, 0, 1, b"[timing]\nnABO = 33\n---")?;
    let report = report_of(alloc, &job)?;
    assert!(rt; report.as_slice().ends_with(b"X 1 8\n"));
    Ok(())
}

// Lines behind so many lines with so many idle clocks, and the reason.
const LIMITS: [(u64, u64, &str, u8); 12] = [
    (1_048_575, 0, "R 0\n", 0),
    (1_048_576, 0, "R 0\n", 9),
    (1_048_576, 0, "Q\n", 9),
    (1_048_576, 0, "R 0", 9),
    (1_048_576, 4_294_967_296, "I 1\n", 9),
    (1_048_576, 0, "", 0),
    (1, 4_294_967_296, "I 0\n", 0),
    (1, 4_294_967_296, "I 1\n", 10),
    (1, 1, "I 4294967295\n", 0),
    (1, 1, "I 4294967296\n", 10),
    (1, 1, "I 4294967297\n", 5),
    (1, 4_294_967_296, "F 0 3 135\n", 0),
];

#[test]
fn traces_have_limits(rt: HostRuntime) -> Result<(), Fail> {
    let alloc = rt.alloc();
    for (lines, clocks, text, want) in LIMITS {
        let mut source = PlainSource::new(text.as_bytes().to_vec(alloc)?);
        let mut reader = LineReader::new();
        let Some(g) = Geometry::new(16, 8) else {
            assert!(rt; false);
            return Ok(());
        };
        let reason = match next_line(Tally { lines, clocks }, g, &mut reader, &mut source) {
            Ok(Next::Refused(reason)) => reason,
            Ok(_) => 0,
            Err(_) => 255,
        };
        assert_eq!(rt; reason, want);
    }
    Ok(())
}
