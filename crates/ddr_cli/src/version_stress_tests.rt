//! Hostile jobs of version 2 at the edge of a header's checks: 4 groups, and cycles of 2, 3 and 5. Each raises alerts, is
//! served as plain memory serves it, and its report is audited.
use crate::run;
use ddr_io::{PlainSink, PlainSource, Status};
use std::alloc::Global;
use std::process::Abort;
use std::test::Fail;

// With a cycle of A the least ATH is A + 1, and the alert window is below `4 + 10 * (A - 1)` clocks. The refresh interval
// is the least that the checks allow with it: half of the window and 1,253 clocks.
const TWO_ALL: &str =
    "format = 1\nbin = \"tiny\"\nrows = 2\nath = 3\neth = 3\nraaimt = 32\nraammt = 64\nrefresh = \"all\"\necs_every = 1\n[timing]\nnREFI = 633\nnABO = 13\n--- 2 2 4\n";

const TWO_SAME: &str =
    "format = 1\nbin = \"tiny\"\nrows = 2\nath = 3\neth = 3\nraaimt = 32\nraammt = 64\nrefresh = \"same\"\necs_every = 1\n[timing]\nnREFI = 633\nnABO = 13\n--- 2 2 4\n";

const THREE_ALL: &str =
    "format = 1\nbin = \"tiny\"\nrows = 2\nath = 4\neth = 4\nraaimt = 32\nraammt = 64\nrefresh = \"all\"\necs_every = 1\n[timing]\nnREFI = 638\nnABO = 23\n--- 2 3 4\n";

const THREE_SAME: &str =
    "format = 1\nbin = \"tiny\"\nrows = 2\nath = 4\neth = 4\nraaimt = 32\nraammt = 64\nrefresh = \"same\"\necs_every = 1\n[timing]\nnREFI = 638\nnABO = 23\n--- 2 3 4\n";

const FIVE_ALL: &str =
    "format = 1\nbin = \"tiny\"\nrows = 2\nath = 6\neth = 6\nraaimt = 32\nraammt = 64\nrefresh = \"all\"\necs_every = 1\n[timing]\nnREFI = 648\nnABO = 43\n--- 2 5 4\n";

const FIVE_SAME: &str =
    "format = 1\nbin = \"tiny\"\nrows = 2\nath = 6\neth = 6\nraaimt = 32\nraammt = 64\nrefresh = \"same\"\necs_every = 1\n[timing]\nnREFI = 648\nnABO = 43\n--- 2 5 4\n";

// Reads and writes of two hot rows, in eight banks in turn.
const CROWDED: &str =
    "W 0 10000000000000000000000000000000000000000000000000000000000000000000000000000000000000000000000000000000000000000000000000000080\nR 5\nR 10\nR 15\nW 4 14000000000000000000000000000000000000000000000000000000000000000000000000000000000000000000000000000000000000000000000000000080\nR 9\nR 14\nR 3\nW 1024 18000000000000000000000000000000000000000000000000000000000000000000000000000000000000000000000000000000000000000000000000000080\nR 1029\nR 1034\nR 1039\nW 1028 1c000000000000000000000000000000000000000000000000000000000000000000000000000000000000000000000000000000000000000000000000000080\nR 1033\nR 1038\nR 1027\n";

// The same row by row in two banks: each is closed before the other is opened.
const STEP_BY_STEP: &str =
    "W 0 40000000000000000000000000000000000000000000000000000000000000000000000000000000000000000000000000000000000000000000000000000080\nR 1\nR 1008\nI 0\nR 1024\nR 1025\nR 2032\nI 0\nR 0\nR 1\nR 1008\nI 0\nW 1024 43000000000000000000000000000000000000000000000000000000000000000000000000000000000000000000000000000000000000000000000000000080\nR 1025\nR 2032\nI 0\nR 0\nR 1\nR 1008\nI 0\nR 1024\nR 1025\nR 2032\nI 0\n";

// Several refresh intervals pass.
const PAUSE: &str = "I 3000\n";

// Runs the program with one word on these bytes.
fn run_on(alloc: Global, word: &str, bytes: &[u8]) -> Result<(Status, PlainSink), Fail> {
    let words = vec![in alloc; String::from_str(alloc, word)?]?;
    let mut source = PlainSource::new(bytes.to_vec(alloc)?);
    let mut sink = PlainSink::new(alloc);
    let status = run(alloc, &words, &mut source, &mut sink);
    Ok((status, sink))
}

// The lines twenty times, a pause, and the lines twenty times more.
fn trace_of(alloc: Global, lines: &str) -> Result<Vec<u8>, Fail> {
    let mut trace = Vec::new(alloc);
    for _ in 0..20 {
        trace.extend_from_slice(lines.as_bytes())?;
    }
    trace.extend_from_slice(PAUSE.as_bytes())?;
    for _ in 0..20 {
        trace.extend_from_slice(lines.as_bytes())?;
    }
    Ok(trace)
}

// The bytes that were written to this line last, as digits; zeros where none were.
fn stored<'a>(written: &[(&'a str, &'a str)], line: &str) -> &'a str {
    let mut found = ZEROS;
    for (address, digits) in written {
        if *address == line {
            found = digits;
        }
    }
    found
}

const ZEROS: &str =
    "00000000000000000000000000000000000000000000000000000000000000000000000000000000000000000000000000000000000000000000000000000000";

// The D lines of plain memory: the trace line's number, its line, and the bytes that were written there last.
fn plain_answers(alloc: Global, trace: &str) -> Result<Vec<String>, Fail> {
    let mut answers = Vec::new(alloc);
    let mut written = Vec::new(alloc);
    let mut number: u64 = 0;
    for line in trace.lines() {
        number = number.wrapping_add(1);
        if let Some(write) = line.strip_prefix("W ") {
            if let Some(pair) = write.split_once(' ') {
                written.push(pair)?;
            }
        }
        if let Some(address) = line.strip_prefix("R ") {
            let digits = stored(&written, address);
            answers.push(format!(in alloc; "D {number} {address} {digits} ok")?)?;
        }
    }
    Ok(answers)
}

// The report's D lines are those of plain memory.
fn is_plain(rt: &impl Abort, alloc: Global, trace: &str, report: &str) -> Result<(), Fail> {
    let answers = plain_answers(alloc, trace)?;
    let mut next = 0;
    for line in report.lines() {
        if line.starts_with("D ") {
            let want = answers.get(next).map_or("", |answer| answer.as_str());
            assert_eq!(rt; line, want);
            next = next.wrapping_add(1);
        }
    }
    assert_eq!(rt; next, answers.len());
    Ok(())
}

// The job is served as plain memory serves it, alerts were raised, and the report keeps all rules and is the same twice.
fn is_served(rt: &impl Abort, alloc: Global, header: &str, lines: &str) -> Result<(), Fail> {
    let trace = trace_of(alloc, lines)?;
    let mut job = header.as_bytes().to_vec(alloc)?;
    job.extend_from_slice(&trace)?;
    let (status, report) = run_on(alloc, "replay", &job)?;
    assert_eq!(rt; status, Status::Ok);
    let text = str::from_utf8(report.bytes())?;
    is_plain(rt, alloc, str::from_utf8(&trace)?, text)?;
    assert!(rt; text.contains("\nS alert ") && !text.contains("\nS alert 0\n"));
    let (verdict, line) = run_on(alloc, "audit", report.bytes())?;
    assert_eq!(rt; verdict, Status::Ok);
    assert_eq!(rt; line.bytes(), b"A ok\n".as_slice());
    let (_, again) = run_on(alloc, "replay", &job)?;
    assert!(rt; report.bytes() == again.bytes());
    Ok(())
}

#[test]
fn crowds_are_served_in_four_groups(rt: HostRuntime) -> Result<(), Fail> {
    for header in [
        TWO_ALL, TWO_SAME, THREE_ALL, THREE_SAME, FIVE_ALL, FIVE_SAME,
    ] {
        is_served(&rt, rt.alloc(), header, CROWDED)?;
    }
    Ok(())
}

#[test]
fn hot_rows_are_served_in_four_groups(rt: HostRuntime) -> Result<(), Fail> {
    for header in [
        TWO_ALL, TWO_SAME, THREE_ALL, THREE_SAME, FIVE_ALL, FIVE_SAME,
    ] {
        is_served(&rt, rt.alloc(), header, STEP_BY_STEP)?;
    }
    Ok(())
}

// One clock less between refreshes, and one clock more of the window.
const TOO_SHORT: &str =
    "format = 1\nbin = \"tiny\"\nrows = 2\nath = 3\neth = 3\nraaimt = 32\nraammt = 64\nrefresh = \"same\"\necs_every = 1\n[timing]\nnREFI = 632\nnABO = 13\n--- 2 2 4\n";

const TOO_LATE: &str =
    "format = 1\nbin = \"tiny\"\nrows = 2\nath = 3\neth = 3\nraaimt = 32\nraammt = 64\nrefresh = \"same\"\necs_every = 1\n[timing]\nnREFI = 1000\nnABO = 14\n--- 2 2 4\n";

const TOO_LOW: &str =
    "format = 1\nbin = \"tiny\"\nrows = 2\nath = 5\neth = 5\nraaimt = 32\nraammt = 64\nrefresh = \"same\"\necs_every = 1\n[timing]\nnREFI = 1000\nnABO = 13\n--- 2 5 4\n";

#[test]
fn headers_past_the_edge_are_refused(rt: HostRuntime) -> Result<(), Fail> {
    let rows = [
        (TOO_SHORT, b"X 0 25\n".as_slice()),
        (TOO_LATE, b"X 0 22\n".as_slice()),
        (TOO_LOW, b"X 0 23\n".as_slice()),
    ];
    for (header, line) in rows {
        let (status, report) = run_on(rt.alloc(), "replay", header.as_bytes())?;
        assert_eq!(rt; status, Status::Refused);
        assert_eq!(rt; report.bytes(), line);
    }
    Ok(())
}
