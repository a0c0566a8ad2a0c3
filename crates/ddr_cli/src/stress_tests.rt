//! Hostile jobs at the edge of a header's checks. Each is served whole, its report is audited, and it is the same twice.
use crate::run;
use ddr_io::{PlainSink, PlainSource, Status};
use std::alloc::Global;
use std::process::Abort;
use std::test::Fail;

// The least refresh interval that the checks of `tiny` allow is 643, also with an alert window of 33 clocks.
const SAME: &str =
    "format = 1\nbin = \"tiny\"\nrows = 2\nath = 5\neth = 5\nraaimt = 8\nraammt = 8\nrefresh = \"same\"\necs_every = 1\n[timing]\nnREFI = 643\n---\n";

const SAME_LATER: &str =
    "format = 1\nbin = \"tiny\"\nrows = 2\nath = 5\neth = 5\nraaimt = 8\nraammt = 8\nrefresh = \"same\"\necs_every = 1\n[timing]\nnREFI = 643\nnABO = 33\n---\n";

const ALL: &str =
    "format = 1\nbin = \"tiny\"\nrows = 2\nath = 5\neth = 5\nraaimt = 8\nraammt = 8\nrefresh = \"all\"\necs_every = 1\n[timing]\nnREFI = 643\n---\n";

const ALL_LATER: &str =
    "format = 1\nbin = \"tiny\"\nrows = 2\nath = 5\neth = 5\nraaimt = 8\nraammt = 8\nrefresh = \"all\"\necs_every = 1\n[timing]\nnREFI = 643\nnABO = 33\n---\n";

const TOO_SHORT: &str =
    "format = 1\nbin = \"tiny\"\nrows = 2\nath = 5\neth = 5\nraaimt = 8\nraammt = 8\nrefresh = \"same\"\necs_every = 1\n[timing]\nnREFI = 642\n---\n";

// Reads and writes of two hot rows, in eight banks in turn.
const CROWDED: &str =
    "W 0 01000000000000000000000000000000000000000000000000000000000000000000000000000000000000000000000000000000000000000000000000000080\nR 9\nR 18\nR 27\nW 4 05000000000000000000000000000000000000000000000000000000000000000000000000000000000000000000000000000000000000000000000000000080\nR 13\nR 22\nR 31\nR 2048\nW 2057 0a000000000000000000000000000000000000000000000000000000000000000000000000000000000000000000000000000000000000000000000000000080\nR 2066\nR 2075\nR 2052\nW 2061 0e000000000000000000000000000000000000000000000000000000000000000000000000000000000000000000000000000000000000000000000000000080\nR 2070\nR 2079\n";

// The same group by group, and stored bits of the hot lines are turned.
const STEP_BY_STEP: &str =
    "W 0 41000000000000000000000000000000000000000000000000000000000000000000000000000000000000000000000000000000000000000000000000000080\nR 1\nR 24\nR 2026\nI 0\nR 2048\nW 2049 46000000000000000000000000000000000000000000000000000000000000000000000000000000000000000000000000000000000000000000000000000080\nR 2072\nR 4074\nI 0\nF 0 0 10\nF 2072 3 135\nW 2048 49000000000000000000000000000000000000000000000000000000000000000000000000000000000000000000000000000000000000000000000000000080\nR 2049\nR 2072\nR 4074\nI 0\nR 0\nR 1\nR 24\nW 2026 50000000000000000000000000000000000000000000000000000000000000000000000000000000000000000000000000000000000000000000000000000080\nI 0\nF 2048 1 11\nF 24 3 135\n";

// Several refresh intervals pass.
const PAUSE: &str = "I 3000\n";

// Runs the program with one word on these bytes.
fn run_on(alloc: Global, word: &str, bytes: &[u8]) -> Result<(Status, PlainSink), Fail> {
    let words = vec![in alloc; String::from_str(alloc, word)?]?;
    let mut source = PlainSource::new(bytes.to_vec(alloc)?);
    let mut sink = PlainSink::new(alloc);
    let status = run(alloc, &words, &mut source, &mut sink);
    Ok((status, sink))
}

// The header, the lines twenty times, a pause, and the lines twenty times more.
fn job_of(alloc: Global, header: &str, lines: &str) -> Result<Vec<u8>, Fail> {
    let mut job = Vec::new(alloc);
    job.extend_from_slice(header.as_bytes())?;
    for _ in 0..20 {
        job.extend_from_slice(lines.as_bytes())?;
    }
    job.extend_from_slice(PAUSE.as_bytes())?;
    for _ in 0..20 {
        job.extend_from_slice(lines.as_bytes())?;
    }
    Ok(job)
}

// How many lines begin with this letter.
fn count_of(bytes: &[u8], letter: u8) -> u64 {
    let mut before = b'\n';
    let mut count: u64 = 0;
    for byte in bytes {
        if before == b'\n' && *byte == letter {
            count = count.wrapping_add(1);
        }
        before = *byte;
    }
    count
}

// The job is served: each of its reads is answered, the report keeps all rules, and it is the same twice.
fn is_served(rt: &impl Abort, alloc: Global, header: &str, lines: &str) -> Result<(), Fail> {
    let job = job_of(alloc, header, lines)?;
    let (status, report) = run_on(alloc, "replay", &job)?;
    assert_eq!(rt; status, Status::Ok);
    assert_eq!(rt; count_of(report.bytes(), b'D'), count_of(&job, b'R'));
    assert_eq!(rt; count_of(report.bytes(), b'F'), count_of(&job, b'F'));
    let (verdict, line) = run_on(alloc, "audit", report.bytes())?;
    assert_eq!(rt; verdict, Status::Ok);
    assert_eq!(rt; line.bytes(), b"A ok\n".as_slice());
    let (_, again) = run_on(alloc, "replay", &job)?;
    assert!(rt; report.bytes() == again.bytes());
    Ok(())
}

#[test]
fn crowds_are_served(rt: HostRuntime) -> Result<(), Fail> {
    for header in [SAME, SAME_LATER, ALL, ALL_LATER] {
        is_served(&rt, rt.alloc(), header, CROWDED)?;
    }
    Ok(())
}

#[test]
fn hot_rows_are_served_step_by_step(rt: HostRuntime) -> Result<(), Fail> {
    for header in [SAME, SAME_LATER, ALL, ALL_LATER] {
        is_served(&rt, rt.alloc(), header, STEP_BY_STEP)?;
    }
    Ok(())
}

#[test]
fn a_shorter_interval_is_refused(rt: HostRuntime) -> Result<(), Fail> {
    let job = job_of(rt.alloc(), TOO_SHORT, CROWDED)?;
    let (status, report) = run_on(rt.alloc(), "replay", &job)?;
    assert_eq!(rt; status, Status::Refused);
    assert_eq!(rt; report.bytes(), b"X 0 25\n".as_slice());
    Ok(())
}

const FAST: &str =
    "format = 1\nbin = \"4800-prac\"\nrows = 65536\nath = 64\neth = 32\nraaimt = 32\nraammt = 64\nrefresh = \"all\"\necs_every = 8\n---\nI 1\nI 4294967296\nR 0\n";

const FAST_REPORT: &str =
    "format = 1\nbin = \"4800-prac\"\nrows = 65536\nath = 64\neth = 32\nraaimt = 32\nraammt = 64\nrefresh = \"all\"\necs_every = 8\n---\nC 0 0805 00ff\nC 34 0825 00ff\nC 68 0845 0040\nC 102 0865 0020\nC 136 0885 0000\nC 170 08a5 0020\nC 204 08c5 0040\nC 238 08e5 0008\nS act 0\nS rd 0\nS wr 0\nS pre 0\nS refab 0\nS refsb 0\nS rfmab 0\nS rfmsb 0\nS ecs 0\nS alert 0\nS peak 0\nS found 0\nS lost 0\nS worst 0\nE 240\nX 2 10\n";

#[test]
fn too_many_idle_clocks_are_refused(rt: HostRuntime) -> Result<(), Fail> {
    let (status, report) = run_on(rt.alloc(), "replay", FAST.as_bytes())?;
    assert_eq!(rt; status, Status::Refused);
    assert_eq!(rt; report.bytes(), FAST_REPORT.as_bytes());
    let (verdict, line) = run_on(rt.alloc(), "audit", report.bytes())?;
    assert_eq!(rt; verdict, Status::Ok);
    assert_eq!(rt; line.bytes(), b"A ok\n".as_slice());
    Ok(())
}
