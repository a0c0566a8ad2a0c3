//! Four ports: what the program writes for whole jobs whose lines are those of ports.
use crate::run;
use ddr_io::{MemorySink, MemorySource, Status};
use std::alloc::Global;
use std::test::Fail;

// A header with its separator.
const OPENING: &str =
    "format = 1\nbin = \"tiny\"\nrows = 16\nath = 5\neth = 3\nraaimt = 8\nraammt = 16\nrefresh = \"all\"\necs_every = 0\n---\n";

// Lines of ports, the job that is merged of them where a barrier stands behind every two requests, and what answers it.
const ROWS: [(&str, &str, Status); 2] = [
    (
        "0 R 0\n0 R 2048\n0 R 0\n1 R 1\n",
        "R 0\nR 1\nI 0\nR 2048\nR 0\n",
        Status::Ok,
    ),
    (
        "0 R 0\n0 R 2048\n4 R 0\n1 R 1\n",
        "R 0\nR 2048\n\n",
        Status::Refused,
    ),
];

// Runs the program with these words on these bytes, of which a read gives 32. The read of this number fails, from 1; 0 is
// none.
fn run_with(
    alloc: Global,
    words: &[&str],
    input: &str,
    fails: u64,
) -> Result<(Status, MemorySink), Fail> {
    let mut line = Vec::new(alloc);
    for word in words {
        line.push(String::from_str(alloc, word)?)?;
    }
    let reads = Vec::from_array(alloc, [fails])?;
    let mut source = MemorySource::new(input.as_bytes().to_vec(alloc)?, 32, reads);
    let mut sink = MemorySink::new(alloc, Vec::new(alloc));
    let status = run(alloc, &line, &mut source, &mut sink);
    Ok((status, sink))
}

#[test]
fn ports_are_merged_and_served(rt: HostRuntime) -> Result<(), Fail> {
    let alloc = rt.alloc();
    for (lines, merged, answer) in ROWS {
        let input = format!(in alloc; "{OPENING}{lines}")?;
        let want = format!(in alloc; "{OPENING}{merged}")?;
        let (status, job) = run_with(alloc, &["merge", "2"], &input, 0)?;
        assert_eq!(rt; status, Status::Ok);
        assert_eq!(rt; job.bytes(), want.as_bytes());
        let (status, report) = run_with(alloc, &["ports", "2"], &input, 0)?;
        assert_eq!(rt; status, answer);
        let (_, replayed) = run_with(alloc, &["replay"], &want, 0)?;
        assert_eq!(rt; report.bytes(), replayed.bytes());
    }
    Ok(())
}

// A line of the answers, with the number of the read and its line of memory, which nobody wrote.
fn answer_of(alloc: Global, number: u32, line: u32) -> Result<String, Fail> {
    let mut text = format!(in alloc; "D {number} {line} ")?;
    for _ in 0..64 {
        text.push_str("00")?;
    }
    text.push_str(" ok\n")?;
    Ok(text)
}

#[test]
fn answers_have_the_numbers_of_the_merged_job(rt: HostRuntime) -> Result<(), Fail> {
    let alloc = rt.alloc();
    let (lines, _, _) = ROWS[0];
    let input = format!(in alloc; "{OPENING}{lines}")?;
    let (_, report) = run_with(alloc, &["ports", "2"], &input, 0)?;
    let mut answers = String::new(alloc);
    for line in report.bytes().split_inclusive(|byte| *byte == b'\n') {
        if line.starts_with(b"D ") {
            answers.push_str(str::from_utf8(line).unwrap_or("?"))?;
        }
    }
    let mut wanted = String::new(alloc);
    for (number, line) in [(1, 0), (2, 1), (4, 2048), (5, 0)] {
        wanted.push_str(&answer_of(alloc, number, line)?)?;
    }
    assert_eq!(rt; answers, wanted);
    Ok(())
}

// The lines of a made job as those of ports that the seed draws.
fn drawn_ports(alloc: Global, seed: u32) -> Result<String, Fail> {
    let words = format!(in alloc; "{seed}")?;
    let (_, made) = run_with(alloc, &["gen", &words, "40"], "", 0)?;
    let job = str::from_utf8(made.bytes()).unwrap_or("");
    let (header, trace) = job.split_once("---\n").unwrap_or(("", ""));
    let mut lines = format!(in alloc; "{header}---\n")?;
    let mut state = seed;
    for line in trace.lines() {
        state = state.wrapping_mul(1664525).wrapping_add(1013904223);
        let port = (state >> 24) % 4;
        let more = format!(in alloc; "{port} {line}\n")?;
        lines.push_str(&more)?;
    }
    Ok(lines)
}

#[test]
fn ports_are_a_replay_of_what_is_merged(rt: HostRuntime) -> Result<(), Fail> {
    let alloc = rt.alloc();
    for seed in 1..7 {
        let lines = drawn_ports(alloc, seed)?;
        for cap in ["1", "3", "32"] {
            let (_, job) = run_with(alloc, &["merge", cap], &lines, 0)?;
            let merged = str::from_utf8(job.bytes()).unwrap_or("");
            let (wanted, replayed) = run_with(alloc, &["replay"], merged, 0)?;
            let (status, report) = run_with(alloc, &["ports", cap], &lines, 0)?;
            assert_eq!(rt; status, wanted);
            assert_eq!(rt; report.bytes(), replayed.bytes());
        }
    }
    Ok(())
}

#[test]
fn a_bad_line_has_its_number_in_the_merged_job(rt: HostRuntime) -> Result<(), Fail> {
    let alloc = rt.alloc();
    let (lines, _, _) = ROWS[1];
    let input = format!(in alloc; "{OPENING}{lines}")?;
    let (_, report) = run_with(alloc, &["ports", "2"], &input, 0)?;
    assert!(rt; report.bytes().ends_with(b"\nX 3 1\n"));
    Ok(())
}

#[test]
fn the_third_read_of_ports_fails(rt: HostRuntime) -> Result<(), Fail> {
    let alloc = rt.alloc();
    let (lines, _, _) = ROWS[0];
    let input = format!(in alloc; "{OPENING}{lines}")?;
    for word in ["merge", "ports"] {
        let (status, begun) = run_with(alloc, &[word, "2"], &input, 3)?;
        assert_eq!(rt; status, Status::ReadFault);
        assert_eq!(rt; begun.bytes(), b"".as_slice());
    }
    Ok(())
}

#[test]
fn a_refused_opening_of_ports_is_told(rt: HostRuntime) -> Result<(), Fail> {
    let alloc = rt.alloc();
    for word in ["merge", "ports"] {
        let (status, line) = run_with(alloc, &[word, "32"], "format = 1\n0 R 0\n", 0)?;
        assert_eq!(rt; status, Status::Refused);
        assert_eq!(rt; line.bytes(), b"X 0 16\n".as_slice());
    }
    Ok(())
}
