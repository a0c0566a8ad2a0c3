//! Worked rows: lines of ports, and the jobs that are merged of them.
ghost use Rattle.std.specs.Prelude.{◌≤◌};

use crate::{merge, ports};
use ddr_io::{MemorySource, PlainSink, PlainSource, Status};
use std::alloc::Global;
use std::test::Fail;
use trace_replay::replay;

const OPENING: &str =
    "format = 1\nbin = \"tiny\"\nrows = 16\nath = 5\neth = 3\nraaimt = 8\nraammt = 16\nrefresh = \"all\"\necs_every = 0\n---\n";

// Lines of ports, and the lines that are merged of them where a barrier stands behind every two requests.
const ROWS: [(&str, &str); 12] = [
    (
        "0 R 0\n0 R 2048\n0 R 0\n1 R 1\n",
        "R 0\nR 1\nI 0\nR 2048\nR 0\n",
    ),
    // A bad line ends them.
    ("0 R 0\n0 R 2048\n4 R 0\n1 R 1\n", "R 0\nR 2048\n\n"),
    ("0 R 0\n0R 0\n0 R 1\n", "R 0\n\n"),
    ("0 R 0\n\n0 R 1\n", "R 0\n\n"),
    ("0 R 0\n0\n0 R 1\n", "R 0\n\n"),
    ("0 R 0\n0 R 1", "R 0\n\n"),
    ("", ""),
    // Nothing behind the space is a rest.
    ("0 \n3 \n", "\n\n"),
    // Only what begins with R or W is a request.
    (
        "0 R 0\n0 F 0 0 0\n0 W\n0 I 5\n0 Q\n0 R 1\n",
        "R 0\nF 0 0 0\nW\nI 5\nQ\nI 0\nR 1\n",
    ),
    // The search goes on behind the port that was admitted last.
    ("3 R 3\n1 R 1\n3 R 4\n0 R 0\n", "R 0\nR 1\nI 0\nR 3\nR 4\n"),
    ("2 A\n2 B\n2 C\n", "A\nB\nC\n"),
    ("2 A\n1 B\n2 C\n1 D\n", "B\nA\nD\nC\n"),
];

// A job with these lines.
fn job_of(alloc: Global, lines: &str) -> Result<Vec<u8>, Fail> {
    let job = format!(in alloc; "{OPENING}{lines}")?;
    Ok(job.as_bytes().to_vec(alloc)?)
}

// What is merged of a job, with a barrier behind every so many requests, and the answer.
fn merged(alloc: Global, cap: u32, job: Vec<u8>) -> (Status, PlainSink)
    requires { (1 ≤ cap) × (cap ≤ 32) }
{
    let mut sink = PlainSink::new(alloc);
    let status = merge(alloc, cap, &mut PlainSource::new(job), &mut sink);
    (status, sink)
}

// The report of what is merged of a job, and the answer.
fn served(alloc: Global, cap: u32, job: Vec<u8>) -> (Status, PlainSink)
    requires { (1 ≤ cap) × (cap ≤ 32) }
{
    let mut sink = PlainSink::new(alloc);
    let status = ports(alloc, cap, &mut PlainSource::new(job), &mut sink);
    (status, sink)
}

#[test]
fn lines_of_ports_are_merged(rt: HostRuntime) -> Result<(), Fail> {
    let alloc = rt.alloc();
    for (lines, want) in ROWS {
        let (status, sink) = merged(alloc, 2, job_of(alloc, lines)?);
        assert_eq!(rt; status, Status::Ok);
        let job = job_of(alloc, want)?;
        assert_eq!(rt; sink.bytes(), job.as_slice());
    }
    Ok(())
}

#[test]
fn every_request_has_a_barrier(rt: HostRuntime) -> Result<(), Fail> {
    let alloc = rt.alloc();
    let (_, sink) = merged(alloc, 1, job_of(alloc, "0 R 0\n0 F 0 0 0\n0 R 0\n1 W 1\n")?);
    let want = job_of(alloc, "R 0\nI 0\nW 1\nF 0 0 0\nI 0\nR 0\n")?;
    assert_eq!(rt; sink.bytes(), want.as_slice());
    Ok(())
}

// A queue has sixteen places, and a line whose queue is full keeps those behind it waiting.
#[test]
fn filling_stops_at_a_full_queue(rt: HostRuntime) -> Result<(), Fail> {
    let alloc = rt.alloc();
    let mut lines = String::new(alloc);
    let mut want = String::new(alloc);
    for number in 0..18 {
        let line = format!(in alloc; "0 {number}\n")?;
        lines.push_str(&line)?;
        let rest = format!(in alloc; "{number}\n")?;
        want.push_str(&rest)?;
        if number == 1 {
            want.push_str("last\n")?;
        }
    }
    lines.push_str("1 last\n")?;
    let (_, sink) = merged(alloc, 2, job_of(alloc, &lines)?);
    let job = job_of(alloc, &want)?;
    assert_eq!(rt; sink.bytes(), job.as_slice());
    Ok(())
}

// A line has at most 511 bytes.
#[test]
fn lines_have_a_limit(rt: HostRuntime) -> Result<(), Fail> {
    let alloc = rt.alloc();
    for (length, fits) in [(509, true), (510, false)] {
        let mut rest = String::new(alloc);
        for _ in 0..length {
            rest.push('x')?;
        }
        let line = format!(in alloc; "1 {rest}\n")?;
        let (_, sink) = merged(alloc, 2, job_of(alloc, &line)?);
        let want = format!(in alloc; "{OPENING}{rest}\n")?;
        let bad = format!(in alloc; "{OPENING}\n")?;
        assert_eq!(rt;
            sink.bytes(),
            if fits {
                want.as_bytes()
            } else {
                bad.as_bytes()
            }
        );
    }
    Ok(())
}

#[test]
fn openings_are_refused(rt: HostRuntime) -> Result<(), Fail> {
    let alloc = rt.alloc();
    let (status, sink) = merged(alloc, 2, b"format = 1\n0 R 0\n".to_vec(alloc)?);
    assert_eq!(rt; status, Status::Refused);
    assert_eq!(rt; sink.bytes(), b"X 0 16\n".as_slice());
    let (status, sink) = served(alloc, 2, b"format = 1\n0 R 0\n".to_vec(alloc)?);
    assert_eq!(rt; status, Status::Refused);
    assert_eq!(rt; sink.bytes(), b"X 0 16\n".as_slice());
    Ok(())
}

// ---- The merged job is replayed

// Whether a line of the text is this one.
fn has_line(text: &[u8], line: &[u8]) -> bool {
    text.split(|byte| *byte == b'\n').any(|part| part == line)
}

#[test]
fn a_merged_job_is_served(rt: HostRuntime) -> Result<(), Fail> {
    let alloc = rt.alloc();
    let (status, sink) = served(alloc, 2, job_of(alloc, "0 R 0\n0 R 2048\n0 R 0\n1 R 1\n")?);
    assert_eq!(rt; status, Status::Ok);
    let zeros =
        "00000000000000000000000000000000000000000000000000000000000000000000000000000000000000000000000000000000000000000000000000000000";
    for start in ["1 0", "2 1", "4 2048", "5 0"] {
        let line = format!(in alloc; "D {start} {zeros} ok")?;
        assert!(rt; has_line(sink.bytes(), line.as_bytes()));
    }
    Ok(())
}

#[test]
fn a_bad_line_is_refused(rt: HostRuntime) -> Result<(), Fail> {
    let alloc = rt.alloc();
    let (status, sink) = served(alloc, 2, job_of(alloc, "0 R 0\n0 R 2048\n4 R 0\n1 R 1\n")?);
    assert_eq!(rt; status, Status::Refused);
    assert!(rt; sink.bytes().ends_with(b"\nX 3 1\n"));
    Ok(())
}

// Lines that are drawn from a seed: each port asks for lines of its own and of others, some wait, and some turn bits.
fn drawn(alloc: Global, seed: u64) -> Result<Vec<u8>, Fail> {
    let mut job = job_of(alloc, "")?;
    let mut state = seed;
    for _ in 0..150 {
        state = state
            .wrapping_mul(6_364_136_223_846_793_005)
            .wrapping_add(1_442_695_040_888_963_407);
        let port = (state >> 33) % 4;
        let line = (state >> 40) % 300 * 37;
        let text = match (state >> 50) % 16 {
            0 => format!(in alloc; "{port} F {line} 1 {port}\n")?,
            1 => format!(in alloc; "{port} I {line}\n")?,
            _ => format!(in alloc; "{port} R {line}\n")?,
        };
        job.extend_from_slice(text.as_bytes())?;
    }
    Ok(job)
}

// The words `ports` give byte for byte what a replay gives for the merged job.
fn agree(alloc: Global, cap: u32, seed: u64) -> Result<bool, Fail>
    requires { (1 ≤ cap) × (cap ≤ 32) }
{
    let (_, job) = merged(alloc, cap, drawn(alloc, seed)?);
    let mut sink = PlainSink::new(alloc);
    let status = replay(alloc, &mut PlainSource::new(job.into_bytes()), &mut sink);
    let (answer, report) = served(alloc, cap, drawn(alloc, seed)?);
    Ok(answer == status && report.bytes() == sink.bytes() && status == Status::Ok)
}

#[test]
fn ports_are_a_merge_and_a_replay(rt: HostRuntime) -> Result<(), Fail> {
    let alloc = rt.alloc();
    for seed in 0..10 {
        assert!(rt; agree(alloc, 1, seed)?);
        assert!(rt; agree(alloc, 7, seed)?);
        assert!(rt; agree(alloc, 32, seed)?);
    }
    Ok(())
}

// ---- Faults

#[test]
fn the_third_read_fails(rt: HostRuntime) -> Result<(), Fail> {
    let alloc = rt.alloc();
    let job = job_of(alloc, "0 R 0\n0 R 2048\n0 R 0\n1 R 1\n")?;
    let mut source = MemorySource::new(job.clone()?, 32, Vec::from_array(alloc, [3])?);
    let mut sink = PlainSink::new(alloc);
    assert_eq!(rt; merge(alloc, 2, &mut source, &mut sink), Status::ReadFault);
    assert_eq!(rt; sink.bytes(), b"".as_slice());
    let mut source = MemorySource::new(job, 32, Vec::from_array(alloc, [3])?);
    assert_eq!(rt; ports(alloc, 2, &mut source, &mut sink), Status::ReadFault);
    assert_eq!(rt; sink.bytes(), b"".as_slice());
    Ok(())
}
