//! Faults in turn: each cut of a job, each read that fails and each write that fails, word by word.
use crate::run;
use ddr_io::{MemorySink, MemorySource, Status};
use std::alloc::Global;
use std::process::Abort;
use std::test::Fail;

// A read gives at most so many bytes.
const STEP: usize = 32;

// A header with its separator, the register writes of its report, and a trace of two lines.
const OPENING: &str =
    "format = 1\nbin = \"tiny\"\nrows = 16\nath = 5\neth = 3\nraaimt = 8\nraammt = 16\nrefresh = \"all\"\necs_every = 0\n---\n";

const REGISTERS: &str =
    "C 0 0805 000f\nC 4 0825 0000\nC 8 0845 0005\nC 12 0865 0003\nC 16 0885 0000\nC 20 08a5 0008\nC 24 08c5 0010\nC 28 08e5 0000\n";

const TRACE: &str =
    "W 0 11000000000000000000000000000000000000000000000000000000000000000000000000000000000000000000000000000000000000000000000000000000\nR 0\n";

const NOTHING: &str =
    "S act 0\nS rd 0\nS wr 0\nS pre 0\nS refab 0\nS refsb 0\nS rfmab 0\nS rfmsb 0\nS ecs 0\nS alert 0\nS peak 0\nS found 0\nS lost 0\nS worst 0\nE 29\n";

const WRITTEN: &str =
    "C 32 0000 0000\nC 35 002d 0c00\nC 52 000b\nS act 1\nS rd 0\nS wr 1\nS pre 1\nS refab 0\nS refsb 0\nS rfmab 0\nS rfmsb 0\nS ecs 0\nS alert 0\nS peak 1\nS found 0\nS lost 0\nS worst 0\nE 53\n";

const READ: &str =
    "C 32 0000 0000\nC 35 002d 0c00\nC 51 003d 0400\nD 2 0 11000000000000000000000000000000000000000000000000000000000000000000000000000000000000000000000000000000000000000000000000000000 ok\nC 54 000b\nS act 1\nS rd 1\nS wr 1\nS pre 1\nS refab 0\nS refsb 0\nS rfmab 0\nS rfmsb 0\nS ecs 0\nS alert 0\nS peak 1\nS found 0\nS lost 0\nS worst 0\nE 55\n";

// Runs the program with these words on these bytes. The read and the write of these numbers fail, from 1; 0 is none.
fn run_with(
    alloc: Global,
    words: &[&str],
    input: &[u8],
    fails: (u64, u64),
) -> Result<(Status, MemorySink), Fail> {
    let mut line = Vec::new(alloc);
    for word in words {
        line.push(String::from_str(alloc, word)?)?;
    }
    let reads = Vec::from_array(alloc, [fails.0])?;
    let writes = Vec::from_array(alloc, [fails.1])?;
    let mut source = MemorySource::new(input.to_vec(alloc)?, STEP, reads);
    let mut sink = MemorySink::new(alloc, writes);
    let status = run(alloc, &line, &mut source, &mut sink);
    Ok((status, sink))
}

fn small_job(alloc: Global) -> Result<String, Fail> {
    Ok(format!(in alloc; "{OPENING}{TRACE}")?)
}

// Some hundred requests of several banks and rows, with pauses and turned bits.
fn long_job(alloc: Global) -> Result<String, Fail> {
    let mut job = String::from_str(alloc, OPENING)?;
    for line in 0..30 {
        job.push_str(TRACE)?;
        let more = format!(in alloc; "R {line}\nF {line} 1 7\nR 20{line}\nI 9{line}\n")?;
        job.push_str(&more)?;
    }
    Ok(job)
}

// The job with its trace lines as those of four ports in turn.
fn ports_of(alloc: Global, job: &str) -> Result<String, Fail> {
    let mut lines = String::from_str(alloc, OPENING)?;
    let (_, trace) = job.split_once("---\n").unwrap_or(("", ""));
    for (number, line) in trace.lines().enumerate() {
        let port = number % 4;
        let more = format!(in alloc; "{port} {line}\n")?;
        lines.push_str(&more)?;
    }
    Ok(lines)
}

// The job with its trace lines as those of two ranks in turn.
fn ranks_of(alloc: Global, job: &str) -> Result<String, Fail> {
    let mut lines = String::from_str(alloc, OPENING)?;
    let (_, trace) = job.split_once("---\n").unwrap_or(("", ""));
    for (number, line) in trace.lines().enumerate() {
        let rank = number % 2;
        let more = format!(in alloc; "{rank} {line}\n")?;
        lines.push_str(&more)?;
    }
    Ok(lines)
}

// A script: a line is written, some of its bits are turned, and it is read.
fn small_script(alloc: Global) -> Result<String, Fail> {
    let (_, data) = TRACE.split_once("W 0 ").unwrap_or(("", ""));
    let (data, _) = data.split_once('\n').unwrap_or(("", ""));
    Ok(format!(in alloc;
        "{OPENING}{REGISTERS}C 32 0000 0000\nC 35 002d 0c00\nB {data}\nF 0 0 0\nC 51 003d 0400\nC 54 000b\nE 55\n"
    )?)
}

fn report_of(alloc: Global, job: &[u8]) -> Result<Vec<u8>, Fail> {
    let (_, report) = run_with(alloc, &["replay"], job, (0, 0))?;
    Ok(report.bytes().to_vec(alloc)?)
}

// Whether a line begins with this letter and a space.
fn has_line(bytes: &[u8], letter: u8) -> bool {
    let mut before = [b'\n'; 2];
    for byte in bytes {
        if before == [b'\n', letter] && *byte == b' ' {
            return true;
        }
        before = [before[1], *byte];
    }
    false
}

// ---- Cuts

// What a replay of the job's first bytes, so many, writes behind its opening.
fn ending_of(length: usize) -> (Status, &'static str, &'static str) {
    match length {
        107 => (Status::Ok, NOTHING, ""),
        108..=239 => (Status::Refused, NOTHING, "X 1 8\n"),
        240 => (Status::Ok, WRITTEN, ""),
        241..=243 => (Status::Refused, WRITTEN, "X 2 8\n"),
        _ => (Status::Ok, READ, ""),
    }
}

fn is_served(
    rt: &impl Abort,
    alloc: Global,
    job: &str,
    lengths: (usize, usize),
) -> Result<(), Fail> {
    for length in lengths.0..lengths.1 {
        let cut = job.as_bytes().get(..length).unwrap_or(&[]);
        let (status, report) = run_with(alloc, &["replay"], cut, (0, 0))?;
        let (wanted, lines, refusal) = ending_of(length);
        let text = format!(in alloc; "{OPENING}{REGISTERS}{lines}{refusal}")?;
        assert_eq!(rt; status, wanted);
        assert_eq!(rt; report.bytes(), text.as_bytes());
    }
    Ok(())
}

#[test]
fn a_job_is_cut_in_its_header(rt: HostRuntime) -> Result<(), Fail> {
    for length in 0..107 {
        let cut = OPENING.as_bytes().get(..length).unwrap_or(&[]);
        let (status, report) = run_with(rt.alloc(), &["replay"], cut, (0, 0))?;
        assert_eq!(rt; status, Status::Refused);
        assert_eq!(rt; report.bytes(), b"X 0 16\n".as_slice());
    }
    Ok(())
}

#[test]
fn a_job_is_cut_in_its_trace(rt: HostRuntime) -> Result<(), Fail> {
    let job = small_job(rt.alloc())?;
    assert_eq!(rt; job.len(), 244);
    is_served(&rt, rt.alloc(), &job, (107, 245))
}

// ---- Reads

// Each read fails in turn: the run says so, and whole lines of what it writes undisturbed were written.
fn fails_at_each_read(
    rt: &impl Abort,
    alloc: Global,
    words: &[&str],
    input: &[u8],
) -> Result<(), Fail> {
    let (status, whole) = run_with(alloc, words, input, (0, 0))?;
    for read in 1..2000 {
        let (answer, begun) = run_with(alloc, words, input, (read, 0))?;
        let lines = begun.bytes();
        if answer != Status::ReadFault {
            assert_eq!(rt; answer, status);
            assert_eq!(rt; lines, whole.bytes());
            assert!(rt; input.len() / STEP < read as usize);
            return Ok(());
        }
        assert!(rt; whole.bytes().starts_with(lines));
        assert!(rt; lines.is_empty() || lines.ends_with(b"\n"));
        assert!(rt; words != ["replay"].as_slice() || !has_line(lines, b'E'));
    }
    assert!(rt; false, "more reads than bytes");
    Ok(())
}

#[test]
fn each_read_of_a_small_job_fails(rt: HostRuntime) -> Result<(), Fail> {
    let job = small_job(rt.alloc())?;
    fails_at_each_read(&rt, rt.alloc(), &["replay"], job.as_bytes())?;
    let report = report_of(rt.alloc(), job.as_bytes())?;
    for word in ["audit", "show", "upgrade"] {
        fails_at_each_read(&rt, rt.alloc(), &[word], &report)?;
    }
    Ok(())
}

#[test]
fn each_read_of_a_long_job_fails(rt: HostRuntime) -> Result<(), Fail> {
    let job = long_job(rt.alloc())?;
    fails_at_each_read(&rt, rt.alloc(), &["replay"], job.as_bytes())?;
    let report = report_of(rt.alloc(), job.as_bytes())?;
    for word in ["audit", "show", "upgrade"] {
        fails_at_each_read(&rt, rt.alloc(), &[word], &report)?;
    }
    Ok(())
}

#[test]
fn each_read_of_four_ports_fails(rt: HostRuntime) -> Result<(), Fail> {
    for job in [small_job(rt.alloc())?, long_job(rt.alloc())?] {
        let lines = ports_of(rt.alloc(), &job)?;
        for word in ["merge", "ports"] {
            fails_at_each_read(&rt, rt.alloc(), &[word, "2"], lines.as_bytes())?;
        }
    }
    Ok(())
}

#[test]
fn each_read_of_two_ranks_fails(rt: HostRuntime) -> Result<(), Fail> {
    for job in [small_job(rt.alloc())?, long_job(rt.alloc())?] {
        let lines = ranks_of(rt.alloc(), &job)?;
        fails_at_each_read(&rt, rt.alloc(), &["pair"], lines.as_bytes())?;
    }
    Ok(())
}

#[test]
fn each_read_of_a_script_fails(rt: HostRuntime) -> Result<(), Fail> {
    let script = small_script(rt.alloc())?;
    fails_at_each_read(&rt, rt.alloc(), &["exec"], script.as_bytes())?;
    fails_at_each_read(&rt, rt.alloc(), &["spare", "1"], script.as_bytes())
}

// ---- Writes

// Each write fails in turn: the run says so, and a prefix of what it writes undisturbed was written.
fn fails_at_each_write(
    rt: &impl Abort,
    alloc: Global,
    words: &[&str],
    input: &[u8],
) -> Result<(), Fail> {
    let (status, whole) = run_with(alloc, words, input, (0, 0))?;
    for write in 1..2000 {
        let (answer, begun) = run_with(alloc, words, input, (0, write))?;
        if answer != Status::WriteFault {
            assert_eq!(rt; answer, status);
            assert_eq!(rt; begun.bytes(), whole.bytes());
            assert!(rt; 1 < write);
            return Ok(());
        }
        assert!(rt; whole.bytes().starts_with(begun.bytes()));
        assert!(rt; begun.bytes().len() < whole.bytes().len());
    }
    assert!(rt; false, "more writes than lines");
    Ok(())
}

#[test]
fn each_write_of_a_small_job_fails(rt: HostRuntime) -> Result<(), Fail> {
    let job = small_job(rt.alloc())?;
    fails_at_each_write(&rt, rt.alloc(), &["replay"], job.as_bytes())?;
    let report = report_of(rt.alloc(), job.as_bytes())?;
    for word in ["audit", "show", "upgrade"] {
        fails_at_each_write(&rt, rt.alloc(), &[word], &report)?;
    }
    fails_at_each_write(&rt, rt.alloc(), &["gen", "1", "20"], &[])?;
    fails_at_each_write(&rt, rt.alloc(), &["gen", "run", "1", "5"], &[])
}

#[test]
fn each_write_of_a_long_job_fails(rt: HostRuntime) -> Result<(), Fail> {
    let job = long_job(rt.alloc())?;
    fails_at_each_write(&rt, rt.alloc(), &["replay"], job.as_bytes())?;
    let report = report_of(rt.alloc(), job.as_bytes())?;
    for word in ["audit", "show", "upgrade"] {
        fails_at_each_write(&rt, rt.alloc(), &[word], &report)?;
    }
    Ok(())
}

#[test]
fn each_write_of_four_ports_fails(rt: HostRuntime) -> Result<(), Fail> {
    for job in [small_job(rt.alloc())?, long_job(rt.alloc())?] {
        let lines = ports_of(rt.alloc(), &job)?;
        for word in ["merge", "ports"] {
            fails_at_each_write(&rt, rt.alloc(), &[word, "2"], lines.as_bytes())?;
        }
    }
    Ok(())
}

#[test]
fn each_write_of_two_ranks_fails(rt: HostRuntime) -> Result<(), Fail> {
    for job in [small_job(rt.alloc())?, long_job(rt.alloc())?] {
        let lines = ranks_of(rt.alloc(), &job)?;
        fails_at_each_write(&rt, rt.alloc(), &["pair"], lines.as_bytes())?;
    }
    Ok(())
}

#[test]
fn each_write_of_a_script_fails(rt: HostRuntime) -> Result<(), Fail> {
    let script = small_script(rt.alloc())?;
    fails_at_each_write(&rt, rt.alloc(), &["exec"], script.as_bytes())?;
    fails_at_each_write(&rt, rt.alloc(), &["spare", "1"], script.as_bytes())
}
