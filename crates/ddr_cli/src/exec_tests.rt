//! Scripts: what the program writes of them, with four devices and with five, and of the log of a replay with the data of its
//! writes.
use crate::run;
use ddr_io::{MemorySink, MemorySource, Status};
use std::alloc::Global;
use std::test::Fail;

// A header with its separator, the register writes of its log, and the data of a write.
const OPENING: &str =
    "format = 1\nbin = \"tiny\"\nrows = 16\nath = 5\neth = 3\nraaimt = 8\nraammt = 16\nrefresh = \"all\"\necs_every = 0\n---\n";

const REGISTERS: &str =
    "C 0 0805 000f\nC 4 0825 0000\nC 8 0845 0005\nC 12 0865 0003\nC 16 0885 0000\nC 20 08a5 0008\nC 24 08c5 0010\nC 28 08e5 0000\n";

const DATA: &str =
    "11000000000000000000000000000000000000000000000000000000000000000000000000000000000000000000000000000000000000000000000000000000";

// Lines behind the register writes, what is written of them, and the status. `P` is the data.
const ROWS: [(&str, &str, Status); 10] = [
    (
        "C 32 0000 0000\nC 35 002d 0c00\nB P\nF 0 0 0\nC 51 003d 0400\nC 54 000b\nE 55\n",
        "C 32 0000 0000\nC 35 002d 0c00\nF 35 0 0 0\nC 51 003d 0400\nD 13 0 P fixed\nC 54 000b\nS peak 1\nS found 0\nS lost 0\nS worst 0\nE 55\n",
        Status::Ok,
    ),
    // The read comes one clock too soon.
    (
        "C 32 0000 0000\nC 35 002d 0c00\nB P\nF 0 0 0\nC 50 003d 0400\nC 54 000b\nE 55\n",
        "C 32 0000 0000\nC 35 002d 0c00\nF 35 0 0 0\nA broken 13 2\n",
        Status::Broken,
    ),
    // The data of the write is missing.
    (
        "C 32 0000 0000\nC 35 002d 0c00\nF 0 0 0\nC 51 003d 0400\nC 54 000b\nE 55\n",
        "C 32 0000 0000\nC 35 002d 0c00\nX 11 18\n",
        Status::Refused,
    ),
    // A bit is turned before the first command behind the register writes.
    (
        "F 0 0 0\nC 32 0000 0000\nC 35 002d 0c00\nB P\nC 51 003d 0400\nC 54 000b\nE 55\n",
        "F 28 0 0 0\nC 32 0000 0000\nC 35 002d 0c00\nC 51 003d 0400\nD 13 0 P ok\nC 54 000b\nS peak 1\nS found 0\nS lost 0\nS worst 0\nE 55\n",
        Status::Ok,
    ),
    // The script ends with a write.
    (
        "C 32 0000 0000\nC 35 002d 0c00\n",
        "C 32 0000 0000\nC 35 002d 0c00\nX 11 19\n",
        Status::Refused,
    ),
    // Data where none is due.
    ("B P\nE 29\n", "X 9 18\n", Status::Refused),
    // A command behind the end, and what is no line at all.
    ("E 29\nC 32 000b\n", "X 10 18\n", Status::Refused),
    ("E 29\nR 0\n", "X 10 2\n", Status::Refused),
    // The end breaks a rule, and the line behind it is none.
    (
        "C 32 0000 0000\nE 55\nR 0\n",
        "C 32 0000 0000\nA broken 10 14\n",
        Status::Broken,
    ),
    // There is no end.
    ("C 32 000b\n", "C 32 000b\nX 10 19\n", Status::Refused),
];

// Runs the program with these words on these bytes, of which a read gives 32.
fn run_with(alloc: Global, words: &[&str], input: &str) -> Result<(Status, MemorySink), Fail> {
    let mut line = Vec::new(alloc);
    for word in words {
        line.push(String::from_str(alloc, word)?)?;
    }
    let mut source = MemorySource::new(input.as_bytes().to_vec(alloc)?, 32, Vec::new(alloc));
    let mut sink = MemorySink::new(alloc, Vec::new(alloc));
    let status = run(alloc, &line, &mut source, &mut sink);
    Ok((status, sink))
}

// The opening, the register writes, and these lines with the data.
fn opened(alloc: Global, lines: &str) -> Result<String, Fail> {
    let mut text = format!(in alloc; "{OPENING}{REGISTERS}")?;
    for piece in lines.split_inclusive('P') {
        match piece.strip_suffix('P') {
            Some(front) => {
                text.push_str(front)?;
                text.push_str(DATA)?;
            }
            None => text.push_str(piece)?,
        }
    }
    Ok(text)
}

#[test]
fn scripts_are_run(rt: HostRuntime) -> Result<(), Fail> {
    let alloc = rt.alloc();
    for (lines, written, answer) in ROWS {
        let (status, made) = run_with(alloc, &["exec"], &opened(alloc, lines)?)?;
        assert_eq!(rt; status, answer);
        assert_eq!(rt; made.bytes(), opened(alloc, written)?.as_bytes());
    }
    Ok(())
}

#[test]
fn an_end_alone_is_broken(rt: HostRuntime) -> Result<(), Fail> {
    let alloc = rt.alloc();
    let script = format!(in alloc; "{OPENING}E 55\n")?;
    let wanted = format!(in alloc; "{OPENING}A broken 1 14\n")?;
    let (status, made) = run_with(alloc, &["exec"], &script)?;
    assert_eq!(rt; status, Status::Broken);
    assert_eq!(rt; made.bytes(), wanted.as_bytes());
    Ok(())
}

#[test]
fn a_refused_opening_of_a_script_is_told(rt: HostRuntime) -> Result<(), Fail> {
    let (status, made) = run_with(rt.alloc(), &["exec"], "format = 1\n")?;
    assert_eq!(rt; status, Status::Refused);
    assert_eq!(rt; made.bytes(), b"X 0 16\n".as_slice());
    Ok(())
}

// ---- A dead device

// Two bits of device 0 are turned behind a write, and one of the spare.
const TURNED_TWICE: &str =
    "C 32 0000 0000\nC 35 002d 0c00\nB P\nF 0 0 0\nF 0 0 1\nF 0 4 5\nC 51 003d 0400\nC 54 000b\nE 55\n";

// A dead device, and what a read finds there without it. Two turned bits are too many for a codeword, so the data of the write
// come of it only where device 0 is the dead one. Else its part is wrong, and where one is made of the others, that one too.
const DEAD_ROWS: [(&str, &str); 5] = [
    (
        "0",
        "11000000000000000000000000000000000000000000000000000000000000000000000000000000000000000000000000000000000000000000000000000000",
    ),
    (
        "1",
        "10000000000000000000000000000000010000000000000000000000000000000000000000000000000000000000000000000000000000000000000000000000",
    ),
    (
        "2",
        "10000000000000000000000000000000000000000000000000000000000000000100000000000000000000000000000000000000000000000000000000000000",
    ),
    (
        "3",
        "10000000000000000000000000000000000000000000000000000000000000000000000000000000000000000000000001000000000000000000000000000000",
    ),
    (
        "4",
        "10000000000000000000000000000000000000000000000000000000000000000000000000000000000000000000000000000000000000000000000000000000",
    ),
];

#[test]
fn a_dead_device_is_not_read(rt: HostRuntime) -> Result<(), Fail> {
    let alloc = rt.alloc();
    for (dead, found) in DEAD_ROWS {
        let (status, made) = run_with(alloc, &["spare", dead], &opened(alloc, TURNED_TWICE)?)?;
        let wanted = format!(in alloc;
            "{OPENING}{REGISTERS}C 32 0000 0000\nC 35 002d 0c00\nF 35 0 0 0\nF 35 0 0 1\nF 35 0 4 5\nC 51 003d 0400\nD 15 0 {found} fixed\nC 54 000b\nE 55\n"
        )?;
        assert_eq!(rt; status, Status::Ok);
        assert_eq!(rt; made.bytes(), wanted.as_bytes());
    }
    Ok(())
}

// A dead device, lines behind the register writes, what is written of them, and the status.
const SPARE_ROWS: [(&str, &str, &str, Status); 6] = [
    // There are no counts.
    ("4", "E 29\n", "E 29\n", Status::Ok),
    // The spare is device 4, and there is no device 5.
    ("3", "F 0 4 135\nE 29\n", "F 28 0 4 135\nE 29\n", Status::Ok),
    ("3", "F 0 5 0\nE 29\n", "X 9 5\n", Status::Refused),
    // The read comes one clock too soon.
    (
        "2",
        "C 32 0000 0000\nC 35 002d 0c00\nB P\nF 0 4 0\nC 50 003d 0400\nC 54 000b\nE 55\n",
        "C 32 0000 0000\nC 35 002d 0c00\nF 35 0 4 0\nA broken 13 2\n",
        Status::Broken,
    ),
    // The data of the write is missing.
    (
        "1",
        "C 32 0000 0000\nC 35 002d 0c00\nF 0 0 0\n",
        "C 32 0000 0000\nC 35 002d 0c00\nX 11 18\n",
        Status::Refused,
    ),
    // There is no end.
    ("0", "C 32 000b\n", "C 32 000b\nX 10 19\n", Status::Refused),
];

#[test]
fn scripts_are_run_with_a_dead_device(rt: HostRuntime) -> Result<(), Fail> {
    let alloc = rt.alloc();
    for (dead, lines, written, answer) in SPARE_ROWS {
        let (status, made) = run_with(alloc, &["spare", dead], &opened(alloc, lines)?)?;
        assert_eq!(rt; status, answer);
        assert_eq!(rt; made.bytes(), opened(alloc, written)?.as_bytes());
    }
    Ok(())
}

#[test]
fn a_refused_opening_of_a_script_is_told_with_a_dead_device(rt: HostRuntime) -> Result<(), Fail> {
    let (status, made) = run_with(rt.alloc(), &["spare", "0"], "format = 1\n")?;
    assert_eq!(rt; status, Status::Refused);
    assert_eq!(rt; made.bytes(), b"X 0 16\n".as_slice());
    Ok(())
}

// ---- The log of a replay

// Jobs that write a line once, or twice the same data: with turned bits, with a scrub, and with alerts and 4 groups.
const TURNED: &str =
    "format = 1\nbin = \"tiny\"\nrows = 16\nath = 5\neth = 3\nraaimt = 8\nraammt = 16\nrefresh = \"all\"\necs_every = 0\n---\nW 0 P\nF 0 0 0\nR 0\nF 0 0 5\nF 0 3 9\nR 0\n";

const SCRUBBED: &str =
    "format = 1\nbin = \"tiny\"\nrows = 16\nath = 5\neth = 3\nraaimt = 8\nraammt = 16\nrefresh = \"all\"\necs_every = 1\n---\nW 0 P\nF 0 0 2\nI 2000\nF 0 0 4\nI 500\nR 0\n";

const ALERTED: &str =
    "format = 1\nbin = \"tiny\"\nrows = 2\nath = 5\neth = 5\nraaimt = 16\nraammt = 32\nrefresh = \"all\"\necs_every = 0\n--- 2 4 4\nW 0 P\nI 0\nR 1024\nI 0\nR 0\nI 0\nR 1024\nI 0\nR 0\nI 0\nR 1024\nI 0\nR 0\nI 0\nR 1024\nI 0\nR 0\nI 0\nR 1024\nI 0\nR 0\n";

// A job of these lines with the data.
fn with_data(alloc: Global, job: &str) -> Result<String, Fail> {
    let mut text = String::new(alloc);
    for line in job.split_inclusive('\n') {
        match line.strip_suffix("P\n") {
            Some(front) => {
                let whole = format!(in alloc; "{front}{DATA}\n")?;
                text.push_str(&whole)?;
            }
            None => text.push_str(line)?,
        }
    }
    Ok(text)
}

// What stands behind the first space.
fn behind(text: &str) -> &str {
    match text.split_once(' ') {
        Some((_, rest)) => rest,
        None => "",
    }
}

// The lines of a script that come of a report: its C, F and E lines, the F lines without their clocks, and the data behind
// each write of bank 0.
fn script_of(alloc: Global, report: &str) -> Result<String, Fail> {
    let mut script = String::new(alloc);
    let (header, lines) = report.split_once("\nC 0 ").unwrap_or(("", ""));
    let front = format!(in alloc; "{header}\nC 0 ")?;
    script.push_str(&front)?;
    for line in lines.lines() {
        let rest = behind(line);
        let more = if line.starts_with("F ") {
            format!(in alloc; "F {}\n", behind(rest))?
        } else if behind(rest).starts_with("002d ") {
            format!(in alloc; "{line}\nB {DATA}\n")?
        } else if line.starts_with("D ") || line.starts_with("S ") {
            String::new(alloc)
        } else {
            format!(in alloc; "{line}\n")?
        };
        script.push_str(&more)?;
    }
    Ok(script)
}

// What a replay and `exec` both tell by a line: an answer without its number, the peak, a count of the scrub, the end.
fn told(line: &str) -> &str {
    if line.starts_with("D ") {
        return behind(behind(line));
    }
    for name in ["S peak ", "S found ", "S lost ", "S worst ", "E "] {
        if line.starts_with(name) {
            return line;
        }
    }
    ""
}

// All that is told.
fn all_told(alloc: Global, report: &[u8]) -> Result<String, Fail> {
    let mut text = String::new(alloc);
    for line in str::from_utf8(report).unwrap_or("").lines() {
        let piece = told(line);
        text.push_str(piece)?;
        if !piece.is_empty() {
            text.push('\n')?;
        }
    }
    Ok(text)
}

#[test]
fn a_replayed_log_is_a_script(rt: HostRuntime) -> Result<(), Fail> {
    let alloc = rt.alloc();
    for (job, last) in [
        (TURNED, "S worst 0\nE 65\n"),
        (SCRUBBED, "S worst 1\nE 2543\n"),
        (ALERTED, "S worst 0\nE 181\n"),
    ] {
        let (status, report) = run_with(alloc, &["replay"], &with_data(alloc, job)?)?;
        assert_eq!(rt; status, Status::Ok);
        let script = script_of(alloc, str::from_utf8(report.bytes()).unwrap_or(""))?;
        let (status, made) = run_with(alloc, &["exec"], &script)?;
        assert_eq!(rt; status, Status::Ok);
        let wanted = all_told(alloc, report.bytes())?;
        assert_eq!(rt; all_told(alloc, made.bytes())?, wanted);
        assert!(rt; wanted.ends_with(last));
    }
    Ok(())
}
