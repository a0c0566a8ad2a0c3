//! Random jobs for two ranks, at the edge of the checks of a header. The lines of each rank are audited as a report of one rank,
//! both together keep the gaps of the bus, and each read is answered as plain memory answers it.
use crate::run_pair;
use ddr_io::{PlainSink, PlainSource, Status};
use log_auditor::audit;
use rand_core::utils::NextWord;
use rand_pcg::Pcg32;
use std::alloc::Global;
use std::process::Abort;
use std::test::Fail;

// A header, and the first line of the second row.
struct Setting {
    header: &'static str,
    second_row: u32,
}

// The refresh interval is the least that the checks of a header allow, or the least that gives two ranks time; or it is the bin's.
const SETTINGS: [Setting; 8] = [
    Setting {
        header: "format = 1\nbin = \"tiny\"\nrows = 2\nath = 5\neth = 5\nraaimt = 8\nraammt = 8\nrefresh = \"all\"\necs_every = 1\n[timing]\nnREFI = 643\n---\n",
        second_row: 2048,
    },
    Setting {
        header: "format = 1\nbin = \"tiny\"\nrows = 2\nath = 5\neth = 5\nraaimt = 8\nraammt = 8\nrefresh = \"same\"\necs_every = 1\n[timing]\nnREFI = 643\n---\n",
        second_row: 2048,
    },
    Setting {
        header: "format = 1\nbin = \"tiny\"\nrows = 16\nath = 5\neth = 3\nraaimt = 8\nraammt = 16\nrefresh = \"all\"\necs_every = 2\n---\n",
        second_row: 2048,
    },
    Setting {
        header: "format = 1\nbin = \"tiny\"\nrows = 16\nath = 5\neth = 3\nraaimt = 8\nraammt = 16\nrefresh = \"same\"\necs_every = 0\n---\n",
        second_row: 2048,
    },
    Setting {
        header: "format = 1\nbin = \"tiny\"\nrows = 2\nath = 3\neth = 3\nraaimt = 32\nraammt = 64\nrefresh = \"same\"\necs_every = 1\n[timing]\nnREFI = 633\nnABO = 13\n--- 2 2 4\n",
        second_row: 1024,
    },
    Setting {
        header: "format = 1\nbin = \"tiny\"\nrows = 2\nath = 6\neth = 6\nraaimt = 32\nraammt = 64\nrefresh = \"all\"\necs_every = 1\n[timing]\nnREFI = 648\nnABO = 43\n--- 2 5 4\n",
        second_row: 1024,
    },
    Setting {
        header: "format = 1\nbin = \"4800-prac\"\nrows = 2\nath = 5\neth = 5\nraaimt = 8\nraammt = 8\nrefresh = \"all\"\necs_every = 1\n[timing]\nnREFI = 8688\n---\n",
        second_row: 2048,
    },
    Setting {
        header: "format = 1\nbin = \"4800-prac\"\nrows = 2\nath = 5\neth = 5\nraaimt = 8\nraammt = 8\nrefresh = \"same\"\necs_every = 1\n[timing]\nnREFI = 8688\n---\n",
        second_row: 2048,
    },
];

// The digits of 63 bytes.
const ZEROS: &str =
    "000000000000000000000000000000000000000000000000000000000000000000000000000000000000000000000000000000000000000000000000000000";

const UNWRITTEN: &str =
    "00000000000000000000000000000000000000000000000000000000000000000000000000000000000000000000000000000000000000000000000000000000";

// ---- Jobs

// A random trace of so many lines: most of them requests for two rows of two banks of each rank, some of them pauses.
fn trace_of(alloc: Global, seed: u64, count: u32, second_row: u32) -> Result<String, Fail> {
    let mut words = Pcg32::new(seed, 54);
    let mut trace = String::new(alloc);
    for _ in 0..count {
        let rank = words.next_word() % 2;
        let choice = words.next_word() % 16;
        let number = words.next_word();
        let line = (number % 2)
            .wrapping_mul(second_row)
            .wrapping_add(number / 2 % 2);
        let text = if choice == 0 {
            let clocks = number % 1500;
            format!(in alloc; "{rank} I {clocks}\n")?
        } else if choice < 4 {
            let first = (number / 4 % 90).wrapping_add(10);
            format!(in alloc; "{rank} W {line} {first}{ZEROS}\n")?
        } else {
            format!(in alloc; "{rank} R {line}\n")?
        };
        trace.push_str(&text)?;
    }
    Ok(trace)
}

// ---- Each rank alone

// The lines of one rank without their digits, behind the header.
fn lines_of(alloc: Global, header: &str, lines: &str, digit: &str) -> Result<Vec<u8>, Fail> {
    let mut bytes = header.as_bytes().to_vec(alloc)?;
    for line in lines.lines() {
        if let Some(text) = line.strip_prefix(digit) {
            bytes.extend_from_slice(text.as_bytes())?;
            bytes.push(b'\n')?;
        }
    }
    Ok(bytes)
}

// They are a report that keeps all rules.
fn is_audited(rt: &impl Abort, alloc: Global, report: Vec<u8>) {
    let mut sink = PlainSink::new(alloc);
    assert_eq!(rt;
        audit(alloc, &mut PlainSource::new(report), &mut sink),
        Status::Ok
    );
    assert_eq!(rt; sink.bytes(), b"A ok\n".as_slice());
}

// ---- Memory

// The digits that were written last of these to this line; zeros where none were.
fn stored<'a>(written: &[(&'a str, &'a str)], line: &str) -> &'a str {
    let mut found = UNWRITTEN;
    for (address, digits) in written {
        if *address == line {
            found = digits;
        }
    }
    found
}

// The D lines of plain memory for one rank, whose lines begin so.
fn plain_answers(alloc: Global, trace: &str, write: &str, read: &str) -> Result<Vec<String>, Fail> {
    let mut answers = Vec::new(alloc);
    let mut written = Vec::new(alloc);
    let mut number: u64 = 0;
    for line in trace.lines() {
        number = number.wrapping_add(1);
        if let Some(rest) = line.strip_prefix(write) {
            if let Some(pair) = rest.split_once(' ') {
                written.push(pair)?;
            }
        }
        if let Some(address) = line.strip_prefix(read) {
            let digits = stored(&written, address);
            answers.push(format!(in alloc; "{number} {address} {digits} ok")?)?;
        }
    }
    Ok(answers)
}

// The D lines of one rank, which begin so, are those.
fn is_plain(rt: &impl Abort, lines: &str, value: &str, answers: &[String]) {
    let mut next = 0;
    for line in lines.lines() {
        if let Some(text) = line.strip_prefix(value) {
            let want = answers.get(next).map_or("", |answer| answer.as_str());
            assert_eq!(rt; text, want);
            next = next.wrapping_add(1);
        }
    }
    assert_eq!(rt; next, answers.len());
}

// ---- Both together

// The clock of a C line, and its first and second word.
#[derive(Drop)]
struct Issued<'a> {
    clock: u64,
    first: &'a str,
    has_two_words: bool,
}

// What a C line says behind its clock's letter.
fn issued_of(text: &str) -> Result<Issued<'_>, Fail> {
    let (clock, words) = text.split_once(' ').unwrap_or((text, ""));
    let (first, second) = words.split_once(' ').unwrap_or((words, ""));
    Ok(Issued {
        clock: clock.parse()?,
        first,
        has_two_words: !second.is_empty(),
    })
}

// Before which clocks the other rank may issue nothing, no RD and no WR.
#[derive(Clone, Copy)]
struct Blocked {
    any: u64,
    read: u64,
    write: u64,
}

// What a command blocks for the other rank. The first words of all RDs end with `d` behind an odd digit.
fn blocked_behind(blocked: Blocked, it: &Issued) -> Blocked {
    let words: u64 = if it.has_two_words { 2 } else { 1 };
    let next = Blocked {
        any: it.clock.saturating_add(words),
        read: blocked.read,
        write: blocked.write,
    };
    if is_read(it.first) {
        Blocked {
            any: next.any,
            read: it.clock.saturating_add(10),
            write: it.clock.saturating_add(12),
        }
    } else if is_write(it.first) {
        Blocked {
            any: next.any,
            read: it.clock.saturating_add(8),
            write: it.clock.saturating_add(10),
        }
    } else {
        next
    }
}

fn is_read(first: &str) -> bool {
    first.ends_with("3d") || first.ends_with("7d") || first.ends_with("bd") || first.ends_with("fd")
}

fn is_write(first: &str) -> bool {
    first.ends_with("2d") || first.ends_with("6d") || first.ends_with("ad") || first.ends_with("ed")
}

// The command comes when nothing of the other rank blocks it.
fn is_free(rt: &impl Abort, blocked: Blocked, it: &Issued) {
    assert!(rt; blocked.any <= it.clock);
    assert!(rt; !is_read(it.first) || blocked.read <= it.clock);
    assert!(rt; !is_write(it.first) || blocked.write <= it.clock);
}

// The clocks of all C lines rise, and no command comes too close behind one of the other rank.
fn share_the_bus(rt: &impl Abort, lines: &str) -> Result<(), Fail> {
    let mut by_zero = Blocked {
        any: 0,
        read: 0,
        write: 0,
    };
    let mut by_one = by_zero;
    let mut next: u64 = 0;
    for line in lines.lines() {
        if let Some(text) = line.strip_prefix("0 C ") {
            let it = issued_of(text)?;
            assert!(rt; next <= it.clock);
            is_free(rt, by_one, &it);
            by_zero = blocked_behind(by_zero, &it);
            next = it.clock.saturating_add(1);
        }
        if let Some(text) = line.strip_prefix("1 C ") {
            let it = issued_of(text)?;
            assert!(rt; next <= it.clock);
            is_free(rt, by_zero, &it);
            by_one = blocked_behind(by_one, &it);
            next = it.clock.saturating_add(1);
        }
    }
    Ok(())
}

// ---- Runs

// A random job is served.
fn is_served(rt: &impl Abort, alloc: Global, it: &Setting, seed: u64) -> Result<(), Fail> {
    let header = it.header;
    let trace = trace_of(alloc, seed, 250, it.second_row)?;
    let job = format!(in alloc; "{header}{trace}")?;
    let mut source = PlainSource::new(job.as_bytes().to_vec(alloc)?);
    let mut sink = PlainSink::new(alloc);
    assert_eq!(rt; run_pair(alloc, &mut source, &mut sink), Status::Ok);
    let report = str::from_utf8(sink.bytes())?;
    let lines = report.strip_prefix(header).unwrap_or("");
    share_the_bus(rt, lines)?;
    is_audited(rt, alloc, lines_of(alloc, header, lines, "0 ")?);
    is_audited(rt, alloc, lines_of(alloc, header, lines, "1 ")?);
    is_plain(
        rt,
        lines,
        "0 D ",
        &plain_answers(alloc, &trace, "0 W ", "0 R ")?,
    );
    is_plain(
        rt,
        lines,
        "1 D ",
        &plain_answers(alloc, &trace, "1 W ", "1 R ")?,
    );
    Ok(())
}

#[test]
fn random_jobs_keep_all_rules(rt: HostRuntime) -> Result<(), Fail> {
    for it in &SETTINGS {
        for seed in 1..4 {
            is_served(&rt, rt.alloc(), it, seed)?;
        }
    }
    Ok(())
}
