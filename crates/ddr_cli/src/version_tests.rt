//! Whole jobs and reports of version 2, with what is written: each line was worked out by hand from the rules.
use crate::run;
use ddr_io::{PlainSink, PlainSource, Status};
use std::alloc::Global;
use std::process::Abort;
use std::test::Fail;

// Runs the program with one word on these pieces of bytes, one behind the other.
fn run_on(alloc: Global, word: &str, pieces: &[&str]) -> Result<(Status, PlainSink), Fail> {
    let words = vec![in alloc; String::from_str(alloc, word)?]?;
    let mut bytes = Vec::new(alloc);
    for piece in pieces {
        bytes.extend_from_slice(piece.as_bytes())?;
    }
    let mut source = PlainSource::new(bytes);
    let mut sink = PlainSink::new(alloc);
    let status = run(alloc, &words, &mut source, &mut sink);
    Ok((status, sink))
}

// The program answers these bytes with this status and writes this.
fn answers(
    rt: &impl Abort,
    alloc: Global,
    word: &str,
    bytes: &[&str],
    status: Status,
    want: &[&str],
) -> Result<(), Fail> {
    let (found, sink) = run_on(alloc, word, bytes)?;
    let mut text = Vec::new(alloc);
    for piece in want {
        text.extend_from_slice(piece.as_bytes())?;
    }
    assert_eq!(rt; found, status);
    assert_eq!(rt; sink.bytes(), text.as_slice());
    Ok(())
}

const PLAIN: &str =
    "format = 1\nbin = \"tiny\"\nrows = 16\nath = 5\neth = 3\nraaimt = 8\nraammt = 16\nrefresh = \"all\"\necs_every = 0\n";

const PLAIN_WRITES: &str =
    "C 0 0805 000f\nC 4 0825 0000\nC 8 0845 0005\nC 12 0865 0003\nC 16 0885 0000\nC 20 08a5 0008\nC 24 08c5 0010\nC 28 08e5 0000\n";

// Behind the register writes: one write and one read of line 0.
const WRITE_READ: &str =
    "C 32 0000 0000\nC 35 002d 0c00\nC 51 003d 0400\nD 2 0 11000000000000000000000000000000000000000000000000000000000000000000000000000000000000000000000000000000000000000000000000000000 ok\nC 54 000b\nS act 1\nS rd 1\nS wr 1\nS pre 1\nS refab 0\nS refsb 0\nS rfmab 0\nS rfmsb 0\nS ecs 0\nS alert 0\nS peak 1\nS found 0\nS lost 0\nS worst 0\nE 55\n";

// The read of line 4: with 4 groups it is in group 0 of bank address 1.
const OF_FOUR_GROUPS: &str =
    "C 32 0040 0000\nC 35 007d 0400\nD 1 4 00000000000000000000000000000000000000000000000000000000000000000000000000000000000000000000000000000000000000000000000000000000 ok\nC 38 000b\nS act 1\nS rd 1\nS wr 0\nS pre 1\nS refab 0\nS refsb 0\nS rfmab 0\nS rfmsb 0\nS ecs 0\nS alert 0\nS peak 1\nS found 0\nS lost 0\nS worst 0\nE 39\n";

// With 8 groups it is in group 4 of bank address 0.
const OF_EIGHT_GROUPS: &str =
    "C 32 0400 0000\nC 35 043d 0400\nD 1 4 00000000000000000000000000000000000000000000000000000000000000000000000000000000000000000000000000000000000000000000000000000000 ok\nC 38 000b\nS act 1\nS rd 1\nS wr 0\nS pre 1\nS refab 0\nS refsb 0\nS rfmab 0\nS rfmsb 0\nS ecs 0\nS alert 0\nS peak 1\nS found 0\nS lost 0\nS worst 0\nE 39\n";

#[test]
fn a_line_has_its_bank_by_the_groups(rt: HostRuntime) -> Result<(), Fail> {
    let alloc = rt.alloc();
    let four = [PLAIN, "--- 2 4 4\n", PLAIN_WRITES, OF_FOUR_GROUPS];
    let job = [PLAIN, "--- 2 4 4\nR 4\n"];
    answers(&rt, alloc, "replay", &job, Status::Ok, &four)?;
    answers(&rt, alloc, "audit", &four, Status::Ok, &["A ok\n"])?;
    answers(&rt, alloc, "upgrade", &four, Status::Ok, &four)?;
    for separator in ["---\n", "--- 2 4 8\n"] {
        let eight = [PLAIN, separator, PLAIN_WRITES, OF_EIGHT_GROUPS];
        let job = [PLAIN, separator, "R 4\n"];
        answers(&rt, alloc, "replay", &job, Status::Ok, &eight)?;
        answers(&rt, alloc, "audit", &eight, Status::Ok, &["A ok\n"])?;
    }
    Ok(())
}

#[test]
fn four_groups_are_shown(rt: HostRuntime) -> Result<(), Fail> {
    answers(
        &rt,
        rt.alloc(),
        "show",
        &[PLAIN, "--- 2 4 4\n", PLAIN_WRITES, OF_FOUR_GROUPS],
        Status::Ok,
        &[
            "0 MRW m64 v15\n4 MRW m65 v0\n8 MRW m66 v5\n12 MRW m67 v3\n16 MRW m68 v0\n20 MRW m69 v8\n24 MRW m70 v16\n28 MRW m71 v0\n",
            "32 ACT g0 b1 r0\n35 RD g0 b1 c0\n38 PREAB\n",
        ],
    )
}

#[test]
fn a_group_that_is_not_there_is_refused(rt: HostRuntime) -> Result<(), Fail> {
    let alloc = rt.alloc();
    let lines = [
        // ACT, RD and WR of group 4, a precharge of group 5
        "C 32 0400 0000\nE 60\n",
        "C 32 043d 0400\nE 60\n",
        "C 32 042d 0c00\nE 60\n",
        "C 32 051b\nE 60\n",
    ];
    for line in lines {
        let bytes = [PLAIN, "--- 2 4 4\n", PLAIN_WRITES, line];
        answers(&rt, alloc, "audit", &bytes, Status::Refused, &["X 9 5\n"])?;
        answers(
            &rt,
            alloc,
            "upgrade",
            &bytes,
            Status::Refused,
            &[PLAIN, "--- 2 4 4\n", PLAIN_WRITES, "X 9 5\n"],
        )?;
        let (status, shown) = run_on(alloc, "show", &bytes)?;
        assert_eq!(rt; status, Status::Refused);
        assert!(rt; shown.bytes().ends_with(b"28 MRW m71 v0\nX 9 5\n"));
    }
    Ok(())
}

// Of the speed bin `4800-prac`, with its own alert window of 432 clocks.
const FAST: &str =
    "format = 1\nbin = \"4800-prac\"\nrows = 65536\nath = 64\neth = 32\nraaimt = 32\nraammt = 64\nrefresh = \"all\"\necs_every = 8\n";

const FAST_WRITES: &str =
    "C 0 0805 00ff\nC 34 0825 00ff\nC 68 0845 0040\nC 102 0865 0020\nC 136 0885 0000\nC 170 08a5 0020\nC 204 08c5 0040\nC 238 08e5 0008\n";

#[test]
fn separators_are_judged(rt: HostRuntime) -> Result<(), Fail> {
    let alloc = rt.alloc();
    let rows = [
        (PLAIN, "--- 2 4 6\n", "X 0 29\n"),
        (PLAIN, "--- 2 6 8\n", "X 0 29\n"),
        (PLAIN, "--- 2 1 8\n", "X 0 29\n"),
        (PLAIN, "--- 2 5 8\n", "X 0 23\n"),
        (FAST, "--- 2 3 8\n", "X 0 22\n"),
    ];
    for (header, separator, line) in rows {
        for word in ["replay", "audit", "show", "upgrade"] {
            answers(
                &rt,
                alloc,
                word,
                &[header, separator],
                Status::Refused,
                &[line],
            )?;
        }
    }
    let (status, report) = run_on(alloc, "replay", &[FAST, "--- 2 5 8\n"])?;
    assert_eq!(rt; status, Status::Ok);
    assert!(rt; report.bytes().ends_with(b"S worst 0\nE 239\n"));
    let bytes = [FAST, "--- 2 5 8\n", FAST_WRITES, "E 239\n"];
    answers(&rt, alloc, "audit", &bytes, Status::Ok, &["A ok\n"])
}

#[test]
fn a_report_is_upgraded(rt: HostRuntime) -> Result<(), Fail> {
    let alloc = rt.alloc();
    let old = [PLAIN, "---\n", PLAIN_WRITES, WRITE_READ];
    let new = [PLAIN, "--- 2 4 8\n", PLAIN_WRITES, WRITE_READ];
    answers(&rt, alloc, "upgrade", &old, Status::Ok, &new)?;
    answers(&rt, alloc, "upgrade", &new, Status::Ok, &new)?;
    answers(&rt, alloc, "audit", &old, Status::Ok, &["A ok\n"])?;
    answers(&rt, alloc, "audit", &new, Status::Ok, &["A ok\n"])
}

#[test]
fn a_report_without_its_end_is_upgraded(rt: HostRuntime) -> Result<(), Fail> {
    let lines = WRITE_READ.strip_suffix("E 55\n").unwrap_or("");
    answers(
        &rt,
        rt.alloc(),
        "upgrade",
        &[PLAIN, "---\n", PLAIN_WRITES, lines],
        Status::Refused,
        &[PLAIN, "--- 2 4 8\n", PLAIN_WRITES, lines, "X 28 19\n"],
    )
}

#[test]
fn a_refused_line_ends_what_is_upgraded(rt: HostRuntime) -> Result<(), Fail> {
    let alloc = rt.alloc();
    let rows = [
        ("Q\nE 40\n", "X 9 2\n"),
        ("\n", "X 9 1\n"),
        ("E 40", "X 9 8\n"),
        ("", "X 9 19\n"),
    ];
    for (lines, line) in rows {
        answers(
            &rt,
            alloc,
            "upgrade",
            &[PLAIN, "---\n", PLAIN_WRITES, lines],
            Status::Refused,
            &[PLAIN, "--- 2 4 8\n", PLAIN_WRITES, line],
        )?;
    }
    answers(
        &rt,
        alloc,
        "upgrade",
        &["X 0 29\n"],
        Status::Refused,
        &["X 0 16\n"],
    )
}

// One row, and a cycle of 2: the alert window is below `nRP + nRC`, which is 14.
const TWO_PER_CYCLE: &str =
    "format = 1\nbin = \"tiny\"\nrows = 1\nath = 3\neth = 3\nraaimt = 8\nraammt = 16\nrefresh = \"all\"\necs_every = 0\n[timing]\nnABO = 13\n--- 2 2 8\n";

const TWO_PER_CYCLE_WRITES: &str =
    "C 0 0805 0000\nC 4 0825 0000\nC 8 0845 0003\nC 12 0865 0003\nC 16 0885 0000\nC 20 08a5 0008\nC 24 08c5 0010\nC 28 08e5 0000\n";

// The row is activated and closed four times. The alert is raised at the third precharge.
const FOUR_TIMES: &str =
    "C 32 0000 0000\nC 38 001b\nC 42 0000 0000\nC 48 001b\nC 52 0000 0000\nC 58 001b\nC 62 0000 0000\nC 68 001b\n";

#[test]
fn one_row_is_activated_twice_in_a_cycle(rt: HostRuntime) -> Result<(), Fail> {
    let alloc = rt.alloc();
    let fine = [
        TWO_PER_CYCLE,
        TWO_PER_CYCLE_WRITES,
        FOUR_TIMES,
        "C 72 0013\nE 73\n",
    ];
    answers(&rt, alloc, "audit", &fine, Status::Ok, &["A ok\n"])?;
    let fifth = [
        TWO_PER_CYCLE,
        TWO_PER_CYCLE_WRITES,
        FOUR_TIMES,
        "C 72 0000 0000\nE 73\n",
    ];
    answers(
        &rt,
        alloc,
        "audit",
        &fifth,
        Status::Broken,
        &["A broken 17 12\n"],
    )
}

// Same-bank refreshes, one address after another.
const SAME: &str =
    "format = 1\nbin = \"tiny\"\nrows = 16\nath = 5\neth = 3\nraaimt = 8\nraammt = 16\nrefresh = \"same\"\necs_every = 0\n--- 2 4 4\n";

const SAME_LINES: &str =
    "C 0 0805 000f\nC 4 0825 0000\nC 8 0845 0005\nC 12 0865 0003\nC 16 0885 0040\nC 20 08a5 0008\nC 24 08c5 0010\nC 28 08e5 0000\nC 2000 0613\nC 2001 0653\nC 2002 0693\nC 2003 06d3\nS act 0\nS rd 0\nS wr 0\nS pre 0\nS refab 0\nS refsb 4\nS rfmab 0\nS rfmsb 0\nS ecs 0\nS alert 0\nS peak 0\nS found 0\nS lost 0\nS worst 0\nE 2529\n";

// Two rows of a bank in turn, until the device raises ALERT.
const ALERT: &str =
    "format = 1\nbin = \"tiny\"\nrows = 2\nath = 5\neth = 5\nraaimt = 16\nraammt = 32\nrefresh = \"all\"\necs_every = 0\n--- 2 4 4\n";

const ALERT_READS: &str =
    "R 0\nI 0\nR 1024\nI 0\nR 0\nI 0\nR 1024\nI 0\nR 0\nI 0\nR 1024\nI 0\nR 0\nI 0\nR 1024\nI 0\nR 0\nI 0\nR 1024\nI 0\nR 0\n";

const ALERT_LINES: &str =
    "C 0 0805 0001\nC 4 0825 0000\nC 8 0845 0005\nC 12 0865 0005\nC 16 0885 0000\nC 20 08a5 0010\nC 24 08c5 0020\nC 28 08e5 0000\nC 32 0000 0000\nC 35 003d 0400\nD 1 0 00000000000000000000000000000000000000000000000000000000000000000000000000000000000000000000000000000000000000000000000000000000 ok\nC 38 001b\nC 42 0004 0000\nC 45 003d 0400\nD 3 1024 00000000000000000000000000000000000000000000000000000000000000000000000000000000000000000000000000000000000000000000000000000000 ok\nC 48 001b\nC 52 0000 0000\nC 55 003d 0400\nD 5 0 00000000000000000000000000000000000000000000000000000000000000000000000000000000000000000000000000000000000000000000000000000000 ok\nC 58 001b\nC 62 0004 0000\nC 65 003d 0400\nD 7 1024 00000000000000000000000000000000000000000000000000000000000000000000000000000000000000000000000000000000000000000000000000000000 ok\nC 68 001b\nC 72 0000 0000\nC 75 003d 0400\nD 9 0 00000000000000000000000000000000000000000000000000000000000000000000000000000000000000000000000000000000000000000000000000000000 ok\nC 78 001b\nC 82 0004 0000\nC 85 003d 0400\nD 11 1024 00000000000000000000000000000000000000000000000000000000000000000000000000000000000000000000000000000000000000000000000000000000 ok\nC 88 001b\nC 92 0000 0000\nC 95 003d 0400\nD 13 0 00000000000000000000000000000000000000000000000000000000000000000000000000000000000000000000000000000000000000000000000000000000 ok\nC 98 001b\nC 102 0004 0000\nC 105 003d 0400\nD 15 1024 00000000000000000000000000000000000000000000000000000000000000000000000000000000000000000000000000000000000000000000000000000000 ok\nC 108 001b\nC 112 0000 0000\nC 115 003d 0400\nD 17 0 00000000000000000000000000000000000000000000000000000000000000000000000000000000000000000000000000000000000000000000000000000000 ok\nC 118 001b\nC 122 0004 0000\nC 125 003d 0400\nD 19 1024 00000000000000000000000000000000000000000000000000000000000000000000000000000000000000000000000000000000000000000000000000000000 ok\nC 128 000b\nC 132 0013\nC 156 0000 0000\nC 159 003d 0400\nD 21 0 00000000000000000000000000000000000000000000000000000000000000000000000000000000000000000000000000000000000000000000000000000000 ok\nC 162 000b\nC 166 0013\nS act 11\nS rd 11\nS wr 0\nS pre 11\nS refab 0\nS refsb 0\nS rfmab 2\nS rfmsb 0\nS ecs 0\nS alert 2\nS peak 5\nS found 0\nS lost 0\nS worst 0\nE 167\n";

// The same until the bank's rolling count wants an RFM: a same-bank precharge, and a same-bank RFM.
const ROLLING: &str =
    "format = 1\nbin = \"tiny\"\nrows = 16\nath = 100\neth = 50\nraaimt = 8\nraammt = 16\nrefresh = \"all\"\necs_every = 0\n--- 2 4 4\n";

const ROLLING_READS: &str =
    "R 0\nI 0\nR 1024\nI 0\nR 0\nI 0\nR 1024\nI 0\nR 0\nI 0\nR 1024\nI 0\nR 0\nI 0\nR 1024\nI 0\nR 0\n";

const ROLLING_LINES: &str =
    "C 0 0805 000f\nC 4 0825 0000\nC 8 0845 0064\nC 12 0865 0032\nC 16 0885 0000\nC 20 08a5 0008\nC 24 08c5 0010\nC 28 08e5 0000\nC 32 0000 0000\nC 35 003d 0400\nD 1 0 00000000000000000000000000000000000000000000000000000000000000000000000000000000000000000000000000000000000000000000000000000000 ok\nC 38 001b\nC 42 0004 0000\nC 45 003d 0400\nD 3 1024 00000000000000000000000000000000000000000000000000000000000000000000000000000000000000000000000000000000000000000000000000000000 ok\nC 48 001b\nC 52 0000 0000\nC 55 003d 0400\nD 5 0 00000000000000000000000000000000000000000000000000000000000000000000000000000000000000000000000000000000000000000000000000000000 ok\nC 58 001b\nC 62 0004 0000\nC 65 003d 0400\nD 7 1024 00000000000000000000000000000000000000000000000000000000000000000000000000000000000000000000000000000000000000000000000000000000 ok\nC 68 001b\nC 72 0000 0000\nC 75 003d 0400\nD 9 0 00000000000000000000000000000000000000000000000000000000000000000000000000000000000000000000000000000000000000000000000000000000 ok\nC 78 001b\nC 82 0004 0000\nC 85 003d 0400\nD 11 1024 00000000000000000000000000000000000000000000000000000000000000000000000000000000000000000000000000000000000000000000000000000000 ok\nC 88 001b\nC 92 0000 0000\nC 95 003d 0400\nD 13 0 00000000000000000000000000000000000000000000000000000000000000000000000000000000000000000000000000000000000000000000000000000000 ok\nC 98 001b\nC 102 0004 0000\nC 105 003d 0400\nD 15 1024 00000000000000000000000000000000000000000000000000000000000000000000000000000000000000000000000000000000000000000000000000000000 ok\nC 108 040b\nC 112 0413\nC 128 0000 0000\nC 131 003d 0400\nD 17 0 00000000000000000000000000000000000000000000000000000000000000000000000000000000000000000000000000000000000000000000000000000000 ok\nC 134 000b\n";

#[test]
fn four_groups_are_refreshed_and_mitigated(rt: HostRuntime) -> Result<(), Fail> {
    let alloc = rt.alloc();
    answers(
        &rt,
        alloc,
        "replay",
        &[SAME, "I 2500\n"],
        Status::Ok,
        &[SAME, SAME_LINES],
    )?;
    answers(
        &rt,
        alloc,
        "audit",
        &[SAME, SAME_LINES],
        Status::Ok,
        &["A ok\n"],
    )?;
    answers(
        &rt,
        alloc,
        "replay",
        &[ALERT, ALERT_READS],
        Status::Ok,
        &[ALERT, ALERT_LINES],
    )?;
    answers(
        &rt,
        alloc,
        "audit",
        &[ALERT, ALERT_LINES],
        Status::Ok,
        &["A ok\n"],
    )
}

#[test]
fn a_bank_of_four_groups_is_mitigated(rt: HostRuntime) -> Result<(), Fail> {
    let alloc = rt.alloc();
    let (status, report) = run_on(alloc, "replay", &[ROLLING, ROLLING_READS])?;
    assert_eq!(rt; status, Status::Ok);
    let text = str::from_utf8(report.bytes())?;
    let lines = text.strip_prefix(ROLLING).unwrap_or("");
    let counts = lines.strip_prefix(ROLLING_LINES).unwrap_or("");
    assert!(rt;
        counts.starts_with(
            "S act 9\nS rd 9\nS wr 0\nS pre 9\nS refab 0\nS refsb 0\nS rfmab 0\nS rfmsb 1\n"
        )
    );
    assert!(rt; counts.ends_with("E 135\n"));
    answers(&rt, alloc, "audit", &[text], Status::Ok, &["A ok\n"])
}
