//! Whole reports that are audited, with what is written: each line was worked out by hand from the rules.
use crate::audit;
use ddr_io::{PlainSink, PlainSource, Status};
use std::alloc::Global;
use std::process::Abort;
use std::test::Fail;

// The status that goes with the line of an audit.
fn status_of(line: &str) -> Status {
    if line.starts_with("A ok") {
        Status::Ok
    } else if line.starts_with("A broken") {
        Status::Broken
    } else {
        Status::Refused
    }
}

// Audits reports of this opening and these register writes. Of each there is its name in a message, the lines behind its
// register writes, and the line that its audit writes.
fn check(
    rt: &impl Abort,
    alloc: Global,
    (opening, writes): (&str, &str),
    rows: &[(&str, &str, &str)],
) -> Result<(), Fail> {
    for (name, lines, line) in rows {
        let report = format!(in alloc; "{opening}{writes}{lines}")?;
        let mut source = PlainSource::new(report.as_bytes().to_vec(alloc)?);
        let mut sink = PlainSink::new(alloc);
        let status = audit(alloc, &mut source, &mut sink);
        assert_eq!(rt; sink.bytes(), line.as_bytes(), "{name}");
        assert_eq!(rt; status, status_of(line), "{name}");
    }
    Ok(())
}

const PLAIN: &str =
    "format = 1\nbin = \"tiny\"\nrows = 16\nath = 5\neth = 3\nraaimt = 8\nraammt = 16\nrefresh = \"all\"\necs_every = 0\n---\n";

const PLAIN_WRITES: &str =
    "C 0 0805 000f\nC 4 0825 0000\nC 8 0845 0005\nC 12 0865 0003\nC 16 0885 0000\nC 20 08a5 0008\nC 24 08c5 0010\nC 28 08e5 0000\n";

const ROLLING: &str =
    "format = 1\nbin = \"tiny\"\nrows = 16\nath = 100\neth = 50\nraaimt = 8\nraammt = 8\nrefresh = \"all\"\necs_every = 0\n---\n";

const ROLLING_WRITES: &str =
    "C 0 0805 000f\nC 4 0825 0000\nC 8 0845 0064\nC 12 0865 0032\nC 16 0885 0000\nC 20 08a5 0008\nC 24 08c5 0008\nC 28 08e5 0000\n";

const ONE_ROW: &str =
    "format = 1\nbin = \"tiny\"\nrows = 1\nath = 5\neth = 5\nraaimt = 8\nraammt = 16\nrefresh = \"all\"\necs_every = 0\n---\n";

const ONE_ROW_WRITES: &str =
    "C 0 0805 0000\nC 4 0825 0000\nC 8 0845 0005\nC 12 0865 0005\nC 16 0885 0000\nC 20 08a5 0008\nC 24 08c5 0010\nC 28 08e5 0000\n";

const TWO_ROWS: &str =
    "format = 1\nbin = \"tiny\"\nrows = 2\nath = 5\neth = 5\nraaimt = 32\nraammt = 64\nrefresh = \"all\"\necs_every = 0\n---\n";

const TWO_ROWS_WRITES: &str =
    "C 0 0805 0001\nC 4 0825 0000\nC 8 0845 0005\nC 12 0865 0005\nC 16 0885 0000\nC 20 08a5 0020\nC 24 08c5 0040\nC 28 08e5 0000\n";

const SCRUBBED: &str =
    "format = 1\nbin = \"tiny\"\nrows = 16\nath = 5\neth = 3\nraaimt = 8\nraammt = 16\nrefresh = \"all\"\necs_every = 1\n---\n";

const SCRUBBED_WRITES: &str =
    "C 0 0805 000f\nC 4 0825 0000\nC 8 0845 0005\nC 12 0865 0003\nC 16 0885 0000\nC 20 08a5 0008\nC 24 08c5 0010\nC 28 08e5 0001\n";

// Commands too close to each other, and at their gap.
const SPACED: [(&str, &str, &str); 9] = [
    (
        "five activations within the window",
        "C 32 0000 0000\nC 34 0100 0000\nC 36 0200 0000\nC 38 0300 0000\nC 41 0400 0000\nC 48 000b\nE 49\n",
        "A broken 13 3\n",
    ),
    (
        "five activations in time",
        "C 32 0000 0000\nC 34 0100 0000\nC 36 0200 0000\nC 38 0300 0000\nC 42 0400 0000\nC 48 000b\nE 49\n",
        "A ok\n",
    ),
    (
        "a read of another group too soon behind a write",
        "C 32 0000 0000\nC 34 0100 0000\nC 36 002d 0c00\nC 49 013d 0400\nE 50\n",
        "A broken 12 2\n",
    ),
    (
        "the same in time, and banks open at the end",
        "C 32 0000 0000\nC 34 0100 0000\nC 36 002d 0c00\nC 50 013d 0400\nE 51\n",
        "A broken 13 14\n",
    ),
    (
        "a read of the same group too soon",
        "C 32 0000 0000\nC 34 0100 0000\nC 36 002d 0c00\nC 51 003d 0400\nE 52\n",
        "A broken 12 2\n",
    ),
    (
        "the same in time",
        "C 32 0000 0000\nC 34 0100 0000\nC 36 002d 0c00\nC 52 003d 0400\nE 53\n",
        "A broken 13 14\n",
    ),
    (
        "an older write blocks a precharge",
        "C 32 0000 0000\nC 34 0100 0000\nC 36 002d 0c00\nC 50 013d 0400\nC 52 001b\nE 53\n",
        "A broken 13 2\n",
    ),
    (
        "the same in time, and another bank open",
        "C 32 0000 0000\nC 34 0100 0000\nC 36 002d 0c00\nC 50 013d 0400\nC 53 001b\nE 54\n",
        "A broken 14 14\n",
    ),
    (
        "the least of three rules",
        "C 28 003d 0400\nE 60\n",
        "A broken 9 1\n",
    ),
];

#[test]
fn spacing_is_audited(rt: HostRuntime) -> Result<(), Fail> {
    check(&rt, rt.alloc(), (PLAIN, PLAIN_WRITES), &SPACED)
}

// Each rule that one command alone can break.
const BROKEN_RULES: [(&str, &str, &str); 10] = [
    (
        "rule 1: a clock twice",
        "C 28 001f\nE 30\n",
        "A broken 9 1\n",
    ),
    (
        "rule 1: the end at the last clock",
        "E 28\n",
        "A broken 9 1\n",
    ),
    (
        "rule 4: a read of a closed bank",
        "C 32 003d 0400\nE 60\n",
        "A broken 9 4\n",
    ),
    (
        "rule 4: an activation of an open bank",
        "C 32 0000 0000\nC 42 0000 0000\nE 60\n",
        "A broken 10 4\n",
    ),
    (
        "rule 5: a refresh with a bank open",
        "C 32 0000 0000\nC 100 0213\nE 200\n",
        "A broken 10 5\n",
    ),
    (
        "rule 6: a debt of 5",
        "C 5000 001f\nE 5001\n",
        "A broken 9 6\n",
    ),
    (
        "rule 6: a debt of 5 at the end",
        "C 4999 001f\nE 5000\n",
        "A broken 10 6\n",
    ),
    (
        "rule 7: one address twice",
        "C 32 0613\nC 100 0613\nE 200\n",
        "A broken 10 7\n",
    ),
    (
        "rule 8: a scrub where there is none",
        "C 32 018f\nE 60\n",
        "A broken 9 8\n",
    ),
    (
        "rule 14: a ninth write",
        "C 32 0805 000f\nE 40\n",
        "A broken 9 14\n",
    ),
];

#[test]
fn each_rule_is_named(rt: HostRuntime) -> Result<(), Fail> {
    check(&rt, rt.alloc(), (PLAIN, PLAIN_WRITES), &BROKEN_RULES)
}

#[test]
fn the_register_writes_come_first(rt: HostRuntime) -> Result<(), Fail> {
    let rows = [
        (
            "rule 14: a command before the register writes",
            "C 0 001f\nE 40\n",
            "A broken 1 14\n",
        ),
        (
            "rule 14: another value in a register",
            "C 0 0805 0001\nC 4 0825 0000\nC 8 0845 0005\nC 12 0865 0003\nC 16 0885 0000\nC 20 08a5 0008\nC 24 08c5 0010\nC 28 08e5 0000\nE 40\n",
            "A broken 1 14\n",
        ),
        (
            "rule 14: an end without commands",
            "E 0\n",
            "A broken 1 14\n",
        ),
    ];
    check(&rt, rt.alloc(), (PLAIN, ""), &rows)
}

#[test]
fn a_line_that_is_not_well_formed_comes_first(rt: HostRuntime) -> Result<(), Fail> {
    let rows = [
        (
            "the smallest whole report",
            "C 32 0000 0000\nC 35 002d 0c00\nC 51 003d 0400\nD 2 0 11000000000000000000000000000000000000000000000000000000000000000000000000000000000000000000000000000000000000000000000000000000 ok\nC 54 000b\nS act 1\nS rd 1\nS wr 1\nS pre 1\nS refab 0\nS refsb 0\nS rfmab 0\nS rfmsb 0\nS ecs 0\nS alert 0\nS peak 1\nS found 0\nS lost 0\nS worst 0\nE 55\n",
            "A ok\n",
        ),
        (
            "the same without its end",
            "C 32 0000 0000\nC 35 002d 0c00\nC 51 003d 0400\nD 2 0 11000000000000000000000000000000000000000000000000000000000000000000000000000000000000000000000000000000000000000000000000000000 ok\nC 54 000b\nS act 1\nS rd 1\nS wr 1\nS pre 1\nS refab 0\nS refsb 0\nS rfmab 0\nS rfmsb 0\nS ecs 0\nS alert 0\nS peak 1\nS found 0\nS lost 0\nS worst 0\n",
            "X 28 19\n",
        ),
        (
            "words that spell no command",
            "C 32 003d 1400\nC 35 002d 0c00\nC 51 003d 0400\nD 2 0 11000000000000000000000000000000000000000000000000000000000000000000000000000000000000000000000000000000000000000000000000000000 ok\nC 54 000b\nS act 1\nS rd 1\nS wr 1\nS pre 1\nS refab 0\nS refsb 0\nS rfmab 0\nS rfmsb 0\nS ecs 0\nS alert 0\nS peak 1\nS found 0\nS lost 0\nS worst 0\nE 55\n",
            "X 9 34\n",
        ),
        (
            "a malformed line behind a broken rule",
            "C 28 001f\nE 30\nQ\n",
            "X 11 2\n",
        ),
        ("a line behind the end", "E 30\nC 31 001f\n", "X 10 18\n"),
        (
            "a count before a command",
            "S act 0\nC 32 001f\nE 40\n",
            "X 10 18\n",
        ),
        ("a refused line behind the end", "E 30\nX 3 6\n", "A ok\n"),
        ("a leading zero", "C 032 001f\nE 40\n", "X 9 4\n"),
        ("a word in capitals", "C 32 001F\nE 40\n", "X 9 6\n"),
        ("two spaces", "C 32  001f\nE 40\n", "X 9 6\n"),
        ("a last line without its line feed", "E 29", "X 9 8\n"),
    ];
    check(&rt, rt.alloc(), (PLAIN, PLAIN_WRITES), &rows)
}

#[test]
fn rolling_counts_are_audited(rt: HostRuntime) -> Result<(), Fail> {
    let rows = [
        (
            "a ninth activation at a rolling count of 8",
            "C 32 0000 0000\nC 38 001b\nC 42 0004 0000\nC 48 001b\nC 52 0008 0000\nC 58 001b\nC 62 000c 0000\nC 68 001b\nC 72 0010 0000\nC 78 001b\nC 82 0014 0000\nC 88 001b\nC 92 0018 0000\nC 98 001b\nC 102 001c 0000\nC 108 001b\nC 112 0020 0000\nE 113\n",
            "A broken 25 9\n",
        ),
        (
            "an RFMab that nothing wants",
            "C 32 0013\nE 33\n",
            "A broken 9 11\n",
        ),
        (
            "an RFMsb that nothing wants",
            "C 32 0413\nE 33\n",
            "A broken 9 10\n",
        ),
    ];
    check(&rt, rt.alloc(), (ROLLING, ROLLING_WRITES), &rows)
}

#[test]
fn one_row_is_activated_as_often_as_it_may_be(rt: HostRuntime) -> Result<(), Fail> {
    let rows = [
        (
            "one row, tight",
            "C 32 0000 0000\nC 38 001b\nC 42 0000 0000\nC 48 001b\nC 52 0000 0000\nC 58 001b\nC 62 0000 0000\nC 68 001b\nC 72 0000 0000\nC 78 001b\nC 82 0000 0000\nC 88 001b\nC 92 0000 0000\nC 98 001b\nC 102 0000 0000\nC 108 001b\nC 112 0013\nE 113\n",
            "A ok\n",
        ),
        (
            "one row, one activation more",
            "C 32 0000 0000\nC 38 001b\nC 42 0000 0000\nC 48 001b\nC 52 0000 0000\nC 58 001b\nC 62 0000 0000\nC 68 001b\nC 72 0000 0000\nC 78 001b\nC 82 0000 0000\nC 88 001b\nC 92 0000 0000\nC 98 001b\nC 102 0000 0000\nC 108 001b\nC 112 0000 0000\nE 113\n",
            "A broken 25 12\n",
        ),
        (
            "an alert from another bank",
            "C 32 0000 0000\nC 38 001b\nC 42 0000 0000\nC 48 001b\nC 52 0000 0000\nC 58 001b\nC 62 0000 0000\nC 68 001b\nC 72 0000 0000\nC 78 001b\nC 79 0100 0000\nC 85 011b\nC 89 0100 0000\nC 95 011b\nC 99 0100 0000\nC 105 011b\nC 109 0100 0000\nC 115 011b\nC 119 0013\nE 120\n",
            "A ok\n",
        ),
        (
            "another bank, past the window",
            "C 32 0000 0000\nC 38 001b\nC 42 0000 0000\nC 48 001b\nC 52 0000 0000\nC 58 001b\nC 62 0000 0000\nC 68 001b\nC 72 0000 0000\nC 78 001b\nC 79 0100 0000\nC 85 011b\nC 89 0100 0000\nC 95 011b\nC 99 0100 0000\nC 105 011b\nC 111 0100 0000\nC 117 011b\nC 121 0013\nE 122\n",
            "A broken 25 12\n",
        ),
        (
            "rule 13: past the tail of the alert",
            "C 32 0000 0000\nC 38 001b\nC 42 0000 0000\nC 48 001b\nC 52 0000 0000\nC 58 001b\nC 62 0000 0000\nC 68 001b\nC 72 0000 0000\nC 78 001b\nC 679 001f\nC 680 001f\nE 681\n",
            "A broken 20 13\n",
        ),
    ];
    check(&rt, rt.alloc(), (ONE_ROW, ONE_ROW_WRITES), &rows)
}

#[test]
fn two_rows_are_activated_as_often_as_they_may_be(rt: HostRuntime) -> Result<(), Fail> {
    let rows = [
        (
            "two rows, tight",
            "C 32 0000 0000\nC 38 001b\nC 42 0000 0000\nC 48 001b\nC 52 0000 0000\nC 58 001b\nC 62 0000 0000\nC 68 001b\nC 72 0004 0000\nC 78 001b\nC 82 0004 0000\nC 88 001b\nC 92 0004 0000\nC 98 001b\nC 102 0004 0000\nC 108 001b\nC 112 0000 0000\nC 118 001b\nC 122 0004 0000\nC 128 001b\nC 132 0004 0000\nC 138 001b\nC 142 0000 0000\nC 148 001b\nC 152 0013\nC 176 0000 0000\nC 182 001b\nC 186 0000 0000\nC 192 001b\nC 196 0000 0000\nC 202 001b\nC 206 0000 0000\nC 212 001b\nC 216 0013\nE 217\n",
            "A ok\n",
        ),
        (
            "two rows, one activation more",
            "C 32 0000 0000\nC 38 001b\nC 42 0000 0000\nC 48 001b\nC 52 0000 0000\nC 58 001b\nC 62 0000 0000\nC 68 001b\nC 72 0004 0000\nC 78 001b\nC 82 0004 0000\nC 88 001b\nC 92 0004 0000\nC 98 001b\nC 102 0004 0000\nC 108 001b\nC 112 0000 0000\nC 118 001b\nC 122 0004 0000\nC 128 001b\nC 132 0004 0000\nC 138 001b\nC 142 0000 0000\nC 148 001b\nC 152 0013\nC 176 0000 0000\nC 182 001b\nC 186 0000 0000\nC 192 001b\nC 196 0000 0000\nC 202 001b\nC 206 0000 0000\nC 212 001b\nC 216 0000 0000\nE 217\n",
            "A broken 42 12\n",
        ),
    ];
    check(&rt, rt.alloc(), (TWO_ROWS, TWO_ROWS_WRITES), &rows)
}

#[test]
fn scrubs_keep_step_with_refreshes(rt: HostRuntime) -> Result<(), Fail> {
    let rows = [
        (
            "rule 8: a refresh before the scrub that is due",
            "C 32 0213\nC 100 0213\nE 200\n",
            "A broken 10 8\n",
        ),
        (
            "rule 8: the scrub between them",
            "C 32 0213\nC 60 018f\nC 100 0213\nE 200\n",
            "A ok\n",
        ),
    ];
    check(&rt, rt.alloc(), (SCRUBBED, SCRUBBED_WRITES), &rows)
}

#[test]
fn openings_are_refused(rt: HostRuntime) -> Result<(), Fail> {
    let rows = [
        (
            "no line ---",
            "format = 1\nbin = \"tiny\"\nrows = 16\nath = 5\neth = 3\nraaimt = 8\nraammt = 16\nrefresh = \"all\"\necs_every = 0\n",
            "X 0 16\n",
        ),
        (
            "no row",
            "format = 1\nbin = \"tiny\"\nrows = 0\nath = 5\neth = 3\nraaimt = 8\nraammt = 16\nrefresh = \"all\"\necs_every = 0\n---\n",
            "X 0 14\n",
        ),
    ];
    check(&rt, rt.alloc(), ("", ""), &rows)
}
