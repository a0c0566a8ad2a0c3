//! Two ranks: what the program writes for whole jobs whose lines have the digit of a rank.
use crate::run;
use ddr_io::{MemorySink, MemorySource, Status};
use std::alloc::Global;
use std::test::Fail;

// A header with its separator, and the register writes of both ranks.
const OPENING: &str =
    "format = 1\nbin = \"tiny\"\nrows = 16\nath = 5\neth = 3\nraaimt = 8\nraammt = 16\nrefresh = \"all\"\necs_every = 0\n---\n";

const REGISTERS: &str =
    "0 C 0 0805 000f\n0 C 4 0825 0000\n0 C 8 0845 0005\n0 C 12 0865 0003\n0 C 16 0885 0000\n0 C 20 08a5 0008\n0 C 24 08c5 0010\n0 C 28 08e5 0000\n1 C 30 0805 000f\n1 C 34 0825 0000\n1 C 38 0845 0005\n1 C 42 0865 0003\n1 C 46 0885 0000\n1 C 50 08a5 0008\n1 C 54 08c5 0010\n1 C 58 08e5 0000\n";

const DATA: &str =
    "11000000000000000000000000000000000000000000000000000000000000000000000000000000000000000000000000000000000000000000000000000000";

const ZEROS: &str =
    "00000000000000000000000000000000000000000000000000000000000000000000000000000000000000000000000000000000000000000000000000000000";

// The eighth read of rank 1 ends just before the clock at which a refresh is due in both ranks.
const LATE: &str =
    "0 I 1860\n1 R 0\n1 R 2048\n1 R 4096\n1 R 6144\n1 R 8192\n1 R 10240\n1 R 12288\n1 R 14336\n";

// Trace lines, and lines of the report behind the register writes. `P` is the data, and `Z` are zeros.
const ROWS: [(&str, &str, Status); 4] = [
    // The other rank's burst keeps the second read waiting.
    (
        "0 W 0 P\n1 R 0\n0 R 0\n",
        "0 C 60 0000 0000\n0 C 63 002d 0c00\n0 C 80 001b\n1 C 81 0000 0000\n1 C 84 003d 0400\n1 D 2 0 Z ok\n1 C 87 001b\n0 C 88 0000 0000\n0 C 94 003d 0400\n0 D 3 0 P ok\n0 C 97 001b\n0 S act 2\n0 S rd 1\n0 S wr 1\n0 S pre 2\n0 S refab 0\n0 S refsb 0\n0 S rfmab 0\n0 S rfmsb 0\n0 S ecs 0\n0 S alert 0\n0 S peak 2\n0 S found 0\n0 S lost 0\n0 S worst 0\n0 E 98\n1 S act 1\n1 S rd 1\n1 S wr 0\n1 S pre 1\n1 S refab 0\n1 S refsb 0\n1 S rfmab 0\n1 S rfmsb 0\n1 S ecs 0\n1 S alert 0\n1 S peak 1\n1 S found 0\n1 S lost 0\n1 S worst 0\n1 E 98\n",
        Status::Ok,
    ),
    // Nothing is asked.
    (
        "",
        "0 S act 0\n0 S rd 0\n0 S wr 0\n0 S pre 0\n0 S refab 0\n0 S refsb 0\n0 S rfmab 0\n0 S rfmsb 0\n0 S ecs 0\n0 S alert 0\n0 S peak 0\n0 S found 0\n0 S lost 0\n0 S worst 0\n0 E 59\n1 S act 0\n1 S rd 0\n1 S wr 0\n1 S pre 0\n1 S refab 0\n1 S refsb 0\n1 S rfmab 0\n1 S rfmsb 0\n1 S ecs 0\n1 S alert 0\n1 S peak 0\n1 S found 0\n1 S lost 0\n1 S worst 0\n1 E 59\n",
        Status::Ok,
    ),
    // There is no such rank.
    (
        "2 R 0\n0 R 0\n",
        "0 S act 0\n0 S rd 0\n0 S wr 0\n0 S pre 0\n0 S refab 0\n0 S refsb 0\n0 S rfmab 0\n0 S rfmsb 0\n0 S ecs 0\n0 S alert 0\n0 S peak 0\n0 S found 0\n0 S lost 0\n0 S worst 0\n0 E 59\n1 S act 0\n1 S rd 0\n1 S wr 0\n1 S pre 0\n1 S refab 0\n1 S refsb 0\n1 S rfmab 0\n1 S rfmsb 0\n1 S ecs 0\n1 S alert 0\n1 S peak 0\n1 S found 0\n1 S lost 0\n1 S worst 0\n1 E 59\nX 1 2\n",
        Status::Refused,
    ),
    // An F line has the clock of its rank's last command.
    (
        "0 R 0\n1 F 0 0 0\n1 R 0\n",
        "0 C 60 0000 0000\n0 C 63 003d 0400\n0 D 1 0 Z ok\n0 C 66 001b\n1 F 58 0 0 0\n1 C 67 0000 0000\n1 C 73 003d 0400\n1 D 3 0 Z fixed\n1 C 76 001b\n0 S act 1\n0 S rd 1\n0 S wr 0\n0 S pre 1\n0 S refab 0\n0 S refsb 0\n0 S rfmab 0\n0 S rfmsb 0\n0 S ecs 0\n0 S alert 0\n0 S peak 1\n0 S found 0\n0 S lost 0\n0 S worst 0\n0 E 77\n1 S act 1\n1 S rd 1\n1 S wr 0\n1 S pre 1\n1 S refab 0\n1 S refsb 0\n1 S rfmab 0\n1 S rfmsb 0\n1 S ecs 0\n1 S alert 0\n1 S peak 1\n1 S found 0\n1 S lost 0\n1 S worst 0\n1 E 77\n",
        Status::Ok,
    ),
];

// Trace lines, and parts of the report that stand in it in this order. `L` are the lines above.
const PARTS: [(&str, &[&str]); 3] = [
    // Five ACTs of one row raise an alert. Rank 1 does not wait for what answers it.
    (
        "0 R 0\n0 R 0\n0 R 0\n0 R 0\n0 R 0\n1 R 0\n",
        &[
            "0 C 100 0000 0000\n",
            "0 C 106 001b\n0 C 110 0013\n1 C 111 0000 0000\n1 C 114 003d 0400\n",
            "0 E 118\n",
            "1 E 118\n",
        ],
    ),
    // The service stands before each line. With an F line in front it stands twice before the read of rank 0.
    (
        "L0 R 0\n",
        &[
            "1 C 2015 0213\n0 C 2016 0000 0000\n",
            "0 C 2022 001b\n0 C 2026 0213\n",
        ],
    ),
    (
        "L0 F 0 0 0\n0 R 0\n",
        &["1 C 2015 0213\n", "0 C 2016 0213\n0 C 2036 0000 0000\n"],
    ),
];

// Runs `pair` on these bytes.
fn pair_of(alloc: Global, input: &str) -> Result<(Status, MemorySink), Fail> {
    let mut line = Vec::new(alloc);
    line.push(String::from_str(alloc, "pair")?)?;
    let mut source = MemorySource::new(input.as_bytes().to_vec(alloc)?, 32, Vec::new(alloc));
    let mut sink = MemorySink::new(alloc, Vec::new(alloc));
    let status = run(alloc, &line, &mut source, &mut sink);
    Ok((status, sink))
}

// The text with this in the place of each such letter.
fn with(alloc: Global, text: &str, letter: char, by: &str) -> Result<String, Fail> {
    let mut whole = String::new(alloc);
    for piece in text.split_inclusive(letter) {
        match piece.strip_suffix(letter) {
            Some(front) => {
                whole.push_str(front)?;
                whole.push_str(by)?;
            }
            None => whole.push_str(piece)?,
        }
    }
    Ok(whole)
}

fn filled(alloc: Global, text: &str) -> Result<String, Fail> {
    let text = with(alloc, text, 'L', LATE)?;
    let text = with(alloc, &text, 'P', DATA)?;
    with(alloc, &text, 'Z', ZEROS)
}

#[test]
fn two_ranks_are_served(rt: HostRuntime) -> Result<(), Fail> {
    let alloc = rt.alloc();
    for (trace, lines, answer) in ROWS {
        let trace = filled(alloc, trace)?;
        let lines = filled(alloc, lines)?;
        let input = format!(in alloc; "{OPENING}{trace}")?;
        let want = format!(in alloc; "{OPENING}{REGISTERS}{lines}")?;
        let (status, report) = pair_of(alloc, &input)?;
        assert_eq!(rt; status, answer);
        assert_eq!(rt; report.bytes(), want.as_bytes());
    }
    Ok(())
}

#[test]
fn both_ranks_are_served_in_time(rt: HostRuntime) -> Result<(), Fail> {
    let alloc = rt.alloc();
    for (trace, parts) in PARTS {
        let trace = filled(alloc, trace)?;
        let input = format!(in alloc; "{OPENING}{trace}")?;
        let (status, report) = pair_of(alloc, &input)?;
        assert_eq!(rt; status, Status::Ok);
        let mut rest = str::from_utf8(report.bytes())?;
        for part in parts {
            let Some((_, behind)) = rest.split_once(*part) else {
                assert!(rt; false, "a part is missing");
                return Ok(());
            };
            rest = behind;
        }
    }
    Ok(())
}

// RFMab takes 400 clocks: nMax is 400 and nClose 33, so that two ranks have time from an interval of 3,464 clocks on.
#[test]
fn two_ranks_need_time(rt: HostRuntime) -> Result<(), Fail> {
    let alloc = rt.alloc();
    for (interval, answer) in [(3464, Status::Ok), (3463, Status::Refused)] {
        let header = OPENING.strip_suffix("---\n").unwrap_or("");
        let input = format!(in alloc; "{header}[timing]\nnRFM = 400\nnREFI = {interval}\n---\n")?;
        let (status, report) = pair_of(alloc, &input)?;
        assert_eq!(rt; status, answer);
        if answer == Status::Refused {
            assert_eq!(rt; report.bytes(), b"X 0 30\n".as_slice());
        }
    }
    Ok(())
}
