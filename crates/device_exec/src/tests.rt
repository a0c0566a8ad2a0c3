//! Worked rows: whole scripts, and what is written of them. In a text `*` stands for 126 zeros, so `11*` is a line of 64 bytes.
use crate::{exec, read_script_line};
use command_words::Geometry;
use ddr_io::{MemorySink, MemorySource, PlainSink, PlainSource, Status};
use std::alloc::Global;
use std::test::Fail;

const TINY: &str =
    "format = 1\nbin = \"tiny\"\nrows = 16\nath = 5\neth = 3\nraaimt = 8\nraammt = 16\nrefresh = \"all\"\necs_every = 0\n---\n";

const WRITES: &str =
    "C 0 0805 000f\nC 4 0825 0000\nC 8 0845 0005\nC 12 0865 0003\nC 16 0885 0000\nC 20 08a5 0008\nC 24 08c5 0010\nC 28 08e5 0000\n";

const SCRUBBED: &str =
    "format = 1\nbin = \"tiny\"\nrows = 16\nath = 5\neth = 3\nraaimt = 8\nraammt = 16\nrefresh = \"all\"\necs_every = 1\n---\n";

const SCRUBBED_WRITES: &str =
    "C 0 0805 000f\nC 4 0825 0000\nC 8 0845 0005\nC 12 0865 0003\nC 16 0885 0000\nC 20 08a5 0008\nC 24 08c5 0010\nC 28 08e5 0001\n";

const FOUR_GROUPS: &str =
    "format = 1\nbin = \"tiny\"\nrows = 2\nath = 5\neth = 5\nraaimt = 16\nraammt = 32\nrefresh = \"all\"\necs_every = 0\n--- 2 4 4\n";

const FOUR_GROUPS_WRITES: &str =
    "C 0 0805 0001\nC 4 0825 0000\nC 8 0845 0005\nC 12 0865 0005\nC 16 0885 0000\nC 20 08a5 0010\nC 24 08c5 0020\nC 28 08e5 0000\n";

// A script: its opening, its register writes, and its lines behind them; what is written of these, and with which status.
#[derive(Clone, Copy)]
struct Row {
    header: &'static str,
    writes: &'static str,
    script: &'static str,
    written: &'static str,
    status: Status,
}

const ROWS: [Row; 17] = [
    // A line is written, a bit of it turned, and read.
    Row {
        header: TINY,
        writes: WRITES,
        script: "C 32 0000 0000\nC 35 002d 0c00\nB 11*\nF 0 0 0\nC 51 003d 0400\nC 54 000b\nE 55\n",
        written: "C 32 0000 0000\nC 35 002d 0c00\nF 35 0 0 0\nC 51 003d 0400\nD 13 0 11* fixed\nC 54 000b\nS peak 1\nS found 0\nS lost 0\nS worst 0\nE 55\n",
        status: Status::Ok,
    },
    // A read one clock too soon.
    Row {
        header: TINY,
        writes: WRITES,
        script: "C 32 0000 0000\nC 35 002d 0c00\nB 11*\nF 0 0 0\nC 50 003d 0400\nC 54 000b\nE 55\n",
        written: "C 32 0000 0000\nC 35 002d 0c00\nF 35 0 0 0\nA broken 13 2\n",
        status: Status::Broken,
    },
    // A write without its bytes.
    Row {
        header: TINY,
        writes: WRITES,
        script: "C 32 0000 0000\nC 35 002d 0c00\nF 0 0 0\nC 51 003d 0400\nC 54 000b\nE 55\n",
        written: "C 32 0000 0000\nC 35 002d 0c00\nX 11 18\n",
        status: Status::Refused,
    },
    // A line that was never written.
    Row {
        header: TINY,
        writes: WRITES,
        script: "C 32 0000 0000\nC 35 003d 0400\nC 38 001b\nE 39\n",
        written: "C 32 0000 0000\nC 35 003d 0400\nD 10 0 00* ok\nC 38 001b\nS peak 1\nS found 0\nS lost 0\nS worst 0\nE 39\n",
        status: Status::Ok,
    },
    // A bit is turned behind the register writes.
    Row {
        header: TINY,
        writes: WRITES,
        script: "F 0 0 0\nE 29\n",
        written: "F 28 0 0 0\nS peak 0\nS found 0\nS lost 0\nS worst 0\nE 29\n",
        status: Status::Ok,
    },
    // Bytes behind no write.
    Row {
        header: TINY,
        writes: WRITES,
        script: "B 11*\nE 29\n",
        written: "X 9 18\n",
        status: Status::Refused,
    },
    // A line of its own grammar in place of bytes.
    Row {
        header: TINY,
        writes: WRITES,
        script: "C 32 0000 0000\nC 35 002d 0c00\nF 0 4 0\n",
        written: "C 32 0000 0000\nC 35 002d 0c00\nX 11 5\n",
        status: Status::Refused,
    },
    // The script ends behind a write.
    Row {
        header: TINY,
        writes: WRITES,
        script: "C 32 0000 0000\nC 35 002d 0c00\n",
        written: "C 32 0000 0000\nC 35 002d 0c00\nX 11 19\n",
        status: Status::Refused,
    },
    // The script ends without its end.
    Row {
        header: TINY,
        writes: WRITES,
        script: "",
        written: "X 9 19\n",
        status: Status::Refused,
    },
    // A command behind the end.
    Row {
        header: TINY,
        writes: WRITES,
        script: "E 29\nC 32 0000 0000\n",
        written: "X 10 18\n",
        status: Status::Refused,
    },
    // No line of a script behind the end.
    Row {
        header: TINY,
        writes: WRITES,
        script: "E 29\nQ\n",
        written: "X 10 2\n",
        status: Status::Refused,
    },
    // An end before a bank is closed, and a bad line behind it.
    Row {
        header: TINY,
        writes: WRITES,
        script: "C 32 0000 0000\nE 55\nQ\n",
        written: "C 32 0000 0000\nA broken 10 14\n",
        status: Status::Broken,
    },
    // A line without its line feed.
    Row {
        header: TINY,
        writes: WRITES,
        script: "E 29\nQ",
        written: "X 10 8\n",
        status: Status::Refused,
    },
    // Upper-case digits.
    Row {
        header: TINY,
        writes: WRITES,
        script: "C 32 0000 0000\nC 35 002d 0c00\nB AA*\nE 55\n",
        written: "C 32 0000 0000\nC 35 002d 0c00\nX 11 6\n",
        status: Status::Refused,
    },
    // A replay's report with a turned bit that is scrubbed before the next one.
    Row {
        header: SCRUBBED,
        writes: SCRUBBED_WRITES,
        script: "C 32 0000 0000\nC 35 002d 0c00\nB 00*\nF 0 0 2\nC 2000 000b\nC 2004 0213\nC 2024 018f\nF 0 0 4\nC 2536 0000 0000\nC 2539 003d 0400\nC 2542 000b\nE 2543\n",
        written: "C 32 0000 0000\nC 35 002d 0c00\nF 35 0 0 2\nC 2000 000b\nC 2004 0213\nC 2024 018f\nF 2024 0 0 4\nC 2536 0000 0000\nC 2539 003d 0400\nD 18 0 00* fixed\nC 2542 000b\nS peak 2\nS found 1\nS lost 0\nS worst 1\nE 2543\n",
        status: Status::Ok,
    },
    // A replay's report with a word that is lost.
    Row {
        header: TINY,
        writes: WRITES,
        script: "C 32 0000 0000\nC 35 002d 0c00\nB 00*\nF 0 0 15\nC 2000 000b\nC 2004 0213\nF 0 0 127\nC 2536 0000 0000\nC 2539 003d 0400\nC 2542 000b\nE 2543\n",
        written: "C 32 0000 0000\nC 35 002d 0c00\nF 35 0 0 15\nC 2000 000b\nC 2004 0213\nF 2004 0 0 127\nC 2536 0000 0000\nC 2539 003d 0400\nD 17 0 00* lost\nC 2542 000b\nS peak 2\nS found 0\nS lost 0\nS worst 0\nE 2543\n",
        status: Status::Ok,
    },
    // A replay's report of 4 groups with alerts.
    Row {
        header: FOUR_GROUPS,
        writes: FOUR_GROUPS_WRITES,
        script: "C 32 0000 0000\nC 35 003d 0400\nC 38 001b\nC 42 0004 0000\nC 45 003d 0400\nC 48 001b\nC 52 0000 0000\nC 55 003d 0400\nC 58 001b\nC 62 0004 0000\nC 65 003d 0400\nC 68 001b\nC 72 0000 0000\nC 75 003d 0400\nC 78 001b\nC 82 0004 0000\nC 85 003d 0400\nC 88 001b\nC 92 0000 0000\nC 95 003d 0400\nC 98 001b\nC 102 0004 0000\nC 105 003d 0400\nC 108 001b\nC 112 0000 0000\nC 115 003d 0400\nC 118 001b\nC 122 0004 0000\nC 125 003d 0400\nC 128 000b\nC 132 0013\nC 156 0000 0000\nC 159 003d 0400\nC 162 000b\nC 166 0013\nE 167\n",
        written: "C 32 0000 0000\nC 35 003d 0400\nD 10 0 00* ok\nC 38 001b\nC 42 0004 0000\nC 45 003d 0400\nD 13 1024 00* ok\nC 48 001b\nC 52 0000 0000\nC 55 003d 0400\nD 16 0 00* ok\nC 58 001b\nC 62 0004 0000\nC 65 003d 0400\nD 19 1024 00* ok\nC 68 001b\nC 72 0000 0000\nC 75 003d 0400\nD 22 0 00* ok\nC 78 001b\nC 82 0004 0000\nC 85 003d 0400\nD 25 1024 00* ok\nC 88 001b\nC 92 0000 0000\nC 95 003d 0400\nD 28 0 00* ok\nC 98 001b\nC 102 0004 0000\nC 105 003d 0400\nD 31 1024 00* ok\nC 108 001b\nC 112 0000 0000\nC 115 003d 0400\nD 34 0 00* ok\nC 118 001b\nC 122 0004 0000\nC 125 003d 0400\nD 37 1024 00* ok\nC 128 000b\nC 132 0013\nC 156 0000 0000\nC 159 003d 0400\nD 41 0 00* ok\nC 162 000b\nC 166 0013\nS peak 5\nS found 0\nS lost 0\nS worst 0\nE 167\n",
        status: Status::Ok,
    },
];

// Appends a text, with 126 zeros for each `*`.
fn push(bytes: &mut Vec<u8>, text: &str) -> Result<(), Fail> {
    for byte in text.as_bytes() {
        if *byte == b'*' {
            bytes.extend_from_slice(&[b'0'; 126])?;
        } else {
            bytes.push(*byte)?;
        }
    }
    Ok(())
}

// The opening and the register writes of a row, and this text behind them.
fn written_out(alloc: Global, row: &Row, text: &str) -> Result<Vec<u8>, Fail> {
    let mut bytes = Vec::new(alloc);
    push(&mut bytes, row.header)?;
    push(&mut bytes, row.writes)?;
    push(&mut bytes, text)?;
    Ok(bytes)
}

#[test]
fn rows(rt: HostRuntime) -> Result<(), Fail> {
    let alloc = rt.alloc();
    for row in &ROWS {
        let mut source = PlainSource::new(written_out(alloc, row, row.script)?);
        let mut sink = PlainSink::new(alloc);
        let status = exec(alloc, &mut source, &mut sink);
        let wanted = written_out(alloc, row, row.written)?;
        assert_eq!(rt; status, row.status);
        assert_eq!(rt; sink.bytes(), wanted.as_slice());
    }
    Ok(())
}

fn text_of(alloc: Global, text: &str) -> Result<Vec<u8>, Fail> {
    let mut bytes = Vec::new(alloc);
    push(&mut bytes, text)?;
    Ok(bytes)
}

#[test]
fn openings(rt: HostRuntime) -> Result<(), Fail> {
    let alloc = rt.alloc();
    for (script, written, status) in [
        ("", "X 0 16\n", Status::Refused),
        ("format = 2\n---\n", "X 0 12\n", Status::Refused),
    ] {
        let mut source = PlainSource::new(text_of(alloc, script)?);
        let mut sink = PlainSink::new(alloc);
        assert_eq!(rt; exec(alloc, &mut source, &mut sink), status);
        assert_eq!(rt; sink.bytes(), written.as_bytes());
    }
    Ok(())
}

// The first row, whose every read and every write is made to fail in turn.
#[test]
fn faults(rt: HostRuntime) -> Result<(), Fail> {
    let alloc = rt.alloc();
    let whole = written_out(alloc, &ROWS[0], ROWS[0].written)?;
    for fault in 1..40 {
        let script = written_out(alloc, &ROWS[0], ROWS[0].script)?;
        let mut source = MemorySource::new(script, 40, vec![in alloc; fault]?);
        let mut sink = MemorySink::new(alloc, Vec::new(alloc));
        let status = exec(alloc, &mut source, &mut sink);
        if fault < 9 {
            assert_eq!(rt; status, Status::ReadFault);
        }
        assert!(rt; whole.starts_with(sink.bytes()));

        let script = written_out(alloc, &ROWS[0], ROWS[0].script)?;
        let mut source = PlainSource::new(script);
        let mut sink = MemorySink::new(alloc, vec![in alloc; fault]?);
        let status = exec(alloc, &mut source, &mut sink);
        if fault <= 20 {
            assert_eq!(rt; status, Status::WriteFault);
        } else {
            assert_eq!(rt; status, Status::Ok);
        }
        assert!(rt; whole.starts_with(sink.bytes()));
    }
    Ok(())
}

// F lines of a script for 4 devices and for 5.
#[test]
fn devices(rt: HostRuntime) -> Result<(), Fail> {
    let g = Geometry::with_rows(16);
    for (text, four, five) in [
        ("F 0 3 135", true, true),
        ("F 0 4 135", false, true),
        ("F 0 5 135", false, false),
        ("F 0 0 136", false, false),
        ("F 32768 0 0", false, false),
        ("F 0 0", false, false),
    ] {
        assert_eq!(rt; read_script_line(text.as_bytes(), g, 4).is_ok(), four);
        assert_eq!(rt; read_script_line(text.as_bytes(), g, 5).is_ok(), five);
    }
    Ok(())
}
