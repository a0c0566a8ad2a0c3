//! Worked rows: whole scripts, and what is written of them with each device dead. In a text `*` stands for 126 zeros, `~` for 30
//! and `%` for 94, so `11*` is a line of 64 bytes.
use crate::spare;
use ddr_io::{MemorySink, MemorySource, PlainSink, PlainSource, Status};
use std::alloc::Global;
use std::test::Fail;

// The opening of a script, with its register writes; and one whose scrub visits lines.
const TINY: &str =
    "format = 1\nbin = \"tiny\"\nrows = 16\nath = 5\neth = 3\nraaimt = 8\nraammt = 16\nrefresh = \"all\"\necs_every = 0\n---\nC 0 0805 000f\nC 4 0825 0000\nC 8 0845 0005\nC 12 0865 0003\nC 16 0885 0000\nC 20 08a5 0008\nC 24 08c5 0010\nC 28 08e5 0000\n";

const SCRUBBED: &str =
    "format = 1\nbin = \"tiny\"\nrows = 16\nath = 5\neth = 3\nraaimt = 8\nraammt = 16\nrefresh = \"all\"\necs_every = 1\n---\nC 0 0805 000f\nC 4 0825 0000\nC 8 0845 0005\nC 12 0865 0003\nC 16 0885 0000\nC 20 08a5 0008\nC 24 08c5 0010\nC 28 08e5 0001\n";

// Two bits of device 0 are turned behind a write, and one of the spare.
const TURNED: &str =
    "C 32 0000 0000\nC 35 002d 0c00\nB 11*\nF 0 0 0\nF 0 0 1\nF 0 4 5\nC 51 003d 0400\nC 54 000b\nE 55\n";

const SHOWN: &str =
    "C 32 0000 0000\nC 35 002d 0c00\nF 35 0 0 0\nF 35 0 0 1\nF 35 0 4 5\nC 51 003d 0400\n";

// A script with a dead device: its opening, its lines behind the register writes; what is written of these, and with which status.
#[derive(Clone, Copy)]
struct Row {
    opening: &'static str,
    dead: u8,
    script: &'static str,
    shown: &'static str,
    rest: &'static str,
    status: Status,
}

const ROWS: [Row; 12] = [
    // The dead device is made good, whatever was turned in it.
    Row {
        opening: TINY,
        dead: 0,
        script: TURNED,
        shown: SHOWN,
        rest: "D 15 0 11* fixed\nC 54 000b\nE 55\n",
        status: Status::Ok,
    },
    // Another is dead: two turned bits are too many, and the part that is made of the others shows it.
    Row {
        opening: TINY,
        dead: 1,
        script: TURNED,
        shown: SHOWN,
        rest: "D 15 0 10~01% fixed\nC 54 000b\nE 55\n",
        status: Status::Ok,
    },
    // The spare is dead: nothing is made of it.
    Row {
        opening: TINY,
        dead: 4,
        script: TURNED,
        shown: SHOWN,
        rest: "D 15 0 10* fixed\nC 54 000b\nE 55\n",
        status: Status::Ok,
    },
    // A line that was never written, with bits turned in the dead device alone.
    Row {
        opening: TINY,
        dead: 2,
        script: "F 0 2 0\nF 0 2 9\nF 0 2 77\nC 32 0000 0000\nC 35 003d 0400\nC 38 001b\nE 39\n",
        shown: "F 28 0 2 0\nF 28 0 2 9\nF 28 0 2 77\nC 32 0000 0000\nC 35 003d 0400\n",
        rest: "D 13 0 00* ok\nC 38 001b\nE 39\n",
        status: Status::Ok,
    },
    // The bits of a dead spare do not count.
    Row {
        opening: TINY,
        dead: 4,
        script: "F 0 4 0\nF 0 4 9\nC 32 0000 0000\nC 35 003d 0400\nC 38 001b\nE 39\n",
        shown: "F 28 0 4 0\nF 28 0 4 9\nC 32 0000 0000\nC 35 003d 0400\n",
        rest: "D 12 0 00* ok\nC 38 001b\nE 39\n",
        status: Status::Ok,
    },
    // Two bits of the spare with a scrub between them: it is scrubbed as the others are.
    Row {
        opening: SCRUBBED,
        dead: 0,
        script: "C 32 0000 0000\nC 35 002d 0c00\nB 00*\nF 0 4 2\nC 2000 000b\nC 2004 0213\nC 2024 018f\nF 0 4 4\nC 2536 0000 0000\nC 2539 003d 0400\nC 2542 000b\nE 2543\n",
        shown: "C 32 0000 0000\nC 35 002d 0c00\nF 35 0 4 2\nC 2000 000b\nC 2004 0213\nC 2024 018f\nF 2024 0 4 4\nC 2536 0000 0000\nC 2539 003d 0400\n",
        rest: "D 18 0 00* fixed\nC 2542 000b\nE 2543\n",
        status: Status::Ok,
    },
    // A word of the spare is lost.
    Row {
        opening: TINY,
        dead: 0,
        script: "C 32 0000 0000\nC 35 002d 0c00\nB 00*\nF 0 4 15\nC 2000 000b\nC 2004 0213\nF 0 4 127\nC 2536 0000 0000\nC 2539 003d 0400\nC 2542 000b\nE 2543\n",
        shown: "C 32 0000 0000\nC 35 002d 0c00\nF 35 0 4 15\nC 2000 000b\nC 2004 0213\nF 2004 0 4 127\nC 2536 0000 0000\nC 2539 003d 0400\n",
        rest: "D 17 0 00* lost\nC 2542 000b\nE 2543\n",
        status: Status::Ok,
    },
    // The same where the spare is dead.
    Row {
        opening: TINY,
        dead: 4,
        script: "C 32 0000 0000\nC 35 002d 0c00\nB 00*\nF 0 4 15\nC 2000 000b\nC 2004 0213\nF 0 4 127\nC 2536 0000 0000\nC 2539 003d 0400\nC 2542 000b\nE 2543\n",
        shown: "C 32 0000 0000\nC 35 002d 0c00\nF 35 0 4 15\nC 2000 000b\nC 2004 0213\nF 2004 0 4 127\nC 2536 0000 0000\nC 2539 003d 0400\n",
        rest: "D 17 0 00* ok\nC 2542 000b\nE 2543\n",
        status: Status::Ok,
    },
    // There is no sixth device.
    Row {
        opening: TINY,
        dead: 3,
        script: "F 0 5 0\n",
        shown: "",
        rest: "X 9 5\n",
        status: Status::Refused,
    },
    // A read one clock too soon.
    Row {
        opening: TINY,
        dead: 3,
        script: "C 32 0000 0000\nC 35 002d 0c00\nB 11*\nF 0 4 0\nC 50 003d 0400\nC 54 000b\nE 55\n",
        shown: "C 32 0000 0000\nC 35 002d 0c00\nF 35 0 4 0\n",
        rest: "A broken 13 2\n",
        status: Status::Broken,
    },
    // A write without its bytes.
    Row {
        opening: TINY,
        dead: 3,
        script: "C 32 0000 0000\nC 35 002d 0c00\nF 0 0 0\n",
        shown: "C 32 0000 0000\nC 35 002d 0c00\n",
        rest: "X 11 18\n",
        status: Status::Refused,
    },
    // The script ends without its end.
    Row {
        opening: TINY,
        dead: 3,
        script: "",
        shown: "",
        rest: "X 9 19\n",
        status: Status::Refused,
    },
];

fn zeros(bytes: &mut Vec<u8>, count: usize) -> Result<(), Fail> {
    for _ in 0..count {
        bytes.push(b'0')?;
    }
    Ok(())
}

// Appends a text, with zeros for its signs.
fn push(bytes: &mut Vec<u8>, text: &str) -> Result<(), Fail> {
    for byte in text.as_bytes() {
        match *byte {
            b'*' => zeros(bytes, 126)?,
            b'~' => zeros(bytes, 30)?,
            b'%' => zeros(bytes, 94)?,
            other => bytes.push(other)?,
        }
    }
    Ok(())
}

// An opening, and these texts behind it.
fn written_out(alloc: Global, opening: &str, first: &str, second: &str) -> Result<Vec<u8>, Fail> {
    let mut bytes = Vec::new(alloc);
    push(&mut bytes, opening)?;
    push(&mut bytes, first)?;
    push(&mut bytes, second)?;
    Ok(bytes)
}

#[test]
fn rows(rt: HostRuntime) -> Result<(), Fail> {
    let alloc = rt.alloc();
    for row in &ROWS {
        if row.dead < 5 {
            let mut source = PlainSource::new(written_out(alloc, row.opening, row.script, "")?);
            let mut sink = PlainSink::new(alloc);
            let status = spare(alloc, row.dead, &mut source, &mut sink);
            let wanted = written_out(alloc, row.opening, row.shown, row.rest)?;
            assert_eq!(rt; status, row.status);
            assert_eq!(rt; sink.bytes(), wanted.as_slice());
        }
    }
    Ok(())
}

// The lines of turned bits: one in each device, and three more in the dead one.
const ONE_EACH: &str = "F 0 0 17\nF 0 1 130\nF 0 2 2\nF 0 3 64\nF 0 4 99\n";

const ONE_EACH_SHOWN: &str = "F 35 0 0 17\nF 35 0 1 130\nF 35 0 2 2\nF 35 0 3 64\nF 35 0 4 99\n";

const DEAD_BITS: [[&str; 2]; 5] = [
    [
        "F 0 0 3\nF 0 0 64\nF 0 0 135\n",
        "F 35 0 0 3\nF 35 0 0 64\nF 35 0 0 135\n",
    ],
    [
        "F 0 1 3\nF 0 1 64\nF 0 1 135\n",
        "F 35 0 1 3\nF 35 0 1 64\nF 35 0 1 135\n",
    ],
    [
        "F 0 2 3\nF 0 2 64\nF 0 2 135\n",
        "F 35 0 2 3\nF 35 0 2 64\nF 35 0 2 135\n",
    ],
    [
        "F 0 3 3\nF 0 3 64\nF 0 3 135\n",
        "F 35 0 3 3\nF 35 0 3 64\nF 35 0 3 135\n",
    ],
    [
        "F 0 4 3\nF 0 4 64\nF 0 4 135\n",
        "F 35 0 4 3\nF 35 0 4 64\nF 35 0 4 135\n",
    ],
];

// Each device is dead in turn: the bytes of the write are read, and one turned bit of each live device is fixed.
#[test]
fn each_device(rt: HostRuntime) -> Result<(), Fail> {
    let alloc = rt.alloc();
    for dead in 0..5_u8 {
        let [turned, shown] = DEAD_BITS[usize::from(dead)];
        let mut script = written_out(
            alloc,
            TINY,
            "C 32 0000 0000\nC 35 002d 0c00\nB 5a~c3%\n",
            ONE_EACH,
        )?;
        push(&mut script, turned)?;
        push(&mut script, "C 51 003d 0400\nC 54 000b\nE 55\n")?;
        let mut wanted = written_out(
            alloc,
            TINY,
            "C 32 0000 0000\nC 35 002d 0c00\n",
            ONE_EACH_SHOWN,
        )?;
        push(&mut wanted, shown)?;
        push(
            &mut wanted,
            "C 51 003d 0400\nD 20 0 5a~c3% fixed\nC 54 000b\nE 55\n",
        )?;
        let mut source = PlainSource::new(script);
        let mut sink = PlainSink::new(alloc);
        assert_eq!(rt; spare(alloc, dead, &mut source, &mut sink), Status::Ok);
        assert_eq!(rt; sink.bytes(), wanted.as_slice());
    }
    Ok(())
}

// A source and a sink that fail: what was written is the beginning of all.
#[test]
fn faults(rt: HostRuntime) -> Result<(), Fail> {
    let alloc = rt.alloc();
    let whole = written_out(alloc, TINY, SHOWN, "D 15 0 11* fixed\nC 54 000b\nE 55\n")?;
    for fault in 1..9 {
        let script = written_out(alloc, TINY, TURNED, "")?;
        let mut source = MemorySource::new(script, 40, vec![in alloc; fault]?);
        let mut sink = MemorySink::new(alloc, Vec::new(alloc));
        assert_eq!(rt; spare(alloc, 0, &mut source, &mut sink), Status::ReadFault);
        assert!(rt; whole.starts_with(sink.bytes()));

        let script = written_out(alloc, TINY, TURNED, "")?;
        let mut source = PlainSource::new(script);
        let mut sink = MemorySink::new(alloc, vec![in alloc; fault]?);
        assert_eq!(rt; spare(alloc, 0, &mut source, &mut sink), Status::WriteFault);
        assert!(rt; whole.starts_with(sink.bytes()));
    }
    Ok(())
}
