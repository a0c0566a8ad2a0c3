//! Whole jobs and words, from the format. The drawn lines were computed by a program of its own, after the published
//! definition of the generator.
use crate::{Generator, read_words, write_job, write_trace_line};
use arrayvec::ArrayVec;
use command_words::{Geometry, LineAddr};
use ddr_io::{PlainSink, RealSink, Status};
use ddr_text::TraceLine;
use std::io::{self, Write};
use std::test::Fail;

// The digits of 62 bytes.
const ZEROS: &str =
    "0000000000000000000000000000000000000000000000000000000000000000000000000000000000000000000000000000000000000000000000000000";

#[test]
fn jobs_of_seeds(rt: HostRuntime) -> Result<(), Fail> {
    let alloc = rt.alloc();
    let rows: [(u64, u64, &str); 5] = [
        (
            1,
            0,
            "format = 1\nbin = \"4800-prac\"\nrows = 65536\nath = 64\neth = 32\nraaimt = 32\nraammt = 64\nrefresh = \"all\"\necs_every = 8\n---\n",
        ),
        (
            1,
            5,
            "format = 1\nbin = \"4800-prac\"\nrows = 65536\nath = 64\neth = 32\nraaimt = 32\nraammt = 64\nrefresh = \"all\"\necs_every = 8\n---\nR 1\nW 110622959 d4032c82f28c3e94e3dd751b306fdeaf798b74c9b4a7a92379c50377b886315bfc7cef55ecd00c841c4c4973da31b0c65a37bbe6dd1141ece618281753805f4a\nW 110622960 37ec446489d6bf49d877723a7dc89213c821f450842b2f61adddde953191fe79436f38a8a9fdb6a646bc32a5b5e3dcb19d8696e0de7a081319bf09b7590933af\nW 110622961 5d8569af99d1426d18cc9d42690f480ea09eab3f7af59d258220c41a710e139d20fe571f188d63fd0cadc936749724915cb2b2399179abe4b31df42421eb0782\nR 4096\n",
        ),
        (
            u64::MAX,
            0,
            "format = 1\nbin = \"4800-prac\"\nrows = 65536\nath = 64\neth = 32\nraaimt = 32\nraammt = 64\nrefresh = \"all\"\necs_every = 8\n---\n",
        ),
        (
            u64::MAX,
            7,
            "format = 1\nbin = \"4800-prac\"\nrows = 65536\nath = 64\neth = 32\nraaimt = 32\nraammt = 64\nrefresh = \"all\"\necs_every = 8\n---\nR 2048\nR 2048\nR 4096\nR 4097\nW 12288 60974fad82b95e2d7cfde35f131e87cd71763c4fdbfd99755b031d683d6360e691a8495712313edaf2a49fa415dfde4e53691751f4243654d9821c9a43f9adbb\nR 12289\nW 12290 57dafb4c953d531c809b9082194e10dec88f780f4540d1f377f7683114017ece76e73d2f18d895072ac9ee48bd218fe6e90040e4f81997933a05496ac01bede3\n",
        ),
        (
            0,
            8,
            "format = 1\nbin = \"4800-prac\"\nrows = 65536\nath = 64\neth = 32\nraaimt = 32\nraammt = 64\nrefresh = \"all\"\necs_every = 8\n---\nR 1\nR 2\nR 3\nR 4\nR 5\nR 122864982\nR 8192\nR 49716041\n",
        ),
    ];
    for (seed, requests, job) in rows {
        let mut sink = PlainSink::new(alloc);
        assert_eq!(rt; write_job(seed, requests, &mut sink), Status::Ok);
        assert_eq!(rt; sink.bytes(), job.as_bytes());
    }
    Ok(())
}

// Takes so many bytes, and then no more.
#[derive(Drop)]
struct Narrow {
    room: usize,
    taken: ArrayVec<u8, 512>,
}

impl Write for Narrow {
    fn write(&mut self, piece: &[u8]) -> io::Result<usize> {
        let count = piece.len().min(self.room.saturating_sub(self.taken.len()));
        let _ = self.taken.try_extend_from_slice(&piece[..count]);
        Ok(count)
    }

    fn flush(&mut self) -> io::Result<()> {
        Ok(())
    }
}

#[test]
fn a_fault_leaves_a_prefix(rt: HostRuntime) -> Result<(), Fail> {
    let mut whole = PlainSink::new(rt.alloc());
    assert_eq!(rt; write_job(1, 5, &mut whole), Status::Ok);
    for room in [0, 1, 123, 124, 125, 128, 129, 200, 400] {
        let mut narrow = Narrow {
            room,
            taken: ArrayVec::new(),
        };
        let mut sink = RealSink::new(&mut narrow);
        assert_eq!(rt; write_job(1, 5, &mut sink), Status::WriteFault);
        assert_eq!(rt; narrow.taken.len(), room);
        assert!(rt; whole.bytes().starts_with(narrow.taken.as_slice()));
    }
    Ok(())
}

#[test]
fn requests_one_by_one(rt: HostRuntime) -> Result<(), Fail> {
    let g = Geometry::with_rows(65536);
    let mut generator = Generator::new(42);
    for number in [4096, 35468080, 35468081, 65888366, 65888367] {
        let line = LineAddr::new(number, g).ok_or("a line")?;
        assert_eq!(rt; generator.next_request(), TraceLine::Read(line));
    }
    Ok(())
}

#[test]
fn lines_of_each_kind(rt: HostRuntime) -> Result<(), Fail> {
    let line = LineAddr::new(134_217_727, Geometry::with_rows(65536)).ok_or("the last line")?;
    let mut bytes = [0u8; 64];
    bytes[0] = 0xab;
    bytes[63] = 0x01;
    let write = format!(in rt.alloc(); "W 134217727 ab{ZEROS}01\n")?;
    let rows: [(TraceLine, &str); 4] = [
        (TraceLine::Read(line), "R 134217727\n"),
        (TraceLine::Write(line, bytes), write.as_str()),
        (TraceLine::Flip(line, 3, 135), "F 134217727 3 135\n"),
        (TraceLine::Idle(4_294_967_296), "I 4294967296\n"),
    ];
    for (line, text) in rows {
        let mut out = ArrayVec::new();
        write_trace_line(&line, &mut out);
        assert_eq!(rt; out.as_slice(), text.as_bytes());
    }
    Ok(())
}

#[test]
fn numbers_of_words(rt: HostRuntime) -> Result<(), Fail> {
    let alloc = rt.alloc();
    let rows: [(&[&str], Option<(u64, u64)>); 16] = [
        (&["1", "5"], Some((1, 5))),
        (&["0", "0"], Some((0, 0))),
        (
            &["18446744073709551615", "1048576"],
            Some((u64::MAX, 1_048_576)),
        ),
        (&["18446744073709551616", "5"], None),
        (&["1", "1048577"], None),
        (&["1", "18446744073709551616"], None),
        (&["01", "5"], None),
        (&["1", "05"], None),
        (&["1", "00"], None),
        (&["+1", "5"], None),
        (&["-1", "5"], None),
        (&["1", ""], None),
        (&["1", "5 "], None),
        (&["5"], None),
        (&[], None),
        (&["1", "5", "5"], None),
    ];
    for (words, numbers) in rows {
        let mut given = Vec::new(alloc);
        for word in words {
            given.push(String::from_str(alloc, word)?)?;
        }
        assert_eq!(rt; read_words(&given), numbers);
    }
    Ok(())
}
