//! What no clause says: that calls succeed, and how faults of the system come through.
ghost use Rattle.std.specs.Prelude.{◌≡◌, IfOk};

use crate::{
    Got, Line, LineReader, PlainSink, PlainSource, Put, RealSink, RealSource, Sink, Source, Status,
    put_all,
};
use std::io;
use std::io::{Read, Write};
use std::test::Fail;

// Gives one byte a read, and an error once, after so many bytes.
#[derive(Drop)]
struct FailsOnce {
    bytes: &'static [u8],
    before: Option<usize>,
}

impl Read for FailsOnce {
    fn read(&mut self, buf: &mut [u8]) -> io::Result<usize> {
        if self.before == Some(0) {
            self.before = None;
            return Err(io::ErrorKind::Other.into());
        }
        self.before = self.before.map(|left| left.saturating_sub(1));
        if self.bytes.is_empty() || buf.is_empty() {
            return Ok(0);
        }
        buf[0] = self.bytes[0];
        self.bytes = &self.bytes[1..];
        Ok(1)
    }
}

// Takes two bytes a write, up to its room, and then none.
#[derive(Drop)]
struct Narrow {
    room: usize,
}

impl Write for Narrow {
    fn write(&mut self, buf: &[u8]) -> io::Result<usize> {
        let taken = buf.len().min(self.room).min(2);
        self.room -= taken;
        Ok(taken)
    }

    fn flush(&mut self) -> io::Result<()> {
        Ok(())
    }
}

// Is interrupted a few times, and then reads or writes one byte.
#[derive(Drop)]
struct Interrupted {
    times: u32,
}

impl Interrupted {
    fn one_byte(&mut self) -> io::Result<usize>
        ensures one { IfOk result (λ count. count ≡ 1) }
    {
        if self.times > 0 {
            self.times -= 1;
            return Err(io::ErrorKind::Interrupted.into());
        }
        Ok(1)
    }
}

impl Read for Interrupted {
    fn read(&mut self, buf: &mut [u8]) -> io::Result<usize> {
        if buf.is_empty() {
            return Ok(0);
        }
        self.one_byte()
    }
}

impl Write for Interrupted {
    fn write(&mut self, buf: &[u8]) -> io::Result<usize> {
        if buf.is_empty() {
            return Ok(0);
        }
        self.one_byte()
    }

    fn flush(&mut self) -> io::Result<()> {
        Ok(())
    }
}

// Fails at each write.
#[derive(Drop)]
struct Broken;

impl Write for Broken {
    fn write(&mut self, _buf: &[u8]) -> io::Result<usize> {
        Err(io::ErrorKind::Other.into())
    }

    fn flush(&mut self) -> io::Result<()> {
        Ok(())
    }
}

#[test]
fn statuses_are_exit_statuses(rt: HostRuntime) {
    let statuses = [
        Status::Ok,
        Status::Refused,
        Status::Usage,
        Status::ReadFault,
        Status::WriteFault,
        Status::OutOfMemory,
        Status::Broken,
    ];
    for (number, status) in statuses.iter().enumerate() {
        assert_eq!(rt; *status as usize, number);
    }
}

#[test]
fn short_lines(rt: HostRuntime) -> Result<(), Fail> {
    let mut source = PlainSource::new(b"one\n\ntwo\nthr".to_vec(rt.alloc())?);
    let mut reader = LineReader::new();
    assert_eq!(rt; reader.line(), b"".as_slice());
    for want in [b"one".as_slice(), b"".as_slice(), b"two".as_slice()] {
        assert_eq!(rt; reader.next_line(&mut source), Line::Text);
        assert_eq!(rt; reader.line(), want);
    }
    assert_eq!(rt; reader.next_line(&mut source), Line::Unended);
    assert_eq!(rt; reader.next_line(&mut source), Line::Unended);
    assert_eq!(rt; reader.line(), b"".as_slice());
    Ok(())
}

#[test]
fn lines_over_many_blocks(rt: HostRuntime) -> Result<(), Fail> {
    let mut bytes = Vec::new(rt.alloc());
    for number in 0..60_000_u32 {
        bytes.push(if number % 301 == 300 { b'\n' } else { b'x' })?;
    }
    bytes.push(b'\n')?;
    let mut source = PlainSource::new(bytes);
    let mut reader = LineReader::new();
    for _ in 0..60_000 / 301 {
        assert_eq!(rt; reader.next_line(&mut source), Line::Text);
        assert_eq!(rt; reader.line().len(), 300);
    }
    assert_eq!(rt; reader.next_line(&mut source), Line::Text);
    assert_eq!(rt; reader.line().len(), 60_000 % 301);
    assert_eq!(rt; reader.next_line(&mut source), Line::End);
    assert_eq!(rt; reader.next_line(&mut source), Line::End);
    Ok(())
}

#[test]
fn the_longest_line(rt: HostRuntime) -> Result<(), Fail> {
    for (len, want) in [(511, Line::Text), (512, Line::TooLong)] {
        let mut bytes = vec![in rt.alloc(); b'x'; len]?;
        bytes.push(b'\n')?;
        let mut source = PlainSource::new(bytes);
        let mut reader = LineReader::new();
        assert_eq!(rt; reader.next_line(&mut source), want);
        assert_eq!(rt; reader.line().len(), if len == 511 { 511 } else { 0 });
    }
    Ok(())
}

#[test]
fn a_fault_within_a_line(rt: HostRuntime) {
    let mut source = RealSource::new(FailsOnce {
        bytes: b"ab\ncd\n",
        before: Some(4),
    });
    let mut reader = LineReader::new();
    assert_eq!(rt; reader.next_line(&mut source), Line::Text);
    assert_eq!(rt; reader.line(), b"ab".as_slice());
    assert_eq!(rt; reader.next_line(&mut source), Line::Failed);
    assert_eq!(rt; reader.next_line(&mut source), Line::Failed);

    // The source itself goes on behind the fault.
    let mut rest = [0; 8];
    assert_eq!(rt; source.read(&mut rest), Got::Bytes(1));
    assert_eq!(rt; rest[0], b'd');
    assert_eq!(rt; source.read(&mut rest), Got::Bytes(1));
    assert_eq!(rt; source.read(&mut rest), Got::End);
}

#[test]
fn a_piece_in_memory(rt: HostRuntime) -> Result<(), Fail> {
    let mut sink = PlainSink::new(rt.alloc());
    assert_eq!(rt; put_all(&mut sink, b"one "), Put::Took(4));
    assert_eq!(rt; sink.write(b"two"), Put::Took(3));
    assert_eq!(rt; sink.bytes(), b"one two".as_slice());
    assert_eq!(rt; sink.into_bytes().as_slice(), b"one two".as_slice());
    Ok(())
}

#[test]
fn faults_of_a_writer(rt: HostRuntime) {
    let mut narrow = RealSink::new(Narrow { room: 5 });
    assert_eq!(rt; put_all(&mut narrow, b"abc"), Put::Took(3));
    assert_eq!(rt; put_all(&mut narrow, b"abc"), Put::Failed);
    let mut broken = RealSink::new(Broken);
    assert_eq!(rt; broken.write(b"abc"), Put::Failed);
}

#[test]
fn interrupted_calls_are_tried_again(rt: HostRuntime) {
    let mut source = RealSource::new(Interrupted { times: 3 });
    assert_eq!(rt; source.read(&mut [0; 8]), Got::Bytes(1));
    let mut sink = RealSink::new(Interrupted { times: 3 });
    assert_eq!(rt; sink.write(b"a"), Put::Took(1));
}

#[test]
fn each_status_has_its_number(rt: HostRuntime) {
    let rows = [
        (Status::Ok, 0),
        (Status::Refused, 1),
        (Status::Usage, 2),
        (Status::ReadFault, 3),
        (Status::WriteFault, 4),
        (Status::OutOfMemory, 5),
        (Status::Broken, 6),
    ];
    for (status, number) in rows {
        assert_eq!(rt; number, status as u8);
    }
}
