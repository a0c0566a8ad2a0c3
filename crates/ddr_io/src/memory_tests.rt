//! Sources and sinks in memory whose calls fail where they are listed.

use crate::{Got, Line, LineReader, MemorySink, MemorySource, Put, Sink, Source, put_all};
use std::test::Fail;

#[test]
fn reads_that_fail(rt: HostRuntime) -> Result<(), Fail> {
    // The step, the calls that fail, and the answers to six reads of "abcd".
    let (one, three) = (Got::Bytes(1), Got::Bytes(3));
    let table = [
        (1, [9, 9], [one, one, one, one, Got::End, Got::End]),
        (
            3,
            [9, 9],
            [three, one, Got::End, Got::End, Got::End, Got::End],
        ),
        (1, [1, 3], [Got::Failed, one, Got::Failed, one, one, one]),
        (
            3,
            [1, 3],
            [Got::Failed, three, Got::Failed, one, Got::End, Got::End],
        ),
        (
            3,
            [3, 3],
            [three, one, Got::Failed, Got::End, Got::End, Got::End],
        ),
        (
            9,
            [0, 2],
            [
                Got::Bytes(4),
                Got::Failed,
                Got::End,
                Got::End,
                Got::End,
                Got::End,
            ],
        ),
    ];
    for (step, fails, answers) in table {
        let bytes = b"abcd".to_vec(rt.alloc())?;
        let mut source = MemorySource::new(bytes, step, Vec::from_array(rt.alloc(), fails)?);
        let mut buffer = [b'.'; 5];
        for answer in answers {
            assert_eq!(rt; source.read(&mut buffer), answer);
        }
    }
    Ok(())
}

#[test]
fn writes_that_fail(rt: HostRuntime) -> Result<(), Fail> {
    // The calls that fail, and what four writes of "a", "b", "c" and "d" leave.
    let table = [
        ([9, 9], b"abcd".as_slice()),
        ([0, 5], b"abcd".as_slice()),
        ([1, 3], b"bd".as_slice()),
        ([3, 3], b"abd".as_slice()),
    ];
    for (fails, written) in table {
        let mut sink = MemorySink::new(rt.alloc(), Vec::from_array(rt.alloc(), fails)?);
        for (number, piece) in [b"a", b"b", b"c", b"d"].iter().enumerate() {
            let fails_now = fails.contains(&(number as u64 + 1));
            let wanted = if fails_now { Put::Failed } else { Put::Took(1) };
            assert_eq!(rt; put_all(&mut sink, piece.as_slice()), wanted);
        }
        assert_eq!(rt; sink.bytes(), written);
    }
    Ok(())
}

#[test]
fn a_failed_read_within_a_line(rt: HostRuntime) -> Result<(), Fail> {
    let bytes = b"ab\ncd\n".to_vec(rt.alloc())?;
    let fails = Vec::from_array(rt.alloc(), [3])?;
    let mut source = MemorySource::new(bytes, 2, fails);
    let mut reader = LineReader::new();
    assert_eq!(rt; reader.next_line(&mut source), Line::Text);
    assert_eq!(rt; reader.line(), b"ab".as_slice());
    assert_eq!(rt; reader.next_line(&mut source), Line::Failed);

    // The reader took two reads of two bytes for its line, and nothing at the fault.
    let mut rest = [0; 8];
    assert_eq!(rt; source.read(&mut rest), Got::Bytes(2));
    assert_eq!(rt; rest[0], b'd');
    Ok(())
}
