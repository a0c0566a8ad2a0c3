//! Pieces that are written, and writes that fail.
use crate::{ReportLine, Stop, put, put_line, put_lines, refuse};
use ddr_io::{MemorySink, PlainSink, Status};
use std::test::Fail;

#[test]
fn pieces_one_behind_the_other(rt: HostRuntime) -> Result<(), Fail> {
    let mut sink = PlainSink::new(rt.alloc());
    assert_eq!(rt; put(b"a = 1\n", &mut sink), Ok(()));
    assert_eq!(rt; put(b"", &mut sink), Ok(()));
    assert_eq!(rt; put_line(&ReportLine::End(55), &mut sink), Ok(()));
    let lines = [ReportLine::End(56), ReportLine::Refused(2, 9)];
    assert_eq!(rt; put_lines(&lines, &mut sink), Ok(()));
    assert_eq!(rt; refuse(0, 16, &mut sink), Status::Refused);
    assert_eq!(rt;
        sink.bytes(),
        b"a = 1\nE 55\nE 56\nX 2 9\nX 0 16\n".as_slice()
    );
    Ok(())
}

#[test]
fn a_write_that_fails(rt: HostRuntime) -> Result<(), Fail> {
    // The write that fails, and what two lines and a refusal leave.
    let table = [
        (
            1,
            Err(Stop::WriteFault),
            Status::Refused,
            b"X 0 16\n".as_slice(),
        ),
        (
            2,
            Err(Stop::WriteFault),
            Status::Refused,
            b"E 55\nX 0 16\n".as_slice(),
        ),
        (3, Ok(()), Status::WriteFault, b"E 55\nE 56\n".as_slice()),
    ];
    for (fails, answer, status, written) in table {
        let mut sink = MemorySink::new(rt.alloc(), Vec::from_array(rt.alloc(), [fails])?);
        let lines = [ReportLine::End(55), ReportLine::End(56)];
        assert_eq!(rt; put_lines(&lines, &mut sink), answer);
        assert_eq!(rt; refuse(0, 16, &mut sink), status);
        assert_eq!(rt; sink.bytes(), written);
    }
    Ok(())
}
