//! Which lines of a report are read in their places, and how the reading ends: each row from the format.
use crate::{Next, ReportReader};
use command_words::Geometry;
use ddr_io::{LineReader, PlainSource};
use std::alloc::Global;
use std::test::Fail;

// How a report with these lines behind its opening ends.
fn end_of(alloc: Global, lines: &str) -> Result<Next, Fail> {
    let mut source = PlainSource::new(lines.as_bytes().to_vec(alloc)?);
    let Some(geometry) = Geometry::new(16, 8) else {
        return Ok(Next::Failed);
    };
    let mut report = ReportReader::new(LineReader::new(), geometry);
    for _ in 0..20_usize {
        match report.next(&mut source) {
            Next::Line(_) => {}
            Next::End => return Ok(Next::End),
            Next::Refused(line, reason) => return Ok(Next::Refused(line, reason)),
            Next::Failed => return Ok(Next::Failed),
        }
    }
    Ok(Next::Failed)
}

#[test]
fn lines_stand_in_their_places(rt: HostRuntime) -> Result<(), Fail> {
    let rows = [
        ("", Next::Refused(1, 19)),
        ("E 0\n", Next::End),
        ("E 0\nX 2 6\n", Next::End),
        (
            "C 32 001f\nF 33 0 1 1\nC 34 001f\nS act 0\nS rd 0\nE 40\n",
            Next::End,
        ),
        ("C 32 001f\nS act 0\n", Next::Refused(3, 19)),
        ("S act 0\nC 32 001f\nE 40\n", Next::Refused(2, 18)),
        ("X 2 6\n", Next::Refused(1, 18)),
        ("E 40\nC 41 001f\n", Next::Refused(2, 18)),
        ("E 40\nE 41\n", Next::Refused(2, 18)),
        ("E 40\nX 2 6\nX 2 6\n", Next::Refused(3, 18)),
        ("E 40", Next::Refused(1, 8)),
        ("E 40\nX 2 6", Next::Refused(2, 8)),
        ("C 032 001f\nE 40\n", Next::Refused(1, 4)),
        ("\nE 40\n", Next::Refused(1, 1)),
    ];
    for (lines, end) in rows {
        assert_eq!(rt; end_of(rt.alloc(), lines)?, end, "{lines}");
    }
    Ok(())
}
