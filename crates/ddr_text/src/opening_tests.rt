//! What no clause says: that a job is opened at all, where memory is found. The openings and their reasons are written from
//! the format.
use crate::{Opening, open_job};
use ddr_io::{Line, LineReader, PlainSource};
use std::alloc::Global;
use std::test::Fail;

const HEADER: &str =
    "format = 1\nbin = \"tiny\"\nrows = 16\nath = 6\neth = 3\nraaimt = 8\nraammt = 16\nrefresh = \"all\"\necs_every = 0\n";

// Each separator, with the cycle and the groups that it states.
#[test]
fn a_job_is_opened(rt: HostRuntime) -> Result<(), Fail> {
    let alloc = rt.alloc();
    let rows = [
        ("---", 4, 8),
        ("--- 2 4 8", 4, 8),
        ("--- 2 4 4", 4, 4),
        ("--- 2 5 8", 5, 8),
        ("--- 2 5 4", 5, 4),
    ];
    for (separator, cycle, groups) in rows {
        let opening = format!(in alloc; "{HEADER}{separator}\n")?;
        let job = format!(in alloc; "{opening}R 0\n--- 2 6 8\n")?;
        let mut source = PlainSource::new(job.as_bytes().to_vec(alloc)?);
        let mut reader = LineReader::new();
        match open_job(alloc, &mut reader, &mut source)? {
            Opening::Accepted(header, text) => {
                assert_eq!(rt; header.settings.rows, 16);
                assert_eq!(rt; header.version.cycle(), cycle);
                assert_eq!(rt; header.version.groups(), groups);
                assert_eq!(rt; text.bytes(), opening.as_bytes());
            }
            Opening::Refused(_) | Opening::Failed => assert!(rt; false),
        }
        assert_eq!(rt; reader.next_line(&mut source), Line::Text);
        assert_eq!(rt; reader.line(), b"R 0".as_slice());
    }
    Ok(())
}

// The reason to refuse a job of these bytes, where it is refused.
fn reason_of(alloc: Global, job: Vec<u8>) -> Result<Option<u8>, Fail> {
    let mut source = PlainSource::new(job);
    let mut reader = LineReader::new();
    match open_job(alloc, &mut reader, &mut source)? {
        Opening::Refused(reason) => Ok(Some(reason)),
        Opening::Accepted(_, _) => Ok(None),
        Opening::Failed => Ok(None),
    }
}

#[test]
fn a_header_is_refused(rt: HostRuntime) -> Result<(), Fail> {
    let alloc = rt.alloc();
    let rows = [
        ("---\n", 12),
        ("--- 2 4 8\n", 12),
        ("format = \n---\n", 11),
        ("format = \n--- 2 5 4\n", 11),
        ("format = 1\n---\nrows = 16\n---\n", 12),
        ("---", 16),
        ("--- 2 4 8", 16),
        ("format = 1\n", 16),
        ("", 16),
    ];
    for (job, reason) in rows {
        let job = job.as_bytes().to_vec(alloc)?;
        assert_eq!(rt; reason_of(alloc, job)?, Some(reason));
    }
    Ok(())
}

// The checks of a header take the cycle that its separator states.
#[test]
fn a_cycle_is_checked(rt: HostRuntime) -> Result<(), Fail> {
    let alloc = rt.alloc();
    let rows = [
        (6, "--- 2 2 8", Some(22)),
        (6, "--- 2 3 4", Some(22)),
        (6, "--- 2 5 8", None),
        (5, "--- 2 5 8", Some(23)),
        (5, "---", None),
        (4, "---", Some(23)),
    ];
    for (ath, separator, reason) in rows {
        let job = format!(in alloc;
            "format = 1\nbin = \"tiny\"\nrows = 16\nath = {ath}\neth = 3\nraaimt = 8\nraammt = 16\nrefresh = \"all\"\necs_every = 0\n{separator}\n"
        )?;
        let job = job.as_bytes().to_vec(alloc)?;
        assert_eq!(rt; reason_of(alloc, job)?, reason, "{ath}, {separator}");
    }
    Ok(())
}

// The reasons to refuse a line before a separator: behind a header that is right, behind one that is not, and without its
// line feed.
fn reasons_at(alloc: Global, line: &str) -> Result<[Option<u8>; 3], Fail> {
    let whole = format!(in alloc; "{HEADER}{line}\n---\n")?;
    let wrong = format!(in alloc; "format = \n{line}\n")?;
    let unended = format!(in alloc; "{HEADER}{line}")?;
    Ok([
        reason_of(alloc, whole.as_bytes().to_vec(alloc)?)?,
        reason_of(alloc, wrong.as_bytes().to_vec(alloc)?)?,
        reason_of(alloc, unended.as_bytes().to_vec(alloc)?)?,
    ])
}

const FAULTY: [Option<u8>; 3] = [Some(29), Some(29), Some(16)];

#[test]
fn separators_of_other_fields(rt: HostRuntime) -> Result<(), Fail> {
    for line in [
        "--- ",
        "---  ",
        "--- x",
        "--- ---",
        "--- 2",
        "--- 2 4",
        "--- 2 4 8 1",
    ] {
        assert_eq!(rt; reasons_at(rt.alloc(), line)?, FAULTY, "{line}");
    }
    Ok(())
}

#[test]
fn separators_with_other_spaces(rt: HostRuntime) -> Result<(), Fail> {
    for line in [
        "---  2 4 8",
        "--- 2  4 8",
        "--- 2 4 8 ",
        "--- 2 4 8\r",
        "--- 1 4 8",
        "--- 3 4 8",
    ] {
        assert_eq!(rt; reasons_at(rt.alloc(), line)?, FAULTY, "{line}");
    }
    Ok(())
}

#[test]
fn separators_whose_numbers_are_none(rt: HostRuntime) -> Result<(), Fail> {
    for line in [
        "--- 02 4 8",
        "--- 2 04 8",
        "--- 2 4 08",
        "--- 2 +4 8",
        "--- 2 4 -8",
        "--- 2 x 8",
        "--- 2 18446744073709551616 8",
        "--- 2 4 99999999999999999999999999999999999999",
    ] {
        assert_eq!(rt; reasons_at(rt.alloc(), line)?, FAULTY, "{line}");
    }
    Ok(())
}

#[test]
fn separators_out_of_range(rt: HostRuntime) -> Result<(), Fail> {
    for line in [
        "--- 2 0 8",
        "--- 2 1 8",
        "--- 2 6 8",
        "--- 2 4 0",
        "--- 2 4 5",
        "--- 2 4 6",
        "--- 2 4 16",
        "--- 2 8 4",
        "--- 2 4 264",
        "--- 2 4294967300 8",
    ] {
        assert_eq!(rt; reasons_at(rt.alloc(), line)?, FAULTY, "{line}");
    }
    Ok(())
}

// They make the header no TOML; were one of them a separator, the job would be accepted.
#[test]
fn lines_of_a_header(rt: HostRuntime) -> Result<(), Fail> {
    let alloc = rt.alloc();
    for line in [
        "----",
        " ---",
        "-- 2 4 8",
        "----- 2 4 8",
        "---\t",
        "---\t2 4 8",
        "---\r",
        "---2 4 8",
    ] {
        let job = format!(in alloc; "{HEADER}{line}\n---\n")?;
        assert_eq!(rt;
            reason_of(alloc, job.as_bytes().to_vec(alloc)?)?,
            Some(11),
            "{line}"
        );
        let alone = format!(in alloc; "{HEADER}{line}\n")?;
        assert_eq!(rt;
            reason_of(alloc, alone.as_bytes().to_vec(alloc)?)?,
            Some(16),
            "{line}"
        );
    }
    Ok(())
}

// Comments of so many bytes in lines of 512, and this text behind them.
fn behind_comments(alloc: Global, count: usize, text: &str) -> Result<Vec<u8>, Fail> {
    let mut bytes = Vec::new(alloc);
    for at in 1..=count {
        let ends = at == count || at % 512 == 0;
        bytes.push(if ends { b'\n' } else { b'#' })?;
    }
    bytes.extend_from_slice(text.as_bytes())?;
    Ok(bytes)
}

// A header has at most 65,536 bytes; a line that begins as a separator and is none counts, a separator does not.
#[test]
fn lengths_of_a_header(rt: HostRuntime) -> Result<(), Fail> {
    let alloc = rt.alloc();
    let rows = [
        (65_526, "--- 2 6 8\n", 29),
        (65_527, "--- 2 6 8\n", 17),
        (65_530, "--- 2 6 8\n", 17),
        (65_530, "--- 2 6 8", 16),
        (65_536, "--- \n", 17),
        (65_536, "--- 2 4 8\n", 12),
        (65_536, "---\n", 12),
        (65_536, "\n---\n", 17),
        (65_536, "", 16),
        (65_536, "# unended", 16),
    ];
    for (count, text, reason) in rows {
        let job = behind_comments(alloc, count, text)?;
        assert_eq!(rt; reason_of(alloc, job)?, Some(reason), "{count}, {text}");
    }
    Ok(())
}

// A line has at most 511 bytes, also one that begins as a separator.
#[test]
fn lengths_of_a_faulty_separator(rt: HostRuntime) -> Result<(), Fail> {
    let alloc = rt.alloc();
    for (count, reason) in [(507, 29), (508, 17), (600, 17)] {
        let mut job = b"--- ".to_vec(alloc)?;
        job.extend_from_slice(&vec![in alloc; b'8'; count]?)?;
        job.push(b'\n')?;
        assert_eq!(rt; reason_of(alloc, job)?, Some(reason));
    }
    Ok(())
}
