//! Logs that an auditor judges line by line: each was worked out by hand from the rules.
ghost use Rattle.speed_bin.specs.Header.{IsAccepted};

use crate::{Auditor, Rule, Verdict};
use ddr_text::{read_report_line, report_lines};
use speed_bin::{Header, Version, read_header};
use std::alloc::Global;
use std::test::Fail;

// Takes the line that a text spells; `None` where it spells none, or the log has ended.
fn take(auditor: &mut Auditor, text: &str) -> Option<Verdict> {
    report_lines();
    if auditor.has_ended() {
        return None;
    }
    match read_report_line(text.as_bytes(), auditor.geometry()) {
        Ok(line) => Some(auditor.take(&line)),
        Err(_) => None,
    }
}

// Takes lines as long as they are fine. How many were, and the verdict on the last that was taken.
fn take_all(auditor: &mut Auditor, texts: &[&str]) -> Option<(usize, Verdict)> {
    for (fine, text) in texts.iter().enumerate() {
        match take(auditor, text) {
            Some(Verdict::Fine) => {}
            Some(Verdict::Breaks(rule)) => return Some((fine, Verdict::Breaks(rule))),
            None => return None,
        }
    }
    Some((texts.len(), Verdict::Fine))
}

// The same of an auditor that has taken the register writes without fault.
fn judged(
    alloc: Global,
    header: &Header,
    writes: &[&str],
    texts: &[&str],
) -> Option<(usize, Verdict)>
    requires { IsAccepted header.now }
{
    let mut auditor = match Auditor::new(alloc, header) {
        Ok(auditor) => auditor,
        Err(_) => return None,
    };
    match take_all(&mut auditor, writes) {
        Some((_, Verdict::Fine)) => take_all(&mut auditor, texts),
        Some((_, Verdict::Breaks(_))) => None,
        None => None,
    }
}

const ORDINARY: &str =
    "format = 1\nbin = \"tiny\"\nrows = 16\nath = 5\neth = 3\nraaimt = 8\nraammt = 16\nrefresh = \"all\"\necs_every = 0\n";

const TWO_PER_CYCLE: &str =
    "format = 1\nbin = \"tiny\"\nrows = 1\nath = 3\neth = 3\nraaimt = 8\nraammt = 16\nrefresh = \"all\"\necs_every = 0\n[timing]\nnABO = 13\n";

// One row and two activations a cycle: it is activated four times, which is the bound, before the RFMab.
#[test]
fn two_activations_per_cycle(rt: HostRuntime) -> Result<(), Fail> {
    let version = Version::new(2, 8).ok_or("version")?;
    let header = read_header(rt.alloc(), TWO_PER_CYCLE.as_bytes(), version)?;
    let writes = [
        "C 0 0805 0000",
        "C 4 0825 0000",
        "C 8 0845 0003",
        "C 12 0865 0003",
        "C 16 0885 0000",
        "C 20 08a5 0008",
        "C 24 08c5 0010",
        "C 28 08e5 0000",
    ];
    let tight = [
        "C 32 0000 0000",
        "C 38 001b",
        "C 42 0000 0000",
        "C 48 001b",
        "C 52 0000 0000",
        "C 58 001b",
        "C 62 0000 0000",
        "C 68 001b",
        "C 72 0013",
        "E 73",
    ];
    assert_eq!(rt;
        judged(rt.alloc(), &header, &writes, &tight),
        Some((10, Verdict::Fine))
    );
    let mut one_more = tight;
    one_more[8] = "C 72 0000 0000";
    assert_eq!(rt;
        judged(rt.alloc(), &header, &writes, &one_more),
        Some((8, Verdict::Breaks(Rule(12))))
    );
    Ok(())
}

// Four groups: the same words are other banks and rows than with eight, and an end finds an open bank.
#[test]
fn four_groups(rt: HostRuntime) -> Result<(), Fail> {
    let version = Version::new(4, 4).ok_or("version")?;
    let header = read_header(rt.alloc(), ORDINARY.as_bytes(), version)?;
    let writes = [
        "C 0 0805 000f",
        "C 4 0825 0000",
        "C 8 0845 0005",
        "C 12 0865 0003",
        "C 16 0885 0000",
        "C 20 08a5 0008",
        "C 24 08c5 0010",
        "C 28 08e5 0000",
    ];
    let lines = ["C 32 0040 0000", "C 35 007d 0400", "C 38 000b", "E 39"];
    assert_eq!(rt;
        judged(rt.alloc(), &header, &writes, &lines),
        Some((4, Verdict::Fine))
    );
    let open = ["C 32 0040 0000", "C 35 007d 0400", "C 38 001f", "E 39"];
    assert_eq!(rt;
        judged(rt.alloc(), &header, &writes, &open),
        Some((3, Verdict::Breaks(Rule(14))))
    );
    assert_eq!(rt;
        judged(rt.alloc(), &header, &writes, &["C 32 0400 0000"]),
        None
    );
    assert_eq!(rt; judged(rt.alloc(), &header, &writes, &["C 32 051b"]), None);
    Ok(())
}

// A rule that an end breaks stays the answer, whatever is taken later.
#[test]
fn behind_an_end(rt: HostRuntime) -> Result<(), Fail> {
    let header = read_header(rt.alloc(), ORDINARY.as_bytes(), Version::plain())?;
    let mut auditor = Auditor::new(rt.alloc(), &header)?;
    assert_eq!(rt; take(&mut auditor, "E 4"), Some(Verdict::Breaks(Rule(14))));
    assert_eq!(rt;
        take(&mut auditor, "C 5 0805 000f"),
        Some(Verdict::Breaks(Rule(14)))
    );
    assert_eq!(rt; take(&mut auditor, "E 0"), Some(Verdict::Breaks(Rule(14))));
    assert!(rt; !auditor.has_ended());
    Ok(())
}
