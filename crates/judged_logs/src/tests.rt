//! Logs of which a part of the rules is judged: each was worked out by hand from the rules.
ghost use Rattle.speed_bin.specs.Header.{IsAccepted};

use crate::{Auditor, Judged, Rule, Verdict};
use ddr_text::{read_report_line, report_lines};
use speed_bin::{Header, Version, read_header};
use std::alloc::Global;
use std::test::Fail;

// Takes the line that a text spells; `None` where it spells none, or the log has ended.
fn take(auditor: &mut Auditor, text: &str) -> Option<Verdict> {
    report_lines();
    if auditor.has_ended() {
        return None;
    }
    match read_report_line(text.as_bytes(), auditor.geometry()) {
        Ok(line) => Some(auditor.take(&line)),
        Err(_) => None,
    }
}

// Takes lines as long as they are fine. How many were, and the verdict on the last that was taken.
fn take_all(auditor: &mut Auditor, texts: &[&str]) -> Option<(usize, Verdict)> {
    for (fine, text) in texts.iter().enumerate() {
        match take(auditor, text) {
            Some(Verdict::Fine) => {}
            Some(Verdict::Breaks(rule)) => return Some((fine, Verdict::Breaks(rule))),
            None => return None,
        }
    }
    Some((texts.len(), Verdict::Fine))
}

// The same of an auditor that judges these rules and has taken no line.
fn audited(
    alloc: Global,
    header: &Header,
    judged: Judged,
    texts: &[&str],
) -> Option<(usize, Verdict)>
    requires { IsAccepted header.now }
{
    match Auditor::judging(alloc, header, judged) {
        Ok(auditor) => {
            let mut auditor = auditor;
            take_all(&mut auditor, texts)
        }
        Err(_) => None,
    }
}

const PLAIN: &str =
    "format = 1\nbin = \"tiny\"\nrows = 16\nath = 5\neth = 3\nraaimt = 8\nraammt = 16\nrefresh = \"all\"\necs_every = 0\n";

const ROLLING: &str =
    "format = 1\nbin = \"tiny\"\nrows = 16\nath = 100\neth = 50\nraaimt = 8\nraammt = 8\nrefresh = \"all\"\necs_every = 0\n";

const NO_FRAME: Judged = Judged {
    refresh: true,
    management: true,
    backoff: true,
    frame: false,
};

// Spacing and open banks alone.
const NONE: Judged = Judged {
    refresh: false,
    management: false,
    backoff: false,
    frame: false,
};

// A log that begins with no register write is judged all the same where rule 14 is left out.
#[test]
fn without_register_writes(rt: HostRuntime) -> Result<(), Fail> {
    let header = read_header(rt.alloc(), PLAIN.as_bytes(), Version::plain())?;
    let lines = ["C 0 0000 0000", "C 3 002d 0c00", "C 22 000b", "E 23"];
    assert_eq!(rt;
        audited(rt.alloc(), &header, Judged::all(), &lines),
        Some((0, Verdict::Breaks(Rule(14))))
    );
    assert_eq!(rt;
        audited(rt.alloc(), &header, NO_FRAME, &lines),
        Some((4, Verdict::Fine))
    );
    assert_eq!(rt;
        audited(rt.alloc(), &header, NONE, &["C 0 0000 0000", "E 1"]),
        Some((2, Verdict::Fine))
    );
    Ok(())
}

const NO_REFRESH: Judged = Judged {
    refresh: false,
    management: true,
    backoff: true,
    frame: false,
};

const NO_MANAGEMENT: Judged = Judged {
    refresh: true,
    management: false,
    backoff: true,
    frame: false,
};

const NO_BACKOFF: Judged = Judged {
    refresh: true,
    management: true,
    backoff: false,
    frame: false,
};

// What is said of the lines where all rules but 14 are judged, and where these are.
fn kept_and_left_out(
    alloc: Global,
    header: &Header,
    left: Judged,
    texts: &[&str],
) -> Option<(usize, Verdict, usize, Verdict)>
    requires { IsAccepted header.now }
{
    let (fine, kept) = audited(alloc, header, NO_FRAME, texts)?;
    let (fine_there, left_out) = audited(alloc, header, left, texts)?;
    Some((fine, kept, fine_there, left_out))
}

// One refresh that comes too late, one that is uneven, and a scrub where there is none.
#[test]
fn each_rule_of_refreshes(rt: HostRuntime) -> Result<(), Fail> {
    let header = read_header(rt.alloc(), PLAIN.as_bytes(), Version::plain())?;
    let rows = [
        (["C 4999 001f", "C 5000 001f"], 6),
        (["C 0 0613", "C 100 0613"], 7),
        (["C 0 001f", "C 10 018f"], 8),
    ];
    for (lines, rule) in rows {
        assert_eq!(rt;
            kept_and_left_out(rt.alloc(), &header, NO_REFRESH, &lines),
            Some((1, Verdict::Breaks(Rule(rule)), 2, Verdict::Fine)),
            "{rule}"
        );
    }
    Ok(())
}

// Management that nothing wants: by address, and of all banks.
#[test]
fn unwanted_management(rt: HostRuntime) -> Result<(), Fail> {
    let header = read_header(rt.alloc(), PLAIN.as_bytes(), Version::plain())?;
    assert_eq!(rt;
        kept_and_left_out(rt.alloc(), &header, NO_MANAGEMENT, &["C 0 0413"]),
        Some((0, Verdict::Breaks(Rule(10)), 1, Verdict::Fine))
    );
    assert_eq!(rt;
        kept_and_left_out(rt.alloc(), &header, NO_BACKOFF, &["C 0 0013"]),
        Some((0, Verdict::Breaks(Rule(11)), 1, Verdict::Fine))
    );
    // the alert is judged without the rolling counts, and they without it
    assert_eq!(rt;
        kept_and_left_out(rt.alloc(), &header, NO_MANAGEMENT, &["C 0 0013"]),
        Some((0, Verdict::Breaks(Rule(11)), 0, Verdict::Breaks(Rule(11))))
    );
    assert_eq!(rt;
        kept_and_left_out(rt.alloc(), &header, NO_BACKOFF, &["C 0 0413"]),
        Some((0, Verdict::Breaks(Rule(10)), 0, Verdict::Breaks(Rule(10))))
    );
    Ok(())
}

// The first place at which a judged rule fails, and the least judged rule there.
#[test]
fn first_place_and_least_rule(rt: HostRuntime) -> Result<(), Fail> {
    let header = read_header(rt.alloc(), PLAIN.as_bytes(), Version::plain())?;
    // a scrub where there is none, and later an RFMab that nothing wants
    assert_eq!(rt;
        kept_and_left_out(rt.alloc(), &header, NO_REFRESH, &["C 0 018f", "C 100 0013"]),
        Some((0, Verdict::Breaks(Rule(8)), 1, Verdict::Breaks(Rule(11))))
    );
    // at one place: rules 6 and 11, and 14 too where it is judged
    assert_eq!(rt;
        kept_and_left_out(rt.alloc(), &header, NO_REFRESH, &["C 5000 0013"]),
        Some((0, Verdict::Breaks(Rule(6)), 0, Verdict::Breaks(Rule(11))))
    );
    assert_eq!(rt;
        audited(rt.alloc(), &header, Judged::all(), &["C 5000 0013"]),
        Some((0, Verdict::Breaks(Rule(6))))
    );
    Ok(())
}

// Five activations within a window of four.
#[test]
fn window_stays(rt: HostRuntime) -> Result<(), Fail> {
    let header = read_header(rt.alloc(), PLAIN.as_bytes(), Version::plain())?;
    let lines = [
        "C 0 0000 0000",
        "C 2 0100 0000",
        "C 4 0200 0000",
        "C 6 0300 0000",
        "C 9 0400 0000",
    ];
    assert_eq!(rt;
        kept_and_left_out(rt.alloc(), &header, NONE, &lines),
        Some((4, Verdict::Breaks(Rule(3)), 4, Verdict::Breaks(Rule(3))))
    );
    Ok(())
}

// Rules 1 to 5 are judged whatever is left out.
#[test]
fn spacing_and_banks_stay(rt: HostRuntime) -> Result<(), Fail> {
    let header = read_header(rt.alloc(), PLAIN.as_bytes(), Version::plain())?;
    // the lines, and the least rule that the last of them breaks
    let rows = [
        (["C 0 0000 0000", "C 0 0100 0000"], 1),
        (["C 0 0000 0000", "C 1 0100 0000"], 2),
        (["C 0 0000 0000", "C 100 0000 0000"], 4),
        (["C 0 0000 0000", "C 100 0213"], 5),
    ];
    for (lines, rule) in rows {
        assert_eq!(rt;
            audited(rt.alloc(), &header, NONE, &lines),
            Some((1, Verdict::Breaks(Rule(rule))))
        );
    }
    Ok(())
}

// A command far behind the refreshes that are due, and a scrub where there is none.
#[test]
fn without_refreshes(rt: HostRuntime) -> Result<(), Fail> {
    let header = read_header(rt.alloc(), PLAIN.as_bytes(), Version::plain())?;
    let lines = ["C 5000 001f", "C 6000 018f", "E 9000"];
    assert_eq!(rt;
        audited(rt.alloc(), &header, NO_FRAME, &lines),
        Some((0, Verdict::Breaks(Rule(6))))
    );
    assert_eq!(rt;
        audited(rt.alloc(), &header, NONE, &lines),
        Some((3, Verdict::Fine))
    );
    Ok(())
}

// Nine activations of one bank, each closed again, whose rolling count may be 8 at most: an RFMab is wanted then.
#[test]
fn counts_without_a_limit(rt: HostRuntime) -> Result<(), Fail> {
    let header = read_header(rt.alloc(), ROLLING.as_bytes(), Version::plain())?;
    let lines = [
        "C 0 0000 0000",
        "C 8 001b",
        "C 16 0000 0000",
        "C 24 001b",
        "C 32 0000 0000",
        "C 40 001b",
        "C 48 0000 0000",
        "C 56 001b",
        "C 64 0000 0000",
        "C 72 001b",
        "C 80 0000 0000",
        "C 88 001b",
        "C 96 0000 0000",
        "C 104 001b",
        "C 112 0000 0000",
        "C 120 001b",
        "C 128 0000 0000",
        "C 136 001b",
        "C 200 0013",
        "C 300 0013",
    ];
    assert_eq!(rt;
        audited(rt.alloc(), &header, NO_FRAME, &lines),
        Some((16, Verdict::Breaks(Rule(9))))
    );
    // The count is 9, the first RFMab takes 8 of it, and then none is wanted.
    assert_eq!(rt;
        audited(rt.alloc(), &header, NO_MANAGEMENT, &lines),
        Some((19, Verdict::Breaks(Rule(11))))
    );
    assert_eq!(rt;
        audited(rt.alloc(), &header, NONE, &lines),
        Some((20, Verdict::Fine))
    );
    Ok(())
}

// Five activations of a row raise the alert, which is not answered: rule 12 at an ACT, rule 13 at any other command.
#[test]
fn without_the_alert(rt: HostRuntime) -> Result<(), Fail> {
    let header = read_header(rt.alloc(), PLAIN.as_bytes(), Version::plain())?;
    let activated = [
        "C 0 0000 0000",
        "C 8 001b",
        "C 16 0000 0000",
        "C 24 001b",
        "C 32 0000 0000",
        "C 40 001b",
        "C 48 0000 0000",
        "C 56 001b",
        "C 64 0000 0000",
        "C 72 001b",
        "C 900 0000 0000",
        "C 1000 001b",
    ];
    assert_eq!(rt;
        kept_and_left_out(rt.alloc(), &header, NO_BACKOFF, &activated),
        Some((10, Verdict::Breaks(Rule(12)), 12, Verdict::Fine))
    );
    let mut idle = activated;
    idle[10] = "C 900 001f";
    assert_eq!(rt;
        kept_and_left_out(rt.alloc(), &header, NO_BACKOFF, &idle),
        Some((10, Verdict::Breaks(Rule(13)), 12, Verdict::Fine))
    );
    Ok(())
}

// A rule that an end breaks stays the answer, and an end with a raised alert is fine where no alert is judged.
#[test]
fn ends(rt: HostRuntime) -> Result<(), Fail> {
    let header = read_header(rt.alloc(), PLAIN.as_bytes(), Version::plain())?;
    let mut only_frame = NONE;
    only_frame.frame = true;
    let mut auditor = Auditor::judging(rt.alloc(), &header, only_frame)?;
    assert_eq!(rt; take(&mut auditor, "E 4"), Some(Verdict::Breaks(Rule(14))));
    assert_eq!(rt;
        take(&mut auditor, "C 5 0805 000f"),
        Some(Verdict::Breaks(Rule(14)))
    );
    assert!(rt; !auditor.has_ended());
    let lines = [
        "C 0 0805 000f",
        "C 4 0825 0000",
        "C 8 0845 0005",
        "C 12 0865 0003",
        "C 16 0885 0000",
        "C 20 08a5 0008",
        "C 24 08c5 0010",
        "C 28 08e5 0000",
        "C 132 0000 0000",
        "C 140 001b",
        "C 148 0000 0000",
        "C 156 001b",
        "C 164 0000 0000",
        "C 172 001b",
        "C 180 0000 0000",
        "C 188 001b",
        "C 196 0000 0000",
        "C 204 001b",
        "E 205",
    ];
    assert_eq!(rt;
        audited(rt.alloc(), &header, only_frame, &lines),
        Some((19, Verdict::Fine))
    );
    assert_eq!(rt;
        audited(rt.alloc(), &header, Judged::all(), &lines),
        Some((18, Verdict::Breaks(Rule(14))))
    );
    Ok(())
}
