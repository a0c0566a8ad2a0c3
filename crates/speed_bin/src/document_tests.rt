use crate::{HeaderFault, RefreshMode, Version, named, read_header};
use std::test::Fail;

const SMALL: &str =
    "format = 1\nbin = \"tiny\"\nrows = 16\nath = 5\neth = 3\nraaimt = 8\nraammt = 16\nrefresh = \"all\"\necs_every = 0\n";

const LARGE: &str =
    "format = 1\nbin = \"4800-prac\"\nrows = 65536\nath = 64\neth = 32\nraaimt = 32\nraammt = 64\nrefresh = \"all\"\necs_every = 8\n";

#[test]
fn derived_numbers_of_the_bins(rt: HostRuntime) -> Result<(), Fail> {
    let tiny = named("tiny").ok_or("tiny")?;
    assert_eq!(rt; tiny.n_col(), 16);
    assert_eq!(rt; tiny.n_max(), 24);
    assert_eq!(rt; tiny.n_close(), 33);
    assert_eq!(rt; tiny.n_tail(), 569);
    let prac = named("4800-prac").ok_or("4800-prac")?;
    assert_eq!(rt; prac.n_col(), 70);
    assert_eq!(rt; prac.n_max(), 839);
    assert_eq!(rt; prac.n_close(), 247);
    assert_eq!(rt; prac.n_tail(), 3326);
    Ok(())
}

#[test]
fn a_header_is_read(rt: HostRuntime) -> Result<(), Fail> {
    let header = read_header(rt.alloc(), SMALL.as_bytes(), Version::plain())?;
    let tiny = named("tiny").ok_or("tiny")?;
    assert!(rt; header.timing == tiny);
    assert_eq!(rt; header.settings.rows, 16);
    assert_eq!(rt; header.settings.raammt, 16);
    assert!(rt; header.settings.refresh == RefreshMode::All);
    assert_eq!(rt; header.geometry().rows(), 16);
    let replaced = format!(in rt.alloc(); "{SMALL}[timing]\nnRCD = 4\n")?;
    let header = read_header(rt.alloc(), replaced.as_bytes(), Version::plain())?;
    assert_eq!(rt; header.timing.nrcd, 4);
    assert_eq!(rt; header.timing.nras, 6);
    Ok(())
}

#[test]
fn versions_are_within_their_ranges(rt: HostRuntime) -> Result<(), Fail> {
    for cycle in 2..6 {
        let four = Version::new(cycle, 4).ok_or("four groups")?;
        assert_eq!(rt; four.cycle(), cycle);
        assert_eq!(rt; four.groups(), 4);
        let eight = Version::new(cycle, 8).ok_or("eight groups")?;
        assert_eq!(rt; eight.cycle(), cycle);
        assert_eq!(rt; eight.groups(), 8);
    }
    assert!(rt; Version::new(1, 8).is_none());
    assert!(rt; Version::new(6, 8).is_none());
    assert!(rt; Version::new(4, 6).is_none());
    assert!(rt; Version::new(4, 0).is_none());
    assert!(rt; Version::plain() == Version::new(4, 8).ok_or("plain")?);
    Ok(())
}

#[test]
fn checks_read_the_cycle(rt: HostRuntime) -> Result<(), Fail> {
    let alloc = rt.alloc();
    let five = Version::new(5, 8).ok_or("five")?;
    let three = Version::new(3, 8).ok_or("three")?;
    let two = Version::new(2, 8).ok_or("two")?;
    let low = read_header(alloc, SMALL.as_bytes(), five);
    assert!(rt; low == Err(HeaderFault::Check(3)));
    let wide = read_header(alloc, LARGE.as_bytes(), three);
    assert!(rt; wide == Err(HeaderFault::Check(2)));
    let header = read_header(alloc, LARGE.as_bytes(), five)?;
    assert_eq!(rt; header.spare(), 4);
    let tight =
        "format = 1\nbin = 'tiny'\nrows = 1\nath = 3\neth = 3\nraaimt = 8\nraammt = 16\nrefresh = 'all'\necs_every = 0\n[timing]\nnABO = 13\n";
    let header = read_header(alloc, tight.as_bytes(), two)?;
    assert_eq!(rt; header.spare(), 1);
    assert_eq!(rt; header.timing.nabo, 13);
    Ok(())
}

#[test]
fn a_header_of_four_groups_has_half_the_lines(rt: HostRuntime) -> Result<(), Fail> {
    let half = Version::new(4, 4).ok_or("four groups")?;
    let header = read_header(rt.alloc(), SMALL.as_bytes(), half)?;
    assert_eq!(rt; header.geometry().lines(), 16384);
    assert_eq!(rt; header.spare(), 3);
    Ok(())
}

#[test]
fn a_header_is_refused(rt: HostRuntime) -> Result<(), Fail> {
    let alloc = rt.alloc();
    let rows = [
        ("rows = ", HeaderFault::NotToml),
        ("other = 1\n", HeaderFault::Key),
        ("timing = 1\n", HeaderFault::Kind),
        ("[timing]\nnRCX = 'x'\n", HeaderFault::Key),
        ("[timing]\nnRCD = 'x'\n", HeaderFault::Kind),
        ("[timing]\nnRCD = 0\n", HeaderFault::Range),
        ("[timing]\nnRP = 11\n", HeaderFault::Check(1)),
        ("[timing]\nnABO = 34\n", HeaderFault::Check(2)),
        ("[timing]\nnREFI = 642\n", HeaderFault::Check(5)),
        ("[timing]\nnCL = 7\n", HeaderFault::Check(7)),
        ("[timing]\nnCCD_L = 7\n", HeaderFault::Check(8)),
    ];
    for (more, fault) in rows {
        let text = format!(in alloc; "{SMALL}{more}")?;
        assert!(rt; read_header(alloc, text.as_bytes(), Version::plain()) == Err(fault));
    }
    Ok(())
}

#[test]
fn settings_are_refused(rt: HostRuntime) -> Result<(), Fail> {
    let alloc = rt.alloc();
    let rows = [
        (
            "bin = 'tiny'\nath = 5\neth = 3\nraaimt = 8\nrefresh = 1",
            HeaderFault::Kind,
        ),
        (
            "bin = 'tiny'\nath = 5\neth = 3\nraaimt = 8\nrefresh = 'some'",
            HeaderFault::Range,
        ),
        (
            "bin = 'large'\nath = 1024\neth = 3\nraaimt = 8\nrefresh = 'all'",
            HeaderFault::Range,
        ),
        (
            "bin = 'large'\nath = 4\neth = 3\nraaimt = 8\nrefresh = 'all'",
            HeaderFault::NoBin,
        ),
        (
            "bin = 'tiny'\nath = 4\neth = 3\nraaimt = 8\nrefresh = 'all'",
            HeaderFault::Check(3),
        ),
        (
            "bin = 'tiny'\nath = 5\neth = 6\nraaimt = 7\nrefresh = 'all'",
            HeaderFault::Check(3),
        ),
        (
            "bin = 'tiny'\nath = 5\neth = 3\nraaimt = 7\nrefresh = 'all'",
            HeaderFault::Check(4),
        ),
        (
            "bin = 'tiny'\nath = 5\neth = 3\nraaimt = 17\nrefresh = 'all'",
            HeaderFault::Check(4),
        ),
        (
            "bin = '4800-prac'\nath = 5\neth = 3\nraaimt = 8\nrefresh = 'same'\ntiming = { nRP = 100, nRFCsb = 839, nECS = 839 }",
            HeaderFault::Check(6),
        ),
    ];
    for (some, fault) in rows {
        let text = format!(in alloc;
            "format = 1\nrows = 16\nraammt = 16\necs_every = 0\n{some}\n"
        )?;
        assert!(rt; read_header(alloc, text.as_bytes(), Version::plain()) == Err(fault));
    }
    Ok(())
}

#[test]
fn faults_have_texts(rt: HostRuntime) -> Result<(), Fail> {
    let alloc = rt.alloc();
    let rows = [
        (HeaderFault::NotToml, "not TOML"),
        (HeaderFault::Key, "wrong key"),
        (HeaderFault::Kind, "wrong kind"),
        (HeaderFault::Range, "out of range"),
        (HeaderFault::NoBin, "unknown bin"),
        (HeaderFault::Check(7), "check 7 fails"),
        (HeaderFault::OutOfMemory, "out of memory"),
    ];
    for (fault, text) in rows {
        let shown = format!(in alloc; "{fault}")?;
        assert!(rt; shown.as_str() == text);
    }
    Ok(())
}
