//! What no clause says: what the program prints and writes for whole jobs.
use crate::{Fault, at_end, fault_of, run};
use ddr_io::{PlainSink, PlainSource, Source, Status};
use std::alloc::Global;
use std::process::Abort;
use std::test::Fail;

// The words of a command line.
fn words_of(alloc: Global, texts: &[&str]) -> Result<Vec<String>, Fail> {
    let mut words = Vec::new(alloc);
    for text in texts {
        words.push(String::from_str(alloc, text)?)?;
    }
    Ok(words)
}

// Runs the program with these words on these bytes.
fn run_with(alloc: Global, texts: &[&str], input: &[u8]) -> Result<(Status, PlainSink), Fail> {
    let words = words_of(alloc, texts)?;
    let mut source = PlainSource::new(input.to_vec(alloc)?);
    let mut sink = PlainSink::new(alloc);
    let status = run(alloc, &words, &mut source, &mut sink);
    Ok((status, sink))
}

const JOB: &[u8] =
    b"format = 1\nbin = \"tiny\"\nrows = 16\nath = 5\neth = 3\nraaimt = 8\nraammt = 16\nrefresh = \"all\"\necs_every = 0\n---\nW 0 11000000000000000000000000000000000000000000000000000000000000000000000000000000000000000000000000000000000000000000000000000000\nR 0\n";

const REPORT: &[u8] =
    b"format = 1\nbin = \"tiny\"\nrows = 16\nath = 5\neth = 3\nraaimt = 8\nraammt = 16\nrefresh = \"all\"\necs_every = 0\n---\nC 0 0805 000f\nC 4 0825 0000\nC 8 0845 0005\nC 12 0865 0003\nC 16 0885 0000\nC 20 08a5 0008\nC 24 08c5 0010\nC 28 08e5 0000\nC 32 0000 0000\nC 35 002d 0c00\nC 51 003d 0400\nD 2 0 11000000000000000000000000000000000000000000000000000000000000000000000000000000000000000000000000000000000000000000000000000000 ok\nC 54 000b\nS act 1\nS rd 1\nS wr 1\nS pre 1\nS refab 0\nS refsb 0\nS rfmab 0\nS rfmsb 0\nS ecs 0\nS alert 0\nS peak 1\nS found 0\nS lost 0\nS worst 0\nE 55\n";

const SHOWN: &[u8] =
    b"0 MRW m64 v15\n4 MRW m65 v0\n8 MRW m66 v5\n12 MRW m67 v3\n16 MRW m68 v0\n20 MRW m69 v8\n24 MRW m70 v16\n28 MRW m71 v0\n32 ACT g0 b0 r0\n35 WR g0 b0 c0\n51 RD g0 b0 c0\n54 PREAB\n";

const MADE: &str =
    "format = 1\nbin = \"4800-prac\"\nrows = 65536\nath = 64\neth = 32\nraaimt = 32\nraammt = 64\nrefresh = \"all\"\necs_every = 8\n---\nR 1\nW 110622959 d4032c82f28c3e94e3dd751b306fdeaf798b74c9b4a7a92379c50377b886315bfc7cef55ecd00c841c4c4973da31b0c65a37bbe6dd1141ece618281753805f4a\nW 110622960 37ec446489d6bf49d877723a7dc89213c821f450842b2f61adddde953191fe79436f38a8a9fdb6a646bc32a5b5e3dcb19d8696e0de7a081319bf09b7590933af\nW 110622961 5d8569af99d1426d18cc9d42690f480ea09eab3f7af59d258220c41a710e139d20fe571f188d63fd0cadc936749724915cb2b2399179abe4b31df42421eb0782\nR 4096\n";

#[test]
fn a_job_is_served(rt: HostRuntime) -> Result<(), Fail> {
    let (status, report) = run_with(rt.alloc(), &["replay"], JOB)?;
    assert_eq!(rt; status, Status::Ok);
    assert_eq!(rt; report.bytes(), REPORT);
    Ok(())
}

#[test]
fn a_job_is_made(rt: HostRuntime) -> Result<(), Fail> {
    let (status, job) = run_with(rt.alloc(), &["gen", "1", "5"], b"left")?;
    assert_eq!(rt; status, Status::Ok);
    assert_eq!(rt; job.bytes(), MADE.as_bytes());
    Ok(())
}

#[test]
fn commands_are_shown(rt: HostRuntime) -> Result<(), Fail> {
    let (status, shown) = run_with(rt.alloc(), &["show"], REPORT)?;
    assert_eq!(rt; status, Status::Ok);
    assert_eq!(rt; shown.bytes(), SHOWN);
    Ok(())
}

#[test]
fn a_refused_line_ends_what_is_shown(rt: HostRuntime) -> Result<(), Fail> {
    let report =
        b"format = 1\nbin = \"tiny\"\nrows = 16\nath = 5\neth = 3\nraaimt = 8\nraammt = 16\nrefresh = \"all\"\necs_every = 0\n---\nC 3 001f\nQ\n";
    let (status, shown) = run_with(rt.alloc(), &["show"], report)?;
    assert_eq!(rt; status, Status::Refused);
    assert_eq!(rt; shown.bytes(), b"3 NOP\nX 2 2\n".as_slice());
    Ok(())
}

// The number of the S line with this name, 0 where there is none.
fn count_of(ending: &PlainSink, name: &str) -> Result<u64, Fail> {
    let text = str::from_utf8(ending.bytes())?;
    for line in text.lines() {
        if let Some(number) = line.strip_prefix(name) {
            return Ok(number.parse()?);
        }
    }
    Ok(0)
}

// A made job is replayed, and its report is audited: `gen run` ends as the report does, and all requests are served.
fn is_served_whole(rt: &impl Abort, alloc: Global, requests: &str, count: u64) -> Result<(), Fail> {
    let (made, job) = run_with(alloc, &["gen", "1", requests], b"")?;
    let (replayed, report) = run_with(alloc, &["replay"], job.bytes())?;
    let (audited, verdict) = run_with(alloc, &["audit"], report.bytes())?;
    let (run, ending) = run_with(alloc, &["gen", "run", "1", requests], b"")?;
    assert_eq!(rt;
        (made, replayed, audited, run),
        (Status::Ok, Status::Ok, Status::Ok, Status::Ok)
    );
    assert_eq!(rt; verdict.bytes(), b"A ok\n".as_slice());
    assert!(rt; ending.bytes().starts_with(b"S act "));
    assert!(rt; report.bytes().ends_with(ending.bytes()));
    let reads = count_of(&ending, "S rd ")?;
    let writes = count_of(&ending, "S wr ")?;
    assert_eq!(rt; reads.checked_add(writes), Some(count));
    Ok(())
}

#[test]
fn a_made_job_is_replayed_and_audited(rt: HostRuntime) -> Result<(), Fail> {
    for (requests, count) in [("0", 0), ("1", 1), ("100", 100), ("300", 300)] {
        is_served_whole(&rt, rt.alloc(), requests, count)?;
    }
    Ok(())
}

// `rt try --test` takes minutes for this one; the gate builds it and takes seconds.
#[test]
fn a_large_made_job_is_replayed_and_audited(rt: HostRuntime) -> Result<(), Fail> {
    is_served_whole(&rt, rt.alloc(), "100000", 100_000)
}

#[test]
fn a_made_job_is_run_alike_each_time(rt: HostRuntime) -> Result<(), Fail> {
    let alloc = rt.alloc();
    let (_, first) = run_with(alloc, &["gen", "run", "1", "100"], b"")?;
    let (status, second) = run_with(alloc, &["gen", "run", "1", "100"], b"")?;
    assert_eq!(rt; status, Status::Ok);
    assert_eq!(rt; first.bytes(), second.bytes());
    Ok(())
}

// The report of a job whose opening has this bin, these rows, this line of `ath` and this end.
fn opened_with(
    alloc: Global,
    (bin, rows, ath, end): (&str, &str, &str, &str),
) -> Result<(Status, PlainSink), Fail> {
    let job = format!(in alloc;
        "format = 1\nbin = \"{bin}\"\nrows = {rows}\n{ath}eth = 3\nraaimt = 8\nraammt = 16\nrefresh = \"all\"\necs_every = 0\n{end}"
    )?;
    run_with(alloc, &["replay"], job.as_bytes())
}

#[test]
fn headers_are_refused(rt: HostRuntime) -> Result<(), Fail> {
    let rows = [
        (
            ("tiny", "16", "ath = 5\n", "[timing]\nnABO = 34\n---\n"),
            "X 0 22\n",
        ),
        (("tiny", "0", "ath = 5\n", "---\n"), "X 0 14\n"),
        (("fast", "16", "ath = 5\n", "---\n"), "X 0 15\n"),
        (("tiny", "16", "", "---\n"), "X 0 12\n"),
        (("tiny", "16", "ath = \"5\"\n", "---\n"), "X 0 13\n"),
        (("tiny", "16", "ath = \n", "---\n"), "X 0 11\n"),
        (("tiny", "16", "ath = 5\n", ""), "X 0 16\n"),
    ];
    for (opening, want) in rows {
        let (status, report) = opened_with(rt.alloc(), opening)?;
        assert_eq!(rt; status, Status::Refused);
        assert_eq!(rt; report.bytes(), want.as_bytes());
    }
    let accepted = ("tiny", "16", "ath = 5\n", "[timing]\nnABO = 33\n---\n");
    assert_eq!(rt; opened_with(rt.alloc(), accepted)?.0, Status::Ok);
    Ok(())
}

// Words that are none of the listed forms.
const OTHER_WORDS: [&[&str]; 38] = [
    &[],
    &["replay", "now"],
    &["Replay"],
    &["audit", "show"],
    &["Show"],
    &["--help"],
    &["gen"],
    &["gen", "5"],
    &["gen", "01", "5"],
    &["gen", "1", "05"],
    &["gen", "18446744073709551616", "5"],
    &["gen", "1", "1048577"],
    &["gen", "1", "5", "5"],
    &["gen", "run", "5"],
    &["gen", "run", "1", "05"],
    &["gen", "run", "1", "5", "5"],
    &["run", "1", "5"],
    &["Gen", "1", "5"],
    &["ports"],
    &["merge"],
    &["ports", "0"],
    &["merge", "33"],
    &["ports", "02"],
    &["merge", "+2"],
    &["ports", "2", "2"],
    &["merge", "4294967298"],
    &["2", "merge"],
    &["exec", "2"],
    &["Exec"],
    &["exec", "exec"],
    &["spare"],
    &["spare", "5"],
    &["spare", "01"],
    &["spare", "+1"],
    &["spare", "1", "1"],
    &["spare", "256"],
    &["1", "spare"],
    &["Spare", "1"],
];

#[test]
fn other_words(rt: HostRuntime) -> Result<(), Fail> {
    let alloc = rt.alloc();
    for row in OTHER_WORDS {
        let words = words_of(alloc, row)?;
        let mut source = PlainSource::new(b"left".to_vec(alloc)?);
        let mut sink = PlainSink::new(alloc);
        assert_eq!(rt; run(alloc, &words, &mut source, &mut sink), Status::Usage);
        let mut left = [0; 8];
        let _ = source.read(&mut left);
        assert_eq!(rt; &left[..4], b"left".as_slice());
        assert_eq!(rt; sink.bytes(), b"".as_slice());
    }
    Ok(())
}

#[test]
fn faults_are_told(rt: HostRuntime) -> Result<(), Fail> {
    let rows = [
        (
            Status::Usage,
            "usage: ddr replay | audit | show | gen [run] SEED REQUESTS | upgrade | ports CAP | merge CAP | exec | spare DEVICE | pair",
        ),
        (Status::ReadFault, "read fault"),
        (Status::WriteFault, "write fault"),
        (Status::OutOfMemory, "out of memory"),
    ];
    for (status, want) in rows {
        let fault = fault_of(status).unwrap_or(Fault::Usage);
        let text = format!(in rt.alloc(); "{fault}")?;
        assert_eq!(rt; text.as_str(), want);
    }
    assert_eq!(rt; fault_of(Status::Ok), None);
    assert_eq!(rt; at_end(Status::Refused, false), Status::WriteFault);
    assert_eq!(rt; at_end(Status::ReadFault, false), Status::ReadFault);
    Ok(())
}
