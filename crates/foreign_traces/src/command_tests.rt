//! Lines of both tools' command traces, and traces as reports, by the tools' formats.
use crate::{
    CommandFault, CommandField, Entry, Lacking, Reading, Stop, Tool, read_command_line,
    write_report_of,
};
use command_words::{Bank, BankAddr, Column, Command, Geometry, Row};
use ddr_io::{PlainSink, PlainSource};
use speed_bin::{Version, read_header};
use std::alloc::Global;
use std::test::Fail;

const HEADER: &str =
    "format = 1\nbin = \"tiny\"\nrows = 16\nath = 5\neth = 3\nraaimt = 8\nraammt = 16\nrefresh = \"all\"\necs_every = 0\n";

const WRITES: &str =
    "C 0 0805 000f\nC 4 0825 0000\nC 8 0845 0005\nC 12 0865 0003\nC 16 0885 0000\nC 20 08a5 0008\nC 24 08c5 0010\nC 28 08e5 0000\n";

// The trace of one bank that is opened, read and closed, and one that stays open.
const RAMULATOR2: &str =
    "# a note\n100, ACT, 0, 0, 1, 2, 5, -1\n103, RD, 0, 0, 1, 2, 5, 3\n\n108, PRE, 0, 0, 1, 2, 5, -1\n109, ACT, 0, 0, 0, 0, 1, 0\n";

// The same of DRAMsim3.
const DRAMSIM3: &str =
    "100                activate               0   0   1   2      0x5      0x3\n103                read                   0   0   1   2      0x5      0x3\n108                precharge              0   0   1   2      0x5      0x3\n109                activate               0   0   0   0      0x1      0x0\n";

// What both say. A PREab comes nMax, which is 24, after the last command.
const REPORT: &str = "C 32 0194 0000\nC 35 01bd 040c\nC 40 019b\nC 41 0004 0000\nC 65 000b\nE 66\n";

// How a trace ends, and the report that is made of it behind the separator.
#[derive(Drop)]
struct Imported {
    ended: Result<(), Stop<CommandFault>>,
    report: Vec<u8>,
}

fn import_trace(alloc: Global, reading: Reading, trace: &str) -> Result<Imported, Fail> {
    let header = read_header(alloc, HEADER.as_bytes(), Version::plain())?;
    let mut source = PlainSource::new(trace.as_bytes().to_vec(alloc)?);
    let mut sink = PlainSink::new(alloc);
    let ended = write_report_of(reading, &header, b"---\n", &mut source, &mut sink);
    let report = sink.into_bytes();
    Ok(Imported { ended, report })
}

#[test]
fn traces_as_reports(rt: HostRuntime) -> Result<(), Fail> {
    let alloc = rt.alloc();
    let whole = format!(in alloc; "---\n{WRITES}{REPORT}")?;
    for (tool, trace) in [(Tool::Ramulator2, RAMULATOR2), (Tool::Dramsim3, DRAMSIM3)] {
        let it = import_trace(alloc, Reading { tool, drops: false }, trace)?;
        assert_eq!(rt; it.ended, Ok(()));
        assert_eq!(rt; it.report.as_slice(), whole.as_bytes());
    }
    Ok(())
}

#[test]
fn what_ends_a_trace(rt: HostRuntime) -> Result<(), Fail> {
    let alloc = rt.alloc();
    let rows = [
        (
            "1, ACT, 0, 0, 1, 2, 5, -1\n2, RDA, 0, 0, 1, 2, 5, 3\n",
            false,
            Err(Stop::Line(2, CommandFault::Lacking(Lacking::ReadPrecharge))),
        ),
        ("2, RDA, 0, 0, 1, 2, 5, 3\n", true, Ok(())),
        (
            "9, PREA, 0, 0, -1, -1, -1, -1\n8, PREA, 0, 0, -1, -1, -1, -1\n",
            false,
            Err(Stop::Line(2, CommandFault::ClockRange)),
        ),
        (
            "0, PREA, 0, 0, -1, -1, -1, -1\n281474976448480, PREA, 0, 0, -1, -1, -1, -1\n",
            false,
            Err(Stop::Line(2, CommandFault::ClockRange)),
        ),
        (
            "0, PREA, 0, 0, -1, -1, -1, -1\n281474976448479, ACT, 0, 0, 0, 0, 1, -1\n",
            false,
            Ok(()),
        ),
        (
            "0, PREA, 0, 0, -1, -1, -1, -1",
            false,
            Err(Stop::LineUnended(1)),
        ),
        ("", false, Ok(())),
    ];
    for (trace, drops, ended) in rows {
        let tool = Tool::Ramulator2;
        let it = import_trace(alloc, Reading { tool, drops }, trace)?;
        assert_eq!(rt; it.ended, ended, "{trace}");
    }
    Ok(())
}

#[test]
fn lines_of_commands(rt: HostRuntime) -> Result<(), Fail> {
    let rows = [
        (
            Tool::Ramulator2,
            "7,ACT,0,0,3,1,15,-1",
            Command::Act(Bank::numbered(13), Row::new(15).ok_or("row")?),
        ),
        (
            Tool::Ramulator2,
            " 7 , WR , -1 , -1 , 3 , 1 , 99 , 12 \r",
            Command::Wr(Bank::numbered(13), Column::new(12).ok_or("column")?),
        ),
        (
            Tool::Ramulator2,
            "7, PREsb, 0, 0, -1, 1, -1, -1",
            Command::PreSb(BankAddr::new(1).ok_or("address")?),
        ),
        (
            Tool::Ramulator2,
            "7, REFsb, 0, 0, -1, 1, -1, -1",
            Command::RefSb(BankAddr::new(1).ok_or("address")?),
        ),
        (
            Tool::Ramulator2,
            "7, RFMsb, 0, 0, -1, 1, -1, -1",
            Command::RfmSb(BankAddr::new(1).ok_or("address")?),
        ),
        (
            Tool::Ramulator2,
            "7, RFMab, 0, 0, -1, -1, -1, -1,",
            Command::RfmAb,
        ),
        (
            Tool::Dramsim3,
            "7 refresh -1 0 -1 -1 -0x1 -0x1",
            Command::RefAb,
        ),
        (
            Tool::Dramsim3,
            "7\twrite 0 0 3 1 0xf 0xc",
            Command::Wr(Bank::numbered(13), Column::new(12).ok_or("column")?),
        ),
        (
            Tool::Dramsim3,
            "7 read 0 0 3 1 15 12",
            Command::Rd(Bank::numbered(13), Column::new(12).ok_or("column")?),
        ),
    ];
    for (tool, line, command) in rows {
        let entry = read_command_line(tool, Geometry::with_rows(16), line.as_bytes());
        assert_eq!(rt; entry, Ok(Entry::Issued(7, command)), "{line}");
    }
    Ok(())
}

#[test]
fn refused_lines_of_commands(rt: HostRuntime) {
    let rows = [
        (
            Tool::Ramulator2,
            "x, ACT, 0, 0, 3, 1, 5, -1",
            CommandField::Clock,
        ),
        (
            Tool::Ramulator2,
            "07, ACT, 0, 0, 3, 1, 5, -1",
            CommandField::Clock,
        ),
        (Tool::Ramulator2, "7", CommandField::Command),
        (
            Tool::Ramulator2,
            "7, act, 0, 0, 3, 1, 5, -1",
            CommandField::Command,
        ),
        (
            Tool::Ramulator2,
            "7,, 0, 0, 3, 1, 5, -1",
            CommandField::Command,
        ),
        (
            Tool::Ramulator2,
            "7, ACT, 1, 0, 3, 1, 5, -1",
            CommandField::Channel,
        ),
        (
            Tool::Ramulator2,
            "7, ACT, 0, 1, 3, 1, 5, -1",
            CommandField::Rank,
        ),
        (
            Tool::Ramulator2,
            "7, ACT, 0, 0, 8, 1, 5, -1",
            CommandField::Group,
        ),
        (
            Tool::Ramulator2,
            "7, ACT, 0, 0, -1, 1, 5, -1",
            CommandField::Group,
        ),
        (
            Tool::Ramulator2,
            "7, ACT, 0, 0, 3, 4, 5, -1",
            CommandField::Bank,
        ),
        (
            Tool::Ramulator2,
            "7, ACT, 0, 0, 3, 1, 16, -1",
            CommandField::Row,
        ),
        (
            Tool::Ramulator2,
            "7, RD, 0, 0, 3, 1, 5, 64",
            CommandField::Column,
        ),
        (
            Tool::Ramulator2,
            "7, RD, 0, 0, 3, 1, 5",
            CommandField::Column,
        ),
        (
            Tool::Ramulator2,
            "7, RD, 0, 0, 3, 1, 5, 6, 7",
            CommandField::End,
        ),
        (
            Tool::Dramsim3,
            "7 read 0 0 3 1 0x5 0x40",
            CommandField::Column,
        ),
        (Tool::Dramsim3, "7 read 0 0 3 1 0xg 0x4", CommandField::Row),
        (
            Tool::Dramsim3,
            "7, read 0 0 3 1 0x5 0x4",
            CommandField::Clock,
        ),
    ];
    for (tool, line, field) in rows {
        let entry = read_command_line(tool, Geometry::with_rows(16), line.as_bytes());
        assert_eq!(rt; entry, Err(CommandFault::Expected(field)), "{line}");
    }
}

// Each command that this model lacks is named.
#[test]
fn lacking_commands(rt: HostRuntime) {
    let rows = [
        (
            Tool::Ramulator2,
            "7,RDA,0,0,3,1,5,6",
            Lacking::ReadPrecharge,
        ),
        (
            Tool::Ramulator2,
            "7,DRFMsb,0,0,3,1,5,6",
            Lacking::DirectedRefresh,
        ),
        (
            Tool::Ramulator2,
            "7,PDE,0,0,-1,-1,-1,-1",
            Lacking::PowerDown,
        ),
        (
            Tool::Ramulator2,
            "7,SRX,0,0,-1,-1,-1,-1",
            Lacking::SelfRefresh,
        ),
        (
            Tool::Dramsim3,
            "7 write_p 0 0 3 1 0x5 0x6",
            Lacking::WritePrecharge,
        ),
        (
            Tool::Dramsim3,
            "7 refresh_bank 0 0 3 1 0x5 0x6",
            Lacking::RefreshBank,
        ),
        (
            Tool::Dramsim3,
            "7 self_refresh_enter 0 0 3 1 0x5 0x6",
            Lacking::SelfRefresh,
        ),
    ];
    for (tool, line, lacking) in rows {
        let entry = read_command_line(tool, Geometry::with_rows(16), line.as_bytes());
        assert_eq!(rt; entry, Ok(Entry::Lacking(lacking)), "{line}");
    }
}

#[test]
fn faults_in_words(rt: HostRuntime) -> Result<(), Fail> {
    let alloc = rt.alloc();
    let rows = [
        (
            Stop::Line(12, CommandFault::Expected(CommandField::Group)),
            "line 12, field 5: expected a bank group of the header",
        ),
        (
            Stop::Line(3, CommandFault::Lacking(Lacking::PowerDown)),
            "line 3, field 2: power-down is no command of this model; --drop leaves such lines out",
        ),
        (Stop::LineUnended(4), "line 4: expected a line feed"),
    ];
    for (stop, text) in rows {
        let said = format!(in alloc; "{stop}")?;
        assert_eq!(rt; said.as_str(), text);
    }
    Ok(())
}
