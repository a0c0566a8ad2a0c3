//! Lines of request traces, and traces as jobs, by the tools' formats.
use crate::{
    Mapping, MappingFault, RequestFault, RequestField, RequestFormat, Stop, hexadecimal,
    read_request_line, write_job_of,
};
use command_words::Geometry;
use ddr_io::{PlainSink, PlainSource};
use std::test::Fail;

// The formats.
#[derive(Clone, Copy, Debug, PartialEq, Eq)]
enum Kind {
    ReadWrite,
    LoadStore,
    Dramsim3,
}

fn format_of(kind: Kind, notation: &str) -> Result<RequestFormat, MappingFault> {
    let g = Geometry::with_rows(16);
    match kind {
        Kind::ReadWrite => Ok(RequestFormat::ReadWrite(g)),
        Kind::LoadStore => Ok(RequestFormat::LoadStore(Mapping::read(notation, g)?)),
        Kind::Dramsim3 => Ok(RequestFormat::Dramsim3(Mapping::read(notation, g)?)),
    }
}

#[test]
fn lines_of_requests(rt: HostRuntime) -> Result<(), Fail> {
    // Line = ((row * 64 + column) * 4 + bank) * 8 + group.
    let rows = [
        (Kind::ReadWrite, "R 0,0,3,1,15,12", 31115, false),
        (Kind::ReadWrite, "W 0, 0, 7, 3, 0, 63", 2047, true),
        (Kind::LoadStore, "LD 0x40", 32, false),
        (Kind::LoadStore, "ST 4096", 1, true),
        (Kind::LoadStore, "ST 4097", 1, true),
        (Kind::Dramsim3, "0x0 READ 0", 0, false),
        (Kind::Dramsim3, "0x8000 WRITE 17", 8, true),
        (Kind::Dramsim3, "0x20000 P_FETCH 17", 2048, false),
        (Kind::Dramsim3, "0x1FFFFF BOFF 17", 32767, true),
    ];
    for (kind, line, number, is_write) in rows {
        let format = format_of(kind, "rochrababgco")?;
        let Ok(Some(request)) = read_request_line(&format, line.as_bytes()) else {
            assert!(rt; false, "{line}");
            return Ok(());
        };
        assert_eq!(rt; request.line.get(), number, "{line}");
        assert_eq!(rt; request.is_write, is_write, "{line}");
    }
    Ok(())
}

#[test]
fn refused_lines_of_requests(rt: HostRuntime) -> Result<(), Fail> {
    let rows = [
        (
            Kind::ReadWrite,
            "r 0,0,3,1,15,12",
            1,
            RequestField::ReadOrWrite,
        ),
        (Kind::ReadWrite, "R 1,0,3,1,15,12", 2, RequestField::Channel),
        (Kind::ReadWrite, "R 0,2,3,1,15,12", 3, RequestField::Rank),
        (Kind::ReadWrite, "R 0,0,8,1,15,12", 4, RequestField::Group),
        (Kind::ReadWrite, "R 0,0,3,4,15,12", 5, RequestField::Bank),
        (Kind::ReadWrite, "R 0,0,3,1,16,12", 6, RequestField::Row),
        (Kind::ReadWrite, "R 0,0,3,1,15", 7, RequestField::Column),
        (Kind::ReadWrite, "R 0,0,3,1,15,1,1", 8, RequestField::End),
        (Kind::LoadStore, "LDR 0x40", 1, RequestField::LoadOrStore),
        (Kind::LoadStore, "LD -4", 2, RequestField::Address),
        (Kind::LoadStore, "LD 0x200000", 2, RequestField::Address),
        (Kind::LoadStore, "LD 0x40 1", 3, RequestField::End),
        (Kind::Dramsim3, "40 READ 1", 1, RequestField::Address),
        (Kind::Dramsim3, "0x40 READS 1", 2, RequestField::Transaction),
        (Kind::Dramsim3, "0x40 READ", 3, RequestField::Clock),
        (Kind::Dramsim3, "0x40 READ 1 2", 4, RequestField::End),
    ];
    for (kind, line, number, expected) in rows {
        let format = format_of(kind, "rochrababgco")?;
        let fault = RequestFault { number, expected };
        assert_eq!(rt;
            read_request_line(&format, line.as_bytes()),
            Err(fault),
            "{line}"
        );
    }
    Ok(())
}

#[test]
fn traces_as_jobs(rt: HostRuntime) -> Result<(), Fail> {
    let alloc = rt.alloc();
    let rows = [
        (
            "# a note\nLD 0x40\nST 0x0\n",
            Ok(()),
            "---\nR 32\nW 0 03000000000000000300000000000000030000000000000003000000000000000300000000000000030000000000000003000000000000000300000000000000\n",
        ),
        (
            "LD 0x40\nXX 0\n",
            Err(Stop::Line(
                2,
                RequestFault {
                    number: 1,
                    expected: RequestField::LoadOrStore,
                },
            )),
            "---\nR 32\n",
        ),
    ];
    for (trace, ended, job) in rows {
        let mut source = PlainSource::new(trace.as_bytes().to_vec(alloc)?);
        let mut sink = PlainSink::new(alloc);
        let format = format_of(Kind::LoadStore, "RoBaRaCoCh")?;
        let done = write_job_of(&format, b"---\n", &mut source, &mut sink);
        assert_eq!(rt; done, ended);
        assert_eq!(rt; sink.bytes(), job.as_bytes());
    }
    Ok(())
}

#[test]
fn numbers_in_hexadecimal_digits(rt: HostRuntime) {
    let rows = [
        ("0x0", Some(0)),
        ("0x1F", Some(31)),
        ("0x00ff", Some(255)),
        ("0xffffffffffffffff", Some(u64::MAX)),
        ("0x10000000000000000", None),
        ("0x", None),
        ("0x+1", None),
        ("0xg", None),
        ("1f", None),
        ("", None),
    ];
    for (text, number) in rows {
        assert_eq!(rt; hexadecimal(text.as_bytes()), number, "{text}");
    }
}
