//! Address mappings, by the notations of the tools.
use crate::{Mapping, MappingFault};
use command_words::Geometry;
use std::test::Fail;

// With 16 rows an address has 6 bits within a line, 6 of a column, 3 of a group, 2 of a bank and 4 of a row.
#[test]
fn lines_of_addresses(rt: HostRuntime) -> Result<(), Fail> {
    let g = Geometry::with_rows(16);
    let rows = [
        // notation, address, line = ((row * 64 + column) * 4 + bank) * 8 + group
        ("rochrababgco", 0x1000, 1),
        ("rochrababgco", 0x8000, 8),
        ("rochrababgco", 0x20fc0, 4064),
        ("cobgbarachro", 0x40, 2048),
        ("cobgbarachro", 0x400, 8),
        ("cobgbarachro", 0x1000, 1),
        ("cobgbarachro", 0x8000, 32),
        ("RoBaRaCoCh", 0x40, 32),
        ("RoBaRaCoCh", 0x1000, 1),
        ("RoBaRaCoCh", 0x8000, 8),
        ("RoBaRaCoCh", 0x20000, 2048),
        ("ChRaBaRoCo", 0x1000, 2048),
        ("ChRaBaRoCo", 0x10000, 8),
        ("ChRaBaRoCo", 0x40000, 1),
    ];
    for (notation, address, number) in rows {
        let mapping = Mapping::read(notation, g)?;
        let line = mapping.line_of(address).ok_or(notation)?;
        assert_eq!(rt; line.get(), number, "{notation}");
        assert_eq!(rt; mapping.line_of(0x20_0000), None);
    }
    Ok(())
}

// Rows that are no power of two leave addresses without a line.
#[test]
fn addresses_above_the_rows(rt: HostRuntime) -> Result<(), Fail> {
    let mapping = Mapping::read("rochrababgco", Geometry::with_rows(9))?;
    let line = mapping.line_of(0x11_ffff).ok_or("line")?;
    assert_eq!(rt; line.get(), 18_431);
    assert_eq!(rt; mapping.line_of(0x12_0000), None);
    assert_eq!(rt; mapping.line_of(0x1f_ffff), None);
    Ok(())
}

#[test]
fn refused_notations(rt: HostRuntime) {
    let rows = [
        ("", MappingFault::Length),
        ("rochrababg", MappingFault::Length),
        ("rochrababgcoco", MappingFault::Length),
        ("rochrababgc\u{e9}", MappingFault::Length),
        ("xxchrababgco", MappingFault::Unknown(1)),
        ("rochrababgCO", MappingFault::Unknown(6)),
        ("rorochbabgco", MappingFault::Twice),
    ];
    for (notation, fault) in rows {
        let mapping = Mapping::read(notation, Geometry::with_rows(16));
        assert_eq!(rt; mapping, Err(fault), "{notation}");
    }
}
