use super::*;
use std::test::Fail;

fn bank(group: u8, address: u8) -> Option<Bank> {
    Some(Bank {
        group: Group::new(group)?,
        address: BankAddr::new(address)?,
    })
}

#[test]
fn an_act_is_spelled_at_the_ends(rt: HostRuntime) -> Result<(), Fail> {
    let last = Command::Act(bank(7, 3).ok_or("bank")?, Row::new(65535).ok_or("row")?);
    let words = encode(&last);
    assert_eq!(rt; words.first, 0x07fc);
    assert!(rt; words.second == Some(0x0fff));
    let first = Command::Act(bank(0, 0).ok_or("bank")?, Row::new(0).ok_or("row")?);
    let words = encode(&first);
    assert_eq!(rt; words.first, 0x0000);
    assert!(rt; words.second == Some(0x0000));
    Ok(())
}

fn fault(first: u16, second: Option<u16>) -> Option<WordFault> {
    decode(Words { first, second }).err()
}

#[test]
fn words_are_read_or_refused(rt: HostRuntime) -> Result<(), Fail> {
    let read = Words {
        first: 0x003d,
        second: Some(0x0400),
    };
    let command = decode(read).ok().ok_or("words")?;
    assert!(rt; encode(&command) == read);
    let closed = bank(0, 0).ok_or("bank")?;
    let column = Column::new(0).ok_or("column")?;
    assert!(rt; command == Command::Rd(closed, column));
    assert!(rt; fault(0x003d, Some(0x1400)) == Some(WordFault::Reserved));
    assert!(rt; fault(0x001d, Some(0x0400)) == Some(WordFault::Reserved));
    assert!(rt; fault(0x0007, None) == Some(WordFault::Unknown));
    assert!(rt; fault(0x0000, None) == Some(WordFault::SecondMissing));
    assert!(rt; fault(0x001f, Some(0x0000)) == Some(WordFault::SecondExtra));
    assert!(rt; fault(0x401f, None) == Some(WordFault::Range));
    Ok(())
}

#[test]
fn a_line_has_its_place(rt: HostRuntime) -> Result<(), Fail> {
    let shape = Geometry::new(65536, 8).ok_or("shape")?;
    assert_eq!(rt; shape.lines(), 134_217_728);
    let line = LineAddr::new(134_217_727, shape).ok_or("line")?;
    let place = map_line(line, shape);
    assert_eq!(rt; place.bank.number(), 31);
    assert_eq!(rt; place.row.get(), 65535);
    assert_eq!(rt; place.column.get(), 63);
    let line = LineAddr::new(2048, shape).ok_or("line")?;
    let place = map_line(line, shape);
    assert_eq!(rt; place.bank.number(), 0);
    assert_eq!(rt; place.row.get(), 1);
    assert_eq!(rt; place.column.get(), 0);
    assert_eq!(rt; unmap(place, shape).get(), 2048);
    Ok(())
}

#[test]
fn a_line_has_its_place_in_four_groups(rt: HostRuntime) -> Result<(), Fail> {
    let shape = Geometry::new(65536, 4).ok_or("shape")?;
    assert_eq!(rt; shape.lines(), 67_108_864);
    let line = LineAddr::new(67_108_863, shape).ok_or("line")?;
    let place = map_line(line, shape);
    // group 3, address 3
    assert_eq!(rt; place.bank.number(), 15);
    assert_eq!(rt; place.row.get(), 65535);
    assert_eq!(rt; place.column.get(), 63);
    let line = LineAddr::new(1024, shape).ok_or("line")?;
    let place = map_line(line, shape);
    assert_eq!(rt; place.bank.number(), 0);
    assert_eq!(rt; place.row.get(), 1);
    assert_eq!(rt; place.column.get(), 0);
    assert_eq!(rt; unmap(place, shape).get(), 1024);
    assert!(rt; LineAddr::new(67_108_864, shape).is_none());
    Ok(())
}

#[test]
fn numbers_outside_their_ranges_are_none(rt: HostRuntime) {
    assert!(rt; Group::new(8).is_none());
    assert!(rt; BankAddr::new(4).is_none());
    assert!(rt; Row::new(65536).is_none());
    assert!(rt; Column::new(64).is_none());
    assert!(rt; Geometry::new(65537, 8).is_none());
    assert!(rt; Geometry::new(16, 6).is_none());
    assert!(rt; Geometry::new(16, 0).is_none());
    assert!(rt; LineAddr::new(4096, Geometry::with_rows(2)).is_none());
}

#[test]
fn a_command_covers_its_banks(rt: HostRuntime) -> Result<(), Fail> {
    let close = Command::PrePb(bank(2, 1).ok_or("bank")?);
    assert!(rt; covers(&close, bank(2, 1).ok_or("bank")?));
    assert!(rt; !covers(&close, bank(3, 1).ok_or("bank")?));
    let refresh = Command::RefSb(BankAddr::new(1).ok_or("address")?);
    assert!(rt; covers(&refresh, bank(3, 1).ok_or("bank")?));
    assert!(rt; covers(&Command::Ecs, bank(3, 1).ok_or("bank")?));
    assert!(rt; !covers(&Command::Nop, bank(3, 1).ok_or("bank")?));
    Ok(())
}

#[test]
fn a_command_says_its_kind(rt: HostRuntime) -> Result<(), Fail> {
    let read = Command::Rd(bank(2, 1).ok_or("bank")?, Column::new(5).ok_or("column")?);
    assert!(rt; read.is_rd() && read.is_column() && !read.is_wr() && !read.is_act());
    assert!(rt; read.bank() == bank(2, 1));
    assert_eq!(rt; read.group(), 2);
    let close = Command::PreSb(BankAddr::new(1).ok_or("address")?);
    assert!(rt; close.is_precharge() && !close.needs_closed() && close.bank().is_none());
    let manage = Command::RfmSb(BankAddr::new(1).ok_or("address")?);
    assert!(rt; manage.is_rfm() && manage.is_rfm_same() && !manage.is_rfm_all());
    assert!(rt; manage.needs_closed() && !manage.is_ref_same());
    assert!(rt; Command::RefAb.is_ref_all() && Command::Ecs.is_scrub() && Command::Nop.is_nop());
    assert!(rt; Bank::numbered(31).number() == 31);
    Ok(())
}

#[test]
fn each_fault_has_its_number(rt: HostRuntime) {
    let rows = [
        (WordFault::Unknown, 1),
        (WordFault::SecondMissing, 2),
        (WordFault::SecondExtra, 3),
        (WordFault::Reserved, 4),
        (WordFault::Range, 5),
    ];
    for (fault, number) in rows {
        assert_eq!(rt; number, fault as u8);
    }
}
