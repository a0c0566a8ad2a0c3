use crate::{Kind, Request, RequestId, Waiting, laws};
use command_words::{Geometry, LineAddr};
use std::test::Fail;

#[test]
fn laws_return() {
    laws::starts();
    laws::after_excuse();
    laws::after_offer();
    laws::after_column();
    laws::after_activate();
    laws::after_precharge();
    laws::after_closing();
    laws::after_management();
    laws::after_write();
    laws::queued();
    laws::serves();
    laws::serves_its_line();
    laws::spared();
    laws::activations();
    laws::queue_is_window();
    laws::oldest_unserved();
}

// The request for this line under the number 7, in a subchannel of 16 rows.
fn waiting(number: u32, kind: Kind) -> Option<Waiting> {
    let geometry = Geometry::new(16, 8)?;
    let line = LineAddr::new(number, geometry)?;
    Some(Waiting::new(7, Request { line, kind }, geometry))
}

// The bank, row and column of its place.
fn bank_row_column(it: &Waiting) -> (u8, u32, u8) {
    let place = &it.place;
    (place.bank.number(), place.row.get(), place.column.get())
}

#[test]
fn a_waiting_request_has_the_place_of_its_line(rt: HostRuntime) -> Result<(), Fail> {
    // the line, and its bank, row and column
    let lines = [
        (0, (0, 0, 0)),
        (7, (28, 0, 0)),
        (8, (1, 0, 0)),
        (31, (31, 0, 0)),
        (32, (0, 0, 1)),
        (2047, (31, 0, 63)),
        (2048, (0, 1, 0)),
        (32767, (31, 15, 63)),
    ];
    for (number, place) in lines {
        let it = waiting(number, Kind::Write).ok_or("line")?;
        assert_eq!(rt; bank_row_column(&it), place, "{number}");
        assert_eq!(rt; it.id, 7);
    }
    assert!(rt; waiting(32768, Kind::Read).is_none());
    Ok(())
}

#[test]
fn requests_compare_by_line_and_kind(rt: HostRuntime) -> Result<(), Fail> {
    let read = waiting(9, Kind::Read).ok_or("line")?;
    let write = waiting(9, Kind::Write).ok_or("line")?;
    assert!(rt; read.request != write.request);
    assert_eq!(rt; RequestId(7), RequestId(read.id));
    Ok(())
}
