use crate::{Alert, laws};
use speed_bin::named;
use std::test::Fail;

#[test]
fn laws_return() {
    laws::cycle_activations();
    laws::weights_at_marks();
    laws::bound();
    Alert::stays();
}

#[test]
fn one_row_is_hot_at_its_fifth_closing(rt: HostRuntime) -> Result<(), Fail> {
    let tiny = named("tiny").ok_or("tiny")?;
    // the clock of a closing, whether the row is hot after it, and the clock since which the alert is raised
    let closings = [
        (38, false, None),
        (48, false, None),
        (58, false, None),
        (68, false, None),
        (78, true, Some(78)),
        (88, true, Some(78)),
        (98, true, Some(78)),
        (108, true, Some(78)),
    ];
    let mut alert = Alert::new();
    for (clock, hot, raised) in closings {
        alert.after_precharge(clock, hot, true);
        assert_eq!(rt; alert.raised(), raised, "{clock}");
    }
    assert_eq!(rt; alert.last_activate(&tiny), Some(110));
    assert_eq!(rt; alert.deadline(&tiny), Some(679));
    Ok(())
}

#[test]
fn the_window_of_two_activations_has_room_for_one_more(rt: HostRuntime) -> Result<(), Fail> {
    let mut timing = named("tiny").ok_or("tiny")?;
    timing.nabo = 13;
    // a row that is closed every 10 clocks is hot at its third closing
    let closings = [(38, false), (48, false), (58, true), (68, true)];
    let mut alert = Alert::new();
    for (clock, hot) in closings {
        alert.after_precharge(clock, hot, true);
    }
    assert_eq!(rt; alert.raised(), Some(58));
    // an ACT at clock 62 is in time, and one at clock 72 is not
    assert_eq!(rt; alert.last_activate(&timing), Some(71));
    assert_eq!(rt; alert.deadline(&timing), Some(640));
    Ok(())
}

#[test]
fn rows_that_stay_hot_raise_it_again_at_the_next_closing(rt: HostRuntime) -> Result<(), Fail> {
    let tiny = named("tiny").ok_or("tiny")?;
    let mut alert = Alert::new();
    // nothing was closed, or no row is hot
    alert.after_precharge(108, false, true);
    alert.after_precharge(110, true, false);
    assert_eq!(rt; alert.raised(), None);
    alert.after_precharge(118, true, true);
    alert.after_precharge(128, true, true);
    assert_eq!(rt; alert.raised(), Some(118));
    alert.after_rfm_all();
    assert_eq!(rt; alert.raised(), None);
    assert_eq!(rt; alert.last_activate(&tiny), None);
    assert_eq!(rt; alert.deadline(&tiny), None);
    alert.after_precharge(182, true, true);
    assert_eq!(rt; alert.raised(), Some(182));
    Ok(())
}
