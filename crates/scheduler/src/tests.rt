ghost use Rattle.std.specs.Prelude.{◌≡◌, ◌+◌, ◌<◌, false};
ghost use Rattle.speed_bin.specs.Header.{IsAccepted};
ghost use Rattle.scheduler.specs.Controller.{finished_of};
ghost use Rattle.scheduler.specs.Testing.{HasTaken};

use crate::laws::{
    bounds, held, in_order, inside, one_turn, passed, serves, sound, unraised, work,
};
use crate::{Clock, Controller, Turn};
use command_words::{Command, LineAddr, encode};
use requests::{Kind, Request, RequestId};
use speed_bin::{Header, Version, read_header};
use std::alloc::Global;
use std::test::Fail;

// What is asked of the controller: a read or a write of a line, or so many idle clocks once all else is served.
#[derive(Clone, Copy)]
enum Line {
    Read(u32),
    Write(u32),
    Idle(u64),
}

// A command at its clock, by its two words (0 where there is no second one), and the number of the request that it
// serves (0 where it serves none).
type Issued = (Clock, u16, u16, u64);

// Offers a request. `None` where the line is not one of the header's, or the request comes back.
fn take(
    controller: &mut Controller,
    header: &Header,
    taken: u32,
    line: u32,
    kind: Kind,
) -> Option<RequestId>
    requires accepted { IsAccepted header.now }
    requires unfinished { finished_of controller.old ≡ false }
    requires taken { HasTaken header.now controller.old taken }
    ensures taken { HasTaken header.now controller.new (taken + 1) }
    ensures finished { finished_of controller.new ≡ finished_of controller.old }
{
    held();
    let line = LineAddr::new(line, header.geometry())?;
    controller.offer(Request { line, kind }).ok()
}

// One turn. No alert is raised, since fewer requests than ATH were offered. `None` where `now` is not below 2^47.
fn turn(controller: &mut Controller, header: &Header, taken: u32) -> Option<Turn>
    requires few { taken < header.now.settings.ath }
    requires taken { HasTaken header.now controller.old taken }
    ensures taken { HasTaken header.now controller.new taken }
    ensures finished { finished_of controller.new ≡ finished_of controller.old }
{
    unraised();
    if controller.now() >= 1 << 47 {
        return None;
    }
    Some(controller.next(false))
}

// Turns until nothing is left to do, and the number of the next place. `None` where a command is not as it is wanted.
fn serve(
    controller: &mut Controller,
    header: &Header,
    taken: u32,
    wanted: &[Issued],
    place: usize,
) -> Option<usize>
    requires few { taken < header.now.settings.ath }
    requires taken { HasTaken header.now controller.old taken }
    ensures taken { HasTaken header.now controller.new taken }
    ensures finished { finished_of controller.new ≡ finished_of controller.old }
{
    let mut place = place;
    for _ in 0..1000 {
        match turn(controller, header, taken)? {
            Turn::Issue(clock, command, id) => {
                let words = encode(&command);
                let second = words.second.unwrap_or(0);
                if wanted.get(place) != Some(&(clock, words.first, second, number(id))) {
                    return None;
                }
                place += 1;
            }
            Turn::Idle => return Some(place),
            Turn::Done => return Some(place),
        }
    }
    None
}

fn number(id: Option<RequestId>) -> u64 {
    match id {
        Some(id) => id.0,
        None => 0,
    }
}

// Idle clocks, once all else is served.
fn pass(
    controller: &mut Controller,
    header: &Header,
    taken: u32,
    wanted: &[Issued],
    place: usize,
    clocks: u64,
) -> Option<usize>
    requires few { taken < header.now.settings.ath }
    requires taken { HasTaken header.now controller.old taken }
    ensures taken { HasTaken header.now controller.new taken }
    ensures finished { finished_of controller.new ≡ finished_of controller.old }
{
    let place = serve(controller, header, taken, wanted, place)?;
    if controller.now() >= 1 << 46 || clocks >= 1 << 46 {
        return None;
    }
    controller.idle(clocks);
    serve(controller, header, taken, wanted, place)
}

// One line, and the number of the next place.
fn ask(
    controller: &mut Controller,
    header: &Header,
    taken: u32,
    wanted: &[Issued],
    place: usize,
    line: &Line,
) -> Option<usize>
    requires accepted { IsAccepted header.now }
    requires unfinished { finished_of controller.old ≡ false }
    requires few { taken < header.now.settings.ath }
    requires taken { HasTaken header.now controller.old taken }
    ensures taken { HasTaken header.now controller.new (taken + 1) }
    ensures finished { finished_of controller.new ≡ finished_of controller.old }
{
    match line {
        Line::Read(line) => {
            take(controller, header, taken, *line, Kind::Read)?;
            Some(place)
        }
        Line::Write(line) => {
            take(controller, header, taken, *line, Kind::Write)?;
            Some(place)
        }
        Line::Idle(clocks) => pass(controller, header, taken, wanted, place, *clocks),
    }
}

// The clock of the end, where the commands are those that are wanted, and there are no others. There are fewer lines than
// ATH.
fn run(alloc: Global, header: &Header, lines: &[Line], wanted: &[Issued]) -> Option<Clock>
    requires { IsAccepted header.now }
{
    let Ok(mut controller) = Controller::new(alloc, header) else {
        return None;
    };
    let mut place = 0;
    let mut taken = 0;
    for line in lines {
        if taken + 1 >= header.settings.ath {
            return None;
        }
        place = ask(&mut controller, header, taken, wanted, place, line)?;
        taken += 1;
    }
    place = serve(&mut controller, header, taken, wanted, place)?;
    controller.finish();
    place = serve(&mut controller, header, taken, wanted, place)?;
    if place == wanted.len() {
        Some(controller.now())
    } else {
        None
    }
}

// Runs the lines under the header of this text.
fn run_text(alloc: Global, text: &[u8], lines: &[Line], wanted: &[Issued]) -> Option<Clock> {
    let Ok(header) = read_header(alloc, text, Version::plain()) else {
        return None;
    };
    run(alloc, &header, lines, wanted)
}

#[test]
fn laws_return() {
    sound();
    held();
    one_turn();
    in_order();
    bounds();
    work();
    unraised();
    inside();
    passed();
    serves();
}

#[test]
fn hits_come_first(rt: HostRuntime) -> Result<(), Fail> {
    let text =
        b"format = 1\nbin = \"tiny\"\nrows = 16\nath = 5\neth = 3\nraaimt = 8\nraammt = 16\nrefresh = \"all\"\necs_every = 0\n";
    let lines = [
        Line::Write(0),
        Line::Read(2048),
        Line::Write(0),
        Line::Read(0),
    ];
    let wanted = [
        (0, 0x0805, 0x000f, 0),
        (4, 0x0825, 0x0000, 0),
        (8, 0x0845, 0x0005, 0),
        (12, 0x0865, 0x0003, 0),
        (16, 0x0885, 0x0000, 0),
        (20, 0x08a5, 0x0008, 0),
        (24, 0x08c5, 0x0010, 0),
        (28, 0x08e5, 0x0000, 0),
        (32, 0x0000, 0x0000, 0),
        (35, 0x002d, 0x0c00, 1),
        (47, 0x002d, 0x0c00, 3),
        (63, 0x003d, 0x0400, 4),
        (66, 0x001b, 0, 0),
        (70, 0x0004, 0x0000, 0),
        (73, 0x003d, 0x0400, 2),
        (76, 0x000b, 0, 0),
    ];
    assert_eq!(rt; run_text(rt.alloc(), text, &lines, &wanted), Some(77));
    Ok(())
}

#[test]
fn refreshes_while_idle(rt: HostRuntime) -> Result<(), Fail> {
    let text =
        b"format = 1\nbin = \"4800-prac\"\nrows = 65536\nath = 64\neth = 32\nraaimt = 32\nraammt = 64\nrefresh = \"all\"\necs_every = 0\n";
    let wanted = [
        (0, 0x0805, 0x00ff, 0),
        (34, 0x0825, 0x00ff, 0),
        (68, 0x0845, 0x0040, 0),
        (102, 0x0865, 0x0020, 0),
        (136, 0x0885, 0x0000, 0),
        (170, 0x08a5, 0x0020, 0),
        (204, 0x08c5, 0x0040, 0),
        (238, 0x08e5, 0x0000, 0),
        (18750, 0x0213, 0, 0),
        (28125, 0x0213, 0, 0),
        (37500, 0x0213, 0, 0),
        (46875, 0x0213, 0, 0),
    ];
    assert_eq!(rt;
        run_text(rt.alloc(), text, &[Line::Idle(50000)], &wanted),
        Some(50239)
    );
    Ok(())
}

#[test]
fn one_address_after_another(rt: HostRuntime) -> Result<(), Fail> {
    let text =
        b"format = 1\nbin = \"tiny\"\nrows = 16\nath = 5\neth = 3\nraaimt = 8\nraammt = 16\nrefresh = \"same\"\necs_every = 0\n";
    let wanted = [
        (0, 0x0805, 0x000f, 0),
        (4, 0x0825, 0x0000, 0),
        (8, 0x0845, 0x0005, 0),
        (12, 0x0865, 0x0003, 0),
        (16, 0x0885, 0x0040, 0),
        (20, 0x08a5, 0x0008, 0),
        (24, 0x08c5, 0x0010, 0),
        (28, 0x08e5, 0x0000, 0),
        (2000, 0x0613, 0, 0),
        (2001, 0x0653, 0, 0),
        (2002, 0x0693, 0, 0),
        (2003, 0x06d3, 0, 0),
    ];
    assert_eq!(rt;
        run_text(rt.alloc(), text, &[Line::Idle(2500)], &wanted),
        Some(2529)
    );
    Ok(())
}

// The eight register writes, eight ACTs of a bank, and the RFM that its rolling count then wants, before a ninth.
const MANAGED: [Issued; 36] = [
    (0, 0x0805, 0x000f, 0),
    (4, 0x0825, 0x0000, 0),
    (8, 0x0845, 0x0064, 0),
    (12, 0x0865, 0x0032, 0),
    (16, 0x0885, 0x0000, 0),
    (20, 0x08a5, 0x0008, 0),
    (24, 0x08c5, 0x0010, 0),
    (28, 0x08e5, 0x0000, 0),
    (32, 0x0000, 0x0000, 0),
    (35, 0x003d, 0x0400, 1),
    (38, 0x001b, 0, 0),
    (42, 0x0004, 0x0000, 0),
    (45, 0x003d, 0x0400, 2),
    (48, 0x001b, 0, 0),
    (52, 0x0000, 0x0000, 0),
    (55, 0x003d, 0x0400, 3),
    (58, 0x001b, 0, 0),
    (62, 0x0004, 0x0000, 0),
    (65, 0x003d, 0x0400, 4),
    (68, 0x001b, 0, 0),
    (72, 0x0000, 0x0000, 0),
    (75, 0x003d, 0x0400, 5),
    (78, 0x001b, 0, 0),
    (82, 0x0004, 0x0000, 0),
    (85, 0x003d, 0x0400, 6),
    (88, 0x001b, 0, 0),
    (92, 0x0000, 0x0000, 0),
    (95, 0x003d, 0x0400, 7),
    (98, 0x001b, 0, 0),
    (102, 0x0004, 0x0000, 0),
    (105, 0x003d, 0x0400, 8),
    (108, 0x040b, 0, 0),
    (112, 0x0413, 0, 0),
    (128, 0x0000, 0x0000, 0),
    (131, 0x003d, 0x0400, 9),
    (134, 0x000b, 0, 0),
];

#[test]
fn management_at_the_threshold(rt: HostRuntime) -> Result<(), Fail> {
    let text =
        b"format = 1\nbin = \"tiny\"\nrows = 16\nath = 100\neth = 50\nraaimt = 8\nraammt = 16\nrefresh = \"all\"\necs_every = 0\n";
    let (even, odd, idle) = (Line::Read(0), Line::Read(2048), Line::Idle(0));
    let lines = [
        even, idle, odd, idle, even, idle, odd, idle, even, idle, odd, idle, even, idle, odd, idle,
        even,
    ];
    assert_eq!(rt; run_text(rt.alloc(), text, &lines, &MANAGED), Some(135));
    Ok(())
}
