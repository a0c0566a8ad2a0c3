//! Worked rows, driven by hand through both ends.
ghost use Rattle.std.specs.Prelude.{◌≡◌, ◌<◌, None, false, is_some, OnSome};
ghost use Rattle.speed_bin.specs.Header.{IsAccepted};
ghost use Rattle.command_words.specs.Kinds.{is_wr};
ghost use Rattle.device_core.specs.Standing.{lent};
ghost use Rattle.trace_replay.specs.Coupled.{finished_of, header_of, pending_of};

use crate::Coupled;
use command_words::{Command, LineAddr, encode, map_line};
use error_scrub::LineRead;
use ondie_ecc::ReadState;
use requests::{Kind, Request};
use scheduler::{Clock, Turn};
use speed_bin::{Header, Version, read_header};
use std::alloc::Global;
use std::test::Fail;

// What is asked: a read or a write of a line, a bit of line 0 that is turned once all before is served, or so many idle
// clocks then.
#[derive(Clone, Copy)]
enum Line {
    Read(u32),
    Write(u32),
    Flip(u8, u8),
    Idle(u64),
}

// A command at its clock, by its two words (0 where there is no second one).
type Issued = (Clock, u16, u16);

// What is wanted: the commands, and what every RD answers. Each WR brings these bytes.
#[derive(Drop)]
struct Wanted {
    commands: &'static [Issued],
    read: LineRead,
    bytes: [u8; 64],
}

// A command that was issued, and what the device answered to it.
#[derive(Drop)]
struct Answer {
    issued: Issued,
    line: Option<LineRead>,
}

// A line that is zero but for its first byte.
fn line_of(first: u8) -> [u8; 64] {
    let mut bytes = [0; 64];
    bytes[0] = first;
    bytes
}

// Offers a request. `None` where the line is not one of the header's, or the request comes back.
fn take(both: &mut Coupled, header: &Header, line: u32, kind: Kind) -> Option<()>
    requires accepted { IsAccepted header.now }
    requires unfinished { finished_of both.old ≡ false }
    requires held { header_of both.old ≡ header.now }
    ensures held { header_of both.new ≡ header.now }
    ensures pending { pending_of both.new ≡ pending_of both.old }
    ensures finished { finished_of both.new ≡ finished_of both.old }
{
    let line = LineAddr::new(line, header.geometry())?;
    match both.offer(Request { line, kind }) {
        Ok(_) => Some(()),
        Err(_) => None,
    }
}

// Turns a bit of line 0.
fn turn_bit(both: &mut Coupled, header: &Header, of: u8, bit: u8) -> Option<()>
    requires accepted { IsAccepted header.now }
    requires held { header_of both.old ≡ header.now }
    ensures held { header_of both.new ≡ header.now }
    ensures pending { pending_of both.new ≡ pending_of both.old }
    ensures finished { finished_of both.new ≡ finished_of both.old }
{
    if of >= 4 || bit >= 136 {
        return None;
    }
    let line = LineAddr::new(0, header.geometry())?;
    match both.flip(map_line(line, header.geometry()), of, bit) {
        Ok(_) => Some(()),
        Err(_) => None,
    }
}

// The bytes that go with the command.
fn given<'a>(command: &Command, bytes: &'a [u8; 64]) -> Option<&'a [u8; 64]>
    ensures { is_some (lent result) ≡ is_wr command.now }
{
    match command {
        Command::Wr(..) => Some(bytes),
        _ => None,
    }
}

// One turn, and the delivery of what it issued. `None` where `now` is not below 2^47 or memory is wanting, and `Some(None)`
// where the turn issued nothing.
fn step(both: &mut Coupled, bytes: &[u8; 64]) -> Option<Option<Answer>>
    requires pending { pending_of both.old ≡ None }
    ensures held { header_of both.new ≡ header_of both.old }
    ensures pending { OnSome result (pending_of both.new ≡ None) }
    ensures finished { finished_of both.new ≡ finished_of both.old }
{
    if both.now() >= 1 << 47 {
        return None;
    }
    match both.turn() {
        Turn::Issue(clock, command, _) => {
            let words = encode(&command);
            let reply = match both.deliver(given(&command, bytes)) {
                Ok(reply) => reply,
                Err(_) => return None,
            };
            Some(Some(Answer {
                issued: (clock, words.first, words.second.unwrap_or(0)),
                line: reply.line,
            }))
        }
        Turn::Idle => Some(None),
        Turn::Done => Some(None),
    }
}

// Turns until nothing is left to do, and the number of the next command. `None` where a command or a reading is not as it
// is wanted.
fn serve(both: &mut Coupled, wanted: &Wanted, place: usize) -> Option<usize>
    requires pending { pending_of both.old ≡ None }
    ensures held { header_of both.new ≡ header_of both.old }
    ensures pending { OnSome result (pending_of both.new ≡ None) }
    ensures finished { finished_of both.new ≡ finished_of both.old }
{
    let mut place = place;
    for _ in 0..1000 {
        let Some(answer) = step(both, &wanted.bytes)? else {
            return Some(place);
        };
        if wanted.commands.get(place) != Some(&answer.issued) {
            return None;
        }
        if !is_wanted(answer.line, &wanted.read) {
            return None;
        }
        place += 1;
    }
    None
}

fn is_wanted(line: Option<LineRead>, read: &LineRead) -> bool {
    match line {
        Some(line) => line == *read,
        None => true,
    }
}

// One line, and the number of the next command.
fn ask(
    both: &mut Coupled,
    header: &Header,
    wanted: &Wanted,
    place: usize,
    line: &Line,
) -> Option<usize>
    requires accepted { IsAccepted header.now }
    requires unfinished { finished_of both.old ≡ false }
    requires held { header_of both.old ≡ header.now }
    requires pending { pending_of both.old ≡ None }
    ensures held { header_of both.new ≡ header.now }
    ensures pending { OnSome result (pending_of both.new ≡ None) }
    ensures finished { finished_of both.new ≡ finished_of both.old }
{
    match line {
        Line::Read(line) => {
            take(both, header, *line, Kind::Read)?;
            Some(place)
        }
        Line::Write(line) => {
            take(both, header, *line, Kind::Write)?;
            Some(place)
        }
        Line::Flip(of, bit) => {
            let place = serve(both, wanted, place)?;
            turn_bit(both, header, *of, *bit)?;
            Some(place)
        }
        Line::Idle(clocks) => {
            let place = serve(both, wanted, place)?;
            if both.now() >= 1 << 46 || *clocks >= 1 << 46 {
                return None;
            }
            both.idle(*clocks);
            serve(both, wanted, place)
        }
    }
}

// The clock of the end and the peak, where all is as it is wanted.
fn run(alloc: Global, header: &Header, lines: &[Line], wanted: &Wanted) -> Option<(Clock, u32)>
    requires { IsAccepted header.now }
{
    let Ok(mut both) = Coupled::new(alloc, header) else {
        return None;
    };
    let mut place = 0;
    for line in lines {
        place = ask(&mut both, header, wanted, place, line)?;
    }
    place = serve(&mut both, wanted, place)?;
    both.finish();
    place = serve(&mut both, wanted, place)?;
    if place == wanted.commands.len() {
        Some((both.now(), both.peak()))
    } else {
        None
    }
}

// Runs the lines under the header of this text, with so many bank groups.
fn run_text(
    alloc: Global,
    text: &[u8],
    groups: u8,
    lines: &[Line],
    wanted: &Wanted,
) -> Option<(Clock, u32)> {
    let version = Version::new(4, groups)?;
    let Ok(header) = read_header(alloc, text, version) else {
        return None;
    };
    run(alloc, &header, lines, wanted)
}

const SIXTEEN_ROWS: &[u8] =
    b"format = 1\nbin = \"tiny\"\nrows = 16\nath = 5\neth = 3\nraaimt = 8\nraammt = 16\nrefresh = \"all\"\necs_every = 0\n";

const TWO_ROWS: &[u8] =
    b"format = 1\nbin = \"tiny\"\nrows = 2\nath = 5\neth = 5\nraaimt = 16\nraammt = 32\nrefresh = \"all\"\necs_every = 0\n";

const WRITE_AND_READ: [Issued; 12] = [
    (0, 0x0805, 0x000f),
    (4, 0x0825, 0x0000),
    (8, 0x0845, 0x0005),
    (12, 0x0865, 0x0003),
    (16, 0x0885, 0x0000),
    (20, 0x08a5, 0x0008),
    (24, 0x08c5, 0x0010),
    (28, 0x08e5, 0x0000),
    (32, 0x0000, 0x0000),
    (35, 0x002d, 0x0c00),
    (51, 0x003d, 0x0400),
    (54, 0x000b, 0),
];

const TWO_HOT_ROWS: [Issued; 43] = [
    (0, 0x0805, 0x0001),
    (4, 0x0825, 0x0000),
    (8, 0x0845, 0x0005),
    (12, 0x0865, 0x0005),
    (16, 0x0885, 0x0000),
    (20, 0x08a5, 0x0010),
    (24, 0x08c5, 0x0020),
    (28, 0x08e5, 0x0000),
    (32, 0x0000, 0x0000),
    (35, 0x003d, 0x0400),
    (38, 0x001b, 0),
    (42, 0x0004, 0x0000),
    (45, 0x003d, 0x0400),
    (48, 0x001b, 0),
    (52, 0x0000, 0x0000),
    (55, 0x003d, 0x0400),
    (58, 0x001b, 0),
    (62, 0x0004, 0x0000),
    (65, 0x003d, 0x0400),
    (68, 0x001b, 0),
    (72, 0x0000, 0x0000),
    (75, 0x003d, 0x0400),
    (78, 0x001b, 0),
    (82, 0x0004, 0x0000),
    (85, 0x003d, 0x0400),
    (88, 0x001b, 0),
    (92, 0x0000, 0x0000),
    (95, 0x003d, 0x0400),
    (98, 0x001b, 0),
    (102, 0x0004, 0x0000),
    (105, 0x003d, 0x0400),
    (108, 0x001b, 0),
    (112, 0x0000, 0x0000),
    (115, 0x003d, 0x0400),
    (118, 0x001b, 0),
    (122, 0x0004, 0x0000),
    (125, 0x003d, 0x0400),
    (128, 0x000b, 0),
    (132, 0x0013, 0),
    (156, 0x0000, 0x0000),
    (159, 0x003d, 0x0400),
    (162, 0x000b, 0),
    (166, 0x0013, 0),
];

#[test]
fn a_line_is_written_and_read(rt: HostRuntime) -> Result<(), Fail> {
    let wanted = Wanted {
        commands: &WRITE_AND_READ,
        read: LineRead {
            bytes: line_of(0x11),
            state: ReadState::Clean,
        },
        bytes: line_of(0x11),
    };
    let lines = [Line::Write(0), Line::Read(0)];
    assert_eq!(rt;
        run_text(rt.alloc(), SIXTEEN_ROWS, 8, &lines, &wanted),
        Some((55, 1))
    );
    Ok(())
}

#[test]
fn one_flip_in_each_codeword_is_fixed(rt: HostRuntime) -> Result<(), Fail> {
    let wanted = Wanted {
        commands: &WRITE_AND_READ,
        read: LineRead {
            bytes: line_of(0x11),
            state: ReadState::Fixed,
        },
        bytes: line_of(0x11),
    };
    let lines = [
        Line::Write(0),
        Line::Flip(0, 0),
        Line::Flip(1, 63),
        Line::Flip(2, 127),
        Line::Flip(3, 135),
        Line::Read(0),
    ];
    assert_eq!(rt;
        run_text(rt.alloc(), SIXTEEN_ROWS, 8, &lines, &wanted),
        Some((55, 1))
    );
    Ok(())
}

#[test]
fn the_device_raises_the_alert(rt: HostRuntime) -> Result<(), Fail> {
    let wanted = Wanted {
        commands: &TWO_HOT_ROWS,
        read: LineRead {
            bytes: line_of(0),
            state: ReadState::Clean,
        },
        bytes: line_of(0),
    };
    // The second row begins after 256 lines a group.
    for (groups, second) in [(8, 2048), (4, 1024)] {
        let (even, odd, idle) = (Line::Read(0), Line::Read(second), Line::Idle(0));
        let lines = [
            even, idle, odd, idle, even, idle, odd, idle, even, idle, odd, idle, even, idle, odd,
            idle, even, idle, odd, idle, even,
        ];
        assert_eq!(rt;
            run_text(rt.alloc(), TWO_ROWS, groups, &lines, &wanted),
            Some((167, 5))
        );
    }
    Ok(())
}
