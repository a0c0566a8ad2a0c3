//! Logs from the outside, stepped against their numbers.
ghost use Rattle.std.specs.Prelude.{◌≡◌, [], ◌∷◌, true, Ok, IfOk, List};
ghost use Rattle.command_words.specs.Command.{IsInRange};
ghost use Rattle.command_words.specs.Decode.{decode_of};
ghost use Rattle.command_words.specs.Words.{Spells};
ghost use Rattle.command_words.specs.declared.command.Command.{Command as AnyCommand};
ghost use Rattle.speed_bin.specs.Header.{IsAccepted};
ghost use Rattle.speed_bin.specs.declared.header.Header.{Header as AnyHeader};
ghost use Rattle.device_core.specs.Standing.{StandsFor, IsBit, lent};
ghost use Rattle.device_core.specs.Steps.{Step, Flips};
ghost use Rattle.device_core.specs.Scripts.{header_of, played, is_legal, bytes_for, first_place};

use crate::{Device, laws};
use command_words::{Bank, BankAddr, Column, Command, Group, Place, Row, Words, decode};
use ddr_io::OutOfMemory;
use error_scrub::{LineRead, ScrubCounts};
use ondie_ecc::ReadState;
use speed_bin::{Header, RefreshMode, Settings, TINY, Timing, Version};
use std::alloc::Global;
use std::test::Fail;

// With an alert window that a back-off cycle of two activations has room for.
const SHORT_WINDOW: Timing = Timing { nabo: 13, ..TINY };

const SIXTEEN_ROWS: Settings = Settings {
    rows: 16,
    ath: 5,
    eth: 3,
    raaimt: 8,
    raammt: 16,
    refresh: RefreshMode::All,
    ecs_every: 0,
};

const SCRUBBED_ROWS: Settings = Settings {
    rows: 16,
    ath: 5,
    eth: 3,
    raaimt: 8,
    raammt: 16,
    refresh: RefreshMode::All,
    ecs_every: 1,
};

const TWO_ROWS: Settings = Settings {
    rows: 2,
    ath: 5,
    eth: 5,
    raaimt: 32,
    raammt: 64,
    refresh: RefreshMode::All,
    ecs_every: 0,
};

const ONE_ROW: Settings = Settings {
    rows: 1,
    ath: 3,
    eth: 3,
    raaimt: 8,
    raammt: 16,
    refresh: RefreshMode::All,
    ecs_every: 0,
};

// A command at its clock: its words, and whether the alert is raised after it.
type Line = (u64, u16, Option<u16>, bool);

// The register writes of sixteen rows, an ACT of row 0 and a WR of its column 0.
const UP_TO_WRITE: [Line; 10] = [
    (0, 0x0805, Some(0x000f), false),
    (4, 0x0825, Some(0x0000), false),
    (8, 0x0845, Some(0x0005), false),
    (12, 0x0865, Some(0x0003), false),
    (16, 0x0885, Some(0x0000), false),
    (20, 0x08a5, Some(0x0008), false),
    (24, 0x08c5, Some(0x0010), false),
    (28, 0x08e5, Some(0x0000), false),
    (32, 0x0000, Some(0x0000), false),
    (35, 0x002d, Some(0x0c00), false),
];

// The same where an ECS stands behind each refresh.
const UP_TO_WRITE_WITH_SCRUB: [Line; 10] = [
    (0, 0x0805, Some(0x000f), false),
    (4, 0x0825, Some(0x0000), false),
    (8, 0x0845, Some(0x0005), false),
    (12, 0x0865, Some(0x0003), false),
    (16, 0x0885, Some(0x0000), false),
    (20, 0x08a5, Some(0x0008), false),
    (24, 0x08c5, Some(0x0010), false),
    (28, 0x08e5, Some(0x0001), false),
    (32, 0x0000, Some(0x0000), false),
    (35, 0x002d, Some(0x0c00), false),
];

// A RD of that column, and a precharge.
const READ_BACK: [Line; 2] = [(51, 0x003d, Some(0x0400), false), (54, 0x000b, None, false)];

// A refresh of all banks.
const REFRESHED: [Line; 2] = [(2000, 0x000b, None, false), (2004, 0x0213, None, false)];

// A refresh, and a scrub of line 0.
const SCRUBBED: [Line; 3] = [
    (2000, 0x000b, None, false),
    (2004, 0x0213, None, false),
    (2024, 0x018f, None, false),
];

// The row again, a RD and a precharge.
const READ_LATER: [Line; 3] = [
    (2536, 0x0000, Some(0x0000), false),
    (2539, 0x003d, Some(0x0400), false),
    (2542, 0x000b, None, false),
];

// Two rows in turn: the alert is raised, one row is mitigated, and the other raises it again.
const RAISED_TWICE: [Line; 42] = [
    (0, 0x0805, Some(0x0001), false),
    (4, 0x0825, Some(0x0000), false),
    (8, 0x0845, Some(0x0005), false),
    (12, 0x0865, Some(0x0005), false),
    (16, 0x0885, Some(0x0000), false),
    (20, 0x08a5, Some(0x0020), false),
    (24, 0x08c5, Some(0x0040), false),
    (28, 0x08e5, Some(0x0000), false),
    (32, 0x0000, Some(0x0000), false),
    (38, 0x001b, None, false),
    (42, 0x0000, Some(0x0000), false),
    (48, 0x001b, None, false),
    (52, 0x0000, Some(0x0000), false),
    (58, 0x001b, None, false),
    (62, 0x0000, Some(0x0000), false),
    (68, 0x001b, None, false),
    (72, 0x0004, Some(0x0000), false),
    (78, 0x001b, None, false),
    (82, 0x0004, Some(0x0000), false),
    (88, 0x001b, None, false),
    (92, 0x0004, Some(0x0000), false),
    (98, 0x001b, None, false),
    (102, 0x0004, Some(0x0000), false),
    (108, 0x001b, None, false),
    (112, 0x0000, Some(0x0000), false),
    (118, 0x001b, None, true),
    (122, 0x0004, Some(0x0000), true),
    (128, 0x001b, None, true),
    (132, 0x0004, Some(0x0000), true),
    (138, 0x001b, None, true),
    (142, 0x0000, Some(0x0000), true),
    (148, 0x001b, None, true),
    (152, 0x0013, None, false),
    (176, 0x0000, Some(0x0000), false),
    (182, 0x001b, None, true),
    (186, 0x0000, Some(0x0000), true),
    (192, 0x001b, None, true),
    (196, 0x0000, Some(0x0000), true),
    (202, 0x001b, None, true),
    (206, 0x0000, Some(0x0000), true),
    (212, 0x001b, None, true),
    (216, 0x0013, None, false),
];

// The one row of the last bank of four groups: the alert is raised when it is closed for the third time, and one more
// ACT is let through before it is mitigated.
const TWO_PER_CYCLE: [Line; 17] = [
    (0, 0x0805, Some(0x0000), false),
    (4, 0x0825, Some(0x0000), false),
    (8, 0x0845, Some(0x0003), false),
    (12, 0x0865, Some(0x0003), false),
    (16, 0x0885, Some(0x0000), false),
    (20, 0x08a5, Some(0x0008), false),
    (24, 0x08c5, Some(0x0010), false),
    (28, 0x08e5, Some(0x0000), false),
    (32, 0x03c0, Some(0x0000), false),
    (38, 0x03db, None, false),
    (42, 0x03c0, Some(0x0000), false),
    (48, 0x03db, None, false),
    (52, 0x03c0, Some(0x0000), false),
    (58, 0x03db, None, true),
    (62, 0x03c0, Some(0x0000), true),
    (68, 0x03db, None, true),
    (72, 0x0013, None, false),
];

// A device of this timing, these settings, this cycle and so many groups.
fn device_of(
    alloc: Global,
    timing: &Timing,
    settings: &Settings,
    cycle: u32,
    groups: u8,
) -> Result<Device, OutOfMemory>
    requires { IsAccepted (header_of timing.now settings.now cycle groups) }
    ensures { IfOk result (λ device. StandsFor device (header_of timing.now settings.now cycle groups) []) }
{
    let version = Version::new(cycle, groups).unwrap();
    let header = Header {
        timing: *timing,
        settings: *settings,
        version,
    };
    Device::new(alloc, &header)
}

// The bytes of a line that is zero but for its first byte.
fn line_of(first: u8) -> [u8; 64] {
    let mut bytes = [0; 64];
    bytes[0] = first;
    bytes
}

// A line that is zero but for its first byte, as a reading finds it.
fn found(first: u8, state: ReadState) -> Option<LineRead> {
    Some(LineRead {
        bytes: line_of(first),
        state,
    })
}

// The counts of a scrub that fixed so many words of row number 0.
fn counts(fixed: u64) -> ScrubCounts {
    ScrubCounts {
        found: fixed,
        lost: 0,
        worst_row: 0,
        worst: fixed,
    }
}

// The place of line 0.
fn first_place() -> Place
    ensures { result ≡ first_place }
{
    Place {
        bank: Bank {
            group: Group::new(0).unwrap(),
            address: BankAddr::new(0).unwrap(),
        },
        row: Row::new(0).unwrap(),
        column: Column::new(0).unwrap(),
    }
}

// The bytes for a command that the words spell.
fn given(words: Words, bytes: &[u8; 64]) -> Option<&[u8; 64]>
    ensures spelled { IfOk (decode_of words) (λ command. Spells command words) }
    ensures in_range { IfOk (decode_of words) IsInRange }
    ensures bytes { (command : AnyCommand) → decode_of words ≡ Ok command → lent result ≡ bytes_for command bytes.now }
{
    match decode(words) {
        Ok(Command::Wr(..)) => Some(bytes),
        _ => None,
    }
}

// Gives the device each command in turn, with these bytes where it is a WR. Answers what the last RD read, or the clock
// of a line at which the device answers another alert, or memory is wanting.
fn play(device: &mut Device, bytes: &[u8; 64], script: &[Line]) -> Result<Option<LineRead>, u64>
    requires { (h : AnyHeader) × (steps : List Step) × (StandsFor device.old h steps) × (is_legal h bytes.now script.now steps ≡ true) }
    ensures { IfOk result (λ _. (h : AnyHeader) (steps : List Step) → StandsFor device.old h steps
        → is_legal h bytes.now script.now steps ≡ true → StandsFor device.new h (played bytes.now script.now steps)) }
{
    let mut read = None;
    for line in script {
        let (clock, first, second, raised) = *line;
        let words = Words { first, second };
        let reply = match device.step(clock, words, given(words, bytes)) {
            Ok(reply) => reply,
            Err(_) => return Err(clock),
        };
        if reply.alert != raised {
            return Err(clock);
        }
        if reply.line.is_some() {
            read = reply.line;
        }
    }
    Ok(read)
}

// Turns a bit of line 0.
fn turn(device: &mut Device, of: u8, bit: u8) -> Result<(), OutOfMemory>
    requires { (h : AnyHeader) × (steps : List Step) × (StandsFor device.old h steps) × IsBit h first_place of bit }
    ensures { IfOk result (λ _. (h : AnyHeader) (steps : List Step) → StandsFor device.old h steps
        → IsBit h first_place of bit → StandsFor device.new h (Flips first_place of bit ∷ steps)) }
{
    Device::list_is_legal();
    device.flip(first_place(), of, bit)
}

#[test]
fn a_line_is_written_and_read(rt: HostRuntime) -> Result<(), Fail> {
    let bytes = line_of(0x11);
    let mut device = device_of(rt.alloc(), &TINY, &SIXTEEN_ROWS, 4, 8)?;
    play(&mut device, &bytes, &UP_TO_WRITE)?;
    let read = play(&mut device, &bytes, &READ_BACK)?;
    assert!(rt; read == found(0x11, ReadState::Clean));
    assert_eq!(rt; device.peak(), 1);
    assert!(rt; device.scrub_counts() == counts(0));
    Ok(())
}

#[test]
fn one_flip_in_each_codeword_is_fixed(rt: HostRuntime) -> Result<(), Fail> {
    let bytes = line_of(0x11);
    let mut device = device_of(rt.alloc(), &TINY, &SIXTEEN_ROWS, 4, 8)?;
    play(&mut device, &bytes, &UP_TO_WRITE)?;
    turn(&mut device, 0, 0)?;
    turn(&mut device, 1, 63)?;
    turn(&mut device, 2, 127)?;
    turn(&mut device, 3, 135)?;
    let read = play(&mut device, &bytes, &READ_BACK)?;
    assert!(rt; read == found(0x11, ReadState::Fixed));
    Ok(())
}

#[test]
fn a_scrub_between_two_flips_undoes_the_first(rt: HostRuntime) -> Result<(), Fail> {
    let bytes = line_of(0);
    let mut device = device_of(rt.alloc(), &TINY, &SCRUBBED_ROWS, 4, 8)?;
    play(&mut device, &bytes, &UP_TO_WRITE_WITH_SCRUB)?;
    turn(&mut device, 0, 2)?;
    play(&mut device, &bytes, &SCRUBBED)?;
    turn(&mut device, 0, 4)?;
    let read = play(&mut device, &bytes, &READ_LATER)?;
    assert!(rt; read == found(0, ReadState::Fixed));
    assert!(rt; device.scrub_counts() == counts(1));
    Ok(())
}

#[test]
fn two_flips_make_a_wrong_word(rt: HostRuntime) -> Result<(), Fail> {
    let bytes = line_of(0);
    let mut device = device_of(rt.alloc(), &TINY, &SIXTEEN_ROWS, 4, 8)?;
    play(&mut device, &bytes, &UP_TO_WRITE)?;
    turn(&mut device, 0, 2)?;
    play(&mut device, &bytes, &REFRESHED)?;
    turn(&mut device, 0, 4)?;
    let read = play(&mut device, &bytes, &READ_LATER)?;
    assert!(rt; read == found(0x07, ReadState::Fixed));
    Ok(())
}

#[test]
fn two_other_flips_are_lost(rt: HostRuntime) -> Result<(), Fail> {
    let bytes = line_of(0);
    let mut device = device_of(rt.alloc(), &TINY, &SIXTEEN_ROWS, 4, 8)?;
    play(&mut device, &bytes, &UP_TO_WRITE)?;
    turn(&mut device, 0, 15)?;
    play(&mut device, &bytes, &REFRESHED)?;
    turn(&mut device, 0, 127)?;
    let read = play(&mut device, &bytes, &READ_LATER)?;
    assert!(rt; read == found(0, ReadState::Lost));
    Ok(())
}

#[test]
fn rows_that_stay_hot_raise_the_alert_again(rt: HostRuntime) -> Result<(), Fail> {
    let bytes = line_of(0);
    let mut device = device_of(rt.alloc(), &TINY, &TWO_ROWS, 4, 8)?;
    play(&mut device, &bytes, &RAISED_TWICE)?;
    assert_eq!(rt; device.peak(), 10);
    Ok(())
}

#[test]
fn two_activations_a_cycle_and_four_groups(rt: HostRuntime) -> Result<(), Fail> {
    let bytes = line_of(0);
    let mut device = device_of(rt.alloc(), &SHORT_WINDOW, &ONE_ROW, 2, 4)?;
    play(&mut device, &bytes, &TWO_PER_CYCLE)?;
    assert_eq!(rt; device.peak(), 4);
    Ok(())
}

#[test]
fn laws_return() {
    laws::open_rows_are_inside();
    laws::peak_is_bounded();
}
