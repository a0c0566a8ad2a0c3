//! The functions that C calls.
ghost use Rattle.std.specs.Prelude.{ℕ, ◌≡◌, ◌≢◌, ◌⊎◌, List, [], Some, None, Ok, Err, Result};
ghost use Rattle.command_words.specs.Geometry.{lines_of};
ghost use Rattle.device_core.specs.Steps.{Step};
ghost use Rattle.speed_bin.specs.Document.{header_stated};
ghost use Rattle.speed_bin.specs.Header.{IsAccepted, shape_of};
ghost use Rattle.speed_bin.specs.Version.{Figures, IsVersion};
ghost use Rattle.speed_bin.specs.declared.fault.HeaderFault.{HeaderFault as AnyHeaderFault};
ghost use Rattle.speed_bin.specs.declared.header.Header.{Header as AnyHeader};
ghost use Rattle.ddr_c.specs.Answers.{code_of, header_code};
ghost use Rattle.ddr_c.specs.Effects.{EndsIn, FollowsIn, IsOpened, TurnsIn, counted, effect_of, ended, is_bit, is_in_time, tells_counts, turned, words_in};
ghost use Rattle.ddr_c.specs.Standing.{Going, Holds, SessionFor, Sits, Stage};
ghost use Rattle.ddr_c.specs.declared.answers.Refusal.{Refusal as AnyRefusal};
ghost use Rattle.ddr_c.specs.declared.session.Session.{Session as AnySession};

use crate::answers::{EMPTY, NO_MEMORY, OUT_OF_RANGE, Refusal, code, header_code};
use crate::line::Line;
use crate::session::{Session, Totals};
use crate::slot::Slot;
use command_words::Words;
use speed_bin::{Header, Version, read_header};
use std::alloc::Global;

/// Puts a session of no command into the slot, under the header that the text states: in front of a separator with a cycle of 2 to
/// 5 activations and 4 or 8 bank groups, which are 4 and 8 where it states none. A session that was in the slot is closed, as
/// `ddr_close` does, when the new one is ready.
///
/// 0; 105 for another cycle or another number of groups; the number of a header that is refused; 254 where memory is wanting. Where
/// it is not 0, the slot has what it had.
#[unsafe(no_mangle)]
pub extern "C" fn ddr_open(
    alloc: Global,
    slot: &mut Slot,
    text: &[u8],
    cycle: u32,
    groups: u8,
) -> u8
    requires { Sits slot.old.kept.session }
    ensures sits { Sits slot.new.kept.session }
    ensures opened { result ≡ 0 → IsOpened (record { cycle = cycle; groups = groups }) text.now slot.new.kept.session }
    ensures refused { IsVersion (record { cycle = cycle; groups = groups }) → (fault : AnyHeaderFault) → header_stated (record { cycle = cycle; groups = groups }) text.now ≡ Err fault
        → (result ≡ header_code fault) ⊎ (result ≡ 254) }
    ensures accepted { IsVersion (record { cycle = cycle; groups = groups }) → (h : AnyHeader) → header_stated (record { cycle = cycle; groups = groups }) text.now ≡ Ok h → (result ≡ 0) ⊎ (result ≡ 254) }
    ensures range { (IsVersion (record { cycle = cycle; groups = groups }) → ⊥) → result ≡ 105 }
    ensures unchanged { result ≢ 0 → slot.new.kept.session ≡ slot.old.kept.session }
{
    let Some(version) = Version::new(cycle, groups) else {
        return OUT_OF_RANGE;
    };
    match read_header(alloc, text, version) {
        Ok(header) => open(alloc, slot, &header),
        Err(fault) => header_code(fault),
    }
}

/// Takes a command, by its words, at its clock, with the bytes of a WR in `line`. Where it breaks no rule, the device carries it
/// out, and `line` tells what an RD found and whether ALERT is raised.
///
/// 0; 1 to 14 for a rule that is broken, which is the answer to every command from then on; 105 for a clock, a row or a bank group
/// that there is not; 131 to 135 for words that spell no command; 254 where there is no memory for the bytes of a WR; 255 for an
/// empty slot. Where it is not 0, `line` is as it was. After a WR and 254 the WR waits: the same call again goes on with it, and
/// any other command, bit or end is answered with 254.
#[unsafe(no_mangle)]
pub extern "C" fn ddr_step(
    alloc: Global,
    slot: &mut Slot,
    clock: u64,
    first: u16,
    second: u16,
    has_second: bool,
    line: &mut Line,
) -> u8
    requires { Sits slot.old.kept.session }
    ensures sits { Sits slot.new.kept.session }
    ensures follows { (it : AnySession) (h : AnyHeader) (steps : List Step) (stage : Stage) → slot.old.kept.session ≡ Some it → SessionFor it h steps stage
        → (told : Result Unit AnyRefusal) × (result ≡ code_of told)
        × FollowsIn (effect_of h steps stage clock (words_in first second has_second) line.old.bytes) h steps stage slot.new.kept.session line.old line.new told }
    ensures empty { slot.old.kept.session ≡ None → (result ≡ 255) × (slot.new.kept.session ≡ None) × (line.new ≡ line.old) }
{
    let words = Words {
        first,
        second: if has_second { Some(second) } else { None },
    };
    match slot.take(alloc) {
        Some(mut session) => {
            let told = session.step(clock, words, line);
            slot.put(session);
            code(told)
        }
        None => EMPTY,
    }
}

/// Turns one stored bit: of a line, a device below 4 and a bit below 136.
///
/// 0; 1 to 14 for a rule that was broken; 105 for a bit that there is not; 254 where memory is wanting, and then all is as it was;
/// 255 for an empty slot.
#[unsafe(no_mangle)]
pub extern "C" fn ddr_flip(alloc: Global, slot: &mut Slot, line: u32, device: u8, bit: u8) -> u8
    requires { Sits slot.old.kept.session }
    ensures sits { Sits slot.new.kept.session }
    ensures turns { (it : AnySession) (h : AnyHeader) (steps : List Step) (stage : Stage) → slot.old.kept.session ≡ Some it → SessionFor it h steps stage
        → (told : Result Unit AnyRefusal) × (result ≡ code_of told)
        × TurnsIn (turned (is_bit (shape_of h) line device bit) h steps stage line device bit) h steps stage slot.new.kept.session told }
    ensures empty { slot.old.kept.session ≡ None → (result ≡ 255) × (slot.new.kept.session ≡ None) }
{
    match slot.take(alloc) {
        Some(mut session) => {
            let told = session.flip(line, device, bit);
            slot.put(session);
            code(told)
        }
        None => EMPTY,
    }
}

/// Takes the end of the log. Where no rule is broken, the slot is empty then.
///
/// 0; 1 to 14 for a rule that is broken, which stays the answer; 105 for a clock above 2^48 - 1; 254 where a WR waits; 255 for an
/// empty slot.
#[unsafe(no_mangle)]
pub extern "C" fn ddr_end(alloc: Global, slot: &mut Slot, clock: u64) -> u8
    requires { Sits slot.old.kept.session }
    ensures sits { Sits slot.new.kept.session }
    ensures ends { (it : AnySession) (h : AnyHeader) (steps : List Step) (stage : Stage) → slot.old.kept.session ≡ Some it → SessionFor it h steps stage
        → (told : Result Unit AnyRefusal) × (result ≡ code_of told)
        × EndsIn (ended (is_in_time clock) h steps stage clock) h steps stage slot.new.kept.session told }
    ensures empty { slot.old.kept.session ≡ None → (result ≡ 255) × (slot.new.kept.session ≡ None) }
{
    match slot.take(alloc) {
        Some(mut session) => match session.end(clock) {
            Ok(()) => 0,
            Err(refusal) => {
                slot.put(session);
                refusal.code()
            }
        },
        None => EMPTY,
    }
}

/// Tells what is counted so far.
///
/// 0; 1 to 14 for a rule that was broken; 255 for an empty slot. Where it is not 0, `counts` is as it was. The slot has what it had.
#[unsafe(no_mangle)]
pub extern "C" fn ddr_counts(alloc: Global, slot: &mut Slot, counts: &mut Totals) -> u8
    requires { Sits slot.old.kept.session }
    ensures counted { (it : AnySession) (h : AnyHeader) (steps : List Step) (stage : Stage) → slot.old.kept.session ≡ Some it → SessionFor it h steps stage
        → tells_counts (counted h steps stage) counts.old counts.new result }
    ensures empty { slot.old.kept.session ≡ None → (result ≡ 255) × (counts.new ≡ counts.old) }
    ensures unchanged { slot.new.kept.session ≡ slot.old.kept.session }
{
    match slot.take(alloc) {
        Some(session) => {
            let told = session.counts();
            slot.put(session);
            tell(counts, told)
        }
        None => EMPTY,
    }
}

/// The lines of the subchannel, and 0 for an empty slot. The slot has what it had.
#[unsafe(no_mangle)]
pub extern "C" fn ddr_lines(alloc: Global, slot: &mut Slot) -> u32
    requires { Sits slot.old.kept.session }
    ensures lines { (it : AnySession) (h : AnyHeader) (steps : List Step) (stage : Stage) → slot.old.kept.session ≡ Some it → SessionFor it h steps stage
        → result ≡ lines_of (shape_of h) }
    ensures empty { slot.old.kept.session ≡ None → result ≡ 0 }
    ensures unchanged { slot.new.kept.session ≡ slot.old.kept.session }
{
    match slot.take(alloc) {
        Some(session) => {
            let lines = session.lines();
            slot.put(session);
            lines
        }
        None => 0,
    }
}

/// Lets go what is in the slot, if there is something, and gives its memory back.
#[unsafe(no_mangle)]
pub extern "C" fn ddr_close(alloc: Global, slot: &mut Slot)
    ensures { slot.new.kept.session ≡ None }
{
    let _session = slot.take(alloc);
}

// Puts a session of no command into the slot, and closes what was there.
fn open(alloc: Global, slot: &mut Slot, header: &Header) -> u8
    requires { IsAccepted header.now }
    ensures opened { result ≡ 0 → Holds slot.new.kept.session header.now [] Going }
    ensures answers { (result ≡ 0) ⊎ (result ≡ 254) }
    ensures unchanged { result ≢ 0 → slot.new.kept.session ≡ slot.old.kept.session }
{
    let Ok(session) = Session::new(alloc, header) else {
        return NO_MEMORY;
    };
    match Box::new(alloc, session) {
        Ok(session) => {
            ddr_close(alloc, slot);
            slot.put(session);
            0
        }
        Err(_) => NO_MEMORY,
    }
}

// Writes down what was counted, and answers.
fn tell(counts: &mut Totals, told: Result<Totals, Refusal>) -> u8
    ensures { tells_counts told counts.old counts.new result }
{
    match told {
        Ok(counted) => {
            *counts = counted;
            0
        }
        Err(refusal) => refusal.code(),
    }
}
