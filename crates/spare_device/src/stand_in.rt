//! The spare in the place of the dead device.
ghost use Rattle.std.specs.Prelude.{◌≡◌, if◌then◌else◌};
ghost use Rattle.spare_device.specs.Spare.{mixed, mixed_four};
ghost use Rattle.spare_device.specs.StandIn.{stood_in};
ghost use Rattle.spare_device.specs.StandIn.{restored as read_restored};

use error_scrub::{LineRead, joined, part};

// The bytes with the exclusive-or of their four parts in the place of the dead device's, if that is below 4. Of the bytes of a
// line this is what the live devices hold; of what they hold, it is the line.
#[tactic(auto, unfolding(crate::specs::StandIn::stood_in))]
pub(crate) fn stood_in(dead: u8, bytes: &[u8; 64]) -> [u8; 64]
    ensures { result ≡ stood_in dead bytes.now }
{
    let first = part(bytes, 0);
    let second = part(bytes, 1);
    let third = part(bytes, 2);
    let fourth = part(bytes, 3);
    let spare = mixed_four(&first, &second, &third, &fourth);
    joined(
        &standing_part(dead == 0, &first, &spare),
        &standing_part(dead == 1, &second, &spare),
        &standing_part(dead == 2, &third, &spare),
        &standing_part(dead == 3, &fourth, &spare),
    )
}

// What the live devices show, as a reading of the line.
pub(crate) fn restored(dead: u8, read: &LineRead) -> LineRead
    ensures { result ≡ read_restored dead read.now }
{
    LineRead {
        bytes: stood_in(dead, &read.bytes),
        state: read.state,
    }
}

// A device's own part, or the spare where it is dead.
fn standing_part(is_dead: bool, own: &[u8; 16], spare: &[u8; 16]) -> [u8; 16]
    ensures { result ≡ (if is_dead then spare.now else own.now) }
{
    if is_dead { *spare } else { *own }
}

// The exclusive-or of four lists of bytes.
fn mixed_four(first: &[u8; 16], second: &[u8; 16], third: &[u8; 16], fourth: &[u8; 16]) -> [u8; 16]
    ensures { result ≡ mixed_four first.now second.now third.now fourth.now }
{
    mixed(&mixed(first, second), &mixed(third, fourth))
}

// The exclusive-or of two lists of bytes, place by place.
fn mixed(one: &[u8; 16], other: &[u8; 16]) -> [u8; 16]
    ensures { result ≡ mixed one.now other.now }
{
    let mut both = *one;
    'places: for i in 0..16 {
        both[i] ^= other[i];
    }
    both
}
