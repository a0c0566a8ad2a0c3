//! The writes of the registers.
ghost use Rattle.std.specs.Prelude.{ℕ, ◌≡◌, ◌<◌, ◌≤◌, None, Some, Ok, fold, take, All};
ghost use Rattle.speed_bin.specs.Header.{IsSettings};
ghost use Rattle.speed_bin.specs.Registers.{register_writes, high_bits, mode_bit};
ghost use Rattle.speed_bin.specs.declared.settings.Settings.{Settings as Told};
ghost use Rattle.mode_registers.specs.Outcome.{outcome};
ghost use Rattle.mode_registers.specs.Held.{unwritten, written, settings_in};

use arrayvec::ArrayVec;
use command_words::Mrw;
use speed_bin::{RefreshMode, Settings};

/// The eight writes that tell a device the settings, in their order.
pub fn writes(settings: &Settings) -> ArrayVec<Mrw, 8>
    requires in_range { IsSettings settings.now }
    requires management { 8 ≤ settings.now.raaimt }
    ensures { result.items ≡ register_writes settings.now }
{
    let rows = settings.rows - 1;
    ArrayVec::from_array_in(
        (),
        [
            write(64, rows & 0xff),
            write(65, rows >> 8),
            write(66, settings.ath & 0xff),
            write(67, settings.eth & 0xff),
            write(68, high_bits(settings)),
            write(69, settings.raaimt),
            write(70, settings.raammt & 0xff),
            write(71, settings.ecs_every),
        ],
    )
}

fn write(address: u8, value: u32) -> Mrw
    requires { value ≤ 255 }
    ensures { result ≡ record { address = address; value = value } }
{
    Mrw {
        address,
        value: value as u8,
    }
}

// The high bits of both thresholds and of RAAMMT, and the refresh mode.
fn high_bits(settings: &Settings) -> u32
    requires { IsSettings settings.now }
    ensures bits { result ≡ high_bits settings.now }
    ensures below { result ≤ 127 }
{
    let mode = match settings.refresh {
        RefreshMode::All => 0,
        RefreshMode::Same => 1,
    };
    (settings.ath >> 8) + (settings.eth >> 8) * 4 + (settings.raammt >> 8) * 16 + mode * 64
}

/// A law: a device accepts the eight writes of settings, holds no settings before the last, and then these.
pub fn give_back()
    ensures accepted { (told : Told) → IsSettings told → 8 ≤ told.raaimt → All (λ write. outcome write ≡ Ok tt) (register_writes told) }
    ensures before { (told : Told) (count : ℕ) → count < 8 → settings_in (fold written unwritten (take count (register_writes told))) ≡ None }
    ensures after { (told : Told) → IsSettings told → settings_in (fold written unwritten (register_writes told)) ≡ Some told }
{}
