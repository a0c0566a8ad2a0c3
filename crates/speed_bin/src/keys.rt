//! The keys of a header, and what may stand at each.
ghost use Rattle.std.specs.Prelude.{◌≡◌, Some, is_some};
ghost use Rattle.toml.specs.View.{table_view, view};
ghost use Rattle.toml.specs.Data.{as_integer, as_str};
ghost use Rattle.speed_bin.specs.Keys.{all_members, is_latency_key, is_spacing_key, is_turnaround_key, is_upkeep_key, is_timing_key, bounds_of, is_bounded, is_clocks, is_mode, key_fits, kind_fits, range_fits};

use toml::{Table, Value};

// The least and the greatest value of a whole number.
#[derive(Clone, Copy, Debug, PartialEq, Eq)]
pub(crate) struct Bounds {
    pub(crate) least: u32,
    pub(crate) greatest: u32,
}

// A timing number, in clocks.
const CLOCKS: Bounds = Bounds {
    least: 1,
    greatest: 65535,
};

fn is_latency_key(key: &str) -> bool
    ensures { result ≡ is_latency_key key.now }
{
    matches!(key, "nCL" | "nCWL" | "nRCD" | "nRP" | "nRAS" | "nRC")
}

fn is_spacing_key(key: &str) -> bool
    ensures { result ≡ is_spacing_key key.now }
{
    matches!(
        key,
        "nRRD_S" | "nRRD_L" | "nFAW" | "nCCD_S" | "nCCD_L" | "nCCD_L_WR"
    )
}

fn is_turnaround_key(key: &str) -> bool
    ensures { result ≡ is_turnaround_key key.now }
{
    matches!(key, "nWTR_S" | "nWTR_L" | "nRTP" | "nWR")
}

fn is_upkeep_key(key: &str) -> bool
    ensures { result ≡ is_upkeep_key key.now }
{
    matches!(
        key,
        "nRFC" | "nRFCsb" | "nRFM" | "nRFMsb" | "nREFI" | "nABO" | "nMRD" | "nECS"
    )
}

// The key is the name of a timing number.
#[tactic(auto, unfolding(crate::specs::Keys::is_timing_key))]
fn is_timing_key(key: &str) -> bool
    ensures { result ≡ is_timing_key key.now }
{
    is_latency_key(key) || is_spacing_key(key) || is_turnaround_key(key) || is_upkeep_key(key)
}

// The value is a whole number within the bounds.
fn is_bounded(bounds: Bounds, value: &Value) -> bool
    ensures { result ≡ is_bounded bounds (as_integer (view value.now)) }
{
    match value.as_integer() {
        Some(number) => {
            i64::from(bounds.least) <= number && number <= i64::from(bounds.greatest)
        }
        None => false,
    }
}

// The bounds of the whole number at a key of the header.
fn bounds_of(key: &str) -> Option<Bounds>
    ensures { result ≡ bounds_of key.now }
{
    match key {
        "format" => between(1, 1),
        "rows" => between(1, 65536),
        "ath" => between(1, 1023),
        "eth" => between(1, 1023),
        "raaimt" => between(1, 255),
        "raammt" => between(1, 1023),
        "ecs_every" => between(0, 255),
        _ => None,
    }
}

fn between(least: u32, greatest: u32) -> Option<Bounds>
    ensures { result ≡ Some (record { least = least; greatest = greatest }) }
{
    Some(Bounds { least, greatest })
}

fn all_timing_keys(timing: &Table) -> bool
    ensures { result ≡ all_members (λ key value. is_timing_key key) (table_view timing.now) }
{
    for (key, _) in timing {
        if !is_timing_key(key.as_str()) {
            return false;
        }
    }
    true
}

fn all_whole(timing: &Table) -> bool
    ensures { result ≡ all_members (λ key value. is_some (as_integer value)) (table_view timing.now) }
{
    for (_, value) in timing {
        if !value.is_integer() {
            return false;
        }
    }
    true
}

fn all_clocks(timing: &Table) -> bool
    ensures { result ≡ all_members (λ key value. is_clocks value) (table_view timing.now) }
{
    for (_, value) in timing {
        if !is_bounded(CLOCKS, value) {
            return false;
        }
    }
    true
}

// The key is one of a header; in `timing` it is one of a timing number.
#[tactic(auto, unfolding(crate::specs::Keys::key_fits))]
fn key_fits(key: &str, value: &Value) -> bool
    ensures { result ≡ key_fits key.now (view value.now) }
{
    match key {
        "timing" => match value.as_table() {
            Some(timing) => all_timing_keys(timing),
            None => true,
        },
        "bin" => true,
        "refresh" => true,
        _ => bounds_of(key).is_some(),
    }
}

// `bin` and `refresh` are texts, `timing` is a table of whole numbers, and the others are whole numbers.
#[tactic(auto, unfolding(crate::specs::Keys::kind_fits))]
fn kind_fits(key: &str, value: &Value) -> bool
    ensures { result ≡ kind_fits key.now (view value.now) }
{
    match key {
        "timing" => match value.as_table() {
            Some(timing) => all_whole(timing),
            None => false,
        },
        "bin" => value.is_str(),
        "refresh" => value.is_str(),
        _ => value.is_integer(),
    }
}

// Each number is within its bounds, and `refresh` is `all` or `same`.
#[tactic(auto, unfolding(crate::specs::Keys::range_fits))]
fn range_fits(key: &str, value: &Value) -> bool
    ensures { result ≡ range_fits key.now (view value.now) }
{
    match key {
        "timing" => match value.as_table() {
            Some(timing) => all_clocks(timing),
            None => false,
        },
        "bin" => true,
        "refresh" => is_mode(value),
        _ => match bounds_of(key) {
            Some(bounds) => is_bounded(bounds, value),
            None => false,
        },
    }
}

// The value is the name of a refresh mode.
fn is_mode(value: &Value) -> bool
    ensures { result ≡ is_mode (as_str (view value.now)) }
{
    match value.as_str() {
        Some(name) => matches!(name, "all" | "same"),
        None => false,
    }
}

pub(crate) fn all_keys_fit(table: &Table) -> bool
    ensures { result ≡ all_members key_fits (table_view table.now) }
{
    for (key, value) in table {
        if !key_fits(key.as_str(), value) {
            return false;
        }
    }
    true
}

pub(crate) fn all_kinds_fit(table: &Table) -> bool
    ensures { result ≡ all_members kind_fits (table_view table.now) }
{
    for (key, value) in table {
        if !kind_fits(key.as_str(), value) {
            return false;
        }
    }
    true
}

pub(crate) fn all_ranges_fit(table: &Table) -> bool
    ensures { result ≡ all_members range_fits (table_view table.now) }
{
    for (key, value) in table {
        if !range_fits(key.as_str(), value) {
            return false;
        }
    }
    true
}
