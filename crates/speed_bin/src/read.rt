//! Reading a header.
ghost use Rattle.std.specs.Prelude.{◌≡◌, ◌⊎◌, true, Some, codes, option_copied, option_map, option_and_then, is_some, IfOk, IfSome};
ghost use Rattle.toml.specs.Data.{get_member, as_table};
ghost use Rattle.toml.specs.View.{table_view, view};
ghost use Rattle.speed_bin.specs.Document.{header_stated, header_in, with_bin, checked, settings_in, timing_in, replaced, number_at, whole_or, text_at, mode_named};
ghost use Rattle.speed_bin.specs.Header.{IsAccepted, IsSettings};
ghost use Rattle.speed_bin.specs.Keys.{all_members, range_fits, has_required};
ghost use Rattle.speed_bin.specs.Timing.{IsTiming, bin_named};
ghost use Rattle.speed_bin.specs.Version.{IsVersion};

use crate::failing::failing_check;
use crate::keys::{all_keys_fit, all_kinds_fit, all_ranges_fit};
use crate::{Header, HeaderFault, RefreshMode, Settings, Timing, Version, named};
use std::alloc::Global;
use toml::Table;

/// The header that a TOML document states, by `docs/FORMATS.md`, or the first of its faults in the order of
/// `HeaderFault`, in front of a separator with this version. Only where memory runs out it answers `OutOfMemory`.
pub fn read_header(alloc: Global, text: &[u8], version: Version) -> Result<Header, HeaderFault>
    ensures stated { (result ≡ Err HeaderFault.OutOfMemory) ⊎ (result ≡ header_stated version text.now) }
    ensures accepted { IfOk result IsAccepted }
{
    let Ok(text) = str::from_utf8(text) else {
        return Err(HeaderFault::NotToml);
    };
    match toml::table_from_str(alloc, text) {
        Ok(table) => header_in(&table, version),
        Err(error) if error.is_memory() => Err(HeaderFault::OutOfMemory),
        Err(_) => Err(HeaderFault::NotToml),
    }
}

// The header that a table states, or its first fault.
fn header_in(table: &Table, version: Version) -> Result<Header, HeaderFault>
    ensures stated { result ≡ header_in version (table_view table.now) }
    ensures accepted { IfOk result IsAccepted }
{
    if !all_keys_fit(table) || !has_required(table) {
        return Err(HeaderFault::Key);
    }
    if !all_kinds_fit(table) {
        return Err(HeaderFault::Kind);
    }
    if !all_ranges_fit(table) {
        return Err(HeaderFault::Range);
    }
    match bin_in(table) {
        Some(bin) => with_bin(table, bin, version),
        None => Err(HeaderFault::NoBin),
    }
}

// The header with the numbers of a bin, or the first check that fails.
fn with_bin(table: &Table, bin: Timing, version: Version) -> Result<Header, HeaderFault>
    requires bin { IsTiming bin }
    requires ranges { all_members range_fits (table_view table.now) ≡ true }
    requires required { has_required (table_view table.now) ≡ true }
    ensures stated { result ≡ with_bin version (table_view table.now) (Some bin) }
    ensures accepted { IfOk result IsAccepted }
{
    let header = Header {
        timing: timing_in(table, bin),
        settings: settings_in(table),
        version,
    };
    checked(header)
}

fn checked(header: Header) -> Result<Header, HeaderFault>
    requires timing { IsTiming header.timing }
    requires settings { IsSettings header.settings }
    ensures stated { result ≡ checked header }
    ensures accepted { IfOk result IsAccepted }
{
    let _cycle = header.version.cycle();
    match failing_check(&header) {
        Some(check) => Err(HeaderFault::Check(check)),
        None => Ok(header),
    }
}

#[tactic(auto, unfolding(crate::specs::Keys::has_required))]
fn has_required(table: &Table) -> bool
    ensures { result ≡ has_required (table_view table.now) }
{
    has(table, "format")
        && has(table, "bin")
        && has(table, "rows")
        && has(table, "ath")
        && has(table, "eth")
        && has(table, "raaimt")
        && has(table, "raammt")
        && has(table, "refresh")
        && has(table, "ecs_every")
}

fn has(table: &Table, key: &str) -> bool
    ensures { result ≡ is_some (get_member key.now (table_view table.now)) }
{
    match table.get(key) {
        Some(_) => true,
        None => false,
    }
}

// The bin that `bin` names.
fn bin_in(table: &Table) -> Option<Timing>
    ensures named { result ≡ option_and_then bin_named (text_at (codes "bin") (table_view table.now)) }
    ensures timing { IfSome result IsTiming }
{
    match text(table, "bin") {
        Some(name) => named(name),
        None => None,
    }
}

// The bin's numbers, with those of `timing` in their place.
fn timing_in(table: &Table, bin: Timing) -> Timing
    ensures { result ≡ timing_in bin (table_view table.now) }
{
    match table_at(table, "timing") {
        Some(given) => replaced(bin, given),
        None => bin,
    }
}

// The table at a key.
fn table_at<'a>(table: &'a Table, key: &str) -> Option<&'a Table>
    ensures { option_map (λ t. table_view t.now) result ≡ option_and_then as_table (get_member key.now (table_view table.now)) }
{
    match table.get(key) {
        Some(value) => value.as_table(),
        None => None,
    }
}

#[tactic(auto, unfolding(crate::specs::Document::replaced))]
fn replaced(bin: Timing, given: &Table) -> Timing
    ensures { result ≡ replaced bin (table_view given.now) }
{
    Timing {
        ncl: number(given, "nCL", bin.ncl),
        ncwl: number(given, "nCWL", bin.ncwl),
        nrcd: number(given, "nRCD", bin.nrcd),
        nrp: number(given, "nRP", bin.nrp),
        nras: number(given, "nRAS", bin.nras),
        nrc: number(given, "nRC", bin.nrc),
        nrrd_s: number(given, "nRRD_S", bin.nrrd_s),
        nrrd_l: number(given, "nRRD_L", bin.nrrd_l),
        nfaw: number(given, "nFAW", bin.nfaw),
        nccd_s: number(given, "nCCD_S", bin.nccd_s),
        nccd_l: number(given, "nCCD_L", bin.nccd_l),
        nccd_l_wr: number(given, "nCCD_L_WR", bin.nccd_l_wr),
        nwtr_s: number(given, "nWTR_S", bin.nwtr_s),
        nwtr_l: number(given, "nWTR_L", bin.nwtr_l),
        nrtp: number(given, "nRTP", bin.nrtp),
        nwr: number(given, "nWR", bin.nwr),
        nrfc: number(given, "nRFC", bin.nrfc),
        nrfcsb: number(given, "nRFCsb", bin.nrfcsb),
        nrfm: number(given, "nRFM", bin.nrfm),
        nrfmsb: number(given, "nRFMsb", bin.nrfmsb),
        nrefi: number(given, "nREFI", bin.nrefi),
        nabo: number(given, "nABO", bin.nabo),
        nmrd: number(given, "nMRD", bin.nmrd),
        necs: number(given, "nECS", bin.necs),
    }
}

#[tactic(auto, unfolding(crate::specs::Document::settings_in))]
fn settings_in(table: &Table) -> Settings
    ensures { result ≡ settings_in (table_view table.now) }
{
    Settings {
        rows: number(table, "rows", 0),
        ath: number(table, "ath", 0),
        eth: number(table, "eth", 0),
        raaimt: number(table, "raaimt", 0),
        raammt: number(table, "raammt", 0),
        refresh: refresh_in(table),
        ecs_every: number(table, "ecs_every", 0),
    }
}

fn refresh_in(table: &Table) -> RefreshMode
    ensures { result ≡ mode_named (text_at (codes "refresh") (table_view table.now)) }
{
    match text(table, "refresh") {
        Some(name) => mode_named(name),
        None => RefreshMode::All,
    }
}

fn mode_named(name: &str) -> RefreshMode
    ensures { result ≡ mode_named (Some name.now) }
{
    match name {
        "same" => RefreshMode::Same,
        _ => RefreshMode::All,
    }
}

// The text at a key.
fn text<'a>(table: &'a Table, key: &str) -> Option<&'a str>
    ensures { option_copied result ≡ text_at key.now (table_view table.now) }
{
    match table.get(key) {
        Some(value) => value.as_str(),
        None => None,
    }
}

// The whole number at a key, and another number where there is none.
fn number(table: &Table, key: &str, other: u32) -> u32
    ensures { result ≡ number_at other key.now (table_view table.now) }
{
    match table.get(key) {
        Some(value) => whole_or(other, value.as_integer()),
        None => other,
    }
}

fn whole_or(other: u32, number: Option<i64>) -> u32
    ensures { result ≡ whole_or other number }
{
    match number {
        Some(number) => {
            if 0 <= number && number < 0x1_0000_0000 {
                number as u32
            } else {
                0
            }
        }
        None => other,
    }
}
