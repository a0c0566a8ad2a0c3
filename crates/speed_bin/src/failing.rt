//! The checks of a header, by `docs/RULES.md`.
ghost use Rattle.std.specs.Prelude.{◌≡◌};
ghost use Rattle.speed_bin.specs.Document.{checks_of, precharge_within_cycle, window_fits, thresholds_fit, management_fits, closing_within_two, round_within_half, latencies_fit, bursts_fit};
ghost use Rattle.speed_bin.specs.Rules.{first_failing};
ghost use Rattle.speed_bin.specs.Timing.{IsTiming};

use crate::{Header, Settings, Timing};

// The number of the first check that fails.
#[tactic(auto, unfolding(crate::specs::Document::checks_of))]
pub(crate) fn failing_check(header: &Header) -> Option<u8>
    requires { IsTiming header.now.timing }
    ensures { result ≡ first_failing 1 (checks_of header.now) }
{
    if !precharge_within_cycle(&header.timing) {
        Some(1)
    } else if !window_fits(header) {
        Some(2)
    } else if !thresholds_fit(header) {
        Some(3)
    } else if !management_fits(&header.settings) {
        Some(4)
    } else if !closing_within_two(&header.timing) {
        Some(5)
    } else if !round_within_half(header) {
        Some(6)
    } else if !latencies_fit(&header.timing) {
        Some(7)
    } else if !bursts_fit(&header.timing) {
        Some(8)
    } else {
        None
    }
}

// Check 1: a precharge ends within the cycle of a row.
fn precharge_within_cycle(timing: &Timing) -> bool
    ensures { result ≡ precharge_within_cycle timing.now }
{
    timing.nrp <= timing.nrc
}

// Check 2: the alert window lets no bank be activated more often than a cycle has activations to spare.
#[tactic(auto, unfolding(crate::specs::Document::window_fits, crate::specs::Header::spare))]
fn window_fits(header: &Header) -> bool
    requires { IsTiming header.now.timing }
    ensures { result ≡ window_fits header.now }
{
    let timing = &header.timing;
    timing.nabo < timing.nrp + header.spare() * timing.nrc
}

// Check 3: the alert threshold is above a cycle's activations, and no mitigated row is above it.
#[tactic(auto, unfolding(crate::specs::Document::thresholds_fit, crate::specs::Header::spare))]
fn thresholds_fit(header: &Header) -> bool
    ensures { result ≡ thresholds_fit header.now }
{
    let settings = &header.settings;
    header.spare() + 2 <= settings.ath && settings.eth <= settings.ath
}

// Check 4: a management is wanted before no ACT is allowed.
fn management_fits(settings: &Settings) -> bool
    ensures { result ≡ management_fits settings.now }
{
    8 <= settings.raaimt && settings.raaimt <= settings.raammt
}

// Check 5: twelve closings, the alert window and the time to close all banks end within two refresh intervals.
fn closing_within_two(timing: &Timing) -> bool
    requires { IsTiming timing.now }
    ensures { result ≡ closing_within_two timing.now }
{
    timing.n_tail() + timing.nabo + 12 * (timing.n_max() + timing.n_close()) <= 2 * timing.nrefi
}

// Check 6: a round of refreshes, its precharges and a scrub take at most half a refresh interval.
#[tactic(auto, unfolding(crate::specs::Document::round_within_half))]
fn round_within_half(header: &Header) -> bool
    requires { IsTiming header.now.timing }
    ensures { result ≡ round_within_half header.now }
{
    let timing = &header.timing;
    let refresh = timing.nrfc.max(4 * timing.nrfcsb);
    2 * (refresh + 5 * timing.nrp + timing.necs) <= timing.nrefi
}

// Check 7: the write latency is the read latency less 2.
fn latencies_fit(timing: &Timing) -> bool
    requires { IsTiming timing.now }
    ensures { result ≡ latencies_fit timing.now }
{
    timing.ncl == timing.ncwl + 2
}

// Check 8: a burst takes 8 clocks, and those of one group are no closer than others.
fn bursts_fit(timing: &Timing) -> bool
    ensures { result ≡ bursts_fit timing.now }
{
    8 <= timing.nccd_s && timing.nccd_s <= timing.nccd_l && timing.nccd_s <= timing.nccd_l_wr
}
