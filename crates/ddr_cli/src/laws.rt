//! Laws on reports in version 2. Each function does nothing: its contract is what follows from the definitions.
ghost use Rattle.std.specs.Prelude.{ℕ, ◌≡◌, ◌++◌, List};
ghost use Rattle.std.specs.List.{flat_map};
ghost use Rattle.ddr_io.specs.declared.status.Status.TheVariants.{Ok as OkStatus};
ghost use Rattle.ddr_text.specs.Opening.{Accepts, Heading, opening_of, opening_text, parts_of};
ghost use Rattle.ddr_text.specs.Spelling.{spelled};
ghost use Rattle.log_auditor.specs.Findings.{finding_of};
ghost use Rattle.ddr_text.specs.ReportReading.{lines_in};
ghost use Rattle.ddr_text.specs.declared.report_reader.Stage.TheVariants.{Body};
ghost use Rattle.speed_bin.specs.Header.{shape_of};
ghost use Rattle.speed_bin.specs.declared.header.Header.{Header};
ghost use Rattle.ddr_cli.specs.Upgraded.{IsWellFormed, newer_heading, upgraded};

/// The separator of well formed bytes is all that changes in version 2. Both open with the same header, which has the
/// timing, the settings and the version, and the same bytes stand behind it, which have the log. So an audit finds the
/// same in both.
pub fn keeps_the_verdict()
    ensures bytes { (bytes : List ℕ) (heading : Heading) (h : Header) (rest : List ℕ) → IsWellFormed bytes heading h rest
        → (upgraded bytes).text ≡ opening_text (newer_heading heading) ++ rest }
    ensures opened { (bytes : List ℕ) (heading : Heading) (h : Header) (rest : List ℕ) → IsWellFormed bytes heading h rest
        → opening_of bytes ≡ Accepts h (opening_text heading) rest }
    ensures opens { (bytes : List ℕ) (heading : Heading) (h : Header) (rest : List ℕ) → IsWellFormed bytes heading h rest
        → opening_of (upgraded bytes).text ≡ Accepts h (opening_text (newer_heading heading)) rest }
    ensures finding { (bytes : List ℕ) (heading : Heading) (h : Header) (rest : List ℕ) → IsWellFormed bytes heading h rest
        → finding_of (upgraded bytes).text ≡ finding_of bytes }
{}

/// The status is `Ok` exactly where the bytes are well formed.
pub fn upgrades_what_is_well_formed()
    ensures fine { (bytes : List ℕ) (heading : Heading) (h : Header) (rest : List ℕ) → IsWellFormed bytes heading h rest
        → (upgraded bytes).status ≡ OkStatus }
    ensures only { (bytes : List ℕ) → (upgraded bytes).status ≡ OkStatus
        → (heading : Heading) × (h : Header) × (rest : List ℕ) × IsWellFormed bytes heading h rest }
{}

/// Upgrading well formed bytes twice is upgrading them once.
pub fn upgrades_once()
    ensures { (bytes : List ℕ) (heading : Heading) (h : Header) (rest : List ℕ) → IsWellFormed bytes heading h rest
        → upgraded (upgraded bytes).text ≡ upgraded bytes }
{}

/// The lines of a well formed report, written again, are its bytes.
pub fn copies_lines()
    ensures { (bytes : List ℕ) (heading : Heading) (h : Header) (rest : List ℕ) → IsWellFormed bytes heading h rest
        → flat_map spelled (lines_in (shape_of h) Body 1 (parts_of rest)).lines ≡ rest }
{
    ddr_text::report_lines();
}
