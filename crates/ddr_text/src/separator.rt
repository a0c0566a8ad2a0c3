//! The line that ends a header.
ghost use Rattle.std.specs.Prelude.{◌≡◌, option_copied, codes};
ghost use Rattle.std.specs.Str.{bytes_eq};
ghost use Rattle.ddr_text.specs.Fields.{fields_after};
ghost use Rattle.ddr_text.specs.Grammar.{number_of};
ghost use Rattle.ddr_text.specs.Separator.{role_of_line, version_in, version_if, ends_or_faulty};
ghost use Rattle.ddr_text.specs.Seen.{seen_role};

use crate::fields::{cut, number_of, three_fields};
use speed_bin::Version;

/// What a line before the end of a header is.
#[derive(Clone, Copy, Debug)]
pub(crate) enum LineRole {
    /// The separator of a header with this version.
    Ends(Version),
    /// It begins as a separator with a version, and is none.
    Faulty,
    /// A line of the header.
    Text,
}

/// What the line is, by `docs/FORMATS.md`.
#[tactic(auto, unfolding(crate::specs::Separator::role_of_line))]
pub(crate) fn role_of(line: &[u8]) -> LineRole
    ensures { seen_role result ≡ role_of_line line.now }
{
    let (first, rest) = cut(line);
    if !is_dashes(first) {
        return LineRole::Text;
    }
    match rest {
        None => LineRole::Ends(Version::plain()),
        Some(_) => ends_or_faulty(version_in(rest)),
    }
}

// Whether the field is `---`.
fn is_dashes(field: &[u8]) -> bool
    ensures { result ≡ bytes_eq field.now (codes "---") }
{
    field == b"---".as_slice()
}

fn ends_or_faulty(version: Option<Version>) -> LineRole
    ensures { seen_role result ≡ ends_or_faulty version }
{
    match version {
        Some(version) => LineRole::Ends(version),
        None => LineRole::Faulty,
    }
}

// The version that the fields behind `---` state.
#[tactic(auto, unfolding(crate::specs::Separator::version_in))]
fn version_in(rest: Option<&[u8]>) -> Option<Version>
    ensures { result ≡ version_in (fields_after (option_copied rest.entry)) }
{
    let Ok((two, cycle, groups)) = three_fields(rest) else {
        return None;
    };
    if two != b"2".as_slice() {
        return None;
    }
    version_of(cycle, groups)
}

// The version that two fields state.
fn version_of(cycle: &[u8], groups: &[u8]) -> Option<Version>
    ensures { result ≡ version_if (number_of cycle.now) (number_of groups.now) }
{
    let Ok(cycle) = number_of(cycle) else {
        return None;
    };
    let Ok(groups) = number_of(groups) else {
        return None;
    };
    if 5 < cycle || 8 < groups {
        return None;
    }
    Version::new(cycle as u32, groups as u8)
}
