//! The fields of a line of a trace.
ghost use Rattle.std.specs.Prelude.{◌<◌, length, IfSome};

/// What stands between two fields.
#[derive(Clone, Copy, Debug, PartialEq, Eq)]
pub(crate) enum Between {
    /// One comma, and white space on both sides of it.
    Comma,
    /// White space.
    Blank,
}

/// The fields of a line, from the first on. White space around a field is no part of it.
#[derive(Drop)]
pub(crate) struct Fields<'a> {
    rest: Option<&'a [u8]>,
    between: Between,
}

impl<'a> Fields<'a> {
    pub(crate) fn of(line: &'a [u8], between: Between) -> Self {
        Fields {
            rest: Some(line.trim_ascii()),
            between,
        }
    }

    /// The next field, where there is one.
    pub(crate) fn next_field(&mut self) -> Option<&'a [u8]> {
        let (field, rest) = cut(self.rest?, self.between);
        self.rest = rest;
        Some(field)
    }

    /// The fields that are left, with something else between them.
    pub(crate) fn behind(self, between: Between) -> Self {
        Fields {
            rest: self.rest,
            between,
        }
    }

    /// Whether nothing is left behind the last field, but perhaps a comma.
    pub(crate) fn has_ended(&self) -> bool {
        match self.rest {
            Some(rest) => rest.is_empty(),
            None => true,
        }
    }
}

// The first field of a text, and what follows it, where there is something.
fn cut(text: &[u8], between: Between) -> (&[u8], Option<&[u8]>) {
    match end_of(text, between) {
        Some(at) => {
            let field = &text[..at];
            let rest = &text[at + 1..];
            (field.trim_ascii_end(), Some(rest.trim_ascii_start()))
        }
        None => (text, None),
    }
}

// The place of the first byte that stands between two fields.
fn end_of(text: &[u8], between: Between) -> Option<usize>
    ensures within { IfSome result (λ at. at < length text.now) }
{
    match between {
        Between::Comma => first_comma(text),
        Between::Blank => first_blank(text),
    }
}

// The place of the first comma.
fn first_comma(text: &[u8]) -> Option<usize>
    ensures within { IfSome result (λ at. at < length text.now) }
{
    text.iter().position(|byte| *byte == b',')
}

// The place of the first white space.
fn first_blank(text: &[u8]) -> Option<usize>
    ensures within { IfSome result (λ at. at < length text.now) }
{
    text.iter().position(|byte| byte.is_ascii_whitespace())
}

/// Whether a line says nothing: it is white space, or a note behind `#`.
pub(crate) fn is_note(line: &[u8]) -> bool {
    match line.trim_ascii() {
        [] | [b'#', ..] => true,
        _ => false,
    }
}
