//! What the words of the command line ask for.
ghost use Rattle.std.specs.Prelude.{ℕ, ◌≡◌, ◌≤◌, ◌∷◌, [], List, Some, None, Ok, IfSome, length, true, false, map, string_bytes, drop};
ghost use Rattle.ddr_text.specs.Grammar.{number_of};
ghost use Rattle.ddr_cli.specs.declared.form.Form.{Form as AnyForm};
ghost use Rattle.ddr_cli.specs.Words.{AskForPorts, HasCap, HasNumber, IsFoundIn, IsOfForm, IsSpare, Makes, number_in, only_number};

use ddr_text::number_of;
use made_jobs::read_words;

/// A form of the words of the command line.
#[derive(Clone, Copy, Debug, PartialEq, Eq)]
pub enum Form {
    /// `replay`.
    Replay,
    /// `audit`.
    Audit,
    /// `show`.
    Show,
    /// `upgrade`.
    Upgrade,
    /// `gen` with a seed and a number of requests.
    Gen(u64, u64),
    /// `gen run` with a seed and a number of requests.
    GenRun(u64, u64),
    /// `ports` with a cap.
    Ports(u32),
    /// `merge` with a cap.
    Merge(u32),
    /// `exec`.
    Exec,
    /// `spare` with the number of the dead device.
    Spare(u8),
    /// `pair`.
    Pair,
}

/// The form of the words. `None` exactly where they are of none.
pub fn form_of(words: &[String]) -> Option<Form>
    ensures { IsFoundIn words.now result }
{
    if is_word(words, "replay") {
        Some(Form::Replay)
    } else if is_word(words, "audit") {
        Some(Form::Audit)
    } else if is_word(words, "show") {
        Some(Form::Show)
    } else if is_word(words, "upgrade") {
        Some(Form::Upgrade)
    } else if is_word(words, "exec") {
        Some(Form::Exec)
    } else if is_word(words, "pair") {
        Some(Form::Pair)
    } else {
        longer_form(words)
    }
}

// The form of two words or more.
fn longer_form(words: &[String]) -> Option<Form>
    ensures found { (it : AnyForm) → result ≡ Some it → IsOfForm words.now it }
    ensures none_made { result ≡ None → ¬ (Makes words.now) }
    ensures none_ported { result ≡ None → ¬ (AskForPorts words.now) }
    ensures none_spared { result ≡ None → (dead : ℕ) → ¬ (IsSpare words.now dead) }
{
    match made_form(words) {
        Some(form) => Some(form),
        None => match ports_form(words) {
            Some(form) => Some(form),
            None => spare_form(words),
        },
    }
}

// The form of words that ask for four ports.
fn ports_form(words: &[String]) -> Option<Form>
    ensures found { (it : AnyForm) → result ≡ Some it → IsOfForm words.now it }
    ensures none { result ≡ None → ¬ (AskForPorts words.now) }
{
    match cap_behind(words, "ports") {
        Some(cap) => Some(Form::Ports(cap)),
        None => match cap_behind(words, "merge") {
            Some(cap) => Some(Form::Merge(cap)),
            None => None,
        },
    }
}

// The cap that the one word behind this word spells.
fn cap_behind(words: &[String], word: &str) -> Option<u32>
    ensures found { IfSome result (HasCap word.now words.now) }
    ensures none { result ≡ None → (cap : ℕ) → ¬ (HasCap word.now words.now cap) }
{
    match number_behind(words, word, 1, 32) {
        Some(cap) => Some(u32::from(cap)),
        None => None,
    }
}

// The form of words that name a dead device.
fn spare_form(words: &[String]) -> Option<Form>
    ensures found { (it : AnyForm) → result ≡ Some it → IsOfForm words.now it }
    ensures none { result ≡ None → (dead : ℕ) → ¬ (IsSpare words.now dead) }
{
    match number_behind(words, "spare", 0, 4) {
        Some(dead) => Some(Form::Spare(dead)),
        None => None,
    }
}

// The number that the one word behind this word spells, where it is in this range.
fn number_behind(words: &[String], word: &str, least: u8, most: u8) -> Option<u8>
    ensures found { IfSome result (HasNumber least most word.now words.now) }
    ensures none { result ≡ None → (number : ℕ) → ¬ (HasNumber least most word.now words.now number) }
{
    if !begins_with(words, word) {
        return None;
    }
    only_number(behind_first(words), least, most)
}

// The number that the one word spells, where it is in this range.
#[tactic(auto, unfolding(crate::specs::Words::only_number))]
fn only_number(words: &[String], least: u8, most: u8) -> Option<u8>
    ensures { result ≡ only_number least most (map string_bytes words.now) }
{
    match words {
        [word] => spelled_number(word.as_str(), least, most),
        _ => None,
    }
}

// The number that a word spells, where it is in this range.
fn spelled_number(word: &str, least: u8, most: u8) -> Option<u8>
    ensures { result ≡ number_in least most (number_of word.now) }
{
    match number_of(word.as_bytes()) {
        Ok(number) => number_in(number, least, most),
        Err(_) => None,
    }
}

// The number, where it is in this range.
fn number_in(number: u64, least: u8, most: u8) -> Option<u8>
    ensures { result ≡ number_in least most (Ok number) }
{
    if u64::from(least) <= number && number <= u64::from(most) {
        Some(number as u8)
    } else {
        None
    }
}

// The form of words that ask for a made job.
fn made_form(words: &[String]) -> Option<Form>
    ensures found { (it : AnyForm) → result ≡ Some it → IsOfForm words.now it }
    ensures none { result ≡ None → ¬ (Makes words.now) }
{
    if !begins_with(words, "gen") {
        return None;
    }
    let rest = behind_first(words);
    if begins_with(rest, "run") {
        match read_words(behind_first(rest)) {
            Some((seed, requests)) => Some(Form::GenRun(seed, requests)),
            None => None,
        }
    } else {
        match read_words(rest) {
            Some((seed, requests)) => Some(Form::Gen(seed, requests)),
            None => None,
        }
    }
}

// Whether this is the one word.
fn is_word(words: &[String], word: &str) -> bool
    ensures same { result ≡ true → map string_bytes words.now ≡ word.now ∷ [] }
    ensures other { result ≡ false → ¬ (map string_bytes words.now ≡ word.now ∷ []) }
{
    match words {
        [only] if only.as_str() == word => true,
        _ => false,
    }
}

// Whether this is the first word.
fn begins_with(words: &[String], word: &str) -> bool
    ensures same { result ≡ true → map string_bytes words.now ≡ word.now ∷ map string_bytes (drop 1 words.now) }
    ensures more { result ≡ true → 1 ≤ length words.now }
    ensures other { result ≡ false → (rest : List (List ℕ)) → ¬ (map string_bytes words.now ≡ word.now ∷ rest) }
{
    match words {
        [first, ..] => first.as_str() == word,
        [] => false,
    }
}

// The words behind the first.
fn behind_first(words: &[String]) -> &[String]
    requires { 1 ≤ length words.now }
    ensures { result.now ≡ drop 1 words.now }
{
    &words[1..]
}
