//! The output of `hepf explain WORD..`.
ghost use Rattle.std.specs.Prelude.{◌≡◌, ◌⊎◌, IfOk, false, is_some, string_bytes, true};
ghost use Rattle.hep_command.specs.Asked.{texts};
ghost use Rattle.hep_command.specs.Explanations.{is_explained, is_number, name_of, with_word};
ghost use Rattle.hep_command.specs.Jobs.{IsWant};

use crate::fault_texts::{meaning, status_meaning};
use crate::job::Usage;
use crate::refusal_texts::explanation;
use crate::words::number_within;
use std::alloc::{AllocError, Global};
use std::num::IntErrorKind;

const NO_NUMBER: &str = "error: no refusal or status has this number\n";

const NO_NAME: &str = "error: nothing has this name; `hepf explain` says what is explained\n";

// A name with one more word, after a blank.
fn with_word(name: String, word: Option<&str>) -> Result<String, AllocError>
    ensures { IfOk result (λ all. string_bytes all ≡ with_word (string_bytes name) (texts word.entry)) }
{
    let mut all = name;
    if let Some(word) = word {
        all.push(' ')?;
        all.push_str(word)?;
    }
    Ok(all)
}

// The words joined by blanks, their small letters as capitals.
fn name_of(
    alloc: Global,
    first: &str,
    second: Option<&str>,
    third: Option<&str>,
) -> Result<String, AllocError>
    ensures { IfOk result (λ name. string_bytes name ≡ name_of first.entry.now (texts second.entry) (texts third.entry)) }
{
    let name = String::from_str(alloc, first)?;
    let name = with_word(name, second)?;
    let name = with_word(name, third)?;
    name.as_str().to_ascii_uppercase(alloc)
}

// The explanation of the refusal whose number the name is, or else of the status.
fn explanation_of_number(name: &str) -> Option<&'static str>
    ensures { is_some result ≡ is_number name.now }
{
    let number = number_within(name, 0, u64::from(u16::MAX))? as u16;
    match explanation(number) {
        Some(text) => Some(text),
        None => status_meaning(number),
    }
}

// The explanation of a name.
fn text_of(name: &str) -> Option<&'static str>
    ensures { is_some result ≡ is_explained name.now }
{
    match meaning(name) {
        Some(text) => Some(text),
        None => explanation_of_number(name),
    }
}

// The message about a name that isn't explained; for a number that is too large for any refusal, in the words of
// `clap`.
fn unexplained(alloc: Global, name: &str) -> Usage
    ensures { IsWant result ⊎ (result.status ≡ 2) }
{
    let reason = match name.parse::<u64>() {
        Ok(number) if number <= u64::from(u16::MAX) => {
            return Usage::of_text(alloc, 2, NO_NUMBER);
        }
        Ok(number) => format!(in alloc; "{number} is not in 0..=65535"),
        Err(fault) if *fault.kind() == IntErrorKind::PosOverflow => format!(in alloc; "{fault}"),
        Err(_) => return Usage::of_text(alloc, 2, NO_NAME),
    };
    match reason {
        Ok(reason) => out_of_range(alloc, name, reason.as_str()),
        Err(_) => Usage::no_memory(alloc),
    }
}

fn out_of_range(alloc: Global, name: &str, reason: &str) -> Usage
    ensures { IsWant result ⊎ (result.status ≡ 2) }
{
    let text = format!(in alloc;
        "error: invalid value '{name}' for '<NUMBER>': {reason}\n\nFor more information, try '--help'.\n"
    );
    match text {
        Ok(text) => Usage::of_text(alloc, 2, text.as_str()),
        Err(_) => Usage::no_memory(alloc),
    }
}

/// The output of `hepf explain` for one to three words: their explanation, with status 0; that no explained name or
/// number is this one, with status 2; or nothing, with status 7, where memory was refused.
pub fn explain(alloc: Global, first: &str, second: Option<&str>, third: Option<&str>) -> Usage
    ensures { let explained = is_explained (name_of first.entry.now (texts second.entry) (texts third.entry)) in
        IsWant result ⊎ ((explained ≡ true) × (result.status ≡ 0)) ⊎ ((explained ≡ false) × (result.status ≡ 2)) }
{
    let Ok(name) = name_of(alloc, first, second, third) else {
        return Usage::no_memory(alloc);
    };
    match text_of(name.as_str()) {
        Some(text) => Usage::of_text(alloc, 0, text),
        None => unexplained(alloc, name.as_str()),
    }
}
