//! The messages about words that `clap` refuses: its own text, with more where that says too little.

use crate::words::command_place;
use clap::Error;
use clap::error::ErrorKind;
use std::alloc::{AllocError, Global};
use std::convert::AsStr;

// The beginning of `clap`'s advice on a word with two dashes, which is seldom meant as the name of a file.
const AS_A_VALUE: &str = "  tip: to pass '--";

// The word in the place of the command.
fn command_word<S: AsStr>(words: &[S]) -> Option<&str> {
    match words.get(command_place(words)) {
        Some(word) => Some(word.as_str()),
        None => None,
    }
}

fn is_like_a_path(word: &str) -> bool {
    word.find('.').is_some() || word.find('/').is_some()
}

// Adds how a file of this name is run.
fn add_run(text: &mut String, word: &str) -> Result<(), AllocError> {
    text.push_str("Did you mean: hepf run ")?;
    text.push_str(word)?;
    text.push_str("\n")?;
    Ok(())
}

// The text about an unknown command; where that looks like a file, with how it is run.
fn with_run<S: AsStr>(text: String, words: &[S]) -> Result<String, AllocError> {
    let mut all = text;
    match command_word(words) {
        Some(word) if is_like_a_path(word) => add_run(&mut all, word)?,
        _ => {}
    }
    Ok(all)
}

// The numbers that an option takes. One that isn't named here counts entries or processes.
fn range_of(option: &str) -> &'static str {
    if option == "arena" || option == "states" {
        return "1 to 16777216";
    }
    if option == "workers" {
        return "1 to 16";
    }
    if option == "runs" {
        return "1 to 1000000";
    }
    if option == "width" {
        return "40 to 400";
    }
    if option == "expect-status" {
        return "0 to 9";
    }
    if option == "at" {
        return "0 to 4294967296";
    }
    "1 to 4294967296"
}

// The option in the text about it, which has a letter for the number after it.
fn option_in(given: &str) -> &str {
    match given.split_once(" <") {
        Some((option, _)) => option,
        None => given,
    }
}

// The parts of a text before the option, of the option, and after the reason, where the reason doesn't say which
// numbers the option takes.
fn without_reason(text: &str) -> Option<(&str, &str, &str)> {
    let (before, rest) = text.split_once("' for '--")?;
    let (given, rest) = rest.split_once(">': ")?;
    let (reason, behind) = rest.split_once("\n")?;
    if reason.find(" is not in ").is_some() {
        return None;
    }
    Some((before, given, behind))
}

// Adds which numbers the option takes, and the rest of the text.
fn add_range(text: &mut String, given: &str, behind: &str) -> Result<(), AllocError> {
    text.push_str("' for '--")?;
    text.push_str(given)?;
    text.push_str(">': it takes a number, ")?;
    text.push_str(range_of(option_in(given)))?;
    text.push_str("\n")?;
    text.push_str(behind)?;
    Ok(())
}

// The text about a wrong value of an option, with the numbers that the option takes, where it doesn't have them.
fn with_range(alloc: Global, text: &str) -> Result<Option<String>, AllocError> {
    let Some((before, given, behind)) = without_reason(text) else {
        return Ok(None);
    };
    let mut all = String::from_str(alloc, before)?;
    add_range(&mut all, given, behind)?;
    Ok(Some(all))
}

// The parts of a text before and after the advice to pass an option as a file.
fn without_advice(text: &str) -> Option<(&str, &str)> {
    let (before, rest) = text.split_once(AS_A_VALUE)?;
    let (_, behind) = rest.split_once("\n")?;
    Some((before, behind))
}

// The text about an unknown option, with other advice.
fn with_options(alloc: Global, text: &str) -> Result<Option<String>, AllocError> {
    let Some((before, behind)) = without_advice(text) else {
        return Ok(None);
    };
    let mut all = String::from_str(alloc, before)?;
    all.push_str("  tip: '--help' shows the options that there are\n")?;
    all.push_str(behind)?;
    Ok(Some(all))
}

// The other text, if there is one.
fn replaced(text: String, other: Option<String>) -> String {
    match other {
        Some(other) => other,
        None => text,
    }
}

/// The message about these words, which `clap` refuses with this error.
///
/// # Errors
///
/// Only where memory was refused.
pub(crate) fn said<S: AsStr>(
    alloc: Global,
    error: &Error,
    words: &[S],
) -> Result<String, AllocError> {
    let text = format!(in alloc; "{error}")?;
    match error.kind() {
        ErrorKind::InvalidSubcommand => with_run(text, words),
        ErrorKind::ValueValidation => {
            let other = with_range(alloc, text.as_str())?;
            Ok(replaced(text, other))
        }
        ErrorKind::UnknownArgument => {
            let other = with_options(alloc, text.as_str())?;
            Ok(replaced(text, other))
        }
        _ => Ok(text),
    }
}
