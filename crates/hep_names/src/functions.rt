//! The meaning of a name with a list (X3.9-1978, 5.3, 15.3 and 15.5).
ghost use Rattle.std.specs.Prelude.{◌≡◌};
ghost use Rattle.hep_source.specs.Names as names;
ghost use Rattle.hep_machine.specs.Functions as functions;
ghost use Rattle.hep_names.specs.Meanings.{meaning};

use hep_source::{Name, PureFunction, StateFunction};

/// The meaning of a name with a list: an element of an array of the unit, a function of the language, or else a function of
/// the program, if it has such a function (docs/LANGUAGE.md, 8).
#[derive(Clone, Copy, PartialEq, Eq)]
pub enum Meaning {
    Element,
    Pure(PureFunction),
    State(StateFunction),
    External,
}

// Whether the letters of a name without its blanks are this word.
fn are_letters(letters: &[u8], word: &[u8]) -> bool
    ensures { result ≡ names.same_letters word.now (names.letters_of letters.now) }
{
    match letters {
        [] => word.is_empty(),
        [letter, rest @ ..] => {
            if *letter == b' ' {
                are_letters(rest, word)
            } else {
                match word {
                    [] => false,
                    [first, more @ ..] => *first == *letter && are_letters(rest, more),
                }
            }
        }
    }
}

fn pure_function(letters: &[u8]) -> Option<PureFunction>
    ensures { result ≡ functions.word_in functions.pure_functions (names.letters_of letters.now) }
{
    if are_letters(letters, b"ABS") || are_letters(letters, b"IABS") {
        Some(PureFunction::AbsoluteValue)
    } else if are_letters(letters, b"MOD") {
        Some(PureFunction::Remainder)
    } else if are_letters(letters, b"SIGN") || are_letters(letters, b"ISIGN") {
        Some(PureFunction::TransferOfSign)
    } else if are_letters(letters, b"DIM") || are_letters(letters, b"IDIM") {
        Some(PureFunction::PositiveDifference)
    } else if are_letters(letters, b"MAX") || are_letters(letters, b"MAX0") {
        Some(PureFunction::Largest)
    } else if are_letters(letters, b"MIN") || are_letters(letters, b"MIN0") {
        Some(PureFunction::Smallest)
    } else {
        None
    }
}

fn state_function(letters: &[u8]) -> Option<StateFunction>
    ensures { result ≡ functions.word_in functions.state_functions (names.letters_of letters.now) }
{
    if are_letters(letters, b"FULL") {
        Some(StateFunction::IsFull)
    } else if are_letters(letters, b"EMPTY") {
        Some(StateFunction::IsEmpty)
    } else if are_letters(letters, b"VALUE") {
        Some(StateFunction::ValueOf)
    } else if are_letters(letters, b"SETE") {
        Some(StateFunction::SetEmpty)
    } else if are_letters(letters, b"WAITF") {
        Some(StateFunction::WaitFull)
    } else {
        None
    }
}

/// The function with a name that is no array. No function has a name with `$`.
pub fn function_named(name: &Name) -> Meaning
    ensures { meaning result ≡ functions.function_named name.now }
{
    if name.asynchronous {
        return Meaning::External;
    }
    match (pure_function(&name.letters), state_function(&name.letters)) {
        (Some(function), _) => Meaning::Pure(function),
        (None, Some(function)) => Meaning::State(function),
        (None, None) => Meaning::External,
    }
}
