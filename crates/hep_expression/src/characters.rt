//! Names, constants and words.
ghost use Rattle.std.specs.Prelude.{◌≡◌, false, ◌-◌, ◌≤◌, ◌^◌, MatchOption, length, option_map};
ghost use Rattle.hep_expression.specs.Characters as grammar;
ghost use Rattle.hep_expression.specs.Reading as reading;
ghost use Rattle.hep_expression.specs.Reading.{Gives};
ghost use Rattle.hep_expression.specs.declared.characters.Sizes.TheVariants.{Fitting};

use crate::read_failure::ReadFailure;
use hep_source::{Name, Occurrence};

/// Which integer constants a reader accepts.
#[derive(Clone, Copy, PartialEq, Eq)]
pub enum Sizes {
    /// Those up to 9223372036854775807.
    Fitting,
    /// Those of any size. A constant that is too large is read as the greatest integer.
    Any,
}

/// The context of a reader: facts about the whole statement.
#[derive(Clone, Copy, PartialEq, Eq)]
pub struct Context {
    /// Which integer constants a reader accepts.
    pub sizes: Sizes,
    /// The number of characters of the statement's text.
    pub length: usize,
}

/// A class of characters (X3.9-1978, 3.1).
#[derive(Clone, Copy, PartialEq, Eq)]
enum Class {
    /// Digits (3.1.2).
    Digits,
    /// Letters and digits (3.1.3).
    LettersAndDigits,
}

impl Class {
    /// Whether the class has this character.
    fn has(self, c: u8) -> bool
        ensures { result ≡ reading.has self c }
    {
        match self {
            Class::Digits => is_digit(c),
            Class::LettersAndDigits => is_letter(c) || is_digit(c),
        }
    }
}

/// Whether a character is a digit (X3.9-1978, 3.1.2).
pub fn is_digit(c: u8) -> bool
    ensures { result ≡ grammar.is_digit c }
{
    b'0' <= c && c <= b'9'
}

/// Whether a character is a letter (X3.9-1978, 3.1.1).
fn is_letter(c: u8) -> bool
    ensures { result ≡ grammar.is_letter c }
{
    b'A' <= c && c <= b'Z'
}

/// The longest run of characters of a class at the front, and what follows it.
fn split_front(class: Class, s: &[u8]) -> (&[u8], &[u8])
    ensures front { result.0.now ≡ reading.front (reading.has class) s.now }
    ensures rest_after { result.1.now ≡ reading.rest_after (reading.has class) s.now }
{
    for i in 0..s.len() {
        if !class.has(s[i]) {
            return (&s[..i], &s[i..]);
        }
    }
    (s, &s[s.len()..])
}

/// Answers with what was read, where nothing follows it.
///
/// # Errors
///
/// [`ReadFailure::NoReading`] where something follows.
pub fn all_read<T: Drop>(read: T, rest: &[u8]) -> Result<T, ReadFailure>
    ensures { Gives (λ x. x) result (reading.all_read read rest.now) }
{
    match rest {
        [] => Ok(read),
        [_, ..] => Err(ReadFailure::NoReading),
    }
}

/// The text after its first character, where that is `c`; none elsewhere.
pub fn after(c: u8, s: &[u8]) -> Option<&[u8]>
    ensures { option_map (λ x. x.now) result ≡ reading.after c s.now }
{
    let [first, rest @ ..] = s else { return None };
    if *first == c { Some(rest) } else { None }
}

/// The text after `word`, where it begins with `word`; none elsewhere.
pub fn after_text<'a>(word: &[u8], s: &'a [u8]) -> Option<&'a [u8]>
    ensures { option_map (λ x. x.now) result ≡ reading.after_text word.now s.now }
{
    match word {
        [] => Some(s),
        [c, word @ ..] => {
            let rest = after(*c, s)?;
            after_text(word, rest)
        }
    }
}

/// A word, padded with blanks to six characters.
fn padded(word: &[u8]) -> [u8; 6]
    requires { length word.now ≤ 6 }
    ensures { result ≡ (grammar.named false word.now).letters }
{
    let mut letters = [b' '; 6];
    letters[..word.len()].copy_from_slice(word);
    letters
}

/// A name at the front (X3.9-1978, 2.2), whose sign `$` was read before, and what follows it. A name is one
/// to six letters or digits, of which the first is a letter. A longer run of letters and digits is no name.
fn letters_at(asynchronous: bool, s: &[u8]) -> Option<(Name, &[u8])>
    ensures { option_map (λ x. (x.0, x.1.now)) result ≡ reading.letters_at asynchronous s.now }
{
    let [first, ..] = s else { return None };
    if !is_letter(*first) {
        return None;
    }
    let (word, rest) = split_front(Class::LettersAndDigits, s);
    if word.len() > 6 {
        return None;
    }
    let name = Name {
        asynchronous,
        letters: padded(word),
    };
    Some((name, rest))
}

/// A name at the front, which may have the sign `$`, and what follows it.
fn name_at(s: &[u8]) -> Option<(Name, &[u8])>
    ensures { option_map (λ x. (x.0, x.1.now)) result ≡ reading.name_at s.now }
{
    match after(b'$', s) {
        Some(letters) => letters_at(true, letters),
        None => letters_at(false, s),
    }
}

/// The number of characters of the statement before `s`, which is a rest of the statement's text.
fn position_of(context: Context, s: &[u8]) -> usize
    ensures { result ≡ context.length - length s.now }
{
    // The text s is no longer than that of the statement, so nothing saturates.
    context.length.saturating_sub(s.len())
}

/// A name at the front, which may have the sign `$`, with the number of characters of the statement
/// before it, and what follows it.
pub fn occurrence_at(context: Context, s: &[u8]) -> Option<(Occurrence, &[u8])>
    ensures { option_map (λ x. (x.0, x.1.now)) result ≡ reading.occurrence_at context s.now }
{
    let (name, rest) = name_at(s)?;
    let position = position_of(context, s);
    Some((Occurrence { name, position }, rest))
}

/// The same for a name without `$`.
pub fn plain_occurrence_at(context: Context, s: &[u8]) -> Option<(Occurrence, &[u8])>
    ensures { option_map (λ x. (x.0, x.1.now)) result ≡ reading.plain_occurrence_at context s.now }
{
    let (name, rest) = letters_at(false, s)?;
    let position = position_of(context, s);
    Some((Occurrence { name, position }, rest))
}

/// The number that digits form; none where it is 2^64 or greater.
#[tactic(auto, using(crate::proofs::Decimals::goes_on, crate::proofs::Decimals::is_large))]
fn number(digits: &[u8]) -> Option<u64>
    ensures { MatchOption result (2 ^ 64 ≤ grammar.number_of_digits digits.now) (λ n. n ≡ grammar.number_of_digits digits.now) }
{
    let mut value: u64 = 0;
    for c in digits {
        let digit = c.saturating_sub(b'0') as u64;
        value = value.checked_mul(10)?.checked_add(digit)?;
    }
    Some(value)
}

/// The integer that digits form; none where it is above 9223372036854775807.
fn integer(digits: &[u8]) -> Option<i64>
    ensures { result ≡ reading.integer Fitting (grammar.number_of_digits digits.now) }
{
    i64::try_from(number(digits)?).ok()
}

/// An integer constant at the front (X3.9-1978, 4.3.1), and what follows it.
pub fn integer_at(context: Context, s: &[u8]) -> Option<(i64, &[u8])>
    ensures { option_map (λ x. (x.0, x.1.now)) result ≡ reading.integer_at context s.now }
{
    let (digits, rest) = split_front(Class::Digits, s);
    let [_, ..] = digits else { return None };
    match (integer(digits), context.sizes) {
        (Some(value), _) => Some((value, rest)),
        (None, Sizes::Any) => Some((i64::MAX, rest)),
        (None, Sizes::Fitting) => None,
    }
}

/// A logical constant at the front (X3.9-1978, 4.7.1), and what follows it.
pub fn logical_at(s: &[u8]) -> Option<(bool, &[u8])>
    ensures { option_map (λ x. (x.0, x.1.now)) result ≡ reading.logical_at s.now }
{
    if let Some(rest) = after_text(b".TRUE.", s) {
        return Some((true, rest));
    }
    let rest = after_text(b".FALSE.", s)?;
    Some((false, rest))
}
