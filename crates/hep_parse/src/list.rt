//! Reading lists of parts of a statement.
ghost use Rattle.std.specs.Prelude.{◌≡◌};
ghost use Rattle.hep_expression.specs.Reading.{Gives};
ghost use Rattle.hep_parse.specs.ReadingLists as reading;

use hep_expression::ReadFailure;
use hep_expression::characters::{Context, after, all_read, plain_occurrence_at};
use hep_source::Occurrence;
use std::alloc::Global;

/// A part of a statement that lists may contain.
pub trait Readable: Drop {
    ghost use Rattle.std.specs.Prelude.{ℕ, List, Option};
    ghost use Rattle.hep_expression.specs.Reading.{Gives};
    ghost use Rattle.hep_expression.specs.declared.characters.Context.{Context};

    ghost part_at: { Context → List ℕ → Option (Self × List ℕ) };

    /// A part at the front, and what follows it.
    ///
    /// # Errors
    ///
    /// [`ReadFailure::NoReading`] where the text has no such part, or [`ReadFailure::NoMemory`].
    fn read(alloc: Global, context: Context, s: &[u8]) -> Result<(Self, &[u8]), ReadFailure>
        ensures { Gives (λ x. (x.0, x.1.now)) result (part_at context s.now) };
}

/// What was read, and what follows it.
type ReadPart<'a, T> = Result<(T, &'a [u8]), ReadFailure>;

/// A part after a comma, and what follows it.
fn part_after_comma<P: Readable>(alloc: Global, context: Context, s: &[u8]) -> ReadPart<'_, P>
    ensures { Gives (λ x. (x.0, x.1.now)) result (reading.part_after_comma (P.part_at context) s.now) }
{
    match after(b',', s) {
        Some(rest) => P::read(alloc, context, rest),
        None => Err(ReadFailure::NoReading),
    }
}

/// One or more parts with commas between them, and what follows them. A comma without a part after it
/// isn't read.
///
/// # Errors
///
/// [`ReadFailure::NoReading`] where the text has no such part, or [`ReadFailure::NoMemory`].
#[tactic(auto, using(crate::proofs::ListLoops::begins, crate::proofs::ListLoops::goes_on, crate::proofs::ListLoops::ends, crate::proofs::ListLoops::is_over), unfolding(crate::specs::ReadingLists::listed))]
pub fn listed<P: Readable>(alloc: Global, context: Context, s: &[u8]) -> ReadPart<'_, Vec<P>>
    ensures { Gives (λ x. (x.0.items, x.1.now)) result (reading.listed (P.part_at context) s.now) }
{
    let (first, mut rest) = P::read(alloc, context, s)?;
    let mut parts = Vec::new(alloc);
    parts.push(first)?;
    for _turn in 0..s.len() {
        match part_after_comma::<P>(alloc, context, rest) {
            Ok((part, rest_after)) => {
                parts.push(part)?;
                rest = rest_after;
            }
            Err(ReadFailure::NoReading) => return Ok((parts, rest)),
            Err(ReadFailure::NoMemory) => return Err(ReadFailure::NoMemory),
        }
    }
    Ok((parts, rest))
}

/// One or more parts with commas between them and the `)` after them, read after `(`, and what follows.
#[tactic(auto, unfolding(crate::specs::ReadingLists::closed))]
fn closed<P: Readable>(alloc: Global, context: Context, s: &[u8]) -> ReadPart<'_, Vec<P>>
    ensures { Gives (λ x. (x.0.items, x.1.now)) result (reading.closed (P.part_at context) s.now) }
{
    let (parts, rest) = listed::<P>(alloc, context, s)?;
    match after(b')', rest) {
        Some(rest_after) => Ok((parts, rest_after)),
        None => Err(ReadFailure::NoReading),
    }
}

/// Parts in parentheses, and what follows them.
///
/// # Errors
///
/// [`ReadFailure::NoReading`] where the text has no such part, or [`ReadFailure::NoMemory`].
#[tactic(auto, unfolding(crate::specs::ReadingLists::enclosed))]
pub fn enclosed<P: Readable>(alloc: Global, context: Context, s: &[u8]) -> ReadPart<'_, Vec<P>>
    ensures { Gives (λ x. (x.0.items, x.1.now)) result (reading.enclosed (P.part_at context) s.now) }
{
    let inside = after(b'(', s).ok_or(ReadFailure::NoReading)?;
    closed::<P>(alloc, context, inside)
}

/// Parts in parentheses, and what follows them; a text without `(` has none.
///
/// # Errors
///
/// [`ReadFailure::NoReading`] where the text has no such part, or [`ReadFailure::NoMemory`].
#[tactic(auto, unfolding(crate::specs::ReadingLists::optional))]
pub(crate) fn optional<P: Readable>(
    alloc: Global,
    context: Context,
    s: &[u8],
) -> ReadPart<'_, Vec<P>>
    ensures { Gives (λ x. (x.0.items, x.1.now)) result (reading.optional (P.part_at context) s.now) }
{
    match after(b'(', s) {
        Some(inside) => closed::<P>(alloc, context, inside),
        None => Ok((Vec::new(alloc), s)),
    }
}

/// The arguments between parentheses, read after `(`. The `)` ends the text.
#[tactic(auto, unfolding(crate::specs::ReadingLists::arguments_within))]
fn arguments_within<P: Readable>(
    alloc: Global,
    context: Context,
    s: &[u8],
) -> Result<Vec<P>, ReadFailure>
    ensures { Gives (λ x. x.items) result (reading.arguments_within (P.part_at context) s.now) }
{
    if let Some(rest) = after(b')', s) {
        return all_read(Vec::new(alloc), rest);
    }
    let (parts, rest) = closed::<P>(alloc, context, s)?;
    all_read(parts, rest)
}

/// The arguments that a whole text has in parentheses. Without arguments the parentheses may be missing.
///
/// # Errors
///
/// [`ReadFailure::NoReading`] where the text has no such part, or [`ReadFailure::NoMemory`].
#[tactic(auto, unfolding(crate::specs::ReadingLists::arguments))]
pub fn arguments<P: Readable>(
    alloc: Global,
    context: Context,
    s: &[u8],
) -> Result<Vec<P>, ReadFailure>
    ensures { Gives (λ x. x.items) result (reading.arguments (P.part_at context) s.now) }
{
    match after(b'(', s) {
        Some(inside) => arguments_within::<P>(alloc, context, inside),
        None => all_read(Vec::new(alloc), s),
    }
}

/// The arguments that a whole text has in parentheses. Without arguments the parentheses must be there too.
///
/// # Errors
///
/// [`ReadFailure::NoReading`] where the text has no such part, or [`ReadFailure::NoMemory`].
#[tactic(auto, unfolding(crate::specs::ReadingLists::parenthesized))]
pub(crate) fn parenthesized<P: Readable>(
    alloc: Global,
    context: Context,
    s: &[u8],
) -> Result<Vec<P>, ReadFailure>
    ensures { Gives (λ x. x.items) result (reading.parenthesized (P.part_at context) s.now) }
{
    match after(b'(', s) {
        Some(inside) => arguments_within::<P>(alloc, context, inside),
        None => Err(ReadFailure::NoReading),
    }
}

/// A name without `$`, and the arguments after it.
pub(crate) fn name_and_arguments<P: Readable>(
    alloc: Global,
    context: Context,
    s: &[u8],
) -> Result<(Occurrence, Vec<P>), ReadFailure>
    ensures { Gives (λ x. (x.0, x.1.items)) result (reading.name_and_arguments context (P.part_at context) s.now) }
{
    let (name, rest) = plain_occurrence_at(context, s).ok_or(ReadFailure::NoReading)?;
    Ok((name, arguments::<P>(alloc, context, rest)?))
}

/// The text after its first comma, where it begins with one, and else the whole text.
pub fn after_optional_comma(s: &[u8]) -> &[u8]
    ensures { result.now ≡ reading.after_optional_comma s.now }
{
    after(b',', s).unwrap_or(s)
}
