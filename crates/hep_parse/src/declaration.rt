//! Reading headers, specification statements and DATA (X3.9-1978, sections 8, 9, 14 and 15). Each reader
//! takes the text after the word with which the statement begins.
ghost use Rattle.std.specs.Prelude.{◌≡◌, option_map};
ghost use Rattle.std.specs.List.{list_all};
ghost use Rattle.hep_expression.specs.Reading.{Gives};
ghost use Rattle.hep_parse.specs.Declaration as reading;

use crate::list::{
    Readable, after_optional_comma, enclosed, listed, name_and_arguments, optional, parenthesized,
};
use hep_expression::ReadFailure;
use hep_expression::characters::{
    Context, after, after_text, all_read, integer_at, logical_at, occurrence_at,
    plain_occurrence_at,
};
use hep_expression::expression::expression_at;
use hep_source::{
    CommonBlock, DataConstant, DataGroup, DataValue, Declarator, Dimension, Form, ImplicitGroup,
    LetterRange, NamedConstant, Occurrence, Repeat, Sequence, Target, UpperBound, Value, ValueType,
};
use std::alloc::Global;

/// The greatest number of dimensions of an array (X3.9-1978, 5.1.1).
const MOST_DIMENSIONS: usize = 7;

/// The header of a main program (X3.9-1978, 14.1): its name.
///
/// # Errors
///
/// [`ReadFailure::NoReading`] where the text has no such form.
pub fn program_header(context: Context, s: &[u8]) -> Result<Form, ReadFailure>
    ensures { Gives (λ x. x) result (reading.program_header context s.now) }
{
    let (name, rest) = plain_occurrence_at(context, s).ok_or(ReadFailure::NoReading)?;
    all_read(Form::Program(name), rest)
}

/// A dummy argument of a subroutine (15.6.1).
impl Readable for Occurrence {
    ghost use Rattle.hep_parse.specs.Declaration.{dummy_at};

    ghost part_at = { dummy_at };

    fn read(
        _alloc: Global,
        context: Context,
        s: &[u8],
    ) -> Result<(Occurrence, &[u8]), ReadFailure> {
        occurrence_at(context, s).ok_or(ReadFailure::NoReading)
    }
}

/// The header of a subroutine (15.6.1): its name and its dummy arguments.
///
/// # Errors
///
/// [`ReadFailure::NoReading`] where the text has no such form, or [`ReadFailure::NoMemory`].
#[tactic(auto, unfolding(crate::specs::Declaration::subroutine_header))]
pub fn subroutine_header(alloc: Global, context: Context, s: &[u8]) -> Result<Form, ReadFailure>
    ensures { Gives (λ x. x) result (reading.subroutine_header context s.now) }
{
    let (name, dummies) = name_and_arguments::<Occurrence>(alloc, context, s)?;
    Ok(Form::Subroutine(name, Sequence::from(dummies)))
}

/// The header of a function (15.5.1): the type written before FUNCTION, if there is one, the name and the dummy arguments.
///
/// # Errors
///
/// [`ReadFailure::NoReading`] where the text has no such form, or [`ReadFailure::NoMemory`].
#[tactic(auto, unfolding(crate::specs::Declaration::function_header))]
pub fn function_header(
    alloc: Global,
    context: Context,
    value_type: Option<ValueType>,
    s: &[u8],
) -> Result<Form, ReadFailure>
    ensures { Gives (λ x. x) result (reading.function_header context value_type s.now) }
{
    let (name, rest) = plain_occurrence_at(context, s).ok_or(ReadFailure::NoReading)?;
    let dummies = parenthesized::<Occurrence>(alloc, context, rest)?;
    Ok(Form::Function(value_type, name, Sequence::from(dummies)))
}

/// A letter at the front, and what follows it.
fn letter_at(s: &[u8]) -> Option<(u8, &[u8])>
    ensures { option_map (λ x. (x.0, x.1.now)) result ≡ reading.letter_at s.now }
{
    let [c, rest @ ..] = s else { return None };
    if b'A' <= *c && *c <= b'Z' {
        Some((*c, rest))
    } else {
        None
    }
}

/// A letter, or two letters in alphabetical order with `-` between them (8.5), and what follows.
fn letter_range_at(s: &[u8]) -> Option<(LetterRange, &[u8])>
    ensures { option_map (λ x. (x.0, x.1.now)) result ≡ reading.letter_range_at s.now }
{
    let (first, rest) = letter_at(s)?;
    let Some(rest_after) = after(b'-', rest) else {
        return Some((LetterRange { first, last: first }, rest));
    };
    let (last, rest) = letter_at(rest_after)?;
    if first <= last {
        Some((LetterRange { first, last }, rest))
    } else {
        None
    }
}

/// A range of letters in an IMPLICIT statement.
impl Readable for LetterRange {
    ghost use Rattle.hep_parse.specs.Declaration.{letter_range_part};

    ghost part_at = { letter_range_part };

    fn read(
        _alloc: Global,
        _context: Context,
        s: &[u8],
    ) -> Result<(LetterRange, &[u8]), ReadFailure> {
        letter_range_at(s).ok_or(ReadFailure::NoReading)
    }
}

/// The word of a type (8.4), and what follows it.
fn value_type_at(s: &[u8]) -> Option<(ValueType, &[u8])>
    ensures { option_map (λ x. (x.0, x.1.now)) result ≡ reading.value_type_at s.now }
{
    if let Some(rest) = after_text(b"INTEGER", s) {
        return Some((ValueType::Integer, rest));
    }
    let rest = after_text(b"LOGICAL", s)?;
    Some((ValueType::Logical, rest))
}

/// A type and its letters in an IMPLICIT statement.
impl Readable for ImplicitGroup {
    ghost use Rattle.hep_parse.specs.Declaration.{implicit_group_at};

    ghost part_at = { implicit_group_at };

    #[tactic(auto, unfolding(crate::specs::Declaration::implicit_group_at))]
    fn read(
        alloc: Global,
        context: Context,
        s: &[u8],
    ) -> Result<(ImplicitGroup, &[u8]), ReadFailure> {
        let (value_type, rest) = value_type_at(s).ok_or(ReadFailure::NoReading)?;
        let (letters, rest) = enclosed::<LetterRange>(alloc, context, rest)?;
        let letters = Sequence::from(letters);
        let group = ImplicitGroup {
            value_type,
            letters,
        };
        Ok((group, rest))
    }
}

/// IMPLICIT (8.5).
///
/// # Errors
///
/// [`ReadFailure::NoReading`] where the text has no such form, or [`ReadFailure::NoMemory`].
#[tactic(auto, unfolding(crate::specs::Declaration::implicit))]
pub fn implicit(alloc: Global, context: Context, s: &[u8]) -> Result<Form, ReadFailure>
    ensures { Gives (λ x. x) result (reading.implicit context s.now) }
{
    let (groups, rest) = listed::<ImplicitGroup>(alloc, context, s)?;
    all_read(Form::Implicit(Sequence::from(groups)), rest)
}

/// An upper dimension bound (5.1.1), and what follows it.
fn upper_bound_at(
    alloc: Global,
    context: Context,
    s: &[u8],
) -> Result<(UpperBound, &[u8]), ReadFailure>
    ensures { Gives (λ x. (x.0, x.1.now)) result (reading.upper_bound_at context s.now) }
{
    if let Some(rest) = after(b'*', s) {
        return Ok((UpperBound::Open, rest));
    }
    let (bound, rest) = expression_at(alloc, context, s)?;
    Ok((UpperBound::Expression(bound), rest))
}

/// A dimension declarator (5.1.1).
impl Readable for Dimension {
    ghost use Rattle.hep_parse.specs.Declaration.{dimension_at};

    ghost part_at = { dimension_at };

    #[tactic(auto, unfolding(crate::specs::Declaration::dimension_at))]
    fn read(alloc: Global, context: Context, s: &[u8]) -> Result<(Dimension, &[u8]), ReadFailure> {
        if let Some(rest) = after(b'*', s) {
            let upper = UpperBound::Open;
            return Ok((Dimension { lower: None, upper }, rest));
        }
        let (bound, rest) = expression_at(alloc, context, s)?;
        match after(b':', rest) {
            Some(rest_after) => {
                let (upper, rest) = upper_bound_at(alloc, context, rest_after)?;
                let lower = Some(bound);
                Ok((Dimension { lower, upper }, rest))
            }
            None => {
                let upper = UpperBound::Expression(bound);
                Ok((Dimension { lower: None, upper }, rest))
            }
        }
    }
}

/// Whether no dimension but the last is `*`.
fn only_last_open(dimensions: &[Dimension]) -> bool
    ensures { result ≡ reading.only_last_open dimensions.now }
{
    match dimensions {
        [] | [_] => true,
        [first, others @ ..] => match first.upper {
            UpperBound::Open => false,
            UpperBound::Expression(_) => only_last_open(others),
        },
    }
}

/// Whether an array can have these dimensions: at most seven, and only the last is `*` (5.1).
fn are_dimensions(dimensions: &[Dimension]) -> bool
    ensures { result ≡ reading.are_dimensions dimensions.now }
{
    dimensions.len() <= MOST_DIMENSIONS && only_last_open(dimensions)
}

/// A name alone, or with its dimensions (5.1).
impl Readable for Declarator {
    ghost use Rattle.hep_parse.specs.Declaration.{declarator_at};

    ghost part_at = { declarator_at };

    #[tactic(auto, unfolding(crate::specs::Declaration::declarator_at))]
    fn read(alloc: Global, context: Context, s: &[u8]) -> Result<(Declarator, &[u8]), ReadFailure> {
        let (occurrence, rest) = occurrence_at(context, s).ok_or(ReadFailure::NoReading)?;
        let (dimensions, rest) = optional::<Dimension>(alloc, context, rest)?;
        if !are_dimensions(&dimensions) {
            return Err(ReadFailure::NoReading);
        }
        let dimensions = Sequence::from(dimensions);
        Ok((
            Declarator {
                occurrence,
                dimensions,
            },
            rest,
        ))
    }
}

/// A type statement (8.4).
///
/// # Errors
///
/// [`ReadFailure::NoReading`] where the text has no such form, or [`ReadFailure::NoMemory`].
#[tactic(auto, unfolding(crate::specs::Declaration::declare))]
pub fn declare(
    alloc: Global,
    context: Context,
    value_type: ValueType,
    s: &[u8],
) -> Result<Form, ReadFailure>
    ensures { Gives (λ x. x) result (reading.declare context value_type s.now) }
{
    let (declarators, rest) = listed::<Declarator>(alloc, context, s)?;
    all_read(Form::Declare(value_type, Sequence::from(declarators)), rest)
}

/// Whether all of these declarators have dimensions.
fn all_arrays(declarators: &[Declarator]) -> bool
    ensures { result ≡ list_all reading.is_array declarators.now }
{
    declarators
        .iter()
        .all(|declarator| !declarator.dimensions.as_slice().is_empty())
}

/// DIMENSION (8.1).
///
/// # Errors
///
/// [`ReadFailure::NoReading`] where the text has no such form, or [`ReadFailure::NoMemory`].
#[tactic(auto, unfolding(crate::specs::Declaration::dimension))]
pub fn dimension(alloc: Global, context: Context, s: &[u8]) -> Result<Form, ReadFailure>
    ensures { Gives (λ x. x) result (reading.dimension context s.now) }
{
    let (declarators, rest) = listed::<Declarator>(alloc, context, s)?;
    if !all_arrays(&declarators) {
        return Err(ReadFailure::NoReading);
    }
    all_read(Form::Dimension(Sequence::from(declarators)), rest)
}

/// The part `first` and the parts after it up to the end of the text, each after an optional
/// comma.
fn up_to_end<P: Readable>(
    alloc: Global,
    context: Context,
    first: P,
    s: &[u8],
) -> Result<Vec<P>, ReadFailure>
    ensures { Gives (λ x. x.items) result (reading.up_to_end (P.part_at context) first s.now) }
{
    let mut parts = Vec::new(alloc);
    parts.push(first)?;
    let mut rest = s;
    for _turn in 0..s.len() {
        match P::read(alloc, context, after_optional_comma(rest)) {
            Ok((part, rest_after)) => {
                parts.push(part)?;
                rest = rest_after;
            }
            Err(ReadFailure::NoReading) => return all_read(parts, rest),
            Err(ReadFailure::NoMemory) => return Err(ReadFailure::NoMemory),
        }
    }
    all_read(parts, rest)
}

/// The name of a common block, read after the first `/`, and what follows the second `/`. Blank COMMON has no
/// name.
fn block_name_at(context: Context, s: &[u8]) -> Option<(Option<Occurrence>, &[u8])>
    ensures { option_map (λ x. (x.0, x.1.now)) result ≡ reading.block_name_at context s.now }
{
    if let Some(rest) = after(b'/', s) {
        return Some((None, rest));
    }
    let (name, rest) = plain_occurrence_at(context, s)?;
    let rest = after(b'/', rest)?;
    Some((Some(name), rest))
}

/// The list of a common block with this name, and what follows it.
fn entries_at(
    alloc: Global,
    context: Context,
    block: Option<Occurrence>,
    s: &[u8],
) -> Result<(CommonBlock, &[u8]), ReadFailure>
    ensures { Gives (λ x. (x.0, x.1.now)) result (reading.entries_at context block s.now) }
{
    let (entries, rest) = listed::<Declarator>(alloc, context, s)?;
    let entries = Sequence::from(entries);
    Ok((CommonBlock { block, entries }, rest))
}

/// A common block, read after its first `/`, and what follows it.
fn block_after(
    alloc: Global,
    context: Context,
    s: &[u8],
) -> Result<(CommonBlock, &[u8]), ReadFailure>
    ensures { Gives (λ x. (x.0, x.1.now)) result (reading.block_after context s.now) }
{
    let (name, rest) = block_name_at(context, s).ok_or(ReadFailure::NoReading)?;
    entries_at(alloc, context, name, rest)
}

/// A common block with its name between two `/` (8.3).
impl Readable for CommonBlock {
    ghost use Rattle.hep_parse.specs.Declaration.{block_at};

    ghost part_at = { block_at };

    #[tactic(auto, unfolding(crate::specs::Declaration::block_at))]
    fn read(
        alloc: Global,
        context: Context,
        s: &[u8],
    ) -> Result<(CommonBlock, &[u8]), ReadFailure> {
        match after(b'/', s) {
            Some(rest_after) => block_after(alloc, context, rest_after),
            None => Err(ReadFailure::NoReading),
        }
    }
}

/// The first block of a COMMON statement, and what follows it. Without a `/` it is blank
/// COMMON.
fn first_block_at(
    alloc: Global,
    context: Context,
    s: &[u8],
) -> Result<(CommonBlock, &[u8]), ReadFailure>
    ensures { Gives (λ x. (x.0, x.1.now)) result (reading.first_block_at context s.now) }
{
    match after(b'/', s) {
        Some(rest_after) => block_after(alloc, context, rest_after),
        None => entries_at(alloc, context, None, s),
    }
}

/// COMMON (8.3).
///
/// # Errors
///
/// [`ReadFailure::NoReading`] where the text has no such form, or [`ReadFailure::NoMemory`].
#[tactic(auto, unfolding(crate::specs::Declaration::common))]
pub fn common(alloc: Global, context: Context, s: &[u8]) -> Result<Form, ReadFailure>
    ensures { Gives (λ x. x) result (reading.common context s.now) }
{
    let (first, rest) = first_block_at(alloc, context, s)?;
    let blocks = up_to_end::<CommonBlock>(alloc, context, first, rest)?;
    Ok(Form::Common(Sequence::from(blocks)))
}

/// A name and the expression that PARAMETER gives it (8.6).
impl Readable for NamedConstant {
    ghost use Rattle.hep_parse.specs.Declaration.{named_constant_at};

    ghost part_at = { named_constant_at };

    #[tactic(auto, unfolding(crate::specs::Declaration::named_constant_at))]
    fn read(
        alloc: Global,
        context: Context,
        s: &[u8],
    ) -> Result<(NamedConstant, &[u8]), ReadFailure> {
        let (occurrence, rest) = plain_occurrence_at(context, s).ok_or(ReadFailure::NoReading)?;
        let rest = after(b'=', rest).ok_or(ReadFailure::NoReading)?;
        let (value, rest) = expression_at(alloc, context, rest)?;
        Ok((NamedConstant { occurrence, value }, rest))
    }
}

/// PARAMETER (8.6).
///
/// # Errors
///
/// [`ReadFailure::NoReading`] where the text has no such form, or [`ReadFailure::NoMemory`].
#[tactic(auto, unfolding(crate::specs::Declaration::parameter))]
pub fn parameter(alloc: Global, context: Context, s: &[u8]) -> Result<Form, ReadFailure>
    ensures { Gives (λ x. x) result (reading.parameter context s.now) }
{
    let (constants, rest) = enclosed::<NamedConstant>(alloc, context, s)?;
    all_read(Form::Parameter(Sequence::from(constants)), rest)
}

/// An integer constant (4.3.1), which may have a sign, and what follows it.
fn signed_integer_at(context: Context, s: &[u8]) -> Option<(i64, &[u8])>
    ensures { option_map (λ x. (x.0, x.1.now)) result ≡ reading.signed_integer_at context s.now }
{
    if let Some(digits) = after(b'-', s) {
        let (value, rest) = integer_at(context, digits)?;
        return Some((-value, rest));
    }
    match after(b'+', s) {
        Some(digits) => integer_at(context, digits),
        None => integer_at(context, s),
    }
}

/// A constant of DATA, or the name of a constant (9.1), and what follows it.
fn data_constant_at(context: Context, s: &[u8]) -> Option<(DataConstant, &[u8])>
    ensures { option_map (λ x. (x.0, x.1.now)) result ≡ reading.data_constant_at context s.now }
{
    if let Some((logical, rest)) = logical_at(s) {
        return Some((DataConstant::Value(Value::Truth(logical)), rest));
    }
    if let Some((occurrence, rest)) = plain_occurrence_at(context, s) {
        return Some((DataConstant::Named(occurrence), rest));
    }
    let (value, rest) = signed_integer_at(context, s)?;
    Some((DataConstant::Value(Value::Int(value)), rest))
}

/// A number other than 0 and the `*` that makes it a repeat count, and what follows them.
fn count_at(context: Context, s: &[u8]) -> Option<(Repeat, &[u8])>
    ensures { option_map (λ x. (x.0, x.1.now)) result ≡ reading.count_at context s.now }
{
    let (count, rest) = integer_at(context, s)?;
    let rest = after(b'*', rest)?;
    if count == 0 {
        None
    } else {
        Some((Repeat::Count(count), rest))
    }
}

/// A repeat count with its `*` (9.1), and what follows it.
fn repeat_at(context: Context, s: &[u8]) -> Option<(Repeat, &[u8])>
    ensures { option_map (λ x. (x.0, x.1.now)) result ≡ reading.repeat_at context s.now }
{
    if let Some(found) = count_at(context, s) {
        return Some(found);
    }
    let (occurrence, rest) = plain_occurrence_at(context, s)?;
    let rest = after(b'*', rest)?;
    Some((Repeat::Named(occurrence), rest))
}

/// A value of DATA with its repeat count, if it has one (9.1), and what follows it.
#[tactic(auto, unfolding(crate::specs::Declaration::data_value_at))]
fn data_value_at(context: Context, s: &[u8]) -> Option<(DataValue, &[u8])>
    ensures { option_map (λ x. (x.0, x.1.now)) result ≡ reading.data_value_at context s.now }
{
    match repeat_at(context, s) {
        Some((repeat, rest)) => {
            let (constant, rest) = data_constant_at(context, rest)?;
            let repeat = Some(repeat);
            Some((DataValue { repeat, constant }, rest))
        }
        None => {
            let (constant, rest) = data_constant_at(context, s)?;
            let repeat = None;
            Some((DataValue { repeat, constant }, rest))
        }
    }
}

/// A value of DATA.
impl Readable for DataValue {
    ghost use Rattle.hep_parse.specs.Declaration.{data_value_at};

    ghost part_at = { data_value_at };

    fn read(_alloc: Global, context: Context, s: &[u8]) -> Result<(DataValue, &[u8]), ReadFailure> {
        data_value_at(context, s).ok_or(ReadFailure::NoReading)
    }
}

/// A group of a DATA statement (9.1): the names up to a `/`, and the values between it and the next `/`.
impl Readable for DataGroup {
    ghost use Rattle.hep_parse.specs.Declaration.{group_at};

    ghost part_at = { group_at };

    #[tactic(auto, unfolding(crate::specs::Declaration::group_at))]
    fn read(alloc: Global, context: Context, s: &[u8]) -> Result<(DataGroup, &[u8]), ReadFailure> {
        let (targets, rest) = listed::<Target>(alloc, context, s)?;
        let rest = after(b'/', rest).ok_or(ReadFailure::NoReading)?;
        let (values, rest) = listed::<DataValue>(alloc, context, rest)?;
        let rest = after(b'/', rest).ok_or(ReadFailure::NoReading)?;
        let targets = Sequence::from(targets);
        let values = Sequence::from(values);
        Ok((DataGroup { targets, values }, rest))
    }
}

/// DATA (section 9).
///
/// # Errors
///
/// [`ReadFailure::NoReading`] where the text has no such form, or [`ReadFailure::NoMemory`].
#[tactic(auto, unfolding(crate::specs::Declaration::data_statement))]
pub fn data_statement(alloc: Global, context: Context, s: &[u8]) -> Result<Form, ReadFailure>
    ensures { Gives (λ x. x) result (reading.data_statement context s.now) }
{
    let (first, rest) = DataGroup::read(alloc, context, s)?;
    let groups = up_to_end::<DataGroup>(alloc, context, first, rest)?;
    Ok(Form::Data(Sequence::from(groups)))
}
