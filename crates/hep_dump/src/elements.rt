//! Elements of arrays as they are written (X3.9-1978, 5.4).
ghost use Rattle.std.specs.Prelude.{◌≡◌, ◌≤◌, ◌/◌, ◌++◌, OnOk};
ghost use Rattle.std.specs.Fmt.{signed_decimal};
ghost use Rattle.hep_dump.specs.Elements as words;

use hep_machine::Bound;
use itoa::Buffer;
use std::alloc::AllocError;

// The number of subscripts of a dimension.
fn size(bound: &Bound) -> u128
    ensures size { result ≡ words.size bound.now }
    ensures some { 1 ≤ result }
{
    match bound.upper {
        Some(upper) if bound.lower <= upper => u128::from(upper.abs_diff(bound.lower)) + 1,
        _ => 1,
    }
}

// The subscript of a dimension, for the element that has `before` others before it in this dimension and the later
// ones.
fn subscript(bound: &Bound, before: u32) -> i128
    ensures { result ≡ words.subscript bound.now before }
{
    let steps = (u128::from(before) % size(bound)) as u32;
    i128::from(bound.lower) + i128::from(steps)
}

// The number of elements before it in the later dimensions.
fn before_in_next(bound: &Bound, before: u32) -> u32
    ensures { result ≡ before / words.size bound.now }
{
    (u128::from(before) / size(bound)) as u32
}

// Appends the subscript of a dimension.
fn append_subscript(text: &mut Vec<u8>, bound: &Bound, before: u32) -> Result<(), AllocError>
    ensures { OnOk result (text.new.items ≡ text.old.items ++ signed_decimal (words.subscript bound.now before)) }
{
    let mut buffer = Buffer::new();
    text.extend_from_slice(buffer.format(subscript(bound, before)).as_bytes())
}

// Appends those of further dimensions.
fn append_further(text: &mut Vec<u8>, bounds: &[Bound], before: u32) -> Result<(), AllocError>
    ensures { OnOk result (text.new.items ≡ text.old.items ++ words.further_text bounds.now before) }
{
    let mut left = before;
    for bound in bounds {
        text.extend_from_slice(b",")?;
        append_subscript(text, bound, left)?;
        left = before_in_next(bound, left);
    }
    Ok(())
}

/// Appends the subscripts of the element after the first `before` ones, of an array with these bounds; a scalar has
/// none.
///
/// # Errors
///
/// Only where memory was refused.
pub(crate) fn append_subscripts(
    text: &mut Vec<u8>,
    bounds: &[Bound],
    before: u32,
) -> Result<(), AllocError>
    ensures { OnOk result (text.new.items ≡ text.old.items ++ words.subscripts_text bounds.now before) }
{
    let [first, further @ ..] = bounds else {
        return Ok(());
    };
    text.extend_from_slice(b"(")?;
    append_subscript(text, first, before)?;
    append_further(text, further, before_in_next(first, before))?;
    text.extend_from_slice(b")")?;
    Ok(())
}
