//! Subscripts, as Fortran writes them (X3.9-1978, 5.4).
ghost use Rattle.std.specs.Prelude.{◌≡◌, ◌++◌, ◌+ℤ◌, ◌≤◌, pos, true, false, IfSome, OnOk};
ghost use Rattle.std.specs.Fmt.{signed_decimal};
ghost use Rattle.hep_machine.specs.Words.{are_dimensions, extent};
ghost use Rattle.hep_state_text.specs.Subscripts as words;

use hep_machine::Bound;
use hep_output::append_number;
use hep_shape::shape::extent;
use std::alloc::AllocError;

// The subscript in a dimension of the element that has so many in front of it, counted from 0.
fn index_in(size: Option<u128>, number: u64) -> u64
    requires { IfSome size (λ n. 1 ≤ n) }
    ensures { result ≡ words.index_in size number }
{
    match size {
        None => number,
        Some(size) => (u128::from(number) % size) as u64,
    }
}

// The number of whole passes through the dimension before that element.
fn steps_behind(size: Option<u128>, number: u64) -> u64
    requires { IfSome size (λ n. 1 ≤ n) }
    ensures { result ≡ words.steps_behind size number }
{
    match size {
        None => 0,
        Some(size) => (u128::from(number) / size) as u64,
    }
}

fn append_subscript(
    text: &mut Vec<u8>,
    follows: bool,
    bound: Bound,
    index: u64,
) -> Result<(), AllocError>
    ensures { OnOk result (text.new.items ≡ text.old.items ++ (words.comma follows ++ signed_decimal (bound.lower +ℤ pos index))) }
{
    if follows {
        text.extend_from_slice(b",")?;
    }
    append_number(text, i128::from(bound.lower) + i128::from(index))
}

/// Appends the subscripts of the element that has `number` others before it, with commas between them.
///
/// # Errors
///
/// Only where memory was refused.
pub(crate) fn append_subscripts(
    text: &mut Vec<u8>,
    bounds: &[Bound],
    number: u64,
) -> Result<(), AllocError>
    requires { are_dimensions bounds.now ≡ true }
    ensures { OnOk result (text.new.items ≡ text.old.items ++ words.subscripts_text false bounds.now number) }
{
    let mut follows = false;
    let mut rest = number;
    for bound in bounds {
        let size = extent(bound);
        append_subscript(text, follows, *bound, index_in(size, rest))?;
        rest = steps_behind(size, rest);
        follows = true;
    }
    Ok(())
}
