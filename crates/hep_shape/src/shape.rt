//! The shape of an array.
ghost use Rattle.std.specs.Prelude.{◌≡◌, ◌↔◌, ◌≤◌, ◌^◌, ◌-ℤ◌, true, if◌then◌else◌, [], length, Some, None, IfSome, IsTrue};
ghost use Rattle.std.specs.Option.{is_none};
ghost use Rattle.hep_machine.specs.Words.{is_shape, elements, counted_element, fits, are_dimensions, is_between, is_most, is_within};
ghost use Rattle.hep_machine.specs.Words.{extent, natural};

use arrayvec::ArrayVec;
use hep_machine::Bound;
use std::marker::Model;

// The greatest number of dimensions of an array (X3.9-1978, 5.1.1).
const MOST_DIMENSIONS: usize = 7;

// The greatest number of elements of an array.
const MOST_ELEMENTS: u32 = 1_048_576;

/// The shape of an array: the bounds of its dimensions, one to seven, the first one first. Contracts
/// see it as the list of the bounds.
#[derive(Drop)]
pub struct Shape {
    bounds: ArrayVec<Bound, MOST_DIMENSIONS>,
    elements: Option<u32>,
}

impl Model for Shape {
    ghost use Rattle.std.specs.Prelude.{◌≡◌, true};
    ghost use Rattle.hep_machine.specs.Shapes as shapes;
    ghost use Rattle.hep_machine.specs.Shapes.{Bounds, is_shape};

    ghost Value = { Bounds };

    ghost view = { λ s. s.bounds.items };

    ghost invariant = { λ s. (is_shape s.bounds.items ≡ true) × (s.elements ≡ shapes.elements s.bounds.items) };
}

impl Shape {
    /// The shape of an array with these bounds (X3.9-1978, 5.1.1 and 5.1.2).
    ///
    /// None where there is no dimension or more than seven, where an upper bound is below its lower bound, where
    /// a dimension before the last has no upper bound, or where there would be more than 1,048,576 elements.
    pub fn new(bounds: &[Bound]) -> Option<Shape>
        ensures { result ≡ if is_shape bounds.now then Some bounds.now else None }
    {
        let bounds = ArrayVec::try_from(bounds).ok()?;
        if bounds.is_empty() || !are_dimensions(&bounds) {
            return None;
        }
        let elements = if is_open(&bounds) {
            None
        } else {
            Some(element_count(&bounds)?)
        };
        Some(Shape { bounds, elements })
    }

    /// The bounds of the dimensions, the first one first.
    pub fn bounds(&self) -> &[Bound]
        ensures value { result.now ≡ self.now }
        ensures shape { is_shape result.now ≡ true }
    {
        &self.bounds
    }

    /// The number of the element that these subscripts name, counted from 1 in the standard's order (X3.9-1978, 5.4.3).
    ///
    /// None where the numbers of subscripts and dimensions differ, where a subscript is outside its bounds, or where
    /// the number would be above 1,048,576.
    pub fn element(&self, subscripts: &[i64]) -> Option<u32>
        ensures { result ≡ counted_element self.now subscripts.now }
    {
        element_among(&self.bounds, subscripts)
    }

    /// The number of elements of the array, one cell each (X3.9-1978, 5.2.3); none where the last upper bound is open.
    pub fn cells(&self) -> Option<u32>
        ensures { result ≡ elements self.now }
    {
        self.elements
    }

    /// Whether the array fits in `rest` cells (X3.9-1978, 15.9.3.3). An array with an open upper bound always fits.
    pub fn fits(&self, rest: u32) -> bool
        ensures { result ≡ fits self.now rest }
    {
        self.cells().is_none_or(|cells| cells <= rest)
    }

    /// A copy of the shape.
    pub fn copy(&self) -> Shape
        ensures { result ≡ self.now }
    {
        let (bounds, elements) = (copied(&self.bounds), self.cells());
        Shape { bounds, elements }
    }

    /// Whether two shapes are equal.
    pub fn same(&self, other: &Shape) -> bool
        ensures { IsTrue result ↔ (self.now ≡ other.now) }
    {
        are_same(&self.bounds, &other.bounds)
    }
}

/// The number of the element that these subscripts name in dimensions with these bounds, counted from 1 in the standard's order
/// (X3.9-1978, 5.4.3). The bounds need not make a shape.
///
/// None where the numbers of subscripts and dimensions differ, where a subscript is outside its bounds, or where the number
/// would be above 1,048,576.
#[inline(always)]
pub fn element_among(bounds: &[Bound], subscripts: &[i64]) -> Option<u32>
    ensures { result ≡ counted_element bounds.now subscripts.now }
{
    if subscripts.len() != bounds.len() {
        return None;
    }
    counted_element(bounds, subscripts)
}

/// Whether an upper bound is open, so that the number of elements isn't known.
pub fn is_open(bounds: &[Bound]) -> bool
    ensures { result ≡ is_none (elements bounds.now) }
{
    bounds.iter().any(|bound| bound.upper.is_none())
}

// A copy of these bounds, which are at most seven.
fn copied(bounds: &[Bound]) -> ArrayVec<Bound, MOST_DIMENSIONS>
    requires { length bounds.now ≤ 7 }
    ensures { result.items ≡ bounds.now }
{
    let mut copy = ArrayVec::new();
    for bound in bounds {
        copy.push(*bound);
    }
    copy
}

// Whether two lists of bounds are equal.
fn are_same(a: &[Bound], b: &[Bound]) -> bool
    ensures { IsTrue result ↔ (a.now ≡ b.now) }
{
    if a.len() != b.len() {
        return false;
    }
    for i in 0..a.len() {
        if a[i] != b[i] {
            return false;
        }
    }
    true
}

// Whether no upper bound is below its lower bound, and at most the last dimension is open.
fn are_dimensions(bounds: &[Bound]) -> bool
    ensures { result ≡ are_dimensions bounds.now }
{
    for (index, bound) in bounds.iter().enumerate() {
        let is_dimension = match bound.upper {
            Some(upper) => bound.lower <= upper,
            None => index + 1 == bounds.len(),
        };
        if !is_dimension {
            return false;
        }
    }
    true
}

// The number of elements; none where a bound is open, or where there are more elements than an array may have.
fn element_count(bounds: &[Bound]) -> Option<u32>
    requires { are_dimensions bounds.now ≡ true }
    ensures { result ≡ if is_most (elements bounds.now) then elements bounds.now else None }
{
    let mut count = 1;
    for bound in bounds {
        count *= extent(bound)?;
        // No extent is 0, so the count doesn't decrease again.
        if count > u128::from(MOST_ELEMENTS) {
            return None;
        }
    }
    Some(count as u32)
}

// The number of an element, by one subscript for each dimension; none where a subscript is outside its
// bounds, or where the number is above 1,048,576.
#[inline(always)]
fn counted_element(bounds: &[Bound], subscripts: &[i64]) -> Option<u32>
    requires { length subscripts.now ≡ length bounds.now }
    ensures { result ≡ counted_element bounds.now subscripts.now }
{
    let most = u128::from(MOST_ELEMENTS);
    let mut number = 1;
    let mut size = 1;
    for (bound, subscript) in bounds.iter().zip(subscripts) {
        number += u128::from(offset(bound, *subscript)?) * size;
        if number > most {
            return None;
        }
        // A step over this many elements leads past element 1,048,576, and so does any longer one.
        size = most.min(size * extent(bound).unwrap_or(1));
    }
    Some(number as u32)
}

// The subscript less its lower bound; none where the subscript is outside its bounds.
fn offset(bound: &Bound, subscript: i64) -> Option<u64>
    ensures { result ≡ if is_within bound.now subscript then Some (natural (subscript -ℤ bound.now.lower)) else None }
{
    let is_within = bound.lower <= subscript && bound.upper.is_none_or(|upper| subscript <= upper);
    is_within.then(|| subscript.abs_diff(bound.lower))
}

/// The size of a dimension (X3.9-1978, 5.2.2), none where it is open. It may be 2^64.
pub fn extent(bound: &Bound) -> Option<u128>
    requires { is_between bound.now.lower bound.now.upper [] ≡ true }
    ensures size { result ≡ extent bound.now }
    ensures some { IfSome result (λ size. 1 ≤ size) }
    ensures bounded { IfSome result (λ size. size ≤ 2 ^ 64) }
{
    bound
        .upper
        .map(|upper| u128::from(upper.abs_diff(bound.lower)) + 1)
}
