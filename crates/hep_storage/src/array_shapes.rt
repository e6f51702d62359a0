//! Shapes of arrays by all constants of a unit, and the elements that names in DATA denote (X3.9-1978, 5.2 and 9.2).
ghost use Rattle.std.specs.Prelude.{◌≡◌, List, true, Some, IfOk, OnOk, is_some, length, if◌then◌else◌};
ghost use Rattle.std.specs.Option.{option_map};
ghost use Rattle.indexmap.specs.IndexMap.{get};
ghost use Rattle.hep_machine.specs.Words.{element_number, is_within, name_eq, Statement as PureStatement};
ghost use Rattle.hep_machine.specs.Constants as values;
ghost use Rattle.hep_machine.specs.Declarations as declarations;
ghost use Rattle.hep_storage.specs.ArrayShapes as shapes;

use crate::initialized_elements::{DataElements, Element};
use hep_machine::Bound;
use hep_names::{Constants, Symbols, bounds_of, integers};
use hep_shape::Shape;
use hep_source::{Dimension, Expr, Name, Target, UpperBound, Value};
use indexmap::IndexMap;
use std::alloc::{AllocError, Global};

/// The bounds of an array, and the number of its elements; none where its last bound is open.
pub struct ArrayShape {
    pub bounds: Vec<Bound>,
    pub count: Option<u32>,
}

// This is written out so that the proof of a caller has one call of it at each exit.
impl Drop for ArrayShape {
    fn drop(self) {
        let ArrayShape { bounds, count } = self;
    }
}

/// The elements that a name in DATA denotes.
#[derive(Drop)]
pub enum DataName {
    /// Unknown: the shape or a subscript has no value, or the number of subscripts is wrong.
    Open,
    /// No element: a subscript is outside its bounds.
    Outside,
    Elements(DataElements),
}

fn is_within(bound: &Bound, subscript: i64) -> bool
    ensures { result ≡ is_within bound.now subscript }
{
    bound.lower <= subscript
        && match bound.upper {
            Some(upper) => subscript <= upper,
            None => true,
        }
}

// Whether each subscript is within its bounds.
fn are_within(bounds: &[Bound], subscripts: &[i64]) -> bool
    requires { length subscripts.now ≡ length bounds.now }
    ensures { result ≡ is_some (element_number bounds.now subscripts.now) }
{
    for (index, bound) in bounds.iter().enumerate() {
        if !is_within(bound, subscripts[index]) {
            return false;
        }
    }
    true
}

// The shape of an array with these bounds, if there are some and they make a shape.
fn array_shape(bounds: Option<Vec<Bound>>) -> Option<ArrayShape>
    ensures { shapes.IsShaped result (values.if_shape (option_map (λ v. v.items) bounds)) }
{
    let bounds = bounds?;
    let count = Shape::new(&bounds)?.cells();
    Some(ArrayShape { bounds, count })
}

// The element of a scalar.
fn scalar(name: Name, is_alone: bool) -> DataName
    ensures { result ≡ if is_alone then DataName.Elements (DataElements.All name 1) else DataName.Open }
{
    if is_alone {
        DataName::Elements(DataElements::All(name, 1))
    } else {
        DataName::Open
    }
}

// The elements of an array by itself.
fn whole(name: Name, shape: &ArrayShape) -> DataName
    ensures { shapes.IsWhole name shape.now.bounds.items shape.now.count result }
{
    match shape.count {
        Some(count) => DataName::Elements(DataElements::All(name, count)),
        None => DataName::Open,
    }
}

// The element of an array with these subscripts.
fn element_by(name: Name, shape: &ArrayShape, subscripts: Vec<i64>) -> DataName
    ensures { shapes.IsElementBy name shape.now.bounds.items subscripts.items result }
{
    if subscripts.len() != shape.bounds.len() {
        DataName::Open
    } else if are_within(&shape.bounds, &subscripts) {
        DataName::Elements(DataElements::One(Element { name, subscripts }))
    } else {
        DataName::Outside
    }
}

// The element of an array with subscripts, which may have no values.
fn element(name: Name, shape: &ArrayShape, subscripts: Option<Vec<i64>>) -> DataName
    ensures { shapes.IsElement name shape.now.bounds.items (option_map (λ v. v.items) subscripts) result }
{
    match subscripts {
        Some(subscripts) => element_by(name, shape, subscripts),
        None => DataName::Open,
    }
}

// The elements of an array, by itself or with subscripts.
fn array(
    name: Name,
    shape: &Option<ArrayShape>,
    is_alone: bool,
    subscripts: Option<Vec<i64>>,
) -> DataName
    ensures { shapes.IsArray name shape.now is_alone (option_map (λ v. v.items) subscripts) result }
{
    match shape {
        Some(shape) => {
            if is_alone {
                whole(name, shape)
            } else {
                element(name, shape, subscripts)
            }
        }
        None => DataName::Open,
    }
}

/// A table of the shapes of arrays by all constants of a unit. A shape is computed when it is first needed.
pub struct ShapeTable {
    pub(crate) shapes: IndexMap<Name, Option<ArrayShape>>,
}

impl Drop for ShapeTable {
    fn drop(self) {
        let ShapeTable { shapes } = self;
    }
}

impl ShapeTable {
    /// Makes a table without shapes.
    pub fn new(alloc: Global) -> ShapeTable
        ensures { (unit : List PureStatement) → shapes.IsTable unit (get name_eq result.shapes) }
    {
        ShapeTable {
            shapes: IndexMap::new(alloc),
        }
    }

    // Computes the shape of an array, unless the table has it.
    fn prepare(&mut self, alloc: Global, symbols: &Symbols, name: &Name) -> Result<(), AllocError>
        requires array { declarations.is_array symbols.now name.now ≡ true }
        requires table { shapes.IsTable symbols.now (get name_eq self.old.shapes) }
        ensures table { OnOk result (shapes.IsTable symbols.now (get name_eq self.new.shapes)) }
        ensures there { OnOk result (is_some (get name_eq self.new.shapes name.now) ≡ true) }
    {
        if !self.shapes.contains_key(name) {
            let bounds = bounds_of(
                alloc,
                symbols,
                symbols.constants(),
                symbols.dimensions(name),
            )?;
            self.shapes.insert(*name, array_shape(bounds))?;
        }
        Ok(())
    }

    /// The elements that a name in DATA denotes, by these constants.
    ///
    /// # Errors
    ///
    /// Only where memory was refused.
    pub fn named(
        &mut self,
        alloc: Global,
        symbols: &Symbols,
        constants: &Constants,
        target: &Target,
    ) -> Result<DataName, AllocError>
        requires { shapes.IsTable symbols.now (get name_eq self.old.shapes) }
        ensures table { OnOk result (shapes.IsTable symbols.now (get name_eq self.new.shapes)) }
        ensures named { IfOk result (shapes.Names symbols.now constants.now target.now) }
    {
        let name = &target.occurrence.name;
        let subscripts = target.subscripts.as_slice();
        if !symbols.is_array(name) {
            return Ok(scalar(*name, subscripts.is_empty()));
        }
        self.prepare(alloc, symbols, name)?;
        let integers = integers(alloc, symbols, constants, subscripts)?;
        match self.shapes.get(name) {
            Some(shape) => Ok(array(*name, shape, subscripts.is_empty(), integers)),
            None => Ok(DataName::Open),
        }
    }
}
