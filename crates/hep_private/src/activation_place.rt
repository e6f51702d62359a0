//! The place of an activation in an arena, and segments that begin there.
ghost use Rattle.std.specs.Prelude.{◌≡◌, ◌≤◌, ◌↔◌, ◌+ℤ◌, IsTrue, Some, length, pos};
ghost use Rattle.std.specs.Option.{option_map};
ghost use Rattle.hep_code.specs.Words.{most_operands};
ghost use Rattle.hep_machine.specs.Words.{integer_of};
ghost use Rattle.hep_private.specs.OwnState.{count_in, increment_in};
ghost use Rattle.hep_private.specs.FirstReads.{HasRead};
ghost use Rattle.hep_private.specs.BaseValues.{values_of};
ghost use Rattle.hep_private.specs.ActivationPlaces.{start_at};
ghost use Rattle.hep_private.specs.SegmentProgress.{HasCome};
ghost use Rattle.hep_private.specs.Segments.{BeginsAt, IsKept, IsMadeFrom};
ghost use Rattle.hep_private.specs.Segments as segments;

use crate::bounded_steps::{take_steps, unit_of};
use crate::operands::{Operands, assign};
use crate::progress::{StepProgress, StepSource, is_first_private};
use crate::record::Record;
use crate::record_equality::same_record;
use crate::records::Records;
use crate::segment::Segment;
use crate::write_log::BaseValues;
use hep_machine::values::integer_of;
use hep_source::Value;
use hep_step::{Cell, Image};

/// The place of an activation: its unit, its index in the unit's code, its operands, the slots of the arena, and the
/// first cell of its frame.
#[derive(Clone, Copy)]
pub struct ActivationPlace<'a> {
    pub unit: u32,
    pub index: usize,
    pub operands: &'a [Value],
    pub slots: &'a [Cell],
    pub first: u32,
}

// Whether two lists of records are equal.
fn same_records(a: &[Record], b: &[Record]) -> bool
    ensures { IsTrue result ↔ (a.now ≡ b.now) }
{
    if a.len() != b.len() {
        return false;
    }
    for i in 0..a.len() {
        if !same_record(a[i], b[i]) {
            return false;
        }
    }
    true
}

/// Two lists of values are one.
pub fn same_values(a: &[Value], b: &[Value]) -> bool
    ensures { IsTrue result ↔ (a.now ≡ b.now) }
{
    if a.len() != b.len() {
        return false;
    }
    for i in 0..a.len() {
        if a[i] != b[i] {
            return false;
        }
    }
    true
}

// Whether the steps that were made have the records of a segment and end where it ends.
fn has_come(progress: &StepProgress, segment: &Segment) -> bool
    ensures { IsTrue result ↔ HasCome progress.now segment.now }
{
    progress.index == segment.end_index()
        && same_values(progress.operands.as_slice(), segment.end_operands())
        && same_records(progress.records.as_slice(), segment.records())
}

impl ActivationPlace<'_> {
    pub(crate) fn base(&self) -> BaseValues<'_>
        ensures { values_of result ≡ (start_at self.now).values }
    {
        BaseValues::Slots {
            slots: self.slots,
            first: self.first as usize,
        }
    }

    fn value(&self, cell: usize) -> Option<Value>
        ensures { result ≡ (start_at self.now).values cell }
    {
        self.base().value(cell)
    }

    // Whether a segment begins here, with the same operands.
    fn begins(&self, segment: &Segment) -> bool
        ensures { IsTrue result ↔ BeginsAt (start_at self.now) segment.now }
    {
        self.unit == segment.unit()
            && self.index == segment.index()
            && same_values(self.operands, segment.operands())
    }

    fn has_count(&self, cells: u32, count: i64) -> bool
        ensures { IsTrue result ↔ (pos (count_in (start_at self.now).values cells) ≡ count) }
    {
        match self.value(cells as usize) {
            Some(value) => integer_of(value).max(0) == count,
            None => count == 0,
        }
    }

    fn has_increment(&self, cells: u32, increment: i64) -> bool
        ensures { IsTrue result ↔ (increment_in (start_at self.now).values cells ≡ increment) }
    {
        match self.value(cells as usize + 1) {
            Some(value) => integer_of(value) == increment,
            None => increment == 1,
        }
    }

    // Whether the integer in a cell plus an increment is this one.
    fn has_raised(&self, cell: u32, increment: i64, raised: i64) -> bool
        ensures { IsTrue result ↔ (option_map (λ v. integer_of v +ℤ increment) ((start_at self.now).values cell) ≡ Some raised) }
    {
        match self.value(cell as usize) {
            Some(value) => integer_of(value).checked_add(increment) == Some(raised),
            None => false,
        }
    }

    fn has_value(&self, cell: u32, value: Value) -> bool
        ensures { IsTrue result ↔ ((start_at self.now).values cell ≡ Some value) }
    {
        self.value(cell as usize) == Some(value)
    }

    // Whether the cells have here what a step read before any step stored it.
    fn has_read(&self, note: Record) -> bool
        ensures { IsTrue result ↔ HasRead (start_at self.now).values note }
    {
        match note {
            Record::Reads {
                first,
                cell,
                value,
                ..
            } => !first || self.has_value(cell, value),
            Record::Ends {
                first_variable,
                first_count,
                first_increment,
                variable,
                cells,
                raised,
                count,
                increment,
                ..
            } => {
                (!first_variable || self.has_raised(variable, increment, raised))
                    && (!first_count || self.has_count(cells, count))
                    && (!first_increment || self.has_increment(cells, increment))
            }
            Record::Goes { .. }
            | Record::Gives { .. }
            | Record::Stores { .. }
            | Record::Enters { .. } => true,
        }
    }
}

/// Whether a segment begins here, and the cells have what its steps read before they stored it.
pub fn is_kept(place: &ActivationPlace<'_>, segment: &Segment) -> bool
    ensures { IsTrue result ↔ IsKept (start_at place.now) segment.now }
{
    if !place.begins(segment) {
        return false;
    }
    for note in segment.records() {
        if !place.has_read(*note) {
            return false;
        }
    }
    true
}

/// Whether the steps of a segment are the private ones that come next from here, by an image. It makes them again,
/// without a core and without memory.
pub fn is_made(image: &Image, place: &ActivationPlace<'_>, segment: &Segment) -> bool
    ensures { IsTrue result ↔ IsMadeFrom image.now (start_at place.now) segment.now }
{
    if !place.begins(segment) {
        return false;
    }
    let mut again = StepProgress {
        records: Records::new(),
        operands: Operands::new(),
        index: segment.index(),
    };
    assign(&mut again.operands, segment.operands());
    take_steps(
        image,
        place.unit,
        place.base(),
        segment.records().len(),
        &mut again,
    );
    has_come(&again, segment)
}

/// Whether the next step from here is private, by an image.
pub fn is_next_private(image: &Image, place: &ActivationPlace<'_>) -> bool
    requires { length place.now.operands.now ≤ most_operands }
    ensures { result ≡ segments.is_next_private image.now (start_at place.now) }
{
    let Some(unit) = unit_of(image, place.unit) else {
        return false;
    };
    let source = StepSource {
        code: unit.code.as_slice(),
        private: unit.private.as_slice(),
        base: place.base(),
    };
    is_first_private(&source, place.operands, place.index)
}
