//! Segments: private steps with a record of each.
ghost use Rattle.std.specs.Prelude.{◌≡◌, ◌≤◌, [], length};
ghost use Rattle.hep_code.specs.Words.{most_operands};
ghost use Rattle.hep_private.specs.ActivationPlaces.{start_at};
ghost use Rattle.hep_private.specs.Segments.{IsComputed, IsComputedFrom, IsSegment};
ghost use Rattle.hep_private.specs.RecordRoom.{most_records};

use crate::activation_place::ActivationPlace;
use crate::bounded_steps::take_steps;
use crate::operands::{Operands, assign};
use crate::progress::StepProgress;
use crate::record::Record;
use crate::records::{MOST_RECORDS, Records};
use crate::ticket::{Ticket, TicketId};
use crate::write_log::BaseValues;
use hep_source::Value;
use hep_step::Image;
use std::marker::Model;

/// Private steps of a process that is out, which a worker made without the core, each with its record. Contracts see
/// the ticket that it is made of, the activation's place and operands at the start and at the end, and the records.
#[derive(Drop)]
pub struct Segment {
    id: TicketId,
    unit: u32,
    index: usize,
    operands: Operands,
    progress: StepProgress,
}

impl Model for Segment {
    ghost use Rattle.hep_private.specs.Segments.{IsSegment, SegmentValue, segment_value};

    ghost Value = { SegmentValue };

    ghost view = { λ s. segment_value s.id s.unit s.index s.operands s.progress.records s.progress.index s.progress.operands };

    ghost invariant = { λ s. IsSegment (segment_value s.id s.unit s.index s.operands s.progress.records s.progress.index s.progress.operands) };
}

impl Segment {
    /// A segment without steps, which is then overwritten with others.
    pub fn new() -> Segment
        ensures { result.records ≡ [] }
    {
        Segment {
            id: TicketId {
                number: 0,
                process: 0,
            },
            unit: 0,
            index: 0,
            operands: Operands::new(),
            progress: StepProgress {
                records: Records::new(),
                operands: Operands::new(),
                index: 0,
            },
        }
    }

    /// States a fact about every segment: its records are those of private steps from its start to its end, 1,023 at
    /// most.
    pub fn is_made(&self)
        ensures { IsSegment self.now }
    {
        let _ = &self.progress;
    }

    /// The ticket that it is made of.
    pub fn ticket(&self) -> TicketId
        ensures { result ≡ self.now.id }
    {
        self.id
    }

    /// The unit of the activation.
    pub fn unit(&self) -> u32
        ensures { result ≡ self.now.unit }
    {
        self.unit
    }

    /// The activation's index in the unit's code at the start.
    pub fn index(&self) -> usize
        ensures { result ≡ self.now.index }
    {
        self.index
    }

    /// The activation's operands at the start.
    pub fn operands(&self) -> &[Value]
        ensures operands { result.now ≡ self.now.operands }
        ensures few { length result.now ≤ most_operands }
    {
        self.operands.as_slice()
    }

    /// The records of its steps.
    pub fn records(&self) -> &[Record]
        ensures records { result.now ≡ self.now.records }
        ensures few { length result.now ≤ most_records }
    {
        self.progress.records.as_slice()
    }

    /// The activation's index in the unit's code at the end.
    pub fn end_index(&self) -> usize
        ensures { result ≡ self.now.end_index }
    {
        self.progress.index
    }

    /// The activation's operands at the end.
    pub fn end_operands(&self) -> &[Value]
        ensures operands { result.now ≡ self.now.end_operands }
        ensures few { length result.now ≤ most_operands }
    {
        self.progress.operands.as_slice()
    }
}

/// Makes the segment of a ticket, by an image, and overwrites an older segment with it. This needs no core and takes
/// no memory.
///
/// It makes private steps until the next one isn't private or there are 1,023.
pub fn compute_into(image: &Image, ticket: &Ticket, segment: &mut Segment)
    ensures { IsComputed image.now ticket.now segment.new }
{
    segment.id = ticket.id();
    segment.unit = ticket.unit();
    segment.index = ticket.index();
    assign(&mut segment.operands, ticket.operands());
    segment.progress.records.clear();
    segment.progress.index = ticket.index();
    assign(&mut segment.progress.operands, ticket.operands());
    take_steps(
        image,
        ticket.unit(),
        BaseValues::Copies(ticket.copies()),
        MOST_RECORDS,
        &mut segment.progress,
    );
}

/// Makes the segment of a ticket, by an image, as [`compute_into`] does.
pub fn compute(image: &Image, ticket: &Ticket) -> Segment
    ensures { IsComputed image.now ticket.now result }
{
    let mut segment = Segment::new();
    compute_into(image, ticket, &mut segment);
    segment
}

/// Makes a segment of a ticket from a place of its activation, by an image, and overwrites an older segment with it.
/// It makes at most `most` of the private steps that come next there, and fewer only where the next one isn't
/// private. This needs no core and takes no memory.
#[cold]
#[inline(never)]
pub fn compute_from(
    image: &Image,
    id: TicketId,
    place: &ActivationPlace<'_>,
    most: usize,
    segment: &mut Segment,
)
    requires operands { length place.now.operands.now ≤ most_operands }
    requires few { most ≤ most_records }
    ensures ticket { segment.new.id ≡ id }
    ensures computed { IsComputedFrom image.now (start_at place.now) most segment.new }
{
    segment.id = id;
    segment.unit = place.unit;
    segment.index = place.index;
    assign(&mut segment.operands, place.operands);
    segment.progress.records.clear();
    segment.progress.index = place.index;
    assign(&mut segment.progress.operands, place.operands);
    take_steps(image, place.unit, place.base(), most, &mut segment.progress);
}
