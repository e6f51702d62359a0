//! Gates: who makes the private steps of the workers.
ghost use Rattle.std.specs.Prelude.{◌≡◌, true};
ghost use Rattle.hep_private.specs.Segments.{IsComputed};
ghost use Rattle.hep_private.specs.Batches.{IsMadeBehind, IsBatchedFrom};

use hep_image::Image;
use hep_private::{
    Batch, PrivateImage, Segment, Ticket, compute, compute_into, make_batch, make_behind,
};

/// Makes the segments of workers, without the lock. The numbers of workers and of their turns count from 1.
///
/// A gate that holds a worker for a while brings about schedules that are rare otherwise.
pub trait Gate {
    fn segment(&self, worker: u32, turn: u64, image: &Image, ticket: &Ticket) -> Segment
        ensures { IsComputed image.now ticket.now result };

    /// Whether the gate has to be asked for the segment of each turn. If not, a worker may make turns with no private
    /// steps in a row under the lock, without a segment.
    fn is_asked(&self) -> bool {
        true
    }

    /// The same, which overwrites an older segment. Workers call this one. By default it calls `segment`.
    fn segment_into(
        &self,
        worker: u32,
        turn: u64,
        image: &Image,
        ticket: &Ticket,
        segment: &mut Segment,
    )
        ensures { IsComputed image.now ticket.now segment.new }
    {
        *segment = self.segment(worker, turn, image, ticket);
    }

    /// The same steps as a batch, without a record of each. Workers ask for it first. Where a gate returns false,
    /// which is the default, they ask for a segment.
    fn batch_into(
        &self,
        worker: u32,
        turn: u64,
        ahead: &PrivateImage<'_>,
        ticket: &Ticket,
        batch: &mut Batch,
    ) -> bool
        ensures { result ≡ true → IsBatchedFrom ahead.now ticket.now batch.new }
    {
        false
    }

    /// The batch that follows one that this worker has made of the same process and not committed yet. Workers ask
    /// for it where that one is full, so that several are committed at once. Where a gate returns false, there is no
    /// such batch.
    fn batch_behind(
        &self,
        worker: u32,
        turn: u64,
        ahead: &PrivateImage<'_>,
        before: &Batch,
        batch: &mut Batch,
    ) -> bool
        ensures { result ≡ true → IsMadeBehind ahead.now before.now batch.new }
    {
        false
    }
}

/// The gate that makes the steps and holds no worker.
#[derive(Clone, Copy, Debug)]
pub struct NoGate;

impl Gate for NoGate {
    #[inline(always)]
    fn is_asked(&self) -> bool {
        false
    }

    #[inline(always)]
    fn segment(&self, _worker: u32, _turn: u64, image: &Image, ticket: &Ticket) -> Segment {
        compute(image, ticket)
    }

    #[inline(always)]
    fn segment_into(
        &self,
        _worker: u32,
        _turn: u64,
        image: &Image,
        ticket: &Ticket,
        segment: &mut Segment,
    ) {
        compute_into(image, ticket, segment);
    }

    #[inline(always)]
    fn batch_into(
        &self,
        _worker: u32,
        _turn: u64,
        ahead: &PrivateImage<'_>,
        ticket: &Ticket,
        batch: &mut Batch,
    ) -> bool {
        make_batch(ahead, ticket, batch)
    }

    #[inline(always)]
    fn batch_behind(
        &self,
        _worker: u32,
        _turn: u64,
        ahead: &PrivateImage<'_>,
        before: &Batch,
        batch: &mut Batch,
    ) -> bool {
        make_behind(ahead, before, batch)
    }
}
