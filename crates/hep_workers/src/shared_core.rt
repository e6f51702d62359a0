//! The contents of the lock, and the image of the run. A type parameter ties them to one run. So a commit need not
//! make the steps of a segment again. The spans of the workers' entries are kept with the core, so that their
//! receipts are the entries of its history.
ghost use Rattle.std.specs.Prelude.{◌≡◌, ◌≢◌, ◌≤◌, ◌<◌, ◌^◌, IfOk, OnOk, ℕ, false, true, [], length, map, replicate, vec_capacity, vec_len};
ghost use Rattle.std.specs.Coded.{Coded-set, codes};
ghost use Rattle.hep_source.specs.contracts.expression.Expr as expression;
ghost use Rattle.hep_core.specs.CoreValues.{CoreValue, next_ready_of, opening_of, verdict_of};
ghost use Rattle.hep_core.specs.Offers.{IsKnownOffer, offered};
ghost use Rattle.hep_core.specs.declared.stop.Verdict.TheVariants.{Running};
ghost use Rattle.hep_workers.specs.SharedCores.{IsDue, IsSharedFrom};
ghost use Rattle.hep_private.specs.Segments.{most_records};
ghost use Rattle.hep_workers.specs.LockedCalls.{HasCancelled, IsAnswered, IsTurned};
ghost use Rattle.hep_workers.specs.EntrySpans.{AreLogsOf, HasLeftLists, IsAtOpening, all_inside, lists_of, logs_of, worker_numbers};

use crate::receipt::Log;
use crate::spans::{EntrySpan, add_entries, add_entry, log_of};
use crate::turn::{offer_turn, turn_at_once, turns_at_once};
use hep_core::{ChooseFault, CommitFault, Core, Offer, Ticket, Verdict};
use hep_history::History;
use hep_private::PrivateImage;
use std::alloc::{AllocError, Global};
use std::marker::{Brand, PhantomData};

/// The opening of a run, and the number of workers that share it. Each run has its own.
pub(crate) trait RunBrand {
    ghost opening: { CoreValue };

    ghost workers: { ℕ };
}

impl RunBrand for Brand {
    ghost opening = { opening_of [] 1 0 };

    ghost workers = { 0 };
}

/// The number of a worker, from 1 to the number of workers.
#[derive(Drop)]
pub(crate) struct WorkerNumber<K: RunBrand> {
    pub(crate) number: u32,
    of: PhantomData<K>,
    ghost some: { 1 ≤ number },
    ghost few: { number ≤ K.workers },
}

impl<K: RunBrand> WorkerNumber<K> {
    /// The seat of the worker with this number.
    pub(crate) fn new(number: u32) -> Self
        requires some { 1 ≤ number }
        requires few { number ≤ K.workers }
        ensures { result.number ≡ number }
    {
        WorkerNumber {
            number,
            of: PhantomData,
        }
    }

    /// The seats of all workers: 1, 2 and so on.
    #[tactic(auto, using(crate::proofs::EntrySpans::one_number))]
    pub(crate) fn all(alloc: Global, workers: u32) -> Result<Vec<WorkerNumber<K>>, AllocError>
        requires { workers ≡ K.workers }
        ensures { IfOk result (λ seats. map (λ seat. seat.number) seats.items ≡ worker_numbers workers) }
    {
        let mut seats = Vec::new(alloc);
        for worker in 0..workers {
            seats.push(WorkerNumber::new(worker + 1))?;
        }
        Ok(seats)
    }
}

/// An empty list of spans for each worker.
#[tactic(auto, using(crate::proofs::EntrySpans::one_more))]
pub(crate) fn blank_lists(alloc: Global, workers: u32) -> Result<Vec<Vec<EntrySpan>>, AllocError>
    ensures many { IfOk result (λ lists. vec_len lists ≡ workers) }
    ensures blank { IfOk result (λ lists. lists_of lists.items ≡ replicate workers []) }
{
    let mut lists = Vec::new(alloc);
    for _worker in 0..workers {
        lists.push(Vec::new(alloc))?;
    }
    Ok(lists)
}

// Makes room for one more span. A full list grows to four times its size, so that it is seldom moved, or by one where
// there isn't memory for that.
#[inline(always)]
fn make_room(spans: &mut Vec<EntrySpan>) -> Result<(), AllocError>
    ensures items { spans.new.items ≡ spans.old.items }
    ensures room { OnOk result (length spans.new.items < vec_capacity spans.new) }
{
    let count = spans.len();
    if count < spans.capacity() {
        return Ok(());
    }
    if spans
        .reserve(count.saturating_mul(3).saturating_add(1))
        .is_ok()
    {
        return Ok(());
    }
    spans.reserve(1)
}

/// The logs of all workers, who are numbered from 1, from the spans of their entries in the history.
pub(crate) fn logs_of(
    alloc: Global,
    history: &History,
    lists: &[Vec<EntrySpan>],
) -> Result<Vec<Log>, AllocError>
    requires { length lists.now < 2 ^ 32 }
    ensures { IfOk result (λ logs. logs.items ≡ logs_of history.now.items 1 (lists_of lists.now)) }
{
    let mut logs = Vec::new(alloc);
    for i in 0..lists.len() {
        logs.push(log_of(alloc, history, i as u32 + 1, &lists[i])?)?;
    }
    Ok(logs)
}

/// The core of a run, made of the opening by check-outs, commits and cancellations, and the spans of each worker's
/// entries. The receipts of all spans are together the entries of its history.
#[derive(Drop)]
pub(crate) struct SharedCore<K: RunBrand> {
    core: Core,
    lists: Vec<Vec<EntrySpan>>,
    of: PhantomData<K>,
    ghost program: { core.core.program ≡ K.opening.program } by { Coded-set (Prim.hlevel (codes, expression.the_row.coded)) core.core.program K.opening.program },
    ghost cells: { core.core.cells ≡ K.opening.cells },
    ghost limit: { core.core.limit ≡ K.opening.limit },
    ghost shared: { ∥ IsSharedFrom K.opening core ∥₁ },
    ghost many: { vec_len lists ≡ K.workers },
    ghost logged: { ∥ AreLogsOf K.workers core.core.history (logs_of core.core.history 1 (lists_of lists.items)) ∥₁ },
    ghost inside: { all_inside (length core.core.history) (lists_of lists.items) ≡ true },
}

/// The image of a run, with the private code of its units.
#[derive(Drop)]
pub(crate) struct RunImage<'a, K: RunBrand> {
    pub(crate) ahead: PrivateImage<'a>,
    of: PhantomData<K>,
    ghost is: { ahead ≡ K.opening.program } by { Coded-set (Prim.hlevel (codes, expression.the_row.coded)) ahead K.opening.program },
}

impl<'a, K: RunBrand> RunImage<'a, K> {
    /// Ties an image to the run whose program it is.
    pub(crate) fn new(ahead: PrivateImage<'a>) -> Self
        requires { ahead ≡ K.opening.program }
    {
        RunImage {
            ahead,
            of: PhantomData,
        }
    }
}

impl<K: RunBrand> SharedCore<K> {
    /// Ties a core to the run at whose opening it is.
    pub(crate) fn new(core: Core, lists: Vec<Vec<EntrySpan>>) -> Self
        requires begun { IsAtOpening K.opening core.core }
        requires many { vec_len lists ≡ K.workers }
        requires blank { lists_of lists.items ≡ replicate K.workers [] }
    {
        core.headline();
        SharedCore {
            core,
            lists,
            of: PhantomData,
        }
    }

    /// The core and the spans of each worker's entries, after the run is over.
    pub(crate) fn into_parts(self) -> (Core, Vec<Vec<EntrySpan>>)
        requires { verdict_of self.core.core ≢ Running }
        ensures left { HasLeftLists K.opening K.workers result.0 result.1.items }
        ensures many { vec_len result.1 ≡ K.workers }
    {
        let SharedCore { core, lists, of: _ } = self;
        (core, lists)
    }

    /// Whether the run is over.
    pub(crate) fn is_over(&self) -> bool
        ensures over { result ≡ true → verdict_of self.now.core.core ≢ Running }
        ensures going { result ≡ false → verdict_of self.now.core.core ≡ Running }
    {
        self.core.verdict() != Verdict::Running
    }

    /// The process that comes next.
    pub(crate) fn next_ready(&self) -> Option<u64>
        ensures { result ≡ next_ready_of self.now.core.core }
    {
        self.core.next_ready()
    }

    /// A turn of a worker, whose private steps the image of the run has made. Its entry is added to the worker's
    /// spans. `NoMemory` is also returned where there is no room for the span, before anything is committed.
    pub(crate) fn turn(
        &mut self,
        seat: &WorkerNumber<K>,
        offer: &Offer<'_>,
    ) -> Result<(), CommitFault>
        requires { IsKnownOffer K.opening.program offer.now }
        ensures { IsTurned self.old.core (offered K.opening.program offer.now) result self.new.core }
    {
        let SharedCore { core, lists, of: _ } = self;
        let spans = &mut lists[seat.number as usize - 1];
        if make_room(spans).is_err() {
            return Err(CommitFault::NoMemory);
        }
        let index = core.history().len();
        match offer_turn(core, seat.number, offer) {
            Ok(_receipt) => {
                core.headline();
                add_entry(spans, index);
                Ok(())
            }
            Err(fault) => {
                core.headline();
                Err(fault)
            }
        }
    }

    /// A turn of a worker without a ticket, of the process that comes next, with at most `most` private steps, 1,023
    /// at most. Returns the number of its steps, and 0 where no turn was made. Its entry is added to the worker's
    /// spans.
    pub(crate) fn turn_at_once(
        &mut self,
        seat: &WorkerNumber<K>,
        known: &RunImage<'_, K>,
        most: u32,
    ) -> u32
        requires { most ≤ most_records }
    {
        let SharedCore { core, lists, of: _ } = self;
        let spans = &mut lists[seat.number as usize - 1];
        if make_room(spans).is_err() {
            return 0;
        }
        let index = core.history().len();
        match turn_at_once(core, seat.number, &known.ahead, most) {
            Some(receipt) => {
                add_entry(spans, index);
                receipt.steps
            }
            None => 0,
        }
    }

    /// `turns` turns of a worker, each of 1,023 private steps of the process that comes next, made at once. Their
    /// entries are added to the worker's spans. False where they weren't made; then nothing has changed.
    #[inline(never)]
    pub(crate) fn turns_at_once(
        &mut self,
        seat: &WorkerNumber<K>,
        known: &RunImage<'_, K>,
        turns: u32,
    ) -> bool
        requires some { 0 < turns }
        requires few { turns ≤ 1024 }
    {
        let SharedCore { core, lists, of: _ } = self;
        let spans = &mut lists[seat.number as usize - 1];
        if make_room(spans).is_err() {
            return false;
        }
        let index = core.history().len();
        match turns_at_once(core, &known.ahead, turns) {
            Some(_process) => {
                add_entries(spans, index, turns);
                true
            }
            None => false,
        }
    }

    /// Cancels a ticket: its process isn't out any more.
    pub(crate) fn cancel(&mut self, ticket: &Ticket)
        ensures { HasCancelled self.old.core ticket.now.id self.new.core }
    {
        let _ = self.core.cancel(ticket);
    }

    /// A ticket for a process that comes next or made the last entry, with the buffers of an older ticket. `None`
    /// where the run is over or the process isn't free.
    pub(crate) fn check_out(
        &mut self,
        process: u64,
        used: Ticket,
    ) -> Result<Option<Ticket>, AllocError>
        requires { IsDue self.old.core.core process }
        ensures { IsAnswered self.old.core process result self.new.core }
    {
        match self.core.check_out_again(process, used) {
            Ok(ticket) => Ok(Some(ticket)),
            Err(ChooseFault::NoMemory) => Err(AllocError),
            Err(ChooseFault::NoTicket) => Err(AllocError),
            Err(ChooseFault::Stopped(_)) => Ok(None),
            Err(ChooseFault::NoSuchProcess) => Ok(None),
            Err(ChooseFault::IsOut) => Ok(None),
        }
    }
}
