//! The workers at their work: threads that share a core under a lock.
ghost use Rattle.std.specs.Prelude.{◌≡◌, ◌≢◌, ◌≤◌, ◌<◌, IfErr, IfOk, IsSome, Ok, OnOk, is_ok, take, true, vec_len};
ghost use Rattle.std.specs.List.{list_all};
ghost use Rattle.hep_core.specs.Offers.{IsKnownOffer, offered};
ghost use Rattle.hep_core.specs.CoreValues.{opening_of, verdict_of};
ghost use Rattle.hep_core.specs.declared.stop.Verdict.TheVariants.{Running};
ghost use Rattle.hep_machine.specs.Words.{last_process, opening_layout};
ghost use Rattle.hep_workers.specs.Receipts as receipts;
ghost use Rattle.hep_workers.specs.Reports.{IsOfRun, IsReport};
ghost use Rattle.hep_workers.specs.Faults.{IsSharedBy, IsWorkFault, end_of};
ghost use Rattle.hep_workers.specs.WorkBuffers.{HasMade, IsBatchOf};
ghost use Rattle.hep_workers.specs.EntrySpans.{HasLeftLists, IsAtOpening};

use crate::gate::Gate;
use crate::options::WorkOptions;
use crate::report::{Report, close};
use crate::shared_core::{RunBrand, RunImage, SharedCore, WorkerNumber, blank_lists, logs_of};
use crate::spans::EntrySpan;
use crate::thread_safety::{cores_cross, images_cross, spans_cross, tables_cross};
use crate::work_fault::{CrewFault, WorkFault};
use hep_core::{CommitFault, Core, Offer};
use hep_image::Image;
use hep_private::{Batch, MOST_RECORDS, PrivateImage, Segment, Ticket, private_tables_of};
use std::alloc::{AllocError, Global};
use std::hint::spin_loop;
use std::marker::Brand;
use std::mem::replace;
use std::sync::atomic::{AtomicBool, AtomicU32, Ordering};
use std::sync::{Condvar, Mutex, MutexGuard, Wait};
use std::thread;
use std::thread::Threads;

// This many private steps take longer than all that is done under the lock besides.
const LONG: u32 = 256;

// While other workers are busy, a turn that is made under the lock has at most this many private steps. More of them
// are better made without the lock.
const SHORT: u32 = 16;

// The greatest number of turns made in a row under the lock. While other workers are busy they take some ten
// microseconds.
const MOST_AT_ONCE: u32 = 128;

// The greatest number of turns of 1,023 private steps made in one run. Then little is done besides the steps.
const MOST_IN_A_RUN: u32 = 16;

// The number of short turns in a round, of which each worker makes a part, its stint. It is low enough that each of
// sixteen workers has several stints in a hundred thousand turns, and high enough that handing the processes on takes
// less than a fifth of the time.
const ROUND: u64 = 20_000;

// Fewer workers than this have the stints of this many.
const FEWEST: u32 = 4;

// The least number of turns that a worker makes before it gives the processes up to the only other busy one, which
// held the lock. A worker that has just called this one gives way sooner than that.
const MEETING: u64 = 512;

// The number of long turns after which a worker hands its process on, where no other process is free. Every thousand of
// them take some milliseconds, and to hand a process on takes some ten microseconds.
const QUANTUM: u64 = 512;

// What the workers share.
#[derive(Drop)]
struct WorkerPool<K: RunBrand> {
    core: Mutex<SharedCore<K>>,
    // Notified when a process is free for a waiting worker, and when the run is over.
    changed: Condvar,
    // The number of waiting workers, and the number of the others that have begun. `busy` may grow without the lock,
    // when a worker is about to take it for the first time. All other changes are made under the lock.
    idle: AtomicU32,
    busy: AtomicU32,
    // A waiting worker was notified, or will be when its caller has released the lock, and none of them has had the
    // lock since. It changes under the lock.
    called: AtomicBool,
    // The workers have to end. It is set under the lock, and never reset.
    ended: AtomicBool,
}

// The number of times a worker tries the lock before it may fall asleep.
const LOOKS: u32 = 1_000;

// Where most of a turn was made: without the lock, or in long turns under it (`Apart`); in short turns under the lock
// (`Locked`); or so, where the worker had to wait for the lock (`Crowded`).
#[derive(Clone, Copy, PartialEq, Eq)]
enum TurnPace {
    Apart,
    Locked,
    Crowded,
}

// The state of a worker: the number of its turn; that number when it waited last, and when it last called another
// worker or waited; and its ticket, which takes over the buffers of the one before.
#[derive(Drop)]
struct WorkerState {
    alloc: Global,
    turn: u64,
    began: u64,
    called: u64,
    ticket: Ticket,
}

// A worker: the image of the run, the gate that makes its private steps, and its number.
#[derive(Drop)]
struct Worker<'a, 'b, K: RunBrand, G: Gate> {
    known: &'a RunImage<'b, K>,
    gate: &'a G,
    seat: WorkerNumber<K>,
}

// A worker makes this many batches before it tries the lock: enough that it spends little of its time there.
const ENOUGH_BATCHES: usize = 16;

// A worker makes at most this many batches before it waits for the lock, where another worker has it.
const MOST_BATCHES: usize = 32;

// What a worker makes of its ticket: a segment; or a batch, and further ones, each of which follows the one before it. They have the room of
// those of earlier turns.
#[derive(Drop)]
struct WorkBuffers {
    batches: Vec<Batch>,
    segment: Segment,
    ghost some: { 0 < vec_len batches },
}

// The results of all workers that were started, and why not all were.
#[derive(Drop)]
struct WorkerOutcomes {
    outcomes: Vec<Result<(), AllocError>>,
    started: Result<(), CrewFault>,
}

/// Runs a program by several workers until its run is over. Each worker takes the lock and checks out the process
/// that comes next. It gets its segment from the gate without the lock. Then, under the lock again, it commits the
/// segment and checks out the next process.
///
/// The call may wait. Its contract holds if it returns.
///
/// # Errors
///
/// `ArenaFull` just where COMMON and the main program's frame don't fit the arena. Otherwise `NoThread` where a
/// worker couldn't be started, and `NoMemory` where memory was refused to any of them; otherwise `Close` where
/// `close` refuses the result, which happens only where memory is refused.
pub fn run_workers<R: Threads + Wait + Sync, G: Gate + Sync>(
    rt: &R,
    alloc: Global,
    image: Image,
    options: &WorkOptions,
    gate: &G,
) -> Result<Report, WorkFault>
    ensures fits { OnOk result (IsSome (opening_layout image options.now.arena)) }
    ensures report { IfOk result (λ report. IsReport report.core image options.now report.logs) }
    ensures numbered { IfOk result (λ report. receipts.are_of_workers options.now.workers report.logs ≡ true) }
    ensures turns { IfOk result (λ report. IsSharedBy image options.now report.core) }
    ensures fault { IfErr result (λ fault. IsWorkFault fault image options.now) }
{
    let SharedResult { core, image, lists } = run_shared(rt, alloc, image, options, gate)?;
    let logs = logs_of(alloc, core.history(), &lists)?;
    Ok(close(alloc, core, &image, options, logs)?)
}

/// The same without receipts: returns the core that the workers leave. Its contract says that receipts of the workers
/// exist that are the entries of its history.
///
/// The call may wait. Its contract holds if it returns.
///
/// # Errors
///
/// Those of `run_workers`, except `Close`.
pub fn run_unlogged<R: Threads + Wait + Sync, G: Gate + Sync>(
    rt: &R,
    alloc: Global,
    image: Image,
    options: &WorkOptions,
    gate: &G,
) -> Result<Core, WorkFault>
    ensures fits { OnOk result (IsSome (opening_layout image options.now.arena)) }
    ensures run { IfOk result (λ core. IsOfRun core.core image options.now) }
    ensures over { IfOk result (λ core. verdict_of core.core ≢ Running) }
    ensures turns { IfOk result (λ core. IsSharedBy image options.now core.core) }
    ensures fault { IfErr result (λ fault. IsWorkFault fault image options.now) }
{
    let SharedResult { core, .. } = run_shared(rt, alloc, image, options, gate)?;
    Ok(core)
}

// The result of the workers: the core, and the spans of each worker's entries in its history; and the image of the
// run.
#[derive(Drop)]
struct SharedResult {
    core: Core,
    image: Image,
    lists: Vec<Vec<EntrySpan>>,
}

// Runs the workers on a shared core of the image.
fn run_shared<R: Threads + Wait + Sync, G: Gate + Sync>(
    rt: &R,
    alloc: Global,
    image: Image,
    options: &WorkOptions,
    gate: &G,
) -> Result<SharedResult, WorkFault>
    ensures fits { OnOk result (IsSome (opening_layout image options.now.arena)) }
    ensures image { IfOk result (λ left. left.image ≡ image) }
    ensures many { IfOk result (λ left. vec_len left.lists ≡ options.now.workers) }
    ensures left { IfOk result (λ left. HasLeftLists (opening_of image options.now.arena options.now.steps) options.now.workers left.core left.lists.items) }
    ensures fault { IfErr result (λ fault. IsWorkFault fault image options.now) }
{
    // A full arena is found before memory is asked for, and so before the image is copied.
    let core = Core::new(alloc, image, options.arena, options.steps)?;
    let image = core.image().copy(alloc)?;
    let tables = private_tables_of(alloc, &image)?;
    let ahead = PrivateImage::new(&image, &tables);
    let (core, lists) = share::<Brand, R, G>(rt, alloc, core, ahead, options.workers, gate)?;
    Ok(SharedResult { core, image, lists })
}

// Runs the workers on a shared core, and returns the core and the spans of their entries once they have ended and the
// run is over.
fn share<K: RunBrand + Send + Sync, R: Threads + Wait + Sync, G: Gate + Sync>(
    rt: &R,
    alloc: Global,
    core: Core,
    ahead: PrivateImage<'_>,
    workers: u32,
    gate: &G,
) -> Result<(Core, Vec<Vec<EntrySpan>>), CrewFault>
    requires begun { IsAtOpening K.opening core.core }
    requires image { ahead ≡ K.opening.program }
    requires workers { workers ≡ K.workers }
    requires some { 1 ≤ workers }
    ensures left { IfOk result (λ left. HasLeftLists K.opening K.workers left.0 left.1.items) }
    ensures many { IfOk result (λ left. vec_len left.1 ≡ K.workers) }
{
    let Ok(lists) = blank_lists(alloc, workers) else {
        return Err(CrewFault::NoMemory);
    };
    let Ok(seats) = WorkerNumber::all(alloc, workers) else {
        return Err(CrewFault::NoMemory);
    };
    let floor: WorkerPool<K> = WorkerPool::new(SharedCore::new(core, lists));
    let known: RunImage<'_, K> = RunImage::new(ahead);
    ended(work_all(rt, alloc, &floor, &known, seats, gate))?;
    finish(rt, alloc, floor.into_inner(), &known, gate)
}

// Why one of the workers couldn't be started, or `NoMemory` where memory was refused to one.
fn ended(crew: WorkerOutcomes) -> Result<(), CrewFault>
    ensures { result ≡ end_of crew.started crew.outcomes.items }
{
    let WorkerOutcomes { outcomes, started } = crew;
    started?;
    if are_ok(&outcomes) {
        Ok(())
    } else {
        Err(CrewFault::NoMemory)
    }
}

// Whether no worker was refused memory.
fn are_ok(outcomes: &[Result<(), AllocError>]) -> bool
    ensures { result ≡ list_all is_ok outcomes.now }
{
    outcomes.iter().all(|outcome| outcome.is_ok())
}

// The core and the spans of the entries, after all workers have ended and the run is over. A worker ends only after
// it has seen under the lock that the run is over. But the lock's contents alone don't say so. Therefore the calling
// thread checks it, and would go on as worker 1.
fn finish<K: RunBrand, R: Wait, G: Gate>(
    rt: &R,
    alloc: Global,
    left: SharedCore<K>,
    known: &RunImage<'_, K>,
    gate: &G,
) -> Result<(Core, Vec<Vec<EntrySpan>>), CrewFault>
    requires { 1 ≤ K.workers }
    ensures left { IfOk result (λ left. HasLeftLists K.opening K.workers left.0 left.1.items) }
    ensures many { IfOk result (λ left. vec_len left.1 ≡ K.workers) }
{
    let mut left = left;
    for _ in rt.forever() {
        if left.is_over() {
            return Ok(left.into_parts());
        }
        let floor = WorkerPool::new(left);
        let seat = WorkerNumber::new(1);
        floor.work(rt, alloc, Worker { known, gate, seat })?;
        left = floor.into_inner();
    }
    unreachable!()
}

// Starts the workers and waits until they have ended.
fn work_all<K: RunBrand + Send + Sync, R: Threads + Wait + Sync, G: Gate + Sync>(
    rt: &R,
    alloc: Global,
    floor: &WorkerPool<K>,
    known: &RunImage<'_, K>,
    seats: Vec<WorkerNumber<K>>,
    gate: &G,
) -> WorkerOutcomes {
    thread::scope(thread::scope_env(), rt, |scope| {
        tables_cross();
        images_cross();
        cores_cross();
        spans_cross();
        let mut handles = Vec::new(alloc);
        let mut outcomes = Vec::new(alloc);
        let mut started = Ok(());
        for seat in seats {
            if handles.reserve(1).is_err() || outcomes.reserve(1).is_err() {
                started = Err(CrewFault::NoMemory);
                break;
            }
            match scope.spawn(move || floor.work(rt, alloc, Worker { known, gate, seat })) {
                Ok(handle) => handles.push_reserved(handle),
                Err(_) => {
                    started = Err(CrewFault::NoThread);
                    break;
                }
            }
        }
        if started.is_err() {
            floor.end(rt);
        }
        for handle in handles {
            let outcome = handle.join(rt);
            if outcomes.push(outcome).is_err() {
                started = Err(CrewFault::NoMemory);
            }
        }
        WorkerOutcomes { outcomes, started }
    })
}

impl WorkerState {
    fn new(alloc: Global) -> Self {
        WorkerState {
            alloc,
            turn: 1,
            began: 1,
            called: 1,
            ticket: Ticket::blank(alloc),
        }
    }

    // Begins the stint of the worker, which has waited.
    fn begin(&mut self) {
        self.began = self.turn;
        self.called = self.turn;
    }

    // Takes the ticket, and leaves a blank one.
    fn take_ticket(&mut self) -> Ticket {
        replace(&mut self.ticket, Ticket::blank(self.alloc))
    }
}

impl WorkBuffers {
    // Empty buffers for the steps of a worker.
    fn new(alloc: Global) -> Result<WorkBuffers, AllocError> {
        let mut batches = Vec::new(alloc);
        batches.push(Batch::new(alloc)?)?;
        Ok(WorkBuffers {
            batches,
            segment: Segment::new(),
        })
    }

    // Makes the private steps of a ticket, and returns the number of batches: 0 where the steps are a segment. There are
    // more than `ENOUGH_BATCHES` where another worker has the lock meanwhile.
    fn make<K: RunBrand, G: Gate>(
        &mut self,
        pool: &WorkerPool<K>,
        worker: &Worker<'_, '_, K, G>,
        stand: &WorkerState,
    ) -> usize
        ensures { HasMade K.opening.program result self.new.batches.items self.new.segment }
    {
        let WorkBuffers { batches, segment } = self;
        let (gate, ahead, number) = (worker.gate, &worker.known.ahead, worker.seat.number);
        let (turn, ticket) = (stand.turn, &stand.ticket);
        if !gate.batch_into(number, turn, ahead, ticket, &mut batches[0]) {
            gate.segment_into(number, turn, ahead.image(), ticket, segment);
            return 0;
        }
        for made in 1..MOST_BATCHES {
            if pool.is_enough(made) {
                return made;
            }
            if !has_room(stand.alloc, batches, made) {
                return made;
            }
            let (before, rest) = batches.split_at_mut(made);
            let turn = turn.saturating_add(made as u64);
            if !worker.follows(turn, &before[made - 1], &mut rest[0]) {
                return made;
            }
        }
        MOST_BATCHES
    }
}

// Whether there is a buffer after the first `made` ones. Where there is none, it adds one. False where memory was refused.
fn has_room(alloc: Global, batches: &mut Vec<Batch>, made: usize) -> bool
    requires { made ≤ vec_len batches.old }
    ensures room { result ≡ true → made < vec_len batches.new }
    ensures kept { take made batches.new.items ≡ take made batches.old.items }
    ensures long { vec_len batches.old ≤ vec_len batches.new }
{
    if made < batches.len() {
        return true;
    }
    match Batch::new(alloc) {
        Ok(batch) => batches.push(batch).is_ok(),
        Err(_) => false,
    }
}

impl<K: RunBrand, G: Gate> Worker<'_, '_, K, G> {
    // Makes the batch of the worker's turn with this number, which follows another one, where that one is full. False
    // where there is none or it has no step. The commit makes the next step after private ones anyway, where that
    // step isn't private.
    fn follows(&self, turn: u64, before: &Batch, batch: &mut Batch) -> bool
        ensures { result ≡ true → IsBatchOf K.opening.program before.now.id.process batch.new }
    {
        let (number, ahead) = (self.seat.number, &self.known.ahead);
        before.is_full()
            && self.gate.batch_behind(number, turn, ahead, before, batch)
            && 0 < batch.steps()
    }
}

impl<K: RunBrand> WorkerPool<K> {
    fn new(core: SharedCore<K>) -> Self {
        WorkerPool {
            core: Mutex::new(core),
            changed: Condvar::new(),
            idle: AtomicU32::new(0),
            busy: AtomicU32::new(0),
            called: AtomicBool::new(false),
            ended: AtomicBool::new(false),
        }
    }

    // The contents of the lock, after the workers have ended.
    fn into_inner(self) -> SharedCore<K> {
        let WorkerPool { core, .. } = self;
        core.into_inner()
    }

    // Makes all workers end.
    fn end<R: Wait>(&self, rt: &R) {
        let _core = self.core.lock(rt);
        self.ended.store(true, Ordering::SeqCst);
        self.changed.notify_all();
    }

    // All turns of a worker.
    fn work<R: Wait, G: Gate>(
        &self,
        rt: &R,
        alloc: Global,
        worker: Worker<'_, '_, K, G>,
    ) -> Result<(), AllocError> {
        let stand = WorkerState::new(alloc);
        let outcome = match WorkBuffers::new(alloc) {
            Ok(hand) => {
                let mut hand = hand;
                self.work_with(rt, &worker, &mut hand, stand)
            }
            Err(refused) => Err(refused),
        };
        if outcome.is_err() {
            self.end(rt);
        }
        outcome
    }

    // All turns of a worker, with its buffers.
    fn work_with<R: Wait, G: Gate>(
        &self,
        rt: &R,
        worker: &Worker<'_, '_, K, G>,
        hand: &mut WorkBuffers,
        stand: WorkerState,
    ) -> Result<(), AllocError> {
        let mut stand = stand;
        self.busy.fetch_add(1, Ordering::SeqCst);
        let core = self.core.lock(rt);
        if !self.check_out(rt, core, &mut stand, TurnPace::Apart)? {
            return Ok(());
        }
        for _ in rt.forever() {
            if !self.turn(rt, worker, hand, &mut stand)? {
                return Ok(());
            }
        }
        unreachable!()
    }

    // A turn of a worker, after which it has the next ticket. False where the run is over.
    fn turn<R: Wait, G: Gate>(
        &self,
        rt: &R,
        worker: &Worker<'_, '_, K, G>,
        hand: &mut WorkBuffers,
        stand: &mut WorkerState,
    ) -> Result<bool, AllocError> {
        let made = hand.make(self, worker, stand);
        let long = made != 0 && LONG <= hand.batches[0].steps();
        let (mut core, waited) = self.lock(rt);
        if !self.commit_all(&mut core, &worker.seat, hand, stand, made)? {
            return Ok(false);
        }
        let at_once = !worker.gate.is_asked() && self.turns_at_once(&mut core, worker, stand, long);
        let pace = if made == 0 || long || at_once {
            TurnPace::Apart
        } else if waited {
            TurnPace::Crowded
        } else {
            TurnPace::Locked
        };
        self.check_out(rt, core, stand, pace)
    }

    // Whether a worker with this many batches makes no further one: they are enough, and no other worker has the lock.
    fn is_enough(&self, made: usize) -> bool {
        ENOUGH_BATCHES <= made && self.core.try_lock().is_some()
    }

    // Takes the lock, and says whether another worker had it. A worker tries for a while before it falls asleep,
    // since to be woken would take longer.
    fn lock<R: Wait>(&self, rt: &R) -> (MutexGuard<'_, SharedCore<K>>, bool) {
        if let Some(core) = self.core.try_lock() {
            return (core, false);
        }
        for _ in 0..LOOKS {
            spin_loop();
            if let Some(core) = self.core.try_lock() {
                return (core, true);
            }
        }
        (self.core.lock(rt), true)
    }

    // Commits the segment or the batches of a worker. False where the run is over.
    fn commit_all(
        &self,
        core: &mut SharedCore<K>,
        seat: &WorkerNumber<K>,
        hand: &mut WorkBuffers,
        stand: &mut WorkerState,
        made: usize,
    ) -> Result<bool, AllocError>
        requires { HasMade K.opening.program made hand.old.batches.items hand.old.segment }
    {
        let WorkBuffers { batches, segment } = hand;
        if made == 0 {
            let offer = Offer::Recorded {
                segment,
                known: true,
            };
            return self.commit(core, seat, stand, &offer);
        }
        let offer = Offer::Made { batch: &batches[0] };
        if !self.commit(core, seat, stand, &offer)? {
            return Ok(false);
        }
        for next in 1..made {
            if !self.commit_behind(core, seat, stand, &mut batches[next])? {
                return Ok(false);
            }
        }
        Ok(true)
    }

    // Makes turns under the lock of whichever process comes next, up to `MOST_AT_ONCE`, until one can't be made so,
    // and returns whether one of them was long. While no other worker is busy, a turn may have 1,023 private steps.
    // While others are busy, a worker that has just made a long batch makes no such turn, since another long batch is
    // better made without the lock. No process that is ready ceases to be so.
    fn turns_at_once<G: Gate>(
        &self,
        core: &mut SharedCore<K>,
        worker: &Worker<'_, '_, K, G>,
        stand: &mut WorkerState,
        after_long: bool,
    ) -> bool {
        let alone = self.is_alone();
        if after_long && !alone {
            return false;
        }
        let most = if alone { MOST_RECORDS as u32 } else { SHORT };
        let mut long = false;
        for _ in 0..MOST_AT_ONCE {
            let steps = core.turn_at_once(&worker.seat, worker.known, most);
            if steps == 0 {
                return long;
            }
            stand.turn = stand.turn.saturating_add(1);
            if steps == MOST_RECORDS as u32 {
                self.run_on(core, worker, stand);
            }
            long = long || LONG <= steps;
        }
        long
    }

    // After a turn of 1,023 private steps, makes more such turns, several at once, as long as there are any and no
    // other worker is busy. Where not all of several can be made, none is, and their steps are made again turn by
    // turn. So at once it makes no more than a quarter of the turns made before, and one.
    fn run_on<G: Gate>(
        &self,
        core: &mut SharedCore<K>,
        worker: &Worker<'_, '_, K, G>,
        stand: &mut WorkerState,
    ) {
        let mut made: u32 = 1;
        for _ in 0..MOST_AT_ONCE {
            let turns = (1 + made / 4).min(MOST_IN_A_RUN);
            if !self.is_alone() || !core.turns_at_once(&worker.seat, worker.known, turns) {
                return;
            }
            stand.turn = stand.turn.saturating_add(turns as u64);
            made = made.saturating_add(turns);
        }
    }

    // Whether no other worker is busy, or about to be.
    fn is_alone(&self) -> bool {
        self.busy.load(Ordering::SeqCst) == 1 && !self.called.load(Ordering::SeqCst)
    }

    // Checks the process out again, though others may be free, and commits the batch that follows. Does nothing where
    // it can't be checked out. False where the run is over.
    fn commit_behind(
        &self,
        core: &mut SharedCore<K>,
        seat: &WorkerNumber<K>,
        stand: &mut WorkerState,
        batch: &mut Batch,
    ) -> Result<bool, AllocError>
        requires { IsBatchOf K.opening.program (last_process core.old.core.core.history) batch.old }
        ensures { result ≡ Ok true → last_process core.new.core.core.history ≡ last_process core.old.core.core.history }
    {
        let process = batch.ticket().process;
        let used = stand.take_ticket();
        let Some(ticket) = core.check_out(process, used)? else {
            return Ok(true);
        };
        batch.give_ticket(ticket.id());
        stand.ticket = ticket;
        self.commit(core, seat, stand, &Offer::Made { batch })
    }

    // Commits a segment or a batch. False where the run is over.
    fn commit(
        &self,
        core: &mut SharedCore<K>,
        seat: &WorkerNumber<K>,
        stand: &mut WorkerState,
        offer: &Offer<'_>,
    ) -> Result<bool, AllocError>
        requires { IsKnownOffer K.opening.program offer.now }
        ensures { result ≡ Ok true → last_process core.new.core.core.history ≡ (offered K.opening.program offer.now).id.process }
    {
        match core.turn(seat, offer) {
            Ok(()) => {
                stand.turn = stand.turn.saturating_add(1);
                Ok(true)
            }
            Err(CommitFault::NoMemory) => {
                core.cancel(&stand.ticket);
                Err(AllocError)
            }
            Err(CommitFault::Stopped(_)) => {
                self.changed.notify_all();
                Ok(false)
            }
            Err(CommitFault::Stale) => {
                core.cancel(&stand.ticket);
                self.ended.store(true, Ordering::SeqCst);
                self.changed.notify_all();
                Ok(false)
            }
        }
    }

    // Waits for a process that comes next and takes a ticket for it, with the buffers of the last ticket. False where
    // the run is over.
    fn check_out<'a, R: Wait>(
        &'a self,
        rt: &R,
        core: MutexGuard<'a, SharedCore<K>>,
        stand: &mut WorkerState,
        pace: TurnPace,
    ) -> Result<bool, AllocError> {
        let core = self.hand_on(rt, core, stand, pace);
        let mut core = self.wait(rt, core, stand, pace);
        let used = stand.take_ticket();
        let ticket = self.next_ticket(&mut core, used);
        self.wake(core, stand, pace);
        match ticket? {
            Some(ticket) => {
                stand.ticket = ticket;
                Ok(true)
            }
            None => Ok(false),
        }
    }

    // Hands a worker's process on after its quantum, where no other process is free: releases the lock until another
    // worker has committed its turns and taken this process, but for a short time at most. So no process falls behind
    // the others because its worker is slower.
    fn hand_on<'a, R: Wait>(
        &'a self,
        rt: &R,
        core: MutexGuard<'a, SharedCore<K>>,
        stand: &mut WorkerState,
        pace: TurnPace,
    ) -> MutexGuard<'a, SharedCore<K>> {
        let own = Some(stand.ticket.id().process);
        if !self.ends_quantum(stand, pace) || core.next_ready() != own {
            return core;
        }
        stand.begin();
        drop(core);
        for _ in 0..LOOKS {
            spin_loop();
            if let Some(core) = self.core.try_lock() {
                if core.next_ready() != own {
                    return core;
                }
            }
        }
        self.core.lock(rt)
    }

    // Whether a worker with long turns has made a quantum of them, and another worker is busy.
    fn ends_quantum(&self, stand: &WorkerState, pace: TurnPace) -> bool {
        let made = stand.turn.saturating_sub(stand.began);
        pace == TurnPace::Apart && QUANTUM <= made && 1 < self.busy.load(Ordering::SeqCst)
    }

    // Waits until a process is free or the run is over. A worker that gives the processes up first waits until it is
    // woken.
    fn wait<'a, R: Wait>(
        &self,
        rt: &R,
        core: MutexGuard<'a, SharedCore<K>>,
        stand: &mut WorkerState,
        pace: TurnPace,
    ) -> MutexGuard<'a, SharedCore<K>> {
        let gives_up = self.gives_up(stand, pace);
        if self.is_over(&core) || (!gives_up && !self.has_nothing(&core)) {
            return core;
        }
        self.idle.fetch_add(1, Ordering::SeqCst);
        self.busy.fetch_sub(1, Ordering::SeqCst);
        let mut core = self.sleep(rt, core);
        for _ in rt.forever() {
            if !self.has_nothing(&core) {
                break;
            }
            core = self.sleep(rt, core);
        }
        self.idle.fetch_sub(1, Ordering::SeqCst);
        self.busy.fetch_add(1, Ordering::SeqCst);
        stand.begin();
        core
    }

    // Whether a worker with short turns gives the processes up: after its stint, where another worker is busy; after
    // two stints, where a worker was called; or where it had to wait for the lock, and has made some turns or a further
    // worker is busy. The last busy worker doesn't give them up, unless a worker was called.
    fn gives_up(&self, stand: &WorkerState, pace: TurnPace) -> bool {
        if pace == TurnPace::Apart {
            return false;
        }
        let (made, stint) = (stand.turn.saturating_sub(stand.began), self.stint());
        let crowded = pace == TurnPace::Crowded;
        match self.busy.load(Ordering::SeqCst) {
            0 | 1 => stint.saturating_mul(2) <= made && self.called.load(Ordering::SeqCst),
            2 => stint <= made || (crowded && MEETING <= made),
            _ => stint <= made || crowded,
        }
    }

    // The number of short turns of a worker's stint: its part of a round.
    fn stint(&self) -> u64 {
        let begun = self
            .idle
            .load(Ordering::SeqCst)
            .saturating_add(self.busy.load(Ordering::SeqCst));
        ROUND / begun.max(FEWEST) as u64
    }

    // Sleeps until it is woken, which may happen without a cause.
    fn sleep<'a, R: Wait>(
        &self,
        rt: &R,
        core: MutexGuard<'a, SharedCore<K>>,
    ) -> MutexGuard<'a, SharedCore<K>> {
        let core = self.changed.wait(rt, core);
        self.called.store(false, Ordering::SeqCst);
        core
    }

    // Whether the run goes on and no process is free.
    fn has_nothing(&self, core: &SharedCore<K>) -> bool {
        !self.is_over(core) && core.next_ready().is_none()
    }

    // Whether the run is over, or the workers have to end.
    fn is_over(&self, core: &SharedCore<K>) -> bool {
        self.ended.load(Ordering::SeqCst) || core.is_over()
    }

    // A ticket for the process that comes next. `None` where the run is over.
    fn next_ticket(
        &self,
        core: &mut SharedCore<K>,
        used: Ticket,
    ) -> Result<Option<Ticket>, AllocError> {
        if self.is_over(core) {
            return Ok(None);
        }
        match core.next_ready() {
            Some(process) => core.check_out(process, used),
            None => Ok(None),
        }
    }

    // Releases the lock. Wakes all workers where the run is over. Otherwise it calls a waiting worker, where another
    // process is free and no worker was called yet, if this worker's turn was long, or it has made a stint since its
    // last call. The called worker finds the lock free.
    fn wake(&self, core: MutexGuard<'_, SharedCore<K>>, stand: &mut WorkerState, pace: TurnPace) {
        if self.is_over(&core) {
            self.changed.notify_all();
            return;
        }
        let can_call = 0 < self.idle.load(Ordering::SeqCst)
            && !self.called.load(Ordering::SeqCst)
            && core.next_ready().is_some();
        let made = stand.turn.saturating_sub(stand.called);
        if can_call && (pace == TurnPace::Apart || self.stint() <= made) {
            stand.called = stand.turn;
            self.called.store(true, Ordering::SeqCst);
            drop(core);
            self.changed.notify_one();
        }
    }
}
