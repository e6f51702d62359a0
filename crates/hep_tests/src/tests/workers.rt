//! Tickets, and workers that take turns.
ghost use Rattle.std.specs.Prelude.{◌≤◌};

use super::{checked_out, chosen, committed, computed, core_of, image_from, source_of};
use hep_image::Image;
use hep_run::{
    Batch, ChoiceStop, ChooseFault, CloseFault, CommitFault, Core, Gate, Log, NoGate, PrivateImage,
    Receipt, Segment, Ticket, Verdict, WorkOptions, close, compute, run_workers, worker_turn,
};
use hep_source::Value;
use std::alloc::Global;
use std::process::Abort;
use std::sync::Wait;
use std::sync::atomic::{AtomicBool, AtomicU32, AtomicU64, Ordering};
use std::thread::{Threads, sleep};
use std::time::{Clock, Duration};

const WAITING: &[u8] = b"      PROGRAM P\n      INTEGER $A\n      I=$A\n      END\n";

fn options_of(steps: u64, workers: u32) -> WorkOptions
    requires one { 1 ≤ workers }
    requires hands { workers ≤ 16 }
{
    WorkOptions {
        arena: 65_536,
        steps,
        workers,
    }
}

// ---- calls of a core, without what their contracts say of them

fn ticket_of(rt: &impl Abort, core: &mut Core, process: u64) -> Ticket {
    checked_out(core, process).expect(rt, "no ticket")
}

// A ticket that was given and cancelled.
fn cancelled_of(rt: &impl Abort, core: &mut Core, process: u64) -> Ticket {
    let ticket = ticket_of(rt, core, process);
    core.cancel(&ticket).expect(rt, "not cancelled");
    ticket
}

// Why a process isn't checked out.
fn unticketed(core: &mut Core, process: u64) -> Option<ChooseFault> {
    checked_out(core, process).err()
}

fn is_stale(core: &mut Core, segment: &Segment) -> bool {
    committed(core, segment).err() == Some(CommitFault::Stale)
}

// The turn of a worker is refused as the commit is.
fn is_no_turn(core: &mut Core, segment: &Segment) -> bool {
    worker_turn(core, 1, segment).err() == Some(CommitFault::Stale)
}

// Why there is no report of a core without logs.
fn unclosed(alloc: Global, core: Core, image: &Image, options: &WorkOptions) -> Option<CloseFault> {
    close(alloc, core, image, options, Vec::new(alloc)).err()
}

/// A process that is out is neither chosen nor checked out, and comes next no more; of two segments of a ticket one is committed.
pub fn tickets(rt: &impl Abort, alloc: Global) {
    let image = image_from(rt, alloc, WAITING);
    let mut core = core_of(rt, alloc, WAITING, 3);
    assert!(rt; unticketed(&mut core, 2) == Some(ChooseFault::NoSuchProcess));
    assert!(rt; core.next_ready() == Some(1));
    let cancelled = ticket_of(rt, &mut core, 1);
    assert!(rt; core.next_ready().is_none());
    assert!(rt; core.verdict() == Verdict::Running);
    core.cancel(&cancelled).expect(rt, "not cancelled");
    assert!(rt; core.cancel(&cancelled).err() == Some(CommitFault::Stale));
    assert!(rt; is_stale(&mut core, &compute(&image, &cancelled)));
    let ticket = ticket_of(rt, &mut core, 1);
    assert!(rt; ticket.id().number == 2);
    assert!(rt; chosen(&mut core, 1).err() == Some(ChooseFault::IsOut));
    assert!(rt; unticketed(&mut core, 1) == Some(ChooseFault::IsOut));
    let first = compute(&image, &ticket);
    let second = compute(&image, &ticket);
    let turn = committed(&mut core, &first).expect(rt, "not committed");
    assert!(rt; turn.steps == 0 && turn.blocked);
    assert!(rt; is_stale(&mut core, &second));
    assert!(rt; is_stale(&mut core, &first));
    assert!(rt; core.history().len() == 1);
    assert!(rt; core.verdict() == Verdict::Waiting);
}

const OVERFLOW: [&[u8]; 8] = [
    b"      PROGRAM P",
    b"      CREATE ADD",
    b"      PRINT *,'OK'",
    b"      END",
    b"      SUBROUTINE ADD",
    b"      I=9223372036854775807",
    b"      I=I+1",
    b"      END",
];

/// At the opening there is process 1 alone; while it is out it isn't chosen, and of two segments of its ticket one is committed.
pub fn at_the_opening(rt: &impl Abort, alloc: Global) {
    let source = source_of(rt, alloc, &OVERFLOW);
    let image = image_from(rt, alloc, &source);
    let mut core = core_of(rt, alloc, &source, 7);
    for process in [99, 2] {
        assert!(rt; chosen(&mut core, process).err() == Some(ChooseFault::NoSuchProcess));
        assert!(rt; core.history().len() == 0);
        assert!(rt; core.used() == 1 && core.next_ready() == Some(1));
    }
    let ticket = ticket_of(rt, &mut core, 1);
    assert!(rt; chosen(&mut core, 1).err() == Some(ChooseFault::IsOut));
    assert!(rt; core.history().len() == 0);
    let first = compute(&image, &ticket);
    let second = compute(&image, &ticket);
    let turn = committed(&mut core, &first).expect(rt, "not committed");
    assert!(rt; turn.steps == 1 && !turn.blocked);
    assert!(rt; is_stale(&mut core, &second));
    assert!(rt; core.history().len() == 1);
    let options = options_by_one(3, 7);
    let opening = core_of(rt, alloc, &source, 7);
    assert!(rt; unclosed(alloc, opening, &image, &options) == Some(CloseFault::StillRunning));
}

// A segment of process 1 at the opening of another core, which has given so many tickets before and cancelled them.
fn segment_after(rt: &impl Abort, alloc: Global, image: &Image, cancelled: u32) -> Segment {
    let copy = image.copy(alloc).expect(rt, "no copy");
    let mut core = Core::new(alloc, copy, 3, 7).expect(rt, "no core");
    for _ticket in 0..cancelled {
        let _ticket = cancelled_of(rt, &mut core, 1);
    }
    let ticket = ticket_of(rt, &mut core, 1);
    compute(image, &ticket)
}

/// A segment of another core is stale unless it agrees with the ticket that is out. A stale one changes nothing.
pub fn foreign_segments(rt: &impl Abort, alloc: Global) {
    let source = source_of(rt, alloc, &OVERFLOW);
    let image = image_from(rt, alloc, &source);
    let of_another_source = segment_after(rt, alloc, &image_from(rt, alloc, WAITING), 0);
    let earlier = segment_after(rt, alloc, &image, 0);
    let later = segment_after(rt, alloc, &image, 2);
    let alike = segment_after(rt, alloc, &image, 1);
    let mut core = core_of(rt, alloc, &source, 7);
    assert!(rt; is_stale(&mut core, &alike));
    let _cancelled = cancelled_of(rt, &mut core, 1);
    let ticket = ticket_of(rt, &mut core, 1);
    for segment in [&of_another_source, &earlier, &later] {
        assert!(rt; is_stale(&mut core, segment) && is_no_turn(&mut core, segment));
        assert!(rt; core.history().len() == 0 && core.used() == 1 && core.next_ready().is_none());
    }
    let turn = committed(&mut core, &alike).expect(rt, "not committed");
    assert!(rt; turn.steps == 1);
    assert!(rt; is_stale(&mut core, &compute(&image, &ticket)));
    assert!(rt; is_no_turn(&mut core, &alike));
    assert!(rt; core.history().len() == 1);
}

/// A history that is full stops a check-out, and a stop is reported before all else.
pub fn full_histories(rt: &impl Abort, alloc: Global) {
    let mut core = core_of(rt, alloc, WAITING, 1);
    chosen(&mut core, 1).expect(rt, "no turn");
    assert!(rt; unticketed(&mut core, 1) == Some(ChooseFault::Stopped(ChoiceStop::StepLimit)));
    assert!(rt; unticketed(&mut core, 7) == Some(ChooseFault::Stopped(ChoiceStop::StepLimit)));
    assert!(rt; chosen(&mut core, 7).err() == Some(ChooseFault::Stopped(ChoiceStop::StepLimit)));
}

const TWO_STEPS: &[u8] = b"      I=1\n      END\n";

// For a run of one worker.
fn options_by_one(arena: u32, steps: u64) -> WorkOptions
    requires some { 1 ≤ arena }
    requires few { arena ≤ 16777216 }
{
    WorkOptions {
        arena,
        steps,
        workers: 1,
    }
}

// The log of worker 1 alone, with a receipt of a step of process 1 for each of these entries.
fn log_of_steps(rt: &impl Abort, alloc: Global, indexes: &[u64]) -> Vec<Log> {
    let mut receipts = Vec::new(alloc);
    for index in indexes {
        let receipt = Receipt {
            index: *index,
            process: 1,
            worker: 1,
            steps: 1,
        };
        receipts.push(receipt).expect(rt, "no memory");
    }
    let mut logs = Vec::new(alloc);
    logs.push(Log::of(receipts)).expect(rt, "no memory");
    logs
}

// Why there is no report of a run of two steps that is over, with a log of these entries.
fn unclosed_run(
    rt: &impl Abort,
    alloc: Global,
    image: &Image,
    options: &WorkOptions,
    indexes: &[u64],
) -> Option<CloseFault> {
    let mut core = core_of(rt, alloc, TWO_STEPS, 7);
    for _step in 0..2 {
        let _turn = chosen(&mut core, 1).expect(rt, "no turn");
    }
    let logs = log_of_steps(rt, alloc, indexes);
    close(alloc, core, image, options, logs).err()
}

/// Why there is no report, each by itself, and the first by number where there are two.
pub fn closing(rt: &impl Abort, alloc: Global) {
    let options = options_by_one(3, 7);
    let image = image_from(rt, alloc, TWO_STEPS);
    let other = image_from(rt, alloc, WAITING);
    let opening = core_of(rt, alloc, TWO_STEPS, 7);
    assert!(rt; unclosed(alloc, opening, &image, &options) == Some(CloseFault::StillRunning));
    let opening = core_of(rt, alloc, TWO_STEPS, 7);
    assert!(rt; unclosed(alloc, opening, &other, &options) == Some(CloseFault::NotTheRun));

    assert!(rt; unclosed_run(rt, alloc, &image, &options, &[0, 1]).is_none());
    let unnamed = Some(CloseFault::NotTheEntries);
    assert!(rt; unclosed_run(rt, alloc, &other, &options, &[0, 0]) == unnamed);
    assert!(rt; unclosed_run(rt, alloc, &other, &options, &[1, 2]) == unnamed);
    let falling = Some(CloseFault::NotRising);
    assert!(rt; unclosed_run(rt, alloc, &image, &options, &[1, 0]) == falling);
    assert!(rt; unclosed_run(rt, alloc, &other, &options, &[1, 0]) == falling);
    let foreign = Some(CloseFault::NotTheRun);
    let (arena, steps) = (options_by_one(4, 7), options_by_one(3, 8));
    assert!(rt; unclosed_run(rt, alloc, &other, &options, &[0, 1]) == foreign);
    assert!(rt; unclosed_run(rt, alloc, &image, &arena, &[0, 1]) == foreign);
    assert!(rt; unclosed_run(rt, alloc, &image, &steps, &[0, 1]) == foreign);
    after_a_turn(rt, alloc, &image, &options);
}

// A worker's turn has a receipt, and without it there is no report.
fn after_a_turn(rt: &impl Abort, alloc: Global, image: &Image, options: &WorkOptions) {
    let mut core = core_of(rt, alloc, TWO_STEPS, 7);
    let ticket = ticket_of(rt, &mut core, 1);
    let segment = computed(&core, &ticket);
    let receipt = worker_turn(&mut core, 1, &segment).expect(rt, "no receipt");
    assert!(rt;
        receipt
            == Receipt {
                index: 0,
                process: 1,
                worker: 1,
                steps: 2,
            }
    );
    assert!(rt; unclosed(alloc, core, image, options) == Some(CloseFault::NotTheEntries));
}

// Holds the first worker that calls it after 20 calls, until the other one has called it twice more.
#[derive(Drop)]
struct Holding<'a, R> {
    rt: &'a R,
    calls: AtomicU64,
    calls_of_first: AtomicU64,
    held: AtomicU32,
    calls_of_other: AtomicU64,
    polls: AtomicU64,
}

const MOST_POLLS: u64 = 100_000;

impl<'a, R: Clock> Holding<'a, R> {
    fn new(rt: &'a R) -> Self {
        Holding {
            rt,
            calls: AtomicU64::new(0),
            calls_of_first: AtomicU64::new(0),
            held: AtomicU32::new(0),
            calls_of_other: AtomicU64::new(0),
            polls: AtomicU64::new(0),
        }
    }

    fn is_first_late_call(&self, worker: u32) -> bool {
        20 <= self.calls.fetch_add(1, Ordering::SeqCst)
            && self
                .held
                .compare_exchange(0, worker, Ordering::SeqCst, Ordering::SeqCst)
                .is_ok()
    }

    fn hold(&self) {
        for _poll in 0..MOST_POLLS {
            if 2 <= self.calls_of_other.load(Ordering::SeqCst) {
                return;
            }
            self.polls.fetch_add(1, Ordering::SeqCst);
            sleep(self.rt, Duration::from_micros(100));
        }
    }
}

impl<R: Clock> Gate for Holding<'_, R> {
    fn segment(&self, worker: u32, _turn: u64, image: &Image, ticket: &Ticket) -> Segment {
        let segment = compute(image, ticket);
        if worker == 1 {
            self.calls_of_first.fetch_add(1, Ordering::SeqCst);
        }
        let held = self.held.load(Ordering::SeqCst);
        if held != 0 && held != worker {
            self.calls_of_other.fetch_add(1, Ordering::SeqCst);
        }
        if self.is_first_late_call(worker) {
            self.hold();
        }
        segment
    }
}

// A main program that creates two processes, which store into COMMON a thousand times each.
const STORING: [&[u8]; 9] = [
    b"      PROGRAM P",
    b"      CREATE S",
    b"      CREATE S",
    b"      END",
    b"      SUBROUTINE S",
    b"      COMMON N",
    b"      DO 10 I=1,1000",
    b"   10 N=I",
    b"      END",
];

// The log of this worker has one receipt for each of so many calls.
fn is_log_of(log: &Log, worker: u32, calls: u64) -> bool {
    log.receipts().len() as u64 == calls
        && log
            .receipts()
            .iter()
            .all(|receipt| receipt.worker == worker)
}

// How many steps the entries of a core's history have together.
fn steps_of(core: &Core) -> u64 {
    core.history().iter().fold(0, |sum: u64, entry| sum.saturating_add(entry.steps as u64))
}

// How many entries of a process have so many steps.
fn entries_of(core: &Core, process: u64, steps: u32) -> u64 {
    core.history().iter().fold(0, |count: u64, entry| {
        if entry.process == process && entry.steps == steps {
            count.saturating_add(1)
        } else {
            count
        }
    })
}

// The run is over, in so many entries and steps, and has left what was stored. A turn of a process that stores has the two private steps in front
// of its store, or those in front of its END.
fn has_stored(rt: &impl Abort, core: &Core) {
    assert!(rt; core.verdict() == Verdict::Done);
    assert!(rt; core.output().len() == 0);
    assert!(rt; core.faults().len() == 0);
    assert!(rt; core.used() == 1);
    assert!(rt; core.history().len() == 2_005);
    assert!(rt; steps_of(core) == 6_007);
    assert!(rt; entries_of(core, 1, 1) == 3);
    for process in [2, 3] {
        assert!(rt; entries_of(core, process, 3) == 1_000);
        assert!(rt; entries_of(core, process, 2) == 1);
    }
    let stored = core.common(0).and_then(|slot| slot.value);
    assert!(rt; stored == Some(Value::Int(1_000)));
    assert!(rt; core.common(1).is_none());
}

// Two workers have a log each, with the calls of the first one and those of the other.
fn are_logs_of(rt: &impl Abort, logs: &[Log], calls: u64, of_first: u64) {
    let [first, second] = logs else {
        assert!(rt; false, "there are other than two logs");
        return;
    };
    assert!(rt; is_log_of(first, 1, of_first));
    assert!(rt; is_log_of(second, 2, calls.saturating_sub(of_first)));
}

#[test]
fn two_workers_take_turns(rt: HostRuntime) {
    let alloc = rt.alloc();
    let image = image_from(&rt, alloc, &source_of(&rt, alloc, &STORING));
    let gate = Holding::new(&rt);
    let options = options_of(10_000, 2);
    let report = run_workers(&rt, alloc, image, &options, &gate).expect(&rt, "no report");
    let (core, logs) = report.into_parts();
    assert!(rt; gate.polls.load(Ordering::SeqCst) < MOST_POLLS);
    assert!(rt; 2 <= gate.calls_of_other.load(Ordering::SeqCst));
    has_stored(&rt, &core);
    let calls = gate.calls.load(Ordering::SeqCst);
    assert!(rt; calls == 2_005);
    are_logs_of(
        &rt,
        &logs,
        calls,
        gate.calls_of_first.load(Ordering::SeqCst),
    );
}

// The same entries come of each number of workers.
#[test]
fn many_workers(rt: HostRuntime) {
    let alloc = rt.alloc();
    let image = image_from(&rt, alloc, &source_of(&rt, alloc, &STORING));
    for workers in 1..17u32 {
        let copy = image.copy(alloc).expect(&rt, "no copy");
        let options = options_of(10_000, workers);
        let report = run_workers(&rt, alloc, copy, &options, &NoGate).expect(&rt, "no report");
        assert!(rt; report.logs().len() == workers as usize);
        has_stored(&rt, report.core());
    }
}

// Private steps have no end here, so each turn has as many as a segment may have.
#[test]
fn endless_turns(rt: HostRuntime) {
    let alloc = rt.alloc();
    let image = image_from(&rt, alloc, b"   10 GO TO 10\n      END\n");
    let options = options_of(2, 1);
    let report = run_workers(&rt, alloc, image, &options, &NoGate).expect(&rt, "no report");
    let core = report.core();
    assert!(rt; core.verdict() == Verdict::Stopped(ChoiceStop::StepLimit));
    assert!(rt; core.history().len() == 2);
    assert!(rt; entries_of(core, 1, 1_023) == 2);
}

// Where a worker waits for the other one, after 20 calls, until both are inside.
#[derive(Drop)]
struct Meeting<'a, R> {
    rt: &'a R,
    calls: AtomicU64,
    inside: AtomicU32,
    met: AtomicBool,
    polls: AtomicU64,
}

impl<'a, R: Clock> Meeting<'a, R> {
    fn new(rt: &'a R) -> Self {
        Meeting {
            rt,
            calls: AtomicU64::new(0),
            inside: AtomicU32::new(0),
            met: AtomicBool::new(false),
            polls: AtomicU64::new(0),
        }
    }

    fn come(&self) {
        if self.inside.fetch_add(1, Ordering::SeqCst) == 1 {
            self.met.store(true, Ordering::SeqCst);
        }
        if self.calls.fetch_add(1, Ordering::SeqCst) < 20 {
            return;
        }
        for _poll in 0..MOST_POLLS {
            if self.met.load(Ordering::SeqCst) {
                return;
            }
            self.polls.fetch_add(1, Ordering::SeqCst);
            sleep(self.rt, Duration::from_micros(100));
        }
    }

    fn leave(&self) {
        self.inside.fetch_sub(1, Ordering::SeqCst);
    }
}

impl<R: Clock> Gate for Meeting<'_, R> {
    fn segment(&self, _worker: u32, _turn: u64, image: &Image, ticket: &Ticket) -> Segment {
        self.come();
        let segment = compute(image, ticket);
        self.leave();
        segment
    }
}

// Segments are made side by side: two workers are inside the gate at one time.
#[test]
fn two_workers_meet(rt: HostRuntime) {
    let alloc = rt.alloc();
    let image = image_from(&rt, alloc, &source_of(&rt, alloc, &STORING));
    let gate = Meeting::new(&rt);
    let options = options_of(10_000, 2);
    let report = run_workers(&rt, alloc, image, &options, &gate).expect(&rt, "no report");
    assert!(rt; gate.polls.load(Ordering::SeqCst) < MOST_POLLS);
    assert!(rt; gate.met.load(Ordering::SeqCst));
    has_stored(&rt, report.core());
}

// A main program that creates four processes.
const CREATING: [&[u8]; 9] = [
    b"      PROGRAM P",
    b"      DO 10 I=1,4",
    b"      CREATE S",
    b"   10 CONTINUE",
    b"      END",
    b"      SUBROUTINE S",
    b"      COMMON N",
    b"      N=1",
    b"      END",
];

// Where four workers come together: each that has another process than the first one waits until four have. The main program is held at each
// of its turns, so that workers without a process wait by then for the next one to be created.
#[derive(Drop)]
struct Gathering<'a, R> {
    rt: &'a R,
    inside: AtomicU32,
    gathered: AtomicBool,
    polls: AtomicU64,
}

impl<'a, R: Clock> Gathering<'a, R> {
    fn new(rt: &'a R) -> Self {
        Gathering {
            rt,
            inside: AtomicU32::new(0),
            gathered: AtomicBool::new(false),
            polls: AtomicU64::new(0),
        }
    }

    fn come(&self) {
        if self.inside.fetch_add(1, Ordering::SeqCst) == 3 {
            self.gathered.store(true, Ordering::SeqCst);
        }
        for _poll in 0..MOST_POLLS {
            if self.gathered.load(Ordering::SeqCst)
                || MOST_POLLS <= self.polls.fetch_add(1, Ordering::SeqCst)
            {
                return;
            }
            sleep(self.rt, Duration::from_micros(100));
        }
    }
}

impl<R: Clock> Gate for Gathering<'_, R> {
    fn segment(&self, _worker: u32, _turn: u64, image: &Image, ticket: &Ticket) -> Segment {
        if ticket.id().process == 1 {
            sleep(self.rt, Duration::from_millis(20));
        } else {
            self.come();
        }
        compute(image, ticket)
    }
}

// A worker that waits is woken for each process that is created: else the four never come together.
#[test]
fn waiting_workers_are_woken(rt: HostRuntime) {
    let alloc = rt.alloc();
    let image = image_from(&rt, alloc, &source_of(&rt, alloc, &CREATING));
    let gate = Gathering::new(&rt);
    let options = options_of(10_000, 4);
    let report = run_workers(&rt, alloc, image, &options, &gate).expect(&rt, "no report");
    assert!(rt; gate.polls.load(Ordering::SeqCst) < MOST_POLLS);
    assert!(rt; gate.gathered.load(Ordering::SeqCst));
    assert!(rt; report.core().verdict() == Verdict::Done);
}

// ---- in the program's own mode, in which no gate is asked for the segment of each turn

// A main program that creates two processes. Each prints, which no turn in one does, and has a loop of private steps then.
const LOOPING: [&[u8]; 9] = [
    b"      PROGRAM P",
    b"      CREATE S",
    b"      CREATE S",
    b"      END",
    b"      SUBROUTINE S",
    b"      PRINT *,'LOOP'",
    b"      DO 10 I=1,3000",
    b"   10 K=I",
    b"      END",
];

// As many private steps as a batch of the loop has at least.
const LONG: u32 = 1_000;

// Holds the worker that has the first call for process 2 until another one has a call too; and a worker that has a long batch until two have one. The main
// program has no batches, so that a worker which waits is woken behind each of its turns.
#[derive(Drop)]
struct Beside<'a, R> {
    rt: &'a R,
    // A bit for each worker that has had a call, and for each that has had a long batch.
    called: AtomicU32,
    batched: AtomicU32,
    polls: AtomicU64,
}

impl<'a, R: Clock> Beside<'a, R> {
    fn new(rt: &'a R) -> Self {
        Beside {
            rt,
            called: AtomicU32::new(0),
            batched: AtomicU32::new(0),
            polls: AtomicU64::new(0),
        }
    }

    // Waits until both workers have their bits in a word.
    fn meet(&self, word: &AtomicU32) {
        for _poll in 0..MOST_POLLS {
            if word.load(Ordering::SeqCst) == 3 {
                return;
            }
            self.polls.fetch_add(1, Ordering::SeqCst);
            sleep(self.rt, Duration::from_micros(100));
        }
    }
}

impl<R: Clock> Gate for Beside<'_, R> {
    fn segment(&self, _worker: u32, _turn: u64, image: &Image, ticket: &Ticket) -> Segment {
        compute(image, ticket)
    }

    fn is_asked(&self) -> bool {
        false
    }

    fn batch_into(
        &self,
        worker: u32,
        turn: u64,
        ahead: &PrivateImage<'_>,
        ticket: &Ticket,
        batch: &mut Batch,
    ) -> bool {
        let bit = if worker == 1 { 1 } else { 2 };
        self.called.fetch_or(bit, Ordering::SeqCst);
        let process = ticket.id().process;
        if process == 1 {
            return false;
        }
        if process == 2 {
            self.meet(&self.called);
        }
        let is_made = NoGate.batch_into(worker, turn, ahead, ticket, batch);
        if LONG <= batch.steps() {
            self.batched.fetch_or(bit, Ordering::SeqCst);
            self.meet(&self.batched);
        }
        is_made
    }
}

// Two workers have a long batch each at one time.
fn two_loops_beside<R: Abort + Clock + Threads + Wait + Sync>(rt: &R, alloc: Global) {
    let image = image_from(rt, alloc, &source_of(rt, alloc, &LOOPING));
    let gate = Beside::new(rt);
    let options = options_of(10_000, 2);
    let report = run_workers(rt, alloc, image, &options, &gate).expect(rt, "no report");
    assert!(rt; gate.polls.load(Ordering::SeqCst) < MOST_POLLS);
    assert!(rt; gate.batched.load(Ordering::SeqCst) == 3);
    assert!(rt; report.core().verdict() == Verdict::Done);
    for log in report.logs() {
        assert!(rt; log.receipts().iter().any(|receipt| LONG <= receipt.steps));
    }
}

// A main program that creates two processes, which store into COMMON 50,000 times each.
const SHORT_TURNS: [&[u8]; 9] = [
    b"      PROGRAM P",
    b"      CREATE S",
    b"      CREATE S",
    b"      END",
    b"      SUBROUTINE S",
    b"      COMMON N",
    b"      DO 10 I=1,50000",
    b"   10 N=I",
    b"      END",
];

// A worker has at least a tenth of its share of the entries of short turns.
const LEAST_SHARE: usize = 5_000;

// From this turn of its own on a worker is held: before, it has called the other one if that one waits.
const LATE_TURN: u64 = 6_000;

// Holds a worker in a late turn until the other one has had a call.
#[derive(Drop)]
struct Late<'a, R> {
    beside: Beside<'a, R>,
}

impl<R: Clock> Gate for Late<'_, R> {
    fn segment(&self, _worker: u32, _turn: u64, image: &Image, ticket: &Ticket) -> Segment {
        compute(image, ticket)
    }

    fn is_asked(&self) -> bool {
        false
    }

    fn batch_into(
        &self,
        worker: u32,
        turn: u64,
        ahead: &PrivateImage<'_>,
        ticket: &Ticket,
        batch: &mut Batch,
    ) -> bool {
        let bit = if worker == 1 { 1 } else { 2 };
        self.beside.called.fetch_or(bit, Ordering::SeqCst);
        if LATE_TURN <= turn {
            self.beside.meet(&self.beside.called);
        }
        NoGate.batch_into(worker, turn, ahead, ticket, batch)
    }
}

// How many spans of entries, one behind the other, a log has.
fn spans_of(log: &Log) -> u64 {
    let mut spans: u64 = 0;
    let mut next: Option<u64> = None;
    for receipt in log.receipts() {
        if next != Some(receipt.index) {
            spans = spans.saturating_add(1);
        }
        next = Some(receipt.index.saturating_add(1));
    }
    spans
}

// Two workers give the processes to each other again and again, though all turns are short.
fn short_turns_shared<R: Abort + Clock + Threads + Wait + Sync>(rt: &R, alloc: Global) {
    let image = image_from(rt, alloc, &source_of(rt, alloc, &SHORT_TURNS));
    let gate = Late {
        beside: Beside::new(rt),
    };
    let options = options_of(1_000_000, 2);
    let report = run_workers(rt, alloc, image, &options, &gate).expect(rt, "no report");
    assert!(rt; gate.beside.polls.load(Ordering::SeqCst) < MOST_POLLS);
    assert!(rt; report.core().verdict() == Verdict::Done);
    assert!(rt; report.core().history().len() == 100_005);
    for log in report.logs() {
        assert!(rt; LEAST_SHARE <= log.receipts().len());
        assert!(rt; 3 <= spans_of(log));
    }
}

// The program's own mode: two workers make long batches side by side, and share short turns.
#[test]
fn workers_are_not_asked(rt: HostRuntime) {
    let alloc = rt.alloc();
    two_loops_beside(&rt, alloc);
    short_turns_shared(&rt, alloc);
}
