//! Calls whose growths are refused in turn: the first one, then the second one, and so on until a call meets no refusal.
//!
//! The allocator that refuses is put below the program by the script `tests/each-growth`. To it a demand for more bytes than any
//! system has is a command. Elsewhere such a demand is refused as ever, no growth is, and each call is made once.

use super::{checked_out, chosen, committed, image_from, program_of, source_of};
use hep_base::Refusal;
use hep_history::History;
use hep_image::{Image, Syntax};
use hep_output::output_text;
use hep_parse::parse;
use hep_run::{
    Checked, ChooseFault, CloseFault, CommitFault, Core, Entry, Fault, NewFault, NoGate,
    ReplayFault, Report, Segment, Ticket, Turn, Verdict, WorkFault, WorkOptions, check, close,
    compute, dump_text, history_replay as replay, lower, read_text, run_workers, write_text,
};
use hep_source::Program;
use hep_text::statements;
use std::alloc::{AllocError, Global};
use std::process::Abort;
use std::sync::Wait;
use std::thread::Threads;

// ---- the allocator

// As many bytes as no system has.
const COMMAND: usize = 1 << 62;
// With the growth of a number all behind it are refused too.
const BEHIND: usize = 1 << 61;

const MOST_GROWTHS: usize = 100_000;

// Commands that the growth of this number is refused from here on, counted from 1, or none for 0. Whether one was refused since the
// last command.
fn command(alloc: Global, number: usize) -> bool {
    Vec::<u8>::with_capacity(alloc, COMMAND | number).is_ok()
}

// ---- answers

// A fault that may be want of memory.
trait Wanting: Drop {
    fn is_want_of_memory(&self) -> bool;
}

impl Wanting for Refusal {
    fn is_want_of_memory(&self) -> bool {
        matches!(self, Refusal::NoMemory)
    }
}

impl Wanting for AllocError {
    fn is_want_of_memory(&self) -> bool {
        true
    }
}

impl Wanting for NewFault {
    fn is_want_of_memory(&self) -> bool {
        *self == NewFault::NoMemory
    }
}

impl Wanting for ChooseFault {
    fn is_want_of_memory(&self) -> bool {
        *self == ChooseFault::NoMemory
    }
}

impl Wanting for CommitFault {
    fn is_want_of_memory(&self) -> bool {
        *self == CommitFault::NoMemory
    }
}

impl Wanting for ReplayFault {
    fn is_want_of_memory(&self) -> bool {
        matches!(self, ReplayFault::NoMemory)
    }
}

impl Wanting for CloseFault {
    fn is_want_of_memory(&self) -> bool {
        *self == CloseFault::NoMemory
    }
}

// 704 where it was a thread that couldn't be started.
impl Wanting for WorkFault {
    fn is_want_of_memory(&self) -> bool {
        matches!(self.number(), None | Some(704))
    }
}

// What a call gives; nothing where it wants memory, as it may where a growth was refused. No other answer is allowed.
fn given<T: Drop, F: Wanting>(rt: &impl Abort, answer: Result<T, F>, refused: bool) -> Option<T> {
    match answer {
        Ok(made) => Some(made),
        Err(fault) => {
            assert!(rt; refused && fault.is_want_of_memory());
            None
        }
    }
}

// ---- what is called

// Five processes and one that resumes give their sums by a function that calls itself. In the end there is a fault.
const SUMS: [&[u8]; 25] = [
    b"      PROGRAM P",
    b"      INTEGER $S(6)",
    b"      DO 10 I=1,5",
    b"   10 CREATE W($S(I),(I))",
    b"      CALL R($S(6))",
    b"      N=0",
    b"      DO 20 I=1,6",
    b"   20 N=N+$S(I)",
    b"      PURGE $S",
    b"      PRINT *,N",
    b"      PRINT *,N/(N-56)",
    b"      END",
    b"      SUBROUTINE W($V,I)",
    b"      INTEGER $V",
    b"      $V=M(I)",
    b"      END",
    b"      SUBROUTINE R($V)",
    b"      INTEGER $V",
    b"      RESUME",
    b"      $V=M(6)",
    b"      END",
    b"      FUNCTION M(I)",
    b"      M=0",
    b"      IF(I.GT.0) M=I+M(I-1)",
    b"      END",
];

const OUTPUT: &[u8] = b" 56\n";

const ARENA: u32 = 1_000;

const MOST_ENTRIES: u64 = 10_000;
// The cells of the main program.
const FIRST_CELLS: u32 = 13;

// A process that waits.
const WAITS: [&[u8]; 3] = [
    b"      INTEGER $LONGER(8,8)",
    b"      I=$LONGER(8,8)",
    b"      END",
];

const WAITING: &[u8] = b"WAITING 1 MAIN LINE 2 FOR FULL $LONGER#64 OF 1\n";

const ENTRIES: [Entry; 3] = [
    Entry {
        process: 9_223_372_036_854_775_807,
        steps: 1_024,
    },
    Entry {
        process: 12,
        steps: 0,
    },
    Entry {
        process: 12,
        steps: 0,
    },
];

const TEXT: &[u8] = b"9223372036854775807 1024\n12 0\n12 0\n";

// What is made of a source. Each of these ends the test where it is refused.

fn checked_of(rt: &impl Abort, alloc: Global, source: &[u8]) -> Checked {
    check(alloc, program_of(rt, alloc, source)).expect(rt, "not accepted")
}

fn sums(rt: &impl Abort, alloc: Global) -> Vec<u8> {
    source_of(rt, alloc, &SUMS)
}

fn sums_image(rt: &impl Abort, alloc: Global) -> Image {
    image_from(rt, alloc, &sums(rt, alloc))
}

fn sums_core(rt: &impl Abort, alloc: Global) -> Core {
    let image = sums_image(rt, alloc);
    Core::new(alloc, image, ARENA, MOST_ENTRIES).expect(rt, "no core")
}

// The core after the whole run, each time the next process.
fn sums_done(rt: &impl Abort, alloc: Global) -> Core {
    let mut core = sums_core(rt, alloc);
    for _turn in 0..MOST_ENTRIES {
        let Some(process) = core.next_ready() else {
            break;
        };
        let _turn = chosen(&mut core, process).expect(rt, "no turn");
    }
    core
}

// The text of the history of the whole run.
fn sums_text(rt: &impl Abort, alloc: Global) -> Vec<u8> {
    let core = sums_done(rt, alloc);
    write_text(alloc, core.history()).expect(rt, "no text")
}

// The program is that of the sums.
fn is_of_sums(rt: &impl Abort, alloc: Global, program: &Program) {
    assert!(rt; program.same(&program_of(rt, alloc, &sums(rt, alloc))));
}

fn is_image_of_sums(rt: &impl Abort, alloc: Global, image: &Image) {
    assert!(rt; image.has_same_program(&sums_image(rt, alloc)));
}

// The run is over, and has left what it leaves in each order of its processes.
fn is_over(rt: &impl Abort, alloc: Global, core: &Core) {
    assert!(rt; core.verdict() == Verdict::Done && core.used() == 0 && core.faults().len() == 1);
    let text = output_text(alloc, core.output()).expect(rt, "no output");
    assert!(rt; text.as_slice() == OUTPUT);
}

// ---- calls with the growth of one number refused: whether it was

fn statements_at(rt: &impl Abort, alloc: Global, number: usize) -> bool {
    let source = sums(rt, alloc);
    command(alloc, number);
    let answer = statements(alloc, &source);
    let refused = command(alloc, 0);
    if let Some(read) = given(rt, answer, refused) {
        let program = parse(alloc, &read).expect(rt, "no program");
        is_of_sums(rt, alloc, &program);
    }
    refused
}

fn parse_at(rt: &impl Abort, alloc: Global, number: usize) -> bool {
    let read = statements(alloc, &sums(rt, alloc)).expect(rt, "no statements");
    command(alloc, number);
    let answer = parse(alloc, &read);
    let refused = command(alloc, 0);
    if let Some(program) = given(rt, answer, refused) {
        is_of_sums(rt, alloc, &program);
    }
    refused
}

fn check_at(rt: &impl Abort, alloc: Global, number: usize) -> bool {
    let program = program_of(rt, alloc, &sums(rt, alloc));
    command(alloc, number);
    let answer = check(alloc, program);
    let refused = command(alloc, 0);
    if let Some(checked) = given(rt, answer, refused) {
        let image = lower(alloc, checked).expect(rt, "no image");
        is_image_of_sums(rt, alloc, &image);
    }
    refused
}

fn lower_at(rt: &impl Abort, alloc: Global, number: usize) -> bool {
    let checked = checked_of(rt, alloc, &sums(rt, alloc));
    command(alloc, number);
    let answer = lower(alloc, checked);
    let refused = command(alloc, 0);
    if let Some(image) = given(rt, answer, refused) {
        is_image_of_sums(rt, alloc, &image);
    }
    refused
}

fn new_at(rt: &impl Abort, alloc: Global, number: usize) -> bool {
    let image = sums_image(rt, alloc);
    command(alloc, number);
    let answer = Core::new(alloc, image, ARENA, MOST_ENTRIES);
    let refused = command(alloc, 0);
    if let Some(core) = given(rt, answer, refused) {
        assert!(rt; core.used() == FIRST_CELLS);
    }
    refused
}

fn write_text_at(rt: &impl Abort, alloc: Global, number: usize) -> bool {
    let mut history = History::new(alloc);
    for entry in ENTRIES {
        history.append(entry, 1).expect(rt, "no memory");
    }
    command(alloc, number);
    let answer = write_text(alloc, &history);
    let refused = command(alloc, 0);
    if let Some(text) = given(rt, answer, refused) {
        assert!(rt; text.as_slice() == TEXT);
    }
    refused
}

// Of the text of the run's history; what was read is made again.
fn read_text_at(rt: &impl Abort, alloc: Global, number: usize) -> bool {
    let text = sums_text(rt, alloc);
    command(alloc, number);
    let answer = read_text(alloc, &text);
    let refused = command(alloc, 0);
    if let Some(entries) = given(rt, answer, refused) {
        let core = replay(alloc, sums_image(rt, alloc), ARENA, &entries).expect(rt, "no core");
        is_over(rt, alloc, &core);
    }
    refused
}

fn replay_at(rt: &impl Abort, alloc: Global, number: usize) -> bool {
    let entries = read_text(alloc, &sums_text(rt, alloc)).expect(rt, "no entries");
    let image = sums_image(rt, alloc);
    command(alloc, number);
    let answer = replay(alloc, image, ARENA, &entries);
    let refused = command(alloc, 0);
    if let Some(core) = given(rt, answer, refused) {
        is_over(rt, alloc, &core);
    }
    refused
}

fn output_text_at(rt: &impl Abort, alloc: Global, number: usize) -> bool {
    let core = sums_done(rt, alloc);
    command(alloc, number);
    let answer = output_text(alloc, core.output());
    let refused = command(alloc, 0);
    if let Some(text) = given(rt, answer, refused) {
        assert!(rt; text.as_slice() == OUTPUT);
    }
    refused
}

fn dump_text_at(rt: &impl Abort, alloc: Global, number: usize) -> bool {
    let image = image_from(rt, alloc, &source_of(rt, alloc, &WAITS));
    let mut core = Core::new(alloc, image, ARENA, MOST_ENTRIES).expect(rt, "no core");
    let _turn = chosen(&mut core, 1).expect(rt, "no turn");
    command(alloc, number);
    let answer = dump_text(alloc, &core);
    let refused = command(alloc, 0);
    if let Some(text) = given(rt, answer, refused) {
        assert!(rt; text.as_slice() == WAITING);
    }
    refused
}

// ---- whole runs of a core: each call once with the growth of one number refused, and where it wants memory once more

// What is seen of a core.
#[derive(Drop)]
struct Seen {
    history: History,
    output: Vec<u8>,
    faults: Vec<Fault>,
    used: u32,
    verdict: Verdict,
    next: Option<u64>,
}

fn seen_of(rt: &impl Abort, alloc: Global, core: &Core) -> Seen {
    let mut faults = Vec::new(alloc);
    faults
        .extend_from_slice(core.faults())
        .expect(rt, "no memory");
    Seen {
        history: core.history().copy(alloc).expect(rt, "no memory"),
        output: output_text(alloc, core.output()).expect(rt, "no memory"),
        faults,
        used: core.used(),
        verdict: core.verdict(),
        next: core.next_ready(),
    }
}

// Nothing that is seen of a core has changed.
fn is_unchanged(rt: &impl Abort, alloc: Global, core: &Core, before: &Seen) {
    let now = seen_of(rt, alloc, core);
    assert!(rt; now.history.same(&before.history));
    assert!(rt; now.output.as_slice() == before.output.as_slice());
    assert!(rt; now.faults.as_slice() == before.faults.as_slice());
    assert!(rt; now.used == before.used && now.verdict == before.verdict);
    assert!(rt; now.next == before.next);
}

// The last entry of a core's history is that of a turn.
fn is_entered(rt: &impl Abort, core: &Core, process: u64, turn: Turn) {
    let last = core.history().last().expect(rt, "no entry");
    assert!(rt; last.process == process && last.steps == turn.steps);
}

fn chosen_at(rt: &impl Abort, alloc: Global, core: &mut Core, process: u64, number: usize) -> bool {
    let before = seen_of(rt, alloc, core);
    command(alloc, number);
    let answer = chosen(core, process);
    let refused = command(alloc, 0);
    let turn = match given(rt, answer, refused) {
        Some(turn) => turn,
        None => {
            is_unchanged(rt, alloc, core, &before);
            chosen(core, process).expect(rt, "no turn")
        }
    };
    is_entered(rt, core, process, turn);
    refused
}

fn choose_at(rt: &impl Abort, alloc: Global, number: usize) -> bool {
    let mut core = sums_core(rt, alloc);
    let mut refused = false;
    for _turn in 0..MOST_ENTRIES {
        let Some(process) = core.next_ready() else {
            break;
        };
        refused |= chosen_at(rt, alloc, &mut core, process, number);
    }
    is_over(rt, alloc, &core);
    let text = write_text(alloc, core.history()).expect(rt, "no text");
    assert!(rt; text.as_slice() == sums_text(rt, alloc).as_slice());
    refused
}

fn checked_out_at(
    rt: &impl Abort,
    alloc: Global,
    core: &mut Core,
    process: u64,
    number: usize,
) -> (Ticket, bool) {
    let before = seen_of(rt, alloc, core);
    command(alloc, number);
    let answer = checked_out(core, process);
    let refused = command(alloc, 0);
    match given(rt, answer, refused) {
        Some(ticket) => (ticket, refused),
        None => {
            is_unchanged(rt, alloc, core, &before);
            (checked_out(core, process).expect(rt, "no ticket"), refused)
        }
    }
}

// A refused commit leaves its ticket as it was: the same segment is committed then.
fn committed_at(
    rt: &impl Abort,
    alloc: Global,
    core: &mut Core,
    segment: &Segment,
    number: usize,
) -> bool {
    let before = seen_of(rt, alloc, core);
    command(alloc, number);
    let answer = committed(core, segment);
    let refused = command(alloc, 0);
    let turn = match given(rt, answer, refused) {
        Some(turn) => turn,
        None => {
            is_unchanged(rt, alloc, core, &before);
            committed(core, segment).expect(rt, "not committed")
        }
    };
    is_entered(rt, core, segment.ticket().process, turn);
    refused
}

// Checks out all that are ready. Gives their segments, and whether a growth was refused.
fn all_out_at(
    rt: &impl Abort,
    alloc: Global,
    core: &mut Core,
    image: &Image,
    number: usize,
) -> (Vec<Segment>, bool) {
    let mut segments = Vec::new(alloc);
    let mut refused = false;
    for _turn in 0..MOST_ENTRIES {
        let Some(process) = core.next_ready() else {
            break;
        };
        let (ticket, is_refused) = checked_out_at(rt, alloc, core, process, number);
        refused |= is_refused;
        segments
            .push(compute(image, &ticket))
            .expect(rt, "no memory");
    }
    (segments, refused)
}

// The numbers of the growths that are refused: of each check-out, and of each commit.
#[derive(Clone, Copy)]
struct Refused {
    of_check_out: usize,
    of_commit: usize,
}

const NONE_REFUSED: Refused = Refused {
    of_check_out: 0,
    of_commit: 0,
};

// All that are ready are checked out and then committed.
fn round_at(
    rt: &impl Abort,
    alloc: Global,
    core: &mut Core,
    image: &Image,
    numbers: Refused,
) -> bool {
    let (segments, mut refused) = all_out_at(rt, alloc, core, image, numbers.of_check_out);
    for segment in &segments {
        refused |= committed_at(rt, alloc, core, segment, numbers.of_commit);
    }
    refused
}

// The core after all rounds, and whether a growth was refused.
fn rounds(rt: &impl Abort, alloc: Global, numbers: Refused) -> (Core, bool) {
    let image = sums_image(rt, alloc);
    let mut core = sums_core(rt, alloc);
    let mut refused = false;
    for _round in 0..MOST_ENTRIES {
        if core.verdict() != Verdict::Running {
            break;
        }
        refused |= round_at(rt, alloc, &mut core, &image, numbers);
    }
    (core, refused)
}

// The entries are those of rounds in which nothing is refused.
fn rounds_at(rt: &impl Abort, alloc: Global, numbers: Refused) -> bool {
    let (core, refused) = rounds(rt, alloc, numbers);
    is_over(rt, alloc, &core);
    let (usual, _) = rounds(rt, alloc, NONE_REFUSED);
    assert!(rt; core.history().same(usual.history()));
    refused
}

fn check_out_at(rt: &impl Abort, alloc: Global, number: usize) -> bool {
    let numbers = Refused {
        of_check_out: number,
        of_commit: 0,
    };
    rounds_at(rt, alloc, numbers)
}

fn commit_at(rt: &impl Abort, alloc: Global, number: usize) -> bool {
    let numbers = Refused {
        of_check_out: 0,
        of_commit: number,
    };
    rounds_at(rt, alloc, numbers)
}

// ---- workers

fn options() -> WorkOptions {
    WorkOptions {
        arena: ARENA,
        steps: MOST_ENTRIES,
        workers: 1,
    }
}

// The one worker has a receipt for each entry.
fn has_one_log(rt: &impl Abort, report: &Report) {
    let [log] = report.logs() else {
        assert!(rt; false, "there is more than one log, or none");
        return;
    };
    assert!(rt; log.is_of(1));
    assert!(rt; log.receipts().len() as u64 == report.core().history().len());
}

fn run_workers_at<R: Abort + Threads + Wait + Sync>(rt: &R, alloc: Global, number: usize) -> bool {
    let image = sums_image(rt, alloc);
    command(alloc, number);
    let answer = run_workers(rt, alloc, image, &options(), &NoGate);
    let refused = command(alloc, 0);
    if let Some(report) = given(rt, answer, refused) {
        is_over(rt, alloc, report.core());
        has_one_log(rt, &report);
    }
    refused
}

fn close_at<R: Abort + Threads + Wait + Sync>(rt: &R, alloc: Global, number: usize) -> bool {
    let image = sums_image(rt, alloc);
    let run = run_workers(rt, alloc, sums_image(rt, alloc), &options(), &NoGate);
    let (core, logs) = run.expect(rt, "no run").into_parts();
    command(alloc, number);
    let answer = close(alloc, core, &image, &options(), logs);
    let refused = command(alloc, 0);
    if let Some(report) = given(rt, answer, refused) {
        is_over(rt, alloc, report.core());
        has_one_log(rt, &report);
    }
    refused
}

// ---- all

#[derive(Clone, Copy)]
enum Call {
    Statements,
    Parse,
    Check,
    Lower,
    New,
    Choose,
    CheckOut,
    Commit,
    WriteText,
    ReadText,
    Replay,
    OutputText,
    DumpText,
    Close,
    RunWorkers,
}

const CALLS: [(&str, Call); 15] = [
    ("statements", Call::Statements),
    ("parse", Call::Parse),
    ("check", Call::Check),
    ("lower", Call::Lower),
    ("Core::new", Call::New),
    ("choose", Call::Choose),
    ("check_out", Call::CheckOut),
    ("commit", Call::Commit),
    ("write_text", Call::WriteText),
    ("read_text", Call::ReadText),
    ("replay", Call::Replay),
    ("output_text", Call::OutputText),
    ("dump_text", Call::DumpText),
    ("close", Call::Close),
    ("run_workers", Call::RunWorkers),
];

fn called_at<R: Abort + Threads + Wait + Sync>(
    rt: &R,
    alloc: Global,
    call: Call,
    number: usize,
) -> bool {
    match call {
        Call::Statements => statements_at(rt, alloc, number),
        Call::Parse => parse_at(rt, alloc, number),
        Call::Check => check_at(rt, alloc, number),
        Call::Lower => lower_at(rt, alloc, number),
        Call::New => new_at(rt, alloc, number),
        Call::Choose => choose_at(rt, alloc, number),
        Call::CheckOut => check_out_at(rt, alloc, number),
        Call::Commit => commit_at(rt, alloc, number),
        Call::WriteText => write_text_at(rt, alloc, number),
        Call::ReadText => read_text_at(rt, alloc, number),
        Call::Replay => replay_at(rt, alloc, number),
        Call::OutputText => output_text_at(rt, alloc, number),
        Call::DumpText => dump_text_at(rt, alloc, number),
        Call::Close => close_at(rt, alloc, number),
        Call::RunWorkers => run_workers_at(rt, alloc, number),
    }
}

// How many growths of a call were refused, each alone or with all behind it.
fn growths<R: Abort + Threads + Wait + Sync>(
    rt: &R,
    alloc: Global,
    call: Call,
    way: usize,
) -> usize {
    for number in 1..MOST_GROWTHS {
        if !called_at(rt, alloc, call, way | number) {
            return number - 1;
        }
    }
    assert!(rt; false, "each call was refused memory");
    MOST_GROWTHS
}

#[test]
fn each_growth(rt: HostRuntime) {
    for (name, call) in CALLS {
        let alone = growths(&rt, rt.alloc(), call, 0);
        let behind = growths(&rt, rt.alloc(), call, BEHIND);
        println!(rt; "{name}: {alone} alone, {behind} with all behind").expect(&rt, "not written");
    }
}
