//! `hepf`: checks, lists, runs, replays and explains HEP FORTRAN.
//!
//! The program opens files, reports one that can't be opened, and calls the crates that do the rest: `hep_command`
//! reads the command line; `hep_run` and `hep_inspection` do the work and report all other errors.
#![tactic(auto)]

ghost use Rattle.hep_command.specs.Jobs.{IsArena, IsInRange, IsSeed, IsViewInRange};

use hep_command::{
    CheckForm, ColorWhen, Job, PageForm, Request, SAME_FILE, TraceForm, ViewedRun, explain,
    read_request, same_page,
};
use hep_formats::{TextKind, color_text};
use hep_inspection::{
    Check, Choices, Command, CommandRequest, CoverOptions, DiagnosticFormat, DiagnosticsRequest,
    DiffOptions, ExploreOptions, ExploreRequest, Explored, HistFault, Inspection,
    InspectionOptions, LineFilter, List, LotOptions, MOST_STEPS, NoGate, Observer, Options, Origin,
    RacesOptions, ReadFault, ReplayOptions, Run, SampleOptions, SampleRequest, SearchObserver,
    Warn, WorkOptions, WorkRequest, answer, choices_history, choices_of, deliver_source,
    diagnostics_source, explore_bytes, followed_of, history_text, lots_history, nth_options,
    put_text, read_text, read_text_file, sample_bytes, say_unread, say_unwritten, work_noted,
};
use std::alloc::AllocError;
use std::cell::Cell;
use std::env::VarError;
use std::fs::File;
use std::io::{ErrorKind, IsTerminal, Read, Stdin, Write};
use std::os::unix::fs::MetadataExt;
use std::process::ExitCode;
use std::sync::Wait;
use std::thread::Threads;
use std::time::Instant;
use std::{env, fs, io};

// The message where a history would be written to the source.
const KEPT_OVER: &str = "error: --keep names a file that is read\n";

// The name that means standard input as the source.
const STANDARD_INPUT: &str = "-";

/// A source that is to be read.
#[derive(Drop)]
enum Source {
    File(File),
    Standard(Stdin),
}

impl Read for Source {
    fn read(&mut self, buf: &mut [u8]) -> io::Result<usize> {
        match self {
            Source::File(file) => file.read(buf),
            Source::Standard(input) => input.read(buf),
        }
    }
}

/// What was read of a run that is looked at: the file of its history, with its text, or how it is made.
#[derive(Drop)]
enum Viewed<'a> {
    History(&'a str, Vec<u8>),
    Choices(Options),
    Lots(LotOptions),
}

/// How a source is run.
#[derive(Drop)]
enum Schedule {
    Choices(Options),
    Lots(LotOptions),
    Workers(WorkOptions),
}

/// Which streams get marks of color.
#[derive(Clone, Copy)]
struct Screen {
    output: bool,
    messages: bool,
}

/// Of what kind the text on standard output is, where it gets marks of color; and whether standard error does.
#[derive(Clone, Copy)]
struct Marks {
    output: Option<TextKind>,
    messages: bool,
}

// No marks.
const UNMARKED: Marks = Marks {
    output: None,
    messages: false,
};

/// A run of a source, the file to which its history is written, and marks for what it writes.
#[derive(Drop)]
struct Plan<'a> {
    file: &'a str,
    history: Option<&'a str>,
    schedule: Schedule,
    marks: Marks,
}

/// Says on standard error how many runs of a sample were made, or how many states were found: at a terminal in a line that is written over,
/// and taken away at the end, and elsewhere in lines.
#[derive(Drop)]
struct Progress<'a> {
    rt: &'a HostRuntime,
    is_terminal: bool,
    start: Instant,
    /// The milliseconds from the start on before which nothing is said.
    due: Cell<u128>,
    /// Whether the line is there.
    is_shown: Cell<bool>,
}

/// Keeps the first run of each outcome while a sample is made, where that is asked for, and says how many runs were made.
#[derive(Drop)]
struct SampleWatch<'a> {
    rt: &'a HostRuntime,
    file: &'a str,
    source: &'a [u8],
    options: &'a SampleOptions,
    /// The prefix of the files that get the histories of the first runs.
    prefix: Option<&'a str>,
    progress: Option<Progress<'a>>,
    long: bool,
    /// The status of the first history that wasn't kept; 0 where all were.
    status: Cell<u8>,
}

/// Says how many states a search has found.
#[derive(Drop)]
struct SearchWatch<'a> {
    progress: Option<Progress<'a>>,
}

/// The entries of a page: the first one whose steps are shown, counted from 1, and the last one that is made.
#[derive(Clone, Copy)]
struct EntryRange {
    first: u64,
    last: u64,
}

/// A file that is to get a history, a page or a picture, and whether it was made for that.
#[derive(Drop)]
struct Kept {
    file: File,
    is_new: bool,
}

// Each function here returns the exit status; or the value in its name, with the exit status as its error. Where
// `long` is true, notes are written besides the lines of the standard form.

// Why a file can't be opened, in words.
fn reason_of(fault: &io::Error) -> &'static str {
    match fault.kind() {
        ErrorKind::NotFound => "no such file",
        ErrorKind::PermissionDenied => "permission denied",
        ErrorKind::IsADirectory => "is a folder",
        ErrorKind::NotADirectory => "a part of the path is no folder",
        _ => "can't be opened",
    }
}

// Writes a text for the user of the command line.
fn answered(rt: &HostRuntime, status: u8, text: &[u8]) -> u8 {
    answer(status, text, &mut rt.stdout(), &mut rt.stderr())
}

// Reports that a file can't be read; with `long`, which file and why.
fn say_unopened(rt: &HostRuntime, path: &str, reason: &str, long: bool) -> u8 {
    if long {
        if let Ok(text) = format!(in rt.alloc(); "READ FAULT\n{path}: {reason}\n") {
            return answered(rt, 8, text.as_bytes());
        }
    }
    say_unread(&mut rt.stderr(), ReadFault::Failed)
}

// Reports that a file can't be written; with `long`, which file and why.
fn say_uncreated(rt: &HostRuntime, path: &str, fault: &io::Error, long: bool) -> u8 {
    let reason = match fault.kind() {
        ErrorKind::NotFound => "no such folder",
        _ => reason_of(fault),
    };
    if long {
        if let Ok(text) = format!(in rt.alloc(); "WRITE FAULT AFTER 0\n{path}: {reason}\n") {
            return answered(rt, 8, text.as_bytes());
        }
    }
    say_unwritten(&mut rt.stderr())
}

// Opens a file for reading. A folder can be opened but not read, so with `long` it is tested before.
fn opened(rt: &HostRuntime, path: &str, long: bool) -> Result<File, u8> {
    if long {
        if let Ok(found) = fs::metadata(rt, path) {
            if found.is_dir() {
                return Err(say_unopened(rt, path, "is a folder", long));
            }
        }
    }
    match File::open(rt, path) {
        Ok(file) => Ok(file),
        Err(fault) => Err(say_unopened(rt, path, reason_of(&fault), long)),
    }
}

// A source: standard input, or a file.
fn source_of(rt: &HostRuntime, path: &str, long: bool) -> Result<Source, u8> {
    if path == STANDARD_INPUT {
        return Ok(Source::Standard(rt.stdin()));
    }
    Ok(Source::File(opened(rt, path, long)?))
}

// The bytes of a file of choices or of a history.
fn file_bytes(rt: &HostRuntime, path: &str, long: bool) -> Result<Vec<u8>, u8> {
    let mut file = opened(rt, path, long)?;
    read_text_file(rt.alloc(), &mut file, &mut rt.stderr())
}

// The choices of a file of choices, or those that make the steps of a history.
fn first_choices(
    rt: &HostRuntime,
    choices: Option<&str>,
    follow: Option<&str>,
    long: bool,
) -> Result<Choices, u8> {
    let (alloc, messages) = (rt.alloc(), &mut rt.stderr());
    match (choices, follow) {
        (Some(path), _) => choices_of(alloc, &file_bytes(rt, path, long)?, messages),
        (None, Some(path)) => followed_of(alloc, &file_bytes(rt, path, long)?, messages),
        (None, None) => Ok(Choices::from(Vec::new(alloc))),
    }
}

// Whether both paths name one regular file, whatever their spellings. A device may be read and written.
fn is_one_file(rt: &HostRuntime, path: &str, other: &str) -> bool {
    match (fs::metadata(rt, path), fs::metadata(rt, other)) {
        (Ok(one), Ok(other)) => {
            one.is_file() && one.dev() == other.dev() && one.ino() == other.ino()
        }
        _ => false,
    }
}

// Whether a history or a page would overwrite a file that is read. `read_words` has compared the names only.
fn is_over_read(rt: &HostRuntime, history: Option<&str>, file: &str, first: Option<&str>) -> bool {
    let Some(history) = history else {
        return false;
    };
    is_one_file(rt, history, file) || first.is_some_and(|path| is_one_file(rt, history, path))
}

// Opens a file for writing, with its contents; where there is none, makes it. Where a standard stream is closed, the
// file isn't given its number.
fn writable(rt: &HostRuntime, path: &str) -> io::Result<Kept> {
    let made = File::create_new(rt, path);
    let is_new = made.is_ok();
    let file = match made {
        Err(fault) if fault.kind() == ErrorKind::AlreadyExists => {
            File::options().write(true).create(true).open(rt, path)?
        }
        made => made?,
    };
    Ok(Kept {
        file: file.try_clone()?,
        is_new,
    })
}

// Opens the file for a history or a page. It is opened before the run, so that no run is lost for want of the file.
fn kept_file(rt: &HostRuntime, path: &str, long: bool) -> Result<Kept, u8> {
    match writable(rt, path) {
        Ok(kept) => Ok(kept),
        Err(fault) => Err(say_uncreated(rt, path, &fault, long)),
    }
}

// Removes the contents of a file. A device has none.
fn empty(file: &File) -> io::Result<()> {
    if file.metadata()?.is_file() {
        file.set_len(0)?;
    }
    Ok(())
}

// Replaces the contents of the file by a text.
fn put_contents(
    rt: &HostRuntime,
    path: &str,
    kept: &mut Kept,
    text: &[u8],
    status: u8,
    long: bool,
) -> u8 {
    match empty(&kept.file) {
        Ok(()) => put_text(text, status, &mut kept.file, &mut rt.stderr()),
        Err(fault) => say_uncreated(rt, path, &fault, long),
    }
}

// Removes a file that was made for a history or a page, where there is none.
fn let_go(rt: &HostRuntime, path: &str, kept: &Kept) {
    if kept.is_new {
        let _ = fs::remove_file(rt, path);
    }
}

fn write_history(rt: &HostRuntime, run: &Run, path: &str, kept: &mut Kept, long: bool) -> u8 {
    match history_text(rt.alloc(), run, &mut rt.stderr()) {
        Ok(text) => put_contents(rt, path, kept, &text, run.status, long),
        Err(status) => {
            let_go(rt, path, kept);
            status
        }
    }
}

// Says that memory was refused.
fn say_no_memory(rt: &HostRuntime) -> u8 {
    answered(rt, 7, b"")
}

// Appends to a list.
fn add<T: Drop>(rt: &HostRuntime, all: &mut Vec<T>, item: T) -> Result<(), u8> {
    match all.push(item) {
        Ok(()) => Ok(()),
        Err(_) => Err(say_no_memory(rt)),
    }
}

// Whether an environment variable is set, and isn't empty.
fn is_set(rt: &HostRuntime, name: &str) -> bool {
    match env::var(rt, name) {
        Ok(text) => !text.as_str().is_empty(),
        Err(VarError::NotPresent) => false,
        Err(_) => true,
    }
}

// Whether the terminal is one that shows no color.
fn is_dumb(rt: &HostRuntime) -> bool {
    match env::var(rt, "TERM") {
        Ok(text) => text.as_str() == "dumb",
        Err(_) => false,
    }
}

// Whether a stream gets marks of color.
fn is_marked(rt: &HostRuntime, when: ColorWhen, is_terminal: bool) -> bool {
    match when {
        ColorWhen::Always => true,
        ColorWhen::Never => false,
        ColorWhen::Auto => is_terminal && !is_set(rt, "NO_COLOR") && !is_dumb(rt),
    }
}

fn screen_of(rt: &HostRuntime, when: ColorWhen) -> Screen {
    Screen {
        output: is_marked(rt, when, rt.stdout().is_terminal()),
        messages: is_marked(rt, when, rt.stderr().is_terminal()),
    }
}

// The marks of a text of this kind on a screen.
fn marks_of(screen: Screen, kind: Option<TextKind>) -> Marks {
    Marks {
        output: if screen.output { kind } else { None },
        messages: screen.messages,
    }
}

// Writes a text to a stream, with marks where it is of a kind that gets them; without them where memory is refused.
fn put_marked<W: Write>(
    rt: &HostRuntime,
    text: &[u8],
    kind: Option<TextKind>,
    status: u8,
    stream: &mut W,
) -> u8 {
    if let Some(kind) = kind {
        if let Ok(colored) = color_text(rt.alloc(), text, kind) {
            return put_text(&colored, status, stream, &mut rt.stderr());
        }
    }
    put_text(text, status, stream, &mut rt.stderr())
}

// Writes what was made for both streams, with marks.
fn put_streams(rt: &HostRuntime, output: &[u8], messages: &[u8], marks: Marks, status: u8) -> u8 {
    let written = put_marked(rt, output, marks.output, status, &mut rt.stdout());
    if written != status {
        return written;
    }
    let kind = marks.messages.then_some(TextKind::Outcome);
    put_marked(rt, messages, kind, status, &mut rt.stderr())
}

// Writes what a command gives of a source. Only where there are marks is it kept until all is made.
fn deliver<C: Command>(
    rt: &HostRuntime,
    source: &mut Source,
    options: &C,
    marks: Marks,
    long: bool,
) -> Run {
    let asked = CommandRequest { options, long };
    if marks.output.is_none() && !marks.messages {
        return deliver_source(
            rt.alloc(),
            source,
            &asked,
            &mut rt.stdout(),
            &mut rt.stderr(),
        );
    }
    let (mut output, mut messages) = (Vec::new(rt.alloc()), Vec::new(rt.alloc()));
    let run = deliver_source(rt.alloc(), source, &asked, &mut output, &mut messages);
    Run {
        status: put_streams(rt, &output, &messages, marks, run.status),
        history: run.history,
    }
}

// Writes what a command gives of the source in a file.
fn deliver_file<C: Command>(
    rt: &HostRuntime,
    file: &str,
    options: &C,
    marks: Marks,
    long: bool,
) -> Result<u8, u8> {
    let mut source = source_of(rt, file, long)?;
    Ok(deliver(rt, &mut source, options, marks, long).status)
}

// Writes what is wrong with a source in a format for other programs.
fn check_in_format(
    rt: &HostRuntime,
    file: &str,
    format: DiagnosticFormat,
    warn: bool,
    long: bool,
) -> Result<u8, u8> {
    let mut source = source_of(rt, file, long)?;
    let asked = DiagnosticsRequest {
        file: file.as_bytes(),
        format,
        warn,
    };
    let run = diagnostics_source(
        rt.alloc(),
        &mut source,
        &asked,
        &mut rt.stdout(),
        &mut rt.stderr(),
    );
    Ok(run.status)
}

// Runs a source by workers. `threads` is the runtime itself, which may start threads where it is passed as such.
fn work<H: Threads + Wait + Sync>(
    rt: &HostRuntime,
    threads: &H,
    source: &mut Source,
    asked: (&WorkOptions, Marks),
    long: bool,
) -> Run {
    let (options, marks) = asked;
    let request = WorkRequest {
        threads,
        options,
        gate: &NoGate,
    };
    let asked = CommandRequest {
        options: &request,
        long,
    };
    if !marks.messages {
        return work_noted(
            rt.alloc(),
            source,
            &asked,
            &mut rt.stdout(),
            &mut rt.stderr(),
        );
    }
    let (mut output, mut messages) = (Vec::new(rt.alloc()), Vec::new(rt.alloc()));
    let run = work_noted(rt.alloc(), source, &asked, &mut output, &mut messages);
    Run {
        status: put_streams(rt, &output, &messages, marks, run.status),
        history: run.history,
    }
}

// Runs a source by a plan.
fn run_by<H: Threads + Wait + Sync>(
    rt: &HostRuntime,
    threads: &H,
    source: &mut Source,
    plan: &Plan<'_>,
    long: bool,
) -> Run {
    match &plan.schedule {
        Schedule::Choices(options) => deliver(rt, source, options, plan.marks, long),
        Schedule::Lots(options) => deliver(rt, source, options, plan.marks, long),
        Schedule::Workers(options) => work(rt, threads, source, (options, plan.marks), long),
    }
}

// The path of a kept history, by its prefix and its seed, unless it is that of the source.
fn kept_path(rt: &HostRuntime, file: &str, prefix: &str, seed: u64) -> Result<String, u8> {
    let Ok(path) = format!(in rt.alloc(); "{prefix}.{seed}") else {
        return Err(say_no_memory(rt));
    };
    if is_one_file(rt, path.as_str(), file) {
        return Err(answered(rt, 2, KEPT_OVER.as_bytes()));
    }
    Ok(path)
}

// Writes the history of a run by lots to a file.
fn keep_history(
    rt: &HostRuntime,
    source: &[u8],
    options: &LotOptions,
    path: &str,
    long: bool,
) -> Result<u8, u8> {
    let mut kept = kept_file(rt, path, long)?;
    match lots_history(rt.alloc(), source, options, &mut rt.stderr()) {
        Ok(text) => Ok(put_contents(rt, path, &mut kept, &text, 0, long)),
        Err(status) => {
            let_go(rt, path, &kept);
            Err(status)
        }
    }
}

// Checks that the histories of a sample can be kept. The first run is the first one of its outcome, so its history is
// always kept.
fn look_at_first(
    rt: &HostRuntime,
    file: &str,
    prefix: &str,
    seed: u64,
    long: bool,
) -> Result<(), u8> {
    let path = kept_path(rt, file, prefix, seed)?;
    let kept = kept_file(rt, path.as_str(), long)?;
    let_go(rt, path.as_str(), &kept);
    Ok(())
}

impl Progress<'_> {
    // Takes the line away, if it is there.
    fn take_away(&self) {
        if self.is_shown.replace(false) {
            let _ = self.rt.stderr().write_all(b"\r\x1b[K");
        }
    }

    // Whether something is to be said now; then nothing is said for a while.
    fn is_due(&self) -> bool {
        let Ok(passed) = self.start.elapsed(self.rt) else {
            return false;
        };
        let passed = passed.as_millis();
        if passed < self.due.get() {
            return false;
        }
        let pause = if self.is_terminal { 100 } else { 1_000 };
        self.due.set(passed.saturating_add(pause));
        true
    }

    // Writes a line, if memory wasn't refused for it.
    fn put(&self, line: Result<String, AllocError>) {
        let Ok(line) = line else {
            return;
        };
        let alloc = self.rt.alloc();
        let text = if self.is_terminal {
            format!(in alloc; "\r\x1b[K{line}")
        } else {
            format!(in alloc; "{line}\n")
        };
        if let Ok(text) = text {
            self.is_shown.set(self.is_terminal);
            let _ = self.rt.stderr().write_all(text.as_bytes());
        }
    }

    // Says how many runs were made, where it is time to. At the end a terminal loses the line, and else there is a last one.
    fn say_runs(&self, made: u32, all: u32) {
        if made == all && self.is_terminal {
            self.take_away();
        } else if made == all || self.is_due() {
            self.put(format!(in self.rt.alloc(); "{made} of {all} runs made"));
        }
    }

    // Says how many states were found, where it is time to.
    fn say_states(&self, states: usize) {
        if self.is_due() {
            self.put(format!(in self.rt.alloc(); "{states} states found"));
        }
    }
}

// The progress of a sample or a search, from the beginning on where it is asked for, and else at a terminal after two seconds.
fn progress_of(rt: &HostRuntime, is_asked: bool) -> Option<Progress<'_>> {
    let is_terminal = rt.stderr().is_terminal() && !is_dumb(rt);
    if !is_asked && !is_terminal {
        return None;
    }
    let Ok(start) = Instant::now(rt) else {
        return None;
    };
    Some(Progress {
        rt,
        is_terminal,
        start,
        due: Cell::new(if is_asked { 0 } else { 2_000 }),
        is_shown: Cell::new(false),
    })
}

impl SampleWatch<'_> {
    // Writes the history of the run by a seed to its file.
    fn keep_run(&self, prefix: &str, seed: u64) -> Result<u8, u8> {
        let options = LotOptions {
            arena: self.options.arena,
            steps: self.options.steps,
            seed,
        };
        let path = kept_path(self.rt, self.file, prefix, seed)?;
        keep_history(self.rt, self.source, &options, path.as_str(), self.long)
    }

    // Keeps the run by a seed, if all before it were kept.
    fn keep(&self, prefix: &str, seed: u64) {
        if self.status.get() != 0 {
            return;
        }
        if let Some(progress) = &self.progress {
            progress.take_away();
        }
        self.status.set(match self.keep_run(prefix, seed) {
            Ok(status) => status,
            Err(status) => status,
        });
    }
}

impl Observer for SampleWatch<'_> {
    fn run_made(&self, made: u32, seed: u64, is_first: bool) {
        if is_first {
            if let Some(prefix) = self.prefix {
                self.keep(prefix, seed);
            }
        }
        if let Some(progress) = &self.progress {
            progress.say_runs(made, self.options.runs);
        }
    }
}

// Writes the sample of a source. Only where there are marks is it kept until all is made.
fn sampled(
    rt: &HostRuntime,
    source: &[u8],
    asked: &SampleRequest<'_, SampleWatch<'_>>,
    marks: Marks,
) -> u8 {
    if marks.output.is_none() && !marks.messages {
        return sample_bytes(
            rt.alloc(),
            source,
            asked,
            &mut rt.stdout(),
            &mut rt.stderr(),
        )
        .status;
    }
    let (mut output, mut messages) = (Vec::new(rt.alloc()), Vec::new(rt.alloc()));
    let sample = sample_bytes(rt.alloc(), source, asked, &mut output, &mut messages);
    put_streams(rt, &output, &messages, marks, sample.status)
}

// Samples a source. Where histories have to be kept, those of the first runs are written while it is made.
fn sample_file<'a>(
    rt: &'a HostRuntime,
    file: &'a str,
    asked: &CommandRequest<'a, SampleOptions>,
    watched: (Option<&'a str>, bool),
    screen: Screen,
) -> Result<u8, u8> {
    let (options, long) = (asked.options, asked.long);
    let (keep, progress) = watched;
    let source = read_text_file(
        rt.alloc(),
        &mut source_of(rt, file, long)?,
        &mut rt.stderr(),
    )?;
    if let Some(prefix) = keep {
        look_at_first(rt, file, prefix, options.seed, long)?;
    }
    let observer = SampleWatch {
        rt,
        file,
        source: source.as_slice(),
        options,
        prefix: keep,
        progress: progress_of(rt, progress),
        long,
        status: Cell::new(0),
    };
    let asked = SampleRequest {
        options,
        long,
        observer: &observer,
    };
    let marks = marks_of(screen, Some(TextKind::Outcome));
    let status = sampled(rt, &source, &asked, marks);
    if status != 0 {
        return Ok(status);
    }
    Ok(observer.status.get())
}

// Writes the history of a run by choices to a file.
fn keep_chosen(
    rt: &HostRuntime,
    source: &[u8],
    options: &Options,
    path: &str,
    long: bool,
) -> Result<u8, u8> {
    let mut kept = kept_file(rt, path, long)?;
    match choices_history(rt.alloc(), source, options, &mut rt.stderr()) {
        Ok(text) => Ok(put_contents(rt, path, &mut kept, &text, 0, long)),
        Err(status) => {
            let_go(rt, path, &kept);
            Err(status)
        }
    }
}

impl SearchWatch<'_> {
    // Whether a line may have to be taken away before anything is written.
    fn is_at_terminal(&self) -> bool {
        match &self.progress {
            Some(progress) => progress.is_terminal,
            None => false,
        }
    }

    // Takes the line away, if it is there.
    fn take_away(&self) {
        if let Some(progress) = &self.progress {
            progress.take_away();
        }
    }
}

impl SearchObserver for SearchWatch<'_> {
    fn states_found(&self, states: usize) {
        if let Some(progress) = &self.progress {
            progress.say_states(states);
        }
    }
}

// Explores a source: writes its outcomes, with marks of color where these are wanted. Where there are marks, or progress is said at a
// terminal, it is kept until all is made.
fn explored(
    rt: &HostRuntime,
    source: &[u8],
    asked: &ExploreRequest<'_, SearchWatch<'_>>,
    marks: Marks,
) -> Explored {
    if marks.output.is_none() && !marks.messages && !asked.observer.is_at_terminal() {
        return explore_bytes(
            rt.alloc(),
            source,
            asked,
            &mut rt.stdout(),
            &mut rt.stderr(),
        );
    }
    let (mut output, mut messages) = (Vec::new(rt.alloc()), Vec::new(rt.alloc()));
    let explored = explore_bytes(rt.alloc(), source, asked, &mut output, &mut messages);
    asked.observer.take_away();
    Explored {
        status: put_streams(rt, &output, &messages, marks, explored.status),
        found: explored.found,
    }
}

// Explores a source. If all was written and histories have to be kept, writes one of each outcome.
fn explore_file(
    rt: &HostRuntime,
    file: &str,
    asked: &CommandRequest<'_, ExploreOptions>,
    watched: (Option<&str>, bool),
    screen: Screen,
) -> Result<u8, u8> {
    let (options, long) = (asked.options, asked.long);
    let (keep, progress) = watched;
    let source = read_text_file(
        rt.alloc(),
        &mut source_of(rt, file, long)?,
        &mut rt.stderr(),
    )?;
    if let Some(prefix) = keep {
        look_at_first(rt, file, prefix, 1, long)?;
    }
    let marks = marks_of(screen, Some(TextKind::Outcome));
    let observer = SearchWatch {
        progress: progress_of(rt, progress),
    };
    let asked = ExploreRequest {
        options,
        long,
        observer: &observer,
    };
    let explored = explored(rt, &source, &asked, marks);
    let Some(prefix) = keep else {
        return Ok(explored.status);
    };
    // Where not all was written, none is kept.
    if explored.status == 8 {
        return Ok(8);
    }
    for (index, found) in explored.found.as_slice().iter().enumerate() {
        let Ok(choices) = found.copied_choices(rt.alloc()) else {
            return Err(say_no_memory(rt));
        };
        let options = Options {
            arena: options.arena,
            steps: MOST_STEPS,
            choices,
        };
        let path = kept_path(rt, file, prefix, index as u64 + 1)?;
        let status = keep_chosen(rt, &source, &options, path.as_str(), long)?;
        if status != 0 {
            return Err(status);
        }
    }
    Ok(explored.status)
}

fn bytes_of(word: Option<&str>) -> Option<&[u8]> {
    match word {
        Some(word) => Some(word.as_bytes()),
        None => None,
    }
}

// The run that is looked at, with what its file has.
fn viewed_run<'a>(rt: &HostRuntime, run: &ViewedRun<'a>, long: bool) -> Result<Viewed<'a>, u8>
    requires { IsViewInRange run.now }
{
    let (arena, steps) = (run.arena, run.steps);
    if let Some(path) = run.history {
        return Ok(Viewed::History(path, file_bytes(rt, path, long)?));
    }
    if let Some(seed) = run.seed {
        return Ok(Viewed::Lots(LotOptions { arena, steps, seed }));
    }
    let choices = first_choices(rt, run.choices, None, long)?;
    Ok(Viewed::Choices(Options {
        arena,
        steps,
        choices,
    }))
}

// Where its history comes from.
fn origin_of<'a>(viewed: &'a Viewed<'_>) -> Origin<'a> {
    match viewed {
        Viewed::History(_, text) => Origin::Text(text),
        Viewed::Choices(options) => Origin::Choices(options),
        Viewed::Lots(options) => Origin::Lots(*options),
    }
}

// The runs of files of histories, in order.
fn viewed_files<'a>(
    rt: &HostRuntime,
    paths: &[&'a str],
    long: bool,
) -> Result<Vec<Viewed<'a>>, u8> {
    let mut all = Vec::new(rt.alloc());
    for path in paths {
        let text = file_bytes(rt, *path, long)?;
        add(rt, &mut all, Viewed::History(*path, text))?;
    }
    Ok(all)
}

// Runs by lots, in the order of a sample's.
fn viewed_lots<'a>(rt: &HostRuntime, options: &SampleOptions) -> Result<Vec<Viewed<'a>>, u8> {
    let mut all = Vec::new(rt.alloc());
    for index in 0..options.runs {
        add(rt, &mut all, Viewed::Lots(nth_options(options, index)))?;
    }
    Ok(all)
}

// The one run that is looked at.
fn viewed_one<'a>(rt: &HostRuntime, run: &ViewedRun<'a>, long: bool) -> Result<Vec<Viewed<'a>>, u8>
    requires { IsViewInRange run.now }
{
    let mut all = Vec::new(rt.alloc());
    add(rt, &mut all, viewed_run(rt, run, long)?)?;
    Ok(all)
}

// The seed of the first run by lots, where there are several.
fn first_seed(run: &ViewedRun<'_>) -> u64
    requires { IsViewInRange run.now }
    ensures { IsSeed result }
{
    match run.seed {
        Some(seed) => seed,
        None => 1,
    }
}

// The runs that `cover` looks at.
fn covered<'a>(
    rt: &HostRuntime,
    run: &ViewedRun<'a>,
    runs: Option<u32>,
    histories: &[&'a str],
    long: bool,
) -> Result<Vec<Viewed<'a>>, u8>
    requires { IsViewInRange run.now }
{
    if !histories.is_empty() {
        return viewed_files(rt, histories, long);
    }
    if run.seed.is_none() && runs.is_none() {
        return viewed_one(rt, run, long);
    }
    let options = SampleOptions {
        arena: run.arena,
        steps: run.steps,
        seed: first_seed(run),
        runs: runs.unwrap_or(1),
        json: false,
    };
    viewed_lots(rt, &options)
}

// Where their histories come from.
fn origins_of<'a>(rt: &HostRuntime, all: &'a [Viewed<'_>]) -> Result<Vec<Origin<'a>>, u8> {
    let mut origins = Vec::new(rt.alloc());
    for viewed in all {
        add(rt, &mut origins, origin_of(viewed))?;
    }
    Ok(origins)
}

// Says which of several files has no history, where it is refused.
fn say_refused(rt: &HostRuntime, viewed: &Viewed<'_>) -> Option<u8> {
    let Viewed::History(path, text) = viewed else {
        return None;
    };
    let Err(HistFault::Refused { line, .. }) = read_text(rt.alloc(), text) else {
        return None;
    };
    match format!(in rt.alloc(); "{path}: line {line} is no entry of a history\n") {
        Ok(text) => Some(answered(rt, 2, text.as_bytes())),
        Err(_) => None,
    }
}

// The status of a command that looks at several runs. With `long`, says which history is refused.
fn several_status(rt: &HostRuntime, all: &[Viewed<'_>], status: u8, long: bool) -> u8 {
    if long && status == 2 {
        for viewed in all {
            if let Some(status) = say_refused(rt, viewed) {
                return status;
            }
        }
    }
    status
}

// The run that a job asks for, with the choices of its files; without words it is that of standard input with the
// defaults.
fn plan_of<'a>(rt: &HostRuntime, job: Job<'a>, screen: Screen, long: bool) -> Result<Plan<'a>, u8>
    requires { IsInRange job }
{
    let marks = marks_of(screen, None);
    let Job::Run {
        file,
        arena,
        steps,
        workers,
        seed,
        choices,
        follow,
        history,
    } = job
    else {
        return Ok(Plan {
            file: STANDARD_INPUT,
            history: None,
            schedule: Schedule::Choices(Options::defaults(rt.alloc())),
            marks,
        });
    };
    if is_over_read(rt, history, file, choices.or(follow)) {
        return Err(answered(rt, 2, SAME_FILE.as_bytes()));
    }
    let choices = first_choices(rt, choices, follow, long)?;
    let schedule = match (workers, seed) {
        (Some(workers), _) => Schedule::Workers(WorkOptions {
            arena,
            steps,
            workers,
        }),
        (None, Some(seed)) => Schedule::Lots(LotOptions { arena, steps, seed }),
        (None, None) => Schedule::Choices(Options {
            arena,
            steps,
            choices,
        }),
    };
    Ok(Plan {
        file,
        history,
        schedule,
        marks,
    })
}

// Runs a source.
fn run_file<H: Threads + Wait + Sync>(
    rt: &HostRuntime,
    threads: &H,
    plan: &Plan<'_>,
    long: bool,
) -> Result<u8, u8> {
    let source = &mut source_of(rt, plan.file, long)?;
    let Some(path) = plan.history else {
        return Ok(run_by(rt, threads, source, plan, long).status);
    };
    let mut kept = kept_file(rt, path, long)?;
    let run = run_by(rt, threads, source, plan, long);
    Ok(write_history(rt, &run, path, &mut kept, long))
}

// The lines of a trace that are shown.
fn page_of<'a>(
    first: Option<u64>,
    last: u64,
    process: Option<u64>,
    cell: Option<&'a str>,
) -> LineFilter<'a> {
    LineFilter {
        first: first.unwrap_or(1),
        last,
        process,
        cell: bytes_of(cell),
    }
}

// The kind of the text that is asked for.
fn kind_of(telling: &Inspection<'_>) -> Option<TextKind> {
    match telling {
        Inspection::State | Inspection::Why => Some(TextKind::State),
        Inspection::Trace(_) => Some(TextKind::Trace),
        _ => None,
    }
}

// What is asked of a run for its steps in a form.
fn steps_in<'a>(form: TraceForm, page: LineFilter<'a>) -> Inspection<'a> {
    match form {
        TraceForm::Lines => Inspection::Trace(page),
        TraceForm::Lanes(columns) => Inspection::Lanes(page, columns),
        TraceForm::Json => Inspection::TraceJson(page),
    }
}

// Says what is asked of the first entries of a run, up to the last one that is named.
fn inspect(
    rt: &HostRuntime,
    file: &str,
    run: &ViewedRun<'_>,
    asked: (Inspection<'_>, Option<u64>, Screen),
    long: bool,
) -> Result<u8, u8>
    requires { IsViewInRange run.now }
{
    let viewed = viewed_run(rt, run, long)?;
    let (telling, last, screen) = asked;
    let marks = marks_of(screen, kind_of(&telling));
    let options = InspectionOptions {
        telling,
        origin: origin_of(&viewed),
        entries: last.unwrap_or(u64::MAX),
        arena: run.arena,
    };
    deliver_file(rt, file, &options, marks, long)
}

// Makes the steps of the history in a file again.
fn replay_file(
    rt: &HostRuntime,
    file: &str,
    asked: (&str, u32, Marks),
    long: bool,
) -> Result<u8, u8>
    requires { IsArena asked.1 }
{
    let (history, arena, marks) = asked;
    let history = &file_bytes(rt, history, long)?;
    deliver_file(rt, file, &ReplayOptions { history, arena }, marks, long)
}

// What is asked of a run for a page or a picture.
fn telling_of(form: PageForm, first: u64) -> Inspection<'static> {
    match form {
        PageForm::Html => Inspection::Page(first),
        PageForm::Svg => Inspection::Picture,
    }
}

// Makes the page or the picture of a source by these options, and writes it to a file, which keeps what it has where there is none.
fn write_page(
    rt: &HostRuntime,
    file: &str,
    path: &str,
    options: &InspectionOptions<'_>,
    long: bool,
) -> Result<u8, u8> {
    let mut source = source_of(rt, file, long)?;
    let mut kept = kept_file(rt, path, long)?;
    let mut page = Vec::new(rt.alloc());
    let asked = CommandRequest { options, long };
    let status = deliver_source(
        rt.alloc(),
        &mut source,
        &asked,
        &mut page,
        &mut rt.stderr(),
    ).status;
    if status == 0 {
        return Ok(put_contents(rt, path, &mut kept, &page, 0, long));
    }
    let_go(rt, path, &kept);
    Ok(status)
}

// Writes the page or the picture of a run to a file that isn't read.
fn page_file(
    rt: &HostRuntime,
    file: &str,
    run: &ViewedRun<'_>,
    written: (PageForm, &str, EntryRange),
    long: bool,
) -> Result<u8, u8>
    requires { IsViewInRange run.now }
{
    let (form, path, shown) = written;
    if is_over_read(rt, Some(path), file, run.history.or(run.choices)) {
        return Err(answered(rt, 2, same_page(form).as_bytes()));
    }
    let viewed = viewed_run(rt, run, long)?;
    let options = InspectionOptions {
        telling: telling_of(form, shown.first),
        origin: origin_of(&viewed),
        entries: shown.last,
        arena: run.arena,
    };
    write_page(rt, file, path, &options, long)
}

// Lists the races of a run.
fn races_file(rt: &HostRuntime, file: &str, run: &ViewedRun<'_>, long: bool) -> Result<u8, u8>
    requires { IsViewInRange run.now }
{
    let viewed = viewed_run(rt, run, long)?;
    let options = RacesOptions {
        origin: origin_of(&viewed),
        arena: run.arena,
    };
    deliver_file(rt, file, &options, UNMARKED, long)
}

// Says how often the statement of each line began in runs.
fn cover_file(
    rt: &HostRuntime,
    file: &str,
    all: &[Viewed<'_>],
    options: &CoverOptions<'_>,
    long: bool,
) -> Result<u8, u8> {
    let status = deliver_file(rt, file, options, UNMARKED, long)?;
    Ok(several_status(rt, all, status, long))
}

// Says what differs between two runs.
fn diff_file(
    rt: &HostRuntime,
    file: &str,
    run: &ViewedRun<'_>,
    other: &ViewedRun<'_>,
    long: bool,
) -> Result<u8, u8>
    requires first { IsViewInRange run.now }
    requires second { IsViewInRange other.now }
{
    let both = [viewed_run(rt, run, long)?, viewed_run(rt, other, long)?];
    let options = DiffOptions {
        first: origin_of(&both[0]),
        second: origin_of(&both[1]),
        arena: run.arena,
    };
    let status = deliver_file(rt, file, &options, UNMARKED, long)?;
    Ok(several_status(rt, &both, status, long))
}

// The state, as lines or as objects.
fn state_telling<'a>(json: bool) -> Inspection<'a> {
    if json {
        Inspection::StateJson
    } else {
        Inspection::State
    }
}

// Why processes wait, as lines or as objects.
fn why_telling<'a>(json: bool) -> Inspection<'a> {
    if json {
        Inspection::WhyJson
    } else {
        Inspection::Why
    }
}

// Does a job that looks at runs; no other one is passed.
fn view_job(
    rt: &HostRuntime,
    job: Job<'_>,
    histories: &[&str],
    screen: Screen,
    long: bool,
) -> Result<u8, u8>
    requires { IsInRange job }
{
    match job {
        Job::State {
            file,
            run,
            at,
            json,
        } => inspect(rt, file, &run, (state_telling(json), at, screen), long),
        Job::Trace {
            file,
            run,
            first,
            last,
            process,
            cell,
            form,
        } => {
            let page = page_of(first, last.unwrap_or(u64::MAX), process, cell);
            inspect(rt, file, &run, (steps_in(form, page), last, screen), long)
        }
        Job::Page {
            form,
            file,
            run,
            first,
            last,
            page,
        } => {
            let shown = EntryRange {
                first: first.unwrap_or(1),
                last: last.unwrap_or(u64::MAX),
            };
            page_file(rt, file, &run, (form, page, shown), long)
        }
        Job::Why { file, run, json } => {
            inspect(rt, file, &run, (why_telling(json), None, screen), long)
        }
        Job::Races { file, run } => races_file(rt, file, &run, long),
        Job::Cover {
            file,
            run,
            runs,
            lcov,
        } => {
            let all = covered(rt, &run, runs, histories, long)?;
            let origins = origins_of(rt, &all)?;
            let options = CoverOptions {
                origins: &origins,
                tracefile: bytes_of(lcov.then_some(file)),
                arena: run.arena,
            };
            cover_file(rt, file, &all, &options, long)
        }
        Job::Diff {
            file,
            run,
            other,
            other_seed,
        } => {
            let other = ViewedRun {
                history: other,
                choices: None,
                seed: other_seed,
                arena: run.arena,
                steps: run.steps,
            };
            diff_file(rt, file, &run, &other, long)
        }
        _ => Ok(0),
    }
}

// Does a job.
fn done<H: Threads + Wait + Sync>(
    rt: &HostRuntime,
    threads: &H,
    request: Request<'_>,
) -> Result<u8, u8>
    requires { IsInRange request.job }
{
    let Request {
        job,
        histories,
        long,
        color,
        ..
    } = request;
    let screen = screen_of(rt, color);
    let marks = marks_of(screen, None);
    match job {
        Job::Standard | Job::Run { .. } => {
            run_file(rt, threads, &plan_of(rt, job, screen, long)?, long)
        }
        Job::Check {
            file,
            warn,
            form: CheckForm::Gnu,
        } => check_in_format(rt, file, DiagnosticFormat::Gnu, warn, long),
        Job::Check {
            file,
            warn,
            form: CheckForm::Json,
        } => check_in_format(rt, file, DiagnosticFormat::Json, warn, long),
        Job::Check {
            file,
            warn: false,
            ..
        } => deliver_file(rt, file, &Check, marks, long),
        Job::Check {
            file,
            warn: true,
            ..
        } => deliver_file(
            rt,
            file,
            &Warn,
            marks_of(screen, Some(TextKind::Outcome)),
            long,
        ),
        Job::List { file } => deliver_file(rt, file, &List, marks, long),
        Job::Sample {
            file,
            runs,
            seed,
            arena,
            steps,
            keep,
            progress,
            json,
        } => {
            let options = SampleOptions {
                arena,
                steps,
                seed,
                runs,
                json,
            };
            let asked = CommandRequest {
                options: &options,
                long,
            };
            sample_file(rt, file, &asked, (keep, progress), screen)
        }
        Job::Replay {
            file,
            history,
            arena,
        } => replay_file(rt, file, (history, arena, marks), long),
        Job::Explain {
            first,
            second,
            third,
        } => {
            let usage = explain(rt.alloc(), first, second, third);
            Ok(answered(rt, usage.status, &usage.text))
        }
        Job::Explore {
            file,
            states,
            arena,
            keep,
            progress,
            expect_one,
            expect_status,
        } => {
            let options = ExploreOptions {
                arena,
                states,
                expect_one,
                expect_status,
            };
            let asked = CommandRequest {
                options: &options,
                long,
            };
            explore_file(rt, file, &asked, (keep, progress), screen)
        }
        Job::State { .. }
        | Job::Trace { .. }
        | Job::Page { .. }
        | Job::Why { .. }
        | Job::Races { .. }
        | Job::Cover { .. }
        | Job::Diff { .. } => view_job(rt, job, &histories, screen, long),
    }
}

// The words of the command line, the program's name first.
fn words_of(rt: &HostRuntime) -> io::Result<Vec<String>> {
    let words = env::args(rt)?;
    Ok(words.collect(rt.alloc())?)
}

fn status_of<H: Threads + Wait + Sync>(rt: &HostRuntime, threads: &H) -> Result<u8, u8> {
    let words = match words_of(rt) {
        Ok(words) => words,
        Err(fault) if fault.kind() == ErrorKind::OutOfMemory => {
            return Err(say_no_memory(rt));
        }
        Err(_) => return Err(answered(rt, 2, b"error: a word isn't UTF-8\n")),
    };
    match read_request(rt.alloc(), &words) {
        Ok(request) => done(rt, threads, request),
        Err(usage) => Err(answered(rt, usage.status, &usage.text)),
    }
}

fn main(rt: HostRuntime) -> ExitCode {
    match status_of(&rt, &rt) {
        Ok(status) | Err(status) => ExitCode::from(status),
    }
}
