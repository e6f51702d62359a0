//! The jobs that a command line may ask for.
ghost use Rattle.std.specs.Prelude.{◌≡◌, ◌⊎◌};
ghost use Rattle.hep_command.specs.Jobs.{IsWant};

use std::alloc::Global;

/// The number of cells of the arena of a run, where no option gives it.
pub const ARENA: u32 = 65_536;

/// The greatest number of cells of an arena.
pub const MOST_ARENA: u32 = 16_777_216;

/// The greatest number of entries of a history, where no option gives it.
pub const STEPS: u64 = 10_000_000;

/// The greatest number of entries that an option may give.
pub const MOST_STEPS: u64 = 4_294_967_296;

/// The greatest number of workers that an option may give.
pub const MOST_WORKERS: u64 = 16;

/// The greatest seed of lots.
pub const MOST_SEED: u64 = 4_294_967_296;

/// The seed of a sample's first run, where no option gives it.
pub const FIRST_SEED: u64 = 1;

/// The number of runs of a sample, where no option gives it.
pub const RUNS: u64 = 100;

/// The greatest number of runs of a sample.
pub const MOST_RUNS: u64 = 1_000_000;

/// The columns of lanes, where no option gives them.
pub const WIDTH: u32 = 80;

/// The fewest columns that lanes may have.
pub const LEAST_WIDTH: u64 = 40;

/// The most.
pub const MOST_WIDTH: u64 = 400;

/// The number of states of a search, where no option gives it.
pub const STATES: u64 = 1_000_000;

/// The greatest number of states of a search.
pub const MOST_STATES: u64 = 16_777_216;

/// The greatest status that outcomes may be expected to have.
pub const MOST_STATUS: u64 = 9;

/// Which run is looked at: the one of a history, where its file is named; else one that is made for it, by choices, by lots or serial.
#[derive(Clone, Copy)]
pub struct ViewedRun<'a> {
    /// The file of the history.
    pub history: Option<&'a str>,
    /// The file of the choices.
    pub choices: Option<&'a str>,
    /// The seed of the lots, 1 to 4,294,967,296.
    pub seed: Option<u64>,
    /// The cells of the arena, 1 to 16,777,216.
    pub arena: u32,
    /// The entries that the history of a run that is made may have, 1 to 4,294,967,296.
    pub steps: u64,
}

/// How what is wrong with a source is written.
#[derive(Clone, Copy)]
pub enum CheckForm {
    /// Lines of the standard form.
    Lines,
    /// The lines that GNU compilers write, for editors.
    Gnu,
    /// An object of JSON a line.
    Json,
}

/// How the steps of a history are written.
#[derive(Clone, Copy)]
pub enum TraceForm {
    /// A line a step.
    Lines,
    /// As lanes of processes, in so many columns, 40 to 400.
    Lanes(u32),
    /// An object of JSON a step.
    Json,
}

/// What is written of a run for a browser.
#[derive(Clone, Copy)]
pub enum PageForm {
    /// A page in HTML, which shows it step by step.
    Html,
    /// A picture in SVG.
    Svg,
}

/// What a command line asks for. Files go by their paths, and a source by `-` is standard input.
#[derive(Clone, Copy)]
pub enum Job<'a> {
    /// Run the source on standard input with the defaults: there are no words.
    Standard,
    /// Report why a source is refused, if it is.
    Check {
        file: &'a str,
        /// Whether probable mistakes are reported too.
        warn: bool,
        form: CheckForm,
    },
    /// Run a source.
    Run {
        file: &'a str,
        /// The cells of the arena, 1 to 16,777,216.
        arena: u32,
        /// The greatest number of entries of the history, 1 to 4,294,967,296.
        steps: u64,
        /// The number of workers, 1 to 16. Without them the run is serial.
        workers: Option<u32>,
        /// The seed of the lots, 1 to 4,294,967,296, for a run by lots.
        seed: Option<u64>,
        /// The file of the choices, for a serial run only.
        choices: Option<&'a str>,
        /// The file of the history whose steps are made first, for a serial run without choices only.
        follow: Option<&'a str>,
        /// The file to which the history is written.
        history: Option<&'a str>,
    },
    /// Run a source by lots, once for each of a number of seeds, and count the outcomes.
    Sample {
        file: &'a str,
        /// The number of runs, 1 to 1,000,000.
        runs: u32,
        /// The seed of the first run, 1 to 4,294,967,296.
        seed: u64,
        /// The cells of the arena, 1 to 16,777,216.
        arena: u32,
        /// The greatest number of entries of the history of a run, 1 to 4,294,967,296.
        steps: u64,
        /// The prefix of the files to which the histories of the first runs are written.
        keep: Option<&'a str>,
        /// Whether it is said from the first run on how many have been made.
        progress: bool,
        /// Whether the outcomes are objects of JSON.
        json: bool,
    },
    /// Search all states of a source, and list its outcomes.
    Explore {
        file: &'a str,
        /// The greatest number of states, 1 to 16,777,216.
        states: u32,
        /// The cells of the arena, 1 to 16,777,216.
        arena: u32,
        /// The prefix of the files to which a history of each outcome is written.
        keep: Option<&'a str>,
        /// Whether it is said from the first state on how many have been found.
        progress: bool,
        /// Whether just one outcome is expected.
        expect_one: bool,
        /// The status that each outcome is expected to have, 0 to 9.
        expect_status: Option<u8>,
    },
    /// Make the steps of a history again.
    Replay {
        file: &'a str,
        history: &'a str,
        /// The cells of the arena, 1 to 16,777,216.
        arena: u32,
    },
    /// Show the state after the first entries of a history.
    State {
        file: &'a str,
        run: ViewedRun<'a>,
        /// After how many entries; after all of them where none is said.
        at: Option<u64>,
        /// Whether processes and variables are objects of JSON.
        json: bool,
    },
    /// Show what each step of a history did, or some of them.
    Trace {
        file: &'a str,
        run: ViewedRun<'a>,
        /// The first entry whose lines are shown, counted from 1; the first one where none is said.
        first: Option<u64>,
        /// The last entry that is made; the last one of all where it isn't given.
        last: Option<u64>,
        /// The process whose lines are shown; all processes where it isn't given.
        process: Option<u64>,
        /// The name of the variable whose accesses are shown; all steps where it isn't given.
        cell: Option<&'a str>,
        form: TraceForm,
    },
    /// Write a page that shows each step of a run, or its picture.
    Page {
        form: PageForm,
        file: &'a str,
        run: ViewedRun<'a>,
        /// The first entry whose steps are shown, counted from 1; the first one where none is said, as of a picture.
        first: Option<u64>,
        /// The last entry that is made; the last one of all where it isn't given.
        last: Option<u64>,
        /// The file to which it is written.
        page: &'a str,
    },
    /// Show why processes wait after a history.
    Why {
        file: &'a str,
        run: ViewedRun<'a>,
        /// Whether those that wait and their circles are objects of JSON.
        json: bool,
    },
    /// List the races of a history.
    Races {
        file: &'a str,
        run: ViewedRun<'a>,
    },
    /// To say how often the statement of each line began in histories.
    Cover {
        file: &'a str,
        /// The first run, where the request has more histories.
        run: ViewedRun<'a>,
        /// How many runs by lots there are, 1 to 1,000,000, by one seed after the other.
        runs: Option<u32>,
        /// Whether the counts are written as a tracefile of lcov.
        lcov: bool,
    },
    /// To say what differs between two runs.
    Diff {
        file: &'a str,
        /// The first run.
        run: ViewedRun<'a>,
        /// The file of the second run's history.
        other: Option<&'a str>,
        /// The seed of its lots, 1 to 4,294,967,296; without both it is serial.
        other_seed: Option<u64>,
    },
    /// List the units and common blocks of a source with their cells.
    List {
        file: &'a str,
    },
    /// Explain a refusal, a fault, another end of a run or an exit status, by its name.
    Explain {
        first: &'a str,
        second: Option<&'a str>,
        third: Option<&'a str>,
    },
}

/// When lines have colors.
#[derive(Clone, Copy)]
pub enum ColorWhen {
    /// Where they go to a terminal.
    Auto,
    Always,
    Never,
}

/// A job, with the options that most commands have.
#[derive(Drop)]
pub struct Request<'a> {
    pub job: Job<'a>,
    /// The files of the histories of `cover`, in order; none for another job.
    pub histories: Vec<&'a str>,
    /// Whether notes are written besides the lines of the standard form.
    pub long: bool,
    pub color: ColorWhen,
}

/// A text for the user of the command line, and an exit status.
#[derive(Drop)]
pub struct Usage {
    /// 0 for help, the version and an explanation, which are written to standard output; 2 for a mistake in the
    /// command line, which is written to standard error; 7 where memory was refused, with no text.
    pub status: u8,
    pub text: Vec<u8>,
}

impl Usage {
    pub(crate) fn no_memory(alloc: Global) -> Usage
        ensures { IsWant result }
    {
        Usage {
            status: 7,
            text: Vec::new(alloc),
        }
    }

    /// This text, unless memory is refused for it.
    pub(crate) fn of_text(alloc: Global, status: u8, text: &str) -> Usage
        ensures { ((result.status ≡ status) × (result.text.items ≡ text.now)) ⊎ IsWant result }
    {
        match Vec::from_slice(alloc, text.as_bytes()) {
            Ok(text) => Usage { status, text },
            Err(_) => Usage::no_memory(alloc),
        }
    }
}
