//! The commands and their words, as a table.

use crate::job::{
    LEAST_WIDTH, MOST_ARENA, MOST_RUNS, MOST_SEED, MOST_STATES, MOST_STATUS, MOST_STEPS,
    MOST_WIDTH, MOST_WORKERS,
};

/// The kinds of words of a command.
#[derive(Clone, Copy)]
pub(crate) enum WordKind {
    /// A word that has to be there.
    Required,
    /// A word that may be left out.
    Optional,
    /// As many words as there are, or none.
    Repeated,
    /// An optional word after another one, without help of its own.
    Further,
    /// An option without a value.
    Flag,
    /// An option with a word as its value.
    Text,
    /// An option with a number between these two as its value.
    Number(u64, u64),
    /// The same, where it may be given more than once.
    Numbers(u64, u64),
}

/// A word of a command, with the name of its value in the help, and its help.
#[derive(Clone, Copy)]
pub(crate) struct WordRow {
    pub(crate) id: &'static str,
    pub(crate) kind: WordKind,
    pub(crate) value: &'static str,
    pub(crate) help: &'static str,
}

/// A command, its help, and its words.
#[derive(Clone, Copy)]
pub(crate) struct CommandRow {
    pub(crate) name: &'static str,
    pub(crate) about: &'static str,
    pub(crate) example: &'static str,
    pub(crate) words: &'static [WordRow],
}

const CHECK_EXAMPLE: &str = "Example: hepf check examples/powers.f
         hepf check --warn examples/quotients.f
         hepf check --format gnu examples/quotients.f";

const RUN_EXAMPLE: &str = "Example: hepf run examples/powers.f --history powers.history";

const SAMPLE_EXAMPLE: &str = "What no lot shows isn't shown never to happen.

Example: hepf sample examples/race.f --runs 1000 --keep race";

const EXPLORE_EXAMPLE: &str = "Example: hepf explore examples/race.f --keep race
         hepf explore examples/pair.f --expect-one --expect-status 0";

const REPLAY_EXAMPLE: &str = "Example: hepf replay examples/powers.f powers.history";

const STATE_EXAMPLE: &str = "Example: hepf state examples/powers.f --at 100";

const TRACE_EXAMPLE: &str = "Example: hepf trace examples/deadlock.f --cell '$A'
         hepf trace examples/race.f --seed 9 --cell N";

const PAGE_EXAMPLE: &str = "Example: hepf page examples/pair.f pair.html
         hepf page examples/race.f race.history race.html";

const PICTURE_EXAMPLE: &str = "Example: hepf picture examples/pair.f pair.svg
         hepf picture examples/race.f race.history race.svg";

const WHY_EXAMPLE: &str = "Example: hepf why examples/deadlock.f";

const RACES_EXAMPLE: &str = "Example: hepf races examples/race.f";

const COVER_EXAMPLE: &str = "Example: hepf cover examples/race.f --runs 100
         hepf cover examples/race.f --format lcov > race.info";

const DIFF_EXAMPLE: &str = "Example: hepf diff examples/race.f --seed 1 --seed 2";

const LIST_EXAMPLE: &str = "Example: hepf list examples/sort.f";

const EXPLAIN_EXAMPLES: &str =
    "Of refusals and statuses the number. Of the rest, in small letters too:
OVERFLOW, DIVIDE, RANGE, UNDEFINED, SHAPE, STEP, FAULT, WAITING, ARENA FULL,
STEP LIMIT, NO MEMORY, WORKERS REFUSED, READ FAULT, WRITE FAULT, REFUSED,
STILL RUNNING, WARNING, DEADLOCK, CIRCLE, RACE, EXPECTED, SEED, STATUS,
STATUS 0 to STATUS 10 and STATUS 70. WORDS lists them all.

Example: hepf explain 304
         hepf explain arena full";

const SOURCE: WordRow = WordRow {
    id: "file",
    kind: WordKind::Required,
    value: "FILE",
    help: "The source",
};

// Notes besides the lines of the standard form.
pub(crate) const LONG: WordRow = WordRow {
    id: "long",
    kind: WordKind::Flag,
    value: "",
    help: "Say more of what went wrong: which file, line or name",
};

// How many states a search has found.
const SEARCH_PROGRESS: WordRow = WordRow {
    id: "progress",
    kind: WordKind::Flag,
    value: "",
    help: "Say on standard error how many states were found",
};

// How many runs of a sample have been made.
const PROGRESS: WordRow = WordRow {
    id: "progress",
    kind: WordKind::Flag,
    value: "",
    help: "Say on standard error how many runs were made",
};

// Whether lines have colors.
const COLOR: WordRow = WordRow {
    id: "color",
    kind: WordKind::Text,
    value: "WHEN",
    help: "Color the lines: auto, always, never [default: auto]",
};

// The warnings of a source that isn't refused.
const WARN: WordRow = WordRow {
    id: "warn",
    kind: WordKind::Flag,
    value: "",
    help: "Say too what may well be a mistake, a line for each",
};

// The lines of a compiler for editors, or objects.
const CHECK_FORMAT: WordRow = WordRow {
    id: "format",
    kind: WordKind::Text,
    value: "FORMAT",
    help: "How to write it: gnu, for editors, or json",
};

// Objects of JSON, for programs.
const JSON_FORMAT: WordRow = WordRow {
    id: "format",
    kind: WordKind::Text,
    value: "FORMAT",
    help: "How to write it: json",
};

// The counts of lines, for programs that show them.
const COVER_FORMAT: WordRow = WordRow {
    id: "format",
    kind: WordKind::Text,
    value: "FORMAT",
    help: "How to write it: lcov, a tracefile that genhtml reads",
};

const ARENA: WordRow = WordRow {
    id: "arena",
    kind: WordKind::Number(1, MOST_ARENA as u64),
    value: "N",
    help: "Cells of storage, 1 to 16777216 [default: 65536]",
};

const STEPS: WordRow = WordRow {
    id: "steps",
    kind: WordKind::Number(1, MOST_STEPS),
    value: "N",
    help: "Entries at most, 1 to 4294967296 [default: 10000000]",
};

const WORKERS: WordRow = WordRow {
    id: "workers",
    kind: WordKind::Number(1, MOST_WORKERS),
    value: "N",
    help: "Run by so many threads, 1 to 16",
};

const SEED: WordRow = WordRow {
    id: "seed",
    kind: WordKind::Number(1, MOST_SEED),
    value: "N",
    help: "Draw lots who comes next, by seed 1 to 4294967296",
};

const CHOICES: WordRow = WordRow {
    id: "choices",
    kind: WordKind::Text,
    value: "FILE",
    help: "The processes chosen first, one a line",
};

// The history that a run begins with.
const FOLLOW: WordRow = WordRow {
    id: "follow",
    kind: WordKind::Text,
    value: "HISTORY",
    help: "A history whose steps are made first",
};

// The history that a run writes.
const WRITTEN_HISTORY: WordRow = WordRow {
    id: "history",
    kind: WordKind::Text,
    value: "FILE",
    help: "Gets the history: process and steps, an entry a line",
};

const RUNS: WordRow = WordRow {
    id: "runs",
    kind: WordKind::Number(1, MOST_RUNS),
    value: "N",
    help: "Runs, 1 to 1000000 [default: 100]",
};

const FIRST_SEED: WordRow = WordRow {
    id: "seed",
    kind: WordKind::Number(1, MOST_SEED),
    value: "N",
    help: "The seed of the first run, 1 to 4294967296 [default: 1]",
};

const KEEP: WordRow = WordRow {
    id: "keep",
    kind: WordKind::Text,
    value: "PREFIX",
    help: "Keep the first history of each outcome in PREFIX.SEED",
};

const STATES: WordRow = WordRow {
    id: "states",
    kind: WordKind::Number(1, MOST_STATES),
    value: "N",
    help: "States at most, 1 to 16777216 [default: 1000000]",
};

// What is expected of the outcomes.
const EXPECT_ONE: WordRow = WordRow {
    id: "expect-one",
    kind: WordKind::Flag,
    value: "",
    help: "Status 10 where there are several outcomes, or none",
};

const EXPECT_STATUS: WordRow = WordRow {
    id: "expect-status",
    kind: WordKind::Number(0, MOST_STATUS),
    value: "N",
    help: "Status 10 where an outcome hasn't status N, 0 to 9",
};

const EXPLORED: WordRow = WordRow {
    id: "keep",
    kind: WordKind::Text,
    value: "PREFIX",
    help: "Keep a history of each outcome in PREFIX.NUMBER",
};

// The first part of an existing history.
const HISTORY: WordRow = WordRow {
    id: "history",
    kind: WordKind::Required,
    value: "HISTORY",
    help: "A history that `run --history` wrote, or some first lines of it",
};

// The same, where a run may be made in its place.
const VIEWED_HISTORY: WordRow = WordRow {
    id: "history",
    kind: WordKind::Optional,
    value: "HISTORY",
    help: "A history, or first lines of it [default: of a serial run]",
};

const OTHER_HISTORY: WordRow = WordRow {
    id: "other",
    kind: WordKind::Optional,
    value: "HISTORY",
    help: "Another one [default: of a serial run]",
};

const HISTORIES: WordRow = WordRow {
    id: "histories",
    kind: WordKind::Repeated,
    value: "HISTORY",
    help: "Histories, or first lines of them [default: of a serial run]",
};

// The last two words of `page`: the file that gets the page, or a history and then this file.
const PAGE_OR_HISTORY: WordRow = WordRow {
    id: "history",
    kind: WordKind::Required,
    value: "OUT",
    help: "Gets the page in HTML; a history where one more word follows",
};

const PAGE_LAST: WordRow = WordRow {
    id: "page",
    kind: WordKind::Optional,
    value: "OUT",
    help: "Gets the page of that history",
};

// The last two words of `picture`, likewise.
const PICTURE_OR_HISTORY: WordRow = WordRow {
    id: "history",
    kind: WordKind::Required,
    value: "OUT",
    help: "Gets the picture in SVG; a history where one more word follows",
};

const PICTURE_LAST: WordRow = WordRow {
    id: "page",
    kind: WordKind::Optional,
    value: "OUT",
    help: "Gets the picture of that history",
};

// The runs that are made for a view.
const VIEWED_CHOICES: WordRow = WordRow {
    id: "choices",
    kind: WordKind::Text,
    value: "FILE",
    help: "Look at the run by these choices, a process a line",
};

const VIEWED_SEED: WordRow = WordRow {
    id: "seed",
    kind: WordKind::Number(1, MOST_SEED),
    value: "N",
    help: "Look at the run by lots of seed 1 to 4294967296",
};

const COVERED_SEED: WordRow = WordRow {
    id: "seed",
    kind: WordKind::Number(1, MOST_SEED),
    value: "N",
    help: "The seed of the first run by lots, 1 to 4294967296",
};

const COVERED_RUNS: WordRow = WordRow {
    id: "runs",
    kind: WordKind::Number(1, MOST_RUNS),
    value: "N",
    help: "Runs by lots, 1 to 1000000",
};

const COMPARED_SEEDS: WordRow = WordRow {
    id: "seed",
    kind: WordKind::Numbers(1, MOST_SEED),
    value: "N",
    help: "Compare the run by lots of seed 1 to 4294967296, or two",
};

const ENTRIES: WordRow = WordRow {
    id: "at",
    kind: WordKind::Number(0, MOST_STEPS),
    value: "K",
    help: "After how many entries [default: all]",
};

const FIRST_ENTRY: WordRow = WordRow {
    id: "from",
    kind: WordKind::Number(1, MOST_STEPS),
    value: "K",
    help: "The first entry to show [default: 1]",
};

const LAST_ENTRY: WordRow = WordRow {
    id: "to",
    kind: WordKind::Number(1, MOST_STEPS),
    value: "K",
    help: "The last entry to make [default: all]",
};

const PROCESS: WordRow = WordRow {
    id: "process",
    kind: WordKind::Number(1, MOST_STEPS),
    value: "P",
    help: "Show the steps of this process alone",
};

const CELL: WordRow = WordRow {
    id: "cell",
    kind: WordKind::Text,
    value: "NAME",
    help: "Show the accesses to variables of this name alone",
};

const LANES: WordRow = WordRow {
    id: "lanes",
    kind: WordKind::Flag,
    value: "",
    help: "Draw the steps as lanes of processes, side by side",
};

const LANES_WIDTH: WordRow = WordRow {
    id: "width",
    kind: WordKind::Number(LEAST_WIDTH, MOST_WIDTH),
    value: "W",
    help: "Columns of the lanes, 40 to 400 [default: 80]",
};

// The first word of an explained name.
const NAME: WordRow = WordRow {
    id: "first",
    kind: WordKind::Optional,
    value: "WORD..",
    help: "A number of a refusal or a status, or a name below [default: WORDS]",
};

const SECOND: WordRow = WordRow {
    id: "second",
    kind: WordKind::Further,
    value: "WORD",
    help: "",
};

const THIRD: WordRow = WordRow {
    id: "third",
    kind: WordKind::Further,
    value: "WORD",
    help: "",
};

/// The commands that check and run a source. All commands as one constant take more steps of a proof than there are.
pub(crate) const RUNNING: [CommandRow; 5] = [
    CommandRow {
        name: "check",
        about: "Say why a source can't run, and nothing if it can",
        example: CHECK_EXAMPLE,
        words: &[SOURCE, WARN, CHECK_FORMAT, COLOR, LONG],
    },
    CommandRow {
        name: "run",
        about: "Run a source",
        example: RUN_EXAMPLE,
        words: &[
            SOURCE,
            ARENA,
            STEPS,
            WORKERS,
            SEED,
            CHOICES,
            FOLLOW,
            WRITTEN_HISTORY,
            COLOR,
            LONG,
        ],
    },
    CommandRow {
        name: "sample",
        about: "Run a source by lots many times and count what comes",
        example: SAMPLE_EXAMPLE,
        words: &[
            SOURCE,
            RUNS,
            FIRST_SEED,
            ARENA,
            STEPS,
            KEEP,
            JSON_FORMAT,
            PROGRESS,
            COLOR,
            LONG,
        ],
    },
    CommandRow {
        name: "explore",
        about: "Find every outcome that a source may have, over all choices",
        example: EXPLORE_EXAMPLE,
        words: &[
            SOURCE,
            STATES,
            ARENA,
            EXPECT_ONE,
            EXPECT_STATUS,
            EXPLORED,
            SEARCH_PROGRESS,
            COLOR,
            LONG,
        ],
    },
    CommandRow {
        name: "replay",
        about: "Make the steps of a history again",
        example: REPLAY_EXAMPLE,
        words: &[SOURCE, HISTORY, ARENA, COLOR, LONG],
    },
];

/// The commands that look at runs.
pub(crate) const LOOKING: [CommandRow; 8] = [
    CommandRow {
        name: "state",
        about: "Say what everything holds after the first entries of a history",
        example: STATE_EXAMPLE,
        words: &[
            SOURCE,
            VIEWED_HISTORY,
            ENTRIES,
            VIEWED_CHOICES,
            VIEWED_SEED,
            JSON_FORMAT,
            ARENA,
            STEPS,
            COLOR,
            LONG,
        ],
    },
    CommandRow {
        name: "trace",
        about: "Say what each step of a history did, a line a step",
        example: TRACE_EXAMPLE,
        words: &[
            SOURCE,
            VIEWED_HISTORY,
            FIRST_ENTRY,
            LAST_ENTRY,
            PROCESS,
            CELL,
            LANES,
            LANES_WIDTH,
            JSON_FORMAT,
            VIEWED_CHOICES,
            VIEWED_SEED,
            ARENA,
            STEPS,
            COLOR,
            LONG,
        ],
    },
    CommandRow {
        name: "page",
        about: "Write a page that shows a run step by step in a browser",
        example: PAGE_EXAMPLE,
        words: &[
            SOURCE,
            PAGE_OR_HISTORY,
            PAGE_LAST,
            FIRST_ENTRY,
            LAST_ENTRY,
            VIEWED_CHOICES,
            VIEWED_SEED,
            ARENA,
            STEPS,
            LONG,
        ],
    },
    CommandRow {
        name: "picture",
        about: "Draw a run as lanes of processes, in SVG",
        example: PICTURE_EXAMPLE,
        words: &[
            SOURCE,
            PICTURE_OR_HISTORY,
            PICTURE_LAST,
            VIEWED_CHOICES,
            VIEWED_SEED,
            ARENA,
            STEPS,
            LONG,
        ],
    },
    CommandRow {
        name: "why",
        about: "Say why processes wait after a history, and who waits in a circle",
        example: WHY_EXAMPLE,
        words: &[
            SOURCE,
            VIEWED_HISTORY,
            VIEWED_CHOICES,
            VIEWED_SEED,
            JSON_FORMAT,
            ARENA,
            STEPS,
            COLOR,
            LONG,
        ],
    },
    CommandRow {
        name: "races",
        about: "Say which accesses of processes to plain variables race",
        example: RACES_EXAMPLE,
        words: &[
            SOURCE,
            VIEWED_HISTORY,
            VIEWED_CHOICES,
            VIEWED_SEED,
            ARENA,
            STEPS,
            COLOR,
            LONG,
        ],
    },
    CommandRow {
        name: "cover",
        about: "Say how often the statement of each line began in histories",
        example: COVER_EXAMPLE,
        words: &[
            SOURCE,
            HISTORIES,
            VIEWED_CHOICES,
            COVERED_SEED,
            COVERED_RUNS,
            COVER_FORMAT,
            ARENA,
            STEPS,
            COLOR,
            LONG,
        ],
    },
    CommandRow {
        name: "diff",
        about: "Say what differs between the runs of two histories",
        example: DIFF_EXAMPLE,
        words: &[
            SOURCE,
            VIEWED_HISTORY,
            OTHER_HISTORY,
            VIEWED_CHOICES,
            COMPARED_SEEDS,
            ARENA,
            STEPS,
            COLOR,
            LONG,
        ],
    },
];

/// The commands that list and explain.
pub(crate) const SAYING: [CommandRow; 2] = [
    CommandRow {
        name: "list",
        about: "List the units and common blocks of a source with their cells",
        example: LIST_EXAMPLE,
        words: &[SOURCE, COLOR, LONG],
    },
    CommandRow {
        name: "explain",
        about: "Say what a line or a status means and what to do about it",
        example: EXPLAIN_EXAMPLES,
        words: &[NAME, SECOND, THIRD, LONG],
    },
];
