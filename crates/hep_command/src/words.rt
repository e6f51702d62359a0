//! The words of a command line.
ghost use Rattle.std.specs.Prelude.{◌≡◌, ◌⊎◌, ◌≤◌, false, true, IfOk, IfErr, IfNone, IfSome, Some, map, option_map, [], codes};
ghost use Rattle.clap.specs.Words.{FailsBy, HasMatchesOf, app_of, fault_of, is_simple_and_free, kind_of, subcommand_rows_of, all_of};
ghost use Rattle.hep_command.specs.Program.{IsAskedBy, IsMistaken, IsStatusFor, asked};
ghost use Rattle.std.specs.Option.{unwrap_or};
ghost use Rattle.hep_command.specs.Numbers.{number_within, option_number};
ghost use Rattle.hep_command.specs.Asked.{asked_by, arena_in, check_in, command_in, command_place, explain_in, heard, is_given, is_help_of_help, is_version};
ghost use Rattle.hep_command.specs.Asked.{entries_in, is_long_in, is_word, job_in, cover_in, diff_in, histories_in, list_in, ordinal_in, replay_in, run_in, state_in, steps_in, trace_in, why_in, races_in, word_of, words_found};
ghost use Rattle.hep_command.specs.Asked.{check_form_in, color_by, color_in, colored_in, covered_in, format_in, other_seed_in, page_in, trace_form_in, viewed_by, viewed_in, width_in};
ghost use Rattle.hep_command.specs.Asked.{expected_status_in, explore_in, first_seed_in, runs_in, sample_in, seed_in, states_in, workers_in};
ghost use Rattle.hep_command.specs.Jobs.{IsInRange, IsNoPath, IsOneOrder, IsOneRun, IsUsage, IsViewInRange, IsWant, IsTraceForm, IsWrittenApart, page_mistake, usage_status};

use crate::job::{
    ARENA, CheckForm, ColorWhen, FIRST_SEED, Job, LEAST_WIDTH, MOST_ARENA, MOST_RUNS, MOST_SEED,
    MOST_STATES, MOST_STATUS, MOST_STEPS, MOST_WIDTH, MOST_WORKERS, PageForm, RUNS, Request,
    STATES, STEPS, TraceForm, Usage, ViewedRun, WIDTH,
};
use crate::program::program;
use crate::usage_mistakes::said;
use clap::error::ErrorKind;
use clap::{ArgMatches, Command, Error};
use std::alloc::{AllocError, Global};
use std::convert::AsStr;

// What is said of words that `clap` took and that have no meaning here: more than two seeds of `diff`. But for names of formats no others
// are known: `clap` has checked what a command needs, but promises it of a program without commands only.
const MISTAKE: &str = "error: these words have no meaning\n";

// The message where the format of a command has another name.
const NO_FORMAT: &str =
    "error: --format takes gnu or json for check, lcov for cover, and json for sample, state, trace and why\n";

// The message where lines would have colors at another time.
const NO_COLOR: &str = "error: --color takes auto, always or never\n";

// The message where lanes are to be written in a format, which have none.
const LANES_TOO: &str = "USAGE: --lanes excludes --format\n";

// The message where a width is given and no lanes.
const NO_LANES: &str = "USAGE: --width needs --lanes\n";

/// The message where the history would be written to a file that is read.
pub const SAME_FILE: &str = "error: --history names a file that is read\n";

/// The message where the page would be written to one.
pub const SAME_PAGE: &str = "error: the page would be written to a file that is read\n";

/// The message where the picture would be written to one.
pub const SAME_PICTURE: &str = "error: the picture would be written to a file that is read\n";

/// The message where both choices and workers are given, since both decide which process comes next.
pub const TWO_ORDERS: &str = "USAGE: --choices excludes --workers\n";

/// The message where a seed is given besides choices or workers, for the same reason.
pub const LOTS_TOO: &str = "USAGE: --seed excludes --choices and --workers\n";

/// The message where a history to follow is given besides one of these, for the same reason.
pub const FOLLOW_TOO: &str = "USAGE: --follow excludes --choices, --seed and --workers\n";

/// What is said where two of a history, choices and lots say which run is looked at.
pub const TWO_RUNS: &str = "USAGE: HISTORY, --choices and --seed or --runs exclude each other\n";

// The name that `explain` explains where no word is given.
const ALL_WORDS: &str = "WORDS";

// What `version` is heard as.
const VERSION_WORDS: &[&str] = &["hepf", "--version"];

// The number of a text of decimal digits, if it lies in the range. For options `clap` has checked this already; it is
// read again from the text, so that the job's number is that of the word.
pub(crate) fn number_within(text: &str, least: u64, most: u64) -> Option<u64>
    ensures { result ≡ number_within least most text.now }
{
    match text.parse::<u64>() {
        Ok(number) if least <= number && number <= most => Some(number),
        _ => None,
    }
}

// The word that was found for an argument.
fn word_of<'a>(found: &ArgMatches<'a>, id: &str) -> Option<&'a str>
    ensures { option_map (λ word. word.now) result ≡ word_of found.now id.now }
{
    found.get_str(id)
}

// The number of an option, `other` where it isn't given.
fn number_of(found: &ArgMatches<'_>, id: &str, most: u64, other: u64) -> Option<u64>
    requires { (1 ≤ other) × (other ≤ most) }
    ensures range { IfSome result (λ n. (1 ≤ n) × (n ≤ most)) }
    ensures number { result ≡ option_number most other (word_of found.now id.now) }
{
    match word_of(found, id) {
        Some(text) => number_within(text, 1, most),
        None => Some(other),
    }
}

fn arena_of(found: &ArgMatches<'_>) -> Option<u32>
    ensures range { IfSome result (λ n. (1 ≤ n) × (n ≤ 16777216)) }
    ensures number { result ≡ arena_in (words_found found.now) }
{
    let cells = number_of(found, "arena", u64::from(MOST_ARENA), u64::from(ARENA))?;
    Some(cells as u32)
}

fn steps_of(found: &ArgMatches<'_>) -> Option<u64>
    ensures range { IfSome result (λ n. (1 ≤ n) × (n ≤ 4294967296)) }
    ensures number { result ≡ steps_in (words_found found.now) }
{
    number_of(found, "steps", MOST_STEPS, STEPS)
}

// The number of workers, if the option is given.
fn workers_of(found: &ArgMatches<'_>) -> Option<Option<u32>>
    ensures range { IfSome result (λ workers. IfSome workers (λ n. (1 ≤ n) × (n ≤ 16))) }
    ensures number { result ≡ workers_in (words_found found.now) }
{
    let Some(text) = word_of(found, "workers") else {
        return Some(None);
    };
    let workers = number_within(text, 1, MOST_WORKERS)?;
    Some(Some(workers as u32))
}

// The seed of a run by lots, where the option is given.
fn seed_of(found: &ArgMatches<'_>) -> Option<Option<u64>>
    ensures range { IfSome result (λ seed. IfSome seed (λ n. (1 ≤ n) × (n ≤ 4294967296))) }
    ensures number { result ≡ seed_in (words_found found.now) }
{
    let Some(text) = word_of(found, "seed") else {
        return Some(None);
    };
    Some(Some(number_within(text, 1, MOST_SEED)?))
}

fn first_seed_of(found: &ArgMatches<'_>) -> Option<u64>
    ensures range { IfSome result (λ n. (1 ≤ n) × (n ≤ 4294967296)) }
    ensures number { result ≡ first_seed_in (words_found found.now) }
{
    number_of(found, "seed", MOST_SEED, FIRST_SEED)
}

fn runs_of(found: &ArgMatches<'_>) -> Option<u32>
    ensures range { IfSome result (λ n. (1 ≤ n) × (n ≤ 1000000)) }
    ensures number { result ≡ runs_in (words_found found.now) }
{
    let runs = number_of(found, "runs", MOST_RUNS, RUNS)?;
    Some(runs as u32)
}

// Whether the format of a command, which has this name, is given; none where another name is.
fn format_of(found: &ArgMatches<'_>, name: &str) -> Option<bool>
    ensures { result ≡ format_in name.now (words_found found.now) }
{
    match word_of(found, "format") {
        None => Some(false),
        Some(word) if word == name => Some(true),
        Some(_) => None,
    }
}

// How `check` writes, by the name of its format; none where it has another name.
fn check_form_of(found: &ArgMatches<'_>) -> Option<CheckForm>
    ensures { result ≡ check_form_in (words_found found.now) }
{
    match word_of(found, "format") {
        None => Some(CheckForm::Lines),
        Some(word) if word == "gnu" => Some(CheckForm::Gnu),
        Some(word) if word == "json" => Some(CheckForm::Json),
        Some(_) => None,
    }
}

fn check_job<'a>(found: &ArgMatches<'a>) -> Option<Job<'a>>
    ensures range { IfSome result IsInRange }
    ensures job { option_map asked_by result ≡ check_in (words_found found.now) }
{
    Some(Job::Check {
        file: word_of(found, "file")?,
        warn: is_given(found, "warn"),
        form: check_form_of(found)?,
    })
}

fn run_job<'a>(found: &ArgMatches<'a>) -> Option<Job<'a>>
    ensures range { IfSome result IsInRange }
    ensures job { option_map asked_by result ≡ run_in (words_found found.now) }
{
    Some(Job::Run {
        file: word_of(found, "file")?,
        arena: arena_of(found)?,
        steps: steps_of(found)?,
        workers: workers_of(found)?,
        seed: seed_of(found)?,
        choices: word_of(found, "choices"),
        follow: word_of(found, "follow"),
        history: word_of(found, "history"),
    })
}

fn sample_job<'a>(found: &ArgMatches<'a>) -> Option<Job<'a>>
    ensures range { IfSome result IsInRange }
    ensures job { option_map asked_by result ≡ sample_in (words_found found.now) }
{
    Some(Job::Sample {
        file: word_of(found, "file")?,
        runs: runs_of(found)?,
        seed: first_seed_of(found)?,
        arena: arena_of(found)?,
        steps: steps_of(found)?,
        keep: word_of(found, "keep"),
        progress: is_given(found, "progress"),
        json: format_of(found, "json")?,
    })
}

fn states_of(found: &ArgMatches<'_>) -> Option<u32>
    ensures range { IfSome result (λ n. (1 ≤ n) × (n ≤ 16777216)) }
    ensures number { result ≡ states_in (words_found found.now) }
{
    let states = number_of(found, "states", MOST_STATES, STATES)?;
    Some(states as u32)
}

// The status that outcomes are expected to have, if the option is given.
fn expected_status_of(found: &ArgMatches<'_>) -> Option<Option<u8>>
    ensures range { IfSome result (λ status. IfSome status (λ n. n ≤ 9)) }
    ensures number { result ≡ expected_status_in (words_found found.now) }
{
    let Some(text) = word_of(found, "expect-status") else {
        return Some(None);
    };
    let status = number_within(text, 0, MOST_STATUS)?;
    Some(Some(status as u8))
}

fn explore_job<'a>(found: &ArgMatches<'a>) -> Option<Job<'a>>
    ensures range { IfSome result IsInRange }
    ensures job { option_map asked_by result ≡ explore_in (words_found found.now) }
{
    Some(Job::Explore {
        file: word_of(found, "file")?,
        states: states_of(found)?,
        arena: arena_of(found)?,
        keep: word_of(found, "keep"),
        progress: is_given(found, "progress"),
        expect_one: is_given(found, "expect-one"),
        expect_status: expected_status_of(found)?,
    })
}

fn replay_job<'a>(found: &ArgMatches<'a>) -> Option<Job<'a>>
    ensures range { IfSome result IsInRange }
    ensures job { option_map asked_by result ≡ replay_in (words_found found.now) }
{
    Some(Job::Replay {
        file: word_of(found, "file")?,
        history: word_of(found, "history")?,
        arena: arena_of(found)?,
    })
}

// The number of entries, if the option is given.
fn entries_of(found: &ArgMatches<'_>) -> Option<Option<u64>>
    ensures { result ≡ entries_in (words_found found.now) }
{
    let Some(text) = word_of(found, "at") else {
        return Some(None);
    };
    let entries = number_within(text, 0, MOST_STEPS)?;
    Some(Some(entries))
}

// The run of the history that is the word with this id, or else the one that is to be made.
fn viewed_of<'a>(found: &ArgMatches<'a>, id: &str) -> Option<ViewedRun<'a>>
    ensures range { IfSome result IsViewInRange }
    ensures run { option_map viewed_by result ≡ viewed_in id.now (words_found found.now) }
{
    Some(ViewedRun {
        seed: seed_of(found)?,
        arena: arena_of(found)?,
        steps: steps_of(found)?,
        history: word_of(found, id),
        choices: word_of(found, "choices"),
    })
}

fn state_job<'a>(found: &ArgMatches<'a>) -> Option<Job<'a>>
    ensures range { IfSome result IsInRange }
    ensures job { option_map asked_by result ≡ state_in (words_found found.now) }
{
    Some(Job::State {
        file: word_of(found, "file")?,
        run: viewed_of(found, "history")?,
        at: entries_of(found)?,
        json: format_of(found, "json")?,
    })
}

// The number of an entry or a process, counted from 1, if its option is given.
fn ordinal_of(found: &ArgMatches<'_>, id: &str) -> Option<Option<u64>>
    ensures { result ≡ ordinal_in id.now (words_found found.now) }
{
    let Some(text) = word_of(found, id) else {
        return Some(None);
    };
    Some(Some(number_within(text, 1, MOST_STEPS)?))
}

// The columns of lanes, if the option is given.
fn width_of(found: &ArgMatches<'_>) -> Option<Option<u32>>
    ensures range { IfSome result (λ width. IfSome width (λ n. (40 ≤ n) × (n ≤ 400))) }
    ensures number { result ≡ width_in (words_found found.now) }
{
    let Some(text) = word_of(found, "width") else {
        return Some(None);
    };
    let width = number_within(text, LEAST_WIDTH, MOST_WIDTH)?;
    Some(Some(width as u32))
}

// How `trace` writes. A width without lanes has no meaning, nor have lanes in a format.
fn trace_form_of(found: &ArgMatches<'_>) -> Option<TraceForm>
    ensures range { IfSome result IsTraceForm }
    ensures form { result ≡ trace_form_in (words_found found.now) }
{
    let width = width_of(found)?;
    let json = format_of(found, "json")?;
    match (is_given(found, "lanes"), json, width) {
        (false, false, None) => Some(TraceForm::Lines),
        (false, true, None) => Some(TraceForm::Json),
        (true, false, None) => Some(TraceForm::Lanes(WIDTH)),
        (true, false, Some(width)) => Some(TraceForm::Lanes(width)),
        (true, true, _) | (false, _, Some(_)) => None,
    }
}

fn trace_job<'a>(found: &ArgMatches<'a>) -> Option<Job<'a>>
    ensures range { IfSome result IsInRange }
    ensures job { option_map asked_by result ≡ trace_in (words_found found.now) }
{
    Some(Job::Trace {
        file: word_of(found, "file")?,
        run: viewed_of(found, "history")?,
        first: ordinal_of(found, "from")?,
        last: ordinal_of(found, "to")?,
        process: ordinal_of(found, "process")?,
        cell: word_of(found, "cell"),
        form: trace_form_of(found)?,
    })
}

// Of two words after the source the second one names the file that gets the page or the picture; of one word alone it is that one.
fn page_job<'a>(found: &ArgMatches<'a>, form: PageForm) -> Option<Job<'a>>
    ensures range { IfSome result IsInRange }
    ensures job { option_map asked_by result ≡ page_in form (words_found found.now) }
{
    let file = word_of(found, "file")?;
    let run = viewed_of(found, "history")?;
    let first = ordinal_of(found, "from")?;
    let last = ordinal_of(found, "to")?;
    match word_of(found, "page") {
        Some(page) => Some(Job::Page {
            form,
            file,
            run,
            first,
            last,
            page,
        }),
        None => Some(Job::Page {
            form,
            file,
            run: ViewedRun {
                history: None,
                ..run
            },
            first,
            last,
            page: run.history?,
        }),
    }
}

fn why_job<'a>(found: &ArgMatches<'a>) -> Option<Job<'a>>
    ensures range { IfSome result IsInRange }
    ensures job { option_map asked_by result ≡ why_in (words_found found.now) }
{
    Some(Job::Why {
        file: word_of(found, "file")?,
        run: viewed_of(found, "history")?,
        json: format_of(found, "json")?,
    })
}

fn races_job<'a>(found: &ArgMatches<'a>) -> Option<Job<'a>>
    ensures range { IfSome result IsInRange }
    ensures job { option_map asked_by result ≡ races_in (words_found found.now) }
{
    Some(Job::Races {
        file: word_of(found, "file")?,
        run: viewed_of(found, "history")?,
    })
}

// How many runs by lots are looked at, where the option is given.
fn covered_of(found: &ArgMatches<'_>) -> Option<Option<u32>>
    ensures { result ≡ covered_in (words_found found.now) }
{
    let Some(text) = word_of(found, "runs") else {
        return Some(None);
    };
    let runs = number_within(text, 1, MOST_RUNS)?;
    Some(Some(runs as u32))
}

fn cover_job<'a>(found: &ArgMatches<'a>) -> Option<Job<'a>>
    ensures range { IfSome result IsInRange }
    ensures job { option_map asked_by result ≡ cover_in (words_found found.now) }
{
    Some(Job::Cover {
        file: word_of(found, "file")?,
        run: viewed_of(found, "histories")?,
        runs: covered_of(found)?,
        lcov: format_of(found, "lcov")?,
    })
}

// The second seed of two, where they are given.
fn other_seed_of(found: &ArgMatches<'_>) -> Option<Option<u64>>
    ensures range { IfSome result (λ seed. IfSome seed (λ n. (1 ≤ n) × (n ≤ 4294967296))) }
    ensures number { result ≡ other_seed_in (words_found found.now) }
{
    let Some(seeds) = found.get_strs("seed") else {
        return Some(None);
    };
    match seeds {
        [] | [_] => Some(None),
        [_, second] => Some(Some(number_within(*second, 1, MOST_SEED)?)),
        [_, _, _, ..] => None,
    }
}

fn diff_job<'a>(found: &ArgMatches<'a>) -> Option<Job<'a>>
    ensures range { IfSome result IsInRange }
    ensures job { option_map asked_by result ≡ diff_in (words_found found.now) }
{
    Some(Job::Diff {
        file: word_of(found, "file")?,
        run: viewed_of(found, "history")?,
        other: word_of(found, "other"),
        other_seed: other_seed_of(found)?,
    })
}

fn list_job<'a>(found: &ArgMatches<'a>) -> Option<Job<'a>>
    ensures range { IfSome result IsInRange }
    ensures job { option_map asked_by result ≡ list_in (words_found found.now) }
{
    Some(Job::List {
        file: word_of(found, "file")?,
    })
}

fn explain_job<'a>(found: &ArgMatches<'a>) -> Option<Job<'a>>
    ensures range { IfSome result IsInRange }
    ensures job { option_map asked_by result ≡ explain_in (words_found found.now) }
{
    Some(Job::Explain {
        first: word_of(found, "first").unwrap_or(ALL_WORDS),
        second: word_of(found, "second"),
        third: word_of(found, "third"),
    })
}

// The job of a command with the words that were found for it.
fn command_job<'a>(command: &str, found: &ArgMatches<'a>) -> Option<Job<'a>>
    ensures range { IfSome result IsInRange }
    ensures job { option_map asked_by result ≡ command_in command.now (words_found found.now) }
{
    if command == "check" {
        return check_job(found);
    }
    if command == "run" {
        return run_job(found);
    }
    if command == "sample" {
        return sample_job(found);
    }
    if command == "explore" {
        return explore_job(found);
    }
    if command == "replay" {
        return replay_job(found);
    }
    if command == "state" {
        return state_job(found);
    }
    if command == "trace" {
        return trace_job(found);
    }
    if command == "page" {
        return page_job(found, PageForm::Html);
    }
    if command == "picture" {
        return page_job(found, PageForm::Svg);
    }
    if command == "why" {
        return why_job(found);
    }
    if command == "races" {
        return races_job(found);
    }
    if command == "cover" {
        return cover_job(found);
    }
    if command == "diff" {
        return diff_job(found);
    }
    if command == "list" {
        return list_job(found);
    }
    if command == "explain" {
        return explain_job(found);
    }
    None
}

// When the lines of a command have colors; none where the word is another one.
fn color_of(found: &ArgMatches<'_>) -> Option<ColorWhen>
    ensures { result ≡ color_by (word_of found.now (codes "color")) }
{
    match word_of(found, "color") {
        None => Some(ColorWhen::Auto),
        Some(word) if word == "auto" => Some(ColorWhen::Auto),
        Some(word) if word == "always" => Some(ColorWhen::Always),
        Some(word) if word == "never" => Some(ColorWhen::Never),
        Some(_) => None,
    }
}

// When lines have colors: where they go to a terminal, if nothing else is said.
fn color_asked(matches: &ArgMatches<'_>) -> ColorWhen
    ensures { result ≡ color_in (subcommand_rows_of matches.now) }
{
    match matches.subcommand() {
        Some((_, found)) => color_of(found).unwrap_or(ColorWhen::Auto),
        None => ColorWhen::Auto,
    }
}

// The job of a command, if its colors have a meaning.
fn colored_job<'a>(command: &str, found: &ArgMatches<'a>) -> Option<Job<'a>>
    ensures range { IfSome result IsInRange }
    ensures job { option_map asked_by result ≡ colored_in command.now (words_found found.now) }
{
    match color_of(found) {
        Some(_) => command_job(command, found),
        None => None,
    }
}

// The job of words that `clap` accepted.
fn job_of<'a>(matches: &ArgMatches<'a>) -> Option<Job<'a>>
    ensures range { IfSome result IsInRange }
    ensures job { option_map asked_by result ≡ job_in (subcommand_rows_of matches.now) }
{
    let Some((command, found)) = matches.subcommand() else {
        return Some(Job::Standard);
    };
    colored_job(command, found)
}

// Whether a flag is given.
fn is_given(found: &ArgMatches<'_>, id: &str) -> bool
    ensures { result ≡ is_given id.now (words_found found.now) }
{
    match word_of(found, id) {
        Some(word) => word == "true",
        None => false,
    }
}

// Whether `--long` is given, before the command or after it.
fn is_long(matches: &ArgMatches<'_>) -> bool
    ensures { result ≡ is_long_in (words_found matches.now) (subcommand_rows_of matches.now) }
{
    if is_given(matches, "long") {
        return true;
    }
    match matches.subcommand() {
        Some((_, found)) => is_given(found, "long"),
        None => false,
    }
}

fn is_path(path: Option<&str>, other: &str) -> bool
    ensures other { result ≡ false → IsNoPath path.entry other.entry }
    ensures same { result ≡ true → ¬ (IsNoPath path.entry other.entry) }
{
    match path {
        Some(path) => path == other,
        None => false,
    }
}

/// What is said where a page or a picture would be written to a file that is read.
pub fn same_page(form: PageForm) -> &'static str
    ensures { result.now ≡ page_mistake form }
{
    match form {
        PageForm::Html => SAME_PAGE,
        PageForm::Svg => SAME_PICTURE,
    }
}

// What is said where a history, a page or a picture would be written to a file that is read.
fn overwriting(job: &Job<'_>) -> Option<&'static str>
    ensures apart { IfNone result (IsWrittenApart job.now) }
    ensures over { IfSome result (λ _. ¬ (IsWrittenApart job.now)) }
{
    match job {
        Job::Run {
            file,
            choices,
            follow,
            history: Some(history),
            ..
        } => {
            if is_path(Some(*file), history)
                || is_path(*choices, history)
                || is_path(*follow, history)
            {
                return Some(SAME_FILE);
            }
            None
        }
        Job::Page {
            form,
            file,
            run,
            page,
            ..
        } => {
            if is_path(Some(*file), page)
                || is_path(run.history, page)
                || is_path(run.choices, page)
            {
                return Some(same_page(*form));
            }
            None
        }
        _ => None,
    }
}

// What is said where two of a history, choices and lots say which run is looked at.
fn two_runs(run: &ViewedRun<'_>, runs: Option<u32>) -> Option<&'static str>
    ensures one { IfNone result (IsOneRun run.now runs) }
    ensures two { IfSome result (λ _. ¬ (IsOneRun run.now runs)) }
{
    match (run.history, run.choices, run.seed, runs) {
        (None, None, None, None)
        | (None, None, None, Some(_))
        | (None, None, Some(_), _)
        | (None, Some(_), None, None)
        | (Some(_), None, None, None) => None,
        (Some(_), Some(_), _, _)
        | (Some(_), None, Some(_), _)
        | (Some(_), None, None, Some(_))
        | (None, Some(_), Some(_), _)
        | (None, Some(_), None, Some(_)) => Some(TWO_RUNS),
    }
}

// What is said where two of a history to follow, choices, workers and a seed are given, or two say which run is looked at.
fn two_orders(job: &Job<'_>) -> Option<&'static str>
    ensures one { IfNone result (IsOneOrder job.now) }
    ensures two { IfSome result (λ _. ¬ (IsOneOrder job.now)) }
{
    let (workers, seed, choices, follow) = match job {
        Job::Run {
            workers,
            seed,
            choices,
            follow,
            ..
        } => (workers, seed, choices, follow),
        Job::State { run, .. } => return two_runs(run, None),
        Job::Trace { run, .. } => return two_runs(run, None),
        Job::Page { run, .. } => return two_runs(run, None),
        Job::Why { run, .. } => return two_runs(run, None),
        Job::Races { run, .. } => return two_runs(run, None),
        Job::Cover { run, runs, .. } => return two_runs(run, *runs),
        Job::Diff { run, .. } => return two_runs(run, None),
        _ => return None,
    };
    match (follow, seed, workers, choices) {
        (None, None, None, _)
        | (None, None, Some(_), None)
        | (None, Some(_), None, None)
        | (Some(_), None, None, None) => None,
        (Some(_), _, _, _) => Some(FOLLOW_TOO),
        (None, Some(_), _, _) => Some(LOTS_TOO),
        (None, None, Some(_), Some(_)) => Some(TWO_ORDERS),
    }
}

// The message where `clap` gave no matches: its own text, with more where that says too little.
fn usage_of<S: AsStr>(alloc: Global, error: &Error, words: &[S]) -> Usage
    ensures range { IsUsage result }
    ensures status { (result.status ≡ 7) ⊎ (result.status ≡ usage_status (kind_of error.now)) }
{
    let status = match error.kind() {
        ErrorKind::OutOfMemory => return Usage::no_memory(alloc),
        ErrorKind::DisplayHelp | ErrorKind::DisplayVersion => 0,
        _ => 2,
    };
    match said(alloc, error, words) {
        Ok(text) => Usage::of_text(alloc, status, text.as_str()),
        Err(_) => Usage::no_memory(alloc),
    }
}

fn is_word<S: AsStr>(words: &[S], index: usize, word: &str) -> bool
    ensures { result ≡ is_word (map S.text words.now) index word.now }
{
    match words.get(index) {
        Some(found) => word == found.as_str(),
        None => false,
    }
}

// The index of the command, after `--long` or not.
pub(crate) fn command_place<S: AsStr>(words: &[S]) -> usize
    ensures { result ≡ command_place (map S.text words.now) }
{
    if is_word(words, 1, "--long") { 2 } else { 1 }
}

// Whether the words ask for help about the word `help` at this index.
fn is_help_of_help<S: AsStr>(words: &[S], index: usize) -> bool
    requires { index ≤ 2 }
    ensures { result ≡ is_help_of_help (map S.text words.now) index }
{
    words.len() == index + 2
        && is_word(words, index, "help")
        && (is_word(words, index + 1, "--help") || is_word(words, index + 1, "-h"))
}

// Whether the last word is `version`, at this index.
fn is_version<S: AsStr>(words: &[S], index: usize) -> bool
    requires { index ≤ 2 }
    ensures { result ≡ is_version (map S.text words.now) index }
{
    words.len() == index + 1 && is_word(words, index, "version")
}

// The matches of `clap` for the words as they are understood: `version` is `--version`, and `help --help` is `help`,
// since `clap` has no help about it.
fn matches_of<'a, S: AsStr>(program: Command<'a>, words: &'a [S]) -> Result<ArgMatches<'a>, Error>
    ensures matches { IfOk result (HasMatchesOf (app_of program.entry) (heard (map S.text words.entry.now))) }
    ensures kinds { is_simple_and_free (app_of program.entry) ≡ true
        → FailsBy (fault_of (app_of program.entry) (heard (map S.text words.entry.now))) result }
{
    let place = command_place(words);
    if is_version(words, place) {
        return program.try_get_matches_from(VERSION_WORDS);
    }
    if is_help_of_help(words, place) {
        return program.try_get_matches_from(&words[..words.len().saturating_sub(1)]);
    }
    program.try_get_matches_from(words)
}

// A copy of a list of words.
fn copied<'a>(alloc: Global, words: &[&'a str]) -> Result<Vec<&'a str>, AllocError>
    ensures { IfOk result (λ copy. map (λ word. word.now) copy.items ≡ map (λ word. word.now) words.now) }
{
    let mut copy = Vec::new(alloc);
    for word in words {
        copy.push(*word)?;
    }
    Ok(copy)
}

// All words that were found for the histories of a command.
fn words_of<'a>(alloc: Global, found: &ArgMatches<'a>) -> Result<Vec<&'a str>, AllocError>
    ensures { IfOk result (λ words. map (λ word. word.now) words.items ≡ unwrap_or (all_of (codes "histories") (words_found found.now)) []) }
{
    match found.get_strs("histories") {
        Some(words) => copied(alloc, words),
        None => Ok(Vec::new(alloc)),
    }
}

// The files of the histories of `cover`.
fn histories_of<'a>(alloc: Global, matches: &ArgMatches<'a>) -> Result<Vec<&'a str>, AllocError>
    ensures { IfOk result (λ histories. map (λ history. history.now) histories.items ≡ histories_in (subcommand_rows_of matches.now)) }
{
    match matches.subcommand() {
        Some((_, found)) => words_of(alloc, found),
        None => Ok(Vec::new(alloc)),
    }
}

// What is said of words that `clap` accepted and that ask for no job.
fn meaningless(matches: &ArgMatches<'_>) -> &'static str {
    let Some((_, found)) = matches.subcommand() else {
        return MISTAKE;
    };
    let has_format = word_of(found, "format").is_some();
    if has_format && is_given(found, "lanes") {
        return LANES_TOO;
    }
    if word_of(found, "width").is_some() && !is_given(found, "lanes") {
        return NO_LANES;
    }
    if color_of(found).is_none() {
        return NO_COLOR;
    }
    if has_format { NO_FORMAT } else { MISTAKE }
}

// The request of words that `clap` accepted, or what is wrong with them.
fn request_of<'a>(alloc: Global, matches: &ArgMatches<'a>) -> Result<Request<'a>, Usage>
    ensures job { IfOk result (λ request. IsInRange request.job) }
    ensures asked { IfOk result (λ request. job_in (subcommand_rows_of matches.now) ≡ Some (asked_by request.job)) }
    ensures long { IfOk result (λ request. request.long ≡ is_long_in (words_found matches.now) (subcommand_rows_of matches.now)) }
    ensures color { IfOk result (λ request. request.color ≡ color_in (subcommand_rows_of matches.now)) }
    ensures histories { IfOk result (λ request. map (λ history. history.now) request.histories.items ≡ histories_in (subcommand_rows_of matches.now)) }
    ensures sound { IfOk result (λ request. IsWrittenApart request.job × IsOneOrder request.job) }
    ensures mistake { IfErr result (λ usage. IsWant usage
        ⊎ ((usage.status ≡ 2) × IsMistaken (job_in (subcommand_rows_of matches.now)))) }
{
    let Some(job) = job_of(matches) else {
        return Err(Usage::of_text(alloc, 2, meaningless(matches)));
    };
    if let Some(text) = overwriting(&job) {
        return Err(Usage::of_text(alloc, 2, text));
    }
    if let Some(text) = two_orders(&job) {
        return Err(Usage::of_text(alloc, 2, text));
    }
    let long = is_long(matches);
    let Ok(histories) = histories_of(alloc, matches) else {
        return Err(Usage::no_memory(alloc));
    };
    Ok(Request {
        job,
        histories,
        long,
        color: color_asked(matches),
    })
}

/// The request of these words, of which the first one is the program's name.
///
/// # Errors
///
/// Those of `read_words`.
pub fn read_request<'a, S: AsStr>(alloc: Global, words: &'a [S]) -> Result<Request<'a>, Usage>
    ensures asked { IfOk result (IsAskedBy (map S.text words.entry.now)) }
    ensures job { IfOk result (λ request. IsInRange request.job) }
    ensures sound { IfOk result (λ request. IsWrittenApart request.job × IsOneOrder request.job) }
    ensures usage { IfErr result IsUsage }
    ensures status { IfErr result (λ usage.
        (usage.status ≡ 7) ⊎ IsStatusFor (map S.text words.entry.now) usage.status) }
{
    let program = match program(alloc) {
        Ok(program) => program,
        Err(_) => return Err(Usage::no_memory(alloc)),
    };
    match matches_of(program, words) {
        Ok(matches) => request_of(alloc, &matches),
        Err(error) => Err(usage_of(alloc, &error, words)),
    }
}

/// The job of these words, of which the first one is the program's name.
///
/// # Errors
///
/// A text in the place of a job. With status 0 it is help or the version. With status 2 it says what is wrong with
/// the words, in the words of `clap` and a few more; or that a history or a page would be written to a file that is read; or
/// that two of a history to follow, choices, workers and a seed are given. With status 7 memory was refused.
pub fn read_words<'a, S: AsStr>(alloc: Global, words: &'a [S]) -> Result<Job<'a>, Usage>
    ensures job { IfOk result IsInRange }
    ensures asked { IfOk result (λ job. asked (map S.text words.entry.now) ≡ Some (asked_by job)) }
    ensures apart { IfOk result IsWrittenApart }
    ensures order { IfOk result IsOneOrder }
    ensures usage { IfErr result IsUsage }
    ensures status { IfErr result (λ usage.
        (usage.status ≡ 7) ⊎ IsStatusFor (map S.text words.entry.now) usage.status) }
{
    match read_request(alloc, words) {
        Ok(Request { job, .. }) => Ok(job),
        Err(usage) => Err(usage),
    }
}
