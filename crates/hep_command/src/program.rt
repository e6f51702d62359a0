//! The commands of the table, as `clap` reads them and as its help shows them.

ghost use Rattle.std.specs.Prelude.{◌≡◌, true, IfOk};
ghost use Rattle.clap.specs.Words.{App, with_rule, with_subcommand};
ghost use Rattle.hep_command.specs.Program.{IsArgument, IsCommand, with_apps};
ghost use Rattle.hep_command.specs.Program as spec;
ghost use Rattle.hep_command.specs.Table.{app_of_command, rule_of_word, with_commands, with_words};

use crate::table::{CommandRow, LONG, LOOKING, RUNNING, SAYING, WordKind, WordRow};
use clap::builder::ValueParser;
use clap::{Arg, ArgAction, Command};
use std::alloc::{AllocError, Global};

/// The output of `hepf --version` after the program's name.
const VERSION: &str = "0.3.0, rattle-kit-13f logic dac8208d650f15bf";

const ABOUT: &str = "Compiles and runs HEP FORTRAN. Without a command it runs standard input.";

const NO_WORDS: &[&str] = &[];

// The argument of `clap` for a word.
fn argument_of<'a>(alloc: Global, word: &WordRow) -> Arg<'a>
    ensures { IsArgument (rule_of_word word.now) result }
{
    let argument = Arg::new(alloc, word.id);
    match word.kind {
        WordKind::Required => argument
            .value_name(word.value)
            .required(true)
            .help(word.help),
        WordKind::Optional => argument.value_name(word.value).help(word.help),
        WordKind::Repeated => argument
            .value_name(word.value)
            .num_args(1..)
            .help(word.help),
        WordKind::Further => argument.value_name(word.value).hide(true),
        WordKind::Flag => argument
            .long(word.id)
            .action(ArgAction::SetTrue)
            .help(word.help),
        WordKind::Text => argument
            .long(word.id)
            .value_name(word.value)
            .help(word.help),
        WordKind::Number(least, most) => argument
            .long(word.id)
            .value_name(word.value)
            .value_parser(ValueParser::unsigned(least, most))
            .help(word.help),
        WordKind::Numbers(least, most) => argument
            .long(word.id)
            .action(ArgAction::Append)
            .value_name(word.value)
            .value_parser(ValueParser::unsigned(least, most))
            .help(word.help),
    }
}

// A command with one more word, unless memory was refused for it.
fn with_word<'a>(
    alloc: Global,
    whole: Result<Command<'a>, AllocError>,
    word: &WordRow,
) -> Result<Command<'a>, AllocError>
    ensures { (app : App) → IfOk whole.entry (IsCommand app) → IfOk result (IsCommand (with_rule app (rule_of_word word.now))) }
{
    whole?.arg(argument_of(alloc, word))
}

// A command with these words too, unless memory was refused for one.
fn with_words<'a>(
    alloc: Global,
    whole: Result<Command<'a>, AllocError>,
    words: &[WordRow],
) -> Result<Command<'a>, AllocError>
    ensures { (app : App) → IfOk whole.entry (IsCommand app) → IfOk result (IsCommand (with_words app words.now)) }
{
    match words {
        [] => whole,
        [first, others @ ..] => with_words(alloc, with_word(alloc, whole, first), others),
    }
}

fn command_of<'a>(alloc: Global, described: &CommandRow) -> Result<Command<'a>, AllocError>
    ensures { IfOk result (IsCommand (app_of_command described.now)) }
{
    let bare = Command::new(alloc, described.name)
        .about(described.about)
        .after_help(described.example);
    with_words(alloc, Ok(bare), described.words)
}

// Lets `clap` drop a command. A drop here would have to be proved for all parts of a command, which takes longer than
// all other proofs of this crate. It is called only where memory was refused, and then the program ends.
fn let_go(command: Command<'_>) {
    let _ = command.try_get_matches_from(NO_WORDS);
}

// A command with one more subcommand, unless memory was refused for it.
fn with_command<'a>(
    alloc: Global,
    whole: Result<Command<'a>, AllocError>,
    described: &CommandRow,
) -> Result<Command<'a>, AllocError>
    ensures { (app : App) → IfOk whole.entry (IsCommand app)
        → IfOk result (IsCommand (with_subcommand app (app_of_command described.now).top)) }
{
    let command = whole?;
    match command_of(alloc, described) {
        Ok(part) => command.subcommand(part),
        Err(refused) => {
            let_go(command);
            Err(refused)
        }
    }
}

// A command with these subcommands too, unless memory was refused for one.
fn with_commands<'a>(
    alloc: Global,
    whole: Result<Command<'a>, AllocError>,
    commands: &[CommandRow],
) -> Result<Command<'a>, AllocError>
    ensures { (app : App) → IfOk whole.entry (IsCommand app)
        → IfOk result (IsCommand (with_commands app commands.now)) }
{
    match commands {
        [] => whole,
        [first, others @ ..] => with_commands(alloc, with_command(alloc, whole, first), others),
    }
}

// A command line with the commands that check and run a source.
fn with_running<'a>(
    alloc: Global,
    whole: Result<Command<'a>, AllocError>,
) -> Result<Command<'a>, AllocError>
    ensures { (app : App) → IfOk whole.entry (IsCommand app) → IfOk result (IsCommand (with_apps app spec.running)) }
{
    with_commands(alloc, whole, &RUNNING)
}

// A command line with those that look at runs.
fn with_looking<'a>(
    alloc: Global,
    whole: Result<Command<'a>, AllocError>,
) -> Result<Command<'a>, AllocError>
    ensures { (app : App) → IfOk whole.entry (IsCommand app) → IfOk result (IsCommand (with_apps app spec.looking)) }
{
    with_commands(alloc, whole, &LOOKING)
}

// A command line with those that list and explain.
fn with_saying<'a>(
    alloc: Global,
    whole: Result<Command<'a>, AllocError>,
) -> Result<Command<'a>, AllocError>
    ensures { (app : App) → IfOk whole.entry (IsCommand app) → IfOk result (IsCommand (with_apps app spec.saying)) }
{
    with_commands(alloc, whole, &SAYING)
}

// The command line of the program.
pub(crate) fn program<'a>(alloc: Global) -> Result<Command<'a>, AllocError>
    ensures { IfOk result (IsCommand spec.hepf) }
{
    let bare = Command::new(alloc, "hepf").version(VERSION).about(ABOUT);
    let running = with_running(alloc, with_words(alloc, Ok(bare), &[LONG]));
    with_saying(alloc, with_looking(alloc, running))
}
