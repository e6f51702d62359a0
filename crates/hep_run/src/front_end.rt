//! From the bytes of a source to its checked program, or to the image that a core runs.
ghost use Rattle.std.specs.Prelude.{◌≡◌, ◌<◌, ◌⊎◌, ◌++◌, ℕ, List, true, false, IfOk, IfErr, Ok, OnErr, OnOk};
ghost use Rattle.std.specs.List.{flat_map};
ghost use Rattle.hep_text.specs.Reading.{statements_of};
ghost use Rattle.hep_machine.specs.Words.{Units};
ghost use Rattle.hep_lower.specs.PartCounts.{HaveStatements, parts_of};
ghost use Rattle.hep_lower.specs.Refusals.{IsCodeBeyond};
ghost use Rattle.hep_text.specs.Refusals.{statement_notes};
ghost use Rattle.hep_run.specs.Notes as told;
ghost use Rattle.hep_run.specs.Notes.{also_of, line_notes_when, no_notes};
ghost use Rattle.hep_run.specs.Memory.{IsWant};
ghost use Rattle.hep_run.specs.Sources.{IsAcceptedSource, IsRunnableSource};
ghost use Rattle.hep_run.specs.Refusals.{IsCheckRefusal, IsSourceRefusal, noted, refusal_of};

use crate::refusal::SourceFault;
use hep_base::{Refusal, Text};
use hep_check::{
    Checked, Diagnostic, JudgeFault, Rejection, culprit_text, fault_of, judge, judge_further,
    position_of,
};
use hep_conditions::Violation;
use hep_image::Image;
use hep_lower::laws::limits_are_wide;
use hep_lower::lower;
use hep_parse::parse;
use hep_text::{Stmt, Subject, append_also, line_notes, statement_notes, statements};
use std::alloc::{AllocError, Global};

// The notes after the line of a refusal, if they are asked for, by its number, its line and its name.
fn line_notes_when(
    alloc: Global,
    source: &[u8],
    number: u16,
    line: u32,
    name: &[u8],
    long: bool,
) -> Result<Text, AllocError>
    ensures made { IfOk result (λ notes. notes ≡ line_notes_when long source.now number line name.now) }
    ensures unmade { OnErr result (long ≡ true) }
{
    if long {
        line_notes(alloc, source, number, line, name)
    } else {
        Ok(Text::from(Vec::new(alloc)))
    }
}

// A refusal with its notes, if they are asked for.
fn refused_at_line(alloc: Global, source: &[u8], refusal: Refusal, long: bool) -> SourceFault
    ensures told { (result ≡ SourceFault.NoMemory) ⊎ (result ≡ noted (line_notes_when long source.now) refusal) }
    ensures short { long ≡ false → result ≡ noted (line_notes_when long source.now) refusal }
{
    let Refusal::Refused { number, line, name } = refusal else {
        return SourceFault::NoMemory;
    };
    match line_notes_when(alloc, source, number, line, name.as_slice(), long) {
        Ok(notes) => SourceFault::Refused {
            number,
            line,
            name,
            notes,
        },
        Err(_) => SourceFault::NoMemory,
    }
}

// The refusal of a program that violates a condition.
fn refused_alone(alloc: Global, violation: Violation) -> SourceFault
    ensures { (result ≡ SourceFault.NoMemory) ⊎ (result ≡ noted no_notes (refusal_of violation)) }
{
    match fault_of(alloc, violation) {
        Refusal::Refused { number, line, name } => SourceFault::Refused {
            number,
            line,
            name,
            notes: Text::from(Vec::new(alloc)),
        },
        Refusal::NoMemory => SourceFault::NoMemory,
    }
}

// Appends the notes about a violation after the first one.
fn append_violation(
    alloc: Global,
    text: &mut Vec<u8>,
    source: &[u8],
    statements: &[Stmt],
    violation: &Diagnostic,
) -> Result<(), AllocError>
    ensures { OnOk result (text.new.items ≡ text.old.items ++ also_of source.now statements.now violation.now) }
{
    let Refusal::Refused { number, line, name } = fault_of(alloc, violation.violation) else {
        return Err(AllocError);
    };
    let about = culprit_text(alloc, violation.culprit)?;
    let subject = Subject {
        number,
        line,
        name: name.as_slice(),
        about: about.as_slice(),
        position: position_of(violation.culprit),
    };
    append_also(alloc, text, source, statements, &subject)
}

// Appends the notes about all violations after the first one.
fn append_further(
    alloc: Global,
    text: &mut Vec<u8>,
    source: &[u8],
    statements: &[Stmt],
    further: &[Diagnostic],
) -> Result<(), AllocError>
    ensures { OnOk result (text.new.items ≡ text.old.items ++ flat_map (also_of source.now statements.now) further.now) }
{
    for violation in further {
        append_violation(alloc, text, source, statements, violation)?;
    }
    Ok(())
}

// The notes about the first violation, with its subject, and about those after it.
fn violation_notes(
    alloc: Global,
    source: &[u8],
    statements: &[Stmt],
    subject: &Subject<'_>,
    further: &[Diagnostic],
) -> Result<Text, AllocError>
    ensures { IfOk result (λ notes. notes
        ≡ statement_notes source.now statements.now subject.now.number subject.now.line subject.now.about.now subject.now.position
        ++ flat_map (also_of source.now statements.now) further.now) }
{
    let mut text = statement_notes(alloc, source, statements, subject)?.into_vec();
    append_further(alloc, &mut text, source, statements, further)?;
    Ok(Text::from(text))
}

// The refusal of a program that violates conditions, with the notes about all violations that are reported.
fn refused_further(
    alloc: Global,
    source: &[u8],
    statements: &[Stmt],
    first: Diagnostic,
    further: &[Diagnostic],
) -> SourceFault
    ensures { (result ≡ SourceFault.NoMemory)
        ⊎ (result ≡ noted (told.violation_notes source.now statements.now first.culprit further.now) (refusal_of first.violation)) }
{
    let Refusal::Refused { number, line, name } = fault_of(alloc, first.violation) else {
        return SourceFault::NoMemory;
    };
    let Ok(about) = culprit_text(alloc, first.culprit) else {
        return SourceFault::NoMemory;
    };
    let subject = Subject {
        number,
        line,
        name: name.as_slice(),
        about: about.as_slice(),
        position: position_of(first.culprit),
    };
    match violation_notes(alloc, source, statements, &subject, further) {
        Ok(notes) => SourceFault::Refused {
            number,
            line,
            name,
            notes,
        },
        Err(_) => SourceFault::NoMemory,
    }
}

// The program of the statements of a source, if it is accepted; or the first refusal of the statements or of a
// condition.
fn checked_statements(
    alloc: Global,
    source: &[u8],
    statements: &[Stmt],
    long: bool,
) -> Result<Checked, SourceFault>
    requires { statements_of source.now ≡ Ok statements.now }
    ensures made { IfOk result (IsAcceptedSource source.now) }
    ensures refused { IfErr result (IsCheckRefusal long source.now) }
{
    let program = match parse(alloc, statements) {
        Ok(program) => program,
        Err(refusal) => return Err(refused_at_line(alloc, source, refusal, long)),
    };
    if long {
        return match judge_further(alloc, program) {
            Ok(checked) => Ok(checked),
            Err(Rejection::NoMemory) => Err(SourceFault::NoMemory),
            Err(Rejection::Violated { first, further }) => Err(refused_further(
                alloc, source, statements, first, &further,
            )),
        };
    }
    match judge(alloc, program) {
        Ok(checked) => Ok(checked),
        Err(JudgeFault::NoMemory) => Err(SourceFault::NoMemory),
        Err(JudgeFault::Violated(violation)) => Err(refused_alone(alloc, violation)),
    }
}

/// The program of a source that is accepted.
///
/// # Errors
///
/// The first refusal of the source: of its text, of its statements, or of a condition that it violates; or
/// `NoMemory`. Where `long` is true the refusal has its notes, also those about the violations after the first one.
/// Where `long` is false no memory is asked for if the source is too large.
pub fn checked_source(alloc: Global, source: &[u8], long: bool) -> Result<Checked, SourceFault>
    ensures made { IfOk result (IsAcceptedSource source.now) }
    ensures refused { IfErr result (IsCheckRefusal long source.now) }
    ensures wanted { IfErr result (IsWant long source.now) }
{
    let statements = match statements(alloc, source) {
        Ok(statements) => statements,
        Err(refusal) => return Err(refused_at_line(alloc, source, refusal, long)),
    };
    checked_statements(alloc, source, &statements, long)
}

/// The image of a source that is accepted and within the limits.
///
/// # Errors
///
/// The first refusal of the source, as in `checked_source`; or else a limit that it passes; or `NoMemory`.
pub fn image_of_source(alloc: Global, source: &[u8], long: bool) -> Result<Image, SourceFault>
    ensures made { IfOk result (IsRunnableSource source.now) }
    ensures refused { IfErr result (IsSourceRefusal long source.now) }
    ensures wanted { IfErr result (IsWant long source.now) }
{
    let checked = checked_source(alloc, source, long)?;
    match lower(alloc, checked) {
        Ok(image) => Ok(image),
        Err(refusal) => Err(refused_at_line(alloc, source, refusal, long)),
    }
}

/// Does nothing: its clauses say that each unit of a program that was read from a source has a statement, and that a
/// program has too many instructions only if it has more than 524,288 names, constants, labels, operators and
/// statements.
pub fn limits_of_sources_are_wide()
    ensures statements { (source : List ℕ) (program : Units) → IsAcceptedSource source program → HaveStatements program }
    ensures code { (source : List ℕ) (program : Units) → IsAcceptedSource source program → IsCodeBeyond program
        → 524288 < parts_of program }
{
    limits_are_wide();
}
