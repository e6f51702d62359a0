//! Warnings and their lines of text.
ghost use Rattle.std.specs.Prelude.{◌≡◌, ◌++◌, codes, IfOk, OnOk};
ghost use Rattle.std.specs.Fmt.{decimal};
ghost use Rattle.std.specs.List.{flat_map};
ghost use Rattle.hep_machine.specs.Words.{letters_of, spelling};
ghost use Rattle.hep_warnings.specs.Lines as lines;

use hep_base::Text;
use hep_source::Name;
use itoa::Buffer;
use std::alloc::{AllocError, Global};

/// The kind of a warning.
#[derive(Clone, Copy)]
pub enum WarningKind {
    /// The line has a character after column 72, which doesn't count.
    Behind,
    /// No statement of the unit uses this label.
    Label(u32),
    /// No statement of another unit calls, creates or references this subroutine or function.
    Unit(Name),
    /// This subroutine is created within the range of a DO, and gets the variable of that DO.
    Create(Name, Name),
    /// This name occurs once in the unit: it may be misspelled.
    Once(Name),
    /// No statement of the unit fills this variable or passes it to a unit that may fill it.
    NeverFilled(Name),
    /// The unit fills this variable, but no statement reads it or tests its state.
    NeverRead(Name),
}

/// A warning: a line of the source, counted from 1, and the kind of warning.
#[derive(Clone, Copy)]
pub struct Warning {
    pub line: u32,
    pub kind: WarningKind,
}

// Appends a number.
fn append_number(text: &mut Vec<u8>, number: u32) -> Result<(), AllocError>
    ensures { OnOk result (text.new.items ≡ text.old.items ++ decimal number) }
{
    let mut buffer = Buffer::new();
    text.extend_from_slice(buffer.format(number).as_bytes())?;
    Ok(())
}

// Appends letters without the blanks among them.
fn append_letters(text: &mut Vec<u8>, letters: &[u8]) -> Result<(), AllocError>
    ensures { OnOk result (text.new.items ≡ text.old.items ++ letters_of letters.now) }
{
    for letter in letters {
        if *letter != b' ' {
            text.push(*letter)?;
        }
    }
    Ok(())
}

// Appends a name as it is written.
fn append_name(text: &mut Vec<u8>, name: &Name) -> Result<(), AllocError>
    ensures { OnOk result (text.new.items ≡ text.old.items ++ spelling name.now) }
{
    if name.asynchronous {
        text.push(b'$')?;
    }
    append_letters(text, &name.letters)
}

// Appends a name with a text before it and a text after it.
fn append_about(
    text: &mut Vec<u8>,
    before: &[u8],
    name: &Name,
    behind: &[u8],
) -> Result<(), AllocError>
    ensures { OnOk result (text.new.items ≡ text.old.items ++ (before.now ++ spelling name.now ++ behind.now)) }
{
    text.extend_from_slice(before)?;
    append_name(text, name)?;
    text.extend_from_slice(behind)?;
    Ok(())
}

// Appends the text of an unused label.
fn append_label(text: &mut Vec<u8>, label: u32) -> Result<(), AllocError>
    ensures { OnOk result (text.new.items ≡ text.old.items ++ (codes "LABEL " ++ decimal label ++ codes " UNUSED")) }
{
    text.extend_from_slice(b"LABEL ")?;
    append_number(text, label)?;
    text.extend_from_slice(b" UNUSED")?;
    Ok(())
}

/// Appends the text of a kind of warning.
///
/// # Errors
///
/// Only where memory was refused.
pub fn append_kind(text: &mut Vec<u8>, kind: &WarningKind) -> Result<(), AllocError>
    ensures { OnOk result (text.new.items ≡ text.old.items ++ lines.kind_text kind.now) }
{
    match kind {
        WarningKind::Behind => {
            text.extend_from_slice(b"BEHIND COLUMN 72")?;
            Ok(())
        }
        WarningKind::Label(label) => append_label(text, *label),
        WarningKind::Unit(name) => append_about(text, b"UNIT ", name, b" UNUSED"),
        WarningKind::Create(subroutine, variable) => {
            append_about(text, b"CREATE ", subroutine, b" PASSES ")?;
            append_about(text, b"", variable, b" OF A DO")
        }
        WarningKind::Once(name) => append_about(text, b"NAME ", name, b" USED ONCE"),
        WarningKind::NeverFilled(name) => append_about(text, b"NAME ", name, b" NEVER FILLED"),
        WarningKind::NeverRead(name) => append_about(text, b"NAME ", name, b" NEVER READ"),
    }
}

// Appends the line of a warning.
fn append_warning(text: &mut Vec<u8>, warning: &Warning) -> Result<(), AllocError>
    ensures { OnOk result (text.new.items ≡ text.old.items ++ lines.warning_line warning.now) }
{
    text.extend_from_slice(b"WARNING LINE ")?;
    append_number(text, warning.line)?;
    text.extend_from_slice(b" ")?;
    append_kind(text, &warning.kind)?;
    text.extend_from_slice(b"\n")?;
    Ok(())
}

// Appends the lines of warnings.
fn append_warnings(text: &mut Vec<u8>, warnings: &[Warning]) -> Result<(), AllocError>
    ensures { OnOk result (text.new.items ≡ text.old.items ++ lines.warning_text warnings.now) }
{
    for warning in warnings {
        append_warning(text, warning)?;
    }
    Ok(())
}

/// The lines of warnings, in order.
///
/// # Errors
///
/// Only where memory was refused.
pub fn warning_text(alloc: Global, warnings: &[Warning]) -> Result<Text, AllocError>
    ensures { IfOk result (λ text. text ≡ lines.warning_text warnings.now) }
{
    let mut text = Vec::new(alloc);
    append_warnings(&mut text, warnings)?;
    Ok(Text::from(text))
}
