//! Letters that the IMPLICIT statements of a unit name twice (X3.9-1978, 8.5).
ghost use Rattle.std.specs.Prelude.{◌≡◌, ◌<◌, ◌++◌, None, length, get_or, slice_set, IfOk, OnOk};
ghost use Rattle.std.specs.List.{flat_map, list_any};
ghost use Rattle.hep_source.specs.declared.declaration.ImplicitGroup.{ImplicitGroup as PureGroup};
ghost use Rattle.hep_conditions.specs.Names as conditions;
ghost use Rattle.hep_types.specs.Ambiguities as spec;
ghost use Rattle.hep_types.specs.AmbiguityLines as passes;

use crate::all_ambiguities::{Ambiguity, add_when};
use hep_source::{Form, ImplicitGroup, LetterRange, Statement};
use std::alloc::{AllocError, Global};

type Ranges = Vec<(LetterRange, u32)>;

fn add_ranges(found: &mut Ranges, line: u32, ranges: &[LetterRange]) -> Result<(), AllocError>
    ensures { OnOk result (found.new.items ≡ found.old.items ++ passes.ranges_at line ranges.now) }
{
    for range in ranges {
        found.push((*range, line))?;
    }
    Ok(())
}

#[tactic(auto, using(crate::proofs::Used::ranges_append))]
fn add_groups(found: &mut Ranges, line: u32, groups: &[ImplicitGroup]) -> Result<(), AllocError>
    ensures { OnOk result (found.new.items ≡ found.old.items
        ++ passes.ranges_at line (flat_map (λ (g : PureGroup). g.letters) groups.now)) }
{
    for group in groups {
        add_ranges(found, line, group.letters.as_slice())?;
    }
    Ok(())
}

fn add_in(found: &mut Ranges, statement: &Statement) -> Result<(), AllocError>
    ensures { OnOk result (found.new.items ≡ found.old.items
        ++ passes.ranges_at statement.now.line (conditions.letter_ranges_in statement.now.form)) }
{
    match &statement.form {
        Form::Implicit(groups) => add_groups(found, statement.line, groups.as_slice()),
        _ => Ok(()),
    }
}

/// The ranges of letters of the IMPLICIT statements of a unit, in order, with their lines.
pub(crate) fn letter_ranges(alloc: Global, unit: &[Statement]) -> Result<Ranges, AllocError>
    ensures { IfOk result (λ found. found.items ≡ conditions.letter_ranges_of unit.now) }
{
    let mut found = Vec::new(alloc);
    for statement in unit {
        add_in(&mut found, statement)?;
    }
    Ok(found)
}

// The greatest last letter of the ranges with each first letter.
type LastLetters = [Option<u8>; 256];

fn reaches(letter: u8, last: Option<u8>) -> bool
    ensures { result ≡ passes.reaches letter last }
{
    match last {
        Some(last) => letter <= last,
        None => false,
    }
}

fn is_any_reaching(letter: u8, lasts: &[Option<u8>]) -> bool
    ensures { result ≡ list_any (passes.reaches letter) lasts.now }
{
    for last in lasts {
        if reaches(letter, *last) {
            return true;
        }
    }
    false
}

// Whether a letter of the range is in one of the other ranges.
fn meets(lasts: &LastLetters, range: &LetterRange) -> bool
    ensures { result ≡ passes.meets lasts.now range.now }
{
    is_any_reaching(range.first, &lasts[..usize::from(range.last) + 1])
}

fn later_letter(other: Option<u8>, last: u8) -> Option<u8>
    ensures { result ≡ passes.later_letter other last }
{
    match other {
        Some(other) => Some(other.max(last)),
        None => Some(last),
    }
}

fn note(lasts: &mut LastLetters, range: &LetterRange)
    ensures within { range.now.first < length lasts.old }
    ensures kept { lasts.new ≡ slice_set lasts.old range.now.first
        (passes.later_letter (get_or lasts.old range.now.first None) range.now.last) }
{
    let first = usize::from(range.first);
    lasts[first] = later_letter(lasts[first], range.last);
}

/// Adds each range that has a letter of an earlier range.
pub(crate) fn add_overlapping(
    found: &mut Vec<Ambiguity>,
    ranges: &[(LetterRange, u32)],
) -> Result<(), AllocError>
    ensures { OnOk result (found.new.items ≡ found.old.items ++ spec.repeated_letters ranges.now) }
{
    let mut lasts = [None; 256];
    for (range, line) in ranges {
        let is_overlapping = meets(&lasts, range);
        add_when(found, is_overlapping, None, *line)?;
        note(&mut lasts, range);
    }
    Ok(())
}
