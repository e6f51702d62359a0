//! The lines of races: docs/RUNS.md, "Races of a run".
ghost use Rattle.std.specs.Prelude.{◌≡◌, ◌++◌, OnOk, map};
ghost use Rattle.hep_image.specs.Names.{names_in_order};
ghost use Rattle.hep_races.specs.Observed.{row_in, step_access_in};
ghost use Rattle.hep_races.specs.RaceLines as words;
ghost use Rattle.hep_races.specs.SeenRaces.{place_of_unit, site_at, site_seen, words_seen};
ghost use Rattle.hep_state_text.specs.WaitTexts.{place_seen};

use crate::entry_number::entry_number;
use crate::event::StepAccess;
use crate::rows::Row;
use crate::step_access::AccessSite;
use crate::storage_unit::StorageUnit;
use hep_base::append_number;
use hep_event::name_of;
use hep_image::Image;
use hep_replay::HistoryPrefix;
use hep_source::{Form, Name, Statement};
use hep_state_text::{Listing, Place, place_text};
use std::alloc::{AllocError, Global};

// ---- the end of a DO

// The label of the statement on a line.
fn label_on(line: u32, unit: &[Statement]) -> Option<u32>
    ensures { result ≡ words.label_on line unit.now }
{
    for statement in unit {
        if statement.line == line {
            return statement.label;
        }
    }
    None
}

// Whether it is a DO of this variable whose terminal statement has this label.
fn is_loop_to(variable: Name, label: Option<u32>, form: &Form) -> bool
    ensures { result ≡ words.is_loop_to variable label form.now }
{
    let Some(label) = label else {
        return false;
    };
    match form {
        Form::Do(control) => control.terminal == label && control.variable.name == variable,
        _ => false,
    }
}

// Whether the statement on a line ends a DO of this variable.
fn ends_loop(unit: &[Statement], variable: Name, line: u32) -> bool
    ensures { result ≡ words.ends_loop unit.now variable line }
{
    let label = label_on(line, unit);
    unit.iter()
        .any(|statement| is_loop_to(variable, label, &statement.form))
}

// ---- lines

fn verb(stores: bool, ends_loop: bool) -> &'static [u8]
    ensures { result.now ≡ words.verb_text stores ends_loop }
{
    match (stores, ends_loop) {
        (false, _) => b"read ",
        (true, true) => b"next ",
        (true, false) => b"store ",
    }
}

/// What the rows of races are written by: the program, the sites of the accesses by their numbers, the entries, and
/// the lines of the source, which are shown below a row where there are some.
#[derive(Clone, Copy)]
pub struct RaceSources<'a> {
    pub image: &'a Image,
    pub sites: &'a [AccessSite],
    pub entries: HistoryPrefix<'a>,
    pub lines: Option<&'a Listing<'a>>,
}

// Where there is no site with a number.
const NO_SITE: AccessSite = AccessSite {
    unit: 0,
    line: 0,
    name: Name {
        asynchronous: false,
        letters: *b"      ",
    },
};

// The site with a number.
fn site_at(sites: &[AccessSite], number: u32) -> AccessSite
    ensures { result ≡ site_at sites.now number }
{
    match sites.get(number as usize) {
        Some(site) => *site,
        None => NO_SITE,
    }
}

// Whether the statement at a site ends a DO of the site's name.
fn ends_loop_at(image: &Image, site: &AccessSite) -> bool
    ensures { result ≡ (site_seen image.now site.now).ends_loop }
{
    match image.program().as_slice().get(site.unit as usize) {
        Some(unit) => ends_loop(unit.as_slice(), site.name, site.line),
        None => false,
    }
}

// Appends what is done at a site, to which name, and by which process.
fn append_deed(
    alloc: Global,
    text: &mut Vec<u8>,
    image: &Image,
    site: &AccessSite,
    access: &StepAccess,
) -> Result<(), AllocError>
    ensures { OnOk result (text.new.items
        ≡ text.old.items ++ words.deed_text (site_seen image.now site.now) access.now.access.stores access.now.process) }
{
    let ends = ends_loop_at(image, site);
    let name = site.name.spelling(alloc)?;
    text.extend_from_slice(verb(access.access.stores, ends))?;
    text.extend_from_slice(name.as_slice())?;
    text.extend_from_slice(b" by process ")?;
    append_number(text, access.process)
}

// Appends where a site is, and the entry of the step.
fn append_where(
    text: &mut Vec<u8>,
    image: &Image,
    site: &AccessSite,
    entry: u64,
) -> Result<(), AllocError>
    ensures { OnOk result (text.new.items ≡ text.old.items ++ words.where_text (site_seen image.now site.now) entry) }
{
    text.extend_from_slice(b" at ")?;
    text.extend_from_slice(name_of(image, site.unit))?;
    text.extend_from_slice(b" LINE ")?;
    append_number(text, site.line)?;
    text.extend_from_slice(b" (entry ")?;
    append_number(text, entry)?;
    text.extend_from_slice(b")")
}

// Appends the words for an access.
fn append_access(
    alloc: Global,
    text: &mut Vec<u8>,
    sources: &RaceSources<'_>,
    access: &StepAccess,
) -> Result<(), AllocError>
    ensures { OnOk result (text.new.items
        ≡ text.old.items ++ words.access_text (words_seen sources.now) (step_access_in access.now)) }
{
    let site = site_at(sources.sites, access.access.site);
    let entries = &sources.entries;
    let entry = entry_number(entries.history, entries.count, access.step);
    append_deed(alloc, text, sources.image, &site, access)?;
    append_where(text, sources.image, &site, entry)
}

// Appends how often sites raced, which ends the line.
fn append_times(text: &mut Vec<u8>, times: u64) -> Result<(), AllocError>
    ensures { OnOk result (text.new.items ≡ text.old.items ++ words.times_text times) }
{
    text.extend_from_slice(b", ")?;
    append_number(text, times)?;
    if times == 1 {
        text.extend_from_slice(b" time\n")
    } else {
        text.extend_from_slice(b" times\n")
    }
}

// Appends the line of the source of an access, if lines are shown.
fn append_source(
    text: &mut Vec<u8>,
    sources: &RaceSources<'_>,
    access: &StepAccess,
) -> Result<(), AllocError>
    ensures { OnOk result (text.new.items
        ≡ text.old.items ++ words.source_text (words_seen sources.now) (step_access_in access.now)) }
{
    match sources.lines {
        Some(lines) => lines.append(text, site_at(sources.sites, access.access.site).line),
        None => Ok(()),
    }
}

// Appends the words for a storage unit.
fn append_place(
    alloc: Global,
    text: &mut Vec<u8>,
    image: &Image,
    at: StorageUnit,
) -> Result<(), AllocError>
    ensures { OnOk result (text.new.items ≡ text.old.items ++ place_seen (names_in_order image.now) (place_of_unit at)) }
{
    let place = Place {
        owner: at.owner,
        name: at.name,
        element: at.element,
    };
    let words = place_text(alloc, image, place)?;
    text.extend_from_slice(&words)
}

// Appends the line of a race.
fn append_race(
    alloc: Global,
    text: &mut Vec<u8>,
    sources: &RaceSources<'_>,
    row: &Row,
) -> Result<(), AllocError>
    ensures { OnOk result (text.new.items
        ≡ text.old.items ++ words.line_text (words_seen sources.now) (row_in row.now)) }
{
    text.extend_from_slice(b"RACE on ")?;
    append_place(alloc, text, sources.image, row.second.access.at)?;
    text.extend_from_slice(b": ")?;
    append_access(alloc, text, sources, &row.first)?;
    text.extend_from_slice(b" and ")?;
    append_access(alloc, text, sources, &row.second)?;
    append_times(text, row.times)
}

// Appends the lines of a row.
fn append_row(
    alloc: Global,
    text: &mut Vec<u8>,
    sources: &RaceSources<'_>,
    row: &Row,
) -> Result<(), AllocError>
    ensures { OnOk result (text.new.items ≡ text.old.items ++ words.row_text (words_seen sources.now) (row_in row.now)) }
{
    append_race(alloc, text, sources, row)?;
    append_source(text, sources, &row.first)?;
    append_source(text, sources, &row.second)
}

/// Appends the lines of the races of a run, and the line that other runs may have others.
///
/// # Errors
///
/// Only where memory was refused.
pub fn append_rows(
    alloc: Global,
    text: &mut Vec<u8>,
    sources: &RaceSources<'_>,
    rows: &[Row],
) -> Result<(), AllocError>
    ensures { OnOk result (text.new.items ≡ text.old.items ++ words.rows_text (words_seen sources.now) (map row_in rows.now)) }
{
    for row in rows {
        append_row(alloc, text, sources, row)?;
    }
    text.extend_from_slice(b"OTHER RUNS MAY HAVE OTHERS\n")
}
