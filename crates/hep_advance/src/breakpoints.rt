//! Breakpoints: the indexes of the code that are watched.
ghost use Rattle.std.specs.Prelude.{◌≡◌};
ghost use Rattle.hep_advance.specs.BreakpointRows as words;

/// For each index of a unit's code, whether it is watched.
#[derive(Drop)]
pub struct Breakpoints {
    pub watched: Vec<bool>,
}

/// The breakpoints of a unit, by the unit's index in the source, counted from 0; an empty row where there are none.
#[inline(always)]
pub(crate) fn row_of(watches: &[Breakpoints], unit: usize) -> &[bool]
    ensures { result.now ≡ words.row_of watches.now unit }
{
    match watches.get(unit) {
        Some(watch) => watch.watched.as_slice(),
        None => &[],
    }
}

/// Whether an index is watched by a row. Each index past its end is.
#[inline(always)]
pub(crate) fn watched_at(row: &[bool], index: usize) -> bool
    ensures { result ≡ words.watched_at row.now index }
{
    match row.get(index) {
        Some(watched) => *watched,
        None => true,
    }
}
