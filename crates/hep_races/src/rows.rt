//! The rows of races.
ghost use Rattle.std.specs.Prelude.{◌≡◌, ◌+◌, [], IfOk, OnOk, map, nat_eq};
ghost use Rattle.std.specs.Option.{option_copied};
ghost use Rattle.indexmap.specs.IndexMap.{values};
ghost use Rattle.hep_accesses.specs.Races.{with_pair};
ghost use Rattle.hep_races.specs.Observed.{row_in, step_access_in};
ghost use Rattle.hep_races.specs.RowTables.{AreUnderSites, next_row, pair_of, site_code};

use crate::event::{Access, StepAccess};
use crate::numbers::successor;
use indexmap::IndexMap;
use std::alloc::{AllocError, Global};
use std::marker::Model;

/// Two sites whose accesses race: a site is a place in the program, and whether it stores.
#[derive(Clone, Copy, Debug, PartialEq, Eq)]
pub struct Row {
    /// The latest access from one of the sites that races with the second one.
    pub first: StepAccess,
    /// The first access that races with an earlier one.
    pub second: StepAccess,
    /// How many accesses race with an earlier one.
    pub times: u64,
}

// Two sites in either order, by their numbers.
#[derive(Clone, Copy, Debug, PartialEq, Eq, Hash)]
pub(crate) struct SitePair {
    lower: u64,
    upper: u64,
}

// The number of a site: twice that of its place, and one more where it stores.
fn site_number(access: &Access) -> u64
    ensures { result ≡ site_code access.now }
{
    let place = 2 * u64::from(access.site);
    if access.stores { place + 1 } else { place }
}

// The sites of two accesses.
fn site_pair(d: &StepAccess, y: &StepAccess) -> SitePair
    ensures { result ≡ pair_of d.now y.now }
{
    let a = site_number(&d.access);
    let b = site_number(&y.access);
    if a <= b {
        SitePair { lower: a, upper: b }
    } else {
        SitePair { lower: b, upper: a }
    }
}

// The row of two accesses that race: one more in the row of their sites, or the first one.
fn next_row(found: Option<&Row>, d: &StepAccess, y: &StepAccess) -> Result<Row, AllocError>
    ensures { IfOk result (λ row. row ≡ next_row (option_copied found.entry) d.now y.now) }
{
    let Some(row) = found else {
        return Ok(Row {
            first: *d,
            second: *y,
            times: 1,
        });
    };
    let times = successor(row.times)?;
    Ok(Row {
        first: row.first,
        second: row.second,
        times,
    })
}

// The rows under their sites, in the order in which they came up.
type Rows = IndexMap<SitePair, Row>;

// Counts two accesses that race in the row of their sites, or begins one.
fn add_to(rows: &mut Rows, d: &StepAccess, y: &StepAccess) -> Result<(), AllocError>
    requires { AreUnderSites rows.old.entries }
    ensures under { AreUnderSites rows.new.entries }
    ensures added { OnOk result (map row_in (values rows.new)
        ≡ with_pair nat_eq (step_access_in d.now) (step_access_in y.now) (map row_in (values rows.old))) }
{
    let sites = site_pair(d, y);
    let row = next_row(rows.get(&sites), d, y)?;
    rows.insert(sites, row)?;
    Ok(())
}

/// The rows so far. Contracts see them as a list, in the order in which they came up.
pub(crate) struct RowTable {
    rows: Rows,
}

impl Drop for RowTable {
    fn drop(self) {
        let RowTable { rows } = self;
    }
}

impl Model for RowTable {
    ghost use Rattle.std.specs.Prelude.{List};
    ghost use Rattle.std.specs.Coded.{codes};
    ghost use Rattle.indexmap.specs.IndexMap.{values};
    ghost use Rattle.hep_races.specs.declared.rows.Row.{Row as PureRow};
    ghost use Rattle.hep_races.specs.contracts.rows.Row as row;
    ghost use Rattle.hep_races.specs.RowTables.{AreUnderSites};

    ghost Value = { List PureRow };

    ghost coded = { Prim.hlevel (codes, row.the_row.coded) };

    ghost view = { λ t. values t.rows };

    ghost invariant = { λ t. AreUnderSites t.rows.entries };
}

impl RowTable {
    /// No rows. This takes no memory.
    pub(crate) fn new(alloc: Global) -> RowTable
        ensures { result ≡ [] }
    {
        RowTable {
            rows: IndexMap::new(alloc),
        }
    }

    /// Counts two accesses that race in the row of their sites, or begins one.
    ///
    /// # Errors
    ///
    /// Where memory was refused, and where the count would pass 2^64 - 1.
    pub(crate) fn add(&mut self, d: &StepAccess, y: &StepAccess) -> Result<(), AllocError>
        ensures { OnOk result (map row_in self.new ≡ with_pair nat_eq (step_access_in d.now) (step_access_in y.now) (map row_in self.old)) }
    {
        add_to(&mut self.rows, d, y)
    }

    /// The rows, in the order in which they came up.
    pub(crate) fn rows(&self) -> &[Row]
        ensures { result.now ≡ self.now }
    {
        self.rows.values().as_slice()
    }
}
