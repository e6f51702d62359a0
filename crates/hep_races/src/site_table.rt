//! The sites of a run by numbers.
ghost use Rattle.std.specs.Prelude.{◌≡◌, [], ◌++◌, IfOk, List, OnOk, Some, slice_get};
ghost use Rattle.hep_races.specs.RunNames.{AreUnique};

use crate::step_access::AccessSite;
use indexmap::IndexSet;
use std::alloc::{AllocError, Global};
use std::marker::Model;

/// The sites that came up so far, numbered from 0 in this order. Contracts see the list of them.
pub struct SiteTable {
    sites: IndexSet<AccessSite>,
}

// Written out, so that a caller's proof has one call of it at each exit.
impl Drop for SiteTable {
    fn drop(self) {
        let SiteTable { sites } = self;
    }
}

impl Model for SiteTable {
    ghost use Rattle.std.specs.Prelude.{List};
    ghost use Rattle.hep_races.specs.declared.step_access.AccessSite.{AccessSite};

    ghost Value = { List AccessSite };

    ghost view = { λ table. table.sites.keys };
}

impl SiteTable {
    /// No site came up yet. This takes no memory.
    pub fn new(alloc: Global) -> SiteTable
        ensures { result ≡ [] }
    {
        SiteTable {
            sites: IndexSet::new(alloc),
        }
    }

    /// The sites, in the order of their numbers.
    pub fn as_slice(&self) -> &[AccessSite]
        ensures all { result.now ≡ self.now }
        ensures unique { AreUnique self.now }
    {
        self.sites.as_slice()
    }

    /// The number of a site, which is the next one where it came up never before. Other sites keep theirs.
    ///
    /// # Errors
    ///
    /// Where memory was refused, and where a number would pass 2^32 - 1.
    pub fn number(&mut self, site: AccessSite) -> Result<u32, AllocError>
        ensures numbered { IfOk result (λ number. slice_get self.new number ≡ Some site) }
        ensures kept { OnOk result ((more : List AccessSite) × (self.new ≡ self.old ++ more)) }
    {
        let Ok((index, _)) = self.sites.insert_full(site) else {
            return Err(AllocError);
        };
        u32::try_from(index).map_err(|_| AllocError)
    }
}
