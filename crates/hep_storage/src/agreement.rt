//! Condition 305: units have a common block otherwise (X3.9-1978, 8.3.3 to 8.3.5).
ghost use Rattle.std.specs.Prelude.{◌≡◌, ◌||◌, ℕ, Bool, List, None, IfOk, OnOk};
ghost use Rattle.std.specs.List.{list_any};
ghost use Rattle.hep_machine.specs.Words.{BlockName};
ghost use Rattle.hep_conditions.specs.Common as conditions;
ghost use Rattle.hep_conditions.specs.declared.violation.Violation.{Violation as PureViolation};
ghost use Rattle.hep_storage.specs.Agreement as agreement;
ghost use Rattle.hep_storage.specs.BlockTable.{block_at, summed_in, entry_at};

use crate::block_contents::NamesInBlocks;
use crate::block_table::{BlockTable, settle};
use crate::blocks::read_blocks;
use hep_conditions::reported::add_line;
use hep_names::ProgramSymbols;
use hep_source::Name;
use indexmap::{IndexMap, IndexSet};
use std::alloc::{AllocError, Global};

// The state while units are read: the blocks of all units so far, the names of the current unit's blocks, and the names in these blocks.
struct MetBlocks {
    table: BlockTable,
    named: Vec<Option<Name>>,
    noted: NamesInBlocks,
}

// This is written out so that the proof of a caller has one call of it at each exit.
impl Drop for MetBlocks {
    fn drop(self) {
        let MetBlocks {
            table,
            named,
            noted,
        } = self;
    }
}

// Adds the lines of the blocks of a unit, which all have their names here, that differ.
fn add_in_unit(
    lines: &mut Vec<u32>,
    table: &mut BlockTable,
    named: &[Option<Name>],
) -> Result<(), AllocError>
    requires { agreement.AreAmong named.now (λ b. block_at (entry_at table.old b)) }
    ensures lines { OnOk result ((all : List BlockName) → agreement.AreAmong all (λ b. block_at (entry_at table.old b)) → (test : ℕ → Bool)
        → list_any test lines.new.items ≡ (list_any test lines.old.items
        || agreement.passes_left test all (λ b. summed_in (entry_at table.old b)) (λ b. block_at (entry_at table.old b)))) }
    ensures added { OnOk result ((b : BlockName) → summed_in (entry_at table.new b)
        ≡ agreement.with_block (block_at (entry_at table.old b)) (summed_in (entry_at table.old b))) }
    ensures none { OnOk result ((b : BlockName) → block_at (entry_at table.new b) ≡ None) }
{
    for block in named {
        let line = settle(table, *block);
        add_line(lines, line)?;
    }
    Ok(())
}

/// The lines of all violations of 305 in a program, in any order.
///
/// # Errors
///
/// Only where memory was refused.
pub fn common_lines(alloc: Global, program: &ProgramSymbols) -> Result<Vec<u32>, AllocError>
    ensures { IfOk result (λ lines. (test : ℕ → Bool) → list_any test lines.items
        ≡ list_any (λ (v : PureViolation). test v.line) (conditions.common_violations program.now)) }
{
    let mut met = MetBlocks {
        table: IndexMap::new(alloc),
        named: Vec::new(alloc),
        noted: IndexSet::new(alloc),
    };
    let mut lines = Vec::new(alloc);
    for symbols in program.units() {
        read_blocks(
            alloc,
            symbols,
            &mut met.table,
            &mut met.named,
            &mut met.noted,
        )?;
        add_in_unit(&mut lines, &mut met.table, &met.named)?;
        met.named.clear();
        met.noted.clear();
    }
    Ok(lines)
}
