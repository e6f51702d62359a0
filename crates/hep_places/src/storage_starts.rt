//! The first storage units of the names of a unit (X3.9-1978, 2.13, 8.3.2 and 15.9.3).
ghost use Rattle.std.specs.Prelude.{◌≡◌, IfOk};
ghost use Rattle.indexmap.specs.IndexMap.{get};
ghost use Rattle.hep_machine.specs.Words.{name_eq};
ghost use Rattle.hep_places.specs.StorageStarts as found;

use crate::block_offsets::offset_table;
use crate::cell_numbers::{behind_pairs, further};
use crate::frame_starts::FrameStarts;
use crate::loop_cells::LoopCells;
use hep_image::Start;
use hep_names::Symbols;
use hep_source::Name;
use hep_storage::CommonStarts;
use indexmap::IndexMap;
use std::alloc::{AllocError, Global};
use std::mem::replace;

// The parts of a unit's frame, and the offsets of its names in COMMON in their blocks.
pub(crate) struct StorageStarts {
    pub(crate) offsets: IndexMap<Name, u32>,
    pub(crate) locals: IndexMap<Name, u32>,
    pub(crate) bounds: IndexMap<Name, u32>,
    pub(crate) loop_cells: Vec<u32>,
    // The number of cells of the frame.
    pub(crate) cells: u32,
}

impl Drop for StorageStarts {
    fn drop(self) {
        let StorageStarts {
            offsets,
            locals,
            bounds,
            loop_cells,
            cells,
        } = self;
    }
}

// Dummy arguments follow the header, with two cells each; then come local variables, DOs and bounds.
pub(crate) fn tables_of(alloc: Global, symbols: &Symbols) -> Result<StorageStarts, AllocError>
    ensures { IfOk result (found.AreTables symbols.now) }
{
    let first = behind_pairs(1, symbols.dummies().len());
    let mut locals = FrameStarts::new(alloc, first, symbols.locals().len())?;
    locals.add_all(alloc, symbols, symbols.locals())?;
    let mut loops = LoopCells::new(alloc, locals.next);
    loops.add_statements(symbols.statements())?;
    let mut bounds = FrameStarts::new(alloc, loops.next, symbols.dummies().len())?;
    bounds.add_all(alloc, symbols, symbols.dummies())?;
    let offsets = offset_table(alloc, symbols)?;
    Ok(StorageStarts {
        offsets,
        locals: replace(&mut locals.table, IndexMap::new(alloc)),
        bounds: replace(&mut bounds.table, IndexMap::new(alloc)),
        loop_cells: loops.cells,
        cells: bounds.next,
    })
}

// The first storage unit of a name, if it has any.
pub(crate) fn start_of(
    symbols: &Symbols,
    common: &CommonStarts,
    tables: &StorageStarts,
    name: &Name,
) -> Option<Start>
    ensures { result ≡ found.start_found symbols.now common.now (get name_eq tables.now.offsets) (get name_eq tables.now.locals) name.now }
{
    if let Some(position) = symbols.dummy_position(name) {
        return Some(Start::Dummy(behind_pairs(1, position)));
    }
    if let Some(block) = symbols.common_block(name) {
        let offset = tables.offsets.get(name).copied().unwrap_or(0);
        return Some(Start::Common(further(common.start(block), offset)));
    }
    let cell = tables.locals.get(name).copied()?;
    Some(Start::Local(cell))
}
