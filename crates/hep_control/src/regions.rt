//! The regions of a unit that no jump may lead into (X3.9-1978, 11.6.3, 11.7.2, 11.8.2 and 11.10.8).
ghost use Rattle.std.specs.Prelude.{◌≡◌, ◌++◌, Bool, IfOk, OnOk, map};
ghost use Rattle.std.specs.List.{flat_map, list_any};
ghost use Rattle.hep_conditions.specs.Nesting as nesting;
ghost use Rattle.hep_control.specs.Jumps as spec;
ghost use Rattle.hep_control.specs.Ranges.{do_range};

use crate::blocks::{BlockIf, block_ifs_of};
use crate::labels::Labels;
use crate::ranges::ranges_of;
use crate::region::{DoRange, Region};
use std::alloc::{AllocError, Global};

// The ranges and blocks of a unit, in any order.
pub(crate) fn regions_of(alloc: Global, labels: &Labels) -> Result<Vec<Region>, AllocError>
    ensures { IfOk result (λ regions. (test : nesting.Region → Bool)
        → list_any test (map spec.region regions.items) ≡ list_any test (nesting.regions_of labels.now)) }
{
    let ranges = ranges_of(alloc, labels)?;
    let blocks = block_ifs_of(alloc, labels.unit())?;
    let mut regions = Vec::new(alloc);
    add_ranges(&mut regions, &ranges)?;
    add_all_blocks(&mut regions, blocks.closed())?;
    add_all_blocks(&mut regions, blocks.unclosed())?;
    Ok(regions)
}

fn add_ranges(regions: &mut Vec<Region>, ranges: &[DoRange]) -> Result<(), AllocError>
    ensures { OnOk result (map spec.region regions.new.items
        ≡ map spec.region regions.old.items ++ map nesting.range_region (map do_range ranges.now)) }
{
    for range in ranges {
        regions.push(Region::new(range.start, range.terminal + 1))?;
    }
    Ok(())
}

fn add_all_blocks(regions: &mut Vec<Region>, blocks: &[BlockIf]) -> Result<(), AllocError>
    ensures { OnOk result (map spec.region regions.new.items
        ≡ map spec.region regions.old.items ++ flat_map spec.blocks_in blocks.now) }
{
    for block in blocks {
        add_blocks(regions, block)?;
    }
    Ok(())
}

fn add_blocks(regions: &mut Vec<Region>, block: &BlockIf) -> Result<(), AllocError>
    ensures { OnOk result (map spec.region regions.new.items
        ≡ map spec.region regions.old.items ++ spec.blocks_in block.now) }
{
    let mut start = block.start;
    for division in &block.divisions {
        regions.push(Region::new(start, *division))?;
        start = *division;
    }
    if let Some(end) = block.end {
        regions.push(Region::new(start, end))?;
    }
    Ok(())
}
