//! Laws of the starts of common blocks.
ghost use Rattle.std.specs.Prelude.{◌≡◌, ◌≤◌, true};
ghost use Rattle.hep_machine.specs.Words.{Units, BlockName, blocks_of, is_block_among, common_cells};
ghost use Rattle.hep_layout.specs.Words.{first_of_block};
ghost use Rattle.hep_storage.specs.Starts.{AreStarts, start_in};
ghost use Rattle.hep_storage.specs.declared.starts.CommonStarts.{CommonStarts};

/// Where COMMON has at most 16,777,216 cells, as in every arena, the recorded start of a block of the
/// program is its first cell.
pub fn starts_are_first_cells()
    ensures { (program : Units) (c : CommonStarts) (b : BlockName) → common_cells program ≤ 16777216 → AreStarts program c
        → is_block_among b (blocks_of program) ≡ true → start_in c b ≡ first_of_block program b }
{}
