//! Laws of images.
ghost use Rattle.std.specs.Prelude.{◌≡◌, ◌+◌, ◌<◌, [], ℕ, true, nat_le, if◌then◌else◌, List, Some, None, length, slice_get};
ghost use Rattle.hep_machine.specs.Words.{Name, Statement, is_among, spelling, Units, dummies_of, main_unit, unit_at, BlockName, blocks_of, block_spelling};
ghost use Rattle.hep_machine.specs.Words.{is_block_among, common_cells, frame_of, opening_layout, run, frame_cells, names_of};
ghost use Rattle.hep_layout.specs.Words.{argument, common_row, frame_row, owner_in, variable};
ghost use Rattle.hep_image.specs.Data.{first_frames};
ghost use Rattle.hep_image.specs.Names.{block_number, names_in_order, variable_number};
ghost use Rattle.hep_image.specs.Owners.{IsBlockTold, IsTold};
ghost use Rattle.hep_code.specs.Sources.{IsNamedOnce};

/// If COMMON and the frame of the main program have no more cells than the arena, the frame follows COMMON at the
/// opening; if they have more, it has no gap. It has the cells of the main program.
pub fn openings_fit_by_numbers()
    ensures layout { (program : Units) (cells : ℕ) → opening_layout program cells
        ≡ (if nat_le (common_cells program + frame_cells (unit_at program (main_unit program))) cells then Some (first_frames program)
        else None) }
    ensures frame { (program : Units) → frame_of program (run program []) 1 ≡ frame_cells (unit_at program (main_unit program)) }
{}

/// The variables of a frame and the common blocks determine which variable has a cell, and at which index. This holds
/// of the cells of a local variable and of COMMON in every unit and program, and of those of a dummy argument where
/// no two dummy arguments have one name, as in accepted programs.
pub fn cells_tell_their_variables()
    ensures variable { (unit : List Statement) (x : Name) (i n : ℕ) → owner_in (frame_row unit) n ≡ Some (variable x, i)
        → IsTold unit n x i }
    ensures argument { (unit : List Statement) (x : Name) (i n : ℕ) → IsNamedOnce (dummies_of unit)
        → owner_in (frame_row unit) n ≡ Some (argument x, i) → IsTold unit n x i }
    ensures block { (program : Units) (b : BlockName) (i n : ℕ) → owner_in (common_row program) n ≡ Some (b, i)
        → IsBlockTold program n b i }
{}

/// The number of a name determines it: that of a variable of a unit which has one of this name, and that of a common
/// block.
pub fn numbers_tell_names()
    ensures variable { (program : Units) (u : ℕ) (x : Name) → u < length program → is_among x (names_of (unit_at program u)) ≡ true
        → slice_get (names_in_order program) (variable_number program u x) ≡ Some (spelling x) }
    ensures block { (program : Units) (b : BlockName) → is_block_among b (blocks_of program) ≡ true
        → slice_get (names_in_order program) (block_number program b) ≡ Some (block_spelling b) }
{}
