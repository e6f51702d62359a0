//! The place of a process, and the storage unit in the cell that it waits for.
ghost use Rattle.std.specs.Prelude.{◌≡◌, ◌+◌, ◌-◌, ◌<◌, ◌&&◌, ℕ, IsSome, List, Some, drop, length};
ghost use Rattle.slab.specs.Slab.{ContainsKey};
ghost use Rattle.hep_machine.specs.Words.{Name, unit_at, BlockName, living, run};
ghost use Rattle.hep_code.specs.ControlTransfer as depths;
ghost use Rattle.hep_layout.specs.Words.{FrameNode};
ghost use Rattle.hep_image.specs.Image.{most_cells};
ghost use Rattle.hep_image.specs.Owners.{IsBlockTold, IsTold};
ghost use Rattle.hep_proc.specs.Nodes.{nodes_of};
ghost use Rattle.hep_state.specs.Words.{AreNumbered, IsMachineAfter, snapshot_of, HasLevels};
ghost use Rattle.hep_views.specs.ListedProcesses.{block_place, variable_place};
ghost use Rattle.hep_views.specs.ProcessPositions.{whereabouts_by};
ghost use Rattle.hep_views.specs.CellOwners.{CanBeListed, CanBeSought, IsListedAs, IsPlaceSought, has_cell as frame_has_cell, holder_above};

use crate::listed::Listed;
use crate::place::Place;
use crate::whereabouts::Whereabouts;
use hep_code::Instruction;
use hep_state::{CoreState, Frames, Image, Local, Want};

/// The level of the top activation of process p, which lives.
pub fn top_level(machine: &CoreState, p: u64) -> Local
    requires numbers { AreNumbered machine.now }
    requires living { HasLevels (snapshot_of machine.now) p }
    ensures { (levels : HasLevels (snapshot_of machine.now) p) → result ≡ levels.level }
{
    let at = machine.place(p);
    machine.processes[at].top()
}

/// The line of the first operation from an index of a unit's code on; 0 where there is none.
pub fn line_from(code: &[Instruction], index: usize) -> u32
    ensures { result ≡ depths.line_ahead (drop index code.now) }
{
    let mut at = index;
    while let Some(instruction) = code.get(at) {
        if let Instruction::Step { line, .. } = instruction {
            return *line;
        }
        at += 1;
    }
    0
}

// Whether the frame under a key has a cell.
fn has_cell(frames: &Frames, key: usize, cell: u32) -> bool
    requires { ContainsKey frames.now.nodes key }
    ensures { (n : FrameNode) → nodes_of frames.now.nodes key ≡ Some n → result ≡ frame_has_cell n cell }
{
    let first = frames.first(key);
    first <= cell && cell - first < frames.cells(key)
}

// The key of the node whose frame has a cell: that under this key, its parent's, and so on, `most` nodes at most.
fn holder(frames: &Frames, key: usize, cell: u32, most: u64) -> usize
    requires { IsSome (holder_above (nodes_of frames.now.nodes) cell most key) }
    ensures { holder_above (nodes_of frames.now.nodes) cell most key ≡ Some result }
{
    let mut at = key;
    for _ in 0..most {
        if has_cell(frames, at, cell) {
            return at;
        }
        let Some(above) = frames.parent(at) else {
            return at;
        };
        at = above;
    }
    at
}

// The position of COMMON in a cell.
fn in_common(image: &Image, cell: u32) -> Place
    requires few { cell < most_cells }
    requires there { (b : BlockName) × (i : ℕ) × IsBlockTold image.now cell b i }
    ensures { (b : BlockName) (i : ℕ) → IsBlockTold image.now cell b i → result ≡ block_place image.now b (i + 1) }
{
    let start = image.block_at(cell).unwrap();
    Place {
        owner: 0,
        name: image.block_number(start),
        element: cell - start.first + 1,
    }
}

// The variable in a cell of the frame of an activation, which runs the unit of this number. The cell is counted from
// the frame's first one.
fn in_frame(image: &Image, unit: usize, cell: u32, owner: u64) -> Place
    requires few { cell < most_cells }
    requires unit { unit < length image.now }
    requires there { (x : Name) × (i : ℕ) × IsTold (unit_at image.now unit) cell x i }
    ensures { (x : Name) (i : ℕ) → IsTold (unit_at image.now unit) cell x i → result ≡ variable_place image.now unit x (i + 1) owner }
{
    let variable = image.unit(unit).variable_at(cell).unwrap();
    let element = if variable.is_array {
        cell - variable.first + 1
    } else {
        0
    };
    Place {
        owner,
        name: image.variable_number(unit, variable),
        element,
    }
}

/// The storage unit in a cell: of COMMON, or of the activation whose node is under a key or one above it.
///
/// This costs the logarithm of the number of variables of a unit, and a step for each activation from that one up to
/// the one whose variable it is.
pub fn place_at(machine: &CoreState, image: &Image, key: usize, cell: u32) -> Place
    requires { CanBeSought image.now machine.now key cell }
    ensures { IsPlaceSought image.now machine.now key cell result }
{
    image.is_runnable();
    if cell < image.common() {
        return in_common(image, cell);
    }
    let frames = &machine.frames;
    let at = holder(frames, key, cell, machine.activations);
    in_frame(
        image,
        frames.unit(at) as usize,
        cell - frames.first(at),
        frames.activation(at),
    )
}

/// The words for process p, which waits for a cell: where it is and what it waits for.
///
/// This costs the logarithm of the number of variables of a unit, and a step for each activation from the process's
/// top one up to the one whose variable it is.
pub fn listed(machine: &CoreState, image: &Image, p: u64, want: Want) -> Listed
    requires { CanBeListed image.now machine.now p want }
    ensures { IsListedAs image.now machine.now p want result }
{
    let level = top_level(machine, p);
    let unit = image.unit(level.unit as usize);
    let line = line_from(unit.code.as_slice(), level.index);
    let place = place_at(machine, image, level.key, want.cell);
    Listed {
        process: p,
        unit: level.unit,
        line,
        full: want.full,
        owner: place.owner,
        name: place.name,
        element: place.element,
    }
}

/// The place of process p, which lives.
pub fn whereabouts(machine: &CoreState, image: &Image, p: u64) -> Whereabouts
    requires { (cells : ℕ) × (choices : List ℕ) × IsMachineAfter image.now cells choices machine.now
        × IsSome (living (run image.now choices) p) }
    ensures { (cells : ℕ) (choices : List ℕ) → IsMachineAfter image.now cells choices machine.now → IsSome (living (run image.now choices) p)
        → whereabouts_by image.now p (run image.now choices) ≡ Some result }
{
    let level = top_level(machine, p);
    let unit = image.unit(level.unit as usize);
    let line = line_from(unit.code.as_slice(), level.index);
    Whereabouts {
        process: p,
        unit: level.unit,
        line,
    }
}
