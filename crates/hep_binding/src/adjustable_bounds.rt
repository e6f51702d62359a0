//! Writes the bounds of adjustable arrays to the last cells of a new frame.
ghost use Rattle.std.specs.Prelude.{◌≡◌, ◌+◌, ◌*◌, ◌<◌, ◌≤◌, ℕ, Some, None, length};
ghost use Rattle.slab.specs.Slab.{ContainsKey};
ghost use Rattle.hep_machine.specs.Words.{Bounds, Frame, frame_cells};
ghost use Rattle.hep_arena.specs.Gaps.{frame_among};
ghost use Rattle.hep_arena.specs.Holes.{IsOut};
ghost use Rattle.hep_proc.specs.FrameTable.{AreOfSomeState, FramesOf, Keeps};
ghost use Rattle.hep_proc.specs.Nodes.{nodes_of};
ghost use Rattle.hep_proc.specs.FrameEntry.{KeepsPlaces};
ghost use Rattle.hep_binding.specs.AdjustableBounds.{AreShaping, IsBoundPut, IsFramedBy, IsShaping, cells_of_shape, cells_of_shapes};
ghost use Rattle.hep_binding.specs.AdjustableBounds.{cells_to_bounds_of};
ghost use Rattle.hep_binding.specs.FrameWriting.{AreCellsOut, unit_framed, written_up_to};
ghost use Rattle.hep_layout.specs.Words.{FrameNode};

use hep_machine::Bound;
use hep_proc::Frames;
use hep_step::Shape;
use hep_step::frame::number;

// Writes the bounds of a dimension to its two cells. An open upper bound leaves the second cell without a value.
fn put_bound(frames: &mut Frames, at: u32, bound: Bound)
    requires few { length frames.old.arena.contents ≤ 16777216 }
    requires inside { at + 2 ≤ length frames.old.arena.contents }
    requires first { IsOut at frames.old.arena.holes }
    requires second { IsOut (at + 1) frames.old.arena.holes }
    ensures put { IsBoundPut at bound.lower bound.upper frames.old.arena frames.new.arena }
    ensures same { KeepsPlaces frames.old frames.new }
{
    let Bound { lower, upper } = bound;
    frames.set(at, number(lower));
    if let Some(upper) = upper {
        frames.set(at + 1, number(upper));
    }
}

// Writes the bounds of an adjustable array of a new activation to its cells, from `at` on.
//
// The cells are taken, two for each dimension.
fn shape(frames: &mut Frames, at: u32, bounds: &[Bound])
    requires few { length frames.old.arena.contents ≤ 16777216 }
    requires inside { at + 2 * length bounds.now ≤ length frames.old.arena.contents }
    requires out { (p : ℕ) → at ≤ p → p < at + 2 * length bounds.now → IsOut p frames.old.arena.holes }
    ensures shaped { (f : FramesOf) (a k : ℕ)
        → Keeps (written_up_to f a (cells_to_bounds_of (unit_framed f a) k)) frames.old.arena (nodes_of frames.old.nodes)
        → IsShaping f.program f.state f.layout a k at bounds.now
        → Keeps (written_up_to f a (cells_to_bounds_of (unit_framed f a) (k + 1))) frames.new.arena (nodes_of frames.new.nodes) }
    ensures same { KeepsPlaces frames.old frames.new }
{
    let mut next = at;
    for bound in bounds {
        put_bound(frames, next, *bound);
        next += 2;
    }
}

// The number of cells of a dummy argument's bounds.
fn cells_of(shape: &Option<Shape>) -> u32
    ensures { result ≡ cells_of_shape shape.now }
{
    match shape {
        None => 0,
        Some(known) => 2 * known.bounds().len() as u32,
    }
}

// The number of cells of the bounds of all dummy arguments.
fn cells_of_all(shapes: &[Option<Shape>]) -> u32
    requires { cells_of_shapes shapes.now ≤ 16777216 }
    ensures { result ≡ cells_of_shapes shapes.now }
{
    let mut cells = 0;
    for shape in shapes {
        cells += cells_of(shape);
    }
    cells
}

// Writes the bounds of a dummy argument of a new activation to its cells, from `at` on, where its array is
// adjustable. Returns the cell after them.
fn shape_one(frames: &mut Frames, at: u32, shape_of_one: &Option<Shape>) -> u32
    requires { AreCellsOut at (cells_of_shape shape_of_one.now) frames.old.arena }
    ensures next { result ≡ at + cells_of_shape shape_of_one.now }
    ensures none { shape_of_one.now ≡ None → frames.new.arena ≡ frames.old.arena }
    ensures shaped { (bounds : Bounds) → shape_of_one.now ≡ Some bounds → (f : FramesOf) (a k : ℕ)
        → Keeps (written_up_to f a (cells_to_bounds_of (unit_framed f a) k)) frames.old.arena (nodes_of frames.old.nodes)
        → IsShaping f.program f.state f.layout a k at bounds
        → Keeps (written_up_to f a (cells_to_bounds_of (unit_framed f a) (k + 1))) frames.new.arena (nodes_of frames.new.nodes) }
    ensures same { KeepsPlaces frames.old frames.new }
{
    let Some(known) = shape_of_one else {
        return at;
    };
    let bounds = known.bounds();
    shape(frames, at, bounds);
    at + 2 * bounds.len() as u32
}

// Writes the bounds of all adjustable arrays of a new activation to their cells, from `at` on, one dummy argument
// after another.
#[inline(always)]
fn shape_from(frames: &mut Frames, at: u32, shapes: &[Option<Shape>])
    requires few { length frames.old.arena.contents ≤ 16777216 }
    requires inside { at + cells_of_shapes shapes.now ≤ length frames.old.arena.contents }
    requires out { (p : ℕ) → at ≤ p → p < at + cells_of_shapes shapes.now → IsOut p frames.old.arena.holes }
    ensures shaped { (f : FramesOf) (a : ℕ) (frame : Frame)
        → Keeps (written_up_to f a (cells_to_bounds_of (unit_framed f a) 0)) frames.old.arena (nodes_of frames.old.nodes)
        → frame_among a f.layout ≡ Some frame → at ≡ frame.first + cells_to_bounds_of (unit_framed f a) 0
        → AreShaping f.program f.state a shapes.now
        → Keeps (written_up_to f a (frame_cells (unit_framed f a))) frames.new.arena (nodes_of frames.new.nodes) }
    ensures same { KeepsPlaces frames.old frames.new }
{
    let mut next = at;
    for one in shapes {
        next = shape_one(frames, next, one);
    }
}

/// Writes the shapes of the adjustable arrays of a new activation, whose node is under a key, to the last cells of
/// its frame, one dummy argument after another, with two cells for the bounds of each dimension (X3.9-1978, 5.5.1).
///
/// The frame has at least that many cells.
#[inline(always)]
pub fn shape_all(frames: &mut Frames, key: usize, shapes: &[Option<Shape>])
    requires few { length frames.old.arena.contents ≤ 16777216 }
    requires there { ContainsKey frames.old.nodes key }
    requires kept { AreOfSomeState frames.old.arena (nodes_of frames.old.nodes) }
    requires many { (n : FrameNode) → nodes_of frames.old.nodes key ≡ Some n → cells_of_shapes shapes.now ≤ n.cells }
    ensures shaped { (f : FramesOf) (a : ℕ) (n : FrameNode)
        → Keeps (written_up_to f a (cells_to_bounds_of (unit_framed f a) 0)) frames.old.arena (nodes_of frames.old.nodes)
        → nodes_of frames.old.nodes key ≡ Some n → IsFramedBy f.program f.state f.layout a n
        → AreShaping f.program f.state a shapes.now
        → Keeps (written_up_to f a (frame_cells (unit_framed f a))) frames.new.arena (nodes_of frames.new.nodes) }
    ensures same { KeepsPlaces frames.old frames.new }
{
    let end = frames.first(key) + frames.cells(key);
    let at = end - cells_of_all(shapes);
    shape_from(frames, at, shapes);
}
