//! Laws of views: what is read from the arena is what the source machine has stored.
ghost use Rattle.std.specs.Prelude.{◌≡◌, ℕ, true, Some};
ghost use Rattle.hep_machine.specs.Words.{unit_at, Frame, is_held, activation_of, unit_of, cells_of_activation};
ghost use Rattle.hep_machine.specs.Words.{view_of};
ghost use Rattle.hep_arena.specs.Gaps.{frame_among};
ghost use Rattle.hep_arena.specs.Space.{Space};
ghost use Rattle.hep_layout.specs.Words.{Nodes};
ghost use Rattle.hep_proc.specs.FrameTable.{FramesOf, Keeps, as_wanted};
ghost use Rattle.hep_views.specs.StoredContents.{HasDummies, common_read, frame_read, frames_read};

/// The cells of COMMON's blocks at the arena's front are those of COMMON's view.
pub fn common_is_read()
    ensures { (f : FramesOf) (arena : Space) (nodes : Nodes) → Keeps (as_wanted f) arena nodes
        → common_read f.program arena.contents ≡ (view_of f.program is_held f.state).common_contents }
{}

/// The cells of an activation's frame are those of its variables, and of its dummy arguments that are associated with
/// expressions.
pub fn frames_are_read()
    ensures one { (f : FramesOf) (arena : Space) (nodes : Nodes) (a : ℕ) (frame : Frame) → Keeps (as_wanted f) arena nodes
        → frame_among a f.layout ≡ Some frame → HasDummies f.program f.state a
        → frame_read arena.contents a (unit_at f.program (unit_of f.state a)) frame.first
        ≡ cells_of_activation f.program f.state.store a (activation_of f.state a) }
    ensures all { (f : FramesOf) (arena : Space) (nodes : Nodes)
        → Keeps (as_wanted (record f { out = is_held f.state })) arena nodes
        → ((a : ℕ) → is_held f.state a ≡ true → HasDummies f.program f.state a)
        → frames_read f.program arena.contents f.layout 1 f.state.activations ≡ (view_of f.program is_held f.state).cells }
{}
