//! Whether an activation is held.
ghost use Rattle.std.specs.Prelude.{◌≡◌, ℕ, List, Some};
ghost use Rattle.hep_layout.specs.Words.{FrameNode};
ghost use Rattle.hep_machine.specs.Words as source;
ghost use Rattle.hep_machine.specs.Words.{Units, is_number_among, living, run};
ghost use Rattle.hep_proc.specs.Nodes.{nodes_of};
ghost use Rattle.hep_state.specs.Words.{IsMachineAfter};
ghost use Rattle.hep_trace.specs.Ancestry.{ancestry, has_above};

use hep_state::CoreState;
use hep_views::lookup::top_level;

// Whether activation a is the one whose node is under a key, or above it. Parents have lower numbers than their
// children.
fn is_above(machine: &CoreState, key: usize, a: u64) -> bool
    requires { (program : Units) × (cells : ℕ) × (choices : List ℕ) × IsMachineAfter program cells choices machine.now
        × (n : FrameNode) × (nodes_of machine.now.frames.nodes key ≡ Some n) }
    ensures { (program : Units) (cells : ℕ) (choices : List ℕ) (n : FrameNode)
        → IsMachineAfter program cells choices machine.now → nodes_of machine.now.frames.nodes key ≡ Some n
        → result ≡ is_number_among a (ancestry (run program choices) n.activation n.activation) }
{
    let mut next = Some(key);
    while let Some(at) = next {
        let activation = machine.frames.activation(at);
        if activation <= a {
            return activation == a;
        }
        next = machine.frames.parent(at);
    }
    false
}

// Whether activation a is the top one of process p or above that; false where the process doesn't live.
fn is_kept_by(machine: &CoreState, p: u64, a: u64) -> bool
    requires { (program : Units) × (cells : ℕ) × (choices : List ℕ) × IsMachineAfter program cells choices machine.now }
    ensures { (program : Units) (cells : ℕ) (choices : List ℕ) → IsMachineAfter program cells choices machine.now
        → result ≡ has_above (run program choices) a (living (run program choices) p) }
{
    if !machine.lives(p) {
        return false;
    }
    is_above(machine, top_level(machine, p).key, a)
}

/// Whether activation a is held: it is on the stack of a process, or an ancestor of one that is.
///
/// This goes over the kept processes, and for each over the activations from its top one upwards that were made later
/// than a.
pub(crate) fn is_held(machine: &CoreState, a: u64) -> bool
    requires { (program : Units) × (cells : ℕ) × (choices : List ℕ) × IsMachineAfter program cells choices machine.now }
    ensures { (program : Units) (cells : ℕ) (choices : List ℕ) → IsMachineAfter program cells choices machine.now
        → result ≡ source.is_held (run program choices) a }
{
    for process in &machine.processes {
        if is_kept_by(machine, process.number, a) {
            return true;
        }
    }
    false
}
