//! The next place after the statements of a unit (X3.9-1978, section 11).
ghost use Rattle.std.specs.Prelude.{◌≡◌, ◌<◌, ◌≤◌, length};
ghost use Rattle.hep_machine.specs.Control as control_words;
ghost use Rattle.hep_code.specs.Targets as targets;
ghost use Rattle.hep_lower.specs.Destinations.{destination};

use hep_control::control::Control;
use hep_source::Statement;

/// The next place in a unit.
#[derive(Clone, Copy, PartialEq, Eq)]
pub enum Destination {
    /// To the statement at an index.
    Statement(usize),
    /// To the end of the DO at an index.
    LoopEnd(usize),
}

// After the last statement no other one follows.
#[tactic(auto, using(crate::proofs::Flows::following_past))]
fn following(control: &Control, index: usize) -> usize
    requires { index ≤ length control.now }
    ensures { result ≡ control_words.following control.now index }
{
    if index < control.unit().len() {
        control.following(index)
    } else {
        index + 1
    }
}

/// The place after a statement.
#[tactic(auto, unfolding(hep_code::specs::Targets::onward), using(crate::proofs::Flows::behind_none, crate::proofs::Flows::behind_some))]
pub fn onward(control: &Control, index: usize) -> Destination
    requires { index < length control.now }
    ensures { destination result ≡ targets.onward control.now index }
{
    match control.innermost_loop(index) {
        Some(innermost) => Destination::LoopEnd(innermost),
        None => Destination::Statement(control.following(index)),
    }
}

/// The place after a DO.
#[tactic(auto, unfolding(hep_code::specs::Targets::outward), using(crate::proofs::Flows::behind_none, crate::proofs::Flows::behind_some, crate::proofs::Flows::terminal_at_most))]
pub fn outward(control: &Control, index: usize) -> Destination
    requires { index < length control.now }
    ensures { destination result ≡ targets.outward control.now index }
{
    match control.outer_loop(index) {
        Some(outer) => Destination::LoopEnd(outer),
        None => Destination::Statement(following(control, control.terminal_of(index))),
    }
}

/// The first place in the range of a DO, or in the block of an IF THEN or ELSE IF.
#[tactic(auto, unfolding(hep_code::specs::Targets::inward))]
pub fn inward(control: &Control, index: usize) -> Destination
    requires { index < length control.now }
    ensures { destination result ≡ targets.inward control.now index }
{
    Destination::Statement(control.following(index))
}

/// The place after a false condition of an IF THEN or ELSE IF.
#[tactic(auto, unfolding(hep_code::specs::Targets::aside))]
pub fn aside(control: &Control, index: usize) -> Destination
    requires { index < length control.now }
    ensures { destination result ≡ targets.aside control.now index }
{
    Destination::Statement(control.alternative_of(index))
}

/// The place of a label.
#[tactic(auto, unfolding(hep_code::specs::Targets::labelled))]
pub fn labelled(control: &Control, label: u32) -> Destination
    ensures { destination result ≡ targets.labelled control.now label }
{
    Destination::Statement(control.index_of_label(label))
}
