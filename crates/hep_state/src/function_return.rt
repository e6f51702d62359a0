//! The END of a function: the variable of its name has the value of its reference (X3.9-1978, 15.5.3).
ghost use Rattle.std.specs.Prelude.{◌≡◌, ◌<◌, [], IfErr, IfOk, vec_capacity, vec_len};
ghost use Rattle.hep_image.specs.Addressing.{address_of, cells_in};
ghost use Rattle.hep_step.specs.Cells.{HasFrame};
ghost use Rattle.hep_step.specs.Effects.{answers, fails, value_found};
ghost use Rattle.hep_step.specs.StepReady.{IsVariableReady};
ghost use Rattle.hep_state.specs.Words.{CanAnswer, IsToEndBy, LeavesOthers, StepsBy, snapshot_of};

use crate::core_state::CoreState;
use crate::laws;
use crate::next_step::NextFunctionReturn;
use crate::top_place::place;
use hep_arena::Arena;
use hep_code::Variable;
use hep_machine::Kind;
use hep_source::Value;
use hep_step::{Array, Frame, Image, address};

// The value of a variable in a frame, in a unit with these arrays.
#[inline(always)]
fn value_of(
    arena: &Arena,
    frame: Frame,
    arrays: &[Array],
    variable: Variable,
) -> Result<Value, Kind>
    requires frame { HasFrame arena.now frame }
    requires ready { IsVariableReady arena.now arrays.now frame [] variable }
    ensures { result ≡ value_found arena.now.contents
        (address_of (cells_in arena.now.contents) frame.first arrays.now variable []) }
{
    let at = address(arena, frame, arrays, variable, &[])?;
    match arena.get(at).value {
        Some(value) => Ok(value),
        None => Err(Kind::Undefined),
    }
}

impl CoreState {
    // The value of the function on top of process p, whose END comes next.
    //
    // Fails with Undefined where its variable has no value.
    #[inline(always)]
    pub(crate) fn answer(
        &self,
        image: &Image,
        p: u64,
        answer: NextFunctionReturn,
    ) -> Result<Value, Kind>
        requires { CanAnswer image.now p self.now answer }
        ensures value { IfOk result (λ value. IsToEndBy image.now p self.now (answers value)) }
        ensures fault { IfErr result (λ kind. IsToEndBy image.now p self.now (fails answer.line kind)) }
    {
        image.is_runnable();
        laws::tops_are_running();
        let at = self.place(p);
        let process = &self.processes[at];
        let (unit, frame, _index) = place(process, &self.frames, image);
        let arrays = unit.arrays.as_slice();
        value_of(&self.frames.arena, frame, arrays, answer.variable)
    }

    // Ends the function on top of process p with its value, or the process with a fault.
    pub(crate) fn take_answer(&mut self, image: &Image, p: u64, answer: NextFunctionReturn)
        requires at { CanAnswer image.now p self.old answer }
        requires room { vec_len self.old.faults < vec_capacity self.old.faults }
        ensures stepped { StepsBy image.now p self.old self.new }
        ensures made { self.new.made ≡ self.old.made }
        ensures others { LeavesOthers p (snapshot_of self.old) (snapshot_of self.new) }
    {
        image.is_runnable();
        laws::tops_are_running();
        match self.answer(image, p, answer) {
            Ok(value) => self.hand_down(p, value),
            Err(kind) => self.fail(p, answer.line, kind),
        }
    }
}
