//! Turns that only begin or end an activation of a process, which lives on: CALL, references, RETURN and END.
ghost use Rattle.std.specs.Prelude.{◌≡◌, OnErr, OnOk};
ghost use Rattle.hep_step.specs.NextCalls.{is_creation};
ghost use Rattle.hep_state.specs.Words.{CanAnswer, CanBeginCall, CanLiveOn, CanMakeCall, CanReturn, HasLivedOn, ShowsSame, StepsOn};

use crate::calling::CalledUnit;
use crate::core_state::CoreState;
use crate::laws;
use crate::next_step::{NextCall, NextFunctionReturn, NextStep};
use hep_step::{CallKind, Image};
use std::alloc::AllocError;

// Whether the activation that is made is a process of its own.
#[inline(always)]
pub(crate) fn creates(way: CallKind) -> bool
    ensures { result ≡ is_creation way }
{
    match way {
        CallKind::Creates => true,
        CallKind::Calls | CallKind::Refers => false,
    }
}

impl CoreState {
    // Begins the activation of the next CALL or reference of process p, by what it is given. The one below keeps its
    // first `kept` operands. There is a gap for the frame.
    //
    // Fails only where memory is refused; the machine shows the same state then.
    #[inline(always)]
    pub(crate) fn begin_call(
        &mut self,
        image: &Image,
        p: u64,
        call: NextCall,
        kept: u32,
    ) -> Result<(), AllocError>
        requires { CanBeginCall image.now p self.old call kept }
        ensures made { OnOk result (StepsOn image.now p self.old self.new) }
        ensures refused { OnErr result (ShowsSame self.old self.new) }
    {
        image.is_runnable();
        laws::calls_can_be_made();
        laws::calls_touch_nothing();
        let unit = image.unit(call.unit as usize);
        self.reserve_level(p, unit.operands, kept)?;
        let called = CalledUnit {
            unit: call.unit,
            cells: unit.cells,
            entry: unit.entry as usize,
        };
        self.call(p, called, kept, call.next);
        Ok(())
    }

    // Makes the next CALL or reference of process p, unless it is a fault, its frame has no gap, or memory is
    // refused. Returns whether it did.
    #[inline(always)]
    fn make_call(&mut self, image: &Image, p: u64, call: NextCall) -> bool
        requires { CanMakeCall image.now p self.old call }
        ensures { HasLivedOn image.now p self.old result self.new }
    {
        image.is_runnable();
        laws::calls_can_be_made();
        let Ok(kept) = self.give(image, p, call) else {
            return false;
        };
        if !self.frames.fits(image.unit(call.unit as usize).cells) {
            return false;
        }
        self.begin_call(image, p, call, kept).is_ok()
    }

    // Ends the top activation of process p, which is at RETURN or the END of a subroutine, unless none is below it.
    // Returns whether it did.
    #[inline(always)]
    fn make_return(&mut self, image: &Image, p: u64) -> bool
        requires { CanReturn image.now p self.old }
        ensures { HasLivedOn image.now p self.old result self.new }
    {
        image.is_runnable();
        laws::tops_are_running();
        let at = self.place(p);
        if self.processes[at].levels.len() == 1 {
            return false;
        }
        self.finish(p);
        true
    }

    // Ends the function on top of process p, whose END comes next, unless none is below it or its variable has no
    // value. Returns whether it did.
    #[inline(always)]
    fn make_answer(&mut self, image: &Image, p: u64, answer: NextFunctionReturn) -> bool
        requires { CanAnswer image.now p self.old answer }
        ensures { HasLivedOn image.now p self.old result self.new }
    {
        image.is_runnable();
        laws::tops_are_running();
        let at = self.place(p);
        if self.processes[at].levels.len() == 1 {
            return false;
        }
        let Ok(value) = self.answer(image, p, answer) else {
            return false;
        };
        self.hand_down(p, value);
        true
    }

    /// Makes a turn of process p, which lives, if it only begins or ends an activation and p lives on: a CALL or
    /// reference that isn't a fault, or RETURN or END above another activation, which in a function needs a result.
    /// Returns whether it did. If not, also where the frame has no gap or memory is refused, the machine shows the
    /// same state.
    ///
    /// The process has no leading constants. This costs less than `turn`, which makes room for a record, a fault, an
    /// entry and a process.
    #[inline(always)]
    pub fn turn_plainly(&mut self, image: &Image, p: u64) -> bool
        requires { CanLiveOn image.now p self.old }
        ensures { HasLivedOn image.now p self.old result self.new }
    {
        match self.ahead_now(image, p) {
            NextStep::Call(call) => {
                if creates(call.way) {
                    return false;
                }
                self.make_call(image, p, call)
            }
            NextStep::Return => self.make_return(image, p),
            NextStep::Answer(answer) => self.make_answer(image, p, answer),
            _ => false,
        }
    }
}
