//! What the actual arguments of a CALL, CREATE or reference give (X3.9-1978, 15.5.2, 15.6.2 and 15.9.3).
ghost use Rattle.std.specs.Prelude.{◌≡◌, ◌≤◌, IfErr, IfOk, drop, length};
ghost use Rattle.hep_state.specs.Words.{FailsAtCall, IsAtCallAhead, IsGivenBy, KeepsRoomOf};

use crate::core_state::{ArgumentBuffers, CoreState};
use crate::laws;
use crate::next_step::NextCall;
use crate::top_code::behind;
use hep_binding::find_shapes;
use hep_machine::Kind;
use hep_source::Value;
use hep_step::{ArgumentList, Image, give_actuals, in_front};

// The operands after the first ones, whose number is given.
#[inline(always)]
fn past(operands: &[Value], first: usize) -> &[Value]
    requires { first ≤ length operands.now }
    ensures { result.now ≡ drop first operands.now }
{
    &operands[first..]
}

// The number in 32 bits.
#[inline(always)]
fn narrowed(number: usize) -> u32
    requires { number ≤ 4294967295 }
    ensures { result ≡ number }
{
    number as u32
}

impl CoreState {
    // Finds what the actual arguments of the next CALL, CREATE or reference of process p give. Returns the number of
    // operands before those that are passed.
    //
    // Fails with Range where an argument is no element, and with Shape where a dummy argument has no shape or more
    // elements than it is given. Nothing but `passing` changes.
    #[inline(always)]
    pub(crate) fn give(&mut self, image: &Image, p: u64, call: NextCall) -> Result<u32, Kind>
        requires at { IsAtCallAhead image.now p self.old call }
        ensures given { IfOk result (λ kept. IsGivenBy image.now p self.old call kept self.new.passing) }
        ensures fault { IfErr result (FailsAtCall image.now p self.old call) }
        ensures others { self.new ≡ record self.old { passing = self.new.passing } }
        ensures rooms { KeepsRoomOf image.now self.old self.new }
    {
        image.is_runnable();
        laws::calls_can_be_made();
        laws::calls_give_what_is_bound();
        let at = self.place(p);
        let process = &self.processes[at];
        let (entries, arrays, frame) = behind(process, &self.frames, image);
        let ArgumentBuffers {
            given,
            shapes,
            values,
            ..
        } = &mut self.passing;
        let kept = in_front(entries, call.count as usize, process.operands.len());
        let all = ArgumentList {
            entries,
            count: call.count as usize,
            operands: past(&process.operands, kept),
            arrays,
            arena: &self.frames.arena,
            frame,
        };
        give_actuals(&all, given)?;
        let called = image.unit(call.unit as usize);
        let dummies = called.dummies.as_slice();
        if find_shapes(dummies, &self.frames.arena, given, values, shapes) {
            Ok(narrowed(kept))
        } else {
            Err(Kind::Shape)
        }
    }
}
