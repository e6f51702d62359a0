//! The search of the states of a program, breadth first.
ghost use Rattle.std.specs.Prelude.{◌≡◌, ◌≢◌, ◌⊎◌, ◌<◌, ◌+◌, ◌++◌, ◌^◌, ℕ, [], true, false, IfNone, IfOk, IfSome, None, OnOk, length};
ghost use Rattle.hep_machine.specs.Words.{Units};
ghost use Rattle.hep_state.specs.Words.{CanOpen};
ghost use Rattle.hep_explore.specs.Searching.{AreExpanded, AreTried, GoesOn, HasKey, IsDone, IsFullPath, IsFullStep, IsNumbered, IsPathTo};
ghost use Rattle.hep_explore.specs.Searching.{IsSearch, IsTried, IsVisit, IsWhole, IsWholeTry, KeepsStates, known_of, turns_of};

use crate::key::key_of;
use crate::key_laws::machines_with_equal_keys_keep_the_same_states;
use crate::observer::SearchObserver;
use crate::states::States;
use crate::successor::{Successor, Turns};
use hep_image::Image;
use hep_state::CoreState;
use std::alloc::{AllocError, Global};
use std::collections::VecDeque;

/// How a state was found first: by a step of a process in the state with a number, and pure steps of the process after it.
#[derive(Clone, Copy)]
pub struct Origin {
    pub from: usize,
    pub process: u64,
    pub pure: u64,
}

/// States of a program, by numbers from 0 on in the order in which they were found. The first ones are expanded: each step in them
/// was made. The machines of the others are queued.
pub struct Search {
    alloc: Global,
    cells: u32,
    turns: Turns,
    states: States,
    /// By the number of the state; that of the opening, state 0, says nothing.
    origins: Vec<Origin>,
    queue: VecDeque<CoreState>,
    expanded: usize,
    /// The expanded states in which no process has a step.
    ended: Vec<usize>,
    /// The first step that makes an activation for whose frame there is no gap.
    full: Option<Origin>,
    /// How many states may be found; the opening always is.
    most: usize,
    /// Whether a step to one more was left out.
    cut: bool,
}

// Appends the turns by which a state was found. They are of one process.
fn append_turns(choices: &mut Vec<u64>, origin: Origin) -> Result<(), AllocError>
    ensures { OnOk result (choices.new.items ≡ choices.old.items ++ turns_of origin) }
{
    choices.push(origin.process)?;
    for _ in 0..origin.pure {
        choices.push(origin.process)?;
    }
    Ok(())
}

// Written out, so that a caller's proof has one call of it at each exit.
impl Drop for Search {
    fn drop(self) {
        let Search {
            alloc,
            cells,
            turns,
            states,
            origins,
            queue,
            expanded,
            ended,
            full,
            most,
            cut,
        } = self;
    }
}

impl Search {
    /// The search of at most `most` of an image's states in an arena of `cells` cells, with the opening alone.
    ///
    /// # Errors
    ///
    /// Only where memory was refused.
    pub fn open(alloc: Global, image: &Image, cells: u32, most: usize) -> Result<Search, AllocError>
        requires { CanOpen image.now cells }
        ensures search { IfOk result (λ s. IsSearch image.now (known_of s)) }
        ensures expanded { IfOk result (λ s. AreExpanded image.now 0 (known_of s)) }
        ensures begun { IfOk result (λ s. s.expanded ≡ 0) }
        ensures same { IfOk result (λ s. (s.cells ≡ cells) × (s.most ≡ most)) }
    {
        let machine = CoreState::open(alloc, image, cells)?;
        let mut search = Search {
            alloc,
            cells,
            turns: Turns::new(alloc),
            states: States::new(alloc),
            origins: Vec::new(alloc),
            queue: VecDeque::new(alloc),
            expanded: 0,
            ended: Vec::new(alloc),
            full: None,
            most,
            cut: false,
        };
        let _ = search.states.insert(key_of(alloc, image, &machine)?)?;
        search.origins.push(Origin {
            from: 0,
            process: 0,
            pure: 0,
        })?;
        search.queue.push_back(machine)?;
        Ok(search)
    }

    // Finds the state of a machine, to which a step has led, unless as many as may be were found.
    fn visit(&mut self, image: &Image, machine: CoreState, origin: Origin) -> Result<(), AllocError>
        requires search { IsSearch image.now (known_of self.old) }
        requires visit { IsVisit image.now (known_of self.old) machine origin }
        ensures search { OnOk result (IsSearch image.now (known_of self.new)) }
        ensures goes_on { OnOk result (GoesOn (known_of self.old) (known_of self.new)) }
        ensures same { OnOk result (self.new.expanded ≡ self.old.expanded) }
        ensures found { OnOk result (IsWhole (known_of self.new) → HasKey image.now (known_of self.new) machine) }
    {
        let key = key_of(self.alloc, image, &machine)?;
        if self.states.len() >= self.most {
            self.cut |= !self.states.contains(&key);
            return Ok(());
        }
        let found = self.states.insert(key)?;
        if !found.1 {
            return Ok(());
        }
        self.origins.push(origin)?;
        self.queue.push_back(machine)?;
        Ok(())
    }

    // Leaves out a step that makes an activation for whose frame there is no gap.
    fn note_full(&mut self, origin: Origin)
        ensures search { (program : Units) → IsSearch program (known_of self.old) → IsFullStep program (known_of self.old) origin
            → IsSearch program (known_of self.new) }
        ensures goes_on { GoesOn (known_of self.old) (known_of self.new) }
        ensures same { self.new.expanded ≡ self.old.expanded }
        ensures full { self.new.full ≢ None }
    {
        self.full = Some(self.full.unwrap_or(origin));
    }

    // Makes the next step of a process in a state, if it has one, and the pure steps after it. Returns whether it has one.
    fn try_step(
        &mut self,
        image: &Image,
        machine: &CoreState,
        origin: Origin,
    ) -> Result<bool, AllocError>
        requires search { IsSearch image.now (known_of self.old) }
        requires numbered { IsNumbered image.now (known_of self.old) origin.from machine.now }
        requires running { machine.now.halted ≡ false }
        requires countable { machine.now.activations + 2 < 2 ^ 64 }
        requires numerable { machine.now.made + 2 < 2 ^ 64 }
        ensures search { OnOk result (IsSearch image.now (known_of self.new)) }
        ensures goes_on { OnOk result (GoesOn (known_of self.old) (known_of self.new)) }
        ensures same { OnOk result (self.new.expanded ≡ self.old.expanded) }
        ensures tried { IfOk result (λ moved. IsTried image.now machine.now origin.process moved (known_of self.new)) }
    {
        machines_with_equal_keys_keep_the_same_states();
        match self.turns.successor(image, machine, origin.process)? {
            Successor::Machine(mut next) => {
                let pure = self
                    .turns
                    .make_pure_steps(image, &mut next, origin.process)?;
                let Origin { from, process, .. } = origin;
                self.visit(
                    image,
                    next,
                    Origin {
                        from,
                        process,
                        pure,
                    },
                )?;
                Ok(true)
            }
            Successor::Full => {
                self.note_full(origin);
                Ok(true)
            }
            Successor::Nothing => Ok(false),
        }
    }

    // Makes each step in a state. Returns whether there is one.
    fn try_all(
        &mut self,
        image: &Image,
        machine: &CoreState,
        from: usize,
    ) -> Result<bool, AllocError>
        requires search { IsSearch image.now (known_of self.old) }
        requires numbered { IsNumbered image.now (known_of self.old) from machine.now }
        requires running { machine.now.halted ≡ false }
        requires countable { machine.now.activations + 2 < 2 ^ 64 }
        requires numerable { machine.now.made + 2 < 2 ^ 64 }
        ensures search { OnOk result (IsSearch image.now (known_of self.new)) }
        ensures goes_on { OnOk result (GoesOn (known_of self.old) (known_of self.new)) }
        ensures same { OnOk result (self.new.expanded ≡ self.old.expanded) }
        ensures tried { IfOk result (λ moved. AreTried image.now machine.now machine.now.made moved (known_of self.new)) }
    {
        let mut moved = false;
        for before in 0..machine.made {
            let origin = Origin {
                from,
                process: before + 1,
                pure: 0,
            };
            let tried = self.try_step(image, machine, origin)?;
            moved |= tried;
        }
        Ok(moved)
    }

    // Whether there is a step in a state, each of which is made.
    fn has_steps(
        &mut self,
        image: &Image,
        machine: &CoreState,
        from: usize,
    ) -> Result<bool, AllocError>
        requires search { IsSearch image.now (known_of self.old) }
        requires numbered { IsNumbered image.now (known_of self.old) from machine.now }
        requires countable { machine.now.activations + 2 < 2 ^ 64 }
        requires numerable { machine.now.made + 2 < 2 ^ 64 }
        ensures search { OnOk result (IsSearch image.now (known_of self.new)) }
        ensures goes_on { OnOk result (GoesOn (known_of self.old) (known_of self.new)) }
        ensures same { OnOk result (self.new.expanded ≡ self.old.expanded) }
        ensures tried { IfOk result (λ moved. IsWholeTry image.now machine.now moved (known_of self.new)) }
    {
        if machine.halted {
            return Ok(false);
        }
        Ok(self.try_all(image, machine, from)?)
    }

    // Expands a state.
    fn expand(&mut self, image: &Image, from: usize, machine: &CoreState) -> Result<(), AllocError>
        requires search { IsSearch image.now (known_of self.old) }
        requires expanded { AreExpanded image.now from (known_of self.old) }
        requires numbered { IsNumbered image.now (known_of self.old) from machine.now }
        ensures search { OnOk result (IsSearch image.now (known_of self.new)) }
        ensures expanded { OnOk result (AreExpanded image.now (from + 1) (known_of self.new)) }
        ensures same { OnOk result (KeepsStates (known_of self.old) (known_of self.new) × (self.new.expanded ≡ self.old.expanded)) }
    {
        machines_with_equal_keys_keep_the_same_states();
        let moved = self.has_steps(image, machine, from)?;
        if moved {
            return Ok(());
        }
        self.ended.push(from)?;
        Ok(())
    }

    // Takes the first machine that is queued, with the number of its state.
    fn next(&mut self) -> Option<(usize, CoreState)>
        requires { (program : Units) × IsSearch program (known_of self.old) }
        ensures none { IfNone result (known_of self.new ≡ known_of self.old) }
        ensures empty { IfNone result (self.old.queue.items ≡ []) }
        ensures search { IfSome result (λ r. (program : Units) → IsSearch program (known_of self.old)
            → IsSearch program (known_of self.new)) }
        ensures numbered { IfSome result (λ r. (program : Units) → IsSearch program (known_of self.old)
            → IsNumbered program (known_of self.new) r.0 r.1) }
        ensures counted { IfSome result (λ r. (r.0 ≡ self.old.expanded) × (self.new.expanded ≡ self.old.expanded + 1)) }
        ensures goes_on { GoesOn (known_of self.old) (known_of self.new) }
    {
        let machine = self.queue.pop_front()?;
        let from = self.expanded;
        self.expanded += 1;
        Some((from, machine))
    }

    /// Expands states until all are, or, if `until_full`, a frame has no gap. The observer is told of each.
    ///
    /// # Errors
    ///
    /// Only where memory was refused.
    pub fn run<O: SearchObserver>(
        &mut self,
        image: &Image,
        until_full: bool,
        observer: &O,
    ) -> Result<(), AllocError>
        requires search { IsSearch image.now (known_of self.old) }
        requires expanded { AreExpanded image.now self.old.expanded (known_of self.old) }
        ensures search { OnOk result (IsSearch image.now (known_of self.new)) }
        ensures expanded { OnOk result (AreExpanded image.now self.new.expanded (known_of self.new)) }
        ensures same { OnOk result ((self.new.cells ≡ self.old.cells) × (self.new.most ≡ self.old.most)) }
        ensures done { OnOk result (IsDone until_full (known_of self.new)) }
    {
        while !(until_full && self.full.is_some()) {
            let Some((from, machine)) = self.next() else {
                return Ok(());
            };
            self.expand(image, from, &machine)?;
            observer.states_found(self.states.len());
        }
        Ok(())
    }

    /// Whether no step was left out.
    pub fn is_complete(&self) -> bool
        ensures whole { result ≡ true → IsWhole (known_of self.now) }
        ensures partial { result ≡ false → (self.now.full ≢ None) ⊎ (self.now.cut ≡ true) }
    {
        self.full.is_none() && !self.cut
    }

    /// Whether a frame had no gap.
    pub fn is_full(&self) -> bool
        ensures none { result ≡ false → self.now.full ≡ None }
        ensures some { result ≡ true → self.now.full ≢ None }
    {
        self.full.is_some()
    }

    /// The number of states.
    pub fn len(&self) -> usize
        ensures { result ≡ length self.now.states }
    {
        self.states.len()
    }

    /// The numbers of the states in which no process has a step.
    pub fn ended(&self) -> &[usize]
        ensures { result.now ≡ self.now.ended.items }
    {
        &self.ended
    }

    /// Choices whose steps lead to a state, by its number.
    ///
    /// # Errors
    ///
    /// Only where memory was refused.
    pub fn path(&self, state: usize) -> Result<Vec<u64>, AllocError>
        requires search { (program : Units) × IsSearch program (known_of self.now) }
        requires found { state < length self.now.states }
        ensures { IfOk result (λ choices. (program : Units) → IsSearch program (known_of self.now)
            → IsPathTo program (known_of self.now) state choices.items) }
    {
        let mut choices = Vec::new(self.alloc);
        let mut at = state;
        while at > 0 {
            let origin = self.origins[at];
            append_turns(&mut choices, origin)?;
            at = origin.from;
        }
        choices.reverse();
        Ok(choices)
    }

    /// Choices of which the last one makes an activation for whose frame there is no gap, if there are any.
    ///
    /// # Errors
    ///
    /// Only where memory was refused.
    pub fn full_path(&self) -> Result<Option<Vec<u64>>, AllocError>
        requires { (program : Units) × IsSearch program (known_of self.now) }
        ensures none { IfOk result (λ path. IfNone path (self.now.full ≡ None)) }
        ensures full { IfOk result (λ path. IfSome path (λ choices. (program : Units) → IsSearch program (known_of self.now)
            → IsFullPath program self.now.cells choices.items)) }
    {
        let Some(origin) = self.full else {
            return Ok(None);
        };
        let mut choices = self.path(origin.from)?;
        choices.push(origin.process)?;
        Ok(Some(choices))
    }
}
