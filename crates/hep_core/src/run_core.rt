//! The core: a run of an image, one choice at a time, with its history.
ghost use Rattle.std.specs.Prelude.{◌≡◌, ◌≢◌, ◌≤◌, ◌<◌, ◌++◌, ◌∷◌, [], None, Some, IsSome, IfNone, IfSome, IfOk, OnErr, OnOk, IfErr, Err, false, suc, true};
ghost use Rattle.std.specs.Prelude.{◌+◌, ◌^◌, is_some, length};
ghost use Rattle.hep_machine.specs.Words.{IsLegal, is_held, opening_layout, used_cells, living, first_above, last_process};
ghost use Rattle.hep_machine.specs.Words.{is_number_among, next_of_ready, progress_after, schedule_of, view_of};
ghost use Rattle.hep_blocked.specs.RosterUpdates.{IsBlocked};
ghost use Rattle.hep_blocked.specs.Numbers.{AreRising};
ghost use Rattle.hep_state.specs.Words.{IsMachineAfter, snapshot_of};
ghost use Rattle.hep_commit.specs.AdvanceBreakpointRows.{PassesFrom};
ghost use Rattle.hep_views.specs.ProcessPositions.{whereabouts_by};
ghost use Rattle.hep_core.specs.CoreValues.{state_of, opening_of, IsNewFault, IsChoice, IsFree, HasNoStop, IsStop};
ghost use Rattle.hep_core.specs.Commits.{AreGoodStill, IsCancelled, IsCheckedOut, IsCommitted, IsFresh, IsGivenTo, IsOutBy, IsStoppedWhereFull};
ghost use Rattle.hep_core.specs.Commits.{AreTurnsAtOnce, HasMovedAtOnce, HasMovedBehind, IsTurnAtOnce, IsWhetherNext, LeavesNext, StandsAlone, core_after_return, most_tickets};
ghost use Rattle.hep_core.specs.Invariant.{AreLiving};
ghost use Rattle.hep_core.specs.ProcessPlaces.{ArePlaces, places_of, with_core};
ghost use Rattle.hep_core.specs.declared.stop.Verdict.TheVariants.{Waiting};
ghost use Rattle.hep_core.specs.Tickets.{has_ticket, is_out};
ghost use Rattle.hep_commit.specs.Offers.{IsKnownOffer, offered};
ghost use Rattle.hep_commit.specs.Segments.{most_records};
ghost use Rattle.hep_core.specs.SilentChoices.{AreChoices, AreMoves, AreRounds, AreTurns, CanMove, IsAtRest, IsTurnOnce, entries_along};
ghost use Rattle.hep_core.specs.CoreValues.{IsIdle, common_cell, free_of, next_listed_of, verdict_of, next_ready_of, ready_of};

use crate::commit_entries::{made_steps, note_more, stop_where};
use crate::core_fault::{ChooseFault, CommitFault, NewFault};
use crate::ready_lists::{note_ready, note_step, wake_after};
use crate::stop::{ChoiceStop, Turn, TurnAtOnce, Turns, Verdict};
use hep_blocked::laws::{
    lists_are_those_of_definitions, lists_go_along_with_purges, lists_go_along_with_steps,
    openings_list_nobody, waiting_processes_are_listed,
};
use hep_blocked::need_laws::waiting_processes_need_it;
use hep_blocked::{Roster, Want};
use hep_commit::commit_laws::{restored_machines_are_as_before, tickets_have_what_is_read};
use hep_commit::{
    Breakpoints, DecodedCode, DecodedImage, MOST_RECORDS, Offer, OwnCellTable, OwnCells,
    PreparedProgram, PrivateImage, Segment, Ticket, TicketId, UndoLog, comes_next, go_on,
    is_next_private, others_leave_what_is_read, own_cells_of, pass_on, private_steps_are_turns,
    rests, run_in_place, segments_depend_on_reads, stands_alone, start, tables_of, take_private,
    turn_by_table, turn_in_place,
};
use hep_history::History;
use hep_layout::laws::layouts_have_what_is_held;
use hep_machine::{Entry, Fault, Record, Slot};
use hep_private::come_back;
use hep_views::laws::views_are_of_states;
use hep_views::lookup::{listed, whereabouts};
use hep_views::{
    CoreState, Image, Listed, TurnFault, TurnOutcome, Whereabouts, fits, tops_are_running,
};
use std::alloc::{AllocError, Global};
use std::marker::Model;
use std::mem::replace;

// The main program's process.
const FIRST_PROCESS: u64 = 1;

// The greatest number of choices that one call of the interpreter makes.
const MOST_AT_ONCE: u64 = 0xFFFF_FFFF;

/// A run of an image. Contracts see the program, the cells of the arena, the longest history, the history, the stop,
/// the view of the state, the tickets that are out and the number of tickets given, and the place of each process in
/// the machine.
///
/// A choice, a check-out, a commit and a cancellation each take a time that grows with the number of processes that
/// are out.
pub struct Core {
    alloc: Global,
    image: Image,
    // The tables of its units, and the own cells of each unit.
    tables: Vec<DecodedCode>,
    own: Vec<OwnCells>,
    cells: u32,
    limit: u64,
    history: History,
    stop: Option<ChoiceStop>,
    machine: CoreState,
    // The living processes: those that were found waiting and still wait, with what they wait for, and the ready
    // ones.
    roster: Roster,
    // The tickets that are out, and the number of tickets given.
    out: Vec<TicketId>,
    given: u64,
    // A buffer for the private state of a process, while a commit of its steps may still be refused.
    saved: UndoLog,
}

// Written out, so that a caller's proof has one call of it at each exit.
impl Drop for Core {
    fn drop(self) {
        let Core {
            alloc,
            image,
            tables,
            own,
            cells,
            limit,
            history,
            stop,
            machine,
            roster,
            out,
            given,
            saved,
        } = self;
    }
}

impl Model for Core {
    ghost use Rattle.hep_core.specs.ProcessPlaces.{PlacedCore};
    ghost use Rattle.hep_source.specs.contracts.expression.Expr as expression;
    ghost use Rattle.std.specs.Coded.{codes};

    ghost Value = { PlacedCore };

    ghost coded = { Prim.hlevel (codes, expression.the_row.coded) };

    ghost use Rattle.hep_core.specs.Invariant.{CoreInvariant, placed_value};

    ghost view = { placed_value };

    ghost invariant = { CoreInvariant };
}

impl Core {
    /// A core at the program's opening. Its arena has `cells` cells, 1 to 16,777,216, and its history may have
    /// `steps` entries.
    ///
    /// # Errors
    ///
    /// `ArenaFull` where COMMON and the main program's frame don't fit the arena, which is found before memory is
    /// asked for; `NoMemory`.
    pub fn new(alloc: Global, image: Image, cells: u32, steps: u64) -> Result<Core, NewFault>
        requires some { 1 ≤ cells }
        requires few { cells ≤ 16777216 }
        ensures fits { OnOk result (IsSome (opening_layout image cells)) }
        ensures made { IfOk result (λ made. made.core ≡ opening_of image cells steps) }
        ensures unmade { IfErr result (λ e. IsNewFault e image cells) }
    {
        image.is_runnable();
        views_are_of_states();
        openings_list_nobody();
        if !fits(&image, cells) {
            return Err(NewFault::ArenaFull);
        }
        let machine = CoreState::open(alloc, &image, cells)?;
        let tables = tables_of(alloc, &image)?;
        let own = own_cells_of(alloc, &image)?;
        let mut roster = Roster::new(alloc);
        roster.reserve(FIRST_PROCESS)?;
        roster.enroll(FIRST_PROCESS);
        Ok(Core {
            alloc,
            image,
            tables,
            own,
            cells,
            limit: steps,
            history: History::new(alloc),
            stop: None,
            machine,
            roster,
            out: Vec::new(alloc),
            given: 0,
            saved: UndoLog::new(alloc),
        })
    }

    /// Makes a turn of process p: one step, or none where it waits. The history gets one entry.
    ///
    /// # Errors
    ///
    /// In this order: `Stopped` at a stop that was set before; `NoSuchProcess` where p was never made or has ended; `IsOut`; `Stopped`
    /// where the history has as many entries as it may have, or else the step makes an activation for whose frame there is no gap, each of
    /// which sets the stop and adds no entry; `NoMemory`, which is asked for only where there is a gap.
    pub fn choose(&mut self, p: u64) -> Result<Turn, ChooseFault>
        ensures chosen { IsChoice self.old.core p result self.new.core }
        ensures kept { AreGoodStill self.old self.new }
    {
        if let Some(stop) = self.stop() {
            return Err(ChooseFault::Stopped(stop));
        }
        if self.is_out(p) {
            return Err(ChooseFault::IsOut);
        }
        if self.rests(p) {
            return self.turn(p);
        }
        match self.move_alone(p, 1) {
            Ok(0) => self.turn(p),
            Ok(_) => Ok(Turn {
                steps: 1,
                blocked: false,
            }),
            // A turn asks for memory only after all other reasons to refuse it.
            Err(_) => self.turn(p),
        }
    }

    /// Chooses process p up to `most` times, 1 at least: as long as each choice makes a step that only moves the
    /// process, and otherwise once. A step only moves its process if it fills and empties no cell, prints nothing, is
    /// no fault, makes no process, and doesn't end its own. It may begin or end an activation. Several such steps
    /// cost less together than one by one.
    ///
    /// # Errors
    ///
    /// Those of `choose`, where not even one choice was made.
    #[inline(always)]
    pub fn go_on(&mut self, p: u64, most: u64) -> Result<Turns, ChooseFault>
        requires { 1 ≤ most }
        ensures made { IfOk result (λ turns. AreTurns self.old.core p turns self.new.core) }
        ensures some { IfOk result (λ turns. 1 ≤ turns.made) }
        ensures few { IfOk result (λ turns. turns.made ≤ most) }
        ensures refused { IfErr result (λ fault. IsChoice self.old.core p (Err fault) self.new.core) }
        ensures kept { AreGoodStill self.old self.new }
    {
        if let Some(stop) = self.stop() {
            return Err(ChooseFault::Stopped(stop));
        }
        if self.is_out(p) {
            return Err(ChooseFault::IsOut);
        }
        if self.rests(p) {
            return self.turn_once(p);
        }
        // These entries are one run of equal entries.
        match self.move_alone(p, most.min(MOST_AT_ONCE)) {
            Ok(0) => self.turn_once(p),
            Ok(made) => Ok(Turns {
                made,
                blocked: false,
            }),
            Err(_) => self.turn_once(p),
        }
    }

    // A turn of process p, as the result of choosing it once.
    fn turn_once(&mut self, p: u64) -> Result<Turns, ChooseFault>
        requires { is_out p self.old.core.out ≡ false }
        ensures made { IfOk result (λ turns. IsTurnOnce self.old.core p turns self.new.core) }
        ensures refused { IfErr result (λ fault. IsChoice self.old.core p (Err fault) self.new.core) }
        ensures others { LeavesNext p self.old self.new }
    {
        match self.turn(p) {
            Ok(turn) => Ok(Turns {
                made: 1,
                blocked: turn.blocked,
            }),
            Err(fault) => Err(fault),
        }
    }

    /// Chooses the process that comes next by itself, and then the next one, up to `most` times: as long as no
    /// process is out, another process comes next than came last, and each choice makes a step that only moves its
    /// process, as in `go_on`. Returns the number of choices. Such choices cost less together than one by one.
    #[inline(never)]
    pub fn go_round(&mut self, most: u64) -> u64
        ensures chosen { AreRounds self.old.core result self.new.core }
        ensures few { result ≤ most }
        ensures kept { AreGoodStill self.old self.new }
    {
        if !self.out.is_empty() {
            return 0;
        }
        let Some(p) = self.next_ready() else {
            return 0;
        };
        if self.rests(p) {
            return 0;
        }
        match self.move_on(p, most.min(MOST_AT_ONCE), true) {
            Ok(made) => made,
            Err(_) => 0,
        }
    }

    /// Chooses process p up to `most` times, as long as it is at an index of the code that isn't watched and each
    /// choice makes a step that only moves it, as in `go_on`. Returns the number of choices, which is 0 where p is
    /// out.
    pub fn pass_on(&mut self, p: u64, watches: &[Breakpoints], most: u64) -> u64
        ensures chosen { AreChoices p self.old.core result self.new.core }
        ensures unwatched { PassesFrom self.old.core.program watches.now p (state_of self.old.core) result }
        ensures few { result ≤ most }
        ensures kept { AreGoodStill self.old self.new }
    {
        if self.is_out(p) {
            return 0;
        }
        match self.move_past(p, watches, most.min(MOST_AT_ONCE)) {
            Ok(made) => made,
            Err(_) => 0,
        }
    }

    // Whether the core has no stop, process p lives, and the next operation of p isn't plain, by the table.
    #[inline(always)]
    fn rests(&self, p: u64) -> bool
        ensures { result ≡ true → IsAtRest self.now.core p }
    {
        if self.stop.is_some() {
            return false;
        }
        if !self.machine.lives(p) {
            return false;
        }
        let tabled = DecodedImage {
            image: &self.image,
            tables: &self.tables,
        };
        rests(&self.machine, &tabled, p)
    }

    // Chooses process p up to `most` times, 4,294,967,295 at most, as long as each choice makes a step that only
    // moves the process, and returns how often. In rounds it chooses p once, and then whichever process comes next,
    // if it is another one. The lists of waiting and ready processes don't change.
    //
    // It ends early only where the core has a stop, p doesn't live, the history is full, or no plain operation that
    // moves p comes next. It sets no stop. It fails only where the history has no room for that many entries; nothing has
    // changed then.
    #[inline(always)]
    fn move_on(&mut self, p: u64, most: u64, rounds: bool) -> Result<u64, AllocError>
        requires { CanMove rounds p self.old.core × (most < 2 ^ 32) }
        ensures chosen { IfOk result (λ n. AreMoves rounds p self.old.core n self.new.core) }
        ensures few { IfOk result (λ n. n ≤ most) }
        ensures all { IfOk result (λ n. rounds ≡ false → n < most → IsAtRest self.new.core p) }
        ensures refused { OnErr result (self.new ≡ self.old) }
        ensures others { rounds ≡ false → LeavesNext p self.old self.new }
    {
        if self.stop.is_some() {
            return Ok(0);
        }
        if !self.machine.lives(p) {
            return Ok(0);
        }
        self.image.is_runnable();
        views_are_of_states();
        lists_go_along_with_steps();
        lists_are_those_of_definitions();
        others_leave_what_is_read();
        segments_depend_on_reads();
        let room = most.min(self.limit - self.history.len());
        let each = at_once(room, rounds);
        self.history.reserve(each as u32)?;
        let mut next = p;
        let mut done = 0;
        while done < room {
            let tabled = DecodedImage {
                image: &self.image,
                tables: &self.tables,
            };
            let made = go_on(&mut self.machine, &tabled, next, each);
            note_all(&mut self.history, next, made as u32);
            done += made;
            if !rounds {
                return Ok(done);
            }
            if made == 0 {
                return Ok(done);
            }
            match other_next(&self.roster, &mut self.history, next) {
                Some(other) => next = other,
                None => return Ok(done),
            }
        }
        Ok(done)
    }

    // The same for process p alone. It is a function of its own, so that the compiler keeps the loop of rounds apart
    // from it.
    #[inline(never)]
    fn move_alone(&mut self, p: u64, most: u64) -> Result<u64, AllocError>
        requires { CanMove false p self.old.core × (most < 2 ^ 32) }
        ensures chosen { IfOk result (λ n. AreChoices p self.old.core n self.new.core) }
        ensures few { IfOk result (λ n. n ≤ most) }
        ensures all { IfOk result (λ n. n < most → IsAtRest self.new.core p) }
        ensures refused { OnErr result (self.new ≡ self.old) }
        ensures others { LeavesNext p self.old self.new }
    {
        self.move_on(p, most, false)
    }

    // Chooses process p up to `most` times, 4,294,967,295 at most, as long as it is at an index that isn't watched
    // and each choice makes a step that only moves it, and returns how often. The lists of waiting and ready
    // processes don't change. It fails only where the history has no room for that many entries; nothing has changed
    // then.
    #[inline(never)]
    fn move_past(&mut self, p: u64, watches: &[Breakpoints], most: u64) -> Result<u64, AllocError>
        requires { (is_out p self.old.core.out ≡ false) × (most < 2 ^ 32) }
        ensures chosen { IfOk result (λ n. AreChoices p self.old.core n self.new.core) }
        ensures unwatched { IfOk result (PassesFrom self.old.core.program watches.now p (state_of self.old.core)) }
        ensures few { IfOk result (λ n. n ≤ most) }
        ensures refused { OnErr result (self.new ≡ self.old) }
        ensures others { LeavesNext p self.old self.new }
    {
        if self.stop.is_some() {
            return Ok(0);
        }
        if !self.machine.lives(p) {
            return Ok(0);
        }
        self.image.is_runnable();
        views_are_of_states();
        lists_go_along_with_steps();
        others_leave_what_is_read();
        segments_depend_on_reads();
        let room = most.min(self.limit - self.history.len());
        self.history.reserve(room as u32)?;
        let tabled = DecodedImage {
            image: &self.image,
            tables: &self.tables,
        };
        let made = pass_on(&mut self.machine, &tabled, watches, p, room);
        note_all(&mut self.history, p, made as u32);
        Ok(made)
    }

    // A turn of process p, as in `choose`.
    fn turn(&mut self, p: u64) -> Result<Turn, ChooseFault>
        requires { is_out p self.old.core.out ≡ false }
        ensures chosen { IsChoice self.old.core p result self.new.core }
        ensures places { OnErr result (self.new.places ≡ self.old.places) }
        ensures others { LeavesNext p self.old self.new }
    {
        if let Some(stop) = self.stop {
            return Err(ChooseFault::Stopped(stop));
        }
        if !self.machine.lives(p) {
            return Err(ChooseFault::NoSuchProcess);
        }
        if self.limit <= self.history.len() {
            self.stop = Some(ChoiceStop::StepLimit);
            return Err(ChooseFault::Stopped(ChoiceStop::StepLimit));
        }
        self.image.is_runnable();
        views_are_of_states();
        waiting_processes_are_listed();
        lists_go_along_with_steps();
        lists_go_along_with_purges();
        waiting_processes_need_it();
        others_leave_what_is_read();
        segments_depend_on_reads();
        let made = self.machine.made;
        match self.machine.turn(
            self.alloc,
            &self.image,
            p,
            &mut self.history,
            &mut self.roster,
        ) {
            Ok(turned) => match turned {
                TurnOutcome::Waits(want) => {
                    self.roster.block(p, want)?;
                    note(&mut self.history, p, 0);
                    Ok(Turn {
                        steps: 0,
                        blocked: true,
                    })
                }
                _ => {
                    note(&mut self.history, p, 1);
                    note_ready(&mut self.roster, &self.machine, p, made);
                    let emptied = &self.machine.passing.ranges;
                    wake_after(&mut self.roster, turned, emptied);
                    if self.machine.halted {
                        self.stop = Some(ChoiceStop::Halted);
                    }
                    Ok(Turn {
                        steps: 1,
                        blocked: false,
                    })
                }
            },
            Err(TurnFault::NoMemory) => Err(ChooseFault::NoMemory),
            Err(TurnFault::ArenaFull) => {
                self.stop = Some(ChoiceStop::ArenaFull);
                Err(ChooseFault::Stopped(ChoiceStop::ArenaFull))
            }
        }
    }

    // Whether process p is out.
    fn is_out(&self, p: u64) -> bool
        ensures { result ≡ is_out p self.now.core.out }
    {
        hep_private::is_out(&self.out, p)
    }

    // Whether the ticket is the one that is out for its process.
    fn has_ticket(&self, id: TicketId) -> bool
        ensures ticket { result ≡ has_ticket id self.now.core.out }
        ensures lives { result ≡ true → living (state_of self.now.core) id.process ≢ None }
    {
        hep_private::has_ticket(&self.out, id)
    }

    /// Gives a ticket for process p. The process is out until its segment is committed or the ticket is cancelled.
    /// The ticket's number is above those of all tickets that this core gave before.
    ///
    /// # Errors
    ///
    /// In this order: `Stopped` at a stop that was set before; `NoSuchProcess` where p was never made or has ended; `IsOut`;
    /// `NoTicket` where 2^64 - 1 tickets were given; `Stopped` where the history has as many entries as it may have, which sets the stop;
    /// `NoMemory`.
    pub fn check_out(&mut self, p: u64) -> Result<Ticket, ChooseFault>
        ensures given { IsCheckedOut self.old p result self.new }
        ensures fresh { IfOk result (λ ticket. IsFresh ticket self.new) }
        ensures kept { AreGoodStill self.old self.new }
    {
        let blank = Ticket::blank(self.alloc);
        self.check_out_again(p, blank)
    }

    /// The same, with the buffers of a ticket that was used before. So it asks for memory only where these, or the
    /// list of tickets that are out, are too small.
    ///
    /// # Errors
    ///
    /// Those of `check_out`, in the same order.
    pub fn check_out_again(&mut self, p: u64, used: Ticket) -> Result<Ticket, ChooseFault>
        ensures given { IsCheckedOut self.old p result self.new }
        ensures fresh { IfOk result (λ ticket. IsFresh ticket self.new) }
        ensures kept { AreGoodStill self.old self.new }
    {
        tickets_have_what_is_read();
        segments_depend_on_reads();
        if let Some(stop) = self.stop() {
            return Err(ChooseFault::Stopped(stop));
        }
        if !self.lives(p) {
            return Err(ChooseFault::NoSuchProcess);
        }
        if self.is_out(p) {
            return Err(ChooseFault::IsOut);
        }
        if self.given() == u64::MAX {
            return Err(ChooseFault::NoTicket);
        }
        if self.stop_where_full() {
            return Err(ChooseFault::Stopped(ChoiceStop::StepLimit));
        }
        Ok(self.give(p, used)?)
    }

    // The number of tickets given.
    fn given(&self) -> u64
        ensures { result ≡ self.now.core.given }
    {
        self.given
    }

    // Gives the next ticket to process p, which lives.
    //
    // It pushes the leading constants of the process first. So a refused commit without steps doesn't change the
    // place of the process.
    fn give(&mut self, p: u64, used: Ticket) -> Result<Ticket, AllocError>
        requires going { HasNoStop self.old.core }
        requires lives { living (state_of self.old.core) p ≢ None }
        requires left { self.old.core.given < most_tickets }
        ensures given { IfOk result (λ ticket. IsGivenTo self.old p ticket self.new) }
        ensures refused { OnErr result (self.new ≡ self.old) }
    {
        self.image.is_runnable();
        views_are_of_states();
        tops_are_running();
        let id = TicketId {
            number: self.given + 1,
            process: p,
        };
        self.out.reserve(1)?;
        self.machine.settle(&self.image, p);
        let owned = OwnCellTable {
            image: &self.image,
            tables: &self.own,
        };
        let ticket = start(&mut self.machine, &owned, id, used)?;
        self.out.push_reserved(id);
        self.given += 1;
        Ok(ticket)
    }

    /// Commits a segment: makes its private steps and then the next step of its process, as one entry of the history.
    /// A segment without steps is a choice of the process, which may be found waiting. After private steps the next
    /// step is left out where it is private too, where it waits, and where it makes an activation for whose frame
    /// there is no gap. The process isn't out any more.
    ///
    /// # Errors
    ///
    /// In this order: `Stopped` at a stop that was set before; `Stale` where the segment's ticket isn't the one that
    /// is out for its process, or its steps aren't the private ones that come next of it, by the core's image;
    /// `Stopped` where the history is full, or else the segment has no steps and the next step has no gap for its
    /// frame, each of which sets the stop and adds no entry; `NoMemory`. Then the ticket is out as before, and the
    /// segment can still be committed.
    pub fn commit(&mut self, segment: &Segment) -> Result<Turn, CommitFault>
        ensures committed { IsCommitted self.old segment.now result self.new }
        ensures kept { AreGoodStill self.old self.new }
    {
        self.commit_offer(&Offer::Recorded {
            segment,
            known: false,
        })
    }

    /// Commits what a worker offers: a segment, or a batch that the program of the core has made. Where the program
    /// is known to have made the steps, they aren't made again as a check. The core only compares where they begin,
    /// and what they have read, with the machine.
    ///
    /// # Errors
    ///
    /// Those of `commit`, in the same order.
    pub fn commit_offer(&mut self, offer: &Offer<'_>) -> Result<Turn, CommitFault>
        requires { IsKnownOffer self.old.core.program offer.now }
        ensures committed { IsCommitted self.old (offered self.old.core.program offer.now) result self.new }
        ensures kept { AreGoodStill self.old self.new }
    {
        if let Some(stop) = self.stop() {
            return Err(CommitFault::Stopped(stop));
        }
        if !self.has_ticket(offer.ticket()) {
            return Err(CommitFault::Stale);
        }
        if offer.steps() == 0 {
            return self.commit_alone(offer);
        }
        self.commit_behind(offer)
    }

    // The commit of a segment without steps, whose ticket is the one that is out for its process: a choice of that
    // process.
    fn commit_alone(&mut self, offer: &Offer<'_>) -> Result<Turn, CommitFault>
        requires out { IsOutBy self.old.core (offered self.old.core.program offer.now) }
        requires known { IsKnownOffer self.old.core.program offer.now }
        requires none { (offered self.old.core.program offer.now).records ≡ [] }
        ensures committed { IsCommitted self.old (offered self.old.core.program offer.now) result self.new }
        ensures others { OnOk result (LeavesNext (offered self.old.core.program offer.now).id.process self.old self.new) }
    {
        if !self.is_next(offer) {
            return Err(CommitFault::Stale);
        }
        // The turn may end the process, and only living processes may be out.
        let process = offer.ticket().process;
        let mut out = self.put_aside();
        match self.turn(process) {
            Ok(turn) => {
                come_back(&mut out, process);
                self.put_back(out);
                Ok(turn)
            }
            Err(ChooseFault::Stopped(stop)) => {
                self.put_back(out);
                Err(CommitFault::Stopped(stop))
            }
            Err(ChooseFault::NoMemory) => {
                self.put_back(out);
                Err(CommitFault::NoMemory)
            }
            Err(_) => unreachable!(),
        }
    }

    // Whether the steps of a segment are the private ones that come next of its process, which lives, by the image.
    fn is_next(&mut self, offer: &Offer<'_>) -> bool
        requires going { HasNoStop self.old.core }
        requires lives { living (state_of self.old.core) (offered self.old.core.program offer.now).id.process ≢ None }
        requires known { IsKnownOffer self.old.core.program offer.now }
        ensures next { IsWhetherNext result self.old (offered self.old.core.program offer.now) }
        ensures same { self.new ≡ self.old }
    {
        self.image.is_runnable();
        views_are_of_states();
        segments_depend_on_reads();
        tops_are_running();
        self.machine.settle(&self.image, offer.ticket().process);
        let owned = OwnCellTable {
            image: &self.image,
            tables: &self.own,
        };
        comes_next(&mut self.machine, &owned, offer)
    }

    // The commit of a segment with steps, whose ticket is the one that is out for its process: these steps, and one
    // turn more.
    //
    // Whatever can be refused after the steps is refused before anything else has changed, or the process gets its
    // private state back.
    fn commit_behind(&mut self, offer: &Offer<'_>) -> Result<Turn, CommitFault>
        requires out { IsOutBy self.old.core (offered self.old.core.program offer.now) }
        requires known { IsKnownOffer self.old.core.program offer.now }
        requires some { 0 < length (offered self.old.core.program offer.now).records }
        ensures committed { IsCommitted self.old (offered self.old.core.program offer.now) result self.new }
        ensures others { OnOk result (LeavesNext (offered self.old.core.program offer.now).id.process self.old self.new) }
    {
        self.image.is_runnable();
        views_are_of_states();
        lists_go_along_with_steps();
        lists_go_along_with_purges();
        segments_depend_on_reads();
        tops_are_running();
        private_steps_are_turns();
        others_leave_what_is_read();
        restored_machines_are_as_before();
        let p = offer.ticket().process;
        self.machine.settle(&self.image, p);
        let owned = OwnCellTable {
            image: &self.image,
            tables: &self.own,
        };
        if !comes_next(&mut self.machine, &owned, offer) {
            return Err(CommitFault::Stale);
        }
        if self.limit <= self.history.len() {
            self.stop = Some(ChoiceStop::StepLimit);
            return Err(CommitFault::Stopped(ChoiceStop::StepLimit));
        }
        self.saved.keep(&mut self.machine, &owned, p)?;
        self.history.reserve(1)?;
        let steps = offer.steps();
        let made = self.machine.made;
        take_private(&mut self.machine, &owned, offer);
        note(&mut self.history, p, steps);
        if is_next_private(&mut self.machine, &self.image, p) {
            come_back(&mut self.out, p);
            return Ok(made_steps(steps));
        }
        match self.machine.turn(
            self.alloc,
            &self.image,
            p,
            &mut self.history,
            &mut self.roster,
        ) {
            Ok(turned) => match turned {
                TurnOutcome::Waits(_) => {
                    come_back(&mut self.out, p);
                    Ok(made_steps(steps))
                }
                _ => {
                    note_more(&mut self.history, p, steps + 1);
                    note_step(&mut self.roster, &self.machine, p, made, turned);
                    self.stop = stop_where(self.machine.halted);
                    come_back(&mut self.out, p);
                    Ok(made_steps(steps + 1))
                }
            },
            Err(TurnFault::ArenaFull) => {
                come_back(&mut self.out, p);
                Ok(made_steps(steps))
            }
            Err(TurnFault::NoMemory) => {
                self.history.pop();
                self.saved.put_back(&mut self.machine, &owned, p);
                Err(CommitFault::NoMemory)
            }
        }
    }

    /// Makes a turn of the process that comes next, with the same result as its check-out and the commit of a segment
    /// of its ticket. At most `most` private steps are made in place, 1,023 at most. The turn is made only where the
    /// step after them only moves the process, or where there are 1,023 and a private one follows, which is left out.
    /// A turn without private steps is made only where no private step comes next, by the tables of private code.
    /// `None` where no turn was made; nothing has changed then.
    ///
    /// Such turns cost less than a check-out and a commit: there is no ticket, no cell is copied for it, and memory
    /// is asked for only for the entry and for the saved private state.
    pub fn turn_at_once(&mut self, ahead: &PrivateImage<'_>, most: u32) -> Option<TurnAtOnce>
        requires program { ahead.now ≡ self.old.core.program }
        requires few { most ≤ most_records }
        ensures made { IfSome result (λ turn. IsTurnAtOnce self.old turn.process turn.steps self.new) }
        ensures few { IfSome result (λ turn. turn.steps ≤ suc most) }
        ensures none { IfNone result (self.new ≡ self.old) }
        ensures kept { AreGoodStill self.old self.new }
    {
        if let Some(_stop) = self.stop() {
            return None;
        }
        if self.given() == u64::MAX {
            return None;
        }
        let p = self.next_ready()?;
        if self.is_out(p) || !self.lives(p) {
            return None;
        }
        let steps = self.move_at_once(ahead, p, most);
        if steps == 0 {
            return None;
        }
        self.count_ticket();
        self.headline();
        Some(TurnAtOnce { process: p, steps })
    }

    // Makes a turn of process p without a ticket, as in `turn_at_once`, and returns the number of its steps: 0 where
    // there is no such turn.
    #[inline(always)]
    fn move_at_once(&mut self, ahead: &PrivateImage<'_>, p: u64, most: u32) -> u32
        requires program { ahead.now ≡ self.old.core.program }
        requires home { is_out p self.old.core.out ≡ false }
        requires going { HasNoStop self.old.core }
        requires lives { living (state_of self.old.core) p ≢ None }
        requires few { most ≤ most_records }
        ensures made { 0 < result → HasMovedAtOnce self.old p result self.new }
        ensures few { result ≤ suc most }
        ensures none { result ≡ 0 → self.new ≡ self.old }
        ensures others { 0 < result → LeavesNext p self.old self.new }
    {
        if self.stands_alone(ahead, p) {
            return self.move_once(p);
        }
        if most == 0 {
            return 0;
        }
        self.move_behind(ahead, p, most)
    }

    // Whether no private step of process p, which lives, comes next, by the tables of private code. False doesn't say
    // that one comes.
    #[inline(always)]
    fn stands_alone(&self, ahead: &PrivateImage<'_>, p: u64) -> bool
        requires program { ahead.now ≡ self.now.core.program }
        requires going { HasNoStop self.now.core }
        requires lives { living (state_of self.now.core) p ≢ None }
        ensures { result ≡ true → StandsAlone self.now p }
    {
        self.image.is_runnable();
        tops_are_running();
        stands_alone(&self.machine, ahead, p)
    }

    // Makes at most `most` private steps of process p in place, and the step after them, as one entry, and returns
    // their number. It is 0 where there is no such turn; nothing has changed then. The lists of waiting and ready
    // processes don't change.
    #[inline(never)]
    fn move_behind(&mut self, ahead: &PrivateImage<'_>, p: u64, most: u32) -> u32
        requires program { ahead.now ≡ self.old.core.program }
        requires home { is_out p self.old.core.out ≡ false }
        requires going { HasNoStop self.old.core }
        requires lives { living (state_of self.old.core) p ≢ None }
        requires few { most ≤ most_records }
        ensures made { 0 < result → (length self.old.core.history < self.old.core.limit) × HasMovedBehind self.old p result self.new }
        ensures few { result ≤ suc most }
        ensures none { result ≡ 0 → self.new ≡ self.old }
        ensures others { 0 < result → LeavesNext p self.old self.new }
    {
        self.image.is_runnable();
        views_are_of_states();
        lists_go_along_with_steps();
        tops_are_running();
        others_leave_what_is_read();
        segments_depend_on_reads();
        if self.limit <= self.history.len() {
            return 0;
        }
        if self.history.reserve(1).is_err() {
            return 0;
        }
        self.machine.settle(&self.image, p);
        let prepared = PreparedProgram {
            image: &self.image,
            tables: &self.tables,
            own: &self.own,
            ahead,
        };
        let steps = turn_in_place(&mut self.machine, &prepared, &mut self.saved, p, most);
        if steps == 0 {
            return 0;
        }
        note(&mut self.history, p, steps);
        steps
    }

    /// Makes `turns` turns of the process that comes next, in place and at once, each of 1,023 private steps, and
    /// returns that process. The process must have made the last entry too, and a private step must follow all of
    /// them. `None` where no turn was made; nothing has changed then.
    ///
    /// All work besides the steps costs as much as for one turn.
    pub fn turns_at_once(&mut self, ahead: &PrivateImage<'_>, turns: u32) -> Option<u64>
        requires program { ahead.now ≡ self.old.core.program }
        requires some { 0 < turns }
        requires few { turns ≤ 1024 }
        ensures made { IfSome result (λ p. AreTurnsAtOnce p turns self.old self.new) }
        ensures none { IfNone result (self.new ≡ self.old) }
        ensures kept { AreGoodStill self.old self.new }
    {
        if let Some(_stop) = self.stop() {
            return None;
        }
        let p = self.next_ready()?;
        if p != self.last_process() || self.is_out(p) || !self.lives(p) {
            return None;
        }
        if !self.run_at_once(ahead, p, turns) {
            return None;
        }
        Some(p)
    }

    // Makes `turns` turns of process p, which comes next and made the last entry, as in `turns_at_once`, and returns
    // whether it did. If not, nothing has changed. The lists of waiting and ready processes don't change.
    #[inline(never)]
    fn run_at_once(&mut self, ahead: &PrivateImage<'_>, p: u64, turns: u32) -> bool
        requires program { ahead.now ≡ self.old.core.program }
        requires free { IsFree self.old.core p }
        requires next { next_ready_of self.old.core ≡ Some p }
        requires last { last_process self.old.core.history ≡ p }
        requires some { 0 < turns }
        requires few { turns ≤ 1024 }
        ensures made { result ≡ true → AreTurnsAtOnce p turns self.old self.new }
        ensures none { result ≡ false → self.new ≡ self.old }
        ensures others { result ≡ true → LeavesNext p self.old self.new }
    {
        self.image.is_runnable();
        views_are_of_states();
        lists_go_along_with_steps();
        private_steps_are_turns();
        others_leave_what_is_read();
        segments_depend_on_reads();
        if self.limit.saturating_sub(self.history.len()) < turns as u64 {
            return false;
        }
        if u64::MAX - self.given < turns as u64 {
            return false;
        }
        if self.history.reserve(turns).is_err() {
            return false;
        }
        self.machine.settle(&self.image, p);
        let prepared = PreparedProgram {
            image: &self.image,
            tables: &self.tables,
            own: &self.own,
            ahead,
        };
        let steps = turns * MOST_RECORDS as u32;
        if !run_in_place(&mut self.machine, &prepared, &mut self.saved, p, steps) {
            return false;
        }
        let entry = Entry {
            process: p,
            steps: MOST_RECORDS as u32,
        };
        self.history.push_many(entry, turns);
        self.given += turns as u64;
        true
    }

    // Chooses process p once, where the table has its next step and that only moves it, and returns 1. It returns 0
    // where that isn't so, or there was no room for the entry; nothing has changed then. The lists of waiting and
    // ready processes don't change.
    #[inline(always)]
    fn move_once(&mut self, p: u64) -> u32
        requires home { is_out p self.old.core.out ≡ false }
        requires going { HasNoStop self.old.core }
        requires lives { living (state_of self.old.core) p ≢ None }
        ensures chosen { 0 < result → (result ≡ 1) × AreChoices p self.old.core 1 self.new.core }
        ensures none { result ≡ 0 → self.new ≡ self.old }
        ensures others { 0 < result → LeavesNext p self.old self.new }
    {
        self.image.is_runnable();
        views_are_of_states();
        lists_go_along_with_steps();
        others_leave_what_is_read();
        segments_depend_on_reads();
        if self.limit <= self.history.len() {
            return 0;
        }
        if self.history.reserve(1).is_err() {
            return 0;
        }
        let tabled = DecodedImage {
            image: &self.image,
            tables: &self.tables,
        };
        if turn_by_table(&mut self.machine, &tabled, p) == 0 {
            return 0;
        }
        note(&mut self.history, p, 1);
        1
    }

    // Counts one more ticket.
    fn count_ticket(&mut self)
        requires { self.old.core.given < most_tickets }
        ensures { self.new ≡ with_core self.old (record self.old.core { given = self.old.core.given + 1 }) }
    {
        self.given += 1;
    }

    // Takes all tickets off the list of those that are out, and returns them.
    fn put_aside(&mut self) -> Vec<TicketId>
        ensures aside { self.new ≡ with_core self.old (record self.old.core { out = [] }) }
        ensures tickets { result.items ≡ self.old.core.out }
        ensures living { AreLiving self.old.core.program self.old.core.history self.old.core.out }
    {
        replace(&mut self.out, Vec::new(self.alloc))
    }

    // Puts tickets back on the list of those that are out.
    fn put_back(&mut self, out: Vec<TicketId>)
        requires { AreLiving self.old.core.program self.old.core.history out.items }
        ensures { self.new ≡ with_core self.old (record self.old.core { out = out.items }) }
    {
        self.out = out;
    }

    /// Cancels a ticket: its process isn't out any more, and nothing else has changed.
    ///
    /// # Errors
    ///
    /// `Stopped` at a stop; `Stale` where the ticket isn't the one that is out for its process.
    pub fn cancel(&mut self, ticket: &Ticket) -> Result<(), CommitFault>
        ensures cancelled { IsCancelled self.old ticket.now.id result self.new }
        ensures kept { AreGoodStill self.old self.new }
    {
        if let Some(stop) = self.stop() {
            return Err(CommitFault::Stopped(stop));
        }
        let id = ticket.id();
        if !self.has_ticket(id) {
            return Err(CommitFault::Stale);
        }
        self.bring_back(id.process);
        Ok(())
    }

    // Takes process p off the list of those that are out.
    fn bring_back(&mut self, p: u64)
        ensures { self.new ≡ with_core self.old (core_after_return self.old.core p) }
    {
        come_back(&mut self.out, p);
    }

    /// Does nothing: its clauses say what every core is.
    ///
    /// - The view of a core is that of the source machine after the core's history.
    /// - The history is one that a core may have.
    /// - A stop is what its name says: a STOP was executed, the history is full, or some process can't make its step
    ///   because there is no gap for the frame of a new activation.
    /// - Where all living processes wait, no process has a step.
    /// - The places of the processes are those in a machine that keeps the state after the history.
    pub fn headline(&self)
        ensures view { self.now.core.view ≡ view_of self.now.core.program is_held (state_of self.now.core) }
        ensures legal { IsLegal self.now.core.program self.now.core.cells self.now.core.limit self.now.core.history }
        ensures named { IsStop self.now.core.program self.now.core.cells self.now.core.limit self.now.core.history self.now.core.stop }
        ensures waiting { verdict_of self.now.core ≡ Waiting → IsIdle self.now.core.program (state_of self.now.core) }
        ensures placed { ArePlaces self.now }
    {
        self.image.is_runnable();
        views_are_of_states();
    }

    /// The stop of the core, if it has one.
    pub fn stop(&self) -> Option<ChoiceStop>
        ensures stop { result ≡ self.now.core.stop }
        ensures none { IfNone result (HasNoStop self.now.core) }
    {
        self.stop
    }

    // Sets the stop `StepLimit` where the history is full, and returns whether it is.
    fn stop_where_full(&mut self) -> bool
        requires { self.old.core.stop ≡ None }
        ensures { IsStoppedWhereFull self.old result self.new }
    {
        let full = self.limit <= self.history.len();
        if full {
            self.stop = Some(ChoiceStop::StepLimit);
        }
        full
    }

    /// Whether process p was made and hasn't ended.
    pub fn lives(&self, p: u64) -> bool
        ensures { result ≡ is_some (living (state_of self.now.core) p) }
    {
        self.machine.lives(p)
    }

    // The ready process with the least number above p: one that lives and doesn't wait.
    fn ready_above(&self, p: u64) -> Option<u64>
        ensures { result ≡ first_above p (ready_of self.now.core) None }
    {
        lists_are_those_of_definitions();
        self.roster.first_above(p)
    }

    // The process that comes next after p, whoever is out.
    #[inline(always)]
    fn next_of_all(&self, p: u64) -> Option<u64>
        ensures { result ≡ next_of_ready p (ready_of self.now.core) }
    {
        lists_are_those_of_definitions();
        self.roster.next(p)
    }

    // The least number above p of the ready processes that aren't out.
    fn free_above(&self, p: u64) -> Option<u64>
        ensures { result ≡ first_above p (free_of self.now.core) None }
    {
        let mut next = self.ready_above(p)?;
        while self.is_out(next) {
            next = self.ready_above(next)?;
        }
        Some(next)
    }

    /// The process that comes next after p. Of the processes that live, don't wait and aren't out it is the one with
    /// the least number above p, or else the one with the least number.
    ///
    /// This costs, for each process that is out and once more, the logarithm of the greatest number of processes that
    /// lived at one time, or a constant time where at most 64 were made.
    #[inline(always)]
    pub fn ready_after(&self, p: u64) -> Option<u64>
        ensures { result ≡ next_of_ready p (free_of self.now.core) }
    {
        if self.out.is_empty() {
            return self.next_of_all(p);
        }
        match self.free_above(p) {
            Some(q) => Some(q),
            None => self.free_above(0),
        }
    }

    /// The process that comes next by itself: the one that comes next after the process of the last entry.
    ///
    /// This costs as much as `ready_after`.
    #[inline(always)]
    pub fn next_ready(&self) -> Option<u64>
        ensures { result ≡ next_ready_of self.now.core }
    {
        self.ready_after(self.last_process())
    }

    /// The process of the last entry of the history, 0 where there is none.
    pub fn last_process(&self) -> u64
        ensures { result ≡ last_process self.now.core.history }
    {
        self.history.last().map_or(0, |entry| entry.process)
    }

    /// Whether the run goes on.
    pub fn verdict(&self) -> Verdict
        ensures { result ≡ verdict_of self.now.core }
    {
        lists_are_those_of_definitions();
        match self.stop {
            Some(stop) => Verdict::Stopped(stop),
            None if !self.roster.none_ready() => Verdict::Running,
            None if self.roster.none_waits() => Verdict::Done,
            None => Verdict::Waiting,
        }
    }

    /// The next process above p that was found waiting and still waits: its place, and what it waits for.
    ///
    /// This costs the logarithm of the greatest number of processes that lived at one time, and a step for each
    /// activation from the process's top one to the one whose variable it waits for.
    pub fn waiting_after(&self, p: u64) -> Option<Listed>
        ensures { result ≡ next_listed_of self.now.core p }
    {
        let next = self.roster.next_waiting(p)?;
        let want = self.roster.waiting(next)?;
        Some(listed(&self.machine, &self.image, next, want))
    }

    /// What process p waits for, if it was found waiting and still waits.
    pub fn want(&self, p: u64) -> Option<Want>
        ensures listed { is_some result ≡ is_number_among p (progress_after self.now.core.program self.now.core.history).listed }
        ensures want { IfSome result (IsBlocked self.now.core.program self.now.core.cells (schedule_of self.now.core.history) p) }
    {
        self.roster.waiting(p)
    }

    /// The machine that keeps the state.
    pub fn machine(&self) -> &CoreState
        ensures after { IsMachineAfter self.now.core.program self.now.core.cells (schedule_of self.now.core.history) result.now }
        ensures places { self.now.places ≡ places_of self.now.core.program (snapshot_of result.now) }
    {
        &self.machine
    }

    /// The number of processes that were made.
    pub fn made(&self) -> u64
        ensures { result ≡ length (state_of self.now.core).processes }
    {
        self.machine.made
    }

    /// The place of process p. `None` where it was never made or has ended.
    pub fn whereabouts(&self, p: u64) -> Option<Whereabouts>
        ensures { result ≡ whereabouts_by self.now.core.program p (state_of self.now.core) }
    {
        if !self.machine.lives(p) {
            return None;
        }
        Some(whereabouts(&self.machine, &self.image, p))
    }

    /// The number of cells of the arena that are taken.
    pub fn used(&self) -> u32
        ensures { result ≡ used_cells self.now.core.program is_held (state_of self.now.core) }
    {
        layouts_have_what_is_held();
        self.machine.frames.used()
    }

    /// The cell at a position of COMMON, counted from 0. The common blocks follow one another in the order in which
    /// they appear first, each at its greatest length. `None` past the end of COMMON.
    pub fn common(&self, at: u32) -> Option<Slot>
        ensures { result ≡ common_cell self.now.core at }
    {
        if self.image.common() <= at {
            return None;
        }
        Some(self.machine.frames.arena.get(at))
    }

    /// The records that the run has printed so far.
    pub fn output(&self) -> &[Record]
        ensures { result.now ≡ (state_of self.now.core).records }
    {
        &self.machine.records
    }

    /// The faults that the run has made so far.
    pub fn faults(&self) -> &[Fault]
        ensures { result.now ≡ (state_of self.now.core).faults }
    {
        &self.machine.faults
    }

    /// The history.
    pub fn history(&self) -> &History
        ensures { result.now.items ≡ self.now.core.history }
    {
        &self.history
    }

    /// The history of a core that is no longer needed.
    pub fn into_history(self) -> History
        ensures { result.items ≡ self.core.history }
    {
        let Core {
            alloc,
            image,
            tables,
            own,
            cells,
            limit,
            history,
            stop,
            machine,
            roster,
            out,
            given,
            saved,
        } = self;
        history
    }

    /// The number of cells of the arena.
    pub fn cells(&self) -> u32
        ensures { result ≡ self.now.core.cells }
    {
        self.cells
    }

    /// The greatest number of entries of the history.
    pub fn limit(&self) -> u64
        ensures { result ≡ self.now.core.limit }
    {
        self.limit
    }

    /// The image of the run.
    pub fn image(&self) -> &Image
        ensures { result.now ≡ self.now.core.program }
    {
        &self.image
    }
}

// Appends an entry of process p with this number of steps, for which there is room.
#[inline(always)]
fn note(history: &mut History, p: u64, steps: u32)
    requires room { 0 < history.old.room }
    requires few { length history.old.items < 2 ^ 63 }
    ensures { history.new.items ≡ history.old.items ++ record { process = p; steps = steps } ∷ [] }
{
    history.push(Entry { process: p, steps });
}

// The number of choices of one process before another process is looked for.
#[inline(always)]
fn at_once(most: u64, rounds: bool) -> u64
    requires { most < 2 ^ 32 }
    ensures few { result < 2 ^ 32 }
    ensures rounds { rounds ≡ true → result ≡ 1 }
    ensures alone { rounds ≡ false → result ≡ most }
{
    if rounds { 1 } else { most }
}

// The process that comes next after p, where it is another one and the history has room for its entry.
#[inline(always)]
fn other_next(roster: &Roster, history: &mut History, p: u64) -> Option<u64>
    ensures next { IfSome result (λ q. next_of_ready p roster.now.ready ≡ Some q) }
    ensures rising { AreRising 1 roster.now.last roster.now.ready }
    ensures room { IfSome result (λ _. (0 < history.new.room) × (length history.new.items < 2 ^ 63)) }
    ensures items { history.new.items ≡ history.old.items }
{
    let other = roster.next(p)?;
    if other == p {
        return None;
    }
    match history.reserve(1) {
        Ok(()) => Some(other),
        Err(_) => None,
    }
}

// Appends `count` entries of process p, each of one step, for which there is room.
#[inline(always)]
fn note_all(history: &mut History, p: u64, count: u32)
    requires room { 0 < history.old.room }
    requires few { length history.old.items + count ≤ 2 ^ 63 }
    ensures { history.new.items ≡ entries_along history.old.items p count }
{
    // In rounds the count is 1.
    if count == 1 {
        note(history, p, 1);
        return;
    }
    history.push_many(
        Entry {
            process: p,
            steps: 1,
        },
        count,
    );
}
