//! The roster: the living processes, by their numbers.
ghost use Rattle.std.specs.Prelude.{◌≡◌, ◌≢◌, ℕ, ◌+◌, ◌<◌, ◌≤◌, ◌==◌, ◌&&◌, ◌||◌, [], None, IfErr, IfNone, IfOk, IfSome, IsOk, OnErr, OnOk};
ghost use Rattle.std.specs.Prelude.{true, false, if◌then◌else◌, length, max, nat_eq};
ghost use Rattle.hep_machine.specs.Words.{first_above, is_number_among, next_of_ready};
ghost use Rattle.hep_blocked.specs.RosterUpdates.{IsReadyNoMore, WaitsNow};
ghost use Rattle.hep_blocked.specs.Numbers.{AreRising};
ghost use Rattle.hep_blocked.specs.Rosters.{KeepsRoll, is_enrolled, place_of, want_of};
ghost use Rattle.hep_blocked.specs.Waiting.{awake, waiting_at, wants};

use crate::ranking::{append, number_at, place_of, places_to};
use crate::ready_set::ReadySet;
use crate::waits::Waits;
use hep_cells::Want;
use std::alloc::{AllocError, Global};
use std::marker::Model;

/// The living processes, by their numbers; each is ready or waits. Contracts see the rising numbers of the ready
/// ones; the waiting ones, each with what it waits for; the greatest number that was enrolled; and the greatest
/// number that there is room for.
///
/// It has a place for each living process. An ended process keeps its place until room is made. So the memory depends
/// on the greatest number of processes that lived at one time, and not on how many were made.
pub struct Roster {
    alloc: Global,
    // Rising numbers, some of processes that have ended. The first one is at place 1.
    numbers: Vec<u64>,
    // The places of the ready processes.
    ready: ReadySet,
    // What the process at each place waits for.
    waits: Waits,
    // The greatest number that was enrolled.
    last: u64,
    // The number of further places that there is room for.
    free: usize,
}

impl Drop for Roster {
    fn drop(self) {
        let Roster {
            alloc,
            numbers,
            ready,
            waits,
            last,
            free,
        } = self;
    }
}

impl Model for Roster {
    ghost use Rattle.std.specs.Coded.{codes};
    ghost use Rattle.hep_cells.specs.contracts.want.Want as want;
    ghost use Rattle.hep_blocked.specs.Rosters.{HasPlaces, RosterValue, roll_of};

    ghost Value = { RosterValue };

    ghost coded = { Prim.hlevel (codes, want.the_row.coded) };

    ghost view = { roll_of };

    ghost invariant = { HasPlaces };
}

impl Roster {
    /// No process lives, and there is room for no number. This takes no memory.
    pub fn new(alloc: Global) -> Roster
        ensures ready { result.ready ≡ [] }
        ensures waiting { result.waiting ≡ [] }
        ensures last { result.last ≡ 0 }
    {
        Roster {
            alloc,
            numbers: Vec::new(alloc),
            ready: ReadySet::new(alloc),
            waits: Waits::new(alloc),
            last: 0,
            free: 0,
        }
    }

    /// Makes room to enrol the numbers up to `number`. The ready and the waiting processes don't change.
    ///
    /// Where there is too little room, the living processes move to new places, with as much room again, in linear
    /// time. So processes that are made one after another cost a constant time each on average.
    ///
    /// # Errors
    ///
    /// `AllocError` where memory was refused; nothing has changed then.
    pub fn reserve(&mut self, number: u64) -> Result<(), AllocError>
        ensures room { OnOk result (number ≤ self.new.room) }
        ensures kept { KeepsRoll self.old self.new }
        ensures refused { IfErr result (λ _. self.new ≡ self.old) }
        ensures made { number ≤ self.old.room → IsOk result × (self.new ≡ self.old) }
    {
        if number <= self.last {
            return Ok(());
        }
        if number - self.last <= self.free as u64 {
            return Ok(());
        }
        let mut roster = moved(self.alloc, &self.numbers, &self.ready, &self.waits)?;
        roster.make_room(self.last, number)?;
        *self = roster;
        Ok(())
    }

    // Adds a process with a greater number than all others, which is ready or waits; one that does neither has ended and
    // gets no place. Then there is room for no further place.
    fn keep(&mut self, number: u64, is_ready: bool, want: Option<Want>) -> Result<(), AllocError>
        requires later { self.old.last < number }
        ensures ready { OnOk result ((q : ℕ) → is_number_among q self.new.ready
            ≡ ((nat_eq q number && is_ready) || is_number_among q self.old.ready)) }
        ensures waiting { OnOk result ((q : ℕ) → want_of self.new.waiting q
            ≡ (if nat_eq q number then want else want_of self.old.waiting q)) }
        ensures last { self.new.last ≤ number }
    {
        let place = self.numbers.len() as u64 + 1;
        if want.is_none() {
            if !is_ready {
                return Ok(());
            }
        }
        self.free = 0;
        self.ready.reserve(place)?;
        self.numbers.push(number)?;
        self.last = number;
        mark(&mut self.ready, place, is_ready);
        note(&mut self.waits, place, want)
    }

    // Makes room for as many further processes as have places, and for the numbers up to `number`, where all up to
    // `last` have been enrolled.
    fn make_room(&mut self, last: u64, number: u64) -> Result<(), AllocError>
        requires enrolled { self.old.last ≤ last }
        requires more { last < number }
        ensures room { OnOk result (number ≤ self.new.room) }
        ensures last { OnOk result (self.new.last ≡ last) }
        ensures ready { self.new.ready ≡ self.old.ready }
        ensures waiting { self.new.waiting ≡ self.old.waiting }
    {
        let free = self.numbers.len().saturating_add((number - last) as usize);
        self.numbers.reserve(free)?;
        self.ready.reserve((self.numbers.len() + free) as u64)?;
        self.last = last;
        self.free = free;
        Ok(())
    }

    /// Enrols a process that was made, with a greater number than all before it, for which there is room. It is
    /// ready.
    ///
    /// This takes no memory, and costs the logarithm of the room.
    pub fn enroll(&mut self, p: u64)
        requires later { self.old.last < p }
        requires room { p ≤ self.old.room }
        ensures ready { (q : ℕ) → is_number_among q self.new.ready ≡ (nat_eq q p || is_number_among q self.old.ready) }
        ensures waiting { (q : ℕ) → want_of self.new.waiting q ≡ want_of self.old.waiting q }
        ensures last { self.new.last ≡ p }
        ensures room { self.old.room ≤ self.new.room }
    {
        append(&mut self.numbers, p);
        self.ready.add(self.numbers.len() as u64);
        self.last = p;
        self.free -= 1;
    }

    /// Makes a process not ready, whether it was or not. If it doesn't wait either, it has ended, and gives its place
    /// back.
    ///
    /// This costs the logarithm of the room.
    pub fn remove(&mut self, p: u64)
        ensures ready { IsReadyNoMore p self.old.ready self.new.ready }
        ensures others { self.new ≡ record self.old { ready = self.new.ready } }
    {
        self.ready.remove(place_of(&self.numbers, p));
    }

    /// Makes a process that is ready or waits not ready; if it didn't wait before, it waits for this now.
    ///
    /// This costs the logarithm of the room, and a constant time on average besides.
    ///
    /// # Errors
    ///
    /// `AllocError` where memory was refused; nothing has changed then.
    pub fn block(&mut self, p: u64, want: Want) -> Result<(), AllocError>
        requires enrolled { is_enrolled self.old p ≡ true }
        ensures waits { OnOk result (WaitsNow p want (want_of self.old.waiting) (want_of self.new.waiting)) }
        ensures ready { OnOk result (IsReadyNoMore p self.old.ready self.new.ready) }
        ensures others { (self.new.last ≡ self.old.last) × (self.new.room ≡ self.old.room) }
        ensures refused { OnErr result (self.new ≡ self.old) }
    {
        let place = place_of(&self.numbers, p);
        hold(&mut self.waits, place, want)?;
        self.ready.remove(place);
        Ok(())
    }

    /// Makes the processes that wait for this ready.
    ///
    /// This takes no memory. It costs a constant time, and for each process that it wakes the logarithm of the room.
    pub fn wake(&mut self, want: Want)
        ensures waiting { (q : ℕ) → want_of self.new.waiting q ≡ awake want (want_of self.old.waiting q) }
        ensures ready { (q : ℕ) → is_number_among q self.new.ready
            ≡ (wants want (want_of self.old.waiting q) || is_number_among q self.old.ready) }
        ensures others { (self.new.last ≡ self.old.last) × (self.new.room ≡ self.old.room) }
    {
        self.waits.wake(want, &mut self.ready);
    }

    /// What a process waits for.
    ///
    /// This costs the logarithm of the room, and a constant time where each number up to its own has a place.
    pub fn waiting(&self, p: u64) -> Option<Want>
        ensures { result ≡ want_of self.now.waiting p }
    {
        self.waits.waiting(place_of(&self.numbers, p))
    }

    /// The waiting process with the least number above p. `None` where there is none.
    ///
    /// This costs the logarithm of the room.
    pub fn next_waiting(&self, p: u64) -> Option<u64>
        ensures found { IfSome result (λ q. (p < q) × (want_of self.now.waiting q ≢ None)
            × ((r : ℕ) → p < r → r < q → want_of self.now.waiting r ≡ None)) }
        ensures none { IfNone result ((q : ℕ) → p < q → want_of self.now.waiting q ≡ None) }
    {
        let place = self.waits.next_after(places_to(&self.numbers, p))?;
        Some(number_at(&self.numbers, place))
    }

    /// Whether no process waits. This costs a constant time.
    pub fn none_waits(&self) -> bool
        ensures nobody { result ≡ true → (p : ℕ) → want_of self.now.waiting p ≡ None }
        ensures somebody { result ≡ false → (p : ℕ) × (want_of self.now.waiting p ≢ None) }
    {
        self.waits.is_empty()
    }

    /// The next ready process after `last`: the one with the least number above it, or else the one with the least
    /// number. `None` where none is ready.
    ///
    /// This costs the logarithm of the room, or a constant time where the room is at most 64 and each number up to
    /// `last` has a place.
    #[inline(always)]
    pub fn next(&self, last: u64) -> Option<u64>
        ensures next { result ≡ next_of_ready last self.now.ready }
        ensures rising { AreRising 1 self.now.last self.now.ready }
    {
        match self.first_above(last) {
            Some(p) => Some(p),
            None => self.first_above(0),
        }
    }

    /// The ready process with the least number above p. `None` where there is none: unlike `next`, this doesn't start
    /// again with the least number.
    ///
    /// This costs as much as `next`.
    #[inline(always)]
    pub fn first_above(&self, p: u64) -> Option<u64>
        ensures next { result ≡ first_above p self.now.ready None }
        ensures rising { AreRising 1 self.now.last self.now.ready }
    {
        let place = self.ready.first_above(places_to(&self.numbers, p))?;
        Some(number_at(&self.numbers, place))
    }

    /// Whether no process is ready. This costs a constant time.
    pub fn none_ready(&self) -> bool
        ensures { result ≡ (length self.now.ready == 0) }
    {
        self.ready.is_empty()
    }
}

// Marks a place as ready, or as not ready.
fn mark(ready: &mut ReadySet, place: u64, is_ready: bool)
    requires some { 1 ≤ place }
    requires room { place ≤ ready.old.room }
    ensures ready { (k : ℕ) → is_number_among k ready.new.ready ≡ ((nat_eq k place && is_ready) || is_number_among k ready.old.ready) }
    ensures room { ready.new.room ≡ ready.old.room }
{
    if is_ready {
        ready.add(place);
    }
}

// Notes what is waited for at a place, if anything is; nothing was before.
fn note(waits: &mut Waits, place: u64, want: Option<Want>) -> Result<(), AllocError>
    requires some { 1 ≤ place }
    requires idle { waiting_at waits.old place ≡ None }
    ensures waiting { OnOk result ((k : ℕ) → waiting_at waits.new k ≡ (if nat_eq place k then want else waiting_at waits.old k)) }
    ensures size { length waits.new ≤ max place (length waits.old) }
{
    match want {
        Some(want) => waits.block(place, want),
        None => Ok(()),
    }
}

// Notes what is waited for at a place, unless something was before.
fn hold(waits: &mut Waits, place: u64, want: Want) -> Result<(), AllocError>
    requires { 1 ≤ place }
    ensures waits { OnOk result (WaitsNow place want (waiting_at waits.old) (waiting_at waits.new)) }
    ensures size { length waits.new ≤ max place (length waits.old) }
    ensures refused { OnErr result (waits.new ≡ waits.old) }
{
    if waits.waiting(place).is_none() {
        waits.block(place, want)?;
    }
    Ok(())
}

// A roster of the living processes, at new places.
fn moved(
    alloc: Global,
    numbers: &[u64],
    ready: &ReadySet,
    waits: &Waits,
) -> Result<Roster, AllocError>
    requires rising { (greatest : ℕ) × AreRising 1 greatest numbers.now }
    requires places { (k : ℕ) → is_number_among k ready.now.ready ≡ true → (1 ≤ k) × (k ≤ length numbers.now) }
    ensures ready { IfOk result (λ roster. (q : ℕ) → is_number_among q roster.ready
        ≡ is_number_among (place_of numbers.now q) ready.now.ready) }
    ensures waiting { IfOk result (λ roster. (q : ℕ) → want_of roster.waiting q ≡ waiting_at waits.now (place_of numbers.now q)) }
    ensures last { IfOk result (λ roster. (greatest : ℕ) → AreRising 1 greatest numbers.now → roster.last ≤ greatest) }
{
    let mut roster = Roster::new(alloc);
    for at in 0..numbers.len() {
        let place = at as u64 + 1;
        roster.keep(numbers[at], ready.has(place), waits.waiting(place))?;
    }
    Ok(roster)
}
