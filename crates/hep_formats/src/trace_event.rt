//! The lines of `trace` as events of the Trace Event Format, which viewers of timelines read.
ghost use Rattle.std.specs.Prelude.{◌≡◌, ◌≤◌, ◌<◌, ◌^◌, ◌++◌, IfOk, OnOk, map, replicate};
ghost use Rattle.hep_formats.specs.TraceEvents as words;

use crate::short_action::append_pair;
use crate::string::append_json_string;
use crate::trace_line::{lines_of, source_line_of, unit_of, waits};
use crate::turn_mark::{
    created_by, deed_of, first_word, higher, lower, marks_of, process_of, processes_in,
};
use crate::words::after_blank;
use hep_base::append_number;
use std::alloc::{AllocError, Global};

/// What of a process has begun and hasn't ended: so many activations, and its waiting.
#[derive(Clone, Copy)]
pub struct ThreadState {
    /// Whether the process has taken a turn.
    pub begun: bool,
    pub activations: u64,
    pub waits: bool,
}

/// The greatest number of activations that are counted: an arena has no more cells.
const MOST: u64 = 16_777_216;

// ---- events

// Appends the front of an event: its phase, and the process.
fn append_phase(text: &mut Vec<u8>, phase: &[u8], p: u64) -> Result<(), AllocError>
    ensures { OnOk result (text.new.items ≡ text.old.items ++ words.phase_text phase.now p) }
{
    text.extend_from_slice(b",\n{\"ph\":\"")?;
    text.extend_from_slice(phase)?;
    text.extend_from_slice(b"\",\"pid\":1,\"tid\":")?;
    append_number(text, p)
}

// Appends the front of an event at a time.
fn append_timed(text: &mut Vec<u8>, phase: &[u8], p: u64, time: u64) -> Result<(), AllocError>
    ensures { OnOk result (text.new.items ≡ text.old.items ++ words.timed_text phase.now p time) }
{
    append_phase(text, phase, p)?;
    text.extend_from_slice(b",\"ts\":")?;
    append_number(text, time)
}

// Appends a key and a text.
fn append_named(text: &mut Vec<u8>, key: &[u8], name: &[u8]) -> Result<(), AllocError>
    ensures { OnOk result (text.new.items ≡ text.old.items ++ words.named key.now name.now) }
{
    text.extend_from_slice(key)?;
    append_json_string(text, name)
}

// Appends that an activation of a unit of this name begins.
fn append_begin(text: &mut Vec<u8>, p: u64, time: u64, name: &[u8]) -> Result<(), AllocError>
    ensures { OnOk result (text.new.items ≡ text.old.items ++ words.begin_event p time name.now) }
{
    append_timed(text, b"B", p, time)?;
    append_named(text, b",\"name\":", name)?;
    text.extend_from_slice(b"}")
}

// Appends that what began last ends.
fn append_end(text: &mut Vec<u8>, p: u64, time: u64) -> Result<(), AllocError>
    ensures { OnOk result (text.new.items ≡ text.old.items ++ words.end_event p time) }
{
    append_timed(text, b"E", p, time)?;
    text.extend_from_slice(b"}")
}

// Appends that so many end.
fn append_ends(text: &mut Vec<u8>, p: u64, time: u64, count: u64) -> Result<(), AllocError>
    ensures { OnOk result (text.new.items ≡ text.old.items ++ words.ends p time count) }
{
    let mut left = count;
    while left > 0 {
        append_end(text, p, time)?;
        left -= 1;
    }
    Ok(())
}

// Appends the entry, and the unit in which the process was.
#[tactic(auto, unfolding(crate::specs::TraceEvents::unit_args))]
fn append_unit_args(text: &mut Vec<u8>, line: &[u8]) -> Result<(), AllocError>
    ensures { OnOk result (text.new.items ≡ text.old.items ++ words.unit_args line.now) }
{
    append_pair(text, b",\"args\":{\"entry\":", first_word(line))?;
    append_named(text, b",\"unit\":", unit_of(line))
}

// Appends the entry, and where the process was.
fn append_args(text: &mut Vec<u8>, line: &[u8]) -> Result<(), AllocError>
    ensures { OnOk result (text.new.items ≡ text.old.items ++ words.args_text line.now) }
{
    append_unit_args(text, line)?;
    append_pair(text, b",\"line\":", source_line_of(line))?;
    text.extend_from_slice(b"}}")
}

// Appends the front of a turn: of a step, which takes one microsecond, or of waiting, which begins.
fn append_turn_front(text: &mut Vec<u8>, p: u64, time: u64, waiting: bool) -> Result<(), AllocError>
    ensures { OnOk result (text.new.items ≡ text.old.items ++ words.turn_front p time waiting) }
{
    if waiting {
        return append_timed(text, b"B", p, time);
    }
    append_timed(text, b"X", p, time)?;
    text.extend_from_slice(b",\"dur\":1")
}

// Appends what a turn did.
fn append_turn(text: &mut Vec<u8>, p: u64, time: u64, line: &[u8]) -> Result<(), AllocError>
    ensures { OnOk result (text.new.items ≡ text.old.items ++ words.turn_event p time line.now) }
{
    append_turn_front(text, p, time, waits(line))?;
    append_named(text, b",\"cat\":", first_word(deed_of(line)))?;
    append_named(text, b",\"name\":", deed_of(line))?;
    append_args(text, line)
}

// ---- activations

// The name of the unit that the turn of a line calls, or nothing.
fn called_by(line: &[u8]) -> &[u8]
    ensures { result.now ≡ words.called_by line.now }
{
    let deed = deed_of(line);
    if first_word(deed) == b"calls".as_slice() {
        return first_word(after_blank(deed));
    }
    b""
}

// How many of so many activations end with the turn of a line.
fn ended_by(line: &[u8], activations: u64) -> u64
    ensures { result ≡ words.ended_by line.now activations }
{
    let verb = first_word(deed_of(line));
    if verb == b"FAULT".as_slice() {
        activations
    } else if verb == b"returns".as_slice() || verb == b"ends".as_slice() {
        1
    } else if verb == b"resumes".as_slice() && created_by(deed_of(line)) != 0 {
        1
    } else {
        0
    }
}

// The number of activations in a turn. The one whose step it is may have begun before the first line.
fn activations_in(state: ThreadState) -> u64
    ensures activations { result ≡ words.activations_in state }
    ensures few { result ≤ 16777216 }
{
    lower(higher(state.activations, 1), MOST)
}

// The state of a process after the turn of a line.
#[tactic(auto, unfolding(crate::specs::TraceEvents::state_after))]
fn state_after(state: ThreadState, line: &[u8]) -> ThreadState
    ensures { result ≡ words.state_after state line.now }
{
    let before = activations_in(state);
    let called = if called_by(line).is_empty() { 0 } else { 1 };
    ThreadState {
        begun: true,
        activations: (before + called).saturating_sub(ended_by(line, before)),
        waits: waits(line),
    }
}

// Appends the name of the thread of process p.
fn append_thread_name(text: &mut Vec<u8>, p: u64, unit: &[u8]) -> Result<(), AllocError>
    ensures { OnOk result (text.new.items ≡ text.old.items ++ words.thread_name p unit.now) }
{
    append_phase(text, b"M", p)?;
    append_named(text, b",\"name\":\"thread_name\",\"args\":{\"name\":", unit)?;
    text.extend_from_slice(b"}}")
}

// Appends the name of the thread of process p before its first turn.
fn append_first_name(
    text: &mut Vec<u8>,
    p: u64,
    state: ThreadState,
    line: &[u8],
) -> Result<(), AllocError>
    ensures { OnOk result (text.new.items ≡ text.old.items ++ words.first_name p state line.now) }
{
    if state.begun {
        return Ok(());
    }
    append_thread_name(text, p, unit_of(line))
}

// Appends that the process doesn't wait any more.
fn append_wait_end(
    text: &mut Vec<u8>,
    p: u64,
    time: u64,
    state: ThreadState,
) -> Result<(), AllocError>
    ensures { OnOk result (text.new.items ≡ text.old.items ++ words.wait_end p time state) }
{
    if !state.waits {
        return Ok(());
    }
    append_end(text, p, time)
}

// Appends that the activation begins whose turn it is, where none has begun.
fn append_first_begin(
    text: &mut Vec<u8>,
    p: u64,
    time: u64,
    state: ThreadState,
    line: &[u8],
) -> Result<(), AllocError>
    ensures { OnOk result (text.new.items ≡ text.old.items ++ words.first_begin p time state line.now) }
{
    if state.activations != 0 {
        return Ok(());
    }
    append_begin(text, p, time, unit_of(line))
}

// Appends what ended before a turn and what begins with it.
fn append_front(
    text: &mut Vec<u8>,
    p: u64,
    time: u64,
    state: ThreadState,
    line: &[u8],
) -> Result<(), AllocError>
    ensures { OnOk result (text.new.items ≡ text.old.items ++ words.front_events p time state line.now) }
{
    append_first_name(text, p, state, line)?;
    append_wait_end(text, p, time, state)?;
    append_first_begin(text, p, time, state, line)
}

// Appends what begins and what ends with a turn.
fn append_changes(
    text: &mut Vec<u8>,
    p: u64,
    time: u64,
    activations: u64,
    line: &[u8],
) -> Result<(), AllocError>
    ensures { OnOk result (text.new.items ≡ text.old.items ++ words.change_events p time activations line.now) }
{
    let called = called_by(line);
    if !called.is_empty() {
        append_begin(text, p, time, called)?;
    }
    append_ends(text, p, time, ended_by(line, activations))
}

// Appends all events of a turn of process p.
#[tactic(auto, unfolding(crate::specs::TraceEvents::turn_events))]
fn append_events(
    text: &mut Vec<u8>,
    p: u64,
    time: u64,
    state: ThreadState,
    line: &[u8],
) -> Result<(), AllocError>
    requires { time < 2 ^ 63 }
    ensures { OnOk result (text.new.items ≡ text.old.items ++ words.turn_events p time state line.now) }
{
    append_front(text, p, time, state, line)?;
    append_turn(text, p, time, line)?;
    append_changes(text, p, time + 1, activations_in(state), line)
}

// ---- all processes

// The state of process p.
#[tactic(auto, unfolding(crate::specs::TraceEvents::state_of))]
fn state_of(states: &[ThreadState], p: u64) -> ThreadState
    ensures { result ≡ words.state_of states.now p }
{
    match states.get(p.saturating_sub(1) as usize) {
        Some(state) => *state,
        None => ThreadState {
            begun: false,
            activations: 0,
            waits: false,
        },
    }
}

// Puts a state in the place of that of process p.
#[tactic(auto, unfolding(crate::specs::TraceEvents::with_state))]
fn put_state(states: &mut Vec<ThreadState>, p: u64, state: ThreadState)
    ensures { states.new.items ≡ words.with_state states.old.items p state }
{
    let index = p.saturating_sub(1) as usize;
    if index < states.len() {
        states[index] = state;
    }
}

// The states of processes that took no turn yet.
fn states_before(alloc: Global, processes: u64) -> Result<Vec<ThreadState>, AllocError>
    ensures { IfOk result (λ states. states.items ≡ replicate processes words.nothing_begun) }
{
    let mut states = Vec::new(alloc);
    for _ in 0..processes {
        states.push(ThreadState {
            begun: false,
            activations: 0,
            waits: false,
        })?;
    }
    Ok(states)
}

// Appends that all ends that is open.
fn append_all_ends(text: &mut Vec<u8>, time: u64, states: &[ThreadState]) -> Result<(), AllocError>
    ensures { OnOk result (text.new.items ≡ text.old.items ++ words.all_ends 1 time states.now) }
{
    let mut p = 1;
    for state in states {
        append_ends(text, p, time, state.activations)?;
        append_ends(text, p, time, u64::from(state.waits))?;
        p += 1;
    }
    Ok(())
}

// Appends the events of all lines.
fn append_all(
    text: &mut Vec<u8>,
    states: Vec<ThreadState>,
    lines: &[&[u8]],
) -> Result<(), AllocError>
    ensures { OnOk result (text.new.items ≡ text.old.items ++ words.events_from 0 states.items (map (λ line. line.now) lines.now)) }
{
    let mut states = states;
    let mut time = 0;
    for line in lines {
        let p = process_of(line);
        let state = state_of(&states, p);
        append_events(text, p, time, state, line)?;
        put_state(&mut states, p, state_after(state, line));
        time += 1;
    }
    append_all_ends(text, time, &states)
}

/// The events of the run that these lines of `trace` are of.
///
/// # Errors
///
/// Only where memory was refused.
pub fn events_of(alloc: Global, trace: &[u8]) -> Result<Vec<u8>, AllocError>
    ensures { IfOk result (λ text. text.items ≡ words.events_of trace.now) }
{
    let lines = lines_of(alloc, trace)?;
    let marks = marks_of(alloc, &lines)?;
    let states = states_before(alloc, processes_in(&marks))?;
    let mut text = Vec::new(alloc);
    text.extend_from_slice(
        b"{\"traceEvents\":[\n{\"ph\":\"M\",\"pid\":1,\"name\":\"process_name\",\"args\":{\"name\":\"hepf\"}}",
    )?;
    append_all(&mut text, states, &lines)?;
    text.extend_from_slice(b"\n],\"displayTimeUnit\":\"ns\"}\n")?;
    Ok(text)
}
