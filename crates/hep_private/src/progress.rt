//! Private steps, one after another.
ghost use Rattle.std.specs.Prelude.{◌≡◌, ◌<◌, ◌≤◌, [], drop, length, nat_le, IfSome, None};
ghost use Rattle.std.specs.Option.{is_some};
ghost use Rattle.hep_code.specs.Words.{most_operands};
ghost use Rattle.hep_private.specs.StepRecords.{next_made};
ghost use Rattle.hep_private.specs.BaseValues.{values_of};
ghost use Rattle.hep_private.specs.Stores.{records_among};
ghost use Rattle.hep_private.specs.PrivateSteps.{HasSettled, constant_ahead, operands_left};
ghost use Rattle.hep_private.specs.StepProgress.{HasAdvanced, HasFound, HasMade, own_behind, own_of};
ghost use Rattle.hep_private.specs.RecordRoom.{most_records};

use crate::operands::{MOST_OPERANDS, Operands, assign};
use crate::private_step::{PrivateStep, StepContext, deed_ahead};
use crate::records::Records;
use crate::write_log::{BaseValues, WriteLog};
use hep_code::Instruction;
use hep_source::Value;

/// The records of the steps made so far, and the activation's operands and index now.
#[derive(Drop)]
pub struct StepProgress {
    pub records: Records,
    pub operands: Operands,
    pub index: usize,
}

/// What the steps are made from: the code of a unit, the cells of its private scalars, and the values in the frame
/// before the first step.
#[derive(Clone, Copy)]
pub struct StepSource<'a> {
    pub code: &'a [Instruction],
    pub private: &'a [u32],
    pub base: BaseValues<'a>,
}

// The constant at an index of the code, if the instruction there pushes one.
#[inline(always)]
fn constant_at(code: &[Instruction], index: usize) -> Option<Value>
    ensures value { result ≡ constant_ahead (drop index code.now) }
    ensures there { IfSome result (λ v. index < length code.now) }
{
    match code.get(index) {
        Some(Instruction::Push(value)) => Some(*value),
        _ => None,
    }
}

// Pushes the leading constants, and returns the index of the operation after them. `None` where the operands have no
// room.
#[inline(always)]
fn settle(code: &[Instruction], operands: &mut Operands, index: usize) -> Option<usize>
    ensures { HasSettled code.now operands.old index result operands.new }
{
    let mut at = index;
    while let Some(value) = constant_at(code, at) {
        if !operands.push(value) {
            return None;
        }
        at += 1;
    }
    Some(at)
}

// The step after those with these records, if it is private. The leading constants are pushed first.
#[inline(always)]
fn deed_behind(
    source: &StepSource<'_>,
    records: Option<&Records>,
    operands: &mut Operands,
    index: usize,
) -> Option<PrivateStep>
    ensures { HasFound source.now.private.now source.now.code.now (own_behind (values_of source.now.base) (records_among records.entry) operands.old index)
        result operands.new }
{
    match settle(source.code, operands, index) {
        Some(index) => {
            let memory = WriteLog {
                private: source.private,
                base: source.base,
                records,
            };
            let here = StepContext {
                memory,
                operands: operands.as_slice(),
                index,
            };
            deed_ahead(&here, source.code)
        }
        None => None,
    }
}

// The next step of a segment, if it is private.
#[inline(always)]
fn next_deed(source: &StepSource<'_>, progress: &mut StepProgress) -> Option<PrivateStep>
    ensures found { HasFound source.now.private.now source.now.code.now (own_of (values_of source.now.base) progress.old)
        result progress.new.operands }
    ensures records { progress.new.records ≡ progress.old.records }
    ensures index { progress.new.index ≡ progress.old.index }
{
    deed_behind(
        source,
        Some(&progress.records),
        &mut progress.operands,
        progress.index,
    )
}

// Whether the operands have room for the value that a step pushes.
fn has_room(operands: &[Value], deed: PrivateStep) -> bool
    ensures { result ≡ nat_le (length (operands_left operands.now deed.given)) most_operands }
{
    match deed.given {
        Some((kept, _)) => kept.min(operands.len()) < MOST_OPERANDS,
        None => true,
    }
}

// The operation at an index as the first step, if it is private.
#[inline(always)]
fn deed_at(source: &StepSource<'_>, operands: &[Value], index: usize) -> Option<PrivateStep>
    requires few { length operands.now ≤ most_operands }
    requires none { constant_ahead (drop index source.now.code.now) ≡ None }
    ensures { HasFound source.now.private.now source.now.code.now (own_behind (values_of source.now.base) [] operands.now index)
        result operands.now }
{
    let memory = WriteLog {
        private: source.private,
        base: source.base,
        records: None,
    };
    let here = StepContext {
        memory,
        operands,
        index,
    };
    deed_ahead(&here, source.code)
}

// Whether the first step is private, where the code begins with constants.
#[cold]
#[inline(never)]
fn is_behind_constants(source: &StepSource<'_>, operands: &[Value], index: usize) -> bool
    requires { length operands.now ≤ most_operands }
    ensures { result ≡ is_some (next_made source.now.private.now source.now.code.now (own_behind (values_of source.now.base) [] operands.now index)) }
{
    let mut settled = Operands::new();
    assign(&mut settled, operands);
    match deed_behind(source, None, &mut settled, index) {
        Some(deed) => has_room(settled.as_slice(), deed),
        None => false,
    }
}

/// Whether the first step is private, with these operands.
pub fn is_first_private(source: &StepSource<'_>, operands: &[Value], index: usize) -> bool
    requires { length operands.now ≤ most_operands }
    ensures { result ≡ is_some (next_made source.now.private.now source.now.code.now (own_behind (values_of source.now.base) [] operands.now index)) }
{
    // Where the code begins with an operation, the operands needn't be copied.
    if constant_at(source.code, index).is_some() {
        return is_behind_constants(source, operands, index);
    }
    match deed_at(source, operands, index) {
        Some(deed) => has_room(operands, deed),
        None => false,
    }
}

// Makes a step if its operands have room, and returns whether they have. If not, the first `kept` operands stay.
#[inline(always)]
fn make(deed: PrivateStep, kept: usize, progress: &mut StepProgress) -> bool
    requires { length progress.old.records < most_records }
    ensures { HasMade deed kept progress.old result progress.new }
{
    let made = match deed.given {
        Some((kept, value)) => progress.operands.replace(kept, value),
        None => {
            progress.operands.truncate(0);
            true
        }
    };
    if made {
        progress.records.push(deed.note);
        progress.index = deed.index;
    } else {
        progress.operands.truncate(kept);
    }
    made
}

/// Makes the next step if it is private, and returns whether it is. If not, nothing changes.
#[inline(always)]
pub fn advance(source: &StepSource<'_>, progress: &mut StepProgress) -> bool
    requires { length progress.old.records < most_records }
    ensures { HasAdvanced (next_made source.now.private.now source.now.code.now (own_of (values_of source.now.base) progress.old))
        progress.old result progress.new }
{
    let kept = progress.operands.as_slice().len();
    match next_deed(source, progress) {
        Some(deed) => make(deed, kept, progress),
        None => {
            progress.operands.truncate(kept);
            false
        }
    }
}
