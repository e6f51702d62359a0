//! The text of choices.
ghost use Rattle.std.specs.Prelude.{◌≡◌, ℕ, List, IfOk, IfErr, MatchResult};
ghost use Rattle.hep_base.specs.declared.refusal.Refusal.TheVariants.{NoMemory};
ghost use Rattle.hep_replay.specs.Lines.{AreLines, IsRefusedText, ReportsLine};
ghost use Rattle.hep_replay.specs.Choices.{choice_text, IsProcess};

use crate::history_text::MOST_PROCESS;
use crate::lines::{FromLine, Row, read_lines};
use hep_base::{Refusal as HistFault, Sequence};
use hep_output::number_before;
use std::alloc::{AllocError, Global};

/// Process numbers, in the order in which they are to be chosen.
pub type Choices = Sequence<u64>;

impl FromLine for u64 {
    ghost line = { choice_text };

    ghost allows = { IsProcess };

    fn from_front(text: &[u8]) -> Option<(u64, &[u8])> {
        let (process, rest) = number_before(text, b'\n', MOST_PROCESS)?;
        if process == 0 {
            return None;
        }
        Some((process, rest))
    }
}

impl Row<u64> for Vec<u64> {
    ghost items = { λ choices. choices.items };

    fn append(&mut self, item: u64, count: u32) -> Result<(), AllocError> {
        for _ in 0..count {
            self.push(item)?;
        }
        Ok(())
    }
}

/// The choices of a text: a line `p` for each.
///
/// # Errors
///
/// `Refused` with 602 at the first bad line, or at line 0 where the text has more than 150,000,000
/// bytes; `NoMemory`.
pub fn read_choices(alloc: Global, text: &[u8]) -> Result<Choices, HistFault>
    ensures read { IfOk result (λ choices. AreLines choice_text IsProcess text.now choices) }
    ensures refused { IfErr result (λ fault.
        ReportsLine 602 (IsRefusedText choice_text IsProcess text.now) fault) }
    ensures accepted { (ps : List ℕ) → AreLines choice_text IsProcess text.now ps
        → MatchResult result (λ choices. choices ≡ ps) (λ fault. fault ≡ NoMemory) }
{
    let choices: Vec<u64> = read_lines(alloc, text, 602, Vec::new(alloc))?;
    Ok(Choices::from(choices))
}
