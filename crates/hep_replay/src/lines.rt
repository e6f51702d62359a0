//! Texts that are read line by line.
ghost use Rattle.std.specs.Prelude.{◌≡◌, ◌<◌, ◌≤◌, ◌++◌, [], List, length, IfOk, IfErr, MatchResult};
ghost use Rattle.hep_base.specs.declared.refusal.Refusal.TheVariants.{NoMemory};
ghost use Rattle.hep_replay.specs.Lines.{AreApart, AreLines, IsRefusedText, ReportsLine, most_bytes, repeated};

use crate::history_text::MOST_BYTES;
use hep_base::Refusal as HistFault;
use std::alloc::{AllocError, Global};

// Items that have a line in a text.
pub(crate) trait FromLine: Drop {
    ghost use Rattle.std.specs.Prelude.{◌≡◌, ◌≢◌, ℕ, ◌++◌, List, IfSome, IfNone};

    // The line of an item.
    ghost line: { Self → List ℕ };

    // The items that a text may have.
    ghost allows: { Self → Type 0 };

    // The item of the line at the front of a text, and the text after it.
    fn from_front(text: &[u8]) -> Option<(Self, &[u8])>
        ensures allowed { IfSome result (λ found. allows found.0) }
        ensures found { IfSome result (λ found. text.now ≡ line found.0 ++ found.1.now) }
        ensures none { IfNone result ((x : Self) (more : List ℕ) → allows x → text.now ≢ line x ++ more) };
}

// A list to which the items are appended.
pub(crate) trait Row<T>: Drop {
    ghost use Rattle.std.specs.Prelude.{◌≡◌, ◌++◌, List, OnOk, replicate};

    // The items of the list, in order.
    ghost items: { Self → List T };

    // Appends an item `count` times.
    fn append(&mut self, item: T, count: u32) -> Result<(), AllocError>
        ensures { OnOk result (items self.new ≡ items self.old ++ replicate count item) };
}

// The number of times that a line is repeated at the front of a text, and the text after that.
fn past_repeated<'a>(line: &[u8], text: &'a [u8]) -> (u32, &'a [u8])
    requires filled { 0 < length line.now }
    requires few { length text.now ≤ most_bytes }
    ensures { text.now ≡ repeated result.0 line.now ++ result.1.now }
{
    let mut count = 0;
    let mut rest = text;
    while let Some(rest_after) = rest.strip_prefix(line) {
        rest = rest_after;
        count += 1;
    }
    (count, rest)
}

// The same. It calls nothing where the text begins otherwise, as it mostly does where processes take turns.
#[inline(always)]
fn past_again<'a>(line: &[u8], text: &'a [u8]) -> (u32, &'a [u8])
    requires filled { 0 < length line.now }
    requires few { length text.now ≤ most_bytes }
    ensures { text.now ≡ repeated result.0 line.now ++ result.1.now }
{
    if line.first() != text.first() {
        return (0, text);
    }
    past_repeated(line, text)
}

// The items of the lines of a text, each of which is allowed, appended to a list; or a refusal with this number, at
// the first bad line, or at line 0 where the text is too long. A line that is repeated several times is parsed once.
pub(crate) fn read_lines<T: FromLine, R: Row<T>>(
    alloc: Global,
    text: &[u8],
    number: u16,
    mut row: R,
) -> Result<R, HistFault>
    requires apart { AreApart T.line T.allows }
    requires empty { R.items row ≡ [] }
    ensures read { IfOk result (λ row. AreLines T.line T.allows text.now (R.items row)) }
    ensures refused { IfErr result (λ fault.
        ReportsLine number (IsRefusedText T.line T.allows text.now) fault) }
    ensures accepted { (xs : List T) → AreLines T.line T.allows text.now xs
        → MatchResult result (λ row. R.items row ≡ xs) (λ fault. fault ≡ NoMemory) }
{
    if MOST_BYTES < text.len() {
        return Err(HistFault::refused(alloc, number, 0));
    }
    let mut count = 0;
    let mut rest = text;
    while !rest.is_empty() {
        let Some((item, rest_after)) = T::from_front(rest) else {
            return Err(HistFault::refused(alloc, number, count + 1));
        };
        let line = &rest[..rest.len() - rest_after.len()];
        let (more, rest_after) = past_again(line, rest_after);
        row.append(item, more + 1)?;
        count += more + 1;
        rest = rest_after;
    }
    Ok(row)
}
