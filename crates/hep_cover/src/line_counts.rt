//! How often the statement of each line began so far.
ghost use Rattle.std.specs.Prelude.{◌≡◌};
ghost use Rattle.hep_cover.specs.StatementStarts.{with_line};
ghost use Rattle.hep_cover.specs.Counts as words;

/// Sets the count of a line, if there is such a line.
#[inline(always)]
pub fn set_line(counts: &mut Vec<Option<u64>>, line: u32, count: Option<u64>)
    ensures { counts.new.items ≡ with_line counts.old.items line count }
{
    if line == 0 {
        return;
    }
    let index = line as usize - 1;
    if index < counts.len() {
        counts[index] = count;
    }
}

// The count so far, 0 where there is none.
#[inline(always)]
fn count_at(counts: &[Option<u64>], index: usize) -> u64
    ensures { result ≡ words.count_before counts.now index }
{
    match counts.get(index) {
        Some(Some(count)) => *count,
        _ => 0,
    }
}

/// Counts that the statement of a line began, if one did.
#[inline(always)]
pub fn count(counts: &mut Vec<Option<u64>>, line: Option<u32>)
    ensures { counts.new.items ≡ words.counted line counts.old.items }
{
    if let Some(line) = line {
        let before = count_at(counts, line.saturating_sub(1) as usize);
        set_line(counts, line, Some(before.saturating_add(1)));
    }
}
