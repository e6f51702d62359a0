//! Merging of lists of warnings by their lines.
ghost use Rattle.std.specs.Prelude.{◌≡◌, ◌<◌, ◌≤◌, ◌++◌, ◌∷◌, [], drop, length, take, IfOk, IfSome, OnOk};
ghost use Rattle.std.specs.List.{position};
ghost use Rattle.hep_warnings.specs.Merge as merge;

use crate::warning::Warning;
use std::alloc::{AllocError, Global};

// The index of the first warning at this line or a later one.
fn first_from(warnings: &[Warning], line: u32) -> Option<usize>
    ensures first { result ≡ position (merge.is_from line) warnings.now }
    ensures within { IfSome result (λ index. index < length warnings.now) }
{
    warnings.iter().position(|warning| line <= warning.line)
}

// The number of warnings before the first one at this line or a later one.
fn count_before(warnings: &[Warning], line: u32) -> usize
    ensures count { result ≡ merge.count_before line warnings.now }
    ensures within { result ≤ length warnings.now }
{
    first_from(warnings, line).unwrap_or(warnings.len())
}

// Adds the other warnings at lines before that of a warning, and then the warning. The result is the rest of the other warnings.
fn add_after<'a>(
    all: &mut Vec<Warning>,
    others: &'a [Warning],
    warning: Warning,
) -> Result<&'a [Warning], AllocError>
    ensures added { OnOk result (all.new.items
        ≡ all.old.items ++ (take (merge.count_before warning.line others.now) others.now ++ (warning ∷ []))) }
    ensures left { IfOk result (λ left. left.now ≡ drop (merge.count_before warning.line others.now) others.now) }
{
    let count = count_before(others, warning.line);
    all.extend_from_slice(&others[..count])?;
    all.push(warning)?;
    Ok(&others[count..])
}

/// Merges two lists of warnings, each in the order of its lines. At the same line the warnings of the first list come first.
///
/// # Errors
///
/// Only where memory was refused.
pub fn merged(
    alloc: Global,
    first: &[Warning],
    second: &[Warning],
) -> Result<Vec<Warning>, AllocError>
    ensures { IfOk result (λ all. all.items ≡ merge.merged first.now second.now) }
{
    let mut all = Vec::with_capacity(alloc, first.len())?;
    let mut left = second;
    for warning in first {
        left = add_after(&mut all, left, *warning)?;
    }
    all.extend_from_slice(left)?;
    Ok(all)
}
