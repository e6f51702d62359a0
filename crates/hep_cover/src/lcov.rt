//! The counts of lines as a tracefile of lcov, which `genhtml` and editors show.
ghost use Rattle.std.specs.Prelude.{◌≡◌, ◌++◌, OnOk};
ghost use Rattle.hep_text.specs.Line.{lines};
ghost use Rattle.hep_cover.specs.Lcov as lcov;

use crate::coverage_text::{append_coverage, totals};
use hep_output::append_number;
use std::alloc::{AllocError, Global};

// Appends how often the statement of a line began, where one is there that can begin.
fn append_data(text: &mut Vec<u8>, number: usize, count: Option<u64>) -> Result<(), AllocError>
    ensures { OnOk result (text.new.items ≡ text.old.items ++ lcov.data_text number count) }
{
    let Some(count) = count else {
        return Ok(());
    };
    text.extend_from_slice(b"DA:")?;
    append_number(text, number)?;
    text.extend_from_slice(b",")?;
    append_number(text, count)?;
    text.extend_from_slice(b"\n")
}

// Appends the same of all lines.
fn append_data_lines(text: &mut Vec<u8>, counts: &[Option<u64>]) -> Result<(), AllocError>
    ensures { OnOk result (text.new.items ≡ text.old.items ++ lcov.data_lines 0 counts.now) }
{
    for index in 0..counts.len() {
        append_data(text, index + 1, counts[index])?;
    }
    Ok(())
}

// Appends the name of the source.
fn append_name(text: &mut Vec<u8>, file: &[u8]) -> Result<(), AllocError>
    ensures { OnOk result (text.new.items ≡ text.old.items ++ lcov.name_text file.now) }
{
    text.extend_from_slice(b"TN:\nSF:")?;
    text.extend_from_slice(file)?;
    text.extend_from_slice(b"\n")
}

// Appends how many lines can begin, and how many of them did.
fn append_sums(text: &mut Vec<u8>, found: usize, hit: usize) -> Result<(), AllocError>
    ensures { OnOk result (text.new.items ≡ text.old.items ++ lcov.sums_text found hit) }
{
    text.extend_from_slice(b"LF:")?;
    append_number(text, found)?;
    text.extend_from_slice(b"\nLH:")?;
    append_number(text, hit)?;
    text.extend_from_slice(b"\nend_of_record\n")
}

/// Appends the tracefile of a source in a file with this name.
///
/// # Errors
///
/// Only where memory was refused.
pub fn append_tracefile(
    text: &mut Vec<u8>,
    file: &[u8],
    counts: &[Option<u64>],
) -> Result<(), AllocError>
    ensures { OnOk result (text.new.items ≡ text.old.items ++ lcov.tracefile file.now counts.now) }
{
    append_name(text, file)?;
    append_data_lines(text, counts)?;
    let (found, hit) = totals(counts);
    append_sums(text, found, hit)
}

/// Appends the counts: as a tracefile, where a name of the source for it is given, and else beside the lines of the source.
///
/// # Errors
///
/// Only where memory was refused.
pub fn append_counts(
    alloc: Global,
    text: &mut Vec<u8>,
    file: Option<&[u8]>,
    source: &[u8],
    counts: &[Option<u64>],
) -> Result<(), AllocError>
    ensures { OnOk result (text.new.items ≡ text.old.items ++ lcov.counts_text file.entry counts.now (lines source.now)) }
{
    match file {
        Some(file) => append_tracefile(text, file, counts),
        None => append_coverage(alloc, text, source, counts),
    }
}
