//! Reading the items of lists of expressions, labels and targets. A target is assigned, purged or given a value by DATA.

use crate::list::{Readable, optional};
use hep_expression::ReadFailure;
use hep_expression::characters::{Context, occurrence_at};
use hep_expression::expression::expression_at;
use hep_expression::label::label_at;
use hep_source::{Expr, Sequence, Target};
use std::alloc::Global;

/// An expression in a list, as an argument or a subscript.
impl Readable for Expr {
    ghost use Rattle.hep_parse.specs.ReadingTarget.{expression_part};

    ghost part_at = { expression_part };

    fn read(alloc: Global, context: Context, s: &[u8]) -> Result<(Expr, &[u8]), ReadFailure> {
        expression_at(alloc, context, s)
    }
}

/// A name alone, or with subscripts.
impl Readable for Target {
    ghost use Rattle.hep_parse.specs.ReadingTarget.{target_at};

    ghost part_at = { target_at };

    #[tactic(auto, unfolding(crate::specs::ReadingTarget::target_at))]
    fn read(alloc: Global, context: Context, s: &[u8]) -> Result<(Target, &[u8]), ReadFailure> {
        let (occurrence, rest) = occurrence_at(context, s).ok_or(ReadFailure::NoReading)?;
        let (subscripts, rest) = optional::<Expr>(alloc, context, rest)?;
        let subscripts = Sequence::from(subscripts);
        Ok((
            Target {
                occurrence,
                subscripts,
            },
            rest,
        ))
    }
}

/// A label in a list of labels.
impl Readable for u32 {
    ghost use Rattle.hep_expression.specs.ReadingLabel.{label_part};

    ghost part_at = { label_part };

    fn read(_alloc: Global, _context: Context, s: &[u8]) -> Result<(u32, &[u8]), ReadFailure> {
        label_at(s).ok_or(ReadFailure::NoReading)
    }
}
