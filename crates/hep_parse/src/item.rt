//! Reading the items of a PRINT list.

use crate::constant::constant_after;
use crate::list::Readable;
use hep_expression::ReadFailure;
use hep_expression::characters::{Context, after};
use hep_expression::expression::expression_at;
use hep_source::{PrintItem, Text};
use std::alloc::Global;

/// An item of a PRINT list.
impl Readable for PrintItem {
    ghost use Rattle.hep_parse.specs.ReadingConstant.{item_at};

    ghost part_at = { item_at };

    #[tactic(auto, unfolding(crate::specs::ReadingConstant::item_at))]
    fn read(alloc: Global, context: Context, s: &[u8]) -> Result<(PrintItem, &[u8]), ReadFailure> {
        if let Some(rest_after) = after(b'\'', s) {
            let (characters, rest) = constant_after(alloc, rest_after)?;
            return Ok((PrintItem::Characters(Text::from(characters)), rest));
        }
        let (found, rest) = expression_at(alloc, context, s)?;
        Ok((PrintItem::Expression(found), rest))
    }
}
