//! The characters of a character constant in an instruction.
ghost use Rattle.std.specs.Prelude.{◌≡◌, IfOk};

use crate::duplicate::Duplicate;
use hep_source::Text;
use std::alloc::{AllocError, Global};
use std::marker::Model;

/// Characters in a box, so that an instruction stays small. Contracts see their list.
#[derive(Drop)]
pub struct BoxedText {
    text: Box<Text>,
}

impl Model for BoxedText {
    ghost use Rattle.std.specs.Prelude.{List, ℕ};
    ghost use Rattle.std.specs.Coded.{codes};

    ghost Value = { List ℕ };

    ghost coded = { Prim.hlevel codes };

    ghost view = { λ a. a.text.value };
}

impl BoxedText {
    /// The characters in a box of their own.
    ///
    /// # Errors
    ///
    /// Only where memory was refused.
    pub fn new(alloc: Global, text: Text) -> Result<BoxedText, AllocError>
        ensures { IfOk result (λ boxed. boxed ≡ text) }
    {
        Ok(BoxedText {
            text: Box::new(alloc, text)?,
        })
    }

    /// The characters.
    pub fn as_text(&self) -> &Text
        ensures { result.now ≡ self.now }
    {
        &self.text
    }
}

impl Duplicate for BoxedText {
    fn copy(&self, alloc: Global) -> Result<BoxedText, AllocError> {
        BoxedText::new(alloc, self.as_text().copy(alloc)?)
    }
}
