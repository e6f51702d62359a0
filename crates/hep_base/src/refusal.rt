//! The reason why a source, or the text of a history or of choices, is refused.
ghost use Rattle.std.specs.Prelude.{◌≡◌, []};
ghost use Rattle.hep_base.specs.declared.refusal.Refusal.TheVariants as refusal;
ghost use Rattle.hep_base.specs.Refusals.{Reports};

use crate::sequence::Text;
use std::alloc::{AllocError, AllocFailed, Global};
use thiserror::Error;

/// The reason why a source, or the text of a history or of choices, is refused. [`Refusal::NoMemory`] says that there was too
/// little memory to read it.
#[derive(Debug, Drop, Error)]
pub enum Refusal {
    /// An allocation failed. This says nothing about the source.
    #[error("no memory")]
    NoMemory,
    /// The source breaks a rule.
    #[error("{number} at line {line}")]
    Refused {
        /// The number of the rule (docs/LANGUAGE.md).
        number: u16,
        /// The line at fault, counted from 1; 0 where the rule is about the whole text.
        line: u32,
        /// The name that the rule is about; empty where the rule is about no name.
        name: Text,
    },
}

impl Refusal {
    /// Makes a refusal that is about no name.
    pub fn refused(alloc: Global, number: u16, line: u32) -> Refusal
        ensures { result ≡ refusal.Refused number line [] }
    {
        let name = Text::from(Vec::new(alloc));
        Refusal::Refused { number, line, name }
    }

    /// Makes a refusal that is about this name, or [`Refusal::NoMemory`] where there is no memory for the name.
    pub fn named(alloc: Global, number: u16, line: u32, name: &[u8]) -> Refusal
        ensures { Reports result (number, line, name.now) }
    {
        match Vec::from_slice(alloc, name) {
            Ok(bytes) => Refusal::Refused {
                number,
                line,
                name: Text::from(bytes),
            },
            Err(_) => Refusal::NoMemory,
        }
    }
}

impl From<AllocError> for Refusal {
    ghost from_gives = { λ _ result. result ≡ refusal.NoMemory };

    fn from(_refused: AllocError) -> Refusal {
        Refusal::NoMemory
    }
}

impl<T: Drop> From<AllocFailed<T>> for Refusal {
    ghost from_gives = { λ _ result. result ≡ refusal.NoMemory };

    fn from(_refused: AllocFailed<T>) -> Refusal {
        Refusal::NoMemory
    }
}
