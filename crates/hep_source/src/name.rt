//! Symbolic names, and occurrences of names in a statement.
ghost use Rattle.std.specs.Prelude.{◌≡◌, ◌∷◌, [], IfOk};
ghost use Rattle.std.specs.Cmp.Rules.{hashing};
ghost use Rattle.std.proofs.Common.{rules};
ghost use Rattle.hep_source.specs.Names as names;

use hep_base::Text;
use std::alloc::{AllocError, Global};
use std::hash::{Hash, Hasher};

/// A symbolic name (X3.9-1978, 2.2): one to six letters or digits, of which the first is a letter. Blanks after them pad
/// it to six characters. The sign `$` before a name makes it asynchronous. The sign isn't one of the six characters, and
/// `$X` and `X` are two names.
#[derive(Clone, Copy, Debug, PartialEq, Eq)]
pub struct Name {
    pub asynchronous: bool,
    pub letters: [u8; 6],
}

// This hash is written by hand because names are looked up in tables very often: it makes one write, and a derived hash makes
// eight. `$X` and `X` have the same hash, but few programs have both names.
impl Hash for Name {
    ghost hash_input = { λ name. name.letters ∷ [] };

    ghost respects_eq = { Prim.search (hashing, rules) };

    fn hash<H: Hasher>(&self, state: &mut H) {
        state.write(&self.letters);
    }
}

impl Name {
    /// The characters of the name without padding, with `$` before them where the name is asynchronous.
    ///
    /// # Errors
    ///
    /// Only where memory was refused.
    pub fn spelling(&self, alloc: Global) -> Result<Text, AllocError>
        ensures { IfOk result (λ text. text ≡ names.spelling self.now) }
    {
        let mut characters = Vec::with_capacity(alloc, 7)?;
        if self.asynchronous {
            characters.push(b'$')?;
        }
        for letter in &self.letters {
            if *letter != b' ' {
                characters.push(*letter)?;
            }
        }
        Ok(Text::from(characters))
    }
}

/// An occurrence of a name in a statement.
#[derive(Clone, Copy, Debug, PartialEq, Eq)]
pub struct Occurrence {
    pub name: Name,
    /// The number of characters of the statement's text before the name.
    pub position: usize,
}

/// A common block as it is written between slashes (X3.9-1978, 8.3): its name, and no character for blank COMMON.
///
/// # Errors
///
/// Only where memory was refused.
pub fn block_spelling(alloc: Global, block: Option<Name>) -> Result<Text, AllocError>
    ensures { IfOk result (λ text. text ≡ names.block_spelling block) }
{
    match block {
        Some(name) => name.spelling(alloc),
        None => Ok(Text::from(Vec::new(alloc))),
    }
}
