//! The lines of a source, each found by its number in constant time.
ghost use Rattle.std.specs.Prelude.{◌≡◌, ◌++◌, IfOk, OnOk, option_map};
ghost use Rattle.hep_text.specs.Line.{lines};
ghost use Rattle.hep_text.specs.Places.{line_in};
ghost use Rattle.hep_text.specs.LineDisplay.{line_shown};

use crate::line::next_line;
use crate::line_display::append_line;
use std::alloc::{AllocError, Global};
use std::marker::Model;

/// The lines of a source. Contracts see the list of the lines.
#[derive(Drop)]
pub struct Listing<'a> {
    lines: Vec<&'a [u8]>,
}

impl<'a> Model for Listing<'a> {
    ghost use Rattle.std.specs.Prelude.{List, map, ℕ};
    ghost use Rattle.std.specs.Coded.{codes};

    ghost Value = { List (List ℕ) };

    ghost coded = { Prim.hlevel codes };

    ghost view = { λ listing. map (λ line. line.now) listing.lines.items };
}

impl<'a> Listing<'a> {
    /// Finds the lines of a source.
    ///
    /// # Errors
    ///
    /// Only where memory was refused.
    pub fn new(alloc: Global, source: &'a [u8]) -> Result<Listing<'a>, AllocError>
        ensures { IfOk result (λ listing. listing ≡ lines source.now) }
    {
        let mut found = Vec::new(alloc);
        let mut rest = source;
        while !rest.is_empty() {
            let (line, after) = next_line(rest);
            found.push(line)?;
            rest = after;
        }
        Ok(Listing { lines: found })
    }

    // The line with this number, counted from 1; none where there is no such line.
    fn line(&self, number: u32) -> Option<&[u8]>
        ensures { option_map (λ line. line.now) result ≡ line_in self.now number }
    {
        if number == 0 {
            return None;
        }
        self.lines.get(number as usize - 1).copied()
    }

    /// Appends the line with this number as it is shown, or nothing where there is no such line.
    ///
    /// # Errors
    ///
    /// Only where memory was refused.
    pub fn append(&self, text: &mut Vec<u8>, number: u32) -> Result<(), AllocError>
        ensures { OnOk result (text.new.items ≡ text.old.items ++ line_shown self.now number) }
    {
        match self.line(number) {
            Some(line) => append_line(text, number, line),
            None => Ok(()),
        }
    }
}
