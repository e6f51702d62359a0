//! Reading character constants.
ghost use Rattle.std.specs.Prelude.{◌≡◌, length, option_map};
ghost use Rattle.hep_expression.specs.Reading.{Gives};
ghost use Rattle.hep_parse.specs.ReadingConstant as reading;

use hep_expression::ReadFailure;
use hep_expression::characters::after;
use std::alloc::Global;

/// The next character of a character constant (X3.9-1978, 4.8), and what follows it; none where the
/// constant ends. Two adjacent apostrophes represent one.
fn character_at(s: &[u8]) -> Option<(u8, &[u8])>
    ensures { option_map (λ x. (x.0, x.1.now)) result ≡ reading.character_at s.now }
{
    let [c, rest @ ..] = s else { return None };
    if *c != b'\'' {
        return Some((*c, rest));
    }
    let rest = after(b'\'', rest)?;
    Some((b'\'', rest))
}

/// The characters of a constant up to its closing apostrophe, and what follows that apostrophe.
#[tactic(auto, using(crate::proofs::CharacterLoops::characters_end, crate::proofs::CharacterLoops::characters_stop, crate::proofs::CharacterLoops::characters_are_over))]
fn characters(alloc: Global, s: &[u8]) -> Result<(Vec<u8>, &[u8]), ReadFailure>
    ensures { Gives (λ x. (x.0.items, x.1.now)) result (reading.characters (length s.now) s.now) }
{
    let mut read = Vec::new(alloc);
    let mut rest = s;
    for _turn in 0..s.len() {
        let Some((c, rest_after)) = character_at(rest) else {
            let Some(rest_after) = after(b'\'', rest) else {
                return Err(ReadFailure::NoReading);
            };
            return Ok((read, rest_after));
        };
        read.push(c)?;
        rest = rest_after;
    }
    Err(ReadFailure::NoReading)
}

/// Reads a constant after its opening apostrophe: its characters, one or more, and what follows the closing apostrophe.
///
/// # Errors
///
/// [`ReadFailure::NoReading`] where the text doesn't begin with the rest of a constant, or [`ReadFailure::NoMemory`].
#[tactic(auto, unfolding(crate::specs::ReadingConstant::constant_after))]
pub fn constant_after(alloc: Global, s: &[u8]) -> Result<(Vec<u8>, &[u8]), ReadFailure>
    ensures { Gives (λ x. (x.0.items, x.1.now)) result (reading.constant_after s.now) }
{
    let (read, rest) = characters(alloc, s)?;
    if read.is_empty() {
        return Err(ReadFailure::NoReading);
    }
    Ok((read, rest))
}
