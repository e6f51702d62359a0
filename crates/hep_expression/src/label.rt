//! Reading statement labels.
ghost use Rattle.std.specs.Prelude.{◌≡◌, option_map};
ghost use Rattle.hep_expression.specs.ReadingLabel as reading;

use crate::characters::{Context, Sizes, integer_at};

/// The greatest number of digits of a label (X3.9-1978, 3.4) and of STOP (11.12).
const MOST_DIGITS: usize = 5;

/// The number that one to five digits at the front form, and what follows them. None for a longer run of digits.
pub fn few_digits_at(s: &[u8]) -> Option<(u32, &[u8])>
    ensures { option_map (λ x. (x.0, x.1.now)) result ≡ reading.few_digits_at s.now }
{
    let context = Context {
        sizes: Sizes::Any,
        length: s.len(),
    };
    let (value, rest) = integer_at(context, s)?;
    let digits = s.len() - rest.len();
    if digits > MOST_DIGITS {
        return None;
    }
    let number = u32::try_from(value).ok()?;
    Some((number, rest))
}

/// A label at the front (X3.9-1978, 3.4), and what follows it. A label is one to five digits, not all of them
/// 0. A longer run of digits is no label.
pub fn label_at(s: &[u8]) -> Option<(u32, &[u8])>
    ensures { option_map (λ x. (x.0, x.1.now)) result ≡ reading.label_at s.now }
{
    let (label, rest) = few_digits_at(s)?;
    if label == 0 {
        None
    } else {
        Some((label, rest))
    }
}
