//! Numbers in a text: shortest decimals, each followed by a byte that is no digit.
ghost use Rattle.std.specs.Prelude.{◌≡◌, ◌≢◌, ℕ, ◌^◌, ◌<◌, ◌≤◌, List, ◌++◌, ◌∷◌, slice_index, EachIndex, IfSome, IfNone};
ghost use Rattle.std.specs.Char.{IsAsciiDigit, is_ascii_digit};
ghost use Rattle.std.specs.Fmt.{decimal};
ghost use Rattle.std.specs.List.{prefix_len};
ghost use Rattle.std.specs.Str.Parse.{digits_value};

// The number of digits at the front of a text.
fn digit_count(text: &[u8]) -> usize
    ensures { result ≡ prefix_len is_ascii_digit text.now }
{
    text.iter().take_while(|byte| byte.is_ascii_digit()).count()
}

// The number that some digits write, if it is at most `most`.
#[tactic(auto, using(crate::proofs::Digits::value_more, crate::proofs::Digits::value_past))]
fn value_of(digits: &[u8], most: u64) -> Option<u64>
    requires digits { EachIndex digits.now (λ k. IsAsciiDigit (slice_index digits.now k)) }
    requires least { 9 ≤ most }
    requires most { most < 2 ^ 63 }
    ensures within { IfSome result (λ n. n ≤ most) }
    ensures found { IfSome result (λ n. n ≡ digits_value 10 digits.now) }
    ensures none { IfNone result (most < digits_value 10 digits.now) }
{
    let mut number = 0;
    for byte in digits {
        let digit = u64::from(*byte - b'0');
        if (most - digit) / 10 < number {
            return None;
        }
        number = 10 * number + digit;
    }
    Some(number)
}

// The number whose shortest decimal these digits are, if it is at most `most`.
fn number_of(digits: &[u8], most: u64) -> Option<u64>
    requires digits { EachIndex digits.now (λ k. IsAsciiDigit (slice_index digits.now k)) }
    requires least { 9 ≤ most }
    requires most { most < 2 ^ 63 }
    ensures within { IfSome result (λ n. n ≤ most) }
    ensures found { IfSome result (λ n. digits.now ≡ decimal n) }
    ensures none { IfNone result ((n : ℕ) → n ≤ most → digits.now ≢ decimal n) }
{
    if digits.is_empty() {
        return None;
    }
    if digits[0] == b'0' && digits.len() > 1 {
        return None;
    }
    value_of(digits, most)
}

/// The number of at most `most` at the front of a text, with `mark` after it, and the text after
/// the mark.
pub fn number_before(text: &[u8], mark: u8, most: u64) -> Option<(u64, &[u8])>
    requires mark { mark < 48 }
    requires least { 9 ≤ most }
    requires most { most < 2 ^ 63 }
    ensures within { IfSome result (λ found. found.0 ≤ most) }
    ensures found { IfSome result (λ found. text.now ≡ decimal found.0 ++ mark ∷ found.1.now) }
    ensures none { IfNone result ((n : ℕ) (more : List ℕ) → n ≤ most
        → text.now ≢ decimal n ++ mark ∷ more) }
{
    let (digits, rest_after) = text.split_at(digit_count(text));
    let (last, rest) = rest_after.split_first()?;
    if *last != mark {
        return None;
    }
    let number = number_of(digits, most)?;
    Some((number, rest))
}
