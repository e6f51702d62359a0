//! Which characters of a statement are part of its text: blanks, letter case and character constants.
ghost use Rattle.std.specs.Prelude.{◌≡◌};
ghost use Rattle.hep_text.specs.Constant as constant;

/// The code of a lower-case letter less the code of its upper-case letter.
const CASE_DISTANCE: u8 = 32;

/// The state of the scanner before a character of a statement: whether that character is in a character constant, and where in it.
#[derive(Clone, Copy, Debug, PartialEq, Eq)]
pub enum Scanner {
    /// Outside character constants.
    Outside,
    /// After the apostrophe that opens a constant.
    Opened,
    /// In a constant that has at least one character.
    Filled,
    /// After an apostrophe in a constant that has at least one character. The constant ends here,
    /// unless another apostrophe follows.
    Closing,
    /// After an apostrophe that follows the opening one. The constant is empty, unless another
    /// apostrophe follows.
    Empty,
    /// After an empty constant, which is not allowed.
    Faulty,
}

impl Scanner {
    /// The state of the scanner after `byte`.
    pub fn next(self, byte: u8) -> Scanner
        ensures { result ≡ constant.next self byte }
    {
        let apostrophe = byte == b'\'';
        match self {
            Scanner::Outside if apostrophe => Scanner::Opened,
            Scanner::Outside => Scanner::Outside,
            Scanner::Opened if apostrophe => Scanner::Empty,
            Scanner::Opened => Scanner::Filled,
            Scanner::Filled if apostrophe => Scanner::Closing,
            Scanner::Filled => Scanner::Filled,
            Scanner::Closing if apostrophe => Scanner::Filled,
            Scanner::Closing => Scanner::Outside,
            Scanner::Empty if apostrophe => Scanner::Filled,
            Scanner::Empty => Scanner::Faulty,
            Scanner::Faulty => Scanner::Faulty,
        }
    }

    /// The character of the text that `byte` gives. Outside constants a blank gives none, and a lower-case
    /// letter gives its upper-case letter. Any other byte gives itself.
    pub fn kept_character(self, byte: u8) -> Option<u8>
        ensures { result ≡ constant.kept_character self byte }
    {
        match self {
            Scanner::Outside | Scanner::Closing => kept_outside(byte),
            _ => Some(byte),
        }
    }

    /// Whether a statement may end here: each of its constants is closed, and none of them is empty.
    pub fn is_over(self) -> bool
        ensures { result ≡ constant.is_over self }
    {
        matches!(self, Scanner::Outside | Scanner::Closing)
    }
}

/// The character of the text that a byte outside constants gives; none for a blank.
fn kept_outside(byte: u8) -> Option<u8>
    ensures { result ≡ constant.kept_outside byte }
{
    if byte == b' ' {
        None
    } else {
        Some(upper_case(byte))
    }
}

/// The upper-case letter of a lower-case one, and any other byte as it is.
fn upper_case(byte: u8) -> u8
    ensures { result ≡ constant.upper_case byte }
{
    if b'a' <= byte && byte <= b'z' {
        byte - CASE_DISTANCE
    } else {
        byte
    }
}
