//! The words with which statements begin: those of the forms, and those that the language leaves out.
ghost use Rattle.std.specs.Prelude.{◌≡◌, map, option_map};
ghost use Rattle.hep_parse.specs.ReadingStatement as words;
ghost use Rattle.hep_expression.specs.Reading.{Gives};
ghost use Rattle.hep_parse.specs.Program as grammar;
ghost use Rattle.hep_parse.specs.ReadingProgram as reading;

use hep_expression::ReadFailure;
use hep_expression::characters::after_text;

/// A word with which a form of statement begins (docs/LANGUAGE.md).
#[derive(Clone, Copy, PartialEq, Eq)]
pub enum Keyword {
    /// PROGRAM (X3.9-1978, 14.1).
    Program,
    /// SUBROUTINE (15.6.1).
    Subroutine,
    /// INTEGER FUNCTION (15.5.1).
    IntegerFunction,
    /// LOGICAL FUNCTION (15.5.1).
    LogicalFunction,
    /// FUNCTION (15.5.1).
    Function,
    /// IMPLICIT (8.5).
    Implicit,
    /// INTEGER (8.4.1).
    Integer,
    /// LOGICAL (8.4.1).
    Logical,
    /// DIMENSION (8.1).
    Dimension,
    /// COMMON (8.3).
    Common,
    /// PARAMETER (8.6).
    Parameter,
    /// DATA (section 9).
    Data,
    /// GO TO, of both kinds (11.1 and 11.2).
    GoTo,
    /// ELSE IF with its parenthesis (11.7).
    ElseIf,
    /// ELSE (11.8).
    Else,
    /// END IF (11.9).
    EndIf,
    /// END (11.14).
    End,
    /// DO (11.10).
    Do,
    /// CALL (15.6.2).
    Call,
    /// CREATE, which begins a process (docs/LANGUAGE.md).
    Create,
    /// PURGE, which makes variables empty (docs/LANGUAGE.md).
    Purge,
    /// PRINT with its star (12.8).
    Print,
    /// CONTINUE (11.11).
    Continue,
    /// RETURN (15.8).
    Return,
    /// RESUME, after which the caller of a subroutine continues (docs/LANGUAGE.md).
    Resume,
    /// STOP (11.12).
    Stop,
}

impl Keyword {
    /// The characters of a word.
    fn spelling(self) -> &'static [u8]
        ensures { result.now ≡ words.spelling self }
    {
        match self {
            Keyword::Program => b"PROGRAM",
            Keyword::Subroutine => b"SUBROUTINE",
            Keyword::IntegerFunction => b"INTEGERFUNCTION",
            Keyword::LogicalFunction => b"LOGICALFUNCTION",
            Keyword::Function => b"FUNCTION",
            Keyword::Implicit => b"IMPLICIT",
            Keyword::Integer => b"INTEGER",
            Keyword::Logical => b"LOGICAL",
            Keyword::Dimension => b"DIMENSION",
            Keyword::Common => b"COMMON",
            Keyword::Parameter => b"PARAMETER",
            Keyword::Data => b"DATA",
            Keyword::GoTo => b"GOTO",
            Keyword::ElseIf => b"ELSEIF(",
            Keyword::Else => b"ELSE",
            Keyword::EndIf => b"ENDIF",
            Keyword::End => b"END",
            Keyword::Do => b"DO",
            Keyword::Call => b"CALL",
            Keyword::Create => b"CREATE",
            Keyword::Purge => b"PURGE",
            Keyword::Print => b"PRINT*",
            Keyword::Continue => b"CONTINUE",
            Keyword::Return => b"RETURN",
            Keyword::Resume => b"RESUME",
            Keyword::Stop => b"STOP",
        }
    }
}

/// The first of these words with which the text begins, and what follows it.
fn keyword_among<'a>(among: &[Keyword], s: &'a [u8]) -> Option<(Keyword, &'a [u8])>
    ensures { option_map (λ x. (x.0, x.1.now)) result ≡ words.keyword_among among.now s.now }
{
    match among {
        [] => None,
        [keyword, others @ ..] => match after_text(keyword.spelling(), s) {
            Some(rest) => Some((*keyword, rest)),
            None => keyword_among(others, s),
        },
    }
}

/// The word with which the text begins, and what follows it. Where the text begins with two words, the result is the longer one.
pub fn keyword_at(s: &[u8]) -> Option<(Keyword, &[u8])>
    ensures { option_map (λ x. (x.0, x.1.now)) result ≡ words.keyword_at s.now }
{
    let keywords = [
        Keyword::Program,
        Keyword::Subroutine,
        Keyword::IntegerFunction,
        Keyword::LogicalFunction,
        Keyword::Function,
        Keyword::Implicit,
        Keyword::Integer,
        Keyword::Logical,
        Keyword::Dimension,
        Keyword::Common,
        Keyword::Parameter,
        Keyword::Data,
        Keyword::GoTo,
        Keyword::ElseIf,
        Keyword::Else,
        Keyword::EndIf,
        Keyword::End,
        Keyword::Do,
        Keyword::Call,
        Keyword::Create,
        Keyword::Purge,
        Keyword::Print,
        Keyword::Continue,
        Keyword::Return,
        Keyword::Resume,
        Keyword::Stop,
    ];
    keyword_among(&keywords, s)
}

/// The words with which the statements begin that the language leaves out, each with the name that a refusal reports.
const LEFT_OUT_WORDS: [(&[u8], &[u8]); 22] = [
    (b"REAL", b"REAL"),
    (b"DOUBLEPRECISION", b"DOUBLEPRECISION"),
    (b"COMPLEX", b"COMPLEX"),
    (b"CHARACTER", b"CHARACTER"),
    (b"READ", b"READ"),
    (b"WRITE", b"WRITE"),
    (b"FORMAT", b"FORMAT"),
    (b"OPEN", b"OPEN"),
    (b"CLOSE", b"CLOSE"),
    (b"INQUIRE", b"INQUIRE"),
    (b"REWIND", b"REWIND"),
    (b"BACKSPACE", b"BACKSPACE"),
    (b"ENDFILE", b"ENDFILE"),
    (b"EQUIVALENCE", b"EQUIVALENCE"),
    (b"SAVE", b"SAVE"),
    (b"ENTRY", b"ENTRY"),
    (b"EXTERNAL", b"EXTERNAL"),
    (b"INTRINSIC", b"INTRINSIC"),
    (b"ASSIGN", b"ASSIGN"),
    (b"PAUSE", b"PAUSE"),
    (b"BLOCKDATA", b"BLOCKDATA"),
    (b"INCLUDE", b"INCLUDE"),
];

/// The name of the first of these words with which a text begins.
fn name_at(words: &[(&'static [u8], &'static [u8])], s: &[u8]) -> Option<&'static [u8]>
    ensures { option_map (λ x. x.now) result ≡ reading.word_at (map (λ x. (x.0.now, x.1.now)) words.now) s.now }
{
    match words {
        [] => None,
        [(word, name), others @ ..] => match after_text(word, s) {
            Some(_) => Some(name),
            None => name_at(others, s),
        },
    }
}

/// The name of the word with which a text begins, where that word begins a statement that the language leaves out.
///
/// # Errors
///
/// [`ReadFailure::NoReading`] where the text begins with no such word.
pub fn left_out_word_at(s: &[u8]) -> Result<&'static [u8], ReadFailure>
    ensures { Gives (λ x. x.now) result (reading.word_at grammar.left_out_words s.now) }
{
    name_at(&LEFT_OUT_WORDS, s).ok_or(ReadFailure::NoReading)
}
