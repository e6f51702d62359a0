//! The rule that decides the form of a statement.
ghost use Rattle.std.specs.Prelude.{◌≡◌, ◌≤◌, ◌<◌, ◌+◌, ◌^◌, ◌∷◌, ℕ, List, Some, false, option_map, MatchOption};
ghost use Rattle.hep_parse.specs.Rules as grammar;
ghost use Rattle.hep_parse.specs.ReadingRule as reading;

use hep_expression::characters::{after_text, is_digit};

/// The rule that decides the form of a statement's text (docs/LANGUAGE.md).
#[derive(Clone, Copy, PartialEq, Eq)]
pub enum Rule {
    /// The statement is an assignment. It may assign to an element of an array named IF.
    Assignment,
    /// `IF(..)THEN`: a block IF.
    BlockIf,
    /// `IF(..)` and labels: an arithmetic IF.
    SignIf,
    /// `IF(..)` and a statement: a logical IF.
    LogicalIf,
    /// `IF(` whose parenthesis is never closed.
    Unclosed,
    /// The statement begins with a word.
    Worded,
}

/// The state of a search for `=` outside parentheses and character constants.
#[derive(Clone, Copy, PartialEq, Eq)]
pub struct Scan {
    /// The number of parentheses that were opened.
    pub opened: usize,
    /// The number of parentheses that were closed.
    pub closed: usize,
    /// Whether the search is within a character constant.
    pub quoted: bool,
    /// Whether `=` was found outside parentheses and character constants.
    pub equals: bool,
    /// Whether a comma was found outside them after that `=`.
    pub comma: bool,
}

impl Scan {
    /// The state in which the search begins.
    fn beginning() -> Scan
        ensures { result ≡ grammar.beginning }
    {
        Scan {
            opened: 0,
            closed: 0,
            quoted: false,
            equals: false,
            comma: false,
        }
    }

    /// Whether the search is outside parentheses and character constants.
    fn is_outside(self) -> bool
        ensures { result ≡ grammar.is_outside self }
    {
        self.opened <= self.closed && !self.quoted
    }

    /// The state of the search after one more character.
    fn rest_after(self, c: u8) -> Scan
        requires { (self.opened + 1 < 2 ^ 64) × (self.closed + 1 < 2 ^ 64) }
        ensures { result ≡ grammar.after_character self c }
    {
        let outside = self.is_outside();
        let mut next = self;
        match c {
            b'(' if !self.quoted => next.opened += 1,
            b')' if !self.quoted => next.closed += 1,
            b'\'' => next.quoted = !self.quoted,
            b'=' if outside => next.equals = true,
            b',' if outside && self.equals => next.comma = true,
            _ => {}
        }
        next
    }

    /// Whether the search has found an assignment: `=`, and no comma after it.
    fn is_assignment(self) -> bool
        ensures { result ≡ grammar.is_assignment self }
    {
        self.equals && !self.comma
    }
}

/// The state of the search for `=` at the end of a text.
#[tactic(auto, using(crate::proofs::Rules::scan_goes_on, crate::proofs::Rules::opened_more, crate::proofs::Rules::closed_more))]
fn scanned(s: &[u8]) -> Scan
    ensures { result ≡ grammar.scanned grammar.beginning s.now }
{
    let mut scan = Scan::beginning();
    for c in s {
        scan = scan.rest_after(*c);
    }
    scan
}

/// The number of open parentheses after one more character, and whether a character constant is open there;
/// none where the character closes the last parenthesis.
fn nested(depth: usize, quoted: bool, c: u8) -> Option<(usize, bool)>
    requires { depth + 1 < 2 ^ 64 }
    ensures goes_on { (r : List ℕ) → grammar.after_closing depth quoted (c ∷ r) ≡ reading.nested_after result r }
    ensures deep { MatchOption result (Unit {0}) (λ x. x.0 ≤ depth + 1) }
{
    match c {
        b'\'' => Some((depth, !quoted)),
        b'(' if !quoted => Some((depth + 1, false)),
        b')' if !quoted => {
            if depth == 0 {
                return None;
            }
            Some((depth - 1, false))
        }
        _ => Some((depth, quoted)),
    }
}

/// What follows the parenthesis that closes the one before a text; none where there is no such parenthesis. Parentheses in character
/// constants don't count.
fn after_closing(s: &[u8]) -> Option<&[u8]>
    ensures { option_map (λ x. x.now) result ≡ grammar.after_closing 0 false s.now }
{
    let mut depth = 0;
    let mut quoted = false;
    for i in 0..s.len() {
        let Some(next) = nested(depth, quoted, s[i]) else {
            return Some(&s[i + 1..]);
        };
        (depth, quoted) = next;
    }
    None
}

/// What follows the closing parenthesis of `IF(`, where the text begins with `IF(`; none elsewhere.
pub fn after_if(s: &[u8]) -> Option<&[u8]>
    ensures { option_map (λ x. x.now) result ≡ reading.after_if s.now }
{
    after_closing(after_text(b"IF(", s)?)
}

/// The rule by what follows the parenthesis that closes that of IF.
fn rule_after(rest: &[u8]) -> Rule
    ensures { result ≡ grammar.rule_after (Some rest.now) }
{
    match rest {
        [] => Rule::LogicalIf,
        [b'=', ..] => Rule::Assignment,
        [c, ..] if is_digit(*c) => Rule::SignIf,
        _ => match after_text(b"THEN", rest) {
            Some([]) => Rule::BlockIf,
            _ => Rule::LogicalIf,
        },
    }
}

/// The rule of a text. A text that begins with `IF(` is tested first, then one with `=`, and then one with a word.
pub fn rule_of(s: &[u8]) -> Rule
    ensures { result ≡ grammar.rule_of s.now }
{
    match after_text(b"IF(", s) {
        Some(inside) => match after_closing(inside) {
            Some(rest) => rule_after(rest),
            None => Rule::Unclosed,
        },
        None if scanned(s).is_assignment() => Rule::Assignment,
        None => Rule::Worded,
    }
}
