//! Reading expressions (X3.9-1978, section 6). There is a function for each level of precedence, from the loosest to
//! the tightest. One function, `chain`, reads the operators and operands that follow a first operand from left to right.
ghost use Rattle.std.specs.Prelude.{◌≡◌, length, option_map};
ghost use Rattle.hep_source.specs.Tree.{trees_of};
ghost use Rattle.hep_expression.specs.Expression as grammar;
ghost use Rattle.hep_expression.specs.Reading.{Gives};
ghost use Rattle.hep_expression.specs.ReadingExpression as reading;

use crate::characters::{
    Context, after, after_text, all_read, integer_at, logical_at, occurrence_at,
};
use crate::read_failure::ReadFailure;
use Precedence::{Conjunction, Disjunction, Equivalence, Sum, Term};
use hep_source::{
    ArithmeticOperator, Expr, LogicalOperator, Occurrence, Operator, RelationalOperator, Sign,
    Value,
};
use std::alloc::Global;

/// The characters of an operator (X3.9-1978, 6.1.1, 6.3.1 and 6.4.1).
fn spelling(operator: Operator) -> &'static [u8]
    ensures { result.now ≡ grammar.spelling operator }
{
    match operator {
        Operator::Arithmetic(ArithmeticOperator::Add) => b"+",
        Operator::Arithmetic(ArithmeticOperator::Subtract) => b"-",
        Operator::Arithmetic(ArithmeticOperator::Multiply) => b"*",
        Operator::Arithmetic(ArithmeticOperator::Divide) => b"/",
        Operator::Arithmetic(ArithmeticOperator::Power) => b"**",
        Operator::Relational(RelationalOperator::Less) => b".LT.",
        Operator::Relational(RelationalOperator::LessOrEqual) => b".LE.",
        Operator::Relational(RelationalOperator::Equal) => b".EQ.",
        Operator::Relational(RelationalOperator::NotEqual) => b".NE.",
        Operator::Relational(RelationalOperator::Greater) => b".GT.",
        Operator::Relational(RelationalOperator::GreaterOrEqual) => b".GE.",
        Operator::Logical(LogicalOperator::And) => b".AND.",
        Operator::Logical(LogicalOperator::Or) => b".OR.",
        Operator::Logical(LogicalOperator::Equivalent) => b".EQV.",
        Operator::Logical(LogicalOperator::NotEquivalent) => b".NEQV.",
    }
}

/// A level of precedence at which operators associate from left to right (X3.9-1978, 6.1.2 and 6.4.2), from the
/// loosest to the tightest.
#[derive(Clone, Copy, PartialEq, Eq)]
enum Precedence {
    /// Of `.EQV.` and `.NEQV.`
    Equivalence,
    /// Of `.OR.`
    Disjunction,
    /// Of `.AND.`
    Conjunction,
    /// Of `+` and `-`
    Sum,
    /// Of `*` and `/`
    Term,
}

impl Precedence {
    /// The operators of the level.
    fn operators(self) -> &'static [Operator]
        ensures { result.now ≡ reading.operators self }
    {
        match self {
            Equivalence => &[
                Operator::Logical(LogicalOperator::Equivalent),
                Operator::Logical(LogicalOperator::NotEquivalent),
            ],
            Disjunction => &[Operator::Logical(LogicalOperator::Or)],
            Conjunction => &[Operator::Logical(LogicalOperator::And)],
            Sum => &[
                Operator::Arithmetic(ArithmeticOperator::Add),
                Operator::Arithmetic(ArithmeticOperator::Subtract),
            ],
            Term => &[
                Operator::Arithmetic(ArithmeticOperator::Multiply),
                Operator::Arithmetic(ArithmeticOperator::Divide),
            ],
        }
    }
}

/// The operators of a relation (X3.9-1978, 6.3.1).
fn comparing() -> &'static [Operator]
    ensures { result.now ≡ reading.comparing }
{
    &[
        Operator::Relational(RelationalOperator::Less),
        Operator::Relational(RelationalOperator::LessOrEqual),
        Operator::Relational(RelationalOperator::Equal),
        Operator::Relational(RelationalOperator::NotEqual),
        Operator::Relational(RelationalOperator::Greater),
        Operator::Relational(RelationalOperator::GreaterOrEqual),
    ]
}

/// The first of these operators that the text begins with, and what follows it.
fn operator_at<'a>(among: &[Operator], s: &'a [u8]) -> Option<(Operator, &'a [u8])>
    ensures { option_map (λ x. (x.0, x.1.now)) result ≡ reading.operator_at among.now s.now }
{
    match among {
        [] => None,
        [operator, others @ ..] => match after_text(spelling(*operator), s) {
            Some(rest) => Some((*operator, rest)),
            None => operator_at(others, s),
        },
    }
}

/// A sign at the front, and what follows it.
fn sign_at(s: &[u8]) -> Option<(Sign, &[u8])>
    ensures { option_map (λ x. (x.0, x.1.now)) result ≡ reading.sign_at s.now }
{
    if let Some(rest) = after_text(b"+", s) {
        return Some((Sign::Plus, rest));
    }
    let rest = after_text(b"-", s)?;
    Some((Sign::Minus, rest))
}

/// An expression that was read, and what follows it.
type ReadExpression<'a> = Result<(Expr, &'a [u8]), ReadFailure>;

/// An expression at the front, and what follows it. `depth` bounds how deeply parentheses, lists
/// and powers nest.
///
/// # Errors
///
/// [`ReadFailure::NoReading`] where the text has no such part, or [`ReadFailure::NoMemory`].
#[cycle(expression)]
#[tactic(auto, unfolding(crate::specs::ReadingExpression::expression, crate::specs::ReadingExpression::disjunction, crate::specs::ReadingExpression::conjunction))]
fn expression(alloc: Global, context: Context, depth: usize, s: &[u8]) -> ReadExpression<'_>
    ensures { Gives (λ x. (x.0, x.1.now)) result (reading.expression context depth s.now) }
{
    if depth == 0 {
        return Err(ReadFailure::NoReading);
    }
    let depth = depth - 1;
    // The first operand is read once for all levels. Then each level in turn continues after it, so that an open
    // parenthesis costs few calls.
    let (first, rest) = negation(alloc, context, depth, s)?;
    let (first, rest) = chain(alloc, context, depth, Conjunction, s.len(), first, rest)?;
    let (first, rest) = chain(alloc, context, depth, Disjunction, s.len(), first, rest)?;
    chain(alloc, context, depth, Equivalence, s.len(), first, rest)
}

/// The expression that a first operand and the operators and operands of a level after it form, from left to right, with at most
/// `turns` operators.
#[cycle(expression)]
#[tactic(auto, using(crate::proofs::Chains::chain_goes_on, crate::proofs::Chains::chain_ends, crate::proofs::Chains::chain_is_over, crate::proofs::Chains::chain_fails))]
fn chain(
    alloc: Global,
    context: Context,
    depth: usize,
    level: Precedence,
    turns: usize,
    first: Expr,
    s: &[u8],
) -> ReadExpression<'_>
    ensures { Gives (λ x. (x.0, x.1.now)) result
        (reading.chain (reading.operators level) (reading.next_operand level (reading.power context depth)) turns first s.now) }
{
    let (mut left, mut rest) = (first, s);
    for _turn in 0..turns {
        let Some((operator, after)) = operator_at(level.operators(), rest) else {
            return Ok((left, rest));
        };
        let (right, after) = operand(alloc, context, depth, level, after)?;
        left = Expr::binary(alloc, operator, left, right)?;
        rest = after;
    }
    Ok((left, rest))
}

/// The operand after an operator of a level.
#[cycle(expression)]
#[tactic(auto, unfolding(crate::specs::ReadingExpression::disjunction, crate::specs::ReadingExpression::conjunction))]
fn operand(
    alloc: Global,
    context: Context,
    depth: usize,
    level: Precedence,
    s: &[u8],
) -> ReadExpression<'_>
    ensures { Gives (λ x. (x.0, x.1.now)) result (reading.next_operand level (reading.power context depth) s.now) }
{
    match level {
        Equivalence => operands(alloc, context, depth, Disjunction, s),
        Disjunction => operands(alloc, context, depth, Conjunction, s),
        Conjunction => negation(alloc, context, depth, s),
        Sum => term(alloc, context, depth, s),
        Term => power(alloc, context, depth, s),
    }
}

/// Operands of a level with its operators between them. The first operand has no sign.
#[cycle(expression)]
fn operands(
    alloc: Global,
    context: Context,
    depth: usize,
    level: Precedence,
    s: &[u8],
) -> ReadExpression<'_>
    ensures { Gives (λ x. (x.0, x.1.now)) result
        (reading.left_to_right (reading.operators level) (reading.next_operand level (reading.power context depth))
        (reading.next_operand level (reading.power context depth)) s.now) }
{
    let (first, rest) = operand(alloc, context, depth, level, s)?;
    chain(alloc, context, depth, level, s.len(), first, rest)
}

/// A relation, which may have `.NOT.` before it.
#[cycle(expression)]
#[tactic(auto, unfolding(crate::specs::ReadingExpression::negation))]
fn negation(alloc: Global, context: Context, depth: usize, s: &[u8]) -> ReadExpression<'_>
    ensures { Gives (λ x. (x.0, x.1.now)) result
        (reading.negation (reading.relation (reading.sum (reading.term (reading.power context depth)))) s.now) }
{
    match after_text(b".NOT.", s) {
        None => relation(alloc, context, depth, s),
        Some(after) => {
            let (operand, rest) = relation(alloc, context, depth, after)?;
            let negated = Expr::negated(alloc, operand)?;
            Ok((negated, rest))
        }
    }
}

/// A sum, or two sums with an operator of a relation between them.
#[cycle(expression)]
#[tactic(auto, unfolding(crate::specs::ReadingExpression::relation))]
fn relation(alloc: Global, context: Context, depth: usize, s: &[u8]) -> ReadExpression<'_>
    ensures { Gives (λ x. (x.0, x.1.now)) result (reading.relation (reading.sum (reading.term (reading.power context depth))) s.now) }
{
    let (left, rest) = sum(alloc, context, depth, s)?;
    match operator_at(comparing(), rest) {
        None => Ok((left, rest)),
        Some((operator, after)) => {
            let (right, rest) = sum(alloc, context, depth, after)?;
            let compared = Expr::binary(alloc, operator, left, right)?;
            Ok((compared, rest))
        }
    }
}

/// Terms with `+` and `-` between them; the first one may have a sign.
#[cycle(expression)]
#[tactic(auto, unfolding(crate::specs::ReadingExpression::sum))]
fn sum(alloc: Global, context: Context, depth: usize, s: &[u8]) -> ReadExpression<'_>
    ensures { Gives (λ x. (x.0, x.1.now)) result (reading.sum (reading.term (reading.power context depth)) s.now) }
{
    let (first, rest) = first_term(alloc, context, depth, s)?;
    chain(alloc, context, depth, Sum, s.len(), first, rest)
}

/// The first term of a sum, which may have a sign.
#[cycle(expression)]
#[tactic(auto, unfolding(crate::specs::ReadingExpression::first_term))]
fn first_term(alloc: Global, context: Context, depth: usize, s: &[u8]) -> ReadExpression<'_>
    ensures { Gives (λ x. (x.0, x.1.now)) result (reading.first_term (reading.term (reading.power context depth)) s.now) }
{
    match sign_at(s) {
        None => term(alloc, context, depth, s),
        Some((sign, after)) => {
            let (operand, rest) = term(alloc, context, depth, after)?;
            let signed = Expr::signed(alloc, sign, operand)?;
            Ok((signed, rest))
        }
    }
}

/// Powers with `*` and `/` between them.
#[cycle(expression)]
#[tactic(auto, unfolding(crate::specs::ReadingExpression::term))]
fn term(alloc: Global, context: Context, depth: usize, s: &[u8]) -> ReadExpression<'_>
    ensures { Gives (λ x. (x.0, x.1.now)) result (reading.term (reading.power context depth) s.now) }
{
    let (first, rest) = power(alloc, context, depth, s)?;
    chain(alloc, context, depth, Term, s.len(), first, rest)
}

/// A primary, or a primary raised to a power: `**` associates from right to left.
#[cycle(expression)]
#[tactic(auto, unfolding(crate::specs::ReadingExpression::power, crate::specs::ReadingExpression::power_of))]
fn power(alloc: Global, context: Context, depth: usize, s: &[u8]) -> ReadExpression<'_>
    ensures { Gives (λ x. (x.0, x.1.now)) result (reading.power context depth s.now) }
{
    if depth == 0 {
        return Err(ReadFailure::NoReading);
    }
    let (base, rest) = primary(alloc, context, depth - 1, s)?;
    match after_text(b"**", rest) {
        None => Ok((base, rest)),
        Some(after) => {
            let (exponent, rest) = power(alloc, context, depth - 1, after)?;
            let raised = Expr::binary(
                alloc,
                Operator::Arithmetic(ArithmeticOperator::Power),
                base,
                exponent,
            )?;
            Ok((raised, rest))
        }
    }
}

/// A constant, a name, which may have a list, or an expression in parentheses.
#[cycle(expression)]
#[tactic(auto, unfolding(crate::specs::ReadingExpression::primary))]
fn primary(alloc: Global, context: Context, depth: usize, s: &[u8]) -> ReadExpression<'_>
    ensures { Gives (λ x. (x.0, x.1.now)) result (reading.primary context (reading.expression context depth) s.now) }
{
    if let Some((value, rest)) = integer_at(context, s) {
        return Ok((Expr::constant(Value::Int(value)), rest));
    }
    if let Some((logical, rest)) = logical_at(s) {
        return Ok((Expr::constant(Value::Truth(logical)), rest));
    }
    if let Some((occurrence, rest)) = occurrence_at(context, s) {
        return named(alloc, context, depth, occurrence, rest);
    }
    match after(b'(', s) {
        Some(inside) => in_parentheses(alloc, context, depth, inside),
        None => Err(ReadFailure::NoReading),
    }
}

/// The expression of a name that was read, with a list where `(` follows it.
#[cycle(expression)]
#[tactic(auto, unfolding(crate::specs::ReadingExpression::named))]
fn named(
    alloc: Global,
    context: Context,
    depth: usize,
    occurrence: Occurrence,
    s: &[u8],
) -> ReadExpression<'_>
    ensures { Gives (λ x. (x.0, x.1.now)) result (reading.named (reading.expression context depth) occurrence s.now) }
{
    match after(b'(', s) {
        None => Ok((Expr::occurrence(occurrence), s)),
        Some(inside) => {
            let (list, rest) = listed(alloc, context, depth, inside)?;
            Ok((Expr::with_list(occurrence, list), rest))
        }
    }
}

/// What follows `(` after a name: a list, which may be empty, and `)`.
#[cycle(expression)]
#[tactic(auto, unfolding(crate::specs::ReadingExpression::listed))]
fn listed(
    alloc: Global,
    context: Context,
    depth: usize,
    s: &[u8],
) -> Result<(Vec<Expr>, &[u8]), ReadFailure>
    ensures { Gives (λ x. (trees_of x.0.items, x.1.now)) result (reading.listed (reading.expression context depth) s.now) }
{
    match after(b')', s) {
        Some(rest) => Ok((Vec::new(alloc), rest)),
        None => arguments(alloc, context, depth, s),
    }
}

/// A list that is not empty: expressions with commas between them and `)` after the last.
#[cycle(expression)]
#[tactic(auto, using(crate::proofs::Chains::arguments_go_on, crate::proofs::Chains::arguments_end, crate::proofs::Chains::arguments_stop, crate::proofs::Chains::arguments_are_over, crate::proofs::Chains::arguments_fail))]
fn arguments(
    alloc: Global,
    context: Context,
    depth: usize,
    s: &[u8],
) -> Result<(Vec<Expr>, &[u8]), ReadFailure>
    ensures { Gives (λ x. (trees_of x.0.items, x.1.now)) result
        (reading.arguments (reading.expression context depth) (length s.now) s.now) }
{
    let mut list = Vec::new(alloc);
    let mut rest = s;
    for _turn in 0..s.len() {
        let (argument, rest_after) = expression(alloc, context, depth, rest)?;
        list.push(argument)?;
        if let Some(rest_after) = after(b')', rest_after) {
            return Ok((list, rest_after));
        }
        let Some(rest_after) = after(b',', rest_after) else {
            return Err(ReadFailure::NoReading);
        };
        rest = rest_after;
    }
    Err(ReadFailure::NoReading)
}

/// What follows `(`: an expression and `)`.
#[cycle(expression)]
#[tactic(auto, unfolding(crate::specs::ReadingExpression::in_parentheses))]
fn in_parentheses(alloc: Global, context: Context, depth: usize, s: &[u8]) -> ReadExpression<'_>
    ensures { Gives (λ x. (x.0, x.1.now)) result (reading.in_parentheses (reading.expression context depth) s.now) }
{
    let (inner, rest) = expression(alloc, context, depth, s)?;
    match after(b')', rest) {
        Some(rest) => Ok((Expr::parenthesized(alloc, inner)?, rest)),
        None => Err(ReadFailure::NoReading),
    }
}

/// An expression at the front, and what follows it.
///
/// # Errors
///
/// [`ReadFailure::NoReading`] where the text has no such part, or [`ReadFailure::NoMemory`].
#[tactic(auto, unfolding(crate::specs::ReadingExpression::expression_at))]
pub fn expression_at(
    alloc: Global,
    context: Context,
    s: &[u8],
) -> Result<(Expr, &[u8]), ReadFailure>
    ensures { Gives (λ x. (x.0, x.1.now)) result (reading.expression_at context s.now) }
{
    // Each parenthesis, each list and each power adds at most two to the depth and takes at least one character.
    expression(alloc, context, s.len() + s.len() + 1, s)
}

/// The expression that a whole text forms.
///
/// # Errors
///
/// [`ReadFailure::NoReading`] where the text has no such part, or [`ReadFailure::NoMemory`].
#[tactic(auto, unfolding(crate::specs::ReadingExpression::whole_expression))]
pub fn whole_expression(alloc: Global, context: Context, s: &[u8]) -> Result<Expr, ReadFailure>
    ensures { Gives (λ e. e) result (reading.whole_expression context s.now) }
{
    let (found, rest) = expression_at(alloc, context, s)?;
    all_read(found, rest)
}
