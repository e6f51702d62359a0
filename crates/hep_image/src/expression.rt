//! Expressions.
ghost use Rattle.std.specs.Prelude.{◌≡◌, ◌↔◌, IfOk, IsTrue};

use crate::syntax::Syntax;
use hep_source::{Expr, Node};
use std::alloc::{AllocError, Global};

// The same expression, in memory of its own.
#[cycle(copy)]
fn copy_expression(alloc: Global, expression: &Expr) -> Result<Expr, AllocError>
    ensures { IfOk result (λ copy. copy ≡ expression.now) }
{
    match &expression.node {
        Node::Constant(value) => Ok(Expr::constant(*value)),
        Node::Occurrence(occurrence) => Ok(Expr::occurrence(*occurrence)),
        Node::WithList(occurrence, arguments) => {
            Ok(Expr::with_list(*occurrence, copy_arguments(alloc, arguments)?))
        }
        Node::Parenthesized(inner) => Expr::parenthesized(alloc, copy_expression(alloc, inner)?),
        Node::Signed(sign, term) => Expr::signed(alloc, *sign, copy_expression(alloc, term)?),
        Node::Negated(operand) => Expr::negated(alloc, copy_expression(alloc, operand)?),
        Node::Binary(operator, left, right) => {
            let left = copy_expression(alloc, left)?;
            let right = copy_expression(alloc, right)?;
            Expr::binary(alloc, *operator, left, right)
        }
    }
}

// Copies of the arguments of a name with a list.
#[cycle(copy)]
#[tactic(auto, using(crate::proofs::Children::child_less))]
fn copy_arguments(alloc: Global, arguments: &Vec<Expr>) -> Result<Vec<Expr>, AllocError>
    ensures { IfOk result (λ copies. copies.items ≡ arguments.now.items) }
{
    let mut copies = Vec::new(alloc);
    for argument in arguments {
        copies.push(copy_expression(alloc, argument)?)?;
    }
    Ok(copies)
}

// Whether two expressions are equal trees.
#[cycle(same)]
fn same_expressions(a: &Expr, b: &Expr) -> bool
    ensures { IsTrue result ↔ (a.now ≡ b.now) }
{
    match (&a.node, &b.node) {
        (Node::Constant(x), Node::Constant(y)) => x == y,
        (Node::Occurrence(x), Node::Occurrence(y)) => x == y,
        (Node::WithList(f, xs), Node::WithList(g, ys)) => f == g && same_arguments(xs, ys),
        (Node::Parenthesized(x), Node::Parenthesized(y)) => same_expressions(x, y),
        (Node::Signed(s, x), Node::Signed(t, y)) => s == t && same_expressions(x, y),
        (Node::Negated(x), Node::Negated(y)) => same_expressions(x, y),
        (Node::Binary(o, x, v), Node::Binary(p, y, w)) => {
            o == p && same_expressions(x, y) && same_expressions(v, w)
        }
        _ => false,
    }
}

// Whether two lists of arguments are the same.
#[cycle(same)]
fn same_arguments(a: &[Expr], b: &[Expr]) -> bool
    ensures { IsTrue result ↔ (a.now ≡ b.now) }
{
    match (a, b) {
        ([], []) => true,
        ([x, xs @ ..], [y, ys @ ..]) => same_expressions(x, y) && same_arguments(xs, ys),
        _ => false,
    }
}

impl Syntax for Expr {
    fn copy(&self, alloc: Global) -> Result<Expr, AllocError> {
        copy_expression(alloc, self)
    }

    fn same(&self, other: &Expr) -> bool {
        same_expressions(self, other)
    }
}
