//! Expressions.
ghost use Rattle.std.specs.Prelude.{◌≡◌, IfOk};
ghost use Rattle.hep_source.specs.Tree as tree;

use crate::name::Occurrence;
use crate::operator::{Operator, Sign};
use crate::value::Value;
use std::alloc::{AllocError, Global};
use std::marker::Model;

/// An expression (X3.9-1978, section 6). Contracts see it as a tree.
#[cycle(expression)]
#[derive(Drop)]
pub struct Expr {
    pub node: Node,
}

/// The outermost node of an expression.
#[cycle(expression)]
#[derive(Drop)]
pub enum Node {
    Constant(Value),
    /// A name without a list.
    Occurrence(Occurrence),
    /// A name with a list in parentheses: an array element or a function reference (5.3, 15.2).
    WithList(Occurrence, Vec<Expr>),
    Parenthesized(Box<Expr>),
    Signed(Sign, Box<Expr>),
    /// `.NOT.` and its operand (6.4.1).
    Negated(Box<Expr>),
    Binary(Operator, Box<Expr>, Box<Expr>),
}

impl Model for Expr {
    ghost use Rattle.hep_source.specs.Tree.{Tree, nodes};
    ghost use Rattle.hep_source.specs.TreeCode.{tree_code};

    ghost Value = { Tree };

    ghost coded = { tree_code };

    ghost use Rattle.hep_source.specs.NodeTree.{node_tree};

    ghost view = { λ a. node_tree a.node };

    ghost size = { nodes };

    ghost use Rattle.hep_source.specs.NodeSizes.{deep_le};

    ghost size_decreases = { λ a h. deep_le a.node };
}

impl Expr {
    /// A constant.
    pub fn constant(value: Value) -> Expr
        ensures { result ≡ tree.constant value }
    {
        Expr {
            node: Node::Constant(value),
        }
    }

    /// A name without a list.
    pub fn occurrence(occurrence: Occurrence) -> Expr
        ensures { result ≡ tree.occurrence occurrence }
    {
        Expr {
            node: Node::Occurrence(occurrence),
        }
    }

    /// A name with a list in parentheses.
    pub fn with_list(occurrence: Occurrence, arguments: Vec<Expr>) -> Expr
        ensures { result ≡ tree.with_list occurrence (tree.trees_of arguments.items) }
    {
        Expr {
            node: Node::WithList(occurrence, arguments),
        }
    }

    /// An expression in parentheses.
    ///
    /// # Errors
    ///
    /// Only where memory was refused.
    pub fn parenthesized(alloc: Global, inner: Expr) -> Result<Expr, AllocError>
        ensures { IfOk result (λ e. e ≡ tree.parenthesized inner) }
    {
        Ok(Expr {
            node: Node::Parenthesized(Box::new(alloc, inner)?),
        })
    }

    /// A term with a sign before it.
    ///
    /// # Errors
    ///
    /// Only where memory was refused.
    pub fn signed(alloc: Global, sign: Sign, term: Expr) -> Result<Expr, AllocError>
        ensures { IfOk result (λ e. e ≡ tree.signed sign term) }
    {
        Ok(Expr {
            node: Node::Signed(sign, Box::new(alloc, term)?),
        })
    }

    /// An operand with `.NOT.` before it.
    ///
    /// # Errors
    ///
    /// Only where memory was refused.
    pub fn negated(alloc: Global, operand: Expr) -> Result<Expr, AllocError>
        ensures { IfOk result (λ e. e ≡ tree.negated operand) }
    {
        Ok(Expr {
            node: Node::Negated(Box::new(alloc, operand)?),
        })
    }

    /// Two operands with an operator between them.
    ///
    /// # Errors
    ///
    /// Only where memory was refused.
    pub fn binary(
        alloc: Global,
        operator: Operator,
        left: Expr,
        right: Expr,
    ) -> Result<Expr, AllocError>
        ensures { IfOk result (λ e. e ≡ tree.binary operator left right) }
    {
        let left = Box::new(alloc, left)?;
        let right = Box::new(alloc, right)?;
        Ok(Expr {
            node: Node::Binary(operator, left, right),
        })
    }
}
