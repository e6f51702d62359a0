//! Statements.

use crate::syntax::Syntax;
use hep_source::{DoControl, Form, PrintItem, Statement};
use std::alloc::{AllocError, Global};

impl Syntax for PrintItem {
    fn copy(&self, alloc: Global) -> Result<PrintItem, AllocError> {
        match self {
            PrintItem::Expression(item) => Ok(PrintItem::Expression(item.copy(alloc)?)),
            PrintItem::Characters(text) => Ok(PrintItem::Characters(text.copy(alloc)?)),
        }
    }

    fn same(&self, other: &PrintItem) -> bool {
        match (self, other) {
            (PrintItem::Expression(a), PrintItem::Expression(b)) => a.same(b),
            (PrintItem::Characters(a), PrintItem::Characters(b)) => a.same(b),
            _ => false,
        }
    }
}

impl Syntax for DoControl {
    fn copy(&self, alloc: Global) -> Result<DoControl, AllocError> {
        Ok(DoControl {
            terminal: self.terminal,
            variable: self.variable,
            initial: self.initial.copy(alloc)?,
            limit: self.limit.copy(alloc)?,
            increment: self.increment.copy(alloc)?,
        })
    }

    fn same(&self, other: &DoControl) -> bool {
        self.terminal == other.terminal
            && self.variable == other.variable
            && self.initial.same(&other.initial)
            && self.limit.same(&other.limit)
            && self.increment.same(&other.increment)
    }
}

impl Syntax for Form {
    fn copy(&self, alloc: Global) -> Result<Form, AllocError> {
        match self {
            Form::Program(x) => Ok(Form::Program(*x)),
            Form::Subroutine(x, y) => Ok(Form::Subroutine(*x, y.copy(alloc)?)),
            Form::Function(x, y, z) => Ok(Form::Function(*x, *y, z.copy(alloc)?)),
            Form::Implicit(x) => Ok(Form::Implicit(x.copy(alloc)?)),
            Form::Declare(x, y) => Ok(Form::Declare(*x, y.copy(alloc)?)),
            Form::Dimension(x) => Ok(Form::Dimension(x.copy(alloc)?)),
            Form::Common(x) => Ok(Form::Common(x.copy(alloc)?)),
            Form::Parameter(x) => Ok(Form::Parameter(x.copy(alloc)?)),
            Form::Data(x) => Ok(Form::Data(x.copy(alloc)?)),
            Form::Assign(x, y) => Ok(Form::Assign(x.copy(alloc)?, y.copy(alloc)?)),
            Form::GoTo(x) => Ok(Form::GoTo(*x)),
            Form::ComputedGoTo(x, y) => Ok(Form::ComputedGoTo(x.copy(alloc)?, y.copy(alloc)?)),
            Form::ArithmeticIf(x, y) => Ok(Form::ArithmeticIf(x.copy(alloc)?, *y)),
            Form::IfThen(x) => Ok(Form::IfThen(x.copy(alloc)?)),
            Form::ElseIf(x) => Ok(Form::ElseIf(x.copy(alloc)?)),
            Form::Else => Ok(Form::Else),
            Form::EndIf => Ok(Form::EndIf),
            Form::Do(x) => Ok(Form::Do(x.copy(alloc)?)),
            Form::Call(x, y) => Ok(Form::Call(*x, y.copy(alloc)?)),
            Form::Create(x, y) => Ok(Form::Create(*x, y.copy(alloc)?)),
            Form::Purge(x) => Ok(Form::Purge(x.copy(alloc)?)),
            Form::Print(x) => Ok(Form::Print(x.copy(alloc)?)),
            Form::Continue => Ok(Form::Continue),
            Form::Return => Ok(Form::Return),
            Form::Resume => Ok(Form::Resume),
            Form::Stop => Ok(Form::Stop),
            Form::End => Ok(Form::End),
        }
    }

    fn same(&self, other: &Form) -> bool {
        match (self, other) {
            (Form::Program(a), Form::Program(c)) => a == c,
            (Form::Subroutine(a, b), Form::Subroutine(c, d)) => a == c && b.same(d),
            (Form::Function(a, b, c), Form::Function(d, e, f)) => a == d && b == e && c.same(f),
            (Form::Implicit(a), Form::Implicit(c)) => a.same(c),
            (Form::Declare(a, b), Form::Declare(c, d)) => a == c && b.same(d),
            (Form::Dimension(a), Form::Dimension(c)) => a.same(c),
            (Form::Common(a), Form::Common(c)) => a.same(c),
            (Form::Parameter(a), Form::Parameter(c)) => a.same(c),
            (Form::Data(a), Form::Data(c)) => a.same(c),
            (Form::Assign(a, b), Form::Assign(c, d)) => a.same(c) && b.same(d),
            (Form::GoTo(a), Form::GoTo(c)) => a == c,
            (Form::ComputedGoTo(a, b), Form::ComputedGoTo(c, d)) => a.same(c) && b.same(d),
            (Form::ArithmeticIf(a, b), Form::ArithmeticIf(c, d)) => a.same(c) && b == d,
            (Form::IfThen(a), Form::IfThen(c)) => a.same(c),
            (Form::ElseIf(a), Form::ElseIf(c)) => a.same(c),
            (Form::Else, Form::Else) => true,
            (Form::EndIf, Form::EndIf) => true,
            (Form::Do(a), Form::Do(c)) => a.same(c),
            (Form::Call(a, b), Form::Call(c, d)) => a == c && b.same(d),
            (Form::Create(a, b), Form::Create(c, d)) => a == c && b.same(d),
            (Form::Purge(a), Form::Purge(c)) => a.same(c),
            (Form::Print(a), Form::Print(c)) => a.same(c),
            (Form::Continue, Form::Continue) => true,
            (Form::Return, Form::Return) => true,
            (Form::Resume, Form::Resume) => true,
            (Form::Stop, Form::Stop) => true,
            (Form::End, Form::End) => true,
            _ => false,
        }
    }
}

impl Syntax for Statement {
    fn copy(&self, alloc: Global) -> Result<Statement, AllocError> {
        Ok(Statement {
            line: self.line,
            label: self.label,
            conditions: self.conditions.copy(alloc)?,
            form: self.form.copy(alloc)?,
        })
    }

    fn same(&self, other: &Statement) -> bool {
        self.line == other.line
            && self.label == other.label
            && self.conditions.same(&other.conditions)
            && self.form.same(&other.form)
    }
}
