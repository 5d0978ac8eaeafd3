//! Expressions with their depth.

ghost use Rattle.std.specs.Prelude.{◌≡◌, ◌<◌, IfOk};
ghost use Rattle.ioa_tree.specs.Tree as spec;
ghost use Rattle.ioa_tree.specs.Tree.{truth, named, parens, prefix, binary, empty, make, select};
ghost use Rattle.ioa_tree.specs.Depth.{depth_of, exprs_depth};
ghost use Rattle.ioa_tree.specs.View.{expr_of, exprs_of, name_of};

use ioa_tree::{Expression, Infix, Name};
use ioa_value::Op;
use std::alloc::{AllocError, Global};

/// An expression with its depth.
pub struct Measured {
    pub expression: Expression,
    pub depth: u32,
    ghost exact: { depth ≡ depth_of (expr_of expression) },
}

/// Written out, so that a reader that fails calls it, and does not take the expression apart itself.
impl Drop for Measured {
    fn drop(self) {
        let Measured {
            expression: _,
            depth: _,
        } = self;
    }
}

impl Measured {
    /// The expression alone.
    pub fn alone(self) -> Expression
        ensures { result ≡ self.expression }
    {
        let Measured {
            expression,
            depth: _,
        } = self;
        expression
    }

    pub(crate) fn number(n: u64, line: u32) -> Measured
        ensures { expr_of result.expression ≡ spec.number n }
    {
        Measured {
            expression: Expression::Number(n, line),
            depth: 1,
        }
    }

    pub(crate) fn truth(b: bool, line: u32) -> Measured
        ensures { expr_of result.expression ≡ truth b }
    {
        Measured {
            expression: Expression::Truth(b, line),
            depth: 1,
        }
    }

    pub(crate) fn name(name: Name) -> Measured
        ensures { expr_of result.expression ≡ named (name_of name) }
    {
        Measured {
            expression: Expression::Name(name),
            depth: 1,
        }
    }

    /// The empty sequence of the type of this name, where the word `empty` stands on this line.
    pub(crate) fn empty(name: Name, line: u32) -> Measured
        ensures { expr_of result.expression ≡ empty (name_of name) }
    {
        Measured {
            expression: Expression::Empty(name, line),
            depth: 1,
        }
    }

    /// The expression between parentheses, the first of which stands on this line.
    pub(crate) fn parentheses(self, alloc: Global, line: u32) -> Result<Measured, AllocError>
        requires { self.depth < 1000 }
        ensures { IfOk result (λ m. expr_of m.expression ≡ parens (expr_of self.expression)) }
    {
        let Measured { expression, depth } = self;
        Ok(Measured {
            expression: Expression::Parentheses(Box::new(alloc, expression)?, line),
            depth: depth + 1,
        })
    }

    /// The operator on the expression; the word or sign of the operator stands on this line.
    pub(crate) fn prefix(
        self,
        alloc: Global,
        operator: Op,
        line: u32,
    ) -> Result<Measured, AllocError>
        requires { self.depth < 1000 }
        ensures { IfOk result (λ m. expr_of m.expression ≡ prefix operator (expr_of self.expression)) }
    {
        let Measured { expression, depth } = self;
        Ok(Measured {
            expression: Expression::Prefix(operator, Box::new(alloc, expression)?, line),
            depth: depth + 1,
        })
    }

    /// The operator on both expressions; the first token of the whole stands on this line.
    pub(crate) fn binary(
        self,
        alloc: Global,
        operator: Infix,
        right: Measured,
        line: u32,
    ) -> Result<Measured, AllocError>
        requires left { self.depth < 1000 }
        requires right { right.depth < 1000 }
        ensures { IfOk result (λ m. expr_of m.expression ≡ binary (expr_of self.expression) operator (expr_of right.expression)) }
    {
        let Measured { expression, depth } = self;
        let Measured {
            expression: other,
            depth: other_depth,
        } = right;
        Ok(Measured {
            expression: Expression::Binary(
                Box::new(alloc, expression)?,
                operator,
                Box::new(alloc, other)?,
                line,
            ),
            depth: depth.max(other_depth) + 1,
        })
    }

    /// A tuple of the type of this name, of these fields, the deepest of which has this depth.
    pub(crate) fn make(name: Name, fields: Vec<Expression>, deepest: u32) -> Measured
        requires small { deepest < 1000 }
        requires exact { deepest ≡ exprs_depth (exprs_of fields.items) }
        ensures { expr_of result.expression ≡ make (name_of name) (exprs_of fields.items) }
    {
        Measured {
            expression: Expression::Make(name, fields),
            depth: deepest + 1,
        }
    }

    /// The field of this name of the expression.
    pub(crate) fn select(self, alloc: Global, name: Name) -> Result<Measured, AllocError>
        requires { self.depth < 1000 }
        ensures { IfOk result (λ m. expr_of m.expression ≡ select (expr_of self.expression) (name_of name)) }
    {
        let Measured { expression, depth } = self;
        let line = expression.line();
        Ok(Measured {
            expression: Expression::Select(Box::new(alloc, expression)?, name, line),
            depth: depth + 1,
        })
    }
}
