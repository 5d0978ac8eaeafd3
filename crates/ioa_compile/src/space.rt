//! How much code a part has space for, and whether that of a condition, which has no limit of nodes, is as small.

ghost use Rattle.std.specs.Prelude.{◌≡◌, ◌+◌, ◌<◌, ◌⊎◌, IfSome, IfNone};
ghost use Rattle.ioa_tree.specs.View.{expr_of, exprs_of};
ghost use Rattle.ioa_tree.specs.WellFormed.{exprs_nodes, nodes as nodes_of};
ghost use Rattle.ioa_emit.specs.Extents.{extent, exprs_extent};

use ioa_emit::extent_beside;
use ioa_tree::Expression;

/// Space for so many nodes of trees, each of which has a constant at most, and for so many instructions.
#[derive(Clone, Copy)]
pub(crate) struct Space {
    nodes: usize,
    places: usize,
}

impl Space {
    /// That of a part, whose places and constants have numbers of 16 bits.
    pub(crate) fn of_a_part() -> Space
        ensures { (result.nodes ≡ 65535) × (result.places ≡ 65535) }
    {
        Space {
            nodes: 65_535,
            places: 65_535,
        }
    }

    /// The space that a node with so many instructions leaves. None where there is not enough for it.
    fn less(self, places: usize) -> Option<Space>
        ensures some { IfSome result (λ left. (left.nodes + 1 ≡ self.nodes) × (left.places + places ≡ self.places)) }
        ensures none { IfNone result ((self.nodes < 1) ⊎ (self.places < places)) }
    {
        Some(Space {
            nodes: self.nodes.checked_sub(1)?,
            places: self.places.checked_sub(places)?,
        })
    }

    /// The space that an expression leaves. None where there is not enough for it.
    #[cycle(space)]
    pub(crate) fn after(self, e: &Expression) -> Option<Space>
        ensures some { IfSome result (λ left. (left.nodes + nodes_of (expr_of e.now) ≡ self.nodes) × (left.places + extent (expr_of e.now) ≡ self.places)) }
        ensures none { IfNone result ((self.nodes < nodes_of (expr_of e.now)) ⊎ (self.places < extent (expr_of e.now))) }
    {
        match e {
            Expression::Number(_, _)
            | Expression::Truth(_, _)
            | Expression::Name(_)
            | Expression::Empty(_, _) => self.less(1),
            Expression::Parentheses(inner, _) => self.less(0)?.after(inner),
            Expression::Prefix(_, inner, _) | Expression::Select(inner, _, _) => {
                self.less(1)?.after(inner)
            }
            Expression::Binary(left, operator, right, _) => self
                .less(extent_beside(*operator))?
                .after(left)?
                .after(right),
            Expression::Make(_, fields) => self.less(1)?.after_all(fields),
        }
    }

    /// The space that expressions leave. None where there is not enough for them all.
    #[cycle(space)]
    fn after_all(self, expressions: &[Expression]) -> Option<Space>
        ensures some { IfSome result (λ left. (left.nodes + exprs_nodes (exprs_of expressions.now) ≡ self.nodes) × (left.places + exprs_extent (exprs_of expressions.now) ≡ self.places)) }
        ensures none { IfNone result ((self.nodes < exprs_nodes (exprs_of expressions.now)) ⊎ (self.places < exprs_extent (exprs_of expressions.now))) }
    {
        let mut left = self;
        for expression in expressions {
            left = left.after(expression)?;
        }
        Some(left)
    }
}
