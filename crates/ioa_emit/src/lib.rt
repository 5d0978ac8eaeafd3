//! Code of expressions and of statements, as the compiler emits it: the places that names have in code, how long the code of a tree is,
//! and which code is a tree's.
#![tactic(auto)]

mod emitter;
mod extents;
mod name_places;
mod scope;

pub use emitter::{emit_expression, emit_guard, emit_statements, put};
pub use extents::{arms_extent, expression_extent, extent_beside, statements_extent};
pub use name_places::named_type;
pub use scope::Scope;
