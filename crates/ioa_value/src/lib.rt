//! Values and actions, the table of types, operators, limits, reserved words, and the texts of
//! values, actions and lists. A table of types begins with Bool and Int, each type names earlier
//! ones alone, its names are legal and differ, and none of its values is too wide. Each value has
//! just one type.
#![tactic(auto)]

// Limits, and what words may be names.
mod limits;
mod memory;
mod names;
mod spelling;
mod terminal;

// The table of types.
mod declarations;
mod parts;
mod types;

// Values and actions, by their types and positions.
mod action;
mod initial;
mod positions;
mod typing;
mod value;

// Operators.
mod application;
mod operands;
mod operator;
mod sequences;
mod stack;

// Texts of values, actions and lists.
mod lines;
mod listing;
mod reading;
mod scanning;
mod tokens;
mod writing;

// Laws.
mod laws;

pub use action::Action;
pub use application::{apply, apply_last, computed, field};
pub use declarations::Declarations;
pub use initial::first;
pub use ioa_arithmetic::{Fault, quotient_and_remainder};
pub use laws::{
    first_is_typed, list_or_bad_line, no_bad_line, one_action, one_bad_line, one_list,
    operators_are_typed, positions_meet, same_is_equal, written_is_read,
};
pub use limits::{LIMITS, Limits};
pub use lines::{ended_line, first_line};
pub use listing::{is_skipped, read_list};
pub use memory::OutOfMemory;
pub use names::is_name;
pub use operands::Operands;
pub use operator::{Op, grows, op_type};
pub use positions::{Position, all_meet, all_take};
pub use reading::read_action;
pub use terminal::Terminal;
pub use types::{Declared, Field, Form, Types};
pub use typing::has_type;
pub use value::{Ty, Value, copies, same, same_all};
pub use writing::{print_action, push_action, push_value};
