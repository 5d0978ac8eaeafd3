//! Whether programs are equal, by value.

ghost use Rattle.std.specs.Prelude.{◌≡◌, ◌↔◌, IsTrue, map, slice_get};
ghost use Rattle.std.specs.Option.{option_map};

use crate::program::Program;
use crate::table::{Entry, Member};
use ioa_code::Instr;
use ioa_node::{Decoded, NodeState};
use ioa_value::{Declared, Field, Form, Op, Position, Ty, Types, Value, same};

impl Program {
    /// Whether two programs are equal: their types, names, start states and code, and the names that are hidden.
    pub fn same(&self, other: &Program) -> bool
        ensures { IsTrue result ↔ (self.now ≡ other.now) }
    {
        self.is_named_like(other) && are_alike(self.members(), other.members())
    }

    /// Whether their types, their names and their hidden names are equal.
    fn is_named_like(&self, other: &Program) -> bool
        ensures { IsTrue result ↔ ((self.now.types ≡ other.now.types) × (self.now.name ≡ other.now.name) × (self.now.hidden ≡ other.now.hidden)) }
    {
        self.name() == other.name()
            && self.types().is_like(other.types())
            && are_alike(self.hidden(), other.hidden())
    }
}

/// Parts of programs. The trait is of this crate, since most of the types are not.
pub(crate) trait Alike {
    ghost Part: { Type 0 };

    ghost part: { Self → Part };

    /// Whether these parts tell no two programs apart.
    fn is_like(&self, other: &Self) -> bool
        ensures { IsTrue result ↔ (part self.now ≡ part other.now) };
}

/// Whether the parts are alike, one by one.
pub(crate) fn are_alike<T: Alike>(these: &[T], those: &[T]) -> bool
    ensures { IsTrue result ↔ (map T.part these.now ≡ map T.part those.now) }
{
    if these.len() != those.len() {
        return false;
    }
    for (i, this) in these.iter().enumerate() {
        if !this.is_like(&those[i]) {
            return false;
        }
    }
    true
}

fn are_both<T: Alike>(this: &Option<T>, that: &Option<T>) -> bool
    ensures { IsTrue result ↔ (option_map T.part this.now ≡ option_map T.part that.now) }
{
    match (this, that) {
        (Some(a), Some(b)) => a.is_like(b),
        (None, None) => true,
        _ => false,
    }
}

impl Alike for String {
    ghost use Rattle.std.specs.String.{string_bytes};
    ghost use Rattle.ioa_value.specs.Actions.{Name};

    ghost Part = { Name };

    ghost part = { string_bytes };

    fn is_like(&self, other: &String) -> bool {
        self.as_str() == other.as_str()
    }
}

impl Alike for Ty {
    ghost use Rattle.std.specs.Prelude.{ℕ};
    ghost use Rattle.ioa_value.specs.Plain.{number};

    ghost Part = { ℕ };

    ghost part = { number };

    fn is_like(&self, other: &Ty) -> bool {
        self.0 == other.0
    }
}

impl Alike for Field {
    ghost use Rattle.ioa_value.specs.Table.{TupleField};
    ghost use Rattle.ioa_value.specs.Shapes.{tuple_field};

    ghost Part = { TupleField };

    ghost part = { tuple_field };

    fn is_like(&self, other: &Field) -> bool {
        self.name.is_like(&other.name) && self.ty.is_like(&other.ty)
    }
}

impl Alike for Form {
    ghost use Rattle.ioa_value.specs.Table.{Shape};
    ghost use Rattle.ioa_value.specs.Shapes.{shape};

    ghost Part = { Shape };

    ghost part = { shape };

    fn is_like(&self, other: &Form) -> bool {
        match (self, other) {
            (Form::Truths, Form::Truths) | (Form::Numbers, Form::Numbers) => true,
            (Form::Names(a), Form::Names(b)) => are_alike(a, b),
            (Form::Fields(a), Form::Fields(b)) => are_alike(a, b),
            (Form::Sequence(a, of), Form::Sequence(b, like)) => a == b && of.is_like(like),
            _ => false,
        }
    }
}

impl Alike for Declared {
    ghost use Rattle.ioa_value.specs.Table.{Declaration};
    ghost use Rattle.ioa_value.specs.Shapes.{declaration};

    ghost Part = { Declaration };

    ghost part = { declaration };

    fn is_like(&self, other: &Declared) -> bool {
        self.name.is_like(&other.name) && self.form.is_like(&other.form)
    }
}

impl Alike for Types {
    ghost use Rattle.ioa_value.specs.Table.{Table};

    ghost Part = { Table };

    ghost part = { λ types. types };

    fn is_like(&self, other: &Types) -> bool {
        if self.len() != other.len() {
            return false;
        }
        for number in 0..self.len() {
            if !is_like_at(self, other, Ty(number as u16)) {
                return false;
            }
        }
        true
    }
}

impl Alike for Value {
    ghost use Rattle.ioa_value.specs.Plain.{Val, plain};

    ghost Part = { Val };

    ghost part = { plain };

    fn is_like(&self, other: &Value) -> bool {
        same(self, other)
    }
}

impl Alike for Position {
    ghost use Rattle.ioa_value.specs.Positions.{Domain, domain_of};

    ghost Part = { Domain };

    ghost part = { domain_of };

    fn is_like(&self, other: &Position) -> bool {
        match (self, other) {
            (Position::Typed(a), Position::Typed(b)) => a.is_like(b),
            (Position::Constant(a), Position::Constant(b)) => a.is_like(b),
            _ => false,
        }
    }
}

impl Alike for Op {
    ghost use Rattle.ioa_value.specs.declared.operator.Op.{Op};

    ghost Part = { Op };

    ghost part = { λ op. op };

    // by a match on both: in a proof, `==` is each of the 24 kinds beside each, and this 24 pairs
    fn is_like(&self, other: &Op) -> bool {
        match (self, other) {
            (Op::Neg, Op::Neg)
            | (Op::Add, Op::Add)
            | (Op::Sub, Op::Sub)
            | (Op::Mul, Op::Mul)
            | (Op::Div, Op::Div)
            | (Op::Mod, Op::Mod)
            | (Op::Lt, Op::Lt)
            | (Op::Le, Op::Le)
            | (Op::Gt, Op::Gt)
            | (Op::Ge, Op::Ge)
            | (Op::Not, Op::Not)
            | (Op::Eq, Op::Eq)
            | (Op::Ne, Op::Ne)
            | (Op::Len, Op::Len)
            | (Op::Head, Op::Head)
            | (Op::Tail, Op::Tail)
            | (Op::Last, Op::Last)
            | (Op::Init, Op::Init)
            | (Op::Append, Op::Append)
            | (Op::At, Op::At)
            | (Op::Member, Op::Member)
            | (Op::Without, Op::Without) => true,
            (Op::Make(a), Op::Make(b)) => a.is_like(b),
            (Op::Field(a), Op::Field(b)) => a == b,
            _ => false,
        }
    }
}

impl Alike for Instr {
    ghost use Rattle.ioa_code.specs.declared.instr.Instr.{Instr};

    ghost Part = { Instr };

    ghost part = { λ instr. instr };

    fn is_like(&self, other: &Instr) -> bool {
        match (self, other) {
            (Instr::Const(a), Instr::Const(b))
            | (Instr::Slot(a), Instr::Slot(b))
            | (Instr::Arg(a), Instr::Arg(b))
            | (Instr::Store(a), Instr::Store(b))
            | (Instr::Jump(a), Instr::Jump(b))
            | (Instr::JumpIfFalse(a), Instr::JumpIfFalse(b))
            | (Instr::Each(a), Instr::Each(b))
            | (Instr::Again(a), Instr::Again(b))
            | (Instr::Local(a), Instr::Local(b)) => a == b,
            (Instr::Any, Instr::Any) => true,
            (Instr::Pick(a), Instr::Pick(b)) => a.is_like(b),
            (Instr::Apply(a), Instr::Apply(b)) => a.is_like(b),
            _ => false,
        }
    }
}

/// Of code its instructions alone tell: its types are its component's, and its constants its entry's.
impl Alike for Decoded {
    ghost use Rattle.std.specs.Prelude.{List};
    ghost use Rattle.ioa_code.specs.declared.instr.Instr.{Instr};
    ghost use Rattle.ioa_compile.specs.Outlines.{instrs_of};

    ghost Part = { List Instr };

    ghost part = { instrs_of };

    fn is_like(&self, other: &Decoded) -> bool {
        are_alike(self.code().instrs(), other.code().instrs())
    }
}

impl Alike for NodeState {
    ghost use Rattle.ioa_parts.specs.Nodes.{Node};

    ghost Part = { Node };

    ghost part = { λ state. state };

    fn is_like(&self, other: &NodeState) -> bool {
        self.declared().is_like(other.declared())
            && are_alike(self.types(), other.types())
            && self.same(other)
    }
}

impl Alike for Entry {
    ghost use Rattle.ioa_compile.specs.Outlines.{EntryOutline, outline_of};

    ghost Part = { EntryOutline };

    ghost part = { outline_of };

    fn is_like(&self, other: &Entry) -> bool {
        self.kind == other.kind
            && self.name.is_like(&other.name)
            && are_alike(&self.positions, &other.positions)
            && are_both(&self.pre, &other.pre)
            && are_both(&self.propose, &other.propose)
            && self.effect.is_like(&other.effect)
            && are_alike(self.effect.code().consts(), other.effect.code().consts())
    }
}

impl Alike for Member {
    ghost use Rattle.ioa_compile.specs.Outlines.{MemberOutline, outlined};

    ghost Part = { MemberOutline };

    ghost part = { outlined };

    fn is_like(&self, other: &Member) -> bool {
        self.name.is_like(&other.name)
            && self.start.is_like(&other.start)
            && are_alike(&self.entries, &other.entries)
    }
}

/// Whether the type of this number is the same in both.
fn is_like_at(these: &Types, those: &Types, ty: Ty) -> bool
    ensures { IsTrue result ↔ (slice_get these.now ty.0 ≡ slice_get those.now ty.0) }
{
    match (these.declared(ty), those.declared(ty)) {
        (Some(a), Some(b)) => a.is_like(b),
        (None, None) => true,
        _ => false,
    }
}
