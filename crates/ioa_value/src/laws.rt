//! What follows from the definitions alone.

ghost use Rattle.std.specs.Prelude.{◌≡◌, ◌↔◌, ◌⊎◌, ℕ, ◌<◌, true, List, All, length, Some, IsTrue};
ghost use Rattle.ioa_value.specs.Positions.{Domain, IsDomain, all_meet, all_take};
ghost use Rattle.ioa_value.specs.Plain.{Val};
ghost use Rattle.ioa_value.specs.Table.{Table, AreTypes};
ghost use Rattle.ioa_value.specs.Typing.{HasType, HaveTypes, first_of};
ghost use Rattle.ioa_value.specs.Operators.{operate, op_type, Takes, IsTypedAnswer};
ghost use Rattle.ioa_value.specs.Same.{same};
ghost use Rattle.ioa_value.specs.declared.operator.Op.{Op};
ghost use Rattle.ioa_value.specs.Actions.{Act};
ghost use Rattle.ioa_value.specs.Names.{IsName};
ghost use Rattle.ioa_value.specs.Written.{written_action};
ghost use Rattle.ioa_value.specs.Lists.{ReadsList, BadLine};
ghost use Rattle.ioa_value.specs.Reads.{Reads, IsTyped};

/// A list text has no bad line.
pub fn no_bad_line()
    ensures { (types : Table) (text : List ℕ) (acts : List Act) (n : ℕ) → ReadsList types text acts → BadLine types text n → ⊥ }
{}

/// A text is read as at most one action.
pub fn one_action()
    ensures { (types : Table) (text : List ℕ) (a b : Act) → AreTypes types → Reads types text a → Reads types text b → a ≡ b }
{}

/// A list text has one list of actions at most.
pub fn one_list()
    ensures { (types : Table) (text : List ℕ) (xs ys : List Act) → AreTypes types → ReadsList types text xs → ReadsList types text ys → xs ≡ ys }
{}

/// A list text has one bad line at most.
pub fn one_bad_line()
    ensures { (types : Table) (text : List ℕ) (m n : ℕ) → BadLine types text m → BadLine types text n → m ≡ n }
{}

/// A list text is a list of actions, or has a bad line.
pub fn list_or_bad_line()
    ensures { (types : Table) (text : List ℕ) → AreTypes types → ((acts : List Act) × ReadsList types text acts) ⊎ ((n : ℕ) × BadLine types text n) }
{}

/// What is written of an action with a legal name and typed values is read as that action.
pub fn written_is_read()
    ensures { (types : Table) (a : Act) → IsName a.name → All (IsTyped types) a.vals → Reads types (written_action types a) a }
{}

/// The first value of a type is one of the type's.
pub fn first_is_typed()
    ensures { (types : Table) (ty : ℕ) → AreTypes types → ty < length types → HasType types (first_of types ty) ty }
{}

/// Operands of the types that an operator takes are its operands, and what it gives of them is of the stated type.
pub fn operators_are_typed()
    ensures takes { (types : Table) (op : Op) (vs : List Val) (tys : List ℕ) (ty : ℕ) → AreTypes types → HaveTypes types vs tys → op_type types op tys ≡ Some ty → Takes types op vs }
    ensures gives { (types : Table) (op : Op) (vs : List Val) (tys : List ℕ) (ty : ℕ) → AreTypes types → HaveTypes types vs tys → op_type types op tys ≡ Some ty → IsTypedAnswer types ty (operate types op vs) }
{}

/// Two values are equal as computed exactly where they are equal.
pub fn same_is_equal()
    ensures { (v w : Val) → IsTrue (same v w) ↔ (v ≡ w) }
{}

/// Of positions with declared types and well typed constants: two lists meet exactly where some values may stand in both.
pub fn positions_meet()
    ensures some { (types : Table) (ds es : List Domain) → AreTypes types → All (IsDomain types) ds → All (IsDomain types) es → all_meet types ds es ≡ true → (vs : List Val) × (all_take types ds vs ≡ true) × (all_take types es vs ≡ true) }
    ensures only { (types : Table) (ds es : List Domain) (vs : List Val) → all_take types ds vs ≡ true → all_take types es vs ≡ true → all_meet types ds es ≡ true }
{}
