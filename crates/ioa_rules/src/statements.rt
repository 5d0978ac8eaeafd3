//! The rules of effects: of what is asked in them, of what is assigned, and of loops.

ghost use Rattle.std.specs.Prelude.{◌≡◌};
ghost use Rattle.ioa_tree.specs.Tree.{assign};
ghost use Rattle.ioa_tree.specs.View.{name_of, expr_of, stmt_of, stmts_of, arm_of, arms_of};
ghost use Rattle.ioa_tree.specs.WellFormed as well_formed;
ghost use Rattle.ioa_rules.specs.Places as places;
ghost use Rattle.ioa_rules.specs.Places.{Enters};
ghost use Rattle.ioa_rules.specs.Scopes.{context};
ghost use Rattle.ioa_rules.specs.Verdicts.{Says, Finds};

use crate::expressions::{expect_type, type_of};
use crate::fields::find_type;
use crate::known_types::KnownTypes;
use crate::loops::{Loop, Loops};
use crate::name_set::NameSet;
use crate::positions::{is_taken, parameter_named};
use crate::scope::Scope;
use ioa_lex::Refusal;
use ioa_tree::{Arm, Automaton, Entry, Expression, Name, Statement};
use ioa_value::{Form, Ty};

/// Where statements stand: in the effect of an entry of an automaton, within loops, beside the global names.
#[derive(Clone, Copy)]
pub(crate) struct Place<'a, 'g> {
    pub(crate) known: KnownTypes<'a>,
    pub(crate) automaton: &'a Automaton,
    pub(crate) entry: &'a Entry,
    pub(crate) globals: &'a NameSet<'g>,
    pub(crate) loops: Loops<'a>,
}

impl<'a, 'g> Place<'a, 'g> {
    /// What expressions here may name.
    fn scope(&self) -> Scope<'a>
        ensures known { result.known ≡ self.now.known }
        ensures names { context result ≡ well_formed.scope_in (places.whole self.now) (places.early self.now) (places.globals self.now) (places.machine self.now) (places.entry self.now) (places.loops self.now) }
    {
        Scope::within(&self.known, self.automaton, self.entry, self.loops)
    }

    /// Whether a loop round this, a parameter, a formal, a variable or something global has this name.
    #[tactic(auto, using(crate::proofs::StatementLemmas::taken_is))]
    fn takes(&self, name: &Name) -> bool
        ensures { result ≡ well_formed.contains (places.taken self.now) (name_of name.now) }
    {
        let is_looped = self.loops.item(name).is_some();
        let is_given = parameter_named(&self.entry.positions, name).is_some();
        is_looped || is_given || is_taken(self.automaton, name, self.globals)
    }

    /// Where the statements of a loop stand, if the loop is well formed but for them: its name is new here, it goes over a
    /// sequence, and it is not within too many others. A line is that of the name, or of what it goes over.
    fn within(&self, name: &'a Name, items: &Expression) -> Result<Place<'a, 'g>, Refusal>
        ensures { Enters result self.now (name_of name.now) (expr_of items.now) }
    {
        if self.takes(name) {
            return Err(Refusal::DuplicateName(name.line));
        }
        let item = item_type(self, items)?;
        match self.loops.with(Loop { name, item }) {
            Some(loops) => Ok(Place { loops, ..*self }),
            None => Err(Refusal::TooMany(name.line)),
        }
    }
}

/// Whether each statement is well formed, also those within arms and loops.
#[cycle(statements)]
pub(crate) fn statements_fine<'a>(
    place: &Place<'a, '_>,
    statements: &'a [Statement],
) -> Result<(), Refusal>
    ensures { let ss = stmts_of statements.now in Says result (places.stmts_fine place.now ss) (places.in_stmts place.now ss) }
{
    for statement in statements {
        statement_fine(place, statement)?;
    }
    Ok(())
}

#[cycle(statements)]
fn statement_fine<'a>(place: &Place<'a, '_>, statement: &'a Statement) -> Result<(), Refusal>
    ensures { let s = stmt_of statement.now in Says result (places.stmt_fine place.now s) (places.in_stmt place.now s) }
{
    match statement {
        Statement::Assign(name, value) => assignment_fine(place, name, value),
        Statement::If(arms, others, _) => {
            arms_fine(place, arms)?;
            statements_fine(place, others)
        }
        Statement::For(name, items, body, _) => statements_fine(&place.within(name, items)?, body),
    }
}

/// Whether each arm is well formed.
#[cycle(statements)]
fn arms_fine<'a>(place: &Place<'a, '_>, arms: &'a [Arm]) -> Result<(), Refusal>
    ensures { let more = arms_of arms.now in Says result (places.arms_fine place.now more) (places.in_arms place.now more) }
{
    for arm in arms {
        arm_fine(place, arm)?;
    }
    Ok(())
}

/// Whether the condition is a truth value, and the statements after it are well formed.
#[cycle(statements)]
fn arm_fine<'a>(place: &Place<'a, '_>, arm: &'a Arm) -> Result<(), Refusal>
    ensures { let a = arm_of arm.now in Says result (places.arm_fine place.now a) (places.in_arm place.now a) }
{
    condition_fine(place, &arm.condition)?;
    statements_fine(place, &arm.statements)
}

/// The type of the items of what a loop goes over, where this is a sequence.
fn item_type(place: &Place, items: &Expression) -> Result<Ty, Refusal>
    ensures { let v = expr_of items.now in Finds result (places.item_in place.now v) (places.in_items place.now v) }
{
    let ty = type_of(&place.scope(), items)?;
    match place.known.types.form(ty) {
        Some(Form::Sequence(_, item)) => Ok(*item),
        _ => Err(Refusal::TypeMismatch(items.line())),
    }
}

/// Whether an assignment is to a variable, and of its type.
#[tactic(auto, using(crate::proofs::ViewLemmas::views))]
fn assignment_fine(place: &Place, name: &Name, value: &Expression) -> Result<(), Refusal>
    ensures { let s = assign (name_of name.now) (expr_of value.now) in Says result (places.stmt_fine place.now s) (places.in_stmt place.now s) }
{
    match find_type(&place.known, &place.automaton.variables, name) {
        Some(ty) => expect_type(&place.scope(), value, ty),
        None => Err(Refusal::UnknownName(name.line)),
    }
}

/// Whether a condition is a truth value.
fn condition_fine(place: &Place, condition: &Expression) -> Result<(), Refusal>
    ensures { let c = expr_of condition.now in Says result (places.condition_fine place.now c) (places.in_condition place.now c) }
{
    expect_type(&place.scope(), condition, Ty::BOOL)
}
