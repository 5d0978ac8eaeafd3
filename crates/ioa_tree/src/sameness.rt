//! Trees that are equal but for the lines on which their parts stand.

ghost use Rattle.std.specs.Prelude.{◌≡◌, ◌↔◌, IsTrue, map};
ghost use Rattle.std.specs.Option.{option_map};
ghost use Rattle.ioa_tree.specs.View.{expr_of, exprs_of, stmt_of, stmts_of, arm_of, arms_of};

use crate::tree::{
    Arm, Assembly, Automaton, Choice, Constant, Crash, Declaration, Entry, Expression, Field,
    Instance, Invariant, Name, Position, Proposal, Statement, Transition, TypeDeclaration,
    TypeForm, Variable,
};

/// Values that stand for trees.
pub trait Same {
    ghost Tree: { Type 0 };

    ghost tree: { Self → Tree };

    /// Whether they stand for one tree.
    fn same(&self, other: &Self) -> bool
        ensures { IsTrue result ↔ (tree self.now ≡ tree other.now) };
}

/// Whether the items stand for the same trees, one by one.
pub fn same_list<T: Same>(these: &[T], those: &[T]) -> bool
    ensures { IsTrue result ↔ (map T.tree these.now ≡ map T.tree those.now) }
{
    if these.len() != those.len() {
        return false;
    }
    for (i, this) in these.iter().enumerate() {
        if !this.same(&those[i]) {
            return false;
        }
    }
    true
}

impl Same for Name {
    ghost use Rattle.ioa_value.specs.Actions as actions;
    ghost use Rattle.ioa_tree.specs.View.{name_of};

    ghost Tree = { actions.Name };

    ghost tree = { name_of };

    fn same(&self, other: &Name) -> bool {
        self.is(other.text.as_str())
    }
}

#[cycle(same_expression)]
#[tactic(auto, using(crate::proofs::ExpressionRows::expr_made))]
fn same_expression(this: &Expression, that: &Expression) -> bool
    ensures { IsTrue result ↔ (expr_of this.now ≡ expr_of that.now) }
{
    match (this, that) {
        (Expression::Number(a, _), Expression::Number(b, _)) => a == b,
        (Expression::Truth(a, _), Expression::Truth(b, _)) => a == b,
        (Expression::Name(a), Expression::Name(b)) => a.same(b),
        (Expression::Parentheses(a, _), Expression::Parentheses(b, _)) => same_expression(a, b),
        (Expression::Prefix(o, a, _), Expression::Prefix(p, b, _)) => o == p
            && same_expression(a, b),
        (Expression::Binary(a, o, b, _), Expression::Binary(c, p, d, _)) => {
            o == p && same_expression(a, c) && same_expression(b, d)
        }
        (Expression::Empty(a, _), Expression::Empty(b, _)) => a.same(b),
        (Expression::Make(a, xs), Expression::Make(b, ys)) => a.same(b) && same_expressions(xs, ys),
        (Expression::Select(a, x, _), Expression::Select(b, y, _)) => {
            same_expression(a, b) && x.same(y)
        }
        _ => false,
    }
}

#[cycle(same_expression)]
fn same_expressions(these: &[Expression], those: &[Expression]) -> bool
    ensures { IsTrue result ↔ (exprs_of these.now ≡ exprs_of those.now) }
{
    if these.len() != those.len() {
        return false;
    }
    for (i, this) in these.iter().enumerate() {
        if !same_expression(this, &those[i]) {
            return false;
        }
    }
    true
}

impl Same for Expression {
    ghost use Rattle.ioa_tree.specs.Tree.{Expr};
    ghost use Rattle.ioa_tree.specs.View.{expr_of};

    ghost Tree = { Expr };

    ghost tree = { expr_of };

    fn same(&self, other: &Expression) -> bool {
        same_expression(self, other)
    }
}

fn same_option<T: Same>(this: &Option<T>, that: &Option<T>) -> bool
    ensures { IsTrue result ↔ (option_map T.tree this.now ≡ option_map T.tree that.now) }
{
    match (this, that) {
        (Some(a), Some(b)) => a.same(b),
        (None, None) => true,
        _ => false,
    }
}

impl Same for Field {
    ghost use Rattle.ioa_tree.specs.Tree.{FieldTree};
    ghost use Rattle.ioa_tree.specs.View.{field_of};

    ghost Tree = { FieldTree };

    ghost tree = { field_of };

    fn same(&self, other: &Field) -> bool {
        self.name.same(&other.name) && self.ty.same(&other.ty)
    }
}

impl Same for Constant {
    ghost use Rattle.ioa_tree.specs.Tree.{ConstantTree};
    ghost use Rattle.ioa_tree.specs.View.{constant_of};

    ghost Tree = { ConstantTree };

    ghost tree = { constant_of };

    fn same(&self, other: &Constant) -> bool {
        match (self, other) {
            (Constant::Number(a, _), Constant::Number(b, _)) => a == b,
            (Constant::Negative(a, _), Constant::Negative(b, _)) => a == b,
            (Constant::Truth(a, _), Constant::Truth(b, _)) => a == b,
            (Constant::Name(a), Constant::Name(b)) => a.same(b),
            _ => false,
        }
    }
}

impl Same for Position {
    ghost use Rattle.ioa_tree.specs.Tree.{PositionTree};
    ghost use Rattle.ioa_tree.specs.View.{position_of};

    ghost Tree = { PositionTree };

    ghost tree = { position_of };

    fn same(&self, other: &Position) -> bool {
        match (self, other) {
            (Position::Typed(a), Position::Typed(b)) => a.same(b),
            (Position::Constant(a), Position::Constant(b)) => a.same(b),
            _ => false,
        }
    }
}

impl Same for Entry {
    ghost use Rattle.ioa_tree.specs.Tree.{EntryTree};
    ghost use Rattle.ioa_tree.specs.View.{entry_of};

    ghost Tree = { EntryTree };

    ghost tree = { entry_of };

    fn same(&self, other: &Entry) -> bool {
        self.kind == other.kind
            && self.name.same(&other.name)
            && same_list(&self.positions, &other.positions)
    }
}

impl Same for Variable {
    ghost use Rattle.ioa_tree.specs.Tree.{VariableTree};
    ghost use Rattle.ioa_tree.specs.View.{variable_of};

    ghost Tree = { VariableTree };

    ghost tree = { variable_of };

    fn same(&self, other: &Variable) -> bool {
        self.stable == other.stable
            && self.field.same(&other.field)
            && same_option(&self.start, &other.start)
    }
}

impl Same for Choice {
    ghost use Rattle.ioa_tree.specs.Tree.{ChoiceTree};
    ghost use Rattle.ioa_tree.specs.View.{choice_of};

    ghost Tree = { ChoiceTree };

    ghost tree = { choice_of };

    fn same(&self, other: &Choice) -> bool {
        match (self, other) {
            (Choice::Value(a), Choice::Value(b)) => a.same(b),
            (Choice::Any(a, _), Choice::Any(b, _)) => a.same(b),
            _ => false,
        }
    }
}

impl Same for Proposal {
    ghost use Rattle.ioa_tree.specs.Tree.{ProposalTree};
    ghost use Rattle.ioa_tree.specs.View.{proposal_of};

    ghost Tree = { ProposalTree };

    ghost tree = { proposal_of };

    fn same(&self, other: &Proposal) -> bool {
        self.name.same(&other.name) && self.choice.same(&other.choice)
    }
}

#[cycle(same_statement)]
#[tactic(auto, using(crate::proofs::StatementRows::stmt_chosen, crate::proofs::StatementRows::stmt_looped))]
fn same_statement(this: &Statement, that: &Statement) -> bool
    ensures { IsTrue result ↔ (stmt_of this.now ≡ stmt_of that.now) }
{
    match (this, that) {
        (Statement::Assign(a, x), Statement::Assign(b, y)) => a.same(b) && x.same(y),
        (Statement::If(arms, others, _), Statement::If(those, rest, _)) => {
            same_arms(arms, those) && same_statements(others, rest)
        }
        (Statement::For(a, x, body, _), Statement::For(b, y, other, _)) => {
            a.same(b) && x.same(y) && same_statements(body, other)
        }
        _ => false,
    }
}

#[cycle(same_statement)]
fn same_statements(these: &[Statement], those: &[Statement]) -> bool
    ensures { IsTrue result ↔ (stmts_of these.now ≡ stmts_of those.now) }
{
    if these.len() != those.len() {
        return false;
    }
    for (i, this) in these.iter().enumerate() {
        if !same_statement(this, &those[i]) {
            return false;
        }
    }
    true
}

#[cycle(same_statement)]
fn same_arm(this: &Arm, that: &Arm) -> bool
    ensures { IsTrue result ↔ (arm_of this.now ≡ arm_of that.now) }
{
    this.condition.same(&that.condition) && same_statements(&this.statements, &that.statements)
}

#[cycle(same_statement)]
fn same_arms(these: &[Arm], those: &[Arm]) -> bool
    ensures { IsTrue result ↔ (arms_of these.now ≡ arms_of those.now) }
{
    if these.len() != those.len() {
        return false;
    }
    for (i, this) in these.iter().enumerate() {
        if !same_arm(this, &those[i]) {
            return false;
        }
    }
    true
}

impl Same for Statement {
    ghost use Rattle.ioa_tree.specs.Tree.{Stmt};
    ghost use Rattle.ioa_tree.specs.View.{stmt_of};

    ghost Tree = { Stmt };

    ghost tree = { stmt_of };

    fn same(&self, other: &Statement) -> bool {
        same_statement(self, other)
    }
}

impl Same for Transition {
    ghost use Rattle.ioa_tree.specs.Tree.{TransitionTree};
    ghost use Rattle.ioa_tree.specs.View.{transition_of};

    ghost Tree = { TransitionTree };

    ghost tree = { transition_of };

    fn same(&self, other: &Transition) -> bool {
        self.kind == other.kind
            && self.name.same(&other.name)
            && same_option(&self.pre, &other.pre)
            && same_list(&self.proposals, &other.proposals)
            && same_statements(&self.effect, &other.effect)
    }
}

impl Same for Automaton {
    ghost use Rattle.ioa_tree.specs.Tree.{AutomatonTree};
    ghost use Rattle.ioa_tree.specs.View.{automaton_of};

    ghost Tree = { AutomatonTree };

    ghost tree = { automaton_of };

    fn same(&self, other: &Automaton) -> bool {
        self.name.same(&other.name)
            && same_list(&self.formals, &other.formals)
            && same_list(&self.entries, &other.entries)
            && same_list(&self.variables, &other.variables)
            && same_list(&self.transitions, &other.transitions)
    }
}

impl Same for Crash {
    ghost use Rattle.ioa_tree.specs.Tree.{CrashTree};
    ghost use Rattle.ioa_tree.specs.View.{crash_of};

    ghost Tree = { CrashTree };

    ghost tree = { crash_of };

    fn same(&self, other: &Crash) -> bool {
        self.crash.same(&other.crash) && self.recover.same(&other.recover)
    }
}

impl Same for Instance {
    ghost use Rattle.ioa_tree.specs.Tree.{InstanceTree};
    ghost use Rattle.ioa_tree.specs.View.{instance_of};

    ghost Tree = { InstanceTree };

    ghost tree = { instance_of };

    fn same(&self, other: &Instance) -> bool {
        self.name.same(&other.name)
            && self.automaton.same(&other.automaton)
            && same_list(&self.arguments, &other.arguments)
            && same_option(&self.crash, &other.crash)
    }
}

impl Same for Assembly {
    ghost use Rattle.ioa_tree.specs.Tree.{CompositionTree};
    ghost use Rattle.ioa_tree.specs.View.{assembly_of};

    ghost Tree = { CompositionTree };

    ghost tree = { assembly_of };

    fn same(&self, other: &Assembly) -> bool {
        self.name.same(&other.name)
            && same_list(&self.instances, &other.instances)
            && same_list(&self.hidden, &other.hidden)
    }
}

impl Same for Invariant {
    ghost use Rattle.ioa_tree.specs.Tree.{InvariantTree};
    ghost use Rattle.ioa_tree.specs.View.{invariant_of};

    ghost Tree = { InvariantTree };

    ghost tree = { invariant_of };

    fn same(&self, other: &Invariant) -> bool {
        self.automaton.same(&other.automaton) && self.condition.same(&other.condition)
    }
}

impl Same for TypeForm {
    ghost use Rattle.ioa_tree.specs.Tree.{FormTree};
    ghost use Rattle.ioa_tree.specs.View.{type_form_of};

    ghost Tree = { FormTree };

    ghost tree = { type_form_of };

    fn same(&self, other: &TypeForm) -> bool {
        match (self, other) {
            (TypeForm::Enumeration(a), TypeForm::Enumeration(b)) => same_list(a, b),
            (TypeForm::Tuple(a), TypeForm::Tuple(b)) => same_list(a, b),
            (TypeForm::Sequence(m, a, _), TypeForm::Sequence(n, b, _)) => m == n && a.same(b),
            _ => false,
        }
    }
}

impl Same for TypeDeclaration {
    ghost use Rattle.ioa_tree.specs.Tree.{TypeTree};
    ghost use Rattle.ioa_tree.specs.View.{type_declaration_of};

    ghost Tree = { TypeTree };

    ghost tree = { type_declaration_of };

    fn same(&self, other: &TypeDeclaration) -> bool {
        self.name.same(&other.name) && self.form.same(&other.form)
    }
}

impl Same for Declaration {
    ghost use Rattle.ioa_tree.specs.Tree.{DeclarationTree};
    ghost use Rattle.ioa_tree.specs.View.{declaration_of};

    ghost Tree = { DeclarationTree };

    ghost tree = { declaration_of };

    fn same(&self, other: &Declaration) -> bool {
        match (self, other) {
            (Declaration::Type(a), Declaration::Type(b)) => a.same(b),
            (Declaration::Automaton(a), Declaration::Automaton(b)) => a.same(b),
            (Declaration::Composition(a), Declaration::Composition(b)) => a.same(b),
            (Declaration::Invariant(a), Declaration::Invariant(b)) => a.same(b),
            _ => false,
        }
    }
}
