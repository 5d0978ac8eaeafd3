//! The abstract syntax of the language: what the grammar reads, what rules judge, and what has a
//! meaning. Lines are kept for what is told of a tree, and mean nothing.

ghost use Rattle.std.specs.Prelude.{◌≡◌, Some};
ghost use Rattle.std.specs.Str.{bytes_eq};
ghost use Rattle.ioa_tree.specs.Components.{is_local};
ghost use Rattle.ioa_tree.specs.Tree.{expr_in};
ghost use Rattle.ioa_tree.specs.View.{first_line, constant_line, expr_of, choice_of, name_of};
ghost use Rattle.ioa_tree.specs.WellFormed.{is_input};

use ioa_value::Op;

/// A name as it stands in a source, with its line (from 1).
pub struct Name {
    pub text: String,
    pub line: u32,
}

/// Written out, so that who drops one calls this, and does not take it apart itself.
impl Drop for Name {
    fn drop(self) {
        let Name { text: _, line: _ } = self;
    }
}

impl Name {
    /// Whether the name is this text.
    pub fn is(&self, text: &str) -> bool
        ensures { result ≡ bytes_eq (name_of self.now) text.now }
    {
        self.text.as_str() == text
    }
}

/// An operator on two operands. All but those that are written around their operands stand between them.
#[derive(Clone, Copy, PartialEq, Eq, Debug)]
pub enum Infix {
    /// An operator on the values of both.
    Operator(Op),
    /// `/\`, which asks for its second operand where the first is true.
    And,
    /// `\/`, which asks for its second operand where the first is false.
    Or,
    /// `=>`, which asks for its second operand where the first is true.
    Implies,
}

/// An expression, with the line of its first token.
pub enum Expression {
    Number(u64, u32),
    Truth(bool, u32),
    Name(Name),
    Parentheses(Box<Expression>, u32),
    /// An operator on one operand: before it, as `-x`, or around it, as `len(s)`.
    Prefix(Op, Box<Expression>, u32),
    /// An operator on two operands: between them, as `x + y`, or around them, as `append(s, x)`.
    Binary(Box<Expression>, Infix, Box<Expression>, u32),
    /// The empty sequence of a type.
    Empty(Name, u32),
    /// A tuple of a type, of these fields.
    Make(Name, Vec<Expression>),
    /// A field of a tuple.
    Select(Box<Expression>, Name, u32),
}

/// Written out, so that who drops one calls this, and does not take it apart itself.
impl Drop for Expression {
    fn drop(self) {
        match self {
            Expression::Number(_, _) => {}
            Expression::Truth(_, _) => {}
            Expression::Name(_) => {}
            Expression::Parentheses(_, _) => {}
            Expression::Prefix(_, _, _) => {}
            Expression::Binary(_, _, _, _) => {}
            Expression::Empty(_, _) => {}
            Expression::Make(_, _) => {}
            Expression::Select(_, _, _) => {}
        }
    }
}

impl Expression {
    /// The line of its first token.
    pub fn line(&self) -> u32
        ensures { result ≡ first_line self.now }
    {
        match self {
            Expression::Name(name) | Expression::Make(name, _) => name.line,
            Expression::Number(_, line)
            | Expression::Truth(_, line)
            | Expression::Parentheses(_, line)
            | Expression::Prefix(_, _, line)
            | Expression::Binary(_, _, _, line)
            | Expression::Empty(_, line)
            | Expression::Select(_, _, line) => *line,
        }
    }
}

/// A name and the name of its type: a formal parameter, a variable or a parameter of an entry.
#[derive(Drop)]
pub struct Field {
    pub name: Name,
    pub ty: Name,
}

/// Whether an automaton takes an action from its environment, offers it, or keeps it to itself.
#[derive(Clone, Copy, PartialEq, Eq, Debug)]
pub enum Kind {
    Input,
    Output,
    Internal,
}

impl Kind {
    /// Whether the action comes from the environment of its automaton.
    pub fn is_input(self) -> bool
        ensures { result ≡ is_input self }
    {
        self == Kind::Input
    }

    /// Whether the action is its automaton's own: an output, or internal.
    pub fn is_local(self) -> bool
        ensures { result ≡ is_local (Some self) }
    {
        self != Kind::Input
    }
}

/// The constant of a position, with the line of its first token.
#[derive(Drop)]
pub enum Constant {
    Number(u64, u32),
    /// A number after `-`.
    Negative(u64, u32),
    Truth(bool, u32),
    /// A formal, or a name of an enumeration.
    Name(Name),
}

impl Constant {
    /// The line of its first token.
    pub fn line(&self) -> u32
        ensures { result ≡ constant_line self.now }
    {
        match self {
            Constant::Name(name) => name.line,
            Constant::Number(_, line) | Constant::Negative(_, line) | Constant::Truth(_, line) => {
                *line
            }
        }
    }
}

/// A position of a signature's entry.
#[derive(Drop)]
pub enum Position {
    /// A parameter, which stands for any value of its type.
    Typed(Field),
    /// One value only: a constant has no name.
    Constant(Constant),
}

/// An entry of a signature.
#[derive(Drop)]
pub struct Entry {
    pub kind: Kind,
    pub name: Name,
    pub positions: Vec<Position>,
}

/// A state variable. Without a start expression it starts at the first value of its type.
#[derive(Drop)]
pub struct Variable {
    /// Whether a crash keeps its value.
    pub stable: bool,
    pub field: Field,
    pub start: Option<Expression>,
}

/// What a proposal gives its parameter.
#[derive(Drop)]
pub enum Choice {
    /// The expression's value.
    Value(Expression),
    /// Any number from 0 that is below the expression's value. It keeps the line of `any`.
    Any(Expression, u32),
}

impl Choice {
    /// The expression that it asks for.
    pub fn expression(&self) -> &Expression
        ensures { expr_of result.now ≡ expr_in (choice_of self.now) }
    {
        match self {
            Choice::Value(expression) | Choice::Any(expression, _) => expression,
        }
    }
}

/// Which value of a parameter to try.
#[derive(Drop)]
pub struct Proposal {
    pub name: Name,
    pub choice: Choice,
}

/// A statement of an effect.
#[derive(Drop)]
#[cycle(statement)]
pub enum Statement {
    Assign(Name, Expression),
    /// The first arm whose condition is true, and otherwise the statements after `else`. It keeps the line of `if`.
    If(Vec<Arm>, Vec<Statement>, u32),
    /// The statements once for each item of a sequence, in order, with the name for the item. It keeps the line of `for`.
    For(Name, Expression, Vec<Statement>, u32),
}

/// A condition, and what is done where it is true.
#[derive(Drop)]
#[cycle(statement)]
pub struct Arm {
    pub condition: Expression,
    pub statements: Vec<Statement>,
}

/// The transition of an entry.
#[derive(Drop)]
pub struct Transition {
    pub kind: Kind,
    pub name: Name,
    pub pre: Option<Expression>,
    pub proposals: Vec<Proposal>,
    pub effect: Vec<Statement>,
}

/// An automaton: signature, state and transitions.
pub struct Automaton {
    pub name: Name,
    pub formals: Vec<Field>,
    pub entries: Vec<Entry>,
    pub variables: Vec<Variable>,
    pub transitions: Vec<Transition>,
}

/// Written out, so that who drops one calls this, and does not take it apart itself.
impl Drop for Automaton {
    fn drop(self) {
        let Automaton {
            name: _,
            formals: _,
            entries: _,
            variables: _,
            transitions: _,
        } = self;
    }
}

/// The names of the actions by which a component crashes and recovers.
#[derive(Drop)]
pub struct Crash {
    pub crash: Name,
    pub recover: Name,
}

/// A component of a composition: an automaton with its arguments.
#[derive(Drop)]
pub struct Instance {
    pub name: Name,
    pub automaton: Name,
    pub arguments: Vec<Expression>,
    /// Where it is there, the component crashes and recovers.
    pub crash: Option<Crash>,
}

/// A composition as it is declared.
#[derive(Drop)]
pub struct Assembly {
    pub name: Name,
    pub instances: Vec<Instance>,
    /// The names of the outputs that are hidden.
    pub hidden: Vec<Name>,
}

/// What a type is declared to be.
#[derive(Drop)]
pub enum TypeForm {
    /// The names of an enumeration.
    Enumeration(Vec<Name>),
    /// The fields of a tuple.
    Tuple(Vec<Field>),
    /// At most so many items of a type; with the line of the number.
    Sequence(u64, Name, u32),
}

/// A type as it is declared.
#[derive(Drop)]
pub struct TypeDeclaration {
    pub name: Name,
    pub form: TypeForm,
}

/// An invariant as it is declared: what is to be true of each component of an automaton in each state.
#[derive(Drop)]
pub struct Invariant {
    pub automaton: Name,
    /// A condition on the automaton's variables and formals.
    pub condition: Expression,
}

/// A declaration of a source.
#[derive(Drop)]
pub enum Declaration {
    Type(TypeDeclaration),
    Automaton(Automaton),
    Composition(Assembly),
    Invariant(Invariant),
}
