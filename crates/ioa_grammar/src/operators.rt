//! How operators bind, and how they are written.

ghost use Rattle.std.specs.Prelude.{◌≡◌, ◌<◌, find};
ghost use Rattle.ioa_grammar.specs.Operators as spec;
ghost use Rattle.ioa_grammar.specs.Reading as reading;

use ioa_lex::Terminal;
use ioa_tree::Infix;
use ioa_value::Op;

/// How tightly operators bind, from the loosest on.
#[derive(Clone, Copy)]
pub(crate) enum Level {
    Implication,
    Disjunction,
    Conjunction,
    Denial,
    Comparison,
    Sum,
    Product,
    Negation,
    Application,
}

/// Whether an operand may be an operator's of the same level: neither, the left one or the right one; or the operator
/// stands before its one operand, which may be; or around its operands.
#[derive(Clone, Copy)]
pub(crate) enum Grouping {
    Alone,
    Left,
    Right,
    Before,
    Around,
}

/// How an operator is written.
#[derive(Clone, Copy)]
pub(crate) struct Form {
    pub level: Level,
    pub word: Terminal,
}

/// All that stand between two expressions.
fn infixes() -> &'static [Infix]
    ensures { result.now ≡ spec.infixes }
{
    &[
        Infix::Implies,
        Infix::Or,
        Infix::And,
        Infix::Operator(Op::Eq),
        Infix::Operator(Op::Ne),
        Infix::Operator(Op::Lt),
        Infix::Operator(Op::Le),
        Infix::Operator(Op::Gt),
        Infix::Operator(Op::Ge),
        Infix::Operator(Op::Add),
        Infix::Operator(Op::Sub),
        Infix::Operator(Op::Mul),
        Infix::Operator(Op::Div),
        Infix::Operator(Op::Mod),
    ]
}

/// All that stand before one.
fn prefixes() -> &'static [Op]
    ensures { result.now ≡ spec.prefixes }
{
    &[Op::Not, Op::Neg]
}

/// All that are written around expressions: the word, then the expressions in parentheses.
fn enclosing() -> &'static [Op]
    ensures { result.now ≡ spec.enclosing }
{
    &[
        Op::Len,
        Op::Head,
        Op::Tail,
        Op::Last,
        Op::Init,
        Op::Append,
        Op::At,
        Op::Member,
        Op::Without,
    ]
}

/// Above every level.
pub(crate) const TIGHTEST: u32 = 10;

fn operator_form(operator: Op) -> Form
    ensures { result ≡ spec.operator_form operator }
{
    let (level, word) = match operator {
        Op::Not => (Level::Denial, Terminal::Not),
        Op::Eq => (Level::Comparison, Terminal::Equal),
        Op::Ne => (Level::Comparison, Terminal::NotEqual),
        Op::Lt => (Level::Comparison, Terminal::Less),
        Op::Le => (Level::Comparison, Terminal::LessEqual),
        Op::Gt => (Level::Comparison, Terminal::Greater),
        Op::Ge => (Level::Comparison, Terminal::GreaterEqual),
        Op::Add => (Level::Sum, Terminal::Plus),
        Op::Sub => (Level::Sum, Terminal::Minus),
        Op::Mul => (Level::Product, Terminal::Star),
        Op::Div => (Level::Product, Terminal::Div),
        Op::Mod => (Level::Product, Terminal::Mod),
        Op::Neg => (Level::Negation, Terminal::Minus),
        Op::Len => (Level::Application, Terminal::Len),
        Op::Head => (Level::Application, Terminal::Head),
        Op::Tail => (Level::Application, Terminal::Tail),
        Op::Last => (Level::Application, Terminal::Last),
        Op::Init => (Level::Application, Terminal::Init),
        Op::Append => (Level::Application, Terminal::Append),
        Op::At => (Level::Application, Terminal::At),
        Op::Member => (Level::Application, Terminal::Member),
        Op::Without => (Level::Application, Terminal::Without),
        Op::Make(_) => (Level::Application, Terminal::Open),
        Op::Field(_) => (Level::Application, Terminal::Dot),
    };
    Form { level, word }
}

fn form_of(operator: Infix) -> Form
    ensures { result ≡ spec.form_of operator }
{
    let (level, word) = match operator {
        Infix::Implies => (Level::Implication, Terminal::Implies),
        Infix::Or => (Level::Disjunction, Terminal::Or),
        Infix::And => (Level::Conjunction, Terminal::And),
        Infix::Operator(inner) => return operator_form(inner),
    };
    Form { level, word }
}

impl Level {
    fn number(self) -> u32
        ensures value { result ≡ spec.number_of self }
        ensures small { result < TIGHTEST }
    {
        match self {
            Level::Implication => 1,
            Level::Disjunction => 2,
            Level::Conjunction => 3,
            Level::Denial => 4,
            Level::Comparison => 5,
            Level::Sum => 6,
            Level::Product => 7,
            Level::Negation => 8,
            Level::Application => 9,
        }
    }

    fn grouping(self) -> Grouping
        ensures { result ≡ spec.grouping_of self }
    {
        match self {
            Level::Implication => Grouping::Right,
            Level::Disjunction | Level::Conjunction => Grouping::Left,
            Level::Denial => Grouping::Before,
            Level::Comparison => Grouping::Alone,
            Level::Sum | Level::Product => Grouping::Left,
            Level::Negation => Grouping::Before,
            Level::Application => Grouping::Around,
        }
    }
}

/// The word or sign.
pub fn word_of(operator: Infix) -> Terminal
    ensures { result ≡ spec.operator_word operator }
{
    form_of(operator).word
}

/// How tightly it binds.
pub(crate) fn level_of(operator: Infix) -> u32
    ensures { result ≡ spec.level_of operator }
{
    form_of(operator).level.number()
}

/// The least level of its right operand.
pub(crate) fn right_of(operator: Infix) -> u32
    ensures { result ≡ spec.right_of operator }
{
    let level = form_of(operator).level;
    match level.grouping() {
        Grouping::Alone | Grouping::Left => level.number() + 1,
        Grouping::Right | Grouping::Before | Grouping::Around => level.number(),
    }
}

/// The operators below this level may follow its right operand.
pub(crate) fn after_of(operator: Infix) -> u32
    ensures { result ≡ spec.after_of operator }
{
    let level = form_of(operator).level;
    match level.grouping() {
        Grouping::Left => level.number() + 1,
        Grouping::Alone | Grouping::Right | Grouping::Before | Grouping::Around => level.number(),
    }
}

/// Around how many expressions it is written, and 0 where it stands before its operand or between its operands.
pub(crate) fn encloses(operator: Infix) -> u32
    ensures { result ≡ spec.encloses operator }
{
    match operator {
        Infix::Operator(Op::Len | Op::Head | Op::Tail | Op::Last | Op::Init) => 1,
        Infix::Operator(Op::Append | Op::At | Op::Member | Op::Without) => 2,
        Infix::Implies | Infix::Or | Infix::And | Infix::Operator(_) => 0,
    }
}

/// Whether it is written around its operands.
pub fn stands_around(operator: Infix) -> bool
    ensures { result ≡ spec.stands_around operator }
{
    encloses(operator) != 0
}

/// The one of these that is written with this word or sign.
#[tactic(auto, unfolding(crate::specs::Reading::same_terminal))]
fn among(operators: &[Infix], terminal: Terminal) -> Option<Infix>
    ensures { result ≡ find (λ o. reading.same_terminal (spec.operator_word o) terminal) operators.now }
{
    for operator in operators {
        if word_of(*operator) == terminal {
            return Some(*operator);
        }
    }
    None
}

/// What stands between two expressions and is written with this word or sign.
#[tactic(auto, unfolding(crate::specs::Reading::operator_of))]
pub(crate) fn operator_of(terminal: Terminal) -> Option<Infix>
    ensures { result ≡ reading.operator_of terminal }
{
    among(infixes(), terminal)
}

/// The one of these that is written with this word or sign.
#[tactic(auto, unfolding(crate::specs::Reading::same_terminal))]
fn named(operators: &[Op], terminal: Terminal) -> Option<Op>
    ensures { result ≡ find (λ o. reading.same_terminal (spec.operator_word (Infix.Operator o)) terminal) operators.now }
{
    for operator in operators {
        if word_of(Infix::Operator(*operator)) == terminal {
            return Some(*operator);
        }
    }
    None
}

/// The operator that stands before an expression and is written with this word or sign.
#[tactic(auto, unfolding(crate::specs::Reading::prefix_of))]
pub(crate) fn prefix_of(terminal: Terminal) -> Option<Op>
    ensures { result ≡ reading.prefix_of terminal }
{
    named(prefixes(), terminal)
}

/// The operator that is written around expressions with this word.
#[tactic(auto, unfolding(crate::specs::Reading::around_of))]
pub(crate) fn around_of(terminal: Terminal) -> Option<Op>
    ensures { result ≡ reading.around_of terminal }
{
    named(enclosing(), terminal)
}
