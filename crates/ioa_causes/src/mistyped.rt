//! Which type is wanted and which is found where a source breaks a rule of types.

ghost use Rattle.std.specs.Prelude.{◌≡◌, ◌++◌, IfOk, IfSome, OnOk, Some, [], codes, map, slice_get};
ghost use Rattle.std.specs.Option.{option_map_or};
ghost use Rattle.std.specs.String.{string_bytes};
ghost use Rattle.ioa_value.specs.Shapes.{tuple_field};
ghost use Rattle.ioa_value.specs.Table as table;
ghost use Rattle.ioa_tree.specs.Names.{LegalNames};
ghost use Rattle.ioa_tree.specs.Types.{types_of};
ghost use Rattle.ioa_tree.specs.View.{expr_of, name_of, tree_of};
ghost use Rattle.ioa_causes.specs.declared.typing.Scope.{Scope};
ghost use Rattle.ioa_causes.specs.Typing as spec;
ghost use Rattle.ioa_causes.specs.Typing.{IsFound, IsFoundOver};
ghost use Rattle.ioa_causes.specs.Words.{quoted};

use crate::misfits::put_token;
use crate::signatures::entry_of;
use crate::typing::{Misfit, Part, Scope, Wanted, misfit_of, misfit_within};
use ioa_lex::Token;
use ioa_rules::{Loop, Loops, automaton_named, source_fine};
use ioa_syntax::Refusal;
use ioa_tree::{
    Arm, Assembly, Automaton, Choice, Declaration, Entry, Expression, Invariant, Name, Position,
    Statement, Transition,
};
use ioa_value::{Field, Form, OutOfMemory, Ty, Types};
use std::alloc::Global;
use std::fmt::Write;

/// Which type is wanted at the token of this index, and which is found. None, where that is not known.
pub fn mistyped_words(
    alloc: Global,
    declarations: &[Declaration],
    tokens: &[Token],
    index: u32,
) -> Result<Option<String>, OutOfMemory>
    requires { LegalNames (tree_of declarations.now) }
    ensures { IfOk result (λ found. IfSome found (λ words. spec.TellsMistyped tokens.now declarations.now (string_bytes words))) }
{
    let place = place_of(declarations, index).min(declarations.len());
    let Some(types) = types_before(alloc, &declarations[..place])? else {
        return Ok(None);
    };
    let Some(declaration) = declarations.get(place) else {
        return Ok(None);
    };
    match misfit_in(&types, declarations, declaration, index) {
        Some(misfit) => Ok(Some(misfit_words(alloc, &types, tokens, &misfit)?)),
        None => Ok(None),
    }
}

/// Which declaration the token of this index stands in: the last one that is named up to it.
fn place_of(declarations: &[Declaration], index: u32) -> usize {
    let mut place = 0;
    for (at, declaration) in declarations.iter().enumerate() {
        if name_of(declaration).line <= index {
            place = at;
        }
    }
    place
}

fn name_of(declaration: &Declaration) -> &Name {
    match declaration {
        Declaration::Type(declared) => &declared.name,
        Declaration::Automaton(automaton) => &automaton.name,
        Declaration::Composition(assembly) => &assembly.name,
        Declaration::Invariant(invariant) => &invariant.automaton,
    }
}

/// The types that these declarations know. None, where they break a rule themselves.
fn types_before(alloc: Global, front: &[Declaration]) -> Result<Option<Types>, OutOfMemory>
    requires { LegalNames (tree_of front.now) }
    ensures { IfOk result (λ found. IfSome found (λ types. types ≡ types_of (tree_of front.now))) }
{
    match source_fine(alloc, front) {
        Ok(types) => Ok(Some(types)),
        Err(Refusal::OutOfMemory) => Err(OutOfMemory),
        Err(_) => Ok(None),
    }
}

/// How a declaration breaks a rule of types at the token of this index.
fn misfit_in<'a>(
    types: &'a Types,
    declarations: &'a [Declaration],
    declaration: &'a Declaration,
    index: u32,
) -> Option<Misfit<'a>>
    ensures { IfSome result (IsFoundOver types.now) }
{
    match declaration {
        Declaration::Type(_) => None,
        Declaration::Automaton(automaton) => Places {
            types,
            automaton,
            index,
        }
        .misfit(),
        Declaration::Composition(assembly) => in_arguments(types, assembly, index),
        Declaration::Invariant(invariant) => in_invariant(types, declarations, invariant, index),
    }
}

/// The misfit over these names, where it is the one at the token of this index.
fn at_index<'a>(scope: &Scope<'a>, misfit: Misfit<'a>, index: u32) -> Option<Misfit<'a>>
    requires { IsFound scope.now misfit }
    ensures { IfSome result (IsFoundOver scope.now.types.now) }
{
    if misfit.index() == index {
        Some(misfit)
    } else {
        None
    }
}

fn in_arguments<'a>(types: &'a Types, assembly: &'a Assembly, index: u32) -> Option<Misfit<'a>>
    ensures { IfSome result (IsFoundOver types.now) }
{
    let scope = Scope {
        types,
        variables: &[],
        formals: &[],
        positions: &[],
        loops: Loops::None,
    };
    for instance in &assembly.instances {
        for argument in &instance.arguments {
            if let Some(misfit) = misfit_within(&scope, argument)
                && let Some(found) = at_index(&scope, misfit, index)
            {
                return Some(found);
            }
        }
    }
    None
}

fn in_invariant<'a>(
    types: &'a Types,
    declarations: &'a [Declaration],
    invariant: &'a Invariant,
    index: u32,
) -> Option<Misfit<'a>>
    ensures { IfSome result (IsFoundOver types.now) }
{
    let automaton = automaton_named(declarations, &invariant.automaton)?;
    let scope = Scope {
        types,
        variables: &automaton.variables,
        formals: &automaton.formals,
        positions: &[],
        loops: Loops::None,
    };
    let misfit = misfit_of(&scope, Part::Invariant, Ty::BOOL, &invariant.condition)?;
    at_index(&scope, misfit, index)
}

/// The places of an automaton that want expressions of a type, of which one breaks a rule at the token of this index.
#[derive(Clone, Copy)]
struct Places<'a> {
    types: &'a Types,
    automaton: &'a Automaton,
    index: u32,
}

impl<'a> Places<'a> {
    /// How the automaton breaks a rule of types there.
    fn misfit(&self) -> Option<Misfit<'a>>
        ensures { IfSome result (IsFoundOver self.now.types.now) }
    {
        let found = self.in_starts();
        if found.is_some() {
            return found;
        }
        for transition in &self.automaton.transitions {
            let found = self.in_transition(transition);
            if found.is_some() {
                return found;
            }
        }
        None
    }

    /// What the expressions of an entry may name, or of start values, where there is none.
    fn scope(&self, positions: &'a [Position], loops: Loops<'a>) -> Scope<'a>
        ensures { result.types.now ≡ self.now.types.now }
    {
        Scope {
            types: self.types,
            variables: &self.automaton.variables,
            formals: &self.automaton.formals,
            positions,
            loops,
        }
    }

    /// How an expression breaks a rule there, of which a part wants this type.
    fn in_part(
        &self,
        scope: &Scope<'a>,
        part: Part<'a>,
        wanted: Ty,
        expression: &'a Expression,
    ) -> Option<Misfit<'a>>
        ensures { IfSome result (IsFoundOver scope.now.types.now) }
    {
        let misfit = misfit_of(scope, part, wanted, expression)?;
        at_index(scope, misfit, self.index)
    }

    fn in_starts(&self) -> Option<Misfit<'a>>
        ensures { IfSome result (IsFoundOver self.now.types.now) }
    {
        let scope = Scope {
            types: self.types,
            variables: &[],
            formals: &self.automaton.formals,
            positions: &[],
            loops: Loops::None,
        };
        for variable in &self.automaton.variables {
            let field = &variable.field;
            if let Some(start) = &variable.start
                && let Some(ty) = self.types.named(field.ty.text.as_str())
            {
                let found = self.in_part(&scope, Part::Named(&field.name), ty, start);
                if found.is_some() {
                    return found;
                }
            }
        }
        None
    }

    fn in_transition(&self, transition: &'a Transition) -> Option<Misfit<'a>>
        ensures { IfSome result (IsFoundOver self.now.types.now) }
    {
        let entry = entry_of(self.automaton, &transition.name)?;
        let scope = self.scope(&entry.positions, Loops::None);
        if let Some(pre) = &transition.pre {
            let found = self.in_part(&scope, Part::Precondition, Ty::BOOL, pre);
            if found.is_some() {
                return found;
            }
        }
        let found = self.in_proposals(entry, transition);
        if found.is_some() {
            return found;
        }
        self.in_statements(&scope, &transition.effect)
    }

    fn in_proposals(&self, entry: &'a Entry, transition: &'a Transition) -> Option<Misfit<'a>>
        ensures { IfSome result (IsFoundOver self.now.types.now) }
    {
        for proposal in &transition.proposals {
            let name = &proposal.name;
            if let Some(ty) = parameter_type(self.types, entry, name) {
                let found = self.in_choice(name, ty, &proposal.choice);
                if found.is_some() {
                    return found;
                }
            }
        }
        None
    }

    /// How a proposal for the parameter of this name and type breaks a rule there.
    fn in_choice(&self, name: &'a Name, ty: Ty, choice: &'a Choice) -> Option<Misfit<'a>>
        ensures { IfSome result (IsFoundOver self.now.types.now) }
    {
        let scope = self.scope(&[], Loops::None);
        match choice {
            Choice::Value(value) => self.in_part(&scope, Part::Named(name), ty, value),
            Choice::Any(_, index) if ty.0 != Ty::INT.0 => {
                at_index(&scope, Misfit::Any(name, ty, *index), self.index)
            }
            Choice::Any(bound, _) => self.in_part(&scope, Part::Bound, Ty::INT, bound),
        }
    }

    #[cycle(statements)]
    fn in_statements(&self, scope: &Scope<'a>, statements: &'a [Statement]) -> Option<Misfit<'a>>
        ensures { IfSome result (IsFoundOver scope.now.types.now) }
    {
        for statement in statements {
            let found = self.in_statement(scope, statement);
            if found.is_some() {
                return found;
            }
        }
        None
    }

    #[cycle(statements)]
    fn in_statement(&self, scope: &Scope<'a>, statement: &'a Statement) -> Option<Misfit<'a>>
        ensures { IfSome result (IsFoundOver scope.now.types.now) }
    {
        match statement {
            Statement::Assign(name, value) => {
                let ty = variable_type(self.types, self.automaton, name)?;
                self.in_part(scope, Part::Named(name), ty, value)
            }
            Statement::If(arms, others, _) => {
                let found = self.in_arms(scope, arms);
                if found.is_some() {
                    return found;
                }
                self.in_statements(scope, others)
            }
            Statement::For(name, items, body, _) => match scope.type_of(items) {
                Some(ty) => match item_type(self.types, ty) {
                    Some(item) => {
                        let loops = scope.loops.with(Loop { name, item })?;
                        self.in_statements(&Scope { loops, ..*scope }, body)
                    }
                    None => at_index(scope, no_items(items, ty), self.index),
                },
                None => at_index(scope, misfit_within(scope, items)?, self.index),
            },
        }
    }

    #[cycle(statements)]
    fn in_arms(&self, scope: &Scope<'a>, arms: &'a [Arm]) -> Option<Misfit<'a>>
        ensures { IfSome result (IsFoundOver scope.now.types.now) }
    {
        for arm in arms {
            let found = self.in_part(scope, Part::Condition, Ty::BOOL, &arm.condition);
            if found.is_some() {
                return found;
            }
            let found = self.in_statements(scope, &arm.statements);
            if found.is_some() {
                return found;
            }
        }
        None
    }
}

/// What a loop goes over is of this type, which has no items.
fn no_items(items: &Expression, found: Ty) -> Misfit<'_>
    ensures { (s : Scope) → spec.type_in s (expr_of items.now) ≡ Some found.0 → IsFound s result }
{
    Misfit::Type {
        part: Part::Word(ioa_lex::Terminal::For),
        wanted: Wanted::Sequence,
        expression: items,
        found,
    }
}

fn item_type(types: &Types, ty: Ty) -> Option<Ty> {
    match types.form(ty) {
        Some(Form::Sequence(_, item)) => Some(*item),
        _ => None,
    }
}

fn variable_type(types: &Types, automaton: &Automaton, name: &Name) -> Option<Ty> {
    for variable in &automaton.variables {
        if variable.field.name.is(name.text.as_str()) {
            return types.named(variable.field.ty.text.as_str());
        }
    }
    None
}

fn parameter_type(types: &Types, entry: &Entry, name: &Name) -> Option<Ty> {
    for position in &entry.positions {
        if let Position::Typed(field) = position
            && field.name.is(name.text.as_str())
        {
            return types.named(field.ty.text.as_str());
        }
    }
    None
}

/// The name of a type.
pub fn type_name(types: &Types, ty: Ty) -> &str
    ensures { result.now ≡ table.type_name types.now ty.0 }
{
    match types.declared(ty) {
        Some(declared) => declared.name.as_str(),
        None => "",
    }
}

/// How a rule of types is broken.
fn misfit_words(
    alloc: Global,
    types: &Types,
    tokens: &[Token],
    misfit: &Misfit<'_>,
) -> Result<String, OutOfMemory>
    ensures { IfOk result (λ words. string_bytes words ≡ spec.misfit_text types.now tokens.now misfit.now) }
{
    let mut text = String::new(alloc);
    put_misfit(&mut text, types, tokens, misfit)?;
    Ok(text)
}

/// Puts how a rule of types is broken.
fn put_misfit(
    text: &mut String,
    types: &Types,
    tokens: &[Token],
    misfit: &Misfit<'_>,
) -> Result<(), OutOfMemory>
    ensures { OnOk result (string_bytes text.new ≡ string_bytes text.old ++ spec.misfit_text types.now tokens.now misfit.now) }
{
    match misfit {
        Misfit::Type {
            part,
            wanted,
            expression,
            found,
        } => {
            put_part(text, types, *part)?;
            put_wanted(text, types, *part, *wanted)?;
            put_found(text, types, tokens, expression, *found)
        }
        Misfit::Any(name, ty, _) => put_any(text, types, name, *ty),
        Misfit::NoTuples(name) => put_no_tuples(text, name),
        Misfit::NoSequences(name) => put_no_sequences(text, name),
        Misfit::Count(name, wanted, given) => put_count(text, name, *wanted, *given),
    }
}

/// Puts an expression and its type.
fn put_found(
    text: &mut String,
    types: &Types,
    tokens: &[Token],
    expression: &Expression,
    found: Ty,
) -> Result<(), OutOfMemory>
    ensures { OnOk result (string_bytes text.new ≡ string_bytes text.old ++ spec.found_text types.now tokens.now expression.now found) }
{
    put_expression(text, tokens, expression)?;
    put_type(text, types, found)
}

fn put_type(text: &mut String, types: &Types, found: Ty) -> Result<(), OutOfMemory>
    ensures { OnOk result (string_bytes text.new ≡ string_bytes text.old ++ spec.type_text types.now found) }
{
    put_type_name(text, type_name(types, found))
}

fn put_type_name(text: &mut String, name: &str) -> Result<(), OutOfMemory>
    ensures { OnOk result (string_bytes text.new ≡ string_bytes text.old ++ (codes " is of type " ++ name.now)) }
{
    write!(text, " is of type {name}")?;
    Ok(())
}

fn put_any(text: &mut String, types: &Types, name: &Name, ty: Ty) -> Result<(), OutOfMemory>
    ensures { OnOk result (string_bytes text.new ≡ string_bytes text.old ++ spec.any_text types.now (name_of name.now) ty) }
{
    put_any_name(text, name.text.as_str(), type_name(types, ty))
}

fn put_any_name(text: &mut String, name: &str, ty: &str) -> Result<(), OutOfMemory>
    ensures { OnOk result (string_bytes text.new ≡ string_bytes text.old ++ (codes "`any` gives an Int, and `" ++ (name.now ++ (codes "` is of type " ++ ty.now)))) }
{
    write!(text, "`any` gives an Int, and `{name}` is of type {ty}")?;
    Ok(())
}

fn put_no_tuples(text: &mut String, name: &Name) -> Result<(), OutOfMemory>
    ensures { OnOk result (string_bytes text.new ≡ string_bytes text.old ++ spec.no_tuples_text (name_of name.now)) }
{
    let name = name.text.as_str();
    write!(text, "`{name}` is no type of tuples")?;
    Ok(())
}

fn put_no_sequences(text: &mut String, name: &Name) -> Result<(), OutOfMemory>
    ensures { OnOk result (string_bytes text.new ≡ string_bytes text.old ++ spec.no_sequences_text (name_of name.now)) }
{
    let name = name.text.as_str();
    write!(
        text,
        "`empty` wants a type of sequences, and `{name}` is none"
    )?;
    Ok(())
}

/// Puts how many fields a tuple of the type of this name has, and how many are given.
fn put_count(text: &mut String, name: &Name, wanted: usize, given: usize) -> Result<(), OutOfMemory>
    ensures { OnOk result (string_bytes text.new ≡ string_bytes text.old ++ spec.count_text (name_of name.now) wanted given) }
{
    let name = name.text.as_str();
    let fields = counted(wanted, "field", "fields");
    let are = counted(given, "is", "are");
    write!(
        text,
        "{name} has {wanted} {fields}, and {given} {are} given"
    )?;
    Ok(())
}

/// The word that stands behind a number.
pub fn counted(number: usize, one: &'static str, other: &'static str) -> &'static str
    ensures { result.now ≡ spec.counted number one.now other.now }
{
    if number == 1 { one } else { other }
}

/// Puts what wants another type.
fn put_part(text: &mut String, types: &Types, part: Part<'_>) -> Result<(), OutOfMemory>
    ensures { OnOk result (string_bytes text.new ≡ string_bytes text.old ++ spec.part_text types.now part.entry) }
{
    match part {
        Part::Named(name) => put_quoted(text, name.text.as_str())?,
        Part::Precondition => text.push_str("a precondition")?,
        Part::Condition => text.push_str("a condition")?,
        Part::Invariant => text.push_str("an invariant")?,
        Part::Bound => text.push_str("the bound of `any`")?,
        Part::Word(word) => put_quoted(text, word.text())?,
        Part::Field(tuple, place) => {
            put_field(
                text,
                field_name(types, tuple, place),
                type_name(types, tuple),
            )?
        }
    }
    Ok(())
}

fn put_field(text: &mut String, name: &str, tuple: &str) -> Result<(), OutOfMemory>
    ensures { OnOk result (string_bytes text.new ≡ string_bytes text.old ++ (codes "the field `" ++ (name.now ++ (codes "` of " ++ tuple.now)))) }
{
    write!(text, "the field `{name}` of {tuple}")?;
    Ok(())
}

fn put_quoted(text: &mut String, word: &str) -> Result<(), OutOfMemory>
    ensures { OnOk result (string_bytes text.new ≡ string_bytes text.old ++ quoted word.now) }
{
    write!(text, "`{word}`")?;
    Ok(())
}

/// The name of the field at this place of a tuple.
fn field_name(types: &Types, tuple: Ty, place: usize) -> &str
    ensures { result.now ≡ spec.field_name types.now tuple.0 place }
{
    match types.form(tuple) {
        Some(Form::Fields(fields)) => name_at(fields, place),
        _ => "",
    }
}

fn name_at(fields: &[Field], place: usize) -> &str
    ensures { result.now ≡ option_map_or (λ f. f.name) (slice_get (map tuple_field fields.now) place) [] }
{
    match fields.get(place) {
        Some(field) => field.name.as_str(),
        None => "",
    }
}

/// Puts which types a part wants, and that something else stands there.
fn put_wanted(
    text: &mut String,
    types: &Types,
    part: Part<'_>,
    wanted: Wanted,
) -> Result<(), OutOfMemory>
    ensures { OnOk result (string_bytes text.new ≡ string_bytes text.old ++ spec.wanted_text types.now part.entry wanted) }
{
    match wanted {
        Wanted::One(ty) => put_one(text, verb_of(part), type_name(types, ty))?,
        Wanted::Sequence => text.push_str(" wants a sequence here, and ")?,
        Wanted::SequenceOf(ty) => put_sequence_of(text, type_name(types, ty))?,
        Wanted::Tuple => text.push_str(" wants a tuple here, and ")?,
        Wanted::ItemAndSequence => {
            text.push_str(" wants a value and then a sequence of such values, and ")?
        }
        Wanted::Others => text.push_str(" wants another type here, and ")?,
    }
    Ok(())
}

/// Puts that just the type of this name is wanted.
fn put_one(text: &mut String, verb: &str, ty: &str) -> Result<(), OutOfMemory>
    ensures { OnOk result (string_bytes text.new ≡ string_bytes text.old ++ (codes " " ++ (verb.now ++ (codes " type " ++ (ty.now ++ codes ", and "))))) }
{
    write!(text, " {verb} type {ty}, and ")?;
    Ok(())
}

/// Puts that a sequence of items of the type of this name is wanted.
fn put_sequence_of(text: &mut String, ty: &str) -> Result<(), OutOfMemory>
    ensures { OnOk result (string_bytes text.new ≡ string_bytes text.old ++ (codes " wants a sequence of " ++ (ty.now ++ codes " here, and "))) }
{
    write!(text, " wants a sequence of {ty} here, and ")?;
    Ok(())
}

/// How a type belongs to a part.
fn verb_of(part: Part<'_>) -> &'static str
    ensures { result.now ≡ spec.verb part.entry }
{
    match part {
        Part::Word(_) => "wants",
        Part::Named(_)
        | Part::Precondition
        | Part::Condition
        | Part::Invariant
        | Part::Bound
        | Part::Field(_, _) => "is of",
    }
}

/// Puts an expression: its token, or the first of several.
fn put_expression(
    text: &mut String,
    tokens: &[Token],
    expression: &Expression,
) -> Result<(), OutOfMemory>
    ensures { OnOk result (string_bytes text.new ≡ string_bytes text.old ++ spec.expression_text tokens.now expression.now) }
{
    match tokens.get(expression.line() as usize) {
        Some(token) => put_first(text, token, expression),
        None => Ok(()),
    }
}

fn put_first(text: &mut String, token: &Token, expression: &Expression) -> Result<(), OutOfMemory>
    ensures { OnOk result (string_bytes text.new ≡ string_bytes text.old ++ spec.first_text expression.now token.now) }
{
    text.push_str(beginning(expression))?;
    put_token(text, &token.kind)
}

/// What stands before the first token of an expression that has several.
fn beginning(expression: &Expression) -> &'static str
    ensures { result.now ≡ spec.beginning expression.now }
{
    match expression {
        Expression::Number(_, _) | Expression::Truth(_, _) | Expression::Name(_) => "",
        Expression::Parentheses(_, _)
        | Expression::Prefix(_, _, _)
        | Expression::Binary(_, _, _, _)
        | Expression::Empty(_, _)
        | Expression::Make(_, _)
        | Expression::Select(_, _, _) => "what begins with ",
    }
}
