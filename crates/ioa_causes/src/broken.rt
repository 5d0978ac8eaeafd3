//! The token at which a rule of names or types is broken, and the names that a source declares.

ghost use Rattle.std.specs.Prelude.{◌≡◌, ℕ, List, IfOk, IfSome, true};
ghost use Rattle.ioa_lex.specs.Lexing.{placed};
ghost use Rattle.ioa_lex.specs.Tokens as lexed;
ghost use Rattle.ioa_lex.specs.Tokens.{kind_shown};
ghost use Rattle.ioa_tree.specs.Names.{LegalNames};
ghost use Rattle.ioa_tree.specs.View.{tree_of};
ghost use Rattle.ioa_syntax.specs.Stuck.{IsNumbered};
ghost use Rattle.ioa_causes.specs.Words as spec;

use ioa_lex::{Kind, Terminal, Token};
use ioa_rules::source_fine;
use ioa_syntax::{Numbered, Refusal, parse_numbered};
use ioa_tree::{
    Assembly, Automaton, Declaration, Field, Name, Position, Statement, TypeDeclaration, TypeForm,
};
use ioa_value::OutOfMemory;
use std::alloc::Global;

/// A source that breaks a rule, whose lines are indices of its tokens.
pub struct Broken {
    /// The trees, whose lines are indices of tokens.
    pub numbered: Numbered,
    /// Why it is refused, by the rules themselves: at the token of this index.
    pub refusal: Refusal,
}

/// Written out, so that who drops one calls this, and does not take it apart itself.
impl Drop for Broken {
    fn drop(self) {
        let Broken {
            numbered: _,
            refusal: _,
        } = self;
    }
}

impl Broken {
    /// The declarations, whose lines are indices of tokens, and the tokens.
    pub fn parts(&self) -> (&[Declaration], &[Token])
        ensures numbered { (text : List ℕ) → IsNumbered text (placed self.now.numbered.tokens.items) (tree_of self.now.numbered.source)
            → IsNumbered text (placed result.1.now) (tree_of result.0.now) }
        ensures legal { LegalNames (tree_of result.0.now) }
    {
        let declarations = self.numbered.source.declarations();
        (declarations, self.numbered.tokens.as_slice())
    }
}

/// What rule a text breaks, and at which token. None, where it breaks none of its own.
pub fn broken_in(alloc: Global, text: &[u8]) -> Result<Option<Broken>, OutOfMemory>
    ensures { IfOk result (λ found. IfSome found (λ broken. IsNumbered text.now (placed broken.numbered.tokens.items) (tree_of broken.numbered.source))) }
{
    let numbered = match parse_numbered(alloc, text) {
        Ok(numbered) => numbered,
        Err(Refusal::OutOfMemory) => return Err(OutOfMemory),
        Err(_) => return Ok(None),
    };
    let refusal = match source_fine(alloc, numbered.source.declarations()) {
        Ok(_) => return Ok(None),
        Err(Refusal::OutOfMemory) => return Err(OutOfMemory),
        Err(refusal) => refusal,
    };
    Ok(Some(Broken { numbered, refusal }))
}

/// The line of the token of this index.
pub fn line_of(tokens: &[Token], index: u32) -> u32 {
    match tokens.get(index as usize) {
        Some(token) => token.line,
        None => 0,
    }
}

/// The name that the token of this index is.
pub fn name_at(tokens: &[Token], index: u32) -> Option<&str>
    ensures { IfSome result (λ x. spec.StandsAt tokens.now index (lexed.name x.now)) }
{
    match tokens.get(index as usize) {
        Some(token) => name_in(&token.kind),
        None => None,
    }
}

fn name_in(kind: &Kind) -> Option<&str>
    ensures { IfSome result (λ x. kind_shown kind.now ≡ lexed.name x.now) }
{
    match kind {
        Kind::Name(name) => Some(name.as_str()),
        Kind::Number(_) | Kind::Terminal(_) => None,
    }
}

/// The line of the token of this index, where it is this name.
pub fn line_of_name(tokens: &[Token], index: u32, name: &str) -> Option<u32>
    ensures { IfSome result (λ line. spec.StandsOn tokens.now index (lexed.name name.now) line) }
{
    let token = tokens.get(index as usize)?;
    if is_name(&token.kind, name) {
        Some(token.line)
    } else {
        None
    }
}

fn is_name(kind: &Kind, name: &str) -> bool
    ensures { result ≡ true → kind_shown kind.now ≡ lexed.name name.now }
{
    match name_in(kind) {
        Some(found) => found == name,
        None => false,
    }
}

/// Whether the token of this index is this word or sign.
pub fn is_word_at(tokens: &[Token], index: Option<u32>, word: Terminal) -> bool {
    let Some(index) = index else {
        return false;
    };
    match tokens.get(index as usize) {
        Some(
            Token {
                kind: Kind::Terminal(found),
                ..
            },
        ) => *found == word,
        _ => false,
    }
}

/// What a name is declared as.
#[derive(Clone, Copy, PartialEq, Eq)]
pub enum What {
    Type,
    /// A name of an enumeration.
    Constant,
    Automaton,
    Composition,
    Formal,
    Variable,
    Parameter,
    /// The name of a loop.
    Loop,
    Entry,
    Component,
}

impl What {
    /// As it is told.
    pub fn words(self) -> &'static str {
        match self {
            What::Type => "a type",
            What::Constant => "a name of the enumeration",
            What::Automaton => "an automaton",
            What::Composition => "a composition",
            What::Formal => "a formal",
            What::Variable => "a variable",
            What::Parameter => "a parameter",
            What::Loop => "the name of a loop",
            What::Entry => "an entry",
            What::Component => "a component",
        }
    }

    /// Whether the name is known in the whole source.
    pub fn is_global(self) -> bool {
        match self {
            What::Type | What::Constant | What::Automaton | What::Composition => true,
            What::Formal
            | What::Variable
            | What::Parameter
            | What::Loop
            | What::Entry
            | What::Component => false,
        }
    }
}

/// A name where it is declared: in the place of its line it has the index of its token.
#[derive(Clone, Copy)]
pub struct Known<'a> {
    pub name: &'a Name,
    pub what: What,
    /// The name of the entry that has the parameter, or of the transition that has the loop, and else that of the declaration itself.
    pub of: &'a Name,
    /// Which declaration has it.
    pub within: usize,
}

/// The names that the declarations declare, in their order.
pub fn known_names(
    alloc: Global,
    declarations: &[Declaration],
) -> Result<Vec<Known<'_>>, OutOfMemory> {
    let mut found = Vec::new(alloc);
    let mut within: usize = 0;
    for declaration in declarations {
        match declaration {
            Declaration::Type(declared) => push_type(&mut found, declared, within)?,
            Declaration::Automaton(automaton) => push_automaton(&mut found, automaton, within)?,
            Declaration::Composition(assembly) => push_composition(&mut found, assembly, within)?,
            Declaration::Invariant(_) => {}
        }
        within = within.saturating_add(1);
    }
    Ok(found)
}

fn push_type<'a>(
    found: &mut Vec<Known<'a>>,
    declared: &'a TypeDeclaration,
    within: usize,
) -> Result<(), OutOfMemory> {
    let of = &declared.name;
    found.push(Known {
        name: of,
        what: What::Type,
        of,
        within,
    })?;
    if let TypeForm::Enumeration(names) = &declared.form {
        for name in names {
            found.push(Known {
                name,
                what: What::Constant,
                of,
                within,
            })?;
        }
    }
    Ok(())
}

fn push_automaton<'a>(
    found: &mut Vec<Known<'a>>,
    automaton: &'a Automaton,
    within: usize,
) -> Result<(), OutOfMemory> {
    let of = &automaton.name;
    found.push(Known {
        name: of,
        what: What::Automaton,
        of,
        within,
    })?;
    push_fields(found, &automaton.formals, What::Formal, of, within)?;
    for entry in &automaton.entries {
        found.push(Known {
            name: &entry.name,
            what: What::Entry,
            of,
            within,
        })?;
        push_parameters(found, &entry.positions, &entry.name, within)?;
    }
    for variable in &automaton.variables {
        found.push(Known {
            name: &variable.field.name,
            what: What::Variable,
            of,
            within,
        })?;
    }
    for transition in &automaton.transitions {
        push_loops(found, &transition.effect, &transition.name, within)?;
    }
    Ok(())
}

fn push_loops<'a>(
    found: &mut Vec<Known<'a>>,
    statements: &'a [Statement],
    of: &'a Name,
    within: usize,
) -> Result<(), OutOfMemory> {
    for statement in statements {
        match statement {
            Statement::Assign(_, _) => {}
            Statement::If(arms, others, _) => {
                for arm in arms {
                    push_loops(found, &arm.statements, of, within)?;
                }
                push_loops(found, others, of, within)?;
            }
            Statement::For(name, _, body, _) => {
                found.push(Known {
                    name,
                    what: What::Loop,
                    of,
                    within,
                })?;
                push_loops(found, body, of, within)?;
            }
        }
    }
    Ok(())
}

fn push_fields<'a>(
    found: &mut Vec<Known<'a>>,
    fields: &'a [Field],
    what: What,
    of: &'a Name,
    within: usize,
) -> Result<(), OutOfMemory> {
    for field in fields {
        found.push(Known {
            name: &field.name,
            what,
            of,
            within,
        })?;
    }
    Ok(())
}

fn push_parameters<'a>(
    found: &mut Vec<Known<'a>>,
    positions: &'a [Position],
    of: &'a Name,
    within: usize,
) -> Result<(), OutOfMemory> {
    for position in positions {
        if let Position::Typed(field) = position {
            found.push(Known {
                name: &field.name,
                what: What::Parameter,
                of,
                within,
            })?;
        }
    }
    Ok(())
}

fn push_composition<'a>(
    found: &mut Vec<Known<'a>>,
    assembly: &'a Assembly,
    within: usize,
) -> Result<(), OutOfMemory> {
    let of = &assembly.name;
    found.push(Known {
        name: of,
        what: What::Composition,
        of,
        within,
    })?;
    for instance in &assembly.instances {
        found.push(Known {
            name: &instance.name,
            what: What::Component,
            of,
            within,
        })?;
    }
    Ok(())
}
