//! The one home of a source's limits, which code, definitions and clauses ask alike.

/// How much a source may have: what passes a limit is refused.
#[derive(Clone, Copy)]
pub struct Limits {
    /// Bytes of a source's text.
    pub text: usize,
    /// Bytes of a name.
    pub name: usize,
    /// Levels of expressions and statements within each other.
    pub depth: usize,
    /// Types that a source declares, Bool and Int not counted.
    pub types: usize,
    /// Names of an enumeration.
    pub names: usize,
    /// Fields of a tuple.
    pub fields: usize,
    /// Items of a sequence.
    pub capacity: usize,
    /// Words that a value of a type takes at most.
    pub words: usize,
    /// Automata and compositions together.
    pub automata: usize,
    /// Invariants.
    pub invariants: usize,
    /// Components of a composition.
    pub components: usize,
    /// Hidden names of a composition.
    pub hidden: usize,
    /// Formals of an automaton, and parameters of an entry.
    pub parameters: usize,
    /// Variables of an automaton.
    pub variables: usize,
    /// Entries of an automaton's signature.
    pub entries: usize,
    /// Nodes of the trees of a precondition, of a transition's proposals together, and of an effect.
    pub nodes: usize,
    /// Loops of an effect within each other.
    pub loops: usize,
}

/// The limits of a source.
pub const LIMITS: Limits = Limits {
    text: 1_048_576,
    name: 64,
    depth: 64,
    types: 1_024,
    names: 256,
    fields: 16,
    capacity: 256,
    words: 4_096,
    automata: 256,
    invariants: 256,
    components: 32,
    hidden: 64,
    parameters: 8,
    variables: 64,
    entries: 64,
    nodes: 4_096,
    loops: 3,
};
