//! A specification hears a stream of actions, one after another.

ghost use Rattle.std.specs.Prelude.{◌≡◌, ◌+◌, ◌<◌, ◌-◌, ◌^◌, [], IfOk, OnErr, OnOk, length, option_map};
ghost use Rattle.ioa_value.specs.Actions.{act_of};
ghost use Rattle.ioa_value.specs.Table.{contains};
ghost use Rattle.ioa_tree.specs.Steps as steps;
ghost use Rattle.ioa_compile.specs.Tables.{tabled};
ghost use Rattle.ioa_system.specs.Outcomes.{ending_of};
ghost use Rattle.ioa_watch.specs.Watched.{answered, hearing};
ghost use Rattle.ioa_watch.specs.Watchers.{HasHeard, names_in, news, watching_of};

use crate::names::Names;
use crate::watcher::Watcher;
use ioa_compile::Program;
use ioa_system::{End, Step, System};
use ioa_value::{Action, OutOfMemory};
use std::alloc::Global;

impl<'a> Watcher<'a> {
    /// Before the first action.
    pub fn start(alloc: Global, program: &'a Program) -> Result<Watcher<'a>, OutOfMemory>
        ensures { IfOk result (HasHeard program.now []) }
    {
        let names = Names::of(alloc, program.members())?;
        let counts = vec![in alloc; 0u64; names.list.len()]?;
        Ok(Watcher {
            system: System::start(alloc, program)?,
            names,
            counts,
            others: 0,
            heard: 0,
            refusal: None,
        })
    }

    /// Hears the next action: why it is refused, where it is the first that is. Behind it nothing is heard.
    ///
    /// # Errors
    /// `OutOfMemory`: nothing has changed.
    pub fn hear(&mut self, action: &Action) -> Result<Option<End>, OutOfMemory>
        requires { self.old.heard < 2 ^ 64 - 1 }
        ensures next { OnOk result (watching_of self.new ≡ hearing (names_in self.old) (tabled self.old.system.program) (act_of action.now) (watching_of self.old)) }
        ensures told { IfOk result (λ told. option_map ending_of told ≡ news (option_map ending_of self.old.refusal) (option_map ending_of self.new.refusal)) }
        ensures program { self.new.system.program ≡ self.old.system.program }
        ensures names { names_in self.new ≡ names_in self.old }
        ensures memory { OnErr result (watching_of self.new ≡ watching_of self.old) }
    {
        if self.refusal.is_some() {
            return Ok(None);
        }
        match self.names.place(action.name.as_str()) {
            Some(place) => self.perform(place, action)?,
            None => self.pass_over(),
        }
        Ok(self.refusal)
    }

    /// Performs an action whose name stands in this place.
    fn perform(&mut self, place: usize, action: &Action) -> Result<(), OutOfMemory>
        requires counts { self.old.heard < 2 ^ 64 - 1 }
        requires place { place < length self.old.names.list.items }
        ensures next { OnOk result (watching_of self.new ≡ answered place (steps.step (tabled self.old.system.program) (act_of action.now) (watching_of self.old).states) (watching_of self.old)) }
        ensures program { self.new.system.program ≡ self.old.system.program }
        ensures names { self.new.names ≡ self.old.names }
        ensures memory { OnErr result (watching_of self.new ≡ watching_of self.old) }
    {
        match self.system.step(action)? {
            Step::Next => {
                self.heard += 1;
                self.counts[place] += 1;
            }
            Step::NotAnAction => self.refusal = Some(End::NotAnAction(self.heard)),
            Step::NotEnabled => self.refusal = Some(End::NotEnabled(self.heard)),
            Step::Fault(component, fault) => {
                self.refusal = Some(End::Fault(component, fault, self.heard));
            }
        }
        Ok(())
    }

    /// Counts an action of another name.
    fn pass_over(&mut self)
        requires { self.old.heard < 2 ^ 64 - 1 }
        ensures next { watching_of self.new ≡ record (watching_of self.old) { heard = self.old.heard + 1; others = self.old.others + 1 } }
        ensures kept { (self.new.system ≡ self.old.system) × (self.new.names ≡ self.old.names) }
    {
        self.heard += 1;
        self.others += 1;
    }

    /// The program by which it hears.
    pub fn program(&self) -> &'a Program
        ensures { result.now ≡ self.now.system.program }
    {
        self.system.program()
    }

    /// The names of its entries, each once, in order.
    pub fn names(&self) -> &[&'a str]
        ensures { result.now ≡ self.now.names.list.items }
    {
        self.names.list.as_slice()
    }

    /// How many actions of each of its names were taken, in the order of the names.
    pub fn counts(&self) -> &[u64]
        ensures { result.now ≡ (watching_of self.now).counts }
    {
        self.counts.as_slice()
    }

    /// How many actions of other names were passed over.
    pub fn others(&self) -> u64
        ensures { result ≡ (watching_of self.now).others }
    {
        self.others
    }

    /// How many actions came before the one that is refused, if one is.
    pub fn heard(&self) -> usize
        ensures { result ≡ (watching_of self.now).heard }
    {
        self.heard
    }

    /// Why the first action that is refused is, with its index, if one is.
    pub fn refusal(&self) -> Option<End>
        ensures { result ≡ self.now.refusal }
    {
        self.refusal
    }

    /// Whether the name is one of its entries'.
    pub fn has_name(&self, name: &str) -> bool
        ensures { result ≡ contains (names_in self.now) name.now }
    {
        self.names.place(name).is_some()
    }
}
