//! What components may perform of their own: their local entries, looked up before a run.

ghost use Rattle.std.specs.Prelude.{◌≡◌, ◌++◌, ◌∷◌, [], IfOk, OnOk, Some, length, map, slice_get};
ghost use Rattle.ioa_compile.specs.Programs.{MemberCode};
ghost use Rattle.ioa_compile.specs.Shown.{entry_code};
ghost use Rattle.ioa_run.specs.Locals.{AreLocals, known, with_sites};
ghost use Rattle.ioa_run.specs.Proposers.{local_entries};

use ioa_compile::{Entry, Program};
use ioa_sites::Site;
use ioa_value::OutOfMemory;
use std::alloc::Global;
use std::marker::Model;

/// An entry that its component performs, with where the entries of its name stand.
#[derive(Clone, Copy)]
pub(crate) struct Local<'p> {
    pub entry: &'p Entry,
    /// The program's sites of the entry's name.
    pub sites: &'p [Site],
}

/// The local entries of each component of a program. Their names are searched for once, as these are made, and in no turn.
pub(crate) struct Locals<'p> {
    program: &'p Program,
    /// For each component its own, in order.
    all: Vec<Vec<Local<'p>>>,
}

/// Written out, so that who drops one calls this, and does not take it apart itself.
impl Drop for Locals<'_> {
    fn drop(self) {
        let Locals { program: _, all: _ } = self;
    }
}

impl<'p> Model for Locals<'p> {
    ghost use Rattle.ioa_compile.specs.Programs.{Prog};
    ghost use Rattle.ioa_compile.specs.Coded.{coded_prog};

    ghost Value = { Prog };

    ghost coded = { coded_prog };

    ghost use Rattle.ioa_run.specs.Locals.{AreAllLocals};

    ghost view = { λ l. l.program.now };

    ghost invariant = { λ l. AreAllLocals l.program.now l.all.items };
}

impl<'p> Locals<'p> {
    /// Those of this program.
    pub(crate) fn of(alloc: Global, program: &'p Program) -> Result<Locals<'p>, OutOfMemory>
        ensures { IfOk result (λ l. l ≡ program.now) }
    {
        let mut all = Vec::new(alloc);
        for member in program.members() {
            let own = own_locals(alloc, program, &member.entries)?;
            all.push(own)?;
        }
        Ok(Locals { program, all })
    }

    /// The program.
    pub(crate) fn program(&self) -> &'p Program
        ensures { result.now ≡ self.now }
    {
        self.program
    }

    /// Those of the component of this number; none past the components.
    pub(crate) fn of_component(&self, component: usize) -> &[Local<'p>]
        ensures { (m : MemberCode) → slice_get self.now.members component ≡ Some m → AreLocals self.now m.entries result.now }
    {
        if component < self.all.len() {
            self.all[component].as_slice()
        } else {
            &[]
        }
    }
}

/// Those among a component's entries.
fn own_locals<'p>(
    alloc: Global,
    program: &'p Program,
    entries: &'p [Entry],
) -> Result<Vec<Local<'p>>, OutOfMemory>
    ensures { IfOk result (λ own. AreLocals program.now (map entry_code entries.now) own.items) }
{
    let mut own = Vec::new(alloc);
    for entry in entries {
        add_local(&mut own, program, entry)?;
    }
    Ok(own)
}

/// Adds the entry, if its component performs it.
fn add_local<'p>(
    own: &mut Vec<Local<'p>>,
    program: &'p Program,
    entry: &'p Entry,
) -> Result<(), OutOfMemory>
    ensures { OnOk result (map known own.new.items ≡ map known own.old.items ++ map (with_sites program.now) (local_entries (entry_code entry.now ∷ []))) }
{
    if !entry.kind.is_local() {
        return Ok(());
    }
    let sites = program.sites(entry.name.as_str());
    own.push(Local { entry, sites })?;
    Ok(())
}

/// How many entries their component performs.
pub(crate) fn local_count(entries: &[Entry]) -> usize
    ensures { result ≡ length (local_entries (map entry_code entries.now)) }
{
    let mut count = 0;
    for entry in entries {
        if entry.kind.is_local() {
            count += 1;
        }
    }
    count
}
