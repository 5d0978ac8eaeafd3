//! The names of a program's entries.

ghost use Rattle.std.specs.Prelude.{◌≡◌, [], List, IfOk, map};
ghost use Rattle.ioa_value.specs.Table.{place_from};
ghost use Rattle.ioa_compile.specs.Shown.{entry_code, member_code};
ghost use Rattle.ioa_compile.specs.Sites.{code_name};
ghost use Rattle.ioa_watch.specs.Names as spec;
ghost use Rattle.ioa_watch.specs.Names.{shown, with_name, with_names};
ghost use Rattle.ioa_watch.specs.Placed.{ArePlaced};

use ioa_compile::{Entry, Member};
use ioa_compose::Index;
use ioa_value::OutOfMemory;
use std::alloc::Global;

/// Names in the order in which they were put in, none twice, and their places.
pub(crate) struct Names<'a> {
    pub list: Vec<&'a str>,
    places: Index<usize>,
    ghost placed: { ArePlaced places (shown list.items) },
}

/// Written out, so that who drops one calls this, and does not take it apart itself.
impl Drop for Names<'_> {
    fn drop(self) {
        let Names { list: _, places: _ } = self;
    }
}

impl<'a> Names<'a> {
    /// The names of the components' entries, each once, in the order in which they come.
    pub fn of(alloc: Global, members: &'a [Member]) -> Result<Names<'a>, OutOfMemory>
        ensures { IfOk result (λ names. shown names.list.items ≡ spec.names_of (map member_code members.now)) }
    {
        let mut names = Names::new(alloc);
        for member in members {
            names = names.with_entries(&member.entries)?;
        }
        Ok(names)
    }

    /// No names.
    fn new(alloc: Global) -> Names<'a>
        ensures { result.list.items ≡ [] }
    {
        Names {
            list: Vec::new(alloc),
            places: Index::new(alloc),
        }
    }

    /// With the entries' names.
    fn with_entries(self, entries: &'a [Entry]) -> Result<Names<'a>, OutOfMemory>
        ensures { IfOk result (λ names. shown names.list.items ≡ with_names (shown self.entry.list.items) (map code_name (map entry_code entries.now))) }
    {
        let mut names = self;
        for entry in entries {
            names = names.with(entry.name.as_str())?;
        }
        Ok(names)
    }

    /// With the name behind the others, where it is none of them.
    fn with(self, name: &'a str) -> Result<Names<'a>, OutOfMemory>
        ensures { IfOk result (λ names. shown names.list.items ≡ with_name (shown self.entry.list.items) name.now) }
    {
        if self.place(name).is_some() {
            return Ok(self);
        }
        let Names {
            mut list,
            mut places,
        } = self;
        places.add(name, list.len())?;
        list.push(name)?;
        Ok(Names { list, places })
    }

    /// The place of the name, if it is one of these.
    pub fn place(&self, name: &str) -> Option<usize>
        ensures { result ≡ place_from 0 (shown self.now.list.items) name.now }
    {
        self.places.named(name).first().copied()
    }
}
