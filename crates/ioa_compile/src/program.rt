//! The type of what runs, and of what objects hold.

ghost use Rattle.std.specs.Prelude.{◌≡◌, map, IfOk};
ghost use Rattle.std.specs.String.{string_bytes};
ghost use Rattle.ioa_compile.specs.Shown.{member_code};
ghost use Rattle.ioa_compile.specs.Sites as spec;
ghost use Rattle.ioa_compile.specs.Tables.{IsProgram};

use crate::sites::index_of;
use crate::table::Member;
use ioa_compose::Index;
use ioa_sites::Site;
use ioa_value::{OutOfMemory, Types};
use std::alloc::Global;
use std::marker::Model;

/// A program: tables, start states and verified code of a composition, with an index of its action names. It holds no tree.
pub struct Program {
    types: Types,
    name: String,
    members: Vec<Member>,
    hidden: Vec<String>,
    /// Where the actions of each name stand in the table. It follows from the table, and is no part of what a program is.
    sites: Index<Site>,
}

/// Written out, so that who drops one calls this, and does not take it apart itself.
impl Drop for Program {
    fn drop(self) {
        let Program {
            types: _,
            name: _,
            members: _,
            hidden: _,
            sites: _,
        } = self;
    }
}

impl Model for Program {
    ghost use Rattle.ioa_compile.specs.Programs.{Prog};
    ghost use Rattle.ioa_compile.specs.Coded.{coded_prog};

    ghost Value = { Prog };

    ghost coded = { coded_prog };

    ghost use Rattle.std.specs.Prelude.{map};
    ghost use Rattle.std.specs.String.{string_bytes};
    ghost use Rattle.ioa_compile.specs.Shown.{member_code};
    ghost use Rattle.ioa_compile.specs.Sites.{AreSites};
    ghost use Rattle.ioa_compile.specs.Tables.{IsProgram};

    ghost view = { λ p. record { types = p.types; name = string_bytes p.name; members = map member_code p.members.items; hidden = map string_bytes p.hidden.items } };

    ghost invariant = { λ p. IsProgram (record { types = p.types; name = string_bytes p.name; members = map member_code p.members.items; hidden = map string_bytes p.hidden.items }) × AreSites (map member_code p.members.items) (map string_bytes p.hidden.items) p.sites };
}

impl Program {
    /// The program of these tables, with their index.
    pub(crate) fn new(
        alloc: Global,
        types: Types,
        name: String,
        members: Vec<Member>,
        hidden: Vec<String>,
    ) -> Result<Program, OutOfMemory>
        requires { IsProgram (record { types = types; name = string_bytes name; members = map member_code members.items; hidden = map string_bytes hidden.items }) }
        ensures { IfOk result (λ p. p ≡ record { types = types; name = string_bytes name; members = map member_code members.items; hidden = map string_bytes hidden.items }) }
    {
        let sites = index_of(alloc, &members, &hidden)?;
        Ok(Program {
            types,
            name,
            members,
            hidden,
            sites,
        })
    }

    /// The types of the program's values.
    pub fn types(&self) -> &Types
        ensures value { result.now ≡ self.now.types }
        ensures sound { IsProgram self.now }
    {
        &self.types
    }

    /// The composition's name.
    pub fn name(&self) -> &str
        ensures { result.now ≡ self.now.name }
    {
        self.name.as_str()
    }

    /// The components in order.
    pub fn members(&self) -> &[Member]
        ensures value { map member_code result.now ≡ self.now.members }
        ensures sound { IsProgram self.now }
    {
        self.members.as_slice()
    }

    /// The names that are hidden.
    pub fn hidden(&self) -> &[String]
        ensures { map string_bytes result.now ≡ self.now.hidden }
    {
        self.hidden.as_slice()
    }

    /// Where the actions of this name stand: the entries that have the name, each once, in ascending order.
    #[inline(always)]
    pub fn sites(&self, name: &str) -> &[Site]
        ensures value { result.now ≡ spec.sites_of self.now name.now }
        ensures sound { IsProgram self.now }
    {
        self.sites.named(name)
    }
}
