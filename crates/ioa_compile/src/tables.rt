//! Programs that are made of given tables.

ghost use Rattle.std.specs.Prelude.{◌≡◌, IfOk, IfErr};
ghost use Rattle.ioa_compile.specs.Given.{prog_of, IsNoProgram};
ghost use Rattle.ioa_compile.specs.Tables.{AreRight};

use crate::compatibility::clash_among;
use crate::program::Program;
use crate::rightness::are_right;
use crate::table::Member;
use ioa_value::{OutOfMemory, Types};
use std::alloc::Global;
use thiserror::Error;

/// The tables of a program, which may be wrong.
#[derive(Drop)]
pub struct Tables {
    /// The types of the values.
    pub types: Types,
    /// The composition's name.
    pub name: String,
    /// The components in order.
    pub members: Vec<Member>,
    /// The names that are hidden.
    pub hidden: Vec<String>,
}

/// Why tables are no program.
#[derive(Clone, Copy, Debug, PartialEq, Eq, Error)]
pub enum TableErr {
    /// A limit is passed, a name is not legal or stands twice, parts do not fit together, or a hidden name is no output's.
    #[error("bad table")]
    Table,
    /// The tables are right, but these two components are not compatible: the first two, by the first one's place and then by
    /// the other's.
    #[error("components {0} and {1} clash")]
    Clash(usize, usize),
    /// A growth of memory was refused.
    #[error("memory")]
    OutOfMemory,
}

impl From<OutOfMemory> for TableErr {
    ghost use Rattle.std.specs.Prelude.{◌≡◌};
    ghost use Rattle.ioa_compile.specs.declared.tables.TableErr.TheVariants as errors;

    ghost from_gives = { λ _ e. e ≡ errors.OutOfMemory };

    fn from(_error: OutOfMemory) -> TableErr {
        TableErr::OutOfMemory
    }
}

impl Program {
    /// The program of these tables. They become one exactly where they are right and their components compatible.
    ///
    /// Each part and each start state has its types compared with the program's.
    ///
    /// # Errors
    /// `Table` where the tables are not right; `Clash` where they are, but components clash; `OutOfMemory`.
    pub fn from_tables(alloc: Global, tables: Tables) -> Result<Program, TableErr>
        ensures program { IfOk result (λ p. p ≡ prog_of tables) }
        ensures none { IfErr result (IsNoProgram (prog_of tables)) }
    {
        if !are_right(alloc, &tables)? {
            return Err(TableErr::Table);
        }
        Program::from_right(alloc, tables)
    }

    /// The program of these tables, which are right. They become one exactly where their components are compatible.
    ///
    /// # Errors
    /// `Clash` where components clash; `OutOfMemory`.
    pub fn from_right(alloc: Global, tables: Tables) -> Result<Program, TableErr>
        requires { AreRight (prog_of tables) }
        ensures program { IfOk result (λ p. p ≡ prog_of tables) }
        ensures clash { IfErr result (IsNoProgram (prog_of tables)) }
    {
        if let Some(clash) = clash_among(alloc, &tables.types, &tables.members)? {
            return Err(TableErr::Clash(clash.first, clash.second));
        }
        let program = Program::new(
            alloc,
            tables.types,
            tables.name,
            tables.members,
            tables.hidden,
        )?;
        Ok(program)
    }
}
