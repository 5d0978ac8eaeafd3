//! What a worker means to do, before there is an action of its own.

ghost use Rattle.std.specs.Prelude.{◌≡◌, IfOk};
ghost use Rattle.ioa_value.specs.Actions.{act_of};
ghost use Rattle.ioa_board.specs.Wishes.{IsWishOf, act_meant};

use ioa_compile::Program;
use ioa_sites::Site;
use ioa_value::{Action, OutOfMemory, Value, copies};
use std::alloc::Global;

/// An action that a worker means to perform. Its name stands elsewhere, and beside it where the entries of this name stand, so that it is not
/// searched for again.
#[derive(Drop)]
pub struct Wish<'a> {
    pub name: &'a str,
    /// The program's sites of the name.
    pub sites: &'a [Site],
    pub vals: Vec<Value>,
}

impl<'a> Wish<'a> {
    /// The wish for this action of the program: its name is searched for, and its values are copied.
    pub fn of(
        alloc: Global,
        program: &'a Program,
        action: &'a Action,
    ) -> Result<Wish<'a>, OutOfMemory>
        ensures act { IfOk result (λ w. act_meant w ≡ act_of action.now) }
        ensures known { IfOk result (IsWishOf program.now) }
    {
        let name = action.name.as_str();
        let sites = program.sites(name);
        let vals = copies(alloc, &action.vals)?;
        Ok(Wish { name, sites, vals })
    }

    /// The action that is meant, with a copy of the name.
    pub fn into_action(self, alloc: Global) -> Result<Action, OutOfMemory>
        ensures { IfOk result (λ a. act_of a ≡ act_meant self.entry) }
    {
        let Wish {
            name,
            sites: _,
            vals,
        } = self;
        let text = name.to_string(alloc)?;
        Ok(Action { name: text, vals })
    }
}
