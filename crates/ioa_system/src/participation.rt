//! The components that share an action, by the one search from which all is told of it.

ghost use Rattle.std.specs.Prelude.{◌≡◌, true, false, IfNone, IfOk, IfSome, OnOk, map};
ghost use Rattle.std.specs.Option.{option_map, option_map_or};
ghost use Rattle.ioa_value.specs.Actions.{act_of};
ghost use Rattle.ioa_tree.specs.Runs as runs;
ghost use Rattle.ioa_tree.specs.Steps as steps;
ghost use Rattle.ioa_compile.specs.Shown.{member_code};
ghost use Rattle.ioa_compile.specs.Sites.{sites_of};
ghost use Rattle.ioa_compile.specs.Tables.{IsProgram, tabled};
ghost use Rattle.ioa_system.specs.Found as spec;
ghost use Rattle.ioa_system.specs.Found.{AreParticipants, IsSite, IsTaker, takes_at};
ghost use Rattle.ioa_system.specs.Logs as logs;

use ioa_compile::{Entry, Member, Program};
use ioa_sites::Site;
use ioa_tree::Kind;
use ioa_value::{Action, OutOfMemory, all_take};
use std::alloc::Global;
use std::marker::Model;

/// A component that has an action, and the entry that has it.
#[derive(Clone, Copy)]
pub struct Participant<'a> {
    /// The component's number.
    pub component: usize,
    /// Where its state stands among those at hand.
    pub(crate) place: usize,
    pub member: &'a Member,
    pub entry: &'a Entry,
}

/// Who takes part in an action of a program: the components that have it, and the one among them that owns it. The action is looked
/// up once, where a participation is made; all that is told of it is told from there.
pub struct Participation<'a, 'b> {
    program: &'a Program,
    action: &'b Action,
    participants: Vec<Participant<'a>>,
    /// Where the entry stands that has the action as output or internal.
    owner: Option<Site>,
}

/// Written out, so that who drops one calls this, and does not take it apart itself.
impl Drop for Participation<'_, '_> {
    fn drop(self) {
        let Participation {
            program: _,
            action: _,
            participants: _,
            owner: _,
        } = self;
    }
}

impl<'a, 'b> Model for Participation<'a, 'b> {
    ghost use Rattle.ioa_system.specs.ProgramActions.{ProgramAction, coded_program_action};

    ghost Value = { ProgramAction };

    ghost coded = { coded_program_action };

    ghost use Rattle.std.specs.Prelude.{◌≡◌};
    ghost use Rattle.ioa_value.specs.Actions.{act_of};
    ghost use Rattle.ioa_compile.specs.Tables.{IsProgram};
    ghost use Rattle.ioa_system.specs.Found.{AreParticipants, owner_site};

    ghost view = { λ q. record { program = q.program.now; action = act_of q.action.now } };

    ghost invariant = { λ q. IsProgram q.program.now × AreParticipants (act_of q.action.now) q.program.now.members q.participants.items × (q.owner ≡ owner_site q.program.now (act_of q.action.now)) };
}

impl<'a, 'b> Participation<'a, 'b> {
    /// Who takes part in this action.
    pub fn of(
        alloc: Global,
        program: &'a Program,
        action: &'b Action,
    ) -> Result<Participation<'a, 'b>, OutOfMemory>
        ensures { IfOk result (λ q. q ≡ record { program = program.now; action = act_of action.now }) }
    {
        let sites = program.sites(action.name.as_str());
        Participation::at(alloc, program, sites, action)
    }

    /// The same, where the sites of the entries of its name are known.
    pub fn at(
        alloc: Global,
        program: &'a Program,
        sites: &[Site],
        action: &'b Action,
    ) -> Result<Participation<'a, 'b>, OutOfMemory>
        requires { sites.now ≡ sites_of program.now (act_of action.now).name }
        ensures { IfOk result (λ q. q ≡ record { program = program.now; action = act_of action.now }) }
    {
        Participation::within(Vec::new(alloc), program, sites, action)
    }

    /// The same, in the memory of this list, whatever it holds.
    pub(crate) fn within(
        mut room: Vec<Participant<'a>>,
        program: &'a Program,
        sites: &[Site],
        action: &'b Action,
    ) -> Result<Participation<'a, 'b>, OutOfMemory>
        requires { sites.now ≡ sites_of program.now (act_of action.now).name }
        ensures { IfOk result (λ q. q ≡ record { program = program.now; action = act_of action.now }) }
    {
        let owner = find(program, sites, action, &mut room)?;
        Ok(Participation {
            program,
            action,
            participants: room,
            owner,
        })
    }

    /// The memory in which the participants stood.
    pub(crate) fn into_room(self) -> Vec<Participant<'a>> {
        let Participation {
            program: _,
            action: _,
            participants,
            owner: _,
        } = self;
        participants
    }

    /// The program.
    pub fn program(&self) -> &'a Program
        ensures { result.now ≡ self.now.program }
    {
        self.program
    }

    /// The action.
    pub fn action(&self) -> &'b Action
        ensures { act_of result.now ≡ self.now.action }
    {
        self.action
    }

    /// The components that have the action, in ascending order.
    pub fn participants(&self) -> &[Participant<'a>]
        ensures found { AreParticipants self.now.action self.now.program.members result.now }
        ensures sound { IsProgram self.now.program }
    {
        self.participants.as_slice()
    }

    /// The numbers of these components.
    pub fn numbers(&self, alloc: Global) -> Result<Vec<usize>, OutOfMemory>
        ensures { IfOk result (λ numbers. numbers.items ≡ steps.participants (tabled self.now.program) self.now.action) }
    {
        let mut numbers = Vec::new(alloc);
        for participant in self.participants() {
            numbers.push(participant.component)?;
        }
        Ok(numbers)
    }

    /// The number of the component that has the action as output or internal.
    pub fn owner(&self) -> Option<usize>
        ensures { result ≡ steps.owner (tabled self.now.program) self.now.action }
    {
        component_in(self.owner)
    }

    /// Whether the action is external: it has no owner, or is its owner's output and is not hidden.
    pub fn is_external(&self) -> bool
        ensures { result ≡ runs.is_external self.now.program.hidden (tabled self.now.program) self.now.action }
    {
        is_shown(self.owner)
    }

    /// The number of the worker that performs the action: its owner's or, where it has none, the number of components.
    pub fn worker(&self) -> usize
        ensures { result ≡ logs.worker (tabled self.now.program) self.now.action }
    {
        match self.owner() {
            Some(component) => component,
            None => self.program.members().len(),
        }
    }
}

/// The number of the component that has the action as output or internal. It takes no memory.
pub fn owner(program: &Program, action: &Action) -> Option<usize>
    ensures { result ≡ steps.owner (tabled program.now) (act_of action.now) }
{
    component_in(owner_site(program, action))
}

/// Whether the action is external: it has no owner, or is its owner's output and is not hidden. It takes no memory.
pub fn is_external(program: &Program, action: &Action) -> bool
    ensures { result ≡ runs.is_external program.now.hidden (tabled program.now) (act_of action.now) }
{
    is_shown(owner_site(program, action))
}

/// The numbers of the components that have the action, in ascending order.
pub fn participants(
    alloc: Global,
    program: &Program,
    action: &Action,
) -> Result<Vec<usize>, OutOfMemory>
    ensures { IfOk result (λ found. found.items ≡ steps.participants (tabled program.now) (act_of action.now)) }
{
    Participation::of(alloc, program, action)?.numbers(alloc)
}

/// The action's participants in ascending order, in place of what the list held, and where its owner's entry stands, by the sites of the entries of
/// the action's name.
fn find<'a>(
    program: &'a Program,
    sites: &[Site],
    action: &Action,
    participants: &mut Vec<Participant<'a>>,
) -> Result<Option<Site>, OutOfMemory>
    requires { sites.now ≡ sites_of program.now (act_of action.now).name }
    ensures participants { OnOk result (AreParticipants (act_of action.now) program.now.members participants.new.items) }
    ensures owner { IfOk result (λ owner. owner ≡ spec.owner_site program.now (act_of action.now)) }
    ensures sound { IsProgram program.now }
{
    participants.clear();
    let mut owner = None;
    let members = program.members();
    for k in 0..sites.len() {
        let site = sites[k];
        if let Some(taker) = taker_at(members, site, action) {
            owner = first_local(owner, taker.entry.kind, site);
            participants.push(taker)?;
        }
    }
    Ok(owner)
}

/// The site that was found before, or this one of an entry of this kind, if it is an output or internal.
fn first_local(before: Option<Site>, kind: Kind, site: Site) -> Option<Site>
    ensures { result ≡ spec.first_local before kind site }
{
    match before {
        Some(_) => before,
        None if kind.is_local() => Some(site),
        None => None,
    }
}

/// Where the first entry stands that has the action as output or internal. It takes no memory.
fn owner_site(program: &Program, action: &Action) -> Option<Site>
    ensures value { result ≡ spec.owner_site program.now (act_of action.now) }
    ensures sound { IsProgram program.now }
{
    let members = program.members();
    let sites = program.sites(action.name.as_str());
    for k in 0..sites.len() {
        let site = sites[k];
        match taker_at(members, site, action) {
            Some(taker) if taker.entry.kind.is_local() => return Some(site),
            _ => {}
        }
    }
    None
}

/// The component whose entry stands in this site, if the entry takes the action's values.
#[inline(always)]
fn taker_at<'a>(members: &'a [Member], site: Site, action: &Action) -> Option<Participant<'a>>
    requires { IsSite (map member_code members.now) site }
    ensures taker { IfSome result (IsTaker (map member_code members.now) (act_of action.now) site) }
    ensures none { IfNone result (takes_at (map member_code members.now) (act_of action.now) site ≡ false) }
{
    let member = &members[site.component];
    let entry = &member.entries[site.entry];
    if !all_take(member.start.declared(), &entry.positions, &action.vals) {
        return None;
    }
    Some(Participant {
        component: site.component,
        place: site.component,
        member,
        entry,
    })
}

/// The number of the owner whose entry stands in this site.
fn component_in(owner: Option<Site>) -> Option<usize>
    ensures { result ≡ option_map (λ s. s.component) owner }
{
    match owner {
        Some(site) => Some(site.component),
        None => None,
    }
}

/// Whether an action is external whose owner's entry stands in this site.
fn is_shown(owner: Option<Site>) -> bool
    ensures { result ≡ option_map_or (λ s. s.shown) owner true }
{
    match owner {
        Some(site) => site.shown,
        None => true,
    }
}
