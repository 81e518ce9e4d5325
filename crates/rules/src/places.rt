// Rule 6: where commands stand.
ghost use Rattle.std.specs.Prelude.{◌≡◌, ℕ, ◌≤◌, min, not, slice_index};
ghost use Rattle.shape.specs.Shape.{is_first, links_to, links, alike, is_child, owner_node, owner_of};
ghost use Rattle.rules.specs.Faults.{broke};
ghost use Rattle.rules.specs.Tables.{HoldsBelow};
ghost use Rattle.rules.specs.Rules.{enforced_register, enforced_state, goto_placed, action_placed, has_check, command_placed, placed};
ghost use Rattle.shape.specs.View.{view};

use crate::faults::{Breach, Kind, Rule};
use crate::ranks::{MOST_RECORDS, Node, Numbers, work_out};
use crate::sizes::Counted;
use crate::sweeps::sweep;
use records::{Action, Command};
use search::{Test, first_below};
use shape::{Tables, is_enforced, is_if, is_number, record_at};

// A command names command k.
fn links_to(command: Command, k: u32) -> bool
    ensures { result ≡ links command k }
{
    let branch = is_number(command.x, k) | is_number(command.i, k);
    is_number(command.next, k) | is_number(command.alt, k) | (is_if(command.action) & branch)
}

// The states that begin with command k.
#[derive(Drop)]
struct IsFirst<'a> {
    tables: Tables<'a>,
    k: u32,
}

impl Test for IsFirst<'_> {
    ghost test = { λ x. is_first (view x.tables) x.k };

    fn passes(&self, s: u32) -> bool {
        self.tables.state(s).first == self.k
    }
}

// The commands that name command k.
#[derive(Drop)]
struct LinksTo<'a> {
    tables: Tables<'a>,
    k: u32,
}

impl Test for LinksTo<'_> {
    ghost test = { λ x. links_to (view x.tables) x.k };

    fn passes(&self, j: u32) -> bool {
        links_to(self.tables.command(j), self.k)
    }
}

// The state of each command.
#[derive(Drop)]
pub(crate) struct Owner<'a> {
    pub(crate) tables: Tables<'a>,
}

impl Node for Owner<'_> {
    ghost node = { λ x. owner_node (view x.tables) };

    ghost base = { λ _. 4294967295 };

    fn value(&self, done: &Numbers, k: u32) -> u32 {
        let tables = self.tables;
        if let Some(state) = first_below(&IsFirst { tables, k }, tables.head.states) {
            return state;
        }
        // Where no command does, the number of its own place is read, as the definition does.
        let named_by = first_below(&LinksTo { tables, k }, k).unwrap_or(k);
        record_at(done, named_by, 0)
    }
}

// The states of the commands, of the first 256; 0 past the last command.
pub fn owners(tables: Tables<'_>) -> Numbers
    ensures { HoldsBelow 0 (min tables.entry.head.commands 256) (owner_of (view tables.entry)) result }
{
    let count = tables.head.commands.min(MOST_RECORDS as u32);
    work_out(&Owner { tables }, count)
}

// Both absent, or both the same number.
fn are_alike(a: Option<u32>, b: Option<u32>) -> bool
    ensures { result ≡ alike a b }
{
    a == b
}

// The children of a state.
#[derive(Drop)]
pub struct ChildOf<'a> {
    pub tables: Tables<'a>,
    pub s: u32,
}

impl Test for ChildOf<'_> {
    ghost test = { λ x. is_child (view x.tables) x.s };

    fn passes(&self, t: u32) -> bool {
        is_number(self.tables.state(t).parent, self.s)
    }
}

fn is_register_enforced(tables: &Tables<'_>, x: Option<u32>) -> bool
    ensures { result ≡ enforced_register (view tables.now) x }
{
    is_enforced(tables.register(x.unwrap_or(0)).mode)
}

fn is_state_enforced(tables: &Tables<'_>, x: Option<u32>) -> bool
    ensures { result ≡ enforced_state (view tables.now) x }
{
    is_enforced(tables.state(x.unwrap_or(0)).mode)
}

// A goto in state s: not in the root, and to a state with the same parent.
fn is_goto_placed(tables: &Tables<'_>, s: u32, x: Option<u32>) -> bool
    ensures { result ≡ goto_placed (view tables.now) s x }
{
    (s != 0) & are_alike(tables.state(x.unwrap_or(0)).parent, tables.state(s).parent)
}

// A command in state s.
fn is_action_placed(tables: &Tables<'_>, s: u32, command: Command) -> bool
    ensures { result ≡ action_placed (view tables.now) s command command.action }
{
    match command.action {
        Action::Set | Action::If => true,
        Action::Tag => is_register_enforced(tables, command.x),
        Action::Goto => is_goto_placed(tables, s, command.x),
        Action::Fall => {
            let lent = *tables;
            first_below(&ChildOf { tables: lent, s }, tables.head.states).is_some()
        }
    }
}

// The check of the command may fail, so that it may have an alt.
fn has_check(tables: &Tables<'_>, command: Command) -> bool
    ensures { result ≡ has_check (view tables.now) command command.action }
{
    match command.action {
        Action::Set => is_register_enforced(tables, command.x),
        Action::Tag | Action::Fall => true,
        Action::If => false,
        Action::Goto => is_state_enforced(tables, command.x),
    }
}

#[derive(Drop)]
struct Misplaced<'a, 'b> {
    tables: Tables<'a>,
    owners: &'b Numbers,
}

impl Test for Misplaced<'_, '_> {
    ghost test = { λ x n. not (command_placed (view x.tables) (λ k. slice_index x.owners.now k) n) };

    fn passes(&self, n: u32) -> bool {
        let command = self.tables.command(n);
        let owners = self.owners;
        let owner = record_at(owners, n, 0);
        !(is_action_placed(&self.tables, owner, command)
            & (command.alt.is_none() | has_check(&self.tables, command)))
    }
}

pub(crate) fn check_places(counted: Counted<'_>) -> Result<(), Breach>
    ensures { broke result ≡ placed (view counted.entry.tables) }
{
    let tables = counted.tables;
    let owners = work_out(&Owner { tables }, tables.head.commands);
    let misplaced = Misplaced {
        tables,
        owners: &owners,
    };
    sweep(
        Rule::Places,
        Kind::Command,
        tables.head.commands,
        &misplaced,
    )
}
