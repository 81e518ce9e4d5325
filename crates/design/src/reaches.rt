// What the chain from each command on may reach.
ghost use Rattle.std.specs.Prelude.{◌≡◌, ℕ, ◌<◌, false, if◌then◌else◌, nat_eq, nat_lt, slice_index, slice_index_or};
ghost use Rattle.records.specs.declared.Command.{Command as CommandRecord};
ghost use Rattle.shape.specs.Shape.{is_if, owner_of};
ghost use Rattle.rules.specs.Tables.{HoldsBelow};
ghost use Rattle.shape.specs.View.{view};
ghost use Rattle.design.specs.Chains.{is_fall, reach, chain_at};
ghost use Rattle.design.specs.Reaches.{link_reach, command_reach, row_reach};

use crate::formed::Formed;
use crate::sets::{union_below, union_of};
use crate::states::{Below, MOST_STATES, work_out_below};
use records::{Action, Command};
use rules::{MOST_RECORDS, Numbers};
use search::Amount;
use shape::{is_if, record_at};

// A set for each command, empty past the last. An array of its limit, so that working it out cannot fail.
pub(crate) type Row = Numbers;

// What a command in state s reaches by itself. A trait and no closure, so that its meaning is stated and proved once, and not
// at each call that passes it on.
pub(crate) trait Own {
    ghost own: { Self → ℕ → CommandRecord → ℕ };

    fn reached(&self, s: u32, command: Command) -> u32
        ensures { result ≡ own self.now s command };
}

fn is_fall(action: Action) -> bool
    ensures { result ≡ is_fall action }
{
    action == Action::Fall
}

fn link_reach(row: &Row, field: Option<u32>) -> u32
    ensures { result ≡ link_reach (λ j. slice_index row.now j) field }
{
    field.map_or(0, |m| record_at(row, m, 0))
}

// Only the fields of an if are branches.
fn branch_reach(row: &Row, action: Action, field: Option<u32>) -> u32
    ensures { result ≡ (if is_if action then link_reach (λ j. slice_index row.now j) field else 0) }
{
    if is_if(action) {
        link_reach(row, field)
    } else {
        0
    }
}

// The reach from a command in state s on, from the reaches of later commands and, in `falls`, of the states below.
fn command_reach<O: Own>(own: &O, row: &Row, s: u32, command: Command, falls: u32) -> u32
    ensures { result ≡ command_reach (O.Own.own own.now s) falls (λ j. slice_index row.now j) command }
{
    let action = command.action;
    let below = if is_fall(action) { falls } else { 0 };
    union_of(&[
        own.reached(s, command),
        link_reach(row, command.alt),
        link_reach(row, command.next),
        branch_reach(row, action, command.x),
        branch_reach(row, action, command.i),
        below,
    ])
}

// The reach from each command on, as a command of state s. A loop as that of `rules`' `work_out`, and the other way.
fn work_out_row<O: Own>(own: &O, formed: Formed<'_>, s: u32, falls: u32) -> Row
    ensures { HoldsBelow 0 formed.entry.tables.head.commands (row_reach (view formed.entry.tables) (O.Own.own own.now s) falls) result }
{
    let tables = formed.tables;
    let mut row = [0; MOST_RECORDS];
    for k in (0..tables.head.commands).rev() {
        row[k as usize] = command_reach(own, &row, s, tables.command(k), falls);
    }
    row
}

// The reaches of the chains of the states below.
#[derive(Drop)]
struct Falls<'a, 'b> {
    below: &'a Below,
    firsts: &'b [u32; MOST_STATES],
}

impl Amount for Falls<'_, '_> {
    ghost amounts = { λ x t. (if slice_index_or x.below.now t false then slice_index x.firsts.now t else 0) };

    fn amount(&self, t: u32) -> u32 {
        let below = self.below;
        let firsts = self.firsts;
        if record_at(below, t, false) {
            record_at(firsts, t, 0)
        } else {
            0
        }
    }
}

// Puts the reaches of the commands of state s, as their row has them. By place, since three tables go together.
fn put_own(reaches: &mut Row, row: &Row, owners: &Row, s: u32)
    ensures { (k : ℕ) → k < 256 → slice_index reaches.new k ≡ (if nat_eq (slice_index owners.now k) s then slice_index row.now k else slice_index reaches.old k) }
{
    for (k, reach) in reaches.iter_mut().enumerate() {
        if owners[k] == s {
            *reach = row[k];
        }
    }
}

// The reach of the chain from each command on. A loop that goes down, since the falls of a state read the reaches of the
// states below it.
pub(crate) fn work_out_reaches<O: Own>(own: &O, formed: Formed<'_>, owners: &Row) -> Row
    requires { (k : ℕ) → k < formed.tables.head.commands → slice_index owners.now k ≡ owner_of (view formed.tables) k }
    ensures { (k : ℕ) → k < formed.entry.tables.head.commands → slice_index result k ≡ reach formed.entry.tables.head.states (O.Own.own own.now) (chain_at (view formed.entry.tables) (owner_of (view formed.entry.tables) k) k) }
{
    let tables = formed.tables;
    let mut firsts = [0; MOST_STATES];
    let mut reaches = [0; MOST_RECORDS];
    for s in (0..tables.head.states).rev() {
        let below = work_out_below(formed, s);
        let falls = union_below(
            &Falls {
                below: &below,
                firsts: &firsts,
            },
            tables.head.states,
        );
        let row = work_out_row(own, formed, s, falls);
        firsts[s as usize] = record_at(&row, tables.state(s).first, 0);
        put_own(&mut reaches, &row, owners, s);
    }
    reaches
}
