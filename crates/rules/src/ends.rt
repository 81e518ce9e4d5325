// Rule 7: which chains end.
ghost use Rattle.std.specs.Prelude.{◌≡◌, ℕ, ◌≤◌, false, not, get_or, slice_index_or};
ghost use Rattle.shape.specs.Shape.{leaves, branch_ends, is_last, chain_ends, ends_of, state_at, command_at};
ghost use Rattle.rules.specs.Faults.{broke};
ghost use Rattle.rules.specs.Rules.{command_ends, ended};
ghost use Rattle.shape.specs.View.{view};

use crate::faults::{Breach, Kind, Rule};
use crate::ranks::MOST_RECORDS;
use crate::sizes::Counted;
use crate::sweeps::sweep;
use records::{Action, Command};
use search::Test;
use shape::{Tables, is_if, record_at};

type Ends = [bool; MOST_RECORDS];

// A goto or a fall.
fn is_leaving(action: Action) -> bool
    ensures { result ≡ leaves action }
{
    matches!(action, Action::Goto | Action::Fall)
}

fn is_branch_ending(ends: &Ends, field: Option<u32>) -> bool
    ensures { result ≡ branch_ends (λ j. get_or ends.now j false) field }
{
    field.is_some_and(|k| record_at(ends, k, false))
}

// The command must be the last of its chain.
fn is_final(ends: &Ends, command: Command) -> bool
    ensures { result ≡ is_last (λ j. get_or ends.now j false) command }
{
    let branches = is_branch_ending(ends, command.x) & is_branch_ending(ends, command.i);
    is_leaving(command.action) | (is_if(command.action) & branches)
}

// The chain from a command on ends.
fn is_chain_ending(ends: &Ends, command: Command) -> bool
    ensures { result ≡ chain_ends (λ j. get_or ends.now j false) command }
{
    command
        .next
        .map_or_else(|| is_final(ends, command), |k| record_at(ends, k, false))
}

// Whether the chain from each command on ends. A loop, since each is worked out of those after it.
fn work_out_ends(counted: Counted<'_>) -> Ends
    ensures { (k : ℕ) → slice_index_or result k false ≡ ends_of (view counted.entry.tables) k }
{
    let tables = counted.tables;
    let mut ends = [false; MOST_RECORDS];
    for k in (0..tables.head.commands).rev() {
        ends[k as usize] = is_chain_ending(&ends, tables.command(k));
    }
    ends
}

// The states whose chains do not end.
#[derive(Drop)]
struct Endless<'a, 'b> {
    tables: Tables<'a>,
    ends: &'b Ends,
}

impl Test for Endless<'_, '_> {
    ghost test = { λ x n. not (slice_index_or x.ends.now (state_at (view x.tables) n).first false) };

    fn passes(&self, n: u32) -> bool {
        let ends = self.ends;
        !record_at(ends, self.tables.state(n).first, false)
    }
}

// The commands that end where they must not, or go on where they must end.
#[derive(Drop)]
struct MisEnded<'a, 'b> {
    tables: Tables<'a>,
    ends: &'b Ends,
}

impl Test for MisEnded<'_, '_> {
    ghost test = { λ x n. not (command_ends (λ j. get_or x.ends.now j false) (command_at (view x.tables) n)) };

    fn passes(&self, n: u32) -> bool {
        !is_command_ending(self.ends, self.tables.command(n))
    }
}

fn is_command_ending(ends: &Ends, command: Command) -> bool
    ensures { result ≡ command_ends (λ j. get_or ends.now j false) command }
{
    let last = !(is_final(ends, command) & command.next.is_some());
    let even = is_branch_ending(ends, command.x) == is_branch_ending(ends, command.i);
    let alike = is_branch_ending(ends, command.alt) == is_leaving(command.action);
    last & (!is_if(command.action) | even) & (command.alt.is_none() | alike)
}

pub(crate) fn check_ends(counted: Counted<'_>) -> Result<(), Breach>
    ensures { broke result ≡ ended (view counted.entry.tables) }
{
    let tables = counted.tables;
    let head = tables.head;
    let ends = work_out_ends(counted);
    let endless = Endless {
        tables,
        ends: &ends,
    };
    sweep(Rule::Ends, Kind::State, head.states, &endless)?;
    let mis_ended = MisEnded {
        tables,
        ends: &ends,
    };
    sweep(Rule::Ends, Kind::Command, head.commands, &mis_ended)
}
