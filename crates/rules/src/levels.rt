// Rule 5: the levels that records name.
ghost use Rattle.std.specs.Prelude.{◌≡◌};
ghost use Rattle.rules.specs.Faults.{broke};
ghost use Rattle.shape.specs.Shape.{register_at, command_at, is_tag};
ghost use Rattle.rules.specs.Rules.{is_level, bad_floor, bad_state_level, bad_tag_level, levels};
ghost use Rattle.shape.specs.View.{view};

use crate::faults::{Breach, Kind, Rule};
use crate::sweeps::sweep;
use lattice::Lattice;
use records::Action;
use search::Test;
use shape::{Tables, is_enforced, is_number};

fn names_level<L: Lattice>(lattice: &L, field: Option<u32>) -> bool
    ensures { result ≡ is_level (L.Lattice.model lattice.now).joins field }
{
    field.is_some_and(|level| lattice.is_level(level))
}

fn is_tag(action: Action) -> bool
    ensures { result ≡ is_tag action }
{
    action == Action::Tag
}

#[derive(Drop)]
struct BadFloor<'a, 'b, L> {
    lattice: &'a L,
    tables: Tables<'b>,
}

impl<L: Lattice> Test for BadFloor<'_, '_, L> {
    ghost test = { λ x n. bad_floor (L.Lattice.model x.lattice.now).joins (register_at (view x.tables) n) };

    fn passes(&self, n: u32) -> bool {
        let register = self.tables.register(n);
        is_enforced(register.mode) & !names_level(self.lattice, register.floor)
    }
}

#[derive(Drop)]
struct BadStateLevel<'a, 'b, L> {
    lattice: &'a L,
    tables: Tables<'b>,
}

impl<L: Lattice> Test for BadStateLevel<'_, '_, L> {
    ghost test = { λ x. bad_state_level (L.Lattice.model x.lattice.now).joins (view x.tables) };

    fn passes(&self, n: u32) -> bool {
        let state = self.tables.state(n);
        let enforced = is_enforced(state.mode);
        if n == 0 {
            !(enforced & is_number(state.level, self.lattice.bottom()))
        } else {
            enforced & !names_level(self.lattice, state.level)
        }
    }
}

#[derive(Drop)]
struct BadTagLevel<'a, 'b, L> {
    lattice: &'a L,
    tables: Tables<'b>,
}

impl<L: Lattice> Test for BadTagLevel<'_, '_, L> {
    ghost test = { λ x n. bad_tag_level (L.Lattice.model x.lattice.now).joins (command_at (view x.tables) n) };

    fn passes(&self, n: u32) -> bool {
        let command = self.tables.command(n);
        is_tag(command.action) & !names_level(self.lattice, command.e)
    }
}

pub(crate) fn check_levels<L: Lattice>(lattice: &L, tables: Tables<'_>) -> Result<(), Breach>
    ensures { broke result ≡ levels (L.Lattice.model lattice.now).joins (view tables.entry) }
{
    let head = tables.head;
    let floors = BadFloor { lattice, tables };
    sweep(Rule::Levels, Kind::Register, head.registers, &floors)?;
    let states = BadStateLevel { lattice, tables };
    sweep(Rule::Levels, Kind::State, head.states, &states)?;
    let tags = BadTagLevel { lattice, tables };
    sweep(Rule::Levels, Kind::Command, head.commands, &tags)
}
