// What a start and a step ask of the memory that they are lent.
ghost use Rattle.std.specs.Prelude.{◌≡◌, ◌^◌, nat_lt};
ghost use Rattle.rules.specs.declared.faults.DesignFault.TheVariants.{WrongLength as WrongLengthOf};
ghost use Rattle.rules.specs.Faults.{broke, refusal};
ghost use Rattle.rules.specs.Rules.{◌⊳◌};
ghost use Rattle.design.specs.Model.{owned};
ghost use Rattle.machine.specs.Lending.{Decides, step_verdict, all_cells, exactly, at_least, too_wide, under_floor as is_under_floor, bad_level, names_child as is_child_named, bad_pointer, bad_input, bad_cells, bad_pointers, bad_inputs};
ghost use Rattle.machine.specs.Lengths.{wrong_length};

use design::Accepted;
use lattice::Lattice;
use records::{Cell, Input, Pointer};
use rules::{Breach, DesignFault, Kind, Rule, sweep};
use search::Test;
use shape::{is_number, record_at};

// The length that a table that was lent ought to have.
#[derive(Clone, Copy)]
pub(crate) struct WrongLength {
    pub(crate) needed: u32,
}

impl From<WrongLength> for DesignFault {
    ghost from_gives = { λ e r. r ≡ WrongLengthOf e.needed };

    fn from(e: WrongLength) -> DesignFault {
        DesignFault::WrongLength { needed: e.needed }
    }
}

fn exactly(needed: u32, len: usize) -> Result<(), WrongLength>
    ensures { wrong_length result ≡ exactly needed len }
{
    if len == needed as usize {
        Ok(())
    } else {
        Err(WrongLength { needed })
    }
}

fn at_least(needed: u32, len: usize) -> Result<(), WrongLength>
    ensures { wrong_length result ≡ at_least needed len }
{
    if needed as usize <= len {
        Ok(())
    } else {
        Err(WrongLength { needed })
    }
}

fn cell_count<L>(design: &Accepted<L>) -> u32
    ensures { result ≡ all_cells (owned design.now.records) }
{
    design.first_cell(design.tables().head.registers)
}

// The lengths of the cells and the pointers.
pub(crate) fn check_memory<L>(
    design: &Accepted<L>,
    cells: usize,
    pointers: usize,
) -> Result<(), WrongLength>
    ensures { wrong_length result ≡ (exactly (all_cells (owned design.now.records)) cells ⊳ exactly (owned design.now.records).head.states pointers) }
{
    exactly(cell_count(design), cells)?;
    exactly(design.tables().head.states, pointers)
}

// A value that its width holds.
fn fits(width: u32, value: u32) -> bool
    ensures { result ≡ nat_lt value (2 ^ width) }
{
    32 <= width || value < (1 << width)
}

// Cells whose values are too wide.
#[derive(Drop)]
struct TooWide<'a, 'b, L> {
    design: &'a Accepted<L>,
    cells: &'b [Cell],
}

impl<L> Test for TooWide<'_, '_, L> {
    ghost test = { λ x. too_wide (owned x.design.now.records) x.cells.now };

    fn passes(&self, j: u32) -> bool {
        let register = self.design.tables().register(self.design.register_of(j));
        !fits(
            register.width,
            record_at(self.cells, j, Cell::default()).value,
        )
    }
}

// No level, or one to which the floor does not flow.
fn under_floor<L: Lattice>(lattice: &L, floor: Option<u32>, level: u32) -> bool
    ensures { result ≡ is_under_floor (L.Lattice.model lattice.now).joins floor level }
{
    !lattice.is_level(level) || floor.is_some_and(|floor| !lattice.flows(floor, level))
}

// Cells whose levels are none, or below their floors.
#[derive(Drop)]
struct BadLevel<'a, 'b, L> {
    design: &'a Accepted<L>,
    cells: &'b [Cell],
}

impl<L: Lattice> Test for BadLevel<'_, '_, L> {
    ghost test = { λ x. bad_level (L.Lattice.model x.design.now.lattice).joins (owned x.design.now.records) x.cells.now };

    fn passes(&self, j: u32) -> bool {
        let register = self.design.tables().register(self.design.register_of(j));
        let cell = record_at(self.cells, j, Cell::default());
        under_floor(self.design.lattice(), register.floor, cell.level)
    }
}

// Values first, then levels.
pub(crate) fn check_cells<L: Lattice>(design: &Accepted<L>, cells: &[Cell]) -> Result<(), Breach>
    ensures { broke result ≡ bad_cells (L.Lattice.model design.now.lattice).joins (owned design.now.records) cells.now }
{
    let count = cell_count(design);
    let values = TooWide { design, cells };
    sweep(Rule::Sizes, Kind::Cell, count, &values)?;
    let levels = BadLevel { design, cells };
    sweep(Rule::Levels, Kind::Cell, count, &levels)
}

// A child of state s, or none for a leaf: two questions, so that a match is plainer than a test of what the option holds.
fn names_child<L>(design: &Accepted<L>, s: u32, child: Option<u32>) -> bool
    ensures { result ≡ is_child_named (owned design.now.records) s child }
{
    match child {
        None => design.state_facts(s).lowest_child.is_none(),
        Some(t) => {
            let tables = design.tables();
            (t < tables.head.states) & is_number(tables.state(t).parent, s)
        }
    }
}

#[derive(Drop)]
struct BadPointer<'a, 'b, L> {
    design: &'a Accepted<L>,
    pointers: &'b [Pointer],
}

impl<L: Lattice> Test for BadPointer<'_, '_, L> {
    ghost test = { λ x. bad_pointer (L.Lattice.model x.design.now.lattice).joins (owned x.design.now.records) x.pointers.now };

    fn passes(&self, s: u32) -> bool {
        let pointer = record_at(self.pointers, s, Pointer::default());
        !self.design.lattice().is_level(pointer.level) | !names_child(self.design, s, pointer.value)
    }
}

fn check_pointers<L: Lattice>(design: &Accepted<L>, pointers: &[Pointer]) -> Result<(), Breach>
    ensures { broke result ≡ bad_pointers (L.Lattice.model design.now.lattice).joins (owned design.now.records) pointers.now }
{
    let states = design.tables().head.states;
    sweep(
        Rule::Levels,
        Kind::State,
        states,
        &BadPointer { design, pointers },
    )
}

#[derive(Drop)]
struct BadInput<'a, 'b, L> {
    design: &'a Accepted<L>,
    inputs: &'b [Input],
}

impl<L: Lattice> Test for BadInput<'_, '_, L> {
    ghost test = { λ x. bad_input (L.Lattice.model x.design.now.lattice).joins (owned x.design.now.records) x.inputs.now };

    fn passes(&self, p: u32) -> bool {
        let input = record_at(self.inputs, p, Input::default());
        !self.design.lattice().is_level(input.level)
    }
}

fn check_inputs<L: Lattice>(design: &Accepted<L>, inputs: &[Input]) -> Result<(), Breach>
    ensures { broke result ≡ bad_inputs (L.Lattice.model design.now.lattice).joins (owned design.now.records) inputs.now }
{
    let ports = design.tables().head.ports;
    sweep(
        Rule::Levels,
        Kind::Input,
        ports,
        &BadInput { design, inputs },
    )
}

// Lengths, then cells, pointers and inputs.
pub(crate) fn check_step<L: Lattice>(
    design: &Accepted<L>,
    inputs: &[Input],
    cells: &[Cell],
    pointers: &[Pointer],
    reports: usize,
) -> Result<(), DesignFault>
    ensures { Decides refusal (step_verdict (L.Lattice.model design.now.lattice).joins (owned design.now.records) cells.now pointers.now inputs.now reports) (λ _. Unit {0}) result }
{
    let head = design.tables().head;
    check_memory(design, cells.len(), pointers.len())?;
    exactly(head.ports, inputs.len())?;
    at_least(head.commands, reports)?;
    check_cells(design, cells)?;
    check_pointers(design, pointers)?;
    check_inputs(design, inputs)?;
    Ok(())
}
