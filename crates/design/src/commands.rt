// What is worked out of each command.
ghost use Rattle.std.specs.Prelude.{◌≡◌, map, IfOk};
ghost use Rattle.std.specs.List.{range_with_len};
ghost use Rattle.std.proofs.Props.{props};
ghost use Rattle.shape.specs.View.{view};
ghost use Rattle.design.specs.Chains.{set_register, own_registers, own_pointers};
ghost use Rattle.design.specs.Facts.{state_facts, command_facts, facts_in};

use crate::facts::{CommandFacts, StateFacts};
use crate::formed::Formed;
use crate::reaches::{Own, Row, work_out_reaches};
use records::{Action, Command};
use rules::owners;
use shape::{is_enforced, record_at};
use std::alloc::{AllocError, Global};

// The dynamic registers that are set.
#[derive(Drop)]
struct Registers<'a> {
    formed: Formed<'a>,
}

// A match, since of `filter` and `map_or` it is not found that the shift fits.
fn set_register(formed: Formed<'_>, x: Option<u32>) -> u32
    ensures { result ≡ set_register (view formed.entry.tables) x }
{
    match x {
        Some(register) if !is_enforced(formed.tables.register(register).mode) => 1 << register,
        _ => 0,
    }
}

impl Own for Registers<'_> {
    ghost own = { λ x. own_registers (view x.formed.tables) };

    fn reached(&self, s: u32, command: Command) -> u32 {
        match command.action {
            Action::Set => set_register(self.formed, command.x),
            _ => 0,
        }
    }
}

// The pointers that gotos move.
#[derive(Drop)]
struct Pointers<'a, 'b> {
    formed: Formed<'a>,
    states: &'b [StateFacts],
    ghost worked: { states.now ≡ map (state_facts (view formed.tables)) (range_with_len 0 formed.tables.head.states) } by { Prim.hlevel props },
}

impl Own for Pointers<'_, '_> {
    ghost own = { λ x. own_pointers (view x.formed.tables) };

    fn reached(&self, s: u32, command: Command) -> u32 {
        match command.action {
            Action::Goto => record_at(self.states, s, StateFacts::default()).moved,
            _ => 0,
        }
    }
}

// The facts of the commands below `count`, from a row of each kind.
fn collect_facts(
    heap: Global,
    count: u32,
    owners: &Row,
    registers: &Row,
    pointers: &Row,
) -> Result<Vec<CommandFacts>, AllocError>
    ensures { IfOk result (λ v. v.items ≡ map (facts_in owners.now registers.now pointers.now) (range_with_len 0 count)) }
{
    (0..count)
        .map(|k| CommandFacts {
            owner: record_at(owners, k, 0),
            registers: record_at(registers, k, 0),
            pointers: record_at(pointers, k, 0),
        })
        .collect(heap)
}

pub(crate) fn work_out_commands(
    heap: Global,
    formed: Formed<'_>,
    states: &[StateFacts],
) -> Result<Vec<CommandFacts>, AllocError>
    requires { states.now ≡ map (state_facts (view formed.tables)) (range_with_len 0 formed.tables.head.states) }
    ensures { IfOk result (λ v. v.items ≡ map (command_facts (view formed.entry.tables)) (range_with_len 0 formed.entry.tables.head.commands)) }
{
    let tables = formed.tables;
    let owners = owners(tables);
    let registers = work_out_reaches(&Registers { formed }, formed, &owners);
    let pointers = work_out_reaches(&Pointers { formed, states }, formed, &owners);
    collect_facts(heap, tables.head.commands, &owners, &registers, &pointers)
}
