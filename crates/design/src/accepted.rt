// The accepted design, and what it keeps of its states, commands, registers and cells.
ghost use Rattle.std.specs.Prelude.{◌≡◌, false, is_some};
ghost use Rattle.std.proofs.Props.{props};
ghost use Rattle.rules.specs.Rules.{cells_below};
ghost use Rattle.shape.specs.View.{view};
ghost use Rattle.design.specs.Facts.{WorkedOut, state_kept, command_kept, register_of};
ghost use Rattle.design.specs.Model.{owned};
ghost use Rattle.design.specs.Verdict.{Exact, well_formed};

use crate::facts::{CommandFacts, Facts, StateFacts};
use crate::owned::Records;
use shape::{Tables, record_at};

// A design that keeps every rule, with the lattice under which it was accepted. Only `accept` makes one.
#[derive(Drop)]
pub struct Accepted<L> {
    pub(crate) lattice: L,
    pub(crate) records: Records,
    pub(crate) facts: Facts,
    ghost worked: { WorkedOut (owned records) facts } by { Prim.hlevel props },
    ghost formed: { is_some (well_formed (owned records)) ≡ false },
    ghost exact: { Exact (owned records) },
}

impl<L> Accepted<L> {
    pub fn lattice(&self) -> &L
        ensures { result.now ≡ self.now.lattice }
    {
        &self.lattice
    }

    // The records, to be read.
    pub fn tables(&self) -> Tables<'_>
        ensures { view result ≡ owned self.now.records }
    {
        Tables {
            head: self.records.head,
            ports: &self.records.ports,
            registers: &self.records.registers,
            states: &self.records.states,
            expressions: &self.records.expressions,
            commands: &self.records.commands,
        }
    }

    // What is worked out of state s; past the last state, nothing.
    pub fn state_facts(&self, s: u32) -> StateFacts
        ensures { result ≡ state_kept (owned self.now.records) s }
    {
        record_at(&self.facts.states, s, StateFacts::default())
    }

    // What is worked out of command k; past the last command, nothing.
    pub fn command_facts(&self, k: u32) -> CommandFacts
        ensures { result ≡ command_kept (owned self.now.records) k }
    {
        record_at(&self.facts.commands, k, CommandFacts::default())
    }

    // Single facts, for those who need no more: each reads a field of its own.
    pub fn children(&self, s: u32) -> u32
        ensures { result ≡ (state_kept (owned self.now.records) s).children }
    {
        self.state_facts(s).children
    }

    pub fn descendants(&self, s: u32) -> u32
        ensures { result ≡ (state_kept (owned self.now.records) s).descendants }
    {
        self.state_facts(s).descendants
    }

    pub fn lowest_child(&self, s: u32) -> Option<u32>
        ensures { result ≡ (state_kept (owned self.now.records) s).lowest_child }
    {
        self.state_facts(s).lowest_child
    }

    // The states whose pointers a goto in state s may move.
    pub fn moved(&self, s: u32) -> u32
        ensures { result ≡ (state_kept (owned self.now.records) s).moved }
    {
        self.state_facts(s).moved
    }

    // The state of a command.
    pub fn owner(&self, k: u32) -> u32
        ensures { result ≡ (command_kept (owned self.now.records) k).owner }
    {
        self.command_facts(k).owner
    }

    // The registers that the chain from command k on may reach.
    pub fn register_reach(&self, k: u32) -> u32
        ensures { result ≡ (command_kept (owned self.now.records) k).registers }
    {
        self.command_facts(k).registers
    }

    // The states whose pointers the chain from command k on may reach.
    pub fn pointer_reach(&self, k: u32) -> u32
        ensures { result ≡ (command_kept (owned self.now.records) k).pointers }
    {
        self.command_facts(k).pointers
    }

    // The first cell of register x; past the last register, the number of all cells.
    pub fn first_cell(&self, x: u32) -> u32
        ensures { result ≡ cells_below (owned self.now.records) x }
    {
        let cells = self.facts.cells.len() as u32;
        record_at(&self.facts.firsts, x, cells)
    }

    // The register of cell j; past the last cell, the number of registers, as the definition gives it: this cannot fail.
    pub fn register_of(&self, j: u32) -> u32
        ensures { result ≡ register_of (owned self.now.records) j }
    {
        record_at(&self.facts.cells, j, self.records.head.registers)
    }
}
