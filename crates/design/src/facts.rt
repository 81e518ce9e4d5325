// What an accepted design keeps beside its records, worked out once, each list by a contract as the library gives it of a
// chain that is collected. Sets are bits: number t is in a set when bit t is set.
ghost use Rattle.std.specs.Prelude.{IfOk};
ghost use Rattle.shape.specs.View.{view};
ghost use Rattle.design.specs.Facts.{WorkedOut};

use crate::cells::{work_out_cells, work_out_firsts};
use crate::commands::work_out_commands;
use crate::formed::Formed;
use crate::states::work_out_states;
use std::alloc::{AllocError, Global};

// Of a state: its children, its descendants and its lowest child, and the states whose pointers a goto in it may move.
#[derive(Clone, Copy, PartialEq, Eq, Debug, Default)]
pub struct StateFacts {
    pub children: u32,
    pub descendants: u32,
    pub lowest_child: Option<u32>,
    pub moved: u32,
}

// Of a command: its state, and the registers and the pointers that the chain from it on may reach.
#[derive(Clone, Copy, PartialEq, Eq, Debug, Default)]
pub struct CommandFacts {
    pub owner: u32,
    pub registers: u32,
    pub pointers: u32,
}

// Of each state and each command what is above, of each register its first cell, and of each cell its register.
#[derive(Drop)]
pub struct Facts {
    pub(crate) states: Vec<StateFacts>,
    pub(crate) commands: Vec<CommandFacts>,
    pub(crate) firsts: Vec<u32>,
    pub(crate) cells: Vec<u32>,
}

pub(crate) fn work_out_facts(heap: Global, formed: Formed<'_>) -> Result<Facts, AllocError>
    ensures { IfOk result (WorkedOut (view formed.entry.tables)) }
{
    let states = work_out_states(heap, formed)?;
    let commands = work_out_commands(heap, formed, &states)?;
    let firsts = work_out_firsts(heap, formed)?;
    let cells = work_out_cells(heap, formed)?;
    Ok(Facts {
        states,
        commands,
        firsts,
        cells,
    })
}
