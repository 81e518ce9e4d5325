ghost use Rattle.std.specs.Prelude.{◌≡◌, length, take, IfOk};
ghost use Rattle.lattice.specs.Faults.{Answers};
ghost use Rattle.rules.specs.Faults.{refusal, kind_number};
ghost use Rattle.shape.specs.View.{view};
ghost use Rattle.design.specs.Facts.{WorkedOut};
ghost use Rattle.design.specs.Model.{owned};
ghost use Rattle.design.specs.Verdict.{too_short, short_table, short, cut, verdict};

use crate::accepted::Accepted;
use crate::facts::work_out_facts;
use crate::formed::Formed;
use crate::owned::Records;
use lattice::Lattice;
use rules::{DesignFault, Kind, check};
use shape::Tables;
use std::alloc::{AllocError, Global};

// As many records as the head says; a table may be longer. One that is shorter is refused by its kind.
fn cut_table<T>(kind: Kind, table: &[T], count: u32) -> Result<&[T], Kind>
    ensures { Answers too_short (short_table (kind_number kind) (length table.now) count) (λ t. t.now ≡ take count table.now) result }
{
    let count = count as usize;
    if table.len() < count {
        return Err(kind);
    }
    Ok(&table[..count])
}

fn cut_tables<'a>(tables: Tables<'a>) -> Result<Tables<'a>, Kind>
    ensures { Answers too_short (short (view tables.entry)) (λ t. view t ≡ cut (view tables.entry)) result }
{
    let head = tables.head;
    Ok(Tables {
        head,
        ports: cut_table(Kind::Port, tables.ports, head.ports)?,
        registers: cut_table(Kind::Register, tables.registers, head.registers)?,
        states: cut_table(Kind::State, tables.states, head.states)?,
        expressions: cut_table(Kind::Expression, tables.expressions, head.expressions)?,
        commands: cut_table(Kind::Command, tables.commands, head.commands)?,
    })
}

fn copy_records(heap: Global, tables: Tables<'_>) -> Result<Records, AllocError>
    ensures { IfOk result (λ x. owned x ≡ view tables.entry) }
{
    Ok(Records {
        head: tables.head,
        ports: Vec::from_slice(heap, tables.ports)?,
        registers: Vec::from_slice(heap, tables.registers)?,
        states: Vec::from_slice(heap, tables.states)?,
        expressions: Vec::from_slice(heap, tables.expressions)?,
        commands: Vec::from_slice(heap, tables.commands)?,
    })
}

// Accepts a design exactly when it keeps every rule. What was lent stays as it was; the accepted design has copies.
pub fn accept<L: Lattice + Drop>(
    heap: Global,
    lattice: L,
    tables: Tables<'_>,
) -> Result<Accepted<L>, DesignFault>
    ensures { Answers refusal (verdict (L.Lattice.model lattice).joins (view tables.entry)) (λ a. (a.lattice ≡ lattice) × (owned a.records ≡ cut (view tables.entry)) × WorkedOut (cut (view tables.entry)) a.facts) result }
{
    let tables = cut_tables(tables).map_err(|kind| DesignFault::ShortTable { kind })?;
    check(&lattice, tables)?;
    let records = copy_records(heap, tables)?;
    let facts = work_out_facts(heap, Formed { tables })?;
    Ok(Accepted {
        lattice,
        records,
        facts,
    })
}
