// What the program prints.
use draft::Draft;
use lattice::Lattice;
use records::{Head, State};
use shape::record_at;
use std::alloc::{AllocError, Global};
use table::Table;

// A line for the lattice, then one for each two levels.
pub(crate) fn lattice(rt: &HostRuntime, table: &Table, levels: u32) -> anyhow::Result<()> {
    let width = table.width();
    let bottom = table.bottom();
    let top = table.top();
    println!(rt; "levels={levels} width={width} bottom={bottom} top={top}")?;
    for left in 0..levels {
        bounds(rt, table, left, levels)?;
    }
    Ok(())
}

fn bounds(rt: &HostRuntime, table: &Table, left: u32, levels: u32) -> anyhow::Result<()> {
    for right in left..levels {
        let join = table.join(left, right);
        let meet = table.meet(left, right);
        println!(rt; "left={left} right={right} join={join} meet={meet}")?;
    }
    Ok(())
}

// The counts of an accepted design, its cells in all, and how deep its states are.
pub(crate) fn design(rt: &HostRuntime, draft: &Draft) -> anyhow::Result<()> {
    let tables = draft.tables();
    let Head {
        ports,
        registers,
        states,
        expressions,
        commands,
        ..
    } = tables.head;
    let cells = draft.cell_count();
    let depth = depth(rt.alloc(), tables.states)?;
    println!(rt;
        "accepted ports={ports} registers={registers} states={states} expressions={expressions} commands={commands} cells={cells} depth={depth}"
    )?;
    Ok(())
}

// How many states the deepest state is below the root.
fn depth(heap: Global, states: &[State]) -> Result<u32, AllocError> {
    let mut depths: Vec<u32> = Vec::new(heap);
    for state in states {
        let depth = state.parent.map_or(0, |parent| {
            record_at(depths.as_slice(), parent, 0).saturating_add(1)
        });
        depths.push(depth)?;
    }
    Ok(depths.iter().copied().max().unwrap_or(0))
}
