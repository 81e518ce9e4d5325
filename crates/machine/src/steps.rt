// Starts and steps over lent memory. They take the slices as a caller has them: a struct of all would be made only to be taken
// apart. Each clause names the verdict in full, so that it can be read by itself.
ghost use Rattle.std.specs.Prelude.{◌≡◌, ◌≤◌, length, None};
ghost use Rattle.rules.specs.Faults.{refusal};
ghost use Rattle.design.specs.Model.{owned};
ghost use Rattle.actions.specs.Memory.{memory_of};
ghost use Rattle.machine.specs.Cycle.{cycle};
ghost use Rattle.machine.specs.Links.{Whole};
ghost use Rattle.machine.specs.Lending.{Decides, start_verdict, step_verdict, first_pointers, left_by, laid, GoesOn};

use crate::asked::{check_cells, check_memory, check_step};
use crate::chains::{Log, run_chain};
use actions::{Board, Memory};
use design::Accepted;
use lattice::Lattice;
use records::{Cell, Input, Pointer, Report};
use rules::DesignFault;

// Each pointer at its state's lowest child, at bottom.
fn set_pointers<L: Lattice>(design: &Accepted<L>, pointers: &mut [Pointer])
    requires { length pointers.old ≡ design.now.records.head.states }
    ensures { pointers.new ≡ first_pointers (L.Lattice.model design.now.lattice).joins (owned design.now.records) }
{
    let bottom = design.lattice().bottom();
    for (s, pointer) in pointers.iter_mut().enumerate() {
        *pointer = Pointer {
            value: design.state_facts(s as u32).lowest_child,
            level: bottom,
        };
    }
}

// Starts a design on the cells it is lent: tests them, and sets the pointers. A refusal leaves all as it was.
pub fn start<L: Lattice>(
    design: &Accepted<L>,
    cells: &[Cell],
    pointers: &mut [Pointer],
) -> Result<(), DesignFault>
    ensures answer { Decides refusal (start_verdict (L.Lattice.model design.now.lattice).joins (owned design.now.records) cells.now (length pointers.old)) (λ _. Unit {0}) result }
    ensures pointers { pointers.new ≡ left_by (start_verdict (L.Lattice.model design.now.lattice).joins (owned design.now.records) cells.now (length pointers.old)) (first_pointers (L.Lattice.model design.now.lattice).joins (owned design.now.records)) pointers.old }
    ensures goes_on { (start_verdict (L.Lattice.model design.now.lattice).joins (owned design.now.records) cells.now (length pointers.old)) ≡ None → GoesOn (L.Lattice.model design.now.lattice).joins (owned design.now.records) cells.now pointers.new }
{
    check_memory(design, cells.len(), pointers.len())?;
    check_cells(design, cells)?;
    set_pointers(design, pointers);
    Ok(())
}

// One cycle, from the root on; its reports are counted.
fn run_cycle<L: Lattice>(
    design: &Accepted<L>,
    inputs: &[Input],
    cells: &mut [Cell],
    pointers: &mut [Pointer],
    reports: &mut [Report],
) -> u32
    requires { design.now.records.head.commands ≤ length reports.old }
    ensures memory { memory_of cells.new pointers.new ≡ (cycle (L.Lattice.model design.now.lattice).joins (owned design.now.records) inputs.now (memory_of cells.old pointers.old)).memory }
    ensures reports { reports.new ≡ laid (cycle (L.Lattice.model design.now.lattice).joins (owned design.now.records) inputs.now (memory_of cells.old pointers.old)).reports reports.old }
    ensures count { result ≡ length (cycle (L.Lattice.model design.now.lattice).joins (owned design.now.records) inputs.now (memory_of cells.old pointers.old)).reports }
    ensures few { result ≤ (owned design.now.records).head.commands }
{
    let mut memory = Memory { cells, pointers };
    let mut log = Log {
        table: reports,
        count: 0,
    };
    let board = Board { design, inputs };
    let first = design.tables().state(0).first;
    let bottom = design.lattice().bottom();
    run_chain(&board, Some(first), bottom, &mut memory, &mut log);
    log.count as u32
}

// Runs one cycle on the memory it is lent, and answers how many reports it made. It tests all that it is lent before it
// changes anything; a refusal leaves all as it was.
pub fn step<L: Lattice>(
    design: &Accepted<L>,
    inputs: &[Input],
    cells: &mut [Cell],
    pointers: &mut [Pointer],
    reports: &mut [Report],
) -> Result<u32, DesignFault>
    ensures answer { Decides refusal (step_verdict (L.Lattice.model design.now.lattice).joins (owned design.now.records) cells.old pointers.old inputs.now (length reports.old)) (λ count. (count ≡ length (cycle (L.Lattice.model design.now.lattice).joins (owned design.now.records) inputs.now (memory_of cells.old pointers.old)).reports) × (count ≤ (owned design.now.records).head.commands) × Whole (owned design.now.records)) result }
    ensures cells { cells.new ≡ left_by (step_verdict (L.Lattice.model design.now.lattice).joins (owned design.now.records) cells.old pointers.old inputs.now (length reports.old)) (cycle (L.Lattice.model design.now.lattice).joins (owned design.now.records) inputs.now (memory_of cells.old pointers.old)).memory.cells cells.old }
    ensures pointers { pointers.new ≡ left_by (step_verdict (L.Lattice.model design.now.lattice).joins (owned design.now.records) cells.old pointers.old inputs.now (length reports.old)) (cycle (L.Lattice.model design.now.lattice).joins (owned design.now.records) inputs.now (memory_of cells.old pointers.old)).memory.pointers pointers.old }
    ensures reports { reports.new ≡ left_by (step_verdict (L.Lattice.model design.now.lattice).joins (owned design.now.records) cells.old pointers.old inputs.now (length reports.old)) (laid (cycle (L.Lattice.model design.now.lattice).joins (owned design.now.records) inputs.now (memory_of cells.old pointers.old)).reports reports.old) reports.old }
    ensures goes_on { (step_verdict (L.Lattice.model design.now.lattice).joins (owned design.now.records) cells.old pointers.old inputs.now (length reports.old)) ≡ None → GoesOn (L.Lattice.model design.now.lattice).joins (owned design.now.records) cells.new pointers.new }
{
    check_step(design, inputs, cells, pointers, reports.len())?;
    Ok(run_cycle(design, inputs, cells, pointers, reports))
}
