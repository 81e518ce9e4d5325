// Starts and steps by turns. They take slices, and name the verdict in each clause, as `machine` does.
ghost use Rattle.std.specs.Prelude.{◌≡◌, ◌≤◌, length, None};
ghost use Rattle.design.specs.Model.{owned};
ghost use Rattle.actions.specs.Memory.{memory_of};
ghost use Rattle.machine.specs.Cycle.{cycle};
ghost use Rattle.machine.specs.Lending.{Decides, start_verdict, step_verdict, first_pointers, left_by, laid, GoesOn};
ghost use Rattle.session.specs.Faults.{refusal};
ghost use Rattle.session.specs.Turns.{untaken};

use crate::faults::SessionFault;
use crate::turns::{NotTaken, Owed, Turn};
use design::Accepted;
use lattice::Lattice;
use records::{Cell, Input, Pointer, Report};

// Starts a design on the cells it is lent, and gives the first turn. A refusal leaves all as it was.
pub fn start<L: Lattice>(
    design: &Accepted<L>,
    cells: &[Cell],
    pointers: &mut [Pointer],
) -> Result<Turn, SessionFault>
    ensures answer { Decides refusal (start_verdict (L.Lattice.model design.now.lattice).joins (owned design.now.records) cells.now (length pointers.old)) (λ _. Unit {0}) result }
    ensures pointers { pointers.new ≡ left_by (start_verdict (L.Lattice.model design.now.lattice).joins (owned design.now.records) cells.now (length pointers.old)) (first_pointers (L.Lattice.model design.now.lattice).joins (owned design.now.records)) pointers.old }
    ensures goes_on { (start_verdict (L.Lattice.model design.now.lattice).joins (owned design.now.records) cells.now (length pointers.old)) ≡ None → GoesOn (L.Lattice.model design.now.lattice).joins (owned design.now.records) cells.now pointers.new }
{
    machine::start(design, cells, pointers)?;
    Ok(Turn { given: () })
}

impl Turn {
    // Runs one cycle, and uses the turn up. A refusal leaves all as it was.
    pub fn step<L: Lattice>(
        self,
        design: &Accepted<L>,
        inputs: &[Input],
        cells: &mut [Cell],
        pointers: &mut [Pointer],
        reports: &mut [Report],
    ) -> Result<Owed, NotTaken>
        ensures answer { Decides untaken (step_verdict (L.Lattice.model design.now.lattice).joins (owned design.now.records) cells.old pointers.old inputs.now (length reports.old)) (λ owed. (owed.count ≡ length (cycle (L.Lattice.model design.now.lattice).joins (owned design.now.records) inputs.now (memory_of cells.old pointers.old)).reports) × (owed.count ≤ (owned design.now.records).head.commands)) result }
        ensures cells { cells.new ≡ left_by (step_verdict (L.Lattice.model design.now.lattice).joins (owned design.now.records) cells.old pointers.old inputs.now (length reports.old)) (cycle (L.Lattice.model design.now.lattice).joins (owned design.now.records) inputs.now (memory_of cells.old pointers.old)).memory.cells cells.old }
        ensures pointers { pointers.new ≡ left_by (step_verdict (L.Lattice.model design.now.lattice).joins (owned design.now.records) cells.old pointers.old inputs.now (length reports.old)) (cycle (L.Lattice.model design.now.lattice).joins (owned design.now.records) inputs.now (memory_of cells.old pointers.old)).memory.pointers pointers.old }
        ensures reports { reports.new ≡ left_by (step_verdict (L.Lattice.model design.now.lattice).joins (owned design.now.records) cells.old pointers.old inputs.now (length reports.old)) (laid (cycle (L.Lattice.model design.now.lattice).joins (owned design.now.records) inputs.now (memory_of cells.old pointers.old)).reports reports.old) reports.old }
        ensures goes_on { (step_verdict (L.Lattice.model design.now.lattice).joins (owned design.now.records) cells.old pointers.old inputs.now (length reports.old)) ≡ None → GoesOn (L.Lattice.model design.now.lattice).joins (owned design.now.records) cells.new pointers.new }
    {
        machine::step(design, inputs, cells, pointers, reports)
            .map(|count| Owed { count })
            .map_err(|fault| NotTaken {
                turn: self,
                fault: fault.into(),
            })
    }
}
