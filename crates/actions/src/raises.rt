// Raises: a level is joined to those of all that a chain may reach.
ghost use Rattle.std.specs.Prelude.{◌≡◌, if◌then◌else◌, Some};
ghost use Rattle.shape.specs.Shape.{state_at, holds};
ghost use Rattle.design.specs.Chains.{lowest_child};
ghost use Rattle.design.specs.Model.{owned};
ghost use Rattle.actions.specs.Actions.{raise_registers, raise_pointers, raise as raise_all, move as moved_pointers};
ghost use Rattle.actions.specs.Lent.{seen, SameLenders};
ghost use Rattle.actions.specs.Memory.{raised, with_cells, with_pointers};

use crate::board::Board;
use crate::memory::Memory;
use crate::ways::Reach;
use lattice::{Lattice, join_all};
use members::Members;
use records::{Labeled, Pointer};
use shape::is_number;

fn raised<L: Lattice, T: Copy>(lattice: &L, k: u32, slot: Labeled<T>) -> Labeled<T>
    ensures { result ≡ raised (L.Lattice.model lattice.now).joins k slot }
{
    Labeled {
        level: join_all(lattice, &[slot.level, k]),
        ..slot
    }
}

impl<L: Lattice> Board<'_, '_, L> {
    // The cells of dynamic registers, each the only one of its register.
    #[tactic(auto, unfolding(crate::specs::Memory::change_each))]
    fn raise_cells(&self, k: u32, registers: u32, memory: &mut Memory<'_>)
        ensures raised { seen memory.new ≡ with_cells (raise_registers (L.Lattice.model self.now.design.now.lattice).joins (owned self.now.design.now.records) k registers memory.old.cells.now) (seen memory.old) }
        ensures lends { SameLenders memory.old memory.new }
    {
        for x in Members::of(registers) {
            let j = self.design.first_cell(x);
            memory.put_cell(j, raised(self.design.lattice(), k, memory.cell(j)));
        }
    }

    #[tactic(auto, unfolding(crate::specs::Memory::change_each))]
    fn raise_pointers(&self, k: u32, states: u32, memory: &mut Memory<'_>)
        ensures raised { seen memory.new ≡ with_pointers (raise_pointers (L.Lattice.model self.now.design.now.lattice).joins (owned self.now.design.now.records) k states memory.old.pointers.now) (seen memory.old) }
        ensures lends { SameLenders memory.old memory.new }
    {
        for s in Members::of(states) {
            memory.put_pointer(s, raised(self.design.lattice(), k, memory.pointer(s)));
        }
    }

    // Joins k to the levels of all that is in a reach.
    pub(crate) fn raise(&self, k: u32, reach: Reach, memory: &mut Memory<'_>)
        ensures raised { seen memory.new ≡ raise_all (L.Lattice.model self.now.design.now.lattice).joins (owned self.now.design.now.records) k reach (seen memory.old) }
        ensures lends { SameLenders memory.old memory.new }
    {
        self.raise_cells(k, reach.registers, memory);
        self.raise_pointers(k, reach.pointers, memory);
    }

    // The current child of a state t whose pointer a goto from state s moves.
    fn child_after(&self, s: u32, target: u32, t: u32) -> Option<u32>
        ensures { result ≡ (if holds (state_at (owned self.now.design.now.records) s).parent t then Some target else lowest_child (owned self.now.design.now.records) t) }
    {
        if is_number(self.design.tables().state(s).parent, t) {
            Some(target)
        } else {
            self.design.state_facts(t).lowest_child
        }
    }

    // Moves the parent's pointer to the target, and has those of state s and of all states below it start anew.
    #[tactic(auto, unfolding(crate::specs::Memory::change_each))]
    pub(crate) fn move_pointers(&self, s: u32, target: u32, context: u32, memory: &mut Memory<'_>)
        ensures moved { seen memory.new ≡ moved_pointers (L.Lattice.model self.now.design.now.lattice).joins (owned self.now.design.now.records) s target context (seen memory.old) }
        ensures lends { SameLenders memory.old memory.new }
    {
        for t in Members::of(self.design.state_facts(s).moved) {
            let pointer = Pointer {
                value: self.child_after(s, target, t),
                level: context,
            };
            memory.put_pointer(t, pointer);
        }
    }
}
