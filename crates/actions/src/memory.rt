// The memory of a cycle.
ghost use Rattle.std.specs.Prelude.{◌≡◌, slice_set};
ghost use Rattle.actions.specs.Memory.{cell_at, pointer_at, put_cell, with_pointers};
ghost use Rattle.actions.specs.Lent.{seen, SameLenders};

use records::{Cell, Pointer};
use shape::record_at;

// The cells of all registers and the pointers of all states, as a cycle is lent them. A contract says beside what is seen
// that the same memory is lent still: it is said of two values, so that no field can say it.
#[derive(Drop)]
pub struct Memory<'a> {
    pub cells: &'a mut [Cell],
    pub pointers: &'a mut [Pointer],
}

// Past the end there is nothing to write to. By index, since a proof does not see what `get_mut` leaves in a slice.
fn put<T: Copy>(slots: &mut [T], j: u32, slot: T)
    ensures { slots.new ≡ slice_set slots.old j slot }
{
    if (j as usize) < slots.len() {
        slots[j as usize] = slot;
    }
}

impl Memory<'_> {
    pub(crate) fn cell(&self, j: u32) -> Cell
        ensures { result ≡ cell_at (seen self.now) j }
    {
        record_at(self.cells, j, Cell::default())
    }

    pub(crate) fn pointer(&self, s: u32) -> Pointer
        ensures { result ≡ pointer_at (seen self.now) s }
    {
        record_at(self.pointers, s, Pointer::default())
    }

    pub(crate) fn put_cell(&mut self, j: u32, cell: Cell)
        ensures put { seen self.new ≡ put_cell j cell (seen self.old) }
        ensures lends { SameLenders self.old self.new }
    {
        put(self.cells, j, cell);
    }

    pub(crate) fn put_pointer(&mut self, s: u32, pointer: Pointer)
        ensures put { seen self.new ≡ with_pointers (slice_set self.old.pointers.now s pointer) (seen self.old) }
        ensures lends { SameLenders self.old self.new }
    {
        put(self.pointers, s, pointer);
    }
}
