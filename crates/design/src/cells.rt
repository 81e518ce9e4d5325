// What is worked out of each register and each cell.
ghost use Rattle.std.specs.Prelude.{◌≡◌, map, IfOk};
ghost use Rattle.std.specs.List.{range_with_len};
ghost use Rattle.rules.specs.Rules.{cells_below};
ghost use Rattle.shape.specs.View.{view};
ghost use Rattle.design.specs.Facts.{register_of};

use crate::formed::Formed;
use std::alloc::{AllocError, Global};

// The first cell of each register.
pub(crate) fn work_out_firsts(heap: Global, formed: Formed<'_>) -> Result<Vec<u32>, AllocError>
    ensures { IfOk result (λ v. v.items ≡ map (cells_below (view formed.entry.tables)) (range_with_len 0 formed.entry.tables.head.registers)) }
{
    let mut firsts = Vec::new(heap);
    let mut first = 0;
    for register in formed.tables.registers {
        firsts.push(first)?;
        first += register.cells;
    }
    Ok(firsts)
}

// The register of each cell. Registers are counted here, since their numbers are what is put.
pub(crate) fn work_out_cells(heap: Global, formed: Formed<'_>) -> Result<Vec<u32>, AllocError>
    ensures { IfOk result (λ v. v.items ≡ map (register_of (view formed.entry.tables)) (range_with_len 0 (cells_below (view formed.entry.tables) formed.entry.tables.head.registers))) }
{
    let tables = formed.tables;
    let mut cells = Vec::new(heap);
    for x in 0..tables.head.registers {
        let end = cells.len() + tables.register(x).cells as usize;
        cells.resize(end, x)?;
    }
    Ok(cells)
}
