// What expressions are worth, and at which level.
ghost use Rattle.std.specs.Prelude.{◌≡◌, true, [], fold};
ghost use Rattle.shape.specs.Shape.{port_at};
ghost use Rattle.design.specs.Model.{owned};
ghost use Rattle.actions.specs.Formulas.{operand, formula_of, formula_below, named_below as below_named, input_at, value_of, leaf_levels, evaluated};
ghost use Rattle.actions.specs.Memory.{labeled, slot as slot_of};
ghost use Rattle.actions.specs.Values.{cut as cut_to};

use crate::board::Board;
use crate::memory::Memory;
use crate::values::{apply, cut};
use lattice::{Lattice, join_all};
use records::{Input, Labeled, Operator};
use shape::record_at;

fn named_below(bound: u64, e: Option<u32>) -> Option<u32>
    ensures { result ≡ below_named bound e }
{
    e.filter(|n| u64::from(*n) < bound)
}

impl<L> Board<'_, '_, L> {
    // The cell of a register that an index names.
    pub(crate) fn slot(&self, x: u32, index: u32) -> u32
        ensures { result ≡ slot_of (owned self.now.design.now.records) x index }
    {
        let cells = self.design.tables().register(x).cells.max(1);
        self.design.first_cell(x) + index % cells
    }

    // The input of a port, cut to its width.
    fn input(&self, p: u32) -> Input
        ensures { result ≡ labeled (cut_to (port_at (owned self.now.design.now.records) p).width (input_at (owned self.now.design.now.records) self.now.inputs.now [] p).value) (input_at (owned self.now.design.now.records) self.now.inputs.now [] p).level }
    {
        let input = record_at(self.inputs, p, Input::default());
        Input {
            value: cut(self.design.tables().port(p).width, input.value),
            ..input
        }
    }
}

impl<L: Lattice> Board<'_, '_, L> {
    // A level, joined with that of what is read.
    fn onto(&self, level: u32, read: Labeled<u32>) -> Labeled<u32>
        requires { (L.Lattice.model self.now.design.now.lattice).joins.level level ≡ true }
        ensures value { result ≡ labeled read.value ((L.Lattice.model self.now.design.now.lattice).joins.join level read.level) }
        ensures level { (L.Lattice.model self.now.design.now.lattice).joins.level result.level ≡ true }
    {
        Labeled {
            level: join_all(self.design.lattice(), &[level, read.level]),
            ..read
        }
    }

    // An expression below `bound`: its value, and `level` joined with the levels of its leaves. Operands have smaller
    // numbers than their expression, so this ends.
    fn evaluate_onto(
        &self,
        memory: &Memory<'_>,
        bound: u64,
        e: Option<u32>,
        level: u32,
    ) -> Labeled<u32>
        requires { (L.Lattice.model self.now.design.now.lattice).joins.level level ≡ true }
        ensures value { result ≡ labeled (value_of (owned self.now.design.now.records) self.now.inputs.now memory.now.cells.now (operand (formula_below (owned self.now.design.now.records) bound) e)) (fold (L.Lattice.model self.now.design.now.lattice).joins.join level (leaf_levels (owned self.now.design.now.records) self.now.inputs.now memory.now.cells.now (operand (formula_below (owned self.now.design.now.records) bound) e))) }
        ensures level { (L.Lattice.model self.now.design.now.lattice).joins.level result.level ≡ true }
    {
        let Some(n) = named_below(bound, e) else {
            return Labeled { value: 0, level };
        };
        let expression = self.design.tables().expression(n);
        match expression.op {
            Operator::Constant => Labeled {
                value: expression.a,
                level,
            },
            Operator::Input => self.onto(level, self.input(expression.a)),
            Operator::Read => {
                let index = self.evaluate_onto(memory, u64::from(n), expression.b, level);
                let read = self.slot(expression.a, index.value);
                self.onto(index.level, memory.cell(read))
            }
            _ => {
                let left = self.evaluate_onto(memory, u64::from(n), Some(expression.a), level);
                let right = self.evaluate_onto(memory, u64::from(n), expression.b, left.level);
                Labeled {
                    value: apply(expression.op, left.value, right.value),
                    level: right.level,
                }
            }
        }
    }

    // The value and the level of an expression; none counts as a constant 0.
    pub(crate) fn evaluate(&self, memory: &Memory<'_>, e: Option<u32>) -> Labeled<u32>
        ensures { result ≡ evaluated (owned self.now.design.now.records) self.now.inputs.now memory.now.cells.now (L.Lattice.model self.now.design.now.lattice).joins (formula_of (owned self.now.design.now.records) e) }
    {
        self.evaluate_onto(memory, 1 << 32, e, self.design.lattice().bottom())
    }
}
