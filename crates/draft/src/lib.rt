// The lines of a text, kept as they are read.
#![tactic(auto)]

ghost use Rattle.std.specs.Prelude.{◌≡◌, ◌+◌, is_ok, if◌then◌else◌};
ghost use Rattle.shape.specs.View.{view as view_of_tables};
ghost use Rattle.draft.specs.Reading.{Ended, Kept, LatticeKept, cells_of, headed, inputs_of, kept, levels_of, nothing, records_of, view, without_inputs};

use reader::{Line, Reader};
use records::{Cell, Command, Expression, Head, Input, LineFault, Port, Register, State};
use rules::DesignFault;
use shape::Tables;
use std::alloc::{AllocError, Global};
use table::Table;

// The tables grow with the lines, so that a count out of range is acceptance's to refuse.
#[derive(Drop)]
pub struct Draft {
    pub levels: u32,
    rows: Vec<u32>,
    head: Head,
    ports: Vec<Port>,
    registers: Vec<Register>,
    states: Vec<State>,
    expressions: Vec<Expression>,
    commands: Vec<Command>,
    // What a cycle is lent: the cells of all registers, and the cycle's inputs.
    pub cells: Vec<Cell>,
    pub inputs: Vec<Input>,
}

impl Draft {
    pub fn new(heap: Global) -> Draft
        ensures { view result ≡ nothing }
    {
        Draft {
            levels: 0,
            rows: Vec::new(heap),
            head: Head::default(),
            ports: Vec::new(heap),
            registers: Vec::new(heap),
            states: Vec::new(heap),
            expressions: Vec::new(heap),
            commands: Vec::new(heap),
            cells: Vec::new(heap),
            inputs: Vec::new(heap),
        }
    }

    fn keep(&mut self, line: Line) -> Result<(), AllocError>
        ensures { view self.new ≡ (if is_ok result then kept line (view self.old) else view self.old) }
    {
        match line {
            Line::Levels(levels) => self.levels = levels,
            Line::Row(row) => self.rows.push(row)?,
            Line::Head(head) => self.head = head,
            Line::Port(port) => self.ports.push(port)?,
            Line::Register(register) => self.registers.push(register)?,
            Line::State(state) => self.states.push(state)?,
            Line::Expression(expression) => self.expressions.push(expression)?,
            Line::Command(command) => self.commands.push(command)?,
            Line::Cell(cell) => self.cells.push(cell)?,
            Line::Input(input) => self.inputs.push(input)?,
            Line::End => {}
        }
        Ok(())
    }

    fn read_lines(&mut self, reader: &mut Reader<'_>, count: u64) -> Result<(), DesignFault>
        ensures { Kept (λ _. count) reader.old (view self.old) result reader.new (view self.new) }
    {
        for _ in 0..count {
            let line = reader.read_line()?;
            self.keep(line)?;
        }
        Ok(())
    }

    // How many levels there are, and as many rows.
    fn read_rows(&mut self, reader: &mut Reader<'_>) -> Result<(), DesignFault>
        ensures { Kept (headed levels_of (view self.old)) reader.old (view self.old) result reader.new (view self.new) }
    {
        self.read_lines(reader, 1)?;
        self.read_lines(reader, u64::from(self.levels))
    }

    // The rows of the lattice, and the lattice as soon as they are read.
    pub fn read_lattice(&mut self, reader: &mut Reader<'_>) -> Result<Table, DesignFault>
        ensures { LatticeKept reader.old (view self.old) result reader.new (view self.new) }
    {
        self.read_rows(reader)?;
        Ok(Table::new(self.levels, self.rows.as_slice())?)
    }

    // The head, and as many records as it says.
    pub fn read_records(&mut self, reader: &mut Reader<'_>) -> Result<(), DesignFault>
        ensures { Kept (headed records_of (view self.old)) reader.old (view self.old) result reader.new (view self.new) }
    {
        self.read_lines(reader, 1)?;
        self.read_lines(reader, record_count(self.head))
    }

    // The cells of all registers.
    pub fn read_cells(&mut self, reader: &mut Reader<'_>) -> Result<(), DesignFault>
        ensures { Kept (λ _. cells_of (view self.old)) reader.old (view self.old) result reader.new (view self.new) }
    {
        self.read_lines(reader, self.cell_count())
    }

    // The inputs of a cycle in place of those of the one before, one for each port.
    pub fn read_inputs(&mut self, reader: &mut Reader<'_>) -> Result<(), DesignFault>
        ensures { Kept (λ _. inputs_of (view self.old)) reader.old (without_inputs (view self.old)) result reader.new (view self.new) }
    {
        self.inputs.clear();
        self.read_lines(reader, u64::from(self.head.ports))
    }

    pub fn cell_count(&self) -> u64
        ensures { result ≡ cells_of (view self.now) }
    {
        let cells = self
            .registers
            .iter()
            .map(|register| u64::from(register.cells));
        cells.fold(0, |sum, cells| sum.saturating_add(cells))
    }

    pub fn tables(&self) -> Tables<'_>
        ensures { view_of_tables result ≡ (view self.now).design }
    {
        Tables {
            head: self.head,
            ports: self.ports.as_slice(),
            registers: self.registers.as_slice(),
            states: self.states.as_slice(),
            expressions: self.expressions.as_slice(),
            commands: self.commands.as_slice(),
        }
    }
}

fn record_count(head: Head) -> u64
    ensures { result ≡ head.ports + head.registers + head.states + head.expressions + head.commands }
{
    let parts = u64::from(head.ports) + u64::from(head.registers) + u64::from(head.states);
    parts + u64::from(head.expressions) + u64::from(head.commands)
}

// Reads the lines that are left, and keeps none of them.
pub fn read_rest(reader: &mut Reader<'_>) -> Result<(), LineFault>
    ensures { Ended reader.old result reader.new }
{
    while !reader.read_line()?.is_end() {}
    Ok(())
}

#[cfg(test)]
mod tests {
    use super::*;
    use records::Labeled;
    use std::test::Fail;

    const TEXT: &[u8] = b"levels=1\nrow=1\n\
ports=1 registers=2 states=1 expressions=1 commands=1 cycles=2\n\
width=8\nwidth=8 cells=2 mode=d floor=-\nwidth=8 cells=1 mode=d floor=-\n\
parent=- mode=d level=- first=0\nop=const a=1 b=-\ndo=fall x=- i=- e=- next=- alt=-\n\
value=3 level=0\nvalue=4 level=0\nvalue=5 level=0\nin=1 level=0\nin=2 level=0\n";

    #[test]
    fn reads_part_by_part(rt: HostRuntime) -> Result<(), Fail> {
        let mut reader = Reader::new(TEXT)?;
        let mut draft = Draft::new(rt.alloc());
        assert!(rt; draft.read_lattice(&mut reader).is_ok());
        assert!(rt; draft.read_records(&mut reader).is_ok());
        assert_eq!(rt; draft.cell_count(), 3);
        assert!(rt; draft.read_cells(&mut reader).is_ok());
        let cells = [3, 4, 5].map(|value| Labeled { value, level: 0 });
        assert_eq!(rt; draft.cells.as_slice(), cells.as_slice());
        for value in [1, 2] {
            assert!(rt; draft.read_inputs(&mut reader).is_ok());
            assert_eq!(rt;
                draft.inputs.as_slice(),
                [Labeled { value, level: 0 }].as_slice()
            );
        }
        assert_eq!(rt; read_rest(&mut reader), Ok(()));
        Ok(())
    }

    #[test]
    fn reads_to_the_end(rt: HostRuntime) -> Result<(), Fail> {
        let mut reader = Reader::new(TEXT)?;
        assert_eq!(rt; read_rest(&mut reader), Ok(()));
        Ok(())
    }
}
