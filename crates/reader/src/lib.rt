// The reader of a design's text, line by line. `Format` of the specs has the grammar, `Reading` what the reader answers.
#![tactic(auto)]

ghost use Rattle.std.specs.Prelude.{◌+◌, ◌*◌, ◌^◌, ◌≤◌, length};
ghost use Rattle.reader.specs.Texts.{most_bytes, cells_so_far, Exact};

use records::LineFault;

mod lines;
mod pieces;
mod sections;
mod words;

pub use sections::{Ahead, Line, Plan, Section, Step};

// The most bytes that a text may have.
pub const MOST_BYTES: usize = 60_000;

#[derive(Drop)]
pub struct Reader<'a> {
    // What is still to be read.
    rest: &'a [u8],
    // The number of the line that is due, from 1.
    line: u32,
    section: Section,
    // Each line took at least a byte, and counted less than 2 ^ 32 cells: so neither number grows past its type.
    pub ghost short: { line + length rest.now ≤ most_bytes + 1 },
    pub ghost counted: { cells_so_far section ≤ line * 2 ^ 32 },
}

impl<'a> Reader<'a> {
    ghost use Rattle.reader.specs.Reading.{Opens, Answered};

    pub fn new(text: &'a [u8]) -> Result<Reader<'a>, LineFault>
        ensures { Opens text.now result }
    {
        if text.len() > MOST_BYTES {
            return Err(LineFault::TooLong);
        }
        Ok(Reader {
            rest: text,
            line: 1,
            section: Section::Levels,
        })
    }

    // Reads the line that is due. A text that is not as due is refused, and the reader stays where it was.
    pub fn read_line(&mut self) -> Result<Line, LineFault>
        ensures { Answered self.old result self.new }
    {
        let (step, rest) = lines::due(self.section, self.rest).map_err(|left| LineFault::NotDue {
            line: self.line,
            byte: (self.rest.len() - left + 1) as u32,
        })?;
        self.rest = rest;
        self.line += u32::from(!step.line.is_end());
        self.section = step.next;
        Ok(step.line)
    }
}

// How many lines a whole text has.
pub fn count_lines(text: &[u8]) -> Result<u32, LineFault>
    ensures { Exact text.now result }
{
    let mut reader = Reader::new(text)?;
    while !reader.read_line()?.is_end() {}
    Ok(reader.line - 1)
}

#[cfg(test)]
mod tests {
    use super::*;
    use records::*;
    use std::test::Fail;

    const GOOD: &[u8] = b"levels=2\nrow=3\nrow=2\n\
ports=1 registers=1 states=1 expressions=2 commands=1 cycles=2\n\
width=8\nwidth=16 cells=1 mode=e floor=0\nparent=- mode=d level=1 first=0\n\
op=const a=4294967295 b=-\nop=reg a=0 b=0\ndo=set x=0 i=- e=1 next=- alt=-\n\
value=10 level=0\nin=1 level=0\nin=2 level=1\n";

    #[test]
    fn reads_every_kind(rt: HostRuntime) -> Result<(), Fail> {
        let head = Head {
            ports: 1,
            registers: 1,
            states: 1,
            expressions: 2,
            commands: 1,
            cycles: 2,
        };
        let expected = [
            Line::Levels(2),
            Line::Row(3),
            Line::Row(2),
            Line::Head(head),
            Line::Port(Port { width: 8 }),
            Line::Register(Register {
                width: 16,
                cells: 1,
                mode: Mode::Enforced,
                floor: Some(0),
            }),
            Line::State(State {
                parent: None,
                mode: Mode::Dynamic,
                level: Some(1),
                first: 0,
            }),
            Line::Expression(Expression {
                op: Operator::Constant,
                a: u32::MAX,
                b: None,
            }),
            Line::Expression(Expression {
                op: Operator::Read,
                a: 0,
                b: Some(0),
            }),
            Line::Command(Command {
                action: Action::Set,
                x: Some(0),
                i: None,
                e: Some(1),
                next: None,
                alt: None,
            }),
            Line::Cell(Cell {
                value: 10,
                level: 0,
            }),
            Line::Input(Input { value: 1, level: 0 }),
            Line::Input(Input { value: 2, level: 1 }),
            Line::End,
            Line::End,
        ];
        let mut reader = Reader::new(GOOD)?;
        for line in expected {
            assert_eq!(rt; reader.read_line()?, line);
        }
        Ok(())
    }

    #[test]
    fn says_where_it_stops(rt: HostRuntime) {
        let damaged: [(&[u8], u32, u32); 16] = [
            (b"", 1, 1),
            (b"levels=4294967296\n", 1, 17),
            (b"levels=01\n", 1, 9),
            (b"levels=-\n", 1, 8),
            (b"levels=0\r\n", 1, 9),
            (b"levels=0", 1, 9),
            (b"levels:0\n", 1, 7),
            (b"levels=1\nrom=1\n", 2, 3),
            (b"levels=0\nports=0  registers=0", 2, 9),
            (
                b"levels=0\nports=0 registers=0 states=0 expressions=0 commands=0 cycles=10001\n",
                2,
                66,
            ),
            (
                b"levels=0\nports=0 registers=0 states=0 expressions=0 commands=0 cycles=10000\n\n",
                3,
                1,
            ),
            (
                b"levels=0\nports=0 registers=1 states=0 expressions=0 commands=0 cycles=0\nwidth=1 cells=0 mode=x",
                3,
                22,
            ),
            (
                b"levels=0\nports=0 registers=1 states=0 expressions=0 commands=0 cycles=0\nwidth=1 cells=2 mode=d floor=-\nvalue=1 level=0\n",
                5,
                1,
            ),
            (
                b"levels=0\nports=0 registers=0 states=0 expressions=1 commands=0 cycles=0\nop=shx",
                3,
                6,
            ),
            (
                b"levels=0\nports=0 registers=0 states=0 expressions=1 commands=0 cycles=0\nop=con",
                3,
                7,
            ),
            (
                b"levels=0\nports=0 registers=0 states=0 expressions=0 commands=1 cycles=0\ndo=fall x=--",
                3,
                12,
            ),
        ];
        for (text, line, byte) in damaged {
            assert_eq!(rt; count_lines(text), Err(LineFault::NotDue { line, byte }));
        }
        assert_eq!(rt; count_lines(GOOD), Ok(13));
        assert_eq!(rt; count_lines(&[0; 60_001]), Err(LineFault::TooLong));
        assert_eq!(rt;
            count_lines(&[0; 60_000]),
            Err(LineFault::NotDue { line: 1, byte: 1 })
        );
    }
}
