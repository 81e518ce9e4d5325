// The records of a design by their numbers.
ghost use Rattle.std.specs.Prelude.{◌≡◌, slice_index_or};
ghost use Rattle.shape.specs.Shape.{port_at, register_at, state_at, expression_at, command_at};
ghost use Rattle.shape.specs.View.{view};

use crate::tables::Tables;
use records::{Command, Expression, Port, Register, State};

// Record n of a table, or `missing` past its end.
pub fn record_at<T: Copy>(table: &[T], n: u32, missing: T) -> T
    ensures { result ≡ slice_index_or table.now n missing }
{
    table.get(n as usize).copied().unwrap_or(missing)
}

// A record past the end of its table reads as one that does nothing.
impl Tables<'_> {
    pub fn port(&self, n: u32) -> Port
        ensures { result ≡ port_at (view self.now) n }
    {
        record_at(self.ports, n, Port::default())
    }

    pub fn register(&self, n: u32) -> Register
        ensures { result ≡ register_at (view self.now) n }
    {
        record_at(self.registers, n, Register::default())
    }

    pub fn state(&self, n: u32) -> State
        ensures { result ≡ state_at (view self.now) n }
    {
        record_at(self.states, n, State::default())
    }

    pub fn expression(&self, n: u32) -> Expression
        ensures { result ≡ expression_at (view self.now) n }
    {
        record_at(self.expressions, n, Expression::default())
    }

    pub fn command(&self, n: u32) -> Command
        ensures { result ≡ command_at (view self.now) n }
    {
        record_at(self.commands, n, Command::default())
    }
}
