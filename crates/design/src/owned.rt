use records::{Command, Expression, Head, Port, Register, State};

// The records of an accepted design.
#[derive(Drop)]
pub struct Records {
    pub(crate) head: Head,
    pub(crate) ports: Vec<Port>,
    pub(crate) registers: Vec<Register>,
    pub(crate) states: Vec<State>,
    pub(crate) expressions: Vec<Expression>,
    pub(crate) commands: Vec<Command>,
}
