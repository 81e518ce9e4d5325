use records::{Command, Expression, Head, Port, Register, State};

// How many records of each kind there are by the head, and the tables that hold them.
#[derive(Clone, Copy)]
pub struct Tables<'a> {
    pub head: Head,
    pub ports: &'a [Port],
    pub registers: &'a [Register],
    pub states: &'a [State],
    pub expressions: &'a [Expression],
    pub commands: &'a [Command],
}
