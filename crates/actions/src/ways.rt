// Which of its other chains a command chose.
ghost use Rattle.std.specs.Prelude.{◌≡◌};

use design::CommandFacts;

// Which chain runs before what follows a command, and in which context: none, its alt, a branch, or the chain of a child.
#[derive(Clone, Copy)]
pub enum Way {
    On,
    Otherwise { context: u32 },
    Then { context: u32 },
    Else { context: u32 },
    Child { state: u32, context: u32 },
}

// What a chain may reach, as sets of registers and of states with pointers: number t is in a set when bit t is set.
#[derive(Clone, Copy, Default)]
pub struct Reach {
    pub registers: u32,
    pub pointers: u32,
}

impl From<CommandFacts> for Reach {
    ghost from_gives = { λ facts r. r ≡ record { registers = facts.registers; pointers = facts.pointers } };

    fn from(facts: CommandFacts) -> Reach {
        Reach {
            registers: facts.registers,
            pointers: facts.pointers,
        }
    }
}
