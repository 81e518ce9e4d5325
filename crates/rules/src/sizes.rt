// Rule 3: sizes.
ghost use Rattle.std.specs.Prelude.{◌≡◌, ◌+◌, ◌≤◌, IfOk};
ghost use Rattle.rules.specs.Faults.{broke, kind_number};
ghost use Rattle.rules.specs.Rules.{outside, bad_size, bad_port, bad_register, cells_below, count_range, counts, sizes};
ghost use Rattle.shape.specs.Shape.{register_at};
ghost use Rattle.shape.specs.View.{view};

use crate::faults::{Breach, Kind, Rule};
use crate::sweeps::sweep;
use records::{Head, Register};
use search::{Amount, Test, sum_below};
use shape::{Tables, is_enforced};

const MOST_PORTS: u32 = 16;

const MOST_REGISTERS: u32 = 32;

const MOST_STATES: u32 = 32;

const MOST_EXPRESSIONS: u32 = 256;

const MOST_COMMANDS: u32 = 256;

const MOST_BITS: u32 = 32;

const MOST_CELLS: u64 = 1024;

fn is_outside(low: u32, high: u32, n: u32) -> bool
    ensures { result ≡ outside low high n }
{
    (n < low) | (high < n)
}

fn count_within(kind: Kind, low: u32, high: u32, n: u32) -> Result<(), Breach>
    ensures { broke result ≡ count_range (kind_number kind) low high n }
{
    if is_outside(low, high, n) {
        return Err(Breach {
            rule: Rule::Sizes,
            kind,
            record: n,
        });
    }
    Ok(())
}

fn counts_within(head: Head) -> Result<(), Breach>
    ensures { broke result ≡ counts head }
{
    count_within(Kind::Port, 0, MOST_PORTS, head.ports)?;
    count_within(Kind::Register, 1, MOST_REGISTERS, head.registers)?;
    count_within(Kind::State, 2, MOST_STATES, head.states)?;
    count_within(Kind::Expression, 0, MOST_EXPRESSIONS, head.expressions)?;
    count_within(Kind::Command, 1, MOST_COMMANDS, head.commands)
}

#[derive(Drop)]
struct BadPort<'a> {
    tables: Tables<'a>,
}

impl Test for BadPort<'_> {
    ghost test = { λ x. bad_port (view x.tables) };

    fn passes(&self, n: u32) -> bool {
        is_outside(1, MOST_BITS, self.tables.port(n).width)
    }
}

fn is_bad_size(register: Register) -> bool
    ensures { result ≡ bad_size register }
{
    let enforced = is_enforced(register.mode);
    is_outside(1, MOST_BITS, register.width)
        | (register.cells == 0)
        | (!enforced & !(register.cells == 1))
}

// The cells of each register.
#[derive(Drop)]
struct Cells<'a> {
    tables: Tables<'a>,
}

impl Amount for Cells<'_> {
    ghost amounts = { λ x n. (register_at (view x.tables) n).cells };

    fn amount(&self, n: u32) -> u32 {
        self.tables.register(n).cells
    }
}

#[derive(Drop)]
struct BadRegister<'a> {
    tables: Tables<'a>,
}

impl Test for BadRegister<'_> {
    ghost test = { λ x. bad_register (view x.tables) };

    fn passes(&self, n: u32) -> bool {
        let tables = self.tables;
        let register = tables.register(n);
        let sum = sum_below(&Cells { tables }, n) + register.cells as u64;
        is_bad_size(register) | (MOST_CELLS < sum)
    }
}

// Tables that have passed the rule of sizes: the arrays of the limit hold what is worked out of them.
#[derive(Clone, Copy)]
pub(crate) struct Counted<'a> {
    pub(crate) tables: Tables<'a>,
    ghost states: { tables.head.states ≤ 256 },
    ghost expressions: { tables.head.expressions ≤ 256 },
    ghost commands: { tables.head.commands ≤ 256 },
}

pub(crate) fn check_sizes<'a>(tables: Tables<'a>) -> Result<Counted<'a>, Breach>
    ensures sizes { broke result ≡ sizes (view tables.entry) }
    ensures same { IfOk result (λ c. c.tables ≡ tables.entry) }
{
    let head = tables.head;
    counts_within(head)?;
    sweep(Rule::Sizes, Kind::Port, head.ports, &BadPort { tables })?;
    let registers = BadRegister { tables };
    sweep(Rule::Sizes, Kind::Register, head.registers, &registers)?;
    Ok(Counted { tables })
}
