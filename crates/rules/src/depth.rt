// Rule 8: how deep states and expressions are.
ghost use Rattle.std.specs.Prelude.{◌≡◌, ◌≤◌, nat_lt, slice_index};
ghost use Rattle.rules.specs.Faults.{broke};
ghost use Rattle.rules.specs.Rules.{shallow};
ghost use Rattle.shape.specs.Shape.{depth_node, height_node, operand};
ghost use Rattle.shape.specs.View.{view};

use crate::faults::{Breach, Kind, Rule};
use crate::ranks::{Node, Numbers, work_out};
use crate::sizes::Counted;
use crate::sweeps::sweep;
use records::Operator;
use search::Test;
use shape::{Tables, record_at};

const DEEPEST_STATE: u32 = 8;

const DEEPEST_EXPRESSION: u32 = 12;

// How many states each state is below the root.
#[derive(Drop)]
struct Depth<'a> {
    tables: Tables<'a>,
}

impl Node for Depth<'_> {
    ghost node = { λ x. depth_node (view x.tables) };

    ghost base = { λ _. 0 };

    fn value(&self, done: &Numbers, s: u32) -> u32 {
        self.tables
            .state(s)
            .parent
            .map_or(0, |parent| 1 + record_at(done, parent, 0))
    }
}

// How deep an operand is, 0 where there is none.
fn operand_height(done: &Numbers, field: Option<u32>) -> u32
    ensures { result ≡ operand (λ j. slice_index done.now j) field }
{
    field.map_or(0, |k| record_at(done, k, 0))
}

// How deep each expression is.
#[derive(Drop)]
struct Height<'a> {
    tables: Tables<'a>,
}

impl Node for Height<'_> {
    ghost node = { λ x. height_node (view x.tables) };

    ghost base = { λ _. 0 };

    fn value(&self, done: &Numbers, k: u32) -> u32 {
        let x = self.tables.expression(k);
        match x.op {
            Operator::Constant | Operator::Input => 1,
            Operator::Read => 1 + operand_height(done, x.b),
            _ => 1 + record_at(done, x.a, 0).max(operand_height(done, x.b)),
        }
    }
}

// The records whose number is above a limit.
#[derive(Drop)]
struct Above<'a> {
    numbers: &'a Numbers,
    most: u32,
}

impl Test for Above<'_> {
    ghost test = { λ x n. nat_lt x.most (slice_index x.numbers.now n) };

    fn passes(&self, n: u32) -> bool {
        let numbers = self.numbers;
        self.most < record_at(numbers, n, 0)
    }
}

pub(crate) fn check_depth(counted: Counted<'_>) -> Result<(), Breach>
    ensures { broke result ≡ shallow (view counted.entry.tables) }
{
    let tables = counted.tables;
    let head = tables.head;
    let depths = work_out(&Depth { tables }, head.states);
    let heights = work_out(&Height { tables }, head.expressions);
    let states = Above {
        numbers: &depths,
        most: DEEPEST_STATE,
    };
    let expressions = Above {
        numbers: &heights,
        most: DEEPEST_EXPRESSION,
    };
    sweep(Rule::Depth, Kind::State, head.states, &states)?;
    sweep(
        Rule::Depth,
        Kind::Expression,
        head.expressions,
        &expressions,
    )
}
