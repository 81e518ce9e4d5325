ghost use Rattle.std.specs.Prelude.{◌≡◌, ◌≤◌, None};
ghost use Rattle.std.proofs.Props.{props};
ghost use Rattle.rules.specs.Rules.{sizes, linked};
ghost use Rattle.shape.specs.View.{view};
ghost use Rattle.design.specs.Verdict.{Exact};

use shape::Tables;

// Tables that keep the rules of sizes and of links, from which facts are worked out.
#[derive(Clone, Copy)]
pub(crate) struct Formed<'a> {
    pub(crate) tables: Tables<'a>,
    ghost sized: { sizes (view tables) ≡ None } by { Prim.hlevel props },
    ghost links: { linked (view tables) ≡ None } by { Prim.hlevel props },
    ghost exact: { Exact (view tables) },
    ghost few_registers: { tables.head.registers ≤ 32 },
    ghost few_states: { tables.head.states ≤ 32 },
    ghost few_commands: { tables.head.commands ≤ 256 },
}
