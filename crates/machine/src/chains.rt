// Chains of commands.
ghost use Rattle.std.specs.Prelude.{◌≡◌, ◌+◌, ◌<◌, ◌≤◌, length};
ghost use Rattle.design.specs.Model.{owned};
ghost use Rattle.actions.specs.Actions.{done};
ghost use Rattle.actions.specs.Lent.{seen, SameLenders};
ghost use Rattle.machine.specs.Cycle.{noted, running, exec};
ghost use Rattle.machine.specs.Kept.{kept_reach, kept_act, if_branch, if_child, detour_of};
ghost use Rattle.machine.specs.Links.{chain_of, Names};
ghost use Rattle.machine.specs.Reports.{most_reports};
ghost use Rattle.machine.specs.View.{logged, Leaves};

use crate::detours::Detour;
use actions::{Board, Memory, Reach, Way};
use design::Accepted;
use lattice::Lattice;
use members::has;
use records::{Action, Command, Report};
use shape::is_if;

// The table that a cycle was lent for its reports, and how many it has made. A table and a count, since memory is lent, and
// a proof does not see what an iterator over a table leaves in it.
#[derive(Drop)]
pub struct Log<'a> {
    pub(crate) table: &'a mut [Report],
    pub(crate) count: usize,
}

impl Log<'_> {
    // A check that failed is reported at its level.
    fn note(&mut self, k: u32, way: Way)
        requires { self.old.count < length self.old.table.now }
        ensures noted { logged self.new ≡ noted k way (logged self.old) }
        ensures leaves { Leaves self.old self.new }
        ensures few { self.new.count ≤ self.old.count + 1 }
    {
        if let Way::Otherwise { context } = way {
            let report = Report {
                command: k,
                level: context,
            };
            let at = self.count;
            self.table[at] = report;
            self.count = at + 1;
        }
    }
}

// What the chain from a command on may reach.
fn reach_of<L>(design: &Accepted<L>, link: Option<u32>) -> Reach
    ensures { result ≡ kept_reach (owned design.now.records) link }
{
    link.map_or_else(Reach::default, |k| Reach::from(design.command_facts(k)))
}

// Command k in a context.
fn act<L: Lattice>(board: &Board<'_, '_, L>, k: u32, context: u32, memory: &mut Memory<'_>) -> Way
    ensures did { done (seen memory.new) result ≡ kept_act (L.Lattice.model board.now.design.now.lattice).joins (owned board.now.design.now.records) board.now.inputs.now k context (seen memory.old) }
    ensures lends { SameLenders memory.old memory.new }
{
    let design = board.design;
    let command = design.tables().command(k);
    let owner = design.command_facts(k).owner;
    let alt = reach_of(design, command.alt);
    match command.action {
        Action::Set => board.run_set(command, context, alt, memory),
        Action::Tag => board.run_tag(command, context, alt, memory),
        Action::If => {
            let then_reach = reach_of(design, command.x);
            let else_reach = reach_of(design, command.i);
            board.run_if(command, context, then_reach, else_reach, memory)
        }
        Action::Goto => {
            let target = command.x.unwrap_or(0);
            board.run_goto(owner, target, context, alt, memory)
        }
        Action::Fall => {
            let here = reach_of(design, Some(k));
            board.run_fall(owner, context, here, memory)
        }
    }
}

// Only an if has branches.
fn branch_link(action: Action, link: Option<u32>) -> Option<u32>
    ensures { result ≡ if_branch action link }
{
    link.filter(|_| is_if(action))
}

// Only a fall has states, those below its own.
fn child_link<L>(design: &Accepted<L>, action: Action, s: u32, t: u32) -> Option<u32>
    ensures { result ≡ if_child (owned design.now.records) action s t }
{
    let below = action == Action::Fall && has(design.state_facts(s).descendants, t);
    below.then(|| design.tables().state(t).first)
}

// The chain that a command of state s chose.
fn choose<L>(design: &Accepted<L>, s: u32, command: Command, way: Way) -> Detour
    ensures { result ≡ detour_of (owned design.now.records) s command way }
{
    match way {
        Way::On => Detour::default(),
        Way::Otherwise { context } => Detour {
            link: command.alt,
            context,
        },
        Way::Then { context } => Detour {
            link: branch_link(command.action, command.x),
            context,
        },
        Way::Else { context } => Detour {
            link: branch_link(command.action, command.i),
            context,
        },
        Way::Child { state, context } => Detour {
            link: child_link(design, command.action, s, state),
            context,
        },
    }
}

// The chain from a link on, in a context.
pub(crate) fn run_chain<L: Lattice>(
    board: &Board<'_, '_, L>,
    link: Option<u32>,
    context: u32,
    memory: &mut Memory<'_>,
    log: &mut Log<'_>,
)
    requires named { Names (owned board.now.design.now.records) link }
    requires room { log.old.count + most_reports (owned board.now.design.now.records).head.states (chain_of (owned board.now.design.now.records) link) ≤ length log.old.table.now }
    ensures ran { running (seen memory.new) (logged log.new) ≡ exec (L.Lattice.model board.now.design.now.lattice).joins (owned board.now.design.now.records) board.now.inputs.now (chain_of (owned board.now.design.now.records) link) context (running (seen memory.old) (logged log.old)) }
    ensures lends { SameLenders memory.old memory.new }
    ensures leaves { Leaves log.old log.new }
    ensures few { log.new.count ≤ log.old.count + most_reports (owned board.now.design.now.records).head.states (chain_of (owned board.now.design.now.records) link) }
{
    let Some(k) = link else {
        return;
    };
    let design = board.design;
    let command = design.tables().command(k);
    let owner = design.command_facts(k).owner;
    let way = act(board, k, context, memory);
    log.note(k, way);
    let detour = choose(design, owner, command, way);
    run_chain(board, detour.link, detour.context, memory, log);
    run_chain(board, command.next, context, memory, log);
}
