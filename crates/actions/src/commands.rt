// What each command does, and which of its other chains it chooses.
ghost use Rattle.std.specs.Prelude.{◌≡◌, if◌then◌else◌};
ghost use Rattle.design.specs.Model.{owned};
ghost use Rattle.actions.specs.Actions.{done, checked, admits as is_admitted, context_in, set_dynamic, set_enforced, retag as retagged, branch as branched, do_goto, do_fall, do_set, do_tag, do_if};
ghost use Rattle.actions.specs.Lent.{seen, SameLenders};
ghost use Rattle.actions.specs.Targets.{target};

use crate::board::Board;
use crate::memory::Memory;
use crate::values::cut;
use crate::ways::{Reach, Way};
use lattice::{Lattice, join_all};
use records::{Cell, Command, Labeled};
use shape::is_enforced;

// A cell that a set or a tag names: its register, its number, and the level of the index.
#[derive(Clone, Copy)]
pub(crate) struct Target {
    pub(crate) register: u32,
    pub(crate) cell: u32,
    pub(crate) level: u32,
}

// The value where those who see the new level may see it, and else 0.
fn shown<L: Lattice>(lattice: &L, old: Cell, level: u32) -> u32
    ensures { result ≡ (if (L.Lattice.model lattice.now).joins.flows old.level level then old.value else 0) }
{
    if lattice.flows(old.level, level) {
        old.value
    } else {
        0
    }
}

// A context and alt's reach are passed on apart, since each is used by itself.
impl<L: Lattice> Board<'_, '_, L> {
    // The level of an enforced state bounds the context in which it is entered.
    fn admits(&self, t: u32, k: u32) -> bool
        ensures { result ≡ is_admitted (L.Lattice.model self.now.design.now.lattice).joins (owned self.now.design.now.records) t k }
    {
        let state = self.design.tables().state(t);
        !is_enforced(state.mode) || self.design.lattice().flows(k, state.level.unwrap_or(0))
    }

    // The context in which a state runs that is entered in context k.
    fn enter(&self, t: u32, k: u32) -> u32
        ensures { result ≡ context_in (L.Lattice.model self.now.design.now.lattice).joins (owned self.now.design.now.records) t k }
    {
        let state = self.design.tables().state(t);
        if is_enforced(state.mode) {
            state.level.unwrap_or(0)
        } else {
            k
        }
    }

    // A check at level k: alt's reach is raised first, whether it passes or not.
    fn check(&self, k: u32, passes: bool, alt: Reach, memory: &mut Memory<'_>) -> Way
        ensures does { done (seen memory.new) result ≡ checked (L.Lattice.model self.now.design.now.lattice).joins (owned self.now.design.now.records) k passes alt (λ memory. memory) (seen memory.old) }
        ensures lends { SameLenders memory.old memory.new }
    {
        self.raise(k, alt, memory);
        if passes {
            Way::On
        } else {
            Way::Otherwise { context: k }
        }
    }

    fn put_dynamic(
        &self,
        target: Target,
        context: u32,
        new: Labeled<u32>,
        memory: &mut Memory<'_>,
    ) -> Way
        ensures does { done (seen memory.new) result ≡ set_dynamic (L.Lattice.model self.now.design.now.lattice).joins (owned self.now.design.now.records) target.register target.cell context new (seen memory.old) }
        ensures lends { SameLenders memory.old memory.new }
    {
        let width = self.design.tables().register(target.register).width;
        let cell = Cell {
            value: cut(width, new.value),
            level: join_all(self.design.lattice(), &[context, new.level]),
        };
        memory.put_cell(target.cell, cell);
        Way::On
    }

    fn put_enforced(
        &self,
        target: Target,
        context: u32,
        new: Labeled<u32>,
        alt: Reach,
        memory: &mut Memory<'_>,
    ) -> Way
        ensures does { done (seen memory.new) result ≡ set_enforced (L.Lattice.model self.now.design.now.lattice).joins (owned self.now.design.now.records) target.register target.cell context target.level new alt (seen memory.old) }
        ensures lends { SameLenders memory.old memory.new }
    {
        let lattice = self.design.lattice();
        let width = self.design.tables().register(target.register).width;
        let level = memory.cell(target.cell).level;
        let k = join_all(lattice, &[context, target.level, level]);
        let passes = (lattice.flows(context, level) & lattice.flows(target.level, level))
            & lattice.flows(new.level, level);
        let way = self.check(k, passes, alt, memory);
        if passes {
            let value = cut(width, new.value);
            memory.put_cell(target.cell, Cell { value, level });
        }
        way
    }

    fn retag(
        &self,
        target: Target,
        context: u32,
        level: u32,
        alt: Reach,
        memory: &mut Memory<'_>,
    ) -> Way
        ensures does { done (seen memory.new) result ≡ retagged (L.Lattice.model self.now.design.now.lattice).joins (owned self.now.design.now.records) target.register target.cell context target.level level alt (seen memory.old) }
        ensures lends { SameLenders memory.old memory.new }
    {
        let lattice = self.design.lattice();
        let floor = self
            .design
            .tables()
            .register(target.register)
            .floor
            .unwrap_or(0);
        let old = memory.cell(target.cell);
        let k = join_all(lattice, &[context, target.level]);
        let passes = lattice.flows(k, floor) & lattice.flows(floor, level);
        let value = shown(lattice, old, level);
        let way = self.check(k, passes, alt, memory);
        if passes {
            memory.put_cell(target.cell, Cell { value, level });
        }
        way
    }

    fn branch(
        &self,
        context: u32,
        condition: Labeled<u32>,
        then_reach: Reach,
        else_reach: Reach,
        memory: &mut Memory<'_>,
    ) -> Way
        ensures does { done (seen memory.new) result ≡ branched (L.Lattice.model self.now.design.now.lattice).joins (owned self.now.design.now.records) context condition then_reach else_reach (seen memory.old) }
        ensures lends { SameLenders memory.old memory.new }
    {
        let k = join_all(self.design.lattice(), &[context, condition.level]);
        self.raise(k, then_reach, memory);
        self.raise(k, else_reach, memory);
        if condition.value == 0 {
            Way::Else { context: k }
        } else {
            Way::Then { context: k }
        }
    }

    pub fn run_goto(
        &self,
        s: u32,
        target: u32,
        context: u32,
        alt: Reach,
        memory: &mut Memory<'_>,
    ) -> Way
        ensures does { done (seen memory.new) result ≡ do_goto (L.Lattice.model self.now.design.now.lattice).joins (owned self.now.design.now.records) s target context alt (seen memory.old) }
        ensures lends { SameLenders memory.old memory.new }
    {
        let passes = self.admits(target, context);
        let way = self.check(context, passes, alt, memory);
        if passes {
            self.move_pointers(s, target, context, memory);
        }
        way
    }

    // `here` is the reach of the chain from the fall on.
    pub fn run_fall(&self, s: u32, context: u32, here: Reach, memory: &mut Memory<'_>) -> Way
        ensures does { done (seen memory.new) result ≡ do_fall (L.Lattice.model self.now.design.now.lattice).joins (owned self.now.design.now.records) s context here (seen memory.old) }
        ensures lends { SameLenders memory.old memory.new }
    {
        let pointer = memory.pointer(s);
        let child = pointer.value.unwrap_or(0);
        let k = join_all(self.design.lattice(), &[context, pointer.level]);
        if self.admits(child, k) {
            let inner = self.enter(child, k);
            self.raise(inner, here, memory);
            Way::Child {
                state: child,
                context: inner,
            }
        } else {
            self.raise(k, here, memory);
            Way::Otherwise { context: k }
        }
    }

    fn target(&self, command: Command, memory: &Memory<'_>) -> Target
        ensures { result ≡ target (L.Lattice.model self.now.design.now.lattice).joins (owned self.now.design.now.records) self.now.inputs.now command memory.now.cells.now }
    {
        let register = command.x.unwrap_or(0);
        let index = self.evaluate(memory, command.i);
        Target {
            register,
            cell: self.slot(register, index.value),
            level: index.level,
        }
    }

    pub fn run_set(
        &self,
        command: Command,
        context: u32,
        alt: Reach,
        memory: &mut Memory<'_>,
    ) -> Way
        ensures does { done (seen memory.new) result ≡ do_set (L.Lattice.model self.now.design.now.lattice).joins (owned self.now.design.now.records) self.now.inputs.now command context alt (seen memory.old) }
        ensures lends { SameLenders memory.old memory.new }
    {
        let target = self.target(command, memory);
        let new = self.evaluate(memory, command.e);
        let mode = self.design.tables().register(target.register).mode;
        if is_enforced(mode) {
            self.put_enforced(target, context, new, alt, memory)
        } else {
            self.put_dynamic(target, context, new, memory)
        }
    }

    pub fn run_tag(
        &self,
        command: Command,
        context: u32,
        alt: Reach,
        memory: &mut Memory<'_>,
    ) -> Way
        ensures does { done (seen memory.new) result ≡ do_tag (L.Lattice.model self.now.design.now.lattice).joins (owned self.now.design.now.records) self.now.inputs.now command context alt (seen memory.old) }
        ensures lends { SameLenders memory.old memory.new }
    {
        let target = self.target(command, memory);
        let level = command.e.unwrap_or(0);
        self.retag(target, context, level, alt, memory)
    }

    pub fn run_if(
        &self,
        command: Command,
        context: u32,
        then_reach: Reach,
        else_reach: Reach,
        memory: &mut Memory<'_>,
    ) -> Way
        ensures does { done (seen memory.new) result ≡ do_if (L.Lattice.model self.now.design.now.lattice).joins (owned self.now.design.now.records) self.now.inputs.now command context then_reach else_reach (seen memory.old) }
        ensures lends { SameLenders memory.old memory.new }
    {
        let condition = self.evaluate(memory, command.e);
        self.branch(context, condition, then_reach, else_reach, memory)
    }
}
