// What is worked out of each state.
ghost use Rattle.std.specs.Prelude.{◌≡◌, ℕ, ◌≤◌, false, map, get_or, IfOk, if◌then◌else◌, nat_lt, slice_index_or};
ghost use Rattle.std.specs.List.{range_with_len};
ghost use Rattle.rules.specs.Tables.{HoldsBelow};
ghost use Rattle.shape.specs.View.{view};
ghost use Rattle.design.specs.Chains.{under, is_below, is_moved, lowest_child};
ghost use Rattle.design.specs.Facts.{state_facts};

use crate::facts::StateFacts;
use crate::formed::Formed;
use crate::sets::set_where;
use rules::ChildOf;
use search::{Test, first_below};
use shape::{Tables, is_number, record_at};
use std::alloc::{AllocError, Global};

pub(crate) const MOST_STATES: usize = 32;

// Which states are in a set. An array of its limit, so that working it out cannot fail.
pub(crate) type Below = [bool; MOST_STATES];

// A state with this parent is below state s.
fn is_under(below: &Below, s: u32, parent: Option<u32>) -> bool
    ensures { result ≡ under s (λ j. get_or below.now j false) parent }
{
    parent.is_some_and(|p| (p == s) | record_at(below, p, false))
}

// Which states are below state s. A loop as that of `rules`' `work_out`, of truths.
pub(crate) fn work_out_below(formed: Formed<'_>, s: u32) -> Below
    ensures { HoldsBelow false formed.entry.tables.head.states (is_below (view formed.entry.tables) s) result }
{
    let tables = formed.tables;
    let mut below = [false; MOST_STATES];
    for t in 0..tables.head.states {
        below[t as usize] = is_under(&below, s, tables.state(t).parent);
    }
    below
}

// The states of a set.
#[derive(Drop)]
struct Among<'a> {
    states: &'a Below,
}

impl Test for Among<'_> {
    ghost test = { λ x t. slice_index_or x.states.now t false };

    fn passes(&self, t: u32) -> bool {
        let states = self.states;
        record_at(states, t, false)
    }
}

fn lowest_child(tables: Tables<'_>, s: u32) -> Option<u32>
    ensures { result ≡ lowest_child (view tables.entry) s }
{
    first_below(&ChildOf { tables, s }, tables.head.states)
}

// The states whose pointers a goto in state s may move.
#[derive(Drop)]
struct Moved<'a, 'b> {
    tables: Tables<'a>,
    s: u32,
    below: &'b Below,
}

impl Test for Moved<'_, '_> {
    ghost test = { λ x. is_moved (view x.tables) x.s (λ t. get_or x.below.now t false) };

    fn passes(&self, t: u32) -> bool {
        let below = self.below;
        let near = (t == self.s) | is_number(self.tables.state(self.s).parent, t);
        lowest_child(self.tables, t).is_some() & (near | record_at(below, t, false))
    }
}

fn work_out_state(formed: Formed<'_>, s: u32) -> StateFacts
    ensures { result ≡ state_facts (view formed.entry.tables) s }
{
    let tables = formed.tables;
    let count = tables.head.states;
    let below = work_out_below(formed, s);
    StateFacts {
        children: set_where(&ChildOf { tables, s }, count),
        descendants: set_where(&Among { states: &below }, count),
        lowest_child: lowest_child(tables, s),
        moved: set_where(
            &Moved {
                tables,
                s,
                below: &below,
            },
            count,
        ),
    }
}

pub(crate) fn work_out_states(
    heap: Global,
    formed: Formed<'_>,
) -> Result<Vec<StateFacts>, AllocError>
    ensures { IfOk result (λ v. v.items ≡ map (state_facts (view formed.entry.tables)) (range_with_len 0 formed.entry.tables.head.states)) }
{
    (0..formed.tables.head.states)
        .map(|s| work_out_state(formed, s))
        .collect(heap)
}
