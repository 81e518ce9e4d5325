// Least levels and bounds in a relation.
ghost use Rattle.std.specs.Prelude.{◌≡◌};
ghost use Rattle.search.specs.First.{some_below, lowest_below};
ghost use Rattle.table.specs.Rows.{rows_of, upper, least_in, lowest, least_of, lacks, lacked};

use crate::relation::{Relation, has, includes};
use search::{Test, first_below};

// The least levels of a row.
#[derive(Drop)]
struct LeastIn<'a> {
    relation: &'a Relation,
    row: u32,
}

impl Test for LeastIn<'_> {
    ghost test = { λ x. least_in (rows_of x.relation.now.rows) x.row };

    fn passes(&self, k: u32) -> bool {
        has(self.row, k) & includes(self.relation.row(k), self.row)
    }
}

// The levels that flow to every level of a row.
#[derive(Drop)]
struct Lowest<'a> {
    relation: &'a Relation,
    all: u32,
}

impl Test for Lowest<'_> {
    ghost test = { λ x. lowest (rows_of x.relation.now.rows) x.all };

    fn passes(&self, i: u32) -> bool {
        includes(self.relation.row(i), self.all)
    }
}

impl Relation {
    // The least level to which a and b flow.
    pub(crate) fn least_above(&self, a: u32, b: u32) -> Option<u32>
        ensures { result ≡ lowest_below (least_in (rows_of self.now.rows) (upper (rows_of self.now.rows) a b)) self.now.count }
    {
        let row = self.row(a) & self.row(b);
        first_below(
            &LeastIn {
                relation: self,
                row,
            },
            self.count,
        )
    }

    // The level that flows to every level. In a lattice there is one; else it gives the count, as the definition does.
    pub(crate) fn least(&self) -> u32
        ensures { result ≡ least_of self.now.count (rows_of self.now.rows) }
    {
        let all = (1u32 << self.count) - 1;
        let lowest = Lowest {
            relation: self,
            all,
        };
        first_below(&lowest, self.count).unwrap_or(self.count)
    }
}

// An order, and the same order turned round: a bound in the one is a join, in the other a meet.
#[derive(Clone, Copy)]
pub(crate) struct Bounds<'a> {
    pub(crate) order: &'a Relation,
    pub(crate) turned: &'a Relation,
    ghost alike: { turned.now.count ≡ order.now.count },
}

// The levels with which level a lacks a bound.
#[derive(Drop)]
struct Lacks<'a> {
    bounds: Bounds<'a>,
    a: u32,
}

impl Test for Lacks<'_> {
    ghost test = { λ x. lacks x.bounds.order.now.count (rows_of x.bounds.order.now.rows) (rows_of x.bounds.turned.now.rows) x.a };

    fn passes(&self, b: u32) -> bool {
        let join = self.bounds.order.least_above(self.a, b);
        let meet = self.bounds.turned.least_above(self.a, b);
        join.is_none() | meet.is_none()
    }
}

// The levels that lack a bound with another.
impl Test for Bounds<'_> {
    ghost test = { λ x a. some_below (lacks x.order.now.count (rows_of x.order.now.rows) (rows_of x.turned.now.rows) a) x.order.now.count };

    fn passes(&self, a: u32) -> bool {
        let bounds = *self;
        first_below(&Lacks { bounds, a }, bounds.order.count).is_some()
    }
}

impl Bounds<'_> {
    // The lowest level that lacks a bound with another.
    pub(crate) fn first_lacking(&self) -> Option<u32>
        ensures { result ≡ lowest_below (λ a. some_below (lacks self.now.order.now.count (rows_of self.now.order.now.rows) (rows_of self.now.turned.now.rows) a) self.now.order.now.count) self.now.order.now.count }
    {
        first_below(self, self.order.count)
    }

    // The lowest level with which level a lacks a bound. It is asked of one that lacks some; of another it gives the count, as
    // the definition does.
    pub(crate) fn first_lacked(&self, a: u32) -> u32
        ensures { result ≡ lacked self.now.order.now.count (rows_of self.now.order.now.rows) (rows_of self.now.turned.now.rows) a }
    {
        let bounds = *self;
        let count = bounds.order.count;
        first_below(&Lacks { bounds, a }, count).unwrap_or(count)
    }
}
