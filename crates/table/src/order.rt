// Whether a relation is a partial order.
ghost use Rattle.std.specs.Prelude.{◌≡◌};
ghost use Rattle.search.specs.First.{lowest_below};
ghost use Rattle.table.specs.Rows.{rows_of, clashes, breaks};

use crate::relation::{Relation, has, includes};
use search::{Test, first_below};

// The levels that show that row i is no row of a partial order.
#[derive(Drop)]
struct Clashes<'a> {
    relation: &'a Relation,
    i: u32,
}

impl Test for Clashes<'_> {
    ghost test = { λ x. clashes (rows_of x.relation.now.rows) x.i };

    fn passes(&self, j: u32) -> bool {
        let row = self.relation.row(self.i);
        let other = self.relation.row(j);
        has(row, j) & ((j != self.i) & has(other, self.i) | !includes(row, other))
    }
}

// The rows that are no rows of a partial order.
#[derive(Drop)]
struct Breaks<'a> {
    relation: &'a Relation,
}

impl Test for Breaks<'_> {
    ghost test = { λ x. breaks x.relation.now.count (rows_of x.relation.now.rows) };

    fn passes(&self, i: u32) -> bool {
        let relation = self.relation;
        let row = relation.row(i);
        let clash = first_below(&Clashes { relation, i }, relation.count);
        (row >= 1u32 << relation.count) | !has(row, i) | clash.is_some()
    }
}

impl Relation {
    // The lowest row that is no row of a partial order.
    pub(crate) fn first_broken(&self) -> Option<u32>
        ensures { result ≡ lowest_below (breaks self.now.count (rows_of self.now.rows)) self.now.count }
    {
        first_below(&Breaks { relation: self }, self.count)
    }
}
