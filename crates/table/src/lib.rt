// A lattice given by a table: row i has bit j set when level i flows to level j.
#![tactic(auto)]

ghost use Rattle.std.specs.Prelude.{◌≡◌, ◌≤◌, take};
ghost use Rattle.search.specs.First.{first};
ghost use Rattle.lattice.specs.Faults.{Answers, refusal};
ghost use Rattle.table.specs.Rows.{rows_of, breaks, columns, lacking, least_of, order_verdict, table_verdict, table_model, width_of};
ghost use Rattle.table.specs.Orders.{table_lawful};

use bounds::Bounds;
use lattice::{Lattice, LatticeFault};
use relation::{MOST_LEVELS, Relation, has};

mod bounds;
mod order;
mod relation;

// A lattice of 1 to 16 levels. The ghost fields say that its rows are those of a lattice, so that no value breaks a law.
#[derive(Clone, Copy)]
pub struct Table {
    relation: Relation,
    bottom: u32,
    top: u32,
    ghost some: { 1 ≤ relation.count },
    ghost few: { relation.count ≤ 16 },
    ghost ordered: { first (breaks relation.count (rows_of relation.rows)) relation.count ≡ relation.count },
    ghost bounded: { lacking relation.count (rows_of relation.rows) (columns relation.count (rows_of relation.rows)) ≡ relation.count },
    ghost low: { bottom ≡ least_of relation.count (rows_of relation.rows) },
    ghost high: { top ≡ least_of relation.count (columns relation.count (rows_of relation.rows)) },
}

impl Table {
    // The lattice of the first `count` rows, which are copied in.
    pub fn new(count: u32, rows: &[u32]) -> Result<Self, LatticeFault>
        ensures { Answers refusal (table_verdict count rows.now) (λ t. (t.relation.count ≡ count) × (rows_of t.relation.rows ≡ rows_of (take count rows.now))) result }
    {
        if rows.len() < count as usize {
            return Err(LatticeFault::ShortRows);
        }
        if count < 1 || count > MOST_LEVELS as u32 {
            return Err(LatticeFault::CountOutOfRange { count });
        }
        Table::of(Relation::copied(count, rows))
    }

    fn of(relation: Relation) -> Result<Self, LatticeFault>
        requires { 1 ≤ relation.count }
        ensures { Answers refusal (order_verdict relation.count (rows_of relation.rows)) (λ t. t.relation ≡ relation) result }
    {
        if let Some(row) = relation.first_broken() {
            return Err(LatticeFault::OrderBroken { row });
        }
        let turned = relation.turned();
        let bounds = Bounds {
            order: &relation,
            turned: &turned,
        };
        if let Some(low) = bounds.first_lacking() {
            let high = bounds.first_lacked(low);
            return Err(LatticeFault::NoBound { low, high });
        }
        let bottom = relation.least();
        let top = turned.least();
        Ok(Table {
            relation,
            bottom,
            top,
        })
    }
}

impl Lattice for Table {
    ghost model = { λ t. table_model t.relation.count (rows_of t.relation.rows) };

    ghost lawful = { λ t. table_lawful t.relation.count (rows_of t.relation.rows) t.some t.few t.ordered t.bounded };

    fn is_level(&self, code: u32) -> bool {
        code < self.relation.count
    }

    fn width(&self) -> u32 {
        match self.relation.count {
            0..=2 => 1,
            3..=4 => 2,
            5..=8 => 3,
            _ => 4,
        }
    }

    fn flows(&self, a: u32, b: u32) -> bool {
        self.is_level(a) & self.is_level(b) & has(self.relation.row(a), b)
    }

    fn bottom(&self) -> u32 {
        self.bottom
    }

    fn top(&self) -> u32 {
        self.top
    }

    fn join(&self, a: u32, b: u32) -> u32 {
        if self.is_level(a) & self.is_level(b) {
            // In a lattice there is always one; the definition gives the count for none.
            let join = self.relation.least_above(a, b);
            join.unwrap_or(self.relation.count)
        } else {
            self.bottom
        }
    }

    fn meet(&self, a: u32, b: u32) -> u32 {
        if self.is_level(a) & self.is_level(b) {
            // As with joins.
            let meet = self.relation.turned().least_above(a, b);
            meet.unwrap_or(self.relation.count)
        } else {
            self.bottom
        }
    }
}
