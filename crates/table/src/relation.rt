ghost use Rattle.std.specs.Prelude.{◌≡◌, ℕ, ◌≤◌, length, take};
ghost use Rattle.lattice.specs.Bit.{within};
ghost use Rattle.table.specs.Rows.{rows_of, column, columns};

// Bit j of a row is set.
pub(crate) use members::has;

pub(crate) const MOST_LEVELS: usize = 16;

// A relation on the levels below `count`: level i is related to level j when bit j of row i is set. The rows are an array,
// with their count beside them, so that a table takes no memory from a heap and is `Copy`.
#[derive(Clone, Copy)]
pub(crate) struct Relation {
    pub(crate) count: u32,
    pub(crate) rows: [u32; MOST_LEVELS],
    ghost few: { count ≤ 16 },
}

// Every bit of `part` is set in a row.
pub(crate) fn includes(row: u32, part: u32) -> bool
    ensures { result ≡ within part row }
{
    part & row == part
}

impl Relation {
    // The first `count` of the lent rows.
    pub(crate) fn copied(count: u32, lent: &[u32]) -> Relation
        requires { (count ≤ 16) × (count ≤ length lent.now) }
        ensures count { result.count ≡ count }
        ensures rows { rows_of result.rows ≡ rows_of (take count lent.now) }
    {
        let mut rows = [0; MOST_LEVELS];
        let len = count as usize;
        rows[..len].copy_from_slice(&lent[..len]);
        Relation { count, rows }
    }

    // Row i, empty past the last.
    pub(crate) fn row(&self, i: u32) -> u32
        ensures { result ≡ rows_of self.now.rows i }
    {
        self.rows.get(i as usize).copied().unwrap_or(0)
    }

    // The levels that are related to level j, as a row: i is a level and a bit, and no mere place.
    fn column(&self, j: u32) -> u32
        ensures { result ≡ column (rows_of self.now.rows) j self.now.count }
    {
        let mut all = 0;
        for i in 0..self.count {
            if has(self.row(i), j) {
                all |= 1u32 << i;
            }
        }
        all
    }

    // The relation turned round. A loop, since j is a level, whose column is its row.
    pub(crate) fn turned(&self) -> Relation
        ensures count { result.count ≡ self.now.count }
        ensures rows { rows_of result.rows ≡ columns self.now.count (rows_of self.now.rows) }
    {
        let mut rows = [0; MOST_LEVELS];
        for j in 0..self.count {
            rows[j as usize] = self.column(j);
        }
        Relation {
            count: self.count,
            rows,
        }
    }
}
