// Numbers worked out record by record, each from those before it.
ghost use Rattle.std.specs.Prelude.{◌≡◌, ℕ, ◌+◌, ◌<◌, ◌≤◌, slice_index};
ghost use Rattle.rules.specs.Tables.{HoldsBelow};
ghost use Rattle.shape.specs.Rank.{ranked};

// No table of a design is longer. What is worked out of one is an array of this length, since the rules take no memory from
// a heap, and so cannot lack any.
pub const MOST_RECORDS: usize = 256;

// A number for each record.
pub type Numbers = [u32; MOST_RECORDS];

// What a record's number is made of. A trait and no closure, so that its meaning is stated and proved once.
pub(crate) trait Node {
    ghost node: { Self → (ℕ → ℕ) → ℕ → ℕ };

    // The number of record k is at most this and k + 1 more.
    ghost base: { Self → ℕ };

    // The number of record k, from those of the records before it; `done` has 0 from k on.
    fn value(&self, done: &Numbers, k: u32) -> u32
        requires { (k < 256) × (((j : ℕ) → slice_index done.now j ≤ base self.now + k)) }
        ensures value { result ≡ node self.now (λ j. slice_index done.now j) k }
        ensures bound { result ≤ base self.now + (k + 1) };
}

// The numbers of the records below `count`, and 0 from there on. A loop, since each is worked out of the table so far. Three
// more such loops are three lines too, of another length, type or direction (`work_out_ends`, and two in `design`): one function
// for two crates would be public, and would require what its steps require.
pub(crate) fn work_out<N: Node>(nodes: &N, count: u32) -> Numbers
    requires { count ≤ 256 }
    ensures { HoldsBelow 0 count (ranked (λ j. j) 0 (N.Node.node nodes.now)) result }
{
    let mut done = [0; MOST_RECORDS];
    for k in 0..count {
        done[k as usize] = nodes.value(&done, k);
    }
    done
}
