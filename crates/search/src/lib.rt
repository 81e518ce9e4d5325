// The search for the first number that passes a test.
#![tactic(auto)]

ghost use Rattle.std.specs.Prelude.{◌≡◌, ℕ, ◌*◌, ◌≤◌, Bool};
ghost use Rattle.search.specs.First.{lowest_below};
ghost use Rattle.search.specs.Sum.{sum_below};

// A test of numbers, as of the records of a table by their places. A trait and not a closure, since a function that calls a
// closure requires that it may, and no public function has a `requires`; and what a chain answers by a closure, as `any`, each
// place would have to prove anew.
pub trait Test {
    ghost test: { Self → ℕ → Bool };

    fn passes(&self, k: u32) -> bool
        ensures { result ≡ test self.now k };
}

// The lowest number below `count` that passes.
pub fn first_below<T: Test>(test: &T, count: u32) -> Option<u32>
    ensures { result ≡ lowest_below (T.Test.test test.now) count }
{
    (0..count).find(|k| test.passes(*k))
}

// An amount for each number, as for the records of a table by their places. A trait, as `Test` is.
pub trait Amount {
    ghost amounts: { Self → ℕ → ℕ };

    fn amount(&self, k: u32) -> u32
        ensures { result ≡ amounts self.now k };
}

// The sum of the amounts below `count`. A loop, since it is not shown of a chain that a sum of 64 bits fits.
pub fn sum_below<A: Amount>(of: &A, count: u32) -> u64
    ensures value { result ≡ sum_below (A.Amount.amounts of.now) count }
    ensures bound { result ≤ 4294967295 * count }
{
    let mut sum = 0u64;
    for k in 0..count {
        sum += u64::from(of.amount(k));
    }
    sum
}
