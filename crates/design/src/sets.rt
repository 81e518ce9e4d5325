// Sets of numbers below 32, as sets of owners: number t is in the set when bit t is set.
ghost use Rattle.std.specs.Prelude.{◌≡◌, ◌%◌, ◌^◌, ◌≤◌, map, if◌then◌else◌};
ghost use Rattle.std.specs.List.{range_with_len};
ghost use Rattle.lattice.specs.Sets.{owners_joins};
ghost use Rattle.design.specs.Chains.{union, set_where};

use search::{Amount, Test};

fn union(a: u32, b: u32) -> u32
    ensures { result ≡ (owners_joins 32).join a b }
{
    a | b
}

pub(crate) fn union_of(sets: &[u32]) -> u32
    ensures { result ≡ union sets.now }
{
    sets.iter().fold(0, |all, set| union(all, *set))
}

// The union of the sets of the numbers below `count`.
pub(crate) fn union_below<A: Amount>(of: &A, count: u32) -> u32
    ensures { result ≡ union (map (A.Amount.amounts of.now) (range_with_len 0 count)) }
{
    (0..count)
        .map(|k| of.amount(k))
        .fold(0, |all, set| union(all, set))
}

// The set of a number alone where it passes, and else the empty set.
#[derive(Drop)]
struct Single<'a, T> {
    test: &'a T,
}

impl<T: Test> Amount for Single<'_, T> {
    ghost amounts = { λ x k. (if T.Test.test x.test.now k then 2 ^ (k % 32) else 0) };

    fn amount(&self, k: u32) -> u32 {
        if self.test.passes(k) {
            1 << (k % 32)
        } else {
            0
        }
    }
}

// The set of the numbers below `count` that pass.
pub(crate) fn set_where<T: Test>(test: &T, count: u32) -> u32
    requires { count ≤ 32 }
    ensures { result ≡ set_where (T.Test.test test.now) count }
{
    union_below(&Single { test }, count)
}
