// Sets of at most 64 nodes, each a word with bit i for node i (docs/SCOPE.md, 3). Each contract is the
// definition of the same name in specs/Set.antt.
#![tactic(auto)]

mod members; // the nodes of a set, one by one

ghost use Rattle.std.specs.Prelude.{◌≡◌, ◌^◌, ◌<◌, ◌≤◌};
ghost use Rattle.base.specs.Word.{holds};
ghost use Rattle.node_set.specs.Set.{width, empty, single, added, removed, union, intersection, difference};
ghost use Rattle.node_set.specs.Set.{all_below, complement_in, included};
ghost use Rattle.node_set.specs.Set.{Lowest, Counted};

pub use members::{Members, nodes_in};

// how many nodes a word has room for
const WIDTH: usize = u64::BITS as usize;

#[tactic(auto, unfolding(crate::specs::Set::empty))]
pub fn empty() -> u64
    ensures { result ≡ empty }
{
    0
}

// Kept: i is asked to be below the width here and in three functions below; a number of a type of its own would be
// made, with that proof, at each call, out of a place in an array or a node of a network.
#[tactic(auto, using(crate::proofs::laws::BitLaws::one_shifted), unfolding(crate::specs::Set::single))]
pub fn single(i: usize) -> u64
    requires { i < width }
    ensures { result ≡ single i }
{
    1u64 << i
}

#[tactic(auto, using(base::proofs::laws::WordLaws::holds_shift))]
pub fn contains(x: u64, i: usize) -> bool
    requires { i < width }
    ensures { result ≡ holds x i }
{
    (x >> i) % 2 == 1
}

#[tactic(auto, using(crate::proofs::laws::BitLaws::one_shifted), unfolding(crate::specs::Set::added))]
pub fn add(x: u64, i: usize) -> u64
    requires { i < width }
    ensures { result ≡ added x i }
{
    x | (1u64 << i)
}

#[tactic(auto, using(crate::proofs::laws::BitLaws::one_shifted), unfolding(crate::specs::Set::removed))]
pub fn remove(x: u64, i: usize) -> u64
    requires { i < width }
    ensures { result ≡ removed x i }
{
    x ^ (x & (1u64 << i))
}

#[tactic(auto, unfolding(crate::specs::Set::union))]
pub fn union(x: u64, y: u64) -> u64
    ensures { result ≡ union x y }
{
    x | y
}

#[tactic(auto, unfolding(crate::specs::Set::intersection))]
pub fn intersection(x: u64, y: u64) -> u64
    ensures { result ≡ intersection x y }
{
    x & y
}

#[tactic(auto, unfolding(crate::specs::Set::difference))]
pub fn difference(x: u64, y: u64) -> u64
    ensures { result ≡ difference x y }
{
    x ^ (x & y)
}

// the nodes below n; all of them are named apart, since a shift by the whole width gives nothing
#[tactic(auto, using(crate::proofs::laws::BitLaws::one_shifted), unfolding(crate::specs::Set::all_below))]
pub fn all_below(n: usize) -> u64
    requires { n ≤ width }
    ensures { result ≡ all_below n }
{
    if n == WIDTH {
        u64::MAX
    } else {
        (1u64 << n) - 1
    }
}

// the nodes below n that are not in x, a set of nodes below n
#[tactic(auto, unfolding(crate::specs::Set::all_below, crate::specs::Set::complement_in))]
pub fn complement(x: u64, n: usize) -> u64
    requires { (n ≤ width) × (x < 2 ^ n) }
    ensures { result ≡ complement_in n x }
{
    all_below(n) ^ x
}

// whether every node of x is in y
#[tactic(auto, unfolding(crate::specs::Set::included))]
pub fn includes(y: u64, x: u64) -> bool
    ensures { result ≡ included x y }
{
    (x & y) == x
}

#[tactic(auto, using(crate::proofs::laws::SizeLaws::counted))]
pub fn size(x: u64) -> u32
    ensures { Counted x result }
{
    x.count_ones()
}

pub fn lowest(x: u64) -> usize
    requires { 0 < x }
    ensures { Lowest x result }
{
    x.trailing_zeros() as usize
}
