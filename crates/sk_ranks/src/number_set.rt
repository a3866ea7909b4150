ghost use Rattle.std.specs.Prelude.{◌≡◌, ℕ, ◌+◌, ◌*◌, ◌^◌, ◌<◌, ◌≤◌, List, length, drop, All, Some, slice_get, slice_index, slice_set, IfOk, if◌then◌else◌};
ghost use Rattle.sk_ranks.specs.Sums.{total, part, IsPower, IsTree};
ghost use Rattle.sk_ranks.specs.Numbers.{marked_from, Inserts};

use std::alloc::{AllocError, Global};
use std::marker::Model;

/// A set of numbers. Contracts see the mark of each number, 1 where it is in the set and else 0; there are as many as a
/// power of two.
///
/// The marks are the leaves of a binary tree of sums, so a change and a search for the k-th smallest number take one step
/// a level.
#[derive(Drop)]
pub struct NumberSet {
    sums: Vec<u32>,
    leaves: usize,
}

impl Model for NumberSet {
    ghost use Rattle.std.specs.Prelude.{List, ℕ};

    ghost Value = { List ℕ };

    ghost use Rattle.sk_ranks.specs.NumberSet.{marks_of, IsCounted};

    ghost view = { marks_of };

    ghost invariant = { IsCounted };
}

/// Sets the mark of a number, and the sums above it.
fn set(sums: &mut [u32], leaves: usize, number: usize, mark: u32)
    requires tree { IsTree sums.old leaves }
    requires inside { number < leaves }
    requires fits { total (slice_set (drop leaves sums.old) number mark) < 2 ^ 32 }
    ensures tree { IsTree sums.new leaves }
    ensures marks { drop leaves sums.new ≡ slice_set (drop leaves sums.old) number mark }
{
    let mut width = leaves;
    let mut at = number;
    sums[width + at] = mark;
    'levels: while width > 1 {
        width /= 2;
        at /= 2;
        let left = 2 * (width + at);
        sums[width + at] = sums[left] + sums[left + 1];
    }
}

/// The number with this rank among those in the set.
fn find(sums: &[u32], leaves: usize, rank: u32) -> usize
    requires tree { IsTree sums.now leaves }
    requires below { rank < total (drop leaves sums.now) }
    ensures inside { result < leaves }
    ensures before { part sums.now leaves result ≤ rank }
    ensures within { rank < part sums.now leaves result + slice_index sums.now (leaves + result) }
{
    let mut width = 1;
    let mut at = 0;
    let mut rest = rank;
    'levels: while width < leaves {
        width *= 2;
        at *= 2;
        let left = sums[width + at];
        if left <= rest {
            rest -= left;
            at += 1;
        }
    }
    at
}

/// The least power of two that is no less than n.
fn power_from(n: usize) -> usize
    requires { n < 2 ^ 31 }
    ensures power { IsPower result }
    ensures enough { n ≤ result }
    ensures small { result < 2 ^ 32 }
{
    let mut power = 1;
    'powers: while power < n {
        power *= 2;
    }
    power
}

impl NumberSet {
    /// The empty set, with marks for the numbers below n, and maybe for more.
    pub fn new(alloc: Global, n: usize) -> Result<NumberSet, AllocError>
        requires { n < 2 ^ 31 }
        ensures empty { IfOk result (λ set. (i : ℕ) → slice_index set i ≡ 0) }
        ensures room { IfOk result (λ set. n ≤ length set) }
    {
        let leaves = power_from(n);
        let sums = vec![in alloc; 0; 2 * leaves]?;
        Ok(NumberSet { sums, leaves })
    }

    /// Puts the number into the set.
    pub fn insert(&mut self, number: u32)
        requires { number < length self.old }
        ensures { self.new ≡ slice_set self.old number 1 }
    {
        set(&mut self.sums, self.leaves, number as usize, 1);
    }

    /// Puts the number into the set if this is so.
    pub fn insert_if(&mut self, number: u32, so: bool)
        requires { number < length self.old }
        ensures { self.new ≡ if so then slice_set self.old number 1 else self.old }
    {
        if so {
            self.insert(number);
        }
    }

    /// Puts all these numbers into the set.
    pub fn insert_all(&mut self, numbers: &[u32])
        requires { All (λ number. number < length self.old) numbers.now }
        ensures { Inserts self.old self.new numbers.now }
    {
        'numbers: for number in numbers {
            self.insert(*number);
        }
    }

    /// Takes the number out of the set.
    pub fn remove(&mut self, number: u32)
        requires { number < length self.old }
        ensures { self.new ≡ slice_set self.old number 0 }
    {
        set(&mut self.sums, self.leaves, number as usize, 0);
    }

    /// How many numbers the set has.
    pub fn count(&self) -> u32
        ensures { result ≡ length (marked_from 0 self.now) }
    {
        self.sums[1]
    }

    /// The number before which so many others of the set come.
    pub fn nth(&self, rank: u32) -> u32
        requires { rank < length (marked_from 0 self.now) }
        ensures { slice_get (marked_from 0 self.now) rank ≡ Some result }
    {
        find(&self.sums, self.leaves, rank) as u32
    }
}
