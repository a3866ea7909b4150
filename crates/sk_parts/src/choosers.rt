ghost use Rattle.std.specs.Prelude.{◌≡◌, ◌<◌};
ghost use Rattle.sk_parts.specs.Choosers.{stepped, drawn, first_of, rest_of};

use std::marker::Model;

/// Who says which of several things comes next, where any of them may.
pub trait Chooser {
    /// One of `count` things, counted from 0.
    fn choose(&mut self, count: u32) -> u32
        requires { 0 < count }
        ensures { result < count };
}

/// A linear congruential generator, which contracts see as its state.
#[derive(Debug, Drop)]
pub struct Seeded {
    state: u64,
}

impl Model for Seeded {
    ghost use Rattle.std.specs.Prelude.{ℕ};

    ghost Value = { ℕ };

    ghost view = { λ s. s.state };
}

impl Seeded {
    const FACTOR: u64 = 6364136223846793005;

    const SUMMAND: u64 = 1442695040888963407;

    /// A generator in this state.
    pub fn new(x: u64) -> Seeded
        ensures { result ≡ x }
    {
        Seeded { state: x }
    }
}

impl Chooser for Seeded {
    /// One step of the generator; the upper 31 bits of the new state, modulo `count`.
    fn choose(&mut self, count: u32) -> u32
        requires { 0 < count }
        ensures below { result < count }
        ensures choice { result ≡ drawn (stepped self.old) count }
        ensures state { self.new ≡ stepped self.old }
    {
        let x = self.state;
        self.state = x.wrapping_mul(Self::FACTOR).wrapping_add(Self::SUMMAND);
        ((self.state >> 33) % u64::from(count)) as u32
    }
}

/// Choices from a list, and 0 after its end. Contracts see it as the list of the numbers still to come.
#[derive(Debug, Drop)]
pub struct Listed {
    list: Vec<u32>,
    next: usize,
}

impl Model for Listed {
    ghost use Rattle.std.specs.Prelude.{ℕ, List, drop, ◌≤◌, vec_len};

    ghost Value = { List ℕ };

    ghost view = { λ l. drop l.next l.list.items };

    ghost invariant = { λ l. l.next ≤ vec_len l.list };
}

impl Listed {
    /// A chooser that takes these numbers in order, each modulo the count that it is asked for.
    pub fn new(list: Vec<u32>) -> Listed
        ensures { result ≡ list.items }
    {
        Listed { list, next: 0 }
    }
}

impl Chooser for Listed {
    /// The next number of the list modulo `count`, or 0 after its end.
    fn choose(&mut self, count: u32) -> u32
        requires { 0 < count }
        ensures below { result < count }
        ensures choice { result ≡ first_of self.old count }
        ensures rest { self.new ≡ rest_of self.old }
    {
        if self.next == self.list.len() {
            return 0;
        }
        let number = self.list[self.next];
        self.next += 1;
        number % count
    }
}
