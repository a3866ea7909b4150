ghost use Rattle.std.specs.Prelude.{◌≡◌, ◌<◌, [], length, replicate, All, IfOk, OnOk, slice_index_or};
ghost use Rattle.sk_ranks.specs.Followers.{AddsTo, numbers_in};

use std::alloc::{AllocError, Global};
use std::marker::Model;

/// For each of some things the numbers of those that wait for it. Contracts see the list of these lists.
#[derive(Drop)]
pub struct Followers {
    lists: Vec<Vec<u32>>,
}

impl Model for Followers {
    ghost use Rattle.std.specs.Prelude.{List, ℕ};

    ghost Value = { List (List ℕ) };

    ghost use Rattle.sk_ranks.specs.Followers.{numbers_in};

    ghost view = { λ f. numbers_in f.lists.items };
}

/// Puts `who` at the end of each list that is awaited, as often as it is.
fn add(lists: &mut [Vec<u32>], who: u32, awaited: &[u32]) -> Result<(), AllocError>
    requires { All (λ e. e < length lists.old) awaited.now }
    ensures { OnOk result (AddsTo (numbers_in lists.old) (numbers_in lists.new) who awaited.now) }
{
    'awaited: for e in awaited {
        lists[*e as usize].push(who)?;
    }
    Ok(())
}

impl Followers {
    /// Nobody waits for any of so many things.
    pub fn new(alloc: Global, n: usize) -> Result<Followers, AllocError>
        ensures { IfOk result (λ f. f ≡ replicate n []) }
    {
        let mut lists = Vec::with_capacity(alloc, n)?;
        for _ in 0..n {
            lists.push(Vec::new(alloc))?;
        }
        Ok(Followers { lists })
    }

    /// Lets `who` wait for each of the awaited things, as often as it stands there.
    pub fn add(&mut self, who: u32, awaited: &[u32]) -> Result<(), AllocError>
        requires { All (λ e. e < length self.old) awaited.now }
        ensures { OnOk result (AddsTo self.old self.new who awaited.now) }
    {
        add(&mut self.lists, who, awaited)
    }

    /// Those that wait for this thing.
    pub fn of(&self, number: u32) -> &[u32]
        requires { number < length self.now }
        ensures { result.now ≡ slice_index_or self.now number [] }
    {
        self.lists[number as usize].as_slice()
    }
}
