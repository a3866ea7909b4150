ghost use Rattle.std.specs.Prelude.{◌≡◌, ℕ, List, map, position, IfOk};
ghost use Rattle.sk_data.specs.Records.{HaveDistinctNames, same_name};

use indexmap::IndexSet;
use sk_tree::Declared;
use std::alloc::{AllocError, Global};
use std::marker::Model;

/// The names of the declared inputs with their places, which contracts see as their list.
#[derive(Drop)]
pub struct Names<'a> {
    names: IndexSet<&'a [u8]>,
}

impl<'a> Model for Names<'a> {
    ghost use Rattle.std.specs.Prelude.{ℕ, List, map};

    ghost Value = { List (List ℕ) };

    ghost view = { λ s. map (λ name. name.now) s.names.keys };
}

impl<'a> Names<'a> {
    /// The names of these inputs.
    pub fn new(alloc: Global, declared: &'a [Declared]) -> Result<Names<'a>, AllocError>
        requires { HaveDistinctNames declared.now }
        ensures { IfOk result (λ names. names ≡ map (λ input. input.name) declared.now) }
    {
        let mut names = IndexSet::new(alloc);
        'inputs: for input in declared {
            names.insert_full(input.name.as_bytes())?;
        }
        Ok(Names { names })
    }

    /// The place of a name. It takes constant time, however many names there are.
    pub fn place(&self, name: &[u8]) -> Option<usize>
        ensures { result ≡ position (same_name name.now) self.now }
    {
        self.names.get_index_of(name)
    }
}
