ghost use Rattle.std.specs.Prelude.{◌≡◌, IfOk, IsTrue, ◌↔◌};

use crate::memory::Memory;
use sk_base::Cell;
use std::alloc::Global;
use std::marker::Model;
use std::rc::Rc;

/// A list that several steps may share, and nobody changes. Contracts see it as its elements.
#[derive(Debug, Drop)]
pub struct Shared<T> {
    list: Rc<Vec<T>>,
}

impl<T> Model for Shared<T> {
    ghost use Rattle.std.specs.Prelude.{List};
    ghost use Rattle.std.specs.Coded.{coded_list};

    ghost Value = { List T };

    ghost coded = { coded_list T.code };

    ghost view = { λ shared. shared.list.value.items };
}

/// Cells, one after another.
pub type Cells = Shared<Cell>;

/// Numbers of stores or of copies.
pub type Numbers = Shared<u64>;

impl<T: Drop> Shared<T> {
    /// The list with these elements, which are not copied.
    pub fn new(alloc: Global, list: Vec<T>) -> Result<Shared<T>, Memory>
        ensures { IfOk result (λ shared. shared ≡ list.items) }
    {
        let list = Rc::new(alloc, list)?;
        Ok(Shared { list })
    }

    /// The elements in order.
    pub fn as_slice(&self) -> &[T]
        ensures { result.now ≡ self.now }
    {
        self.list.as_slice()
    }

    /// One more owner of the same list. It takes no memory, and fails only where a list has as many owners as can be
    /// counted.
    pub fn again(&self) -> Result<Shared<T>, Memory>
        ensures { IfOk result (λ shared. shared ≡ self.now) }
    {
        let list = self.list.clone()?;
        Ok(Shared { list })
    }
}

/// Lists are equal where they have the same elements in the same order.
impl<T: PartialEq> PartialEq for Shared<T> {
    ghost use Rattle.std.specs.Cmp.Lexicographic.{pointwise};
    ghost use Rattle.std.proofs.Common.{rules};
    ghost use Rattle.std.specs.Cmp.Rules.{comparing};

    ghost eq = { pointwise T.eq };

    ghost laws = { Prim.search (comparing, rules, T.laws) };

    fn eq(&self, other: &Shared<T>) -> bool {
        self.list.as_slice() == other.list.as_slice()
    }
}

impl<T: Eq> Eq for Shared<T> {
    ghost use Rattle.std.proofs.Common.{rules};
    ghost use Rattle.std.specs.Cmp.Rules.{comparing};

    ghost laws = { Prim.search (comparing, rules, T.Eq.laws) };
}
