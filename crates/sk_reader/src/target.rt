ghost use Rattle.std.specs.Prelude.{◌≡◌, [], ◌∷◌, IfOk};
ghost use Rattle.sk_reading.specs.ReadingAssignments as spec;

use sk_reading::Target;
use sk_tree::{Expr, What};
use sqlite_items::Items;
use std::alloc::{AllocError, Global};

/// A list of one place.
fn only(alloc: Global, place: Expr) -> Result<Items<Expr>, AllocError>
    ensures { IfOk result (λ places. places ≡ place ∷ []) }
{
    let mut places = Items::new(alloc);
    places.push(place)?;
    Ok(places)
}

/// The value that stands there.
pub fn old_value(alloc: Global, target: Target) -> Result<Expr, AllocError>
    ensures { IfOk result (λ value. value ≡ spec.old_value target) }
{
    match target {
        Target::Variable(name) => Ok(Expr::Name(name)),
        Target::Element(name, places) => Ok(Expr::Apply(name, places)),
        Target::Bracketed(name, place) => Ok(Expr::Apply(name, only(alloc, place)?)),
    }
}

/// The statement that puts a value there.
pub fn assigned(alloc: Global, target: Target, value: Expr) -> Result<What, AllocError>
    ensures { IfOk result (λ does. does ≡ spec.assigned target value) }
{
    match target {
        Target::Variable(name) => Ok(What::Assign(name, value)),
        Target::Element(name, places) => Ok(What::Poke(name, places, value)),
        Target::Bracketed(name, place) => Ok(What::Poke(name, only(alloc, place)?, value)),
    }
}
