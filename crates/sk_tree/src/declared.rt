use sk_base::Ty;
use sk_names::Text;

/// A container or an input that a program declares. Its kind is its number of sizes, from 1 to 4.
#[derive(Debug, Drop)]
pub struct Declared {
    pub name: Text,
    pub kind: u8,
    pub ty: Ty,
}
