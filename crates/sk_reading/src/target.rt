use sk_names::Name;
use sk_tree::Expr;
use sqlite_items::Items;

/// What an assignment changes.
#[derive(Debug, Drop)]
pub enum Target {
    Variable(Name),
    /// `name(places)`
    Element(Name, Items<Expr>),
    /// `name[place]`
    Bracketed(Name, Expr),
}
