use sk_tree::{Expr, Statement};
use sqlite_items::Boxed;

/// What stands between the parentheses of a `for`.
#[derive(Debug, Drop)]
pub struct Head {
    pub first: Boxed<Statement>,
    pub test: Expr,
    pub step: Boxed<Statement>,
}
