ghost use Rattle.std.specs.Prelude.{◌≡◌};
ghost use Rattle.sk_typing.specs.TypingStatements as walks;

use sk_tree::{Statement, What};

/// Whether a statement returns on every way through it.
#[cycle(returning)]
fn returns(statement: &Statement) -> bool
    ensures { result ≡ walks.returning_of statement.now }
{
    match &statement.what {
        What::Return(_) => true,
        What::If(_, one, other) => {
            block_returns(one.as_slice()) && block_returns(other.as_slice())
        }
        _ => false,
    }
}

/// Whether a block has a statement that returns.
#[cycle(returning)]
pub(crate) fn block_returns(statements: &[Statement]) -> bool
    ensures { result ≡ walks.block_returns statements.now }
{
    for next in statements {
        if returns(next) {
            return true;
        }
    }
    false
}
