ghost use Rattle.std.specs.Prelude.{◌≡◌, ◌≤◌};
ghost use Rattle.sk_grammar.specs.Signs.{infix_of, infix_level};

use sk_base::Op;
use sk_tokens::Sign;

/// An operator between two operands.
#[derive(Clone, Copy, PartialEq, Eq, Debug)]
pub enum Infix {
    Computes(Op),
    /// `&&`
    Both,
    /// `||`
    Either,
}

impl Infix {
    /// The operator that the sign spells.
    pub fn of(sign: Sign) -> Option<Infix>
        ensures { result ≡ infix_of sign }
    {
        let op = match sign {
            Sign::OrOr => return Some(Infix::Either),
            Sign::AndAnd => return Some(Infix::Both),
            Sign::Or => Op::Or,
            Sign::Caret => Op::Xor,
            Sign::And => Op::And,
            Sign::EqEq => Op::Eq,
            Sign::Ne => Op::Ne,
            Sign::Lt => Op::Lt,
            Sign::Le => Op::Le,
            Sign::Gt => Op::Gt,
            Sign::Ge => Op::Ge,
            Sign::Shl => Op::Shl,
            Sign::Shr => Op::Shr,
            Sign::Plus => Op::Add,
            Sign::Minus => Op::Sub,
            Sign::Star => Op::Mul,
            Sign::Slash => Op::Div,
            Sign::Percent => Op::Rem,
            _ => return None,
        };
        Some(Infix::Computes(op))
    }

    /// How tightly it binds, from 1 to 10.
    pub fn level(self) -> u8
        ensures value { result ≡ infix_level self }
        ensures most { result ≤ 10 }
    {
        match self {
            Infix::Either => 1,
            Infix::Both => 2,
            Infix::Computes(Op::Or) => 3,
            Infix::Computes(Op::Xor) => 4,
            Infix::Computes(Op::And) => 5,
            Infix::Computes(Op::Eq | Op::Ne) => 6,
            Infix::Computes(Op::Lt | Op::Le | Op::Gt | Op::Ge) => 7,
            Infix::Computes(Op::Shl | Op::Shr) => 8,
            Infix::Computes(Op::Add | Op::Sub) => 9,
            Infix::Computes(Op::Mul | Op::Div | Op::Rem) => 10,
        }
    }
}
