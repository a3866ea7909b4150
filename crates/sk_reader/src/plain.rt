ghost use Rattle.std.specs.Prelude.{◌≡◌, IfOk, IfErr};
ghost use Rattle.sk_grammar.specs.Signs.{step_of};
ghost use Rattle.sk_reader.specs.ParsesAs.{ParsesAs};
ghost use Rattle.sk_reading.specs.Reading.{value_of};
ghost use Rattle.sk_reading.specs.ReadingAssignments as spec;

use crate::cursor::Cursor;
use crate::operators::{places, value, value_inside};
use crate::stop::Stop;
use crate::target::{assigned, old_value};
use sk_base::{Op, Ty};
use sk_names::Name;
use sk_reading::{Keyword, Next, Reach, Target, Update};
use sk_tokens::Sign;
use sk_tree::{Expr, What};
use sqlite_items::Boxed;
use std::alloc::{AllocError, Global};

/// What a sign behind a target does, if it changes the target.
fn update_of(sign: Sign) -> Option<Update>
    ensures { result ≡ spec.update_of sign }
{
    match sign {
        Sign::Eq => Some(Update::Value),
        Sign::PlusEq => Some(Update::Joined(Op::Add)),
        Sign::MinusEq => Some(Update::Joined(Op::Sub)),
        Sign::StarEq => Some(Update::Joined(Op::Mul)),
        Sign::SlashEq => Some(Update::Joined(Op::Div)),
        Sign::PercentEq => Some(Update::Joined(Op::Rem)),
        Sign::AndEq => Some(Update::Joined(Op::And)),
        Sign::OrEq => Some(Update::Joined(Op::Or)),
        Sign::CaretEq => Some(Update::Joined(Op::Xor)),
        Sign::ShlEq => Some(Update::Joined(Op::Shl)),
        Sign::ShrEq => Some(Update::Joined(Op::Shr)),
        Sign::PlusPlus => Some(Update::Step(Op::Add)),
        Sign::MinusMinus => Some(Update::Step(Op::Sub)),
        _ => None,
    }
}

/// What the next token does to a target before it, if it changes it.
fn update_at(next: Next) -> Option<Update>
    ensures { result ≡ spec.update_next next }
{
    match next {
        Next::Sign(sign) => update_of(sign),
        _ => None,
    }
}

/// The operator of `++` and `--`.
fn step(sign: Sign) -> Option<Op>
    ensures { result ≡ step_of sign }
{
    match sign {
        Sign::PlusPlus => Some(Op::Add),
        Sign::MinusMinus => Some(Op::Sub),
        _ => None,
    }
}

/// The tree of an operator between two operands.
fn binary(alloc: Global, op: Op, left: Expr, right: Expr) -> Result<Expr, AllocError>
    ensures { IfOk result (λ whole. whole ≡ Expr.Binary op left right) }
{
    Ok(Expr::Binary(op, Boxed::new(alloc, left)?, Boxed::new(alloc, right)?))
}

/// Reads statements that hold no others.
#[derive(Clone, Copy)]
pub struct Plain {
    pub alloc: Global,
    /// How many more may be opened.
    pub left: usize,
}

impl Plain {
    /// `"(" args ")"` behind the name of a container, from the parenthesis on; each place is an expression of its own.
    #[tactic(auto, unfolding(sk_reading::specs::ReadingAssignments::element))]
    fn element(&self, cursor: &mut Cursor<'_>, name: Name) -> Result<Target, Stop>
        ensures { ParsesAs (spec.element self.now.left name cursor.old) result cursor.new }
    {
        cursor.open(self.left)?;
        cursor.advance();
        let found = places(self.alloc, cursor, self.left)?;
        cursor.expect(Sign::CloseParen)?;
        Ok(Target::Element(name, found))
    }

    /// `"[" expr "]"` behind the name of a container, from the bracket on.
    #[tactic(auto, unfolding(sk_reading::specs::ReadingAssignments::bracketed))]
    fn bracketed(&self, cursor: &mut Cursor<'_>, name: Name) -> Result<Target, Stop>
        ensures { ParsesAs (spec.bracketed self.now.left name cursor.old) result cursor.new }
    {
        cursor.open(self.left)?;
        cursor.advance();
        let place = value_inside(self.alloc, cursor, self.left)?;
        cursor.expect(Sign::CloseBracket)?;
        Ok(Target::Bracketed(name, place))
    }

    /// `target = NAME | NAME "(" args ")" | NAME "[" expr "]"`
    #[tactic(auto, unfolding(sk_reading::specs::ReadingAssignments::target))]
    pub fn target(&self, cursor: &mut Cursor<'_>) -> Result<Target, Stop>
        ensures { ParsesAs (spec.target self.now.left cursor.old) result cursor.new }
    {
        let name = cursor.name(self.alloc)?;
        match cursor.peek() {
            Next::Sign(Sign::OpenParen) => self.element(cursor, name),
            Next::Sign(Sign::OpenBracket) => self.bracketed(cursor, name),
            _ => Ok(Target::Variable(name)),
        }
    }

    /// The target at a cursor, which has been read already, once more: trees are not copied.
    fn again(&self, start: &Cursor<'_>, target: &Target) -> Result<Target, Stop>
        requires { value_of (spec.target self.now.left start.now) ≡ Some target.now }
        ensures same { IfOk result (λ again. again ≡ target.now) }
        ensures memory { IfErr result (λ fault. fault ≡ Stop.Memory) }
    {
        let mut start = start.again();
        match self.target(&mut start) {
            Ok(again) => Ok(again),
            Err(_) => Err(Stop::Memory),
        }
    }

    /// The value of the target, which begins at `start`.
    fn old_value(&self, start: &Cursor<'_>, target: &Target) -> Result<Expr, Stop>
        requires { value_of (spec.target self.now.left start.now) ≡ Some target.now }
        ensures old { IfOk result (λ old. old ≡ spec.old_value target.now) }
        ensures memory { IfErr result (λ fault. fault ≡ Stop.Memory) }
    {
        let same = self.again(start, target)?;
        Ok(old_value(self.alloc, same)?)
    }

    /// The value of the target, which begins at `start`, with another joined to it.
    fn joined_value(
        &self,
        start: &Cursor<'_>,
        target: &Target,
        op: Op,
        more: Expr,
    ) -> Result<Expr, Stop>
        requires { value_of (spec.target self.now.left start.now) ≡ Some target.now }
        ensures whole { IfOk result (λ whole. whole ≡ Expr.Binary op (spec.old_value target.now) more) }
        ensures memory { IfErr result (λ fault. fault ≡ Stop.Memory) }
    {
        let old = self.old_value(start, target)?;
        Ok(binary(self.alloc, op, old, more)?)
    }

    /// The statement that joins a value to that of the target, which begins at `start`.
    fn joined(&self, start: &Cursor<'_>, target: Target, op: Op, more: Expr) -> Result<What, Stop>
        requires { value_of (spec.target self.now.left start.now) ≡ Some target }
        ensures does { IfOk result (λ does. does ≡ spec.assigned target (Expr.Binary op (spec.old_value target) more)) }
        ensures memory { IfErr result (λ fault. fault ≡ Stop.Memory) }
    {
        let value = self.joined_value(start, &target, op, more)?;
        Ok(assigned(self.alloc, target, value)?)
    }

    /// `"=" expr` behind a target, from the sign on.
    fn assigns(&self, cursor: &mut Cursor<'_>, target: Target) -> Result<What, Stop>
        ensures { ParsesAs (spec.update_by self.now.left target (Some Update.Value) cursor.old) result cursor.new }
    {
        cursor.advance();
        let new = value(self.alloc, cursor, self.left, Reach::Whole)?;
        Ok(assigned(self.alloc, target, new)?)
    }

    /// `aop expr` behind a target that begins at `start`, from the sign on, where the value is joined to the old one:
    /// `aop = "+=" | "-=" | "*=" | "/=" | "%=" | "&=" | "|=" | "^=" | "<<=" | ">>="`.
    #[tactic(auto, unfolding(sk_reading::specs::ReadingAssignments::joined_value))]
    fn joins(
        &self,
        cursor: &mut Cursor<'_>,
        start: &Cursor<'_>,
        target: Target,
        op: Op,
    ) -> Result<What, Stop>
        requires { value_of (spec.target self.now.left start.now) ≡ Some target }
        ensures { ParsesAs (spec.update_by self.now.left target (Some (Update.Joined op)) cursor.old) result cursor.new }
    {
        cursor.advance();
        let more = value(self.alloc, cursor, self.left, Reach::Whole)?;
        self.joined(start, target, op, more)
    }

    /// `aop expr | ("++"|"--")` behind a target that begins at `start`.
    #[tactic(auto, unfolding(sk_reading::specs::ReadingAssignments::update))]
    pub fn update(
        &self,
        cursor: &mut Cursor<'_>,
        start: &Cursor<'_>,
        target: Target,
    ) -> Result<What, Stop>
        requires { value_of (spec.target self.now.left start.now) ≡ Some target }
        ensures { ParsesAs (spec.update self.now.left target cursor.old) result cursor.new }
    {
        match update_at(cursor.peek()) {
            Some(Update::Value) => self.assigns(cursor, target),
            Some(Update::Joined(op)) => self.joins(cursor, start, target, op),
            Some(Update::Step(op)) => {
                cursor.advance();
                self.joined(start, target, op, Expr::Number(Ty::Int, 1))
            }
            None => Err(cursor.refuse()),
        }
    }

    /// `("++"|"--") target`, from the sign on.
    fn stepped(&self, cursor: &mut Cursor<'_>, sign: Sign) -> Result<What, Stop>
        ensures { ParsesAs (spec.step_by self.now.left (step_of sign) cursor.old) result cursor.new }
    {
        let Some(op) = step(sign) else {
            return Err(cursor.refuse());
        };
        cursor.advance();
        let start = cursor.again();
        let target = self.target(cursor)?;
        self.joined(&start, target, op, Expr::Number(Ty::Int, 1))
    }

    /// `assign = target aop expr | target ("++"|"--") | ("++"|"--") target`
    #[tactic(auto, unfolding(sk_reading::specs::ReadingAssignments::assignment))]
    pub fn assignment(&self, cursor: &mut Cursor<'_>) -> Result<What, Stop>
        ensures { ParsesAs (spec.assignment self.now.left cursor.old) result cursor.new }
    {
        match cursor.peek() {
            Next::Name => {
                let start = cursor.again();
                let target = self.target(cursor)?;
                self.update(cursor, &start, target)
            }
            Next::Sign(sign) => self.stepped(cursor, sign),
            _ => Err(cursor.refuse()),
        }
    }

    /// `decl = type NAME "=" expr`
    #[tactic(auto, unfolding(sk_reading::specs::ReadingAssignments::declaration))]
    pub fn declaration(&self, cursor: &mut Cursor<'_>) -> Result<What, Stop>
        ensures { ParsesAs (spec.declaration self.now.left cursor.old) result cursor.new }
    {
        let ty = cursor.ty()?;
        let name = cursor.name(self.alloc)?;
        cursor.expect(Sign::Eq)?;
        let first = value(self.alloc, cursor, self.left, Reach::Whole)?;
        Ok(What::Declare(ty, name, first))
    }

    /// `decl | assign`, with which a `for` may begin.
    #[tactic(auto, unfolding(sk_reading::specs::ReadingAssignments::simple))]
    pub fn simple(&self, cursor: &mut Cursor<'_>) -> Result<What, Stop>
        ensures { ParsesAs (spec.simple self.now.left cursor.old) result cursor.new }
    {
        match cursor.peek() {
            Next::Keyword(Keyword::Int | Keyword::Long) => self.declaration(cursor),
            _ => self.assignment(cursor),
        }
    }
}
