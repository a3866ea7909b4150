ghost use Rattle.std.specs.Prelude.{◌≡◌, ◌≤◌, ◌++◌, [], ◌∷◌, reverse, IfOk};
ghost use Rattle.sk_grammar.specs.Signs.{prefix_of};
ghost use Rattle.sk_reader.specs.Inner.{ReadsBelow};
ghost use Rattle.sk_reader.specs.ParsesAs.{ParsesAs};
ghost use Rattle.sk_reading.specs.ReadingExpressions as spec;

use crate::cursor::Cursor;
use crate::stop::Stop;
use sk_names::Name;
use sk_reading::{Next, Reach};
use sk_tokens::Sign;
use sk_tree::{Expr, Un};
use sqlite_items::{Boxed, Items};
use std::alloc::{AllocError, Global};

/// Reads expressions, and what is inside of what it opens by `inner`.
#[derive(Clone, Copy)]
pub struct Expressions<F> {
    pub alloc: Global,
    /// How many more may be opened.
    pub left: usize,
    pub inner: F,
}

/// The prefix that a sign is: `- ~ !`.
fn prefix(sign: Sign) -> Option<Un>
    ensures { result ≡ prefix_of sign }
{
    match sign {
        Sign::Minus => Some(Un::Neg),
        Sign::Tilde => Some(Un::Inv),
        Sign::Not => Some(Un::Not),
        _ => None,
    }
}

/// `name` with one place.
fn element(alloc: Global, name: Name, place: Expr) -> Result<Expr, AllocError>
    ensures { IfOk result (λ whole. whole ≡ Expr.Apply name (place ∷ [])) }
{
    let mut places = Items::new(alloc);
    places.push(place)?;
    Ok(Expr::Apply(name, places))
}

impl<F: Fn(Global, &mut Cursor<'_>, usize, Reach) -> Result<Expr, Stop>> Expressions<F> {
    /// An expression inside of what is opened here, up to its end; a fault where nothing more may be opened.
    #[tactic(auto, unfolding(sk_reading::specs::ReadingExpressions::below))]
    pub fn inner(&self, cursor: &mut Cursor<'_>, reach: Reach) -> Result<Expr, Stop>
        requires { ReadsBelow self.now.left (F.pre self.now.inner) (F.post self.now.inner) }
        ensures { ParsesAs (spec.below self.now.left reach cursor.old) result cursor.new }
    {
        if self.left == 0 {
            return Err(cursor.deep());
        }
        (self.inner)(self.alloc, cursor, self.left - 1, reach)
    }

    /// `"(" type ")" operand`, a conversion, of which the type is known to stand behind the parenthesis.
    #[tactic(auto, unfolding(sk_reading::specs::ReadingExpressions::conversion))]
    fn conversion(&self, cursor: &mut Cursor<'_>) -> Result<Expr, Stop>
        requires { ReadsBelow self.now.left (F.pre self.now.inner) (F.post self.now.inner) }
        ensures { ParsesAs (spec.conversion self.now.left (spec.below self.now.left) cursor.old) result cursor.new }
    {
        cursor.open(self.left)?;
        cursor.count_node()?;
        cursor.expect(Sign::OpenParen)?;
        let ty = cursor.ty()?;
        cursor.expect(Sign::CloseParen)?;
        let operand = self.inner(cursor, Reach::Operand)?;
        Ok(Expr::Cast(ty, Boxed::new(self.alloc, operand)?))
    }

    /// `"(" expr ")"`, from the parenthesis on. It leaves no node.
    #[tactic(auto, unfolding(sk_reading::specs::ReadingExpressions::parenthesized))]
    fn parenthesized(&self, cursor: &mut Cursor<'_>) -> Result<Expr, Stop>
        requires { ReadsBelow self.now.left (F.pre self.now.inner) (F.post self.now.inner) }
        ensures { ParsesAs (spec.parenthesized self.now.left (spec.below self.now.left) cursor.old) result cursor.new }
    {
        cursor.open(self.left)?;
        cursor.advance();
        let whole = self.inner(cursor, Reach::Whole)?;
        cursor.expect(Sign::CloseParen)?;
        Ok(whole)
    }

    /// `("-"|"~"|"!") operand`, from the sign on, which is known to be a prefix.
    #[tactic(auto, unfolding(sk_reading::specs::ReadingExpressions::prefixed))]
    fn prefixed(&self, cursor: &mut Cursor<'_>, op: Un) -> Result<Expr, Stop>
        requires { ReadsBelow self.now.left (F.pre self.now.inner) (F.post self.now.inner) }
        ensures { ParsesAs (spec.prefixed self.now.left (spec.below self.now.left) op cursor.old) result cursor.new }
    {
        cursor.open(self.left)?;
        cursor.count_node()?;
        cursor.advance();
        let operand = self.inner(cursor, Reach::Operand)?;
        Ok(Expr::Unary(op, Boxed::new(self.alloc, operand)?))
    }

    /// `expr`, as an argument; `is_own` where it is part of no other expression.
    fn argument(&self, cursor: &mut Cursor<'_>, is_own: bool) -> Result<Expr, Stop>
        requires { ReadsBelow self.now.left (F.pre self.now.inner) (F.post self.now.inner) }
        ensures { ParsesAs (spec.own is_own (spec.below self.now.left Reach.Whole) cursor.old) result cursor.new }
    {
        if is_own {
            cursor.fresh();
        }
        self.inner(cursor, Reach::Whole)
    }

    /// `args = expr { "," expr }`; `are_own` where each is part of no other expression. Leaves what closes them.
    pub fn arguments(&self, cursor: &mut Cursor<'_>, are_own: bool) -> Result<Items<Expr>, Stop>
        requires { ReadsBelow self.now.left (F.pre self.now.inner) (F.post self.now.inner) }
        ensures { ParsesAs (spec.arguments are_own (spec.below self.now.left Reach.Whole) cursor.old) result cursor.new }
    {
        let mut found = Items::new(self.alloc);
        for _turn in 0..cursor.left() {
            found.push(self.argument(cursor, are_own)?)?;
            if !cursor.eat(Sign::Comma) {
                return Ok(found);
            }
        }
        Err(cursor.refuse())
    }

    /// `"(" [ args ] ")"` behind the name of a function or container, from the parenthesis on.
    #[tactic(auto, unfolding(sk_reading::specs::ReadingExpressions::called))]
    fn called(&self, cursor: &mut Cursor<'_>, function: Name) -> Result<Expr, Stop>
        requires { ReadsBelow self.now.left (F.pre self.now.inner) (F.post self.now.inner) }
        ensures { ParsesAs (spec.called self.now.left (spec.below self.now.left) function cursor.old) result cursor.new }
    {
        cursor.open(self.left)?;
        cursor.advance();
        if cursor.eat(Sign::CloseParen) {
            return Ok(Expr::Apply(function, Items::new(self.alloc)));
        }
        let found = self.arguments(cursor, false)?;
        cursor.expect(Sign::CloseParen)?;
        Ok(Expr::Apply(function, found))
    }

    /// `"[" expr "]"` behind the name of a container, from the bracket on: the tree of one place in parentheses.
    #[tactic(auto, unfolding(sk_reading::specs::ReadingExpressions::indexed))]
    fn indexed(&self, cursor: &mut Cursor<'_>, container: Name) -> Result<Expr, Stop>
        requires { ReadsBelow self.now.left (F.pre self.now.inner) (F.post self.now.inner) }
        ensures { ParsesAs (spec.indexed self.now.left (spec.below self.now.left) container cursor.old) result cursor.new }
    {
        cursor.open(self.left)?;
        cursor.advance();
        let place = self.inner(cursor, Reach::Whole)?;
        cursor.expect(Sign::CloseBracket)?;
        Ok(element(self.alloc, container, place)?)
    }

    /// `"." NAME [ "(" ")" ]` behind a name, from the dot on: a field or a method.
    #[tactic(auto, unfolding(sk_reading::specs::ReadingExpressions::member))]
    fn member(&self, cursor: &mut Cursor<'_>, whole: Name) -> Result<Expr, Stop>
        ensures { ParsesAs (spec.member self.now.left (spec.below self.now.left) whole cursor.old) result cursor.new }
    {
        cursor.advance();
        let part = cursor.name(self.alloc)?;
        if !cursor.sees(Sign::OpenParen) {
            return Ok(Expr::Field(whole, part));
        }
        cursor.open(self.left)?;
        cursor.advance();
        cursor.expect(Sign::CloseParen)?;
        Ok(Expr::Method(whole, part))
    }

    /// `NAME | NAME "." NAME [ "(" ")" ] | NAME "(" [ args ] ")" | NAME "[" expr "]"`, a node at the name.
    #[tactic(auto, unfolding(sk_reading::specs::ReadingExpressions::named))]
    fn named(&self, cursor: &mut Cursor<'_>) -> Result<Expr, Stop>
        requires { ReadsBelow self.now.left (F.pre self.now.inner) (F.post self.now.inner) }
        ensures { ParsesAs (spec.named self.now.left (spec.below self.now.left) cursor.old) result cursor.new }
    {
        cursor.count_node()?;
        let first = cursor.name(self.alloc)?;
        match cursor.peek() {
            Next::Sign(Sign::OpenParen) => self.called(cursor, first),
            Next::Sign(Sign::OpenBracket) => self.indexed(cursor, first),
            Next::Sign(Sign::Dot) => self.member(cursor, first),
            _ => Ok(Expr::Name(first)),
        }
    }

    /// `NUMBER`, a node.
    #[tactic(auto, unfolding(sk_reading::specs::ReadingExpressions::literal))]
    fn literal(&self, cursor: &mut Cursor<'_>) -> Result<Expr, Stop>
        ensures { ParsesAs (spec.literal self.now.left (spec.below self.now.left) cursor.old) result cursor.new }
    {
        cursor.count_node()?;
        let (ty, value) = cursor.number()?;
        Ok(Expr::Number(ty, value))
    }

    /// A conversion or an expression in parentheses, from the parenthesis on.
    #[tactic(auto, unfolding(sk_reading::specs::ReadingExpressions::bracketed))]
    fn bracketed(&self, cursor: &mut Cursor<'_>) -> Result<Expr, Stop>
        requires { ReadsBelow self.now.left (F.pre self.now.inner) (F.post self.now.inner) }
        ensures { ParsesAs (spec.bracketed self.now.left (spec.below self.now.left) cursor.old) result cursor.new }
    {
        if cursor.begins_conversion() {
            self.conversion(cursor)
        } else {
            self.parenthesized(cursor)
        }
    }

    /// `operand = ("-"|"~"|"!") operand | "(" type ")" operand | primary`, where
    /// `primary = NUMBER | NAME | NAME "." NAME [ "(" ")" ] | NAME "(" [ args ] ")"
    /// | NAME "[" expr "]" | "(" expr ")"`.
    #[tactic(auto, unfolding(sk_reading::specs::ReadingExpressions::operand))]
    pub fn operand(&self, cursor: &mut Cursor<'_>) -> Result<Expr, Stop>
        requires { ReadsBelow self.now.left (F.pre self.now.inner) (F.post self.now.inner) }
        ensures { ParsesAs (spec.operand self.now.left (spec.below self.now.left) cursor.old) result cursor.new }
    {
        match cursor.peek() {
            Next::Number => self.literal(cursor),
            Next::Name => self.named(cursor),
            Next::Sign(Sign::OpenParen) => self.bracketed(cursor),
            Next::Sign(sign) => match prefix(sign) {
                Some(op) => self.prefixed(cursor, op),
                None => Err(cursor.refuse()),
            },
            _ => Err(cursor.refuse()),
        }
    }
}
