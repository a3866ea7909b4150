ghost use Rattle.std.specs.Prelude.{◌≡◌, ◌≤◌, ◌++◌, [], ◌∷◌, reverse, IfOk};
ghost use Rattle.sk_grammar.specs.ExpressionSpelling as spelling;
ghost use Rattle.sk_reader.specs.Inner.{ReadsBelow};
ghost use Rattle.sk_reader.specs.ParsesAs.{ParsesAs};
ghost use Rattle.sk_reading.specs.Reading.{and_then, expect};
ghost use Rattle.sk_reading.specs.ReadingExpressions as spec;
ghost use Rattle.sk_reading.specs.ReadingAssignments as assignments;

use crate::cursor::Cursor;
use crate::expression::Expressions;
use crate::stop::Stop;
use sk_grammar::Infix;
use sk_reading::{Next, Reach};
use sk_tokens::Sign;
use sk_tree::Expr;
use sqlite_items::{Boxed, Items};
use std::alloc::{AllocError, Global};

/// How many levels of operators a sum has.
const SUM: u8 = 2;

/// How many levels of operators there are.
const ALL: u8 = 10;

/// The operator of that level above `* / %`, if the next token is one.
fn infix_at(reach: u8, next: Next) -> Option<Infix>
    requires { reach ≤ 10 }
    ensures { result ≡ spec.infix_at reach next }
{
    let Next::Sign(sign) = next else {
        return None;
    };
    let infix = Infix::of(sign)?;
    if infix.level() + reach == ALL {
        Some(infix)
    } else {
        None
    }
}

/// The tree of an operator between two operands.
fn joined(alloc: Global, operator: Infix, left: Expr, right: Expr) -> Result<Expr, AllocError>
    ensures { IfOk result (λ whole. whole ≡ spelling.joined operator left right) }
{
    let left = Boxed::new(alloc, left)?;
    let right = Boxed::new(alloc, right)?;
    Ok(match operator {
        Infix::Computes(op) => Expr::Binary(op, left, right),
        Infix::Both => Expr::Both(left, right),
        Infix::Either => Expr::Either(left, right),
    })
}

/// The tree of `test ? one : other`.
fn choose(alloc: Global, test: Expr, one: Expr, other: Expr) -> Result<Expr, AllocError>
    ensures { IfOk result (λ whole. whole ≡ Expr.Choose test one other) }
{
    Ok(Expr::Choose(
        Boxed::new(alloc, test)?,
        Boxed::new(alloc, one)?,
        Boxed::new(alloc, other)?,
    ))
}

impl<F: Fn(Global, &mut Cursor<'_>, usize, Reach) -> Result<Expr, Stop>> Expressions<F> {
    /// The operators of the first `reach` levels, each of which groups to the left; with no level an operand. From the
    /// tightest on the levels are `* / %`, `+ -`, `<< >>`, `< <= > >=`, `== !=`, `&`, `^`, `|`, `&&`, `||`.
    fn operators(&self, cursor: &mut Cursor<'_>, reach: u8) -> Result<Expr, Stop>
        requires inner { ReadsBelow self.now.left (F.pre self.now.inner) (F.post self.now.inner) }
        requires reach { reach ≤ 10 }
        ensures { ParsesAs (spec.operators self.now.left (spec.below self.now.left) reach cursor.old) result cursor.new }
    {
        if reach == 0 {
            return self.operand(cursor);
        }
        let tighter = reach - 1;
        let mut first = self.operators(cursor, tighter)?;
        for _turn in 0..cursor.left() {
            let Some(operator) = infix_at(tighter, cursor.peek()) else {
                return Ok(first);
            };
            cursor.count_node()?;
            cursor.advance();
            let second = self.operators(cursor, tighter)?;
            first = joined(self.alloc, operator, first, second)?;
        }
        Ok(first)
    }

    /// `":" expr` of a `?:`, from the colon on; it counts as opened up to its end.
    fn other_part(&self, cursor: &mut Cursor<'_>) -> Result<Expr, Stop>
        requires { ReadsBelow self.now.left (F.pre self.now.inner) (F.post self.now.inner) }
        ensures { ParsesAs (and_then (expect Sign.Colon cursor.old) (λ _ p. and_then (spec.opened_by_expression self.now.left p) (λ _. spec.below self.now.left Reach.Whole))) result cursor.new }
    {
        cursor.expect(Sign::Colon)?;
        cursor.open_by_expression(self.left)?;
        self.inner(cursor, Reach::Whole)
    }

    /// What follows the `:` of the latest test, and so on to the first one; `value` is the middle part of the latest.
    fn chosen(&self, cursor: &mut Cursor<'_>, tests: Vec<Expr>, value: Expr) -> Result<Expr, Stop>
        requires { ReadsBelow self.now.left (F.pre self.now.inner) (F.post self.now.inner) }
        ensures { ParsesAs (spec.chosen self.now.left (spec.below self.now.left) (reverse tests.items) value cursor.old) result cursor.new }
    {
        let mut tests = tests;
        let mut value = value;
        while let Some(test) = tests.pop() {
            let other = self.other_part(cursor)?;
            value = choose(self.alloc, test, value, other)?;
        }
        Ok(value)
    }

    /// `expr = ors [ "?" expr ":" expr ]`, where `ors` is all that binds tighter. Tests whose middle parts are not
    /// ended wait in a list, so that they take no stack.
    fn choice(&self, cursor: &mut Cursor<'_>) -> Result<Expr, Stop>
        requires { ReadsBelow self.now.left (F.pre self.now.inner) (F.post self.now.inner) }
        ensures { ParsesAs (spec.choice self.now.left (spec.below self.now.left) cursor.old) result cursor.new }
    {
        let turns = cursor.left();
        let mut tests = Vec::new(self.alloc);
        let mut value = self.operators(cursor, ALL)?;
        for _turn in 0..turns {
            if !cursor.sees(Sign::Question) {
                return self.chosen(cursor, tests, value);
            }
            cursor.count_node()?;
            cursor.advance();
            tests.push(value)?;
            value = self.operators(cursor, ALL)?;
        }
        Err(cursor.refuse())
    }

    /// An expression of that reach, up to its end.
    fn reading(&self, cursor: &mut Cursor<'_>, reach: Reach) -> Result<Expr, Stop>
        requires { ReadsBelow self.now.left (F.pre self.now.inner) (F.post self.now.inner) }
        ensures { ParsesAs (spec.reading self.now.left (spec.below self.now.left) reach cursor.old) result cursor.new }
    {
        match reach {
            Reach::Whole => self.choice(cursor),
            Reach::Sum => self.operators(cursor, SUM),
            Reach::Operand => self.operand(cursor),
        }
    }
}

/// An expression, where that many more may be opened.
#[tactic(auto, unfolding(sk_reading::specs::ReadingExpressions::expression))]
pub fn expression(
    alloc: Global,
    cursor: &mut Cursor<'_>,
    left: usize,
    reach: Reach,
) -> Result<Expr, Stop>
    ensures { ParsesAs (spec.expression left reach cursor.old) result cursor.new }
{
    Expressions {
        alloc,
        left,
        inner: expression,
    }
    .reading(cursor, reach)
}

/// An expression that is part of no other.
#[tactic(auto, unfolding(sk_reading::specs::ReadingAssignments::value))]
pub fn value(
    alloc: Global,
    cursor: &mut Cursor<'_>,
    left: usize,
    reach: Reach,
) -> Result<Expr, Stop>
    ensures { ParsesAs (assignments.value left reach cursor.old) result cursor.new }
{
    cursor.fresh();
    expression(alloc, cursor, left, reach)
}

/// An expression that is part of no other, inside of what is opened.
#[tactic(auto, unfolding(sk_reading::specs::ReadingAssignments::value_inside))]
pub fn value_inside(alloc: Global, cursor: &mut Cursor<'_>, left: usize) -> Result<Expr, Stop>
    ensures { ParsesAs (assignments.value_inside left cursor.old) result cursor.new }
{
    cursor.fresh();
    Expressions {
        alloc,
        left,
        inner: expression,
    }
    .inner(cursor, Reach::Whole)
}

/// Expressions with commas between, each part of no other, inside of what is opened.
#[tactic(auto, unfolding(sk_reading::specs::ReadingAssignments::places))]
pub fn places(alloc: Global, cursor: &mut Cursor<'_>, left: usize) -> Result<Items<Expr>, Stop>
    ensures { ParsesAs (assignments.places left cursor.old) result cursor.new }
{
    Expressions {
        alloc,
        left,
        inner: expression,
    }
    .arguments(cursor, true)
}
