ghost use Rattle.std.specs.Prelude.{◌≡◌, [], length};
ghost use Rattle.sk_grammar.specs.Signs.{index_words};
ghost use Rattle.sk_reader.specs.ParsesAs.{ParsesAs};
ghost use Rattle.sk_reading.specs.Reading.{word_in};
ghost use Rattle.sk_reading.specs.ReadingPrograms as spec;

use crate::cursor::Cursor;
use crate::statement::block;
use crate::stop::Stop;
use sk_base::Ty;
use sk_grammar::meant;
use sk_reading::{Keyword, Next, View};
use sk_refusals::Limited;
use sk_tokens::Sign;
use sk_tree::{Function, Param, ParamKind};
use sqlite_items::Items;
use std::alloc::Global;

/// How many parts may be open at once.
const MOST_NESTING: usize = 64;

/// The most parameters that a function has.
const MOST_PARAMETERS: usize = 64;

/// The kind of a parameter that sees a container of that element type so.
fn seen_as(view: View, ty: Ty) -> ParamKind
    ensures { result ≡ spec.seen_as view ty }
{
    match view {
        View::Whole(dimension) => ParamKind::Proxy(dimension, ty),
        View::Round(dimension) => ParamKind::Region(dimension, ty),
    }
}

static VIEWS: [(&[u8], View); 6] = [
    (b"Vec", View::Whole(1)),
    (b"Mat", View::Whole(2)),
    (b"Ten3", View::Whole(3)),
    (b"Ten4", View::Whole(4)),
    (b"Region1D", View::Round(1)),
    (b"Region2D", View::Round(2)),
];

static INDICES: [(&[u8], ParamKind); 4] = [
    (b"Index1D", ParamKind::Index(1)),
    (b"Index2D", ParamKind::Index(2)),
    (b"Index3D", ParamKind::Index(3)),
    (b"Index4D", ParamKind::Index(4)),
];

/// `"Vec" | "Mat" | "Ten3" | "Ten4" | "Region1D" | "Region2D"`
fn view_word(cursor: &mut Cursor<'_>) -> Result<View, Stop>
    ensures { ParsesAs (word_in spec.view_words cursor.old) result cursor.new }
{
    cursor.word_in(&VIEWS)
}

/// `"Index1D" | "Index2D" | "Index3D" | "Index4D"`
fn index_word(cursor: &mut Cursor<'_>) -> Result<ParamKind, Stop>
    ensures { ParsesAs (word_in index_words cursor.old) result cursor.new }
{
    cursor.word_in(&INDICES)
}

/// `type NAME`
#[tactic(auto, unfolding(sk_reading::specs::ReadingPrograms::scalar))]
fn scalar(alloc: Global, cursor: &mut Cursor<'_>) -> Result<Param, Stop>
    ensures { ParsesAs (spec.scalar cursor.old) result cursor.new }
{
    let ty = cursor.ty()?;
    let name = cursor.name(alloc)?;
    Ok(Param {
        kind: ParamKind::Scalar(ty),
        name,
    })
}

/// `("Vec"|"Mat"|"Ten3"|"Ten4"|"Region1D"|"Region2D") "<" type ">" NAME`, from the word on.
#[tactic(auto, unfolding(sk_reading::specs::ReadingPrograms::viewed))]
fn viewed(alloc: Global, cursor: &mut Cursor<'_>) -> Result<Param, Stop>
    ensures { ParsesAs (spec.viewed cursor.old) result cursor.new }
{
    let view = view_word(cursor)?;
    cursor.expect(Sign::Lt)?;
    let ty = cursor.ty()?;
    cursor.expect(Sign::Gt)?;
    let name = cursor.name(alloc)?;
    Ok(Param {
        kind: seen_as(view, ty),
        name,
    })
}

/// `("Index1D"|"Index2D"|"Index3D"|"Index4D") NAME`, from the word on.
#[tactic(auto, unfolding(sk_reading::specs::ReadingPrograms::indexed))]
fn indexed(alloc: Global, cursor: &mut Cursor<'_>) -> Result<Param, Stop>
    ensures { ParsesAs (spec.indexed cursor.old) result cursor.new }
{
    let kind = index_word(cursor)?;
    let name = cursor.name(alloc)?;
    Ok(Param { kind, name })
}

/// Whether a word of indices comes next. Nothing is taken.
#[tactic(auto, unfolding(sk_reading::specs::ReadingPrograms::begins_index))]
fn begins_index(cursor: &Cursor<'_>) -> bool
    ensures { result ≡ spec.begins_index cursor.now }
{
    match cursor.front_word() {
        Some(word) => meant(&INDICES, word).is_some(),
        None => false,
    }
}

/// `"skepu" "::" ..`, a parameter that begins so.
#[tactic(auto, unfolding(sk_reading::specs::ReadingPrograms::qualified))]
fn qualified(alloc: Global, cursor: &mut Cursor<'_>) -> Result<Param, Stop>
    ensures { ParsesAs (spec.qualified cursor.old) result cursor.new }
{
    cursor.advance();
    cursor.expect(Sign::Path)?;
    if begins_index(cursor) {
        indexed(alloc, cursor)
    } else {
        viewed(alloc, cursor)
    }
}

/// `"const" "skepu" "::" ..`, a parameter that begins so.
#[tactic(auto, unfolding(sk_reading::specs::ReadingPrograms::constant))]
fn constant(alloc: Global, cursor: &mut Cursor<'_>) -> Result<Param, Stop>
    ensures { ParsesAs (spec.constant cursor.old) result cursor.new }
{
    cursor.advance();
    cursor.expect_keyword(Keyword::Skepu)?;
    cursor.expect(Sign::Path)?;
    viewed(alloc, cursor)
}

/// `param = type NAME | "skepu" "::" ("Index1D"|"Index2D"|"Index3D"|"Index4D") NAME
/// | ["const"] "skepu" "::" ("Vec"|"Mat"|"Ten3"|"Ten4"|"Region1D"|"Region2D") "<" type ">" NAME`
#[tactic(auto, unfolding(sk_reading::specs::ReadingPrograms::parameter))]
fn parameter(alloc: Global, cursor: &mut Cursor<'_>) -> Result<Param, Stop>
    ensures { ParsesAs (spec.parameter cursor.old) result cursor.new }
{
    match cursor.peek() {
        Next::Keyword(Keyword::Skepu) => qualified(alloc, cursor),
        Next::Keyword(Keyword::Const) => constant(alloc, cursor),
        _ => scalar(alloc, cursor),
    }
}

/// Whether a parameter may begin with a token.
fn begins_parameter(next: Next) -> bool
    ensures { result ≡ spec.begins_parameter next }
{
    matches!(
        next,
        Next::Keyword(Keyword::Int | Keyword::Long | Keyword::Skepu | Keyword::Const)
    )
}

/// Counts a parameter at the next token, which has to be the first of one, behind so many others. Nothing is taken.
#[tactic(auto, unfolding(sk_reading::specs::ReadingPrograms::count_parameter, sk_reading::specs::ReadingPrograms::one_more))]
fn count_parameter(cursor: &Cursor<'_>, found: usize) -> Result<(), Stop>
    ensures { ParsesAs (spec.count_parameter found cursor.now) result cursor.now }
{
    if !begins_parameter(cursor.peek()) {
        return Err(cursor.refuse());
    }
    if found >= MOST_PARAMETERS {
        return Err(cursor.many(Limited::Parameters));
    }
    Ok(())
}

/// `param { "," param }`. Leaves the closing parenthesis.
fn some_parameters(alloc: Global, cursor: &mut Cursor<'_>) -> Result<Items<Param>, Stop>
    ensures { ParsesAs (spec.parameters_from (length cursor.old.rest) [] cursor.old) result cursor.new }
{
    let mut found = Items::new(alloc);
    for _turn in 0..cursor.left() {
        count_parameter(cursor, found.len())?;
        found.push(parameter(alloc, cursor)?)?;
        if !cursor.eat(Sign::Comma) {
            return Ok(found);
        }
    }
    Err(cursor.refuse())
}

/// `[ param { "," param } ]` up to the closing parenthesis, which it leaves.
#[tactic(auto, unfolding(sk_reading::specs::ReadingPrograms::parameters))]
fn parameters(alloc: Global, cursor: &mut Cursor<'_>) -> Result<Items<Param>, Stop>
    ensures { ParsesAs (spec.parameters cursor.old) result cursor.new }
{
    if cursor.sees(Sign::CloseParen) {
        return Ok(Items::new(alloc));
    }
    some_parameters(alloc, cursor)
}

/// `function = type NAME "(" [ param { "," param } ] ")" block`
#[tactic(auto, unfolding(sk_reading::specs::ReadingPrograms::function))]
pub fn function(alloc: Global, cursor: &mut Cursor<'_>) -> Result<Function, Stop>
    ensures { ParsesAs (spec.function cursor.old) result cursor.new }
{
    let line = cursor.line();
    let ret = cursor.ty()?;
    let name = cursor.name(alloc)?;
    cursor.expect(Sign::OpenParen)?;
    let params = parameters(alloc, cursor)?;
    cursor.expect(Sign::CloseParen)?;
    let body = block(alloc, cursor, MOST_NESTING)?;
    Ok(Function {
        line,
        ret,
        name,
        params,
        body,
    })
}
