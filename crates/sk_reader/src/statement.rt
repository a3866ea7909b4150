ghost use Rattle.std.specs.Prelude.{◌≡◌, [], ◌∷◌, length, IfOk};
ghost use Rattle.sk_grammar.specs.StatementSpelling.{at_line};
ghost use Rattle.sk_reader.specs.InnerPart.{ReadsPartBelow};
ghost use Rattle.sk_reader.specs.ParsesAs.{ParsesAs};
ghost use Rattle.sk_reading.specs.Reading.{and_then, pure};
ghost use Rattle.sk_reading.specs.ReadingAssignments as assignments;
ghost use Rattle.sk_reading.specs.ReadingStatements as spec;

use crate::cursor::Cursor;
use crate::operators::{value, value_inside};
use crate::plain::Plain;
use crate::stop::Stop;
use sk_reading::{Head, Keyword, Next, Part, Reach};
use sk_tokens::Sign;
use sk_tree::{Statement, What};
use sqlite_items::{Boxed, Items};
use std::alloc::{AllocError, Global};

/// Reads statements, and those inside of what it opens by `inner`.
#[derive(Clone, Copy)]
pub struct Statements<F> {
    pub alloc: Global,
    /// How many more may be opened.
    pub left: usize,
    pub inner: F,
}

/// A statement in a box.
fn boxed(alloc: Global, line: u32, what: What) -> Result<Boxed<Statement>, AllocError>
    ensures { IfOk result (λ statement. statement ≡ at_line line what) }
{
    Boxed::new(alloc, Statement { line, what })
}

/// `decl | assign`, the first statement of a `for` on that line.
fn read_first(plain: Plain, cursor: &mut Cursor<'_>, line: u32) -> Result<Boxed<Statement>, Stop>
    ensures { ParsesAs (and_then (assignments.simple plain.left cursor.old) (λ does. pure (at_line line does))) result cursor.new }
{
    let does = plain.simple(cursor)?;
    Ok(boxed(plain.alloc, line, does)?)
}

/// `assign`, the step of a `for` on that line.
fn read_step(plain: Plain, cursor: &mut Cursor<'_>, line: u32) -> Result<Boxed<Statement>, Stop>
    ensures { ParsesAs (and_then (assignments.assignment plain.left cursor.old) (λ does. pure (at_line line does))) result cursor.new }
{
    let does = plain.assignment(cursor)?;
    Ok(boxed(plain.alloc, line, does)?)
}

/// `(decl | assign) ";" expr ";" assign`, the head of a `for` on that line.
#[tactic(auto, unfolding(sk_reading::specs::ReadingStatements::head))]
fn read_head(plain: Plain, cursor: &mut Cursor<'_>, line: u32) -> Result<Head, Stop>
    ensures { ParsesAs (spec.head plain.left line cursor.old) result cursor.new }
{
    let first = read_first(plain, cursor, line)?;
    cursor.expect(Sign::Semi)?;
    let test = value(plain.alloc, cursor, plain.left, Reach::Whole)?;
    cursor.expect(Sign::Semi)?;
    let step = read_step(plain, cursor, line)?;
    Ok(Head { first, test, step })
}

/// The head of a `for`, inside of the parentheses that are opened for it.
fn head_inside(alloc: Global, cursor: &mut Cursor<'_>, left: usize, line: u32) -> Result<Head, Stop>
    ensures { ParsesAs (spec.head_inside left line cursor.old) result cursor.new }
{
    if left == 0 {
        return Err(cursor.deep());
    }
    let plain = Plain {
        alloc,
        left: left - 1,
    };
    read_head(plain, cursor, line)
}

/// A list of one statement.
fn alone(alloc: Global, line: u32, what: What) -> Result<Items<Statement>, AllocError>
    ensures { IfOk result (λ all. all ≡ at_line line what ∷ []) }
{
    let mut all = Items::new(alloc);
    all.push(Statement { line, what })?;
    Ok(all)
}

impl<F: Fn(Global, &mut Cursor<'_>, usize, Part) -> Result<Items<Statement>, Stop>> Statements<F> {
    /// Statements inside of what is opened here; a fault where nothing more may be opened.
    #[tactic(auto, unfolding(sk_reading::specs::ReadingStatements::part_below))]
    fn inner(&self, cursor: &mut Cursor<'_>, part: Part) -> Result<Items<Statement>, Stop>
        requires { ReadsPartBelow self.now.left (F.pre self.now.inner) (F.post self.now.inner) }
        ensures { ParsesAs (spec.part_below self.now.left part cursor.old) result cursor.new }
    {
        if self.left == 0 {
            return Err(cursor.deep());
        }
        (self.inner)(self.alloc, cursor, self.left - 1, part)
    }

    /// `block = "{" { stmt } "}"`
    #[tactic(auto, unfolding(sk_reading::specs::ReadingStatements::block))]
    pub fn block(&self, cursor: &mut Cursor<'_>) -> Result<Items<Statement>, Stop>
        requires { ReadsPartBelow self.now.left (F.pre self.now.inner) (F.post self.now.inner) }
        ensures { ParsesAs (spec.block self.now.left (spec.part_below self.now.left) cursor.old) result cursor.new }
    {
        cursor.open_by(Sign::OpenBrace, self.left)?;
        let found = self.inner(cursor, Part::Statements)?;
        cursor.expect(Sign::CloseBrace)?;
        Ok(found)
    }

    /// `"else" ( block | iff )`, from `else` on; an `iff` counts as opened up to its end.
    #[tactic(auto, unfolding(sk_reading::specs::ReadingStatements::other_branch))]
    fn other_branch(&self, cursor: &mut Cursor<'_>) -> Result<Items<Statement>, Stop>
        requires { ReadsPartBelow self.now.left (F.pre self.now.inner) (F.post self.now.inner) }
        ensures { ParsesAs (spec.other_branch self.now.left (spec.part_below self.now.left) cursor.old) result cursor.new }
    {
        cursor.advance();
        if !cursor.sees_keyword(Keyword::If) {
            return self.block(cursor);
        }
        cursor.open(self.left)?;
        self.inner(cursor, Part::Branch)
    }

    /// `[ "else" ( block | iff ) ]`
    #[tactic(auto, unfolding(sk_reading::specs::ReadingStatements::otherwise))]
    fn otherwise(&self, cursor: &mut Cursor<'_>) -> Result<Items<Statement>, Stop>
        requires { ReadsPartBelow self.now.left (F.pre self.now.inner) (F.post self.now.inner) }
        ensures { ParsesAs (spec.otherwise self.now.left (spec.part_below self.now.left) cursor.old) result cursor.new }
    {
        if cursor.sees_keyword(Keyword::Else) {
            self.other_branch(cursor)
        } else {
            Ok(Items::new(self.alloc))
        }
    }

    /// `iff = "if" "(" expr ")" block [ "else" ( block | iff ) ]`, from `if` on.
    #[tactic(auto, unfolding(sk_reading::specs::ReadingStatements::branch))]
    fn branch(&self, cursor: &mut Cursor<'_>) -> Result<What, Stop>
        requires { ReadsPartBelow self.now.left (F.pre self.now.inner) (F.post self.now.inner) }
        ensures { ParsesAs (spec.branch self.now.left (spec.part_below self.now.left) cursor.old) result cursor.new }
    {
        cursor.advance();
        cursor.open_by(Sign::OpenParen, self.left)?;
        let test = value_inside(self.alloc, cursor, self.left)?;
        cursor.expect(Sign::CloseParen)?;
        let then = self.block(cursor)?;
        let otherwise = self.otherwise(cursor)?;
        Ok(What::If(test, then, otherwise))
    }

    /// `"for" "(" (decl | assign) ";" expr ";" assign ")" block`, from `for` on.
    #[tactic(auto, unfolding(sk_reading::specs::ReadingStatements::turned))]
    fn turns(&self, cursor: &mut Cursor<'_>, line: u32) -> Result<What, Stop>
        requires { ReadsPartBelow self.now.left (F.pre self.now.inner) (F.post self.now.inner) }
        ensures { ParsesAs (spec.turned self.now.left (spec.part_below self.now.left) line cursor.old) result cursor.new }
    {
        cursor.advance();
        cursor.open_by(Sign::OpenParen, self.left)?;
        let head = head_inside(self.alloc, cursor, self.left, line)?;
        cursor.expect(Sign::CloseParen)?;
        let body = self.block(cursor)?;
        Ok(What::For(head.first, head.test, head.step, body))
    }

    /// `iff | "for" .. | ( decl | assign | .. ) ";"`: what a statement does, which begins on that line.
    #[tactic(auto, unfolding(sk_reading::specs::ReadingStatements::doing))]
    fn begun(&self, cursor: &mut Cursor<'_>, line: u32) -> Result<What, Stop>
        requires { ReadsPartBelow self.now.left (F.pre self.now.inner) (F.post self.now.inner) }
        ensures { ParsesAs (spec.doing self.now.left (spec.part_below self.now.left) line cursor.old) result cursor.new }
    {
        match cursor.peek() {
            Next::Keyword(Keyword::If) => self.branch(cursor),
            Next::Keyword(Keyword::For) => self.turns(cursor, line),
            _ => Plain {
                alloc: self.alloc,
                left: self.left,
            }
            .short(cursor),
        }
    }

    /// `stmt = decl ";" | assign ";" | make ";" | inst ";" | set ";" | call ";" | print ";" | "return" expr ";" | iff
    /// | "for" "(" (decl | assign) ";" expr ";" assign ")" block`
    #[tactic(auto, unfolding(sk_reading::specs::ReadingStatements::statement))]
    fn statement(&self, cursor: &mut Cursor<'_>) -> Result<Statement, Stop>
        requires { ReadsPartBelow self.now.left (F.pre self.now.inner) (F.post self.now.inner) }
        ensures { ParsesAs (spec.statement self.now.left (spec.part_below self.now.left) cursor.old) result cursor.new }
    {
        let line = cursor.line();
        let what = self.begun(cursor, line)?;
        Ok(Statement { line, what })
    }

    /// `{ stmt }` up to a closing brace, which it leaves.
    fn statements(&self, cursor: &mut Cursor<'_>) -> Result<Items<Statement>, Stop>
        requires { ReadsPartBelow self.now.left (F.pre self.now.inner) (F.post self.now.inner) }
        ensures { ParsesAs (spec.statements_from self.now.left (spec.part_below self.now.left) (length cursor.old.rest) [] cursor.old) result cursor.new }
    {
        let mut found = Items::new(self.alloc);
        for _turn in 0..cursor.left() {
            if cursor.sees(Sign::CloseBrace) {
                return Ok(found);
            }
            found.push(self.statement(cursor)?)?;
        }
        Err(cursor.refuse())
    }

    /// The `iff` behind an `else`: a list of that statement alone.
    #[tactic(auto, unfolding(sk_reading::specs::ReadingStatements::alone))]
    fn other_if(&self, cursor: &mut Cursor<'_>) -> Result<Items<Statement>, Stop>
        requires { ReadsPartBelow self.now.left (F.pre self.now.inner) (F.post self.now.inner) }
        ensures { ParsesAs (spec.alone self.now.left (spec.part_below self.now.left) cursor.old) result cursor.new }
    {
        let line = cursor.line();
        let what = self.branch(cursor)?;
        Ok(alone(self.alloc, line, what)?)
    }

    /// The statements of a block, or an `iff` alone.
    fn of_kind(&self, cursor: &mut Cursor<'_>, part: Part) -> Result<Items<Statement>, Stop>
        requires { ReadsPartBelow self.now.left (F.pre self.now.inner) (F.post self.now.inner) }
        ensures { ParsesAs (spec.part self.now.left (spec.part_below self.now.left) part cursor.old) result cursor.new }
    {
        match part {
            Part::Statements => self.statements(cursor),
            Part::Branch => self.other_if(cursor),
        }
    }
}

/// The statements of a block, or an `iff` alone, where `left` more may be opened.
#[tactic(auto, unfolding(sk_reading::specs::ReadingStatements::part_of))]
pub fn read_part(
    alloc: Global,
    cursor: &mut Cursor<'_>,
    left: usize,
    kind: Part,
) -> Result<Items<Statement>, Stop>
    ensures { ParsesAs (spec.part_of left kind cursor.old) result cursor.new }
{
    Statements {
        alloc,
        left,
        inner: read_part,
    }
    .of_kind(cursor, kind)
}

/// A block, where that many more may be opened.
pub fn block(alloc: Global, cursor: &mut Cursor<'_>, left: usize) -> Result<Items<Statement>, Stop>
    ensures { ParsesAs (spec.block left (spec.part_below left) cursor.old) result cursor.new }
{
    Statements {
        alloc,
        left,
        inner: read_part,
    }
    .block(cursor)
}
