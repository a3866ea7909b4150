ghost use Rattle.std.specs.Prelude.{◌≡◌, [], length};
ghost use Rattle.sk_reader.specs.ParsesAs.{ParsesAs};
ghost use Rattle.sk_reading.specs.Reading.{and_then, expect, pure};
ghost use Rattle.sk_reading.specs.ReadingForms as spec;

use crate::cursor::Cursor;
use crate::operators::{places, value, value_inside};
use crate::plain::Plain;
use crate::stop::Stop;
use crate::words::{
    container, cout, edge_mode, endl, reduce_mode, scan_mode, setting_word, skeleton,
};
use sk_base::{Cell, Ty};
use sk_names::Name;
use sk_reading::{Keyword, Next, Reach, SettingWord, Target};
use sk_tokens::Sign;
use sk_tree::{Instance, Item, Setting, What};
use sqlite_items::Items;
use std::alloc::Global;

/// `NUMBER { "," NUMBER }`. Leaves what closes them.
fn numbers_inside(alloc: Global, cursor: &mut Cursor<'_>) -> Result<Items<Cell>, Stop>
    ensures { ParsesAs (spec.numbers_from (length cursor.old.rest) [] cursor.old) result cursor.new }
{
    let mut found = Items::new(alloc);
    for _turn in 0..cursor.left() {
        let written = cursor.number()?;
        found.push(written.1)?;
        if !cursor.eat(Sign::Comma) {
            return Ok(found);
        }
    }
    Err(cursor.refuse())
}

/// `[ "<" NUMBER { "," NUMBER } ">" ]`
#[tactic(auto, unfolding(sk_reading::specs::ReadingForms::numbers))]
fn numbers(alloc: Global, cursor: &mut Cursor<'_>) -> Result<Items<Cell>, Stop>
    ensures { ParsesAs (spec.numbers cursor.old) result cursor.new }
{
    if !cursor.eat(Sign::Lt) {
        return Ok(Items::new(alloc));
    }
    let found = numbers_inside(alloc, cursor)?;
    cursor.expect(Sign::Gt)?;
    Ok(found)
}

/// `NAME { "," NAME }`. Leaves what closes them.
fn names(alloc: Global, cursor: &mut Cursor<'_>) -> Result<Items<Name>, Stop>
    ensures { ParsesAs (spec.names cursor.old) result cursor.new }
{
    let mut found = Items::new(alloc);
    for _turn in 0..cursor.left() {
        found.push(cursor.name(alloc)?)?;
        if !cursor.eat(Sign::Comma) {
            return Ok(found);
        }
    }
    Err(cursor.refuse())
}

/// What was read, once a sign follows it.
fn followed<T: Drop>(cursor: &mut Cursor<'_>, sign: Sign, value: T) -> Result<T, Stop>
    ensures { ParsesAs (and_then (expect sign cursor.old) (λ _. pure value)) result cursor.new }
{
    cursor.expect(sign)?;
    Ok(value)
}

impl Plain {
    /// `"(" args ")"` of a container's declaration, from the parenthesis on: sizes, and a value to fill it with.
    #[tactic(auto, unfolding(sk_reading::specs::ReadingForms::filled))]
    fn filled(&self, cursor: &mut Cursor<'_>, kind: u8, ty: Ty, name: Name) -> Result<What, Stop>
        ensures { ParsesAs (spec.filled self.now.left kind ty name cursor.old) result cursor.new }
    {
        cursor.open(self.left)?;
        cursor.advance();
        let found = places(self.alloc, cursor, self.left)?;
        cursor.expect(Sign::CloseParen)?;
        Ok(What::Make(kind, ty, name, found))
    }

    /// `"=" "skepu_input" "(" STRING ")"` of a container's declaration, from the sign on.
    #[tactic(auto, unfolding(sk_reading::specs::ReadingForms::input))]
    fn input(&self, cursor: &mut Cursor<'_>, kind: u8, ty: Ty, name: Name) -> Result<What, Stop>
        ensures { ParsesAs (spec.input self.now.left kind ty name cursor.old) result cursor.new }
    {
        cursor.advance();
        cursor.expect_keyword(Keyword::SkepuInput)?;
        cursor.open_by(Sign::OpenParen, self.left)?;
        let record = cursor.text(self.alloc)?;
        cursor.expect(Sign::CloseParen)?;
        Ok(What::Take(kind, ty, name, record))
    }

    /// `make = "skepu" "::" ("Vector"|"Matrix"|"Tensor3"|"Tensor4") "<" type ">" NAME
    /// ( "(" args ")" | "=" "skepu_input" "(" STRING ")" )`
    #[tactic(auto, unfolding(sk_reading::specs::ReadingForms::make))]
    fn make(&self, cursor: &mut Cursor<'_>) -> Result<What, Stop>
        ensures { ParsesAs (spec.make self.now.left cursor.old) result cursor.new }
    {
        cursor.advance();
        cursor.expect(Sign::Path)?;
        let kind = container(cursor)?;
        cursor.expect(Sign::Lt)?;
        let ty = cursor.ty()?;
        cursor.expect(Sign::Gt)?;
        let name = cursor.name(self.alloc)?;
        match cursor.peek() {
            Next::Sign(Sign::OpenParen) => self.filled(cursor, kind, ty, name),
            Next::Sign(Sign::Eq) => self.input(cursor, kind, ty, name),
            _ => Err(cursor.refuse()),
        }
    }

    /// `inst = "auto" NAME "=" "skepu" "::" SKELETON [ "<" NUMBER { "," NUMBER } ">" ] "(" NAME { "," NAME } ")"`
    #[tactic(auto, unfolding(sk_reading::specs::ReadingForms::instance))]
    fn instance(&self, cursor: &mut Cursor<'_>) -> Result<What, Stop>
        ensures { ParsesAs (spec.instance self.now.left cursor.old) result cursor.new }
    {
        cursor.count_instance()?;
        cursor.advance();
        let name = cursor.name(self.alloc)?;
        cursor.expect(Sign::Eq)?;
        cursor.expect_keyword(Keyword::Skepu)?;
        cursor.expect(Sign::Path)?;
        let skeleton = skeleton(cursor)?;
        let numbers = numbers(self.alloc, cursor)?;
        cursor.open_by(Sign::OpenParen, self.left)?;
        let functions = names(self.alloc, cursor)?;
        cursor.expect(Sign::CloseParen)?;
        Ok(What::Instance(Instance {
            name,
            skeleton,
            numbers,
            functions,
        }))
    }

    /// What stands in the parentheses of a setting with this word.
    fn set_to(&self, cursor: &mut Cursor<'_>, word: SettingWord) -> Result<Setting, Stop>
        ensures { ParsesAs (spec.set_by self.now.left word cursor.old) result cursor.new }
    {
        let (alloc, left) = (self.alloc, self.left);
        Ok(match word {
            SettingWord::Start => Setting::Start(value_inside(alloc, cursor, left)?),
            SettingWord::Pad => Setting::Pad(value_inside(alloc, cursor, left)?),
            SettingWord::Overlap => Setting::Overlap(places(alloc, cursor, left)?),
            SettingWord::Scan => Setting::Scan(scan_mode(cursor)?),
            SettingWord::Lines => Setting::Lines(reduce_mode(cursor)?),
            SettingWord::Edge => Setting::Edge(edge_mode(cursor)?),
        })
    }

    /// `set = NAME "." ("setStartValue"|"setPad") "(" expr ")" | NAME "." "setOverlap" "(" args ")"
    /// | NAME "." "setScanMode" "(" "skepu" "::" "ScanMode" "::" SCAN ")"
    /// | NAME "." "setReduceMode" "(" "skepu" "::" "ReduceMode" "::" LINES ")"
    /// | NAME "." "setEdgeMode" "(" "skepu" "::" "Edge" "::" EDGE ")"`
    #[tactic(auto, unfolding(sk_reading::specs::ReadingForms::set))]
    pub fn set(&self, cursor: &mut Cursor<'_>) -> Result<What, Stop>
        ensures { ParsesAs (spec.set self.now.left cursor.old) result cursor.new }
    {
        let name = cursor.name(self.alloc)?;
        cursor.expect(Sign::Dot)?;
        let word = setting_word(cursor)?;
        cursor.open_by(Sign::OpenParen, self.left)?;
        let setting = self.set_to(cursor, word)?;
        cursor.expect(Sign::CloseParen)?;
        Ok(What::Set(name, setting))
    }

    /// `"std" "::" "endl"`, from `std` on.
    #[tactic(auto, unfolding(sk_reading::specs::ReadingForms::printed_end))]
    fn printed_end(&self, cursor: &mut Cursor<'_>) -> Result<Item, Stop>
        ensures { ParsesAs (spec.printed_end self.now.left cursor.old) result cursor.new }
    {
        cursor.advance();
        cursor.expect(Sign::Path)?;
        endl(cursor)?;
        Ok(Item::End)
    }

    /// `"<<" item`, where `item = STRING | "std" "::" "endl" | sum` and a `sum` has `+`, `-` and what binds tighter.
    #[tactic(auto, unfolding(sk_reading::specs::ReadingForms::printed))]
    fn printed(&self, cursor: &mut Cursor<'_>) -> Result<Item, Stop>
        ensures { ParsesAs (spec.printed self.now.left cursor.old) result cursor.new }
    {
        cursor.expect(Sign::Shl)?;
        match cursor.peek() {
            Next::Text => Ok(Item::Text(cursor.text(self.alloc)?)),
            Next::Keyword(Keyword::Std) => self.printed_end(cursor),
            _ => {
                let shown = value(self.alloc, cursor, self.left, Reach::Sum)?;
                Ok(Item::Value(shown))
            }
        }
    }

    /// `"<<" item { "<<" item }`
    fn items(&self, cursor: &mut Cursor<'_>) -> Result<Items<Item>, Stop>
        ensures { ParsesAs (spec.items_from self.now.left (length cursor.old.rest) [] cursor.old) result cursor.new }
    {
        let mut found = Items::new(self.alloc);
        for _turn in 0..cursor.left() {
            found.push(self.printed(cursor)?)?;
            if !cursor.sees(Sign::Shl) {
                return Ok(found);
            }
        }
        Err(cursor.refuse())
    }

    /// `print = "std" "::" "cout" "<<" item { "<<" item }`
    #[tactic(auto, unfolding(sk_reading::specs::ReadingForms::print))]
    fn print(&self, cursor: &mut Cursor<'_>) -> Result<What, Stop>
        ensures { ParsesAs (spec.print self.now.left cursor.old) result cursor.new }
    {
        cursor.advance();
        cursor.expect(Sign::Path)?;
        cout(cursor)?;
        let items = self.items(cursor)?;
        Ok(What::Print(items))
    }

    /// `call | assign`, of which the target comes first, where `call = NAME "(" args ")"`.
    #[tactic(auto, unfolding(sk_reading::specs::ReadingForms::used))]
    fn used(&self, cursor: &mut Cursor<'_>) -> Result<What, Stop>
        ensures { ParsesAs (spec.used self.now.left cursor.old) result cursor.new }
    {
        let start = cursor.again();
        let target = self.target(cursor)?;
        if !cursor.sees(Sign::Semi) {
            return self.update(cursor, &start, target);
        }
        match target {
            Target::Element(function, found) => Ok(What::Call(function, found)),
            _ => Err(cursor.refuse()),
        }
    }

    /// `set | call | assign`, which begin with a name.
    #[tactic(auto, unfolding(sk_reading::specs::ReadingForms::by_name))]
    fn by_name(&self, cursor: &mut Cursor<'_>) -> Result<What, Stop>
        ensures { ParsesAs (spec.by_name self.now.left cursor.old) result cursor.new }
    {
        if cursor.begins_setting() {
            self.set(cursor)
        } else {
            self.used(cursor)
        }
    }

    /// `"return" expr`
    #[tactic(auto, unfolding(sk_reading::specs::ReadingForms::returned))]
    fn returned(&self, cursor: &mut Cursor<'_>) -> Result<What, Stop>
        ensures { ParsesAs (spec.returned self.now.left cursor.old) result cursor.new }
    {
        cursor.advance();
        let result = value(self.alloc, cursor, self.left, Reach::Whole)?;
        Ok(What::Return(result))
    }

    /// `decl | assign | make | inst | set | call | print | "return" expr`. Leaves the `;`.
    #[tactic(auto, unfolding(sk_reading::specs::ReadingForms::begun))]
    fn begun(&self, cursor: &mut Cursor<'_>) -> Result<What, Stop>
        ensures { ParsesAs (spec.begun self.now.left cursor.old) result cursor.new }
    {
        match cursor.peek() {
            Next::Keyword(Keyword::Int | Keyword::Long) => self.declaration(cursor),
            Next::Keyword(Keyword::Skepu) => self.make(cursor),
            Next::Keyword(Keyword::Auto) => self.instance(cursor),
            Next::Keyword(Keyword::Std) => self.print(cursor),
            Next::Keyword(Keyword::Return) => self.returned(cursor),
            Next::Name => self.by_name(cursor),
            _ => self.assignment(cursor),
        }
    }

    /// `( decl | assign | make | inst | set | call | print | "return" expr ) ";"`
    #[tactic(auto, unfolding(sk_reading::specs::ReadingForms::short))]
    pub fn short(&self, cursor: &mut Cursor<'_>) -> Result<What, Stop>
        ensures { ParsesAs (spec.short self.now.left cursor.old) result cursor.new }
    {
        let does = self.begun(cursor)?;
        followed(cursor, Sign::Semi, does)
    }
}
