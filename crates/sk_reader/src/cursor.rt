ghost use Rattle.std.specs.Prelude.{◌≡◌, length, map};
ghost use Rattle.std.specs.Option.{option_copied};
ghost use Rattle.sk_reading.specs.Reading as spec;
ghost use Rattle.sk_reading.specs.ReadingExpressions as expressions;
ghost use Rattle.sk_reading.specs.ReadingForms as forms;
ghost use Rattle.sk_reading.specs.ReadingPrograms as programs;
ghost use Rattle.sk_reader.specs.ParsesAs.{ParsesAs};

use crate::keyword::keyword_of;
use crate::next::{begins_expression, is_keyword, is_sign, is_type, next_of};
use crate::stop::Stop;
use sk_base::{Cell, Ty};
use sk_grammar::meant;
use sk_names::{Name, Text};
use sk_reading::{Keyword, Next};
use sk_refusals::{Limited, Refusal};
use sk_tokens::{Sign, Token, TokenKind};
use std::alloc::Global;
use std::marker::Model;

/// The most nodes that an expression has.
const MOST_NODES: u32 = 1024;

/// The most instances that a program has.
const MOST_INSTANCES: u32 = 1024;

/// How far a list of tokens is read, and what has been counted.
#[derive(Drop)]
pub struct Cursor<'a> {
    /// The tokens that are left.
    rest: &'a [Token],
    /// The nodes of the expression so far.
    nodes: u32,
    /// The instances so far.
    instances: u32,
}

impl<'a> Model for Cursor<'a> {
    ghost use Rattle.sk_reading.specs.Reading.{Place};

    ghost Value = { Place };

    ghost use Rattle.sk_reader.specs.Inside.{place_of};

    ghost view = { place_of };
}

impl<'a> Cursor<'a> {
    /// Before the first of the tokens, with nothing counted.
    pub fn new(tokens: &'a [Token]) -> Cursor<'a>
        ensures { result ≡ spec.start_of tokens.now }
    {
        Cursor {
            rest: tokens,
            nodes: 0,
            instances: 0,
        }
    }

    /// What the next token is. Nothing is taken.
    #[tactic(auto, unfolding(sk_reading::specs::Reading::front))]
    pub fn peek(&self) -> Next
        ensures { result ≡ spec.front self.now }
    {
        match self.rest.first() {
            Some(token) => next_of(token),
            None => Next::End,
        }
    }

    /// Another cursor at the same place.
    pub fn again(&self) -> Cursor<'a>
        ensures { result ≡ self.now }
    {
        Cursor {
            rest: self.rest,
            nodes: self.nodes,
            instances: self.instances,
        }
    }

    /// The line of the next token, and 0 at the end.
    #[tactic(auto, unfolding(sk_reading::specs::Reading::front_line))]
    pub fn line(&self) -> u32
        ensures { result ≡ spec.front_line self.now }
    {
        match self.rest.first() {
            Some(token) => token.line,
            None => 0,
        }
    }

    /// Whether a setting of the name that comes next follows.
    #[tactic(auto, unfolding(sk_reading::specs::ReadingForms::begins_setting, sk_reading::specs::Reading::front, sk_reading::specs::Reading::advance))]
    pub fn begins_setting(&self) -> bool
        ensures { result ≡ forms.begins_setting self.now }
    {
        match self.rest.get(1) {
            Some(token) => is_sign(next_of(token), Sign::Dot),
            None => false,
        }
    }

    /// Whether no token is left.
    #[tactic(auto, unfolding(sk_reading::specs::ReadingPrograms::at_end))]
    pub fn is_at_end(&self) -> bool
        ensures { result ≡ programs.at_end self.now }
    {
        matches!(self.peek(), Next::End)
    }

    /// How many tokens are left.
    pub fn left(&self) -> usize
        ensures { result ≡ length self.now.rest }
    {
        self.rest.len()
    }

    /// Takes the next token, whatever it is; at the end there is none.
    #[tactic(auto, unfolding(sk_reading::specs::Reading::advance))]
    pub fn advance(&mut self)
        ensures { self.new ≡ spec.advance self.old }
    {
        if !self.rest.is_empty() {
            self.rest = &self.rest[1..];
        }
    }

    /// Whether this sign comes next. Nothing is taken.
    #[tactic(auto, unfolding(sk_reading::specs::Reading::sees))]
    pub fn sees(&self, sign: Sign) -> bool
        ensures { result ≡ spec.sees sign self.now }
    {
        is_sign(self.peek(), sign)
    }

    /// Whether this reserved word comes next. Nothing is taken.
    #[tactic(auto, unfolding(sk_reading::specs::Reading::sees_keyword))]
    pub fn sees_keyword(&self, keyword: Keyword) -> bool
        ensures { result ≡ spec.sees_keyword keyword self.now }
    {
        is_keyword(self.peek(), keyword)
    }

    /// Takes the sign, if it comes next, and tells whether it did.
    #[tactic(auto, unfolding(sk_reading::specs::Reading::after))]
    pub fn eat(&mut self, sign: Sign) -> bool
        ensures found { result ≡ spec.sees sign self.old }
        ensures after { self.new ≡ spec.after sign self.old }
    {
        let found = self.sees(sign);
        if found {
            self.advance();
        }
        found
    }

    /// Takes the sign, which has to come next.
    #[tactic(auto, unfolding(sk_reading::specs::Reading::expect))]
    pub fn expect(&mut self, sign: Sign) -> Result<(), Stop>
        ensures { ParsesAs (spec.expect sign self.old) result self.new }
    {
        if !self.sees(sign) {
            return Err(self.refuse());
        }
        self.advance();
        Ok(())
    }

    /// Takes the reserved word, which has to come next.
    #[tactic(auto, unfolding(sk_reading::specs::Reading::expect_keyword))]
    pub fn expect_keyword(&mut self, keyword: Keyword) -> Result<(), Stop>
        ensures { ParsesAs (spec.expect_keyword keyword self.old) result self.new }
    {
        if !self.sees_keyword(keyword) {
            return Err(self.refuse());
        }
        self.advance();
        Ok(())
    }

    /// Whether a type stands behind the next token, so that an opening parenthesis begins a conversion.
    #[tactic(auto, unfolding(sk_reading::specs::ReadingExpressions::begins_conversion, sk_reading::specs::Reading::front, sk_reading::specs::Reading::advance))]
    pub fn begins_conversion(&self) -> bool
        ensures { result ≡ expressions.begins_conversion self.now }
    {
        match self.rest.get(1) {
            Some(token) => is_type(next_of(token)),
            None => false,
        }
    }

    /// The next token, if it is a word, a reserved one too. Nothing is taken.
    #[tactic(auto, unfolding(sk_reading::specs::Reading::front_word))]
    pub fn front_word(&self) -> Option<&'a [u8]>
        ensures { option_copied result ≡ spec.front_word self.now }
    {
        match &self.rest.first()?.what {
            TokenKind::Word(word) => Some(word.as_bytes()),
            _ => None,
        }
    }

    /// `NAME`: takes a word that is not reserved.
    #[tactic(auto, unfolding(sk_reading::specs::Reading::name, sk_reading::specs::Reading::name_of))]
    pub fn name(&mut self, alloc: Global) -> Result<Name, Stop>
        ensures { ParsesAs (spec.name self.old) result self.new }
    {
        let Some(word) = self.front_word() else {
            return Err(self.refuse());
        };
        if keyword_of(word).is_some() {
            return Err(self.refuse());
        }
        let name = Name::from_slice(alloc, word)?;
        self.advance();
        Ok(name)
    }

    /// Takes a word of the entries, and gives what it stands for.
    #[tactic(auto, unfolding(sk_reading::specs::Reading::word_in))]
    pub fn word_in<T: Copy>(&mut self, entries: &[(&[u8], T)]) -> Result<T, Stop>
        ensures { ParsesAs (spec.word_in (map (λ entry. (entry.0.now, entry.1)) entries.now) self.old) result self.new }
    {
        let Some(word) = self.front_word() else {
            return Err(self.refuse());
        };
        let Some(meaning) = meant(entries, word) else {
            return Err(self.refuse());
        };
        self.advance();
        Ok(meaning)
    }

    /// `NUMBER`: takes a number, and gives its type and value.
    #[tactic(auto, unfolding(sk_reading::specs::Reading::number))]
    pub fn number(&mut self) -> Result<(Ty, Cell), Stop>
        ensures { ParsesAs (spec.number self.old) result self.new }
    {
        match self.rest.first() {
            Some(
                Token {
                    what: TokenKind::Number(ty, value),
                    ..
                },
            ) => {
                let number = (*ty, *value);
                self.advance();
                Ok(number)
            }
            _ => Err(self.refuse()),
        }
    }

    /// `STRING`: takes a string, and gives the bytes for which it stands.
    #[tactic(auto, unfolding(sk_reading::specs::Reading::text))]
    pub fn text(&mut self, alloc: Global) -> Result<Text, Stop>
        ensures { ParsesAs (spec.text self.old) result self.new }
    {
        match self.rest.first() {
            Some(
                Token {
                    what: TokenKind::Text(text),
                    ..
                },
            ) => {
                let bytes = Vec::from_slice(alloc, text.as_bytes())?;
                self.advance();
                Ok(Text::from_vec(bytes))
            }
            _ => Err(self.refuse()),
        }
    }

    /// `type = "int" | "long"`
    #[tactic(auto, unfolding(sk_reading::specs::Reading::ty))]
    pub fn ty(&mut self) -> Result<Ty, Stop>
        ensures { ParsesAs (spec.ty self.old) result self.new }
    {
        let ty = match self.peek() {
            Next::Keyword(Keyword::Int) => Ty::Int,
            Next::Keyword(Keyword::Long) => Ty::Long,
            _ => return Err(self.refuse()),
        };
        self.advance();
        Ok(ty)
    }

    /// Begins an expression that is part of no other: its nodes count from 0.
    pub fn fresh(&mut self)
        ensures { self.new ≡ record self.old { nodes = 0 } }
    {
        self.nodes = 0;
    }

    /// Counts a node at the next token, which is not taken.
    #[tactic(auto, unfolding(sk_reading::specs::Reading::count_node))]
    pub fn count_node(&mut self) -> Result<(), Stop>
        ensures { ParsesAs (spec.count_node self.old) result self.new }
    {
        if self.nodes >= MOST_NODES {
            return Err(self.many(Limited::Nodes));
        }
        self.nodes += 1;
        Ok(())
    }

    /// Counts an instance at the next token, which is not taken.
    #[tactic(auto, unfolding(sk_reading::specs::Reading::count_instance))]
    pub fn count_instance(&mut self) -> Result<(), Stop>
        ensures { ParsesAs (spec.count_instance self.old) result self.new }
    {
        if self.instances >= MOST_INSTANCES {
            return Err(self.many(Limited::Instances));
        }
        self.instances += 1;
        Ok(())
    }

    /// Opens something at the next token, where `left` more may be opened. Nothing is taken.
    #[tactic(auto, unfolding(sk_reading::specs::Reading::opened))]
    pub fn open(&self, left: usize) -> Result<(), Stop>
        ensures { ParsesAs (spec.opened left self.now) result self.now }
    {
        if left == 0 {
            return Err(self.deep());
        }
        Ok(())
    }

    /// Takes the sign, which has to come next and opens something, where `left` more may be opened.
    #[tactic(auto, unfolding(sk_reading::specs::Reading::opened_by))]
    pub fn open_by(&mut self, sign: Sign, left: usize) -> Result<(), Stop>
        ensures { ParsesAs (spec.opened_by sign left self.old) result self.new }
    {
        if !self.sees(sign) {
            return Err(self.refuse());
        }
        self.open(left)?;
        self.advance();
        Ok(())
    }

    /// Opens something at the expression that has to come next, where `left` more may be opened. Nothing is taken.
    #[tactic(auto, unfolding(sk_reading::specs::ReadingExpressions::opened_by_expression))]
    pub fn open_by_expression(&self, left: usize) -> Result<(), Stop>
        ensures { ParsesAs (expressions.opened_by_expression left self.now) result self.now }
    {
        if !begins_expression(self.peek()) {
            return Err(self.refuse());
        }
        self.open(left)
    }

    /// The stop at the next token, with which no program goes on.
    pub fn refuse(&self) -> Stop
        ensures { result ≡ Stop.Refused Refusal.Syntax (length self.now.rest) }
    {
        self.stop(Refusal::Syntax)
    }

    /// The stop at the next token, round which one part too many is open.
    pub fn deep(&self) -> Stop
        ensures { result ≡ Stop.Refused Refusal.Deep (length self.now.rest) }
    {
        self.stop(Refusal::Deep)
    }

    /// The stop at the next token, which is one thing too many of a kind.
    pub fn many(&self, what: Limited) -> Stop
        ensures { result ≡ Stop.Refused (Refusal.Many what) (length self.now.rest) }
    {
        self.stop(Refusal::Many(what))
    }

    /// The stop at the next token.
    fn stop(&self, refusal: Refusal) -> Stop
        ensures { result ≡ Stop.Refused refusal (length self.now.rest) }
    {
        Stop::Refused {
            refusal,
            left: self.left(),
        }
    }
}
