//! Writing a tree out as its tokens.

ghost use Rattle.std.specs.Prelude.{◌≡◌, [], ◌∷◌, ◌++◌, reverse, IfOk, OnOk};
ghost use Rattle.qml_syntax.specs.Tree.{Whole};
ghost use Rattle.qml_syntax.specs.Listed.{listed_whole};
ghost use Rattle.qml_syntax.specs.Flat.{flat_whole};
ghost use Rattle.qml_syntax.specs.Nodes.{is_mark};
ghost use Rattle.qml_syntax.specs.WalkFlat as f;

use crate::contextual::{Adjective, Contextual, Version};
use crate::mark::Mark;
use crate::node::{Close, Node, Nodes};
use crate::operators::Prefix;
use crate::token::TokenKind;
use crate::tree::Tree;
use crate::word::Word;
use qml_base::NoMemory;
use qml_text::Text;
use std::alloc::Global;
use std::marker::Model;

/// Parts of a node that are still to be written.
#[derive(Clone, Copy, Debug, PartialEq, Eq)]
enum Parts {
    /// One part.
    One,
    /// An expression and the steps behind it; a path.
    Steps,
    /// The expressions, parameters or objects behind a mark; whether there is one behind them.
    Items(bool),
    /// The fields behind a mark; whether there is one behind them.
    Fields(bool),
    /// The declared names behind a mark; whether there is one behind them.
    Vars(bool),
    /// The statements behind a mark; imports, functions or members behind one.
    Statements,
    /// A kind behind a colon, or none.
    Kind,
}

/// A piece of what a node is written as.
#[derive(Clone, Copy, Debug, PartialEq, Eq)]
enum Piece {
    Mark(Mark),
    Word(Word),
    Prefix(Prefix),
    Contextual(Contextual),
    Version,
    Number(u64),
    Parts(Parts),
}

const ONE: Piece = Piece::Parts(Parts::One);

const ITEMS: Piece = Piece::Parts(Parts::Items(false));

const FIELDS: Piece = Piece::Parts(Parts::Fields(false));

const VARS: Piece = Piece::Parts(Parts::Vars(false));

const STATEMENTS: Piece = Piece::Parts(Parts::Statements);

const STEPS: Piece = Piece::Parts(Parts::Steps);

const KIND: Piece = Piece::Parts(Parts::Kind);

const PROPERTY: Piece = Piece::Contextual(Contextual::Property);

const DEFAULT: Piece = Piece::Word(Word::Default);

const SIGNAL: Piece = Piece::Contextual(Contextual::Signal);

const COLON: Piece = Piece::Mark(Mark::Colon);

const LEFT_PAREN: Piece = Piece::Mark(Mark::LeftParen);

const RIGHT_PAREN: Piece = Piece::Mark(Mark::RightParen);

const LEFT_BRACKET: Piece = Piece::Mark(Mark::LeftBracket);

const RIGHT_BRACKET: Piece = Piece::Mark(Mark::RightBracket);

const LEFT_BRACE: Piece = Piece::Mark(Mark::LeftBrace);

const RIGHT_BRACE: Piece = Piece::Mark(Mark::RightBrace);

const SEMICOLON: Piece = Piece::Mark(Mark::Semicolon);

const IF: Piece = Piece::Word(Word::If);

const ELSE: Piece = Piece::Word(Word::Else);

const WHILE: Piece = Piece::Word(Word::While);

const FOR: Piece = Piece::Word(Word::For);

/// A tree that is being written from its last token to its first: the pieces that are still to be written, the last one
/// last, and the tokens that have been written, the first one last. Contracts see both from the other end.
#[derive(Debug, Drop)]
struct Writing {
    pieces: Vec<Piece>,
    kinds: Vec<TokenKind>,
}

impl Model for Writing {
    ghost use Rattle.std.specs.Prelude.{List, reverse};
    ghost use Rattle.qml_syntax.specs.declared.writing.Piece as p;
    ghost use Rattle.qml_syntax.specs.declared.token.TokenKind as t;

    ghost Value = { List p.Piece × List t.TokenKind };

    ghost view = { λ w. (reverse w.pieces.items, reverse w.kinds.items) };
}

impl Writing {
    /// Of one part.
    fn new(alloc: Global) -> Result<Writing, NoMemory>
        ensures { IfOk result (λ w. w ≡ (f.one ∷ [], [])) }
    {
        let mut writing = Writing {
            pieces: Vec::new(alloc),
            kinds: Vec::new(alloc),
        };
        writing.add(&[ONE])?;
        Ok(writing)
    }

    /// Writes a token before those that have been written.
    fn write(&mut self, kind: TokenKind) -> Result<(), NoMemory>
        ensures { OnOk result (self.new ≡ (self.old.0, kind ∷ self.old.1)) }
    {
        match self.kinds.push(kind) {
            Ok(()) => Ok(()),
            Err(_) => Err(NoMemory),
        }
    }

    /// Adds pieces behind those that are to be written.
    fn add(&mut self, pieces: &[Piece]) -> Result<(), NoMemory>
        ensures { OnOk result (self.new ≡ (reverse pieces.now ++ self.old.0, self.old.1)) }
    {
        match self.pieces.extend_from_slice(pieces) {
            Ok(()) => Ok(()),
            Err(_) => Err(NoMemory),
        }
    }

    /// Writes the tokens that come next: the parts that come then.
    fn advance(&mut self, alloc: Global) -> Result<Option<Parts>, NoMemory>
        ensures { IfOk result (λ parts. f.next_of self.old.0 self.old.1 ≡ (parts, self.new.0, self.new.1)) }
    {
        while let Some(piece) = self.pieces.pop() {
            match piece {
                Piece::Mark(mark) => self.write(TokenKind::Mark(mark))?,
                Piece::Word(word) => self.write(TokenKind::Word(word))?,
                Piece::Prefix(prefix) => self.write(prefix.kind())?,
                Piece::Contextual(word) => self.write(TokenKind::Name(word.name(alloc)?))?,
                Piece::Version => self.write(TokenKind::Version)?,
                Piece::Number(number) => self.write(TokenKind::Number(number))?,
                Piece::Parts(parts) => return Ok(Some(parts)),
            }
        }
        Ok(None)
    }
}

impl Node {
    /// Whether it is a step, or a name behind a dot.
    pub(crate) fn is_step(&self) -> bool
        ensures { result ≡ f.is_step self.now }
    {
        matches!(
            self,
            Node::Member(..) | Node::Element(_) | Node::Call(_) | Node::Binding(_) | Node::Dot(_)
        )
    }

    /// Whether it is the absence of a kind.
    fn is_no_kind(&self) -> bool
        ensures { result ≡ f.is_no_kind self.now }
    {
        matches!(self, Node::NoKind)
    }

    /// Whether it is a declared name.
    fn is_var(&self) -> bool
        ensures { result ≡ f.is_var self.now }
    {
        matches!(self, Node::Var(..))
    }
}

impl Writing {
    /// Adds the part before this one of its chain, unless this is the first.
    fn add_before(&mut self, first: bool) -> Result<(), NoMemory>
        ensures { OnOk result (self.new ≡ (reverse (f.before first) ++ self.old.0, self.old.1)) }
    {
        if first { Ok(()) } else { self.add(&[ONE]) }
    }

    /// Adds how a statement ends.
    fn add_close(&mut self, close: Close) -> Result<(), NoMemory>
        ensures { OnOk result (self.new ≡ (reverse (f.closing close) ++ self.old.0, self.old.1)) }
    {
        match close {
            Close::Semi => self.add(&[SEMICOLON]),
            Close::Auto => Ok(()),
        }
    }

    /// Adds the end of a list or of fields, with a comma before it or not.
    fn add_end(&mut self, comma: bool, mark: Mark) -> Result<(), NoMemory>
        ensures { OnOk result
            (self.new ≡ (reverse (f.trailing comma ++ Piece.Mark mark ∷ []) ++ self.old.0, self.old.1)) }
    {
        if comma {
            self.add(&[Piece::Mark(Mark::Comma), Piece::Mark(mark)])
        } else {
            self.add(&[Piece::Mark(mark)])
        }
    }

    /// Adds the version of a module.
    fn add_version(&mut self, version: Version) -> Result<(), NoMemory>
        ensures { OnOk result (self.new ≡ (reverse (f.form_of_version version) ++ self.old.0, self.old.1)) }
    {
        match version {
            Version::Absent => Ok(()),
            Version::Full => self.add(&[Piece::Version]),
            Version::Number(number) => self.add(&[Piece::Number(number)]),
        }
    }

    /// Adds the word `property` and what stands before it.
    fn add_adjective(&mut self, adjective: Adjective) -> Result<(), NoMemory>
        ensures { OnOk result (self.new ≡ (reverse (f.form_of_adjective adjective) ++ self.old.0, self.old.1)) }
    {
        match adjective {
            Adjective::Ordinary => self.add(&[PROPERTY]),
            Adjective::Default => self.add(&[DEFAULT, PROPERTY]),
            Adjective::ReadOnly => {
                self.add(&[Piece::Contextual(Contextual::ReadOnly), PROPERTY])
            }
        }
    }

    /// Adds the beginning of a script file.
    fn add_pragma(&mut self, pragma: bool) -> Result<(), NoMemory>
        ensures { OnOk result (self.new ≡ (reverse (f.form_of_pragma pragma) ++ self.old.0, self.old.1)) }
    {
        if pragma {
            self.add(&[
                Piece::Mark(Mark::Dot),
                Piece::Contextual(Contextual::Pragma),
                Piece::Contextual(Contextual::Library),
            ])
        } else {
            Ok(())
        }
    }

    /// Adds what a function is written as.
    fn add_function(&mut self) -> Result<(), NoMemory>
        ensures { OnOk result (self.new ≡ (reverse f.form_of_function ++ self.old.0, self.old.1)) }
    {
        self.add(&[
            Piece::Word(Word::Function),
            ONE,
            LEFT_PAREN,
            ITEMS,
            RIGHT_PAREN,
            KIND,
            LEFT_BRACE,
            ONE,
            RIGHT_BRACE,
        ])
    }

    /// Adds what a node of a path, an import, a kind or a function is written as.
    fn add_named(&mut self, node: &Node) -> Result<(), NoMemory>
        ensures { OnOk result (self.new ≡ (reverse (f.form_of_named node.now) ++ self.old.0, self.old.1)) }
    {
        match node {
            Node::Dot(_) => self.add(&[Piece::Mark(Mark::Dot)]),
            Node::Qualifier(_) => self.add(&[Piece::Contextual(Contextual::As)]),
            Node::ImportModule(version, close) => {
                self.add(&[Piece::Word(Word::Import), STEPS])?;
                self.add_version(*version)?;
                self.add(&[ONE])?;
                self.add_close(*close)
            }
            Node::ImportFile(close) => {
                self.add(&[Piece::Word(Word::Import), ONE, ONE])?;
                self.add_close(*close)
            }
            Node::KindVar => self.add(&[Piece::Word(Word::Var)]),
            Node::KindName => self.add(&[STEPS]),
            Node::KindList(_, _) => {
                self.add(&[Piece::Contextual(Contextual::List), Piece::Mark(Mark::Less)])
            }
            Node::Parameter => self.add(&[ONE, KIND]),
            Node::SignalParameter(_) => self.add(&[ONE]),
            Node::Function(_) => self.add_function(),
            _ => Ok(()),
        }
    }

    /// Adds what an alias, with `default` or not, is written as up to behind its target.
    fn add_alias(&mut self, is_default: bool) -> Result<(), NoMemory>
        ensures { OnOk result (self.new ≡ (reverse (f.form_of_alias is_default) ++ self.old.0, self.old.1)) }
    {
        if is_default {
            self.add(&[DEFAULT])?;
        }
        let word = Piece::Contextual(Contextual::Alias);
        self.add(&[PROPERTY, word, ONE, COLON, STEPS])
    }

    /// Adds what a member that a statement's end closes is written as, or another node.
    fn add_closed(&mut self, node: &Node) -> Result<(), NoMemory>
        ensures { OnOk result (self.new ≡ (reverse (f.form_of_closed node.now) ++ self.old.0, self.old.1)) }
    {
        match node {
            Node::Id(_, close) => {
                self.add(&[Piece::Contextual(Contextual::Id), COLON, ONE])?;
                self.add_close(*close)
            }
            Node::Bare(_, adjective, close) => {
                self.add_adjective(*adjective)?;
                self.add(&[ONE, ONE])?;
                self.add_close(*close)
            }
            Node::Alias(_, is_default, close) => {
                self.add_alias(*is_default)?;
                self.add_close(*close)
            }
            Node::Signal(_, close) => {
                self.add(&[SIGNAL, ONE])?;
                self.add_close(*close)
            }
            Node::SignalWith(_, close) => {
                self.add(&[SIGNAL, ONE, LEFT_PAREN, ITEMS, RIGHT_PAREN])?;
                self.add_close(*close)
            }
            _ => self.add_named(node),
        }
    }

    /// Adds what another member is written as, or an object, a list of objects, or a whole file.
    fn add_member(&mut self, node: &Node) -> Result<(), NoMemory>
        ensures { OnOk result (self.new ≡ (reverse (f.form_of_member node.now) ++ self.old.0, self.old.1)) }
    {
        match node {
            Node::Property(_, adjective) => {
                self.add_adjective(*adjective)?;
                self.add(&[ONE, ONE, COLON, ONE])
            }
            Node::Method | Node::Child => self.add(&[ONE]),
            Node::Given => self.add(&[STEPS, COLON, ONE]),
            Node::Group | Node::Object => {
                self.add(&[STEPS, LEFT_BRACE, STATEMENTS, RIGHT_BRACE])
            }
            Node::Semi => self.add(&[ONE, SEMICOLON]),
            Node::ObjectList(_) => self.add(&[LEFT_BRACKET, ITEMS, RIGHT_BRACKET]),
            Node::Document => self.add(&[STATEMENTS, ONE]),
            Node::Script(pragma) => {
                self.add_pragma(*pragma)?;
                self.add(&[STATEMENTS])
            }
            _ => self.add_closed(node),
        }
    }

    /// Adds what a statement with a header, or a part of one, is written as.
    fn add_header(&mut self, node: &Node) -> Result<(), NoMemory>
        ensures { OnOk result (self.new ≡ (reverse (f.form_of_header node.now) ++ self.old.0, self.old.1)) }
    {
        match node {
            Node::When(_) => self.add(&[IF, LEFT_PAREN, ONE, RIGHT_PAREN, ONE]),
            Node::Either(_) => self.add(&[IF, LEFT_PAREN, ONE, RIGHT_PAREN, ONE, ELSE, ONE]),
            Node::While(_) => self.add(&[WHILE, LEFT_PAREN, ONE, RIGHT_PAREN, ONE]),
            Node::For(_) => self.add(&[
                FOR,
                LEFT_PAREN,
                ONE,
                SEMICOLON,
                ONE,
                SEMICOLON,
                ONE,
                RIGHT_PAREN,
                ONE,
            ]),
            Node::FirstExpression | Node::Present => self.add(&[ONE]),
            Node::FirstDeclare(_, declaration) => {
                self.add(&[Piece::Word(declaration.word()), VARS])
            }
            _ => self.add_member(node),
        }
    }

    /// Adds what a statement is written as.
    fn add_statement(&mut self, node: &Node) -> Result<(), NoMemory>
        ensures { OnOk result (self.new ≡ (reverse (f.form_of_statement node.now) ++ self.old.0, self.old.1)) }
    {
        match node {
            Node::Empty(_) => self.add(&[SEMICOLON]),
            Node::Expression(close) => {
                self.add(&[ONE])?;
                self.add_close(*close)
            }
            Node::Block(_) => self.add(&[LEFT_BRACE, STATEMENTS, RIGHT_BRACE]),
            Node::Declare(_, declaration, close) => {
                self.add(&[Piece::Word(declaration.word()), VARS])?;
                self.add_close(*close)
            }
            Node::Give(_, close) => {
                self.add(&[Piece::Word(Word::Return)])?;
                self.add_close(*close)
            }
            Node::GiveValue(_, close) => {
                self.add(&[Piece::Word(Word::Return), ONE])?;
                self.add_close(*close)
            }
            Node::Stop(_, close) => {
                self.add(&[Piece::Word(Word::Break)])?;
                self.add_close(*close)
            }
            Node::Again(_, close) => {
                self.add(&[Piece::Word(Word::Continue)])?;
                self.add_close(*close)
            }
            Node::Body => self.add(&[STATEMENTS]),
            _ => self.add_header(node),
        }
    }

    /// Adds what a part of a chain, or a chain, is written as.
    fn add_chain(&mut self, node: &Node) -> Result<(), NoMemory>
        ensures { OnOk result (self.new ≡ (reverse (f.form_of_chain node.now) ++ self.old.0, self.old.1)) }
    {
        match node {
            Node::Sign(first, prefix, _) => {
                self.add_before(*first)?;
                self.add(&[Piece::Prefix(*prefix)])
            }
            Node::Signed(first, prefix, _) => {
                self.add_before(*first)?;
                self.add(&[Piece::Prefix(*prefix), ONE])
            }
            Node::Link(_, operator, _) | Node::Chain(_, operator, _) => {
                self.add(&[ONE, Piece::Mark(operator.mark()), ONE])
            }
            Node::Choice(first) => {
                self.add_before(*first)?;
                self.add(&[
                    ONE,
                    Piece::Mark(Mark::Question),
                    ONE,
                    Piece::Mark(Mark::Colon),
                ])
            }
            Node::Target(first, assignment, _) => {
                self.add_before(*first)?;
                self.add(&[ONE, Piece::Mark(assignment.mark())])
            }
            Node::Choose | Node::Assign => self.add(&[ONE, ONE]),
            _ => self.add_statement(node),
        }
    }

    /// Adds what a node is written as, but for what it says.
    fn add_form(&mut self, node: &Node) -> Result<(), NoMemory>
        ensures { OnOk result (self.new ≡ (reverse (f.form node.now) ++ self.old.0, self.old.1)) }
    {
        match node {
            Node::Literal(literal, _) => self.add(&[Piece::Word(literal.word())]),
            Node::Paren(_) => self.add(&[LEFT_PAREN, ONE, RIGHT_PAREN]),
            Node::List(_, comma) => {
                self.add(&[LEFT_BRACKET, ITEMS])?;
                self.add_end(*comma, Mark::RightBracket)
            }
            Node::Fields(_, comma) => {
                self.add(&[LEFT_BRACE, FIELDS])?;
                self.add_end(*comma, Mark::RightBrace)
            }
            Node::Member(_, _) => self.add(&[Piece::Mark(Mark::Dot)]),
            Node::Element(_) => self.add(&[LEFT_BRACKET, ONE, RIGHT_BRACKET]),
            Node::Call(_) => self.add(&[LEFT_PAREN, ITEMS, RIGHT_PAREN]),
            Node::Binding(_) => self.add(&[
                LEFT_PAREN,
                Piece::Word(Word::Function),
                LEFT_PAREN,
                RIGHT_PAREN,
                LEFT_BRACE,
                STATEMENTS,
                RIGHT_BRACE,
                RIGHT_PAREN,
            ]),
            Node::Steps => self.add(&[STEPS]),
            Node::Postfix(postfix, _) => self.add(&[ONE, Piece::Mark(postfix.mark())]),
            _ => self.add_chain(node),
        }
    }
}

/// The same text, in memory of its own.
fn copied(text: &Text, alloc: Global) -> Result<Text, NoMemory>
    ensures { IfOk result (λ t. t ≡ text.now) }
{
    match text.copy(alloc) {
        Ok(text) => Ok(text),
        Err(_) => Err(NoMemory),
    }
}

impl Writing {
    /// Writes what a node of a document or of a script file says behind its form.
    fn say_in_document(&mut self, alloc: Global, node: &Node) -> Result<(), NoMemory>
        ensures { OnOk result (self.new ≡ (self.old.0, f.said_in_document node.now ++ self.old.1)) }
    {
        match node {
            Node::First(name, _)
            | Node::Dot(name)
            | Node::Qualifier(name)
            | Node::ParameterName(name)
            | Node::SignalParameter(name) => self.write(TokenKind::Name(copied(name, alloc)?)),
            Node::File(text, _) => self.write(TokenKind::Text(copied(text, alloc)?)),
            Node::KindList(name, _) => {
                let name = copied(name, alloc)?;
                self.write(TokenKind::Mark(Mark::Greater))?;
                self.write(TokenKind::Name(name))
            }
            _ => Ok(()),
        }
    }

    /// Writes what a node says behind its form.
    fn say(&mut self, alloc: Global, node: &Node) -> Result<(), NoMemory>
        ensures { OnOk result (self.new ≡ (self.old.0, f.said node.now ++ self.old.1)) }
    {
        match node {
            Node::Name(name, _) | Node::Member(name, _) | Node::Var(name, _) => {
                self.write(TokenKind::Name(copied(name, alloc)?))
            }
            Node::Number(number, _) => self.write(TokenKind::Number(*number)),
            Node::Text(text, _) => self.write(TokenKind::Text(copied(text, alloc)?)),
            Node::Key(is_text, key, _) => {
                let key = copied(key, alloc)?;
                if *is_text {
                    self.write(TokenKind::Text(key))
                } else {
                    self.write(TokenKind::Name(key))
                }
            }
            _ => self.say_in_document(alloc, node),
        }
    }

    /// Takes a node as the next part.
    fn open(&mut self, alloc: Global, node: &Node) -> Result<(), NoMemory>
        ensures { OnOk result (self.new ≡ f.opened node.now self.old.0 self.old.1) }
    {
        self.add_form(node)?;
        self.say(alloc, node)
    }

    /// Takes a node as the next of some parts, with a comma behind it or not, or as the mark before them. Before a part
    /// these pieces are awaited.
    fn take_item(
        &mut self,
        alloc: Global,
        node: &Node,
        comma: bool,
        stay: &[Piece],
    ) -> Result<(), NoMemory>
        ensures { OnOk result (self.new ≡ f.item (is_mark node.now) node.now comma stay.now self.old.0 self.old.1) }
    {
        if node.is_mark() {
            return Ok(());
        }
        if comma {
            self.write(TokenKind::Mark(Mark::Comma))?;
        }
        self.add(stay)?;
        self.open(alloc, node)
    }

    /// Takes a node as the next of a declaration's names and values, or as the mark before them.
    fn take_var(&mut self, alloc: Global, node: &Node, comma: bool) -> Result<(), NoMemory>
        ensures { OnOk result (self.new ≡
            f.item (is_mark node.now) node.now comma (f.vars_stay (f.is_var node.now)) self.old.0 self.old.1) }
    {
        let more = Piece::Parts(Parts::Vars(true));
        if node.is_var() {
            self.take_item(alloc, node, comma, &[more])
        } else {
            let value = Piece::Mark(Mark::Assign);
            self.take_item(alloc, node, comma, &[more, ONE, value])
        }
    }

    /// Takes a node as a step behind an expression, or as the expression before all steps.
    fn take_step(&mut self, alloc: Global, node: &Node) -> Result<(), NoMemory>
        ensures { OnOk result
            (self.new ≡ f.opened node.now (f.steps_stay (f.is_step node.now) ++ self.old.0) self.old.1) }
    {
        if node.is_step() {
            self.add(&[STEPS])?;
        }
        self.open(alloc, node)
    }

    /// Takes a node as a kind behind a colon, or as its absence.
    fn take_kind(&mut self, alloc: Global, node: &Node) -> Result<(), NoMemory>
        ensures { OnOk result
            (self.new ≡ f.opened node.now (f.kind_stay (f.is_no_kind node.now) ++ self.old.0) self.old.1) }
    {
        if !node.is_no_kind() {
            self.add(&[COLON])?;
        }
        self.open(alloc, node)
    }

    /// Takes a node where these parts are awaited.
    fn take_parts(&mut self, alloc: Global, node: &Node, parts: Parts) -> Result<(), NoMemory>
        ensures { OnOk result (self.new ≡ f.taken node.now parts self.old.0 self.old.1) }
    {
        match parts {
            Parts::One => self.open(alloc, node),
            Parts::Steps => self.take_step(alloc, node),
            Parts::Items(comma) => {
                let more = Piece::Parts(Parts::Items(true));
                self.take_item(alloc, node, comma, &[more])
            }
            Parts::Fields(comma) => {
                let more = Piece::Parts(Parts::Fields(true));
                self.take_item(alloc, node, comma, &[more, ONE, Piece::Mark(Mark::Colon)])
            }
            Parts::Vars(comma) => self.take_var(alloc, node, comma),
            Parts::Statements => self.take_item(alloc, node, false, &[STATEMENTS]),
            Parts::Kind => self.take_kind(alloc, node),
        }
    }

    /// Takes the node before those that have been taken.
    fn take(&mut self, alloc: Global, node: &Node) -> Result<(), NoMemory>
        ensures { OnOk result (self.new ≡ f.taken_next node.now (f.next_of self.old.0 self.old.1)) }
    {
        match self.advance(alloc)? {
            Some(parts) => self.take_parts(alloc, node, parts),
            None => Ok(()),
        }
    }

    /// Writes the tokens that are left: all of them, in order.
    fn finish(mut self, alloc: Global) -> Result<Vec<TokenKind>, NoMemory>
        ensures { IfOk result (λ kinds. kinds.items ≡ (f.next_of self.0 self.1).2) }
    {
        self.advance(alloc)?;
        let mut kinds = self.kinds;
        kinds.reverse();
        Ok(kinds)
    }
}

/// The tokens that a tree is written as whose nodes these are, in their order.
pub(crate) fn flat_of(alloc: Global, nodes: &[Node]) -> Result<Vec<TokenKind>, NoMemory>
    ensures { IfOk result (λ kinds. (w : Whole) → reverse nodes.now ≡ listed_whole w → kinds.items ≡ flat_whole w) }
{
    let mut writing = Writing::new(alloc)?;
    let mut left = nodes;
    while let Some((node, rest)) = left.split_last() {
        writing.take(alloc, node)?;
        left = rest;
    }
    writing.finish(alloc)
}

/// The tokens that a tree is written as, in order: those that it reads. Nothing recurses, however deep the tree is, and the
/// time is proportional to the nodes and the texts in them. Want of memory is the only error.
pub fn flat(tree: &Tree, alloc: Global) -> Result<Vec<TokenKind>, NoMemory>
    ensures { IfOk result (λ kinds. (w : Whole) → tree.now ≡ listed_whole w → kinds.items ≡ flat_whole w) }
{
    flat_of(alloc, tree.nodes())
}

impl Nodes {
    /// The tokens that a tree is written as, in order, where these are its nodes. Nothing recurses, however deep the tree
    /// is, and the time is proportional to the nodes and the texts in them. Want of memory is the only error.
    pub fn flat(&self, alloc: Global) -> Result<Vec<TokenKind>, NoMemory>
        ensures { IfOk result (λ kinds. (w : Whole) → self.now ≡ listed_whole w → kinds.items ≡ flat_whole w) }
    {
        flat_of(alloc, self.as_slice())
    }
}
