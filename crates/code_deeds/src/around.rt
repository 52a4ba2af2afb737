//! The names around a place of code.

ghost use Rattle.std.specs.Prelude.{◌≡◌, IfOk, reverse};
ghost use Rattle.std.specs.Str.{bytes_eq};
ghost use Rattle.program_names.specs.Names.{is_in};
ghost use Rattle.js_locals.specs.Laid.{laid};
ghost use Rattle.code_deeds.specs.Around as s;

use js_locals::name_of;
use qml_base::{NoMemory, Place};
use qml_syntax::{Node, Tree};
use qml_text::Text;

/// What stands around a place of code: a name that is declared, by the place of its node; what begins a block; or
/// what begins the function
/// of a `Qt.binding`, with the place of `Qt`.
#[derive(Clone, Copy, Debug)]
pub enum Entry {
    Name(usize),
    Block,
    Function(Option<Place>),
}

/// Where code stands before it is gone through: the names of the locals there, whether no effect may be, and whether
/// it is a script's.
#[derive(Drop)]
pub struct Start {
    pub given: Vec<Text>,
    pub pure: bool,
    pub in_script: bool,
}

/// Whether they are the same text.
#[tactic(auto, using(crate::proofs::AroundLemmas::same_bytes))]
fn is_same(a: &Text, b: &Text) -> bool
    ensures { result ≡ bytes_eq a.now b.now }
{
    a.same(b)
}

fn is_given(given: &[Text], name: &Text) -> bool
    ensures { result ≡ is_in name.now given.now }
{
    'names: for own in given {
        if is_same(name, own) {
            return true;
        }
    }
    false
}

/// Whether the name at a place is this one.
fn names_it(tree: &Tree, at: usize, name: &Text) -> Result<bool, NoMemory>
    ensures { IfOk result (λ b. b ≡ s.names_it (laid tree.now) name.now at) }
{
    match name_of(tree, at) {
        Ok(own) => Ok(is_same(name, own)),
        Err(_) => Err(NoMemory),
    }
}

/// Whether an entry is this name.
fn is_it(tree: &Tree, entry: Entry, name: &Text) -> Result<bool, NoMemory>
    ensures { IfOk result (λ b. b ≡ s.is_it (laid tree.now) name.now entry) }
{
    match entry {
        Entry::Name(at) => names_it(tree, at, name),
        Entry::Block => Ok(false),
        Entry::Function(_) => Ok(false),
    }
}

fn begins_function(entry: Entry) -> bool
    ensures { result ≡ s.begins_function entry }
{
    match entry {
        Entry::Name(_) => false,
        Entry::Block => false,
        Entry::Function(_) => true,
    }
}

/// Whether a name is that of a local, where the entries end with the innermost.
pub fn is_local(
    tree: &Tree,
    start: &Start,
    entries: &[Entry],
    name: &Text,
) -> Result<bool, NoMemory>
    ensures { IfOk result (λ b. b ≡ s.is_local (laid tree.now) start.now.given.items name.now (reverse entries.now)) }
{
    let mut left = entries;
    'entries: while let Some((last, front)) = left.split_last() {
        if is_it(tree, *last, name)? {
            return Ok(true);
        }
        if begins_function(*last) {
            return Ok(false);
        }
        left = front;
    }
    Ok(is_given(&start.given, name))
}

/// Whether a name stands among some entries, or is given.
fn is_anywhere(tree: &Tree, start: &Start, entries: &[Entry], name: &Text) -> Result<bool, NoMemory>
    ensures { IfOk result (λ b. b ≡ s.is_anywhere (laid tree.now) start.now.given.items name.now
        (reverse entries.now)) }
{
    let mut left = entries;
    'entries: while let Some((last, front)) = left.split_last() {
        if is_it(tree, *last, name)? {
            return Ok(true);
        }
        left = front;
    }
    Ok(is_given(&start.given, name))
}

/// Whether a name stands around the function of the innermost `Qt.binding`.
pub fn is_around(
    tree: &Tree,
    start: &Start,
    entries: &[Entry],
    name: &Text,
) -> Result<bool, NoMemory>
    ensures { IfOk result (λ b. b ≡ s.is_around (laid tree.now) start.now.given.items name.now (reverse entries.now)) }
{
    let mut left = entries;
    'entries: while let Some((last, front)) = left.split_last() {
        if begins_function(*last) {
            return is_anywhere(tree, start, front, name);
        }
        left = front;
    }
    Ok(false)
}

/// Whether no effect may be.
pub fn is_pure(start: &Start, entries: &[Entry]) -> bool
    ensures { result ≡ s.is_pure start.now.pure (reverse entries.now) }
{
    let mut left = entries;
    'entries: while let Some((last, front)) = left.split_last() {
        if begins_function(*last) {
            return true;
        }
        left = front;
    }
    start.pure
}

fn place_of_function(entry: Entry) -> Option<Place>
    ensures { result ≡ s.place_of_function entry }
{
    match entry {
        Entry::Name(_) => None,
        Entry::Block => None,
        Entry::Function(place) => place,
    }
}

/// The place of the innermost `Qt.binding` in whose function this is.
pub fn inside(entries: &[Entry]) -> Option<Place>
    ensures { result ≡ s.inside (reverse entries.now) }
{
    let mut left = entries;
    'entries: while let Some((last, front)) = left.split_last() {
        match place_of_function(*last) {
            Some(place) => return Some(place),
            None => left = front,
        }
    }
    None
}
