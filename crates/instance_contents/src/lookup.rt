//! What is given for a cell.

ghost use Rattle.std.specs.Prelude.{◌≡◌, ◌++◌, IfOk, codes, decimal};
ghost use Rattle.std.specs.Option.{option_map};
ghost use Rattle.instance_plans.specs.Treed.{content_made};
ghost use Rattle.pair_table.specs.Pairs.{under};
ghost use Rattle.instance_contents.specs.Tables.{Stands};
ghost use Rattle.instance_contents.specs.Sources.{Tells, content_in, source_content, state_name};

use crate::contents::content;
use crate::given::{Given, Source, value_given};
use crate::tables::Tables;
use qml_base::NoMemory;
use qml_text::{NoMemory as TextMemory, Text, TextBuilder};
use qml_value::Value;
use std::alloc::Global;
use tree_model::Content;

/// What a row gives to the object of a number.
fn content_by(alloc: Global, tables: &Tables, source: Source, to: u32) -> Result<Content, NoMemory>
    requires { Stands tables.now }
    ensures { IfOk result (λ x. x ≡ content_made (source_content tables.now source to)) }
{
    match value_given(tables, source) {
        Some(value) => content(alloc, tables, source.place, source.author, to, value),
        None => Ok(Content::Plain(Value::Undefined)),
    }
}

/// `anonymousState` and a number.
fn state_text(alloc: Global, number: u32) -> Result<Text, TextMemory>
    ensures { IfOk result (λ name. name ≡ codes "anonymousState" ++ decimal number) }
{
    let mut name = TextBuilder::new(alloc);
    let word = Text::from_latin1(alloc, b"anonymousState")?;
    name.append(&word)?;
    let digits = Text::of_number(alloc, i64::from(number))?;
    name.append(&digits)?;
    let name = name.finish(alloc)?;
    Ok(name)
}

/// What a State is named that has no name.
fn name_content(alloc: Global, number: u32) -> Result<Content, NoMemory>
    ensures { IfOk result (λ x. x ≡ content_made (state_name number)) }
{
    match state_text(alloc, number) {
        Ok(name) => Ok(Content::Plain(Value::Text(name))),
        Err(_) => Err(NoMemory),
    }
}

/// What a State that has no name is named, if the cell is that of its name.
fn name_at(
    alloc: Global,
    given: &Given,
    number: u32,
    place: u32,
) -> Result<Option<Content>, NoMemory>
    ensures { IfOk result (λ x. x ≡ option_map (λ i. content_made (state_name i)) (under given.now.names (number, place))) }
{
    match given.names.find((number, place)) {
        Some(name) => {
            let content = name_content(alloc, name)?;
            Ok(Some(content))
        }
        None => Ok(None),
    }
}

/// What is given for the cell of a place of the object of a number, if anything is.
pub fn content_at(
    alloc: Global,
    tables: &Tables,
    given: &Given,
    number: u32,
    place: u32,
) -> Result<Option<Content>, NoMemory>
    requires stands { Stands tables.now }
    requires given { Tells tables.now given.now }
    ensures { IfOk result (λ x. x ≡ option_map content_made (content_in tables.now number place)) }
{
    match given.sources.find((number, place)) {
        Some(source) => {
            let content = content_by(alloc, tables, source, number)?;
            Ok(Some(content))
        }
        None => {
            let name = name_at(alloc, given, number, place)?;
            Ok(name)
        }
    }
}
