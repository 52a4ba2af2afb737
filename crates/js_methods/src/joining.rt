//! The texts of a list's values, with a mark between two (ECMA-262, 23.1.3.18).

ghost use Rattle.std.specs.Prelude.{◌≡◌, ◌+◌, ◌≤◌, ◌++◌, length, map, codes, IfOk};
ghost use Rattle.std.specs.List.{flat_map};
ghost use Rattle.qml_text.specs.Parts.{join_of};
ghost use Rattle.qml_value.specs.Texts.{text_of, element_text};
ghost use Rattle.js_meaning.specs.Operate.{weighed};
ghost use Rattle.js_meaning.specs.Methods.{with_text_or};
ghost use Rattle.js_methods.specs.Adding.{Adds};

use evaluation::Ended;
use js_operators::MOST_UNITS;
use qml_base::Cause;
use qml_text::{NoMemory, Text, TextBuilder};
use qml_value::{TextOfFault, Value};
use std::alloc::Global;

/// Adds a text where both together are light enough, and tells whether they are.
#[tactic(auto, using(js_operators::proofs::WeightLemmas::length_of))]
fn add(text: &mut TextBuilder, more: &Text) -> Result<bool, NoMemory>
    requires { 1 + length text.old ≤ 1048576 }
    ensures { IfOk result (λ light. Adds text.old more.now text.new light) }
{
    if more.len() > MOST_UNITS - text.len() {
        return Ok(false);
    }
    text.append(more)?;
    Ok(true)
}

/// Adds the text of a value, likewise.
#[tactic(auto, using(crate::proofs::JoinLemmas::heavy_behind))]
fn add_text_of(alloc: Global, text: &mut TextBuilder, value: &Value) -> Result<bool, NoMemory>
    requires { 1 + length text.old ≤ 1048576 }
    ensures { IfOk result (λ light. Adds text.old (text_of value.now) text.new light) }
{
    match value.text_of(alloc) {
        Ok(more) => add(text, &more),
        Err(TextOfFault::Heavy) => Ok(false),
        Err(TextOfFault::NoMemory) => Err(NoMemory),
    }
}

/// Adds the text that a value has as an element of a list, likewise: none for Undefined and Null.
#[tactic(auto, using(crate::proofs::JoinLemmas::nothing_more))]
fn add_element(alloc: Global, text: &mut TextBuilder, value: &Value) -> Result<bool, NoMemory>
    requires { 1 + length text.old ≤ 1048576 }
    ensures { IfOk result (λ light. Adds text.old (element_text value.now) text.new light) }
{
    match value {
        Value::Undefined | Value::Null => Ok(true),
        _ => add_text_of(alloc, text, value),
    }
}

/// Adds the mark and the text of an element, likewise.
#[tactic(auto, using(crate::proofs::JoinLemmas::heavy_front, crate::proofs::JoinLemmas::one_behind))]
fn add_next(
    alloc: Global,
    text: &mut TextBuilder,
    mark: &Text,
    value: &Value,
) -> Result<bool, NoMemory>
    requires { 1 + length text.old ≤ 1048576 }
    ensures { IfOk result (λ light. Adds text.old (mark.now ++ element_text value.now) text.new light) }
{
    if add(text, mark)? {
        add_element(alloc, text, value)
    } else {
        Ok(false)
    }
}

/// Adds the mark and the text of each element, likewise.
#[tactic(auto, using(crate::proofs::JoinLemmas::heavy_next))]
fn add_rest(
    alloc: Global,
    text: &mut TextBuilder,
    mark: &Text,
    values: &[Value],
) -> Result<bool, NoMemory>
    requires { 1 + length text.old ≤ 1048576 }
    ensures { IfOk result
        (λ light. Adds text.old (flat_map (λ p. mark.now ++ p) (map element_text values.now)) text.new light) }
{
    let mut rest = values;
    'values: while let Some((value, behind)) = rest.split_first() {
        let light = add_next(alloc, text, mark, value)?;
        if !light {
            return Ok(false);
        }
        rest = behind;
    }
    Ok(true)
}

/// Adds the texts of elements with the mark between two, likewise.
#[tactic(auto, using(crate::proofs::JoinLemmas::heavy_front, crate::proofs::JoinLemmas::one_behind, crate::proofs::JoinLemmas::nothing_more))]
fn add_all(
    alloc: Global,
    text: &mut TextBuilder,
    mark: &Text,
    values: &[Value],
) -> Result<bool, NoMemory>
    requires { 1 + length text.old ≤ 1048576 }
    ensures { IfOk result (λ light. Adds text.old (join_of mark.now (map element_text values.now)) text.new light) }
{
    let Some((first, rest)) = values.split_first() else {
        return Ok(true);
    };
    if add_element(alloc, text, first)? {
        add_rest(alloc, text, mark, rest)
    } else {
        Ok(false)
    }
}

/// The texts of elements with the mark between two, or a throw of `size` where they are too heavy: no such text is built.
#[tactic(auto, using(js_operators::proofs::WeightLemmas::heavy_text, js_operators::proofs::WeightLemmas::light_text))]
fn joined(alloc: Global, values: &[Value], mark: &Text) -> Result<Ended, NoMemory>
    ensures { IfOk result (λ e. e ≡ weighed (Value.Text (join_of mark.now (map element_text values.now)))) }
{
    let mut text = TextBuilder::new(alloc);
    if add_all(alloc, &mut text, mark, values)? {
        let whole = text.finish(alloc)?;
        Ok(Ended::Value(Value::Text(whole)))
    } else {
        Ok(Ended::Threw(Cause::Size))
    }
}

/// `join` (ECMA-262, 23.1.3.18); without a mark a comma stands between two.
pub(crate) fn join(alloc: Global, values: &[Value], mark: &Value) -> Result<Ended, NoMemory>
    ensures { IfOk result (λ e.
        e ≡ with_text_or (codes ",") mark.now (λ m. weighed (Value.Text (join_of m (map element_text values.now))))) }
{
    match mark {
        Value::Undefined => {
            let comma = Text::from_latin1(alloc, b",")?;
            joined(alloc, values, &comma)
        }
        Value::Text(mark) => joined(alloc, values, mark),
        _ => Ok(Ended::Threw(Cause::Kind)),
    }
}
