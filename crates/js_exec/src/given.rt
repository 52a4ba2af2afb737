//! The locals of a body that is begun.

ghost use Rattle.std.specs.Prelude.{◌≡◌, ◌∷◌, ◌++◌, [], map, reverse, IfOk};
ghost use Rattle.qml_syntax.specs.Tree.{Units};
ghost use Rattle.js_meaning.specs.Locals.{lets_of, parameters, vars_of_all};
ghost use Rattle.js_locals.specs.Laid.{laid, name_of, stmts_in};
ghost use Rattle.js_locals.specs.Scopes.{scopes_of};
ghost use Rattle.js_locals.specs.Gathering.{row_from};
ghost use Rattle.js_acting.specs.Given.{given_onto, behind_them};

use js_frames::Stack;
use js_locals::{Local, Locals, bind, copied, declare, let_names, var_names};
use qml_syntax::Tree;
use qml_text::{NoMemory, Text};
use qml_value::Value;
use std::alloc::Global;

/// Declares parameters that have names of their own with their arguments in the innermost scope, and gives the other arguments.
fn bind_given<'a>(
    locals: &mut Locals,
    alloc: Global,
    names: &[Text],
    values: &'a [Value],
) -> Result<&'a [Value], NoMemory>
    ensures { IfOk result (λ rest. (locals.new ≡ given_onto names.now values.now locals.old) × (rest.now ≡ behind_them names.now values.now)) }
{
    let mut left = values;
    'names: for name in names {
        let name = name.copy(alloc)?;
        match left.split_first() {
            Some((value, behind)) => {
                let value = copied(alloc, value)?;
                locals.push(Local::Given(name, true, value))?;
                left = behind;
            }
            None => locals.push(Local::Given(name, true, Value::Undefined))?,
        }
    }
    Ok(left)
}

/// The locals with which statements begin, from the first on: their own `let`s over parameters and `var`s. Of the parameters those
/// of a signal come first.
#[tactic(auto, using(js_acting::proofs::GivenLemmas::begun_scopes))]
pub(crate) fn begun_locals(
    frames: &mut Stack,
    alloc: Global,
    tree: &Tree,
    given: &[Text],
    names: &[usize],
    values: &[Value],
    first: Option<usize>,
) -> Result<Locals, NoMemory>
    ensures { IfOk result (λ ls. scopes_of (laid tree.now) ls ≡ lets_of (stmts_in (row_from (laid tree.now) first)) ∷ parameters (given.now ++ map (name_of (laid tree.now)) names.now) values.now (vars_of_all (stmts_in (row_from (laid tree.now) first)) []) ∷ []) }
{
    let mut locals = frames.take_locals(alloc);
    let vars = var_names(tree, first, frames.take_names(alloc))?;
    locals.push(Local::Scope)?;
    let room = declare(&mut locals, true, vars)?;
    let rest = bind_given(&mut locals, alloc, given, values)?;
    bind(&mut locals, alloc, names, rest)?;
    locals.push(Local::Scope)?;
    let lets = let_names(tree, first, room)?;
    let room = declare(&mut locals, false, lets)?;
    frames.keep_names(room);
    Ok(locals)
}
