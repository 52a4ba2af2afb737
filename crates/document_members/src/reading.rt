//! Reading members.

ghost use Rattle.std.specs.Prelude.{IfOk};
ghost use Rattle.document_members.specs.declared.form.Form.TheVariants as f;
ghost use Rattle.document_members.specs.Forms.{made};
ghost use Rattle.document_members.specs.Parts.{items};
ghost use Rattle.document_members.specs.Members.{Says, SaysForm, ReadsMember, ReadsMembers};

use crate::form::{Form, form_at};
use crate::member::Member;
use crate::parts::{head_at, pop_members, pop_name, pop_parameters, pop_path, pop_place};
use document_rows::MemberRow;
use qml_base::{NoMemory, Place};
use qml_syntax::{Adjective, Tree};
use std::alloc::Global;

/// The members of these rows, in their order.
pub fn read_members(alloc: Global, tree: &Tree, rows: &[MemberRow]) -> Result<Vec<Member>, NoMemory>
    ensures { IfOk result (λ members. ReadsMembers tree.now rows.now members.items) }
{
    let mut parts = Vec::new(alloc);
    let mut members = Vec::new(alloc);
    'rows: for row in rows {
        members.push(read_member(alloc, tree, row.node, &mut parts)?)?;
    }
    Ok(members)
}

/// The member at a place; what `parts` holds is lost.
#[tactic(auto, using(crate::proofs::ReadLemmas::reads))]
pub fn read_member(
    alloc: Global,
    tree: &Tree,
    at: usize,
    parts: &mut Vec<usize>,
) -> Result<Member, NoMemory>
    ensures { IfOk result (λ member. ReadsMember tree.now at member) }
{
    parts.clear();
    let _root = tree.root();
    let _node = tree.open(at, parts)?;
    let form = form_at(tree, at);
    let member = read_form(alloc, tree, form, at, parts)?;
    Ok(member)
}

/// The member of a form, of these parts.
fn read_form(
    alloc: Global,
    tree: &Tree,
    form: Form,
    at: usize,
    parts: &mut Vec<usize>,
) -> Result<Member, NoMemory>
    ensures { IfOk result (λ member. SaysForm tree.now form (items tree.now parts.old.items) member) }
{
    match form {
        Form::Id(word) => read_id(alloc, tree, word, parts),
        Form::Property(place, adjective) => read_property(alloc, tree, place, adjective, parts),
        Form::Bare(place, adjective) => read_bare(alloc, tree, place, adjective, parts),
        Form::Alias(place, default) => read_alias(alloc, tree, place, default, parts),
        Form::Signal(place) => read_signal(alloc, tree, place, parts),
        Form::SignalWith(place) => read_signal_with(alloc, tree, place, parts),
        Form::Method => read_method(alloc, tree, parts),
        Form::Given => read_given(alloc, tree, parts),
        Form::Group => read_group(alloc, tree, parts),
        Form::Child => Ok(read_child(tree, parts)),
        Form::Other => Ok(Member::Child { object: at }),
    }
}

#[tactic(auto, using(crate::proofs::ReadLemmas::id_says))]
fn read_id(
    alloc: Global,
    tree: &Tree,
    word: Place,
    parts: &mut Vec<usize>,
) -> Result<Member, NoMemory>
    ensures { IfOk result (λ member. Says tree.now (made (f.Id word) (items tree.now parts.old.items)) member) }
{
    let name = pop_name(alloc, tree, parts)?;
    Ok(Member::Id {
        word,
        name: name.text,
        at: name.at,
    })
}

#[tactic(auto, using(crate::proofs::ReadLemmas::property_says))]
fn read_property(
    alloc: Global,
    tree: &Tree,
    place: Place,
    adjective: Adjective,
    parts: &mut Vec<usize>,
) -> Result<Member, NoMemory>
    ensures { IfOk result (λ member.
        Says tree.now (made (f.Property place adjective) (items tree.now parts.old.items)) member) }
{
    let value = pop_place(tree, parts);
    let name = pop_name(alloc, tree, parts)?;
    let kind = pop_place(tree, parts);
    Ok(Member::Property {
        at: place,
        adjective,
        kind,
        name: name.text,
        name_at: name.at,
        value: Some(value),
    })
}

#[tactic(auto, using(crate::proofs::ReadLemmas::bare_says))]
fn read_bare(
    alloc: Global,
    tree: &Tree,
    place: Place,
    adjective: Adjective,
    parts: &mut Vec<usize>,
) -> Result<Member, NoMemory>
    ensures { IfOk result (λ member.
        Says tree.now (made (f.Bare place adjective) (items tree.now parts.old.items)) member) }
{
    let name = pop_name(alloc, tree, parts)?;
    let kind = pop_place(tree, parts);
    Ok(Member::Property {
        at: place,
        adjective,
        kind,
        name: name.text,
        name_at: name.at,
        value: None,
    })
}

#[tactic(auto, using(crate::proofs::ReadLemmas::alias_says))]
fn read_alias(
    alloc: Global,
    tree: &Tree,
    place: Place,
    default: bool,
    parts: &mut Vec<usize>,
) -> Result<Member, NoMemory>
    ensures { IfOk result (λ member.
        Says tree.now (made (f.Alias place default) (items tree.now parts.old.items)) member) }
{
    let target = pop_path(alloc, tree, parts)?;
    let name = pop_name(alloc, tree, parts)?;
    Ok(Member::Alias {
        at: place,
        default,
        name: name.text,
        name_at: name.at,
        target,
    })
}

#[tactic(auto, using(crate::proofs::ReadLemmas::signal_says))]
fn read_signal(
    alloc: Global,
    tree: &Tree,
    place: Place,
    parts: &mut Vec<usize>,
) -> Result<Member, NoMemory>
    ensures { IfOk result (λ member. Says tree.now (made (f.Signal place) (items tree.now parts.old.items)) member) }
{
    let name = pop_name(alloc, tree, parts)?;
    Ok(Member::Signal {
        at: place,
        name: name.text,
        name_at: name.at,
        parameters: Vec::new(alloc),
    })
}

#[tactic(auto, using(crate::proofs::ReadLemmas::signal_with_says))]
fn read_signal_with(
    alloc: Global,
    tree: &Tree,
    place: Place,
    parts: &mut Vec<usize>,
) -> Result<Member, NoMemory>
    ensures { IfOk result (λ member.
        Says tree.now (made (f.SignalWith place) (items tree.now parts.old.items)) member) }
{
    let parameters = pop_parameters(alloc, tree, parts)?;
    let name = pop_name(alloc, tree, parts)?;
    Ok(Member::Signal {
        at: place,
        name: name.text,
        name_at: name.at,
        parameters,
    })
}

#[tactic(auto, using(crate::proofs::ReadLemmas::method_says))]
fn read_method(alloc: Global, tree: &Tree, parts: &mut Vec<usize>) -> Result<Member, NoMemory>
    ensures { IfOk result (λ member. Says tree.now (made f.Method (items tree.now parts.old.items)) member) }
{
    let function = pop_place(tree, parts);
    let head = head_at(alloc, tree, function)?;
    Ok(Member::Method {
        at: head.word,
        function,
        name: head.name.text,
        name_at: head.name.at,
    })
}

#[tactic(auto, using(crate::proofs::ReadLemmas::given_says))]
fn read_given(alloc: Global, tree: &Tree, parts: &mut Vec<usize>) -> Result<Member, NoMemory>
    ensures { IfOk result (λ member. Says tree.now (made f.Given (items tree.now parts.old.items)) member) }
{
    let value = pop_place(tree, parts);
    let path = pop_path(alloc, tree, parts)?;
    Ok(Member::Given { path, value })
}

#[tactic(auto, using(crate::proofs::ReadLemmas::group_says))]
fn read_group(alloc: Global, tree: &Tree, parts: &mut Vec<usize>) -> Result<Member, NoMemory>
    ensures { IfOk result (λ member. Says tree.now (made f.Group (items tree.now parts.old.items)) member) }
{
    pop_members(tree, parts);
    let path = pop_path(alloc, tree, parts)?;
    Ok(Member::Group { path })
}

#[tactic(auto, using(crate::proofs::ReadLemmas::child_says))]
fn read_child(tree: &Tree, parts: &mut Vec<usize>) -> Member
    ensures { Says tree.now (made f.Child (items tree.now parts.old.items)) result }
{
    Member::Child {
        object: pop_place(tree, parts),
    }
}
