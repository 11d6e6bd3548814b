//! Components (Q.773, 4.2.2): the questions and answers within a dialogue.

ghost use Rattle.std.specs.Prelude.{◌≡◌, ◌<◌, ◌^◌, ◌++◌, ℤ, Option, Some, None, MatchOption, OnOk};
ghost use Rattle.fp_ber.specs.Canon.{canon};
ghost use Rattle.fp_ber.specs.Putting.{EndsWith};
ghost use Rattle.fp_ber.specs.declared.element.Class.TheVariants as classes;
ghost use Rattle.fp_ber.specs.Tree as tree;
ghost use Rattle.fp_ber.specs.Tree.{Tree};
ghost use Rattle.fp_ber.specs.Lent.{lent_tree, lent_trees};
ghost use Rattle.fp_q773.specs.declared.problem.GeneralProblem.TheVariants as general;
ghost use Rattle.fp_q773.specs.Value as value;
ghost use Rattle.fp_q773.specs.View.{invoke_of, component_of};
ghost use Rattle.fp_q773.specs.Copied.{ComponentHasTags};
ghost use Rattle.fp_q773.specs.Room.{component_room};
ghost use Rattle.fp_q773.specs.Grammar.{BeginsWith, IsComponent};
ghost use Rattle.fp_q773.specs.Named.{HasNamedProblem};
ghost use Rattle.fp_q773.specs.Writable.{IsWritable};
ghost use Rattle.fp_q773.specs.Written.{component_tree, IsReadBack};

use crate::identifier::identifier_of;
use crate::invoke::{INVOKE, Invoke};
use crate::problem::GeneralProblem;
use crate::reject::{REJECT, Reject};
use crate::return_error::{RETURN_ERROR, ReturnError};
use crate::return_result::ReturnResult;
use fp_ber::{Class, ElementRef, Elements, Writer};
use std::alloc::AllocError;

/// The number of the context tag of a ReturnResultLast.
const RETURN_RESULT_LAST: u16 = 2;
/// The number of the context tag of a ReturnResultNotLast.
const RETURN_RESULT_NOT_LAST: u16 = 7;

/// A component.
#[derive(Clone, Copy, Debug)]
pub enum Component<'a> {
    /// A request for an operation.
    Invoke(Invoke<'a>),
    /// The result of an operation, or its last part.
    ReturnResultLast(ReturnResult<'a>),
    /// The failure of an operation.
    ReturnError(ReturnError<'a>),
    /// The refusal of a component.
    Reject(Reject),
    /// A part of an operation's result; others follow.
    ReturnResultNotLast(ReturnResult<'a>),
    /// A faulty component: none of the others. It has the fields of the Reject that it gets.
    Faulty {
        /// The invoke identifier, if the component has a known tag and begins with one.
        identifier: Option<i8>,
        /// The problem: unrecognized component, or mistyped component.
        problem: GeneralProblem,
    },
}

/// The invoke identifier, if the component begins with one.
fn first_identifier(members: &Elements<'_>) -> Option<i8>
    ensures { BeginsWith (lent_trees members.now) result }
{
    let Some(members) = members.split_first() else {
        return None;
    };
    let Some(identifier) = identifier_of(&members.first) else {
        return None;
    };
    Some(identifier)
}

/// The faulty component for a known tag with other contents.
fn mistyped<'a>(members: &Elements<'a>) -> Component<'a>
    ensures found { (identifier : Option ℤ) × BeginsWith (lent_trees members.now) identifier
        × (component_of result ≡ value.faulty identifier general.MistypedComponent) }
    ensures named { HasNamedProblem result }
{
    Component::Faulty {
        identifier: first_identifier(members),
        problem: GeneralProblem::MistypedComponent,
    }
}

/// Reads the contents of an Invoke.
fn invoke_in<'a>(members: &Elements<'a>) -> Component<'a>
    ensures found { IsComponent (tree.constructed classes.Context 1 (lent_trees members.now)) (component_of result) }
    ensures named { HasNamedProblem result }
{
    let Some(invoke) = Invoke::read(members) else {
        return mistyped(members);
    };
    Component::Invoke(invoke)
}

/// Reads the contents of a ReturnResultLast.
fn return_result_last_in<'a>(members: &Elements<'a>) -> Component<'a>
    ensures found { IsComponent (tree.constructed classes.Context 2 (lent_trees members.now)) (component_of result) }
    ensures named { HasNamedProblem result }
{
    let Some(result) = ReturnResult::read(members) else {
        return mistyped(members);
    };
    Component::ReturnResultLast(result)
}

/// Reads the contents of a ReturnError.
fn return_error_in<'a>(members: &Elements<'a>) -> Component<'a>
    ensures found { IsComponent (tree.constructed classes.Context 3 (lent_trees members.now)) (component_of result) }
    ensures named { HasNamedProblem result }
{
    let Some(error) = ReturnError::read(members) else {
        return mistyped(members);
    };
    Component::ReturnError(error)
}

/// Reads the contents of a Reject.
fn reject_in<'a>(members: &Elements<'a>) -> Component<'a>
    ensures found { IsComponent (tree.constructed classes.Context 4 (lent_trees members.now)) (component_of result) }
    ensures named { HasNamedProblem result }
{
    let Some(reject) = Reject::read(members) else {
        return mistyped(members);
    };
    Component::Reject(reject)
}

/// Reads the contents of a ReturnResultNotLast.
fn return_result_not_last_in<'a>(members: &Elements<'a>) -> Component<'a>
    ensures found { IsComponent (tree.constructed classes.Context 7 (lent_trees members.now)) (component_of result) }
    ensures named { HasNamedProblem result }
{
    let Some(result) = ReturnResult::read(members) else {
        return mistyped(members);
    };
    Component::ReturnResultNotLast(result)
}

impl<'a> Component<'a> {
    /// The Invoke in the component; `None` for any other component.
    pub fn as_invoke(&self) -> Option<&Invoke<'a>>
        ensures { MatchOption result
            ((identifier : ℤ) (linked : Option ℤ) (code : value.CodeValue) (parameter : Option Tree)
            → component_of self.now ≡ value.invoke identifier linked code parameter → ⊥)
            (λ invoke. component_of self.now ≡ invoke_of invoke.now) }
    {
        match self {
            Component::Invoke(invoke) => Some(invoke),
            _ => None,
        }
    }

    /// Whether the component is faulty.
    pub fn is_faulty(&self) -> bool
        ensures { result ≡ value.is_faulty (component_of self.now) }
    {
        match self {
            Component::Faulty { .. } => true,
            _ => false,
        }
    }

    /// Reads a component. Any element gives one: if no other fits, a faulty one.
    pub(crate) fn read(element: &ElementRef<'a>) -> Component<'a>
        ensures found { IsComponent (lent_tree element.now) (component_of result) }
        ensures named { HasNamedProblem result }
    {
        if let Some(members) = element.children_with_tag(Class::Context, INVOKE) {
            return invoke_in(&members);
        }
        if let Some(members) = element.children_with_tag(Class::Context, RETURN_RESULT_LAST) {
            return return_result_last_in(&members);
        }
        if let Some(members) = element.children_with_tag(Class::Context, RETURN_ERROR) {
            return return_error_in(&members);
        }
        if let Some(members) = element.children_with_tag(Class::Context, REJECT) {
            return reject_in(&members);
        }
        if let Some(members) = element.children_with_tag(Class::Context, RETURN_RESULT_NOT_LAST) {
            return return_result_not_last_in(&members);
        }
        Component::Faulty {
            identifier: None,
            problem: GeneralProblem::UnrecognizedComponent,
        }
    }

    /// Writes a component.
    pub(crate) fn write(&self, out: &mut Writer) -> Result<(), AllocError>
        requires writable { IsWritable (component_of self.now) }
        requires tags { ComponentHasTags (component_of self.now) }
        requires room { component_room (component_of self.now) < 2 ^ 32 }
        ensures exact { OnOk result (out.new ≡ canon (component_tree (component_of self.now)) ++ out.old) }
        ensures stays { EndsWith out.new out.old }
        ensures found { OnOk result (IsReadBack (component_of self.now)) }
    {
        match self {
            Component::Invoke(invoke) => invoke.write(out),
            Component::ReturnResultLast(result) => {
                let behind = out.len();
                result.write(out)?;
                out.put_constructed(Class::Context, RETURN_RESULT_LAST, behind)
            }
            Component::ReturnError(error) => error.write(out),
            Component::Reject(reject) => reject.write(out),
            Component::ReturnResultNotLast(result) => {
                let behind = out.len();
                result.write(out)?;
                out.put_constructed(Class::Context, RETURN_RESULT_NOT_LAST, behind)
            }
            Component::Faulty { .. } => unreachable!(),
        }
    }
}
