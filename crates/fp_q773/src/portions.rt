//! The dialogue portion and the component portion of a message (Q.773, 4.2).

ghost use Rattle.std.specs.Prelude.{◌≡◌, ◌≢◌, ◌<◌, ◌≤◌, ◌+◌, ◌^◌, ◌++◌, ℕ, All, [], Option, List, IfOk, IfErr, IfSome, IfNone, OnOk, OnErr, length, map};
ghost use Rattle.fp_ber.specs.Canon.{canon_of_all};
ghost use Rattle.fp_ber.specs.Putting.{EndsWith};
ghost use Rattle.fp_ber.specs.Tree as tree;
ghost use Rattle.fp_ber.specs.Tree.{Tree};
ghost use Rattle.fp_ber.specs.Lent.{lent_tree, lent_trees};
ghost use Rattle.fp_q773.specs.Value.{ComponentValue};
ghost use Rattle.fp_q773.specs.View.{component_of, tree_in};
ghost use Rattle.fp_q773.specs.Fault.{Refused};
ghost use Rattle.fp_q773.specs.Copied.{ComponentsHaveTags, CopyHasTags};
ghost use Rattle.fp_q773.specs.Room.{components_room, tree_room};
ghost use Rattle.fp_q773.specs.Grammar.{AreComponents, IsPortion, IsDialogue, ArePortions};
ghost use Rattle.fp_q773.specs.Named.{HasNamedProblem};
ghost use Rattle.fp_q773.specs.Writable.{AllWritable};
ghost use Rattle.fp_q773.specs.Written.{component_trees, portion_trees, portions_trees, IsReadBack};

use crate::component::Component;
use crate::fault::MessageFault;
use crate::members::write_optional;
use fp_ber::{Class, ElementRef, Elements, Writer};
use std::alloc::{AllocError, Global};

/// The number of the application tag of a dialogue portion.
pub const DIALOGUE_PORTION: u16 = 11;
/// The number of the application tag of a component portion.
const COMPONENT_PORTION: u16 = 12;

/// A dialogue portion, if there is one, and components.
#[derive(Drop)]
pub struct Portions<'a> {
    pub dialogue: Option<ElementRef<'a>>,
    pub components: Vec<Component<'a>>,
}

/// A dialogue portion, if there is one, and the elements after it.
#[derive(Clone, Copy)]
pub struct Dialogue<'a> {
    pub element: Option<ElementRef<'a>>,
    pub rest: Elements<'a>,
}

/// Reads a dialogue portion, if the first element is one.
pub fn dialogue_at<'a>(members: &Elements<'a>) -> Dialogue<'a>
    ensures some { IfSome result.element (λ dialogue. (lent_trees members.now ≡ tree.more (lent_tree dialogue) (lent_trees result.rest))
        × IsDialogue (lent_tree dialogue)) }
    ensures none { IfNone result.element ((lent_trees result.rest ≡ lent_trees members.now)
        × ((first : Tree) (rest : tree.Trees) → lent_trees members.now ≡ tree.more first rest → IsDialogue first → ⊥)) }
{
    let Some(split) = members.split_first() else {
        return Dialogue {
            element: None,
            rest: *members,
        };
    };
    if split
        .first
        .children_with_tag(Class::Application, DIALOGUE_PORTION)
        .is_none()
    {
        return Dialogue {
            element: None,
            rest: *members,
        };
    }
    Dialogue {
        element: Some(split.first),
        rest: split.rest,
    }
}

/// Reads components, in their order.
#[inline(always)]
fn components_in<'a>(
    alloc: Global,
    members: &Elements<'a>,
) -> Result<Vec<Component<'a>>, AllocError>
    ensures found { IfOk result (λ v. AreComponents (lent_trees members.now) (map component_of v.items)) }
    ensures named { IfOk result (λ v. All HasNamedProblem v.items) }
{
    let mut components = Vec::new(alloc);
    let mut left = *members;
    'members: while let Some(split) = left.split_first() {
        components.push(Component::read(&split.first))?;
        left = split.rest;
    }
    Ok(components)
}

/// Reads a component portion, if there is one.
#[inline(always)]
fn portion_in<'a>(alloc: Global, members: &Elements<'a>) -> Result<Vec<Component<'a>>, MessageFault>
    ensures found { IfOk result (λ v. IsPortion (lent_trees members.now) (map component_of v.items)) }
    ensures named { IfOk result (λ v. All HasNamedProblem v.items) }
    ensures fault { IfErr result (λ fault. Refused fault ((components : List ComponentValue)
        → IsPortion (lent_trees members.now) components → ⊥)) }
{
    let Some(portion) = members.split_first() else {
        return Ok(Vec::new(alloc));
    };
    if !portion.rest.is_empty() {
        return Err(MessageFault::Badly);
    }
    let Some(members) = portion
        .first
        .children_with_tag(Class::Application, COMPONENT_PORTION)
    else {
        return Err(MessageFault::Badly);
    };
    let components = components_in(alloc, &members)?;
    Ok(components)
}

impl<'a> Portions<'a> {
    /// Reads both portions.
    #[inline(always)]
    pub fn read(alloc: Global, members: &Elements<'a>) -> Result<Portions<'a>, MessageFault>
        ensures found { IfOk result (λ p. ArePortions (lent_trees members.now) (tree_in p.dialogue)
            (map component_of p.components.items)) }
        ensures named { IfOk result (λ p. All HasNamedProblem p.components.items) }
        ensures fault { IfErr result (λ fault. Refused fault ((dialogue : Option Tree) (components : List ComponentValue)
            → ArePortions (lent_trees members.now) dialogue components → ⊥)) }
    {
        let dialogue = dialogue_at(members);
        let components = portion_in(alloc, &dialogue.rest)?;
        Ok(Portions {
            dialogue: dialogue.element,
            components,
        })
    }
}

/// Writes components, the last one first.
fn write_components(components: &[Component<'_>], out: &mut Writer) -> Result<(), AllocError>
    requires writable { AllWritable (map component_of components.now) }
    requires tags { ComponentsHaveTags (map component_of components.now) }
    requires room { components_room (map component_of components.now) < 2 ^ 32 }
    ensures exact { OnOk result (out.new ≡ canon_of_all (component_trees (map component_of components.now)) ++ out.old) }
    ensures stays { EndsWith out.new out.old }
    ensures found { OnOk result (All IsReadBack (map component_of components.now)) }
{
    'components: for index in (0..components.len()).rev() {
        components[index].write(out)?;
    }
    Ok(())
}

/// Completes a component portion. You must first put the spellings of its components, at least one; the last `behind`
/// octets, which were there before, lie after the portion. If memory runs out, the octets are unchanged.
pub fn write_component_portion(behind: usize, out: &mut Writer) -> Result<(), AllocError>
    requires { behind ≤ length out.old }
    ensures exact { (components : List ComponentValue) (rest : List ℕ) → components ≢ []
        → out.old ≡ canon_of_all (component_trees components) ++ rest → length rest ≡ behind
        → OnOk result (out.new ≡ canon_of_all (portion_trees components) ++ rest) }
    ensures err { OnErr result (out.new ≡ out.old) }
    ensures stays { EndsWith out.new out.old }
{
    out.put_constructed(Class::Application, COMPONENT_PORTION, behind)
}

/// Writes a component portion, if there are components.
fn write_portion(components: &[Component<'_>], out: &mut Writer) -> Result<(), AllocError>
    requires writable { AllWritable (map component_of components.now) }
    requires tags { ComponentsHaveTags (map component_of components.now) }
    requires room { components_room (map component_of components.now) < 2 ^ 32 }
    ensures exact { OnOk result (out.new ≡ canon_of_all (portion_trees (map component_of components.now)) ++ out.old) }
    ensures stays { EndsWith out.new out.old }
    ensures found { OnOk result (All IsReadBack (map component_of components.now)) }
{
    if components.is_empty() {
        return Ok(());
    }
    let behind = out.len();
    write_components(components, out)?;
    write_component_portion(behind, out)
}

/// Writes the portions of a message. No component may be faulty, and the tags and sizes must be in range.
pub fn write_portions(
    dialogue: Option<ElementRef<'_>>,
    components: &[Component<'_>],
    out: &mut Writer,
) -> Result<(), AllocError>
    requires writable { AllWritable (map component_of components.now) }
    requires dialogue_tags { CopyHasTags (tree_in dialogue) }
    requires tags { ComponentsHaveTags (map component_of components.now) }
    requires room { tree_room (tree_in dialogue) + components_room (map component_of components.now) < 2 ^ 32 }
    ensures exact { OnOk result (out.new
        ≡ canon_of_all (portions_trees (tree_in dialogue.entry) (map component_of components.now)) ++ out.old) }
    ensures stays { EndsWith out.new out.old }
    ensures found { OnOk result (All IsReadBack (map component_of components.now)) }
{
    write_portion(components, out)?;
    write_optional(dialogue, out)
}
