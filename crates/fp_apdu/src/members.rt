//! The elements in an element.

ghost use Rattle.std.specs.Prelude.{◌≡◌, MatchOption};
ghost use Rattle.fp_ber.specs.Tree.{Tree, constructed, none, more};
ghost use Rattle.fp_ber.specs.Lent.{lent_tree, lent_trees};

use fp_ber::{Class, ElementRef, Elements};

/// The only element; `None` if there are none or several.
pub(crate) fn only<'a>(elements: &Elements<'a>) -> Option<ElementRef<'a>>
    ensures { MatchOption result ((t : Tree) → lent_trees elements.now ≡ more t none → ⊥)
        (λ element. lent_trees elements.now ≡ more (lent_tree element) none) }
{
    let split = elements.split_first()?;
    if !split.rest.is_empty() {
        return None;
    }
    Some(split.first)
}

/// The only element in a constructed element with this tag; `None` for any other element.
pub(crate) fn only_in<'a>(
    parent: &ElementRef<'a>,
    class: Class,
    number: u16,
) -> Option<ElementRef<'a>>
    ensures { MatchOption result ((t : Tree) → lent_tree parent.now ≡ constructed class number (more t none) → ⊥)
        (λ child. lent_tree parent.now ≡ constructed class number (more (lent_tree child) none)) }
{
    let children = parent.children_with_tag(class, number)?;
    only(&children)
}
