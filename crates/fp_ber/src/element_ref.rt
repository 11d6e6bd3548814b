//! References to elements: to owned ones, or to nodes.

ghost use Rattle.std.specs.Prelude.{◌≡◌, ◌<◌, MatchOption, List, ℕ, length};
ghost use Rattle.fp_ber.specs.Lent.{lent_tree, lent_trees};
ghost use Rattle.fp_ber.specs.Nodes.{heads_in, nodes_tree, trees_in};
ghost use Rattle.fp_ber.specs.Tree as tree;
ghost use Rattle.fp_ber.specs.Tree.{are_none, class_of, number_of};
ghost use Rattle.fp_ber.specs.View.{forest_of};

use crate::element::{Class, Element};
use crate::node::Node;

/// A borrowed element. Contracts see the same tree in both forms.
#[derive(Clone, Copy, Debug)]
pub enum ElementRef<'a> {
    /// An element in memory of its own.
    Owned(&'a Element),
    /// A node, and the nodes of the elements in it.
    Node {
        /// The node.
        node: &'a Node<'a>,
        /// The nodes of the elements inside it.
        below: &'a [Node<'a>],
    },
}

/// Borrowed elements, one after another.
#[derive(Clone, Copy, Debug)]
pub enum Elements<'a> {
    /// Elements in memory of their own.
    Owned(&'a [Element]),
    /// Nodes: one for each element, followed by the nodes of the elements in it.
    Nodes(&'a [Node<'a>]),
}

/// The first element, and the others.
#[derive(Clone, Copy, Debug)]
pub struct Split<'a> {
    /// The first element.
    pub first: ElementRef<'a>,
    /// The elements after the first.
    pub rest: Elements<'a>,
}

/// The first element in a list of nodes, and the others.
fn split_nodes<'a>(nodes: &'a [Node<'a>]) -> Option<Split<'a>>
    ensures { MatchOption result (trees_in (heads_in nodes.now) ≡ tree.none)
        (λ split. trees_in (heads_in nodes.now) ≡ tree.more (lent_tree split.first) (lent_trees split.rest)) }
{
    let Some((node, others)) = nodes.split_first() else {
        return None;
    };
    let (below, rest) = others.split_at(node.below.min(others.len()));
    Some(Split {
        first: ElementRef::Node { node, below },
        rest: Elements::Nodes(rest),
    })
}

/// The first element in a list of elements, and the others.
fn split_owned(elements: &[Element]) -> Option<Split<'_>>
    ensures { MatchOption result (forest_of elements.now ≡ tree.none)
        (λ split. forest_of elements.now ≡ tree.more (lent_tree split.first) (lent_trees split.rest)) }
{
    let Some((first, rest)) = elements.split_first() else {
        return None;
    };
    Some(Split {
        first: ElementRef::Owned(first),
        rest: Elements::Owned(rest),
    })
}

impl<'a> Elements<'a> {
    /// Whether there is no element.
    pub fn is_empty(&self) -> bool
        ensures { result ≡ are_none (lent_trees self.now) }
    {
        match self {
            Elements::Owned(elements) => elements.is_empty(),
            Elements::Nodes(nodes) => nodes.is_empty(),
        }
    }

    /// The first element and the others; `None` for no elements.
    pub fn split_first(&self) -> Option<Split<'a>>
        ensures { MatchOption result (lent_trees self.now ≡ tree.none)
            (λ split. lent_trees self.now ≡ tree.more (lent_tree split.first) (lent_trees split.rest)) }
    {
        match self {
            Elements::Owned(elements) => split_owned(elements),
            Elements::Nodes(nodes) => split_nodes(nodes),
        }
    }
}

impl<'a> ElementRef<'a> {
    /// The element in the nodes that [`read_nodes`](crate::read_nodes) read: the first is its node, all others are in
    /// it. There must be one.
    pub fn of_nodes(nodes: &'a [Node<'a>]) -> ElementRef<'a>
        requires { 0 < length nodes.now }
        ensures { lent_tree result ≡ nodes_tree nodes.now }
    {
        match nodes {
            [node, below @ ..] => ElementRef::Node { node, below },
            [] => unreachable!(),
        }
    }

    /// The class of the tag.
    pub fn class(&self) -> Class
        ensures { result ≡ class_of (lent_tree self.now) }
    {
        match self {
            ElementRef::Owned(element) => element.class,
            ElementRef::Node { node, .. } => node.class,
        }
    }

    /// The number of the tag, 0 to 16,383.
    pub fn number(&self) -> u16
        ensures { result ≡ number_of (lent_tree self.now) }
    {
        match self {
            ElementRef::Owned(element) => element.number,
            ElementRef::Node { node, .. } => node.number,
        }
    }

    /// The octets of a primitive element, and `None` for a constructed one.
    pub fn octets(&self) -> Option<&'a [u8]>
        ensures { MatchOption result
            ((children : tree.Trees) × (lent_tree self.now
            ≡ tree.constructed (class_of (lent_tree self.now)) (number_of (lent_tree self.now)) children))
            (λ x. lent_tree self.now ≡ tree.primitive (class_of (lent_tree self.now)) (number_of (lent_tree self.now)) x.now) }
    {
        match self {
            ElementRef::Owned(element) => element.octets(),
            ElementRef::Node { node, .. } => {
                if node.constructed {
                    return None;
                }
                Some(node.octets)
            }
        }
    }

    /// The elements in a constructed element, and `None` for a primitive one.
    pub fn children(&self) -> Option<Elements<'a>>
        ensures { MatchOption result
            ((octets : List ℕ) × (lent_tree self.now
            ≡ tree.primitive (class_of (lent_tree self.now)) (number_of (lent_tree self.now)) octets))
            (λ x. lent_tree self.now
            ≡ tree.constructed (class_of (lent_tree self.now)) (number_of (lent_tree self.now)) (lent_trees x)) }
    {
        match self {
            ElementRef::Owned(element) => {
                let Some(children) = element.children() else {
                    return None;
                };
                Some(Elements::Owned(children))
            }
            ElementRef::Node { node, below } => {
                if !node.constructed {
                    return None;
                }
                Some(Elements::Nodes(below))
            }
        }
    }

    /// The octets of a primitive element of this tag, and `None` for any other element.
    pub fn octets_with_tag(&self, class: Class, number: u16) -> Option<&'a [u8]>
        ensures { MatchOption result
            ((octets : List ℕ) → lent_tree self.now ≡ tree.primitive class number octets → ⊥)
            (λ x. lent_tree self.now ≡ tree.primitive class number x.now) }
    {
        if self.class() != class || self.number() != number {
            return None;
        }
        self.octets()
    }

    /// The elements in a constructed element of this tag, and `None` for any other element.
    pub fn children_with_tag(&self, class: Class, number: u16) -> Option<Elements<'a>>
        ensures { MatchOption result
            ((children : tree.Trees) → lent_tree self.now ≡ tree.constructed class number children → ⊥)
            (λ x. lent_tree self.now ≡ tree.constructed class number (lent_trees x)) }
    {
        if self.class() != class || self.number() != number {
            return None;
        }
        self.children()
    }
}
