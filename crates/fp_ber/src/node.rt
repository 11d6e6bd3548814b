//! Elements as a list: each is a node, and the nodes of the elements in it follow.

use crate::element::Class;

/// One element without the elements in it: its tag, and its octets if it is primitive.
#[derive(Clone, Copy, Debug)]
pub struct Node<'a> {
    /// The class of the tag.
    pub(crate) class: Class,
    /// Whether the element is constructed.
    pub(crate) constructed: bool,
    /// The number of the tag.
    pub(crate) number: u16,
    /// The number of the following nodes that are in this element.
    pub(crate) below: usize,
    /// The octets of a primitive element, none in a constructed one.
    pub(crate) octets: &'a [u8],
}

impl Node<'static> {
    /// A node for a place that is still unused.
    pub const BLANK: Node<'static> = Node {
        class: Class::Universal,
        constructed: false,
        number: 0,
        below: 0,
        octets: &[],
    };
}
