//! An element of BER in memory of its own.

ghost use Rattle.std.specs.Prelude.{◌≡◌, MatchOption, List, ℕ};
ghost use Rattle.fp_ber.specs.Tree as tree;
ghost use Rattle.fp_ber.specs.View.{tree_of, forest_of};

/// The class of a tag (X.690, 8.1.2.2).
#[derive(Clone, Copy, Debug, PartialEq, Eq)]
pub enum Class {
    /// The types of ASN.1 itself.
    Universal,
    /// The messages and components of TCAP.
    Application,
    /// The members of a type.
    Context,
    /// For private use.
    Private,
}

/// An element: a tag and its contents (X.690, 8.1.1).
#[cycle(element)]
#[derive(Debug, Drop)]
pub struct Element {
    /// The class of the tag.
    pub class: Class,
    /// The number of the tag, 0 to 16,383. In the universal class number 0 marks an end of
    /// contents, and no element has it.
    pub number: u16,
    /// The contents.
    pub body: Body,
}

/// The contents of an element (X.690, 8.1.4).
#[cycle(element)]
#[derive(Debug, Drop)]
pub enum Body {
    /// Octets.
    Primitive(Vec<u8>),
    /// Elements, one after another.
    Constructed(Vec<Element>),
}

impl Element {
    /// A primitive element with this tag and these octets. Takes no memory.
    pub fn primitive(class: Class, number: u16, octets: Vec<u8>) -> Element
        ensures { tree_of result ≡ tree.primitive class number octets.items }
    {
        Element {
            class,
            number,
            body: Body::Primitive(octets),
        }
    }

    /// A constructed element with this tag and these elements in it. Takes no memory.
    pub fn constructed(class: Class, number: u16, children: Vec<Element>) -> Element
        ensures { tree_of result ≡ tree.constructed class number (forest_of children.items) }
    {
        Element {
            class,
            number,
            body: Body::Constructed(children),
        }
    }

    /// The octets of a primitive element, and `None` for a constructed one.
    pub fn octets(&self) -> Option<&[u8]>
        ensures { MatchOption result
            ((children : tree.Trees) × (tree_of self.now ≡ tree.constructed self.now.class self.now.number children))
            (λ x. tree_of self.now ≡ tree.primitive self.now.class self.now.number x.now) }
    {
        match &self.body {
            Body::Primitive(octets) => Some(octets.as_slice()),
            Body::Constructed(_) => None,
        }
    }

    /// The elements in a constructed element, and `None` for a primitive one.
    pub fn children(&self) -> Option<&[Element]>
        ensures { MatchOption result
            ((octets : List ℕ) × (tree_of self.now ≡ tree.primitive self.now.class self.now.number octets))
            (λ x. tree_of self.now ≡ tree.constructed self.now.class self.now.number (forest_of x.now)) }
    {
        match &self.body {
            Body::Primitive(_) => None,
            Body::Constructed(children) => Some(children.as_slice()),
        }
    }

    /// The octets of a primitive element of this tag, and `None` for any other element.
    pub fn octets_with_tag(&self, class: Class, number: u16) -> Option<&[u8]>
        ensures { MatchOption result
            ((octets : List ℕ) → tree_of self.now ≡ tree.primitive class number octets → ⊥)
            (λ x. tree_of self.now ≡ tree.primitive class number x.now) }
    {
        if self.class != class || self.number != number {
            return None;
        }
        self.octets()
    }

    /// The elements in a constructed element of this tag, and `None` for any other element.
    pub fn children_with_tag(&self, class: Class, number: u16) -> Option<&[Element]>
        ensures { MatchOption result
            ((children : tree.Trees) → tree_of self.now ≡ tree.constructed class number children → ⊥)
            (λ x. tree_of self.now ≡ tree.constructed class number (forest_of x.now)) }
    {
        if self.class != class || self.number != number {
            return None;
        }
        self.children()
    }
}
