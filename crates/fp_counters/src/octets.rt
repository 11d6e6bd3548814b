//! The elements in a frame that this end wrote (X.690, 8.1): each tag has one octet, and each length is definite and
//! has at most three octets. Other octets are read without a fault, and no clause speaks of the result.

ghost use Rattle.std.specs.Prelude.{◌≡◌, ◌<◌, ◌≤◌, ◌++◌, ℕ, List, [], drop, get_or, length, true};
ghost use Rattle.fp_ber.specs.Canon.{canon, canon_of_all, length_octets};
ghost use Rattle.fp_ber.specs.declared.element.Class.{Class};
ghost use Rattle.fp_ber.specs.Tree.{Tree, Trees, constructed, number_of, primitive};
ghost use Rattle.fp_counters.specs.Contents.{IsContents};

/// The octet in this place, from 0, and 0 if there is none.
pub fn octet_at(octets: &[u8], place: usize) -> u8
    ensures { result ≡ get_or octets.now place 0 }
{
    octets.get(place).copied().unwrap_or(0)
}

/// The octets after the first `count` ones; none if there are no more.
pub fn after(octets: &[u8], count: usize) -> &[u8]
    ensures is { result.now ≡ drop count octets.now }
    ensures most { length result.now ≤ length octets.now }
{
    octets.get(count..).unwrap_or_default()
}

/// The number of octets of a tag and a length of one octet.
pub const SHORT_HEAD: usize = 2;

/// Whether octets that begin with an element are just that element, with a length of one octet.
pub fn is_short(octets: &[u8]) -> bool
    ensures contents { (class : Class) (number : ℕ) (children : Trees) (rest : List ℕ) → number < 31
        → octets.now ≡ canon (constructed class number children) ++ rest → result ≡ true
        → drop 2 octets.now ≡ canon_of_all children }
    ensures alone { (class : Class) (number : ℕ) (children : Trees) (rest : List ℕ) → number < 31
        → octets.now ≡ canon (constructed class number children) ++ rest → result ≡ true → rest ≡ [] }
{
    let length = octet_at(octets, 1);
    length < 0x80 && octets.len() == SHORT_HEAD + usize::from(length)
}

/// The octets after the first element, whose length has one octet.
pub fn after_short(octets: &[u8]) -> &[u8]
    ensures is { (class : Class) (number : ℕ) (contents rest : List ℕ) → number < 31 → length contents < 128
        → octets.now ≡ canon (primitive class number contents) ++ rest → result.now ≡ rest }
    ensures most { length result.now ≤ length octets.now }
{
    let length = usize::from(octet_at(octets, 1));
    after(octets, SHORT_HEAD + length)
}

/// The length of an element's contents, and the octets that begin with the contents.
#[derive(Clone, Copy)]
pub struct Contents<'a> {
    pub length: usize,
    pub octets: &'a [u8],
}

/// The contents of an element, from the octets after its tag.
fn after_length(octets: &[u8]) -> Contents<'_>
    ensures is { (n : ℕ) (rest : List ℕ) → n < 65536 → octets.now ≡ length_octets n ++ rest → IsContents result n rest }
    ensures most { length result.octets.now ≤ length octets.now }
{
    let first = octet_at(octets, 0);
    let others = after(octets, 1);
    if first < 0x80 {
        return Contents {
            length: usize::from(first),
            octets: others,
        };
    }
    if first == 0x81 {
        return Contents {
            length: usize::from(octet_at(others, 0)),
            octets: after(others, 1),
        };
    }
    Contents {
        length: 0x100 * usize::from(octet_at(others, 0)) + usize::from(octet_at(others, 1)),
        octets: after(others, 2),
    }
}

/// The elements in the first element, and the octets after them.
pub fn contents_of(octets: &[u8]) -> &[u8]
    ensures is { (class : Class) (number : ℕ) (children : Trees) (rest : List ℕ) → number < 31 → length octets.now < 65536
        → octets.now ≡ canon (constructed class number children) ++ rest → result.now ≡ canon_of_all children ++ rest }
    ensures most { length result.now ≤ length octets.now }
{
    after_length(after(octets, 1)).octets
}

/// The octets after the first element.
pub fn after_element(octets: &[u8]) -> &[u8]
    ensures is { (element : Tree) (rest : List ℕ) → number_of element < 31 → length octets.now < 65536
        → octets.now ≡ canon element ++ rest → result.now ≡ rest }
    ensures most { length result.now ≤ length octets.now }
{
    let contents = after_length(after(octets, 1));
    after(contents.octets, contents.length)
}
