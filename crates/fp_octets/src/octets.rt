//! A list of octets with fixed room.

ghost use Rattle.std.specs.Prelude.{◌≡◌, ◌+◌, ◌-◌, ◌<◌, ◌≤◌, ◌↔◌, IsTrue, [], ◌∷◌, ◌++◌, MatchOption, length, take, nat_eq, refl};
ghost use Rattle.std.specs.Cmp.{partial_equiv_from_equiv, partial_order_from_agreeing_total};
ghost use Rattle.std.specs.Cmp.Lexicographic.{pointwise, nat_list_cmp_total, nat_list_eq_equiv, slice_cmp, texts_ties};
ghost use Rattle.std.specs.Ordering.{as_partial_cmp, nat_cmp};

use std::cmp::Ordering;
use std::marker::Model;

/// At most `MOST` octets, stored in the value itself. `MOST` must be at most 255. Contracts see the list of the octets.
#[derive(Clone, Copy, Debug)]
pub struct Octets<const MOST: usize> {
    places: [u8; MOST],
    used: u8,
}

impl<const MOST: usize> Model for Octets<MOST> {
    ghost use Rattle.std.specs.Prelude.{ℕ, List, take, length};
    ghost use Rattle.fp_octets.specs.Padded.{IsPadded, padded, padded-take, length-take-padded};

    ghost Value = { List ℕ };

    ghost view = { λ octets. take octets.used octets.places };

    ghost invariant = { λ octets. IsPadded MOST octets.places octets.used };

    ghost inverse = { λ list. record { places = padded MOST list; used = length list } };

    ghost inverse_ok = { λ octets padding i. record {
      places = padded-take MOST octets.places octets.used padding i;
      used = length-take-padded MOST octets.places octets.used padding i;
    } };
}

/// Whether two arrays are the same. The loop tests every octet and has no early exit, so it compiles to a few
/// comparisons of machine words.
#[inline(always)]
fn same_places<const SIZE: usize>(a: &[u8; SIZE], b: &[u8; SIZE]) -> bool
    ensures { result ≡ pointwise nat_eq a.now b.now }
{
    let mut same = true;
    for at in 0..SIZE {
        same = same & (a[at] == b[at]);
    }
    same
}

/// Two lists are equal exactly if they hold the same octets.
impl<const MOST: usize> PartialEq for Octets<MOST> {
    ghost eq = { λ a b. pointwise nat_eq a b };

    ghost laws = { partial_equiv_from_equiv nat_list_eq_equiv };

    fn eq(&self, other: &Self) -> bool {
        // `&` and not `&&`: with an early exit the compiler couldn't fold the number of octets into the same
        // comparison.
        same_places(&self.places, &other.places) & (self.used == other.used)
    }
}

impl<const MOST: usize> Eq for Octets<MOST> {
    ghost laws = { nat_list_eq_equiv };
}

/// The order of two lists: the first octets that differ decide. If one list begins the other, the shorter is the less.
impl<const MOST: usize> PartialOrd for Octets<MOST> {
    ghost partial_cmp = { as_partial_cmp (slice_cmp nat_cmp) };

    ghost laws = { partial_order_from_agreeing_total (slice_cmp nat_cmp) nat_list_cmp_total (λ x y. refl) texts_ties };

    fn partial_cmp(&self, other: &Self) -> Option<Ordering> {
        Some(self.cmp(other))
    }
}

impl<const MOST: usize> Ord for Octets<MOST> {
    ghost cmp = { slice_cmp nat_cmp };

    ghost total = { nat_list_cmp_total };

    ghost matches_partial_cmp = { λ x y. refl };

    ghost matches_eq = { texts_ties };

    fn cmp(&self, other: &Self) -> Ordering {
        self.as_slice().cmp(other.as_slice())
    }
}

impl<const MOST: usize> Octets<MOST> {
    /// An empty list. `MOST` must be at most 255.
    pub fn new() -> Self
        requires { MOST ≤ 255 }
        ensures { result ≡ [] }
    {
        Octets {
            places: [0; MOST],
            used: 0,
        }
    }

    /// A list of these octets; `None` if there are more than `MOST`, which must be at most 255.
    pub fn from_slice(octets: &[u8]) -> Option<Self>
        requires { MOST ≤ 255 }
        ensures { MatchOption result (MOST < length octets.now) (λ list. list ≡ octets.now) }
    {
        if octets.len() > MOST {
            return None;
        }
        let mut places = [0; MOST];
        places[..octets.len()].copy_from_slice(octets);
        Some(Octets {
            places,
            used: octets.len() as u8,
        })
    }

    /// The number of octets.
    pub fn len(&self) -> usize
        ensures value { result ≡ length self.now }
        ensures most { length self.now ≤ MOST }
    {
        usize::from(self.used)
    }

    /// Whether there is no octet.
    pub fn is_empty(&self) -> bool
        ensures { IsTrue result ↔ (self.now ≡ []) }
    {
        self.used == 0
    }

    /// The octets, at most `MOST` of them.
    pub fn as_slice(&self) -> &[u8]
        ensures value { result.now ≡ self.now }
        ensures most { length self.now ≤ MOST }
    {
        &self.places[..usize::from(self.used)]
    }

    /// Appends an octet. You must leave room for it.
    pub fn push(&mut self, octet: u8)
        requires { length self.old < MOST }
        ensures { self.new ≡ self.old ++ octet ∷ [] }
    {
        self.places[usize::from(self.used)] = octet;
        self.used += 1;
    }

    /// Appends octets. You must leave room for them.
    pub fn extend(&mut self, octets: &[u8])
        requires most { MOST ≤ 255 }
        requires room { length self.old + length octets.now ≤ MOST }
        ensures { self.new ≡ self.old ++ octets.now }
    {
        let mut rest = octets;
        while let [octet, others @ ..] = rest {
            self.push(*octet);
            rest = others;
        }
    }

    /// Removes the last octet. There must be one.
    pub fn drop_last(&mut self)
        requires { 0 < length self.old }
        ensures { self.new ≡ take (length self.old - 1) self.old }
    {
        self.used -= 1;
        self.places[usize::from(self.used)] = 0;
    }
}
