//! A line, or a part of one, that grows at its front.

ghost use Rattle.std.specs.Prelude.{◌≡◌, ◌++◌, ◌∷◌, [], decimal, OnErr, OnOk};
ghost use Rattle.fp_replay.specs.proof_only.Writing.{HasRoom, KeepsFront, Puts};

use itoa::write_digits;
use std::alloc::AllocError;
use std::marker::Model;

/// A line without a message, or the part of a line before or after its message, as octets that grow at their front.
/// Contracts see their list.
#[derive(Drop)]
pub(crate) struct LinePart {
    octets: [u8; LinePart::ROOM],
    start: usize,
}

impl Model for LinePart {
    ghost use Rattle.std.specs.Prelude.{ℕ, List, ◌≤◌, drop};
    ghost use Rattle.fp_replay.specs.declared.line_part.TheConstants.LinePart.{ROOM};

    ghost Value = { List ℕ };

    ghost view = { λ part. drop part.start part.octets };

    ghost invariant = { λ part. part.start ≤ ROOM };
}

impl LinePart {
    /// More than the octets of the longest line without a message, if each number has 20 digits: 108.
    const ROOM: usize = 128;

    /// No octets.
    pub(crate) fn new() -> LinePart
        ensures { result ≡ [] }
    {
        LinePart {
            octets: [0; LinePart::ROOM],
            start: LinePart::ROOM,
        }
    }

    /// Puts an octet at the front.
    pub(crate) fn put(&mut self, octet: u8)
        requires { HasRoom 1 self.old }
        ensures { self.new ≡ octet ∷ self.old }
    {
        self.start -= 1;
        self.octets[self.start] = octet;
    }

    /// Puts a number at the front.
    pub(crate) fn put_number(&mut self, number: u64)
        requires { HasRoom 20 self.old }
        ensures { Puts 20 (decimal number) self.old self.new }
    {
        self.start = write_digits(number, &mut self.octets, self.start);
    }

    /// Puts a blank and a number at the front.
    #[inline(always)]
    pub(crate) fn put_field(&mut self, number: u64)
        requires { HasRoom 21 self.old }
        ensures { Puts 21 (32 ∷ decimal number) self.old self.new }
    {
        self.put_number(number);
        self.put(b' ');
    }

    /// Puts a link and a blank at the front.
    pub(crate) fn put_link(&mut self, link: u8)
        requires { HasRoom 21 self.old }
        ensures { self.new ≡ decimal link ++ 32 ∷ self.old }
    {
        self.put(b' ');
        self.put_number(u64::from(link));
    }

    /// Puts eight octets at the front.
    pub(crate) fn put_eight(&mut self, octets: &[u8; 8])
        requires { HasRoom 8 self.old }
        ensures { self.new ≡ octets.now ++ self.old }
    {
        let end = self.start;
        self.start -= 8;
        self.octets[self.start..end].copy_from_slice(octets);
    }

    /// Adds the octets to a text.
    #[inline(always)]
    pub(crate) fn add_to(&self, text: &mut Vec<u8>) -> Result<(), AllocError>
        ensures written { OnOk result (text.new.items ≡ text.old.items ++ self.now) }
        ensures front { OnErr result (KeepsFront text.old.items text.new.items) }
    {
        text.extend_from_slice(&self.octets[self.start..])
    }
}
