//! Codes of operations and errors, with their parameters (Q.773, 4.2.2).

ghost use Rattle.std.specs.Prelude.{◌≡◌, ◌<◌, ◌^◌, ◌++◌, Option, None, Some, IfSome, IfNone, OnOk, pos, ◌+ℤ◌, ◌*ℤ◌, false};
ghost use Rattle.fp_ber.specs.Canon.{canon, canon_of_all};
ghost use Rattle.fp_ber.specs.Putting.{EndsWith};
ghost use Rattle.fp_ber.specs.Tree.{Tree};
ghost use Rattle.fp_ber.specs.Lent.{lent_tree, lent_trees};
ghost use Rattle.fp_ber.specs.Integer.{signed};
ghost use Rattle.fp_q773.specs.TwosComplement.{is_within};
ghost use Rattle.fp_q773.specs.Copied.{ResultHasTags};
ghost use Rattle.fp_q773.specs.Room.{result_room};
ghost use Rattle.fp_q773.specs.Value as value;
ghost use Rattle.fp_q773.specs.Value.{CodeValue};
ghost use Rattle.fp_q773.specs.View.{code_of, result_of, tree_in};
ghost use Rattle.fp_q773.specs.Grammar.{IsCode, IsCoded};
ghost use Rattle.fp_q773.specs.Written.{code_tree, coded_trees};

use crate::members::write_optional;
use fp_ber::universal::{INTEGER, OBJECT_IDENTIFIER};
use fp_ber::{Class, ElementRef, Elements, Writer, integer_of, octet_of};
use std::alloc::AllocError;

/// The code of an operation or an error.
#[derive(Clone, Copy, Debug)]
pub enum Code<'a> {
    /// A number that the application context defines. For example, 0 is InitialDP.
    Local(i32),
    /// The octets of an object identifier.
    Global(&'a [u8]),
}

/// A code and its parameter, if there is one. A ReturnResult has them, too.
#[derive(Clone, Copy, Debug)]
pub struct Coded<'a> {
    /// The code of the operation or the error.
    pub code: Code<'a>,
    /// The parameter.
    pub parameter: Option<ElementRef<'a>>,
}

/// A number in two parts: the last eight bits, and the rest.
#[derive(Clone, Copy)]
struct Halves {
    high: i32,
    octet: u8,
}

/// Splits off the last eight bits of a number.
fn halves_of(number: i32) -> Halves
    ensures value { number ≡ (pos 256 *ℤ result.high) +ℤ pos result.octet }
{
    let octet = number.rem_euclid(256);
    Halves {
        high: number.div_euclid(256),
        octet: octet as u8,
    }
}

/// The octet of a number in two's complement, if one octet is enough.
fn octet_in(number: i32) -> Option<u8>
    ensures some { IfSome result (λ octet. signed octet ≡ number) }
    ensures none { IfNone result (is_within 1 number ≡ false) }
{
    if number < -0x80 {
        return None;
    }
    if number >= 0x80 {
        return None;
    }
    Some(octet_of(number as i8))
}

/// Writes an integer in two's complement, in as few octets as it takes. For example, 46 is `02 01
/// 2E`.
#[inline(always)]
fn write_integer(number: i32, out: &mut Writer) -> Result<(), AllocError>
    ensures exact { OnOk result (out.new ≡ canon (code_tree (value.local number)) ++ out.old) }
    ensures stays { EndsWith out.new out.old }
    ensures found { IsCode (code_tree (value.local number)) (value.local number) }
{
    if let Some(first) = octet_in(number) {
        return out.put_primitive(Class::Universal, INTEGER, &[first]);
    }
    let last = halves_of(number);
    if let Some(first) = octet_in(last.high) {
        return out.put_primitive(Class::Universal, INTEGER, &[first, last.octet]);
    }
    let third = halves_of(last.high);
    if let Some(first) = octet_in(third.high) {
        let octets = [first, third.octet, last.octet];
        return out.put_primitive(Class::Universal, INTEGER, &octets);
    }
    let second = halves_of(third.high);
    let first = octet_of(second.high as i8);
    let octets = [first, second.octet, third.octet, last.octet];
    out.put_primitive(Class::Universal, INTEGER, &octets)
}

impl<'a> Code<'a> {
    /// Reads a code: an integer of one to four octets, or an object identifier.
    #[inline(always)]
    pub(crate) fn read(element: &ElementRef<'a>) -> Option<Code<'a>>
        ensures some { IfSome result (λ code. IsCode (lent_tree element.now) (code_of code)) }
        ensures none { IfNone result ((code : CodeValue) → IsCode (lent_tree element.now) code → ⊥) }
    {
        if let Some(octets) = element.octets_with_tag(Class::Universal, OBJECT_IDENTIFIER) {
            return Some(Code::Global(octets));
        }
        let Some(octets) = element.octets_with_tag(Class::Universal, INTEGER) else {
            return None;
        };
        let Some(number) = integer_of(octets) else {
            return None;
        };
        Some(Code::Local(number))
    }

    /// Writes a code.
    #[inline(always)]
    pub(crate) fn write(&self, out: &mut Writer) -> Result<(), AllocError>
        ensures exact { OnOk result (out.new ≡ canon (code_tree (code_of self.now)) ++ out.old) }
        ensures stays { EndsWith out.new out.old }
        ensures found { IsCode (code_tree (code_of self.now)) (code_of self.now) }
    {
        match self {
            Code::Local(number) => write_integer(*number, out),
            Code::Global(octets) => {
                out.put_primitive(Class::Universal, OBJECT_IDENTIFIER, octets)
            }
        }
    }
}

impl<'a> Coded<'a> {
    /// Reads a code and a parameter, if there is one.
    #[inline(always)]
    pub(crate) fn read(members: &Elements<'a>) -> Option<Coded<'a>>
        ensures some { IfSome result (λ c. IsCoded (lent_trees members.now) (code_of c.code) (tree_in c.parameter)) }
        ensures none { IfNone result ((code : CodeValue) (parameter : Option Tree)
            → IsCoded (lent_trees members.now) code parameter → ⊥) }
    {
        let Some(members) = members.split_first() else {
            return None;
        };
        let Some(code) = Code::read(&members.first) else {
            return None;
        };
        let Some(last) = members.rest.split_first() else {
            return Some(Coded {
                code,
                parameter: None,
            });
        };
        if !last.rest.is_empty() {
            return None;
        }
        Some(Coded {
            code,
            parameter: Some(last.first),
        })
    }

    /// Writes a code and the parameter, if there is one.
    pub(crate) fn write(&self, out: &mut Writer) -> Result<(), AllocError>
        requires tags { ResultHasTags (Some (result_of self.now)) }
        requires room { result_room (Some (result_of self.now)) < 2 ^ 32 }
        ensures exact { OnOk result (out.new
            ≡ canon_of_all (coded_trees (code_of self.now.code) (tree_in self.now.parameter)) ++ out.old) }
        ensures stays { EndsWith out.new out.old }
        ensures found { OnOk result (IsCoded (coded_trees (code_of self.now.code) (tree_in self.now.parameter))
            (code_of self.now.code) (tree_in self.now.parameter)) }
    {
        write_optional(self.parameter, out)?;
        self.code.write(out)
    }
}
