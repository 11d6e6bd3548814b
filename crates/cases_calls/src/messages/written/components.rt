//! Components from text.

ghost use Rattle.std.specs.Prelude.{◌≤◌, IfSome, length, map, option_map};
ghost use Rattle.cases_calls.specs.Tags.{CopyHasTags-prop};
ghost use Rattle.fp_ber.specs.View.{tree_of};
ghost use Rattle.fp_q773.specs.Copied.{ComponentHasTags, ComponentsHaveTags, CopyHasTags, ResultHasTags};
ghost use Rattle.fp_q773.specs.Room.{code_room, component_room, components_room, result_room, tree_room};
ghost use Rattle.fp_q773.specs.View.{code_of, component_of, result_of};
ghost use Rattle.fp_q773.specs.Writable.{AllWritable, IsWritable};

use crate::messages::problems::problem_of;
use crate::messages::written::portions::{lent, optional_element};
use cases::{Answer, number_of, octets_of};
use fp_ber::Element;
use fp_q773::{Code, Coded, Component, Invoke, Reject, ReturnError, ReturnResult};
use std::alloc::Global;

/// The most octets of a global code in a case.
const MOST: usize = 1000;

/// A component as its word, with the values that it borrows: the octets of a global code, and a parameter.
#[derive(Drop)]
pub(crate) struct Held<'a> {
    word: &'a str,
    local: Option<i32>,
    octets: Vec<u8>,
    parameter: Option<Element>,
    ghost size: { length octets.items ≤ 1000 },
    ghost tags: { CopyHasTags (option_map tree_of parameter) } by { CopyHasTags-prop (option_map tree_of parameter) },
    ghost room: { tree_room (option_map tree_of parameter) ≤ 1000 },
}

/// The first part of a component, and the text after it and a colon.
fn cut(text: &str) -> (&str, &str) {
    match text.split_once(':') {
        Some(parts) => parts,
        None => (text, ""),
    }
}

/// The code and the parameter of a component as text; either is empty if the component has none.
fn coded_text(word: &str) -> (&str, &str) {
    let (kind, rest) = cut(word);
    let (_, rest) = cut(rest);
    if kind == "reject" {
        return ("", "");
    }
    if kind == "linked" {
        let (_, rest) = cut(rest);
        return cut(rest);
    }
    cut(rest)
}

/// The number of a local code; `None` for a global code or no code.
fn local_of(code: &str, out: &mut Answer) -> Option<i32> {
    if code.is_empty() || code.starts_with("oid") {
        return None;
    }
    Some(number_of(code, out))
}

/// The octets of a global code; no octets for any other.
fn octets_of_code(alloc: Global, code: &str, out: &mut Answer) -> Vec<u8>
    ensures { length result.items ≤ 1000 }
{
    let octets = octets_of(alloc, code.strip_prefix("oid").unwrap_or(""), out);
    if octets.len() <= MOST {
        return octets;
    }
    out.fail("a long code");
    Vec::new(alloc)
}

/// The component of a word.
fn held_in<'a>(alloc: Global, word: &'a str, out: &mut Answer) -> Held<'a> {
    let (code, parameter) = coded_text(word);
    let local = local_of(code, out);
    let octets = octets_of_code(alloc, code, out);
    let parameter = optional_element(alloc, parameter, out);
    Held {
        word,
        local,
        octets,
        parameter,
    }
}

/// The components of these words.
pub(crate) fn held_of<'a>(alloc: Global, words: &'a str, out: &mut Answer) -> Vec<Held<'a>> {
    let mut held = Vec::new(alloc);
    for word in words.split_whitespace() {
        let one = held_in(alloc, word, out);
        out.push(&mut held, one);
    }
    held
}

/// The code of a component.
fn code_in<'a>(held: &'a Held<'_>) -> Code<'a>
    ensures { code_room (code_of result) ≤ 1010 }
{
    match held.local {
        Some(code) => Code::Local(code),
        None => Code::Global(held.octets.as_slice()),
    }
}

/// An Invoke.
fn invoke_in<'a>(
    identifier: &str,
    linked: Option<i8>,
    held: &'a Held<'_>,
    out: &mut Answer,
) -> Component<'a>
    ensures writable { IsWritable (component_of result) }
    ensures tags { ComponentHasTags (component_of result) }
    ensures room { component_room (component_of result) ≤ 3000 }
{
    let identifier: i8 = number_of(identifier, out);
    Component::Invoke(Invoke {
        identifier,
        linked,
        code: code_in(held),
        parameter: lent(held.parameter.as_ref()),
    })
}

/// An Invoke with a linked identifier.
fn linked_in<'a>(
    identifier: &str,
    rest: &str,
    held: &'a Held<'_>,
    out: &mut Answer,
) -> Component<'a>
    ensures writable { IsWritable (component_of result) }
    ensures tags { ComponentHasTags (component_of result) }
    ensures room { component_room (component_of result) ≤ 3000 }
{
    let (linked, _) = cut(rest);
    let linked: i8 = number_of(linked, out);
    invoke_in(identifier, Some(linked), held, out)
}

/// A ReturnResult, without a result if its text has none.
fn result_in<'a>(
    identifier: &str,
    rest: &str,
    held: &'a Held<'_>,
    out: &mut Answer,
) -> ReturnResult<'a>
    ensures tags { ResultHasTags (option_map result_of result.result) }
    ensures room { result_room (option_map result_of result.result) ≤ 2100 }
{
    let identifier: i8 = number_of(identifier, out);
    if rest.is_empty() {
        return ReturnResult {
            identifier,
            result: None,
        };
    }
    ReturnResult {
        identifier,
        result: Some(Coded {
            code: code_in(held),
            parameter: lent(held.parameter.as_ref()),
        }),
    }
}

/// A ReturnError.
fn error_in<'a>(identifier: &str, held: &'a Held<'_>, out: &mut Answer) -> Component<'a>
    ensures writable { IsWritable (component_of result) }
    ensures tags { ComponentHasTags (component_of result) }
    ensures room { component_room (component_of result) ≤ 3000 }
{
    let identifier: i8 = number_of(identifier, out);
    Component::ReturnError(ReturnError {
        identifier,
        code: code_in(held),
        parameter: lent(held.parameter.as_ref()),
    })
}

/// The identifier of a Reject, or `None` for `null`.
fn rejected_in(text: &str, out: &mut Answer) -> Option<i8> {
    if text == "null" {
        return None;
    }
    Some(number_of(text, out))
}

/// A Reject. `None`, and a fault, if there is no such problem.
fn reject_in<'a>(identifier: &str, rest: &str, out: &mut Answer) -> Option<Component<'a>>
    ensures writable { IfSome result (λ component. IsWritable (component_of component)) }
    ensures tags { IfSome result (λ component. ComponentHasTags (component_of component)) }
    ensures room { IfSome result (λ component. component_room (component_of component) ≤ 3000) }
{
    let identifier = rejected_in(identifier, out);
    let (tag, value) = cut(rest);
    let Some(problem) = problem_of(tag, value, out) else {
        out.fail("no problem of this tag");
        return None;
    };
    Some(Component::Reject(Reject {
        identifier,
        problem,
    }))
}

/// A component. `None`, and a fault, if its word spells none.
fn component_in<'a>(held: &'a Held<'_>, out: &mut Answer) -> Option<Component<'a>>
    ensures writable { IfSome result (λ component. IsWritable (component_of component)) }
    ensures tags { IfSome result (λ component. ComponentHasTags (component_of component)) }
    ensures room { IfSome result (λ component. component_room (component_of component) ≤ 3000) }
{
    let (kind, rest) = cut(held.word);
    let (identifier, rest) = cut(rest);
    match kind {
        "invoke" => Some(invoke_in(identifier, None, held, out)),
        "linked" => Some(linked_in(identifier, rest, held, out)),
        "last" => Some(Component::ReturnResultLast(result_in(identifier, rest, held, out))),
        "not-last" => Some(Component::ReturnResultNotLast(result_in(identifier, rest, held, out))),
        "error" => Some(error_in(identifier, held, out)),
        "reject" => reject_in(identifier, rest, out),
        _ => {
            out.fail("no component");
            None
        }
    }
}

/// Up to three components. `None` if one is none, which is a fault, or if memory runs out.
pub(crate) fn components_in<'a>(
    alloc: Global,
    held: &'a [Held<'_>],
    out: &mut Answer,
) -> Option<Vec<Component<'a>>>
    ensures writable { IfSome result (λ components. AllWritable (map component_of components.items)) }
    ensures tags { IfSome result (λ components. ComponentsHaveTags (map component_of components.items)) }
    ensures room { IfSome result (λ components. components_room (map component_of components.items) ≤ 9000) }
{
    match held {
        [] => Some(Vec::new(alloc)),
        [only] => vec![in alloc; component_in(only, out)?].ok(),
        [first, second] => {
            let first = component_in(first, out)?;
            vec![in alloc; first, component_in(second, out)?].ok()
        }
        [first, second, third] => {
            let first = component_in(first, out)?;
            let second = component_in(second, out)?;
            vec![in alloc; first, second, component_in(third, out)?].ok()
        }
        _ => {
            out.fail("more than three components");
            None
        }
    }
}
