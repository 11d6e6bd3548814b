//! Reject (Q.773, 4.2.2): the refusal of a component.

ghost use Rattle.std.specs.Prelude.{◌≡◌, ◌++◌, ℤ, Option, IfSome, IfNone, MatchOption, OnOk, OnErr};
ghost use Rattle.fp_ber.specs.Canon.{canon};
ghost use Rattle.fp_ber.specs.Putting.{EndsWith};
ghost use Rattle.fp_ber.specs.Lent.{lent_tree, lent_trees};
ghost use Rattle.fp_q773.specs.Value.{ProblemValue};
ghost use Rattle.fp_q773.specs.Problem.{problem_of, IsNamed};
ghost use Rattle.fp_q773.specs.View.{reject_of};
ghost use Rattle.fp_q773.specs.Grammar.{IsRejected, IsProblem, IsReject};
ghost use Rattle.fp_q773.specs.Written.{rejected_tree, problem_tree, component_tree, IsReadBack};

use crate::identifier::{identifier_of, write_identifier};
use crate::problem::Problem;
use fp_ber::universal::NULL;
use fp_ber::{Class, ElementRef, Elements, Writer};
use std::alloc::AllocError;

/// The number of the context tag of a Reject.
pub const REJECT: u16 = 4;

/// A Reject.
#[derive(Clone, Copy, Debug, PartialEq, Eq)]
pub struct Reject {
    /// The invoke identifier of the rejected component, if it could be read.
    pub identifier: Option<i8>,
    /// The problem of the component.
    pub problem: Problem,
}

/// The identifier of a rejected component, or null instead.
#[derive(Clone, Copy)]
struct Rejected {
    identifier: Option<i8>,
}

/// Reads the identifier of a rejected component, or null.
fn rejected_of(element: &ElementRef<'_>) -> Option<Rejected>
    ensures { MatchOption result ((identifier : Option ℤ) → IsRejected (lent_tree element.now) identifier → ⊥)
        (λ r. IsRejected (lent_tree element.now) r.identifier) }
{
    if let Some(octets) = element.octets_with_tag(Class::Universal, NULL) {
        if !octets.is_empty() {
            return None;
        }
        return Some(Rejected { identifier: None });
    }
    let Some(identifier) = identifier_of(element) else {
        return None;
    };
    Some(Rejected {
        identifier: Some(identifier),
    })
}

/// Writes the identifier of a rejected component, or null.
fn write_rejected(identifier: Option<i8>, out: &mut Writer) -> Result<(), AllocError>
    ensures exact { OnOk result (out.new ≡ canon (rejected_tree identifier) ++ out.old) }
    ensures stays { EndsWith out.new out.old }
    ensures found { IsRejected (rejected_tree identifier) identifier }
{
    match identifier {
        Some(identifier) => write_identifier(identifier, out),
        None => out.put_primitive(Class::Universal, NULL, &[]),
    }
}

/// Reads a problem.
fn problem_in(element: &ElementRef<'_>) -> Option<Problem>
    ensures value { MatchOption result ((problem : ProblemValue) → IsProblem (lent_tree element.now) problem → ⊥)
        (λ p. IsProblem (lent_tree element.now) (problem_of p)) }
    ensures named { IfSome result IsNamed }
{
    let Some(octets) = element.octets_with_tag(Class::Context, element.number()) else {
        return None;
    };
    let [code] = octets else {
        return None;
    };
    Problem::new(element.number(), *code)
}

/// Writes a problem.
fn write_problem(problem: Problem, out: &mut Writer) -> Result<(), AllocError>
    ensures exact { OnOk result (out.new ≡ canon (problem_tree (problem_of problem)) ++ out.old) }
    ensures stays { EndsWith out.new out.old }
    ensures found { IsProblem (problem_tree (problem_of problem)) (problem_of problem) }
{
    out.put_primitive(Class::Context, problem.tag(), &[problem.code()])
}

impl Reject {
    /// Reads a Reject from its contents.
    pub(crate) fn read(members: &Elements<'_>) -> Option<Reject>
        ensures some { IfSome result (λ r. IsReject (lent_trees members.now) r.identifier (problem_of r.problem)) }
        ensures none { IfNone result ((identifier : Option ℤ) (problem : ProblemValue)
            → IsReject (lent_trees members.now) identifier problem → ⊥) }
        ensures named { IfSome result (λ r. IsNamed r.problem) }
    {
        let Some(members) = members.split_first() else {
            return None;
        };
        let Some(rejected) = rejected_of(&members.first) else {
            return None;
        };
        let Some(last) = members.rest.split_first() else {
            return None;
        };
        if !last.rest.is_empty() {
            return None;
        }
        let Some(problem) = problem_in(&last.first) else {
            return None;
        };
        Some(Reject {
            identifier: rejected.identifier,
            problem,
        })
    }

    /// Writes a Reject. If memory runs out, the octets are unchanged.
    pub fn write(&self, out: &mut Writer) -> Result<(), AllocError>
        ensures exact { OnOk result (out.new ≡ canon (component_tree (reject_of self.now)) ++ out.old) }
        ensures err { OnErr result (out.new ≡ out.old) }
        ensures stays { EndsWith out.new out.old }

        // The written octets are read as that Reject.
        ensures found { OnOk result (IsReadBack (reject_of self.now)) }
    {
        let behind = out.len();
        if write_problem(self.problem, out).is_err()
            || write_rejected(self.identifier, out).is_err()
            || out.put_constructed(Class::Context, REJECT, behind).is_err()
        {
            out.keep_last(behind);
            return Err(AllocError);
        }
        Ok(())
    }
}
