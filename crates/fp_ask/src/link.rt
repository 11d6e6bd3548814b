//! A link without waiting entries or frames.

ghost use Rattle.std.specs.Prelude.{◌≡◌, ◌≤◌, true, IfOk, OnOk};
ghost use Rattle.fp_ask.specs.Solo.{at_first, is_read, post, tick};
ghost use Rattle.fp_ask.specs.Tied.{IsOfFrame};
ghost use Rattle.fp_ask.specs.proof_only.Serving.{LinkFollows, Tells};
ghost use Rattle.fp_tids.specs.Identifiers.{base_of};

use crate::{SentFrame, Session};
use fp_digits::Moment;
use fp_entry::Prepared;
use fp_tids::LocalIds;
use std::alloc::{AllocError, Global};
use std::marker::Model;

/// A link on which no entry and no frame waits between two calls. Contracts see its book, or none once memory ran out.
#[derive(Drop)]
pub(crate) struct Link {
    session: Option<Session>,
}

impl Model for Link {
    ghost use Rattle.std.specs.Prelude.{Option, IfSome};
    ghost use Rattle.std.specs.Coded.{codes, coded_ℕ};
    ghost use Rattle.std.specs.Ordering.{nat_cmp};
    ghost use Rattle.std.specs.FinMap as map;
    ghost use Rattle.fp_book.specs.Shelf.{Shelf};
    ghost use Rattle.fp_row.specs.contracts.row.Row as row_type;
    ghost use Rattle.fp_ask.specs.Tied.{Rest};

    ghost Value = { Option Shelf };

    ghost coded = { Prim.hlevel (codes, map.code {R = nat_cmp} coded_ℕ row_type.the_row.coded) };

    ghost view = { λ link. link.session };

    ghost invariant = { λ link. IfSome link.session Rest };
}

impl Link {
    /// A link without messages yet, in a run with this tag.
    pub(crate) fn new(alloc: Global, tag: u16) -> Result<Link, AllocError>
        requires { tag ≤ LocalIds.LAST_TAG }
        ensures { IfOk result (Tells (at_first (base_of 0 tag))) }
    {
        Ok(Link {
            session: Some(Session::new(alloc, tag)?),
        })
    }

    /// Takes a message, and returns the frames that are sent for it.
    pub(crate) fn post(
        &mut self,
        alloc: Global,
        came: Prepared,
    ) -> Result<Vec<SentFrame>, AllocError>
        ensures read { OnOk result (is_read came ≡ true) }
        ensures follows { IfOk result (λ frames. IsOfFrame came
            → LinkFollows (λ w. post w came) self.old self.new frames.items) }
    {
        let Some(mut session) = self.session.take() else {
            return Err(AllocError);
        };
        let frames = session.post(alloc, came)?;
        self.session = Some(session);
        Ok(frames)
    }

    /// Moves the clock to this moment, and returns the frames that are sent then.
    pub(crate) fn tick(
        &mut self,
        alloc: Global,
        moment: Moment,
    ) -> Result<Vec<SentFrame>, AllocError>
        ensures { IfOk result (λ frames. LinkFollows (λ w. tick w moment) self.old self.new frames.items) }
    {
        let Some(mut session) = self.session.take() else {
            return Err(AllocError);
        };
        let frames = session.tick(alloc, moment)?;
        self.session = Some(session);
        Ok(frames)
    }
}
