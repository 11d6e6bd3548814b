//! The open dialogues of a link, by the identifiers of both sides.

ghost use Rattle.std.specs.Prelude.{◌≡◌, List, ℕ, Option, OnOk};
ghost use Rattle.fp_adaptor.specs.Dialogues.{HasLocal, IsForgotten, after_heard, after_said, begun, continued, finished, is_none, opened, said_both, unless_exchange, unless_local};
ghost use Rattle.fp_adaptor.specs.Seen.{Sees};

use fp_octets::Octets;
use fp_q773::{Ids, Kind, Tid};
use std::alloc::{AllocError, Global};
use std::collections::BTreeMap;

/// A transaction identifier as the key of a map.
type Key = Octets<4>;

/// The dialogues that the link has continued and that are still open. One map leads from the link's identifier to the
/// exchange's, the other one back.
#[derive(Drop)]
pub(crate) struct Dialogues {
    by_local: BTreeMap<Key, Key>,
    by_exchange: BTreeMap<Key, Tid>,
}

/// The key of an identifier.
fn key_of(identifier: &Tid) -> Key
    ensures { result ≡ identifier.now }
{
    let Some(key) = Octets::from_slice(identifier.as_slice()) else {
        unreachable!()
    };
    key
}

/// The originating identifier of a Begin.
fn begun(ids: &Ids) -> Option<Tid>
    ensures { result ≡ begun ids.now.kind ids.now.orig }
{
    match ids.kind {
        Kind::Begin => ids.orig,
        _ => None,
    }
}

/// The originating identifier of a Continue.
fn continued(ids: &Ids) -> Option<Tid>
    ensures { result ≡ continued ids.now.kind ids.now.orig }
{
    match ids.kind {
        Kind::Continue => ids.orig,
        _ => None,
    }
}

/// The destination identifier of an End or Abort.
fn finished(ids: &Ids) -> Option<Tid>
    ensures { result ≡ finished ids.now.kind ids.now.dest }
{
    match ids.kind {
        Kind::End | Kind::Abort => ids.dest,
        _ => None,
    }
}

impl Dialogues {
    /// An empty list. Takes no memory.
    pub(crate) fn new(alloc: Global) -> Dialogues
        ensures { Sees result is_none }
    {
        Dialogues {
            by_local: BTreeMap::new(alloc),
            by_exchange: BTreeMap::new(alloc),
        }
    }

    /// The link's identifier of a dialogue, by the exchange's.
    fn local_of(&self, exchange: Option<Tid>) -> Option<Tid>
        ensures { (known : List ℕ → Option (List ℕ)) → Sees self.now known
            → HasLocal known exchange result }
    {
        let Some(exchange) = exchange else {
            return None;
        };
        let key = key_of(&exchange);
        self.by_exchange.get(&key).copied()
    }

    /// The link's identifier of a dialogue that the exchange forgot: the message is a Begin, and the exchange knew an
    /// open dialogue by the same identifier.
    pub(crate) fn forgotten(&self, ids: &Ids) -> Option<Tid>
        ensures { (known : List ℕ → Option (List ℕ)) → Sees self.now known
            → IsForgotten known ids.now.kind ids.now.orig result }
    {
        self.local_of(begun(ids))
    }

    /// Forgets the dialogue with this identifier of the exchange.
    fn forget_exchange(&mut self, exchange: Option<Tid>)
        ensures { (known : List ℕ → Option (List ℕ)) → Sees self.old known
            → Sees self.new (λ local. unless_exchange exchange (known local)) }
    {
        let Some(exchange) = exchange else {
            return;
        };
        let key = key_of(&exchange);
        let Some(local) = self.by_exchange.remove(&key) else {
            return;
        };
        let _forgotten = self.by_local.remove(&key_of(&local));
    }

    /// Forgets the dialogue with this identifier of the link.
    fn forget_local(&mut self, local: Option<Tid>)
        ensures { (known : List ℕ → Option (List ℕ)) → Sees self.old known
            → Sees self.new (λ other. unless_local local other (known other)) }
    {
        let Some(local) = local else {
            return;
        };
        let key = key_of(&local);
        let Some(exchange) = self.by_local.remove(&key) else {
            return;
        };
        let _forgotten = self.by_exchange.remove(&exchange);
    }

    /// Adds a dialogue with both identifiers, in place of any earlier dialogue with either of them. `Err`: out of
    /// memory.
    fn open(&mut self, local: Tid, exchange: Tid) -> Result<(), AllocError>
        ensures { OnOk result ((known : List ℕ → Option (List ℕ)) → Sees self.old known
            → Sees self.new (λ other. opened local exchange other (known other))) }
    {
        self.forget_exchange(Some(exchange));
        self.forget_local(Some(local));
        let key = key_of(&local);
        let exchange_key = key_of(&exchange);
        self.by_local.insert(key, exchange_key)?;
        self.by_exchange.insert(exchange_key, local)?;
        Ok(())
    }

    /// Adds a dialogue that the link continues, if both identifiers are there. `Err`: out of memory.
    fn open_both(&mut self, local: Option<Tid>, exchange: Option<Tid>) -> Result<(), AllocError>
        ensures { OnOk result ((known : List ℕ → Option (List ℕ)) → Sees self.old known
            → Sees self.new (λ other. said_both local exchange other (known other))) }
    {
        let Some(local) = local else {
            return Ok(());
        };
        let Some(exchange) = exchange else {
            return Ok(());
        };
        self.open(local, exchange)
    }

    /// Follows a message from the exchange.
    pub(crate) fn hear(&mut self, ids: &Ids)
        ensures { (known : List ℕ → Option (List ℕ)) → Sees self.old known
            → Sees self.new (λ local.
            after_heard ids.now.kind ids.now.orig ids.now.dest local (known local)) }
    {
        self.forget_exchange(begun(ids));
        self.forget_local(finished(ids));
    }

    /// Follows a message from the link. `Err`: out of memory.
    pub(crate) fn say(&mut self, ids: &Ids) -> Result<(), AllocError>
        ensures { OnOk result ((known : List ℕ → Option (List ℕ)) → Sees self.old known
            → Sees self.new (λ local.
            after_said ids.now.kind ids.now.orig ids.now.dest local (known local))) }
    {
        self.forget_exchange(finished(ids));
        self.open_both(continued(ids), ids.dest)
    }
}
