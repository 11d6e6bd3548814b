//! The connection of each unit.

ghost use Rattle.std.specs.Prelude.{◌≡◌, ◌<◌, ◌≤◌, ℕ, true, false, IfOk, None, Some, length};
ghost use Rattle.std.specs.Bool.{Decides};
ghost use Rattle.fp_adaptor.specs.Connections.{IsFirst, IsHere, connection_at, placed, without};

use std::alloc::{AllocError, Global};

/// Whether this place of a unit holds this connection.
fn is_this(place: Option<usize>, connection: usize) -> bool
    ensures { Decides result (place ≡ Some connection) }
{
    match place {
        Some(other) => other == connection,
        None => false,
    }
}

/// The place of a unit after this connection has ended.
fn without(place: Option<usize>, connection: usize) -> Option<usize>
    ensures { result ≡ without connection place }
{
    match place {
        Some(other) if other != connection => Some(other),
        _ => None,
    }
}

/// The connection of each unit, if it has one.
#[derive(Debug, Drop)]
pub(crate) struct Connections {
    places: Vec<Option<usize>>,
}

impl Connections {
    /// The places of this number of units, without connections.
    pub(crate) fn new(alloc: Global, units: usize) -> Result<Connections, AllocError>
        ensures each { IfOk result (λ own. (unit : ℕ)
            → connection_at own.places.items unit ≡ None) }
        ensures size { IfOk result (λ own. length own.places.items ≡ units) }
    {
        let mut places = Vec::new(alloc);
        places.resize(units, None)?;
        Ok(Connections { places })
    }

    /// The connection of a unit, if it has one.
    fn at(&self, unit: usize) -> Option<usize>
        ensures { result ≡ connection_at self.now.places.items unit }
    {
        if unit < self.places.len() {
            return self.places[unit];
        }
        None
    }

    /// Whether a unit has this connection.
    pub(crate) fn is_here(&self, connection: usize) -> bool
        ensures { Decides result (IsHere (connection_at self.now.places.items) connection) }
    {
        for unit in 0..self.places.len() {
            if is_this(self.at(unit), connection) {
                return true;
            }
        }
        false
    }

    /// The connection of the first unit that has one.
    pub(crate) fn first(&self) -> Option<usize>
        ensures { IsFirst (connection_at self.now.places.items) result }
    {
        for unit in 0..self.places.len() {
            if let Some(connection) = self.at(unit) {
                return Some(connection);
            }
        }
        None
    }

    /// Gives a unit this connection, and returns its earlier one.
    pub(crate) fn put(&mut self, unit: usize, connection: usize) -> Option<usize>
        requires { unit < length self.old.places.items }
        ensures had { result ≡ connection_at self.old.places.items unit }
        ensures each { (other : ℕ) → connection_at self.new.places.items other
            ≡ placed connection unit other (connection_at self.old.places.items other) }
        ensures size { length self.new.places.items ≡ length self.old.places.items }
    {
        let had = self.places[unit];
        self.places[unit] = Some(connection);
        had
    }

    /// Whether there is a unit with this number.
    pub(crate) fn has(&self, unit: usize) -> bool
        ensures yes { result ≡ true → unit < length self.now.places.items }
        ensures no { result ≡ false → length self.now.places.items ≤ unit }
    {
        unit < self.places.len()
    }

    /// Removes a connection from each unit that has it.
    pub(crate) fn remove(&mut self, connection: usize)
        ensures each { (unit : ℕ) → connection_at self.new.places.items unit
            ≡ without connection (connection_at self.old.places.items unit) }
        ensures size { length self.new.places.items ≡ length self.old.places.items }
    {
        for unit in 0..self.places.len() {
            let left = without(self.places[unit], connection);
            self.places[unit] = left;
        }
    }
}
