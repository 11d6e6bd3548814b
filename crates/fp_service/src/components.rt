//! The components of a message to send.

ghost use Rattle.std.specs.Prelude.{◌≡◌, ◌≤◌, ◌∷◌, [], false, length};
ghost use Rattle.fp_service.specs.Components.{OneRequestsReport, requests_report};

use crate::Component;
use std::marker::Model;

/// The components of a message to send, at most two. The second isn't an Invoke of
/// RequestReportBCSMEvent. The value has a fixed size. Contracts see it as a list.
#[derive(Debug, Drop)]
pub struct Components {
    places: Places,
}

/// At most two components, the first one first.
#[derive(Clone, Copy, Debug)]
enum Places {
    None,
    One([Component; 1]),
    Two([Component; 2]),
}

impl Model for Components {
    ghost use Rattle.std.specs.Prelude.{List};
    ghost use Rattle.fp_service.specs.declared.component.Component.{Component};
    ghost use Rattle.fp_service.specs.Components.{OneRequestsReport, components_in};

    ghost Value = { List Component };

    ghost view = { λ components. components_in components.places };

    ghost invariant = { λ components. OneRequestsReport (components_in components.places) };
}

impl Components {
    /// The largest number of components.
    pub const MOST: usize = 2;

    /// No component.
    pub fn none() -> Components
        ensures { result ≡ [] }
    {
        Components {
            places: Places::None,
        }
    }

    /// One component.
    pub fn one(only: Component) -> Components
        ensures { result ≡ only ∷ [] }
    {
        Components {
            places: Places::One([only]),
        }
    }

    /// Two components. The second must not be an Invoke of RequestReportBCSMEvent.
    pub fn two(first: Component, second: Component) -> Components
        requires { requests_report second ≡ false }
        ensures { result ≡ first ∷ second ∷ [] }
    {
        Components {
            places: Places::Two([first, second]),
        }
    }

    /// The components, the first one first, at most [`Components::MOST`] of them.
    pub fn as_slice(&self) -> &[Component]
        ensures value { result.now ≡ self.now }
        ensures most { length self.now ≤ Self.MOST }
        ensures report { OneRequestsReport self.now }
    {
        match &self.places {
            Places::None => &[],
            Places::One(places) => places,
            Places::Two(places) => places,
        }
    }
}
