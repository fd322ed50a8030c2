// One route.
ghost use Rattle.std.specs.Prelude.{◌≡◌, ◌<◌, ◌≤◌, ◌*◌, option_map, length};
ghost use Rattle.data_format.specs.Addresses.{address_of};
ghost use Rattle.books_spec.specs.Listing.{same_address as same};
ghost use Rattle.relay_out.specs.Routes.{agent_in as agent_said, place_in as place_said, route_in, takes};

use arrayvec::ArrayString;
use data_format::Address;
use script_words::address_in;
use std::marker::Model;

/// A place, up to 64 bytes.
type Place = ArrayString<64>;

/// An agent, or None for any, and where its datagrams go.
#[derive(Default, Drop)]
pub(crate) struct Route {
    agent: Option<Address>,
    place: Place,
}

impl Model for Route {
    ghost use Rattle.std.specs.Prelude.{option_map};
    ghost use Rattle.data_format.specs.Addresses.{address_of};
    ghost use Rattle.relay_out.specs.Routes.{Route as Said};

    ghost Value = { Said };

    ghost view = { λ r. record { agent = option_map address_of r.agent; place = r.place.bytes } };
}

fn agent_in(text: &str) -> Option<Option<Address>>
    ensures { option_map (λ a. option_map address_of a) result ≡ agent_said text.now }
{
    if text == "any" {
        return Some(None);
    }
    Some(Some(address_in(text.as_bytes())?))
}

fn place_in(text: &str) -> Option<Place>
    ensures { option_map (λ p. p.bytes) result ≡ place_said text.now }
{
    if text.is_empty() {
        return None;
    }
    Place::from(text).ok()
}

fn same_address(one: &Address, other: &Address) -> bool
    ensures { result ≡ same (address_of one.now) (address_of other.now) }
{
    one == other
}

impl Route {
    /// The route that the text says.
    pub(crate) fn read(text: &str) -> Option<Route>
        ensures { result ≡ route_in text.now }
    {
        let (agent, place) = text.split_once('=')?;
        let agent = agent_in(agent)?;
        let place = place_in(place)?;
        Some(Route { agent, place })
    }

    /// Where its datagrams go.
    pub(crate) fn place(&self) -> &str
        ensures { result.now ≡ self.now.place }
    {
        self.place.as_str()
    }

    /// Whether it takes the datagrams of this agent.
    pub(crate) fn takes(&self, agent: &Address) -> bool
        ensures { result ≡ takes self.now (address_of agent.now) }
    {
        match &self.agent {
            Some(taken) => same_address(taken, agent),
            None => true,
        }
    }
}
