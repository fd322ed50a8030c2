ghost use Rattle.std.specs.Prelude.{◌≡◌, ◌<◌, ◌≤◌, length, Some, slice_get, IfSome, option_map};
ghost use Rattle.data_format.specs.Addresses.{address_of};
ghost use Rattle.relay_out.specs.Routes.{routes_in, takes};

use crate::parts::Parts;
use crate::route::Route;
use arrayvec::ArrayVec;
use data_format::Address;
use std::marker::Model;

/// The most routes.
const MOST: usize = 8;

/// Which datagrams go where: 1 to 8 routes, in order.
#[derive(Drop)]
pub struct Routes {
    routes: ArrayVec<Route, MOST>,
}

impl Model for Routes {
    ghost use Rattle.std.specs.Prelude.{◌≤◌, List, length};
    ghost use Rattle.relay_out.specs.Routes.{Route as Said};

    ghost Value = { List Said };

    ghost view = { λ r. r.routes.items };

    ghost invariant = { λ r. length r.routes.items ≤ 8 };
}

impl Routes {
    /// The routes that a text says: 1 to 8 with a semicolon between each two. Each is `any`, or the address of an agent,
    /// then `=`, and then the place, of 1 to 64 bytes. The address is an IPv4 address (RFC 791) in its dotted form, or one
    /// of IPv6 (RFC 8200) in eight groups of four hexadecimal digits. None for any other text.
    pub fn read(text: &str) -> Option<Routes>
        ensures { result ≡ routes_in text.now }
    {
        let mut routes = ArrayVec::<Route, MOST>::new();
        let mut parts = Parts::new(text);
        while let Some(part) = parts.next() {
            let route = Route::read(part)?;
            if routes.try_push(route).is_err() {
                return None;
            }
        }
        Some(Routes { routes })
    }

    /// How many routes there are.
    pub fn len(&self) -> usize
        ensures count { result ≡ length self.now }
        ensures most { result ≤ 8 }
    {
        self.routes.len()
    }

    /// Where the datagrams of this route go, counted from 0.
    pub fn place(&self, route: usize) -> &str
        requires { route < length self.now }
        ensures { IfSome (slice_get self.now route) (λ r. result.now ≡ r.place) }
    {
        self.routes[route].place()
    }

    /// Whether this route takes the datagrams of the agent.
    pub fn takes(&self, route: usize, agent: &Address) -> bool
        requires { route < length self.now }
        ensures { IfSome (slice_get self.now route) (λ r. result ≡ takes r (address_of agent.now)) }
    {
        self.routes[route].takes(agent)
    }
}
