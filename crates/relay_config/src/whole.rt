ghost use Rattle.std.specs.Prelude.{◌≡◌, ◌≤◌, ◌<◌, ◌+◌, Bool, length, nat_le, IfSome};
ghost use Rattle.std.specs.List.{list_any, AllPass};
ghost use Rattle.relay_config.specs.Sum.{InRange, names_of};
ghost use Rattle.relay_config.specs.Accepts.{has_room};
ghost use Rattle.relay_config.specs.Refusals.{Tells, is_nowhere, is_taken, repeats, twice_in, twice_of, whole_refusal};

use crate::{Config, ConfigFail, Key, OpenRule, PlaceRule, sum};

// The largest number of streams and names of a relay, and the largest configured sum in bytes.
const MOST_NAMES: usize = 64;

const MOST_SUM: u64 = 6_442_450_944;

// A part of which a configuration has no two that are the same.
trait Single {
    // Whether two are the same.
    ghost same: { Self → Self → Bool };

    // Tells whether the other is the same.
    fn is_same(&self, other: &Self) -> bool
        ensures { result ≡ same self.now other.now };
}

impl Single for PlaceRule {
    ghost use Rattle.relay_config.specs.Refusals.{same_names};

    ghost same = { same_names };

    fn is_same(&self, other: &PlaceRule) -> bool {
        self.app == other.app && self.name == other.name
    }
}

impl Single for OpenRule {
    ghost use Rattle.relay_config.specs.Refusals.{same_app};

    ghost same = { same_app };

    fn is_same(&self, other: &OpenRule) -> bool {
        self.app == other.app
    }
}

fn has<T: Single>(list: &[T], one: &T) -> bool
    ensures { result ≡ list_any (T.same one.now) list.now }
{
    list.iter().any(|other| one.is_same(other))
}

// Tells whether an earlier element is the same as the one at this index.
fn repeats<T: Single>(list: &[T], index: usize) -> bool
    ensures { result ≡ repeats T.same list.now index }
{
    match list.get(index) {
        Some(one) => has(&list[..index], one),
        None => false,
    }
}

// Finds the least index of an element that is the same as an earlier one.
fn twice_in<T: Single>(list: &[T]) -> Option<u32>
    requires { length list.now ≤ 64 }
    ensures value { result ≡ twice_in T.same list.now }
    ensures there { IfSome result (λ i. i < length list.now) }
{
    (0..list.len() as u32).find(|index| repeats(list, *index as usize))
}

// Finds the least place of a stream or an open table that is the same as an earlier one.
fn twice_of(config: &Config) -> Option<u32>
    requires places { length config.now.places ≤ 64 }
    requires opens { length config.now.opens ≤ 64 }
    ensures { result ≡ twice_of config.now }
{
    let places = config.places.as_slice();
    if let Some(place) = twice_in(places) {
        return Some(place);
    }
    match twice_in(config.opens.as_slice()) {
        Some(index) => Some(places.len() as u32 + index),
        None => None,
    }
}

// Tells whether open tables have at most `room` names together.
fn fit(opens: &[OpenRule], room: u32) -> bool
    ensures { result ≡ nat_le (names_of opens.now) room }
{
    let mut left = room;
    for rule in opens {
        if rule.names > left {
            return false;
        }
        left -= rule.names;
    }
    true
}

// Tells whether the address for HTTP is the address `listen`.
fn is_taken(config: &Config) -> bool
    ensures { result ≡ is_taken config.now }
{
    match &config.http {
        Some(at) => config.listen == *at,
        None => false,
    }
}

// Tells whether HTTP players have links, but no address.
fn is_nowhere(config: &Config) -> bool
    ensures { result ≡ is_nowhere config.now }
{
    config.http_links.is_some() && config.http.is_none()
}

/// Tests both addresses, the streams and open tables together, and the sum.
pub(crate) fn check_whole(config: &Config) -> Result<(), ConfigFail>
    requires numbers { InRange config.now }
    requires rooms { AllPass has_room config.now.opens }
    ensures tells { Tells result (whole_refusal config.now) }
{
    if is_taken(config) {
        return Err(ConfigFail::Range { key: Key::Http });
    }
    if is_nowhere(config) {
        return Err(ConfigFail::Missing { key: Key::Http });
    }
    let places = config.places.as_slice();
    let opens = config.opens.as_slice();
    if places.is_empty() && opens.is_empty() {
        return Err(ConfigFail::Missing { key: Key::Stream });
    }
    if places.len() > MOST_NAMES {
        return Err(ConfigFail::Range { key: Key::Stream });
    }
    if !fit(opens, (MOST_NAMES - places.len()) as u32) {
        return Err(ConfigFail::Range { key: Key::Names });
    }
    if let Some(place) = twice_of(config) {
        return Err(ConfigFail::Twice { place });
    }
    let sum = sum(config);
    if sum > MOST_SUM {
        return Err(ConfigFail::TooMuch { sum });
    }
    Ok(())
}
