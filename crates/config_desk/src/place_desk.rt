//! The desk of a relay: its places, each with its grants, and the guards that judge keys.
ghost use Rattle.std.specs.Prelude.{◌≡◌, ◌≤◌, ◌+◌, ◌^◌, if◌then◌else◌, List, length};
ghost use Rattle.command_dialog.specs.declared.types.Ask.{Ask as AnAsk};
ghost use Rattle.command_dialog.specs.declared.types.Grant.{Grant as AGrant};
ghost use Rattle.relay_config.specs.declared.config.PlaceRule.{PlaceRule as APlaceRule};
ghost use Rattle.relay_config.specs.declared.config.OpenRule.{OpenRule as AnOpenRule};
ghost use Rattle.config_desk.specs.Grants.{IsGranted, granted_from, grants_for, has_app, is_named, judged, opened_from, stream_keys, table_keys};

use command_dialog::{Ask, Grant, Role};
use key_guard::{Grants, Guards};
use relay_config::{OpenRule, OpenRules, PlaceList, PlaceRule};
use relay_session::Desk;
use stream_model::is_name;

/// The places of a relay with their grants, and the guards that judge keys.
pub struct PlaceDesk<'a> {
    /// The authenticators that judge keys.
    pub guards: &'a Guards,
    /// The streams. The place of a grant is a stream's number in this list, from 0 on.
    pub list: &'a PlaceList,
    /// The open tables, which have the places behind those of the streams.
    pub opens: &'a OpenRules,
    ghost few: { length list.now + length opens.now ≤ 2 ^ 32 },
}

impl<'a> PlaceDesk<'a> {
    /// Makes the desk of these streams and open tables, of which there are at most 2^32.
    pub fn new(guards: &'a Guards, list: &'a PlaceList, opens: &'a OpenRules) -> PlaceDesk<'a>
        requires { length list.now + length opens.now ≤ 2 ^ 32 }
        ensures { (result.list.now ≡ list.now) × (result.opens.now ≡ opens.now) }
    {
        PlaceDesk {
            guards,
            list,
            opens,
        }
    }
}

impl Desk for PlaceDesk<'_> {
    ghost grants = { λ d ask. granted_from 0 d.list.now d.opens.now ask };

    fn grant(&self, ask: &Ask) -> Grant {
        let mut left = self.list.as_slice();
        let mut place: u64 = 0;
        while let [rule, rest @ ..] = left {
            if is_asked(rule, ask) {
                return judge_stream(self.guards, rule, ask, place as u32);
            }
            place += 1;
            left = rest;
        }
        opened(self.guards, self.opens.as_slice(), ask, place)
    }
}

// Returns whether the stream has the names that are asked for.
fn is_asked(rule: &PlaceRule, ask: &Ask) -> bool
    ensures { result ≡ is_named rule.now ask.now }
{
    rule.app.as_slice() == ask.app.as_slice() && rule.name.as_slice() == ask.name.as_slice()
}

// Returns whether the open table has the app that is asked for.
fn is_app(rule: &OpenRule, ask: &Ask) -> bool
    ensures { result ≡ has_app rule.now ask.now }
{
    rule.app.as_slice() == ask.app.as_slice()
}

// Returns the grant of the open tables, the first of which has that place.
fn opened(guards: &Guards, opens: &[OpenRule], ask: &Ask, first: u64) -> Grant
    requires { first + length opens.now ≤ 2 ^ 32 }
    ensures { result ≡ opened_from first opens.now ask.now }
{
    if !is_name(ask.name.as_slice()) {
        return Grant::NoName;
    }
    let mut left = opens;
    let mut place = first;
    while let [rule, rest @ ..] = left {
        if is_app(rule, ask) {
            return judge_table(guards, rule, ask, place as u32);
        }
        place += 1;
        left = rest;
    }
    Grant::NoName
}

// Returns the keys that a stream takes for that role.
fn stream_grants(rule: &PlaceRule, role: Role) -> &Grants
    ensures { result.now ≡ grants_for role (stream_keys rule.now) }
{
    match role {
        Role::Publish => &rule.publish,
        Role::Play => &rule.play,
    }
}

// Returns the keys that an open table takes for that role.
fn table_grants(rule: &OpenRule, role: Role) -> &Grants
    ensures { result.now ≡ grants_for role (table_keys rule.now) }
{
    match role {
        Role::Publish => &rule.publish,
        Role::Play => &rule.play,
    }
}

fn granted(allowed: bool, place: u32) -> Grant
    ensures { result ≡ (if allowed then Grant.Place place else Grant.Refused) }
{
    if allowed {
        Grant::Place(place)
    } else {
        Grant::Refused
    }
}

// Returns the grant at a stream that has the names.
fn judge_stream(guards: &Guards, rule: &PlaceRule, ask: &Ask, place: u32) -> Grant
    ensures { result ≡ judged (stream_keys rule.now) ask.now place }
{
    let grants = stream_grants(rule, ask.role);
    let allowed = guards.allows(rule.mode, grants, ask.name.as_slice(), ask.key.as_slice());
    granted(allowed, place)
}

// Returns the grant at an open table that has the app, to a name that a caller may give.
fn judge_table(guards: &Guards, rule: &OpenRule, ask: &Ask, place: u32) -> Grant
    ensures { result ≡ judged (table_keys rule.now) ask.now place }
{
    let grants = table_grants(rule, ask.role);
    let allowed = guards.allows(rule.mode, grants, ask.name.as_slice(), ask.key.as_slice());
    granted(allowed, place)
}

/// Shows the grants of a desk. If no place has the names, it is `NoName`. Else the place of the names
/// decides: the grant is `Refused` if the place's grants for that role don't allow the key, and the place
/// itself if they do. Nothing else is granted.
///
/// Names have the place of the first stream that has them. If there is none, they have that of the first open
/// table of the app, if the name is one that a caller may give.
pub fn grants_law()
    ensures granted { (places : List APlaceRule) (opens : List AnOpenRule) (ask : AnAsk)
        → IsGranted 0 places opens ask (granted_from 0 places opens ask) }
    ensures only { (places : List APlaceRule) (opens : List AnOpenRule) (ask : AnAsk) (grant : AGrant)
        → IsGranted 0 places opens ask grant → granted_from 0 places opens ask ≡ grant }
{}
