ghost use Rattle.std.specs.Prelude.{◌≡◌, ℕ, ◌<◌, ◌≤◌, ◌+◌, ◌*◌, ◌^◌, true, [], ◌∷◌, length, position, is_none, vec_len, IfOk, OnErr, slice_index_or};
ghost use Rattle.stream_model.specs.Held.{held};
ghost use Rattle.std.specs.Option.{IfSome};
ghost use Rattle.stream_model.specs.Answer.{reply, IsSent};
ghost use Rattle.stream_model.specs.History.{items_of};
ghost use Rattle.stream_model.specs.Known.{StreamKnown, answered, IsLawful};
ghost use Rattle.stream_model.specs.Legal.{Legal};
ghost use Rattle.stream_model.specs.Pool.{asks_begin, asks_join, is_free, none_held, cleared, is_published_by, is_played_by};
ghost use Rattle.stream_model.specs.Answer.{is_who};
ghost use Rattle.stream_model.specs.History.{publisher, holder};
ghost use Rattle.stream_core.specs.Placed.{free_place};
ghost use Rattle.stream_core.specs.Alone.{DependsOnItsOwn};
ghost use Rattle.stream_core.specs.Itemless.{Itemless};
ghost use Rattle.stream_core.specs.Tally.{tally_after};

use crate::place::{Place, is_who};
use crate::shared::itemless_again;
use crate::take::{answer, answer_twice, join_place};
use crate::tally::Tally;
use av_unit::{Item, OutOfMemory, UnitArc, Want};
use past::{History, Pair};
use player_cursor::Cursor;
use std::alloc::Global;
use std::marker::Model;
use std::snapshot::Snapshot;
use stream_law::{takes_alone, viewers_law};
use stream_model::{Call, Entry, Reply, StreamLimits};
use unit_ring::Ring;

/// The caller name under which a slot of a pool publishes the markers of a name that it takes. No reply
/// depends on it.
const NOBODY: u64 = u64::MAX;

/// One stream: the items published on it, and the players that take from it.
///
/// It keeps a bounded ring of the items, and for each player a cursor of a few numbers. The ring's slots and
/// the players' places are taken when it is made. So a call takes memory only to share a unit with a player
/// once more.
#[derive(Drop)]
pub struct Stream {
    ring: Ring,
    publisher: Option<u64>,
    places: Vec<Place>,
    tally: Tally,
    past: History<Pair<Entry, Reply>>,
}

impl Model for Stream {
    ghost use Rattle.stream_model.specs.Known.{StreamKnown};
    ghost use Rattle.stream_core.specs.IsPast.{IsPast};

    ghost Value = { StreamKnown };

    ghost view = { λ s. record { limits = s.ring.limits; past = s.past } };

    ghost invariant = { λ s. IsPast s.ring s.publisher s.places.items s.tally s.past };
}

impl Stream {
    /// Makes a stream that has had no call. It takes all slots of its ring and the places of all its players.
    pub fn new(alloc: Global, limits: StreamLimits) -> Result<Stream, OutOfMemory>
        ensures { IfOk result (λ stream. stream ≡ record { limits = limits; past = [] }) }
    {
        Ok(Stream {
            ring: Ring::new(alloc, limits)?,
            publisher: None,
            places: free_places(alloc, limits.players)?,
            tally: Tally::new(),
            past: History::new(),
        })
    }

    /// Answers the call by the rules of one stream. It requires that fewer than 3 times 2^62 items were
    /// published. Memory can be refused only at a Take that the rules answer with an item; a call refused for
    /// memory changes nothing. Whatever the calls so far, the items that each player was sent since its Join
    /// keep the viewer's law. The answer to a Take depends on the items and that player's own answers alone.
    pub fn apply(&mut self, entry: Entry) -> Result<Reply, OutOfMemory>
        requires { length (items_of self.old.past) < 3 * 2 ^ 62 }
        ensures ok { IfOk result (λ r. (r ≡ reply self.old.limits self.old.past entry) × (self.new ≡ answered self.old entry r)) }
        ensures err { OnErr result (self.new ≡ self.old) }
        ensures memory { OnErr result (IsSent (reply self.old.limits self.old.past entry)) }
        ensures viewers { (place : ℕ) → Legal self.new.limits self.new.past place }
        ensures alone { IfOk result (λ r. DependsOnItsOwn self.old.limits self.old.past entry r) }
    {
        let reply = self.answer(entry);
        self.history_law();
        takes_alone();
        reply
    }

    /// Answers as `apply` does, and gives the reply twice, for a port that keeps a journal. Both shares of a
    /// unit are taken first, and a call refused for memory changes nothing.
    pub fn apply_twice(&mut self, entry: Entry) -> Result<(Reply, Reply), OutOfMemory>
        requires { length (items_of self.old.past) < 3 * 2 ^ 62 }
        ensures ok { IfOk result (λ r. (r.0 ≡ reply self.old.limits self.old.past entry) × (self.new ≡ answered self.old entry r.0) × (r.1 ≡ r.0)) }
        ensures err { OnErr result (self.new ≡ self.old) }
        ensures memory { OnErr result (IsSent (reply self.old.limits self.old.past entry)) }
        ensures viewers { (place : ℕ) → Legal self.new.limits self.new.past place }
    {
        let replies = self.answer_twice(entry);
        self.history_law();
        replies
    }

    /// Gives the sum of the lengths of the bodies of the items in the window and of the configurations in
    /// effect at its base, in bytes. It is at most the limit plus 196,608, after any calls.
    pub fn held(&self) -> u64
        ensures sum { result ≡ held self.now.limits (items_of self.now.past) }
        ensures most { result ≤ self.now.limits.bytes + 196608 }
        ensures fits { result < 2 ^ 55 }
    {
        self.ring.held()
    }

    /// Each call so far was answered by the rules, and the items that each player was sent keep the viewer's
    /// law.
    pub fn history_law(&self)
        ensures rules { IsLawful self.now.limits self.now.past }
        ensures viewers { (place : ℕ) → Legal self.now.limits self.now.past place }
    {
        let _ = &self.ring;
        viewers_law();
    }

    /// A call publishes at most one item.
    pub(crate) fn few_items(&self)
        ensures { length (items_of self.now.past) ≤ length self.now.past }
    {}

    /// Tells whether it isn't live, and no caller holds a place of it.
    pub(crate) fn is_free(&self) -> bool
        ensures { result ≡ is_free self.now }
    {
        let _ = &self.ring;
        self.publisher.is_none() && none_held(&self.places)
    }

    /// Tells whether it is live, and that caller publishes.
    pub(crate) fn is_published_by(&self, who: u64) -> bool
        ensures { result ≡ is_who (publisher self.now.past) who }
    {
        let _ = &self.ring;
        is_who(self.publisher, who)
    }

    /// Tells whether that caller holds the place.
    pub(crate) fn is_played_by(&self, who: u64, player: u32) -> bool
        ensures { result ≡ is_who (holder self.now.past player) who }
    {
        let _ = &self.ring;
        match self.places.get(player as usize) {
            Some(place) => place.is_held_by(who),
            None => false,
        }
    }

    /// Appends a Begin and an End, which no caller asked for.
    pub(crate) fn clear(&mut self)
        requires free { is_free self.old ≡ true }
        requires few { length (items_of self.old.past) + 1 < 3 * 2 ^ 62 }
        ensures { self.new ≡ cleared self.old }
    {
        let begin = Entry {
            who: NOBODY,
            at: 0,
            call: Call::Begin,
        };
        let end = Entry {
            who: NOBODY,
            at: 0,
            call: Call::End,
        };
        self.begin(Snapshot::of(&begin), NOBODY);
        self.end(Snapshot::of(&end), NOBODY);
    }

    fn answer(&mut self, entry: Entry) -> Result<Reply, OutOfMemory>
        requires { length (items_of self.old.past) < 3 * 2 ^ 62 }
        ensures ok { IfOk result (λ r. (r ≡ reply self.old.limits self.old.past entry) × (self.new ≡ answered self.old entry r)) }
        ensures err { OnErr result (self.new ≡ self.old) }
        ensures memory { OnErr result (IsSent (reply self.old.limits self.old.past entry)) }
    {
        let seen = Snapshot::of(&entry);
        let Entry { who, at: _, call } = entry;
        match call {
            Call::Begin => Ok(self.begin(seen, who)),
            Call::Push(unit) => Ok(self.push(seen, who, unit)),
            Call::End => Ok(self.end(seen, who)),
            Call::Join => Ok(self.join(seen, who)),
            Call::Take { player, want } => self.take(seen, who, player, want),
            Call::Leave { player } => Ok(self.leave(seen, who, player)),
            Call::Count => Ok(self.count(seen)),
            Call::BeginAs(_) => Ok(self.begin(seen, who)),
            Call::JoinAs(_) => Ok(self.join(seen, who)),
        }
    }

    fn answer_twice(&mut self, entry: Entry) -> Result<(Reply, Reply), OutOfMemory>
        requires { length (items_of self.old.past) < 3 * 2 ^ 62 }
        ensures ok { IfOk result (λ r. (r.0 ≡ reply self.old.limits self.old.past entry) × (self.new ≡ answered self.old entry r.0) × (r.1 ≡ r.0)) }
        ensures err { OnErr result (self.new ≡ self.old) }
        ensures memory { OnErr result (IsSent (reply self.old.limits self.old.past entry)) }
    {
        let seen = Snapshot::of(&entry);
        let Entry { who, at: _, call } = entry;
        match call {
            Call::Begin => Ok(twice(self.begin(seen, who))),
            Call::Push(unit) => Ok(twice(self.push(seen, who, unit))),
            Call::End => Ok(twice(self.end(seen, who))),
            Call::Join => Ok(twice(self.join(seen, who))),
            Call::Take { player, want } => self.take_twice(seen, who, player, want),
            Call::Leave { player } => Ok(twice(self.leave(seen, who, player))),
            Call::Count => Ok(twice(self.count(seen))),
            Call::BeginAs(_) => Ok(twice(self.begin(seen, who))),
            Call::JoinAs(_) => Ok(twice(self.join(seen, who))),
        }
    }

    pub(crate) fn begin(&mut self, seen: Snapshot<Entry>, who: u64) -> Reply
        requires call { (seen.value.who ≡ who) × (asks_begin seen.value.call ≡ true) }
        requires few { length (items_of self.old.past) < 3 * 2 ^ 62 }
        ensures { (result ≡ reply self.old.limits self.old.past seen.value) × (self.new ≡ answered self.old seen.value result) }
    {
        if let Some(by) = self.publisher {
            return noted(&mut self.past, &mut self.tally, seen, Reply::InUse { by });
        }
        let n = self.ring.end();
        self.ring.push(Item::Begin);
        self.publisher = Some(who);
        noted(&mut self.past, &mut self.tally, seen, Reply::Began { n })
    }

    pub(crate) fn push(&mut self, seen: Snapshot<Entry>, who: u64, unit: UnitArc) -> Reply
        requires call { (seen.value.who ≡ who) × (seen.value.call ≡ Call.Push unit) }
        requires few { length (items_of self.old.past) < 3 * 2 ^ 62 }
        ensures { (result ≡ reply self.old.limits self.old.past seen.value) × (self.new ≡ answered self.old seen.value result) }
    {
        if !is_who(self.publisher, who) {
            let live = self.publisher;
            return noted(
                &mut self.past,
                &mut self.tally,
                seen,
                Reply::NotPublisher { live },
            );
        }
        let n = self.ring.end();
        self.ring.push(Item::Unit(unit));
        noted(&mut self.past, &mut self.tally, seen, Reply::Pushed { n })
    }

    pub(crate) fn end(&mut self, seen: Snapshot<Entry>, who: u64) -> Reply
        requires call { (seen.value.who ≡ who) × (seen.value.call ≡ Call.End) }
        requires few { length (items_of self.old.past) < 3 * 2 ^ 62 }
        ensures { (result ≡ reply self.old.limits self.old.past seen.value) × (self.new ≡ answered self.old seen.value result) }
    {
        if !is_who(self.publisher, who) {
            let live = self.publisher;
            return noted(
                &mut self.past,
                &mut self.tally,
                seen,
                Reply::NotPublisher { live },
            );
        }
        let n = self.ring.end();
        self.ring.push(Item::End);
        self.publisher = None;
        noted(&mut self.past, &mut self.tally, seen, Reply::Ended { n })
    }

    pub(crate) fn join(&mut self, seen: Snapshot<Entry>, who: u64) -> Reply
        requires { (seen.value.who ≡ who) × (asks_join seen.value.call ≡ true) }
        ensures { (result ≡ reply self.old.limits self.old.past seen.value) × (self.new ≡ answered self.old seen.value result) }
    {
        match free_place(&self.places) {
            None => noted(&mut self.past, &mut self.tally, seen, Reply::Full),
            Some(place) => {
                let from = join_place(&self.ring);
                self.places[place] = Place {
                    who: Some(who),
                    cursor: Cursor::at(from),
                };
                let player = place as u32;
                noted(
                    &mut self.past,
                    &mut self.tally,
                    seen,
                    Reply::Joined { player, from },
                )
            }
        }
    }

    pub(crate) fn take(
        &mut self,
        seen: Snapshot<Entry>,
        who: u64,
        player: u32,
        want: Want,
    ) -> Result<Reply, OutOfMemory>
        requires call { (seen.value.who ≡ who) × (seen.value.call ≡ Call.Take player want) }
        requires few { length (items_of self.old.past) < 3 * 2 ^ 62 }
        ensures ok { IfOk result (λ r. (r ≡ reply self.old.limits self.old.past seen.value) × (self.new ≡ answered self.old seen.value r)) }
        ensures err { OnErr result (self.new ≡ self.old) }
        ensures memory { OnErr result (IsSent (reply self.old.limits self.old.past seen.value)) }
    {
        let place = player as usize;
        if place >= self.places.len() {
            return Ok(noted(&mut self.past, &mut self.tally, seen, Reply::NotPlayer));
        }
        let state = &mut self.places[place];
        if !state.is_held_by(who) {
            return Ok(noted(&mut self.past, &mut self.tally, seen, Reply::NotPlayer));
        }
        let taken = answer(&self.ring, &mut state.cursor, want)?;
        Ok(noted(&mut self.past, &mut self.tally, seen, taken.into_reply()))
    }

    pub(crate) fn take_twice(
        &mut self,
        seen: Snapshot<Entry>,
        who: u64,
        player: u32,
        want: Want,
    ) -> Result<(Reply, Reply), OutOfMemory>
        requires call { (seen.value.who ≡ who) × (seen.value.call ≡ Call.Take player want) }
        requires few { length (items_of self.old.past) < 3 * 2 ^ 62 }
        ensures ok { IfOk result (λ r. (r.0 ≡ reply self.old.limits self.old.past seen.value) × (self.new ≡ answered self.old seen.value r.0) × (r.1 ≡ r.0)) }
        ensures err { OnErr result (self.new ≡ self.old) }
        ensures memory { OnErr result (IsSent (reply self.old.limits self.old.past seen.value)) }
    {
        let place = player as usize;
        if place >= self.places.len() {
            return Ok(twice(noted(&mut self.past, &mut self.tally, seen, Reply::NotPlayer)));
        }
        let state = &mut self.places[place];
        if !state.is_held_by(who) {
            return Ok(twice(noted(&mut self.past, &mut self.tally, seen, Reply::NotPlayer)));
        }
        let (taken, again) = answer_twice(&self.ring, &mut state.cursor, want)?;
        Ok((
            noted(&mut self.past, &mut self.tally, seen, taken.into_reply()),
            again.into_reply(),
        ))
    }

    pub(crate) fn leave(&mut self, seen: Snapshot<Entry>, who: u64, player: u32) -> Reply
        requires { (seen.value.who ≡ who) × (seen.value.call ≡ Call.Leave player) }
        ensures { (result ≡ reply self.old.limits self.old.past seen.value) × (self.new ≡ answered self.old seen.value result) }
    {
        let place = player as usize;
        if place >= self.places.len() {
            return noted(&mut self.past, &mut self.tally, seen, Reply::NotPlayer);
        }
        let state = &mut self.places[place];
        if !state.is_held_by(who) {
            return noted(&mut self.past, &mut self.tally, seen, Reply::NotPlayer);
        }
        state.who = None;
        noted(
            &mut self.past,
            &mut self.tally,
            seen,
            Reply::Left { player },
        )
    }

    pub(crate) fn count(&mut self, seen: Snapshot<Entry>) -> Reply
        requires { seen.value.call ≡ Call.Count }
        ensures { (result ≡ reply self.old.limits self.old.past seen.value) × (self.new ≡ answered self.old seen.value result) }
    {
        let reply = self.tally.reply();
        noted(&mut self.past, &mut self.tally, seen, reply)
    }
}

// Gives a reply without an item, twice.
pub(crate) fn twice(reply: Reply) -> (Reply, Reply)
    requires { Itemless reply }
    ensures { (result.0 ≡ reply) × (result.1 ≡ reply) }
{
    let again = itemless_again(&reply);
    (reply, again)
}

// Counts the reply, adds it to the past, and gives it back.
pub(crate) fn noted(
    past: &mut History<Pair<Entry, Reply>>,
    tally: &mut Tally,
    seen: Snapshot<Entry>,
    reply: Reply,
) -> Reply
    ensures { (result ≡ reply) × (past.new ≡ (seen.value, reply) ∷ past.old) × (tally.new ≡ tally_after reply tally.old) }
{
    tally.note(&reply);
    past.add(&Pair::of(seen, &reply));
    reply
}

fn free_places(alloc: Global, count: u32) -> Result<Vec<Place>, OutOfMemory>
    ensures count { IfOk result (λ places. vec_len places ≡ count) }
    ensures free { IfOk result (λ places. (p : ℕ) → slice_index_or places.items p free_place ≡ free_place) }
{
    let mut places = Vec::new(alloc);
    for _ in 0..count {
        places.push(Place::free())?;
    }
    Ok(places)
}

// Tells whether none of them has a holder.
fn none_held(places: &[Place]) -> bool
    ensures { result ≡ none_held (λ p. (slice_index_or places.now p free_place).who) (length places.now) }
{
    let mut none = true;
    for (_p, place) in places.iter().enumerate() {
        none = none && place.who.is_none();
    }
    none
}

// Finds the least place without a holder.
fn free_place(places: &[Place]) -> Option<usize>
    ensures place { result ≡ position (λ p. is_none p.who) places.now }
    ensures within { IfSome result (λ p. p < length places.now) }
{
    places.iter().position(|p| p.who.is_none())
}
