ghost use Rattle.std.specs.Prelude.{◌≡◌, ◌↔◌, ◌<◌, ◌≤◌, ◌+◌, ◌^◌, ◌++◌, [], length, All, IfOk, OnOk, Some, None, Ok, Err, true};
ghost use Rattle.std.specs.Prelude.{false, ◌∷◌, option_map, slice_get, slice_index_or};
ghost use Rattle.config_desk.specs.Grants.{granted_from};
ghost use Rattle.relay_replay.specs.Stand.{defaults, allows, is_setting, names_in, takes_at, takes_stream, takes_table, table_takes, keyed_at, table_keyed_at};
ghost use Rattle.relay_replay.specs.Stand.{count, has_recorder, has_room, has_session, is_short, no_plan, open_place, open_table, plan};
ghost use Rattle.relay_replay.specs.Plays.{Plays, session_in};
ghost use Rattle.relay_replay.specs.Scenes.{AreNamed, AreNew, Does, IsNewCast, IsNewRecorder, IsOpen, IsSound, IsThere, SettledIn, Sits, is_acting, opened_by};
ghost use Rattle.relay_replay.specs.Scenes.{stand_of, start, stream_limits};
ghost use Rattle.relay_replay.specs.Prints.{Prints};
ghost use Rattle.relay_replay.specs.Sums.{Sums};

use crate::cast::Cast;
use crate::places::{
    add_key, add_table_key, is_listed, is_taken, name_list, names_of, open_place, open_table,
    table_list, takes_mode,
};
use crate::recording::{Plan, Recording};
use crate::report::report;
use crate::summary::summary;
use av_unit::{Bytes, OutOfMemory};
use config_desk::PlaceDesk;
use key_guard::{Guards, Mode};
use relay_base::Limits;
use relay_config::{OpenRule, OpenRules, PlaceList, PlaceRule};
use relay_script::{Form, LineFail, ReplayLine, Side};
use std::alloc::Global;
use std::marker::Model;
use stream_core::StreamLimits;
use stream_registry::Sole;

/// The most streams and names of open tables of a replay, and the most sessions, players over HTTP and edges together.
const MOST: u64 = 64;

/// The most bytes of a stream's name.
const MOST_OF_NAME: usize = 64;

/// The name of the first recorder; those of sessions are below it.
const FIRST_RECORDER: u64 = 1 << 60;

// The limits of which a script says none.
fn default_limits() -> Limits
    ensures { result ≡ defaults }
{
    Limits {
        max_message: 4_194_304,
        ring_bytes: 33_554_432,
        ring_items: 16_384,
        players: 256,
        window: 2_500_000,
    }
}

/// A replay between two lines of its script: the settings of the lines so far, and the sessions and
/// recorders that run by them. Players over HTTP and edges are numbered among the sessions, and each
/// statement about a session below holds of them too.
#[derive(Drop)]
pub struct Scene {
    alloc: Global,
    // No line has done something.
    fresh: bool,
    limits: Limits,
    places: PlaceList,
    opens: OpenRules,
    recorders: Vec<Plan>,
    // None before the first line that acts.
    cast: Option<Cast>,
}

impl Model for Scene {
    ghost use Rattle.relay_replay.specs.Scenes.{SceneState};

    ghost Value = { SceneState };

    ghost view = { λ s. record { fresh = s.fresh; limits = s.limits; places = s.places; opens = s.opens; recorders = s.recorders.items; cast = s.cast } };
}

// ---- the parts that run at first

fn stream_limits(limits: Limits) -> StreamLimits
    ensures { result ≡ stream_limits limits }
{
    StreamLimits {
        bytes: limits.ring_bytes,
        items: limits.ring_items,
        players: limits.players,
    }
}

// The recorder with that number, as it is planned. It writes units of at most `longest` bytes.
fn recording_at(
    alloc: Global,
    plans: &[Plan],
    i: usize,
    longest: u32,
) -> Result<Recording, OutOfMemory>
    requires { i < length plans.now }
    ensures new { IfOk result (λ r. IsNewRecorder (2 ^ 60 + i) (slice_index_or plans.now i no_plan) r) }
    ensures longest { IfOk result (λ r. r.recorder.tape.longest ≡ longest) }
{
    Recording::new(alloc, plans[i], FIRST_RECORDER + i as u64, longest)
}

// The recorders that are planned.
fn recordings(alloc: Global, plans: &[Plan], longest: u32) -> Result<Vec<Recording>, OutOfMemory>
    ensures new { IfOk result (λ rs. AreNew 0 plans.now rs.items) }
    ensures longest { IfOk result (λ rs. All (λ r. r.recorder.tape.longest ≡ longest) rs.items) }
{
    let mut list = Vec::new(alloc);
    for i in 0..plans.len() {
        list.push(recording_at(alloc, plans, i, longest)?)?;
    }
    Ok(list)
}

// Empty histories, no session, and the recorders.
#[tactic(auto, using(crate::proofs::New::are_few))]
fn new_cast(
    alloc: Global,
    limits: Limits,
    places: &[PlaceRule],
    opens: &[OpenRule],
    plans: &[Plan],
) -> Result<Cast, OutOfMemory>
    requires named { AreNamed places.now opens.now }
    requires spots { All (λ p. p.stream < length places.now) plans.now }
    ensures new { IfOk result (λ c. IsNewCast (record {
      fresh = false;
      limits = limits;
      places = places.now;
      opens = opens.now;
      recorders = plans.now;
      cast = None;
    }) c) }
    ensures sits { IfOk result (λ c. Sits places.now opens.now (length plans.now) c) }
{
    let recorders = recordings(alloc, plans, limits.max_message)?;
    let names = name_list(alloc, places)?;
    let tables = table_list(alloc, opens)?;
    let port = Sole::new(alloc, names, tables, stream_limits(limits))?;
    Ok(Cast::new(alloc, port, recorders))
}

// Which session a line is about.
fn session_in(line: &ReplayLine) -> Option<u32>
    ensures { result ≡ session_in line.now }
{
    match line {
        ReplayLine::Piece { session, bytes: _ } => Some(*session),
        ReplayLine::Eof(session) => Some(*session),
        ReplayLine::Room { session, left: _ } => Some(*session),
        ReplayLine::FailRecv(session) => Some(*session),
        ReplayLine::FailSend(session) => Some(*session),
        ReplayLine::Quit(session) => Some(*session),
        _ => None,
    }
}

// Does the action of a line that acts.
#[tactic(auto, using(crate::proofs::Opening::by_session, crate::proofs::Opening::by_http, crate::proofs::Opening::by_edge, crate::proofs::Opening::by_line))]
fn play(
    desk: &PlaceDesk<'_>,
    limits: Limits,
    cast: &mut Cast,
    line: ReplayLine,
) -> Result<(), OutOfMemory>
    requires message { limits.max_message ≤ 4194304 }
    requires sits { Sits desk.now.list.now desk.now.opens.now (length cast.old.recorders) cast.old }
    requires there { IsThere line cast.old }
    ensures plays { OnOk result (Plays limits (granted_from 0 desk.now.list.now desk.now.opens.now) line cast.old cast.new) }
    ensures sits { OnOk result (Sits desk.now.list.now desk.now.opens.now (length cast.old.recorders) cast.new) }
    ensures count { OnOk result (length cast.new.sessions ≡ opened_by line (length cast.old.sessions)) }
{
    match line {
        ReplayLine::Session => cast.open(limits),
        ReplayLine::OpenHttp => cast.open_http(limits),
        ReplayLine::OpenEdge { stream, app, name } => cast.open_edge(limits, stream, app, name),
        ReplayLine::FailPut(recorder) => {
            cast.fail_put(recorder);
            Ok(())
        }
        ReplayLine::Turn { session, count } => cast.turns(session, count, desk),
        ReplayLine::Rec { recorder, count } => cast.recs(recorder, count, desk),
        ReplayLine::All(count) => cast.rounds(count, desk),
        line => match session_in(&line) {
            Some(session) => cast.tell(session, line),
            None => Ok(()),
        },
    }
}

// How many sessions are open.
fn count_in(cast: &Option<Cast>) -> usize
    ensures { result ≡ count (option_map (λ c. length c.sessions) cast.now) }
{
    match cast {
        None => 0,
        Some(cast) => cast.sessions().len(),
    }
}

// Whether an edge may ask for that name.
fn is_short(name: &[u8]) -> bool
    ensures { result ≡ is_short name.now }
{
    1 <= name.len() && name.len() <= MOST_OF_NAME
}

impl Scene {
    /// A script of which no line was read.
    pub fn new(alloc: Global) -> Scene
        ensures start { result ≡ start }
        ensures sound { IsSound result }
    {
        Scene {
            alloc,
            fresh: true,
            limits: default_limits(),
            places: PlaceList::from_vec(Vec::new(alloc)),
            opens: OpenRules::from_vec(Vec::new(alloc)),
            recorders: Vec::new(alloc),
            cast: None,
        }
    }

    /// Lets the scene go. A caller that makes a scene ends it by this call: if it is dropped, the check of
    /// the caller's crate proves again the release of each of its parts.
    pub fn end(self) {}

    fn has_session(&self, n: u32) -> bool
        ensures { result ≡ has_session n (stand_of self.now) }
    {
        (n as usize) < count_in(&self.cast)
    }

    fn has_recorder(&self, n: u32) -> bool
        ensures { result ≡ has_recorder n (stand_of self.now) }
    {
        (n as usize) < self.recorders.len()
    }

    // Whether a session, a player or an edge more may be opened.
    fn has_room(&self) -> bool
        ensures { result ≡ has_room (stand_of self.now) }
    {
        (count_in(&self.cast) as u64) < MOST
    }

    // Whether no line has acted.
    fn is_setting(&self) -> bool
        ensures { result ≡ is_setting (stand_of self.now).sessions }
    {
        self.cast.is_none()
    }

    fn takes_at(&self, n: u32, mode: Mode) -> bool
        ensures { result ≡ takes_at (slice_get self.now.places n) mode }
    {
        match self.places.as_slice().get(n as usize) {
            None => false,
            Some(rule) => takes_mode(rule.mode, &rule.publish, &rule.play, mode),
        }
    }

    fn table_takes(&self, n: u32, mode: Mode) -> bool
        ensures { result ≡ table_takes (slice_get self.now.opens n) mode }
    {
        match self.opens.as_slice().get(n as usize) {
            None => false,
            Some(rule) => takes_mode(rule.mode, &rule.publish, &rule.play, mode),
        }
    }

    // The streams, and the names that open tables have at a time.
    fn names(&self) -> u64
        requires { names_in (stand_of self.now) ≤ 64 }
        ensures { result ≡ names_in (stand_of self.now) }
    {
        self.places.len() as u64 + u64::from(names_of(self.opens.as_slice()))
    }

    // Whether a stream may have these names.
    fn takes_stream(&self, app: &[u8], name: &[u8]) -> bool
        requires { names_in (stand_of self.now) ≤ 64 }
        ensures { result ≡ takes_stream app.now name.now (stand_of self.now) }
    {
        name.len() <= MOST_OF_NAME
            && (self.names() < MOST && !is_listed(app, name, self.places.as_slice()))
    }

    // Whether an open table may have this application, and that number of names.
    fn takes_table(&self, app: &[u8], names: u32) -> bool
        requires { names_in (stand_of self.now) ≤ 64 }
        ensures { result ≡ takes_table app.now names (stand_of self.now) }
    {
        1 <= names
            && (self.names() + u64::from(names) <= MOST && !is_taken(app, self.opens.as_slice()))
    }

    // Whether the line may stand here.
    fn allows(&self, line: &ReplayLine) -> bool
        requires { names_in (stand_of self.now) ≤ 64 }
        ensures { result ≡ allows line.now (stand_of self.now) }
    {
        match line {
            ReplayLine::Nothing => true,
            ReplayLine::Limits {
                message,
                bytes,
                items: _,
                players: _,
                window: _,
            } => self.fresh && (*message <= 4_194_304 && *bytes <= 268_435_456),
            ReplayLine::Stream { app, name } => {
                self.is_setting() && self.takes_stream(app.as_slice(), name.as_slice())
            }
            ReplayLine::OpenApp { app, names } => {
                self.is_setting() && self.takes_table(app.as_slice(), *names)
            }
            ReplayLine::GuardOpen {
                table,
                side: _,
                mode,
                key: _,
            } => self.is_setting() && self.table_takes(*table, *mode),
            ReplayLine::Guard {
                stream,
                side: _,
                mode,
                key: _,
            } => self.is_setting() && self.takes_at(*stream, *mode),
            ReplayLine::Recorder { stream, form: _ } => {
                self.is_setting() && (*stream as usize) < self.places.len()
            }
            ReplayLine::Session => self.has_room(),
            ReplayLine::OpenHttp => self.has_room(),
            ReplayLine::OpenEdge { stream, app, name } => {
                self.has_room()
                    && ((*stream as usize) < self.places.len()
                        && (is_short(app.as_slice()) && is_short(name.as_slice())))
            }
            ReplayLine::FailPut(recorder) => self.has_recorder(*recorder),
            ReplayLine::Rec { recorder, count: _ } => self.has_recorder(*recorder),
            ReplayLine::All(_) => true,
            ReplayLine::Turn { session, count: _ } => self.has_session(*session),
            ReplayLine::Piece { session, bytes: _ } => self.has_session(*session),
            ReplayLine::Eof(session) => self.has_session(*session),
            ReplayLine::Room { session, left: _ } => self.has_session(*session),
            ReplayLine::FailRecv(session) => self.has_session(*session),
            ReplayLine::FailSend(session) => self.has_session(*session),
            ReplayLine::Quit(session) => self.has_session(*session),
        }
    }

    fn set_limits(&mut self, limits: Limits)
        ensures { self.new ≡ record self.old { fresh = false; limits = limits } }
    {
        self.fresh = false;
        self.limits = limits;
    }

    fn add_stream(&mut self, app: Bytes, name: Bytes) -> Result<(), OutOfMemory>
        ensures { OnOk result (self.new ≡ record self.old { fresh = false; places = self.old.places ++ open_place app name ∷ [] }) }
    {
        self.fresh = false;
        let none = PlaceList::from_vec(Vec::new(self.alloc));
        let mut places = std::mem::replace(&mut self.places, none).into_vec();
        places.push(open_place(app, name))?;
        self.places = PlaceList::from_vec(places);
        Ok(())
    }

    fn guard(&mut self, n: u32, side: Side, mode: Mode, key: Bytes) -> Result<(), OutOfMemory>
        requires { n < length self.old.places }
        ensures { OnOk result (self.new ≡ record self.old { fresh = false; places = keyed_at self.old.places n (slice_get self.old.places n) side mode key }) }
    {
        self.fresh = false;
        let none = PlaceList::from_vec(Vec::new(self.alloc));
        let mut places = std::mem::replace(&mut self.places, none).into_vec();
        add_key(self.alloc, &mut places[n as usize], side, mode, key)?;
        self.places = PlaceList::from_vec(places);
        Ok(())
    }

    fn add_table(&mut self, app: Bytes, names: u32) -> Result<(), OutOfMemory>
        ensures { OnOk result (self.new ≡ record self.old { fresh = false; opens = self.old.opens ++ open_table app names ∷ [] }) }
    {
        self.fresh = false;
        let none = OpenRules::from_vec(Vec::new(self.alloc));
        let mut opens = std::mem::replace(&mut self.opens, none).into_vec();
        opens.push(open_table(app, names))?;
        self.opens = OpenRules::from_vec(opens);
        Ok(())
    }

    fn guard_table(&mut self, n: u32, side: Side, mode: Mode, key: Bytes) -> Result<(), OutOfMemory>
        requires { n < length self.old.opens }
        ensures { OnOk result (self.new ≡ record self.old {
          fresh = false;
          opens = table_keyed_at self.old.opens n (slice_get self.old.opens n) side mode key;
        }) }
    {
        self.fresh = false;
        let none = OpenRules::from_vec(Vec::new(self.alloc));
        let mut opens = std::mem::replace(&mut self.opens, none).into_vec();
        add_table_key(self.alloc, &mut opens[n as usize], side, mode, key)?;
        self.opens = OpenRules::from_vec(opens);
        Ok(())
    }

    fn add_recorder(&mut self, stream: u32, form: Form) -> Result<(), OutOfMemory>
        ensures { OnOk result (self.new ≡ record self.old { fresh = false; recorders = self.old.recorders ++ plan stream form ∷ [] }) }
    {
        self.fresh = false;
        self.recorders.push(Plan { stream, form })?;
        Ok(())
    }

    // Returns the parts that run; from the first line that acts on.
    fn opened(&mut self) -> Result<Cast, OutOfMemory>
        requires { IsSound self.old }
        ensures open { IfOk result (λ c. IsOpen self.old.cast self.old c) }
        ensures sits { IfOk result (λ c. Sits self.old.places self.old.opens (length self.old.recorders) c) }
        ensures rest { self.new ≡ record self.old { cast = None } }
    {
        match std::mem::replace(&mut self.cast, None) {
            Some(cast) => return Ok(cast),
            None => {
                return new_cast(
                    self.alloc,
                    self.limits,
                    self.places.as_slice(),
                    self.opens.as_slice(),
                    &self.recorders,
                );
            }
        }
    }

    // Does the action of a line that acts.
    #[tactic(auto, using(crate::proofs::Limiting::acted_limited))]
    fn play(&mut self, guards: &Guards, line: ReplayLine) -> Result<(), OutOfMemory>
        requires sound { IsSound self.old }
        requires allowed { allows line (stand_of self.old) ≡ true }
        requires acts { is_acting line ≡ true }
        ensures does { OnOk result (Does line self.old self.new) }
        ensures sound { OnOk result (IsSound self.new) }
    {
        let mut cast = self.opened()?;
        let desk = PlaceDesk::new(guards, &self.places, &self.opens);
        let played = play(&desk, self.limits, &mut cast, line);
        let PlaceDesk {
            guards: _,
            list: _,
            opens: _,
        } = desk;
        self.fresh = false;
        self.cast = Some(cast);
        played?;
        Ok(())
    }

    // Does the action of a line that may stand here.
    #[tactic(auto, using(crate::proofs::Limiting::limited_if, crate::proofs::Limiting::none_limited, crate::proofs::Naming::named_so))]
    fn obey(&mut self, guards: &Guards, line: ReplayLine) -> Result<(), OutOfMemory>
        requires sound { IsSound self.old }
        requires allowed { allows line (stand_of self.old) ≡ true }
        ensures does { OnOk result (Does line self.old self.new) }
        ensures sound { OnOk result (IsSound self.new) }
    {
        match line {
            ReplayLine::Nothing => Ok(()),
            ReplayLine::Limits {
                message,
                bytes,
                items,
                players,
                window,
            } => {
                self.set_limits(Limits {
                    max_message: message,
                    ring_bytes: bytes,
                    ring_items: items,
                    players,
                    window,
                });
                Ok(())
            }
            ReplayLine::Stream { app, name } => self.add_stream(app, name),
            ReplayLine::Guard {
                stream,
                side,
                mode,
                key,
            } => self.guard(stream, side, mode, key),
            ReplayLine::OpenApp { app, names } => self.add_table(app, names),
            ReplayLine::GuardOpen {
                table,
                side,
                mode,
                key,
            } => self.guard_table(table, side, mode, key),
            ReplayLine::Recorder { stream, form } => self.add_recorder(stream, form),
            line => self.play(guards, line),
        }
    }

    /// Does the action of a line. The answer is `Outside` exactly if the line may not stand here, or names
    /// a stream, an open table, a recorder or a session that isn't there. With `Outside` nothing is done.
    pub fn act(&mut self, guards: &Guards, line: ReplayLine) -> Result<(), LineFail>
        requires sound { IsSound self.old }
        ensures does { OnOk result (Does line self.old self.new) }
        ensures sound { OnOk result (IsSound self.new) }
        ensures outside { (result ≡ Err LineFail.Outside) ↔ (allows line (stand_of self.old) ≡ false) }
        ensures refused { result ≡ Err LineFail.Outside → self.new ≡ self.old }
    {
        if !self.allows(&line) {
            return Err(LineFail::Outside);
        }
        match self.obey(guards, line) {
            Ok(()) => Ok(()),
            Err(_) => Err(LineFail::OutOfMemory),
        }
    }

    /// Takes turns of a session until one is answered `Idle`, or it has ended. The answer is false if
    /// `most` turns all moved something, and `Outside` exactly if the session isn't there. With `Outside`
    /// nothing is done.
    pub fn settle(&mut self, guards: &Guards, session: u32, most: u32) -> Result<bool, LineFail>
        requires sound { IsSound self.old }
        ensures settled { IfOk result (λ done. SettledIn done most session self.old self.new) }
        ensures sound { OnOk result (IsSound self.new) }
        ensures outside { (result ≡ Err LineFail.Outside) ↔ (has_session session (stand_of self.old) ≡ false) }
        ensures refused { result ≡ Err LineFail.Outside → self.new ≡ self.old }
    {
        if !self.has_session(session) {
            return Err(LineFail::Outside);
        }
        match self.settled(guards, session, most) {
            Ok(done) => Ok(done),
            Err(_) => Err(LineFail::OutOfMemory),
        }
    }

    // The same of a session that is there.
    #[tactic(auto, using(crate::proofs::Limiting::settled_limited))]
    fn settled(&mut self, guards: &Guards, session: u32, most: u32) -> Result<bool, OutOfMemory>
        requires sound { IsSound self.old }
        requires there { has_session session (stand_of self.old) ≡ true }
        ensures settled { IfOk result (λ done. SettledIn done most session self.old self.new) }
        ensures sound { OnOk result (IsSound self.new) }
    {
        let mut cast = self.opened()?;
        let desk = PlaceDesk::new(guards, &self.places, &self.opens);
        let settled = cast.settle(session, most, &desk);
        let PlaceDesk {
            guards: _,
            list: _,
            opens: _,
        } = desk;
        self.fresh = false;
        self.cast = Some(cast);
        let done = settled?;
        Ok(done)
    }

    /// Returns the outcome of a run. It has the number of units that the first stream was given. Of each
    /// session but the first it has three numbers: of the items it was sent of that stream, of its skips
    /// and of the bytes it was sent. It also has the number of bytes that all hold together, beside the
    /// most that they may. Nothing runs then.
    #[tactic(auto, using(crate::proofs::Limiting::opened_limited))]
    pub fn summary(&mut self) -> Result<Bytes, OutOfMemory>
        requires sound { IsSound self.old }
        requires some { 0 < length self.old.places }
        ensures sums { IfOk result (λ text. Sums self.old text) }
        ensures over { self.new ≡ record self.old { cast = None } }
    {
        let cast = self.opened()?;
        let text = summary(
            self.alloc,
            &self.limits,
            self.places.as_slice(),
            self.opens.as_slice(),
            &cast,
        );
        cast.end();
        text
    }

    /// Returns the text printed at the script's end. Of each session it has the bytes it was sent and its
    /// ending, and of each recorder its file and its ending. It also has the bytes that each stream and
    /// each open table holds, and those that all hold together, beside the most that they may. Nothing runs
    /// then.
    #[tactic(auto, using(crate::proofs::Limiting::opened_limited))]
    pub fn report(&mut self) -> Result<Bytes, OutOfMemory>
        requires { IsSound self.old }
        ensures prints { IfOk result (λ text. Prints self.old text) }
        ensures over { self.new ≡ record self.old { cast = None } }
    {
        let cast = self.opened()?;
        let text = report(
            self.alloc,
            &self.limits,
            self.places.as_slice(),
            self.opens.as_slice(),
            &cast,
        );
        cast.end();
        text
    }
}
