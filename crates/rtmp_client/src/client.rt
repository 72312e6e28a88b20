ghost use Rattle.std.specs.Prelude.{◌≡◌, ◌≤◌, ◌<◌, [], length, true, false, None, IfOk, OnOk, OnErr};
ghost use Rattle.client_owed.specs.declared.types.Given.TheVariants as given;
ghost use Rattle.client_owed.specs.declared.types.Wish.TheVariants.{Push};
ghost use Rattle.client_owed.specs.Standing.{gave_more, new_keeps, new_past, with_given};
ghost use Rattle.flv_tags.specs.Layout.{is_kind};
ghost use Rattle.rtmp_client.specs.Bounds.{IsHolding, IsInput, IsWithin};
ghost use Rattle.rtmp_client.specs.Causes.{Did, MayBe};
ghost use Rattle.rtmp_client.specs.ClientState.{StandsFor, TurnMade, has_started, lasting_of, life_of, untouched_of, without_gift};
ghost use Rattle.rtmp_client.specs.Keeping.{keeps_of, past_of};
ghost use Rattle.rtmp_client.specs.Owing.{Counts};
ghost use Rattle.rtmp_client.specs.Turns.{EndedBy};

use crate::giving::{give_finish, give_tag, take_gift};
use crate::held::held_in;
use crate::input::Input;
use crate::steps::new_core;
use crate::turn_steps::turn_on;
use crate::{ClientEnd, ClientTurn, Core};
use av_unit::{Bytes, OutOfMemory};
use client_owed::{Asked, Gift, Phase, Wish};
use flv_tags::Tag;
use relay_outside::Link;
use std::alloc::Global;
use std::marker::Model;

/// A client of an RTMP server.
///
/// Contracts see the bytes that it was fed, the tags that it was given and the gifts that it was told. They
/// also see the bytes that it owes and has sent, the input that it wasn't fed, and why it has ended, if it
/// has.
#[derive(Drop)]
pub struct Client {
    core: Core,
    input: Input,
    ended: Option<ClientEnd>,
}

impl Model for Client {
    ghost use Rattle.rtmp_client.specs.Bounds.{IsInput};
    ghost use Rattle.rtmp_client.specs.ClientState.{ClientState, IsClient};

    ghost Value = { ClientState };

    ghost view = { λ s. record { parts = s.core; input = s.input; ended = s.ended } };

    ghost invariant = { λ s. IsClient s.ended s.core × IsInput s.ended s.input };
}

impl Client {
    /// Makes a client that publishes or plays the stream of this name at an app of the server at an address. The
    /// address is told to the server, as `HOST:PORT` or in another form in which it was dialled. It takes messages
    /// of at most `max_message` bytes. Its first bytes are to be sent.
    pub fn new(
        alloc: Global,
        wish: Wish,
        address: Bytes,
        app: Bytes,
        name: Bytes,
        max_message: u32,
    ) -> Result<Client, OutOfMemory>
        requires address_most { length address ≤ 255 }
        requires app_some { 0 < length app }
        requires app_most { length app ≤ 255 }
        requires name_some { 0 < length name }
        requires name_most { length name ≤ 255 }
        requires most { max_message ≤ 4194304 }
        ensures asked { IfOk result (λ c. c.parts.asked ≡ record { wish = wish; address = address; app = app; name = name }) }
        ensures max { IfOk result (λ c. c.parts.reader.max ≡ max_message) }
        ensures past { IfOk result (λ c. past_of c.parts ≡ new_past) }
        ensures keeps { IfOk result (λ c. keeps_of c.parts ≡ new_keeps) }
        ensures others { IfOk result (λ c. c.parts.outgoing.others ≡ length c.parts.outgoing.pending) }
        ensures input { IfOk result (λ c. c.input ≡ []) }
        ensures lives { IfOk result (λ c. c.ended ≡ None) }
        ensures stands { IfOk result (λ c. StandsFor c) }
    {
        let asked = Asked {
            wish,
            address,
            app,
            name,
        };
        let core = new_core(alloc, asked, max_message)?;
        Ok(Client {
            core,
            input: Input::new(alloc),
            ended: None,
        })
    }

    /// Takes one turn. It sends, ends if it was finished and all was sent, and takes input until a message is
    /// complete and handled. As it ends it lets go of its input.
    pub fn turn<L: Link>(&mut self, alloc: Global, link: &mut L) -> ClientTurn
        ensures turn { TurnMade (EndedBy L.hears L.says) self.old link.old result self.new link.new }
        ensures stands { StandsFor self.new }
        ensures lasts { lasting_of self.new.parts ≡ lasting_of self.old.parts }
        ensures did { Did result (life_of self.old) (life_of self.new) }
        ensures may_be { MayBe result (L.counts link.old) (L.counts link.new) (life_of self.new) }
        ensures input { IsInput self.new.ended self.new.input }
    {
        turn_on(
            &mut self.core,
            &mut self.input,
            &mut self.ended,
            link,
            alloc,
        )
    }

    /// Returns why it has ended, if it has.
    pub fn end(&self) -> &Option<ClientEnd>
        ensures { result.now ≡ self.now.ended }
    {
        &self.ended
    }

    /// Returns whether the server has said that the publish or play has started.
    pub fn started(&self) -> bool
        ensures { result ≡ has_started self.now.parts.phase }
    {
        match self.core.phase {
            Phase::Started(_) => true,
            Phase::Connecting => false,
            Phase::Creating => false,
            Phase::Asking(_) => false,
        }
    }

    /// Returns the number of bytes that are encoded and not sent.
    pub fn pending(&self) -> u64
        ensures { result ≡ length self.now.parts.outgoing.pending }
    {
        self.core.outgoing.pending().len() as u64
    }

    /// Returns the number of bytes that it holds: of the input that it wasn't fed, of messages in progress,
    /// of those to be sent, and of the gift that waits.
    pub fn held(&self) -> u64
        ensures holds { IsHolding self.now.parts self.now.input result }
        ensures most { IsWithin self.now.parts.reader.max result }
        ensures input { IsInput self.now.ended self.now.input }
    {
        held_in(&self.core, &self.input)
    }

    /// Gives a tag to be published, if nothing is pending. `OutOfMemory` changes nothing.
    pub fn give(&mut self, tag: Tag) -> Result<(), OutOfMemory>
        requires lives { self.old.ended ≡ None }
        requires started { has_started self.old.parts.phase ≡ true }
        requires pushes { self.old.parts.asked.wish ≡ Push }
        requires open { self.old.parts.finished ≡ false }
        requires nothing { self.old.parts.outgoing.pending ≡ [] }
        requires kind { is_kind tag.kind ≡ true }
        requires most { length tag.body ≤ self.old.parts.reader.max }
        ensures past { OnOk result (past_of self.new.parts ≡ with_given (past_of self.old.parts) (record { at = length self.old.parts.y; given = given.Send tag })) }
        ensures keeps { OnOk result (keeps_of self.new.parts ≡ gave_more (keeps_of self.old.parts) (given.Send tag)) }
        ensures counts { OnOk result (Counts (given.Send tag) self.old.parts.outgoing self.new.parts.outgoing) }
        ensures err { OnErr result (self.new ≡ self.old) }
        ensures others { untouched_of self.new ≡ untouched_of self.old }
    {
        match self.core.phase {
            Phase::Started(id) => give_tag(&mut self.core, id, tag),
            Phase::Connecting => unreachable!(),
            Phase::Creating => unreachable!(),
            Phase::Asking(_) => unreachable!(),
        }
    }

    /// Tells the client that no more will come. `OutOfMemory` changes nothing.
    pub fn finish(&mut self, alloc: Global) -> Result<(), OutOfMemory>
        requires lives { self.old.ended ≡ None }
        requires started { has_started self.old.parts.phase ≡ true }
        requires open { self.old.parts.finished ≡ false }
        ensures past { OnOk result (past_of self.new.parts ≡ with_given (past_of self.old.parts) (record { at = length self.old.parts.y; given = given.Finish })) }
        ensures keeps { OnOk result (keeps_of self.new.parts ≡ gave_more (keeps_of self.old.parts) given.Finish) }
        ensures counts { OnOk result (Counts given.Finish self.old.parts.outgoing self.new.parts.outgoing) }
        ensures err { OnErr result (self.new ≡ self.old) }
        ensures others { untouched_of self.new ≡ untouched_of self.old }
    {
        match self.core.phase {
            Phase::Started(id) => give_finish(&mut self.core, alloc, id),
            Phase::Connecting => unreachable!(),
            Phase::Creating => unreachable!(),
            Phase::Asking(_) => unreachable!(),
        }
    }

    /// Takes the gift that waits, if there is one. It takes no memory.
    pub fn take(&mut self) -> Option<Gift>
        ensures gift { result ≡ self.old.parts.gift }
        ensures left { self.new.parts ≡ without_gift self.old.parts }
        ensures others { (self.new.input ≡ self.old.input) × (self.new.ended ≡ self.old.ended) }
    {
        take_gift(&mut self.core)
    }
}
