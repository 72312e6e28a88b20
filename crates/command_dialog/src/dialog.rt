ghost use Rattle.std.specs.Prelude.{◌≡◌, ◌≤◌, ◌⊎◌, length, option_map, Ok, Err, IfOk, OnOk, OnErr, MatchResult};
ghost use Rattle.std.specs.Option.{option_copied};
ghost use Rattle.command_dialog.specs.State.{fresh, with_phase, playing_in, app_length};
ghost use Rattle.command_dialog.specs.Meaning.{meaning, commands};
ghost use Rattle.command_dialog.specs.Dialog.{published_in, says, makes, after, sized, told};

use crate::lists::{App, MessageList};
use crate::meaning::{
    ask, asked_role, close, connect, fail_of, free_id, is_published, remove, role_without, sized,
    told_role, turn,
};
use crate::says::{
    begun, call_by, connected, created, end_of, joined, nothing, refuse, refuse_by, unit_in,
};
use crate::types::{Act, Acts, Ask, DialogFail, Grant, Meant, Phase, Playing, Role, Switch};
use av_unit::OutOfMemory;
use chunk_wire::Message;
use rtmp_command::{Heard, Why, hear};
use std::alloc::Global;
use std::marker::Model;
use stream_model::Reply;

/// The dialogue with one peer.
#[derive(Drop)]
pub struct Dialog {
    window: u32,
    app: Option<App>,
    ids: Vec<u32>,
    phase: Phase,
}

impl Model for Dialog {
    ghost use Rattle.command_dialog.specs.State.{State};

    ghost Value = { State };

    ghost view = { λ d. record { window = d.window; app = d.app; ids = d.ids.items; phase = d.phase } };
}

impl Dialog {
    /// Makes a dialogue without messages. `window`, in bytes, is the one that the connect answer gives. It takes no
    /// memory.
    pub fn new(alloc: Global, window: u32) -> Dialog
        ensures { result ≡ fresh window }
    {
        Dialog {
            window,
            app: None,
            ids: Vec::new(alloc),
            phase: Phase::Idle,
        }
    }

    /// Gives the meaning of a message in the present state (RTMP 1.0, section 7.2). If it is `Asks`, the
    /// caller finds the grant before it hands the meaning to `step`. It gives every refusal: `BadCommand` for
    /// the body of a command message that isn't a command, and `TooManyStreams` for a createStream while 16
    /// message streams are open.
    #[tactic(auto, unfolding(crate::specs::Meaning::meaning))]
    pub fn asks(&self, alloc: Global, message: &Message) -> Result<Meant, DialogFail>
        ensures { MatchResult result (λ m. meaning self.now message.now ≡ Ok m)
            (λ e. (e ≡ DialogFail.OutOfMemory) ⊎ (meaning self.now message.now ≡ Err e)) }
    {
        match message.kind {
            20 => match hear(alloc, message.body.as_slice()) {
                Ok(heard) => self.command(alloc, message.stream, &heard),
                Err(fail) => Err(fail_of(fail)),
            },
            8 | 9 | 18 => {
                if is_published(&self.phase, message.stream) {
                    Ok(Meant::Media)
                } else {
                    Ok(Meant::Passed)
                }
            }
            _ => Ok(Meant::Passed),
        }
    }

    fn command(&self, alloc: Global, stream: u32, heard: &Heard) -> Result<Meant, DialogFail>
        ensures { MatchResult result (λ m. commands self.now stream heard.now ≡ Ok m)
            (λ e. (e ≡ DialogFail.OutOfMemory) ⊎ (commands self.now stream heard.now ≡ Err e)) }
    {
        let name = heard.name.as_slice();
        if name == b"connect".as_slice() {
            return Ok(connect(alloc, &self.app, heard.transaction, &heard.app)?);
        }
        let app = match &self.app {
            None => return Ok(Meant::Passed),
            Some(app) => app,
        };
        if name == b"createStream".as_slice() {
            return match free_id(&self.ids) {
                None => Err(DialogFail::TooManyStreams),
                Some(id) => Ok(Meant::Creates {
                    transaction: heard.transaction,
                    id,
                }),
            };
        }
        if name == b"publish".as_slice() {
            return Ok(ask(
                alloc,
                &self.phase,
                &self.ids,
                Role::Publish,
                stream,
                app,
                &heard.fourth,
            )?);
        }
        if name == b"play".as_slice() {
            return Ok(ask(
                alloc,
                &self.phase,
                &self.ids,
                Role::Play,
                stream,
                app,
                &heard.fourth,
            )?);
        }
        if name == b"deleteStream".as_slice() {
            return Ok(close(&self.ids, &heard.fourth));
        }
        if name == b"receiveAudio".as_slice() {
            return Ok(turn(&self.phase, stream, Switch::Audio, &heard.fourth));
        }
        if name == b"receiveVideo".as_slice() {
            return Ok(turn(&self.phase, stream, Switch::Video, &heard.fourth));
        }
        if name == b"pause".as_slice() {
            return Ok(turn(&self.phase, stream, Switch::Pause, &heard.fourth));
        }
        Ok(Meant::Passed)
    }

    /// Carries out a message, by its meaning and its grant. If the meaning needs no grant, the grant is
    /// ignored; if it needs one and there is none, that counts as `NoName`. It fails only if memory is
    /// refused, and then nothing has changed.
    pub fn step(
        &mut self,
        alloc: Global,
        message: Message,
        meant: Meant,
        grant: Option<Grant>,
    ) -> Result<Acts, DialogFail>
        requires read { meaning self.old message ≡ Ok meant }
        requires short { length message.body ≤ 4194304 }
        ensures says { IfOk result (λ acts. acts.says ≡ says self.old grant meant) }
        ensures makes { IfOk result (λ acts. acts.makes ≡ makes self.old message grant meant) }
        ensures state { IfOk result (λ _. self.new ≡ after self.old message grant meant) }
        ensures err { OnErr result (self.new ≡ self.old) }
        ensures memory { OnErr result (result ≡ Err DialogFail.OutOfMemory) }
    {
        let says = self.said(alloc, &meant, grant)?;
        let makes = self.change(message, meant, grant)?;
        Ok(Acts { says, makes })
    }

    /// Gives the messages to the peer.
    #[tactic(auto, unfolding(crate::specs::Dialog::says))]
    fn said(
        &self,
        alloc: Global,
        meant: &Meant,
        grant: Option<Grant>,
    ) -> Result<MessageList, OutOfMemory>
        ensures { IfOk result (λ list. list ≡ says self.now grant meant.now) }
    {
        match meant {
            Meant::Connects {
                transaction,
                app: _,
            } => connected(alloc, self.window, *transaction),
            Meant::Creates { transaction, id } => created(alloc, *transaction, *id),
            Meant::Busy { role, id } => refuse(alloc, *role, *id, Why::RoleActive),
            Meant::Asks { ask, id } => refuse_by(alloc, ask.role, *id, grant),
            Meant::Passed | Meant::Closes { .. } | Meant::Turns(_) | Meant::Media => {
                Ok(nothing(alloc))
            }
        }
    }

    /// Gives the call to make at the stream, and the state of the dialogue after it.
    #[tactic(auto, unfolding(crate::specs::Dialog::makes, crate::specs::Dialog::after))]
    fn change(
        &mut self,
        message: Message,
        meant: Meant,
        grant: Option<Grant>,
    ) -> Result<Option<Act>, OutOfMemory>
        requires { length message.body ≤ 4194304 }
        ensures makes { IfOk result (λ act. act ≡ makes self.old message grant meant) }
        ensures ok { OnOk result (self.new ≡ after self.old message grant meant) }
        ensures err { OnErr result (self.new ≡ self.old) }
    {
        match meant {
            Meant::Passed | Meant::Busy { .. } => Ok(None),
            Meant::Connects {
                transaction: _,
                app,
            } => {
                self.app = Some(app);
                Ok(None)
            }
            Meant::Creates { transaction: _, id } => {
                self.ids.push(id)?;
                Ok(None)
            }
            Meant::Asks { ask, id } => {
                let Ask {
                    role,
                    app: _,
                    name,
                    key: _,
                } = ask;
                self.phase = asked_role(role, id, grant);
                Ok(call_by(role, name, grant))
            }
            Meant::Closes { id } => {
                let makes = end_of(id, self.phase);
                remove(&mut self.ids, id);
                self.phase = role_without(id, self.phase);
                Ok(makes)
            }
            Meant::Turns(playing) => {
                self.phase = Phase::Plays(playing);
                Ok(None)
            }
            Meant::Media => Ok(self.publish(message)),
        }
    }

    // Pushes the message as a unit, if it is one.
    fn publish(&mut self, message: Message) -> Option<Act>
        requires { length message.body ≤ 4194304 }
        ensures makes { result ≡ option_map Act.Push (published_in self.old.phase message) }
        ensures state { self.new ≡ with_phase self.old (sized (published_in self.old.phase message) self.old.phase) }
    {
        let unit = unit_in(self.phase, message);
        self.phase = sized(&unit, self.phase);
        match unit {
            Some(unit) => Some(Act::Push(unit)),
            None => None,
        }
    }

    /// Takes the stream's reply to a Begin or Join, and gives the answer to the peer. If no such call is out,
    /// or the reply is to another call, there is no answer. It fails only if memory is refused, and then
    /// nothing has changed.
    #[tactic(auto, unfolding(crate::specs::Dialog::told))]
    pub fn answered(&mut self, alloc: Global, reply: &Reply) -> Result<MessageList, DialogFail>
        ensures says { IfOk result (λ list. list ≡ (told self.old reply.now).says) }
        ensures state { IfOk result (λ _. self.new ≡ (told self.old reply.now).state) }
        ensures err { OnErr result (self.new ≡ self.old) }
        ensures memory { OnErr result (result ≡ Err DialogFail.OutOfMemory) }
    {
        let says = match self.phase {
            Phase::Asked {
                role: Role::Publish,
                id,
            } => begun(alloc, id, reply)?,
            Phase::Asked {
                role: Role::Play,
                id,
            } => joined(alloc, id, reply)?,
            Phase::Idle | Phase::Publishes { .. } | Phase::Plays(_) => nothing(alloc),
        };
        self.phase = told_role(self.phase, reply);
        Ok(says)
    }

    /// Gives the role.
    pub fn phase(&self) -> Phase
        ensures { result ≡ self.now.phase }
    {
        self.phase
    }

    /// Gives the granted play; `None` exactly if none is active.
    pub fn playing(&self) -> Option<Playing>
        ensures { result ≡ playing_in self.now.phase }
    {
        match self.phase {
            Phase::Plays(playing) => Some(playing),
            Phase::Idle => None,
            Phase::Asked { .. } => None,
            Phase::Publishes { .. } => None,
        }
    }

    /// Gives a reference to the application to which the peer has connected, if it has connected.
    pub fn app(&self) -> Option<&App>
        ensures { option_copied result ≡ self.now.app }
    {
        self.app.as_ref()
    }

    /// Gives the number of bytes of its peer that the dialogue keeps: the length of the app, at most 64.
    pub fn held(&self) -> u64
        ensures value { result ≡ app_length self.now.app }
        ensures most { result ≤ 64 }
    {
        match &self.app {
            None => 0,
            Some(app) => app.as_slice().len() as u64,
        }
    }
}
