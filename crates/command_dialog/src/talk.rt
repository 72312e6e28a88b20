ghost use Rattle.std.specs.Prelude.{◌≡◌, ◌≤◌, ◌⊎◌, [], length, Ok, Err, IfOk, OnErr, MatchResult};
ghost use Rattle.command_dialog.specs.State.{playing_in};
ghost use Rattle.command_dialog.specs.Meaning.{meaning};
ghost use Rattle.command_dialog.specs.Past.{met, answered as an_answer, now_in, talked, one};

use crate::dialog::Dialog;
use crate::lists::MessageList;
use crate::types::{Acts, DialogFail, Grant, Meant, Playing};
use chunk_wire::Message;
use past::{History, Pair};
use std::alloc::Global;
use std::marker::Model;
use std::snapshot::Snapshot;
use stream_model::Reply;

/// One event of the dialogue: a message with its grant, or a reply. It has no bytes but a tag.
#[derive(Drop)]
pub struct Met {
    is: Result<Pair<Message, Option<Grant>>, Snapshot<Reply>>,
}

impl Model for Met {
    ghost use Rattle.command_dialog.specs.Past.{Event, event_of};

    ghost Value = { Event };

    ghost view = { λ m. event_of m.is };
}

fn met_message(seen: Snapshot<Message>, grant: Option<Grant>) -> Met
    ensures { result ≡ met seen.value grant }
{
    Met {
        is: Ok(Pair::of(seen, &grant)),
    }
}

fn met_reply(reply: &Reply) -> Met
    ensures { result ≡ an_answer reply.now }
{
    Met {
        is: Err(Snapshot::of(reply)),
    }
}

/// The dialogue with one peer, which stands for all events so far.
#[derive(Drop)]
pub struct Talk {
    dialog: Dialog,
    window: u32,
    past: History<Met>,
}

impl Model for Talk {
    ghost use Rattle.std.specs.Prelude.{◌≡◌};
    ghost use Rattle.command_dialog.specs.Past.{Talked, state_of};

    ghost Value = { Talked };

    ghost view = { λ t. record { window = t.window; past = t.past } };

    ghost invariant = { λ t. t.dialog ≡ state_of t.window t.past };
}

impl Talk {
    /// Makes a dialogue without events.
    pub fn new(alloc: Global, window: u32) -> Talk
        ensures { result ≡ record { window = window; past = [] } }
    {
        Talk {
            dialog: Dialog::new(alloc, window),
            window,
            past: History::new(),
        }
    }

    /// Gives the meaning of a message after all events so far.
    pub fn asks(&self, alloc: Global, message: &Message) -> Result<Meant, DialogFail>
        ensures { MatchResult result (λ m. meaning (now_in self.now) message.now ≡ Ok m)
            (λ e. (e ≡ DialogFail.OutOfMemory) ⊎ (meaning (now_in self.now) message.now ≡ Err e)) }
    {
        self.dialog.asks(alloc, message)
    }

    /// Carries out a message: gives its messages and its call.
    pub fn step(
        &mut self,
        alloc: Global,
        message: Message,
        meant: Meant,
        grant: Option<Grant>,
    ) -> Result<Acts, DialogFail>
        requires read { meaning (now_in self.old) message ≡ Ok meant }
        requires short { length message.body ≤ 4194304 }
        ensures says { IfOk result (λ acts. acts.says ≡ (one (now_in self.old) (met message grant)).says) }
        ensures makes { IfOk result (λ acts. acts.makes ≡ (one (now_in self.old) (met message grant)).makes) }
        ensures past { IfOk result (λ _. self.new ≡ talked self.old (met message grant)) }
        ensures err { OnErr result (self.new ≡ self.old) }
        ensures memory { OnErr result (result ≡ Err DialogFail.OutOfMemory) }
    {
        let seen = Snapshot::of(&message);
        let acts = self.dialog.step(alloc, message, meant, grant)?;
        self.past.add(&met_message(seen, grant));
        Ok(acts)
    }

    /// Takes the stream's reply, and gives the messages that follow from it.
    pub fn answered(&mut self, alloc: Global, reply: &Reply) -> Result<MessageList, DialogFail>
        ensures says { IfOk result (λ list. list ≡ (one (now_in self.old) (an_answer reply.now)).says) }
        ensures past { IfOk result (λ _. self.new ≡ talked self.old (an_answer reply.now)) }
        ensures err { OnErr result (self.new ≡ self.old) }
        ensures memory { OnErr result (result ≡ Err DialogFail.OutOfMemory) }
    {
        let says = self.dialog.answered(alloc, reply)?;
        self.past.add(&met_reply(reply));
        Ok(says)
    }

    /// Gives the granted play after all events so far.
    pub fn playing(&self) -> Option<Playing>
        ensures { result ≡ playing_in (now_in self.now).phase }
    {
        self.dialog.playing()
    }
}
