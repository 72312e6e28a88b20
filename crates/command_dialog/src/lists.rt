ghost use Rattle.std.specs.Prelude.{◌≡◌, ◌≤◌, length, IfOk};
ghost use Rattle.command_dialog.specs.Words.{app_in};

use crate::words::{name_of, without_last_slash};
use av_unit::{Bytes, OutOfMemory};
use chunk_wire::Message;
use std::alloc::Global;
use std::marker::Model;

/// Messages in order. Contracts see them as their list.
#[derive(Drop)]
pub struct MessageList {
    list: Vec<Message>,
}

impl Model for MessageList {
    ghost use Rattle.std.specs.Prelude.{List};
    ghost use Rattle.chunk_wire.specs.declared.message.Message.{Message};

    ghost Value = { List Message };

    ghost view = { λ l. l.list.items };
}

impl MessageList {
    /// Makes a list of a `Vec`'s messages.
    pub fn from_vec(list: Vec<Message>) -> MessageList
        ensures { result ≡ list.items }
    {
        MessageList { list }
    }

    /// Gives its messages.
    pub fn as_slice(&self) -> &[Message]
        ensures { result.now ≡ self.now }
    {
        &self.list
    }

    /// Gives the number of messages.
    pub fn len(&self) -> usize
        ensures { result ≡ length self.now }
    {
        self.list.len()
    }

    /// Gives the messages as a `Vec`.
    pub fn into_vec(self) -> Vec<Message>
        ensures { result.items ≡ self }
    {
        self.list
    }
}

/// The app of a connect, of at most 64 bytes. Contracts see it as the list of its bytes.
#[derive(Drop)]
pub struct App {
    text: Bytes,
}

impl Model for App {
    ghost use Rattle.std.specs.Prelude.{List, ℕ, ◌≤◌, length};

    ghost Value = { List ℕ };

    ghost view = { λ a. a.text };

    ghost invariant = { λ a. length a.text ≤ 64 };
}

impl App {
    /// Reads the app from a connect's text: the bytes before the first `?`, without one last `/`. A longer
    /// one is the empty app.
    pub fn of(alloc: Global, text: &[u8]) -> Result<App, OutOfMemory>
        ensures { IfOk result (λ app. app ≡ app_in text.now) }
    {
        let app = without_last_slash(name_of(text));
        if app.len() > 64 {
            return Ok(App {
                text: Bytes::new(alloc),
            });
        }
        Ok(App {
            text: Bytes::from_vec(Vec::from_slice(alloc, app)?),
        })
    }

    /// Gives its bytes.
    pub fn as_slice(&self) -> &[u8]
        ensures value { result.now ≡ self.now }
        ensures most { length result.now ≤ 64 }
    {
        self.text.as_slice()
    }
}
