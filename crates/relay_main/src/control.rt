//! `relay stop` and `relay stats`: the questions to a server at its control socket.

use crate::{BAD_WORDS, LINK_FAULT, WRITE_FAULT, is, status, tell_fault};
use relay_base::Status;
use relay_edge::Asking;
use std::io::Write;
use std::net::Net;
use std::{io, str};

/// The most pieces of an answer.
const MOST_PIECES: u64 = 1_000_000;

// Why a question wasn't answered.
enum Fault {
    Server(io::Error),
    Output(io::Error),
}

// A question to a server.
#[derive(Clone, Copy)]
enum Question {
    Stop,
    Stats,
    StatsAsJson,
}

impl Question {
    fn text(self) -> &'static [u8] {
        match self {
            Question::Stop => b"stop\n",
            Question::Stats => b"stats\n",
            Question::StatsAsJson => b"stats --json\n",
        }
    }
}

// Returns the question that the words ask, and the path of the socket.
fn make_question(words: &[Vec<u8>]) -> Option<(Question, &str)> {
    let [command, path, more @ ..] = words else {
        return None;
    };
    let question = match (command.as_slice(), more) {
        (b"stop", []) => Question::Stop,
        (b"stats", []) => Question::Stats,
        (b"stats", [form]) if is(form, "--json") => Question::StatsAsJson,
        _ => return None,
    };
    Some((question, str::from_utf8(path.as_slice()).ok()?))
}

// Asks, and writes the answer on standard output. A server that answers that it stops may take any time to
// end, and then closes.
fn ask<T: Net>(host: &HostRuntime, rt: &T, path: &str, question: Question) -> Result<(), Fault> {
    let mut asking = Asking::begin(rt, path, question.text()).map_err(Fault::Server)?;
    let mut out = io::writer(host);
    let mut room = [0u8; 4096];
    for _ in 0..MOST_PIECES {
        let count = asking.read(&mut room).map_err(Fault::Server)?;
        match room.get(..count) {
            Some(piece) if count > 0 && question != Question::Stop => {
                out.write_all(piece).map_err(Fault::Output)?;
            }
            Some(_) if count > 0 => asking.wait(),
            _ => return Ok(()),
        }
    }
    Ok(())
}

/// Asks the server at the socket that the words name. `stop` waits until it has ended.
pub fn command<T: Net>(host: &HostRuntime, rt: &T, words: &[Vec<u8>]) -> Status {
    let Some((question, path)) = make_question(words) else {
        return status(BAD_WORDS);
    };
    match ask(host, rt, path, question) {
        Ok(()) => status(0),
        Err(Fault::Server(error)) => {
            tell_fault(host, path, Some(error));
            status(LINK_FAULT)
        }
        Err(Fault::Output(error)) => {
            tell_fault(host, "standard output", Some(error));
            status(WRITE_FAULT)
        }
    }
}
