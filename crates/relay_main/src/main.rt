//! The relay's program: the words of the command line, standard input and output, and the exit code.
//!
//! Read `main` and `answer` first, at the end of this file: they read the words and run the command. Most
//! commands themselves are in other crates. This crate gives them files, sockets and standard streams, and
//! writes their messages on standard error.
#![tactic(auto)]

ghost use Rattle.std.specs.Prelude.{◌≡◌};
ghost use Rattle.key_guard.specs.Allowed.{is_allowed};

mod adapters;
mod check_config;
mod clients;
mod control;
mod edge;
mod hls;
mod looping;
mod meter;
mod request;
mod script;
mod segments;
mod serve;
mod spot;
mod standard;
mod starting;
mod texts;
mod usage;
mod watching;
mod window;

use adapters::{Reading, Writing};
use file_commands::{Remuxed, remux_and_tell};
use key_guard::{Grants, Guard, Guards, Mode, by_digest, by_name, by_named};
use relay_base::Status;
use relay_edge::{Shown, is_heard};
use relay_outside::{Sink, Source};
use relay_program::{Command, command_of, run};
use script::Script;
use standard::hold_closed;
use std::fs::{File, Files};
use std::io::{Eprint, Read};
use std::net::Net;
use std::process::ExitCode;
use std::sync::Wait;
use std::thread::Threads;
use std::{env, io, net, str};
use texts::{ABOUT, COMMANDS, MORE, STATUS, USAGE, VERSION};
use usage::tell_misuse;

/// The exit code of a faulty command line.
const BAD_WORDS: u8 = 2;

/// The exit code of a read of standard input that failed.
const READ_FAULT: u8 = 3;

/// The exit code of an invalid line of a script, and of a refused file.
const BAD_INPUT: u8 = 4;

/// The exit code of a write to standard output that failed.
const WRITE_FAULT: u8 = 5;

/// The exit code of a command that ran out of memory.
const NO_MEMORY: u8 = 6;

/// The exit code of an address, a file or a poll that couldn't be opened.
const HOUSE_FAULT: u8 = 7;

/// The exit code of a file with a unit that was left out.
const LEFT_OUT: u8 = 8;

/// The exit code of an FLV file that would give more than 100,000 segments.
const TOO_MANY: u8 = 9;

/// The exit code of an FLV file that doesn't come back from the relay.
const UNFINISHED: u8 = 9;

/// The exit code of a connection that failed, or couldn't be made.
const LINK_FAULT: u8 = 11;

// Returns the words after the program's name. Fails with `InvalidData` if one of them isn't UTF-8.
fn words(rt: &HostRuntime) -> io::Result<Vec<Vec<u8>>> {
    let mut words = Vec::new(rt.alloc());
    for word in env::args(rt)?.skip(1) {
        words.push(word.into_bytes())?;
    }
    Ok(words)
}

fn status(code: u8) -> Status {
    Status { code, place: 0 }
}

// Writes on standard error why a stream failed, unless its reader has gone.
fn tell_fault(rt: &HostRuntime, stream: &str, error: Option<io::Error>) {
    if let Some(error) = error {
        if error.kind() != io::ErrorKind::BrokenPipe {
            let _ = eprintln!(rt; "relay: {}: {error}", Shown { text: stream });
        }
    }
}

// Prints a text on standard output.
fn tell(rt: &HostRuntime, text: &str) -> Status {
    match rt.print(text) {
        Ok(()) => status(0),
        Err(error) => {
            tell_fault(rt, "standard output", Some(error));
            status(WRITE_FAULT)
        }
    }
}

// Writes on standard error the place at which the input of a command is refused.
fn tell_refusal<R: Read + Drop>(
    rt: &HostRuntime,
    command: Option<Command>,
    script: &Script<R>,
    place: u64,
) {
    let _ = match command {
        Some(Command::Remux) => eprintln!(rt;
            "relay: standard input is not FLV from byte {place} on"
        ),
        Some(Command::Check) => eprintln!(rt;
            "relay: standard input is not MPEG-TS from byte {place} on"
        ),
        _ => eprintln!(rt;
            "relay: line {place} {} (see relay {} --help)",
            script.fault(command, place),
            match command {
                Some(Command::Replay) => "replay",
                _ => "drill",
            }
        ),
    };
}

// Returns whether the grants allow the key in mode `Plain`.
fn is_plain(grants: &Grants, name: &[u8], key: &[u8]) -> bool
    ensures { result ≡ is_allowed Mode.Plain grants.now name.now key.now }
{
    by_name(grants, name, key)
}

// Returns whether the grants allow the key in mode `Digest`.
fn is_digested(grants: &Grants, name: &[u8], key: &[u8]) -> bool
    ensures { result ≡ is_allowed Mode.Digest grants.now name.now key.now }
{
    by_digest(grants, name, key)
}

// Returns whether the grants allow the key for the name in mode `Named`.
fn is_named(grants: &Grants, name: &[u8], key: &[u8]) -> bool
    ensures { result ≡ is_allowed Mode.Named grants.now name.now key.now }
{
    by_named(grants, name, key)
}

// Makes a transport stream of an FLV file, and writes on standard error which units of the file were left
// out.
fn remux<S: Source, K: Sink>(
    rt: &HostRuntime,
    words: &[Vec<u8>],
    input: &mut S,
    out: &mut K,
) -> Status {
    let Remuxed {
        status,
        left_out,
        enhanced,
    } = remux_and_tell(rt.alloc(), words, input, out);
    if left_out.count > 0 {
        let _ = eprintln!(rt; "relay: {left_out}");
    }
    if enhanced {
        let _ = eprintln!(rt; "relay: Enhanced RTMP video was left out");
    }
    status
}

// Runs the command that the words name from standard input to standard output, and says why it didn't do all of it.
fn command(rt: &HostRuntime, words: &[Vec<u8>], guards: &Guards) -> Status {
    let command = command_of(words);
    let remembers = match command {
        Some(Command::Drill | Command::Replay) => true,
        _ => false,
    };
    let mut input = Reading::new(Script::new(rt.alloc(), rt.reader(), remembers));
    let mut out = Writing::new(io::writer(rt));
    let ended = match command {
        Some(Command::Remux) => remux(rt, words, &mut input, &mut out),
        _ => run(rt.alloc(), words, guards, &mut input, &mut out),
    };
    let place = ended.place;
    match ended.code {
        READ_FAULT => tell_fault(rt, "standard input", input.error()),
        BAD_INPUT => tell_refusal(rt, command, input.inner(), place),
        WRITE_FAULT => tell_fault(rt, "standard output", out.error()),
        NO_MEMORY => {
            let _ = eprintln!(rt; "relay: out of memory");
        }
        _ => {}
    }
    ended
}

// Returns whether the word is that text.
fn is(word: &[u8], text: &str) -> bool {
    word == text.as_bytes()
}

// Returns whether the first of the words is that text.
fn is_first(words: &[Vec<u8>], text: &str) -> bool {
    words.first().is_some_and(|word| is(word, text))
}

// Returns whether the words ask for the program's help.
fn is_help(word: &[u8]) -> bool {
    is(word, "--help") || is(word, "-h") || is(word, "help")
}

// Prints one text after the other on standard output, until one fails.
fn tell_all(rt: &HostRuntime, texts: &[&str]) -> Status {
    let mut told = status(0);
    for text in texts {
        if told.code == 0 {
            told = tell(rt, text);
        }
    }
    told
}

// Returns the help of the command of that name.
fn help_of(word: &[u8]) -> Option<&'static str> {
    for (name, text) in COMMANDS {
        if is(word, name) {
            return Some(text);
        }
    }
    None
}

// Answers the words that ask about the program. Returns `None` if they ask for something else.
fn about(rt: &HostRuntime, words: &[Vec<u8>]) -> Option<Status> {
    match words {
        [word] if is_help(word) => Some(tell_all(rt, &[ABOUT, "\n", USAGE])),
        [word] if is(word, "--version") => Some(tell(rt, VERSION)),
        [word, of] if is(word, "help") && is(of, "exit-codes") => Some(tell(rt, STATUS)),
        [asks, word] if is(asks, "help") => Some(tell_all(rt, &[help_of(word)?, "\n", MORE])),
        [word, asks] if is(asks, "--help") || is(asks, "-h") => {
            Some(tell_all(rt, &[help_of(word)?, "\n", MORE]))
        }
        _ => None,
    }
}

// Answers the words that ask about the program or a configuration, and runs the command that others name.
fn answer<
    T: Threads
        + Wait
        + Sync
        + Eprint
        + Files<File = File>
        + Net<Listener = net::TcpListener, Stream = net::TcpStream>,
>(host: &HostRuntime, rt: &T, words: &[Vec<u8>]) -> Status {
    if let Some(told) = about(host, words) {
        return told;
    }
    if let [word, name] = words {
        if is(word, "check-config") {
            return check_config::command(host, rt, str::from_utf8(name.as_slice()).unwrap_or(""));
        }
    }
    let alloc = host.alloc();
    let Ok(plain) = Box::new(alloc, is_plain) else {
        return status(NO_MEMORY);
    };
    let Ok(digested) = Box::new(alloc, is_digested) else {
        return status(NO_MEMORY);
    };
    let Ok(named) = Box::new(alloc, is_named) else {
        return status(NO_MEMORY);
    };
    let guards = Guards::new(
        Guard::new(Mode::Plain, plain),
        Guard::new(Mode::Digest, digested),
        Guard::new(Mode::Named, named),
    );
    if is_first(words, "serve") {
        serve::command(host, rt, words, &guards)
    } else if is_first(words, "edge") {
        edge::command(host, rt, words, &guards)
    } else if is_first(words, "stop") || is_first(words, "stats") {
        control::command(host, rt, words)
    } else if is_first(words, "segment") {
        segments::command(host, rt, words)
    } else if is_first(words, "hls") {
        hls::command(host, rt, words)
    } else if is_first(words, "push") {
        clients::push_command(host, rt, words)
    } else if is_first(words, "pull") {
        clients::pull_command(host, rt, words)
    } else if is_first(words, "loop") {
        looping::command(host, words)
    } else {
        command(host, words, &guards)
    }
}

// Returns the words of the command line, or the exit code if they can't be read.
fn read_words(rt: &HostRuntime) -> Result<Vec<Vec<u8>>, u8> {
    match words(rt) {
        Ok(words) => Ok(words),
        Err(error) if error.kind() == io::ErrorKind::InvalidData => {
            let _ = eprintln!(rt; "relay: a word of the command line isn't UTF-8");
            Err(BAD_WORDS)
        }
        Err(_) => Err(NO_MEMORY),
    }
}

// Returns whether the words are those of a server, which never waits for a reader of its messages.
fn serves(words: &[Vec<u8>]) -> bool {
    is_first(words, "serve") || is_first(words, "edge")
}

fn main(rt: HostRuntime) -> ExitCode {
    hold_closed(&rt);
    let mut heard = true;
    let Status { code, place } = match read_words(&rt) {
        Ok(words) => {
            let answered = answer(&rt, &rt, &words);
            heard = answered.code == 0 || !serves(&words) || is_heard();
            if answered.code == BAD_WORDS && heard {
                tell_misuse(&rt, &words);
            }
            answered
        }
        Err(code) => status(code),
    };
    if code != 0 && heard {
        let _ = eprintln!(rt; "relay: status {code} at {place}");
    }
    ExitCode::from(code)
}
