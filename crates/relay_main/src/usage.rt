//! The messages about faults in the words of a command line.

use crate::is;
use crate::request::{read_named, read_options};
use crate::texts::{COMMANDS, USAGE};
use client_owed::Wish;
use relay_edge::Shown;
use std::str;

const NOTHING_MORE: &str = "no further word: it reads standard input";

// Returns the words that a command wants after its name.
fn wanted_by(command: &str) -> &'static str {
    match command {
        "serve" | "check-config" => "a FILE",
        "edge" =>
            "FILE ADDRESS APP NAME or FILE rtmp://ADDRESS/APP/NAME, APP and NAME of 1 to 255 bytes",
        "stats" => "a PATH, and --json or nothing",
        "stop" => "a PATH",
        "push" | "pull" =>
            "ADDRESS APP NAME or rtmp://ADDRESS/APP/NAME, APP and NAME of 1 to 255 bytes",
        "segment" =>
            "NAME MS, NAME of 1 to 64 letters, digits, '.', '_' or '-', MS from 1 to 3600000",
        "hls" =>
            "NAME MS LAST, NAME of 1 to 64 letters, digits, '.', '_' or '-', MS from 1 to 3600000, LAST from 0 to 1000",
        "soak" => "a number N from 1 to 100000",
        _ => NOTHING_MORE,
    }
}

// Returns whether the command has that option.
fn has_option(command: &str, word: &[u8]) -> bool {
    match command {
        "push" => is(word, "--pace"),
        "pull" => is(word, "--for") || is(word, "--from-zero"),
        "stats" => is(word, "--json"),
        _ => false,
    }
}

// Returns the first of the words behind the command that looks like an option and that the command doesn't have.
fn no_option<'a>(command: &str, more: &'a [Vec<u8>]) -> Option<&'a [u8]> {
    for word in more {
        let word = word.as_slice();
        if word.starts_with(b"--") && !is(word, "--help") && !has_option(command, word) {
            return Some(word);
        }
    }
    None
}

// Returns whether these are the words behind `push` or `pull`.
fn asks(wish: Wish, words: &[Vec<u8>]) -> bool {
    match read_options(wish, words) {
        Some((_, more)) => read_named(more).is_some(),
        None => false,
    }
}

// Returns whether the command has reported the fault itself: an address that isn't one, or a variable of the
// environment.
fn is_said(command: &str, more: &[Vec<u8>]) -> bool {
    match (command, more) {
        ("serve", [_]) => true,
        ("edge", [_, more @ ..]) => read_named(more).is_some(),
        ("push", more) => asks(Wish::Push, more),
        ("pull", more) => asks(Wish::Pull, more),
        _ => false,
    }
}

// Returns the command's name, if there is a command of that name.
fn command_named(word: &[u8]) -> Option<&'static str> {
    for (name, _) in COMMANDS {
        if is(word, name) {
            return Some(name);
        }
    }
    None
}

// Returns the word that names no command: the word after `help`, or the first.
fn no_command<'a>(words: &'a [Vec<u8>]) -> &'a [u8] {
    match words {
        [asks, word] if is(asks, "help") => word,
        [word, ..] => word,
        [] => b"",
    }
}

// Writes the fault in the words behind a command's name: an option that it doesn't have, or what it wants.
fn tell_words(rt: &HostRuntime, name: &str, more: &[Vec<u8>]) {
    let _ = match no_option(name, more) {
        Some(option) => eprintln!(rt;
            "relay {name}: there is no option {} (see relay {name} --help)",
            Shown {
                text: str::from_utf8(option).unwrap_or("")
            }
        ),
        None => eprintln!(rt;
            "relay {name} wants {} (see relay {name} --help)",
            wanted_by(name)
        ),
    };
}

/// Writes the fault in the words of a command line on standard error, unless their command has reported it.
pub fn tell_misuse(rt: &HostRuntime, words: &[Vec<u8>]) {
    let Some((first, more)) = words.split_first() else {
        let _ = eprint!(rt; "{USAGE}");
        return;
    };
    match command_named(first) {
        Some(name) if is_said(name, more) => {}
        Some(name) => tell_words(rt, name, more),
        None => {
            let _ = eprintln!(rt;
                "relay: there is no command {} (relay --help lists them)",
                Shown {
                    text: str::from_utf8(no_command(words)).unwrap_or("")
                }
            );
        }
    }
}
