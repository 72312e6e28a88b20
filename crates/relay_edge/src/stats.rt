//! The state of a server, as a table for people and as JSON for programs.

use crate::client::Client;
use crate::json::{Quoted, QuotedText};
use crate::missed::Missed;
use crate::recordings::Recorded;
use crate::seats::{Doing, Sight};
use crate::shown::{Shown, Written};
use crate::watch::{Broadcasts, Watch};
use std::alloc::{AllocError, Global};
use std::fmt::{Display, Formatter};
use std::{fmt, str};

/// The state of a server at some moment.
#[derive(Drop)]
pub struct Stats {
    now: u64,
    begun: u64,
    missed: u64,
    sights: Vec<Sight>,
    broadcasts: Vec<Broadcasts>,
    recordings: Vec<Recorded>,
}

// Milliseconds, shown in seconds and tenths.
#[derive(Clone, Copy)]
struct Seconds {
    milliseconds: u64,
}

impl Display for Seconds {
    fn fmt<W: fmt::Write>(&self, f: &mut Formatter<W>) -> fmt::Result {
        let tenths = self.milliseconds % 1000 / 100;
        write!(f, "{}.{tenths}", self.milliseconds / 1000)
    }
}

// A name of a stream, as it is shown in a table.
#[derive(Clone, Copy)]
struct Name<'a> {
    app: &'a [u8],
    name: &'a [u8],
}

impl Display for Name<'_> {
    fn fmt<W: fmt::Write>(&self, f: &mut Formatter<W>) -> fmt::Result {
        let (app, name) = (Written { bytes: self.app }, Written { bytes: self.name });
        if self.app.is_empty() && self.name.is_empty() {
            f.write_str("-")
        } else {
            write!(f, "{app}/{name}")
        }
    }
}

fn word_of(doing: Doing) -> &'static str {
    match doing {
        Doing::Nothing => "connects",
        Doing::Connected => "is connected",
        Doing::Publishes => "publishes",
        Doing::Plays => "plays",
        Doing::Pulled => "is pulled",
    }
}

// Returns the protocol of a link: HTTP once that is known, and RTMP before.
fn protocol_of(sight: &Sight) -> &'static str {
    if sight.http { "http" } else { "rtmp" }
}

// Returns the name of a recording's file.
fn file_of(recorded: &Recorded) -> &str {
    str::from_utf8(recorded.name.as_slice()).unwrap_or("?")
}

// Returns the number of players of a name, and its publisher.
fn roles(sights: &[Sight], stream: &Broadcasts) -> (u64, Option<Client>) {
    let mut players = 0u64;
    let mut publisher = None;
    for sight in sights {
        if stream.are_of(sight.app.as_slice(), sight.name.as_slice()) {
            match sight.doing {
                Doing::Plays => players = players.saturating_add(1),
                Doing::Publishes | Doing::Pulled => publisher = Some(sight.client),
                _ => {}
            }
        }
    }
    (players, publisher)
}

// Adds the name of each stream that has a player and hasn't been published yet.
fn add_waiting(
    alloc: Global,
    sights: &[Sight],
    list: &mut Vec<Broadcasts>,
) -> Result<(), AllocError> {
    for sight in sights {
        let (app, name) = (sight.app.as_slice(), sight.name.as_slice());
        if sight.doing == Doing::Plays && !list.iter().any(|one| one.are_of(app, name)) {
            let stream = Broadcasts::none(alloc, app, name, 0)?;
            if list.push(stream).is_err() {
                return Err(AllocError);
            }
        }
    }
    Ok(())
}

impl Stats {
    pub fn of(alloc: Global, watch: &Watch, now: u64) -> Result<Stats, AllocError> {
        let sights = watch.see(alloc)?;
        let mut broadcasts = watch.broadcasts(alloc)?;
        add_waiting(alloc, sights.as_slice(), &mut broadcasts)?;
        Ok(Stats {
            now,
            begun: watch.begun,
            missed: watch.log.sink().missed(),
            sights,
            broadcasts,
            recordings: watch.recordings().see(alloc)?,
        })
    }

    // Returns how long ago that was.
    fn since(&self, then: u64) -> Seconds {
        Seconds {
            milliseconds: self.now.saturating_sub(then),
        }
    }

    // Returns how far a link is behind its stream, if it plays.
    fn behind(&self, sight: &Sight) -> Option<Seconds> {
        (sight.doing == Doing::Plays).then_some(self.since(sight.even))
    }

    fn add_link(&self, alloc: Global, text: &mut String, sight: &Sight) -> Result<(), AllocError> {
        let address = format!(in alloc; "{}", sight.client)?;
        let (does, over) = (word_of(sight.doing), protocol_of(sight));
        let behind = match self.behind(sight) {
            Some(seconds) => format!(in alloc; "{seconds}")?,
            None => format!(in alloc; "-")?,
        };
        let seconds = format!(in alloc; "{}", self.since(sight.begun))?;
        let (received, sent) = (sight.received, sight.sent);
        let name = Name {
            app: sight.app.as_slice(),
            name: sight.name.as_slice(),
        };
        let line = format!(in alloc;
            "{address:<22} {over:<5} {does:<12} {received:>13} {sent:>13} {seconds:>10} {behind:>8}  {name}\n"
        )?;
        text.push_str(&line)
    }

    fn add_stream(
        &self,
        alloc: Global,
        text: &mut String,
        stream: &Broadcasts,
    ) -> Result<(), AllocError> {
        let (players, publisher) = roles(self.sights.as_slice(), stream);
        let publisher = match publisher {
            Some(client) => format!(in alloc; "{client}")?,
            None => format!(in alloc; "-")?,
        };
        let count = stream.count;
        let name = Name {
            app: stream.app.as_slice(),
            name: stream.name.as_slice(),
        };
        let Missed {
            jumps,
            skipped,
            left_out,
        } = stream.missed;
        let line = format!(in alloc;
            "{publisher:<22} {players:>7} {count:>10} {jumps:>7} {skipped:>8} {left_out:>8}  {name}\n"
        )?;
        text.push_str(&line)
    }

    fn add_recording(
        &self,
        alloc: Global,
        text: &mut String,
        recorded: &Recorded,
    ) -> Result<(), AllocError> {
        let file = Shown {
            text: file_of(recorded),
        };
        let fault = match &recorded.fault {
            Some(words) => Shown {
                text: words.as_str(),
            },
            None => Shown { text: "-" },
        };
        let Recorded {
            bytes,
            broadcasts,
            skipped,
            ..
        } = recorded;
        let line = format!(in alloc;
            "{bytes:>13} {broadcasts:>10} {skipped:>8}  {file}  {fault}\n"
        )?;
        text.push_str(&line)
    }

    fn add_recordings(&self, alloc: Global, text: &mut String) -> Result<(), AllocError> {
        if self.recordings.is_empty() {
            return Ok(());
        }
        let head = format!(in alloc;
            "\n{:>13} {:>10} {:>8}  {}  {}\n",
            "BYTES", "BROADCASTS", "SKIPPED", "RECORDING", "FAULT"
        )?;
        text.push_str(&head)?;
        for recorded in self.recordings.as_slice() {
            self.add_recording(alloc, text, recorded)?;
        }
        Ok(())
    }

    /// Returns a table with a line for each link, each stream and each recording.
    pub fn table(&self, alloc: Global) -> Result<String, AllocError> {
        let mut text = format!(in alloc;
            "runs for {} s, {} links, lost {} lines of the log\n\n{:<22} {:<5} {:<12} {:>13} {:>13} {:>10} {:>8}  {}\n",
            self.since(self.begun),
            self.sights.len(),
            self.missed,
            "LINK",
            "OVER",
            "DOES",
            "BYTES IN",
            "BYTES OUT",
            "SECONDS",
            "BEHIND",
            "STREAM"
        )?;
        for sight in self.sights.as_slice() {
            self.add_link(alloc, &mut text, sight)?;
        }
        let head = format!(in alloc;
            "\n{:<22} {:>7} {:>10} {:>7} {:>8} {:>8}  {}\n",
            "PUBLISHER", "PLAYERS", "BROADCASTS", "JUMPS", "SKIPPED", "LEFT OUT", "STREAM"
        )?;
        text.push_str(&head)?;
        for stream in self.broadcasts.as_slice() {
            self.add_stream(alloc, &mut text, stream)?;
        }
        self.add_recordings(alloc, &mut text)?;
        Ok(text)
    }

    fn add_json_link(
        &self,
        alloc: Global,
        text: &mut String,
        sight: &Sight,
    ) -> Result<(), AllocError> {
        let behind = match self.behind(sight) {
            Some(seconds) => format!(in alloc; "{seconds}")?,
            None => format!(in alloc; "null")?,
        };
        let (does, over) = (word_of(sight.doing), protocol_of(sight));
        let app = Quoted {
            bytes: sight.app.as_slice(),
        };
        let name = Quoted {
            bytes: sight.name.as_slice(),
        };
        let (client, received, sent) = (sight.client, sight.received, sight.sent);
        let seconds = self.since(sight.begun);
        let line = format!(in alloc;
            "{{\"address\": \"{client}\", \"over\": \"{over}\", \"does\": \"{does}\", \"app\": {app}, \"name\": {name}, "
        )?;
        text.push_str(&line)?;
        let line = format!(in alloc;
            "\"received\": {received}, \"sent\": {sent}, \"seconds\": {seconds}, \"behind\": {behind}}}"
        )?;
        text.push_str(&line)
    }

    fn add_json_stream(
        &self,
        alloc: Global,
        text: &mut String,
        stream: &Broadcasts,
    ) -> Result<(), AllocError> {
        let (players, publisher) = roles(self.sights.as_slice(), stream);
        let publisher = match publisher {
            Some(client) => format!(in alloc; "\"{client}\"")?,
            None => format!(in alloc; "null")?,
        };
        let app = Quoted {
            bytes: stream.app.as_slice(),
        };
        let name = Quoted {
            bytes: stream.name.as_slice(),
        };
        let count = stream.count;
        let line = format!(in alloc;
            "{{\"app\": {app}, \"name\": {name}, \"publisher\": {publisher}, \"players\": {players}, \"broadcasts\": {count}, "
        )?;
        text.push_str(&line)?;
        let Missed {
            jumps,
            skipped,
            left_out,
        } = stream.missed;
        let line = format!(in alloc;
            "\"jumps\": {jumps}, \"skipped\": {skipped}, \"left_out\": {left_out}}}"
        )?;
        text.push_str(&line)
    }

    fn add_json_recording(
        &self,
        alloc: Global,
        text: &mut String,
        recorded: &Recorded,
    ) -> Result<(), AllocError> {
        let file = QuotedText {
            text: file_of(recorded),
        };
        let fault = match &recorded.fault {
            Some(words) => format!(in alloc;
                "{}",
                QuotedText {
                    text: words.as_str()
                }
            )?,
            None => format!(in alloc; "null")?,
        };
        let Recorded {
            bytes,
            broadcasts,
            skipped,
            ..
        } = recorded;
        let line = format!(in alloc;
            "{{\"file\": {file}, \"bytes\": {bytes}, \"broadcasts\": {broadcasts}, \"skipped\": {skipped}, \"fault\": {fault}}}"
        )?;
        text.push_str(&line)
    }

    /// Returns a JSON object with the links, the streams and the recordings.
    pub fn json(&self, alloc: Global) -> Result<String, AllocError> {
        let mut text = format!(in alloc;
            "{{\"seconds\": {}, \"lost_lines\": {}, \"links\": [",
            self.since(self.begun),
            self.missed
        )?;
        let mut first = true;
        for sight in self.sights.as_slice() {
            text.push_str(if first { "\n  " } else { ",\n  " })?;
            first = false;
            self.add_json_link(alloc, &mut text, sight)?;
        }
        text.push_str("], \"streams\": [")?;
        first = true;
        for stream in self.broadcasts.as_slice() {
            text.push_str(if first { "\n  " } else { ",\n  " })?;
            first = false;
            self.add_json_stream(alloc, &mut text, stream)?;
        }
        text.push_str("], \"recordings\": [")?;
        first = true;
        for recorded in self.recordings.as_slice() {
            text.push_str(if first { "\n  " } else { ",\n  " })?;
            first = false;
            self.add_json_recording(alloc, &mut text, recorded)?;
        }
        text.push_str("]}\n")?;
        Ok(text)
    }
}
