//! How a server is watched, by the variables of its environment.

use relay_edge::{Bounds, Proxies, Shown, Unlisted, Watching, is_heard};
use std::env::VarError;
use std::{env, str};

/// The log's level.
const LOG: &str = "RELAY_LOG";

/// The seconds after which a silent link ends.
const SILENCE: &str = "RELAY_SILENCE";

/// The path of the control socket.
const CONTROL: &str = "RELAY_CONTROL";

/// Whether each line of the log begins with the date and the time.
const TIMES: &str = "RELAY_LOG_TIME";

/// The seconds of [`SILENCE`] if the variable isn't set.
const SECONDS: u64 = 20;

/// The same for a link that publishes.
const PUBLISHER_SECONDS: u64 = 8;

/// The seconds that a player may wait for a broadcast.
const WAIT: &str = "RELAY_WAIT";

/// The most links of one address.
const ADDRESS_LINKS: &str = "RELAY_ADDRESS_LINKS";

/// The size in bytes of a link's send buffer in the system.
const SEND_BUFFER: &str = "RELAY_SEND_BUFFER";

/// The bytes of [`SEND_BUFFER`] if the variable isn't set.
const BYTES: u64 = 262_144;

/// The milliseconds that bytes for a player may wait for more.
const GATHER: &str = "RELAY_GATHER";

/// The most milliseconds of [`GATHER`].
const MOST_GATHER: u64 = 500;

/// The addresses of the HTTP proxies in front.
const PROXIES: &str = "RELAY_PROXIES";

/// The levels of the log.
const LEVELS: &str = "off, error, warn, info or debug";

/// A variable that can't be had, or has a value that it may not have.
#[derive(Clone, Copy)]
pub enum Unfit {
    Variable {
        name: &'static str,
        wanted: &'static str,
    },
    /// It was written on standard error what is wrong with it.
    Told,
    OutOfMemory,
}

/// Returns the value of a variable, if it is set and isn't empty.
pub fn variable(host: &HostRuntime, name: &'static str) -> Result<Option<String>, Unfit> {
    match env::var(host, name) {
        Ok(value) => Ok((!value.is_empty()).then_some(value)),
        Err(VarError::NotPresent) => Ok(None),
        Err(VarError::NotUnicode) => Err(Unfit::Variable {
            name,
            wanted: "a text in UTF-8",
        }),
        Err(VarError::OutOfMemory) => Err(Unfit::OutOfMemory),
    }
}

// Returns the number in a variable, if it is set and isn't empty.
fn number(
    host: &HostRuntime,
    name: &'static str,
    wanted: &'static str,
) -> Result<Option<u64>, Unfit> {
    let Some(value) = variable(host, name)? else {
        return Ok(None);
    };
    match value.parse::<u64>() {
        Ok(number) => Ok(Some(number)),
        Err(_) => Err(Unfit::Variable { name, wanted }),
    }
}

// Returns the limits of a server's links. `silence` is the seconds that a link may be silent, if they are
// set.
fn bounds(host: &HostRuntime, silence: Option<u64>) -> Result<Bounds, Unfit> {
    let buffer = number(host, SEND_BUFFER, "a number of bytes")?.unwrap_or(BYTES);
    let wanted = "a number of milliseconds, 0 to 500";
    let gather = number(host, GATHER, wanted)?.unwrap_or(0);
    if gather > MOST_GATHER {
        return Err(Unfit::Variable {
            name: GATHER,
            wanted,
        });
    }
    Ok(Bounds {
        publisher_silence: silence.unwrap_or(PUBLISHER_SECONDS),
        wait: number(host, WAIT, "a number of seconds")?.unwrap_or(0),
        address_links: number(host, ADDRESS_LINKS, "a number of links")?.unwrap_or(0),
        send_buffer: u32::try_from(buffer).unwrap_or(u32::MAX),
        gather,
    })
}

// Returns whether each line of the log begins with the date and the time.
fn has_times(host: &HostRuntime) -> Result<bool, Unfit> {
    match variable(host, TIMES)? {
        None => Ok(false),
        Some(value) => match value.as_str() {
            "0" => Ok(false),
            "1" => Ok(true),
            _ => Err(Unfit::Variable {
                name: TIMES,
                wanted: "0 or 1",
            }),
        },
    }
}

// Returns the HTTP proxies in front, if the variable has some. Writes which word of it is no address.
fn proxies(host: &HostRuntime) -> Result<Option<Proxies>, Unfit> {
    let Some(value) = variable(host, PROXIES)? else {
        return Ok(None);
    };
    match Proxies::read(host.alloc(), value.as_bytes()) {
        Ok(proxies) => Ok(Some(proxies)),
        Err(Unlisted::OutOfMemory) => Err(Unfit::OutOfMemory),
        Err(Unlisted::NoAddress(word)) => {
            if is_heard() {
                let text = str::from_utf8(word).unwrap_or("");
                let _ = eprintln!(host;
                    "relay: {PROXIES}: {}: an IP address is wanted",
                    Shown { text }
                );
            }
            Err(Unfit::Told)
        }
    }
}

/// Returns the settings of the variables, or the variable with a value that it may not have.
pub fn watching(host: &HostRuntime) -> Result<Watching, Unfit> {
    let level = match variable(host, LOG)? {
        None => "info".parse(),
        Some(value) => value.parse(),
    };
    let Ok(level) = level else {
        return Err(Unfit::Variable {
            name: LOG,
            wanted: LEVELS,
        });
    };
    let silence = number(host, SILENCE, "a number of seconds")?;
    Ok(Watching {
        level,
        silence: silence.unwrap_or(SECONDS),
        times: has_times(host)?,
        bounds: bounds(host, silence)?,
        proxies: proxies(host)?,
        control: variable(host, CONTROL)?,
    })
}

/// How a client of a server is watched.
#[derive(Clone, Copy)]
pub struct Watched {
    /// The seconds that its server may be silent. 0 is for ever.
    pub silence: u64,
    /// The log has lines of level `info`.
    pub informs: bool,
    /// There is no log.
    pub is_off: bool,
}

/// Returns the settings of the variables for a client, or the variable with a value that it may not have. A
/// client's log has the level `warn` if the variable isn't set.
pub fn read_watched(host: &HostRuntime) -> Result<Watched, Unfit> {
    let (informs, is_off) = match variable(host, LOG)? {
        None => (false, false),
        Some(value) => match value.as_str() {
            "off" => (false, true),
            "error" | "warn" => (false, false),
            "info" | "debug" => (true, false),
            _ => {
                return Err(Unfit::Variable {
                    name: LOG,
                    wanted: LEVELS,
                });
            }
        },
    };
    Ok(Watched {
        silence: number(host, SILENCE, "a number of seconds")?.unwrap_or(SECONDS),
        informs,
        is_off,
    })
}

/// Writes on standard error the value that a variable must have.
pub fn tell_unfit(host: &HostRuntime, name: &str, wanted: &str) {
    if is_heard() {
        let _ = eprintln!(host; "relay: {}: {wanted} is wanted", Shown { text: name });
    }
}
