//! Texts of JSON.

use crate::shown::{Shown, Written};
use std::fmt;
use std::fmt::{Display, Formatter};

/// A JSON string of bytes that a peer wrote.
#[derive(Clone, Copy)]
pub struct Quoted<'a> {
    pub bytes: &'a [u8],
}

/// A text of JSON, of the configuration or of the system.
#[derive(Clone, Copy)]
pub struct QuotedText<'a> {
    pub text: &'a str,
}

// Writes text with a backslash before each quotation mark and each backslash, which a JSON string can't hold
// as they are.
#[derive(Drop)]
struct Escapes<'a, W> {
    f: &'a mut Formatter<W>,
}

impl<W: fmt::Write> fmt::Write for Escapes<'_, W> {
    fn write_str(&mut self, s: &str) -> fmt::Result {
        for c in s.chars() {
            if c == '"' || c == '\\' {
                self.f.write_char('\\')?;
            }
            self.f.write_char(c)?;
        }
        Ok(())
    }
}

fn write_quoted<W: fmt::Write, D: Display>(f: &mut Formatter<W>, what: &D) -> fmt::Result {
    f.write_char('"')?;
    let mut escapes = Escapes { f: &mut *f };
    fmt::Write::write_fmt(&mut escapes, format_args!("{what}"))?;
    f.write_char('"')
}

impl Display for Quoted<'_> {
    fn fmt<W: fmt::Write>(&self, f: &mut Formatter<W>) -> fmt::Result {
        write_quoted(f, &Written { bytes: self.bytes })
    }
}

impl Display for QuotedText<'_> {
    fn fmt<W: fmt::Write>(&self, f: &mut Formatter<W>) -> fmt::Result {
        write_quoted(f, &Shown { text: self.text })
    }
}
