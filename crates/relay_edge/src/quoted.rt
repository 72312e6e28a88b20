//! Names of streams in quotes, for the log.

use crate::shown::Written;
use std::fmt;
use std::fmt::{Display, Formatter};

// Writes text with `?` in place of each quotation mark.
#[derive(Drop)]
struct Unquoted<'a, W> {
    f: &'a mut Formatter<W>,
}

impl<W: fmt::Write> fmt::Write for Unquoted<'_, W> {
    fn write_str(&mut self, s: &str) -> fmt::Result {
        for c in s.chars() {
            self.f.write_char(if c == '"' { '?' } else { c })?;
        }
        Ok(())
    }
}

fn write_part<W: fmt::Write>(f: &mut Formatter<W>, bytes: &[u8]) -> fmt::Result {
    let mut plain = Unquoted { f: &mut *f };
    fmt::Write::write_fmt(&mut plain, format_args!("{}", Written { bytes }))
}

/// An application in quotes, as a peer wrote it. No quotation mark stands in it, so nothing of it looks like more of
/// its line.
#[derive(Clone, Copy)]
pub struct QuotedApp<'a> {
    pub app: &'a [u8],
}

impl Display for QuotedApp<'_> {
    fn fmt<W: fmt::Write>(&self, f: &mut Formatter<W>) -> fmt::Result {
        f.write_char('"')?;
        write_part(f, self.app)?;
        f.write_char('"')
    }
}

/// An application and the name of a stream in quotes, likewise.
#[derive(Clone, Copy)]
pub struct QuotedName<'a> {
    pub app: &'a [u8],
    pub name: &'a [u8],
}

impl Display for QuotedName<'_> {
    fn fmt<W: fmt::Write>(&self, f: &mut Formatter<W>) -> fmt::Result {
        f.write_char('"')?;
        write_part(f, self.app)?;
        f.write_char('/')?;
        write_part(f, self.name)?;
        f.write_char('"')
    }
}
