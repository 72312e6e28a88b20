//! The lines of the log on links.

use crate::cause::Cause;
use crate::client::Client;
use crate::quoted::{QuotedApp, QuotedName};
use crate::seats::Tally;
use crate::words::Words;
use relay_outside::News;
use std::fmt::{Display, Formatter};
use std::{fmt, io};

/// A line of the log on a link. `error` is why a call of the system failed.
#[derive(Drop)]
pub struct LinkLine<'a> {
    pub client: Client,
    pub news: News,
    pub app: &'a [u8],
    pub name: &'a [u8],
    pub cause: Cause,
    pub error: Option<io::Error>,
    pub tally: Option<Tally>,
}

impl Display for LinkLine<'_> {
    fn fmt<W: fmt::Write>(&self, f: &mut Formatter<W>) -> fmt::Result {
        let (app, name) = (self.app, self.name);
        write!(f, "{} ", self.client)?;
        match self.news {
            News::Ended { .. } => self.cause.write_end(f, self.news, &self.error, self.tally),
            News::Connected => write!(f, "{} {}", Words(self.news), QuotedApp { app }),
            _ => write!(f, "{} {}", Words(self.news), QuotedName { app, name }),
        }
    }
}
