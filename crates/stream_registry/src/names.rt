//! The names of streams and of open tables.
ghost use Rattle.std.specs.Prelude.{◌≡◌, ◌↔◌, ◌≤◌, ◌<◌, ◌+◌, ◌^◌, ◌++◌, ◌∷◌, [], true, length, IsTrue, IfOk, IfSome, OnOk, OnErr};
ghost use Rattle.stream_registry.specs.Names.{IsNamed, IsListedAt, IsOpenOf, IsPlaceOf};

use av_unit::{Bytes, OutOfMemory};
use std::alloc::Global;
use std::marker::Model;
use stream_core::ShortName;
use stream_model::is_name;
use thiserror::Error;

/// The name of a stream: that of its application, and its own.
#[derive(Drop)]
pub struct Name {
    /// The application.
    pub app: Bytes,
    /// The stream in it.
    pub name: ShortName,
}

impl Name {
    fn is(&self, app: &[u8], name: &[u8]) -> bool
        ensures named { IsTrue result ↔ IsNamed self.now app.now name.now }
        ensures few { IsTrue result → length name.now ≤ 64 }
    {
        let own = self.name.as_slice();
        self.app.as_slice() == app && own == name
    }
}

/// An open table: an application whose publishers give the names of their broadcasts themselves.
#[derive(Drop)]
pub struct OpenName {
    /// The application.
    pub app: Bytes,
    /// The number of names it has at a time.
    pub slots: u32,
}

impl OpenName {
    fn has_app(&self, app: &[u8]) -> bool
        ensures { IsTrue result ↔ (self.now.app ≡ app.now) }
    {
        self.app.as_slice() == app
    }
}

/// No place has a stream of that name, nor does an open table take it.
#[derive(Clone, Copy, Debug, Error)]
#[error("no stream has that name, and no open table takes it")]
pub struct NotFound;

/// The names of the streams at each place.
#[derive(Drop)]
pub struct NameList {
    list: Vec<Name>,
}

impl Model for NameList {
    ghost use Rattle.std.specs.Prelude.{List};
    ghost use Rattle.stream_registry.specs.declared.names.Name.{Name};

    ghost Value = { List Name };

    ghost view = { λ n. n.list.items };
}

impl NameList {
    /// Makes a list without names.
    pub fn new(alloc: Global) -> NameList
        ensures { result ≡ [] }
    {
        NameList {
            list: Vec::new(alloc),
        }
    }

    /// Adds the name of one place more.
    pub fn push(&mut self, name: Name) -> Result<(), OutOfMemory>
        ensures ok { OnOk result (self.new ≡ self.old ++ name ∷ []) }
        ensures err { OnErr result (self.new ≡ self.old) }
    {
        match self.list.push(name) {
            Ok(()) => Ok(()),
            Err(_) => Err(OutOfMemory),
        }
    }

    /// Gives the number of places.
    pub fn len(&self) -> usize
        ensures { result ≡ length self.now }
    {
        self.list.len()
    }

    /// Gives the names, in the order of the places.
    pub fn as_slice(&self) -> &[Name]
        ensures { result.now ≡ self.now }
    {
        &self.list
    }

    /// Finds the first place that has that pair, if one has it.
    pub fn find(&self, app: &[u8], name: &[u8]) -> Option<u32>
        requires { length self.now ≤ 2 ^ 32 }
        ensures place { IsListedAt self.now app.now name.now result }
        ensures few { IfSome result (λ _. length name.now ≤ 64) }
    {
        for place in 0..self.list.len() {
            if self.list[place].is(app, name) {
                return Some(place as u32);
            }
        }
        None
    }
}

/// The open tables, in the order of their places.
#[derive(Drop)]
pub struct OpenList {
    list: Vec<OpenName>,
}

impl Model for OpenList {
    ghost use Rattle.std.specs.Prelude.{List};
    ghost use Rattle.stream_registry.specs.declared.names.OpenName.{OpenName};

    ghost Value = { List OpenName };

    ghost view = { λ o. o.list.items };
}

impl OpenList {
    /// Makes a list without open tables.
    pub fn new(alloc: Global) -> OpenList
        ensures { result ≡ [] }
    {
        OpenList {
            list: Vec::new(alloc),
        }
    }

    /// Adds an open table.
    pub fn push(&mut self, table: OpenName) -> Result<(), OutOfMemory>
        ensures ok { OnOk result (self.new ≡ self.old ++ table ∷ []) }
        ensures err { OnErr result (self.new ≡ self.old) }
    {
        match self.list.push(table) {
            Ok(()) => Ok(()),
            Err(_) => Err(OutOfMemory),
        }
    }

    /// Gives the number of open tables.
    pub fn len(&self) -> usize
        ensures { result ≡ length self.now }
    {
        self.list.len()
    }

    /// Gives the open tables.
    pub fn as_slice(&self) -> &[OpenName]
        ensures { result.now ≡ self.now }
    {
        &self.list
    }

    /// Finds the first open table that has that application, if one has it.
    pub fn find(&self, app: &[u8]) -> Option<u32>
        requires { length self.now ≤ 2 ^ 32 }
        ensures { IsOpenOf self.now app.now result }
    {
        for table in 0..self.list.len() {
            if self.list[table].has_app(app) {
                return Some(table as u32);
            }
        }
        None
    }
}

/// Finds the place of a pair of names. It is that of the first stream that has the pair, else of the first
/// open table of the application, if a caller may give the name. The places of the open tables come after
/// those of the streams.
pub(crate) fn place_of(
    names: &NameList,
    opens: &OpenList,
    app: &[u8],
    name: &[u8],
) -> Result<u32, NotFound>
    requires { length names.now + length opens.now ≤ 2 ^ 32 }
    ensures place { IsPlaceOf names.now opens.now app.now name.now result }
    ensures there { IfOk result (λ place. place < length names.now + length opens.now) }
    ensures few { IfOk result (λ _. length name.now ≤ 64) }
{
    if let Some(place) = names.find(app, name) {
        return Ok(place);
    }
    if !is_name(name) {
        return Err(NotFound);
    }
    match opens.find(app) {
        Some(table) => Ok(names.len() as u32 + table),
        None => Err(NotFound),
    }
}
