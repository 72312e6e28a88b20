//! The file of a configuration.

use std::fs::{File, Files};
use std::io;
use std::io::Read;

/// A file to read, or why it couldn't be opened: then each read fails so.
#[derive(Drop)]
pub struct ConfigFile {
    opened: io::Result<File>,
}

impl ConfigFile {
    pub fn open<R: Files<File = File>>(rt: &R, name: &str) -> ConfigFile {
        ConfigFile {
            opened: File::open(rt, name),
        }
    }
}

impl Read for ConfigFile {
    fn read(&mut self, into: &mut [u8]) -> io::Result<usize> {
        match &mut self.opened {
            Ok(file) => file.read(into),
            Err(error) => Err(*error),
        }
    }
}
