//! The HTTP proxies in front of a server.
ghost use Rattle.std.specs.Prelude.{IfErr};
ghost use Rattle.relay_edge.specs.Forwarding.{IsRefused};

use std::alloc::Global;
use std::net::IpAddr;

/// Why a text gives no list of addresses.
#[derive(Clone, Copy)]
pub enum Unlisted<'a> {
    /// This word of it is no IP address.
    NoAddress(&'a [u8]),
    OutOfMemory,
}

/// The addresses of the HTTP proxies in front of a server.
#[derive(Drop)]
pub struct Proxies {
    // An IPv4-mapped IPv6 address stands here as the IPv4 address.
    list: Vec<IpAddr>,
}

impl Proxies {
    /// Returns the IP addresses in a text, with commas or white space between them.
    pub fn read(alloc: Global, text: &[u8]) -> Result<Proxies, Unlisted<'_>>
        ensures { IfErr result IsRefused }
    {
        let mut list = Vec::new(alloc);
        for word in text.split(|byte| *byte == b',' || byte.is_ascii_whitespace()) {
            if word.is_empty() {
                continue;
            }
            let address = match IpAddr::parse_ascii(word) {
                Ok(address) => address.to_canonical(),
                Err(_) => return Err(Unlisted::NoAddress(word)),
            };
            if list.push(address).is_err() {
                return Err(Unlisted::OutOfMemory);
            }
        }
        Ok(Proxies { list })
    }

    /// Returns whether the address is one of them.
    pub fn has(&self, address: IpAddr) -> bool {
        self.list.contains(&address.to_canonical())
    }
}
