//! New clients.
ghost use Rattle.std.specs.Prelude.{◌≡◌, IfOk};
ghost use Rattle.client_command.specs.Turned.{IsLive, IsNew};
ghost use Rattle.client_command.specs.Words.{AreShort};

use av_unit::{Bytes, OutOfMemory};
use client_owed::Wish;
use rtmp_client::Client;
use std::alloc::Global;

// The longest message that is taken and sent.
const MOST_MESSAGE: u32 = 4_194_304;

fn bytes_of(alloc: Global, text: &[u8]) -> Result<Bytes, OutOfMemory>
    ensures { IfOk result (λ bytes. bytes ≡ text.now) }
{
    let mut bytes = Bytes::new(alloc);
    bytes.append(text)?;
    Ok(bytes)
}

/// A client that asks for the stream at the server of that address.
pub fn start(
    alloc: Global,
    wish: Wish,
    address: &[u8],
    app: &[u8],
    name: &[u8],
) -> Result<Client, OutOfMemory>
    requires { AreShort address.now app.now name.now }
    ensures asked { IfOk result (λ c. c.parts.asked ≡ record { wish = wish; address = address.now; app = app.now; name = name.now }) }
    ensures fresh { IfOk result IsNew }
    ensures live { IfOk result IsLive }
{
    let address = bytes_of(alloc, address)?;
    let app = bytes_of(alloc, app)?;
    let name = bytes_of(alloc, name)?;
    Client::new(alloc, wish, address, app, name, MOST_MESSAGE)
}
