//! The gifts of a client that plays, as FLV.
ghost use Rattle.std.specs.Prelude.{◌≡◌, ◌++◌, ◌∷◌, [], ℕ, List, IfOk, MatchResult};
ghost use Rattle.std.specs.declared.option.Option.{Option};
ghost use Rattle.std.specs.Io.KnownBytes.{append_known};
ghost use Rattle.client_owed.specs.declared.types.Gift.{Gift};
ghost use Rattle.put_text.specs.Written.{WritesPart};
ghost use Rattle.client_command.specs.Gifts.{pull_text};
ghost use Rattle.client_command.specs.Telling.{IsFine, gift_head, gift_text, has_some, is_last};
ghost use Rattle.client_command.specs.Turned.{PutCause};

use crate::put::put_all;
use crate::stop::Stop;
use av_unit::{Bytes, OutOfMemory};
use client_owed::Gift;
use flv_tags::{write_header, write_tag};
use relay_outside::Sink;
use std::alloc::Global;

/// Whether a gift tells that the stream is over.
pub fn is_last(gift: &Gift) -> bool
    ensures { result ≡ is_last gift.now }
{
    match gift {
        Gift::Unpublished => true,
        Gift::Published => false,
        Gift::Tag(_) => false,
    }
}

// Returns the header, if none was written.
fn begin(alloc: Global, begun: bool) -> Result<Bytes, OutOfMemory>
    ensures { IfOk result (λ text. text ≡ gift_head begun) }
{
    let mut text = Bytes::new(alloc);
    if begun {
        return Ok(text);
    }
    write_header(&mut text)?;
    Ok(text)
}

// Returns the bytes of a gift, behind the header if none was written.
fn text_of(alloc: Global, begun: bool, gift: &Gift) -> Result<Bytes, OutOfMemory>
    requires { IsFine gift.now }
    ensures { IfOk result (λ text. text ≡ gift_text begun gift.now) }
{
    let mut text = begin(alloc, begun)?;
    match gift {
        Gift::Published => Ok(text),
        Gift::Unpublished => Ok(text),
        Gift::Tag(tag) => {
            write_tag(tag, &mut text)?;
            Ok(text)
        }
    }
}

/// Writes a gift behind those before, of which there are some if it is begun.
pub fn write_gift<K: Sink>(alloc: Global, begun: bool, gift: &Gift, out: &mut K) -> Result<(), Stop>
    requires { IsFine gift.now }
    ensures text { (gifts : List Gift) (held : Option (List ℕ)) → begun ≡ has_some gifts → K.holds out.old ≡ append_known held (pull_text gifts)
        → MatchResult result (λ _. K.holds out.new ≡ append_known held (pull_text (gifts ++ gift.now ∷ [])))
        (λ _. WritesPart (pull_text (gifts ++ gift.now ∷ [])) held (K.holds out.new)) }
    ensures faults { MatchResult result (λ _. K.faults out.new ≡ K.faults out.old) (λ stop. PutCause stop (K.faults out.old) (K.faults out.new)) }
{
    let text = text_of(alloc, begun, gift)?;
    put_all(out, text.as_slice())
}
