//! The last message begun on each chunk stream.
ghost use Rattle.std.specs.Prelude.{◌≡◌, ◌∷◌, List, OnOk, OnErr};
ghost use Rattle.chunk_writer.specs.Rule.{last_on};
ghost use Rattle.chunk_writer.specs.Sound.{AreLasts, IsPlaced};

use crate::Begun;
use av_unit::OutOfMemory;

/// The last message on a chunk stream, and its place.
pub(crate) struct Found {
    pub place: Option<usize>,
    pub last: Option<Begun>,
}

/// Finds the last message on a chunk stream.
pub(crate) fn find(lasts: &[Begun], id: u32) -> Found
    ensures last { result.last ≡ last_on id lasts.now }
    ensures place { IsPlaced result.place id lasts.now }
{
    let mut left = lasts;
    let mut i = 0;
    while let [begun, rest @ ..] = left {
        if begun.id == id {
            return Found {
                place: Some(i),
                last: Some(*begun),
            };
        }
        i += 1;
        left = rest;
    }
    Found {
        place: None,
        last: None,
    }
}

/// Keeps a message as the last on its chunk stream, in place of the one before it, if there is one.
#[tactic(auto, using(crate::proofs::Recalling::lasts_set, crate::proofs::Recalling::lasts_push))]
pub(crate) fn keep(
    lasts: &mut Vec<Begun>,
    place: Option<usize>,
    begun: Begun,
) -> Result<(), OutOfMemory>
    requires { IsPlaced place begun.id lasts.old.items }
    ensures ok { OnOk result ((said : List Begun) → AreLasts lasts.old.items said → AreLasts lasts.new.items (begun ∷ said)) }
    ensures err { OnErr result (lasts.new.items ≡ lasts.old.items) }
{
    match place {
        Some(i) => {
            lasts[i] = begun;
            Ok(())
        }
        None => {
            lasts.push(begun)?;
            Ok(())
        }
    }
}
