//! The tags that a client is given, and the gifts that are taken.
ghost use Rattle.std.specs.Prelude.{◌≡◌, ◌≤◌, ◌+◌, ◌*◌, [], length, true, false, None, Some, OnOk, OnErr};
ghost use Rattle.client_owed.specs.declared.types.Given.TheVariants as given;
ghost use Rattle.client_owed.specs.declared.types.Phase.TheVariants as phase;
ghost use Rattle.client_owed.specs.declared.types.Wish.TheVariants.{Push};
ghost use Rattle.client_owed.specs.Standing.{gave_more, with_given};
ghost use Rattle.flv_tags.specs.Layout.{is_kind};
ghost use Rattle.rtmp_client.specs.ClientState.{IsLiving, without_gift};
ghost use Rattle.rtmp_client.specs.Keeping.{keeps_of, past_of};
ghost use Rattle.rtmp_client.specs.Owing.{Counts};

use crate::Core;
use crate::spelled::delete_stream;
use av_unit::OutOfMemory;
use chunk_wire::Message;
use client_owed::{Gave, Gift, Given};
use flv_tags::Tag;
use std::alloc::Global;

/// Gives a tag to a client that has started on this message stream.
pub(crate) fn give_tag(core: &mut Core, id: u32, tag: Tag) -> Result<(), OutOfMemory>
    requires living { IsLiving core.old }
    requires started { core.old.phase ≡ phase.Started id }
    requires pushes { core.old.asked.wish ≡ Push }
    requires open { core.old.finished ≡ false }
    requires nothing { core.old.outgoing.pending ≡ [] }
    requires kind { is_kind tag.kind ≡ true }
    requires most { length tag.body ≤ core.old.reader.max }
    ensures living { IsLiving core.new }
    ensures past { OnOk result (past_of core.new ≡ with_given (past_of core.old) (record { at = core.old.fed; given = given.Send tag })) }
    ensures keeps { OnOk result (keeps_of core.new ≡ gave_more (keeps_of core.old) (given.Send tag)) }
    ensures counts { OnOk result (Counts (given.Send tag) core.old.outgoing core.new.outgoing) }
    ensures err { OnErr result (core.new ≡ core.old) }
    ensures fixed { (core.new.asked ≡ core.old.asked) × (core.new.reader ≡ core.old.reader) }
{
    let Tag { kind, time, body } = tag;
    let message = Message {
        kind,
        stream: id,
        time,
        body,
    };
    core.outgoing.show(&message)?;
    let Message {
        kind,
        stream: _,
        time,
        body,
    } = message;
    core.gave.add(&Gave {
        at: core.fed,
        given: Given::Send(Tag { kind, time, body }),
    });
    Ok(())
}

/// Tells a client that has started on this message stream that no more will come.
pub(crate) fn give_finish(core: &mut Core, alloc: Global, id: u32) -> Result<(), OutOfMemory>
    requires living { IsLiving core.old }
    requires started { core.old.phase ≡ phase.Started id }
    requires open { core.old.finished ≡ false }
    ensures living { IsLiving core.new }
    ensures past { OnOk result (past_of core.new ≡ with_given (past_of core.old) (record { at = core.old.fed; given = given.Finish })) }
    ensures keeps { OnOk result (keeps_of core.new ≡ gave_more (keeps_of core.old) given.Finish) }
    ensures counts { OnOk result (Counts given.Finish core.old.outgoing core.new.outgoing) }
    ensures err { OnErr result (core.new ≡ core.old) }
    ensures fixed { (core.new.asked ≡ core.old.asked) × (core.new.reader ≡ core.old.reader) }
{
    let message = delete_stream(alloc, id)?;
    core.outgoing.say(&message)?;
    core.finished = true;
    core.gave.add(&Gave {
        at: core.fed,
        given: Given::Finish,
    });
    Ok(())
}

/// Takes the gift that waits, if there is one.
pub(crate) fn take_gift(core: &mut Core) -> Option<Gift>
    ensures gift { result ≡ core.old.gift }
    ensures left { core.new ≡ without_gift core.old }
{
    match core.gift.take() {
        None => None,
        Some(gift) => {
            core.taken.add(&gift);
            Some(gift)
        }
    }
}
