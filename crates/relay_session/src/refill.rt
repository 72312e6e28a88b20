ghost use Rattle.std.specs.Prelude.{◌≡◌, ◌≤◌, ◌⊎◌, [], length, OnOk, OnErr};
ghost use Rattle.command_dialog.specs.declared.types.Ask.{Ask};
ghost use Rattle.command_dialog.specs.declared.types.Grant.{Grant};
ghost use Rattle.relay_session.specs.Holding.{HandFits};
ghost use Rattle.relay_session.specs.Keeping.{IsOver, IsSound, StandsBefore};
ghost use Rattle.relay_session.specs.Turns.{IsFilled, gone_of};
ghost use Rattle.relay_session.specs.declared.end.End.TheVariants as end;

use crate::Core;
use av_unit::OutOfMemory;
use std::alloc::Global;

/// Encodes more of the pending bytes, until all are encoded or as many as are sent at once.
pub(crate) fn fill(core: &mut Core, alloc: Global) -> Result<(), OutOfMemory>
    requires { IsSound core.old }
    ensures sound { OnOk result (IsSound core.new) }
    ensures stands { (desk : Ask → Grant) → StandsBefore desk core.old → OnOk result (StandsBefore desk core.new) }
    ensures filled { OnOk result (IsFilled core.old core.new) }
    ensures ready { OnOk result ((16384 ≤ length core.new.outgoing.ready) ⊎ (core.new.outgoing.rest ≡ [])) }
    ensures gone { gone_of core.new ≡ gone_of core.old }
    ensures hand { core.new.hand ≡ core.old.hand }
    ensures reader { core.new.reader ≡ core.old.reader }
    ensures light { core.new.outgoing.others ≤ core.old.outgoing.others }
    ensures fits { HandFits core.old → HandFits core.new }
    ensures over { (desk : Ask → Grant) → StandsBefore desk core.old → OnErr result (IsOver desk end.OutOfMemory core.new) }
{
    core.outgoing.fill(alloc)?;
    Ok(())
}
