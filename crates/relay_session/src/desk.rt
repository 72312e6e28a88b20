ghost use Rattle.std.specs.Prelude.{◌≡◌};
ghost use Rattle.command_dialog.specs.declared.types.Ask.{Ask as AnAsk};
ghost use Rattle.command_dialog.specs.declared.types.Grant.{Grant as AGrant};

use command_dialog::{Ask, Grant};

/// An authorizer: it says which publishes and plays are granted, and at which places. It always answers the
/// same.
pub trait Desk {
    ghost grants: { Self → AnAsk → AGrant };

    /// Returns the grant for a publish or play.
    fn grant(&self, ask: &Ask) -> Grant
        ensures { result ≡ grants self.now ask.now };
}
