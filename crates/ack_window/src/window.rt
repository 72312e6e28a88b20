ghost use Rattle.std.specs.Prelude.{◌≡◌};
ghost use Rattle.ack_window.specs.Window.{window_of};

// A smaller window counts as one of this number of bytes.
const LEAST_WINDOW: u32 = 1_000;

/// Gives the window that a size sets, in bytes.
pub(crate) fn window(size: u32) -> u32
    ensures { result ≡ window_of size }
{
    size.max(LEAST_WINDOW)
}
