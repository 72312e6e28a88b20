ghost use Rattle.std.specs.Prelude.{◌≡◌};
ghost use Rattle.ts_writer.specs.Text.{ts_text};
ghost use Rattle.ts_writer.specs.Examples.{sound_items, sound_text};

/// A worked example of the definition: an AAC configuration and an audio frame are 564 bytes, in three
/// packets.
pub fn a_frame_of_sound()
    ensures { ts_text sound_items ≡ sound_text }
{}
