ghost use Rattle.std.specs.Prelude.{◌≡◌, ℕ, List, codes};
ghost use Rattle.av_unit.specs.declared.item.Item.{Item};
ghost use Rattle.ts_writer.specs.Examples.{sound_items};
ghost use Rattle.hls_segments.specs.Cuts.{segments};
ghost use Rattle.hls_segments.specs.Playlist.{playlist};
ghost use Rattle.hls_segments.specs.Examples.{key_pictures, list_of_pictures, list_of_sound};
ghost use Rattle.hls_segments.specs.Laws.{AreCut, CoversAll};
ghost use Rattle.hls_segments.specs.ReadBack.{AreReadBack};

/// The segments of items are, one after the other, their transport stream. Each begins with an association
/// table and a map table, and then its first unit. Each but the first begins with a keyframe, or with audio
/// if no video is listed. Each but the last spans at least the given number of milliseconds.
pub fn segments_are_cut()
    ensures { (least : ℕ) (items : List Item) → AreCut least items }
{}

/// One after the other they are read as the bridged units: all video frames and audio frames that aren't left
/// out, with their times.
pub fn segments_are_read()
    ensures { (least : ℕ) (items : List Item) → AreReadBack least items }
{}

/// The target duration is no less than each span in whole seconds (RFC 8216, 4.3.3.1).
#[tactic(auto, using(crate::proofs::Targets::covers_all))]
pub fn a_target_covers_all()
    ensures { (list : List ℕ) → CoversAll list }
{}

/// Worked examples of the definitions: one audio frame, and keyframes at 0, 2,000, 3,999 and 4,000
/// milliseconds.
pub fn worked_playlists()
    ensures sound { playlist (codes "a") (segments 2000 sound_items) ≡ list_of_sound }
    ensures pictures { playlist (codes "a") (segments 2000 key_pictures) ≡ list_of_pictures }
{}
