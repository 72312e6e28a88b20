ghost use Rattle.std.specs.Prelude.{◌≡◌, ℕ, List, codes, true, false};
ghost use Rattle.av_unit.specs.declared.item.Item.{Item};
ghost use Rattle.live_segments.specs.declared.cutter.Row.{Row as ARow};
ghost use Rattle.live_segments.specs.Examples.{again, back, list_again, list_at_first, list_back, list_of_one, list_of_sound, one_broadcast, sound_twice};
ghost use Rattle.live_segments.specs.Laws.{AreLive, CoversAll, IsBounded, IsText, IsWholeUnlessHeld, NumbersGoOn};
ghost use Rattle.live_segments.specs.Live.{live};
ghost use Rattle.live_segments.specs.Listing.{playlist};

/// The segments of items are one after the other the bytes that were kept. Each begins with an association table and a map
/// table, and then its first unit, which is a keyframe, or an audio frame if no video is listed.
pub fn segments_are_live()
    ensures { (target : ℕ) (items : List Item) → AreLive target items }
{}

/// The target duration is no less than each span in whole seconds (RFC 8216, 4.3.3.1).
#[tactic(auto, using(crate::proofs::Lists::covers_all))]
pub fn a_target_covers_all()
    ensures { (target : ℕ) (rows : List ARow) → CoversAll target rows }
{}

/// The media sequence, the discontinuity sequence and the target duration never go back, however many items come.
pub fn numbers_go_on()
    ensures { (target keep : ℕ) (past more : List Item) → NumbersGoOn target keep past more }
{}

/// A playlist lists at most the number that is kept, and its numbers follow those of the segments that have left.
pub fn lists_are_bounded()
    ensures { (keep : ℕ) (rows : List ARow) → IsBounded keep rows }
{}

/// Behind a Begin the text of broadcasts has the transport stream of that broadcast alone.
pub fn broadcasts_begin_anew()
    ensures { (past more : List Item) → IsText past more }
{}

/// If each unit that is written is kept, the bytes are the text of the broadcasts.
pub fn whole_unless_held()
    ensures { (target : ℕ) (items : List Item) → IsWholeUnlessHeld target items }
{}

/// Worked examples: of one broadcast, of an encoder that comes again, of a step back, and of audio alone.
pub fn worked_playlists()
    ensures first { playlist (codes "a") 2000 2 (live 2000 one_broadcast).segments false ≡ list_at_first }
    ensures again { playlist (codes "a") 2000 2 (live 2000 again).segments false ≡ list_again }
    ensures back { playlist (codes "a") 2000 2 (live 2000 back).segments true ≡ list_back }
    ensures sound { playlist (codes "a") 2000 2 (live 2000 sound_twice).segments true ≡ list_of_sound }
    ensures one { playlist (codes "a") 2000 1 (live 2000 back).segments false ≡ list_of_one }
{}
