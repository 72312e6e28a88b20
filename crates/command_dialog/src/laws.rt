//! Laws on the definition of the dialogue. Each stands on a function that does nothing.

ghost use Rattle.std.specs.Prelude.{◌≡◌, ◌≤◌, ◌<◌, ℕ, List, [], ◌∷◌, Some, None, true, false, codes, All, Option};
ghost use Rattle.av_unit.specs.declared.head.Want.{Want};
ghost use Rattle.av_unit.specs.declared.item.Item.{Item};
ghost use Rattle.rtmp_command.specs.declared.answer.Why.TheVariants as why;
ghost use Rattle.chunk_wire.specs.declared.message.Message.{Message};
ghost use Rattle.stream_model.specs.declared.calls.Call.TheVariants as call;
ghost use Rattle.stream_model.specs.declared.replies.Reply.{Reply};
ghost use Rattle.stream_model.specs.declared.replies.Reply.TheVariants as reply;
ghost use Rattle.command_dialog.specs.declared.types.Role.{Role};
ghost use Rattle.command_dialog.specs.declared.types.Role.TheVariants as role;
ghost use Rattle.command_dialog.specs.declared.types.Ask.{Ask};
ghost use Rattle.command_dialog.specs.declared.types.Grant.{Grant};
ghost use Rattle.command_dialog.specs.declared.types.Grant.TheVariants as grant;
ghost use Rattle.command_dialog.specs.declared.types.Act.{Act};
ghost use Rattle.command_dialog.specs.declared.types.Phase.{Phase};
ghost use Rattle.command_dialog.specs.declared.types.Phase.TheVariants as phase;
ghost use Rattle.command_dialog.specs.declared.types.Meant.{Meant};
ghost use Rattle.command_dialog.specs.declared.types.Meant.TheVariants as meant;
ghost use Rattle.command_dialog.specs.State.{State, fresh, with_phase};
ghost use Rattle.command_dialog.specs.Words.{app_in, name_in, key_in};
ghost use Rattle.command_dialog.specs.Meaning.{asks_while, is_open, least_free, closed_in};
ghost use Rattle.command_dialog.specs.Dialog.{refuses, says, does, told, shows, call_of};
ghost use Rattle.command_dialog.specs.Writable.{IsSaid, IsShown, HasRoom, IsOn, HasIds};
ghost use Rattle.command_dialog.specs.Past.{Event, state_of};
ghost use Rattle.command_dialog.specs.Sizes.{pushed_of, last_size};

/// No message asks a stream for an item.
pub fn no_act_is_a_take()
    ensures { (a : Act) (player : ℕ) (want : Want) → call_of a ≡ call.Take player want → ⊥ }
{}

/// Each message sent or shown is of a type that is written, isn't too long, and has a time of 32 bits; the
/// announced chunk size is 4,096.
pub fn what_is_said_can_be_written()
    ensures step { (s : State) (g : Option Grant) (m : Meant) → All IsSaid (says s g m) }
    ensures message { (desk : Ask → Grant) (s : State) (m : Message) → All IsSaid (does desk s m).says }
    ensures reply { (s : State) (r : Reply) → All IsSaid (told s r).says }
    ensures item { (s : State) (i : Item) → HasRoom i → All IsShown (shows s i) }
{}

/// Each message sent or shown is on message stream 0 or on one of 1 to 16. For the ids that are open and that
/// of the role are at most 16 at first, after a message, and after a reply.
pub fn what_is_said_is_on_a_stream()
    ensures first { (window : ℕ) → HasIds (fresh window) }
    ensures message { (desk : Ask → Grant) (s : State) (m : Message) → HasIds s → HasIds (does desk s m).state }
    ensures message_says { (desk : Ask → Grant) (s : State) (m : Message) → HasIds s → All IsOn (does desk s m).says }
    ensures reply { (s : State) (r : Reply) → HasIds s → HasIds (told s r).state }
    ensures reply_says { (s : State) (r : Reply) → HasIds s → All IsOn (told s r).says }
    ensures item { (s : State) (i : Item) → HasIds s → All IsOn (shows s i) }
{}

/// A createStream is given the least id of 1 to 16 that isn't open, and is refused if all are open.
pub fn the_least_free_id_is_given()
    ensures free { (ids : List ℕ) (id : ℕ) → least_free ids ≡ Some id → (1 ≤ id) × (id ≤ 16) × (is_open id ids ≡ false) }
    ensures least { (ids : List ℕ) (id k : ℕ) → least_free ids ≡ Some id → 1 ≤ k → k < id → is_open k ids ≡ true }
    ensures none { (ids : List ℕ) (k : ℕ) → least_free ids ≡ None → 1 ≤ k → k ≤ 16 → is_open k ids ≡ true }
{}

/// A publish or play is refused by the first of these causes: a role is active, no place has that name, or
/// the guard refuses. Then the stream is in use or full, or the open table has no slot for the name.
pub fn the_first_refusal_is_told()
    ensures active { (p : Phase) (r : Role) (id : ℕ) (app text : List ℕ) → (p ≡ phase.Idle → ⊥) → asks_while p r id app text ≡ meant.Busy r id }
    ensures busy { (s : State) (r : Role) (id : ℕ) → says s None (meant.Busy r id) ≡ refuses r id why.RoleActive }
    ensures no_name { (s : State) (a : Ask) (id : ℕ) → says s (Some grant.NoName) (meant.Asks a id) ≡ refuses a.role id why.NoName }
    ensures guard { (s : State) (a : Ask) (id : ℕ) → says s (Some grant.Refused) (meant.Asks a id) ≡ refuses a.role id why.Refused }
    ensures in_use { (s : State) (id by : ℕ)
        → (told (with_phase s (phase.Asked role.Publish id)) (reply.InUse by)).says ≡ refuses role.Publish id why.InUse }
    ensures full { (s : State) (id : ℕ)
        → (told (with_phase s (phase.Asked role.Play id)) reply.Full).says ≡ refuses role.Play id why.Full }
    ensures no_slot { (s : State) (r : Role) (id slots : ℕ)
        → (told (with_phase s (phase.Asked r id)) (reply.NoSlot slots)).says ≡ refuses r id why.Full }
{}

/// While a publish is granted, the size by which disposable frames are recognised is that of the last video
/// configuration pushed since the Begin. The size is the number of bytes of a NAL unit's length, and 0 if
/// there was no such configuration.
pub fn the_last_configuration_tells_the_size()
    ensures { (window : ℕ) (past : List Event) (id size : ℕ) → (state_of window past).phase ≡ phase.Publishes id size
        → size ≡ last_size (pushed_of window past) }
{}

/// Some texts with the app, the name and the key that they are, and the least free of some ids.
pub fn worked_examples()
    ensures app { (app_in (codes "live/?a=b") ≡ codes "live") × (app_in (codes "live//") ≡ codes "live/") × (app_in (codes "?live") ≡ []) }
    ensures name { (name_in (codes "cam?abc?d") ≡ codes "cam") × (key_in (codes "cam?abc?d") ≡ codes "abc?d") × (key_in (codes "cam") ≡ []) }
    ensures ids { (least_free [] ≡ Some 1) × (least_free (1 ∷ 3 ∷ 2 ∷ []) ≡ Some 4)
        × (least_free (1 ∷ 2 ∷ 3 ∷ 4 ∷ 5 ∷ 6 ∷ 7 ∷ 8 ∷ 9 ∷ 10 ∷ 11 ∷ 12 ∷ 13 ∷ 14 ∷ 15 ∷ 16 ∷ []) ≡ None) }
    ensures closes { (closed_in 4607182418800017408 (2 ∷ 1 ∷ []) ≡ Some 1) × (closed_in 4607182418800017409 (2 ∷ 1 ∷ []) ≡ None) }
{}
