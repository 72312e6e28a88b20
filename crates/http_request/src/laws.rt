ghost use Rattle.std.specs.Prelude.{ℕ, List, [], ◌++◌};
ghost use Rattle.http_request.specs.Heads.{Agree, IsHead, IsRead, IsRefused, Unfinished, Verdict};

/// Two verdicts on the same bytes are the same, except if httparse's contract leaves open whether it refuses
/// already.
pub fn heads_are_read_one_way()
    ensures { (x : List ℕ) (v w : Verdict) → IsRead x v → IsRead x w → Agree x v w }
{}

/// A verdict that was made stays, whatever bytes follow. So the cuts between pieces can't matter.
pub fn decided_heads_stay()
    ensures head { (x more method target : List ℕ) → IsHead x method target → IsHead (x ++ more) method target }
    ensures refused { (x more : List ℕ) → IsRefused x → IsRefused (x ++ more) }
{}

/// No bytes at all may become a request.
pub fn nothing_is_unfinished()
    ensures { IsRead [] Unfinished }
{}
