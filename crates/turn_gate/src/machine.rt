//! A machine that answers calls, one at a time.
ghost use Rattle.std.specs.Prelude.{◌≡◌, List, [], ◌∷◌, ◌++◌, length, ◌<◌, ◌^◌};

/// A machine. It stands for the history of its calls with their replies, the oldest first.
pub trait Machine {
    type Call;

    type Reply;

    /// The type of the machine's constant data, such as its limits.
    type About;

    ghost about: { Self → Self.About };

    // Any value of that type. Only proofs need it.
    ghost any: { Self.About };

    // The machine stands for this history.
    ghost stands: { Self → List (Self.Call × Self.Reply) → Type 0 };

    // Each reply in this history is the right one after the calls before it.
    ghost lawful: { Self.About → List (Self.Call × Self.Reply) → Type 0 };

    /// Answers a call. The machine then stands for its history with this call and its reply added.
    fn apply(&mut self, call: Self::Call) -> Self::Reply
        requires { (h : List (Self.Call × Self.Reply)) × stands self.old h × (length h < 2 ^ 62) }
        ensures about { about self.new ≡ about self.old }
        ensures history { (h : List (Self.Call × Self.Reply)) → stands self.old h → length h < 2 ^ 62 → stands self.new (h ++ (call, result) ∷ []) };

    ghost legal: { (x : Self) (h : List (Self.Call × Self.Reply)) → stands x h → lawful (about x) h };
}
