ghost use Rattle.std.specs.Prelude.{◌≡◌, map};
ghost use Rattle.loop_command.specs.Words.{is_loop};

/// The command's word.
const WORD: &[u8] = b"loop";

/// Whether the words are `loop`.
pub(crate) fn is_loop(words: &[Vec<u8>]) -> bool
    ensures { result ≡ is_loop (map (λ w. w.items) words.now) }
{
    match words {
        [word] => word.as_slice() == WORD,
        _ => false,
    }
}
