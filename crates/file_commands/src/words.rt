ghost use Rattle.std.specs.Prelude.{◌≡◌, map};
ghost use Rattle.file_commands.specs.Words.{only_word_is};

/// Returns whether the words are this one text alone.
pub(crate) fn only_word_is(words: &[Vec<u8>], text: &[u8]) -> bool
    ensures { result ≡ only_word_is (map (λ w. w.items) words.now) text.now }
{
    match words {
        [word] => word.as_slice() == text,
        _ => false,
    }
}
