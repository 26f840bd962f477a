//! The words of the command line.

ghost use Rattle.std.specs.Prelude.{◌≡◌, map, string_bytes};
ghost use Rattle.std.specs.Option.{option_copied};
ghost use Rattle.ms2_top.specs.Command.{file_of, is_option};

/// The file that the words name: they are one word, which is `-` or begins with another byte.
pub fn file_of(words: &[String]) -> Option<&str>
    ensures { option_copied result ≡ file_of (map string_bytes words.now) }
{
    match words {
        [word] if !is_option(word.as_str()) => Some(word.as_str()),
        _ => None,
    }
}

/// Whether a word is an option.
fn is_option(word: &str) -> bool
    ensures { result ≡ is_option word.now }
{
    let bytes = word.as_bytes();
    bytes.len() > 1 && bytes[0] == b'-'
}
