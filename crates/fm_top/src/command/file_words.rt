ghost use Rattle.std.specs.Prelude.{◌↔◌, IfSome, IfNone, IsTrue, List, ℕ};
ghost use Rattle.fm_top_options.specs.Options.{texts};
ghost use Rattle.fm_top.specs.Words.{IsFileWord, IsOfFile, two};

/// The file that the words name behind this command, if they are just these two.
pub fn file_words<'a>(words: &'a [String], command: &str) -> Option<&'a str>
    ensures found { IfSome result (λ file. IsOfFile (texts words.now) command.now file.now) }
    ensures none { IfNone result ((file : List ℕ) →
        IsOfFile (texts words.now) command.now file → ⊥) }
{
    let [first, file] = words else {
        return None;
    };
    file_of(first, file, command)
}

/// The same of these two words.
fn file_of<'a>(first: &str, file: &'a str, command: &str) -> Option<&'a str>
    ensures found { IfSome result (λ name. IsOfFile (two first.now file.now) command.now name.now) }
    ensures none { IfNone result ((name : List ℕ) →
        IsOfFile (two first.now file.now) command.now name → ⊥) }
{
    if first == command && is_file_word(file) {
        Some(file)
    } else {
        None
    }
}

/// The word names a file where options are looked for.
pub fn is_file_word(word: &str) -> bool
    ensures { IsTrue result ↔ IsFileWord word.now }
{
    !word.starts_with('-')
}
