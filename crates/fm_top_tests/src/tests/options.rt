//! What `fm_top_options` says of words, and which it refuses.
use crate::tests::compared::same;
use crate::tests::endings::words_of;
use fm_top_options::options_of;
use std::alloc::{AllocError, AllocGlobal, Global};
use std::process::Abort;

/// Positional words alone.
const POSITIONAL: &str = "\
l -> words|l
l q f -> words|l|q|f
help -  é -> words|help|-||é";

/// The option at any place.
const ANYWHERE: &str = "\
--threads 2 l q f -> 2 words|l|q|f
l --threads 2 q f -> 2 words|l|q|f
l q f --threads 2 -> 2 words|l|q|f
--threads=16 l q f -> 16 words|l|q|f
l q f --threads=16 -> 16 words|l|q|f";

/// The option with any text.
const TEXTS: &str = "\
--threads= ->  words
--threads=a=b -> a=b words
--threads=-1 -> -1 words
--threads  l ->  words|l
--threads - l -> - words|l";

/// Words behind the end of options.
const BEHIND: &str = "\
-- -> words
-- --threads -x -- -> words|--threads|-x|--
l --threads=2 -- -h -> 2 words|l|-h";

/// The option without its text.
const WITHOUT: &str = "\
--threads -> refused
l --threads -> refused
--threads -1 -> refused
--threads -- 2 -> refused
--threads --threads 2 -> refused
--threads --threads=2 -> refused";

/// The option twice.
const TWICE: &str = "\
--threads=1 --threads=1 -> refused
--threads 1 --threads 1 -> refused
--threads 1 l --threads=2 -> refused
l --threads=1 q --threads 2 -> refused";

/// Other options.
const OTHERS: &str = "\
-h -> refused
l -h q -> refused
--help -> refused
l --help q -> refused
-V -> refused
l -V q -> refused
--version -> refused
l --version q -> refused
-x -> refused
l -x q -> refused
-é -> refused
l -é q -> refused
--- -> refused
l --- q -> refused
--é -> refused
l --é q -> refused
--thread -> refused
l --thread q -> refused
--thread=2 -> refused
--threadss=2 -> refused
--Threads=2 -> refused
--=2 -> refused
-threads -> refused
-t2 -> refused";

/// What words say: the option's text and a blank where it stands among them, `words`, and each positional word behind a
/// bar; or `refused`.
fn said(alloc: Global, words: &[String]) -> Result<String, AllocError> {
    let Some(options) = options_of(alloc, words)? else {
        return String::from_str(alloc, "refused");
    };
    let mut said = String::new(alloc);
    if let Some(threads) = options.threads {
        said.push_str(threads)?;
        said.push(' ')?;
    }
    said.push_str("words")?;
    for word in &options.words {
        said.push('|')?;
        said.push_str(word)?;
    }
    Ok(said)
}

/// Compares what the words of each line say, which single blanks part, with what stands behind its arrow.
fn lines_say<R: AllocGlobal + Abort>(rt: &R, table: &str) {
    for row in table.lines() {
        let (line, wanted) = row.split_once(" -> ").unwrap_or((row, ""));
        let found = said(rt.alloc(), &words_of(rt, line, ' ')).expect(rt, "memory");
        same(rt, (found.as_str(), line), (wanted, line));
    }
}

#[test]
fn words_are_read_or_refused(rt: HostRuntime) {
    let none = said(rt.alloc(), &[]).expect(&rt, "memory");
    same(&rt, none.as_str(), "words");
    lines_say(&rt, POSITIONAL);
    lines_say(&rt, ANYWHERE);
    lines_say(&rt, TEXTS);
    lines_say(&rt, BEHIND);
    lines_say(&rt, WITHOUT);
    lines_say(&rt, TWICE);
    lines_say(&rt, OTHERS);
}
