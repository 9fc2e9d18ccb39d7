use crate::tests::compared::same;
use crate::tests::rows::answers;
use crate::tests::told::{refusal_told, whole};
use fm_path_text::{NameText, PathStep, parse_path};
use std::alloc::Global;

/// How many steps the path of a text has, or how its refusal is printed.
fn steps_told(alloc: Global, text: &str) -> String {
    match parse_path(alloc, text) {
        Ok(path) => {
            let steps = path.len();
            whole(alloc, format!(in alloc; "{steps} steps"))
        }
        Err(refusal) => refusal_told(alloc, refusal),
    }
}

/// The texts of paths, and how many steps they have.
const PATHS: &str = "\
. -> 0 steps
.id -> 1 steps
.a.b -> 2 steps
.#0 -> 1 steps
[] -> 1 steps
.tags[4:-2].#7[][3] -> 5 steps
.#1099511627776 -> 1 steps
[1099511627776:-1099511627776] -> 1 steps
.aaaaaaaaaaaaaaaaaaaaaaaaaaaaaaaaaaaaaaaaaaaaaaaaaaaaaaaaaaaaaaaa -> 1 steps
[][][][][][][][][][][][][][][][][][][][][][][][][][][][][][][][][][][][][][][][][][][][][][][][][][][][][][][][][][][][][][][][] -> 64 steps";

#[test]
fn reads_paths(rt: HostRuntime) {
    answers(&rt, rt.alloc(), steps_told, PATHS);
}

/// Whether the path begins with this name.
fn begins_with(path: &[PathStep], wanted: &[u8]) -> bool {
    match path.first() {
        Some(PathStep::Name(name)) => name.as_bytes() == wanted,
        _ => false,
    }
}

/// The steps behind the first.
fn later_told(alloc: Global, path: &[PathStep]) -> String {
    let later = path.get(1..);
    whole(alloc, format!(in alloc; "{later:?}"))
}

/// The steps behind `.tags` in a path that has one of each kind.
const LATER: &str = "Some([EachFrom(4, -2), Group(7), Each, At(3), EachFrom(0, 5)])";

#[test]
fn reads_each_step(rt: HostRuntime) {
    let alloc = rt.alloc();
    let path = parse_path(alloc, ".tags[4:-2].#7[][3][0:5]").expect(&rt, "a path");
    same(&rt, begins_with(&path, b"tags"), true);
    same(&rt, later_told(alloc, &path).as_str(), LATER);
}

/// Texts that are no path, and behind the refusal's number how many bytes of it some path's text begins with.
const NO_PATHS: &str = "\
a -> 50 0
 -> 50 0
.a[ -> 50 3
.[0] -> 50 1
.. -> 50 1
.1 -> 50 1
.\u{e9} -> 50 1
.a b -> 50 2
[01] -> 50 2
[1:-0] -> 50 4
[1:] -> 50 3
.#1099511627777 -> 50 14
[0:1099511627777] -> 50 15
.aaaaaaaaaaaaaaaaaaaaaaaaaaaaaaaaaaaaaaaaaaaaaaaaaaaaaaaaaaaaaaaaa -> 50 65
[][][][][][][][][][][][][][][][][][][][][][][][][][][][][][][][][][][][][][][][][][][][][][][][][][][][][][][][][][][][][][][][][] -> 50 128";

#[test]
fn refuses_at_the_longest_prefix(rt: HostRuntime) {
    answers(&rt, rt.alloc(), steps_told, NO_PATHS);
}

const NAME_OF_64: &str = "aaaaaaaaaaaaaaaaaaaaaaaaaaaaaaaaaaaaaaaaaaaaaaaaaaaaaaaaaaaaaaaa";

const NAME_OF_65: &str = "aaaaaaaaaaaaaaaaaaaaaaaaaaaaaaaaaaaaaaaaaaaaaaaaaaaaaaaaaaaaaaaaa";

/// The length of the name that the text is, if its bytes are the text's.
fn name_length(text: &str) -> Option<usize> {
    match NameText::of(text) {
        Some(name) if name.as_bytes() == text.as_bytes() => Some(name.len()),
        Some(_) => Some(0),
        None => None,
    }
}

#[test]
fn takes_names_of_up_to_64_bytes(rt: HostRuntime) {
    same(&rt, name_length("_9"), Some(2));
    same(&rt, name_length(NAME_OF_64), Some(64));
    for text in ["", "9a", "a.b", "\u{e9}", NAME_OF_65] {
        same(&rt, (name_length(text), text), (None, text));
    }
}
