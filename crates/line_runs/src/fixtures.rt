//! Texts and mutations that several tests make, and how what was found is compared.
use cache_key::{CacheName, Key, Mutation, Value};
use std::alloc::Global;
use std::fmt::Debug;
use std::process::Abort;

/// What was found is what is wanted.
pub(crate) fn expect_same<T: PartialEq + Debug + Drop>(
    rt: &impl Abort,
    case: &str,
    found: T,
    want: T,
) {
    assert_eq!(rt; found, want, "{case}");
}

/// Adds the pieces to the text.
pub(crate) fn add(rt: &impl Abort, text: &mut String, pieces: &[&str]) {
    for piece in pieces {
        text.push_str(piece).expect(rt, "memory");
    }
}

/// Adds the letter so many times.
pub(crate) fn repeat(rt: &impl Abort, text: &mut String, letter: char, count: usize) {
    for _ in 0..count {
        text.push(letter).expect(rt, "memory");
    }
}

/// A text of this many letters.
pub(crate) fn letters(rt: &impl Abort, alloc: Global, count: usize) -> String {
    let mut text = String::new(alloc);
    repeat(rt, &mut text, 'x', count);
    text
}

/// How many letters a cache's name, a key and a value have.
pub(crate) type Sizes = (usize, usize, usize);

/// Texts of so many letters, within these.
pub(crate) fn lettered(
    rt: &impl Abort,
    alloc: Global,
    within: (&str, &str, &str),
    sizes: Sizes,
) -> String {
    let mut text = String::from_str(alloc, within.0).expect(rt, "memory");
    repeat(rt, &mut text, 'x', sizes.0);
    add(rt, &mut text, &[within.1]);
    repeat(rt, &mut text, 'x', sizes.1);
    add(rt, &mut text, &[within.1]);
    repeat(rt, &mut text, 'x', sizes.2);
    add(rt, &mut text, &[within.2]);
    text
}

/// The line of a put of texts of so many letters.
pub(crate) fn put_line(rt: &impl Abort, alloc: Global, sizes: Sizes) -> String {
    let within = (r#"{"do":"steps","events":[["put",""#, r#"",""#, r#""]]}"#);
    lettered(rt, alloc, within, sizes)
}

/// The command-line arguments of a line, which blanks part. Two blanks part an empty one from its neighbours.
pub(crate) fn words_of_line(rt: &impl Abort, alloc: Global, line: &str) -> Vec<String> {
    let mut words = Vec::new(alloc);
    for word in line.split(' ') {
        let word = String::from_str(alloc, word).expect(rt, "memory");
        words.push(word).expect(rt, "memory");
    }
    words
}

pub(crate) fn cache(rt: &impl Abort, alloc: Global, text: &str) -> CacheName {
    CacheName::of(alloc, text).expect(rt, text)
}

pub(crate) fn key(rt: &impl Abort, alloc: Global, text: &str) -> Key {
    Key::of(alloc, text).expect(rt, text)
}

pub(crate) fn value(rt: &impl Abort, alloc: Global, text: &str) -> Value {
    Value::of(alloc, text).expect(rt, text)
}

/// A cache, a key and a value.
pub(crate) type Put<'a> = (&'a str, &'a str, &'a str);

pub(crate) fn put(rt: &impl Abort, alloc: Global, texts: Put<'_>) -> Mutation {
    Mutation::Put(
        cache(rt, alloc, texts.0),
        key(rt, alloc, texts.1),
        value(rt, alloc, texts.2),
    )
}

pub(crate) fn puts(rt: &impl Abort, alloc: Global, list: &[Put<'_>]) -> Vec<Mutation> {
    let mut mutations = Vec::new(alloc);
    for texts in list {
        mutations.push(put(rt, alloc, *texts)).expect(rt, "memory");
    }
    mutations
}
