//! Finds the reason for which arguments plan no run. No clause speaks of a reason: the callers' clauses say that there is
//! no plan.
ghost use Rattle.std.specs.Prelude.{◌<◌};
ghost use Rattle.plan_words.specs.Words.{IsFaultOfHost};

use crate::reason::{Expected, WordReason};
use crate::words::{WordFault, call_of, following, image_of, is_value_word};
use cache_key::{Excerpt, MOST_NAME_BYTES, NameFault, TextReason};

// The index of each argument, from 0.
const STEPS: usize = 0;

const HOSTS: usize = 1;

const HOST: usize = 2;

const PARTITIONS: usize = 3;

const COUNT: usize = 4;

const OPTION: usize = 5;

/// The fault of the argument that names the host.
pub(crate) fn host_fault(fault: NameFault, word: &str) -> WordFault
    ensures { IsFaultOfHost fault result }
{
    match TextReason::of(fault, word, MOST_NAME_BYTES) {
        Some(reason) => WordFault::Words {
            reason: WordReason::BadHost {
                number: HOST + 1,
                reason,
            },
        },
        None => WordFault::NoMemory,
    }
}

/// Why the arguments before the options are not those of a plan.
pub(crate) fn fixed_reason(words: &[String]) -> WordReason {
    if !has(words, STEPS, "steps") {
        at(words, STEPS, Expected::Steps)
    } else if !has(words, HOSTS, "--hosts") {
        at(words, HOSTS, Expected::Hosts)
    } else if !has_host(words) {
        at(words, HOST, Expected::Host)
    } else if !has(words, PARTITIONS, "--partitions") {
        at(words, PARTITIONS, Expected::Partitions)
    } else {
        at(words, COUNT, Expected::One)
    }
}

/// Why the arguments after the fixed ones are not the options of this host's disk.
pub(crate) fn option_reason(host: &str, words: &[String]) -> WordReason {
    if has(words, OPTION, "--cut") {
        cut_reason(host, words)
    } else if has(words, OPTION, "--pick") {
        pick_reason(words, OPTION + 1)
    } else {
        at(words, OPTION, Expected::CutOrPick)
    }
}

/// Why the cut or the arguments after it are not those of a plan.
fn cut_reason(host: &str, words: &[String]) -> WordReason {
    match disk_of(host, words) {
        None => at(words, OPTION + 1, Expected::Cut),
        Some(disk) if call_of(disk).is_none() => at(words, OPTION + 1, Expected::Call),
        Some(_) if !has(words, OPTION + 2, "--pick") => at(words, OPTION + 2, Expected::Pick),
        Some(_) => pick_reason(words, OPTION + 3),
    }
}

/// What stands after the host and the partition in the cut.
fn disk_of<'a>(host: &str, words: &'a [String]) -> Option<&'a str> {
    let cut = words.get(OPTION + 1)?;
    following("/0/", following(host, cut.as_str())?)
}

/// Why the image at this index or the arguments after it are not those of a plan.
fn pick_reason(words: &[String], index: usize) -> WordReason
    requires { index < 10 }
{
    match words.get(index) {
        Some(image) if image_of(image.as_str()).is_some() => at(words, index + 1, Expected::End),
        _ => at(words, index, Expected::Image),
    }
}

/// The reason at this index: the argument is missing, or is not the expected one.
fn at(words: &[String], index: usize, expected: Expected) -> WordReason
    requires { index < 11 }
{
    let number = index + 1;
    match words.get(index) {
        Some(found) => WordReason::Other {
            number,
            found: Excerpt::of(found.as_str()),
            expected,
        },
        None => WordReason::Missing { number, expected },
    }
}

/// Whether the argument at the index is this one.
fn has(words: &[String], index: usize, word: &str) -> bool {
    match words.get(index) {
        Some(found) => found.as_str() == word,
        None => false,
    }
}

/// Whether the argument of the host may be the value of an option.
fn has_host(words: &[String]) -> bool {
    match words.get(HOST) {
        Some(host) => is_value_word(host.as_str()),
        None => false,
    }
}
