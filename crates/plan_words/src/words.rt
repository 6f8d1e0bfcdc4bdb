//! Reads the plan of the command-line arguments.
ghost use Rattle.std.specs.Prelude.{◌≡◌, ◌≢◌, ◌↔◌, ℕ, List, [], ◌∷◌, ◌++◌, Option, IfOk, IfErr, IfSome, IfNone, IsErrOf, IsTrue, string_bytes};
ghost use Rattle.std.specs.Fmt.{decimal};
ghost use Rattle.std.specs.Option.{unwrap_or};
ghost use Rattle.plan_words.specs.Words.{IsPlan, IsSiteOf, IsDiskPlan, HasNoPlan, HostWord, HasNoHostWord, IsValueWord, AreFixed, AreOptions, AreNoOptions, IsCutOption, IsNoCutOption, IsPickOption, IsNoPickOption, IsCall, IsPick, words_of};
ghost use Rattle.plan_words.specs.declared.reason.WordReason.{WordReason};

use crate::explain::{fixed_reason, host_fault, option_reason};
use crate::reason::WordReason;
use cache_key::HostName;
use std::alloc::Global;
use thiserror::Error;

/// The number of partitions of every plan.
const PARTITIONS: u16 = 1;

/// The greatest number that `--pick` takes.
pub(crate) const LAST_IMAGE: u8 = 3;

const LAST_DIGIT: u8 = b'0' + LAST_IMAGE;

/// Why arguments have no plan.
#[derive(Clone, Copy, Debug, Drop, Error)]
pub enum WordFault {
    /// They plan no run. The reason is for a person.
    #[error("{reason}")]
    Words { reason: WordReason },
    /// There was no memory for the plan.
    #[error("out of memory")]
    NoMemory,
}

/// The hosts, the partitions and the disk failure of a run.
#[derive(Drop)]
pub struct Plan {
    pub partitions: u16,
    /// The hosts, in byte order.
    pub hosts: Vec<HostName>,
    /// The first changing call of the one disk that fails, counted from 1. It and each later changing call fail until
    /// the disk is restarted.
    pub cut: Option<u64>,
    /// Which of the images that a stop may leave the disk has after its restart: docs/SCRIPT.md.
    pub pick: u8,
}

// The options of the one disk.
#[derive(Clone, Copy)]
struct Chosen {
    cut: Option<u64>,
    picked: Option<u8>,
}

/// The plan of the arguments: `steps`, `--hosts` with one name, `--partitions` with `1`, then perhaps `--cut` with
/// `NAME/0/CALL`, then perhaps `--pick` with `0`, `1`, `2` or `3`, in this order.
///
/// The program's own name is not among them. The name of the host doesn't begin with `-`. The call is a decimal number
/// from 1, without a sign or leading zeros. Takes memory for the name.
#[tactic(auto, using(crate::proofs::WordsLemmas::sited))]
pub fn site_plan(alloc: Global, words: &[String]) -> Result<Plan, WordFault>
    ensures plan { IfOk result (λ plan. IsPlan (words_of words.now) plan.hosts.items plan.partitions) }
    ensures site { IfOk result (λ plan. IsSiteOf (words_of words.now) plan.hosts.items plan.partitions) }
    ensures disk { IfOk result (λ plan. IsDiskPlan (words_of words.now) plan.cut plan.pick) }
    ensures disk_alone { IfOk result (λ plan. (cut : Option ℕ) (pick : ℕ) → IsDiskPlan (words_of words.now) cut pick → (cut ≡ plan.cut) × (pick ≡ plan.pick)) }

    ensures words { (reason : WordReason) → IsErrOf result (WordFault.Words reason) → HasNoPlan (words_of words.now) }
{
    let Some((word, options)) = host_word(words) else {
        return Err(WordFault::Words {
            reason: fixed_reason(words),
        });
    };
    let Some(chosen) = chosen_by(word, options) else {
        return Err(WordFault::Words {
            reason: option_reason(word, words),
        });
    };
    let host = match HostName::of(alloc, word) {
        Ok(host) => host,
        Err(fault) => return Err(host_fault(fault, word)),
    };
    let plan = plan_on(alloc, host, chosen)?;
    Ok(plan)
}

// The plan of a run on one host.
fn plan_on(alloc: Global, host: HostName, chosen: Chosen) -> Result<Plan, WordFault>
    ensures hosts { IfOk result (λ plan. (plan.hosts.items ≡ host ∷ []) × (plan.partitions ≡ 1)) }
    ensures disk { IfOk result (λ plan. (plan.cut ≡ chosen.cut) × (plan.pick ≡ unwrap_or chosen.picked 0)) }
    ensures memory { IfErr result (λ fault. fault ≡ WordFault.NoMemory) }
{
    let mut hosts = Vec::new(alloc);
    match hosts.push(host) {
        Ok(()) => Ok(Plan {
            partitions: PARTITIONS,
            hosts,
            cut: chosen.cut,
            pick: chosen.picked.unwrap_or(0),
        }),
        Err(_) => Err(WordFault::NoMemory),
    }
}

// The argument that names the host, and the options, if the arguments around the name are those of a plan.
fn host_word(words: &[String]) -> Option<(&str, &[String])>
    ensures found { IfSome result (λ found. HostWord (words_of words.now) found.0.now (words_of found.1.now)) }
    ensures none { IfNone result (HasNoHostWord (words_of words.now)) }
{
    match words {
        [steps, hosts, host, partitions, count, options @ ..] => {
            let word = host.as_str();
            if are_fixed(steps, hosts, partitions, count) && is_value_word(word) {
                Some((word, options))
            } else {
                None
            }
        }
        _ => None,
    }
}

// Whether these are the arguments that every plan has.
fn are_fixed(steps: &String, hosts: &String, partitions: &String, count: &String) -> bool
    ensures { IsTrue result ↔ AreFixed (string_bytes steps.now) (string_bytes hosts.now) (string_bytes partitions.now) (string_bytes count.now) }
{
    steps.as_str() == "steps"
        && hosts.as_str() == "--hosts"
        && partitions.as_str() == "--partitions"
        && count.as_str() == "1"
}

// Whether the argument may be the value of an option.
pub(crate) fn is_value_word(word: &str) -> bool
    ensures { IsTrue result ↔ IsValueWord word.now }
{
    match word.as_bytes() {
        [b'-', ..] => false,
        _ => true,
    }
}

// The cut and the pick of the options.
fn chosen_by(host: &str, options: &[String]) -> Option<Chosen>
    ensures found { IfSome result (λ chosen. AreOptions host.now (words_of options.now) chosen.cut chosen.picked) }
    ensures none { IfNone result (AreNoOptions host.now (words_of options.now)) }
{
    match options {
        [] => Some(Chosen {
            cut: None,
            picked: None,
        }),
        [option, value] => one_chosen(host, option.as_str(), value.as_str()),
        [first, cut, second, pick] => two_chosen(
            host,
            first.as_str(),
            cut.as_str(),
            second.as_str(),
            pick.as_str(),
        ),
        _ => None,
    }
}

// The cut or the pick of one option.
fn one_chosen(host: &str, option: &str, value: &str) -> Option<Chosen>
    ensures found { IfSome result (λ chosen. AreOptions host.now (option.now ∷ value.now ∷ []) chosen.cut chosen.picked) }
    ensures none { IfNone result (AreNoOptions host.now (option.now ∷ value.now ∷ [])) }
{
    if let Some(call) = cut_call(host, option, value) {
        return Some(Chosen {
            cut: Some(call),
            picked: None,
        });
    }
    let image = picked_image(option, value)?;
    Some(Chosen {
        cut: None,
        picked: Some(image),
    })
}

// The cut and the pick of two options, each with its value.
fn two_chosen(host: &str, first: &str, cut: &str, second: &str, pick: &str) -> Option<Chosen>
    ensures found { IfSome result (λ chosen. AreOptions host.now (first.now ∷ cut.now ∷ second.now ∷ pick.now ∷ []) chosen.cut chosen.picked) }
    ensures none { IfNone result (AreNoOptions host.now (first.now ∷ cut.now ∷ second.now ∷ pick.now ∷ [])) }
{
    let call = cut_call(host, first, cut)?;
    let image = picked_image(second, pick)?;
    Some(Chosen {
        cut: Some(call),
        picked: Some(image),
    })
}

// The call from which on the host's disk fails, if the option and its value are a cut.
fn cut_call(host: &str, option: &str, value: &str) -> Option<u64>
    ensures found { IfSome result (λ call. IsCutOption host.now option.now value.now call) }
    ensures none { IfNone result (IsNoCutOption host.now option.now value.now) }
{
    if option != "--cut" {
        return None;
    }
    let disk = following(host, value)?;
    let call = following("/0/", disk)?;
    call_of(call)
}

// What stands after this prefix of the argument, if it has the prefix.
pub(crate) fn following<'a>(prefix: &str, word: &'a str) -> Option<&'a str>
    ensures found { IfSome result (λ rest. word.now ≡ prefix.now ++ rest.now) }
    ensures none { IfNone result ((rest : List ℕ) → word.now ≢ prefix.now ++ rest) }
{
    word.strip_prefix(prefix)
}

// The call that the argument numbers. `parse` accepts a plus sign and leading zeros too, so the first byte is tested.
#[tactic(auto, using(crate::proofs::NumberLemmas::call_found, crate::proofs::NumberLemmas::call_none, crate::proofs::NumberLemmas::begins_call))]
pub(crate) fn call_of(word: &str) -> Option<u64>
    ensures found { IfSome result (λ call. (word.now ≡ decimal call) × IsCall call) }
    ensures none { IfNone result ((call : ℕ) → IsCall call → word.now ≢ decimal call) }
{
    match word.as_bytes() {
        [b'1'..=b'9', ..] => word.parse().ok(),
        _ => None,
    }
}

// The image that the option picks, if it and its value are a pick.
fn picked_image(option: &str, value: &str) -> Option<u8>
    ensures found { IfSome result (λ image. IsPickOption option.now value.now image) }
    ensures none { IfNone result (IsNoPickOption option.now value.now) }
{
    if option != "--pick" {
        return None;
    }
    image_of(value)
}

// The image that the argument numbers.
#[tactic(auto, using(crate::proofs::NumberLemmas::image_found, crate::proofs::NumberLemmas::image_digit))]
pub(crate) fn image_of(word: &str) -> Option<u8>
    ensures found { IfSome result (λ image. (word.now ≡ decimal image) × IsPick image) }
    ensures none { IfNone result ((image : ℕ) → IsPick image → word.now ≢ decimal image) }
{
    match word.as_bytes() {
        [digit @ b'0'..=LAST_DIGIT] => Some(*digit - b'0'),
        _ => None,
    }
}
