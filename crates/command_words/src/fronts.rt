// The words before those of the constants, behind `show`, `simulate` and `specialise`.

ghost use Rattle.std.specs.Prelude.{◌∷◌, MatchBool, MatchResult, None, codes, option_map};
ghost use Rattle.command_words.specs.Words.{AnswersWords, IsStateWord, IsWrong, texts};
ghost use Rattle.command_words.specs.Fronts.{FromForm, GivenForm, SeedForm, SpecialiseForm, WayForm, WalkForm, ReadsLang, ReadsState, IsHead, IsHeadWrong, IsFront, IsSpecialiseHead};

use crate::numbers::{number_in, pairs_in};
use crate::request::{Job, Lang, WordsFail};
use std::alloc::Global;

/// The language that a word names.
fn lang_in(word: &str) -> Option<Lang>
    ensures { ReadsLang word.now result }
{
    match word {
        "prism" => Some(Lang::Prism),
        "jani" => Some(Lang::Jani),
        _ => None,
    }
}

/// A language, the word of a file, and the words behind.
#[derive(Clone, Copy)]
pub(crate) struct Head<'a> {
    pub(crate) lang: Lang,
    pub(crate) file: &'a str,
    pub(crate) rest: &'a [String],
}

/// What words of the form `LANG FILE ..` begin with, or the position of the word that isn't so.
pub(crate) fn head_in(words: &[String]) -> Result<Head<'_>, usize>
    ensures { MatchResult result (IsHead (texts words.now)) (IsHeadWrong (texts words.now)) }
{
    let [first, behind @ ..] = words else {
        return Err(1);
    };
    let Some(lang) = lang_in(first.as_str()) else {
        return Err(1);
    };
    let [second, rest @ ..] = behind else {
        return Err(2);
    };
    let file = second.as_str();
    if file.is_empty() {
        return Err(2);
    }
    Ok(Head { lang, file, rest })
}

/// What words of the form `LANG FILE ..` of a file that is specialised begin with, or the position of the word that isn't so.
pub(crate) fn specialise_in(words: &[String]) -> Result<Head<'_>, usize>
    ensures { MatchResult result (IsSpecialiseHead (codes "specialise" ∷ texts words.now)) (λ k. IsWrong SpecialiseForm (texts words.now) k) }
{
    match head_in(words) {
        Ok(head) => Ok(head),
        Err(k) => Err(k),
    }
}

/// Whether a word begins with `(` and ends with `)`.
fn is_state(word: &str) -> bool
    ensures { MatchBool result (IsStateWord word.now) (IsStateWord word.now → ⊥) }
{
    let Some((b'(', rest)) = word.as_bytes().split_first() else {
        return false;
    };
    let Some((b')', _)) = rest.split_last() else {
        return false;
    };
    true
}

/// The text of a state, and the words behind.
#[derive(Clone, Copy)]
pub(crate) struct StateFront<'a> {
    pub(crate) state: &'a str,
    pub(crate) rest: &'a [String],
}

/// What words of the form `STATE ..` begin with.
pub(crate) fn state_in(words: &[String]) -> Option<StateFront<'_>>
    ensures { ReadsState (texts words.now) result }
{
    let [first, rest @ ..] = words else {
        return None;
    };
    let state = first.as_str();
    if is_state(state) {
        Some(StateFront { state, rest })
    } else {
        None
    }
}

/// A job, and the words behind its own.
#[derive(Drop)]
pub(crate) struct Front<'a> {
    pub(crate) job: Job<'a>,
    pub(crate) rest: &'a [String],
}

/// The walk whose pairs of numbers stand behind `given`.
fn given_in<'a>(
    alloc: Global,
    from: Option<&'a str>,
    words: &'a [String],
) -> Result<Front<'a>, WordsFail>
    ensures { AnswersWords (IsFront (codes "simulate") (option_map (λ s. s.now) from.entry) (codes "given" ∷ texts words.now)) GivenForm (texts words.now) result }
{
    let [first, rest @ ..] = words else {
        return Err(WordsFail::At(1));
    };
    match pairs_in(alloc, first.as_str())? {
        Some(pairs) => Ok(Front {
            job: Job::Given(from, pairs),
            rest,
        }),
        None => Err(WordsFail::At(1)),
    }
}

const LAST_SEED: u64 = 0xffff_ffff_ffff_ffff;

const MOST_STEPS: u64 = 1_000_000;

/// The walk whose seed and steps stand behind `seed`.
fn seed_in<'a>(from: Option<&'a str>, words: &'a [String]) -> Result<Front<'a>, usize>
    ensures { MatchResult result
        (IsFront (codes "simulate") (option_map (λ s. s.now) from.entry) (codes "seed" ∷ texts words.now))
        (λ k. IsWrong SeedForm (texts words.now) k) }
{
    let [first, behind @ ..] = words else {
        return Err(1);
    };
    let Some(seed) = number_in(first.as_str(), LAST_SEED) else {
        return Err(1);
    };
    let [second, rest @ ..] = behind else {
        return Err(2);
    };
    let Some(steps) = number_in(second.as_str(), MOST_STEPS) else {
        return Err(2);
    };
    Ok(Front {
        job: Job::Seed(from, seed, steps as u32),
        rest,
    })
}

/// The walk from this state.
fn way_in<'a>(
    alloc: Global,
    from: Option<&'a str>,
    words: &'a [String],
) -> Result<Front<'a>, WordsFail>
    ensures { AnswersWords (IsFront (codes "simulate") (option_map (λ s. s.now) from.entry) (texts words.now)) WayForm (texts words.now) result }
{
    let [word, rest @ ..] = words else {
        return Err(WordsFail::At(1));
    };
    match word.as_str() {
        "given" => match given_in(alloc, from, rest) {
            Ok(front) => Ok(front),
            Err(WordsFail::At(k)) => Err(WordsFail::At(k + 1)),
            Err(WordsFail::Memory(e)) => Err(WordsFail::Memory(e)),
        },
        "seed" => match seed_in(from, rest) {
            Ok(front) => Ok(front),
            Err(k) => Err(WordsFail::At(k + 1)),
        },
        _ => Err(WordsFail::At(1)),
    }
}

/// The walk from the state behind `from`.
fn from_in(alloc: Global, words: &[String]) -> Result<Front<'_>, WordsFail>
    ensures { AnswersWords (IsFront (codes "simulate") None (codes "from" ∷ texts words.now)) FromForm (texts words.now) result }
{
    let Some(front) = state_in(words) else {
        return Err(WordsFail::At(1));
    };
    match way_in(alloc, Some(front.state), front.rest) {
        Ok(front) => Ok(front),
        Err(WordsFail::At(k)) => Err(WordsFail::At(k + 1)),
        Err(WordsFail::Memory(e)) => Err(WordsFail::Memory(e)),
    }
}

/// The walk that stands behind `simulate LANG FILE`.
pub(crate) fn walk_in(alloc: Global, words: &[String]) -> Result<Front<'_>, WordsFail>
    ensures { AnswersWords (IsFront (codes "simulate") None (texts words.now)) WalkForm (texts words.now) result }
{
    let [word, rest @ ..] = words else {
        return Err(WordsFail::At(1));
    };
    if word.as_str() == "from" {
        return match from_in(alloc, rest) {
            Ok(front) => Ok(front),
            Err(WordsFail::At(k)) => Err(WordsFail::At(k + 1)),
            Err(WordsFail::Memory(e)) => Err(WordsFail::Memory(e)),
        };
    }
    way_in(alloc, None, words)
}
