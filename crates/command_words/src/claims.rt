// The words before those of the constants, behind `check-path`, `check-rows`, `check-bound` and `carry-path`.

ghost use Rattle.std.specs.Prelude.{◌≢◌, ◌∷◌, MatchBool, MatchResult, codes, map};
ghost use Rattle.std.specs.List.{AllByRecursion};
ghost use Rattle.command_words.specs.Words.{IsWrong, texts};
ghost use Rattle.command_words.specs.Fronts.{BoundsForm, HeadForm, IsCarryFront, IsClaimFront, PathForm, ReadsName, RowsForm};

use crate::fronts::head_in;
use crate::request::{Claim, Lang};

/// A claim about the process of a file, and the words behind it.
#[derive(Clone, Copy)]
pub(crate) struct ClaimFront<'a> {
    pub(crate) lang: Lang,
    pub(crate) file: &'a str,
    pub(crate) claim: Claim<'a>,
    pub(crate) rest: &'a [String],
}

/// What words of the form `LANG FILE PATH ..` begin with, or the position of the word that isn't so.
pub(crate) fn path_in(words: &[String]) -> Result<ClaimFront<'_>, usize>
    ensures { MatchResult result (IsClaimFront (codes "check-path" ∷ texts words.now)) (λ k. IsWrong (HeadForm PathForm) (texts words.now) k) }
{
    let head = match head_in(words) {
        Ok(head) => head,
        Err(k) => return Err(k),
    };
    let Some(path) = name_in(head.rest, &[head.file]) else {
        return Err(3);
    };
    Ok(ClaimFront {
        lang: head.lang,
        file: head.file,
        claim: Claim::Path(path.name),
        rest: path.rest,
    })
}

/// The same of the form `LANG FILE STATES ROWS ..`.
pub(crate) fn rows_in(words: &[String]) -> Result<ClaimFront<'_>, usize>
    ensures { MatchResult result (IsClaimFront (codes "check-rows" ∷ texts words.now)) (λ k. IsWrong (HeadForm RowsForm) (texts words.now) k) }
{
    let head = match head_in(words) {
        Ok(head) => head,
        Err(k) => return Err(k),
    };
    let Some(states) = name_in(head.rest, &[head.file]) else {
        return Err(3);
    };
    let Some(rows) = name_in(states.rest, &[head.file, states.name]) else {
        return Err(4);
    };
    Ok(ClaimFront {
        lang: head.lang,
        file: head.file,
        claim: Claim::Rows(states.name, rows.name),
        rest: rows.rest,
    })
}

/// The same of the form `LANG FILE STATES ROWS LABEL BOUNDS ..`.
pub(crate) fn bounds_in(words: &[String]) -> Result<ClaimFront<'_>, usize>
    ensures { MatchResult result (IsClaimFront (codes "check-bound" ∷ texts words.now)) (λ k. IsWrong (HeadForm BoundsForm) (texts words.now) k) }
{
    let head = match head_in(words) {
        Ok(head) => head,
        Err(k) => return Err(k),
    };
    let Some(states) = name_in(head.rest, &[head.file]) else {
        return Err(3);
    };
    let Some(rows) = name_in(states.rest, &[head.file, states.name]) else {
        return Err(4);
    };
    let Some(label) = name_in(rows.rest, &[]) else {
        return Err(5);
    };
    let Some(bounds) = name_in(label.rest, &[head.file, states.name, rows.name]) else {
        return Err(6);
    };
    Ok(ClaimFront {
        lang: head.lang,
        file: head.file,
        claim: Claim::Bounds(states.name, rows.name, label.name, bounds.name),
        rest: bounds.rest,
    })
}

/// A path of the process of a file, and the words behind it.
#[derive(Clone, Copy)]
pub(crate) struct CarryFront<'a> {
    pub(crate) lang: Lang,
    pub(crate) file: &'a str,
    pub(crate) path: &'a str,
    pub(crate) rest: &'a [String],
}

/// What words of the form `LANG FILE PATH ..` of a path that is carried begin with, or the position of the word that isn't so.
pub(crate) fn carry_in(words: &[String]) -> Result<CarryFront<'_>, usize>
    ensures { MatchResult result (IsCarryFront (codes "carry-path" ∷ texts words.now)) (λ k. IsWrong (HeadForm PathForm) (texts words.now) k) }
{
    let head = match head_in(words) {
        Ok(head) => head,
        Err(k) => return Err(k),
    };
    let Some(path) = name_in(head.rest, &[head.file]) else {
        return Err(3);
    };
    Ok(CarryFront {
        lang: head.lang,
        file: head.file,
        path: path.name,
        rest: path.rest,
    })
}

/// The word of a further file, and the words behind.
#[derive(Clone, Copy)]
pub(crate) struct NameFront<'a> {
    pub(crate) name: &'a str,
    pub(crate) rest: &'a [String],
}

/// What words begin with where a file is named that isn't one of these.
pub(crate) fn name_in<'a>(words: &'a [String], before: &[&str]) -> Option<NameFront<'a>>
    ensures { ReadsName (map (λ s. s.now) before.now) (texts words.now) result }
{
    let [first, rest @ ..] = words else {
        return None;
    };
    let name = first.as_str();
    if name.is_empty() || is_among(name, before) {
        return None;
    }
    Some(NameFront { name, rest })
}

/// Whether the word is one of these.
fn is_among(word: &str, words: &[&str]) -> bool
    ensures { MatchBool result
        (AllByRecursion (λ other. word.now ≢ other) (map (λ s. s.now) words.now) → ⊥)
        (AllByRecursion (λ other. word.now ≢ other) (map (λ s. s.now) words.now)) }
{
    for other in words {
        if *other == word {
            return true;
        }
    }
    false
}
