// All words.
ghost use Rattle.std.specs.Prelude.{◌≡◌, ◌∷◌, MatchResult, codes};
ghost use Rattle.command_words.specs.Words.{AnswersWords, HasFileWord, HasForm, IsFileWord, IsRequest, IsWrong, generate, on_file, request_of, texts};
ghost use Rattle.command_words.specs.Fronts.{GenerateForm, IsCarryFront, IsClaimFront, IsOfProcess, IsSpecialiseHead, IsStart, ShowForm, SimulateForm};

use crate::claims::{CarryFront, ClaimFront, bounds_in, carry_in, name_in, path_in, rows_in};
use crate::fronts::{Front, Head, head_in, specialise_in, state_in, walk_in};
use crate::given::assignments_in;
use crate::numbers::number_in;
use crate::request::{
    Carrying, Checking, Job, Lang, Request, Specialising, Task, Walking, WordsFail,
};
use std::alloc::Global;

/// What the words ask for; or, where they are of no form, the position of the first word with which no form goes on, or of the
/// one that is missing.
pub fn request_in(alloc: Global, words: &[String]) -> Result<Request<'_>, WordsFail>
    ensures { AnswersWords (λ r. IsRequest (texts words.now) (request_of r)) HasForm (texts words.now) result }
{
    let [verb, rest @ ..] = words else {
        return Err(WordsFail::At(1));
    };
    match verb.as_str() {
        "to-jani" => match to_jani_in(rest) {
            Ok(request) => Ok(request),
            Err(k) => Err(WordsFail::At(k + 1)),
        },
        "to-prism" => match file_in(rest) {
            Ok(name) => Ok(Request::OnFile(Task::ToPrism, name)),
            Err(k) => Err(WordsFail::At(k + 1)),
        },
        "to-prism-props" => match file_in(rest) {
            Ok(name) => Ok(Request::OnFile(Task::ToPrismProps, name)),
            Err(k) => Err(WordsFail::At(k + 1)),
        },
        "check" => match check_in(rest) {
            Ok((task, name)) => Ok(Request::OnFile(task, name)),
            Err(k) => Err(WordsFail::At(k + 1)),
        },
        "generate" => match modules_in(rest) {
            Ok(modules) => Ok(Request::Generate(modules)),
            Err(k) => Err(WordsFail::At(k + 1)),
        },
        _ => of_process_in(alloc, words, verb.as_str(), rest),
    }
}

// What words ask for whose first is none of those above: the forms with a process.
fn of_process_in<'a>(
    alloc: Global,
    words: &[String],
    verb: &str,
    rest: &'a [String],
) -> Result<Request<'a>, WordsFail>
    requires words { texts words.now ≡ verb.now ∷ texts rest.now }
    requires others { IsOfProcess verb.now }
    ensures { AnswersWords (λ r. IsRequest (texts words.now) (request_of r)) HasForm (texts words.now) result }
{
    match verb {
        "show" => match show_in(rest) {
            Ok(start) => with_given(alloc, words, start),
            Err(k) => Err(WordsFail::At(k + 1)),
        },
        "simulate" => match simulate_in(alloc, rest) {
            Ok(start) => with_given(alloc, words, start),
            Err(WordsFail::At(k)) => Err(WordsFail::At(k + 1)),
            Err(WordsFail::Memory(e)) => Err(WordsFail::Memory(e)),
        },
        "check-path" => match path_in(rest) {
            Ok(front) => claim_with_given(alloc, words, front),
            Err(k) => Err(WordsFail::At(k + 1)),
        },
        "check-rows" => match rows_in(rest) {
            Ok(front) => claim_with_given(alloc, words, front),
            Err(k) => Err(WordsFail::At(k + 1)),
        },
        "check-bound" => match bounds_in(rest) {
            Ok(front) => claim_with_given(alloc, words, front),
            Err(k) => Err(WordsFail::At(k + 1)),
        },
        "carry-path" => match carry_in(rest) {
            Ok(front) => carry_with_given(alloc, words, front),
            Err(k) => Err(WordsFail::At(k + 1)),
        },
        "specialise" => match specialise_in(rest) {
            Ok(head) => specialise_with_given(alloc, words, head),
            Err(k) => Err(WordsFail::At(k + 1)),
        },
        _ => Err(WordsFail::At(1)),
    }
}

// What the words behind `to-jani` ask for, or the position among them at which no form goes on.
fn to_jani_in(words: &[String]) -> Result<Request<'_>, usize>
    ensures { MatchResult result
        (λ r. IsRequest (codes "to-jani" ∷ texts words.now) (request_of r))
        (λ k. IsWrong (λ ws. HasForm (codes "to-jani" ∷ ws)) (texts words.now) k) }
{
    let [name, rest @ ..] = words else {
        return Err(1);
    };
    let file = name.as_str();
    if file.is_empty() {
        return Err(1);
    }
    if rest.is_empty() {
        return Ok(Request::OnFile(Task::ToJani, file));
    }
    let Some(behind) = name_in(rest, &[file]) else {
        return Err(2);
    };
    if !behind.rest.is_empty() {
        return Err(3);
    }
    Ok(Request::WithProperties(file, behind.name))
}

// What the words behind `check` ask for, or the position among them at which no form goes on.
fn check_in(words: &[String]) -> Result<(Task, &str), usize>
    ensures { MatchResult result
        (λ r. IsRequest (codes "check" ∷ texts words.now) (on_file r.0 r.1.now))
        (λ k. IsWrong (λ ws. HasForm (codes "check" ∷ ws)) (texts words.now) k) }
{
    let [lang, rest @ ..] = words else {
        return Err(1);
    };
    match lang.as_str() {
        "prism" => match file_in(rest) {
            Ok(name) => Ok((Task::CheckPrism, name)),
            Err(k) => Err(k + 1),
        },
        "jani" => match file_in(rest) {
            Ok(name) => Ok((Task::CheckJani, name)),
            Err(k) => Err(k + 1),
        },
        _ => Err(1),
    }
}

const MOST_MODULES: u64 = 1000;

// The number of modules that the one word behind `generate` is, or the position among them at which no form goes on.
fn modules_in(words: &[String]) -> Result<u32, usize>
    ensures { MatchResult result
        (λ modules. IsRequest (codes "generate" ∷ texts words.now) (generate modules))
        (λ k. IsWrong GenerateForm (texts words.now) k) }
{
    let [word, rest @ ..] = words else {
        return Err(1);
    };
    let Some(modules) = number_in(word.as_str(), MOST_MODULES) else {
        return Err(1);
    };
    if modules == 0 {
        return Err(1);
    }
    if !rest.is_empty() {
        return Err(2);
    }
    Ok(modules as u32)
}

// The one word, which isn't empty, or the position at which no such words go on.
fn file_in(words: &[String]) -> Result<&str, usize>
    ensures { MatchResult result (λ name. IsFileWord (texts words.now) name.now) (λ k. IsWrong HasFileWord (texts words.now) k) }
{
    let [name, rest @ ..] = words else {
        return Err(1);
    };
    let name = name.as_str();
    if name.is_empty() {
        return Err(1);
    }
    if !rest.is_empty() {
        return Err(2);
    }
    Ok(name)
}

// The words before those of the constants.
#[derive(Drop)]
struct Start<'a> {
    lang: Lang,
    file: &'a str,
    front: Front<'a>,
}

// The words behind `show` up to those of the constants, or the position at which no form goes on.
fn show_in(words: &[String]) -> Result<Start<'_>, usize>
    ensures { MatchResult result (IsStart (codes "show" ∷ texts words.now)) (λ k. IsWrong ShowForm (texts words.now) k) }
{
    let head = match head_in(words) {
        Ok(head) => head,
        Err(k) => return Err(k),
    };
    let Some(front) = state_in(head.rest) else {
        return Err(3);
    };
    Ok(Start {
        lang: head.lang,
        file: head.file,
        front: Front {
            job: Job::Show(front.state),
            rest: front.rest,
        },
    })
}

// The same of the words behind `simulate`.
fn simulate_in(alloc: Global, words: &[String]) -> Result<Start<'_>, WordsFail>
    ensures { AnswersWords (IsStart (codes "simulate" ∷ texts words.now)) SimulateForm (texts words.now) result }
{
    let head = match head_in(words) {
        Ok(head) => head,
        Err(k) => return Err(WordsFail::At(k)),
    };
    match walk_in(alloc, head.rest) {
        Ok(front) => Ok(Start {
            lang: head.lang,
            file: head.file,
            front,
        }),
        Err(WordsFail::At(k)) => Err(WordsFail::At(k + 2)),
        Err(WordsFail::Memory(e)) => Err(WordsFail::Memory(e)),
    }
}

// The request of these words, with the constants that stand behind.
fn with_given<'a>(
    alloc: Global,
    words: &[String],
    start: Start<'a>,
) -> Result<Request<'a>, WordsFail>
    requires { IsStart (texts words.now) start }
    ensures { AnswersWords (λ r. IsRequest (texts words.now) (request_of r)) HasForm (texts words.now) result }
{
    let before = words.len() - start.front.rest.len();
    match assignments_in(alloc, start.front.rest) {
        Ok(given) => Ok(Request::Walk(Walking {
            lang: start.lang,
            file: start.file,
            job: start.front.job,
            given,
        })),
        Err(WordsFail::At(k)) => Err(WordsFail::At(before + k)),
        Err(WordsFail::Memory(e)) => Err(WordsFail::Memory(e)),
    }
}

// The request of a claim in these words, with the constants that stand behind.
fn claim_with_given<'a>(
    alloc: Global,
    words: &[String],
    front: ClaimFront<'a>,
) -> Result<Request<'a>, WordsFail>
    requires { IsClaimFront (texts words.now) front }
    ensures { AnswersWords (λ r. IsRequest (texts words.now) (request_of r)) HasForm (texts words.now) result }
{
    let before = words.len() - front.rest.len();
    match assignments_in(alloc, front.rest) {
        Ok(given) => Ok(Request::Check(Checking {
            lang: front.lang,
            file: front.file,
            claim: front.claim,
            given,
        })),
        Err(WordsFail::At(k)) => Err(WordsFail::At(before + k)),
        Err(WordsFail::Memory(e)) => Err(WordsFail::Memory(e)),
    }
}

// The request to carry the path in these words, with the constants that stand behind.
fn carry_with_given<'a>(
    alloc: Global,
    words: &[String],
    front: CarryFront<'a>,
) -> Result<Request<'a>, WordsFail>
    requires { IsCarryFront (texts words.now) front }
    ensures { AnswersWords (λ r. IsRequest (texts words.now) (request_of r)) HasForm (texts words.now) result }
{
    let before = words.len() - front.rest.len();
    match assignments_in(alloc, front.rest) {
        Ok(given) => Ok(Request::Carry(Carrying {
            lang: front.lang,
            file: front.file,
            path: front.path,
            given,
        })),
        Err(WordsFail::At(k)) => Err(WordsFail::At(before + k)),
        Err(WordsFail::Memory(e)) => Err(WordsFail::Memory(e)),
    }
}

// The request to specialise the file in these words, to the constants that stand behind.
fn specialise_with_given<'a>(
    alloc: Global,
    words: &[String],
    head: Head<'a>,
) -> Result<Request<'a>, WordsFail>
    requires { IsSpecialiseHead (texts words.now) head }
    ensures { AnswersWords (λ r. IsRequest (texts words.now) (request_of r)) HasForm (texts words.now) result }
{
    let before = words.len() - head.rest.len();
    match assignments_in(alloc, head.rest) {
        Ok(given) => Ok(Request::Specialise(Specialising {
            lang: head.lang,
            file: head.file,
            given,
        })),
        Err(WordsFail::At(k)) => Err(WordsFail::At(before + k)),
        Err(WordsFail::Memory(e)) => Err(WordsFail::Memory(e)),
    }
}
