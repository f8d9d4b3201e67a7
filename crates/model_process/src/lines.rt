//! What is written of a verdict.
ghost use Rattle.std.specs.Prelude.{◌≡◌, ◌++◌, [], IfOk, codes, string_bytes};
ghost use Rattle.std.specs.Fmt.{decimal};
ghost use Rattle.command_words.specs.Words.{claim_of};
ghost use Rattle.model_process.specs.Verdicts.{bounds_ending, judged_ending, no_line, passed_line, place_word, verdict_ending};
ghost use Rattle.model_process.specs.declared.ending.Ending.TheVariants.{Done, Excess, No};

use crate::ending::Ending;
use crate::finding::Finding;
use bridge_io::{List, Text};
use command_words::Claim;
use row_check::{Verdict, Why};
use std::alloc::{AllocError, Global};
use value_bound::BoundVerdict;

/// How it ends with a verdict on a claim.
pub(crate) fn verdict_ending(
    alloc: Global,
    claim: Claim,
    finding: Finding,
) -> Result<Ending, AllocError>
    ensures { IfOk result (λ e. e ≡ verdict_ending (claim_of claim.entry) finding) }
{
    match finding {
        Finding::Judged(verdict) => judged_ending(alloc, claim, verdict),
        Finding::Bounds(verdict) => bounds_ending(alloc, claim, verdict),
        Finding::NoLabel => Ok(Ending::Word(LABEL_WORD)),
    }
}

// The position of LABEL in `check-bound LANG FILE STATES ROWS LABEL ..`.
const LABEL_WORD: usize = 6;

// It ends so with a verdict on bounds.
fn bounds_ending(alloc: Global, claim: Claim, verdict: BoundVerdict) -> Result<Ending, AllocError>
    ensures { IfOk result (λ e. e ≡ bounds_ending (claim_of claim.entry) verdict) }
{
    match verdict {
        BoundVerdict::Yes => yes_ending(alloc),
        BoundVerdict::Rows(verdict) => judged_ending(alloc, claim, verdict),
        BoundVerdict::Undefined(i) => no_state(alloc, i, "undefined"),
        BoundVerdict::Over(i) => no_state(alloc, i, "bound"),
        BoundVerdict::Wide(i) => passed(alloc, "wide", claim, i),
    }
}

// `no state I WHY`
fn no_state(alloc: Global, i: usize, why: &str) -> Result<Ending, AllocError>
    ensures { IfOk result (λ e. e ≡ No (codes "no state " ++ (decimal i ++ (codes " " ++ (why.now ++ codes "\n"))))) }
{
    let line = format!(in alloc; "no state {i} {why}\n")?;
    Ok(Ending::No(List::from_vec(line.into_bytes())))
}

/// How it ends with a verdict on a path or on rows that a claim names. `Err` is want of memory.
pub fn judged_ending(alloc: Global, claim: Claim, verdict: Verdict) -> Result<Ending, AllocError>
    ensures { IfOk result (λ e. e ≡ judged_ending (claim_of claim.entry) verdict) }
{
    match verdict {
        Verdict::Yes => yes_ending(alloc),
        Verdict::No(why) => no_ending(alloc, why),
        Verdict::Wide(k) => passed(alloc, "wide", claim, k),
        Verdict::TooMany(k) => passed(alloc, "too many", claim, k),
    }
}

// `yes`
fn yes_ending(alloc: Global) -> Result<Ending, AllocError>
    ensures { IfOk result (λ e. e ≡ Done (codes "yes\n")) }
{
    let line = String::from_str(alloc, "yes\n")?;
    Ok(Ending::Done(List::from_vec(line.into_bytes())))
}

fn no_ending(alloc: Global, why: Why) -> Result<Ending, AllocError>
    ensures { IfOk result (λ e. e ≡ No (no_line why)) }
{
    let line = no_line(alloc, why)?;
    Ok(Ending::No(List::from_vec(line.into_bytes())))
}

// `no WHY`
fn no_line(alloc: Global, why: Why) -> Result<String, AllocError>
    ensures { IfOk result (λ line. string_bytes line ≡ no_line why) }
{
    match why {
        Why::Step(k) => format!(in alloc; "no step {k}\n"),
        Why::Outside(i) => format!(in alloc; "no state {i} outside\n"),
        Why::Repeated(i) => format!(in alloc; "no state {i} repeated\n"),
        Why::Initial => String::from_str(alloc, "no initial\n"),
        Why::Target(r) => format!(in alloc; "no row {r} target\n"),
        Why::FaultyState(s) => format!(in alloc; "no state {s} bad\n"),
        Why::Choices(s) => format!(in alloc; "no state {s} choices\n"),
        Why::Counts => String::from_str(alloc, "no counts\n"),
    }
}

// It ends where something passes a bound.
fn passed(alloc: Global, what: &str, claim: Claim, k: usize) -> Result<Ending, AllocError>
    ensures { IfOk result (λ e. e ≡ Excess [] (passed_line what.now (place_word (claim_of claim.entry)) k)) }
{
    let line = passed_line(alloc, what, place_word(claim), k)?;
    Ok(Ending::Excess(List::new(alloc), Text::from_string(line)?))
}

// `bridge: WHAT at PLACE K`
fn passed_line(alloc: Global, what: &str, place: &str, k: usize) -> Result<String, AllocError>
    ensures { IfOk result (λ line. string_bytes line ≡ passed_line what.now place.now k) }
{
    format!(in alloc; "bridge: {what} at {place} {k}\n")
}

fn place_word(claim: Claim) -> &'static str
    ensures { result.now ≡ place_word (claim_of claim.entry) }
{
    match claim {
        Claim::Path(_) => "step",
        Claim::Rows(_, _) => "state",
        Claim::Bounds(_, _, _, _) => "state",
    }
}
