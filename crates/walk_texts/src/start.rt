// Where a job starts.

ghost use Rattle.std.specs.Prelude.{◌≡◌, IfOk, option_copied, Some};
ghost use Rattle.walk_texts.specs.Jobs.{IsStart, ReadsStateOf};

use process_core::{State, Steps};
use process_texts::{read_state, text_laws};
use std::alloc::{AllocError, Global};

/// Where a walk starts.
#[derive(Drop)]
pub enum Start {
    /// At this state.
    At(State),
    /// Nowhere: the named state is no initial state of the process, or none is named and there is no first state.
    Nowhere,
    /// Whether the named state is initial depends on a value that passes the bound.
    Wide,
}

/// The state of the process that a word is.
pub(crate) fn state_of<S: Steps>(
    alloc: Global,
    s: &S,
    word: &str,
) -> Result<Option<State>, AllocError>
    ensures { IfOk result (ReadsStateOf (S.process s.now) word.now) }
{
    text_laws();
    let Some(state) = read_state(alloc, word)? else {
        return Ok(None);
    };
    if s.valid(&state) {
        Ok(Some(state))
    } else {
        Ok(None)
    }
}

/// Where a walk from a named state starts.
fn named_start<S: Steps>(alloc: Global, s: &S, word: &str) -> Result<Start, AllocError>
    ensures { IfOk result (IsStart (S.process s.now) (Some word.now)) }
{
    let Some(state) = state_of(alloc, s, word)? else {
        return Ok(Start::Nowhere);
    };
    match s.initial(&state) {
        Ok(true) => Ok(Start::At(state)),
        Ok(false) => Ok(Start::Nowhere),
        Err(_) => Ok(Start::Wide),
    }
}

/// Where a walk starts.
pub(crate) fn start_of<S: Steps>(
    alloc: Global,
    s: &S,
    from: Option<&str>,
) -> Result<Start, AllocError>
    ensures { IfOk result (IsStart (S.process s.now) (option_copied from.entry)) }
{
    match from {
        Some(word) => named_start(alloc, s, word),
        None => match s.first(alloc)? {
            Some(state) => Ok(Start::At(state)),
            None => Ok(Start::Nowhere),
        },
    }
}
