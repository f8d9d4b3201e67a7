//! How a run ends, and the texts that say so.
ghost use Rattle.std.specs.Prelude.{◌≡◌, IfOk, string_bytes, ℕ, List};
ghost use Rattle.model_command.specs.Outcome.{ending_line, ending_status, ending_text, line_of, place_in, refusal_line, refused_at, status_of, text_of, word_line};

use bridge_io::{List, Place, Reason, Refused, place_of};
use model_process::Ending;
use std::alloc::{AllocError, Global};

/// How a run ends, unless a write fails.
#[derive(Drop)]
pub enum Outcome {
    /// The file is translated or checked: this is to be written.
    Done(List<u8>),
    /// A state was to be shown, a walk taken, a claim judged, a path carried or a model specialised, and that ended so.
    Ended(Ending),
    /// A file is refused for a reason, at a place.
    Refused(Reason, Place),
    /// The words are of no form. The position, from 1, of the first with which no form goes on.
    Words(usize),
    /// A file couldn't be read.
    ReadFault,
    NoMemory,
}

impl Outcome {
    /// The exit status.
    pub fn status(&self) -> u8
        ensures { result ≡ status_of self.now }
    {
        match self {
            Outcome::Done(_) => 0,
            Outcome::Ended(ending) => ending_status(ending),
            Outcome::Refused(_, _) => 2,
            Outcome::Words(_) => 3,
            Outcome::ReadFault => 4,
            Outcome::NoMemory => 6,
        }
    }

    /// What is to be written to `out`.
    pub fn text(&self) -> &[u8]
        ensures { result.now ≡ text_of self.now }
    {
        match self {
            Outcome::Done(text) => text.as_slice(),
            Outcome::Ended(ending) => ending_text(ending),
            _ => &[],
        }
    }

    /// What is to be written to `err`, for the file of this name: each line with its LF, or nothing. `Err` is want of memory.
    pub fn line(&self, alloc: Global, name: &str) -> Result<Vec<u8>, AllocError>
        ensures { IfOk result (λ line. line.items ≡ line_of name.now self.now) }
    {
        let line = match self {
            Outcome::Done(_) => return Ok(Vec::new(alloc)),
            Outcome::Ended(ending) => return ending_line(alloc, ending),
            Outcome::Refused(reason, place) => {
                refusal_line(alloc, name, *place, reason.number(), reason.name())
            }
            Outcome::Words(k) => word_line(alloc, *k),
            Outcome::ReadFault => format!(in alloc; "bridge: read fault {name}\n"),
            Outcome::NoMemory => String::from_str(alloc, "bridge: no memory\n"),
        };
        Ok(line?.into_bytes())
    }
}

fn ending_status(ending: &Ending) -> u8
    ensures { result ≡ ending_status ending.now }
{
    match ending {
        Ending::Done(_) => 0,
        Ending::No(_) => 1,
        Ending::Stopped(_, _) => 1,
        Ending::Word(_) => 3,
        Ending::Faulty(_) => 7,
        Ending::Excess(_, _) => 8,
    }
}

fn ending_text(ending: &Ending) -> &[u8]
    ensures { result.now ≡ ending_text ending.now }
{
    match ending {
        Ending::Done(text) => text.as_slice(),
        Ending::No(line) => line.as_slice(),
        Ending::Stopped(path, _) => path.as_slice(),
        Ending::Excess(path, _) => path.as_slice(),
        _ => &[],
    }
}

fn ending_line(alloc: Global, ending: &Ending) -> Result<Vec<u8>, AllocError>
    ensures { IfOk result (λ line. line.items ≡ ending_line ending.now) }
{
    match ending {
        Ending::Done(_) => Ok(Vec::new(alloc)),
        Ending::No(_) => Ok(Vec::new(alloc)),
        Ending::Stopped(_, line) => line.as_str().as_bytes().to_vec(alloc),
        Ending::Word(k) => Ok(word_line(alloc, *k)?.into_bytes()),
        Ending::Faulty(lines) => lines.as_slice().to_vec(alloc),
        Ending::Excess(_, line) => line.as_str().as_bytes().to_vec(alloc),
    }
}

// `bridge: word K`
fn word_line(alloc: Global, k: usize) -> Result<String, AllocError>
    ensures { IfOk result (λ line. string_bytes line ≡ word_line k) }
{
    format!(in alloc; "bridge: word {k}\n")
}

// `NAME:LINE:COLUMN: reason NO Name`
fn refusal_line(
    alloc: Global,
    name: &str,
    place: Place,
    number: u8,
    reason: &str,
) -> Result<String, AllocError>
    ensures { IfOk result (λ line. string_bytes line ≡ refusal_line name.now place number reason.now) }
{
    let line = place.line;
    let column = place.column;
    format!(in alloc; "{name}:{line}:{column}: reason {number} {reason}\n")
}

/// How a run ends that refuses its file at a place in these bytes, or for want of memory.
pub(crate) fn refusal(bytes: &[u8], refused: Refused) -> Outcome
    ensures { result ≡ refused_at bytes.now refused }
{
    match refused {
        Refused::At(fault) => Outcome::Refused(fault.reason, place_within(bytes, fault.at)),
        Refused::Memory(_) => Outcome::NoMemory,
    }
}

// The place of an offset in the bytes. One past their end would have the place of the end.
fn place_within(bytes: &[u8], at: usize) -> Place
    ensures { result ≡ place_in bytes.now at }
{
    place_of(bytes, at.min(bytes.len()))
}
