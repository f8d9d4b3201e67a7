// Numbers in words.

ghost use Rattle.std.specs.Prelude.{◌≡◌, ℕ, IfOk, option_map};
ghost use Rattle.command_words.specs.Numbers.{ReadsNumber, ReadsPairs, IsPartition, FrontIs};

use bridge_io::List;
use itoa::Buffer;
use std::alloc::{AllocError, Global};

/// The number, of at most `most`, that a text writes in decimal digits without sign or leading zeros.
pub(crate) fn number_in(text: &str, most: u64) -> Option<u64>
    ensures { ReadsNumber most text.now result }
{
    let Ok(number) = text.parse::<u64>() else {
        return None;
    };
    if number > most {
        return None;
    }
    let mut buffer = Buffer::new();
    if buffer.format(number) == text {
        Some(number)
    } else {
        None
    }
}

/// The part of a text before its first comma, and what stands behind that comma.
fn first_part(text: &str) -> (&str, Option<&str>)
    ensures { IsPartition text.now result.0.now (option_map (λ s. s.now) result.1) }
{
    match text.split_once(',') {
        Some((first, rest)) => (first, Some(rest)),
        None => (text, None),
    }
}

// Two numbers, and the text of the other pairs.
#[derive(Clone, Copy)]
struct Front<'a> {
    pair: (u32, u32),
    rest: Option<&'a str>,
}

const MOST: u64 = 0xffff_ffff;

/// The first two numbers of a text of pairs.
fn front_in(text: &str) -> Option<Front<'_>>
    ensures { FrontIs text.now result }
{
    let (first, behind) = first_part(text);
    let Some(behind) = behind else {
        return None;
    };
    let (second, rest) = first_part(behind);
    let Some(a) = number_in(first, MOST) else {
        return None;
    };
    let Some(b) = number_in(second, MOST) else {
        return None;
    };
    Some(Front {
        pair: (a as u32, b as u32),
        rest,
    })
}

/// The pairs of numbers below 2^32 that a text writes with commas between all of them, one pair or more. None comes exactly
/// where it writes no such pairs.
pub(crate) fn pairs_in(alloc: Global, text: &str) -> Result<Option<List<(u32, u32)>>, AllocError>
    ensures { IfOk result (ReadsPairs text.now) }
{
    let mut pairs = List::new(alloc);
    let mut rest = text;
    loop {
        let Some(front) = front_in(rest) else {
            return Ok(None);
        };
        pairs.push(front.pair)?;
        match front.rest {
            Some(more) => rest = more,
            None => return Ok(Some(pairs)),
        }
    }
}
