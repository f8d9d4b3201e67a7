// Names as they are printed and read.

ghost use Rattle.std.specs.Prelude.{◌≡◌, ◌≤◌, length, true, ◌||◌, IfOk};
ghost use Rattle.std.specs.List.{list_all};
ghost use Rattle.prism_lex.specs.Tokens.{is_name};
ghost use Rattle.prism_lex.specs.Automaton.{is_letter, is_digit};
ghost use Rattle.process_texts.specs.Texts.{name_text};
ghost use Rattle.process_texts.specs.Names.{ReadsName, SpellsName, ReadsString, string_of};

use crate::bytes::is_letter;
use bridge_io::{Refused, Text};
use decimal_json::{Json, read_json, write_json};
use std::alloc::{AllocError, Global};

fn is_part(b: u8) -> bool
    ensures { result ≡ (is_letter b || is_digit b) }
{
    is_letter(b) || b.is_ascii_digit()
}

fn all_parts(text: &[u8]) -> bool
    ensures { result ≡ list_all (λ c. is_letter c || is_digit c) text.now }
{
    for b in text {
        if !is_part(*b) {
            return false;
        }
    }
    true
}

/// Whether a text is an identifier or a reserved word.
fn is_name(text: &[u8]) -> bool
    ensures { result ≡ is_name text.now }
{
    match text.split_first() {
        Some((first, rest)) => is_letter(*first) && all_parts(rest),
        None => false,
    }
}

/// A name as it is printed: itself where it is an identifier or a reserved word, else a JSON string. `read_name` reads it
/// back, unless it is an identifier of more than 255 bytes.
pub fn name_text(alloc: Global, name: &str) -> Result<Text, AllocError>
    ensures text { IfOk result (λ t. t ≡ name_text name.now) }
    ensures back { (is_name name.now ≡ true → length name.now ≤ 255) → IfOk result (λ t. SpellsName t name.now) }
{
    if is_name(name.as_bytes()) {
        return Text::copy_of(alloc, name);
    }
    let string = Json::Str(0, Text::copy_of(alloc, name)?);
    let bytes = write_json(alloc, &string)?;
    match std::str::from_utf8(bytes.as_slice()) {
        Ok(text) => Text::copy_of(alloc, text),
        Err(_) => unreachable!(),
    }
}

// The most bytes of a name that stands as it is.
const NAME_LIMIT: usize = 255;

/// The name that a text spells: an identifier of at most 255 bytes, a reserved word, or one JSON string without anything
/// round it. None comes exactly where it spells none.
pub fn read_name(alloc: Global, text: &str) -> Result<Option<Text>, AllocError>
    ensures { IfOk result (ReadsName text.now) }
{
    let bytes = text.as_bytes();
    if is_name(bytes) {
        if bytes.len() > NAME_LIMIT {
            return Ok(None);
        }
        return Ok(Some(Text::copy_of(alloc, text)?));
    }
    read_string(alloc, bytes)
}

/// What the JSON string that a text is spells, if it is one without anything round it.
fn read_string(alloc: Global, text: &[u8]) -> Result<Option<Text>, AllocError>
    ensures { IfOk result (ReadsString text.now) }
{
    let Some((b'"', _)) = text.split_first() else {
        return Ok(None);
    };
    let Some((b'"', _)) = text.split_last() else {
        return Ok(None);
    };
    match read_json(alloc, text) {
        Ok(value) => Ok(string_of(value)),
        Err(refused) => match refused {
            Refused::At(_) => Ok(None),
            Refused::Memory(e) => Err(e),
        },
    }
}

fn string_of(value: Json) -> Option<Text>
    ensures { result ≡ string_of value }
{
    match value {
        Json::Str(_, text) => Some(text),
        _ => None,
    }
}
