// What is done with files: they are read and written back in canonical form, or their tokens or formulas are shown.

use crate::tokens::show_tokens;
use crate::trees::show_formulas;
use bridge_io::{FileShelf, List, Refused, StdSink, read_all, write_whole};
use decimal_json::{read_json, write_json};
use jani_tree::{JaniFile, from_json, to_json};
use prism_parse::parse;
use prism_print::print;
use std::alloc::{AllocError, Global};
use std::io;

// The most bytes that are read.
const LIMIT: usize = 1 << 30;

/// Does with the file of this name, which is one of the words, what its ending tells, or says only how many bytes of JSON it has.
pub(crate) fn put_back(
    rt: &HostRuntime,
    words: &[String],
    name: &str,
    reads_only: bool,
) -> io::Result<()> {
    let mut shelf = FileShelf::new(rt, words);
    match read_all(rt.alloc(), &mut shelf, name, LIMIT) {
        Ok(bytes) if reads_only => put_length(rt, bytes.as_slice()),
        Ok(bytes) => show_file(rt, name, bytes.as_slice()),
        Err(_) => Err(io::ErrorKind::NotFound.into()),
    }
}

// Does with a file of this name what its ending tells.
fn show_file(rt: &HostRuntime, name: &str, bytes: &[u8]) -> io::Result<()> {
    if name.ends_with(".tokens") {
        return show_tokens(rt, bytes);
    }
    if name.ends_with(".formulas") {
        return put_formulas(rt, bytes);
    }
    put(rt, written_back(rt.alloc(), name, bytes))
}

// Prints what the formulas of a PRISM file come to, or why it is refused.
fn put_formulas(rt: &HostRuntime, bytes: &[u8]) -> io::Result<()> {
    match parse(rt.alloc(), bytes) {
        Ok(file) => show_formulas(rt, &file),
        Err(refused) => put_refusal(rt, refused),
    }
}

// Prints how many bytes a JSON text has, or why it is refused.
fn put_length(rt: &HostRuntime, bytes: &[u8]) -> io::Result<()> {
    match read_json(rt.alloc(), bytes) {
        Ok(_) => {
            let length = bytes.len();
            println!(rt; "{length}")
        }
        Err(refused) => put_refusal(rt, refused),
    }
}

// Prints a text, or why there is none.
fn put(rt: &HostRuntime, written: Result<List<u8>, Refused>) -> io::Result<()> {
    match written {
        Ok(text) => put_text(rt, text.as_slice()),
        Err(refused) => put_refusal(rt, refused),
    }
}

fn put_refusal(rt: &HostRuntime, refused: Refused) -> io::Result<()> {
    match refused {
        Refused::Memory(e) => Err(e.into()),
        Refused::At(fault) => {
            let (reason, at) = (fault.reason.name(), fault.at);
            println!(rt; "{reason} {at}")
        }
    }
}

fn put_text(rt: &HostRuntime, text: &[u8]) -> io::Result<()> {
    let mut out = StdSink::new(rt.stdout());
    match write_whole(&mut out, text) {
        Ok(()) => Ok(()),
        Err(_) => Err(io::ErrorKind::WriteZero.into()),
    }
}

// The canonical text of the file that the bytes spell.
fn written_back(alloc: Global, name: &str, bytes: &[u8]) -> Result<List<u8>, Refused> {
    if name.ends_with(".json") {
        json_back(alloc, bytes)
    } else if name.ends_with(".jani") {
        jani_back(alloc, bytes)
    } else {
        prism_back(alloc, bytes)
    }
}

fn json_back(alloc: Global, bytes: &[u8]) -> Result<List<u8>, Refused> {
    let value = read_json(alloc, bytes)?;
    let text = write_json(alloc, &value);
    drop(value);
    Ok(text?)
}

fn prism_back(alloc: Global, bytes: &[u8]) -> Result<List<u8>, Refused> {
    let file = parse(alloc, bytes)?;
    let text = print(alloc, &file);
    drop(file);
    Ok(text?)
}

fn jani_back(alloc: Global, bytes: &[u8]) -> Result<List<u8>, Refused> {
    let file = jani_file(alloc, bytes)?;
    let text = jani_text(alloc, &file);
    drop(file);
    Ok(text?)
}

fn jani_file(alloc: Global, bytes: &[u8]) -> Result<JaniFile, Refused> {
    let value = read_json(alloc, bytes)?;
    from_json(alloc, &value)
}

fn jani_text(alloc: Global, file: &JaniFile) -> Result<List<u8>, AllocError> {
    let value = to_json(alloc, file)?;
    write_json(alloc, &value)
}
