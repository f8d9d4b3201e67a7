// Texts, and the texts of errors.
use bridge_io::{Fault, Place, ReadFail, Reason, Refused, Text};
use std::alloc::{AllocError, Global};
use std::fmt::Display;

fn is_kept(alloc: Global, s: &str) -> Result<bool, AllocError> {
    let short = Text::copy_of(alloc, s)?.as_str() == s;
    let long = Text::from_string(String::from_str(alloc, s)?)?.as_str() == s;
    Ok(short && long)
}

#[test]
fn a_text_keeps_its_bytes(rt: HostRuntime) {
    for s in ["", "né", "twenty-two bytes of ü", "twenty-three bytes of x"] {
        assert!(rt; matches!(is_kept(rt.alloc(), s), Ok(true)), "{s}");
    }
}

fn shows<T: Display>(alloc: Global, e: &T, want: &str) -> bool {
    matches!(format!(in alloc; "{}", e), Ok(shown) if shown.as_str() == want)
}

#[test]
fn an_error_shows_its_name(rt: HostRuntime) {
    let place = Place { line: 2, column: 3 };
    let fault = Fault {
        reason: Reason::Cycle,
        at: 7,
    };
    let alloc = rt.alloc();
    let reads = shows(alloc, &ReadFail::Memory(AllocError), "Memory")
        && shows(alloc, &ReadFail::Fault, "Fault")
        && shows(alloc, &ReadFail::TooLong(place), "TooLong");
    let refusals = shows(alloc, &Refused::Memory(AllocError), "Memory")
        && shows(alloc, &Refused::At(fault), "At");
    assert!(rt; reads && refusals);
}
