// The reader over several bytes at once, its state changed in its place.

ghost use Rattle.std.specs.Prelude.{◌≡◌, ◌⊎◌, ℕ, ◌+◌, ◌<◌, ◌≤◌, List, [], length, take, slice_index, reverse, None, true, false, IfSome};
ghost use Rattle.decimal_json.specs.declared.machine.Mode.TheVariants.{Value, First, FirstKey, InString, InKey, Key, Colon, Word, InNumber};
ghost use Rattle.decimal_json.specs.declared.machine.State.{State};
ghost use Rattle.decimal_json.specs.declared.chars.Within.TheVariants.{Between};
ghost use Rattle.decimal_json.specs.Grammar.{is_space};
ghost use Rattle.decimal_json.specs.Number.{onward, RunsOn};
ghost use Rattle.decimal_json.specs.Strings as chars;
ghost use Rattle.decimal_json.specs.States.{waits, AllSpaces, From, leaving, took, Begins, Ends, begin_now, closes};

use crate::brackets::Frame;
use crate::chars::{Within, closes};
use crate::letters::{Letters, plain_string};
use crate::machine::{
    KeptMode, Mode, State, Stop, await_value, begin, closed, in_after, in_array, in_colon,
    in_first, in_first_key, in_next_key, in_number, in_value, in_word, is_closing, is_space,
    is_value,
};
use crate::members::{Members, Pending};
use crate::number::{Digits, Stage, first, is_end, onward};
use crate::tree::Json;
use bridge_io::{List, Reason, Text};
use frac_core::decimal_of;
use std::alloc::Global;
use std::mem;

/// How many bytes are taken; or how many are taken before the one that is not.
pub type Taken = Result<usize, (usize, Stop)>;

/// How many of the first bytes are spaces.
fn spaces(bytes: &[u8]) -> usize
    ensures all { (result ≤ length bytes.now) × AllSpaces (take result bytes.now) }
    ensures stops { result < length bytes.now → is_space (slice_index bytes.now result) ≡ false }
{
    let mut n = 0usize;
    while n < bytes.len() && is_space(bytes[n]) {
        n += 1;
    }
    n
}

/// Spaces change nothing here.
fn waits(mode: &Mode) -> bool
    ensures { result ≡ waits mode.now }
{
    match mode {
        Mode::Value => true,
        Mode::First(_) => true,
        Mode::FirstKey(_) => true,
        Mode::Key(_, _) => true,
        Mode::Colon(_, _) => true,
        Mode::InKey(_, _, _, _, _) => false,
        Mode::InString(_, _, _) => false,
        Mode::Word(_, _) => false,
        Mode::InNumber(_, _) => false,
        Mode::After(_) => true,
    }
}

/// What a step behind so many bytes comes to.
fn taken(n: usize, answer: Result<(), Stop>) -> Taken
    requires { n < 9223372036854775808 }
    ensures { result ≡ took n answer }
{
    match answer {
        Ok(()) => Ok(n + 1),
        Err(stop) => Err((n, stop)),
    }
}

/// How many bytes a number goes on with, and the stage behind them.
fn number_front(stage: Stage, bytes: &[u8]) -> (usize, Stage)
    ensures within { result.0 ≤ length bytes.now }
    ensures runs { RunsOn stage (take result.0 bytes.now) result.1 }
    ensures stops { result.0 < length bytes.now → onward result.1 (slice_index bytes.now result.0) ≡ None }
{
    let mut now = stage;
    let mut n = 0usize;
    while n < bytes.len() {
        match onward(now, bytes[n]) {
            None => break,
            Some(next) => now = next,
        }
        n += 1;
    }
    (n, now)
}

/// Behind a key.
#[inline(always)]
fn colon_at(
    at: usize,
    n: usize,
    start: usize,
    pending: Pending,
    state: &mut State,
    bytes: &[u8],
) -> Taken
    requires some { 0 < length bytes.now }
    requires front { n ≤ length bytes.now }
    requires room { at + length bytes.now < 9223372036854775808 }
    ensures { From at bytes.now n (record { mode = Colon start pending; frames = state.old.frames }) (leaving result state.new) }
{
    if n == bytes.len() {
        state.mode = KeptMode {
            mode: Mode::Colon(start, pending),
        };
        return Ok(n);
    }
    taken(n, in_colon(at + n, start, pending, state, bytes[n]))
}

/// Before the quotation mark that ends a key.
#[inline(always)]
fn key_named(
    at: usize,
    n: usize,
    start: usize,
    members: Members,
    from: usize,
    name: Text,
    state: &mut State,
    bytes: &[u8],
) -> Taken
    requires some { n < length bytes.now }
    requires quote { slice_index bytes.now n ≡ 34 }
    requires room { at + length bytes.now < 9223372036854775808 }
    ensures { From at bytes.now n (record { mode = InKey start members from Between name; frames = state.old.frames }) (leaving result state.new) }
{
    if members.has(name.as_str()) {
        drop(members);
        drop(name);
        return Err((n, Stop::At(from, Reason::TwiceMember)));
    }
    let pending = Pending::new(members, name, from);
    colon_at(at, n + 1, start, pending, state, bytes)
}

/// Behind bytes that go on with a key, up to the first that does not.
fn key_on(
    at: usize,
    n: usize,
    start: usize,
    members: Members,
    from: usize,
    within: Within,
    text: Letters,
    state: &mut State,
    bytes: &[u8],
) -> Taken
    requires some { 0 < length bytes.now }
    requires front { n ≤ length bytes.now }
    requires stops { n < length bytes.now → chars.onward within (slice_index bytes.now n) ≡ None }
    requires room { at + length bytes.now < 9223372036854775808 }
    ensures { From at bytes.now n (record { mode = InKey start members from within text; frames = state.old.frames }) (leaving result state.new) }
{
    if n == bytes.len() {
        state.mode = KeptMode {
            mode: Mode::InKey(start, members, from, within, text),
        };
        return Ok(n);
    }
    if !closes(within, bytes[n]) {
        drop(members);
        drop(text);
        return Err((n, Stop::Here));
    }
    match text.into_text() {
        Err(_) => {
            drop(members);
            Err((0, Stop::Memory))
        }
        Ok(name) => key_named(at, n, start, members, from, name, state, bytes),
    }
}

/// Behind so many bytes, inside a key.
fn key_from(
    at: usize,
    n: usize,
    start: usize,
    members: Members,
    from: usize,
    within: Within,
    text: Letters,
    state: &mut State,
    bytes: &[u8],
) -> Taken
    requires some { 0 < length bytes.now }
    requires front { n ≤ length bytes.now }
    requires room { at + length bytes.now < 9223372036854775808 }
    ensures { From at bytes.now n (record { mode = InKey start members from within text; frames = state.old.frames }) (leaving result state.new) }
{
    match text.along(within, &bytes[n..]) {
        Err(_) => {
            drop(members);
            Err((0, Stop::Memory))
        }
        Ok((more, now, longer)) => {
            let end = n + more;
            key_on(at, end, start, members, from, now, longer, state, bytes)
        }
    }
}

/// Behind the quotation mark that begins a key.
fn key_opened(
    alloc: Global,
    at: usize,
    n: usize,
    start: usize,
    members: Members,
    from: usize,
    state: &mut State,
    bytes: &[u8],
) -> Taken
    requires some { 0 < length bytes.now }
    requires front { n ≤ length bytes.now }
    requires room { at + length bytes.now < 9223372036854775808 }
    ensures { From at bytes.now n (record { mode = InKey start members from Between []; frames = state.old.frames }) (leaving result state.new) }
{
    match plain_string(alloc, &bytes[n..]) {
        Err(_) => {
            drop(members);
            Err((0, Stop::Memory))
        }
        Ok(None) => {
            let text = Letters::new(alloc);
            let within = Within::Between;
            key_from(at, n, start, members, from, within, text, state, bytes)
        }
        Ok(Some((more, name))) => {
            key_named(at, n + more, start, members, from, name, state, bytes)
        }
    }
}

/// A further key is to come.
fn key_at(
    alloc: Global,
    at: usize,
    n: usize,
    start: usize,
    members: Members,
    state: &mut State,
    bytes: &[u8],
) -> Taken
    requires some { 0 < length bytes.now }
    requires front { n ≤ length bytes.now }
    requires room { at + length bytes.now < 9223372036854775808 }
    ensures { From at bytes.now n (record { mode = Key start members; frames = state.old.frames }) (leaving result state.new) }
{
    if n == bytes.len() {
        state.mode = KeptMode {
            mode: Mode::Key(start, members),
        };
        return Ok(n);
    }
    let here = at + n;
    if bytes[n] != b'"' {
        return taken(n, in_next_key(alloc, here, start, members, state, bytes[n]));
    }
    key_opened(alloc, at, n + 1, start, members, here, state, bytes)
}

/// A first key or the end of the object is to come.
fn first_key_at(
    alloc: Global,
    at: usize,
    n: usize,
    start: usize,
    state: &mut State,
    bytes: &[u8],
) -> Taken
    requires some { 0 < length bytes.now }
    requires front { n ≤ length bytes.now }
    requires room { at + length bytes.now < 9223372036854775808 }
    ensures { From at bytes.now n (record { mode = FirstKey start; frames = state.old.frames }) (leaving result state.new) }
{
    if n == bytes.len() {
        state.mode = KeptMode {
            mode: Mode::FirstKey(start),
        };
        return Ok(n);
    }
    let here = at + n;
    if bytes[n] != b'"' {
        return taken(n, in_first_key(alloc, here, start, state, bytes[n]));
    }
    let members = Members::new(alloc);
    key_opened(alloc, at, n + 1, start, members, here, state, bytes)
}

/// Behind a value, over a comma, and over a key behind it.
fn comma_on(
    alloc: Global,
    at: usize,
    n: usize,
    value: Json,
    state: &mut State,
    bytes: &[u8],
) -> Taken
    requires some { n < length bytes.now }
    requires comma { slice_index bytes.now n ≡ 44 }
    requires room { at + length bytes.now < 9223372036854775808 }
    ensures { (u : State) → Ends (at + n) (slice_index bytes.now n) u (closes (reverse state.old.frames) value) → From at bytes.now n u (leaving result state.new) }
{
    match state.frames.pop() {
        None => {
            drop(value);
            Err((n, Stop::Here))
        }
        Some(Frame::InArray(start, items)) => {
            taken(n, in_array(start, items, value, state, bytes[n]))
        }
        Some(Frame::InObject(start, pending)) => match pending.with(alloc, value) {
            Err(_) => Err((0, Stop::Memory)),
            Ok(members) => key_at(alloc, at, n + 1, start, members, state, bytes),
        },
    }
}

/// Behind a value, over the next byte, and over a key behind a comma. An item of an array is added in its place.
#[inline(always)]
fn comma_at(
    alloc: Global,
    at: usize,
    n: usize,
    value: Json,
    state: &mut State,
    bytes: &[u8],
) -> Taken
    requires some { n < length bytes.now }
    requires room { at + length bytes.now < 9223372036854775808 }
    ensures { (u : State) → Ends (at + n) (slice_index bytes.now n) u (closes (reverse state.old.frames) value) → From at bytes.now n u (leaving result state.new) }
{
    let here = at + n;
    let c = bytes[n];
    if c != b',' {
        return taken(n, in_after(alloc, here, value, state, c));
    }
    match state.frames.add_item(value) {
        Err(_) => Err((0, Stop::Memory)),
        Ok(Some(same)) => comma_on(alloc, at, n, same, state, bytes),
        Ok(None) => {
            await_value(state);
            Ok(n + 1)
        }
    }
}

/// Behind a value, over the brackets that close behind it, and what is behind them.
fn after_at(
    alloc: Global,
    at: usize,
    n: usize,
    value: Json,
    state: &mut State,
    bytes: &[u8],
) -> Taken
    requires some { n < length bytes.now }
    requires room { at + length bytes.now < 9223372036854775808 }
    ensures { (u : State) → Ends (at + n) (slice_index bytes.now n) u (closes (reverse state.old.frames) value) → From at bytes.now n u (leaving result state.new) }
{
    let mut end = n;
    let mut whole = value;
    while is_closing(bytes[end]) {
        match closed(alloc, at + end, whole, state, bytes[end]) {
            Err(stop) => return Err((end, stop)),
            Ok(more) => {
                end += 1;
                if end == bytes.len() {
                    state.mode = KeptMode {
                        mode: Mode::After(more),
                    };
                    return Ok(end);
                }
                whole = more;
            }
        }
    }
    comma_at(alloc, at, end, whole, state, bytes)
}

/// Before the quotation mark that ends a string that is a value.
fn text_ended(
    alloc: Global,
    at: usize,
    n: usize,
    start: usize,
    text: Text,
    state: &mut State,
    bytes: &[u8],
) -> Taken
    requires some { n < length bytes.now }
    requires quote { slice_index bytes.now n ≡ 34 }
    requires room { at + length bytes.now < 9223372036854775808 }
    ensures { From at bytes.now n (record { mode = InString start Between text; frames = state.old.frames }) (leaving result state.new) }
{
    let value = Json::Str(start, text);
    let end = n + 1;
    if end == bytes.len() {
        state.mode = KeptMode {
            mode: Mode::After(value),
        };
        return Ok(end);
    }
    after_at(alloc, at, end, value, state, bytes)
}

/// Behind so many bytes, inside a string that is a value.
fn text_from(
    alloc: Global,
    at: usize,
    n: usize,
    start: usize,
    within: Within,
    text: Letters,
    state: &mut State,
    bytes: &[u8],
) -> Taken
    requires some { 0 < length bytes.now }
    requires front { n ≤ length bytes.now }
    requires room { at + length bytes.now < 9223372036854775808 }
    ensures { From at bytes.now n (record { mode = InString start within text; frames = state.old.frames }) (leaving result state.new) }
{
    match text.along(within, &bytes[n..]) {
        Err(_) => Err((0, Stop::Memory)),
        Ok((more, now, longer)) => {
            let end = n + more;
            if end == bytes.len() {
                state.mode = KeptMode {
                    mode: Mode::InString(start, now, longer),
                };
                return Ok(end);
            }
            if !closes(now, bytes[end]) {
                drop(longer);
                return Err((end, Stop::Here));
            }
            match longer.into_text() {
                Err(_) => Err((0, Stop::Memory)),
                Ok(whole) => text_ended(alloc, at, end, start, whole, state, bytes),
            }
        }
    }
}

/// Behind the quotation mark that begins a string that is a value.
fn text_opened(
    alloc: Global,
    at: usize,
    n: usize,
    start: usize,
    state: &mut State,
    bytes: &[u8],
) -> Taken
    requires some { 0 < length bytes.now }
    requires front { n ≤ length bytes.now }
    requires room { at + length bytes.now < 9223372036854775808 }
    ensures { From at bytes.now n (record { mode = InString start Between []; frames = state.old.frames }) (leaving result state.new) }
{
    match plain_string(alloc, &bytes[n..]) {
        Err(_) => Err((0, Stop::Memory)),
        Ok(None) => {
            let (within, text) = (Within::Between, Letters::new(alloc));
            text_from(alloc, at, n, start, within, text, state, bytes)
        }
        Ok(Some((more, whole))) => { text_ended(alloc, at, n + more, start, whole, state, bytes) }
    }
}

/// Whether these bytes are a word and more behind it.
#[inline(always)]
fn begins_with(bytes: &[u8], word: &[u8]) -> bool
    ensures within { result ≡ true → length word.now < length bytes.now }
    ensures same { result ≡ true → take (length word.now) bytes.now ≡ word.now }
{
    bytes.len() > word.len() && &bytes[..word.len()] == word
}

/// Behind so many bytes, inside a word.
#[inline(always)]
fn word_from(
    alloc: Global,
    at: usize,
    n: usize,
    word: &'static [u8],
    value: Json,
    state: &mut State,
    bytes: &[u8],
) -> Taken
    requires some { 0 < length bytes.now }
    requires front { n ≤ length bytes.now }
    requires room { at + length bytes.now < 9223372036854775808 }
    ensures { From at bytes.now n (record { mode = Word word.entry value; frames = state.old.frames }) (leaving result state.new) }
{
    if n == bytes.len() {
        state.mode = KeptMode {
            mode: Mode::Word(word, value),
        };
        return Ok(n);
    }
    if !begins_with(&bytes[n..], word) {
        return taken(n, in_word(alloc, at + n, word, value, state, bytes[n]));
    }
    after_at(alloc, at, n + word.len(), value, state, bytes)
}

/// A word or what else begins a value, and what is behind the word where that is seen.
fn word_at(alloc: Global, at: usize, n: usize, state: &mut State, bytes: &[u8]) -> Taken
    requires some { n < length bytes.now }
    requires room { at + length bytes.now < 9223372036854775808 }
    ensures { (u : State) → Begins (at + n) (slice_index bytes.now n) u (begin_now (reverse state.old.frames)) → From at bytes.now n u (leaving result state.new) }
{
    let here = at + n;
    match bytes[n] {
        b'n' => word_from(alloc, at, n + 1, b"ull", Json::Null(here), state, bytes),
        b't' => word_from(
            alloc,
            at,
            n + 1,
            b"rue",
            Json::Truth(here, true),
            state,
            bytes,
        ),
        b'f' => word_from(
            alloc,
            at,
            n + 1,
            b"alse",
            Json::Truth(here, false),
            state,
            bytes,
        ),
        _ => taken(n, begin(alloc, here, state, bytes[n])),
    }
}

/// A number or what else begins a value, and what is behind the number where that is seen.
fn number_at(alloc: Global, at: usize, n: usize, state: &mut State, bytes: &[u8]) -> Taken
    requires some { n < length bytes.now }
    requires room { at + length bytes.now < 9223372036854775808 }
    ensures { (u : State) → Begins (at + n) (slice_index bytes.now n) u (begin_now (reverse state.old.frames)) → From at bytes.now n u (leaving result state.new) }
{
    let here = at + n;
    match first(bytes[n]) {
        None => word_at(alloc, at, n, state, bytes),
        Some(stage) => {
            let (more, last) = number_front(stage, &bytes[n + 1..]);
            let end = n + 1 + more;
            if end == bytes.len() {
                return taken(n, begin(alloc, here, state, bytes[n]));
            }
            if !is_end(last) {
                return taken(n, begin(alloc, here, state, bytes[n]));
            }
            match decimal_of(&bytes[n..end]) {
                None => taken(n, begin(alloc, here, state, bytes[n])),
                Some(value) => { after_at(alloc, at, end, Json::Number(here, value), state, bytes) }
            }
        }
    }
}

/// A value begins.
fn value_at(alloc: Global, at: usize, n: usize, state: &mut State, bytes: &[u8]) -> Taken
    requires some { n < length bytes.now }
    requires room { at + length bytes.now < 9223372036854775808 }
    ensures { (u : State) → Begins (at + n) (slice_index bytes.now n) u (begin_now (reverse state.old.frames)) → From at bytes.now n u (leaving result state.new) }
{
    let here = at + n;
    let c = bytes[n];
    if c == b'"' {
        return text_opened(alloc, at, n + 1, here, state, bytes);
    }
    if c == b'{' && state.frames.len() < 1024 {
        return first_key_at(alloc, at, n + 1, here, state, bytes);
    }
    number_at(alloc, at, n, state, bytes)
}

/// A first item or the end of the array is to come.
fn first_at(
    alloc: Global,
    at: usize,
    n: usize,
    start: usize,
    state: &mut State,
    bytes: &[u8],
) -> Taken
    requires some { n < length bytes.now }
    requires room { at + length bytes.now < 9223372036854775808 }
    ensures { From at bytes.now n (record { mode = First start; frames = state.old.frames }) (leaving result state.new) }
{
    let c = bytes[n];
    if is_space(c) {
        return taken(n, in_first(alloc, at + n, start, state, c));
    }
    if c == b']' {
        return taken(n, in_first(alloc, at + n, start, state, c));
    }
    match state.frames.push(Frame::InArray(start, List::new(alloc))) {
        Err(_) => Err((0, Stop::Memory)),
        Ok(()) => value_at(alloc, at, n, state, bytes),
    }
}

/// A value is to come, over one byte.
fn value_on(alloc: Global, at: usize, n: usize, state: &mut State, bytes: &[u8]) -> Taken
    requires some { n < length bytes.now }
    requires room { at + length bytes.now < 9223372036854775808 }
    ensures { From at bytes.now n (record { mode = Value; frames = state.old.frames }) (leaving result state.new) }
{
    taken(n, in_value(alloc, at + n, state, bytes[n]))
}

/// Inside a number, over one byte.
fn number_on(
    alloc: Global,
    at: usize,
    n: usize,
    start: usize,
    digits: Digits,
    state: &mut State,
    bytes: &[u8],
) -> Taken
    requires some { n < length bytes.now }
    requires room { at + length bytes.now < 9223372036854775808 }
    ensures { From at bytes.now n (record { mode = InNumber start digits; frames = state.old.frames }) (leaving result state.new) }
{
    taken(n, in_number(alloc, at + n, start, digits, state, bytes[n]))
}

/// Behind so many bytes, over some more.
fn token(alloc: Global, at: usize, n: usize, state: &mut State, bytes: &[u8]) -> Taken
    requires some { n < length bytes.now }
    requires room { at + length bytes.now < 9223372036854775808 }
    ensures { From at bytes.now n state.old (leaving result state.new) }
{
    match mem::replace(&mut state.mode, KeptMode { mode: Mode::Value }).into_mode() {
        Mode::Value => value_on(alloc, at, n, state, bytes),
        Mode::First(start) => first_at(alloc, at, n, start, state, bytes),
        Mode::FirstKey(start) => first_key_at(alloc, at, n, start, state, bytes),
        Mode::Key(start, members) => key_at(alloc, at, n, start, members, state, bytes),
        Mode::Colon(start, pending) => colon_at(at, n, start, pending, state, bytes),
        Mode::InKey(start, members, from, within, text) => {
            key_from(at, n, start, members, from, within, text, state, bytes)
        }
        Mode::InString(start, within, text) => {
            text_from(alloc, at, n, start, within, text, state, bytes)
        }
        Mode::Word(word, value) => word_from(alloc, at, n, word, value, state, bytes),
        Mode::InNumber(start, digits) => number_on(alloc, at, n, start, digits, state, bytes),
        Mode::After(value) => after_at(alloc, at, n, value, state, bytes),
    }
}

/// Over some of the bytes at once, at least one.
pub(crate) fn advance(alloc: Global, at: usize, state: &mut State, bytes: &[u8]) -> Taken
    requires some { 0 < length bytes.now }
    requires room { at + length bytes.now < 9223372036854775808 }
    ensures { From at bytes.now 0 state.old (leaving result state.new) }
{
    if !waits(state.mode.as_mode()) {
        return token(alloc, at, 0, state, bytes);
    }
    let n = spaces(bytes);
    if n == bytes.len() {
        return Ok(n);
    }
    if is_value(state.mode.as_mode()) {
        return value_at(alloc, at, n, state, bytes);
    }
    token(alloc, at, n, state, bytes)
}
