//! One run of the program, from the words of the command line to what is written.
ghost use Rattle.std.specs.Prelude.{◌≡◌, ◌<◌, ◌≤◌, ◌⊎◌, ◌+◌, ◌∷◌, ℕ, List, [], Some, Err, length};
ghost use Rattle.std.specs.Io.KnownBytes.{Appends};
ghost use Rattle.bridge_io.specs.Outside.{HasFailed, Lefts};
ghost use Rattle.command_words.specs.Words.{texts, on_file, with_properties, generate, walk, check, carry, specialise, files_of, request_of, IsRequest, IsWrongAt};
ghost use Rattle.model_command.specs.Outcome.{ended_by, halted, status_of, word_line};
ghost use Rattle.model_process.specs.Walks.{EndsOnBytes};
ghost use Rattle.model_process.specs.declared.ending.Ending.TheVariants as Ending;
ghost use Rattle.model_process.specs.Certified.{Certifies};
ghost use Rattle.model_process.specs.Claims.{EndsOnFiles};
ghost use Rattle.model_process.specs.declared.judging.ClaimRefused.TheVariants as claim;
ghost use Rattle.model_carrying.specs.Ends.{EndsOnCarryFiles};
ghost use Rattle.model_specialising.specs.Ends.{EndsOnSpecialise};
ghost use Rattle.model_carrying.specs.Kept.{IsKept, IsNotAccepted};
ghost use Rattle.model_command.specs.Run.{AreWhole, ComesTo, IsCause, IsEnd, IsEndOn, IsNext, IsDelivered, IsTaskEnd, IsReadWhole, IsTold, IsToldOfFiles, EndsWith, EndsWithOrNoMemory, IsCarriedOut, names_of, pair_name, pair_outcome, shelf_sides, sink_sides};
ghost use Rattle.model_command.specs.Tasks.{Makes, IsFit, Judged};
ghost use Rattle.model_command.specs.Headline.{AreHeld, IsHeadline, IsEndedAsTold, IsShownAsTold, IsTranslatedAsTold};

use crate::generating::generate;
use crate::on_files::{carry_on, judge_on, perform, specialise_on, translate_pair, walk_on};
use crate::outcome::{Outcome, refusal};
use crate::reading::read_files;
use bridge_io::{List, ReadFail, Reason, Refused, Shelf, Sink, write_whole};
use command_words::{Request, Task, WordsFail, request_in, words_law};
use model_carrying::kept_law;
use model_process::{ClaimRefused, Ending, certified_law};
use model_translation::{FilesRefused, one_list_of_faults};
use std::alloc::Global;

// The status where a write failed.
const WRITE_FAULT: u8 = 5;

/// Does what the words of the command line ask for, with the files that are left on the shelf under their words, and answers the status.
///
/// | words | what is written to `out` with status 0 |
/// |---|---|
/// | `to-jani FILE` | the JANI text of the translated PRISM model, and LF |
/// | `to-jani FILE PROPS` | the same, with the properties of the model that PROPS holds |
/// | `to-prism FILE` | the comment lines and the PRISM text of the translated JANI model |
/// | `to-prism-props FILE` | the properties of the JANI model as those of the PRISM model that it is translated to |
/// | `check prism FILE` | `ok prism modules M commands C` and LF, C being the number of commands after copies of modules are written out |
/// | `check jani FILE` | `ok jani elements E edges G` and LF, G being the number of edges of the automata that take part |
/// | `show LANG FILE STATE NAME=VALUE ..` | the columns, the state, its labels and rewards, and its choices |
/// | `simulate LANG FILE given N,N,.. NAME=VALUE ..` | the path along these numbers of choices and branches |
/// | `simulate LANG FILE seed N STEPS NAME=VALUE ..` | a path of so many steps, drawn by the words of the generator Pcg64 after this seed; or up to a state without choices |
/// | `check-path LANG FILE PATH NAME=VALUE ..` | `yes`: PATH holds a path of the model |
/// | `check-rows LANG FILE STATES ROWS NAME=VALUE ..` | `yes`: STATES holds states of the model, each once and an initial one among them, and ROWS their choices, which lead to no others |
/// | `check-bound LANG FILE STATES ROWS LABEL BOUNDS NAME=VALUE ..` | `yes`: so they do, and no way to choose reaches the label LABEL from a listed state with more probability than BOUNDS gives it |
/// | `carry-path LANG FILE PATH NAME=VALUE ..` | the path that PATH holds as one of the model that FILE is translated to |
/// | `specialise LANG FILE NAME=VALUE ..` | the model of FILE specialised to the given constants, in its language; those that aren't given stay open |
/// | `generate N` | `modules N commands C jani L prism B`, of a model of N modules that is generated: how many commands it has, and how long the texts are that `to-jani` writes for it, and `to-prism` for that |
///
/// LANG is `prism` or `jani`. A walk starts at the model's first state; with `from STATE` before `given` or `seed`, at that one.
///
/// | status | when | on `out` | on `err`, each line with its LF |
/// |---|---|---|---|
/// | 0 | the file has no fault, and was translated, checked, shown or walked to the end; or what is claimed of its model is right; or the path was carried, or the model specialised | the text | nothing |
/// | 1 | a walk came to a choice that has no distribution, to a number that there is no choice or branch for, or to a branch of probability 0 | the path so far | `bridge: stopped at step K: WHY` |
/// | 1 | what is claimed of the model isn't right; or a line of the path is none that is carried | `no` and why | nothing |
/// | 2 | a file is longer than 16,777,216 bytes; or a PRISM file has a fault of its tokens, its grammar, its names, its size or its types; or a JANI file has a fault of its JSON, its shape, its names, its types or the profile; or a JANI file to be translated, or whose path is to be carried, has none and its translation would write a variable where PRISM forbids it, or be too large; or a line breaks the form of PATH, of STATES, of ROWS or of BOUNDS | nothing | `FILE:LINE:COLUMN: reason NO Name`, with the word of that file |
/// | 3 | the words are of no form; or a value is given for no open constant of the model, or is none of its type, or past the bound; or, but for `specialise`, an open constant isn't given; or STATE is no state of the model, or no initial one where a walk starts; or LABEL is no label of the model | nothing | `bridge: word K`, K being the first word with which no form goes on, or that doesn't fit, or the one that is missing |
/// | 4 | a read failed | nothing | `bridge: read fault FILE`, with the word of that file |
/// | 5 | a write failed | a front of the text | a front of `bridge: write fault`, or of the line, where `err` failed |
/// | 6 | memory ran out | nothing | `bridge: no memory` |
/// | 7 | the model has faults under the given constants | nothing | `instance KIND NAME` for each |
/// | 8 | a value that is needed passes the bound of fractions, or a state has too many choices or branches, for `carry-path` also in the model that FILE is translated to | the path so far | `bridge: wide at WHERE` or `bridge: too many at WHERE`, WHERE being `instance`, `step K`, or for rows `state S` |
///
/// All text is built before its first byte is written.
pub fn run<H: Shelf, K: Sink, E: Sink>(
    alloc: Global,
    words: &[String],
    shelf: &mut H,
    out: &mut K,
    err: &mut E,
) -> u8
    // What was written are the texts of an outcome that has its cause, unless a write failed.
    ensures outcome { (name : List ℕ) × (outcome : _)
        × IsCause (shelf_sides H.left H.faults H.steady shelf.old shelf.new) (texts words.now) name outcome
        × EndsWith (sink_sides K.taken K.faults out.old out.new) (sink_sides E.taken E.faults err.old err.new) name outcome result }

    // Each status by itself.
    ensures written { (result ≡ 0) ⊎ (result ≡ 1) ⊎ (result ≡ 7) ⊎ (result ≡ 8) → (outcome : _) × (result ≡ status_of outcome)
        × IsCarriedOut (shelf_sides H.left H.faults H.steady shelf.old shelf.new) (sink_sides K.taken K.faults out.old out.new)
        (sink_sides E.taken E.faults err.old err.new) (texts words.now) outcome }
    ensures words { result ≡ 3 → (k : ℕ) × Appends (K.taken out.old) (K.taken out.new) [] × Appends (E.taken err.old) (E.taken err.new) (word_line k)
        × (IsWrongAt (texts words.now) k ⊎ ((w : _) × (bytes : List ℕ) × IsRequest (texts words.now) (walk w)
        × IsReadWhole (H.left shelf.old) (H.left shelf.new) w.file bytes × EndsOnBytes w.lang w bytes (Ending.Word k))
        ⊎ ((c : _) × (contents : List (List ℕ)) × IsRequest (texts words.now) (check c)
        × AreWhole (H.left shelf.old) (H.left shelf.new) (files_of (check c)) contents × EndsOnFiles c contents (Ending.Word k))
        ⊎ ((c : _) × (contents : List (List ℕ)) × IsRequest (texts words.now) (carry c)
        × AreWhole (H.left shelf.old) (H.left shelf.new) (files_of (carry c)) contents × EndsOnCarryFiles c contents (Ending.Word k))
        ⊎ ((p : _) × (bytes : List ℕ) × IsRequest (texts words.now) (specialise p)
        × IsReadWhole (H.left shelf.old) (H.left shelf.new) p.file bytes × EndsOnSpecialise p bytes (Ending.Word k))) }
    ensures read_fault { result ≡ 4 → (request : _) × (name : List ℕ) × (mid : _) × IsRequest (texts words.now) request
        × ComesTo (H.left shelf.old) mid (files_of request) name
        × HasFailed (H.faults shelf.old) (H.faults shelf.new) × (H.steady shelf.old name → ⊥) }
    ensures write_fault { result ≡ 5 → HasFailed (K.faults out.old) (K.faults out.new) ⊎ HasFailed (E.faults err.old) (E.faults err.new) }
    ensures bounded { result ≤ 8 }

    // Words of no form come to nothing else. Where the shelf tells its bytes, it is for these that the task is done or refused.
    ensures words_exactly { (k : ℕ) → IsWrongAt (texts words.now) k → (result ≡ 3) ⊎ (result ≡ 5) ⊎ (result ≡ 6) }
    ensures made { (left : Lefts) (task : Task) (name bytes : List ℕ) → H.left shelf.old ≡ Some left → left name ≡ Some bytes
        → IsRequest (texts words.now) (on_file task name) → result ≡ 0
        → (text : List ℕ) × Makes task bytes text × Appends (K.taken out.old) (K.taken out.new) text }
    ensures accepted { (left : Lefts) (task : Task) (name bytes : List ℕ) → H.left shelf.old ≡ Some left → left name ≡ Some bytes
        → IsRequest (texts words.now) (on_file task name) → IsFit task bytes → length bytes ≤ 16777216
        → (result ≡ 0) ⊎ (result ≡ 4) ⊎ (result ≡ 5) ⊎ (result ≡ 6) }

    // Where the shelf and the sinks tell their bytes, and no read, no write and no memory failed, the status is 0
    // exactly where the file is fit for the task, that is, has no fault, and is within the limits, and what the task makes of it
    // was written: the text of a file of the other language that means the same process under every valuation, or the line that counts; any
    // other file is refused at its least fault.
    ensures headline { (left : Lefts) (task : Task) (name bytes was said : List ℕ) → H.left shelf.old ≡ Some left → left name ≡ Some bytes
        → K.taken out.old ≡ Some was → E.taken err.old ≡ Some said → IsRequest (texts words.now) (on_file task name)
        → (result ≡ 4 → ⊥) → (result ≡ 5 → ⊥) → (result ≡ 6 → ⊥)
        → IsHeadline task bytes name was said (K.taken out.new) (E.taken err.new) result }

    // Likewise where a model is translated with its properties: the status is 0 exactly where both files have no fault and are within the
    // limits, and then the text of a file that means the same process was written, with properties that agree; else the first file that has a fault
    // is refused at its least one.
    ensures with_properties { (left : Lefts) (file properties model second was said : List ℕ) → H.left shelf.old ≡ Some left
        → left file ≡ Some model → left properties ≡ Some second
        → K.taken out.old ≡ Some was → E.taken err.old ≡ Some said → IsRequest (texts words.now) (with_properties file properties)
        → (result ≡ 4 → ⊥) → (result ≡ 5 → ⊥) → (result ≡ 6 → ⊥)
        → IsTranslatedAsTold file properties model second was said (K.taken out.new) (E.taken err.new) result }

    // Likewise where the words ask for a state or a walk: what is answered and written is the end that the file, the constants
    // and the process that the file describes under these make of it, and no other (`one_ending`).
    ensures shown { (left : Lefts) (w : _) (bytes was said : List ℕ) → H.left shelf.old ≡ Some left → left w.file ≡ Some bytes
        → K.taken out.old ≡ Some was → E.taken err.old ≡ Some said → IsRequest (texts words.now) (walk w)
        → (result ≡ 4 → ⊥) → (result ≡ 5 → ⊥) → (result ≡ 6 → ⊥)
        → IsShownAsTold w bytes was said (K.taken out.new) (E.taken err.new) result }

    // Likewise where the words ask for a claim to be judged: it is the end that the contents of all files, the constants and the
    // process make of it, and no other (`one_ending`).
    ensures judged { (left : Lefts) (c : _) (contents : List (List ℕ)) (was said : List ℕ) → H.left shelf.old ≡ Some left
        → AreHeld left (files_of (check c)) contents
        → K.taken out.old ≡ Some was → E.taken err.old ≡ Some said → IsRequest (texts words.now) (check c)
        → (result ≡ 4 → ⊥) → (result ≡ 5 → ⊥) → (result ≡ 6 → ⊥)
        → IsEndedAsTold (check c) contents was said (K.taken out.new) (E.taken err.new) result }

    // For any shelf and any sinks: where a claim on bounds is right, the files hold rows of the process that the model's file describes under the
    // constants, and no way to choose reaches the label from a listed state with more probability than its bound, in any number of steps.
    ensures certified { (c : _) → IsRequest (texts words.now) (check c) → result ≡ 0 → (contents : List (List ℕ))
        × AreWhole (H.left shelf.old) (H.left shelf.new) (files_of (check c)) contents × Certifies c contents }

    // Likewise where the words ask for a path to be carried: it is the end that the contents of both files, the constants, and the processes of
    // the model and of the one that it is translated to make of it, and no other (`one_ending`).
    ensures carried { (left : Lefts) (c : _) (contents : List (List ℕ)) (was said : List ℕ) → H.left shelf.old ≡ Some left
        → AreHeld left (files_of (carry c)) contents
        → K.taken out.old ≡ Some was → E.taken err.old ≡ Some said → IsRequest (texts words.now) (carry c)
        → (result ≡ 4 → ⊥) → (result ≡ 5 → ⊥) → (result ≡ 6 → ⊥)
        → IsEndedAsTold (carry c) contents was said (K.taken out.new) (E.taken err.new) result }

    // For any shelf and any sinks: what was written of a path that is carried is a path file of the translated model, and where neither check passes
    // a bound it is accepted there exactly where the path is accepted here; and a path with a line that isn't carried isn't accepted here.
    ensures kept { (c : _) → IsRequest (texts words.now) (carry c) → result ≡ 0 → (model : List ℕ) × (path : List ℕ) × (text : List ℕ)
        × AreWhole (H.left shelf.old) (H.left shelf.new) (files_of (carry c)) (model ∷ path ∷ [])
        × Appends (K.taken out.old) (K.taken out.new) text × IsKept c model path text }
    ensures lost { (c : _) → IsRequest (texts words.now) (carry c) → result ≡ 1 → (model : List ℕ) × (path : List ℕ)
        × AreWhole (H.left shelf.old) (H.left shelf.new) (files_of (carry c)) (model ∷ path ∷ []) × IsNotAccepted c model path }

    // Likewise where the words ask for a model to be specialised: what is answered and written is the end that the file and the given constants make
    // of it, and no other (`one_ending`): the text of a file that means the same wherever these have their given values.
    ensures specialised { (left : Lefts) (p : _) (bytes was said : List ℕ) → H.left shelf.old ≡ Some left → left p.file ≡ Some bytes
        → K.taken out.old ≡ Some was → E.taken err.old ≡ Some said → IsRequest (texts words.now) (specialise p)
        → (result ≡ 4 → ⊥) → (result ≡ 5 → ⊥) → (result ≡ 6 → ⊥)
        → IsEndedAsTold (specialise p) (bytes ∷ []) was said (K.taken out.new) (E.taken err.new) result }

    // A model that is generated: the status is 0 only where its line was written and nothing else, and any other is that of a failed write or of
    // want of memory.
    ensures generated { (modules : ℕ) → IsRequest (texts words.now) (generate modules)
        → ((result ≡ 0) × IsTold modules (shelf_sides H.left H.faults H.steady shelf.old shelf.new) (sink_sides K.taken K.faults out.old out.new)
        (sink_sides E.taken E.faults err.old err.new)) ⊎ (result ≡ 5) ⊎ (result ≡ 6) }
{
    words_law();
    one_list_of_faults();
    certified_law();
    kept_law();
    answer(alloc, words, shelf, out, err)
}

// The same, with the one clause that all others follow from.
fn answer<H: Shelf, K: Sink, E: Sink>(
    alloc: Global,
    words: &[String],
    shelf: &mut H,
    out: &mut K,
    err: &mut E,
) -> u8
    ensures { (name : List ℕ) × (outcome : _)
        × IsCause (shelf_sides H.left H.faults H.steady shelf.old shelf.new) (texts words.now) name outcome
        × EndsWith (sink_sides K.taken K.faults out.old out.new) (sink_sides E.taken E.faults err.old err.new) name outcome result }
{
    words_law();
    match request_in(alloc, words) {
        Ok(request) => carry_out(alloc, words.len() + 1, &request, shelf, out, err),
        Err(WordsFail::At(k)) => tell(alloc, "", &Outcome::Words(k), out, err),
        Err(WordsFail::Memory(_)) => tell(alloc, "", &Outcome::NoMemory, out, err),
    }
}

// The same of a request, whose words end before the position `next`.
fn carry_out<H: Shelf, K: Sink, E: Sink>(
    alloc: Global,
    next: usize,
    request: &Request,
    shelf: &mut H,
    out: &mut K,
    err: &mut E,
) -> u8
    requires { IsNext (request_of request.now) next }
    ensures { (name : List ℕ) × (outcome : _)
        × IsEnd (shelf_sides H.left H.faults H.steady shelf.old shelf.new) (request_of request.now) name outcome
        × EndsWith (sink_sides K.taken K.faults out.old out.new) (sink_sides E.taken E.faults err.old err.new) name outcome result }
{
    let Ok(names) = request.files(alloc) else {
        return tell(alloc, "", &Outcome::NoMemory, out, err);
    };
    let end = judge(alloc, next, request, names.as_slice(), shelf);
    tell(alloc, end.name, &end.outcome, out, err)
}

// How a request ends before anything is written, and at which of its files.
#[derive(Drop)]
struct End<'a> {
    name: &'a str,
    outcome: Outcome,
}

// How a request for the files of these names ends.
fn judge<'a, H: Shelf>(
    alloc: Global,
    next: usize,
    request: &Request,
    names: &[&'a str],
    shelf: &mut H,
) -> End<'a>
    requires next { IsNext (request_of request.now) next }
    requires names { names_of names.now ≡ files_of (request_of request.now) }
    ensures { IsEnd (shelf_sides H.left H.faults H.steady shelf.old shelf.new) (request_of request.now) result.name.now result.outcome }
{
    match read_files(alloc, shelf, names) {
        Ok(files) => end_on(alloc, next, request, names, files.as_slice()),
        Err(halt) => End {
            name: halt.name,
            outcome: halted(halt.fail),
        },
    }
}

// How it ends where a file can't be read.
fn halted(fail: ReadFail) -> Outcome
    ensures { result ≡ halted fail }
{
    match fail {
        ReadFail::Memory(_) => Outcome::NoMemory,
        ReadFail::Fault => Outcome::ReadFault,
        ReadFail::TooLong(place) => Outcome::Refused(Reason::TooLong, place),
    }
}

// How the request ends on the contents of its files.
fn end_on<'a>(
    alloc: Global,
    next: usize,
    request: &Request,
    names: &[&'a str],
    files: &[List<u8>],
) -> End<'a>
    requires next { IsNext (request_of request.now) next }
    requires names { names_of names.now ≡ files_of (request_of request.now) }
    requires files { length files.now ≡ length names.now }
    ensures { IsEndOn (request_of request.now) files.now result.name.now result.outcome }
{
    match request {
        Request::OnFile(task, _) => {
            let bytes = files[0].as_slice();
            End {
                name: names[0],
                outcome: told(bytes, perform(alloc, *task, bytes)),
            }
        }
        Request::WithProperties(file, properties) => {
            paired(alloc, file, properties, names, files)
        }
        Request::Generate(modules) => End {
            name: "",
            outcome: generate(alloc, *modules),
        },
        Request::Walk(walking) => {
            let bytes = files[0].as_slice();
            End {
                name: names[0],
                outcome: ended(bytes, walk_on(alloc, next, walking, bytes)),
            }
        }
        Request::Check(checking) => {
            told_of_files(names, files, judge_on(alloc, next, checking, files))
        }
        Request::Carry(carrying) => {
            told_of_files(names, files, carry_on(alloc, next, carrying, files))
        }
        Request::Specialise(specialising) => {
            let bytes = files[0].as_slice();
            End {
                name: names[0],
                outcome: ended(bytes, specialise_on(alloc, next, specialising, bytes)),
            }
        }
    }
}

// What comes of a task on this one file: the text that it makes of it, or the place of its least fault.
fn told(bytes: &[u8], made: Result<List<u8>, Refused>) -> Outcome
    ensures { (task : Task) → Judged task bytes.now made → IsTaskEnd task bytes.now result }
{
    match made {
        Ok(text) => Outcome::Done(text),
        Err(refused) => refusal(bytes, refused),
    }
}

// How the translation of a model with its properties ends, on the contents of both files.
fn paired<'a>(
    alloc: Global,
    file: &str,
    properties: &str,
    names: &[&'a str],
    files: &[List<u8>],
) -> End<'a>
    requires names { names_of names.now ≡ file.now ∷ properties.now ∷ [] }
    requires files { length files.now ≡ length names.now }
    ensures { IsEndOn (with_properties file.now properties.now) files.now result.name.now result.outcome }
{
    let model = files[0].as_slice();
    let second = files[1].as_slice();
    let made = translate_pair(alloc, model, second);
    told_of_pair(names[0], names[1], model, second, made)
}

// The same of what was made of them, at the file that is refused, or else at the model's.
fn told_of_pair<'a>(
    file: &'a str,
    properties: &'a str,
    model: &[u8],
    second: &[u8],
    made: Result<List<u8>, FilesRefused>,
) -> End<'a>
    ensures name { result.name.now ≡ pair_name file.now properties.now made }
    ensures outcome { result.outcome ≡ pair_outcome model.now second.now made }
{
    match made {
        Ok(text) => End {
            name: file,
            outcome: Outcome::Done(text),
        },
        Err(FilesRefused::Model(fault)) => End {
            name: file,
            outcome: refusal(model, Refused::At(fault)),
        },
        Err(FilesRefused::Properties(fault)) => End {
            name: properties,
            outcome: refusal(second, Refused::At(fault)),
        },
        Err(FilesRefused::Memory(_)) => End {
            name: file,
            outcome: Outcome::NoMemory,
        },
    }
}

// The same of a state that is shown, of a walk, or of a model that is specialised.
fn ended(bytes: &[u8], made: Result<Ending, Refused>) -> Outcome
    ensures { result ≡ ended_by bytes.now made }
{
    match made {
        Ok(ending) => Outcome::Ended(ending),
        Err(refused) => refusal(bytes, refused),
    }
}

// The same of a claim, or of a path that is carried, at the file that is refused, or else at the model's.
fn told_of_files<'a>(
    names: &[&'a str],
    files: &[List<u8>],
    made: Result<Ending, ClaimRefused>,
) -> End<'a>
    requires some { 0 < length names.now }
    requires files { length files.now ≡ length names.now }
    requires within { (i : ℕ) (f : _) → made ≡ Err (claim.At i f) → i < length files.now }
    ensures { IsToldOfFiles (names_of names.now) files.now made result.name.now result.outcome }
{
    match made {
        Ok(ending) => End {
            name: names[0],
            outcome: Outcome::Ended(ending),
        },
        Err(ClaimRefused::At(i, fault)) => End {
            name: names[i],
            outcome: refusal(files[i].as_slice(), Refused::At(fault)),
        },
        Err(ClaimRefused::Memory(_)) => End {
            name: names[0],
            outcome: Outcome::NoMemory,
        },
    }
}

// Writes the texts of an outcome, and answers its status, or that of a failed write. Want of memory is an outcome of its own.
fn tell<K: Sink, E: Sink>(
    alloc: Global,
    name: &str,
    outcome: &Outcome,
    out: &mut K,
    err: &mut E,
) -> u8
    ensures { EndsWithOrNoMemory (sink_sides K.taken K.faults out.old out.new) (sink_sides E.taken E.faults err.old err.new) name.now outcome.now result }
{
    match outcome.line(alloc, name) {
        Ok(line) => deliver(out, err, outcome.text(), line.as_slice(), outcome.status()),
        Err(_) => deliver(out, err, &[], b"bridge: no memory\n", 6),
    }
}

// Writes the texts, and answers the status, or that of a failed write.
fn deliver<K: Sink, E: Sink>(out: &mut K, err: &mut E, text: &[u8], line: &[u8], status: u8) -> u8
    ensures { IsDelivered (sink_sides K.taken K.faults out.old out.new) (sink_sides E.taken E.faults err.old err.new) text.now line.now status result }
{
    if write_whole(out, text).is_err() {
        let _ = write_whole(err, b"bridge: write fault\n");
        return WRITE_FAULT;
    }
    if write_whole(err, line).is_err() {
        return WRITE_FAULT;
    }
    status
}
