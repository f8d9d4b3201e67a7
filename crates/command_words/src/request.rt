// What words ask for.
ghost use Rattle.std.specs.Prelude.{◌≡◌, IfOk, map};
ghost use Rattle.command_words.specs.Words.{files_of, request_of};

use bridge_io::List;
use process_texts::GivenText;
use std::alloc::{AllocError, Global};

/// What a run does with the file that its words name.
#[derive(Clone, Copy)]
pub enum Task {
    /// `to-jani FILE`: the PRISM file is translated to JANI.
    ToJani,
    /// `to-prism FILE`: the JANI file is translated to PRISM.
    ToPrism,
    /// `to-prism-props FILE`: the properties of the JANI file are written as those of its translation to PRISM.
    ToPrismProps,
    /// `check prism FILE`: the PRISM file is judged, and what it consists of is counted.
    CheckPrism,
    /// `check jani FILE`: the JANI file is judged, and what takes part is counted.
    CheckJani,
}

/// The language of a file.
#[derive(Clone, Copy)]
pub enum Lang {
    /// `prism`
    Prism,
    /// `jani`
    Jani,
}

/// What is done with the process of a file.
#[derive(Drop)]
pub enum Job<'a> {
    /// `show LANG FILE STATE`: the state of this text is shown.
    Show(&'a str),
    /// `given N,N,..`: a walk along these numbers, from the state of this text, if one is named.
    Given(Option<&'a str>, List<(u32, u32)>),
    /// `seed N STEPS`: a walk of so many steps along the words of a generator with this seed, from the state of this text, if
    /// one is named.
    Seed(Option<&'a str>, u64, u32),
}

/// A constant that is given, and what the words say of it: a value, or one past the bounds.
#[derive(Clone, Copy)]
pub struct Assignment<'a> {
    /// Its name.
    pub name: &'a str,
    /// Its value, never `NoForm`.
    pub value: GivenText,
}

/// A job on the process of a file under given constants.
#[derive(Drop)]
pub struct Walking<'a> {
    /// The language of the file.
    pub lang: Lang,
    /// The word of the file.
    pub file: &'a str,
    /// What is done.
    pub job: Job<'a>,
    /// The given constants in their order, no two of one name.
    pub given: List<Assignment<'a>>,
}

/// What other files say of the process of a file.
#[derive(Clone, Copy)]
pub enum Claim<'a> {
    /// `check-path LANG FILE PATH`: the file of this word is a path of it.
    Path(&'a str),
    /// `check-rows LANG FILE STATES ROWS`: the files of these words are its states and its rows.
    Rows(&'a str, &'a str),
    /// `check-bound LANG FILE STATES ROWS LABEL BOUNDS`: over the states and the rows that the files of the first two words hold,
    /// that of the last has bounds on the probability of reaching the label of this name.
    Bounds(&'a str, &'a str, &'a str, &'a str),
}

/// A claim about the process of a file under given constants, which is to be judged.
#[derive(Drop)]
pub struct Checking<'a> {
    /// The language of the file.
    pub lang: Lang,
    /// The word of the file.
    pub file: &'a str,
    /// What is claimed. Its files are others.
    pub claim: Claim<'a>,
    /// The given constants in their order, no two of one name.
    pub given: List<Assignment<'a>>,
}

/// A path of the process of a file under given constants, which is to be carried to the model's counterpart in the other language.
#[derive(Drop)]
pub struct Carrying<'a> {
    /// The language of the file.
    pub lang: Lang,
    /// The word of the file.
    pub file: &'a str,
    /// The word of the file of the path, another one.
    pub path: &'a str,
    /// The given constants in their order, no two of one name.
    pub given: List<Assignment<'a>>,
}

/// The model of a file, which is to be specialised to given constants.
#[derive(Drop)]
pub struct Specialising<'a> {
    /// The language of the file.
    pub lang: Lang,
    /// The word of the file.
    pub file: &'a str,
    /// The given constants in their order, no two of one name.
    pub given: List<Assignment<'a>>,
}

/// What words ask for.
#[derive(Drop)]
pub enum Request<'a> {
    /// A task, and the word of the file that it is for.
    OnFile(Task, &'a str),
    /// `to-jani FILE PROPS`: the PRISM file of the first word is translated to JANI, with the properties in that of the second.
    WithProperties(&'a str, &'a str),
    /// `generate N`: a model of so many modules is generated, from 1 to 1,000, translated to JANI, and that to PRISM.
    Generate(u32),
    /// A job on the process of a file.
    Walk(Walking<'a>),
    /// A claim about the process of a file.
    Check(Checking<'a>),
    /// A path of the process of a file, to be carried.
    Carry(Carrying<'a>),
    /// `specialise LANG FILE`: the model of a file, to be specialised to given constants.
    Specialise(Specialising<'a>),
}

impl<'a> Request<'a> {
    /// The words of its files, in their order.
    pub fn files(&self, alloc: Global) -> Result<List<&str>, AllocError>
        ensures { IfOk result (λ files. map (λ s. s.now) files ≡ files_of (request_of self.now)) }
    {
        let files = match self {
            Request::OnFile(_, file) => Vec::from_slice(alloc, &[*file]),
            Request::WithProperties(file, properties) => {
                Vec::from_slice(alloc, &[*file, *properties])
            }
            Request::Generate(_) => Ok(Vec::new(alloc)),
            Request::Walk(walking) => Vec::from_slice(alloc, &[walking.file]),
            Request::Check(checking) => match checking.claim {
                Claim::Path(path) => Vec::from_slice(alloc, &[checking.file, path]),
                Claim::Rows(states, rows) => {
                    Vec::from_slice(alloc, &[checking.file, states, rows])
                }
                Claim::Bounds(states, rows, _, bounds) => {
                    Vec::from_slice(alloc, &[checking.file, states, rows, bounds])
                }
            },
            Request::Carry(carrying) => { Vec::from_slice(alloc, &[carrying.file, carrying.path]) }
            Request::Specialise(specialising) => Vec::from_slice(alloc, &[specialising.file]),
        };
        Ok(List::from_vec(files?))
    }
}

/// Why words aren't read.
#[derive(Drop)]
pub enum WordsFail {
    /// Want of memory.
    Memory(AllocError),
    /// They are of no form: the position of the first word with which no form goes on, or of the one that is missing.
    At(usize),
}

impl From<AllocError> for WordsFail {
    ghost use Rattle.command_words.specs.declared.request.WordsFail.TheVariants.{Memory};

    ghost from_gives = { λ e r. r ≡ Memory e };

    fn from(e: AllocError) -> WordsFail {
        WordsFail::Memory(e)
    }
}
