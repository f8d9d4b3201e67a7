// Reserved words.
ghost use Rattle.std.specs.Prelude.{◌≡◌, map};
ghost use Rattle.prism_lex.specs.Words.{lookup, words};

/// The words that no name may be. A word of one letter, and `bool`, has `Word` behind it.
#[derive(Clone, Copy, PartialEq, Eq)]
pub enum Reserved {
    AWord,
    BoolWord,
    Clock,
    Const,
    Ctmc,
    CWord,
    Double,
    Dtmc,
    EWord,
    Endinit,
    Endinvariant,
    Endmodule,
    Endobservables,
    Endrewards,
    Endsystem,
    False,
    Formula,
    Filter,
    Func,
    FWord,
    Global,
    GWord,
    Init,
    Invariant,
    IWord,
    Int,
    Label,
    Max,
    Mdp,
    Min,
    Module,
    XWord,
    Nondeterministic,
    Observable,
    Observables,
    Of,
    Pmax,
    Pmin,
    PWord,
    Pomdp,
    Popta,
    Probabilistic,
    Prob,
    Pta,
    Rate,
    Rewards,
    Rmax,
    Rmin,
    RWord,
    SWord,
    Stochastic,
    System,
    True,
    UWord,
    WWord,
}

// The table of the words, by their lengths.
const LENGTH_1: [(&[u8], Reserved); 12] = [
    (b"A", Reserved::AWord),
    (b"C", Reserved::CWord),
    (b"E", Reserved::EWord),
    (b"F", Reserved::FWord),
    (b"G", Reserved::GWord),
    (b"I", Reserved::IWord),
    (b"X", Reserved::XWord),
    (b"P", Reserved::PWord),
    (b"R", Reserved::RWord),
    (b"S", Reserved::SWord),
    (b"U", Reserved::UWord),
    (b"W", Reserved::WWord),
];

const LENGTH_2: [(&[u8], Reserved); 1] = [(b"of", Reserved::Of)];

const LENGTH_3: [(&[u8], Reserved); 5] = [
    (b"int", Reserved::Int),
    (b"max", Reserved::Max),
    (b"mdp", Reserved::Mdp),
    (b"min", Reserved::Min),
    (b"pta", Reserved::Pta),
];

const LENGTH_4: [(&[u8], Reserved); 12] = [
    (b"bool", Reserved::BoolWord),
    (b"ctmc", Reserved::Ctmc),
    (b"dtmc", Reserved::Dtmc),
    (b"func", Reserved::Func),
    (b"init", Reserved::Init),
    (b"Pmax", Reserved::Pmax),
    (b"Pmin", Reserved::Pmin),
    (b"prob", Reserved::Prob),
    (b"rate", Reserved::Rate),
    (b"Rmax", Reserved::Rmax),
    (b"Rmin", Reserved::Rmin),
    (b"true", Reserved::True),
];

const LENGTH_5: [(&[u8], Reserved); 6] = [
    (b"clock", Reserved::Clock),
    (b"const", Reserved::Const),
    (b"false", Reserved::False),
    (b"label", Reserved::Label),
    (b"pomdp", Reserved::Pomdp),
    (b"popta", Reserved::Popta),
];

const LENGTH_6: [(&[u8], Reserved); 5] = [
    (b"double", Reserved::Double),
    (b"filter", Reserved::Filter),
    (b"global", Reserved::Global),
    (b"module", Reserved::Module),
    (b"system", Reserved::System),
];

const LENGTH_7: [(&[u8], Reserved); 3] = [
    (b"endinit", Reserved::Endinit),
    (b"formula", Reserved::Formula),
    (b"rewards", Reserved::Rewards),
];

const LENGTH_9: [(&[u8], Reserved); 3] = [
    (b"endmodule", Reserved::Endmodule),
    (b"endsystem", Reserved::Endsystem),
    (b"invariant", Reserved::Invariant),
];

const LENGTH_10: [(&[u8], Reserved); 3] = [
    (b"endrewards", Reserved::Endrewards),
    (b"observable", Reserved::Observable),
    (b"stochastic", Reserved::Stochastic),
];

const LENGTH_11: [(&[u8], Reserved); 1] = [(b"observables", Reserved::Observables)];

const LENGTH_12: [(&[u8], Reserved); 1] = [(b"endinvariant", Reserved::Endinvariant)];

const LENGTH_13: [(&[u8], Reserved); 1] = [(b"probabilistic", Reserved::Probabilistic)];

const LENGTH_14: [(&[u8], Reserved); 1] = [(b"endobservables", Reserved::Endobservables)];

const LENGTH_16: [(&[u8], Reserved); 1] = [(b"nondeterministic", Reserved::Nondeterministic)];

// What a text is in a table.
fn find<T: Copy>(table: &[(&[u8], T)], text: &[u8]) -> Option<T>
    ensures { result ≡ lookup text.now (map (λ e. (e.0.now, e.1)) table.now) }
{
    for (known, value) in table {
        if *known == text {
            return Some(*value);
        }
    }
    None
}

/// The reserved word that a text is.
pub(crate) fn reserved_word(text: &[u8]) -> Option<Reserved>
    ensures { result ≡ lookup text.now words }
{
    match text.len() {
        1 => find(&LENGTH_1, text),
        2 => find(&LENGTH_2, text),
        3 => find(&LENGTH_3, text),
        4 => find(&LENGTH_4, text),
        5 => find(&LENGTH_5, text),
        6 => find(&LENGTH_6, text),
        7 => find(&LENGTH_7, text),
        9 => find(&LENGTH_9, text),
        10 => find(&LENGTH_10, text),
        11 => find(&LENGTH_11, text),
        12 => find(&LENGTH_12, text),
        13 => find(&LENGTH_13, text),
        14 => find(&LENGTH_14, text),
        16 => find(&LENGTH_16, text),
        _ => None,
    }
}
