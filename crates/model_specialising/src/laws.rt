// Laws of specialised models: a function that does nothing, whose contract is the laws.

ghost use Rattle.model_specialising.specs.Once.{OneSpecialiseEnd, SpecialiseEndOrFault};

/// By the bytes of a file and the words specialising it ends in one way at most, and in none where the file is refused. Nothing is done.
pub fn one_specialise_law()
    ensures one { OneSpecialiseEnd }
    ensures apart { SpecialiseEndOrFault }
{}
