// Laws of walks, of endings and of bounds: functions that do nothing, whose contracts are the laws.

ghost use Rattle.model_process.specs.Certified.{RightCertifies};
ghost use Rattle.model_process.specs.Lawful.{DescribedIsProcess};
ghost use Rattle.model_process.specs.Once.{ClaimEndOrFault, EndOrFault, OneClaimEnd, OneEnd, OneFileFault, OneModelFault};
ghost use Rattle.model_process.specs.ReadBack.{WalksReadBack};
ghost use Rattle.model_process.specs.WrittenPaths.{WalksAreAccepted, WalksAreNotRefused, WalksEndWithYes};

use prism_instance::described_law;
use prism_parse::one_syntax;
use prism_print::printable_law;
use process_texts::text_laws;
use row_check::{form_laws, verdict_laws};
use short_names::{jani_labels_law, jani_names_law, prism_names_law};
use value_bound::bound_laws;
use walk_texts::report_laws;

/// What is written of a walk that comes to its end is judged as a path under the same constants with the end `yes`: it has the form of a path, is
/// one of the process, and nothing passes a bound on it. And what is written of any walk is a file of that path, where the header is a line, the
/// states are whole and the labels' texts spell them. Nothing is done.
pub fn walk_law()
    ensures yes { WalksEndWithYes }
    ensures not_refused { WalksAreNotRefused }
    ensures accepted { WalksAreAccepted }
    ensures reads_back { WalksReadBack }
{
    printable_law();
    prism_names_law();
    described_law();
    jani_names_law();
    jani_labels_law();
    text_laws();
    verdict_laws();
    one_end_law();
}

/// The process that a file without fault describes keeps the laws of processes, where the constants fit and its instance has no fault and is not
/// wide. Nothing is done.
pub fn process_law()
    ensures { DescribedIsProcess }
{
    printable_law();
    described_law();
    jani_names_law();
}

/// By the bytes of the files and the words a state is shown, a walk ends or a claim is judged in one way at most, or a file is refused at
/// one fault, and never both. Nothing is done.
pub fn one_end_law()
    ensures end { OneEnd }
    ensures model_fault { OneModelFault }
    ensures either { EndOrFault }
    ensures claim { OneClaimEnd }
    ensures file_fault { OneFileFault }
    ensures claim_either { ClaimEndOrFault }
{
    one_syntax();
    report_laws();
    verdict_laws();
    form_laws();
    bound_laws();
}

/// Where a claim is right and of bounds, the files certify them: they hold rows of the process that the model's file describes, and no way to
/// choose reaches the label from a listed state with more probability than its bound, in any number of steps. Nothing is done.
pub fn certified_law()
    ensures { RightCertifies }
{}
