// What the verdict Yes means: a function that does nothing, whose contract are the laws.

ghost use Rattle.value_bound.specs.Laws.{BestIsGreatest, BoundsOnce, CertificatesBound, OneAnswer, OwnAtMost, OwnBestIsGreatest, YesCertifies};

use process_core::merging_laws;
use row_check::{form_laws, verdict_laws};

/// A certificate bounds the greatest probability of reaching over rows, whatever the number of steps; no strategy has more than
/// that, nor have the choices of the process whose rows they are, and no strategy over these has more than they have; Yes says
/// that the bounds are a certificate; there is one verdict, and one answer about files.
pub fn bound_laws()
    ensures certificates { CertificatesBound }
    ensures greatest { BestIsGreatest }
    ensures own { OwnAtMost }
    ensures own_greatest { OwnBestIsGreatest }
    ensures once { BoundsOnce }
    ensures answer { OneAnswer }
    ensures yes { YesCertifies }
{
    form_laws();
    verdict_laws();
    merging_laws();
}
