//! The law of certificates of finishes. It is the one clause of a function that does nothing; a caller that needs the law
//! calls the function.

ghost use Rattle.convoy_finish_checker.specs.FinishCheckLaws.{ValidFinishIsGreatest};

use convoy_finishes::finish_laws::{closed_finishing, met_upper_is_greatest};

/// The latency of a valid certificate of finishes is the greatest one.
pub fn valid_finish_is_greatest()
    ensures { ValidFinishIsGreatest }
{
    closed_finishing();
    met_upper_is_greatest();
}
