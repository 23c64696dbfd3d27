//! What may be read from the files after any number of invocations.
//!
//! A law is the contract of a function that does nothing: who calls it may use the law.
ghost use Rattle.std.specs.Prelude.{[], ◌∷◌};
ghost use Rattle.program_jobs.specs.Examples.{absent, report};
ghost use Rattle.program_jobs.specs.Headline.{Headline, IsEndOf};

use crate::laws::promises;

/// After any number of invocations over a file that was absent or had no byte, with crashes at any time, what the files
/// hold stands for the end of one execution of them all, in order, whose ledger is as it is promised.
pub fn any_invocations()
    ensures headline { Headline }
{
    promises();
}

/// The law, used on two reports over an absent file.
///
/// Its proof hands these invocations to the law. So a premise more in it, which they do not meet, is refused here.
pub fn two_reports_over_an_absent_file()
    ensures found { ∥ IsEndOf (report ∷ report ∷ []) absent ∥₁ }
{
    any_invocations();
}
