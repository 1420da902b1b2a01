//! What follows of what is printed and accepted.
ghost use Rattle.teco_verdicts.specs.Ending.{CertifiedMacrosEnd};
ghost use Rattle.teco_verdicts.specs.RoundTrip.{PrintedIsAccepted};

use teco_law_runs::laws::expansions_are_linked;
use teco_law_tables::laws::runs_are_verified;

/// A macro for which a certificate is printed or accepted ends without a code, within the number of
/// commands that the certificate has.
pub fn certified_macros_end()
    ensures { CertifiedMacrosEnd }
{
    expansions_are_linked();
    runs_are_verified();
}

/// The certificate that `verify` prints of a macro by an edition of the rules is one that `check`
/// does not refuse by the same edition.
pub fn printed_certificates_are_accepted()
    ensures { PrintedIsAccepted }
{}
