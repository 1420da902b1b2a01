//! Why no certificate is read.
ghost use Rattle.std.specs.Prelude.{◌≡◌};
ghost use Rattle.teco_certificate.specs.declared.fault.CertificateFault.TheVariants.{Memory};

use std::alloc::AllocError;
use thiserror::Error;

/// Why no certificate is read.
#[derive(Clone, Copy, Debug, Error)]
pub enum CertificateFault {
    /// The text is no certificate.
    #[error("no certificate")]
    NotACertificate,
    /// A growth was refused.
    #[error("out of memory")]
    Memory,
}

impl From<AllocError> for CertificateFault {
    ghost from_gives = { λ _ e. e ≡ Memory };

    fn from(_refused: AllocError) -> CertificateFault {
        CertificateFault::Memory
    }
}
