//! Laws of the text of certificates.
ghost use Rattle.teco_certificate.specs.Laws.{OneEntry, OneSpelling};

/// A text is that of one certificate.
pub fn one_spelling()
    ensures { OneSpelling }
{
    teco_poly::laws::one_text();
}

/// Fields that have a text tell their register by it.
pub fn one_entry()
    ensures { OneEntry }
{}
