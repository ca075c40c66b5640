//! Laws of what a run writes. Each is a function that does nothing: its clause is the law.

ghost use Rattle.search_run.specs.Conversions.{ConvertsBack};
ghost use Rattle.search_run.specs.Verified.{CertifiedTextsAreFaultless, CertifiedTextsAreSound};

/// What `convert` writes is read back as the same series with the labels that it wrote, and as nothing else.
pub fn convert_law()
    ensures { ConvertsBack }
{}

/// What `nearest` writes with certificates is in their grammar and fails no test for its files, however long it is. Where it is not too
/// long to be read, `verify` of any file that holds it has no fault to tell, beside any files that hold the same series and queries.
pub fn certificate_law()
    ensures sound { CertifiedTextsAreSound }
    ensures faultless { CertifiedTextsAreFaultless }
{}
