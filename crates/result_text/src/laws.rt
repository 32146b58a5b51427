//! Laws over the definitions in `specs/`, each as the contract of a function that does nothing.

ghost use Rattle.std.specs.Prelude.{◌≡◌};
ghost use Rattle.result_text.specs.declared.file.ResultFile.{ResultFile};
ghost use Rattle.result_text.specs.Numbering.{IsNumbered, LinesAreOfText};
ghost use Rattle.result_text.specs.Ranges.{IsInRange};
ghost use Rattle.result_text.specs.RoundTrips.{ReadLaw, PrintedLaw, NoBadLineLaw};
ghost use Rattle.result_text.specs.Text.{text};

/// Each text has one value.
pub fn one_value()
    ensures { (file other : ResultFile) → IsInRange file → IsInRange other → text file ≡ text other → file ≡ other }
{}

/// The givens, paths, edges, walks, open lines and the last line stand on the lines of the text that the numbers name.
pub fn line_numbers()
    ensures numbered { (file : ResultFile) → IsNumbered file }
    ensures text { (file : ResultFile) → IsInRange file → LinesAreOfText file }
{}

/// What is printed is read as the same result, what is read is printed as the same octets, and no text has a bad line.
pub fn round_trip_law()
    ensures read { ReadLaw }
    ensures printed { PrintedLaw }
    ensures good { NoBadLineLaw }
{}
