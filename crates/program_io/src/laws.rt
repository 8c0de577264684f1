// A law of what is written, as the contract of a function with an empty body.
ghost use Rattle.program_io.specs.Legible.{LegibleIsWritten, LegibleStays};

/// What is written of a text consists of characters that a terminal shows, of tabs and ends of lines; and a text that does is written as it is.
pub fn legible_is_written()
    ensures legible { LegibleIsWritten }
    ensures stays { LegibleStays }
{}
