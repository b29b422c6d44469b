// The law that rows are read back.
ghost use Rattle.cert_rows.specs.Laws.{RoundTripLaw};

/// Law, not code to run: a row of the shape is what its line is read as, with the line feed and without it.
pub fn round_trip_law()
    ensures { RoundTripLaw }
{}
