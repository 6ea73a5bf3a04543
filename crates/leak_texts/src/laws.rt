//! Worked texts, whose rows are computed.
ghost use Rattle.leak_texts.specs.Rows.{AreWorkedNumbers, AreWorkedPlaces};

/// Which numbers some texts have, and where some texts stand.
pub fn worked_texts()
    ensures numbers { AreWorkedNumbers }
    ensures places { AreWorkedPlaces }
{}
