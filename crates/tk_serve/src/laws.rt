//! Why what a client was told stays as it was.
ghost use Rattle.tk_serve.specs.Laws.{AreSeatsFirst, AreSeatsStill, ToldGrows, ToldStays};

/// What a client is told only grows at its end, packet after packet.
pub fn told_grows()
    ensures first { AreSeatsFirst }
    ensures still { AreSeatsStill }
    ensures grows { ToldGrows }
    ensures stays { ToldStays }
{}
