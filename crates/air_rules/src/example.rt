// Worked journals.
ghost use Rattle.air_rules.specs.Example.{IsWorkedOut};
ghost use Rattle.air_rules.specs.ThreeAircraft.{IsWorkedOutForThree};

/// A law: the worked journal of two aircraft in conflict is the serial one, legal and complete. With a wrong sense, a
/// wrong word, a take before its send, or a commit past a due copy it isn't legal. The premises of the laws about
/// opposite senses hold of it. With one aircraft of kind TA and one of kind XPDR in the air, the serial journal has the
/// commits of the first.
pub fn example_law()
    ensures { IsWorkedOut }
{}

/// A law about the worked journal of three aircraft. One of them has two threats. There are doubled, spoilt, held and
/// lost copies, and an advisory that starts late and ends.
///
/// - The journal is the serial one, legal and complete.
/// - A held copy is taken as soon as its receiver has made the commits, however many the others have made.
/// - The last take counts, also where it is of an older message.
/// - What is sent or taken twice, too early, in the wrong order or by another aircraft isn't legal.
/// - The higher address gives way, whatever its index.
/// - The journal is complete as soon as all is committed and sent, though copies are due.
pub fn three_aircraft_law()
    ensures { IsWorkedOutForThree }
{}
