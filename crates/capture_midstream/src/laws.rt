//! What holds of the place at which a direction begins, whatever the code does.

ghost use Rattle.capture_midstream.specs.Laws.{EndsOn, FoundAreMessages, LooksOn, MessagesAreFound, OneBeginning, OneBeginningAtEnd, SureAtEnd, SureIsThree, SureStays, ThreeAreSure};

/// What is found to stand whole is a message of the session, and each one is found.
pub fn messages_are_found()
    ensures each { MessagesAreFound }
    ensures only { FoundAreMessages }
{}

/// A direction surely begins where three messages of the session stand one behind another, and where they stand the place
/// isn't refused.
pub fn three_messages_are_sure()
    ensures sure { SureIsThree }
    ensures stand { ThreeAreSure }
{}

/// Octets have one beginning, and so have those behind which none follows.
pub fn one_beginning()
    ensures one { OneBeginning }
    ensures at_end { OneBeginningAtEnd }
{}

/// A direction that surely begins does so whatever follows, and where nothing does.
pub fn a_beginning_stays()
    ensures stays { SureStays }
    ensures at_end { SureAtEnd }
{}

/// As octets come one after another, nobody has to look again at places before the one that was open.
pub fn places_are_passed_once()
    ensures more { LooksOn }
    ensures end { EndsOn }
{}
