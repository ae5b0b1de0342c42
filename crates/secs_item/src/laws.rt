//! Laws of the encodings of items. They are about the definitions alone, so nothing is computed: each function proves
//! that its clauses hold.

ghost use Rattle.secs_item.specs.Laws.{OneEncodingAtStart, ShortEncodes, NoneIsShorter, EncodedInRange, ShortIsReadAgain, SomeAnswer, OneItem, OneFault, NotBoth, SomeTextAnswer, OneText, OneTextFault, NotBothOfText};

/// No encoding is a prefix of a longer one, and none encodes two values.
pub fn one_encoding_at_start()
    ensures { OneEncodingAtStart }
{}

/// The shortest encoding is an encoding of its value, and no other is shorter. A value that has an encoding has a
/// shortest one, and its numbers are within the ranges of their types.
pub fn shortest_encoding()
    ensures encodes_to { ShortEncodes }
    ensures least { NoneIsShorter }
    ensures in_range { EncodedInRange }
{}

/// Decoding reverses encoding, whatever bytes follow the encoding.
pub fn short_at_front()
    ensures { ShortIsReadAgain }
{}

/// Bytes have one item at the start or one error, and never both.
pub fn one_answer()
    ensures some { SomeAnswer }
    ensures one_item { OneItem }
    ensures one_fault { OneFault }
    ensures not_both { NotBoth }
{}

/// A text is empty or one item, or it has one error, and never both.
pub fn one_answer_of_text()
    ensures some { SomeTextAnswer }
    ensures one_text { OneText }
    ensures one_fault { OneTextFault }
    ensures not_both { NotBothOfText }
{}
