//! Laws of messages. They are about the definitions that the contracts use, so the functions compute nothing. Each
//! function proves that its clauses hold.

ghost use Rattle.hsms_frame.specs.Laws.{HeadersAreOctets, MessagesAreOctets, OneMessageAtFront, SomeAnswer, OneAnswer, SomeAnswerToPending, OneAnswerToPending, GivesWhatWasPushed, AnyPiecesGiveTheSame};

/// Proves that no message's bytes are a prefix of another message's, and no bytes encode two messages. If a header's or
/// message's numbers are in their ranges, each of its bytes is below 256.
pub fn one_message_at_front()
    ensures one { OneMessageAtFront }
    ensures headers { HeadersAreOctets }
    ensures messages { MessagesAreOctets }
{}

/// Proves that an input that is read has exactly one result, unless an allocation or a read fails.
pub fn one_answer_to_input()
    ensures some { SomeAnswer }
    ensures one { OneAnswer }
{}

/// Proves that the pending bytes of a framer have exactly one result, unless an allocation fails.
pub fn one_answer_to_pending()
    ensures some { SomeAnswerToPending }
    ensures one { OneAnswerToPending }
{}

/// Proves that over any calls of a framer, the pushed bytes are those of the returned messages, in order, followed by
/// the pending bytes. The messages do not depend on how the bytes are divided into chunks.
pub fn any_pieces_give_the_same()
    ensures pushed { GivesWhatWasPushed }
    ensures same { AnyPiecesGiveTheSame }
{}
