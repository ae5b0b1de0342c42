//! Laws of the notation, over its definitions alone.

ghost use Rattle.secs_text.specs.Laws.{LetsThroughNotations, LetsThroughNothingElse, LetsThroughMessages, LetsThroughMessagesAlone, HasOneMessage, HasOneList, IsMessageOrFault, AreMessagesOrFault, IsNotBoth, AreNotBoth, HasOneFault, HasOneFaultOfAll, IsNeverMemory, PrintedIsNotation, PrintedIsLetThrough};

/// The parser states accept exactly the notations of messages within the depth.
pub fn places_let_notations_through()
    ensures notations { LetsThroughNotations }
    ensures nothing_else { LetsThroughNothingElse }
    ensures messages { LetsThroughMessages }
    ensures messages_alone { LetsThroughMessagesAlone }
{}

/// A text is the notation of at most one message, and of at most one list of messages.
pub fn one_message()
    ensures message { HasOneMessage }
    ensures list { HasOneList }
{}

/// A text is the notation of a message within the depth, or it has one error, and never both.
pub fn one_answer()
    ensures some { IsMessageOrFault }
    ensures not_both { IsNotBoth }
    ensures one_fault { HasOneFault }
{}

/// A text is the notation of a list of messages within the depth, or it has one error, and never both.
pub fn one_answer_of_all()
    ensures some { AreMessagesOrFault }
    ensures not_both { AreNotBoth }
    ensures one_fault { HasOneFaultOfAll }
{}

/// The error of a text is never a failed allocation.
pub fn no_fault_is_memory()
    ensures { IsNeverMemory }
{}

/// The printed form of a message is its notation, so reading it returns the message if it is within the depth.
pub fn printed_is_read()
    ensures notation { PrintedIsNotation }
    ensures let_through { PrintedIsLetThrough }
{}
