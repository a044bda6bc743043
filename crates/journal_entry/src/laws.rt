//! Laws of the grammar of entries. Each is the contract of an empty function, so that it is proved.

ghost use Rattle.journal_entry.specs.Laws.{NoTextBeginsAnother, TextIsReadAgain, ReadingLooksNoFurther, ChangesAreCounted, CheckpointIsCounted, TextsHaveLength};

/// No text of an entry begins another's: bytes begin with one entry at most.
pub fn no_text_begins_another()
    ensures { NoTextBeginsAnother }
{}

/// The text of an entry is read as it, whatever follows.
pub fn text_is_read_again()
    ensures { TextIsReadAgain }
{}

/// Reading an entry doesn't look past its length.
pub fn reading_looks_no_further()
    ensures { ReadingLooksNoFurther }
{}

/// The machine counts just the lengths of the texts for its changes.
pub fn changes_are_counted()
    ensures { ChangesAreCounted }
{}

/// The machine counts just the lengths of the texts for a checkpoint.
pub fn checkpoint_is_counted()
    ensures { CheckpointIsCounted }
{}

/// How long the text of each entry is.
pub fn texts_have_length()
    ensures { TextsHaveLength }
{}
