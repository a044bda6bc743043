//! Laws of what entries stand for. Each is the contract of an empty function, so that it is proved.

ghost use Rattle.master_state.specs.Laws.{EntriesDoTheirChanges, ChangesFit, NamesStayPlain, JournalsStandForPlain, CheckpointIsReadAgain, CheckpointHasTexts};

/// The entry of a change that fits does what the change does.
pub fn entries_do_their_changes()
    ensures { EntriesDoTheirChanges }
{}

/// The change of an event that is built and accepted fits plain names, and its entry has a text.
pub fn changes_fit()
    ensures { ChangesFit }
{}

/// Names stay plain whatever entry comes.
pub fn names_stay_plain()
    ensures { NamesStayPlain }
{}

/// What the entries of a journal stand for is plain.
pub fn journals_stand_for_plain()
    ensures { JournalsStandForPlain }
{}

/// A checkpoint of plain names stands for them.
pub fn checkpoint_is_read_again()
    ensures { CheckpointIsReadAgain }
{}

/// Each entry of a checkpoint of plain names has a text.
pub fn checkpoint_has_texts()
    ensures { CheckpointHasTexts }
{}
