//! Laws of the flat file machine. Each is the contract of an empty function, so that it is proved.

ghost use Rattle.fs_model.specs.Laws.{NextNumbersNeverFall, NamesAreAfterChanges, OnlyAcknowledgedChange, OwnEventsMayComeLater, OwnEventsMayComeEarlier, RefusedLeavesState, RefusedLeavesNames, FaultsHaveCauses, NumberTextIsDecimal, PathLengthIsOfText, KeyLengthIsOfText};

/// Along every run the next file id and the next plan number never fall.
pub fn next_numbers_never_fall()
    ensures { NextNumbersNeverFall }
{}

/// The names after a run are those before it with the changes of its acknowledged lines, and at a restart the one that was found.
pub fn names_are_after_changes()
    ensures { NamesAreAfterChanges }
{}

/// Only an acknowledged line makes a change.
pub fn only_acknowledged_change()
    ensures { OnlyAcknowledgedChange }
{}

/// Put, Poll and Copy of one actor may come after an event of another that stood behind them.
pub fn own_events_may_come_later()
    ensures { OwnEventsMayComeLater }
{}

/// Put, Poll and Copy of one actor may come before an event of another that stood before them.
pub fn own_events_may_come_earlier()
    ensures { OwnEventsMayComeEarlier }
{}

/// A refused event leaves the state, but for the cases that `may_change` names.
pub fn refused_leaves_state()
    ensures { RefusedLeavesState }
{}

/// A refused event leaves the names.
pub fn refused_leaves_names()
    ensures { RefusedLeavesNames }
{}

/// A fault or a wait is answered only where its cause is there.
pub fn faults_have_causes()
    ensures { FaultsHaveCauses }
{}

/// The text of a number in a key is the one that std writes, for numbers of at most 64 digits.
pub fn number_text_is_decimal()
    ensures { NumberTextIsDecimal }
{}

/// The length that the journal counts for a path is that of its text.
pub fn path_length_is_of_text()
    ensures { PathLengthIsOfText }
{}

/// The length that the journal counts for a key is that of its text.
pub fn key_length_is_of_text()
    ensures { KeyLengthIsOfText }
{}
