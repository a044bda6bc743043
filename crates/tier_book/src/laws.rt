//! That a book's words are the file machine's. Each law is the contract of an empty function, so that it is proved.

ghost use Rattle.tier_book.specs.Laws.{FreeBytesAreTheMachines, FirstFitIsTheMachines, RowsAreTheMachines};

/// The book of a worker has as many bytes free at each tier as the machine's worker.
pub fn free_bytes_are_the_machines()
    ensures { FreeBytesAreTheMachines }
{}

/// The first tier with room in the book of a worker is the first at the machine's worker.
pub fn first_fit_is_the_machines()
    ensures { FirstFitIsTheMachines }
{}

/// The book of a worker finds the rows and reservations that the machine's worker has.
pub fn rows_are_the_machines()
    ensures { RowsAreTheMachines }
{}
