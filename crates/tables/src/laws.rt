//! What a book of a new desk may do.
ghost use Rattle.tables.specs.Acting.{NewDeskMayAct};

use crate::books::TableBook;
use sqlite::Alter;

/// A book of a new desk may act, and has all rowids left. A call does nothing at run time.
pub fn new_desk_may_act<S: Alter>(book: &TableBook<S>)
    ensures law { NewDeskMayAct S.Store book.now }
{}
