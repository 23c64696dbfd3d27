//! The law of turns one after another. A call does nothing at run time.
ghost use Rattle.http_live.specs.InTime.{EachInstantIsInOrder, SecondSeesTheFirst};

use crate::serving::Turns;
use report_kinds::Reporting;
use std::io::{Read, Write};

/// Where turns are taken one after another, then at each of them what had been answered before it is seen by whatever is
/// answered in it and after it.
pub fn turns_are_in_order<T: Turns, B: Reporting>()
    ensures law { EachInstantIsInOrder ⟦<T::Reader as Read>⟧ ⟦<T::Writer as Write>⟧ T.took T.heard
        T.seen T.is_at T.is_by T.is_pair B.is_sound B.stands B.leaves B.may_act B.has_reason }
{}

/// The law of turns, used on two of them: what the first answered is seen by the second.
///
/// The proof applies the law to these two turns. A law with one more premise, which they do not meet, is refused here.
pub fn second_turn_sees_the_first<T: Turns, B: Reporting>()
    ensures sees { SecondSeesTheFirst ⟦<T::Reader as Read>⟧ ⟦<T::Writer as Write>⟧ T.took T.heard
        T.seen T.is_at T.is_by T.is_pair B.is_sound B.stands B.leaves B.may_act B.has_reason }
{
    turns_are_in_order::<T, B>();
}
