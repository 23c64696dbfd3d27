//! Laws of the texts, for all values. A call does nothing at run time.
ghost use Rattle.std.specs.Prelude.{◌≡◌, codes, IsTrue, Some};
ghost use Rattle.allotment.specs.Cells.{kind_number};
ghost use Rattle.allotment.specs.Examples.{four_rooms, inn, june, room, three_nights};
ghost use Rattle.allotment.specs.Laws.{each_one, HasOneText, HasTextOfItsOwn};
ghost use Rattle.allotment.specs.Limits.{is_code, is_good_cell, is_night, is_want};
ghost use Rattle.allotment.specs.Nights.{night_in, night_text};
ghost use Rattle.allotment.specs.Rows.{Allotted, is_row};
ghost use Rattle.allotment.specs.Texts.{cell_in, cell_text, keep_if, kind_letter, kind_of_letter, kind_of_number, kind_of_word, kind_word, row_text, want_text};
ghost use Rattle.allotment.specs.Want.{Wanted};

use crate::codes::Kind;

/// A value is read back from its text, and a text that is read is the text of its value. Two different rows or wants
/// have different texts.
pub fn values_have_one_text()
    ensures numbers { HasOneText each_one kind_number kind_of_number }
    ensures letters { HasOneText each_one kind_letter kind_of_letter }
    ensures words { HasOneText each_one kind_word kind_of_word }
    ensures codes { HasOneText is_code (λ code. code) (keep_if is_code) }
    ensures nights { HasOneText is_night night_text night_in }
    ensures cells { HasOneText is_good_cell cell_text cell_in }
    ensures rows { HasTextOfItsOwn is_row row_text }
    ensures wants { HasTextOfItsOwn is_want want_text }
{}

/// The laws of texts, applied to a room: its kind, its supplier, its night, its cell, a row and a want are read from
/// their texts, and no other row or want has the text of that one.
///
/// The proof applies the laws to these values. A law with one more premise, which they do not meet, is refused here.
pub fn texts_of_a_room()
    ensures number { kind_of_number 1 ≡ Some Kind.Room }
    ensures letter { kind_of_letter (codes "R") ≡ Some Kind.Room }
    ensures word { kind_of_word (codes "room") ≡ Some Kind.Room }
    ensures code { keep_if is_code (codes "INN") ≡ Some inn }
    ensures night { night_in (codes "2030-06-01") ≡ Some june }
    ensures cell { cell_in (codes "R/INN/DBL/2030-06-01") ≡ Some room }
    ensures row { (other : Allotted) → IsTrue (is_row other)
        → row_text other ≡ codes "R/INN/DBL/2030-06-01/4" → other ≡ four_rooms }
    ensures want { (other : Wanted) → IsTrue (is_want other)
        → want_text other ≡ codes "R/INN/DBL/2030-06-01/3/2" → other ≡ three_nights }
{
    values_have_one_text();
}
