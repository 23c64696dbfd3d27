//! The laws of what is said in a mode: which message is the first, and how long the text of an ask is. A call does nothing at
//! run time.
ghost use Rattle.std.specs.Prelude.{◌≡◌, ◌++◌, ◌∷◌, [], ℕ, List};
ghost use Rattle.http_messages.specs.Examples.{get_bytes};
ghost use Rattle.http_messages.specs.WideExamples.{post_bytes, post_page, text_of_get};
ghost use Rattle.http_messages.specs.Wide.{Asks, Wide, WideMessages};
ghost use Rattle.desk_http.specs.Laws.{HasShortAsk};
ghost use Rattle.desk_http.specs.declared.doors.Door.TheVariants.{Port};
ghost use Rattle.http_conversations.specs.Laws.{AsksAreShort, SaidIsFirst};
ghost use Rattle.http_conversations.specs.Modes.{Said, Says};
ghost use Rattle.http_conversations.specs.declared.modes.Mode.TheVariants as mode;

use http_messages::request_in_a_body;

/// What bytes say is the first wide message of each stream that begins with them, and after it come the messages of what
/// follows them. So the messages that a conversation answered are the first wide messages of what it received.
pub fn said_is_first()
    ensures law { SaidIsFirst }
{}

/// The text of an ask that a message makes in either mode has at most 270,336 bytes: as many as a head and a body may have.
pub fn asks_are_short()
    ensures law { AsksAreShort }
{}

/// The law of first messages, used on a POST whose one chunk is a whole request: it is the first message, and the next one is looked for after
/// it.
///
/// The proof applies the law to this request. A law with one more premise, which it does not meet, is refused here.
pub fn post_is_first()
    ensures first { (more : List ℕ) (m : Wide) (later : List Wide) →
        WideMessages ((post_bytes ++ text_of_get) ++ more) (m ∷ later) →
        m ≡ Asks post_page get_bytes }
    ensures passed { (more : List ℕ) (m : Wide) (later : List Wide) →
        WideMessages ((post_bytes ++ text_of_get) ++ more) (m ∷ later) → WideMessages more later }
{
    request_in_a_body();
    said_is_first();
}

/// The law of the text of an ask, used on the same POST, read in lenient mode at the port.
///
/// The proof applies the law to these bytes. A law with one more premise, which they do not meet, is refused here.
pub fn post_has_a_short_ask()
    ensures short { (x : Said) → Says mode.Lenient (post_bytes ++ text_of_get) x →
        HasShortAsk Port x.meant }
{
    asks_are_short();
}
