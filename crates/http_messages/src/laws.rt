//! Laws of all streams, and of bodies. A call does nothing at run time.
ghost use Rattle.std.specs.Prelude.{◌≡◌, ◌++◌, ◌∷◌, [], ℕ, List, Some};
ghost use Rattle.std.specs.List.{concat};
ghost use Rattle.http_messages.specs.Examples.{get_bytes, get_page};
ghost use Rattle.http_messages.specs.Laws.{HasOneReading, HeadsAreTold, MessagesStay};
ghost use Rattle.http_messages.specs.Messages as plain;
ghost use Rattle.http_messages.specs.Messages.{AreMessages, BeginsWithAll, first_told};
ghost use Rattle.httparse.specs.Grammar.{RequestHead};
ghost use Rattle.http_messages.specs.declared.framing.BodyKind.TheVariants.{Chunked};
ghost use Rattle.http_messages.specs.Bodies.{IsBody};
ghost use Rattle.http_messages.specs.Calls.{Calls};
ghost use Rattle.http_messages.specs.WideExamples.{at_chunks, post_bytes, post_page, text_of_get};
ghost use Rattle.http_messages.specs.WideLaws.{BodiesArePassed, CutsAgree, HasOneBody, HasOneFirst, NoBodyIsAHead};
ghost use Rattle.http_messages.specs.Wide.{Asks, BeginsWith, Wide, WideMessages};

/// A head is decided where it ends, and not before, whatever follows.
pub fn heads_are_told()
    ensures law { HeadsAreTold }
{}

/// A stream has one list of messages.
pub fn one_reading()
    ensures law { HasOneReading }
{}

/// Bytes that are messages, one after another, are the first messages of every stream that begins with them.
pub fn messages_stay()
    ensures law { MessagesStay }
{}

/// The laws of streams, used on a request for a page that comes twice, and on one that comes alone.
///
/// Its proof hands the laws that request. So a premise more in a law, which the request does not meet, is refused here.
pub fn page_is_asked_twice()
    ensures told { first_told (get_bytes ++ get_bytes) ≡ Some get_bytes }
    ensures one { (ms : List plain.Message) → AreMessages get_bytes ms → ms ≡ plain.Asks get_page [] ∷ [] }
{
    heads_are_told();
    one_reading();
}

/// The law of messages that stay, applied to two requests for a page, one after another: they are the first two messages
/// of every stream that begins with them.
///
/// The proof applies the law to these requests. A law with one more premise, which they do not meet, is refused here.
pub fn pages_come_first()
    ensures stay { (rest : List ℕ) → BeginsWithAll (concat (get_bytes ∷ get_bytes ∷ []) ++ rest)
        (plain.Asks get_page [] ∷ plain.Asks get_page [] ∷ []) rest }
{
    heads_are_told();
    messages_stay();
}

/// A stream begins with at most one body of a kind, which ends at one place.
pub fn one_body()
    ensures law { HasOneBody }
{}

/// However a stream is cut into pieces, calls of a `BodyReader` find the one body with which it begins.
pub fn cuts_agree()
    ensures law { CutsAgree }
{}

/// No byte of a body is read as the head of a request: whatever a body stands for, the next message is looked for after
/// its text.
pub fn no_body_is_a_head()
    ensures law { NoBodyIsAHead }
{}

/// A stream begins with at most one message, which ends at one place.
pub fn one_first()
    ensures law { HasOneFirst }
{}

/// The messages of a head with its body, and of what follows, are that request and then the messages of what follows: no
/// byte of a body is read as a head.
pub fn bodies_are_passed()
    ensures law { BodiesArePassed }
{}

/// The laws used on a POST whose one chunk is a whole request: the stream begins with the POST alone, whatever follows.
///
/// The proof applies the laws to this request. A law with one more premise, which it does not meet, is refused here.
pub fn request_in_a_body()
    ensures asks { (rest : List ℕ) →
        BeginsWith (post_bytes ++ (text_of_get ++ rest)) (Asks post_page get_bytes) rest }
    ensures only { (rest : List ℕ) (k : RequestHead) (other left : List ℕ) →
        BeginsWith (post_bytes ++ (text_of_get ++ rest)) (Asks k other) left → left ≡ rest }
    ensures first { (rest left : List ℕ) (m : Wide) →
        BeginsWith (post_bytes ++ (text_of_get ++ rest)) m left →
        (m ≡ Asks post_page get_bytes) × (left ≡ rest) }
    ensures passed { (rest : List ℕ) (m : Wide) (later : List Wide) →
        WideMessages (post_bytes ++ (text_of_get ++ rest)) (m ∷ later) → WideMessages rest later }
    ensures one { (other left : List ℕ) → IsBody Chunked text_of_get other left
        → (other ≡ get_bytes) × (left ≡ []) }
    ensures cut { (rest other left : List ℕ) → Calls at_chunks (text_of_get ++ rest) other left
        → (other ≡ get_bytes) × (left ≡ rest) }
{
    one_body();
    cuts_agree();
    no_body_is_a_head();
    one_first();
    bodies_are_passed();
}
