//! Where a prefix of a stream is decided.
ghost use Rattle.std.specs.Prelude.{◌≡◌, IfSome, IsNone, None};
ghost use Rattle.http_messages.specs.Messages.{first_told};
ghost use Rattle.http_messages.specs.Places.{IsToldAt};

/// How many bytes a head may have.
pub const LONGEST_HEAD: usize = 8192;

/// What the bytes so far end with.
#[derive(Clone, Copy)]
enum Place {
    /// Nothing but line ends.
    Before,
    /// A line that has begun.
    Within,
    /// The end of a line.
    AfterLf,
    /// The end of a line and a carriage return.
    AfterCr,
    /// An empty line after another line.
    Told,
}

impl Place {
    ghost use Rattle.std.specs.Prelude.{◌≡◌};
    ghost use Rattle.http_messages.specs.Places.{is_told_place, next_place};

    /// Where one more byte leads.
    fn next(self, byte: u8) -> Place
        ensures place { result ≡ next_place self byte }
    {
        match (self, byte) {
            (Place::Before, b'\r' | b'\n') => Place::Before,
            (Place::AfterLf | Place::AfterCr | Place::Told, b'\n') => Place::Told,
            (Place::AfterLf | Place::Told, b'\r') => Place::AfterCr,
            (Place::Within, b'\n') => Place::AfterLf,
            _ => Place::Within,
        }
    }

    /// Whether an empty line stands here.
    fn is_told(self) -> bool
        ensures told { result ≡ is_told_place self }
    {
        matches!(self, Place::Told)
    }
}

/// The length of the shortest decided prefix of these bytes; `None` if no prefix is decided yet.
pub fn decided_front(bytes: &[u8]) -> Option<usize>
    ensures front { IfSome result (IsToldAt bytes.now) }
    ensures none { IsNone result → first_told bytes.now ≡ None }
{
    let mut place = Place::Before;
    for (at, byte) in bytes.iter().enumerate() {
        place = place.next(*byte);
        if place.is_told() || at + 1 == LONGEST_HEAD {
            return Some(at + 1);
        }
    }
    None
}
