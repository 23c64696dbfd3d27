//! How a message is answered that is not read.
ghost use Rattle.std.specs.Prelude.{◌≡◌};
ghost use Rattle.http_messages.specs.Framing.{code_of, denial_of};

use crate::framing::Unframed;

/// How a message is answered that is not read. The connection ends after the page.
#[derive(Clone, Copy, Debug, PartialEq, Eq)]
pub enum Denial {
    /// No head, no host or more than one, a body that is framed in two ways, or no chunks: 400.
    BadHead,
    /// A body of more than 262,144 bytes: 413.
    TooLarge,
    /// A head of more than 8,192 bytes or 32 fields: 431.
    LongHead,
    /// A coding other than `chunked`: 501.
    OtherCoding,
    /// A version other than HTTP/1.0 and HTTP/1.1: 505.
    OtherVersion,
}

impl Denial {
    /// How a request is answered whose body is not read.
    pub fn of(why: Unframed) -> Denial
        ensures denial { result ≡ denial_of why }
    {
        match why {
            Unframed::BadHead => Denial::BadHead,
            Unframed::OtherCoding => Denial::OtherCoding,
            Unframed::TooLarge => Denial::TooLarge,
        }
    }

    /// The code of the status (RFC 9110, section 15; RFC 6585, section 5).
    pub fn code(self) -> u16
        ensures code { result ≡ code_of self }
    {
        match self {
            Denial::BadHead => 400,
            Denial::TooLarge => 413,
            Denial::LongHead => 431,
            Denial::OtherCoding => 501,
            Denial::OtherVersion => 505,
        }
    }
}
