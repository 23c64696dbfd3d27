//! The four kinds of product, with their numbers, letters and words; and codes of suppliers and of products, with the short texts that they are.

ghost use Rattle.std.specs.Prelude.{◌≡◌};
ghost use Rattle.allotment.specs.Cells.{kind_number};
ghost use Rattle.allotment.specs.Limits.{most_nights};
ghost use Rattle.allotment.specs.Texts.{kind_letter, kind_word, kind_of_letter, kind_of_number, kind_of_word};

use crate::limits::LONGEST_CODE;
use std::marker::Model;
use std::{fmt, str};

/// A supplier or a product: 1 to 8 of `A`-`Z` and `0`-`9`. To a contract it is its bytes.
#[derive(Clone, Copy, Debug, PartialEq, Eq)]
pub struct Code {
    text: Short<LONGEST_CODE>,
}

impl Model for Code {
    ghost use Rattle.std.specs.Prelude.{ℕ, List, IsTrue};

    ghost Value = { List ℕ };

    ghost use Rattle.allotment.specs.Limits.{is_code};

    ghost view = { λ a. a.text };

    ghost invariant = { λ a. IsTrue (is_code a.text) };

    ghost inverse = { λ bytes. record { text = bytes } };
}

impl Code {
    ghost use Rattle.std.specs.Prelude.{◌≡◌, IsTrue};
    ghost use Rattle.allotment.specs.Limits.{is_code};
    ghost use Rattle.allotment.specs.Texts.{keep_if};

    /// Reads a code from its text. Returns `None` for a text that is no code.
    pub fn parse(text: &str) -> Option<Code>
        ensures { result ≡ keep_if is_code text.now }
    {
        let kept = Short::new(text)?;
        let is_good = |byte: &u8| byte.is_ascii_uppercase() || byte.is_ascii_digit();
        if !text.is_empty() && text.as_bytes().iter().all(is_good) {
            Some(Code { text: kept })
        } else {
            None
        }
    }

    /// The text of the code.
    pub fn as_str(&self) -> &str
        ensures text { result.now ≡ self.now }
        ensures limits { IsTrue (is_code self.now) }
    {
        self.text.as_str()
    }
}

impl fmt::Display for Code {
    ghost use Rattle.std.specs.Prelude.{Some};

    ghost output = { λ code. Some code };

    fn fmt<W: fmt::Write>(&self, f: &mut fmt::Formatter<W>) -> fmt::Result {
        f.write_str(self.as_str())
    }
}

/// A text of at most `N` bytes of ASCII. To a contract it is its bytes.
#[derive(Clone, Copy)]
pub struct Short<const N: usize> {
    /// The text, padded with zeros.
    bytes: [u8; N],
    /// How many bytes the text has.
    len: usize,
}

impl<const N: usize> Model for Short<N> {
    ghost use Rattle.std.specs.Prelude.{ℕ, List, length, take};
    ghost use Rattle.allotment.specs.Short.{padded, IsPadded, padded-take, length_of};

    ghost Value = { List ℕ };

    ghost view = { λ a. take a.len a.bytes };

    ghost invariant = { λ a. IsPadded N a.len a.bytes };

    ghost inverse = { λ text. record { bytes = padded N text; len = length text } };

    ghost inverse_ok = { λ a h i. record {
      bytes = padded-take N a.len a.bytes h i;
      len = length_of N a.len a.bytes h i;
    } };
}

impl<const N: usize> Short<N> {
    ghost use Rattle.std.specs.Prelude.{◌≡◌, ◌↔◌, [], length, IsTrue};
    ghost use Rattle.allotment.specs.Short.{is_short};
    ghost use Rattle.allotment.specs.Texts.{keep_if};

    /// Stores the text. Returns `None` if it has more than `N` bytes or a byte that is not ASCII.
    pub fn new(text: &str) -> Option<Short<N>>
        ensures { result ≡ keep_if (is_short N) text.now }
    {
        let given = text.as_bytes();
        if given.len() > N || !given.is_ascii() {
            return None;
        }
        let mut bytes = [0; N];
        bytes[..given.len()].copy_from_slice(given);
        Some(Short {
            bytes,
            len: given.len(),
        })
    }

    /// The text.
    pub fn as_str(&self) -> &str
        ensures text { result.now ≡ self.now }
        ensures limits { IsTrue (is_short N self.now) }
    {
        // the text is ASCII, as the invariant says, so it need not be checked again
        unsafe { str::from_utf8_unchecked(&self.bytes[..self.len]) }
    }

    /// How many bytes the text has.
    pub fn len(&self) -> usize
        ensures { result ≡ length self.now }
    {
        self.len
    }

    /// Whether the text has no byte.
    pub fn is_empty(&self) -> bool
        ensures { IsTrue result ↔ self.now ≡ [] }
    {
        self.len == 0
    }
}

impl<const N: usize> PartialEq for Short<N> {
    ghost use Rattle.std.specs.Prelude.{bytes_eq};
    ghost use Rattle.std.proofs.Common.{rules};
    ghost use Rattle.std.specs.Cmp.Rules.{comparing};

    ghost eq = { λ a b. bytes_eq a b };

    ghost laws = { Prim.search (comparing, rules) };

    fn eq(&self, other: &Short<N>) -> bool {
        self.as_str() == other.as_str()
    }
}

impl<const N: usize> Eq for Short<N> {
    ghost use Rattle.std.proofs.Common.{rules};
    ghost use Rattle.std.specs.Cmp.Rules.{comparing};

    ghost laws = { Prim.search (comparing, rules) };
}

impl<const N: usize> fmt::Debug for Short<N> {
    fn fmt<W: fmt::Write>(&self, f: &mut fmt::Formatter<W>) -> fmt::Result {
        fmt::Debug::fmt(self.as_str(), f)
    }
}

/// What is sold: a seat on a flight, a room, a seat in a transfer, or cover.
#[derive(Clone, Copy, Debug, PartialEq, Eq)]
pub enum Kind {
    /// One night.
    Flight,
    /// At most 30 nights.
    Room,
    /// One night.
    Transfer,
    /// At most 60 nights.
    Cover,
}

impl Kind {
    /// The number by which kinds are ordered: 0 to 3.
    pub fn number(self) -> u8
        ensures { result ≡ kind_number self }
    {
        match self {
            Kind::Flight => 0,
            Kind::Room => 1,
            Kind::Transfer => 2,
            Kind::Cover => 3,
        }
    }

    /// The kind with this number. Returns `None` for a number above 3.
    pub fn from_number(number: u8) -> Option<Kind>
        ensures { result ≡ kind_of_number number }
    {
        match number {
            0 => Some(Kind::Flight),
            1 => Some(Kind::Room),
            2 => Some(Kind::Transfer),
            3 => Some(Kind::Cover),
            _ => None,
        }
    }

    /// The letter that represents the kind in the text of a cell or a want: `F`, `R`, `T` or `C`.
    pub fn letter(self) -> &'static str
        ensures { result.now ≡ kind_letter self }
    {
        match self {
            Kind::Flight => "F",
            Kind::Room => "R",
            Kind::Transfer => "T",
            Kind::Cover => "C",
        }
    }

    /// The kind with this letter. Returns `None` for any other text.
    pub fn from_letter(text: &str) -> Option<Kind>
        ensures { result ≡ kind_of_letter text.now }
    {
        match text {
            "F" => Some(Kind::Flight),
            "R" => Some(Kind::Room),
            "T" => Some(Kind::Transfer),
            "C" => Some(Kind::Cover),
            _ => None,
        }
    }

    /// The word that represents the kind elsewhere: `flight`, `room`, `transfer` or `cover`.
    pub fn word(self) -> &'static str
        ensures { result.now ≡ kind_word self }
    {
        match self {
            Kind::Flight => "flight",
            Kind::Room => "room",
            Kind::Transfer => "transfer",
            Kind::Cover => "cover",
        }
    }

    /// The kind with this word. Returns `None` for any other text.
    pub fn from_word(text: &str) -> Option<Kind>
        ensures { result ≡ kind_of_word text.now }
    {
        match text {
            "flight" => Some(Kind::Flight),
            "room" => Some(Kind::Room),
            "transfer" => Some(Kind::Transfer),
            "cover" => Some(Kind::Cover),
            _ => None,
        }
    }

    /// The most nights that a want of the kind may have: 1 for a flight or a transfer, 30 for a room, 60 for cover.
    pub fn most_nights(self) -> u8
        ensures { result ≡ most_nights self }
    {
        match self {
            Kind::Flight | Kind::Transfer => 1,
            Kind::Room => 30,
            Kind::Cover => 60,
        }
    }
}
