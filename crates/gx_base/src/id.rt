//! Names: firms, instruments, the exchange, and the ids that clients give their orders.
ghost use Rattle.std.specs.Prelude.{◌≡◌, ◌+◌, ◌-◌, ◌≤◌, ◌++◌, SomeIff, IsTrue, codes, length, take, replicate};
ghost use Rattle.gx_base.specs.Texts.{is_name};

use crate::limits::LONGEST_NAME;
use crate::text::Text;
use std::marker::Model;

/// A name of 1 to `LONGEST_NAME` bytes, each of them 32 to 126 (our own rule). Contracts see it as its bytes.
#[derive(Clone, Copy, Debug, PartialEq, Eq)]
pub struct ShortId {
    text: Text<LONGEST_NAME>,
}

impl Model for ShortId {
    ghost use Rattle.std.specs.Prelude.{List, ℕ};

    ghost Value = { List ℕ };

    ghost use Rattle.std.specs.Prelude.{IsTrue};
    ghost use Rattle.gx_base.specs.Texts.{is_name};

    ghost view = { λ id. id.text };

    ghost invariant = { λ id. IsTrue (is_name id.text) };

    ghost inverse = { λ xs. record { text = xs } };
}

impl ShortId {
    /// The name with these bytes. `None` exactly where there are not 1 to `LONGEST_NAME` of them, or one is outside 32..=126.
    #[inline]
    pub fn new(bytes: &[u8]) -> Option<ShortId>
        ensures { SomeIff result (IsTrue (is_name bytes.now)) bytes.now }
    {
        if bytes.is_empty() || bytes.len() > LONGEST_NAME {
            return None;
        }
        let text = Text::new_if_printable(bytes)?;
        Some(ShortId { text })
    }

    /// Lends the bytes of the name.
    #[inline]
    pub fn bytes(&self) -> &[u8]
        ensures bytes { result.now ≡ self.now }
        ensures name { IsTrue (is_name result.now) }
    {
        self.text.bytes()
    }

    /// Lends the bytes of the name and after them zeros, `LONGEST_NAME` bytes together.
    #[inline]
    pub fn room(&self) -> &[u8; LONGEST_NAME]
        ensures room { result.now ≡ self.now ++ replicate (LONGEST_NAME - length self.now) 0 }
        ensures name { IsTrue (is_name self.now) }
    {
        self.text.room()
    }

    /// Writes the bytes of the name after the first `at` of `into`, and answers where they end; what stands after them is
    /// left open.
    #[inline]
    pub fn append_to(&self, into: &mut [u8], at: usize) -> usize
        requires { at + LONGEST_NAME ≤ length into.old }
        ensures bytes { take result into.new ≡ take at into.old ++ self.now }
        ensures short { result ≤ at + LONGEST_NAME }
    {
        self.text.append_to(into, at)
    }
}

/// The name `UNKNOWN`, which stands where no name is known.
impl Default for ShortId {
    ghost is_default = { λ id. id ≡ codes "UNKNOWN" };

    fn default() -> ShortId {
        ShortId {
            text: Text::new(b"UNKNOWN"),
        }
    }
}
