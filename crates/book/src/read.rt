// A book that is read: bytes lent for a while, which make a book. Whoever holds one need not ask it of anyone again.
#![tactic(auto)]

ghost use Rattle.std.specs.Prelude.{◌≡◌, ℕ, List};
ghost use Rattle.book.specs.Valid.{Valid};

use std::marker::Model;

#[derive(Drop)]
pub struct Book<'a> {
    pub bytes: &'a [u8],
}

// In a clause a book is the list of its bytes.
impl<'a> Model for Book<'a> {
    ghost Value = { List ℕ };

    ghost view = { λ b. b.bytes.now };

    ghost invariant = { λ b. Valid b.bytes.now };
}

impl<'a> Book<'a> {
    pub fn of(bytes: &'a [u8]) -> Book<'a>
        requires { Valid bytes.now }
        ensures { result ≡ bytes.now }
    {
        Book { bytes }
    }

    // What every book that is read is, for a function whose proof needs it.
    pub fn known(&self)
        ensures { Valid self.now }
    {
        let _ = &self.bytes;
    }
}
