//! The token that a thread holds.

ghost use Rattle.std.specs.Prelude.{◌≡◌};

use crate::Token;
use std::marker::Model;

/// The token that a running thread holds. It can't be copied, and has to be spent: it is sent on, or left on a control
/// stack, or abandoned.
pub struct Held {
    token: Token,
}

impl Model for Held {
    ghost use Rattle.capability.specs.declared.token.Token.{Token};

    ghost Value = { Token };

    ghost view = { λ h. h.token };
}

impl Held {
    /// A thread holds this token now.
    pub fn of(token: Token) -> Held
        ensures { result ≡ token }
    {
        Held { token }
    }

    /// The token, which the thread no longer holds.
    pub fn spend(self) -> Token
        ensures { result ≡ self }
    {
        let Held { token } = self;
        token
    }

    /// The thread ends, and nobody holds the token any more.
    pub fn abandon(self) {
        let Held { token: _ } = self;
    }
}
