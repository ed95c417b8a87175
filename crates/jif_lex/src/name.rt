//! Names.

ghost use Rattle.std.specs.Prelude.{◌≡◌};
ghost use Rattle.std.specs.String.{string_bytes};
ghost use Rattle.js_base.specs.Name.{IsName};

use std::marker::Model;

/// A name: an ASCII letter or `_`, then ASCII letters, digits and `_`, and no keyword.
#[derive(Drop)]
pub struct Name {
    text: String,
}

impl Model for Name {
    ghost use Rattle.std.specs.Prelude.{ℕ, List};
    ghost use Rattle.std.specs.String.{string_bytes};
    ghost use Rattle.js_base.specs.Name.{IsName};

    ghost Value = { List ℕ };

    ghost view = { λ n. string_bytes n.text };

    ghost invariant = { λ n. IsName (string_bytes n.text) };
}

impl Name {
    /// A name of this text.
    pub fn new(text: String) -> Name
        requires { IsName (string_bytes text) }
        ensures { result ≡ string_bytes text }
    {
        Name { text }
    }

    /// The text of the name.
    pub fn as_str(&self) -> &str
        ensures text { result.now ≡ self.now }
        ensures name { IsName result.now }
    {
        self.text.as_str()
    }

    /// The text of the name, taken out.
    pub fn into_text(self) -> String
        ensures text { string_bytes result ≡ self }
        ensures name { IsName self }
    {
        self.text
    }
}
