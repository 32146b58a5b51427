//! Texts of a command line.
ghost use Rattle.std.specs.Prelude.{◌≡◌, IfOk};

use std::alloc::Global;
use std::convert::AsStr;
use std::marker::Model;
use tor_arena::NoMemory;

/// A text, as a word of a command line or the name of a file: seen as its octets, in UTF-8.
#[derive(Drop)]
pub struct Name {
    text: String,
}

impl Model for Name {
    ghost use Rattle.std.specs.Prelude.{ℕ, List, string_bytes};

    ghost Value = { List ℕ };

    ghost view = { λ name. string_bytes name.text };
}

impl Name {
    /// A copy of the text.
    pub fn from_text(alloc: Global, text: &str) -> Result<Name, NoMemory>
        ensures { IfOk result (λ name. name ≡ text.now) }
    {
        Ok(Name {
            text: String::from_str(alloc, text)?,
        })
    }

    /// The text. It takes no memory.
    pub fn as_text(&self) -> &str
        ensures { result.now ≡ self.now }
    {
        self.text.as_str()
    }
}

impl AsStr for Name {
    ghost text = { λ name. name };

    fn as_str(&self) -> &str {
        self.as_text()
    }
}
