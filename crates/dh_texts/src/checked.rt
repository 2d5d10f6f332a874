//! A text that passes the test of its kind, and that contracts see as its bytes.

ghost use Rattle.std.specs.Prelude.{◌≡◌, IfOk, IsTrue};
ghost use Rattle.dh_texts.specs.Texts.{ParsesText};

use crate::fault::TextFault;
use std::alloc::{AllocError, Global};
use std::marker::{Model, PhantomData};

/// A kind of texts.
pub trait Kind {
    ghost use Rattle.std.specs.Prelude.{List, ℕ, Bool};
    ghost use Rattle.dh_texts.specs.declared.fault.TextFault.{TextFault};

    // The test that its texts pass, and why others are refused.
    ghost test: { List ℕ → Bool };

    ghost refusal: { TextFault };

    /// Whether a text is one of the kind.
    fn passes(text: &str) -> bool
        ensures { result ≡ test text.now };

    /// Why others are refused.
    fn refusal() -> TextFault
        ensures { result ≡ refusal };
}

/// A text of a kind.
#[derive(Debug, Drop)]
pub struct Checked<K: Kind> {
    inner: String,
    kind: PhantomData<K>,
}

impl<K: Kind> Model for Checked<K> {
    ghost use Rattle.std.specs.Prelude.{List, ℕ, string_bytes, IsTrue};

    ghost Value = { List ℕ };

    ghost view = { λ t. string_bytes t.inner };

    ghost invariant = { λ t. IsTrue (K.test (string_bytes t.inner)) };
}

impl<K: Kind> Checked<K> {
    /// The text as a value of this type, or the refusal of its kind where it is none.
    pub fn parse(alloc: Global, text: &str) -> Result<Checked<K>, TextFault>
        ensures { ParsesText K.test K.refusal text.now result }
    {
        if !K::passes(text) {
            return Err(K::refusal());
        }
        Ok(Checked {
            inner: String::from_str(alloc, text)?,
            kind: PhantomData,
        })
    }

    /// The text.
    pub fn as_str(&self) -> &str
        ensures text { result.now ≡ self.now }
        ensures checked { IsTrue (K.test self.now) }
    {
        self.inner.as_str()
    }

    /// A copy of the text.
    pub fn try_copy(&self, alloc: Global) -> Result<Checked<K>, AllocError>
        ensures { IfOk result (λ copy. copy ≡ self.now) }
    {
        Ok(Checked {
            inner: String::from_str(alloc, self.inner.as_str())?,
            kind: PhantomData,
        })
    }
}
