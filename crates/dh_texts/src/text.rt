//! Texts and bytes that pass no test.

ghost use Rattle.std.specs.Prelude.{◌≡◌, IfOk, IfSome, string_bytes};

use std::alloc::{AllocError, Global};
use std::marker::Model;
use std::rc::Rc;

/// A text, which contracts see as its bytes.
#[derive(Debug, Drop)]
pub struct Text {
    inner: String,
}

impl Model for Text {
    ghost use Rattle.std.specs.Prelude.{List, ℕ, string_bytes};

    ghost Value = { List ℕ };

    ghost view = { λ t. string_bytes t.inner };
}

impl Text {
    /// The text that the string holds; wrapping takes no memory.
    pub fn wrap(inner: String) -> Text
        ensures { result ≡ string_bytes inner }
    {
        Text { inner }
    }

    /// A copy of the text.
    pub fn copy_of(alloc: Global, text: &str) -> Result<Text, AllocError>
        ensures { IfOk result (λ t. t ≡ text.now) }
    {
        Ok(Text {
            inner: String::from_str(alloc, text)?,
        })
    }

    /// The text.
    pub fn as_str(&self) -> &str
        ensures { result.now ≡ self.now }
    {
        self.inner.as_str()
    }
}

/// Who holds some bytes: one value alone, or several.
#[derive(Debug, Drop)]
enum Storage {
    Owned(Vec<u8>),
    Shared(Rc<Vec<u8>>),
}

/// Bytes, which contracts see as their list. One value owns them, or several share them, none of which has a copy.
#[derive(Debug)]
pub struct Bytes {
    storage: Storage,
}

impl Drop for Bytes {
    fn drop(self) {
        let Bytes { storage: _ } = self;
    }
}

impl Model for Bytes {
    ghost use Rattle.std.specs.Prelude.{List, ℕ};
    ghost use Rattle.dh_texts.specs.Storages.{stored_bytes};

    ghost Value = { List ℕ };

    ghost view = { λ b. stored_bytes b.storage };
}

impl Bytes {
    /// The bytes that the vector holds; wrapping takes no memory.
    pub fn wrap(inner: Vec<u8>) -> Bytes
        ensures { result ≡ inner.items }
    {
        Bytes {
            storage: Storage::Owned(inner),
        }
    }

    /// A copy of the bytes.
    pub fn copy_of(alloc: Global, bytes: &[u8]) -> Result<Bytes, AllocError>
        ensures { IfOk result (λ b. b ≡ bytes.now) }
    {
        Ok(Bytes::wrap(Vec::from_slice(alloc, bytes)?))
    }

    /// The bytes.
    pub fn as_slice(&self) -> &[u8]
        ensures { result.now ≡ self.now }
    {
        match &self.storage {
            Storage::Owned(bytes) => bytes.as_slice(),
            Storage::Shared(bytes) => bytes.as_slice(),
        }
    }

    /// Makes the bytes shared, so that `handle` gives them out again. Where memory is out they keep their one owner.
    pub fn into_shared(self, alloc: Global) -> Bytes
        ensures { result ≡ self }
    {
        let Bytes { storage } = self;
        match storage {
            Storage::Owned(bytes) => match Rc::new(alloc, bytes) {
                Ok(bytes) => Bytes {
                    storage: Storage::Shared(bytes),
                },
                Err(refused) => Bytes::wrap(refused.value),
            },
            Storage::Shared(bytes) => Bytes {
                storage: Storage::Shared(bytes),
            },
        }
    }

    /// A second value of bytes that are shared, which takes no memory; `None` where one value owns them.
    pub fn handle(&self) -> Option<Bytes>
        ensures { IfSome result (λ b. b ≡ self.now) }
    {
        match &self.storage {
            Storage::Owned(_) => None,
            Storage::Shared(bytes) => match bytes.clone() {
                Ok(bytes) => Some(Bytes {
                    storage: Storage::Shared(bytes),
                }),
                Err(_) => None,
            },
        }
    }

    /// A second value of the bytes: a handle where they are shared, else a copy.
    pub fn handle_or_copy(&self, alloc: Global) -> Result<Bytes, AllocError>
        ensures { IfOk result (λ b. b ≡ self.now) }
    {
        match self.handle() {
            Some(bytes) => Ok(bytes),
            None => Bytes::copy_of(alloc, self.as_slice()),
        }
    }
}
