//! Those to whom a file key is wrapped.
ghost use Rattle.std.specs.Prelude.{ℕ, List};
ghost use Rattle.age_format.specs.Wrapping.{wrap_answer};
ghost use Rattle.age_v1.specs.Recipients.{WrapAnswer};

use crate::stanza::Stanza;
use age_error::EncryptError;
use age_suite::draw::Draw;
use age_suite::secrecy::FileKey;
use std::alloc::Global;
use std::collections::BTreeSet;

/// One to whom a file key is wrapped.
///
/// What a recipient means is a relation, since the answer may depend on memory: it says which answers can be given.
pub trait Recipient: Drop {
    // Of the file key and the random bytes before the call: the answer, and the random bytes that are left after it. An
    // answer is the stanzas and the labels, or a refusal, apart from where they lie in memory.
    ghost wraps: { Self → List ℕ → List ℕ → WrapAnswer → List ℕ → Type 0 };

    /// Wraps a file key of 16 bytes: the stanzas from which this recipient's identities get it back, and this recipient's
    /// labels. Only recipients with the same labels may have a file together (age's plugin specification, "Labels").
    ///
    /// Random bytes are taken from `draw`, from the front. A recipient that runs out of them answers `ShortRandom`, one
    /// that is refused memory `OutOfMemory`; what else it refuses with is its own to say. After a refusal `draw` may have
    /// given bytes, and they are gone.
    fn wrap_file_key(
        &self,
        alloc: Global,
        file_key: &FileKey,
        draw: &mut Draw,
    ) -> Result<(Vec<Stanza>, BTreeSet<String>), EncryptError>
        ensures { wraps self.now file_key.now draw.old (wrap_answer result) draw.new };
}

// What a boxed recipient answers is what the recipient in the box answers.
impl Recipient for Box<dyn Recipient> {
    ghost wraps = { λ recipient file_key draws answer left. (Recipient-box recipient).wraps recipient.value file_key draws answer left };

    fn wrap_file_key(
        &self,
        alloc: Global,
        file_key: &FileKey,
        draw: &mut Draw,
    ) -> Result<(Vec<Stanza>, BTreeSet<String>), EncryptError> {
        (**self).wrap_file_key(alloc, file_key, draw)
    }
}

// What a reference to a recipient answers is what the recipient answers.
impl<R: Recipient> Recipient for &R {
    ghost wraps = { λ recipient file_key draws answer left. R.wraps recipient.now file_key draws answer left };

    fn wrap_file_key(
        &self,
        alloc: Global,
        file_key: &FileKey,
        draw: &mut Draw,
    ) -> Result<(Vec<Stanza>, BTreeSet<String>), EncryptError> {
        R::wrap_file_key(*self, alloc, file_key, draw)
    }
}
