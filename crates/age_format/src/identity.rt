//! Those who get file keys back from stanzas.
ghost use Rattle.std.specs.Prelude.{List, [], ◌∷◌};
ghost use Rattle.age_v1.specs.Stanza.{StanzaValue};
ghost use Rattle.age_format.specs.Unwrapping.{unwrap_answer};
ghost use Rattle.age_v1.specs.Identities.{UnwrapAnswer, Unwraps};
ghost use Rattle.age_format.specs.Boxed.{Changes};

use crate::stanza::Stanza;
use age_error::DecryptError;
use age_suite::secrecy::FileKey;
use std::alloc::Global;

/// One who may get a file key back from stanzas.
///
/// What an identity means is a relation, since the answer may depend on memory: it says which answers can be given, and
/// how the identity changes with each.
pub trait Identity: Drop {
    // Of the identity before the call and the stanzas: the answer, and the identity after it. An answer is none, the file
    // key, or a refusal, apart from where it lies in memory.
    ghost unwraps: { Self → List StanzaValue → UnwrapAnswer → Self → Type 0 };

    /// Answers to one stanza: `None` where it isn't one for this identity, the file key of 16 bytes where it is, or why
    /// the file key isn't to be had though it is. `OutOfMemory` where memory is refused.
    fn unwrap_stanza(
        &mut self,
        alloc: Global,
        stanza: &Stanza,
    ) -> Option<Result<FileKey, DecryptError>>
        ensures { unwraps self.old (stanza.now ∷ []) (unwrap_answer result) self.new };

    /// Answers to the stanzas of a header: `None` where none of them is for this identity.
    ///
    /// Unless an identity goes through them in a way of its own, it answers to one after the other. The first answer that
    /// isn't `None`, a refusal too, is the answer, and the stanzas after that one aren't looked at.
    fn unwrap_stanzas(
        &mut self,
        alloc: Global,
        stanzas: &[Stanza],
    ) -> Option<Result<FileKey, DecryptError>>
        ensures { Unwraps unwraps self.old stanzas.now (unwrap_answer result) self.new }
    {
        let mut rest = stanzas;
        while let Some((stanza, tail)) = rest.split_first() {
            if let Some(answer) = self.unwrap_stanza(alloc, stanza) {
                return Some(answer);
            }
            rest = tail;
        }
        None
    }
}

// What a boxed identity answers to one stanza, and how the identity in the box changes.
fn unwrap_stanza_in_box(
    alloc: Global,
    identity: &mut Box<dyn Identity>,
    stanza: &Stanza,
) -> Option<Result<FileKey, DecryptError>>
    ensures { Changes identity.old (λ before after. Unwraps (Identity-box identity.old).unwraps before (stanza.now ∷ [])
        (unwrap_answer result) after) identity.new }
{
    (**identity).unwrap_stanza(alloc, stanza)
}

// The same of several stanzas.
fn unwrap_stanzas_in_box(
    alloc: Global,
    identity: &mut Box<dyn Identity>,
    stanzas: &[Stanza],
) -> Option<Result<FileKey, DecryptError>>
    ensures { Changes identity.old (λ before after. Unwraps (Identity-box identity.old).unwraps before stanzas.now (unwrap_answer result) after)
        identity.new }
{
    (**identity).unwrap_stanzas(alloc, stanzas)
}

// What a boxed identity does is what the identity in the box does.
impl Identity for Box<dyn Identity> {
    ghost unwraps = { λ identity stanzas answer after. Changes identity
        (λ before after. Unwraps (Identity-box identity).unwraps before stanzas answer after) after };

    fn unwrap_stanza(
        &mut self,
        alloc: Global,
        stanza: &Stanza,
    ) -> Option<Result<FileKey, DecryptError>> {
        unwrap_stanza_in_box(alloc, self, stanza)
    }

    fn unwrap_stanzas(
        &mut self,
        alloc: Global,
        stanzas: &[Stanza],
    ) -> Option<Result<FileKey, DecryptError>> {
        unwrap_stanzas_in_box(alloc, self, stanzas)
    }
}
