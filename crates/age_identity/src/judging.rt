//! What a line is.
ghost use Rattle.std.specs.Prelude.{◌≡◌, ℕ, List, IfOk, MatchOption};
ghost use Rattle.age_v1.specs.X25519.{identity_prefix, IsKeyText};
ghost use Rattle.age_keys.specs.PluginKeys.{PluginKey, IsPluginIdentity};
ghost use Rattle.age_identity.specs.Entries.{IsPassedOver};
ghost use Rattle.age_identity.specs.Judging.{IsJudged};

use crate::entry::IdentityFileEntry;
use age_keys::{plugin, x25519};
use std::alloc::{AllocError, Global};
use std::str::FromStr;

/// What was found of a line.
#[derive(Drop)]
pub(crate) enum Judged<S> {
    /// It is empty or a comment.
    Passed,
    /// It is the text of this entry.
    Found(IdentityFileEntry<S>),
    /// It is neither.
    Bad,
}

// The native identity of a text, if it is one's. It takes no memory.
fn native_of<S>(text: &str) -> Option<x25519::Identity<S>>
    ensures { MatchOption result ((secret : List ℕ) → IsKeyText identity_prefix text.now secret → ⊥)
        (λ secret. IsKeyText identity_prefix text.now secret) }
{
    match x25519::Identity::from_str(text) {
        Ok(identity) => Some(identity),
        Err(_) => None,
    }
}

// The identity of a plugin of a text, if it is one's.
fn plugin_of(alloc: Global, text: &str) -> Result<Option<plugin::Identity>, AllocError>
    ensures { IfOk result (λ found. MatchOption found ((key : PluginKey) → key.text ≡ text.now → IsPluginIdentity key → ⊥)
        (λ key. (key.text ≡ text.now) × IsPluginIdentity key)) }
{
    match plugin::Identity::from_str(alloc, text) {
        Ok(key) => Ok(Some(key)),
        Err(message) => {
            if message == "out of memory" {
                return Err(AllocError);
            }
            Ok(None)
        }
    }
}

// Judges a line that isn't passed over.
fn judge_text<S>(alloc: Global, text: &str) -> Result<Judged<S>, AllocError>
    requires { IsPassedOver text.now → ⊥ }
    ensures { IfOk result (λ judged. IsJudged judged text.now) }
{
    if let Some(identity) = native_of(text) {
        return Ok(Judged::Found(IdentityFileEntry::Native(identity)));
    }
    match plugin_of(alloc, text)? {
        Some(identity) => Ok(Judged::Found(IdentityFileEntry::Plugin(identity))),
        None => Ok(Judged::Bad),
    }
}

/// Judges a line without its end. It refuses for want of memory alone.
pub(crate) fn judge<S>(alloc: Global, line: &[u8]) -> Result<Judged<S>, AllocError>
    ensures { IfOk result (λ judged. IsJudged judged line.now) }
{
    let Ok(text) = str::from_utf8(line) else {
        return Ok(Judged::Bad);
    };
    if line.is_empty() || line.starts_with(b"#") {
        return Ok(Judged::Passed);
    }
    judge_text(alloc, text)
}
