//! Identities of plugins.
ghost use Rattle.std.specs.Prelude.{◌≡◌, ◌⊎◌, ◌++◌, [], ◌∷◌, IfOk, MatchResult, string_bytes};
ghost use Rattle.age_error.specs.ResolveErrors.{resolve_refusal, InvalidPluginName, OutOfMemory};
ghost use Rattle.age_bech32.specs.Bech32.{IsBech32};
ghost use Rattle.age_bech32.specs.Written.{bech32_text};
ghost use Rattle.age_keys.specs.PluginKeys.{identity_front, IsDefault, IsPluginIdentity, RefusesDefault, RefusesIdentity};

use crate::plugin::names::{between, name_in, prefix_of, without_hyphens};
use age_bech32::encode;
use age_error::resolve::ResolveError;
use std::alloc::{AllocError, Global};
use std::fmt;
use std::marker::Model;

// A prefix has at most 83 bytes, of which 12 aren't the name's.
const MOST_BYTES: usize = 71;

/// One whom a plugin unwraps file keys for. No plugin is started here: a key tells which one it needs. In contracts it is a record of the
/// plugin's name and of its own text.
#[derive(Drop)]
pub struct Identity {
    name: String,
    text: String,
}

impl Model for Identity {
    ghost use Rattle.std.specs.Prelude.{string_bytes};
    ghost use Rattle.age_keys.specs.PluginKeys.{PluginKey, IsPluginIdentity};

    ghost Value = { PluginKey };

    ghost view = { λ key. record { name = string_bytes key.name; text = string_bytes key.text } };

    ghost invariant = { λ key. IsPluginIdentity (record { name = string_bytes key.name; text = string_bytes key.text }) };
}

// The refusal of a name, or of memory for it.
fn invalid_name(alloc: Global, name: &str) -> ResolveError
    ensures { let refusal = resolve_refusal result in (refusal ≡ InvalidPluginName name.now) ⊎ (refusal ≡ OutOfMemory) }
{
    match String::from_str(alloc, name) {
        Ok(name) => ResolveError::InvalidPluginName { name },
        Err(_) => ResolveError::OutOfMemory,
    }
}

// The text of an identity without bytes, of a plugin's name in upper case. Its prefix may be written, so what is refused is memory.
fn default_text(alloc: Global, upper: &str) -> Result<String, ResolveError>
    ensures { let prefix = identity_front ++ upper.now ++ 45 ∷ [] in MatchResult result
        (λ text. IsBech32 (string_bytes text) prefix [] × (string_bytes text ≡ bech32_text prefix []))
        (λ e. resolve_refusal e ≡ OutOfMemory) }
{
    let mut prefix = String::from_str(alloc, "AGE-PLUGIN-")?;
    prefix.push_str(upper)?;
    prefix.push('-')?;
    match encode(alloc, prefix.as_str(), &[]) {
        Ok(text) => Ok(text),
        Err(_) => Err(ResolveError::OutOfMemory),
    }
}

impl Identity {
    /// Reads the text of an identity. What it is refused with, in this order:
    ///
    /// - `invalid Bech32 encoding`: it is no Bech32 (BIP 173) of any length.
    /// - `invalid HRP`: its prefix isn't longer than `AGE-PLUGIN-` with that beginning, in upper case, or doesn't end in a hyphen.
    /// - `invalid plugin name`: what stands between, without hyphens at its end, isn't one or more ASCII letters, digits, `+`, `-`,
    ///   `.` and `_`.
    /// - `out of memory`: it is a key of that form, and memory was refused.
    pub fn from_str(alloc: Global, text: &str) -> Result<Identity, &'static str>
        ensures { MatchResult result (λ key. (key.text ≡ text.now) × IsPluginIdentity key) (λ message. RefusesIdentity text.now message.now) }
    {
        let Some(prefix) = prefix_of(text) else {
            return Err("invalid Bech32 encoding");
        };
        let Some(before) = between(prefix.as_bytes(), b"AGE-PLUGIN-") else {
            return Err("invalid HRP");
        };
        let Some(name) = name_in(without_hyphens(before)) else {
            return Err("invalid plugin name");
        };
        let Ok(name) = name.to_ascii_lowercase(alloc) else {
            return Err("out of memory");
        };
        match String::from_str(alloc, text) {
            Ok(text) => Ok(Identity { name, text }),
            Err(_) => Err("out of memory"),
        }
    }

    /// The identity of a plugin that needs no bytes: the one whose text has the name in upper case and no bytes.
    ///
    /// # Errors
    ///
    /// - `InvalidPluginName`: the name isn't one or more ASCII letters, digits, `+`, `-`, `.` and `_`, is hyphens alone, or has more
    ///   than 71 bytes.
    /// - `OutOfMemory`: memory was refused.
    pub fn default_for_plugin(alloc: Global, name: &str) -> Result<Identity, ResolveError>
        ensures { MatchResult result (IsDefault name.now) (λ e. RefusesDefault name.now (resolve_refusal e)) }
    {
        if name.len() > MOST_BYTES {
            return Err(invalid_name(alloc, name));
        }
        let upper = name.to_ascii_uppercase(alloc)?;
        let Some(front) = name_in(without_hyphens(upper.as_bytes())) else {
            return Err(invalid_name(alloc, name));
        };
        let text = default_text(alloc, upper.as_str())?;
        let name = front.to_ascii_lowercase(alloc)?;
        Ok(Identity { name, text })
    }

    /// The name of the plugin, in lower case.
    pub fn plugin(&self) -> &str
        ensures { result.now ≡ self.now.name }
    {
        self.name.as_str()
    }

    /// The same key in memory of its own, from the first one's allocator. `AllocError` where that is refused.
    pub fn clone(&self) -> Result<Identity, AllocError>
        ensures { IfOk result (λ key. key ≡ self.now) }
    {
        let name = self.name.clone()?;
        let text = self.text.clone()?;
        Ok(Identity { name, text })
    }
}

impl fmt::Display for Identity {
    ghost use Rattle.std.specs.Prelude.{Some};

    ghost output = { λ key. Some (key.text) };

    /// The text that was read.
    fn fmt<W: fmt::Write>(&self, f: &mut fmt::Formatter<W>) -> fmt::Result {
        f.write_str(self.text.as_str())
    }
}
