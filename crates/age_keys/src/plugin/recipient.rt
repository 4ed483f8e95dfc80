//! Recipients of plugins.
ghost use Rattle.std.specs.Prelude.{◌≡◌, IfOk, MatchResult};
ghost use Rattle.age_keys.specs.PluginKeys.{IsPluginRecipient, RefusesRecipient};

use crate::plugin::names::{after_front, name_in, prefix_of};
use std::alloc::{AllocError, Global};
use std::fmt;
use std::marker::Model;

/// One to whom a plugin wraps file keys. No plugin is started here: a key tells which one it needs. In contracts it is a record of the
/// plugin's name and of its own text.
#[derive(Drop)]
pub struct Recipient {
    name: String,
    text: String,
}

impl Model for Recipient {
    ghost use Rattle.std.specs.Prelude.{string_bytes};
    ghost use Rattle.age_keys.specs.PluginKeys.{PluginKey, IsPluginRecipient};

    ghost Value = { PluginKey };

    ghost view = { λ key. record { name = string_bytes key.name; text = string_bytes key.text } };

    ghost invariant = { λ key. IsPluginRecipient (record { name = string_bytes key.name; text = string_bytes key.text }) };
}

impl Recipient {
    /// Reads the text of a recipient. What it is refused with, in this order:
    ///
    /// - `invalid Bech32 encoding`: it is no Bech32 (BIP 173) of any length.
    /// - `invalid HRP`: its prefix isn't longer than `age1` with that beginning, in lower case.
    /// - `invalid plugin name`: what follows there isn't of ASCII letters, digits, `+`, `-`, `.` and `_`.
    /// - `out of memory`: it is a key of that form, and memory was refused.
    pub fn from_str(alloc: Global, text: &str) -> Result<Recipient, &'static str>
        ensures { MatchResult result (λ key. (key.text ≡ text.now) × IsPluginRecipient key) (λ message. RefusesRecipient text.now message.now) }
    {
        let Some(prefix) = prefix_of(text) else {
            return Err("invalid Bech32 encoding");
        };
        let Some(rest) = after_front(prefix.as_bytes(), b"age1") else {
            return Err("invalid HRP");
        };
        if rest.is_empty() {
            return Err("invalid HRP");
        }
        let Some(name) = name_in(rest) else {
            return Err("invalid plugin name");
        };
        let Ok(name) = String::from_str(alloc, name) else {
            return Err("out of memory");
        };
        match String::from_str(alloc, text) {
            Ok(text) => Ok(Recipient { name, text }),
            Err(_) => Err("out of memory"),
        }
    }

    /// The name of the plugin, as it stands in the text.
    pub fn plugin(&self) -> &str
        ensures { result.now ≡ self.now.name }
    {
        self.name.as_str()
    }

    /// The same key in memory of its own, from the first one's allocator. `AllocError` where that is refused.
    pub fn clone(&self) -> Result<Recipient, AllocError>
        ensures { IfOk result (λ key. key ≡ self.now) }
    {
        let name = self.name.clone()?;
        let text = self.text.clone()?;
        Ok(Recipient { name, text })
    }
}

impl fmt::Display for Recipient {
    ghost use Rattle.std.specs.Prelude.{Some};

    ghost output = { λ key. Some (key.text) };

    /// The text that was read.
    fn fmt<W: fmt::Write>(&self, f: &mut fmt::Formatter<W>) -> fmt::Result {
        f.write_str(self.text.as_str())
    }
}
