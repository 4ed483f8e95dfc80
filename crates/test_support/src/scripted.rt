//! A recipient and an identity for tests, whose answers are given.

ghost use Rattle.std.specs.Prelude.{◌≡◌, ◌+◌, ◌-◌, ◌^◌, false, min};

use age_error::decrypt::DecryptError;
use age_error::encrypt::EncryptError;
use age_format::{Identity, Recipient, Stanza};
use age_suite::draw::Draw;
use age_suite::secrecy::FileKey;
use std::alloc::Global;
use std::collections::BTreeSet;

/// Answers one stanza of a tag whose body is the file key, or none, after it drew 32 bytes where it draws, with labels.
#[derive(Drop)]
pub struct ScriptedRecipient {
    pub tag: Option<String>,
    pub draws: bool,
    pub labels: BTreeSet<String>,
}

impl Recipient for ScriptedRecipient {
    ghost wraps = { λ recipient _ before _ left. recipient.draws ≡ false → left ≡ before };

    fn wrap_file_key(
        &self,
        alloc: Global,
        file_key: &FileKey,
        draw: &mut Draw,
    ) -> Result<(Vec<Stanza>, BTreeSet<String>), EncryptError> {
        if self.draws && draw.take::<32>().is_none() {
            return Err(EncryptError::ShortRandom);
        }
        let mut stanzas = Vec::new(alloc);
        if let Some(tag) = &self.tag {
            let body = Vec::from_slice(alloc, file_key.expose_secret())?;
            if let Some(stanza) = Stanza::new(tag.clone()?, Vec::new(alloc), body) {
                stanzas.push(stanza)?;
            }
        }
        Ok((stanzas, self.labels.clone()?))
    }
}

/// What an identity answers.
#[derive(Clone, Copy, Drop)]
pub enum Script {
    Nothing,
    Refusal,
    /// A key of 16 times the number of the times that it was asked, this one too.
    TimesAsked,
}

/// Answers by its script, and counts how often it was asked.
#[derive(Drop)]
pub struct ScriptedIdentity {
    pub script: Script,
    pub asked: u8,
}

impl Identity for ScriptedIdentity {
    ghost unwraps = { λ before _ _ after. (after.script ≡ before.script) × (after.asked ≡ min (before.asked + 1) (2 ^ 8 - 1)) };

    fn unwrap_stanza(
        &mut self,
        _alloc: Global,
        _stanza: &Stanza,
    ) -> Option<Result<FileKey, DecryptError>> {
        self.asked = self.asked.saturating_add(1);
        match self.script {
            Script::Nothing => None,
            Script::Refusal => Some(Err(DecryptError::DecryptionFailed)),
            Script::TimesAsked => Some(Ok(FileKey::new([self.asked; 16]))),
        }
    }
}
