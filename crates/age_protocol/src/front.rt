//! What stands before the payload: a header, whose stanzas keep the rule on passphrases, and a nonce.
ghost use Rattle.age_protocol.specs.Decrypting.{ReadsNonce};

use age_error::DecryptError;
use age_error::bytes::known_array;
use age_format::{Stanza, keeps_scrypt_rule};
use age_io::{Read, read_exact};

/// Reads the nonce of 16 bytes that follows a header of these stanzas. `InvalidHeader` comes after that where a stanza with the
/// tag `scrypt` stands beside another.
pub(crate) fn read_nonce<R: Read>(
    reader: &mut R,
    stanzas: &[Stanza],
) -> Result<[u8; 16], DecryptError>
    ensures { ReadsNonce ⟦<R as Read>⟧ stanzas.now reader.old reader.new result }
{
    let mut nonce = [0; 16];
    read_exact(reader, &mut nonce)?;
    // For the proof alone: these are bytes, each below 256.
    known_array(&nonce);
    if !keeps_scrypt_rule(stanzas) {
        return Err(DecryptError::InvalidHeader);
    }
    Ok(nonce)
}
