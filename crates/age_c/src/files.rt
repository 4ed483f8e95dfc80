//! Whole files.
ghost use Rattle.std.specs.Prelude.{◌≡◌, ℕ, List, vec_items, Result};
ghost use Rattle.age.specs.Types.{FileError as file_error};
ghost use Rattle.age_c.specs.Forms.{form};
ghost use Rattle.age_files.specs.Decrypting.{DecryptsUnder};
ghost use Rattle.age_files.specs.Encrypting.{EncryptsTo, EncryptsUnder};
ghost use Rattle.age_files.specs.Status;
ghost use Rattle.age_slices.specs.Decrypting.{AreIdentities, DecryptsBytesBy, RefusesIdentityText};
ghost use Rattle.age_slices.specs.Handing.{HandsOutAnswer};
ghost use Rattle.age_slices.specs.Status.{of_file as file_status};
ghost use Rattle.sazh_core.specs.declared.error.CommandError.{CommandError as command_error};
ghost use Rattle.sazh_core.specs.declared.error.GivenError.{GivenError as given_error};
ghost use Rattle.sazh_core.specs.declared.error.PassphraseError.{PassphraseError as passphrase_error};
ghost use Rattle.sazh_core.specs.declared.error.RecipientsError.{RecipientsError as recipients_error};

use age::armor::Format;
use age::io::{Bytes, Read, Write};
use age::suite::Suite;
use age::{Identity, Recipient, scrypt, x25519};
use age_files::decrypting::decrypt_with_out;
use age_files::encrypting::{encrypt_to_out, encrypt_with_out};
use age_slices::decrypting::decrypt_by_out;
use age_standard::StandardSuite;
use std::alloc::Global;

// The form of a file: its armor, or the file itself.
fn format_of(armored: bool) -> Format
    ensures { result ≡ form armored }
{
    if armored {
        Format::AsciiArmor
    } else {
        Format::Binary
    }
}

/// Encrypts a plaintext to the recipients in a text, as `encrypt_to_out` does.
#[unsafe(no_mangle)]
pub extern "C" fn age_encrypt(
    alloc: Global,
    recipients: &[u8],
    random: &[u8],
    armored: bool,
    plain: &[u8],
    out: &mut [u8],
    written: &mut usize,
) -> u32
    ensures { (answer : Result (List ℕ) (given_error recipients_error command_error))
        × EncryptsTo ⟦<x25519::Recipient<StandardSuite> as Recipient>⟧.wraps ⟦<StandardSuite as Suite>⟧.seal_of recipients.now random.now
        (form armored) plain.now answer
        × HandsOutAnswer (Status.of_given Status.of_recipients Status.of_command) answer out.old out.new written.new result }
{
    encrypt_to_out::<StandardSuite>(
        alloc,
        recipients,
        random,
        format_of(armored),
        plain,
        out,
        written,
    )
}

/// Encrypts a plaintext with the passphrase that a text gives, as `encrypt_with_out` does.
#[unsafe(no_mangle)]
pub extern "C" fn age_encrypt_passphrase(
    alloc: Global,
    passphrase: &[u8],
    random: &[u8],
    armored: bool,
    plain: &[u8],
    out: &mut [u8],
    written: &mut usize,
) -> u32
    ensures { (answer : Result (List ℕ) (given_error passphrase_error command_error))
        × EncryptsUnder ⟦<scrypt::Recipient<StandardSuite> as Recipient>⟧.wraps ⟦<StandardSuite as Suite>⟧.seal_of passphrase.now random.now
        (form armored) plain.now answer
        × HandsOutAnswer (Status.of_given Status.of_passphrase Status.of_command) answer out.old out.new written.new result }
{
    encrypt_with_out::<StandardSuite>(
        alloc,
        passphrase,
        random,
        format_of(armored),
        plain,
        out,
        written,
    )
}

/// Decrypts a file by the identities in a text, as `decrypt_by_out` does.
#[unsafe(no_mangle)]
pub extern "C" fn age_decrypt<'a>(
    alloc: Global,
    identities: &[u8],
    file: &'a [u8],
    out: &mut [u8],
    written: &mut usize,
) -> u32
    ensures { (answer : Result (List ℕ) file_error)
        × DecryptsBytesBy ⟦<x25519::Identity<StandardSuite> as Identity>⟧.unwraps ⟦<StandardSuite as Suite>⟧ ⟦<Bytes<'a> as Read>⟧
        ⟦<Vec<u8> as Write>⟧ vec_items
        (RefusesIdentityText identities.now) (AreIdentities identities.now) file.now answer
        × HandsOutAnswer file_status answer out.old out.new written.new result }
{
    decrypt_by_out::<StandardSuite>(alloc, identities, file, out, written)
}

/// Decrypts a file by the passphrase that a text gives, as `decrypt_with_out` does.
#[unsafe(no_mangle)]
pub extern "C" fn age_decrypt_passphrase<'a>(
    alloc: Global,
    passphrase: &[u8],
    file: &'a [u8],
    out: &mut [u8],
    written: &mut usize,
) -> u32
    ensures { (answer : Result (List ℕ) (given_error passphrase_error file_error))
        × DecryptsUnder ⟦<scrypt::Identity<StandardSuite> as Identity>⟧.unwraps ⟦<StandardSuite as Suite>⟧ ⟦<Bytes<'a> as Read>⟧
        ⟦<Vec<u8> as Write>⟧ vec_items
        passphrase.now file.now answer
        × HandsOutAnswer (Status.of_given Status.of_passphrase file_status) answer out.old out.new written.new result }
{
    decrypt_with_out::<StandardSuite>(alloc, passphrase, file, out, written)
}
