//! Keys.
ghost use Rattle.std.specs.Prelude.{ℕ, List, Result};
ghost use Rattle.age.specs.Types.{EncryptError as encrypt_error};
ghost use Rattle.age_files.specs.Keys.{MakesKey, TellsRecipients};
ghost use Rattle.age_files.specs.Status;
ghost use Rattle.age_slices.specs.Handing.{HandsOutAnswer};
ghost use Rattle.age_slices.specs.Status.{of_encrypt as encrypt_status};
ghost use Rattle.sazh_core.specs.declared.error.IdentitiesError.{IdentitiesError as identities_error};

use age::armor::ArmoredReader;
use age::io::{BufReader, Bytes, Read};
use age::suite::Suite;
use age_files::keys::{new_key_out, recipients_text_out};
use age_standard::StandardSuite;
use std::alloc::Global;

/// Makes the text of a new key, as `new_key_out` does.
#[unsafe(no_mangle)]
pub extern "C" fn age_keygen(
    alloc: Global,
    random: &[u8],
    out: &mut [u8],
    written: &mut usize,
) -> u32
    ensures { (answer : Result (List ℕ) encrypt_error) × MakesKey ⟦<StandardSuite as Suite>⟧.public_of random.now answer
        × HandsOutAnswer encrypt_status answer out.old out.new written.new result }
{
    new_key_out::<StandardSuite>(alloc, random, out, written)
}

/// Tells the recipients of the identities in a text, as `recipients_text_out` does.
#[unsafe(no_mangle)]
pub extern "C" fn age_recipient_of<'a>(
    alloc: Global,
    identities: &'a [u8],
    out: &mut [u8],
    written: &mut usize,
) -> u32
    ensures { (answer : Result (List ℕ) identities_error)
        × TellsRecipients ⟦<ArmoredReader<BufReader<Bytes<'a>>> as Read>⟧ ⟦<StandardSuite as Suite>⟧ identities.now answer
        × HandsOutAnswer Status.of_identities answer out.old out.new written.new result }
{
    recipients_text_out::<StandardSuite>(alloc, identities, out, written)
}
