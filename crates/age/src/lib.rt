//! Encrypted files of the format age-encryption.org/v1, proved.
//!
//! This crate only passes on what the crates below it have, under the paths that a user names. So a crate that names `age`
//! alone has all that a contract here speaks of: the definitions stand under `Rattle.age.specs`, and what is true of them is
//! cited by calling the functions of the modules `laws`, which do nothing.
#![tactic(auto)]

pub use age_error::decrypt::DecryptError;
pub use age_error::encrypt::EncryptError;
pub use age_format::{Identity, Recipient};
pub use age_identity::{Callbacks, IdentityFile, IdentityFileConvertError, NoCallbacks};
pub use age_protocol::decryptor::Decryptor;
pub use age_protocol::encryptor::Encryptor;
pub use age_protocol::simple::{decrypt, encrypt, encrypt_and_armor};

/// What is true of files, for proofs alone.
pub mod laws {
    pub use age_protocol::laws::{
        carried_files, file_opens, files_carry_themselves, front_is_accepted, front_reads_back,
        labels_are_sets, one_plaintext, passphrase_files, several_recipients,
    };
}

/// Whole files from readers to writers in flat memory, files opened for reads and seeks, and parts of their plaintexts.
pub mod streaming {
    pub use age_error::FileError;
    pub use age_protocol::migrate::migrate;
    pub use age_protocol::opening::{answers, open_file, open_file_by_one, open_text};
    pub use age_protocol::part::{at, write_part};
    pub use age_protocol::payload::{open_all, seal_all};
    pub use age_protocol::whole::{decrypt_all, encrypt_all};
}

/// Readers, writers and their refusals.
pub mod io {
    pub use age_error::io::{Error, ErrorKind, SeekFrom};
    pub use age_io::{
        Answer, BufRead, BufReader, Bytes, IntoStd, Op, Read, Seek, Std, Write, copy_all,
        copy_some, device_error, fill, flush_retrying, is_outside, place_at, read_exact,
        read_retrying, read_to_end, room_for, run, seek_retrying, sought, standard_error,
        unrefused, write_all, write_retrying,
    };

    /// What is true of a cursor on a list, for proofs alone.
    pub mod laws {
        pub use age_io::cursor_laws;
    }
}

/// The primitives that a user hands in, with their laws.
pub mod suite {
    pub use age_error::suite::ScryptError;
    pub use age_suite::suite::{Opens, Suite};

    /// What is true of bytes, for proofs alone.
    pub mod laws {
        pub use age_error::bytes::{known_array, known_bytes};
    }
}

/// Message authentication and the derivation of keys.
pub mod mac {
    pub use age_suite::mac::{HmacWriter, hkdf, hmac};

    /// What is true of MACs and derived keys, for proofs alone.
    pub mod laws {
        pub use age_suite::mac::{hmac_laws, mac_laws};
    }
}

/// Random bytes that are handed in.
pub mod draw {
    pub use age_suite::draw::Draw;
}

/// Values that are kept secret.
pub mod secrecy {
    pub use age_suite::secrecy::{FileKey, SecretString};
}

/// Stanzas and headers.
pub mod format {
    pub use age_format::{Grease, HeaderV1, OldHeader, Stanza, is_string, keeps_scrypt_rule};

    /// What is true of stanzas and headers, for proofs alone.
    pub mod laws {
        pub use age_format::{
            canonical_text_is_text, canonical_text_reads_back, covered_front,
            equal_stanzas_are_same, header_text_is_canonical, header_text_reads_back,
            header_text_tells, verdict_is_unique,
        };
    }
}

/// The ASCII form of a file.
pub mod armor {
    pub use age_armor::{ArmoredReader, ArmoredWriter, Format};
    pub use age_error::io::ArmoredReadError;

    /// What is true of texts in armor, for proofs alone.
    pub mod laws {
        pub use age_armor::{
            armor_is_carrying, armor_is_text, armor_length, carried_is_delivered,
            carried_is_unique, delivered_is_carried, first_fault_is_unique, sent_law,
            verdict_is_unique,
        };
    }
}

/// Native keys: X25519 recipients and identities.
pub mod x25519 {
    pub use age_keys::x25519::{Identity, Recipient};

    /// What is true of them, for proofs alone.
    pub mod laws {
        pub use age_keys::text_laws;
        pub use age_keys::x25519::{known_identity, known_recipient, x25519_laws, x25519_pair};
    }
}

/// Passphrases: recipients and identities of the type scrypt.
pub mod scrypt {
    pub use age_keys::scrypt::{Identity, Recipient};

    /// What is true of them, for proofs alone.
    pub mod laws {
        pub use age_keys::scrypt::{scrypt_pair, scrypt_unopened};
    }
}

/// Readers with a limit.
pub mod util {
    pub use age_identity::util::LimitedReader;
}

/// Identity files that are encrypted with a passphrase.
pub mod encrypted {
    pub use age_encrypted::{EncryptedIdentity, Identity, NotOpened};

    /// What is true of them, for proofs alone.
    pub mod laws {
        pub use age_encrypted::laws::opened_files;
    }
}

/// Texts of the keys of plugins, and what a plugin's name is refused with.
pub mod plugin {
    pub use age_error::resolve::ResolveError;
    pub use age_keys::plugin::{Identity, Recipient};
}

/// The texts of keys, of any prefix and length.
pub mod bech32 {
    pub use age_bech32::{Bech32Error, decode, decode_array, encode, encode_array};

    /// What is true of them, for proofs alone.
    pub mod laws {
        pub use age_bech32::bech32_laws;
    }
}

/// The payload of a file: the plaintext in sealed chunks.
pub mod stream {
    pub use age_stream::nonce::nonce_of;
    pub use age_stream::reader::StreamReader;
    pub use age_stream::sizes::{CHUNK, LONGEST_PLAINTEXT, MOST_CHUNKS, PIECE};
    pub use age_stream::writer::{ChunkRoom, StreamWriter};

    /// What is true of payloads, of their readers and of their writers, for proofs alone.
    pub mod laws {
        pub use age_stream::laws::{
            delivery_laws, payload_laws, piece_law, reader_law, sent_law, writer_law,
        };
    }
}
