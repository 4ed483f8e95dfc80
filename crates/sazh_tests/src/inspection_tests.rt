//! What a file shows without a key. The lengths are those of the standard's section "Payload", worked by hand.

use age::format::Stanza;
use age::io::Bytes;
use sazh_core::error::InspectionError;
use sazh_core::inspecting::{Inspection, Lengths, inspect};
use sazh_core::inspection_json::inspection_json;
use std::alloc::Global;
use std::process::Abort;
use std::test::Fail;
use test_support::answers::is_refusal;

// A header of two stanzas: one with an argument and a body of 32 bytes of 0, and one of grease with two arguments and no body; its MAC is 32
// bytes of 0. The lines have 22, 54, 44, 18, 1 and 48 bytes.
const HEADER: &[u8] = b"age-encryption.org/v1
-> X25519 AAAAAAAAAAAAAAAAAAAAAAAAAAAAAAAAAAAAAAAAAAA
AAAAAAAAAAAAAAAAAAAAAAAAAAAAAAAAAAAAAAAAAAA
-> x-grease one 2

--- AAAAAAAAAAAAAAAAAAAAAAAAAAAAAAAAAAAAAAAAAAA
";

// The same with a stanza of a passphrase beside another.
const BESIDE: &[u8] = b"age-encryption.org/v1
-> scrypt AAAAAAAAAAAAAAAAAAAAAA 10
AAAAAAAAAAAAAAAAAAAAAAAAAAAAAAAAAAAAAAAAAAA
-> x-grease one 2

--- AAAAAAAAAAAAAAAAAAAAAAAAAAAAAAAAAAAAAAAAAAA
";

// A header and so many bytes.
fn file(alloc: Global, header: &[u8], rest: usize) -> Result<Vec<u8>, Fail> {
    let mut file = Vec::from_slice(alloc, header)?;
    file.resize(header.len().saturating_add(rest), 7)?;
    Ok(file)
}

// What is told of a file.
fn told(alloc: Global, file: &[u8]) -> Option<Inspection> {
    match inspect(alloc, Bytes::new(file)) {
        Ok(inspection) => Some(inspection),
        Err(_) => None,
    }
}

// Whether these lengths are told of so many bytes after the header.
fn has_lengths(alloc: Global, rest: usize, wanted: Option<Lengths>) -> Result<bool, Fail> {
    let file = file(alloc, HEADER, rest)?;
    match told(alloc, &file) {
        None => Ok(false),
        Some(it) => Ok(it.rest_length == rest as u64 && it.lengths == wanted),
    }
}

// So many bytes, chunks, and bytes of plaintext.
fn lengths(payload: u64, chunks: u64, plaintext: u64) -> Option<Lengths> {
    Some(Lengths {
        payload,
        chunks,
        plaintext,
    })
}

#[test]
fn lengths_of_payloads(rt: HostRuntime) -> Result<(), Fail> {
    let alloc = rt.alloc();
    assert!(rt; has_lengths(alloc, 32, lengths(16, 1, 0))?);
    assert!(rt; has_lengths(alloc, 33, lengths(17, 1, 1))?);
    assert!(rt; has_lengths(alloc, 65_568, lengths(65_552, 1, 65_536))?);
    assert!(rt; has_lengths(alloc, 65_585, lengths(65_569, 2, 65_537))?);
    assert!(rt; has_lengths(alloc, 131_120, lengths(131_104, 2, 131_072))?);
    Ok(())
}

// How many bytes follow no header: too few for a nonce or a tag, and a last chunk that is empty or less beside another.
const NO_LENGTHS: [usize; 6] = [0, 15, 16, 31, 65_569, 65_584];

#[test]
fn lengths_of_no_payload(rt: HostRuntime) -> Result<(), Fail> {
    for rest in NO_LENGTHS {
        assert!(rt; has_lengths(rt.alloc(), rest, None)?);
    }
    Ok(())
}

// Whether a stanza has this tag, so many arguments, and so many bytes.
fn is_stanza(stanza: Option<&Stanza>, tag: &str, args: usize, body: usize) -> bool {
    match stanza {
        None => false,
        Some(it) => it.tag() == tag && it.args().len() == args && it.body().len() == body,
    }
}

#[test]
fn header_is_told(rt: HostRuntime) -> Result<(), Fail> {
    let alloc = rt.alloc();
    let file = file(alloc, HEADER, 40)?;
    let Some(it) = told(alloc, &file) else {
        return Err(Fail::from("a refusal"));
    };
    let stanzas = it.header.stanzas();
    assert!(rt; stanzas.len() == 2 && is_stanza(stanzas.first(), "X25519", 1, 32));
    assert!(rt; is_stanza(stanzas.last(), "x-grease", 2, 0) && it.header.mac() == &[0; 32]);
    assert!(rt; it.header_length == 187 && it.keeps_rule);
    Ok(())
}

#[test]
fn stanza_of_a_passphrase_beside_another_is_told(rt: HostRuntime) -> Result<(), Fail> {
    let file = file(rt.alloc(), BESIDE, 40)?;
    assert!(rt; told(rt.alloc(), &file).is_some_and(|it| !it.keeps_rule));
    Ok(())
}

// How many bytes were read where a header was refused.
fn read_by_then(alloc: Global, file: &[u8]) -> Option<u64> {
    match inspect(alloc, Bytes::new(file)) {
        Err(InspectionError::Header { count, why: _ }) => Some(count),
        _ => None,
    }
}

#[test]
fn fault_of_a_header_has_its_place(rt: HostRuntime) {
    let alloc = rt.alloc();
    assert!(rt; read_by_then(alloc, b"hello, this is no file of the format") == Some(1));
    assert!(rt; read_by_then(alloc, b"age-encryption.org/v2\n-> of another version") == Some(22));
    assert!(rt;
        read_by_then(
            alloc,
            b"age-encryption.org/v1\n-> x\r\n-> of lines with CRLF"
        ) == Some(27)
    );
    let answer = inspect(alloc, Bytes::new(b"hello, this is no file of the format"));
    assert!(rt; is_refusal(alloc, answer, "invalid header"));
}

// The armor of a header that is cut in its second line, of 30 bytes, by another implementation of base64.
const CUT: &[u8] = b"-----BEGIN AGE ENCRYPTED FILE-----
YWdlLWVuY3J5cHRpb24ub3JnL3YxCi0+IFgyNTUx
-----END AGE ENCRYPTED FILE-----
";

#[test]
fn places_are_counted_in_what_armor_carries(rt: HostRuntime) {
    assert!(rt; read_by_then(rt.alloc(), CUT) == Some(30));
}

// What is told of the header above and 40 bytes after it, as another implementation of JSON writes it, in the order of the names.
const JSON: [&str; 3] = [
    "{\"header_length\":187,\"keeps_rule\":true,\"payload\":{\"chunks\":1,\"length\":24,\"plaintext_length\":8},\"rest_length\":40,",
    "\"stanzas\":[{\"arguments\":[\"AAAAAAAAAAAAAAAAAAAAAAAAAAAAAAAAAAAAAAAAAAA\"],\"body_length\":32,\"type\":\"X25519\"},",
    "{\"arguments\":[\"one\",\"2\"],\"body_length\":0,\"type\":\"x-grease\"}],\"version\":\"age-encryption.org/v1\"}",
];

#[test]
fn inspection_is_json(rt: HostRuntime) -> Result<(), Fail> {
    let alloc = rt.alloc();
    let mut wanted = String::new(alloc);
    for part in JSON {
        wanted.push_str(part)?;
    }
    let file = file(alloc, HEADER, 40)?;
    let Some(it) = told(alloc, &file) else {
        return Err(Fail::from("a refusal"));
    };
    let text = inspection_json(alloc, &it)?;
    assert!(rt; text.as_str() == wanted.as_str());
    Ok(())
}
