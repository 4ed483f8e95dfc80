//! What a file shows without a key, as JSON.

use crate::inspecting::{Inspection, Lengths};
use age::format::Stanza;
use serde_json::{Value, json};
use std::alloc::{AllocError, Global};

// A list of texts.
fn json_of_texts(alloc: Global, texts: &[String]) -> Result<Value, AllocError> {
    let mut all = Vec::new(alloc);
    for text in texts {
        let copy = text.clone()?;
        all.push(Value::from(copy))?;
    }
    Ok(Value::from(all))
}

// A stanza.
fn json_of_stanza(alloc: Global, stanza: &Stanza) -> Result<Value, AllocError> {
    let tag = String::from_str(alloc, stanza.tag())?;
    let arguments = json_of_texts(alloc, stanza.args())?;
    let body_length = stanza.body().len();
    json!(in alloc; {"type": tag, "arguments": arguments, "body_length": body_length})
}

// Stanzas, in their order.
fn json_of_stanzas(alloc: Global, stanzas: &[Stanza]) -> Result<Value, AllocError> {
    let mut all = Vec::new(alloc);
    for stanza in stanzas {
        all.push(json_of_stanza(alloc, stanza)?)?;
    }
    Ok(Value::from(all))
}

// The lengths of a payload, or `null`.
fn json_of_lengths(alloc: Global, lengths: Option<Lengths>) -> Result<Value, AllocError> {
    match lengths {
        None => Ok(Value::Null),
        Some(lengths) => {
            let Lengths {
                payload,
                chunks,
                plaintext,
            } = lengths;
            json!(in alloc; {"length": payload, "chunks": chunks, "plaintext_length": plaintext})
        }
    }
}

/// What a file shows, as one line of JSON (RFC 8259) without an end of line: an object with
///
/// - `version`: the version's line of the header.
/// - `stanzas`: of each stanza, in their order, an object with its `type`, the list of its `arguments`, and its `body_length` in bytes.
/// - `header_length`: how many bytes the header has.
/// - `keeps_rule`: whether a stanza of the type `scrypt` is the only one.
/// - `rest_length`: how many bytes follow the header, those of the nonce among them.
/// - `payload`: `null` where no file has so many bytes there, else an object with the `length` of the chunks in bytes, how many `chunks` there
///   are, and the `plaintext_length` in bytes.
///
/// `AllocError` where memory is refused.
pub fn inspection_json(alloc: Global, inspection: &Inspection) -> Result<String, AllocError> {
    let stanzas = json_of_stanzas(alloc, inspection.header.stanzas())?;
    let payload = json_of_lengths(alloc, inspection.lengths)?;
    let header_length = inspection.header_length;
    let keeps_rule = inspection.keeps_rule;
    let rest_length = inspection.rest_length;
    let told = json!(in alloc; {
        "version": "age-encryption.org/v1",
        "stanzas": stanzas,
        "header_length": header_length,
        "keeps_rule": keeps_rule,
        "rest_length": rest_length,
        "payload": payload
    })?;
    told.to_string(alloc)
}
