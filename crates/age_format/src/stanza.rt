//! Stanzas.

ghost use Rattle.std.specs.Prelude.{◌≡◌, ◌↔◌, map, IsSome, IfSome, IfOk, OnOk, OnErr, IsTrue, nat_eq, string_bytes};
ghost use Rattle.std.specs.Cmp.Lexicographic.{pointwise};
ghost use Rattle.std.specs.List.{AllByRecursion, list_all};
ghost use Rattle.age_v1.specs.Stanza.{IsString, is_graphic, is_string_of};

use crate::sink::Sink;
use crate::write::{write_body, write_first_line};
use std::alloc::AllocError;
use std::marker::Model;

/// A stanza: a tag and arguments that are strings of bytes 33 to 126, and a body.
#[derive(Debug, Drop)]
pub struct Stanza {
    tag: String,
    args: Vec<String>,
    body: Vec<u8>,
}

impl Model for Stanza {
    ghost use Rattle.age_v1.specs.Stanza.{StanzaValue, IsStanza};
    ghost use Rattle.std.specs.Prelude.{map, string_bytes};

    ghost Value = { StanzaValue };

    ghost view = { λ s. record { tag = string_bytes s.tag; args = map (λ a. string_bytes a) s.args.items; body = s.body.items } };

    ghost invariant = { λ s. IsStanza (record { tag = string_bytes s.tag; args = map (λ a. string_bytes a) s.args.items; body = s.body.items }) };
}

/// Whether each byte is one of 33 to 126.
fn are_graphic(bytes: &[u8]) -> bool
    ensures { result ≡ list_all is_graphic bytes.now }
{
    bytes.iter().all(|b| 33 <= *b && *b <= 126)
}

/// Whether bytes are one or more of 33 to 126.
pub(crate) fn is_string_of_bytes(bytes: &[u8]) -> bool
    ensures told { result ≡ is_string_of bytes.now }
    ensures exactly { IsTrue result ↔ IsString bytes.now }
{
    !bytes.is_empty() && are_graphic(bytes)
}

/// Whether a text is a string of the format, as tags, arguments and labels are: one or more bytes of 33 to 126.
pub fn is_string(text: &str) -> bool
    ensures told { result ≡ is_string_of text.now }
    ensures exactly { IsTrue result ↔ IsString text.now }
{
    is_string_of_bytes(text.as_bytes())
}

/// Whether each text is.
fn are_strings(texts: &[String]) -> bool
    ensures { IsTrue result ↔ AllByRecursion IsString (map (λ a. string_bytes a) texts.now) }
{
    texts.iter().all(|text| is_string(text.as_str()))
}

/// Whether two lists have the same texts in the same order.
fn are_same(texts: &[String], others: &[String]) -> bool
    ensures { result ≡ pointwise (pointwise nat_eq) (map (λ a. string_bytes a) texts.now) (map (λ a. string_bytes a) others.now) }
{
    texts == others
}

impl Stanza {
    ghost use Rattle.age_v1.specs.HeaderTexts.{grown};
    ghost use Rattle.age_v1.specs.Stanza.{stanza_text, IsStanza};

    /// The stanza, if its tag and each argument are strings of bytes 33 to 126. It takes no memory of its own.
    pub fn new(tag: String, args: Vec<String>, body: Vec<u8>) -> Option<Stanza>
        ensures exactly { IsSome result ↔ (IsString (string_bytes tag)
            × AllByRecursion IsString (map (λ a. string_bytes a) args.items)) }
        ensures value { IfSome result (λ s. s ≡ record { tag = string_bytes tag; args = map (λ a. string_bytes a) args.items; body = body.items }) }
    {
        if is_string(tag.as_str()) && are_strings(args.as_slice()) {
            Some(Stanza { tag, args, body })
        } else {
            None
        }
    }

    /// Another stanza of the same tag, arguments and body. `AllocError` comes only for want of memory.
    pub fn clone(&self) -> Result<Stanza, AllocError>
        ensures { IfOk result (λ s. s ≡ self.now) }
    {
        let tag = self.tag.clone()?;
        let args = self.args.clone()?;
        let body = self.body.clone()?;
        Ok(Stanza { tag, args, body })
    }

    /// Adds bytes to the body.
    pub(crate) fn extend_body(&mut self, bytes: &[u8]) -> Result<(), AllocError>
        ensures { OnOk result (self.new ≡ grown self.old bytes.now) }
    {
        self.body.extend_from_slice(bytes)
    }

    /// Writes the canonical text. `AllocError` comes only for want of memory, and part of the text may have been taken then.
    pub(crate) fn write<T: Sink>(&self, out: &mut T) -> Result<(), AllocError>
        ensures took { OnOk result (T.took out.old (stanza_text self.now) out.new) }
        ensures refused { OnErr result (IsTrue T.refuses) }
    {
        write_first_line(self.tag.as_str(), self.args.as_slice(), out)?;
        write_body(self.body.as_slice(), out)
    }

    /// What a stanza holds is a stanza: a fact for proofs alone, which costs nothing.
    pub(crate) fn known(&self)
        ensures { IsStanza self.now }
    {
        // A look at a field opens `self`, whose invariant the proof has then.
        let _ = &self.body;
    }

    /// The tag: what kind of stanza it is.
    pub fn tag(&self) -> &str
        ensures { result.now ≡ self.now.tag }
    {
        self.tag.as_str()
    }

    /// The arguments, of which there may be none.
    pub fn args(&self) -> &[String]
        ensures { map (λ a. string_bytes a) result.now ≡ self.now.args }
    {
        self.args.as_slice()
    }

    /// The body, which may be empty.
    pub fn body(&self) -> &[u8]
        ensures { result.now ≡ self.now.body }
    {
        self.body.as_slice()
    }
}

impl PartialEq for Stanza {
    ghost use Rattle.std.specs.Cmp.{on_per, and_per, partial_equiv_from_equiv};
    ghost use Rattle.std.specs.Cmp.Lexicographic.{lists_per};
    ghost use Rattle.std.proofs.lemmas.Cmp.{nat_list_eq_equiv};
    ghost use Rattle.age_v1.specs.HeaderTexts.{stanza_eq};

    ghost eq = { stanza_eq };

    ghost laws = { and_per (and_per (on_per (λ s. s.tag) (partial_equiv_from_equiv nat_list_eq_equiv))
        (on_per (λ s. s.args) (lists_per (partial_equiv_from_equiv nat_list_eq_equiv))))
        (on_per (λ s. s.body) (partial_equiv_from_equiv nat_list_eq_equiv)) };

    /// Whether tag, arguments and body are the same.
    fn eq(&self, other: &Stanza) -> bool {
        self.tag() == other.tag()
            && are_same(self.args(), other.args())
            && self.body() == other.body()
    }
}

impl Eq for Stanza {
    ghost use Rattle.std.specs.Cmp.{and_equiv};
    ghost use Rattle.std.proofs.lemmas.Cmp.{on_equiv, lists_equiv, nat_list_eq_equiv};

    ghost laws = { and_equiv (and_equiv (on_equiv (λ s. s.tag) nat_list_eq_equiv) (on_equiv (λ s. s.args) (lists_equiv nat_list_eq_equiv)))
        (on_equiv (λ s. s.body) nat_list_eq_equiv) };
}
