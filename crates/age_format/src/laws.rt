//! Laws of the definitions: each function does nothing, and its contract is the law. `legacy` says whether the legacy form
//! of a stanza is a text of it.

ghost use Rattle.std.specs.Prelude.{◌≡◌, ◌++◌, ◌↔◌, Bool, IsTrue, length, List, [], ℕ, codes};
ghost use Rattle.age_base64.specs.Lines.{line};
ghost use Rattle.age_v1.specs.HeaderTexts.{stanza_eq, canonical, IsHeaderText, covered};
ghost use Rattle.age_v1.specs.Stanza.{StanzaValue};
ghost use Rattle.age_v1.specs.Header.{IsHeader, covered_text, header_text, version_line};
ghost use Rattle.age_v1.specs.HeaderVerdict.{IsVerdict, Verdict, Header};

/// The canonical text of a header is a text of it.
pub fn canonical_text_is_text()
    ensures { (legacy : Bool) (stanzas : List StanzaValue) (mac : List ℕ) → IsHeader stanzas mac
        → IsHeaderText legacy (header_text stanzas mac) stanzas mac }
{}

/// Without the legacy form the canonical text is the only text of a header.
pub fn header_text_is_canonical()
    ensures { (text : List ℕ) (stanzas : List StanzaValue) (mac : List ℕ) → IsHeaderText canonical text stanzas mac
        → text ≡ header_text stanzas mac }
{}

/// A text of a header is read as that header, whatever follows: no shorter front of it decides.
pub fn header_text_reads_back()
    ensures { (legacy : Bool) (text more : List ℕ) (stanzas : List StanzaValue) (mac : List ℕ) →
        IsHeaderText legacy text stanzas mac → IsVerdict legacy (text ++ more) text (Header stanzas mac) }
{}

/// The canonical text is read as its header, whatever follows, and the MAC covers the same front of it whatever the MAC is.
pub fn canonical_text_reads_back()
    ensures reads { (legacy : Bool) (stanzas : List StanzaValue) (mac more : List ℕ) → IsHeader stanzas mac
        → IsVerdict legacy (header_text stanzas mac ++ more) (header_text stanzas mac) (Header stanzas mac) }
    ensures covers { (stanzas : List StanzaValue) (mac : List ℕ) → length mac ≡ 32
        → covered (header_text stanzas mac) ≡ covered_text stanzas }
{}

/// A header text tells its stanzas and its MAC, and no other header text goes on from it.
pub fn header_text_tells()
    ensures { (legacy : Bool) (text more : List ℕ) (stanzas others : List StanzaValue) (mac other : List ℕ) →
        IsHeaderText legacy text stanzas mac → IsHeaderText legacy (text ++ more) others other
        → (stanzas ≡ others) × (mac ≡ other) × (more ≡ []) }
{}

/// `==` of stanzas is true exactly where tag, arguments and body are the same.
pub fn equal_stanzas_are_same()
    ensures { (stanza other : StanzaValue) → IsTrue (stanza_eq stanza other) ↔ (stanza ≡ other) }
{}

/// An input has at most one verdict.
pub fn verdict_is_unique()
    ensures { (legacy : Bool) (input front other : List ℕ) (v w : Verdict) → IsVerdict legacy input front v
        → IsVerdict legacy input other w → (front ≡ other) × (v ≡ w) }
{}

/// The covered front is the text up to and with the three hyphens.
pub fn covered_front()
    ensures { (legacy : Bool) (text : List ℕ) (stanzas : List StanzaValue) (mac : List ℕ)
        (header : IsHeaderText legacy text stanzas mac) →
        covered text ≡ line version_line ++ (header.middle ++ codes "---") }
{}
