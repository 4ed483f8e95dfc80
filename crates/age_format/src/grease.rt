//! Stanzas that mean nothing, by which readers learn to pass over what they don't know.

ghost use Rattle.std.specs.Prelude.{◌≡◌, ◌↔◌, IsSome, IfSome};
ghost use Rattle.age_v1.specs.HeaderTexts.{IsGreaseTag};

use crate::stanza::Stanza;
use std::marker::Model;

/// A stanza whose tag ends in `-grease`. It means its stanza.
#[derive(Debug, Drop)]
pub struct Grease {
    stanza: Stanza,
}

impl Model for Grease {
    ghost use Rattle.age_v1.specs.HeaderTexts.{IsGreaseTag};
    ghost use Rattle.age_v1.specs.Stanza.{StanzaValue};

    ghost Value = { StanzaValue };

    ghost view = { λ g. g.stanza };

    ghost invariant = { λ g. IsGreaseTag g.stanza.tag };
}

impl Grease {
    /// The grease of a stanza, if its tag ends in `-grease`. It takes no memory.
    pub fn new(stanza: Stanza) -> Option<Grease>
        ensures exactly { IsSome result ↔ IsGreaseTag stanza.tag }
        ensures value { IfSome result (λ grease. grease ≡ stanza) }
    {
        if stanza.tag().ends_with("-grease") {
            Some(Grease { stanza })
        } else {
            None
        }
    }

    /// The stanza.
    pub fn into_stanza(self) -> Stanza
        ensures value { result ≡ self }
        ensures tag { IsGreaseTag result.tag }
    {
        self.stanza
    }
}
