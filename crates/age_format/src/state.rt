//! A header's lines, one after another.

ghost use Rattle.std.specs.Prelude.{◌≡◌, ◌≢◌, ◌++◌, ◌∷◌, ℕ, List, true, IfOk};
ghost use Rattle.age_base64.specs.Lines.{line, Lacks};
ghost use Rattle.age_format.specs.Reading.{IsAt};
ghost use Rattle.age_format.specs.PrivateReading.{StandsBeforeLine, IsJudged};

use crate::parse::{after_prefix, parse_first_line, parse_mac_line};
use crate::stanza::{Stanza, is_string_of_bytes};
use age_base64::decode_columns;
use std::alloc::{AllocError, Global};

/// Which lines may come next.
#[derive(Drop)]
pub(crate) enum State {
    /// The version's line.
    Version,
    /// The first stanza's first line.
    FirstStanza,
    /// A line of a body, of which whole lines came, or none.
    Body(Vec<Stanza>, Stanza),
    /// A stanza's first line or the line of the MAC.
    AfterBody(Vec<Stanza>),
}

/// What a finished line says.
#[derive(Drop)]
pub(crate) enum Judged {
    Allowed(State),
    Bad,
    UnknownVersion,
    Header(Vec<Stanza>, [u8; 32]),
}

/// Judges a line where a stanza or the MAC may come.
fn judge_after(
    alloc: Global,
    legacy: bool,
    done: Vec<Stanza>,
    next: &[u8],
) -> Result<Judged, AllocError>
    ensures { IfOk result (λ judged. (text : List ℕ) → StandsBeforeLine legacy (State.AfterBody done) next.now text
        → Lacks 10 next.now → IsJudged legacy judged (text ++ line next.now)) }
{
    if let Some(stanza) = parse_first_line(alloc, next)? {
        return Ok(Judged::Allowed(State::Body(done, stanza)));
    }
    match parse_mac_line(alloc, next)? {
        Some(mac) => Ok(Judged::Header(done, mac)),
        None => Ok(Judged::Bad),
    }
}

/// Judges a line where the first stanza must come.
fn judge_first(alloc: Global, legacy: bool, next: &[u8]) -> Result<Judged, AllocError>
    ensures { IfOk result (λ judged. (text : List ℕ) → StandsBeforeLine legacy State.FirstStanza next.now text
        → Lacks 10 next.now → IsJudged legacy judged (text ++ line next.now)) }
{
    match parse_first_line(alloc, next)? {
        Some(stanza) => Ok(Judged::Allowed(State::Body(Vec::new(alloc), stanza))),
        None => Ok(Judged::Bad),
    }
}

/// Judges a line of a body: the body isn't over before it.
fn judge_body(
    alloc: Global,
    legacy: bool,
    mut done: Vec<Stanza>,
    mut stanza: Stanza,
    next: &[u8],
) -> Result<Judged, AllocError>
    ensures { IfOk result (λ judged. (text : List ℕ) → IsAt legacy (State.Body done stanza) text
        → Lacks 10 next.now → (legacy ≡ true → (rest : List ℕ) → next.now ≢ 45 ∷ rest) → IsJudged legacy judged (text ++ line next.now)) }
{
    let Some(bytes) = decode_columns(alloc, next)? else {
        return Ok(Judged::Bad);
    };
    if bytes.len() > 48 {
        return Ok(Judged::Bad);
    }
    stanza.extend_body(bytes.as_slice())?;
    if bytes.len() == 48 {
        return Ok(Judged::Allowed(State::Body(done, stanza)));
    }
    done.push(stanza)?;
    Ok(Judged::Allowed(State::AfterBody(done)))
}

/// Judges a line where a body goes on: in the legacy form a line that begins with a hyphen comes after its end.
fn judge_in_body(
    alloc: Global,
    legacy: bool,
    mut done: Vec<Stanza>,
    stanza: Stanza,
    next: &[u8],
) -> Result<Judged, AllocError>
    ensures { IfOk result (λ judged. (text : List ℕ) → IsAt legacy (State.Body done stanza) text
        → Lacks 10 next.now → IsJudged legacy judged (text ++ line next.now)) }
{
    if legacy {
        if let Some(_rest) = after_prefix(next, b"-") {
            done.push(stanza)?;
            return judge_after(alloc, legacy, done, next);
        }
    }
    judge_body(alloc, legacy, done, stanza, next)
}

/// Judges the version's line.
fn judge_version(legacy: bool, next: &[u8]) -> Judged
    ensures { (text : List ℕ) → StandsBeforeLine legacy State.Version next.now text
        → Lacks 10 next.now → IsJudged legacy result (text ++ line next.now) }
{
    let Some(version) = after_prefix(next, b"age-encryption.org/") else {
        return Judged::Bad;
    };
    if version == b"v1".as_slice() {
        return Judged::Allowed(State::FirstStanza);
    }
    if is_string_of_bytes(version) {
        Judged::UnknownVersion
    } else {
        Judged::Bad
    }
}

/// Judges a line without its line feed.
pub(crate) fn judge(
    alloc: Global,
    legacy: bool,
    state: State,
    next: &[u8],
) -> Result<Judged, AllocError>
    ensures { IfOk result (λ judged. (text : List ℕ) → IsAt legacy state text
        → Lacks 10 next.now → IsJudged legacy judged (text ++ line next.now)) }
{
    match state {
        State::Version => Ok(judge_version(legacy, next)),
        State::FirstStanza => judge_first(alloc, legacy, next),
        State::AfterBody(done) => judge_after(alloc, legacy, done, next),
        State::Body(done, stanza) => judge_in_body(alloc, legacy, done, stanza, next),
    }
}
