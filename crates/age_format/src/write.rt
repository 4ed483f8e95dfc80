//! Writing of header texts.

ghost use Rattle.std.specs.Prelude.{◌++◌, ◌∷◌, ◌≤◌, length, map, IsTrue, OnOk, OnErr, string_bytes, codes};
ghost use Rattle.std.specs.List.{AllByRecursion, join_with_byte};
ghost use Rattle.age_base64.specs.Lines.{line};
ghost use Rattle.age_base64.specs.Base64.{columns};
ghost use Rattle.age_base64.specs.Engine.{IsHeaderEngine};
ghost use Rattle.age_v1.specs.Stanza.{IsStanza, body_text};
ghost use Rattle.age_v1.specs.Header.{covered_text};

use crate::sink::Sink;
use crate::stanza::Stanza;
use age_base64::header_engine;
use base64::engine::general_purpose::GeneralPurpose;
use std::alloc::AllocError;

/// How many bytes a whole line of base64 stands for.
const LINE_BYTES: usize = 48;

/// Writes the base64 of a piece as a line.
pub(crate) fn write_columns<T: Sink>(
    engine: &GeneralPurpose,
    piece: &[u8],
    out: &mut T,
) -> Result<(), AllocError>
    requires engine { IsHeaderEngine engine.now }
    requires short { length piece.now ≤ 48 }
    ensures took { OnOk result (T.took out.old (line (columns piece.now)) out.new) }
    ensures refused { OnErr result (IsTrue T.refuses) }
{
    let mut buffer = [0u8; 64];
    let Ok(size) = engine.encode_slice(piece, &mut buffer) else {
        // 48 bytes are 64 characters at most, for which there is room.
        unreachable!();
    };
    let written = &buffer[..size];
    out.take(written)?;
    out.take(b"\n")
}

/// Writes the text of a body.
pub(crate) fn write_body<T: Sink>(body: &[u8], out: &mut T) -> Result<(), AllocError>
    ensures took { OnOk result (T.took out.old (body_text body.now) out.new) }
    ensures refused { OnErr result (IsTrue T.refuses) }
{
    let engine = header_engine();
    let mut rest = body;
    while rest.len() >= LINE_BYTES {
        let (piece, more) = rest.split_at(LINE_BYTES);
        write_columns(&engine, piece, out)?;
        rest = more;
    }
    write_columns(&engine, rest, out)
}

/// Writes the first line of a stanza.
pub(crate) fn write_first_line<T: Sink>(
    tag: &str,
    args: &[String],
    out: &mut T,
) -> Result<(), AllocError>
    ensures took { OnOk result (T.took out.old
        (line (codes "-> " ++ join_with_byte 32 (tag.now ∷ map (λ a. string_bytes a) args.now))) out.new) }
    ensures refused { OnErr result (IsTrue T.refuses) }
{
    out.take(b"-> ")?;
    out.take(tag.as_bytes())?;
    for arg in args {
        out.take(b" ")?;
        out.take(arg.as_bytes())?;
    }
    out.take(b"\n")
}

/// Writes the front that the MAC covers, of the canonical text.
pub(crate) fn write_covered<T: Sink>(stanzas: &[Stanza], out: &mut T) -> Result<(), AllocError>
    ensures took { OnOk result (T.took out.old (covered_text stanzas.now) out.new) }
    ensures each { OnOk result (AllByRecursion IsStanza stanzas.now) }
    ensures refused { OnErr result (IsTrue T.refuses) }
{
    out.take(b"age-encryption.org/v1\n")?;
    for stanza in stanzas {
        // For the proof alone: what the type keeps of it.
        stanza.known();
        stanza.write(out)?;
    }
    out.take(b"---")
}

/// Writes what follows that front: a space, the columns of the MAC, and LF.
pub(crate) fn write_mac<T: Sink>(mac: &[u8; 32], out: &mut T) -> Result<(), AllocError>
    ensures took { OnOk result (T.took out.old (32 ∷ line (columns mac.now)) out.new) }
    ensures refused { OnErr result (IsTrue T.refuses) }
{
    out.take(b" ")?;
    write_columns(&header_engine(), mac.as_slice(), out)
}
