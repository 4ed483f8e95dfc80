//! The next bytes that a text stands for.
ghost use Rattle.std.specs.Prelude.{◌≡◌, ◌≢◌, ◌+◌, ◌≤◌, ◌<◌, true, false, IsTrue, length, take, IfOk, IfErr};
ghost use Rattle.age_io.specs.Stretch.{Stretch};
ghost use Rattle.age_io.specs.Reading.{IsQuiet, Delivers, most_faults};
ghost use Rattle.age_error.specs.declared.io.Error.TheVariants.{OutOfMemory};
ghost use Rattle.age_v1.specs.DeliveredArmor.{text_delivers, begins_armor};
ghost use Rattle.age_armor.specs.PrivateCounting.{Kept, one_line_more};

use crate::counted::Counted;
use crate::decoding::Decoder;
use crate::judging::{Judged, judge};
use age_error::io::{ArmoredReadError, Error};
use age_io::{BufRead, Read};

/// Where a reader of armor stands.
#[derive(Clone, Copy)]
pub(crate) enum Stage {
    /// Nothing was read yet.
    Start,
    /// The text is binary: its bytes pass unchanged.
    Binary,
    /// Lines of armor come next. It says whether a short line came before.
    Lines(bool),
    /// The end marker and all that follows it were read.
    Ended,
}

/// How many bytes were found, and where the reader stands after them.
#[derive(Clone, Copy)]
pub(crate) struct Piece {
    pub(crate) count: usize,
    pub(crate) next: Stage,
}

ghost use Rattle.age_armor.specs.Stages.{ahead, is_start, has_lines};
ghost use Rattle.age_armor.specs.PrivateStages.{Advances, StopsWith, IsFound, FindsForm, is_ended};
ghost use Rattle.age_armor.specs.PrivateCounting.{GivesPiece, IsPiece};
ghost use Rattle.age_armor.specs.Refusing.{OrEnd};
ghost use Rattle.age_armor.specs.declared.stages.Stage.TheVariants.{Start, Binary, Lines};

/// Reads the first 35 bytes and looks at the next; takes the begin marker's line, where it stands there.
fn detect<R: BufRead>(source: &mut Counted<R>, bytes: &mut [u8; 48]) -> Result<Piece, Error>
    ensures kept { Kept ⟦<R as Read>⟧ source.old.inner source.old.taken source.new.inner source.new.taken result }
    ensures counts { source.new.lines ≡ source.old.lines }
    ensures fits { IfOk result (λ piece. piece.count ≤ 48) }
    ensures gives { GivesPiece Start source.old source.new bytes.new result }
    ensures found { IfOk result (λ piece. IsFound piece) }
    ensures form { IsTrue (R.Read.tells source.old.inner)
        → IfOk result (λ piece. FindsForm (has_lines piece.next) (R.Read.rest source.old.inner).bytes) }
{
    let mut front = [0u8; 35];
    match source.take_front(&mut front) {
        Ok(true) => {}
        Ok(false) => return Err(Error::UnexpectedEof),
        Err(e) => return Err(e),
    }
    match source.is_at_end() {
        Ok(false) => {}
        Ok(true) => return Err(Error::UnexpectedEof),
        Err(e) => return Err(e),
    }
    after_front(source, &front, bytes)
}

// Finds out by the first 35 bytes which of the two forms it is. A byte follows them.
fn after_front<R: BufRead>(
    source: &mut Counted<R>,
    front: &[u8; 35],
    bytes: &mut [u8; 48],
) -> Result<Piece, Error>
    requires { R.Read.faults source.old.inner < most_faults }
    ensures kept { Kept ⟦<R as Read>⟧ source.old.inner source.old.taken source.new.inner source.new.taken result }
    ensures counts { source.new.lines ≡ source.old.lines }
    ensures fits { IfOk result (λ piece. piece.count ≤ 35) }
    ensures found { IfOk result (λ piece. IsFound piece) }
    ensures form { IsTrue (R.Read.tells source.old.inner) → (all : Stretch) → Delivers front.now all (R.Read.rest source.old.inner) →
        0 < length (R.Read.rest source.old.inner).bytes → IfOk result (λ piece. FindsForm (has_lines piece.next) all.bytes) }
    ensures bytes { IsTrue (R.Read.tells source.old.inner) → (all : Stretch) → Delivers front.now all (R.Read.rest source.old.inner) →
        0 < length (R.Read.rest source.old.inner).bytes → IfOk result (λ piece.
        Advances (text_delivers all.bytes all.ends_well) (take piece.count bytes.new) (ahead piece.next (R.Read.rest source.new.inner))) }
    ensures cause { IsTrue (R.Read.tells source.old.inner) → (all : Stretch) → Delivers front.now all (R.Read.rest source.old.inner) →
        0 < length (R.Read.rest source.old.inner).bytes → IfErr result (λ e. e ≢ OutOfMemory →
        IsQuiet (R.Read.faults source.old.inner) (R.Read.faults source.new.inner) → StopsWith (text_delivers all.bytes all.ends_well) e) }
    ensures why { IsTrue (R.Read.tells source.old.inner) → (all : Stretch) → Delivers front.now all (R.Read.rest source.old.inner) →
        0 < length (R.Read.rest source.old.inner).bytes
        → IfErr result (OrEnd ⟦<R as Read>⟧ source.old.inner (text_delivers all.bytes all.ends_well)) }
{
    if !front.starts_with(b"-----BEGIN AGE ENCRYPTED FILE-----") {
        bytes[..35].copy_from_slice(front);
        return Ok(Piece {
            count: 35,
            next: Stage::Binary,
        });
    }
    let last = front[34];
    if last == b'\n' {
        return Ok(Piece {
            count: 0,
            next: Stage::Lines(false),
        });
    }
    if last != b'\r' {
        return Err(Error::Armor(ArmoredReadError::InvalidBeginMarker));
    }
    let mut next = [0u8; 1];
    match source.take_front(&mut next) {
        Ok(true) => {}
        Ok(false) => return Err(Error::Armor(ArmoredReadError::InvalidBeginMarker)),
        Err(e) => return Err(e),
    }
    if next[0] != b'\n' {
        return Err(Error::Armor(ArmoredReadError::InvalidBeginMarker));
    }
    Ok(Piece {
        count: 0,
        next: Stage::Lines(false),
    })
}

/// Reads a line. `line` is room for its text.
fn next_line<R: BufRead>(
    source: &mut Counted<R>,
    decoder: &Decoder,
    after_short: bool,
    line: &mut Vec<u8>,
    bytes: &mut [u8; 48],
) -> Result<Piece, Error>
    ensures kept { Kept ⟦<R as Read>⟧ source.old.inner source.old.taken source.new.inner source.new.taken result }
    ensures counts { (source.old.lines ≤ source.new.lines) × (source.new.lines ≤ source.old.lines + 1) }
    ensures piece { IsPiece (Lines after_short) source.old result }
    ensures gives { GivesPiece (Lines after_short) source.old source.new bytes.new result }
    ensures lines { IfOk result (λ piece. has_lines piece.next ≡ true) }
    ensures line { IfOk result (λ piece. source.new.lines ≡ one_line_more source.old.lines) }
{
    if !after_short {
        match source.take_full(decoder, bytes) {
            Err(e) => return Err(e),
            Ok(full) => {
                if full {
                    return Ok(Piece {
                        count: 48,
                        next: Stage::Lines(false),
                    });
                }
            }
        }
    }
    any_line(source, decoder, after_short, line, bytes)
}

// Reads a line of any form.
fn any_line<R: BufRead>(
    source: &mut Counted<R>,
    decoder: &Decoder,
    after_short: bool,
    line: &mut Vec<u8>,
    bytes: &mut [u8; 48],
) -> Result<Piece, Error>
    ensures kept { Kept ⟦<R as Read>⟧ source.old.inner source.old.taken source.new.inner source.new.taken result }
    ensures counts { (source.old.lines ≤ source.new.lines) × (source.new.lines ≤ source.old.lines + 1) }
    ensures piece { IsPiece (Lines after_short) source.old result }
    ensures gives { GivesPiece (Lines after_short) source.old source.new bytes.new result }
    ensures lines { IfOk result (λ piece. has_lines piece.next ≡ true) }
    ensures line { IfOk result (λ piece. source.new.lines ≡ one_line_more source.old.lines) }
{
    match source.take_line(line) {
        Ok(()) => {}
        Err(e) => return Err(e),
    }
    if line.is_empty() {
        return Err(Error::Armor(ArmoredReadError::NotWrappedAt64Chars));
    }
    match judge(decoder, after_short, line, bytes) {
        Judged::Refuses(e) => Err(Error::Armor(e)),
        Judged::Ends => match source.take_trailing(bytes) {
            Ok(()) => Ok(Piece {
                count: 0,
                next: Stage::Ended,
            }),
            Err(e) => Err(e),
        },
        Judged::Holds(count, short) => Ok(Piece {
            count,
            next: Stage::Lines(short),
        }),
    }
}

// Reads the first bytes.
fn first<R: BufRead>(
    source: &mut Counted<R>,
    decoder: &Decoder,
    line: &mut Vec<u8>,
    bytes: &mut [u8; 48],
) -> Result<Piece, Error>
    ensures kept { Kept ⟦<R as Read>⟧ source.old.inner source.old.taken source.new.inner source.new.taken result }
    ensures counts { (source.old.lines ≤ source.new.lines) × (source.new.lines ≤ source.old.lines + 1) }
    ensures piece { IsPiece Start source.old result }
    ensures gives { GivesPiece Start source.old source.new bytes.new result }
    ensures bare { IfOk result (λ piece. has_lines piece.next ≡ false → source.new.lines ≡ source.old.lines) }
    ensures line { IfOk result (λ piece. has_lines piece.next ≡ true → source.new.lines ≡ one_line_more source.old.lines) }
    ensures binary { IsTrue (R.Read.tells source.old.inner) → begins_armor (R.Read.rest source.old.inner).bytes ≡ false
        → source.new.lines ≡ source.old.lines }
    ensures form { IsTrue (R.Read.tells source.old.inner)
        → IfOk result (λ piece. FindsForm (has_lines piece.next) (R.Read.rest source.old.inner).bytes) }
{
    match detect(source, bytes) {
        Ok(piece) => match piece.next {
            Stage::Lines(after_short) => next_line(source, decoder, after_short, line, bytes),
            _ => Ok(piece),
        },
        Err(e) => Err(e),
    }
}

// Reads bytes of a binary text.
fn next_bytes<R: BufRead>(source: &mut Counted<R>, bytes: &mut [u8; 48]) -> Result<Piece, Error>
    ensures kept { Kept ⟦<R as Read>⟧ source.old.inner source.old.taken source.new.inner source.new.taken result }
    ensures counts { source.new.lines ≡ source.old.lines }
    ensures piece { IsPiece Binary source.old result }
    ensures gives { GivesPiece Binary source.old source.new bytes.new result }
    ensures binary { IfOk result (λ piece. has_lines piece.next ≡ false) }
{
    match source.read(bytes) {
        Ok(count) => Ok(Piece {
            count,
            next: Stage::Binary,
        }),
        Err(e) => Err(e),
    }
}

/// Reads the next bytes and puts them in front of `bytes`; there are none at a clean end alone. `line` is room for the
/// text of a line. It is for any stage but that after the end.
pub(crate) fn advance<R: BufRead>(
    source: &mut Counted<R>,
    decoder: &Decoder,
    stage: Stage,
    line: &mut Vec<u8>,
    bytes: &mut [u8; 48],
) -> Result<Piece, Error>
    requires { is_ended stage ≡ false }
    ensures kept { Kept ⟦<R as Read>⟧ source.old.inner source.old.taken source.new.inner source.new.taken result }
    ensures counts { (source.old.lines ≤ source.new.lines) × (source.new.lines ≤ source.old.lines + 1) }
    ensures piece { IsPiece stage source.old result }
    ensures gives { GivesPiece stage source.old source.new bytes.new result }
    ensures bare { IfOk result (λ piece. has_lines piece.next ≡ false → source.new.lines ≡ source.old.lines) }
    ensures line { IfOk result (λ piece. has_lines piece.next ≡ true → source.new.lines ≡ one_line_more source.old.lines) }
    ensures binary { IsTrue (R.Read.tells source.old.inner) → has_lines stage ≡ false →
        (is_start stage ≡ true → begins_armor (R.Read.rest source.old.inner).bytes ≡ false) → source.new.lines ≡ source.old.lines }
    ensures form { IsTrue (R.Read.tells source.old.inner) → is_start stage ≡ true →
        IfOk result (λ piece. FindsForm (has_lines piece.next) (R.Read.rest source.old.inner).bytes) }
    ensures kept_form { is_start stage ≡ false → IfOk result (λ piece. has_lines piece.next ≡ has_lines stage) }
    ensures size { length bytes.new ≡ 48 }
{
    match stage {
        Stage::Start => first(source, decoder, line, bytes),
        Stage::Binary => next_bytes(source, bytes),
        Stage::Lines(after_short) => next_line(source, decoder, after_short, line, bytes),
        Stage::Ended => unreachable!(),
    }
}
