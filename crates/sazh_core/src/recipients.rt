//! Files of recipients.
ghost use Rattle.std.specs.Prelude.{◌≡◌, ◌++◌, ℕ, List, [], ◌∷◌, MatchOption, MatchResult, IfOk, IfErr, map, true, false};
ghost use Rattle.std.specs.Str.{IsUtf8};
ghost use Rattle.std.specs.Str.Lines.{lines};
ghost use Rattle.sazh_core.specs.Recipients.{AreRecipients, IsBadRecipientLine, IsEmptyOrComment, RefusesRecipientBytes, RefusesLines, RefusesRecipientText};

use crate::error::RecipientsError;
use age::x25519::Recipient;
use std::alloc::{AllocError, Global};
use std::str::FromStr;

// Whether a line is passed over.
fn is_passed_over(line: &str) -> bool
    ensures yes { result ≡ true → IsEmptyOrComment line.now }
    ensures no { result ≡ false → IsEmptyOrComment line.now → ⊥ }
{
    match line.as_bytes().split_first() {
        None => true,
        Some((first, _)) => *first == b'#',
    }
}

// The recipients with that of a line, or as they are where it is passed over. `None` where it is bad.
fn add_line<S>(
    recipients: Vec<Recipient<S>>,
    line: &str,
) -> Result<Option<Vec<Recipient<S>>>, AllocError>
    ensures { (before : List (List ℕ)) → AreRecipients before recipients.items →
        IfOk result (λ found. MatchOption found (IsBadRecipientLine line.now) (λ more. AreRecipients (before ++ line.now ∷ []) more.items)) }
{
    if is_passed_over(line) {
        return Ok(Some(recipients));
    }
    match Recipient::from_str(line) {
        Err(_) => Ok(None),
        Ok(recipient) => {
            let mut recipients = recipients;
            recipients.push(recipient)?;
            Ok(Some(recipients))
        }
    }
}

// The recipients of lines.
fn recipients_in<S>(alloc: Global, lines: &[&str]) -> Result<Vec<Recipient<S>>, RecipientsError>
    ensures { let all = map (λ line. line.now) lines.now in
        MatchResult result (λ recipients. AreRecipients all recipients.items) (λ e. RefusesLines e all) }
{
    let mut recipients = Vec::new(alloc);
    for i in 0..lines.len() {
        match add_line(recipients, lines[i]) {
            Err(_) => return Err(RecipientsError::OutOfMemory),
            Ok(None) => return Err(RecipientsError::NotRecipient { line: i + 1 }),
            Ok(Some(more)) => recipients = more,
        }
    }
    Ok(recipients)
}

// The lines of a text.
fn all_lines(alloc: Global, text: &str) -> Result<Vec<&str>, AllocError>
    ensures { IfOk result (λ all. map (λ line. line.now) all.items ≡ lines text.now) }
{
    text.lines().collect(alloc)
}

// The recipients of a text, of which there is one or more.
fn recipients_of_text<S>(alloc: Global, text: &str) -> Result<Vec<Recipient<S>>, RecipientsError>
    ensures { MatchResult result (λ recipients. AreRecipients (lines text.now) recipients.items) (λ e. RefusesRecipientText e text.now) }
{
    let Ok(all) = all_lines(alloc, text) else {
        return Err(RecipientsError::OutOfMemory);
    };
    match recipients_in(alloc, &all) {
        Err(e) => Err(e),
        Ok(recipients) => {
            if recipients.is_empty() {
                return Err(RecipientsError::NoRecipient);
            }
            Ok(recipients)
        }
    }
}

/// The recipients that a text names, in the order of its lines. A line is the text of a recipient, `age1..`, or is passed over: it is
/// empty or begins with `#`. It ends with LF or CRLF, the last one perhaps with the text.
///
/// # Errors
///
/// - `NotText`: the text isn't UTF-8.
/// - `NotRecipient`: the first line that is the text of no recipient and isn't passed over.
/// - `NoRecipient`: each line is passed over.
/// - `OutOfMemory`: memory was refused.
pub fn recipients_of<S>(alloc: Global, text: &[u8]) -> Result<Vec<Recipient<S>>, RecipientsError>
    ensures ok { IfOk result (λ recipients. IsUtf8 text.now × AreRecipients (lines text.now) recipients.items) }
    ensures refused { IfErr result (λ e. RefusesRecipientBytes e text.now) }
{
    match str::from_utf8(text) {
        Err(_) => Err(RecipientsError::NotText),
        Ok(text) => recipients_of_text(alloc, text),
    }
}
