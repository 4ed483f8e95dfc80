//! Command lines with mistakes.

use crate::sazh_words::answers::{all_ask, words_of};
use crate::words::owned;
use sazh_command::{UsageError, parse};
use std::alloc::{AllocError, Global};
use std::process::Abort;
use std::test::Fail;

#[test]
fn no_command(rt: HostRuntime) -> Result<(), Fail> {
    all_ask(
        &rt,
        rt.alloc(),
        r#"
 => Err(NoCommand)
mend => Err(UnknownCommand("mend"))
mend -o file -a => Err(UnknownCommand("mend"))
- => Err(UnknownCommand("-"))
help => Err(UnknownCommand("help"))
-- keygen => Err(UnknownCommand("keygen"))
-r a encrypt => Err(WordBeforeCommand)
-d decrypt -i key => Err(WordBeforeCommand)
- keygen => Err(WordBeforeCommand)
"#,
    )
}

#[test]
fn options_that_do_not_go_together(rt: HostRuntime) -> Result<(), Fail> {
    all_ask(
        &rt,
        rt.alloc(),
        r#"
-e -d -i key => Err(EncryptAndDecrypt)
-d -r a => Err(EncryptingOption)
-d -R team -i key => Err(EncryptingOption)
-d -i key -a => Err(EncryptingOption)
-i key file => Err(DecryptingOption)
-r a -i key => Err(DecryptingOption)
--header-limit 5 -r a => Err(LimitWithoutDecrypting)
-e -i key --header-limit=5 => Err(LimitWithoutDecrypting)
-e -i key -p secret => Err(PassphraseBesideRecipients)
encrypt -i key -p secret => Err(PassphraseBesideRecipients)
-r a -p secret => Err(PassphraseBesideRecipients)
encrypt -p secret -r a => Err(PassphraseBesideRecipients)
encrypt -R team -p secret => Err(PassphraseBesideRecipients)
part -i key --from 7 1 2 file => Err(PlaceOrCountAlone)
part -i key --count 7 file => Err(PlaceOrCountAlone)
"#,
    )
}

#[test]
fn recipients_and_identities(rt: HostRuntime) -> Result<(), Fail> {
    all_ask(
        &rt,
        rt.alloc(),
        r#"
-e => Err(NoRecipient)
-e plain => Err(NoRecipient)
-a => Err(NoRecipient)
-d => Err(NoIdentity)
-d file => Err(NoIdentity)
encrypt => Err(NoRecipient)
encrypt -a -o file plain => Err(NoRecipient)
decrypt file => Err(NoIdentity)
part 1 2 file => Err(NoIdentity)
migrate file => Err(NoIdentity)
rekey -r age1a file => Err(NoIdentity)
rekey -i key file => Err(NoRecipient)
verify file => Err(NoIdentity)
decrypt --header-limit x => Err(NoIdentity)
rekey -i key --header-limit x => Err(NotANumber(HeaderLimit, "x"))
"#,
    )
}

#[test]
fn operands(rt: HostRuntime) -> Result<(), Fail> {
    all_ask(
        &rt,
        rt.alloc(),
        r#"
part -i key => Err(MissingOperand(Place))
part -i key 1 => Err(MissingOperand(Count))
part 1 2 -i key => Err(MissingOperand(Input))
part -i key 1 2 file more => Err(ExtraOperand("more"))
part -i key one 2 file => Err(NotANumber(Place, "one"))
part -i key 1 two file => Err(NotANumber(Count, "two"))
part -i key --from one --count 2 => Err(NotANumber(Place, "one"))
part -i key --from 1 --count two => Err(NotANumber(Count, "two"))
part -i key --from 1 --count 2 file more => Err(ExtraOperand("more"))
keygen key => Err(ExtraOperand("key"))
decrypt -i key --header-limit 16MiB => Err(NotANumber(HeaderLimit, "16MiB"))
"#,
    )
}

// Recipients or identities, and then operands, PLACE and COUNT.
#[test]
fn several_mistakes(rt: HostRuntime) -> Result<(), Fail> {
    all_ask(
        &rt,
        rt.alloc(),
        r#"
part one => Err(NoIdentity)
part -i key one => Err(MissingOperand(Count))
part -i key one two => Err(MissingOperand(Input))
part -i key one two three four => Err(ExtraOperand("four"))
part -i key one two three => Err(NotANumber(Place, "one"))
-e -d -a => Err(EncryptAndDecrypt)
-d -a => Err(EncryptingOption)
"#,
    )
}

// What is wrong with these words, as it is told.
fn told(alloc: Global, words: &[String]) -> Result<String, AllocError> {
    match parse(alloc, words)? {
        Ok(_command) => String::from_str(alloc, "nothing is wrong"),
        Err(error) => format!(in alloc; "{error}"),
    }
}

// Whether what is wrong with the words of a line is told so.
fn is_told(alloc: Global, line: &str, expected: &str) -> Result<bool, AllocError> {
    let words = words_of(alloc, line)?;
    Ok(told(alloc, &words)?.as_str() == expected)
}

// What is wrong with the words of each line is told as it stands behind it. A row is `LINE => MISTAKE`, or empty.
fn all_are_told(rt: &impl Abort, alloc: Global, rows: &str) -> Result<(), Fail> {
    for row in rows.lines() {
        match row.split_once(" => ") {
            Some((line, expected)) => assert!(rt; is_told(alloc, line, expected)?, "at {line}"),
            None => assert!(rt; row.is_empty(), "{row}"),
        }
    }
    Ok(())
}

// Whether `clap` has something against the words of a line, and its text begins so.
fn is_refused(alloc: Global, line: &str, beginning: &str) -> Result<bool, AllocError> {
    let words = words_of(alloc, line)?;
    match parse(alloc, &words)? {
        Err(UsageError::Words(text)) => Ok(
            text.as_str().starts_with(beginning) && !text.as_str().ends_with('\n'),
        ),
        _ => Ok(false),
    }
}

// The words of each line are refused by a text that begins with what stands behind it. A row is `LINE => TEXT`, or empty.
fn all_are_refused(rt: &impl Abort, alloc: Global, rows: &str) -> Result<(), Fail> {
    for row in rows.lines() {
        match row.split_once(" => ") {
            Some((line, text)) => assert!(rt; is_refused(alloc, line, text)?, "at {line}"),
            None => assert!(rt; row.is_empty(), "{row}"),
        }
    }
    Ok(())
}

#[test]
fn unknown_options(rt: HostRuntime) -> Result<(), Fail> {
    all_are_refused(
        &rt,
        rt.alloc(),
        "
-x => unexpected argument '-x' found
keygen -a => unexpected argument '-a' found
keygen -i key => unexpected argument '-i' found
keygen -p word => unexpected argument '-p' found
inspect -o out => unexpected argument '-o' found
inspect -q => unexpected argument '-q' found
part -i key --no-sync 1 2 file => unexpected argument '--no-sync' found
encrypt -r a --header-limit 5 => unexpected argument '--header-limit' found
encrypt -r a --version => unexpected argument '--version' found
encrypt -A => unexpected argument '-A' found
decrypt -r a => unexpected argument '-r' found
decrypt -i key -a => unexpected argument '-a' found
migrate -a => unexpected argument '-a' found
part -i key -o out 1 2 file => unexpected argument '-o' found
part -i key -1 2 file => unexpected argument '-1' found
encrypt -r -x => unexpected argument '-x' found
keygen one two => unexpected argument 'two' found
encrypt -r a one two three => unexpected argument 'two' found
-d -i key one two => unexpected argument 'two' found
",
    )
}

#[test]
fn values_that_are_missing_or_given_twice(rt: HostRuntime) -> Result<(), Fail> {
    all_are_refused(
        &rt,
        rt.alloc(),
        "
keygen -o => a value is required for '--output <OUT>' but none was supplied
-r => a value is required for '--recipient <RECIPIENT>' but none was supplied
encrypt -r a -R => a value is required for '--recipients-file <FILE>' but none was supplied
decrypt plain -i => a value is required for '--identity <FILE>' but none was supplied
decrypt --header-limit => a value is required for '--header-limit <BYTES>' but none was supplied
-q -q => the argument '--quiet' cannot be used multiple times
part --from => a value is required for '--from <PLACE>' but none was supplied
keygen -o a -o b => the argument '--output <OUT>' cannot be used multiple times
encrypt -p a -p b => the argument '--passphrase-file <FILE>' cannot be used multiple times
-a -a => the argument '--armor' cannot be used multiple times
-r a --armor=yes => unexpected value 'yes' for '--armor' found
",
    )
}

// Whether the text that refuses the words of a line holds a text.
fn is_told_with(alloc: Global, line: &str, part: &str) -> Result<bool, AllocError> {
    let words = words_of(alloc, line)?;
    Ok(told(alloc, &words)?.as_str().contains(part))
}

// What was meant, and how the command is written.
#[test]
fn misspelt_options_are_told(rt: HostRuntime) -> Result<(), Fail> {
    let alloc = rt.alloc();
    let likely = "tip: a similar argument exists: '--recipient'";
    assert!(rt; is_told_with(alloc, "--recipent a", likely)?);
    assert!(rt; is_told_with(alloc, "encrypt --recipent a", likely)?);
    assert!(rt;
        is_told_with(
            alloc,
            "decrypt --idenity key",
            "similar argument exists: '--identity'"
        )?
    );
    assert!(rt; is_told_with(alloc, "keygen -x", "Usage: sazh keygen [-q] [-f]")?);
    assert!(rt; is_told_with(alloc, "-x", "Usage: sazh [-e] (-r RECIPIENT")?);
    Ok(())
}

// The recipe.
#[test]
fn a_passphrase_without_its_file(rt: HostRuntime) -> Result<(), Fail> {
    let alloc = rt.alloc();
    for line in [
        "-p",
        "-dp",
        "--passphrase-file",
        "-p -a",
        "encrypt -p",
        "decrypt -i key -p",
        "part -p",
    ] {
        assert!(rt;
            is_told_with(alloc, line, "read -rsp 'passphrase: ' word")?,
            "at {line}"
        );
    }
    all_ask(
        &rt,
        alloc,
        r#"
-p => Err(NoPassphraseFile)
decrypt -p -- file => Err(NoPassphraseFile)
"#,
    )
}

// Wherever a secret key stands, and whatever else is wrong.
#[test]
fn secret_keys_are_not_repeated(rt: HostRuntime) -> Result<(), Fail> {
    all_ask(
        &rt,
        rt.alloc(),
        r#"
AGE-SECRET-KEY-1QQ => Err(HoldsSecret)
decrypt -i key one AGE-SECRET-KEY-1QQ => Err(HoldsSecret)
-d --idenity=AGE-SECRET-KEY-1QQ => Err(HoldsSecret)
-d -xage-secret-key-1qq => Err(HoldsSecret)
part -i key AGE-SECRET-KEY-1QQ 1 file => Err(HoldsSecret)
keygen AGE-SECRET-KEY- => Err(HoldsSecret)
-i AGE-SECRET-KEY-1QQ => Err(HoldsSecret)
-d -i AGE-SECRET-KEY-1QQ file => Err(HoldsSecret)
decrypt -i key -i age-secret-key-1qq => Err(HoldsSecret)
decrypt -i key -p AGE-SECRET-KEY-1QQ => Err(HoldsSecret)
part -p AGE-SECRET-KEY-1QQ 1 2 file => Err(HoldsSecret)
migrate -i key AGE-SECRET-KEY-1QQ => Err(HoldsSecret)
rekey -i key -R AGE-SECRET-KEY-1QQ => Err(HoldsSecret)
rekey -i AGE-SECRET-KEY-1QQ -r age1a => Err(HoldsSecret)
verify -i AGE-SECRET-KEY-1QQ file => Err(HoldsSecret)
-R team -R AGE-SECRET-KEY-1QQ => Err(HoldsSecret)
-r age1a -o AGE-SECRET-KEY-1QQ => Err(HoldsSecret)
keygen -o AGE-SECRET-KEY-1QQ => Err(HoldsSecret)
keygen -y AGE-SECRET-KEY-1QQ => Err(HoldsSecret)
keygen -y key -o age-secret-key-1qq => Err(HoldsSecret)
encrypt -i AGE-SECRET-KEY-1QQ => Err(HoldsSecret)
inspect -i AGE-SECRET-KEY-1QQ file => Err(HoldsSecret)
inspect AGE-SECRET-KEY-1QQ => Err(HoldsSecret)
decrypt -i key --header-limit AGE-SECRET-KEY-1QQ => Err(HoldsSecret)
-r AGE-SECRET-KEY-1QQ => Ok(Encrypt { recipients: Listed([Text("AGE-SECRET-KEY-1QQ")]), armored: false, input: "-", output: Output { name: None, overwrite: false, skip_sync: false }, quiet: false })
"#,
    )
}

#[test]
fn mistakes_are_told(rt: HostRuntime) -> Result<(), Fail> {
    all_are_told(
        &rt,
        rt.alloc(),
        r#"
 => no command is given
mend => "mend" is no command, and to encrypt it -r, -R or -p is needed
-r a encrypt => the name of a command isn't the first word
-e -d => the option -e is given beside -d
-d -a => the option -d is given beside -r, -R or -a, which are to encrypt
-i key => the option -i needs -d, to decrypt, or -e, to encrypt to the recipients of its identities
-r a --header-limit 5 => the option --header-limit is given without -d, which is to decrypt
encrypt -p a -r b => the option -p is given beside -r, -R or -i
encrypt => no recipient is given: -r, -R or -p is needed
decrypt => no identity is given: -i or -p is needed
keygen AGE-SECRET-KEY-1 => a word holds a secret key, and no word is repeated: name the key's file, by -i FILE
part -i key --from 1 => one of the options --from and --count is given without the other
part -i key => PLACE is missing
part -i key 1 => COUNT is missing
part -i key 1 2 => IN is missing
part -i key one 2 file => PLACE is "one", and no decimal number below 2^64
part -i key 1 two file => COUNT is "two", and no decimal number below 2^64
part -i key 1 2 file more => the word "more" is one too many
keygen more => the word "more" is one too many
verify -i key --header-limit=-5 => --header-limit is "-5", and no decimal number below 2^64
"#,
    )
}

// A terminal is told nothing else, whatever the word.
#[test]
fn control_characters_are_escaped(rt: HostRuntime) -> Result<(), Fail> {
    let words = owned(rt.alloc(), &["two\nlines\r\"quoted\"\u{1b}[2J"])?;
    let text = told(rt.alloc(), &words)?;
    assert!(rt;
        text.as_str()
            .starts_with(r#""two\nlines\r\"quoted\"\u{1b}[2J" is no command"#)
    );
    Ok(())
}

// Nor by `clap`.
#[test]
fn clap_escapes_control_characters(rt: HostRuntime) -> Result<(), Fail> {
    let words = owned(rt.alloc(), &["keygen", "one", "two\u{1b}[2J"])?;
    let text = told(rt.alloc(), &words)?;
    assert!(rt;
        text.as_str()
            .starts_with("unexpected argument 'two\\u{1b}[2J' found\n\nUsage")
    );
    let words = owned(rt.alloc(), &["keygen", "one", "two\nlines"])?;
    let text = told(rt.alloc(), &words)?;
    assert!(rt;
        text.as_str()
            .starts_with("unexpected argument 'two\\nlines' found")
    );
    assert!(rt; text.as_str().lines().count() == 1);
    Ok(())
}
