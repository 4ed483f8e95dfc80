//! Where help is asked for, and what the texts hold.

use crate::sazh_words::answers::words_of;
use sazh_command::{Command, USAGE, parse};
use std::alloc::{AllocError, Global};
use std::process::Abort;
use std::test::Fail;

// Whether these words ask for a help that holds a text.
fn helps(alloc: Global, words: &[String], part: &str) -> Result<bool, AllocError> {
    match parse(alloc, words)? {
        Ok(Command::Help(text)) => Ok(text.as_str().contains(part)),
        _ => Ok(false),
    }
}

// Whether the words of a line ask for a help that holds a text.
fn line_helps(alloc: Global, line: &str, part: &str) -> Result<bool, AllocError> {
    let words = words_of(alloc, line)?;
    helps(alloc, &words, part)
}

// The words of each line ask for a help that holds what stands behind it. A row is `LINE => TEXT`, or empty.
fn all_help(rt: &impl Abort, alloc: Global, rows: &str) -> Result<(), Fail> {
    for row in rows.lines() {
        match row.split_once(" => ") {
            Some((line, part)) => assert!(rt; line_helps(alloc, line, part)?, "at {line}"),
            None => assert!(rt; row.is_empty(), "{row}"),
        }
    }
    Ok(())
}

#[test]
fn help_is_asked_for(rt: HostRuntime) -> Result<(), Fail> {
    all_help(
        &rt,
        rt.alloc(),
        "
--help => sazh -e (-r RECIPIENT | -R FILE | -i FILE).. [OPTION].. [IN]
-h => sazh -d (-i FILE.. [-p FILE] | -p FILE) [OPTION].. [IN]
-r age1a plain -h => exit status: 0 done
-h encrypt => examples:
keygen --help => sazh keygen -y [-f] [--no-sync] [-o OUT] [IN]
keygen -h => -y, --recipients
encrypt -h => sazh encrypt -p FILE [OPTION].. [IN]
encrypt -h => -i, --identity <FILE>
decrypt -h => --header-limit <BYTES>
decrypt -h => --no-sync
verify -h => -q, --quiet
inspect -h => --json
inspect -h => sazh inspect [-i FILE].. [-p FILE] [OPTION].. [IN]
encrypt -r a plain -h => -r, --recipient <RECIPIENT>
decrypt --help -i key => -i, --identity <FILE>
part -h => --from <PLACE>
part -h => PLACE COUNT IN
migrate -i key --help => -o, --output <OUT>
",
    )
}

// The first word that is wrong counts, and a request for help counts as one.
#[test]
fn help_comes_before_later_mistakes(rt: HostRuntime) -> Result<(), Fail> {
    all_help(
        &rt,
        rt.alloc(),
        "
-h -x => Usage: sazh [-e]
keygen -h -x => Usage: sazh keygen
part one two three four -h => Usage: sazh part
decrypt -p a -i b -h -o => Usage: sazh decrypt
encrypt -p a -r b -h => Usage: sazh encrypt
",
    )
}

// Whether the words of a line ask for help.
fn is_help(alloc: Global, line: &str) -> Result<bool, AllocError> {
    line_helps(alloc, line, "")
}

#[test]
fn help_is_not_asked_for(rt: HostRuntime) -> Result<(), Fail> {
    for line in [
        "-r=--help",
        "keygen -x -h",
        "keygen -o a -o b --help",
        "decrypt -i key -- --help",
        "-- --help",
        "help",
        "keygen -o-h",
    ] {
        assert!(rt; !is_help(rt.alloc(), line)?, "at {line}");
    }
    Ok(())
}

// Whether a text has lines of at most 80 characters of ASCII.
fn fits(text: &str) -> bool {
    let mut fits = text.is_ascii();
    for line in text.lines() {
        fits &= line.len() <= 80;
    }
    fits
}

// Whether the help that the words of a line ask for fits a terminal.
fn help_fits(alloc: Global, line: &str) -> Result<bool, AllocError> {
    let words = words_of(alloc, line)?;
    match parse(alloc, &words)? {
        Ok(Command::Help(text)) => Ok(fits(text.as_str())),
        _ => Ok(false),
    }
}

#[test]
fn texts_fit_a_terminal(rt: HostRuntime) -> Result<(), Fail> {
    assert!(rt; fits(USAGE) && USAGE.starts_with("Usage: sazh") && !USAGE.ends_with('\n'));
    for line in [
        "-h",
        "keygen -h",
        "encrypt -h",
        "decrypt -h",
        "part -h",
        "migrate -h",
        "rekey -h",
        "verify -h",
        "inspect -h",
    ] {
        assert!(rt; help_fits(rt.alloc(), line)?, "at {line}");
    }
    Ok(())
}

// The beginnings of lines of the help, and texts that stand within them.
const PARTS: [&str; 24] = [
    "\n  -e, --encrypt ",
    "\n  -d, --decrypt ",
    "\n  -r, --recipient <RECIPIENT> ",
    "\n  -R, --recipients-file <FILE> ",
    "\n  -i, --identity <FILE> ",
    "\n  -p, --passphrase-file <FILE> ",
    "\n  -a, --armor ",
    "\n  -o, --output <OUT> ",
    "\n  -f, --force ",
    "\n      --no-sync ",
    "\n      --header-limit <BYTES> ",
    "\n  -q, --quiet ",
    "\n  -h, --help ",
    "\n  -V, --version ",
    "\n  keygen ",
    "\n  encrypt ",
    "\n  decrypt ",
    "\n  part ",
    "\n  migrate ",
    "\n  rekey ",
    "\n  verify ",
    "\n  inspect ",
    "kept secret",
    "read -rsp 'passphrase: ' word",
];

#[test]
fn help_names_each_option(rt: HostRuntime) -> Result<(), Fail> {
    for text in PARTS {
        assert!(rt; line_helps(rt.alloc(), "--help", text)?, "{text}");
    }
    Ok(())
}
