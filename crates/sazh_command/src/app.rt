//! The program's command line, as `clap` is told of it: the commands, and the options and operands of each.
ghost use Rattle.std.specs.Prelude.{IfOk, codes};
ghost use Rattle.clap.specs.Simple.{App, new_app, with_subcommand};
ghost use Rattle.sazh_command.specs.App.{IsOption, IsCommand, Extends, text_rule, texts_rule, flag_rule, long_flag_rule, number_rule, input_rule, operands_rule, sazh, alone, with_settings, with_kinds, keygen, encrypt, decrypt, part, migrate, rekey, verify, inspect, with_encrypting, with_identities, with_passphrase, with_header_limit, with_opening, with_output, with_quiet};

use crate::help::{
    ABOUT, ABOUT_DECRYPT, ABOUT_ENCRYPT, ABOUT_INSPECT, ABOUT_KEYGEN, ABOUT_MIGRATE, ABOUT_PART,
    ABOUT_REKEY, ABOUT_VERIFY, AFTER_DECRYPT, AFTER_ENCRYPT, AFTER_INSPECT, AFTER_KEYGEN,
    AFTER_MIGRATE, AFTER_PART, AFTER_REKEY, AFTER_TOP, AFTER_VERIFY, USAGE_DECRYPT, USAGE_ENCRYPT,
    USAGE_INSPECT, USAGE_KEYGEN, USAGE_MIGRATE, USAGE_PART, USAGE_REKEY, USAGE_TOP, USAGE_VERIFY,
    VERSION,
};
use clap::{Arg, ArgAction, Command};
use std::alloc::{AllocError, Global};

// What `-i` is for where is decrypted.
const WITH: &str = "Decrypt with the identities in FILE";

// An option whose value is a text, given once at most.
fn text_option<'a>(
    alloc: Global,
    id: &'a str,
    short: char,
    value: &'a str,
    help: &'a str,
) -> Arg<'a>
    ensures { IsOption (text_rule id.now short) result }
{
    Arg::new(alloc, id)
        .short(short)
        .long(id)
        .value_name(value)
        .help(help)
}

// An option whose values are texts, given any number of times.
fn texts_option<'a>(
    alloc: Global,
    id: &'a str,
    short: char,
    value: &'a str,
    help: &'a str,
) -> Arg<'a>
    ensures { IsOption (texts_rule id.now short) result }
{
    text_option(alloc, id, short, value, help).action(ArgAction::Append)
}

// An option without a value.
fn flag<'a>(alloc: Global, id: &'a str, short: char, help: &'a str) -> Arg<'a>
    ensures { IsOption (flag_rule id.now short) result }
{
    Arg::new(alloc, id)
        .short(short)
        .long(id)
        .action(ArgAction::SetTrue)
        .help(help)
}

// The same, with a long name alone.
fn long_flag<'a>(alloc: Global, id: &'a str, help: &'a str) -> Arg<'a>
    ensures { IsOption (long_flag_rule id.now) result }
{
    Arg::new(alloc, id)
        .long(id)
        .action(ArgAction::SetTrue)
        .help(help)
}

// An option whose value is a number, with a long name alone.
fn number_option<'a>(alloc: Global, id: &'a str, value: &'a str, help: &'a str) -> Arg<'a>
    ensures { IsOption (number_rule id.now) result }
{
    Arg::new(alloc, id).long(id).value_name(value).help(help)
}

// IN.
fn input<'a>(alloc: Global) -> Arg<'a>
    ensures { IsOption input_rule result }
{
    Arg::new(alloc, "input")
        .value_name("IN")
        .help("The file to read; -, or none, is standard input")
}

// The words of `part`.
fn operands<'a>(alloc: Global) -> Arg<'a>
    ensures { IsOption operands_rule result }
{
    Arg::new(alloc, "operands")
        .value_name("PLACE COUNT IN")
        .action(ArgAction::Append)
        .help("The first byte, how many, and the file")
}

// The options that say to whom is encrypted, and how.
fn with_encrypting<'a>(alloc: Global, command: Command<'a>) -> Result<Command<'a>, AllocError>
    ensures { IfOk result (Extends with_encrypting command.entry) }
{
    command
        .arg(texts_option(
            alloc,
            "recipient",
            'r',
            "RECIPIENT",
            "Encrypt to this recipient, age1..",
        ))?
        .arg(texts_option(
            alloc,
            "recipients-file",
            'R',
            "FILE",
            "Encrypt to the recipients in FILE, one a line",
        ))?
        .arg(flag(alloc, "armor", 'a', "Write armor, which is text"))
}

// The option that names files of identities.
fn with_identities<'a>(
    alloc: Global,
    command: Command<'a>,
    help: &'a str,
) -> Result<Command<'a>, AllocError>
    ensures { IfOk result (Extends with_identities command.entry) }
{
    command.arg(texts_option(alloc, "identity", 'i', "FILE", help))
}

// The option that names the file of a passphrase.
fn with_passphrase<'a>(alloc: Global, command: Command<'a>) -> Result<Command<'a>, AllocError>
    ensures { IfOk result (Extends with_passphrase command.entry) }
{
    command.arg(text_option(
        alloc,
        "passphrase-file",
        'p',
        "FILE",
        "Its first line is the passphrase",
    ))
}

// The option that says how long a header may be.
fn with_header_limit<'a>(alloc: Global, command: Command<'a>) -> Result<Command<'a>, AllocError>
    ensures { IfOk result (Extends with_header_limit command.entry) }
{
    command.arg(number_option(
        alloc,
        "header-limit",
        "BYTES",
        "The longest header that is read, or 16 MiB",
    ))
}

// The options that say how a file of age is opened.
fn with_opening<'a>(
    alloc: Global,
    command: Command<'a>,
    help: &'a str,
) -> Result<Command<'a>, AllocError>
    ensures { IfOk result (Extends with_opening command.entry) }
{
    let with = with_identities(alloc, command, help)?;
    let under = with_passphrase(alloc, with)?;
    with_header_limit(alloc, under)
}

// The options that say where the output goes, and how.
fn with_output<'a>(alloc: Global, command: Command<'a>) -> Result<Command<'a>, AllocError>
    ensures { IfOk result (Extends with_output command.entry) }
{
    command
        .arg(text_option(
            alloc,
            "output",
            'o',
            "OUT",
            "Write to OUT; -, or none, is standard output",
        ))?
        .arg(flag(alloc, "force", 'f', "Replace OUT where it is there"))?
        .arg(long_flag(alloc, "no-sync", "Don't wait until OUT is on the disk"))
}

// The option that silences what is told meanwhile.
fn with_quiet<'a>(alloc: Global, command: Command<'a>) -> Result<Command<'a>, AllocError>
    ensures { IfOk result (Extends with_quiet command.entry) }
{
    command.arg(flag(
        alloc,
        "quiet",
        'q',
        "Tell of no progress, and of no new recipient",
    ))
}

// A command with its texts, and no options yet.
fn named<'a>(
    alloc: Global,
    name: &'a str,
    about: &'a str,
    usage: &'a str,
    after: &'a str,
) -> Command<'a>
    ensures { IsCommand (new_app name.now) result }
{
    Command::new(alloc, name)
        .about(about)
        .override_usage(usage)
        .after_help(after)
}

// `keygen`.
fn keygen<'a>(alloc: Global) -> Result<Command<'a>, AllocError>
    ensures { IfOk result (IsCommand keygen) }
{
    let keygen = named(alloc, "keygen", ABOUT_KEYGEN, USAGE_KEYGEN, AFTER_KEYGEN);
    let to = with_output(alloc, keygen)?;
    with_quiet(alloc, to)?
        .arg(flag(
            alloc,
            "recipients",
            'y',
            "Write the recipients of the identities in IN",
        ))?
        .arg(input(alloc))
}

// `encrypt`.
fn encrypt<'a>(alloc: Global) -> Result<Command<'a>, AllocError>
    ensures { IfOk result (IsCommand encrypt) }
{
    let encrypt = named(
        alloc,
        "encrypt",
        ABOUT_ENCRYPT,
        USAGE_ENCRYPT,
        AFTER_ENCRYPT,
    );
    let to = with_encrypting(alloc, encrypt)?;
    let of = with_identities(alloc, to, "Encrypt to the identities in FILE")?;
    let under = with_passphrase(alloc, of)?;
    let out = with_output(alloc, under)?;
    with_quiet(alloc, out)?.arg(input(alloc))
}

// `decrypt`.
fn decrypt<'a>(alloc: Global) -> Result<Command<'a>, AllocError>
    ensures { IfOk result (IsCommand decrypt) }
{
    let decrypt = named(
        alloc,
        "decrypt",
        ABOUT_DECRYPT,
        USAGE_DECRYPT,
        AFTER_DECRYPT,
    );
    let with = with_opening(alloc, decrypt, WITH)?;
    let out = with_output(alloc, with)?;
    with_quiet(alloc, out)?.arg(input(alloc))
}

// `part`.
fn part<'a>(alloc: Global) -> Result<Command<'a>, AllocError>
    ensures { IfOk result (IsCommand part) }
{
    let part = named(alloc, "part", ABOUT_PART, USAGE_PART, AFTER_PART);
    let with = with_opening(alloc, part, WITH)?;
    with_quiet(alloc, with)?
        .arg(number_option(
            alloc,
            "from",
            "PLACE",
            "The first byte, where 0 is that of the content",
        ))?
        .arg(number_option(
            alloc,
            "count",
            "N",
            "How many bytes, or fewer where it ends",
        ))?
        .arg(operands(alloc))
}

// `migrate`.
fn migrate<'a>(alloc: Global) -> Result<Command<'a>, AllocError>
    ensures { IfOk result (IsCommand migrate) }
{
    let migrate = named(
        alloc,
        "migrate",
        ABOUT_MIGRATE,
        USAGE_MIGRATE,
        AFTER_MIGRATE,
    );
    let with = with_opening(alloc, migrate, WITH)?;
    let out = with_output(alloc, with)?;
    with_quiet(alloc, out)?.arg(input(alloc))
}

// `rekey`.
fn rekey<'a>(alloc: Global) -> Result<Command<'a>, AllocError>
    ensures { IfOk result (IsCommand rekey) }
{
    let rekey = named(alloc, "rekey", ABOUT_REKEY, USAGE_REKEY, AFTER_REKEY);
    let to = with_encrypting(alloc, rekey)?;
    let with = with_opening(alloc, to, WITH)?;
    let out = with_output(alloc, with)?;
    with_quiet(alloc, out)?.arg(input(alloc))
}

// `verify`.
fn verify<'a>(alloc: Global) -> Result<Command<'a>, AllocError>
    ensures { IfOk result (IsCommand verify) }
{
    let verify = named(alloc, "verify", ABOUT_VERIFY, USAGE_VERIFY, AFTER_VERIFY);
    let with = with_opening(alloc, verify, WITH)?;
    with_quiet(alloc, with)?.arg(input(alloc))
}

// `inspect`.
fn inspect<'a>(alloc: Global) -> Result<Command<'a>, AllocError>
    ensures { IfOk result (IsCommand inspect) }
{
    let inspect = named(
        alloc,
        "inspect",
        ABOUT_INSPECT,
        USAGE_INSPECT,
        AFTER_INSPECT,
    );
    with_opening(
        alloc,
        inspect,
        "Tell whether the identities in FILE open it",
    )?
    .arg(long_flag(alloc, "json", "Write JSON, one object"))?
    .arg(input(alloc))
}

// The program's name, texts and settings.
fn titled<'a>(alloc: Global) -> Command<'a>
    ensures { IsCommand (with_settings (new_app (codes "sazh"))) result }
{
    Command::new(alloc, "sazh")
        .version(VERSION)
        .about(ABOUT)
        .override_usage(USAGE_TOP)
        .after_help(AFTER_TOP)
        .no_binary_name(true)
        .disable_help_subcommand(true)
}

// The options that say which of the two is done without a command.
fn with_kinds<'a>(alloc: Global, command: Command<'a>) -> Result<Command<'a>, AllocError>
    ensures { IfOk result (Extends with_kinds command.entry) }
{
    command
        .arg(flag(
            alloc,
            "encrypt",
            'e',
            "Encrypt, which is done where -d isn't given",
        ))?
        .arg(flag(alloc, "decrypt", 'd', "Decrypt"))
}

// The program without a command.
fn alone<'a>(alloc: Global) -> Result<Command<'a>, AllocError>
    ensures { IfOk result (IsCommand alone) }
{
    let program = with_kinds(alloc, titled(alloc))?;
    let to = with_encrypting(alloc, program)?;
    let with = with_opening(
        alloc,
        to,
        "Decrypt, or by -e encrypt, with these identities",
    )?;
    let out = with_output(alloc, with)?;
    with_quiet(alloc, out)?.arg(input(alloc))
}

// A program with one command more, where both could be made.
fn with_command<'a>(
    program: Result<Command<'a>, AllocError>,
    command: Result<Command<'a>, AllocError>,
) -> Result<Command<'a>, AllocError>
    ensures { (app below : App) → IfOk program.entry (IsCommand app) → IfOk command.entry (IsCommand below)
        → IfOk result (IsCommand (with_subcommand app below.top)) }
{
    program?.subcommand(command?)
}

/// The program with its commands. Its words are those after the program's name.
pub fn sazh<'a>(alloc: Global) -> Result<Command<'a>, AllocError>
    ensures { IfOk result (IsCommand sazh) }
{
    let keys = with_command(alone(alloc), keygen(alloc));
    let to = with_command(keys, encrypt(alloc));
    let of = with_command(to, decrypt(alloc));
    let some = with_command(of, part(alloc));
    let old = with_command(some, migrate(alloc));
    let again = with_command(old, rekey(alloc));
    let whole = with_command(again, verify(alloc));
    with_command(whole, inspect(alloc))
}
