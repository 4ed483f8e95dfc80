//! The texts that say how a command line is written. Each ends without a line end.

/// What `--version` tells: the version, and the logic of the kit that proves it, as `rt version` names that.
pub const VERSION: &str = "0.1.0 (logic dac8208d650f15bf)";

/// The synopsis alone, which follows what is wrong with a command line.
pub const USAGE: &str = "Usage: sazh [-e] (-r RECIPIENT | -R FILE).. [-a] [-o OUT] [IN]
       sazh -e (-r RECIPIENT | -R FILE | -i FILE).. [-a] [-o OUT] [IN]
       sazh [-e] -p FILE [-a] [-o OUT] [IN]
       sazh -d (-i FILE.. [-p FILE] | -p FILE) [-o OUT] [IN]
       sazh keygen [-o OUT]
       sazh keygen -y [-o OUT] [IN]
       sazh encrypt | decrypt | part | migrate | rekey | verify | inspect ..

For more information, try '--help', also behind a command.";

pub const USAGE_TOP: &str = "sazh [-e] (-r RECIPIENT | -R FILE).. [OPTION].. [IN]
       sazh -e (-r RECIPIENT | -R FILE | -i FILE).. [OPTION].. [IN]
       sazh [-e] -p FILE [OPTION].. [IN]
       sazh -d (-i FILE.. [-p FILE] | -p FILE) [OPTION].. [IN]
       sazh COMMAND ..";

pub const USAGE_KEYGEN: &str = "sazh keygen [-q] [-f] [--no-sync] [-o OUT]
       sazh keygen -y [-f] [--no-sync] [-o OUT] [IN]";

pub const USAGE_ENCRYPT: &str = "sazh encrypt (-r RECIPIENT | -R FILE | -i FILE).. [OPTION].. [IN]
       sazh encrypt -p FILE [OPTION].. [IN]";

pub const USAGE_DECRYPT: &str = "sazh decrypt (-i FILE.. [-p FILE] | -p FILE) [OPTION].. [IN]";

pub const USAGE_PART: &str = "sazh part (-i FILE.. [-p FILE] | -p FILE) [OPTION].. PLACE COUNT IN
       sazh part (-i FILE.. [-p FILE] | -p FILE) --from PLACE --count N
                 [OPTION].. [IN]";

pub const USAGE_MIGRATE: &str = "sazh migrate (-i FILE.. [-p FILE] | -p FILE) [OPTION].. [IN]";

pub const USAGE_REKEY: &str = "sazh rekey (-i FILE.. [-p FILE] | -p FILE) (-r RECIPIENT | -R FILE)..
                  [OPTION].. [IN]";

pub const USAGE_VERIFY: &str = "sazh verify (-i FILE.. [-p FILE] | -p FILE) [OPTION].. [IN]";

pub const USAGE_INSPECT: &str = "sazh inspect [-i FILE].. [-p FILE] [OPTION].. [IN]";

pub const ABOUT: &str = "Encrypts and decrypts files of the format age-encryption.org/v1.
Without a command it takes the options of age, and encrypts unless -d is given.";

pub const ABOUT_KEYGEN: &str = "Makes a new identity, which decrypts. Its file must be kept secret.
By -y it writes the recipients of those in IN, a line each.";

pub const ABOUT_ENCRYPT: &str =
    "Encrypts IN to each of the recipients, or to who knows a passphrase.";

pub const ABOUT_DECRYPT: &str = "Decrypts IN, in armor or not.";

pub const ABOUT_PART: &str = "Decrypts COUNT bytes of IN from byte PLACE on to standard output.";

pub const ABOUT_MIGRATE: &str = "Rewrites IN, a file from before the standard, with a new header.";

pub const ABOUT_REKEY: &str = "Decrypts IN and encrypts it to others, in one pass.";

pub const ABOUT_VERIFY: &str = "Decrypts IN to its end, and tells its length and its SHA-256.";

pub const ABOUT_INSPECT: &str = "Tells what IN is, as a file of age, for which no key is needed.";

pub const AFTER_TOP: &str =
    "-r, -R and -i may be given more than once: the recipients of -r come first,
then those of -R, and then those of -i. Of the files of -i, -R and -p and IN one
may be -, which is standard input. A value that begins with - stands behind =,
as in --output=-x, and IN behind --. An IN that is named as a command is written
./keygen. Bytes that are no text go to a terminal by -o - alone. What takes long
is told on standard error, where that is a terminal, unless -q is given.

Nothing is asked on a terminal. The passphrase is the first line of the file of
-p, without its end; beside -i it is that of files of identities that are
encrypted. To type it, or to take it from a password manager, in bash:
  read -rsp 'passphrase: ' word
  sazh -p <(printf '%s\\n' \"$word\") -o notes.age notes.txt
  sazh -d -p <(pass show notes) notes.age

exit status: 0 done; 1 refused, and a line on standard error says why; 2 this
is no command line: standard error says what is wrong, and how one is written.

examples:
  sazh keygen -o key.txt
  sazh -r age1ql3z7hjy54pw3hyww5ayyfg7zqgvc7w3j2elw8zmrj2kg5sfn9aqmcac8p \\
    -o notes.age notes.txt
  sazh -d -i key.txt -o notes.txt notes.age
  sazh encrypt -p passphrase.txt -a < notes.txt > notes.age
  sazh part -i key.txt 1000000 4096 disk.age > piece
  sazh migrate -i key.txt -o new.age old.age
  sazh rekey -i key.txt -R team.txt -o new.age old.age
  sazh verify -i key.txt notes.age
  sazh inspect --json notes.age";

pub const AFTER_KEYGEN: &str =
    "The first line of the file has the recipient: # public key: age1.. It is told
on standard error too, unless standard output is a terminal, or -q is given.";

pub const AFTER_ENCRYPT: &str =
    "-r, -R and -i may be given more than once. The passphrase is the first line of
the file of -p, without its end: sazh --help says how to type it.";

pub const AFTER_DECRYPT: &str =
    "-i may be given more than once. The passphrase is the first line of the file of
-p, without its end: that of IN, or beside -i that of files of identities that
are encrypted. sazh --help says how to type it.";

pub const AFTER_PART: &str =
    "PLACE, COUNT and N are decimal numbers below 2^64. It seeks in a file, also as
standard input, and reads a pipe into memory. Beside --from and --count the one
operand is IN.";

pub const AFTER_REKEY: &str =
    "IN is decrypted with the identities of -i, or the passphrase of -p, and OUT is
for the recipients of -r and -R alone. A file that was cut or changed makes no
whole OUT.";

pub const AFTER_VERIFY: &str =
    "Two lines tell of its content: length N, in bytes, and sha256 X, in hexadecimal
digits. Nothing else is written, and nothing at all where IN was cut or changed.";

pub const AFTER_INSPECT: &str =
    "It tells the form, each stanza of the header, and the sizes of the header, the
payload and the content, and what is wrong where it is damaged as far as can be
seen without a key. With -i or -p it tells who opens it, too.";

pub const AFTER_MIGRATE: &str = "OUT is without armor, and its content stays encrypted.";
