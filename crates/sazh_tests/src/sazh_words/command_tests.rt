//! Command lines of the synopsis.

use crate::sazh_words::answers::{all_ask, words_ask};
use std::test::Fail;

#[test]
fn keygen(rt: HostRuntime) -> Result<(), Fail> {
    all_ask(
        &rt,
        rt.alloc(),
        r#"
keygen => Ok(Keygen { output: Output { name: None, overwrite: false, skip_sync: false }, quiet: false })
keygen -f => Ok(Keygen { output: Output { name: None, overwrite: true, skip_sync: false }, quiet: false })
keygen -o key => Ok(Keygen { output: Output { name: Some("key"), overwrite: false, skip_sync: false }, quiet: false })
keygen -o key -f => Ok(Keygen { output: Output { name: Some("key"), overwrite: true, skip_sync: false }, quiet: false })
keygen -fo key => Ok(Keygen { output: Output { name: Some("key"), overwrite: true, skip_sync: false }, quiet: false })
keygen --force --output=key => Ok(Keygen { output: Output { name: Some("key"), overwrite: true, skip_sync: false }, quiet: false })
keygen --output key => Ok(Keygen { output: Output { name: Some("key"), overwrite: false, skip_sync: false }, quiet: false })
keygen -o - => Ok(Keygen { output: Output { name: Some("-"), overwrite: false, skip_sync: false }, quiet: false })
keygen -- => Ok(Keygen { output: Output { name: None, overwrite: false, skip_sync: false }, quiet: false })
"#,
    )
}

#[test]
fn encrypt_to_recipients(rt: HostRuntime) -> Result<(), Fail> {
    all_ask(
        &rt,
        rt.alloc(),
        r#"
encrypt -r age1a => Ok(Encrypt { recipients: Listed([Text("age1a")]), armored: false, input: "-", output: Output { name: None, overwrite: false, skip_sync: false }, quiet: false })
encrypt -R team plain => Ok(Encrypt { recipients: Listed([File("team")]), armored: false, input: "plain", output: Output { name: None, overwrite: false, skip_sync: false }, quiet: false })
encrypt -r age1a -a -f -o file plain => Ok(Encrypt { recipients: Listed([Text("age1a")]), armored: true, input: "plain", output: Output { name: Some("file"), overwrite: true, skip_sync: false }, quiet: false })
encrypt - -f -r age1a => Ok(Encrypt { recipients: Listed([Text("age1a")]), armored: false, input: "-", output: Output { name: None, overwrite: true, skip_sync: false }, quiet: false })
"#,
    )
}

#[test]
fn recipients_come_before_files_of_them(rt: HostRuntime) -> Result<(), Fail> {
    all_ask(
        &rt,
        rt.alloc(),
        r#"
encrypt -r b -R c -r a -r b in -R a => Ok(Encrypt { recipients: Listed([Text("b"), Text("a"), Text("b"), File("c"), File("a")]), armored: false, input: "in", output: Output { name: None, overwrite: false, skip_sync: false }, quiet: false })
encrypt -R c -r b => Ok(Encrypt { recipients: Listed([Text("b"), File("c")]), armored: false, input: "-", output: Output { name: None, overwrite: false, skip_sync: false }, quiet: false })
"#,
    )
}

#[test]
fn encrypt_to_a_passphrase(rt: HostRuntime) -> Result<(), Fail> {
    all_ask(
        &rt,
        rt.alloc(),
        r#"
encrypt -p secret => Ok(Encrypt { recipients: PassphraseFile("secret"), armored: false, input: "-", output: Output { name: None, overwrite: false, skip_sync: false }, quiet: false })
encrypt --passphrase-file=secret => Ok(Encrypt { recipients: PassphraseFile("secret"), armored: false, input: "-", output: Output { name: None, overwrite: false, skip_sync: false }, quiet: false })
encrypt -a plain -o file -p secret => Ok(Encrypt { recipients: PassphraseFile("secret"), armored: true, input: "plain", output: Output { name: Some("file"), overwrite: false, skip_sync: false }, quiet: false })
"#,
    )
}

#[test]
fn decrypt(rt: HostRuntime) -> Result<(), Fail> {
    all_ask(
        &rt,
        rt.alloc(),
        r#"
decrypt -i key => Ok(Decrypt { opening: Opening { identities: Files(["key"]), header_limit: 16777216 }, input: "-", output: Output { name: None, overwrite: false, skip_sync: false }, quiet: false })
decrypt -i b file -i a -f -o plain => Ok(Decrypt { opening: Opening { identities: Files(["b", "a"]), header_limit: 16777216 }, input: "file", output: Output { name: Some("plain"), overwrite: true, skip_sync: false }, quiet: false })
decrypt -i b -p secret -i a file => Ok(Decrypt { opening: Opening { identities: ProtectedFiles(["b", "a"], "secret"), header_limit: 16777216 }, input: "file", output: Output { name: None, overwrite: false, skip_sync: false }, quiet: false })
decrypt -p secret - => Ok(Decrypt { opening: Opening { identities: PassphraseFile("secret"), header_limit: 16777216 }, input: "-", output: Output { name: None, overwrite: false, skip_sync: false }, quiet: false })
"#,
    )
}

#[test]
fn part(rt: HostRuntime) -> Result<(), Fail> {
    all_ask(
        &rt,
        rt.alloc(),
        r#"
part -i key 7 20 file => Ok(Part { opening: Opening { identities: Files(["key"]), header_limit: 16777216 }, place: 7, count: 20, input: "file", quiet: false })
part 7 -i b 20 -i a - => Ok(Part { opening: Opening { identities: Files(["b", "a"]), header_limit: 16777216 }, place: 7, count: 20, input: "-", quiet: false })
part -p secret -i key 7 20 file => Ok(Part { opening: Opening { identities: ProtectedFiles(["key"], "secret"), header_limit: 16777216 }, place: 7, count: 20, input: "file", quiet: false })
part -i key --from 7 --count 20 file => Ok(Part { opening: Opening { identities: Files(["key"]), header_limit: 16777216 }, place: 7, count: 20, input: "file", quiet: false })
part --count=20 file -i key --from=7 => Ok(Part { opening: Opening { identities: Files(["key"]), header_limit: 16777216 }, place: 7, count: 20, input: "file", quiet: false })
part -p secret --from 7 --count 20 => Ok(Part { opening: Opening { identities: PassphraseFile("secret"), header_limit: 16777216 }, place: 7, count: 20, input: "-", quiet: false })
part 0 18446744073709551615 file -p secret => Ok(Part { opening: Opening { identities: PassphraseFile("secret"), header_limit: 16777216 }, place: 0, count: 18446744073709551615, input: "file", quiet: false })
"#,
    )
}

// The options and operands of `decrypt`.
#[test]
fn migrate(rt: HostRuntime) -> Result<(), Fail> {
    all_ask(
        &rt,
        rt.alloc(),
        r#"
migrate -i key => Ok(Migrate { opening: Opening { identities: Files(["key"]), header_limit: 16777216 }, input: "-", output: Output { name: None, overwrite: false, skip_sync: false }, quiet: false })
migrate -i b file -i a -f -o new => Ok(Migrate { opening: Opening { identities: Files(["b", "a"]), header_limit: 16777216 }, input: "file", output: Output { name: Some("new"), overwrite: true, skip_sync: false }, quiet: false })
migrate -o new -i b -p secret -i a file => Ok(Migrate { opening: Opening { identities: ProtectedFiles(["b", "a"], "secret"), header_limit: 16777216 }, input: "file", output: Output { name: Some("new"), overwrite: false, skip_sync: false }, quiet: false })
migrate -p secret - => Ok(Migrate { opening: Opening { identities: PassphraseFile("secret"), header_limit: 16777216 }, input: "-", output: Output { name: None, overwrite: false, skip_sync: false }, quiet: false })
migrate -i-o -- -f => Ok(Migrate { opening: Opening { identities: Files(["-o"]), header_limit: 16777216 }, input: "-f", output: Output { name: None, overwrite: false, skip_sync: false }, quiet: false })
"#,
    )
}

// Who decrypts, and for whom the new file is.
#[test]
fn rekey(rt: HostRuntime) -> Result<(), Fail> {
    all_ask(
        &rt,
        rt.alloc(),
        r#"
rekey -i key -r age1a => Ok(Rekey { opening: Opening { identities: Files(["key"]), header_limit: 16777216 }, recipients: [Text("age1a")], armored: false, input: "-", output: Output { name: None, overwrite: false, skip_sync: false }, quiet: false })
rekey -R team -p word -i a -af -o new -r age1a old => Ok(Rekey { opening: Opening { identities: ProtectedFiles(["a"], "word"), header_limit: 16777216 }, recipients: [Text("age1a"), File("team")], armored: true, input: "old", output: Output { name: Some("new"), overwrite: true, skip_sync: false }, quiet: false })
rekey -p word --recipients-file=team -- -f => Ok(Rekey { opening: Opening { identities: PassphraseFile("word"), header_limit: 16777216 }, recipients: [File("team")], armored: false, input: "-f", output: Output { name: None, overwrite: false, skip_sync: false }, quiet: false })
"#,
    )
}

#[test]
fn verify(rt: HostRuntime) -> Result<(), Fail> {
    all_ask(
        &rt,
        rt.alloc(),
        r#"
verify -i key => Ok(Verify { opening: Opening { identities: Files(["key"]), header_limit: 16777216 }, input: "-", quiet: false })
verify file -i b -p word -i a => Ok(Verify { opening: Opening { identities: ProtectedFiles(["b", "a"], "word"), header_limit: 16777216 }, input: "file", quiet: false })
verify --passphrase-file word - => Ok(Verify { opening: Opening { identities: PassphraseFile("word"), header_limit: 16777216 }, input: "-", quiet: false })
"#,
    )
}

#[test]
fn inspect(rt: HostRuntime) -> Result<(), Fail> {
    all_ask(
        &rt,
        rt.alloc(),
        r#"
inspect => Ok(Inspect { identities: None, header_limit: 16777216, json: false, input: "-" })
inspect --json file => Ok(Inspect { identities: None, header_limit: 16777216, json: true, input: "file" })
inspect -i b file -i a => Ok(Inspect { identities: Some(Files(["b", "a"])), header_limit: 16777216, json: false, input: "file" })
inspect -i key -p word --header-limit 4096 => Ok(Inspect { identities: Some(ProtectedFiles(["key"], "word")), header_limit: 4096, json: false, input: "-" })
inspect -p word --json - => Ok(Inspect { identities: Some(PassphraseFile("word")), header_limit: 16777216, json: true, input: "-" })
"#,
    )
}

#[test]
fn recipients_of_identities(rt: HostRuntime) -> Result<(), Fail> {
    all_ask(
        &rt,
        rt.alloc(),
        r#"
keygen -y => Ok(RecipientsOf { input: "-", output: Output { name: None, overwrite: false, skip_sync: false } })
keygen -y -o team key => Ok(RecipientsOf { input: "key", output: Output { name: Some("team"), overwrite: false, skip_sync: false } })
keygen key --recipients -f -o team => Ok(RecipientsOf { input: "key", output: Output { name: Some("team"), overwrite: true, skip_sync: false } })
"#,
    )
}

// Behind those of -r and -R, whatever the order of the words.
#[test]
fn encrypt_to_identities(rt: HostRuntime) -> Result<(), Fail> {
    all_ask(
        &rt,
        rt.alloc(),
        r#"
encrypt -i key => Ok(Encrypt { recipients: Listed([IdentityFile("key")]), armored: false, input: "-", output: Output { name: None, overwrite: false, skip_sync: false }, quiet: false })
encrypt -i b -R team -i a -r age1a in => Ok(Encrypt { recipients: Listed([Text("age1a"), File("team"), IdentityFile("b"), IdentityFile("a")]), armored: false, input: "in", output: Output { name: None, overwrite: false, skip_sync: false }, quiet: false })
-e -i key in => Ok(Encrypt { recipients: Listed([IdentityFile("key")]), armored: false, input: "in", output: Output { name: None, overwrite: false, skip_sync: false }, quiet: false })
-r age1a --encrypt --identity=key => Ok(Encrypt { recipients: Listed([Text("age1a"), IdentityFile("key")]), armored: false, input: "-", output: Output { name: None, overwrite: false, skip_sync: false }, quiet: false })
"#,
    )
}

// -q, --no-sync and --header-limit, which is 16 MiB elsewhere.
#[test]
fn quiet_unsynced_and_limited(rt: HostRuntime) -> Result<(), Fail> {
    all_ask(
        &rt,
        rt.alloc(),
        r#"
keygen -q --no-sync -o key => Ok(Keygen { output: Output { name: Some("key"), overwrite: false, skip_sync: true }, quiet: true })
-q -r age1a => Ok(Encrypt { recipients: Listed([Text("age1a")]), armored: false, input: "-", output: Output { name: None, overwrite: false, skip_sync: false }, quiet: true })
encrypt -r age1a --no-sync => Ok(Encrypt { recipients: Listed([Text("age1a")]), armored: false, input: "-", output: Output { name: None, overwrite: false, skip_sync: true }, quiet: false })
-dqi key --header-limit=1 => Ok(Decrypt { opening: Opening { identities: Files(["key"]), header_limit: 1 }, input: "-", output: Output { name: None, overwrite: false, skip_sync: false }, quiet: true })
part -i key --header-limit 18446744073709551615 -q 1 2 in => Ok(Part { opening: Opening { identities: Files(["key"]), header_limit: 18446744073709551615 }, place: 1, count: 2, input: "in", quiet: true })
migrate -i key --quiet --header-limit 0 => Ok(Migrate { opening: Opening { identities: Files(["key"]), header_limit: 0 }, input: "-", output: Output { name: None, overwrite: false, skip_sync: false }, quiet: true })
rekey -i key -r age1a --header-limit 7 --no-sync -o out => Ok(Rekey { opening: Opening { identities: Files(["key"]), header_limit: 7 }, recipients: [Text("age1a")], armored: false, input: "-", output: Output { name: Some("out"), overwrite: false, skip_sync: true }, quiet: false })
verify -qi key --header-limit 7 => Ok(Verify { opening: Opening { identities: Files(["key"]), header_limit: 7 }, input: "-", quiet: true })
"#,
    )
}

// The options of `age`, without a command.
#[test]
fn the_options_of_age(rt: HostRuntime) -> Result<(), Fail> {
    all_ask(
        &rt,
        rt.alloc(),
        r#"
-r age1a => Ok(Encrypt { recipients: Listed([Text("age1a")]), armored: false, input: "-", output: Output { name: None, overwrite: false, skip_sync: false }, quiet: false })
-e -r age1a -a -o file plain => Ok(Encrypt { recipients: Listed([Text("age1a")]), armored: true, input: "plain", output: Output { name: Some("file"), overwrite: false, skip_sync: false }, quiet: false })
--encrypt --recipient age1a --armor --output file plain => Ok(Encrypt { recipients: Listed([Text("age1a")]), armored: true, input: "plain", output: Output { name: Some("file"), overwrite: false, skip_sync: false }, quiet: false })
-aR team --recipient=age1a => Ok(Encrypt { recipients: Listed([Text("age1a"), File("team")]), armored: true, input: "-", output: Output { name: None, overwrite: false, skip_sync: false }, quiet: false })
plain --recipients-file team -f => Ok(Encrypt { recipients: Listed([File("team")]), armored: false, input: "plain", output: Output { name: None, overwrite: true, skip_sync: false }, quiet: false })
-p secret plain => Ok(Encrypt { recipients: PassphraseFile("secret"), armored: false, input: "plain", output: Output { name: None, overwrite: false, skip_sync: false }, quiet: false })
-d -i key file => Ok(Decrypt { opening: Opening { identities: Files(["key"]), header_limit: 16777216 }, input: "file", output: Output { name: None, overwrite: false, skip_sync: false }, quiet: false })
-di key -i other -o plain file => Ok(Decrypt { opening: Opening { identities: Files(["key", "other"]), header_limit: 16777216 }, input: "file", output: Output { name: Some("plain"), overwrite: false, skip_sync: false }, quiet: false })
--decrypt --identity key --output plain --force => Ok(Decrypt { opening: Opening { identities: Files(["key"]), header_limit: 16777216 }, input: "-", output: Output { name: Some("plain"), overwrite: true, skip_sync: false }, quiet: false })
-d -p secret - => Ok(Decrypt { opening: Opening { identities: PassphraseFile("secret"), header_limit: 16777216 }, input: "-", output: Output { name: None, overwrite: false, skip_sync: false }, quiet: false })
-d -i key -p secret file => Ok(Decrypt { opening: Opening { identities: ProtectedFiles(["key"], "secret"), header_limit: 16777216 }, input: "file", output: Output { name: None, overwrite: false, skip_sync: false }, quiet: false })
-r age1a -- keygen => Ok(Encrypt { recipients: Listed([Text("age1a")]), armored: false, input: "keygen", output: Output { name: None, overwrite: false, skip_sync: false }, quiet: false })
-r age1a ./keygen => Ok(Encrypt { recipients: Listed([Text("age1a")]), armored: false, input: "./keygen", output: Output { name: None, overwrite: false, skip_sync: false }, quiet: false })
"#,
    )
}

#[test]
fn version(rt: HostRuntime) -> Result<(), Fail> {
    all_ask(
        &rt,
        rt.alloc(),
        r#"
--version => Ok(Version("sazh 0.1.0 (logic dac8208d650f15bf)\n"))
-V => Ok(Version("sazh 0.1.0 (logic dac8208d650f15bf)\n"))
-r age1a --version => Ok(Version("sazh 0.1.0 (logic dac8208d650f15bf)\n"))
"#,
    )
}

// What follows `--` are operands, and what stands behind `=`, or in the same word, is a value, whatever it is.
#[test]
fn words_that_begin_with_a_dash(rt: HostRuntime) -> Result<(), Fail> {
    all_ask(
        &rt,
        rt.alloc(),
        r#"
encrypt -r a -- -a => Ok(Encrypt { recipients: Listed([Text("a")]), armored: false, input: "-a", output: Output { name: None, overwrite: false, skip_sync: false }, quiet: false })
encrypt -r a -- -- => Ok(Encrypt { recipients: Listed([Text("a")]), armored: false, input: "--", output: Output { name: None, overwrite: false, skip_sync: false }, quiet: false })
encrypt --recipient=-r -o=-- -R-a => Ok(Encrypt { recipients: Listed([Text("-r"), File("-a")]), armored: false, input: "-", output: Output { name: Some("--"), overwrite: false, skip_sync: false }, quiet: false })
decrypt -i=-i -i - -o-f => Ok(Decrypt { opening: Opening { identities: Files(["-i", "-"]), header_limit: 16777216 }, input: "-", output: Output { name: Some("-f"), overwrite: false, skip_sync: false }, quiet: false })
part -p-p -- 1 2 -o => Ok(Part { opening: Opening { identities: PassphraseFile("-p"), header_limit: 16777216 }, place: 1, count: 2, input: "-o", quiet: false })
part -p-p -- 1 -2 -o => Err(NotANumber(Count, "-2"))
"#,
    )
}

// Where each value and each operand is an empty word.
const EMPTY: &str =
    r#"Ok(Encrypt { recipients: Listed([Text("")]), armored: false, input: "", output: Output { name: Some(""), overwrite: false, skip_sync: false }, quiet: false })"#;

// An empty word is a value or an operand as any other.
#[test]
fn empty_words(rt: HostRuntime) -> Result<(), Fail> {
    let words = ["encrypt", "-r", "", "", "-o", ""];
    assert!(rt; words_ask(rt.alloc(), &words, EMPTY)?);
    Ok(())
}
