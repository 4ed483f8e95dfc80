//! The definition of armor against texts of known bytes, by a slow program that is proved to write the armor of any list.

ghost use Rattle.std.specs.Prelude.{◌≡◌, ◌++◌, IfOk, OnOk};
ghost use Rattle.std.specs.List.{flat_map};
ghost use Rattle.age_base64.specs.Lines.{line};
ghost use Rattle.age_v1.specs.Armor.{armor, armor_lines};

use age_base64::armor_engine;
use std::alloc::{AllocError, Global};
use std::test::Fail;

fn push_line(text: &[u8], out: &mut Vec<u8>) -> Result<(), AllocError>
    ensures { OnOk result (out.new.items ≡ out.old.items ++ line text.now) }
{
    out.extend_from_slice(text)?;
    out.push(b'\n')?;
    Ok(())
}

fn push_columns(columns: &[u8], out: &mut Vec<u8>) -> Result<(), AllocError>
    ensures { OnOk result (out.new.items ≡ out.old.items ++ flat_map line (armor_lines columns.now)) }
{
    let mut rest = columns;
    while rest.len() > 64 {
        let (whole, more) = rest.split_at(64);
        push_line(whole, out)?;
        rest = more;
    }
    if rest.is_empty() {
        Ok(())
    } else {
        push_line(rest, out)
    }
}

fn armor_whole(alloc: Global, bytes: &[u8]) -> Result<Vec<u8>, AllocError>
    ensures { IfOk result (λ text. text.items ≡ armor bytes.now) }
{
    let columns = armor_engine().encode(alloc, bytes)?;
    let mut out = Vec::new(alloc);
    push_line(b"-----BEGIN AGE ENCRYPTED FILE-----", &mut out)?;
    push_columns(columns.as_bytes(), &mut out)?;
    push_line(b"-----END AGE ENCRYPTED FILE-----", &mut out)?;
    Ok(out)
}

// The bytes whose base64 is the whole alphabet in its order.
const ALPHABET_BYTES: [u8; 48] = [
    0x00, 0x10, 0x83, 0x10, 0x51, 0x87, 0x20, 0x92, 0x8b, 0x30, 0xd3, 0x8f, 0x41, 0x14, 0x93, 0x51,
    0x55, 0x97, 0x61, 0x96, 0x9b, 0x71, 0xd7, 0x9f, 0x82, 0x18, 0xa3, 0x92, 0x59, 0xa7, 0xa2, 0x9a,
    0xab, 0xb2, 0xdb, 0xaf, 0xc3, 0x1c, 0xb3, 0xd3, 0x5d, 0xb7, 0xe3, 0x9e, 0xbb, 0xf3, 0xdf, 0xbf,
];

#[test]
fn armor_of_known_bytes(rt: HostRuntime) -> Result<(), Fail> {
    let zeros = [0u8; 49];
    let cases: [(&[u8], usize, &[u8]); 5] = [
        (
            b"",
            68,
            b"-----BEGIN AGE ENCRYPTED FILE-----\n-----END AGE ENCRYPTED FILE-----\n",
        ),
        (
            b"a",
            73,
            b"-----BEGIN AGE ENCRYPTED FILE-----\nYQ==\n-----END AGE ENCRYPTED FILE-----\n",
        ),
        (
            &zeros[..48],
            133,
            b"-----BEGIN AGE ENCRYPTED FILE-----\nAAAAAAAAAAAAAAAAAAAAAAAAAAAAAAAAAAAAAAAAAAAAAAAAAAAAAAAAAAAAAAAA\n-----END AGE ENCRYPTED FILE-----\n",
        ),
        (
            &zeros,
            138,
            b"-----BEGIN AGE ENCRYPTED FILE-----\nAAAAAAAAAAAAAAAAAAAAAAAAAAAAAAAAAAAAAAAAAAAAAAAAAAAAAAAAAAAAAAAA\nAA==\n-----END AGE ENCRYPTED FILE-----\n",
        ),
        (
            &ALPHABET_BYTES,
            133,
            b"-----BEGIN AGE ENCRYPTED FILE-----\nABCDEFGHIJKLMNOPQRSTUVWXYZabcdefghijklmnopqrstuvwxyz0123456789+/\n-----END AGE ENCRYPTED FILE-----\n",
        ),
    ];
    for (bytes, size, expected) in cases {
        let text = armor_whole(rt.alloc(), bytes)?;
        assert!(rt; text.len() == size);
        assert!(rt; text.as_slice() == expected);
    }
    Ok(())
}
