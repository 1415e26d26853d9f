//! Lines of the original: those that it printed, and how it parsed others. Release 0.8.3 supports each of them, 0.8.1
//! none with an escape, the prefix of XXH3 or a comment.

use std::alloc::{AllocError, Global};
use std::test::Fail;
use xxh_io::kind::Kind::{self, X3_64, X3_128, X32, X64};
use xxhsum_line::entry::{Entry, Meaning, meaning_of};
use xxhsum_line::laws::{is_read_back, laws_of_lines};
use xxhsum_line::printed::{Shape, digest_line};

// The lines that 0.8.3 printed for a file with the 10 bytes `some bytes`, by algorithm and digest: plain, plain and
// little-endian, tagged, tagged and little-endian. The name looks like a part of a line.
const WRITTEN: [(Kind, u128, [&str; 4]); 4] = [
    (
        X32,
        0x29f9_7ecd,
        [
            "29f97ecd  a b) = c",
            "cd7ef929  a b) = c",
            "XXH32 (a b) = c) = 29f97ecd",
            "XXH32_LE (a b) = c) = cd7ef929",
        ],
    ),
    (
        X64,
        0x55cf_d3de_adca_bb2a,
        [
            "55cfd3deadcabb2a  a b) = c",
            "2abbcaadded3cf55  a b) = c",
            "XXH64 (a b) = c) = 55cfd3deadcabb2a",
            "XXH64_LE (a b) = c) = 2abbcaadded3cf55",
        ],
    ),
    (
        X3_64,
        0x45c9_7cf9_b044_7624,
        [
            "XXH3_45c97cf9b0447624  a b) = c",
            "XXH3_247644b0f97cc945  a b) = c",
            "XXH3 (a b) = c) = 45c97cf9b0447624",
            "XXH3_LE (a b) = c) = 247644b0f97cc945",
        ],
    ),
    (
        X3_128,
        0x9973_6577_b441_a1bb_d3ec_197f_e371_e984,
        [
            "99736577b441a1bbd3ec197fe371e984  a b) = c",
            "84e971e37f19ecd3bba141b477657399  a b) = c",
            "XXH128 (a b) = c) = 99736577b441a1bbd3ec197fe371e984",
            "XXH128_LE (a b) = c) = 84e971e37f19ecd3bba141b477657399",
        ],
    ),
];

const NAME: &[u8] = b"a b) = c";

// Lines that it printed for a file with these bytes and another name.
const NAMED: [(&str, bool, &str); 6] = [
    ("a\\b", false, "\\55cfd3deadcabb2a  a\\\\b"),
    ("a\nb", false, "\\55cfd3deadcabb2a  a\\nb"),
    ("a\rb", false, "\\55cfd3deadcabb2a  a\\rb"),
    ("\\n\n\\", true, "\\XXH64 (\\\\n\\n\\\\) = 55cfd3deadcabb2a"),
    ("#a", false, "55cfd3deadcabb2a  #a"),
    ("", true, "XXH64 () = 55cfd3deadcabb2a"),
];

// True if the line is parsed as this entry.
fn says(
    alloc: Global,
    line: &str,
    is_little: bool,
    kind: Kind,
    value: u128,
    name: &[u8],
) -> Result<bool, AllocError> {
    Ok(match meaning_of(alloc, line.as_bytes(), is_little)? {
        Meaning::Entry(
            Entry {
                kind: entry_kind,
                value: entry_value,
                name: entry_name,
            },
        ) => entry_kind == kind && entry_value == value && entry_name.as_slice() == name,
        Meaning::Comment | Meaning::Malformed => false,
    })
}

#[test]
fn written_lines(rt: HostRuntime) -> Result<(), Fail> {
    for (kind, value, lines) in WRITTEN {
        for (i, want) in lines.iter().enumerate() {
            let shape = Shape {
                is_tagged: i >= 2,
                is_little: i % 2 == 1,
            };
            let line = digest_line(rt.alloc(), kind, shape, value, NAME)?;
            assert!(rt;
                line.as_slice().strip_suffix(b"\n") == Some(want.as_bytes()),
                "{want}"
            );
            assert!(rt;
                says(rt.alloc(), want, shape.is_little, kind, value, NAME)?,
                "{want}"
            );
        }
    }
    Ok(())
}

#[test]
fn written_names(rt: HostRuntime) -> Result<(), Fail> {
    let value = 0x55cf_d3de_adca_bb2a;
    for (name, is_tagged, want) in NAMED {
        let shape = Shape {
            is_tagged,
            is_little: false,
        };
        let line = digest_line(rt.alloc(), X64, shape, value, name.as_bytes())?;
        assert!(rt;
            line.as_slice().strip_suffix(b"\n") == Some(want.as_bytes()),
            "{want}"
        );
        assert!(rt;
            says(rt.alloc(), want, false, X64, value, name.as_bytes())?,
            "{want}"
        );
    }
    Ok(())
}

// No clause states that there is memory for it.
#[test]
fn a_long_name_has_a_line(rt: HostRuntime) -> Result<(), Fail> {
    let shape = Shape {
        is_tagged: false,
        is_little: false,
    };
    let name = vec![in rt.alloc(); b'n'; 40_000]?;
    let line = digest_line(rt.alloc(), X64, shape, 1, &name)?;
    assert_eq!(rt; line.len(), 40_019);
    Ok(())
}

#[test]
fn a_line_is_read_back(rt: HostRuntime) -> Result<(), Fail> {
    let shape = Shape {
        is_tagged: false,
        is_little: true,
    };
    laws_of_lines();
    assert!(rt; is_read_back(rt.alloc(), X32, shape, 1, b"name")?);
    assert!(rt; is_read_back(rt.alloc(), X3_64, shape, 1, b"\\a\nb\r")?);
    Ok(())
}

// Lines that 0.8.3 checked with `-c`, of an empty file: with `--little-endian` or not, and the algorithm as which it
// parsed them.
const TAKEN: [(&str, bool, Kind); 15] = [
    ("02CC5D05 *empty", false, X32),
    ("055dcc02  empty", true, X32),
    ("02cc5d05  empty\0more", false, X32),
    ("XXH32 (empty) = 02cc5d05", true, X32),
    ("XXH32_LE (empty) = 055dcc02", false, X32),
    ("XXH3264 (empty) = 02cc5d05", false, X32),
    ("x_LEy (empty) = 99e9d85137db46ef", false, X64),
    ("MD5 (empty) = ef46db3751d8e999", false, X64),
    (" (empty) = ef46db3751d8e999", false, X64),
    ("XXH3_2d06800538d394c2  empty", false, X3_64),
    ("XXH3 (empty) = XXH3_2d06800538d394c2", false, X3_64),
    ("XXH3_LE (empty) = XXH3_c294d3380580062d", false, X3_64),
    ("\\02cc5d05  empty", false, X32),
    ("\t\\XXH64 (empty) = ef46db3751d8e999", false, X64),
    ("\\#XXH (empty) = ef46db3751d8e999", false, X64),
];

// The digest of no bytes.
fn of_nothing(kind: Kind) -> u128 {
    match kind {
        X32 => 0x02cc_5d05,
        X64 => 0xef46_db37_51d8_e999,
        X3_64 => 0x2d06_8005_38d3_94c2,
        X3_128 => 0x99aa_06d3_0147_98d8_6001_c324_468d_497f,
    }
}

#[test]
fn taken_lines(rt: HostRuntime) -> Result<(), Fail> {
    for (line, is_little, kind) in TAKEN {
        assert!(rt;
            says(
                rt.alloc(),
                line,
                is_little,
                kind,
                of_nothing(kind),
                b"empty"
            )?,
            "{line}"
        );
    }
    Ok(())
}

// Lines that it refused.
const REFUSED: [&str; 19] = [
    "",
    "02cc5d05",
    "02cc5d05 ",
    "02cc5d0  empty",
    "02cc5d0g  empty",
    "02cc5d05 (empty",
    "XXH32 (empty) =  02cc5d05",
    "XXH32 (empty)= 02cc5d05",
    "XXH32  (empty) = 02cc5d05",
    "XXH128 (empty) = ef46db3751d8e999",
    "xxh3_2d06800538d394c2  empty",
    "XXH64 (empty) = XXH3_ef46db3751d8e999",
    "\\02cc5d05  empty\\",
    "\\02cc5d05  emp\\ty",
    "\\\\02cc5d05  empty",
    " \\02cc5d05  empty",
    " # a comment",
    "\\# a comment",
    "\0# a comment",
];

#[test]
fn refused_lines(rt: HostRuntime) -> Result<(), Fail> {
    for line in REFUSED {
        let meaning = meaning_of(rt.alloc(), line.as_bytes(), false)?;
        assert!(rt; matches!(meaning, Meaning::Malformed), "{line}");
    }
    Ok(())
}

#[test]
fn comments(rt: HostRuntime) -> Result<(), Fail> {
    for line in [
        "#",
        "# a comment",
        "#02cc5d05  empty",
        "#XXH (empty) = ef46db3751d8e999",
    ] {
        let meaning = meaning_of(rt.alloc(), line.as_bytes(), false)?;
        assert!(rt; matches!(meaning, Meaning::Comment), "{line}");
    }
    Ok(())
}
