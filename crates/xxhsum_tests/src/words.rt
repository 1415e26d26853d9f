//! The meaning of the arguments.

use std::alloc::Global;
use std::test::Fail;
use xxh_io::kind::Kind;
use xxhsum_options::name::default_kind;
use xxhsum_options::options::{ParsedArgs, parse_args};

// Arguments, separated by a space, as they were passed to `xxhsum`, and how it parsed them.
const TABLE: &[(&str, &str)] = &[
    ("a", "64 0"),
    ("a -H0", "64 0"),
    ("-H0 a", "32 1"),
    ("-H a", "32 1"),
    ("-H064 a", "64 1"),
    ("-H2 -H3 a", "3-64 2"),
    ("-qH128w a", "3-128 quiet warns 1"),
    ("-H0KiB a", "32 1"),
    ("-H0BK a", "32 1"),
    ("-i3H0 a", "32 1"),
    ("-B64KiBq a", "64 quiet 1"),
    (
        "-c --strict --status --warn a",
        "64 checks status strict warns 4",
    ),
    ("--check --quiet a", "64 checks quiet 2"),
    ("--tag --little-endian", "64 tagged little 2"),
    ("-", "64 terminal 1"),
    ("- -H0 -", "32 terminal 3"),
    ("- a", "beside"),
    ("a -", "beside"),
    ("-- -", "beside"),
    ("a -- -", "beside"),
    ("-c - a", "beside"),
    ("--audit - a", "beside"),
    ("--audit --files-from - a", "64 audits terminal 3"),
    ("--audit --files-from - a b", "beside"),
    ("--audit --files-from a -", "beside"),
    ("-r a", "64 walks 1"),
    ("-rH3 a", "3-64 walks 1"),
    ("--recursive --audit a b", "64 audits walks 2"),
    ("-r --audit a", "nothing"),
    ("-r", "nothing"),
    ("-r -", "nothing"),
    ("-r - a", "beside"),
    ("-r -c a", "lists"),
    ("--files-from -r a", "lists"),
    ("-r --exclude x a", "64 walks excludes 3"),
    ("--exclude=x -r a", "64 walks excludes 2"),
    ("--exclude -r -r a", "64 walks excludes 3"),
    ("-r --exclude", "wrong 1"),
    ("--exclude x a", "unwalked"),
    ("-r --exclude a/b c", "slash"),
    ("--exclude=/ -Z", "slash"),
    ("-C d a", "64 in 1 2"),
    ("-qC d -r a", "64 quiet walks in 1 3"),
    ("--directory d a", "64 in 1 2"),
    ("-q --directory=d a", "64 quiet in 1 2"),
    ("-r --exclude -C a", "64 walks excludes 3"),
    ("-C", "wrong 0"),
    ("-Cq d a", "wrong 0"),
    ("-C -q a", "directory"),
    ("-C d --directory=e a", "directory"),
    ("--directory= a", "directory"),
    ("-z -c a", "nuls"),
    ("-z --audit a", "64 nul audits 2"),
    ("-rz --audit a b", "64 nul audits walks 2"),
    ("-- -q", "64 1"),
    ("-q -- --", "64 quiet 2"),
    ("--audit --format=json l a", "64 audits format json 2"),
    ("--audit --format text l", "64 audits format 3"),
    (
        "--format json --format=text -z --audit l",
        "64 nul audits format 5",
    ),
    ("--format=text a", "unaudited"),
    ("-z --audit --format json l", "json nuls"),
    ("--audit --format=xml l", "wrong 1"),
    ("--audit --format --tag l", "wrong 2"),
    ("--audit --format", "wrong 1"),
    ("-V -Z", "version"),
    ("--version", "version"),
    ("-qh", "help"),
    ("--help -Z", "help"),
    ("-b", "benchmark"),
    ("--bench-all", "benchmark"),
    ("-Z -V", "wrong 0"),
    ("--warning", "wrong 0"),
    ("--tag=1", "wrong 0"),
    ("-q-", "wrong 0"),
    ("-H4", "wrong 0"),
    ("-H1K", "wrong 0"),
    ("-Hx", "wrong 0"),
    ("-H4294967289", "wrong 0"),
    ("-H4095M", "wrong 0"),
    ("-q --tag -x a", "wrong 2"),
    ("-H4294967290", "large"),
    ("-H4096M", "large"),
    ("-H4194304K", "large"),
    ("-i99999999999", "large"),
];

// Returns the meaning of the arguments, in the words of the table.
fn message(alloc: Global, parsed: ParsedArgs) -> Result<String, Fail> {
    let (options, names_from) = match parsed {
        ParsedArgs::Run {
            options,
            names_from,
        } => (options, names_from),
        ParsedArgs::Benchmark => return Ok(String::from_str(alloc, "benchmark")?),
        ParsedArgs::Version => return Ok(String::from_str(alloc, "version")?),
        ParsedArgs::Help => return Ok(String::from_str(alloc, "help")?),
        ParsedArgs::WrongOption { at } => {
            let mut text = String::from_str(alloc, "wrong ")?;
            write!(text, "{at}")?;
            return Ok(text);
        }
        ParsedArgs::NulsInList => return Ok(String::from_str(alloc, "nuls")?),
        ParsedArgs::FormatWithoutAudit => return Ok(String::from_str(alloc, "unaudited")?),
        ParsedArgs::NulsInJson => return Ok(String::from_str(alloc, "json nuls")?),
        ParsedArgs::WalkBesideLists => return Ok(String::from_str(alloc, "lists")?),
        ParsedArgs::WalkOfNothing => return Ok(String::from_str(alloc, "nothing")?),
        ParsedArgs::ExcludeWithoutWalk => return Ok(String::from_str(alloc, "unwalked")?),
        ParsedArgs::SlashInPattern => return Ok(String::from_str(alloc, "slash")?),
        ParsedArgs::WrongDirectory => return Ok(String::from_str(alloc, "directory")?),
        ParsedArgs::InputBesideNames => return Ok(String::from_str(alloc, "beside")?),
        ParsedArgs::NumberTooLarge => return Ok(String::from_str(alloc, "large")?),
    };
    let mut text = String::from_str(
        alloc,
        match options.kind {
            Kind::X32 => "32 ",
            Kind::X64 => "64 ",
            Kind::X3_64 => "3-64 ",
            Kind::X3_128 => "3-128 ",
        },
    )?;
    for (is_on, word) in [
        (options.checks, "checks "),
        (options.is_quiet, "quiet "),
        (options.is_status_only, "status "),
        (options.is_strict, "strict "),
        (options.warns, "warns "),
        (options.is_tagged, "tagged "),
        (options.is_little_endian, "little "),
        (options.ends_in_nul, "nul "),
        (options.audits, "audits "),
        (options.has_format, "format "),
        (options.is_json, "json "),
        (options.walks, "walks "),
        (options.excludes, "excludes "),
        (options.takes_terminal, "terminal "),
    ] {
        if is_on {
            text.push_str(word)?;
        }
    }
    if let Some(at) = options.directory {
        write!(text, "in {at} ")?;
    }
    write!(text, "{names_from}")?;
    Ok(text)
}

#[test]
fn words_ask_for_what_xxhsum_takes_them_for(rt: HostRuntime) -> Result<(), Fail> {
    for (line, want) in TABLE {
        let mut words = Vec::new(rt.alloc());
        for word in line.split(' ') {
            words.push(word.as_bytes().to_vec(rt.alloc())?)?;
        }
        let found = message(rt.alloc(), parse_args(Kind::X64, words.as_slice()))?;
        assert_eq!(rt; found.as_str(), *want, "at {line}");
    }
    Ok(())
}

#[test]
fn a_programs_name_chooses_its_kind(rt: HostRuntime) {
    for (name, want) in [
        ("xxhsum", Kind::X64),
        ("xxh32sum", Kind::X32),
        ("xxh64sum", Kind::X64),
        ("xxh128sum", Kind::X3_128),
        ("xxh3sum", Kind::X3_64),
        ("xxh128sumxxh3sum", Kind::X3_64),
        ("my-xxh32sum", Kind::X32),
        ("xxh32sum.real", Kind::X32),
        ("xxh128sumxxh32sum", Kind::X3_128),
        ("", Kind::X64),
    ] {
        assert!(rt; default_kind(name.as_bytes()) == want, "of {name}");
    }
}
