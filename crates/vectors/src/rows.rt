//! A test case: a request and the reference library's value.

use std::alloc::{AllocError, Global};

/// The hash algorithm.
#[derive(Clone, Copy)]
pub enum Kind {
    X32,
    X64,
    X3_64,
    X3_128,
}

/// The bytes of a test case: the highest bytes of this many numbers after `start`.
#[derive(Clone, Copy)]
pub struct Recipe {
    pub length: usize,
    pub start: u64,
}

impl Recipe {
    pub fn bytes(&self, alloc: Global) -> Result<Vec<u8>, AllocError> {
        let mut bytes = Vec::new(alloc);
        let mut x = self.start;
        for _ in 0..self.length {
            x = next_number(x);
            bytes.push((x >> 56) as u8)?;
        }
        Ok(bytes)
    }
}

/// A request and its value.
#[derive(Clone, Copy)]
pub struct Row {
    pub kind: Kind,
    pub seed: Option<u64>,
    pub secret: Option<Recipe>,
    pub input: Recipe,
    pub answer: u128,
}

impl Row {
    /// Parses the test case of a line.
    pub fn parse(line: &str) -> Option<Row> {
        let (kind, rest) = line.split_once(' ')?;
        let (seed, rest) = rest.split_once(' ')?;
        let (secret, rest) = rest.split_once(' ')?;
        let (length, rest) = rest.split_once(' ')?;
        let (start, answer) = rest.split_once(' ')?;
        Some(Row {
            kind: parse_kind(kind)?,
            seed: parse_seed(seed)?,
            secret: parse_secret(secret)?,
            input: parse_recipe(length, start)?,
            answer: u128::from_str_radix(answer, 16).ok()?,
        })
    }
}

fn parse_kind(word: &str) -> Option<Kind> {
    match word {
        "32" => Some(Kind::X32),
        "64" => Some(Kind::X64),
        "3-64" => Some(Kind::X3_64),
        "3-128" => Some(Kind::X3_128),
        _ => None,
    }
}

fn parse_seed(word: &str) -> Option<Option<u64>> {
    if word == "-" {
        return Some(None);
    }
    Some(Some(u64::from_str_radix(word, 16).ok()?))
}

fn parse_secret(word: &str) -> Option<Option<Recipe>> {
    if word == "-" {
        return Some(None);
    }
    let (length, start) = word.split_once(':')?;
    Some(Some(parse_recipe(length, start)?))
}

fn parse_recipe(length: &str, start: &str) -> Option<Recipe> {
    Some(Recipe {
        length: length.parse().ok()?,
        start: u64::from_str_radix(start, 16).ok()?,
    })
}

/// Returns the number after `x` in the sequence that the table's bytes come from.
pub fn next_number(x: u64) -> u64 {
    x.wrapping_mul(6_364_136_223_846_793_005)
        .wrapping_add(1_442_695_040_888_963_407)
}
