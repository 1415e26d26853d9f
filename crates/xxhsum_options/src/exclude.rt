//! The patterns of `--exclude`, and the names that they match.

ghost use Rattle.std.specs.Prelude.{◌≡◌, ◌≤◌, ◌==◌, ◌&&◌, ◌||◌, not, length, map, option_to_list};
ghost use Rattle.xxhsum_options.specs.Exclude.{IsLeftmost, ahead_value, any_suffix, is_excluded, length_ahead, matches, pattern_of, patterns_in};

/// The result of matching a pattern up to its next `*`.
#[derive(Clone, Copy, Debug)]
pub(crate) enum Ahead<'a> {
    /// The pattern does not match the name.
    Fails,
    /// The pattern matches the name.
    Matches,
    /// The bytes before the `*` match. The rest of the pattern after it, and the rest of the name, are not matched yet.
    Star(&'a [u8], &'a [u8]),
}

/// True if one of the patterns of `--exclude` in these option words matches the name.
pub fn is_excluded(words: &[Vec<u8>], name: &[u8]) -> bool
    ensures { result ≡ is_excluded (patterns_in (map (λ word. word.items) words.now)) name.now }
{
    let mut is_awaited = false;
    for word in words {
        if excludes(is_awaited, word, name) {
            return true;
        }
        is_awaited = !is_awaited && word.as_slice() == b"--exclude".as_slice();
    }
    false
}

// True if the word has a pattern, which matches the name. An awaited word is a pattern.
fn excludes(is_awaited: bool, word: &[u8], name: &[u8]) -> bool
    ensures { result ≡ is_excluded (option_to_list (pattern_of is_awaited word.now)) name.now }
{
    if is_awaited {
        return matches(word, name);
    }
    match word.strip_prefix(b"--exclude=") {
        Some(pattern) => matches(pattern, name),
        None => false,
    }
}

/// True if the pattern matches the whole name: `*` matches any bytes, `?` any byte, `\` the byte after it, and any other
/// byte itself. Takes no more steps than the product of both lengths.
pub fn matches(pattern: &[u8], name: &[u8]) -> bool
    ensures { result ≡ matches pattern.now name.now }
{
    let mut met = match_ahead(pattern, name);
    loop {
        match met {
            Ahead::Fails => return false,
            Ahead::Matches => return true,
            Ahead::Star(others, left) => {
                let next = search_ahead(others, left);
                met = next;
            }
        }
    }
}

// Matches the pattern up to its next `*` with the longest suffix of the name for which that succeeds.
fn search_ahead<'a>(pattern: &'a [u8], name: &'a [u8]) -> Ahead<'a>
    ensures value { ahead_value result ≡ any_suffix (matches pattern.now) name.now }
    ensures shorter { length_ahead result ≤ length pattern.now }
{
    let mut left = name;
    while let Some((_, rest)) = left.split_first() {
        match match_ahead(pattern, left) {
            Ahead::Fails => left = rest,
            met => return met,
        }
    }
    match_ahead(pattern, left)
}

// Matches the pattern with the name up to its next `*`.
fn match_ahead<'a>(pattern: &'a [u8], name: &'a [u8]) -> Ahead<'a>
    ensures value { ahead_value result ≡ matches pattern.now name.now }
    ensures leftmost { IsLeftmost pattern.now name.now result }
    ensures shorter { length_ahead result ≤ length pattern.now }
{
    let mut others = pattern;
    let mut left = name;
    let mut is_quoted = false;
    while let Some((first, behind)) = others.split_first() {
        if is_special(is_quoted, *first, b'*') {
            return Ahead::Star(behind, left);
        }
        if is_special(is_quoted, *first, b'\\') {
            is_quoted = true;
        } else {
            let Some((byte, rest)) = left.split_first() else {
                return Ahead::Fails;
            };
            if !passes(is_quoted, *first, *byte) {
                return Ahead::Fails;
            }
            left = rest;
            is_quoted = false;
        }
        others = behind;
    }
    if !is_quoted && left.is_empty() {
        Ahead::Matches
    } else {
        Ahead::Fails
    }
}

// True if the byte of a pattern is this special one, and is not quoted.
fn is_special(is_quoted: bool, first: u8, special: u8) -> bool
    ensures { result ≡ (not is_quoted && first == special) }
{
    !is_quoted && first == special
}

// True if the byte of a pattern matches this byte of a name.
fn passes(is_quoted: bool, first: u8, byte: u8) -> bool
    ensures { result ≡ (byte == first || (not is_quoted && first == 63)) }
{
    byte == first || is_special(is_quoted, first, b'?')
}
