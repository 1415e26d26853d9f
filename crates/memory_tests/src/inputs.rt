//! The input of the tests: the bytes `i mod 251`.

fn fill(bytes: &mut [u8]) {
    for i in 0..bytes.len() {
        bytes[i] = (i % 251) as u8;
    }
}

pub(crate) fn generated() -> [u8; 2000] {
    let mut bytes = [0; 2000];
    fill(&mut bytes);
    bytes
}

// Returns the first `n` of them, or all.
pub(crate) fn first(bytes: &[u8; 2000], n: usize) -> &[u8] {
    &bytes[..n.min(2000)]
}

// Returns the bytes from one place to before another if these are in order and in range, and none otherwise.
pub(crate) fn between(bytes: &[u8; 2000], start: usize, end: usize) -> &[u8] {
    bytes.get(start..end).unwrap_or(&[])
}
