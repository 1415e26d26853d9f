//! The program's name.

ghost use Rattle.std.specs.Prelude.{◌≡◌};
ghost use Rattle.xxhsum_options.specs.Name.{has_part, kind_of_program};

use xxh_io::kind::Kind;

/// Returns the algorithm of a program of this name, if no option selects one. The name is the last part of the path by
/// which it was called.
pub fn default_kind(program: &[u8]) -> Kind
    ensures { result ≡ kind_of_program program.now }
{
    if has_part(b"xxh3sum", program) {
        Kind::X3_64
    } else if has_part(b"xxh128sum", program) {
        Kind::X3_128
    } else if has_part(b"xxh64sum", program) {
        Kind::X64
    } else if has_part(b"xxh32sum", program) {
        Kind::X32
    } else {
        Kind::X64
    }
}

// True if the name contains the text.
#[tactic(auto, using(crate::proofs::NameFacts::laws_of_parts))]
fn has_part(text: &[u8], name: &[u8]) -> bool
    ensures { result ≡ has_part text.now name.now }
{
    for start in 0..name.len() {
        if name[start..].starts_with(text) {
            return true;
        }
    }
    false
}
