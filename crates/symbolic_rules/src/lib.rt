//! The rules by which `oracle/symbolic` writes the definitions and the reference library's code as terms in one form,
//! as functions whose contracts are these rules. They have no code. The program in `oracle/symbolic_terms` uses the
//! same names for its rules; that it applies them as they are written is not proved.
//!
//! All values are naturals: a word of w bits is one below 2 ^ w, and a segment of a value v is v / 2 ^ k % 2 ^ n.
#![tactic(auto)]

ghost use Rattle.std.specs.Prelude.{◌≡◌, ◌+◌, ◌-◌, ◌*◌, ◌/◌, ◌%◌, ◌^◌, ◌<◌, ◌≤◌, ℕ, bit_and, bit_or, bit_xor};
ghost use Rattle.symbolic_rules.specs.Product.{first_sum, second_sum, upper_word};

// ---- segments

/// A number consists of its low bits and the others.
#[tactic(auto, using(std::proofs::lemmas::Nat::shr_split))]
pub fn parts_of_a_number()
    ensures { (v k : ℕ) → v / 2 ^ k * 2 ^ k + v % 2 ^ k ≡ v }
{}

/// The lower and the upper part of two concatenated numbers are the two numbers.
#[tactic(auto, using(std::proofs::lemmas::Nat::mod_low, std::proofs::lemmas::Nat::shr_high))]
pub fn concatenation()
    ensures lower { (a b k : ℕ) → a < 2 ^ k → (b * 2 ^ k + a) % 2 ^ k ≡ a }
    ensures upper { (a b k : ℕ) → a < 2 ^ k → (b * 2 ^ k + a) / 2 ^ k ≡ b }
{}

/// Bits of some bits are bits of the number.
#[tactic(auto, using(std::proofs::lemmas::Nat::field_of))]
pub fn bits_of_bits()
    ensures { (v j k : ℕ) → v % 2 ^ (j + k) / 2 ^ k ≡ v / 2 ^ k % 2 ^ j }
{}

/// The xor of concatenated numbers is the concatenation of the parts' xors.
#[tactic(auto, using(std::proofs::lemmas::Nat::xor_block, std::proofs::lemmas::Nat::xor_shr, std::proofs::lemmas::Nat::xor_mod))]
pub fn xor_of_parts()
    ensures whole { (a b c d k : ℕ) → a < 2 ^ k → c < 2 ^ k
        → bit_xor (b * 2 ^ k + a) (d * 2 ^ k + c) ≡ bit_xor b d * 2 ^ k + bit_xor a c }
    ensures upper { (a b k : ℕ) → bit_xor a b / 2 ^ k ≡ bit_xor (a / 2 ^ k) (b / 2 ^ k) }
    ensures lower { (a b k : ℕ) → bit_xor a b % 2 ^ k ≡ bit_xor (a % 2 ^ k) (b % 2 ^ k) }
{}

/// Xor is commutative, and equal operands cancel out.
#[tactic(auto, using(crate::proofs::Rules::xor_laws))]
pub fn xor_in_any_order()
    ensures turned { (a b : ℕ) → bit_xor a b ≡ bit_xor b a }
    ensures grouped { (a b c : ℕ) → bit_xor (bit_xor a b) c ≡ bit_xor a (bit_xor b c) }
    ensures twice { (a : ℕ) → bit_xor a a ≡ 0 }
    ensures with_nothing { (a : ℕ) → bit_xor a 0 ≡ a }
{}

/// The sum and the union of numbers that have no bit in common are their xor.
#[tactic(auto, using(crate::proofs::Rules::sum_is_xor, crate::proofs::Rules::union_is_xor))]
pub fn bits_apart()
    ensures sum { (a b : ℕ) → bit_and a b ≡ 0 → a + b ≡ bit_xor a b }
    ensures union { (a b : ℕ) → bit_and a b ≡ 0 → bit_or a b ≡ bit_xor a b }
{}

/// A run of ones masks a segment.
#[tactic(auto, using(std::proofs::lemmas::Nat::Bits::and_high))]
pub fn mask()
    ensures { (v j k : ℕ) → bit_and v (2 ^ (j + k) - 2 ^ k) ≡ v / 2 ^ k % 2 ^ j * 2 ^ k }
{}

/// The union of a number of k bits with k ones.
#[tactic(auto, using(crate::proofs::Rules::union_with_ones))]
pub fn union_with_ones()
    ensures { (v k : ℕ) → v < 2 ^ k → bit_or v (2 ^ k - 1) ≡ 2 ^ k - 1 }
{}

/// The xor of a number of k bits with k ones is a difference.
#[tactic(auto, using(crate::proofs::Rules::complement))]
pub fn complement()
    ensures { (v k : ℕ) → v < 2 ^ k → bit_xor v (2 ^ k - 1) ≡ 2 ^ k - 1 - v }
{}

// ---- sums and products

/// A coefficient that continues as a place value does is that of the whole number.
#[tactic(auto, using(crate::proofs::Rules::joined_coefficients))]
pub fn joined_coefficients()
    ensures { (c v k : ℕ) → c * 2 ^ k * (v / 2 ^ k) + c * (v % 2 ^ k) ≡ c * v }
{}

/// Only the bits of a factor that count are kept, if the coefficient ends in zeros; and a part of a sum that was
/// narrowed no further than to these may be the whole.
#[tactic(auto, using(crate::proofs::Rules::narrowed_factor))]
pub fn narrowed_factor()
    ensures { (c v j k w : ℕ) → w ≤ j + k
        → (c * 2 ^ k * (v % 2 ^ j)) % 2 ^ w ≡ (c * 2 ^ k * v) % 2 ^ w }
{}

/// A number that is narrowed twice is as narrow as the narrower one.
#[tactic(auto, using(crate::proofs::Rules::narrowed_twice))]
pub fn narrowed_twice()
    ensures { (v j w : ℕ) → w ≤ j → v % 2 ^ j % 2 ^ w ≡ v % 2 ^ w }
{}

/// A sum is narrowed with its parts.
#[tactic(auto, using(crate::proofs::Rules::narrowed_sum))]
pub fn narrowed_sum()
    ensures { (a b w : ℕ) → (a + b) % 2 ^ w ≡ (a % 2 ^ w + b % 2 ^ w) % 2 ^ w }
{}

/// A product is narrowed with its factors.
#[tactic(auto, using(crate::proofs::Rules::narrowed_product))]
pub fn narrowed_product()
    ensures { (a b w : ℕ) → (a * b) % 2 ^ w ≡ (a % 2 ^ w * (b % 2 ^ w)) % 2 ^ w }
{}

/// In the high bits of a sum, a part that lies above is a summand, with no carry from below.
#[tactic(auto, using(crate::proofs::Rules::high_of_a_sum))]
pub fn high_of_a_sum()
    ensures { (r y k w : ℕ) → k ≤ w
        → (y * 2 ^ k + r) % 2 ^ w / 2 ^ k ≡ (y + r % 2 ^ w / 2 ^ k) % 2 ^ (w - k) }
{}

/// A number below the divisor is its own remainder, with the quotient 0.
pub fn small_remainder()
    ensures remainder { (v m : ℕ) → v < m → v % m ≡ v }
    ensures quotient { (v m : ℕ) → v < m → v / m ≡ 0 }
{}

/// A product of two words of 64 bits is computed from the products of their halves, as `assembly/webassembly.py` does
/// for browsers: the upper word is that of those steps, of which none is too large for 64 bits, and the lower one is
/// the product's own, or the lower halves of the second sum and of the lower halves' product.
#[tactic(auto, using(crate::proofs::ProductFacts::product, crate::proofs::ProductFacts::lower))]
pub fn product_by_halves()
    ensures product { (a b : ℕ) → upper_word a b * 2 ^ 64 + a * b % 2 ^ 64 ≡ a * b }
    ensures lower { (a b : ℕ) → a * b % 2 ^ 64
        ≡ second_sum a b % 2 ^ 32 * 2 ^ 32 + a % 2 ^ 32 * (b % 2 ^ 32) % 2 ^ 32 }
    ensures fits { (a b : ℕ) → a < 2 ^ 64 → b < 2 ^ 64
        → (a % 2 ^ 32 * (b % 2 ^ 32) < 2 ^ 64) × (first_sum a b < 2 ^ 64)
        × (second_sum a b < 2 ^ 64) × (upper_word a b < 2 ^ 64) }
{}
