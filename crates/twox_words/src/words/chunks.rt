//! Chunks of a slice, to be read or written in place.

ghost use Rattle.std.specs.Prelude.{◌≡◌, ◌*◌, ◌/◌, ◌%◌, ◌-◌, ◌<◌, ◌≤◌, ◌++◌, flat_map, length, take, drop};
ghost use Rattle.std.specs.Borrow.{sem, Array, LendsBoth};
ghost use Rattle.std.specs.Simd.{first_chunks};

use std::slice::from_raw_parts_mut;

/// Splits the slice into chunks of `N` items and a rest of fewer than `N` items. Copies nothing.
///
/// Chunk `i` is items `N * i` to `N * i + N - 1`. The caller proves that `N` is not 0.
#[inline(always)]
pub fn bp_as_chunks<T, const N: usize>(items: &[T]) -> (&[[T; N]], &[T])
    requires { 0 < N }
    ensures chunks { result.0.now ≡ first_chunks N (length items.now / N) items.now }
    ensures count { length result.0.now ≡ length items.now / N }
    ensures rest { result.1.now ≡ drop (length items.now / N * N) items.now }
    ensures rest_count { length result.1.now ≡ length items.now % N }
{
    items.as_chunks()
}

// Splits off the first `count` chunks of N items, which end at item `mid`.
fn chunks_and_rest_mut<T, const N: usize>(
    items: &mut [T],
    count: usize,
    mid: usize,
) -> (&mut [[T; N]], &mut [T])
    requires whole { count * N ≡ mid }
    requires in_bounds { mid ≤ length items.old }
    ensures* writes_back { sem 𝓛 (LendsBoth
        (Array T.row 0) (Array (Array T.row N) 0) (Array T.row 0) items.entry result (λ chunks rest. flat_map (λ x. x) chunks ++ rest)) }
    ensures value { (result.0.now ≡ first_chunks N count (take mid items.old))
        × (length result.0.now ≡ count) × (result.1.now ≡ drop mid items.old) }
{
    let n = items.len();
    let p = items.as_mut_ptr();
    unsafe {
        (
            from_raw_parts_mut(p as *mut [T; N], count),
            from_raw_parts_mut(p.add(mid), n - mid),
        )
    }
}

/// Splits the slice into mutable chunks of `N` items and a rest of fewer than `N` items. Copies nothing: what is
/// written through them is in the slice afterwards.
///
/// Chunk `i` is items `N * i` to `N * i + N - 1`. The caller proves that `N` is not 0.
#[inline(always)]
pub fn bp_as_chunks_mut<T, const N: usize>(items: &mut [T]) -> (&mut [[T; N]], &mut [T])
    requires { 0 < N }
    ensures* writes_back { sem 𝓛 (LendsBoth
        (Array T.row 0) (Array (Array T.row N) 0) (Array T.row 0) items.entry result (λ chunks rest. flat_map (λ x. x) chunks ++ rest)) }
    ensures chunks { result.0.now ≡ first_chunks N (length items.old / N) items.old }
    ensures count { length result.0.now ≡ length items.old / N }
    ensures rest { result.1.now ≡ drop (length items.old / N * N) items.old }
    ensures rest_count { length result.1.now ≡ length items.old % N }
{
    let count = items.len() / N;
    chunks_and_rest_mut(items, count, count * N)
}
