//! The accumulator of stripes.

use std::test::Fail;
use twox_core::xxhash3::{DEFAULT_SECRET_RAW, Kernel, Secret, StripeAccumulator, default_secret};

// Takes one stripe more, if a place of the secret is left for it.
fn take_stripe(stripes: &mut StripeAccumulator, secret: Secret<'_>) {
    if stripes.current_stripe() < secret.n_stripes() {
        stripes.process_stripe(Kernel {}, &[1; 64], secret.n_stripes(), secret);
    }
}

fn are_accumulators_of_none(stripes: &StripeAccumulator) -> bool {
    stripes.accumulators() == StripeAccumulator::new().accumulators()
}

// After the nine places of the shortest secret the first is used again.
#[test]
fn stripe_accumulator(rt: HostRuntime) -> Result<(), Fail> {
    let secret = Secret::new(&DEFAULT_SECRET_RAW[..136])?;
    let mut stripes = StripeAccumulator::new();
    for _ in 0..8 {
        take_stripe(&mut stripes, secret);
    }
    assert!(rt; stripes.current_stripe() == 8);
    take_stripe(&mut stripes, secret);
    assert!(rt; stripes.current_stripe() == 0);
    assert!(rt; !are_accumulators_of_none(&stripes));
    Ok(())
}

#[test]
fn copies_of_stripe_accumulators(rt: HostRuntime) {
    let mut stripes = StripeAccumulator::new();
    let before = stripes;
    take_stripe(&mut stripes, default_secret());
    assert!(rt; before.current_stripe() == 0);
    assert!(rt; stripes.current_stripe() == 1);
}
