//! The texts of errors.

use std::alloc::{AllocError, Global};
use xxh_io::digest_error::DigestError;

fn says(alloc: Global, error: DigestError, text: &str) -> Result<bool, AllocError> {
    Ok(format!(in alloc; "{error}")?.as_str() == text)
}

#[test]
fn the_text_of_each_error(rt: HostRuntime) -> Result<(), AllocError> {
    for (error, text) in [
        (DigestError::ReadFailed, "read failed"),
        (DigestError::WriteFailed, "write failed"),
        (DigestError::TooLong, "too long"),
    ] {
        assert!(rt; says(rt.alloc(), error, text)?);
    }
    Ok(())
}
