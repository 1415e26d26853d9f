//! Many arguments and many reads, beyond each constant of the code: all are accepted, and no call reports out of
//! memory.

use std::alloc::AllocError;
use std::env::FillError;
use std::rt::Env;
use std::test::Fail;
use xxh_io::script_source::ScriptSource;
use xxhsum_audit::read::read_text;
use xxhsum_program::arguments::{ProcessArguments, all_arguments};

// A process with this many arguments, each of one byte, and no environment.
#[derive(Clone, Copy)]
struct Called {
    arguments: usize,
}

impl Env for Called {
    fn arg(&self, i: usize, buf: &mut [u8]) -> Result<usize, FillError> {
        if i >= self.arguments {
            return Err(FillError::NotPresent);
        }
        match buf.first_mut() {
            Some(byte) => {
                *byte = b'a';
                Ok(1)
            }
            None => Err(FillError::TooLong),
        }
    }

    fn var(&self, _name: &str, _buf: &mut [u8]) -> Result<usize, FillError> {
        Err(FillError::NotPresent)
    }

    fn var_at(&self, _i: usize, _buf: &mut [u8]) -> Result<usize, FillError> {
        Err(FillError::NotPresent)
    }
}

#[test]
fn each_argument_of_a_process_is_taken(rt: HostRuntime) -> Result<(), AllocError> {
    for count in [0, 1, 12_000] {
        let called = Called { arguments: count };
        let all = all_arguments(rt.alloc(), &ProcessArguments::new(&called))?;
        assert!(rt; all.len() == count, "{count} arguments");
    }
    Ok(())
}

#[test]
fn each_read_of_a_list_is_taken(rt: HostRuntime) -> Result<(), Fail> {
    let bytes = vec![in rt.alloc(); b'a'; 70_000]?;
    let sizes = vec![in rt.alloc(); 1usize; 70_000]?;
    let mut source = ScriptSource::new(&bytes, &sizes, 0);
    let Ok(Some(all)) = read_text(rt.alloc(), &mut source) else {
        return Err(Fail::from("not all is there"));
    };
    assert!(rt; all.len() == 70_000);
    Ok(())
}
