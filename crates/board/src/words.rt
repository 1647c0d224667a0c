//! The words of the command line.

ghost use Rattle.std.specs.Prelude.{◌≡◌, drop, map, string_bytes, IfOk};

use board_base::{Bytes, List};
use std::alloc::{AllocError, Global};
use std::env;
use std::io::ErrorKind;
use std::rt::Env;

/// The words after the program's name. If one isn't UTF-8 there are none, which no command is asked
/// by.
pub fn of_command_line<R: Env + AllocGlobal>(rt: &R) -> Result<List<Bytes>, AllocError> {
    match env::args(rt) {
        Ok(args) => after_first(rt.alloc(), args.collect(rt.alloc())?),
        Err(error) if error.kind() == ErrorKind::OutOfMemory => Err(AllocError),
        Err(_) => Ok(List::new(rt.alloc())),
    }
}

/// All words but the first, in their order.
fn after_first(alloc: Global, words: Vec<String>) -> Result<List<Bytes>, AllocError>
    ensures { IfOk result (λ rest. rest ≡ map string_bytes (drop 1 words.items)) }
{
    let rest = words.into_iter().skip(1).map(bytes_of).collect(alloc)?;
    Ok(List::from_vec(rest))
}

/// The bytes of a word.
fn bytes_of(word: String) -> Bytes
    ensures { result ≡ string_bytes word }
{
    Bytes::from_vec(word.into_bytes())
}
