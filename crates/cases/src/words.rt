//! The words of the command line.

use std::env;
use std::rt::Env;

/// How many bytes the ends of a run give and take at once, where neither its case nor the command
/// line says.
const CHUNK: u64 = 7;

/// How many bytes the ends of a run give and take at once whose case doesn't say: the number that
/// is the first word behind the program's name, if there is a word. `None` where that is no number,
/// or the words can't be read.
pub fn chunk_asked<R: Env + AllocGlobal>(rt: &R) -> Option<u64> {
    let words: Vec<String> = env::args(rt).ok()?.collect(rt.alloc()).ok()?;
    match words.get(1) {
        Some(word) => word.parse::<u64>().ok(),
        None => Some(CHUNK),
    }
}
