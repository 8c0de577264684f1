// The words of the command line.
use armus_base::NoMemory;
use std::alloc::Global;
use std::env;
use std::io::ErrorKind;
use std::rt::Env;

/// The words behind the program's name. Where one of them, or the name, is no text, there is one word, the empty one, with which no command begins. The
/// only error is want of memory.
pub fn command_words<R: Env + AllocGlobal>(rt: &R, alloc: Global) -> Result<Vec<String>, NoMemory> {
    let mut words = Vec::new(alloc);
    match env::args(rt) {
        Ok(all) => {
            for word in all.skip(1) {
                words.push(word)?;
            }
            Ok(words)
        }
        Err(e) if e.kind() == ErrorKind::OutOfMemory => Err(NoMemory),
        Err(_) => {
            words.push(String::new(alloc))?;
            Ok(words)
        }
    }
}
