// `words_of`: the words of a program's call after the program's name.
use std::alloc::AllocError;
use std::env;
use std::env::Env;
use std::io::ErrorKind;

/// The words after the program's name. Where one is not text there are none, which is no command either.
pub fn words_of<R: Env + AllocGlobal>(rt: &R) -> Result<Vec<String>, AllocError> {
    let mut words = Vec::new(rt.alloc());
    match env::args(rt) {
        Ok(args) => {
            for word in args.skip(1) {
                words.push(word)?;
            }
        }
        Err(error) if error.kind() == ErrorKind::OutOfMemory => return Err(AllocError),
        Err(_) => {}
    }
    Ok(words)
}
