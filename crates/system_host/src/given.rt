//! What the system hands to a program.

use corefile_words::Pair;
use dns_data::Text;
use std::alloc::Global;
use std::env;
use std::env::VarError;
use std::io::ErrorKind;
use std::rt::Env;

/// Why a program's words weren't read.
#[derive(Clone, Copy, Debug, PartialEq, Eq)]
pub enum Unheard {
    /// A word isn't UTF-8.
    NotText,
    NoMemory,
}

/// The words behind the program's own name.
pub fn words(rt: &(impl Env + AllocGlobal), alloc: Global) -> Result<Vec<Text>, Unheard> {
    let args = match env::args(rt) {
        Ok(args) => args,
        Err(error) => return Err(why_of(error.kind())),
    };
    let mut words = Vec::new(alloc);
    for (index, word) in args.enumerate() {
        if index != 0 && words.push(Text::of(word)).is_err() {
            return Err(Unheard::NoMemory);
        }
    }
    Ok(words)
}

// Why the system's words weren't read, by the kind of the error.
fn why_of(kind: ErrorKind) -> Unheard {
    match kind {
        ErrorKind::OutOfMemory => Unheard::NoMemory,
        _ => Unheard::NotText,
    }
}

/// The environment. Where a variable isn't UTF-8 there is none.
pub fn environment(rt: &(impl Env + AllocGlobal), alloc: Global) -> Result<Vec<Pair>, Unheard> {
    let mut pairs = Vec::new(alloc);
    let vars = match env::vars(rt) {
        Ok(vars) => vars,
        Err(VarError::OutOfMemory) => return Err(Unheard::NoMemory),
        Err(_) => return Ok(pairs),
    };
    for (name, value) in vars {
        let (name, value) = (Text::of(name), Text::of(value));
        if pairs.push(Pair { name, value }).is_err() {
            return Err(Unheard::NoMemory);
        }
    }
    Ok(pairs)
}
