//! The program: a caching file layer that plays scripts.
#![tactic(auto)]

mod real;
pub mod run;
#[cfg(test)]
mod tests;

ghost use Rattle.std.specs.Prelude.{◌≢◌, IfErr};
ghost use Rattle.std.specs.IoError.{error_kind};

use real::RealWorld;
use run::run;
use std::env;
use std::io::{self, ErrorKind};
use std::process::ExitCode;

/// The words after the program's name; none where one of them isn't UTF-8, since no command has such a word.
fn words_of(rt: &HostRuntime) -> io::Result<Vec<String>>
    ensures { IfErr result (λ error. error_kind error ≢ ErrorKind.InvalidData) }
{
    let mut words = Vec::new(rt.alloc());
    match env::args(rt) {
        Ok(all) => {
            for word in all.skip(1) {
                words.push(word)?;
            }
        }
        Err(error) => {
            if error.kind() != ErrorKind::InvalidData {
                return Err(error);
            }
        }
    }
    Ok(words)
}

fn main(rt: HostRuntime) -> io::Result<ExitCode> {
    let words = words_of(&rt)?;
    let mut world = RealWorld::new(rt.alloc(), rt.clone()?, io::writer(&rt));
    let status = run(rt.alloc(), &words, &mut world);
    Ok(ExitCode::from(status))
}
