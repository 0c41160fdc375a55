// Prints, for each file that an argument names, its name and what the shuttle program prints for it.
#![tactic(auto)]

use std::env::FillError;
use std::fs::File;
use std::rt::{Env, Files};
use std::{io, str};

// A file's name on a line, and what is printed for the file.
fn print_file<T: Files + Print + Eprint>(rt: &T, name: &str) -> io::Result<()> {
    println!(rt; "{name}")?;
    match File::open(rt, name) {
        Ok(mut file) => {
            shuttle_answers::print_answer(&mut file, name.as_bytes(), &mut io::writer(rt), rt);
        }
        Err(error) => {
            let _ = eprintln!(rt; "{name}: {error}");
        }
    }
    Ok(())
}

// What is printed for the file that an argument names: whether there is such an argument. One that is longer than a path may be, or is
// no text, names no file, and that is told on standard error.
fn print_argument<T: Env + Files + Print + Eprint>(rt: &T, i: usize) -> io::Result<bool> {
    let mut name = [0u8; 4096];
    let n = match rt.arg(i, &mut name) {
        Ok(n) => n,
        Err(FillError::NotPresent) => return Ok(false),
        Err(FillError::TooLong) => {
            let _ = eprintln!(rt; "argument: File name too long");
            return Ok(true);
        }
    };
    match str::from_utf8(&name[..n]) {
        Ok(name) => print_file(rt, name)?,
        Err(error) => {
            let _ = eprintln!(rt; "argument: {error}");
        }
    }
    Ok(true)
}

fn main(rt: HostRuntime) -> io::Result<()> {
    // the first argument is the program's own name
    for i in 1..usize::MAX {
        if !print_argument(&rt, i)? {
            break;
        }
    }
    Ok(())
}
