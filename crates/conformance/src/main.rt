// Answers cases, or tries them against the answers that stand behind them: those of the files that its arguments name, or of standard
// input. At the end it tells how many had an answer and how many of these were wrong. The crate `cases` has the form of a case.
#![tactic(auto)]

mod answers;
mod memory;
mod text;
mod trial;

use memory::Memory;
use print::Printer;
use std::env::{Env, FillError};
use std::io;
use trial::Trial;

const OUTPUT: usize = 400_000;

// A line that has as many octets or more loses the first so many.
const TEXT: usize = 400_000;

// The octets of the longest name that a file can have.
const NAME: usize = 4096;

// The files that the arguments name, one by one; standard input where none is named, or where a name is empty or too long.
fn try_arguments(rt: HostRuntime, trial: &mut Trial, text: &mut [u8]) {
    let mut name = [0u8; NAME];
    for i in 1..usize::MAX {
        match rt.arg(i, &mut name) {
            Err(FillError::NotPresent) if i > 1 => return,
            filled => trial.try_argument(&name[..filled.unwrap_or(0)], text),
        }
    }
}

fn main(rt: HostRuntime) -> io::Result<()> {
    let mut out = vec![in rt.alloc(); 0u8; OUTPUT]?;
    let mut text = vec![in rt.alloc(); 0u8; TEXT]?;
    let memory = Memory::new(rt.alloc())?;
    let mut trial = Trial::new(rt, Printer::new(rt, &mut out), memory);
    try_arguments(rt, &mut trial, &mut text);
    trial.end();
    Ok(())
}
