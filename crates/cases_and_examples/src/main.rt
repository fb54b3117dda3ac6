//! Runs the cases of `data/` that its words name, and the examples where a word is `examples`.
//!
//! The files lie in the folder that the program runs in. It fails if a call of a case returns
//! something else than its file says.
#![tactic(auto)]

mod cases;
mod examples;

use anyhow::{Result, ensure};
use std::env;

fn main(rt: HostRuntime) -> Result<()> {
    let mut words = match env::args(&rt) {
        Err(_) => env::args(&rt),
        words => words,
    }?;
    let _ = words.next();
    let mut differ = 0;
    for word in words {
        if word.as_str() == "examples" {
            examples::show(&rt)?;
        } else {
            differ = differ.max(cases::compare(&rt, word.as_str())?);
        }
    }
    ensure!(differ == 0, "answers differ");
    Ok(())
}
