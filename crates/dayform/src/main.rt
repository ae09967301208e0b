//! Day files as text, and back. `dayform pack` reads a text from standard input and writes the day file; `dayform
//! print` reads a day file and writes its text. Where the input is refused the reason goes to standard error,
//! nothing is written, and the status is 1.
#![tactic(auto)]

use anyhow::{anyhow, ensure};
use dayfile::FILE_LIMIT;
use std::env;
use std::io::{Read, Write};
use std::process::ExitCode;
use textfile::packing::pack;
use textfile::printing::print_file;

/// What the first argument asks for.
#[derive(Clone, Copy)]
enum Form {
    Pack,
    Print,
}

fn asked_form(rt: &HostRuntime) -> anyhow::Result<Form> {
    let word = env::args(rt)?.nth(1);
    match word.as_ref().map(|word| word.as_str()) {
        Some("pack") => Ok(Form::Pack),
        Some("print") => Ok(Form::Print),
        _ => Err(anyhow!("usage: dayform pack <TEXT >FILE, or dayform print <FILE >TEXT")),
    }
}

/// Refuses a file that is longer than a day file may be.
fn within_limit(file: &[u8]) -> anyhow::Result<()> {
    ensure!(
        file.len() <= FILE_LIMIT,
        "the day file is longer than {FILE_LIMIT} bytes"
    );
    Ok(())
}

fn run(rt: &HostRuntime) -> anyhow::Result<()> {
    let form = asked_form(rt)?;
    let mut input = Vec::new(rt.alloc());
    rt.stdin().read_to_end(&mut input)?;
    let output = match form {
        Form::Pack => {
            let file = pack(rt.alloc(), input.as_slice())?;
            within_limit(file.as_slice())?;
            file
        }
        Form::Print => {
            within_limit(input.as_slice())?;
            print_file(rt.alloc(), input.as_slice())?
        }
    };
    rt.stdout().write_all(output.as_slice())?;
    Ok(())
}

fn main(rt: HostRuntime) -> anyhow::Result<ExitCode> {
    if let Err(reason) = run(&rt) {
        eprintln!(rt; "{reason}")?;
        return Ok(ExitCode::FAILURE);
    }
    Ok(ExitCode::SUCCESS)
}
