// `trial`: what a release tester runs.
#![tactic(auto)]

mod capture;
mod csv;
mod edition;
mod editions;
mod hex;
mod key;
mod outcome;
mod play;
mod report;
mod request;
mod script;
mod scripts;
mod shown;
mod style;
mod table;
mod text;
mod words;

use anyhow::anyhow;
use csv::Csv;
use std::process::ExitCode;
use std::{env, fs, io};
use style::{Plain, Words};
use table::Table;

const USAGE: &str = "usage: trial editions [FILE] | trial packets [--plain] [FILE]";

fn main(rt: HostRuntime) -> ExitCode {
    match run(&rt) {
        Ok(()) => ExitCode::SUCCESS,
        Err(error) => {
            let _ = eprintln!(rt; "trial: {error}");
            ExitCode::FAILURE
        }
    }
}

fn run(rt: &HostRuntime) -> anyhow::Result<()> {
    let args: Vec<String> = env::args(rt)?.skip(1).collect(rt.alloc())?;
    let words: Vec<&str> = args.iter().map(|word| word.as_str()).collect(rt.alloc())?;
    match words.as_slice() {
        ["packets", "--plain", file @ ..] => {
            capture::report::<Plain>(rt, read(rt, file)?.as_str())
        }
        ["packets", file @ ..] => capture::report::<Words>(rt, read(rt, file)?.as_str()),
        ["editions", "--plain", ..] => Err(anyhow!("{USAGE}")),
        ["editions", file @ ..] => editions::report(rt, read(rt, file)?.as_str()),
        ["--csv", file @ ..] => scripts::play::<Csv>(rt, read_script(rt, file)?.as_str()),
        ["--table", file @ ..] => scripts::play::<Table>(rt, read_script(rt, file)?.as_str()),
        _ => Err(anyhow!("{USAGE}")),
    }
}

// The whole file, or all of standard input where none is named.
fn read(rt: &HostRuntime, file: &[&str]) -> anyhow::Result<String> {
    match file {
        [] => Ok(io::read_to_string(rt.alloc(), rt.stdin())?),
        [path] => Ok(fs::read_to_string(rt, *path)?),
        _ => Err(anyhow!("{USAGE}")),
    }
}

// The same for a script, which no option may follow.
fn read_script(rt: &HostRuntime, file: &[&str]) -> anyhow::Result<String> {
    if file.iter().any(|word| word.starts_with('-')) {
        return Err(anyhow!("{USAGE}"));
    }
    read(rt, file)
}
