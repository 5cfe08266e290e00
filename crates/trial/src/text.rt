// A text that is read line by line; '#' starts a comment.
use anyhow::anyhow;
use std::alloc::AllocError;
use std::fmt;

// What was read from a line, which is counted from 1.
#[derive(Drop)]
pub(crate) struct Numbered<T> {
    pub at: usize,
    pub content: T,
}

// What a line holds, if not only a comment. Three layers: no memory ends the reading, a bad line is named and the next is
// read, and a line without words gives nothing.
pub(crate) type Read<T, E> = Result<Result<Option<T>, E>, AllocError>;

// Every line is read before anything is said of one. Every bad one is named, and one bad line refuses all.
pub(crate) fn read<'a, T: Drop, E: fmt::Display + Drop, F: FnMut(&'a str) -> Read<T, E>>(
    rt: &HostRuntime,
    text: &'a str,
    refusal: &str,
    mut read_line: F,
) -> anyhow::Result<Vec<Numbered<T>>>
    requires { F.IsAlwaysCallable read_line }
{
    let mut all = Some(Vec::new(rt.alloc()));
    for (at, line) in (1..).zip(text.lines()) {
        match read_line(uncommented(line))? {
            Ok(None) => {}
            Ok(Some(content)) => {
                if let Some(lines) = &mut all {
                    lines.push(Numbered { at, content })?;
                }
            }
            Err(fault) => {
                eprintln!(rt; "line {at}: {fault}")?;
                all = None;
            }
        }
    }
    all.ok_or_else(|| anyhow!("the lines above are {refusal}"))
}

// What stands before a comment.
fn uncommented(line: &str) -> &str {
    line.split_once('#').map_or(line, |(before, _)| before)
}
