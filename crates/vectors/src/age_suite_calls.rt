//! Calls of `age_suite`: `draw BYTES SIZE ..`, which takes so many bytes in turn, and answers each time those that were drawn, or `none`, and
//! how many are left then; `debug_draw BYTES`, before three bytes are drawn and after it; and `debug_opens`, after a count.

ghost use Rattle.std.specs.Prelude.{◌<◌, ◌^◌};

use crate::words::{Fault, both, debugged, number, said, shown};
use age_suite::draw::Draw;
use age_suite::suite::Opens;
use std::alloc::Global;

fn taken<const N: usize>(alloc: Global, draw: &mut Draw) -> Result<String, Fault>
    requires { N < 2 ^ 63 }
{
    match draw.take::<N>() {
        Some(bytes) => shown(alloc, &bytes),
        None => said(alloc, "none"),
    }
}

fn take(alloc: Global, draw: &mut Draw, size: u64) -> Result<String, Fault> {
    match size {
        0 => taken::<0>(alloc, draw),
        2 => taken::<2>(alloc, draw),
        3 => taken::<3>(alloc, draw),
        _ => Err(Fault::Word),
    }
}

// What one more draw adds to an answer.
fn add(alloc: Global, answer: &mut String, draw: &mut Draw, size: u64) -> Result<(), Fault> {
    if !answer.is_empty() {
        answer.push(' ')?;
    }
    let bytes = take(alloc, draw, size)?;
    let left = draw.left();
    answer.push_str(&format!(in alloc; "{bytes} {left}")?)?;
    Ok(())
}

fn draw(alloc: Global, args: &[Vec<u8>]) -> Result<String, Fault> {
    let Some((all, sizes)) = args.split_first() else {
        return Err(Fault::Count);
    };
    let mut draw = Draw::new(all.clone()?);
    let mut answer = String::new(alloc);
    for size in sizes {
        add(alloc, &mut answer, &mut draw, number(size)?)?;
    }
    Ok(answer)
}

fn debug_draw(alloc: Global, args: &[Vec<u8>]) -> Result<String, Fault> {
    let [all] = args else {
        return Err(Fault::Count);
    };
    let mut draw = Draw::new(all.clone()?);
    let before = debugged(alloc, &draw)?;
    let Some(_) = draw.take::<3>() else {
        return Err(Fault::Word);
    };
    both(alloc, &before, &debugged(alloc, &draw)?)
}

fn debug_opens(alloc: Global) -> Result<String, Fault> {
    let mut opens = Opens::new();
    opens.tick();
    debugged(alloc, &opens)
}

/// What a call answers.
pub fn answer(alloc: Global, name: &str, args: &[Vec<u8>]) -> Result<String, Fault> {
    match name {
        "draw" => draw(alloc, args),
        "debug_draw" => debug_draw(alloc, args),
        "debug_opens" => debug_opens(alloc),
        _ => Err(Fault::Call),
    }
}
