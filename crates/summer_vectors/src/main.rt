// Each line of standard input asks a law at an offset and a second; each line out has whether summer time is in force, and its next change.
#![tactic(auto)]

use anyhow::{Context, anyhow};
use std::io::{BufRead, BufReader, BufWriter, Write};
use summer::{America, Europe, SummerRule};

fn main(rt: HostRuntime) -> anyhow::Result<()> {
    let mut out = BufWriter::new(rt.alloc(), rt.stdout())?;
    for line in BufReader::new(rt.alloc(), rt.stdin())?.lines(rt.alloc()) {
        answer(line?.as_str(), &mut out)?;
    }
    out.flush()?;
    Ok(())
}

fn answer<W: Write>(line: &str, out: &mut W) -> anyhow::Result<()> {
    let mut words = line.split_whitespace();
    let law = words.next().context("no law")?;
    let offset = words.next().context("no offset")?.parse::<i32>()?;
    let second = words.next().context("no second")?.parse::<u32>()?;
    match law {
        "europe" => tell(&Europe, offset, second, out),
        "america" => tell(&America, offset, second, out),
        _ => Err(anyhow!("no such law")),
    }
}

fn tell<R: SummerRule, W: Write>(
    rule: &R,
    offset: i32,
    second: u32,
    out: &mut W,
) -> anyhow::Result<()> {
    let summer = u8::from(rule.in_force(offset, second));
    match rule.next_change(offset, second) {
        Some(change) => writeln!(out, "{summer} {change}")?,
        None => writeln!(out, "{summer} none")?,
    }
    Ok(())
}
