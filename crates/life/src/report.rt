use crate::reading::is_blank;
use history::Answer;
use lines::write_look;
use refusal::Refusal;
use schedule::Look;
use std::io;
use std::io::Write;

// Each line of the life with the answer to its call.
pub(crate) fn write_answers<W: Write>(
    text: &str,
    answers: &[Answer],
    out: &mut W,
) -> io::Result<()> {
    let called = text.lines().filter(|line| !is_blank(line));
    for (line, answer) in called.zip(answers) {
        write!(out, "{line}: ")?;
        write_answer(*answer, out)?;
    }
    Ok(())
}

// A look is given out whole.
fn write_answer<W: Write>(answer: Answer, out: &mut W) -> io::Result<()> {
    match answer {
        Answer::Seen(look) => write_look(&look, out),
        _ => writeln!(out, "{answer}"),
    }
}

// Both looks, and whether they agree.
pub(crate) fn write_looks<W: Write>(
    meter: Result<Look, Refusal>,
    reader: Result<Look, Refusal>,
    out: &mut W,
) -> io::Result<()> {
    write!(out, "meter: ")?;
    write_answer(meter.into(), out)?;
    write!(out, "reader: ")?;
    write_answer(reader.into(), out)?;
    match (meter, reader) {
        (Ok(shown), Ok(read)) => write_difference(shown, read, out),
        (Err(why), Err(too)) if why == too => writeln!(out, "agree"),
        _ => writeln!(out, "differ: one has a look, or another refusal"),
    }
}

// `agree`, or the names of the fields that differ.
fn write_difference<W: Write>(shown: Look, read: Look, out: &mut W) -> io::Result<()> {
    if shown == read {
        return writeln!(out, "agree");
    }
    write!(out, "differ:")?;
    let pairs = [
        ("local time", shown.local_time == read.local_time),
        ("row", shown.row == read.row),
        ("plan", shown.plan == read.plan),
        ("event's plan", shown.event_plan == read.event_plan),
        ("event", shown.event == read.event),
        ("days back", shown.days_back == read.days_back),
        ("tariff", shown.tariff == read.tariff),
        ("last second", shown.last_second == read.last_second),
    ];
    for (name, same) in pairs {
        if !same {
            write!(out, " {name}")?;
        }
    }
    writeln!(out, "")
}
