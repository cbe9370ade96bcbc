use crate::step::Step;
use hex::decode_to_slice;
use history::Call;
use std::alloc::{AllocError, AllocFailed, Global};
use std::fmt;

// The calls of a life, in their order, and the bytes of its work orders.
#[derive(Drop)]
pub struct Life {
    steps: Vec<Step>,
    orders: Vec<u8>,
}

// Why a text is no life: a line that is no call, counted from 1, or want of memory.
#[derive(Clone, Copy, Debug)]
pub enum NotALife {
    Line(usize),
    NoMemory,
}

// Written out, since what `thiserror` derives for is not Copy.
impl fmt::Display for NotALife {
    fn fmt<W: fmt::Write>(&self, f: &mut fmt::Formatter<W>) -> fmt::Result {
        match self {
            NotALife::Line(number) => write!(f, "line {number} cannot be read"),
            NotALife::NoMemory => write!(f, "no memory"),
        }
    }
}

impl From<AllocError> for NotALife {
    fn from(_e: AllocError) -> NotALife {
        NotALife::NoMemory
    }
}

impl<T: Drop> From<AllocFailed<T>> for NotALife {
    fn from(_e: AllocFailed<T>) -> NotALife {
        NotALife::NoMemory
    }
}

impl Life {
    // Reads all lines before anything is called; blank ones are passed over.
    pub fn read(heap: Global, text: &str) -> Result<Life, NotALife> {
        let mut steps = Vec::new(heap);
        let mut orders = Vec::new(heap);
        for (before, line) in text.lines().enumerate() {
            if is_blank(line) {
                continue;
            }
            let Some(step) = step_of(line, &mut orders)? else {
                return Err(NotALife::Line(before.saturating_add(1)));
            };
            steps.push(step)?;
        }
        Ok(Life { steps, orders })
    }

    // The calls, with their orders.
    pub fn calls(&self, heap: Global) -> Result<Vec<Call<'_>>, AllocError> {
        let orders = self.orders.as_slice();
        let mut calls = Vec::new(heap);
        for step in self.steps.as_slice() {
            calls.push(step.call(orders))?;
        }
        Ok(calls)
    }
}

pub(crate) fn is_blank(line: &str) -> bool {
    line.split_whitespace().next().is_none()
}

// The call that a line has, or none. A run's bytes go behind the others; without bytes it is the empty order.
fn step_of(line: &str, orders: &mut Vec<u8>) -> Result<Option<Step>, NotALife> {
    let mut words = line.split_whitespace();
    let name = words.next().unwrap_or("");
    let first = words.next();
    let second = words.next();
    if words.next().is_some() {
        return Ok(None);
    }
    match (name, first, second) {
        ("run", digits, None) => run_step(digits.unwrap_or(""), orders),
        _ => Ok(plain_step(name, first, second)),
    }
}

fn plain_step(name: &str, first: Option<&str>, second: Option<&str>) -> Option<Step> {
    let step = match (name, first, second) {
        ("look", None, None) => Step::Look,
        ("set", Some(to), None) => Step::Set(to.parse().ok()?),
        ("pass", Some(seconds), None) => Step::Pass(seconds.parse().ok()?),
        ("get", Some(cell), None) => Step::Get(cell.parse().ok()?),
        ("open", None, None) => Step::Open,
        ("put", Some(cell), Some(value)) => Step::Put(cell.parse().ok()?, value.parse().ok()?),
        ("check", None, None) => Step::Check,
        ("commit", None, None) => Step::Commit,
        ("discard", None, None) => Step::Discard,
        ("clear", None, None) => Step::Clear,
        _ => return None,
    };
    Some(step)
}

// Two hexadecimal digits to a byte. What is no order asks for no memory.
fn run_step(digits: &str, orders: &mut Vec<u8>) -> Result<Option<Step>, NotALife> {
    if digits.len() % 2 != 0 || !digits.bytes().all(|digit| digit.is_ascii_hexdigit()) {
        return Ok(None);
    }
    let from = orders.len();
    orders.resize(from.saturating_add(digits.len() / 2), 0)?;
    let decoded = decode_to_slice(digits, &mut orders.as_mut_slice()[from..]);
    Ok(decoded.ok().map(|_| Step::Run(from, orders.len())))
}
