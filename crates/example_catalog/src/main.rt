//! A catalogue that is read from a CSV of the columns `number,name,cents` on standard input. A repeated number is
//! refused with both lines shown. The argument `7` shows the product of that number, and `3..9` those from 3 up to 9,
//! without 9. With no argument all are shown. It relies on this promise: a range is the part of the plain list whose
//! keys lie in it.
#![tactic(auto)]

mod asked;
mod catalog;

use crate::asked::{Asked, parse_argument};
use crate::catalog::{Catalog, Product, product_of};
use csv::{ErrorKind, Reader};
use iddqd::IdOrdMap;
use iddqd::errors::InsertError;
use iddqd::id_ord_map::Iter;
use std::alloc::Global;
use std::env::{self, Env};
use std::io::{self, Read, Write};
use std::process::ExitCode;

// Inserts the product of each row, and tells of each row that is refused.
fn load(
    all: &mut Catalog,
    alloc: Global,
    input: impl Read + Drop,
    out: &mut impl Write,
) -> io::Result<()> {
    let mut rows = Reader::from_reader(alloc, input);
    for row in rows.byte_records() {
        let row = row.map_err(io_error)?;
        let line = row.position().map_or(0, |at| at.line());
        match product_of(alloc, &row, line)? {
            Some(product) => add(all, product, out)?,
            None => writeln!(out, "line {line} is no product")?,
        }
    }
    Ok(())
}

fn io_error(error: csv::Error) -> io::Error {
    match error.into_kind() {
        ErrorKind::Io(error) => error,
        ErrorKind::OutOfMemory => io::Error::from(io::ErrorKind::OutOfMemory),
        _ => io::Error::from(io::ErrorKind::InvalidData),
    }
}

fn add(all: &mut Catalog, product: Product, out: &mut impl Write) -> io::Result<()> {
    match all.0.insert_unique(product) {
        Ok(()) => Ok(()),
        Err(InsertError::Duplicate(both)) => {
            let (new, there) = (both.new_item(), both.duplicates().first());
            writeln!(
                out,
                "line {} repeats {} of line {}",
                new.line, new.number, there.line
            )
        }
        Err(InsertError::Refused(refused)) => Err(io::Error::from(refused.error)),
    }
}

// Prints what each word asks for, or all if there is none.
fn answer(all: &Catalog, words: &[String], out: &mut impl Write) -> io::Result<()> {
    if words.is_empty() {
        return show(all.0.iter(), out);
    }
    for word in words {
        match parse_argument(word) {
            Some(Asked::One(number)) => show_found(all.0.get(&number), out)?,
            Some(Asked::Between(from, to)) => show(all.between(from, to), out)?,
            None => writeln!(out, "neither a number nor a range: {word}")?,
        }
    }
    Ok(())
}

fn show(products: Iter<'_, Product>, out: &mut impl Write) -> io::Result<()> {
    for product in products {
        show_one(product, out)?;
    }
    Ok(())
}

fn show_found(product: Option<&Product>, out: &mut impl Write) -> io::Result<()> {
    match product {
        Some(product) => show_one(product, out),
        None => Ok(()),
    }
}

fn show_one(product: &Product, out: &mut impl Write) -> io::Result<()> {
    let Product {
        number,
        name,
        cents,
        ..
    } = product;
    writeln!(out, "{number:>6} {cents:>9} {name}")
}

// The arguments behind the program's name.
fn words<R: Env + AllocGlobal>(rt: &R, alloc: Global) -> io::Result<Vec<String>> {
    let mut words = Vec::new(alloc);
    for word in env::args(rt)?.skip(1) {
        words.push(word)?;
    }
    Ok(words)
}

fn main(rt: HostRuntime) -> ExitCode {
    let alloc = rt.alloc();
    let mut all = Catalog(IdOrdMap::new(alloc));
    let out = &mut rt.stdout();
    let outcome = load(&mut all, alloc, rt.stdin(), out)
        .and_then(|()| words(&rt, alloc))
        .and_then(|words| answer(&all, words.as_slice(), out));
    let told = match &outcome {
        Ok(()) => Ok(()),
        Err(error) => writeln!(out, "{error}"),
    };
    ExitCode::from(u8::from(outcome.is_err() || told.is_err()))
}
