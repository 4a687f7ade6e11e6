//! Rows of commands, told in the files that the arguments name, or else in all of the folder that have a name with
//! `.rows`: each is tried, and what isn't as its row says is printed. The last line counts the rows.
#![tactic(auto)]

mod reading;
mod row;
mod status;
mod text;
mod trying;

use crate::reading::rows_of;
use crate::row::Row;
use crate::trying::{Tally, tried};
use anyhow::{Result, bail};
use std::{env, fs};

fn main(rt: HostRuntime) -> Result<()> {
    let mut names = env::args(&rt)?.skip(1).collect::<Vec<String>>(rt.alloc())?;
    if names.is_empty() {
        names = names_here(&rt)?;
    }
    let mut tally = Tally::new();
    for name in names.as_slice() {
        match rows_in(&rt, name.as_str()) {
            Ok(rows) => try_rows(&rt, name.as_str(), rows.as_slice(), &mut tally)?,
            Err(fault) => {
                tally.count(true);
                println!(rt; "{name}:{fault}")?;
            }
        }
    }
    println!(rt; "{} rows, {} wrong", tally.tried, tally.wrong)?;
    Ok(())
}

/// The names of the files of rows in the folder that the program runs in; there is at least one.
fn names_here(rt: &HostRuntime) -> Result<Vec<String>> {
    let mut names = Vec::new(rt.alloc());
    for entry in fs::read_dir(rt, ".")? {
        let entry = entry?;
        if entry.file_name().ends_with(".rows") {
            names.push(String::from_str(rt.alloc(), entry.file_name())?)?;
        }
    }
    if names.is_empty() {
        bail!("no file has rows");
    }
    Ok(names)
}

/// The rows of a file, which has some.
fn rows_in(rt: &HostRuntime, name: &str) -> Result<Vec<Row>> {
    let text = fs::read_to_string(rt, name)?;
    let rows = rows_of(rt.alloc(), text.as_str())?;
    if rows.is_empty() {
        bail!("1: there is no row");
    }
    Ok(rows)
}

/// Tries rows, and prints what is wrong with each.
fn try_rows(rt: &HostRuntime, name: &str, rows: &[Row], tally: &mut Tally) -> Result<()> {
    for row in rows {
        let wrong = tried(rt.alloc(), row, tally)?;
        for told in wrong.as_slice() {
            println!(rt; "{name}:{told}")?;
        }
    }
    Ok(())
}
