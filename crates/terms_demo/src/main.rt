// Checks term tables that were worked out by hand, runs the tests on rows over those that are sound, and writes a
// line for each test. What it must write stands in the file `stdout`.
#![tactic(auto)]

mod tables;
mod tests;
mod writing;

ghost use Rattle.std.specs.Prelude.{◌<◌};

use crate::tables::SoundTable;
use std::io;

fn write_head_tests(rt: &impl Print, table: SoundTable<43>) -> io::Result<()> {
    tests::nodes(rt, table)?;
    tests::other_nodes(rt, table)?;
    tests::children(rt, table)?;
    tests::numbers(rt, table)?;
    tests::equal_terms(rt, table)?;
    tests::normal_terms(rt, table)
}

fn write_shift_tests(rt: &impl Print, table: SoundTable<43>) -> io::Result<()> {
    tests::shifts(rt, table)?;
    tests::deep_shifts(rt, table)
}

fn write_substituted_tests(rt: &impl Print, table: SoundTable<43>) -> io::Result<()> {
    tests::substituted_rows(rt, table)?;
    tests::substituted_rows_under(rt, table)?;
    tests::substituted_described(rt, table)?;
    tests::substituted_outer_succ(rt, table)?;
    tests::substituted_both(rt, table)
}

fn write_tests(rt: &impl Print, table: SoundTable<43>) -> io::Result<()> {
    write_head_tests(rt, table)?;
    write_shift_tests(rt, table)?;
    write_substituted_tests(rt, table)
}

fn whole_table(rt: &impl Print) -> io::Result<()> {
    let table = tables::TABLE;
    let mut rows = [0u8; 430];
    tables::fill(&table, &mut rows);
    let mut work = [0u32; 45];
    match writing::checked(rt, &rows, 43, &mut work)? {
        Ok(()) => write_tests(rt, SoundTable { rows: &rows }),
        Err(_) => Ok(()),
    }
}

fn bare_table(rt: &impl Print) -> io::Result<()> {
    let table = tables::BARE;
    let mut rows = [0u8; 60];
    tables::fill(&table, &mut rows);
    let mut work = [0u32; 6];
    match writing::checked(rt, &rows, 6, &mut work)? {
        Ok(()) => tests::substituted_without_rows(rt, SoundTable { rows: &rows }),
        Err(_) => Ok(()),
    }
}

// The table with one byte changed.
fn damaged_table(rt: &impl Print, at: usize, value: u8) -> io::Result<()>
    requires { at < 430 }
{
    let table = tables::TABLE;
    let mut rows = [0u8; 430];
    tables::fill(&table, &mut rows);
    tables::change(&mut rows, at, value);
    let mut work = [0u32; 45];
    let _ = writing::checked(rt, &rows, 43, &mut work)?;
    Ok(())
}

// The first `count` rows of the doubling table.
fn doubling_table(rt: &impl Print, count: usize) -> io::Result<()>
    requires { count < 18 }
{
    let table = tables::DOUBLING;
    let mut rows = [0u8; 170];
    tables::fill(&table, &mut rows);
    let mut work = [0u32; 18];
    let _ = writing::checked(rt, &rows, count, &mut work)?;
    Ok(())
}

// The doubling table with succ(15) for its last row.
fn next_size(rt: &impl Print) -> io::Result<()> {
    let table = tables::DOUBLING;
    let mut rows = [0u8; 170];
    tables::fill(&table, &mut rows);
    tables::change(&mut rows, 160, 12);
    tables::change(&mut rows, 164, 0);
    let mut work = [0u32; 18];
    let _ = writing::checked(rt, &rows, 17, &mut work)?;
    Ok(())
}

fn main(rt: HostRuntime) -> io::Result<()> {
    whole_table(&rt)?;
    bare_table(&rt)?;
    // an unused operand that is not 0: 5 at term 0
    damaged_table(&rt, 2, 1)?;
    // the level 1,027: 5 at term 1
    damaged_table(&rt, 13, 4)?;
    // the tags 14 and 0: 5 at terms 3 and 4
    damaged_table(&rt, 30, 14)?;
    damaged_table(&rt, 40, 0)?;
    // the index 4,100: 5 at term 6
    damaged_table(&rt, 63, 16)?;
    // a row that is its own child: 5 at term 11
    damaged_table(&rt, 112, 11)?;
    // Pi(v0, v0) a second time: 6 at term 13
    damaged_table(&rt, 132, 2)?;
    // the size 65,535 passes; 131,071 and 65,536 give 7 at term 16
    doubling_table(&rt, 16)?;
    doubling_table(&rt, 17)?;
    next_size(&rt)
}
