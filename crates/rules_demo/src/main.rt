// Runs the compiled `is_instance` and `is_cited_instance` on the cases of data/cases, data/motives and
// data/normalisation, over the tables beside them. It writes the name of each file and a line for each of its cases.
// The answers that it is held to, in stdout, were worked out from the rules: the files say how, and why at each case.
#![tactic(auto)]

mod cases;
mod numbers;
mod tables;

use crate::tables::CheckedTables;
use rules::table::{RuleTable, rule_table};
use rules::tables::Tables;
use std::io;
use std::rt::Files;

// Runs the cases of a file, over tables of terms and of contexts that two others hold.
fn run_file(
    rt: &(impl Files + Print + Eprint),
    table: &RuleTable,
    terms_path: &[u8],
    contexts_path: &[u8],
    cases_path: &[u8],
) -> io::Result<()> {
    rt.write_all(cases_path)?;
    rt.write_all(b"\n")?;
    let mut terms = [0u8; 65536];
    let mut contexts = [0u8; 65536];
    let mut cases = [0u8; 65536];
    let t = numbers::load(rt, terms_path, &mut terms) / 5;
    let n = numbers::load(rt, contexts_path, &mut contexts) / 2;
    let many = numbers::load(rt, cases_path, &mut cases) / 26;
    if tables::are_sound(&terms, t, &contexts, n) {
        let tables = Tables {
            terms: &terms,
            contexts: &contexts,
        };
        cases::run_all(rt, table, CheckedTables { tables, t, n }, &cases, many)
    } else {
        rt.write_all(b"the tables are not sound\n")
    }
}

fn main(rt: HostRuntime) -> io::Result<()> {
    let table = rule_table();
    run_file(&rt, &table, b"terms", b"contexts", b"cases")?;
    run_file(&rt, &table, b"terms", b"contexts", b"motives")?;
    run_file(
        &rt,
        &table,
        b"normalisation/terms",
        b"normalisation/contexts",
        b"normalisation/cases",
    )?;
    run_file(
        &rt,
        &table,
        b"normalisation/terms",
        b"normalisation/contexts",
        b"normalisation/step_cases",
    )
}
