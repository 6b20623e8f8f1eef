// What the program writes.
ghost use Rattle.std.specs.Prelude.{◌≡◌, ◌*◌, ◌≤◌, length, IfOk};
ghost use Rattle.terms.specs.Sizes.{check_terms};
ghost use Rattle.terms.specs.Buffers.{over};

use std::io;
use terms::sizes::{TermsError, check_terms};

// `NAME N: yes` or `NAME N: no` for each answer, N from 1.
pub fn write_answers(rt: &impl Print, name: &[u8], answers: &[bool]) -> io::Result<()> {
    for (i, yes) in answers.iter().enumerate() {
        let answer = if *yes { "yes" } else { "no" };
        write_numbered(rt, name, i + 1)?;
        println!(rt; "{answer}")?;
    }
    Ok(())
}

// `NAME N: VALUE` for each number, N from 1.
pub fn write_numbers(rt: &impl Print, name: &[u8], numbers: &[usize]) -> io::Result<()> {
    for (i, value) in numbers.iter().enumerate() {
        write_numbered(rt, name, i + 1)?;
        println!(rt; "{value}")?;
    }
    Ok(())
}

fn write_numbered(rt: &impl Print, name: &[u8], n: usize) -> io::Result<()> {
    rt.write_all(name)?;
    print!(rt; " {n}: ")
}

// `sound`, or a fault's number and place.
fn write_answer(rt: &impl Print, answer: Result<(), TermsError>) -> io::Result<()> {
    match answer {
        Ok(()) => rt.write_all(b"sound")?,
        Err(TermsError { fault, place }) => {
            let number = fault.number();
            print!(rt; "{number} {place}")?
        }
    }
    rt.write_all(b"\nsizes")
}

// Every word of the work buffer.
fn write_sizes(rt: &impl Print, work: &[u32]) -> io::Result<()> {
    for word in work {
        print!(rt; " {word}")?;
    }
    rt.write_all(b"\n")
}

// Checks the first `count` rows, and writes the answer and the work buffer that the check leaves.
pub fn checked(
    rt: &impl Print,
    rows: &[u8],
    count: usize,
    work: &mut [u32],
) -> io::Result<Result<(), TermsError>>
    requires { (10 * count ≤ length rows.now) × (count ≤ 3072) × (count ≤ length work.old) }
    ensures answer { IfOk result (λ answer. answer ≡ (check_terms rows.now count).answer) }
    ensures sizes { work.new ≡ over (check_terms rows.now count).sizes work.old }
{
    let answer = check_terms(rows, count, work);
    write_answer(rt, answer)?;
    write_sizes(rt, work)?;
    Ok(answer)
}
