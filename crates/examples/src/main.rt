// Prints the verdict on every line of the scope's table of examples, fences, and more cases of each number.
#![tactic(auto)]

use judge::Verdict;
use std::io::{Result, Write};

// A line: the example's name, the verdict's word and its two numbers.
// No `Display` of `Verdict`: `text::first` writes these bytes for the programs, by its contract, and judge lies below it.
fn show<W: Write>(out: &mut W, name: &str, words: &[u32]) -> Result<()> {
    match judge::by_ticks::judge(words) {
        Verdict::Firm(start, period) => writeln!(out, "{name} firm {start} {period}"),
        Verdict::Full(start, period) => writeln!(out, "{name} full {start} {period}"),
        Verdict::Miss(tick, position) => writeln!(out, "{name} miss {tick} {position}"),
        Verdict::Refused(number, position) => writeln!(out, "{name} refused {number} {position}"),
    }
}

// A to C: the same tasks under several rules.
fn marked<W: Write>(out: &mut W) -> Result<()> {
    show(
        out,
        "A",
        &[
            1u32, 3, 1, 0, 0, 2, 0, 2, 2, 5, 5, 2, 3, 0, 2, 3, 5, 5, 2, 0, 0, 1, 4, 5, 5, 1,
        ],
    )?;
    show(
        out,
        "A2",
        &[
            1u32, 3, 2, 0, 0, 2, 0, 2, 2, 5, 5, 2, 3, 0, 2, 3, 5, 5, 2, 0, 0, 1, 4, 5, 5, 1,
        ],
    )?;
    show(
        out,
        "A3",
        &[
            1u32, 3, 3, 0, 0, 2, 0, 2, 2, 5, 5, 2, 3, 0, 2, 3, 5, 5, 2, 0, 0, 1, 4, 5, 5, 1,
        ],
    )?;
    show(
        out,
        "A4",
        &[
            1u32, 3, 4, 0, 0, 2, 0, 2, 2, 5, 5, 2, 3, 0, 2, 3, 5, 5, 2, 0, 0, 1, 4, 5, 5, 1,
        ],
    )?;
    show(
        out,
        "B",
        &[
            1u32, 2, 1, 0, 0, 2, 0, 1, 3, 3, 4, 1, 3, 0, 2, 1, 4, 4, 2, 0, 0, 1, 2, 2, 4, 1,
        ],
    )?;
    show(
        out,
        "B2",
        &[
            1u32, 2, 2, 0, 0, 2, 0, 1, 3, 3, 4, 1, 3, 0, 2, 1, 4, 4, 2, 0, 0, 1, 2, 2, 4, 1,
        ],
    )?;
    show(
        out,
        "B3",
        &[
            1u32, 2, 3, 0, 0, 2, 0, 1, 3, 3, 4, 1, 3, 0, 2, 1, 4, 4, 2, 0, 0, 1, 2, 2, 4, 1,
        ],
    )?;
    show(
        out,
        "B4",
        &[
            1u32, 2, 4, 0, 0, 2, 0, 1, 3, 3, 4, 1, 3, 0, 2, 1, 4, 4, 2, 0, 0, 1, 2, 2, 4, 1,
        ],
    )?;
    show(
        out,
        "C",
        &[
            1u32, 2, 1, 0, 0, 2, 0, 1, 2, 4, 4, 1, 3, 0, 2, 2, 4, 4, 2, 0, 0, 1, 1, 4, 4, 1,
        ],
    )?;
    show(
        out,
        "C2",
        &[
            1u32, 2, 1, 0, 0, 3, 0, 1, 2, 4, 4, 1, 0, 0, 2, 2, 4, 4, 2, 2, 0, 1, 1, 4, 4, 1,
        ],
    )?;
    show(
        out,
        "E",
        &[1u32, 1, 2, 0, 0, 2, 1, 1, 1, 1, 2, 1, 0, 0, 1, 1, 2, 3, 1],
    )?;
    show(out, "F", &[1u32, 1, 1, 0, 0, 0, 0, 1, 2, 1, 2, 1])?;
    Ok(())
}

// A on five cores, of which 0 and 3 are fenced, and on 64, of which all but 31, 32 and 63 are; one unfenced core.
fn fenced<W: Write>(out: &mut W) -> Result<()> {
    show(
        out,
        "A-fenced",
        &[
            1u32, 5, 1, 9, 0, 2, 0, 2, 2, 5, 5, 2, 3, 0, 2, 3, 5, 5, 2, 0, 0, 1, 4, 5, 5, 1,
        ],
    )?;
    show(
        out,
        "A2-fenced",
        &[
            1u32, 5, 2, 9, 0, 2, 0, 2, 2, 5, 5, 2, 3, 0, 2, 3, 5, 5, 2, 0, 0, 1, 4, 5, 5, 1,
        ],
    )?;
    show(
        out,
        "A3-fenced-64",
        &[
            1u32, 64, 3, 2147483647, 2147483646, 2, 0, 2, 2, 5, 5, 2, 3, 0, 2, 3, 5, 5, 2, 0, 0, 1,
            4, 5, 5, 1,
        ],
    )?;
    show(
        out,
        "one-core-left",
        &[1u32, 64, 2, 4294967295, 2147483647, 0, 0, 1, 1, 1, 1, 1],
    )?;
    Ok(())
}

// Odd and even widths: P takes 2T; under greedy a table is firm where no width of a task is above one of the next; the choice changes though the claimants
// do not.
fn paired<W: Write>(out: &mut W) -> Result<()> {
    show(
        out,
        "odd-and-even",
        &[1u32, 4, 1, 0, 0, 2, 0, 4, 1, 2, 2, 2, 0, 0, 2, 1, 2, 2, 2],
    )?;
    show(
        out,
        "even-rises",
        &[1u32, 4, 1, 0, 0, 2, 0, 1, 1, 2, 2, 2, 0, 0, 2, 1, 2, 2, 4],
    )?;
    show(
        out,
        "even-falls",
        &[1u32, 4, 1, 0, 0, 2, 0, 1, 1, 2, 2, 3, 0, 0, 2, 1, 2, 2, 4],
    )?;
    show(
        out,
        "miss-on-the-even-job",
        &[1u32, 2, 1, 0, 0, 2, 0, 1, 1, 1, 1, 1, 0, 0, 1, 1, 1, 1, 2],
    )?;
    show(
        out,
        "7-on-even-jobs",
        &[1u32, 2, 1, 0, 0, 0, 0, 2, 1, 1, 1, 3],
    )?;
    show(
        out,
        "9-by-2T",
        &[
            1u32, 2, 1, 0, 0, 2, 0, 1, 1, 1000, 1000, 2, 0, 0, 1, 1, 999999, 999999, 1,
        ],
    )?;
    Ok(())
}

// D, G and H.
fn others<W: Write>(out: &mut W) -> Result<()> {
    show(
        out,
        "D",
        &[
            1u32, 2, 1, 0, 0, 2, 0, 1, 3, 4, 4, 1, 3, 0, 2, 1, 4, 4, 2, 0, 0, 1, 2, 4, 4, 1,
        ],
    )?;
    show(
        out,
        "G",
        &[
            1u32, 1, 1, 0, 0, 2, 0, 1, 1, 128, 128, 1, 0, 0, 1, 1, 78125, 78125, 1,
        ],
    )?;
    show(
        out,
        "G-offset",
        &[
            1u32, 1, 1, 0, 0, 2, 1, 1, 1, 128, 128, 1, 0, 0, 1, 1, 78125, 78125, 1,
        ],
    )?;
    show(out, "H-two-words", &[1u32, 1])?;
    show(out, "H-229-words", &[0u32; 229])?;
    show(out, "H-236-words", &[0u32; 236])?;
    show(
        out,
        "H-cores-and-rule",
        &[1u32, 0, 9, 0, 0, 0, 0, 1, 1, 1, 1, 1],
    )?;
    show(
        out,
        "H-past-the-last",
        &[2u32, 1, 1, 0, 0, 0, 0, 1, 1, 1, 1, 1],
    )?;
    show(out, "H-met-again", &[1u32, 1, 1, 0, 0, 1, 0, 1, 1, 1, 1, 1])?;
    Ok(())
}

// Each number once more, and a position that is not the record's number.
fn numbers<W: Write>(out: &mut W) -> Result<()> {
    show(out, "1-half-a-record", &[1u32, 1, 1, 0, 0, 0, 0, 1])?;
    show(out, "2-65-cores", &[1u32, 65, 1, 0, 0, 0, 0, 1, 1, 1, 1, 1])?;
    show(out, "3-rule-5", &[1u32, 1, 5, 0, 0, 0, 0, 1, 1, 1, 1, 1])?;
    show(
        out,
        "19-all-cores",
        &[1u32, 5, 1, 31, 0, 0, 0, 1, 1, 1, 1, 1],
    )?;
    show(
        out,
        "19-past-the-count",
        &[1u32, 5, 1, 32, 0, 0, 0, 1, 1, 1, 1, 1],
    )?;
    show(
        out,
        "19-second-word",
        &[1u32, 33, 1, 0, 2, 0, 0, 1, 1, 1, 1, 1],
    )?;
    show(out, "19-before-4", &[0u32, 1, 1, 1, 0, 0, 0, 1, 1, 1, 1, 1])?;
    show(out, "4-no-head", &[0u32, 1, 1, 0, 0, 0, 0, 1, 1, 1, 1, 1])?;
    show(
        out,
        "7-at-2",
        &[2u32, 2, 1, 0, 0, 0, 0, 3, 0, 1, 1, 3, 1, 0, 1, 1, 1, 1, 1],
    )?;
    show(
        out,
        "7-by-the-fence",
        &[1u32, 5, 1, 25, 0, 0, 0, 3, 1, 1, 1, 3],
    )?;
    show(
        out,
        "8-at-1",
        &[2u32, 2, 1, 0, 0, 0, 0, 0, 1, 1, 1, 0, 1, 0, 1, 0, 1, 1, 1],
    )?;
    show(
        out,
        "miss-at-2",
        &[2u32, 1, 1, 0, 0, 0, 0, 1, 2, 2, 2, 1, 1, 0, 1, 1, 2, 2, 1],
    )?;
    Ok(())
}

fn main(rt: HostRuntime) -> Result<()> {
    let mut out = rt.stdout();
    marked(&mut out)?;
    fenced(&mut out)?;
    paired(&mut out)?;
    others(&mut out)?;
    numbers(&mut out)
}
