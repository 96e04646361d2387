//! The whole text of a report.
ghost use Rattle.std.specs.Prelude.{◌≡◌, ◌++◌, string_bytes, IfOk, OnOk};
ghost use Rattle.rdm_report.specs.Text.{status_word, left_text, counts_text, end_text, ends_text, report_text};

use crate::answer::put_answer;
use crate::entry::put_entries;
use rdm_model::{End, Next, Report};
use rdm_num::Bytes;
use std::alloc::{AllocError, Global};

/// The report as text: a heading, a line for each entry in order of stamp and port, a line for each
/// rank, and `end`.
#[tactic(auto, unfolding(crate::specs::Text::report_text))]
pub fn text(alloc: Global, report: &Report) -> Result<Bytes, AllocError>
    ensures { IfOk result (λ text. text ≡ report_text report.now) }
{
    let mut out = String::new(alloc);
    let word = status_word(report.stuck);
    let count = report.history.len();
    write!(out, "rdm report 1\nstatus {word}\nentries {count}\n")?;
    put_entries(alloc, &mut out, report.history.as_slice())?;
    put_ends(&mut out, report.ends.as_slice())?;
    out.push_str("end\n")?;
    Ok(Bytes::from_vec(out.into_bytes()))
}

fn status_word(stuck: bool) -> &'static str
    ensures { result.now ≡ status_word stuck }
{
    if stuck { "stuck" } else { "done" }
}

/// Whether a program ended, how many of its instructions it did, and what it waits for.
fn put_left(out: &mut String, done: u64, all: u64, left: Option<Next>) -> Result<(), AllocError>
    ensures { OnOk result (string_bytes out.new ≡ string_bytes out.old ++ left_text done all left) }
{
    match left {
        Some(answer) => {
            write!(out, "stuck {done} of {all} ")?;
            put_answer(out, answer)
        }
        None => write!(out, "done {done} of {all}"),
    }
}

/// How many datagrams were dropped, and how many wait.
fn put_counts(out: &mut String, end: End) -> Result<(), AllocError>
    ensures { OnOk result (string_bytes out.new ≡ string_bytes out.old ++ counts_text end) }
{
    let to_other = end.to_other;
    let from_other = end.from_other;
    let waiting = end.waiting;
    write!(out, "dropped {to_other} {from_other} waiting {waiting}")
}

fn put_end(out: &mut String, rank: usize, end: End) -> Result<(), AllocError>
    ensures { OnOk result (string_bytes out.new ≡ string_bytes out.old ++ end_text rank end) }
{
    write!(out, "rank {rank} ")?;
    put_left(out, end.done, end.all, end.left)?;
    write!(out, " ")?;
    put_counts(out, end)?;
    out.push_str("\n")
}

fn put_ends(out: &mut String, ends: &[End]) -> Result<(), AllocError>
    ensures { OnOk result (string_bytes out.new ≡ string_bytes out.old ++ ends_text 0 ends.now) }
{
    for (rank, end) in ends.iter().enumerate() {
        put_end(out, rank, *end)?;
    }
    Ok(())
}
