// Holds the trial that a script on standard input asks for, and prints what happened. It only reads and prints:
// the first line is the listing's, and the trial is the library's.
#![tactic(auto)]

mod closing;
mod command;
mod report;
mod script;
mod told;
mod wording;

use anyhow::anyhow;
use levels::arithmetic::Dividing;
use levels::choice::AnyRing;
use listing::listing::Listing;
use listing_text::request::Request;
use refusal::Fault;
use std::io::{BufWriter, Read, Write};
use strip::cell::Strip;
use trial::conduct::{TrialFault, conduct};
use wording::{Header, Reason, Refusal};

// Holds the trial of a strip over this arithmetic, by the script whose first line asked for it, and prints it.
fn hold<R: Dividing + Copy>(
    rt: &HostRuntime,
    listing: Listing,
    ring: R,
    text: &[u8],
) -> anyhow::Result<()> {
    let heap = rt.alloc();
    let strip = Strip {
        plan: listing.strip.plan,
        ring,
        shuffler: listing.strip.shuffler,
    };
    let script = script::Script::read(heap, text, strip.plan)?;
    let mut words = vec![in heap; 0u16; strip.plan.labels as usize]?;
    // Kept: two texts by a match, as a Display of the fault would stand in the library for this program alone.
    let outcome = conduct(heap, &strip, &mut words, &script.calls, &script.questions).map_err(
        |fault| match fault {
            TrialFault::Memory => anyhow!("no memory"),
            _ => anyhow!("the trial was not begun"),
        },
    )?;
    let mut out = BufWriter::new(heap, rt.stdout())?;
    writeln!(out, "{}", Header(listing.request))?;
    report::print(&mut out, &strip, &script, &outcome, &words)?;
    out.flush()?;
    Ok(())
}

// Holds the trial by the arithmetic of its strip, if that divides.
fn answer(rt: &HostRuntime, listing: Listing, text: &[u8]) -> anyhow::Result<()> {
    match listing.strip.ring {
        AnyRing::Listed(ring) => hold(rt, listing, ring, text),
        AnyRing::Binary(ring) => hold(rt, listing, ring, text),
        AnyRing::Clock(_) => {
            println!(rt; "1 no trial: {}", Reason(4))?;
            Ok(())
        }
    }
}

// Reads as far as the first line can reach, and the rest only if that line is accepted.
fn run(rt: &HostRuntime) -> anyhow::Result<()> {
    let mut text = Vec::new(rt.alloc());
    rt.stdin()
        .take(Request::LONGEST as u64)
        .read_to_end(&mut text)?;
    match Listing::open(&text) {
        Ok(listing) => {
            rt.stdin().read_to_end(&mut text)?;
            answer(rt, listing, &text)
        }
        Err(fault) => {
            println!(rt; "1 {}", Refusal(fault.slip()))?;
            Ok(())
        }
    }
}

fn main(rt: HostRuntime) -> anyhow::Result<()> {
    run(&rt)
}
