// Prints the strip listing that the first line of standard input asks for. It only reads and prints.
#![tactic(auto)]

ghost use Rattle.std.specs.Prelude.{◌≤◌, IfOk};
ghost use Rattle.arrayvec.specs.ArrayVec.{array_vec_len};

use arrayvec::ArrayVec;
use listing::listing::Listing;
use listing_text::lines::push_refused;
use listing_text::request::Request;
use refusal::Fault;
use std::io::Read;

// Lines are gathered to about so many bytes before they are printed.
const BLOCK: usize = 65536;

// The first line, or as much of it as can matter, byte by byte, so that nothing behind it is read. It wants no memory.
fn read_line(rt: &HostRuntime) -> anyhow::Result<ArrayVec<u8, { Request::LONGEST }>>
    ensures { IfOk result (λ line. array_vec_len line ≤ 55) }
{
    let mut line = ArrayVec::new();
    for byte in rt.stdin().bytes() {
        let byte = byte?;
        line.push(byte);
        if byte == b'\n' || line.is_full() {
            break;
        }
    }
    Ok(line)
}

// Prints a line for each label, some lines at a time.
fn print_rows(rt: &HostRuntime, listing: &Listing, out: &mut String) -> anyhow::Result<()> {
    for label in 0..listing.strip.plan.labels {
        listing.push_row(out, label)?;
        if out.len() >= BLOCK {
            rt.print(out.as_str())?;
            out.clear();
        }
    }
    rt.print(out.as_str())?;
    Ok(())
}

fn run(rt: &HostRuntime) -> anyhow::Result<()> {
    let line = read_line(rt)?;
    let mut out = String::new(rt.alloc());
    match Listing::open(line.as_slice()) {
        Ok(listing) => {
            listing.request.push_header(&mut out)?;
            print_rows(rt, &listing, &mut out)
        }
        Err(fault) => {
            push_refused(&mut out, fault.slip().number)?;
            rt.print(out.as_str())?;
            Ok(())
        }
    }
}

fn main(rt: HostRuntime) -> anyhow::Result<()> {
    run(&rt)
}
