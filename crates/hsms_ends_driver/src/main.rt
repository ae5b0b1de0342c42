//! Reads lists of inputs, passes them to endpoints, and writes the results; for `tests/gate/endpoint_inputs.py`.
//!
//! A list is a sequence of lines of standard input. First come the settings, as in the first line of a log. Then
//! comes `desk NUMBER MODEL REVISION`: the first system bytes, and the texts that the equipment handler sends. Or
//! `obliging NUMBER`: the first system bytes of an endpoint whose handler answers each primary with a reply without
//! an item. Then come the inputs: `start N`, `tick N`, `bytes OCTETS`, `send NOTATION`, `linktest`, `separate` and
//! `lost`. The last line is `end`. Bytes, and texts of the handler, are hexadecimal; `-` means none.
//!
//! For each list it writes the lines of the entries that each call returns, or `refused FAULT`, then
//! `pending OCTETS`. The last line is `end` if `drive` has the same entries and the same pending bytes, otherwise
//! `other`.
#![tactic(auto)]

mod list;
mod live;
mod obliging;

use list::List;
use live::live;
use std::alloc::Global;
use std::io;
use std::io::{BufRead, BufReader, BufWriter, Write};

fn main(rt: HostRuntime) -> Result<(), anyhow::Error> {
    let alloc = rt.alloc();
    let mut output = BufWriter::new(alloc, io::writer(&rt))?;
    let mut list = List::new(alloc);
    for line in BufReader::new(alloc, rt.reader())?.lines(alloc) {
        let line = line?;
        if line.as_str() == "end" {
            output.write_all(&live(alloc, &list)?)?;
            list = List::new(alloc);
        } else {
            list.add(alloc, line.as_str())?;
        }
    }
    output.flush()?;
    Ok(())
}
