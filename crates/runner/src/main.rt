//! The runner on standard input and output.
//!
//! Records come in, and the lines that answer them go out. `serve_streams` of serving is handed standard input and output, and its contract says what comes of them. The memory is fixed: a table for ceilings up to 64, the committees of its rounds, and a buffer each for input and output. docs/SECOND-SUPPLIER.md.
#![tactic(auto)]

use serving::lengths::{CACHE, INPUT, OUTPUT, TABLE};
use std::io;
use stream::tied::Tied;

// Where answers are lost, or records of the input, the program ends with a status that is not 0.
fn main(rt: HostRuntime) -> io::Result<()> {
    let mut cache = [0u64; CACHE];
    let mut table = [0u32; TABLE];
    let mut buffer = [0u8; INPUT];
    let mut out = [0u8; OUTPUT];
    let mut streams = Tied {
        input: rt.stdin(),
        output: rt.stdout(),
    };
    serving::serve_streams(&mut streams, &mut cache, &mut table, &mut buffer, &mut out)
}
