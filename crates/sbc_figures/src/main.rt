// Runs the figures of document 01, the published frame of silence and streams of other codecs on the compiled code, and writes what it
// gives, a line each; the file stdout has what must come.
#![tactic(auto)]

mod distance;
mod figures;
mod show;
mod silence;
mod streams;

use std::io;

fn main(rt: HostRuntime) -> io::Result<()> {
    figures::show_all(&rt)?;
    silence::encoded(&rt)?;
    silence::decoded(&rt)?;
    streams::show_all(&rt)
}
