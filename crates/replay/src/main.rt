// Reads an event file on standard input and prints its day, a line for each call, or the one line that says why the file is refused.
#![tactic(auto)]

use std::io;
use std::io::Print;

fn print(rt: &impl Print, file: &[u8]) -> io::Result<()> {
    match files::read(file) {
        Ok(layout) => days::tell(file, layout, |lines| rt.write_all(lines)),
        Err(fault) => rt.write_all(&days::fault_line(fault)),
    }
}

// As bench begins and ends: one function of both would be passed what each prints, with when it may be called, and be no shorter.
fn main(rt: HostRuntime) {
    let mut file = files::room();
    let n = match host::read_full(&mut rt.stdin(), &mut file) {
        Ok(n) => n,
        Err(error) => return host::fail(&rt, "standard input", error),
    };
    if let Err(error) = print(&rt, &file[..n]) {
        host::fail(&rt, "standard output", error);
    }
}
