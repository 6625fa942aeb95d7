// The journal printer: reads a volume from standard input and writes its page, or UNSOUND, to standard output. One byte more than is printed is read, to
// tell a file that is too long.

#![tactic(auto)]

use std::io;

fn print(rt: &impl Print, bytes: &[u8]) -> io::Result<()> {
    let mut out = [0u8; printout::MOST_WRITTEN];
    let length = printout::printout(bytes, &mut out);
    rt.write_all(&out[..length])
}

fn main(rt: HostRuntime) -> io::Result<()> {
    let mut bytes = [0u8; printout::MOST_BYTES + 1];
    let n = text::read_full(&mut rt.reader(), &mut bytes)?;
    print(&rt, &bytes[..n])
}
