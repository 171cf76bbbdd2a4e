// `plotconst`: reads frames on standard input, sweeps each, and prints words and reports.
// All that it computes is `stream::work`'s; here bytes are read and written. No contract can speak of that, so it is kept in sight: the loop of `main`.

#![tactic(auto)]

use std::io;
use std::io::{ErrorKind, Read, Write};
use stream::Next;

// Says on standard error why the output goes no further, in one line. Where nobody reads it any more nobody is told.
fn tell_unwritten(rt: &HostRuntime, why: io::Error) -> io::Result<()> {
    if why.kind() == ErrorKind::BrokenPipe {
        return Ok(());
    }
    eprintln!(rt; "plotconst: cannot write standard output, the reports are not complete: {why}")
}

// The same of the input.
fn tell_unread(rt: &HostRuntime, why: io::Error) -> io::Result<()> {
    eprintln!(rt;
        "plotconst: cannot read standard input, the reports end with the last line read: {why}"
    )
}

// Writes all bytes, by as many writes as that takes. A write that fails is the last, whatever the reason: the library's `write_all` tries one that was interrupted again.
fn write_all(out: &mut impl Write, bytes: &[u8]) -> io::Result<()> {
    let mut rest = bytes;
    while !rest.is_empty() {
        let put = out.write(rest)?;
        if put == 0 {
            return Err(io::Error::from(ErrorKind::WriteZero));
        }
        rest = &rest[put..];
    }
    Ok(())
}

// Reads where that is asked for, works off what there is, and writes: `program` of `stream`'s specs. A read or a write that fails is the last.
// A proved loop has to end, and nothing says that an input does: this one ends after a number of turns that no run uses up.
fn main(rt: HostRuntime) -> io::Result<()> {
    let mut input = [0; 65536];
    let mut out = [0; 65536];
    let mut progress = stream::new();
    let mut next = Next::Read;
    let mut count = 0;
    let mut at = 0;
    for _ in 0..u64::MAX {
        match next {
            Next::Again => {}
            Next::Read => {
                count = match rt.stdin().read(&mut input) {
                    Ok(count) => count,
                    Err(why) => return tell_unread(&rt, why),
                };
                at = 0;
            }
            Next::Stop => return Ok(()),
        }
        let worked = stream::work(progress, &input[..count], at, &mut out);
        if let Err(why) = write_all(&mut rt.stdout(), &out[..worked.moved.used]) {
            return tell_unwritten(&rt, why);
        }
        progress = worked.moved.progress;
        at = worked.moved.at;
        next = worked.next;
    }
    Ok(())
}
