// Reads one sheet from standard input and writes its lines.
#![tactic(auto)]

ghost use Rattle.std.specs.Prelude.{◌≤◌, length, IfOk};

use std::io;
use std::io::{Print, Read, Stdin};

// Reads until the input ends or the buffer is full, however the bytes arrive, and answers how many there were. The loop stays: `read_to_end` has no limit, and
// `read_exact` does not say how much a shorter input gave.
fn read_all(input: &mut Stdin, buffer: &mut [u8]) -> io::Result<usize>
    ensures { IfOk result (λ n. n ≤ length buffer.new) }
{
    let mut done = 0;
    while done < buffer.len() {
        let more = input.read(&mut buffer[done..])?;
        if more == 0 {
            break;
        }
        done += more;
    }
    Ok(done)
}

// Two buffers of a fixed size stay: no input makes the program ask for memory. The largest sheet has 16,895 bytes: of more than that, one byte shows that the
// sheet is too long. A read or a write that fails is not reported.
fn main(rt: HostRuntime) {
    let mut sheet = [0u8; 16896];
    let Ok(length) = read_all(&mut rt.stdin(), &mut sheet) else {
        return;
    };
    let mut output = report::page();
    let Ok(end) = report::print(&sheet[..length], &mut output, 0) else {
        return;
    };
    let _ = rt.write_all(&output[..end]);
}
