//! Reads orders for a mesh from standard input and lists the mesh that they leave. What is printed is settled in `listing`.

#![tactic(auto)]

ghost use Rattle.std.specs.Prelude.{◌≤◌, length, IfOk};

use arrayvec::ArrayString;
use std::io;
use std::io::Read;

// Reads until the buffer is full or the input ends, in as many pieces as it comes, and answers how many bytes were read. By hand:
// `read_exact` refuses a shorter input, and `read_to_end` takes a heap.
fn read_full(input: &mut impl Read, buffer: &mut [u8]) -> io::Result<usize>
    ensures { IfOk result (λ n. n ≤ length buffer.new) }
{
    let mut done = 0;
    while done < buffer.len() {
        let n = input.read(&mut buffer[done..])?;
        if n == 0 {
            break;
        }
        done += n;
    }
    Ok(done)
}

fn main(rt: HostRuntime) -> io::Result<()> {
    // one byte more than may be read: a longer input is told by it
    let mut input = [0u8; 4097];
    let n = read_full(&mut rt.stdin(), &mut input)?;
    let mut page = ArrayString::new();
    listing::put_listing(&mut page, &input[..n]);
    // In one write: `print!` writes a page in pieces.
    rt.write_all(page.as_str().as_bytes())
}
