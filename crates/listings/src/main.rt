//! What `listing` prints for chosen inputs, a line `--` after each: a mesh with one leaf refined, every refusal that a line can
//! have, and every form of a line that is none.

#![tactic(auto)]

use arrayvec::ArrayString;
use std::io;

fn write(rt: &impl Print, text: &[u8]) -> io::Result<()> {
    rt.write_all(text)?;
    println!(rt; "--")
}

fn list(rt: &impl Print, input: &[u8]) -> io::Result<()> {
    let mut page = ArrayString::new();
    listing::put_listing(&mut page, input);
    write(rt, page.as_str().as_bytes())
}

// The same, by a page of bytes.
fn list_in_bytes(rt: &impl Print, input: &[u8]) -> io::Result<()> {
    let mut page = [0; listing::PAGE];
    let end = listing::list(&mut page, input);
    write(rt, &page[..end])
}

// Accepted: one leaf refined, each solid alone, a cell refined and coarsened again, a second level.
fn accepted(rt: &impl Print) -> io::Result<()> {
    list(rt, b"1\nR 4000000000000000\n")?;
    list(rt, b"1\n")?;
    list(rt, b"2\n")?;
    list(rt, b"3\n")?;
    list(rt, b"1\nR 4000000000000000\nC 4000000000000000\n")?;
    list(rt, b"1\nR 4000000000000000\nR 4100000000000001\n")?;
    list(rt, b"3\nR ce00000000000000\n")
}

// Refused: the solid, and then nothing more whatever follows; an order, and then the rest.
fn refused(rt: &impl Print) -> io::Result<()> {
    list(rt, b"0\n")?;
    list(rt, b"4\nR 4000000000000000\n")?;
    list(rt, b"9\nX")?;
    // 1 to 4: the code
    list(
        rt,
        b"1\nR 0000000000000000\nC 4800000000000000\nR 400000000000001b\nC 4000000000000020\nR ffffffffffffffff\n",
    )?;
    // 12, 13: no leaf, no four leaves; a code of another solid
    list(
        rt,
        b"1\nR 4000000000000001\nC 4000000000000000\nR 8000000000000000\nC 8000000000000000\n",
    )?;
    // 7: no children at depth 26
    list(rt, b"1\nC 400000000000001a\nR 400000000000001a\n")?;
    // 14: a larger leaf in the way of a refine; a smaller one in the way of a coarsen
    list(rt, b"1\nR 4000000000000000\nR 4000000000000001\n")?;
    list(
        rt,
        b"1\nR 4000000000000000\nR 4200000000000000\nR 4400000000000000\nR 4600000000000000\nR 4000000000000001\nC 4200000000000000\n",
    )?;
    // what is refused before an unreadable line is printed
    list(rt, b"1\nR 0000000000000000\nX\n")
}

// No solid line, or none that ends.
fn no_solid_line(rt: &impl Print) -> io::Result<()> {
    list(rt, b"")?;
    list(rt, b"\n")?;
    list(rt, b"1")?;
    list(rt, b"12\n")?;
    list(rt, b"a\n")?;
    list(rt, b" 1\n")?;
    list(rt, b"1\r\n")?;
    list(rt, b"1 \n")?;
    list(rt, b"R 4000000000000000\n")
}

// An order line of another form.
fn no_order_line(rt: &impl Print) -> io::Result<()> {
    list(rt, b"1\nR 4000000000000000")?;
    list(rt, b"1\n\n")?;
    list(rt, b"1\nR 400000000000000A\n")?;
    list(rt, b"1\nR 400000000000000g\n")?;
    list(rt, b"1\nR 400000000000000`\n")?;
    list(rt, b"1\nR  400000000000000\n")?;
    list(rt, b"1\nR  4000000000000000\n")?;
    list(rt, b"1\nR 4000000000000000 \n")?;
    list(rt, b"1\nR 4000000000000000\r\n")?;
    list(rt, b"1\nR 400000000000000\n")?;
    list(rt, b"1\nR 40000000000000000\n")?;
    list(rt, b"1\nr 4000000000000000\n")?;
    list(rt, b"1\nX 4000000000000000\n")?;
    list(rt, b"1\nR4000000000000000\n\n")?;
    list(rt, b"1\nR:4000000000000000\n")?;
    list(rt, b"1\n R 4000000000000000\n")?;
    list(rt, b"1\nR 4000000000000000\n\n")?;
    list(rt, b"1\nR 4000000000000000\nC")
}

// As many bytes as are read, and one more: then nothing of it is done.
fn at_the_limit(rt: &impl Print) -> io::Result<()> {
    let mut bytes = [b'x'; 4097];
    bytes[0] = b'0';
    bytes[1] = b'\n';
    list_in_bytes(rt, &bytes[..4096])?;
    list_in_bytes(rt, &bytes)
}

fn main(rt: HostRuntime) -> io::Result<()> {
    accepted(&rt)?;
    refused(&rt)?;
    no_solid_line(&rt)?;
    no_order_line(&rt)?;
    at_the_limit(&rt)
}
