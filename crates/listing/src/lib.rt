//! What `meshlist` prints, as one function from the bytes that are read to the page that is written. Text is put in by `push_str`: `write!`
//! may fail, and nothing here can. Each function asks for the room that its own text takes.

#![tactic(auto)]

ghost use Rattle.std.specs.Prelude.{List, [], ◌++◌, ◌≡◌, ℕ, ◌+◌, ◌*◌, ◌≤◌, length, take, drop};
ghost use Rattle.arrayvec.specs.ArrayString.{array_string_len};
ghost use Rattle.refusals.specs.Refusals.{Single};
ghost use Rattle.refusals.specs.Answers.{unit_reply};
ghost use Rattle.soundness.specs.Leaves.{Leaf, leaves};
ghost use Rattle.soundness.specs.Soundness.{SoundIn};
ghost use Rattle.examine.specs.Examined.{whole_of};
ghost use Rattle.listing.specs.Listing.{unreadable, answer, difference, width, LeafLine, LeafLines, Goes, Prints};
ghost use Rattle.listing.specs.Lines.{SolidIs, OrderIs, Printed, Grown, Obeyed};

use arrayvec::ArrayString;
use codes::Code;
use refusals::Refusal;
use solids::Side;
use soundness::Met;
use soundness::meshes::Mesh;

// The most bytes that are read as an input.
const INPUT: usize = 4096;

/// As many bytes as any input can print: 26 for each of 8,192 leaves, and no more for the answers than the input has.
pub const PAGE: usize = 217088;

/// What a line of the input asks for: to refine a leaf, or to coarsen to a cell.
#[derive(Clone, Copy, Debug, PartialEq, Eq)]
enum Order {
    Refine(u64),
    Coarsen(u64),
}

fn put_unreadable(page: &mut ArrayString<PAGE>)
    requires { array_string_len page.old + 11 ≤ PAGE }
    ensures { page.new.bytes ≡ page.old.bytes ++ unreadable }
{
    page.push_str("unreadable\n");
}

// How many digits a refusal's number has.
fn width(number: u64) -> usize
    ensures value { result ≡ width number }
    ensures upper_bound { result ≤ 2 }
{
    if number < 10 { 1 } else { 2 }
}

// What a call prints: nothing when it is done.
fn put_answer(page: &mut ArrayString<PAGE>, change: Result<(), Refusal>)
    requires { array_string_len page.old + 11 ≤ PAGE }
    ensures { page.new.bytes ≡ page.old.bytes ++ answer (unit_reply change).number }
{
    if let Err(refusal) = change {
        let number = refusal.number();
        page.push_str("refused ");
        text::put_digits(page, 10, width(number), number);
        page.push_str("\n");
    }
}

// The level of what a side meets, less the leaf's own.
fn difference(met: Met) -> &'static str
    ensures value { result.now ≡ difference met }
    ensures upper_bound { length result.now ≤ 3 }
{
    match met {
        Met::Larger(_) => " -1",
        Met::Equal(_) => " 0",
        Met::Smaller(_, _) => " 1",
        Met::Open => " 0",
    }
}

// That the code is a leaf ties it to the mesh, which neither type can hold.
fn put_leaf(page: &mut ArrayString<PAGE>, mesh: &Mesh<'_>, leaf: Code)
    requires room { array_string_len page.old + 26 ≤ PAGE }
    requires leaf { Leaf mesh.now.leaves leaf }
    ensures printed { Printed (LeafLine mesh.now.leaves leaf) page.old.bytes page.new.bytes }
    ensures upper_bound { array_string_len page.new ≤ array_string_len page.old + 26 }
{
    text::put_digits(page, 16, 16, leaf.bits());
    // Side by side: a loop over three would need an invariant of what stands there.
    page.push_str(difference(sides::side_of(mesh, leaf, Side::Left)));
    page.push_str(difference(sides::side_of(mesh, leaf, Side::Right)));
    page.push_str(difference(sides::side_of(mesh, leaf, Side::Vertical)));
    page.push_str("\n");
}

// The list of all leaves.
fn put_leaves(page: &mut ArrayString<PAGE>, mesh: &Mesh<'_>)
    requires { array_string_len page.old + 26 * length mesh.now.leaves ≤ PAGE }
    ensures printed { Printed (LeafLines mesh.now.leaves mesh.now.leaves) page.old.bytes page.new.bytes }
    ensures upper_bound { array_string_len page.new ≤ array_string_len page.old + 26 * length mesh.now.leaves }
{
    let leaves = mesh.codes();
    for &leaf in leaves {
        put_leaf(page, mesh, Code::new(leaf));
    }
}

// The list of the mesh in the slots. It is sound, so it is never refused.
fn put_list(page: &mut ArrayString<PAGE>, slots: &[u64])
    requires room { array_string_len page.old + 26 * 8192 ≤ PAGE }
    requires sound { SoundIn (whole_of slots.now) slots.now }
    ensures printed { Printed (LeafLines (leaves slots.now) (leaves slots.now)) page.old.bytes page.new.bytes }
    ensures upper_bound { array_string_len page.new ≤ array_string_len page.old + 26 * 8192 }
{
    if let Ok(mesh) = examine::examine(slots) {
        put_leaves(page, &mesh);
    }
}

// The order that a line is.
fn order_of(line: &[u8]) -> Option<Order>
    requires { length line.now ≤ 19 }
    ensures { OrderIs line.now result }
{
    if line.len() < 19 {
        return None;
    }
    let [letter, b' ', digits @ .., b'\n'] = line else {
        return None;
    };
    let code = text::read_hex(digits)?;
    match letter {
        b'R' => Some(Order::Refine(code)),
        b'C' => Some(Order::Coarsen(code)),
        _ => None,
    }
}

// Does an order, and puts in what it prints.
fn obey(page: &mut ArrayString<PAGE>, slots: &mut [u64], order: Order)
    requires { array_string_len page.old + 11 ≤ PAGE }
    ensures { Obeyed order slots.old slots.new page.old.bytes page.new.bytes }
{
    match order {
        Order::Refine(leaf) => put_answer(page, mesh::refine(slots, leaf)),
        Order::Coarsen(cell) => put_answer(page, mesh::coarsen(slots, cell)),
    }
}

// Does the orders, a line after the other, and lists the mesh that they leave.
fn obey_all(page: &mut ArrayString<PAGE>, slots: &mut [u64], orders: &[u8])
    requires empty { page.old.bytes ≡ [] }
    requires grown { Grown slots.old }
    requires short { length orders.now ≤ 4096 }
    ensures goes { Goes slots.old orders.now page.new.bytes }
    ensures upper_bound { array_string_len page.new ≤ PAGE }
{
    for line in orders.chunks(19) {
        let Some(order) = order_of(line) else {
            put_unreadable(page);
            return;
        };
        obey(page, slots, order);
    }
    put_list(page, slots);
}

// The digit of the solid line.
fn solid_first(input: &[u8]) -> Option<u64>
    ensures { SolidIs input.now result }
{
    match input {
        [digit @ b'0'..=b'9', b'\n', ..] => Some(u64::from(digit - b'0')),
        _ => None,
    }
}

/// Clears the page, and puts in what is printed for an input.
pub fn put_listing(page: &mut ArrayString<PAGE>, input: &[u8])
    ensures prints { Prints input.now page.new.bytes }
    ensures upper_bound { array_string_len page.new ≤ PAGE }
{
    page.clear();
    if INPUT < input.len() {
        put_unreadable(page);
        return;
    }
    let Some(solid) = solid_first(input) else {
        put_unreadable(page);
        return;
    };
    let mut slots = [0; 8192];
    match mesh::fresh(&mut slots, solid) {
        Ok(()) => obey_all(page, &mut slots, &input[2..]),
        Err(refusal) => put_answer(page, Err(refusal)),
    }
}

/// Writes what is printed for an input into the first bytes of a page, and answers how many they are. The others stay as they are.
pub fn list(page: &mut [u8; PAGE], input: &[u8]) -> usize
    ensures prints { Prints input.now (take result page.new) }
    ensures rest { drop result page.new ≡ drop result page.old }
    ensures upper_bound { result ≤ length page.new }
{
    let mut text = ArrayString::new();
    put_listing(&mut text, input);
    let bytes = text.as_str().as_bytes();
    page[..bytes.len()].copy_from_slice(bytes);
    bytes.len()
}

// A theorem. Its function has an empty body and stands for what it ensures, so that the gate asks for it by name.

/// Each input prints one text.
pub fn each_input_prints_one_text()
    ensures { (bytes : List ℕ) → Single (Prints bytes) }
{}
