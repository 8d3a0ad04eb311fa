// Table 10, larger trees: with one marked node, and drawn, with patterns along ways up.
use c_answer::answer::Answer;
use sloefertand::evidence::{sloefertand_delete_evidence, sloefertand_insert_evidence};
use std::io;
use std::io::Stdout;
use tables::words::{first_word, second_word};
use test_parts::numbering::{front, pair, words_of};
use test_parts::rows::first;
use test_parts::show::{number, spaced, text};
use test_parts::tree_tables::parent;
use test_parts::ways::{Way, moved, name, steps};

// Words of the longest tree, and of the longest pattern.
const WORDS: usize = 2048;

const STEP_WORDS: usize = 510;

// Cases of one shape and one number of steps.
const CASES: usize = 16;

// A read along a way of more steps than this has larger trees.
const LONG: usize = 32;

// The label of the marked node of a tree, and of an inserted one.
const MARK: usize = 2;

const INSERTED_MARK: usize = 3;

// What all numbers of a case along ways are drawn by.
#[derive(Clone, Copy)]
struct Case {
    shape: usize,
    steps: usize,
    number: usize,
}

// Node v; the last number drawn.
fn drawn_node(shape: usize, v: usize, s: usize, t: &mut [u16]) -> usize {
    let x = moved(s);
    let y = moved(x);
    pair(t, v, parent(shape, v, x), name(y));
    y
}

// The tree of a shape with n nodes.
fn drawn(shape: usize, n: usize, t: &mut [u16]) {
    let mut s = shape % 6 * 1000 + n % 65536;
    for v in 0..n {
        s = drawn_node(shape, v, s, t);
    }
}

// The label of a node: its own where it is the marked one, else 1.
fn mark(v: usize, node: usize, label: usize) -> usize {
    if v == node {
        return label;
    }
    1
}

// The same tree with one label at one node and 1 at all others.
fn marked(shape: usize, n: usize, node: usize, label: usize, t: &mut [u16]) {
    drawn(shape, n, t);
    for v in 0..n {
        let above = first_word(t, v);
        pair(t, v, above, mark(v, node, label));
    }
}

// The first of n nodes, one half way, or the last.
fn place(n: usize, k: usize) -> usize {
    if k % 3 == 0 {
        return 0;
    }
    if k % 3 == 1 {
        return n / 2;
    }
    if n == 0 {
        return 0;
    }
    n - 1
}

// The same below the root.
fn lower_place(n: usize, k: usize) -> usize {
    if k % 3 == 0 {
        return 1;
    }
    place(n, k)
}

// A node's number behind a space; nothing here is refused.
fn show_node(stdout: Stdout, a: Answer) -> io::Result<()> {
    text(stdout, b" ")?;
    if a.refusal != 0 {
        return text(stdout, b"?");
    }
    number(stdout, a.first)
}

// Every node below the root is an update point, and the read goes from the marked node of the tree to that of a copy.
fn marked_insert(stdout: Stdout, shape: usize, n: usize, m: usize, k: usize) -> io::Result<()> {
    let mut t = [0u16; WORDS];
    let mut x = [0u16; WORDS];
    marked(shape, n, lower_place(n, k / 3), MARK, &mut t);
    marked(shape, m, place(m, k), INSERTED_MARK, &mut x);
    show_node(
        stdout,
        sloefertand_insert_evidence(
            &[0, 0, 2, 2, 2, 3],
            &[0, 0, 2, 0],
            front(&x, words_of(m)),
            front(&t, words_of(n)),
        ),
    )
}

fn marked_inserts(stdout: Stdout, shape: usize, n: usize, m: usize) -> io::Result<()> {
    text(stdout, b"marked-insert ")?;
    spaced(stdout, shape)?;
    spaced(stdout, n)?;
    number(stdout, m)?;
    for k in 0..9 {
        marked_insert(stdout, shape, n, m, k)?;
    }
    text(stdout, b"\n")
}

// Every node below the root without a mark is deleted, and the marked one is read.
fn marked_delete(stdout: Stdout, shape: usize, n: usize, k: usize) -> io::Result<()> {
    let mut t = [0u16; WORDS];
    marked(shape, n, lower_place(n, k), MARK, &mut t);
    show_node(
        stdout,
        sloefertand_delete_evidence(&[0, 0, 2, 2], &[0, 0, 2, 1], front(&t, words_of(n))),
    )
}

fn marked_deletes(stdout: Stdout, shape: usize, n: usize) -> io::Result<()> {
    text(stdout, b"marked-delete ")?;
    spaced(stdout, shape)?;
    number(stdout, n)?;
    for k in 0..3 {
        marked_delete(stdout, shape, n, k)?;
    }
    text(stdout, b"\n")
}

// The nodes of the proposed tree; long reads have larger ones.
fn nodes(c: Case) -> usize {
    if LONG < c.steps {
        return c.number % CASES * 64 + 64;
    }
    c.number % CASES * 16 + 16
}

// The shape of the inserted tree.
fn inserted_shape(c: Case) -> usize {
    if c.shape < 5 {
        return 5 - c.shape;
    }
    5
}

// Its nodes.
fn inserted_nodes(c: Case) -> usize {
    if LONG < c.steps {
        return 1024 - c.number % CASES * 60;
    }
    256 - c.number % CASES * 15
}

// The steps of the update's pattern.
fn update_steps(c: Case) -> usize {
    c.number % 3 + 2
}

// The first number drawn for one of three ways.
fn start(c: Case, way: usize) -> usize {
    moved(way % 3 * 10000 + c.steps % 128 * 1000 + c.shape % 6 * 100 + c.number % CASES)
}

// A node below the root by a number.
fn lower(s: usize, n: usize) -> usize {
    if n == 0 {
        return 0;
    }
    first(s, n - 1) % 1024 + 1
}

// A pattern of n steps along a way up from a node.
fn along(n: usize, state: usize, node: usize, rows: &[u16], p: &mut [u16]) {
    steps(n, n, Way { state, node }, rows, p);
}

// A read and a delete, along ways up from two nodes of the tree.
fn way_delete(c: Case) -> Answer {
    let n = nodes(c);
    let mut t = [0u16; WORDS];
    let mut r = [0u16; STEP_WORDS];
    let mut p = [0u16; STEP_WORDS];
    drawn(c.shape, n, &mut t);
    let one = start(c, 0);
    along(c.steps, one, lower(one, n), &t, &mut r);
    let other = start(c, 1);
    along(update_steps(c), other, lower(other, n), &t, &mut p);
    sloefertand_delete_evidence(
        front(&r, words_of(c.steps)),
        front(&p, words_of(update_steps(c))),
        front(&t, words_of(n)),
    )
}

// The steps of an insert's read behind those in the tree: along a way up from a node of the inserted tree.
fn enter(c: Case, x: &[u16], r: &mut [u16]) {
    let at = words_of(c.steps);
    if r.len() < at {
        return;
    }
    let s = start(c, 2);
    along(c.steps, s, first(s, inserted_nodes(c)), x, &mut r[at..]);
    let label = second_word(r, c.steps);
    pair(r, c.steps, c.number % 2 + 1, label);
}

// A read and an insert. The read goes up from a node of the inserted tree and on from a node of the tree, from which the update goes up too.
fn entered(c: Case, x: &[u16], t: &[u16]) -> Answer {
    let mut r = [0u16; STEP_WORDS];
    let mut p = [0u16; STEP_WORDS];
    let s = start(c, 0);
    let node = lower(s, nodes(c));
    along(c.steps, s, node, t, &mut r);
    enter(c, x, &mut r);
    along(update_steps(c), start(c, 1), node, t, &mut p);
    sloefertand_insert_evidence(
        front(&r, words_of(c.steps % 128 * 2)),
        front(&p, words_of(update_steps(c))),
        x,
        t,
    )
}

// The same, with both trees.
fn way_insert(c: Case) -> Answer {
    let mut t = [0u16; WORDS];
    let mut x = [0u16; WORDS];
    drawn(c.shape, nodes(c), &mut t);
    drawn(inserted_shape(c), inserted_nodes(c), &mut x);
    entered(
        c,
        front(&x, words_of(inserted_nodes(c))),
        front(&t, words_of(nodes(c))),
    )
}

fn way_deletes(stdout: Stdout, shape: usize, steps: usize) -> io::Result<()> {
    text(stdout, b"way-delete ")?;
    spaced(stdout, shape)?;
    number(stdout, steps)?;
    for k in 0..CASES {
        show_node(
            stdout,
            way_delete(Case {
                shape,
                steps,
                number: k,
            }),
        )?;
    }
    text(stdout, b"\n")
}

fn way_inserts(stdout: Stdout, shape: usize, steps: usize) -> io::Result<()> {
    text(stdout, b"way-insert ")?;
    spaced(stdout, shape)?;
    number(stdout, steps)?;
    for k in 0..CASES {
        show_node(
            stdout,
            way_insert(Case {
                shape,
                steps,
                number: k,
            }),
        )?;
    }
    text(stdout, b"\n")
}

// Both for so many steps.
fn ways(stdout: Stdout, shape: usize, steps: usize) -> io::Result<()> {
    way_deletes(stdout, shape, steps)?;
    way_inserts(stdout, shape, steps)
}

// All lines of a shape.
fn lines_of(stdout: Stdout, shape: usize) -> io::Result<()> {
    marked_inserts(stdout, shape, 2, 1024)?;
    marked_inserts(stdout, shape, 16, 256)?;
    marked_inserts(stdout, shape, 17, 256)?;
    marked_inserts(stdout, shape, 1024, 1)?;
    marked_inserts(stdout, shape, 1024, 64)?;
    marked_deletes(stdout, shape, 2)?;
    marked_deletes(stdout, shape, 17)?;
    marked_deletes(stdout, shape, 1024)?;
    ways(stdout, shape, 2)?;
    ways(stdout, shape, 4)?;
    ways(stdout, shape, 32)?;
    ways(stdout, shape, 127)
}

pub(crate) fn lines(stdout: Stdout) -> io::Result<()> {
    lines_of(stdout, 1)?;
    lines_of(stdout, 2)?;
    lines_of(stdout, 3)?;
    lines_of(stdout, 4)?;
    lines_of(stdout, 5)
}
