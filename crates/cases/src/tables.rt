// Tables: read, and written.
use crate::show::{self, Bytes};
use session::Session;
use std::{array, io};
use tree::Tree;

// A table is read, and the tree is written into bytes of ones.
pub fn read(rt: &impl Print, bytes: &[u8]) -> io::Result<()> {
    let read = table::read(bytes);
    print!(rt; "table{}: {}", Bytes(bytes), show::number(&read))?;
    if let Ok(tree) = read {
        print!(rt; " {} nodes, back", tree.count)?;
        written(rt, tree, &mut [255; 256])?;
    }
    println!(rt)
}

// The tree of so many nodes in which each node but the first has so many children, as far as they
// go, is written into the bytes; entry c is made 255 before. Then a session is started from it.
pub fn write(rt: &impl Print, count: u64, children: u64, c: u64, out: &mut [u8]) -> io::Result<()> {
    let tree = grown(count % 65536, children, c);
    let fresh = Session::fresh(tree);
    print!(rt; "tree {count} {children} {c}:")?;
    written(rt, tree, out)?;
    println!(rt;
        " session {} {}",
        show::number(&fresh),
        fresh.map_or(0, |session| session.tree.count)
    )
}

// What writing a tree answers, and the bytes after it.
fn written(rt: &impl Print, tree: Tree, out: &mut [u8]) -> io::Result<()> {
    let written = table::write(tree, out);
    print!(rt;
        " {} {} bytes,{}",
        show::number(&written),
        written.unwrap_or(0),
        Bytes(out)
    )
}

fn grown(count: u64, children: u64, c: u64) -> Tree {
    Tree {
        count: (count % 65536) as u16,
        parents: array::from_fn(|i| parent(count, children, c, i as u64)),
    }
}

fn parent(count: u64, children: u64, c: u64, i: u64) -> u8 {
    if i == c {
        255
    } else if 0 < i && i < count && 0 < children {
        ((i - 1) / children % 256) as u8
    } else {
        0
    }
}
