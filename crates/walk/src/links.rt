// Each record's children in file order, as links.
ghost use Rattle.std.specs.Prelude.{◌≡◌, ◌<◌, ◌≤◌, MatchOption};
ghost use Rattle.walk.specs.Links.{Linked};

use image::accepted::Accepted;

// A record's number, or none. An Option takes four bytes in place of two: 4 KiB of stack more for each search. What reads a link gets an Option.
#[derive(Clone, Copy)]
pub struct Link(u16);

impl Link {
    pub const NONE: Link = Link(1024);

    fn to(node: usize) -> Link
        requires { node < 1024 }
        ensures { result.0 ≡ node }
    {
        Link(node as u16)
    }

    pub fn node(self) -> Option<usize>
        ensures { MatchOption result (1024 ≤ self.0) (λ n. (n ≡ self.0) × (n < 1024)) }
    {
        let node = usize::from(self.0);
        if node < 1024 { Some(node) } else { None }
    }
}

#[derive(Clone, Copy)]
pub struct Links {
    pub child: Link, // its first child
    pub sibling: Link, // the next child of its parent
}

impl Links {
    pub const NONE: Links = Links {
        child: Link::NONE,
        sibling: Link::NONE,
    };
}

// The records are taken from the last to the first, and each goes in front of its parent's children.
pub fn hang(library: &Accepted, links: &mut [Links])
    requires { Linked library.now.records.image.now links.old library.now.records.shape.count }
    ensures { Linked library.now.records.image.now links.new 0 }
{
    for i in (0..library.records.shape.count).rev() {
        if i != library.root {
            let parent = library.records.parent(i);
            links[i].sibling = links[parent].child;
            links[parent].child = Link::to(i);
        }
    }
}
