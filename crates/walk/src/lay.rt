// The tree laid out flat.
ghost use Rattle.std.specs.Prelude.{◌≡◌, length, take};
ghost use Rattle.walk.specs.LaidOut.{LaidOut};
ghost use Rattle.walk.specs.Links.{linked_tree, Room, Placed};

use crate::links::Links;
use crate::step::Step;
use image::accepted::Accepted;

// Lays out a record and what hangs below it, at most so many generations, from place `at` on, and gives the place behind. The depth of the
// calls is the number of generations.
fn lay(links: &[Links], node: usize, generations: usize, steps: &mut [Step], at: usize) -> usize
    requires { Room links.now generations node steps.old at }
    ensures { Placed steps.old at (linked_tree links.now generations node) steps.new result }
{
    let mut behind = at + 1;
    if 0 < generations {
        let mut link = links[node].child;
        while let Some(child) = link.node() {
            behind = lay(links, child, generations - 1, steps, behind);
            link = links[child].sibling;
        }
    }
    steps[at] = Step {
        node: node as u16,
        behind: behind as u16,
    };
    behind
}

// Lays out the whole tree in front of so many steps.
pub fn lay_out(library: &Accepted, steps: &mut [Step])
    requires { length steps.old ≡ 1024 }
    ensures { LaidOut library.now.records.image.now (take library.now.records.shape.count steps.new) }
{
    let mut links = [Links::NONE; 1024];
    crate::links::hang(library, &mut links);
    lay(&links, library.root, 21, steps, 0);
}
