// A list of nodes, looked up in one call.
#![tactic(auto)]

ghost use Rattle.std.specs.Prelude.{◌≡◌, ◌*◌, ◌≤◌, length};
ghost use Rattle.laws.specs.Front.{fronted};
ghost use Rattle.edition.specs.Fair.{FairLayout};
ghost use Rattle.nodelist.specs.Places.{node_words, places_of, list_fits, area_of};

use edition::Layout;
use refusal::{Fault, Refusal, Verdict};
use tree::{Found, Node};

// An answer as the nine words of a place.
fn words_of(answer: Result<Found<Node>, Refusal>) -> [u64; 9]
    ensures { result ≡ node_words answer }
{
    match answer {
        Ok(Found::Entry(n, pages)) => [0, 0, 0, 1, pages, n.node, n.block, n.subnode, n.parent],
        Ok(Found::Absent(pages)) => [0, 0, 0, 0, pages, 0, 0, 0, 0],
        Err(r) => {
            let number = u64::from(refusal::number_of(r.fault));
            [number, r.place, r.more, 0, 0, 0, 0, 0, 0]
        }
    }
}

// Each number's answer into its place. The header and the root page are tested once; the way to a leaf
// page is taken again for the numbers behind that belong there too.
fn fill(image: &[u8], l: Layout, nodes: &[u64], places: &mut [u64])
    requires { FairLayout l × (length nodes.now ≤ 4096) × (9 * length nodes.now ≤ length places.old) }
    ensures { places.new ≡ fronted (places_of l image.now nodes.now) places.old }
{
    let start = tree::check_start(image, l);
    let mut way = Ok(Found::Absent(0));
    for (i, node) in nodes.iter().enumerate() {
        way = tree::way_to(image, l, start, way, *node);
        let words = words_of(tree::at(image, l, way, *node));
        places[9 * i..9 * i + 9].copy_from_slice(&words);
    }
}

// An empty list is answered without a look at the image.
pub fn find_nodes(image: &[u8], l: Layout, nodes: &[u64], places: &mut [u64]) -> Verdict
    requires { FairLayout l }
    ensures answer { result ≡ list_fits (length nodes.now) (length places.old) }
    ensures area { places.new ≡ area_of l image.now nodes.now places.old }
{
    let count = nodes.len();
    if 4096 < count {
        return refusal::refused_needing(Fault::ShortBuffer, 4096);
    }
    if places.len() / 9 < count {
        return refusal::refused_needing(Fault::ShortBuffer, count as u64);
    }
    if 0 < count {
        fill(image, l, nodes, places);
    }
    Ok(())
}
